//! The errors of protobuf decoding.
ghost use Rattle.std.specs.Prelude.{◌≡◌};
ghost use Rattle.perfdata_sections.specs.declared.decode_error.DecodeError.TheVariants.{Memory as OfMemory};

use std::alloc::{AllocError, AllocFailed};
use thiserror::Error;

/// The error of decoding a protobuf message.
#[derive(Clone, Copy, Debug, PartialEq, Eq, Error)]
pub enum DecodeError {
    /// The enclosing bytes end inside a varint, a fixed-size value, length-delimited bytes or a group.
    #[error("Truncated")]
    Truncated,
    /// A varint has more than ten bytes, or its tenth byte is above 1.
    #[error("Varint")]
    Varint,
    /// A field's key is 2^32 or more, or its field number is 0.
    #[error("Key")]
    Key,
    /// A field's wire type is 6 or 7, or a known field has a wire type other than its own.
    #[error("WireType")]
    WireType,
    /// A group end has no open group, or has a field number other than that of the open group.
    #[error("Group")]
    Group,
    /// An unknown group is nested in 100 unknown groups.
    #[error("Depth")]
    Depth,
    /// A string isn't valid UTF-8.
    #[error("Utf8")]
    Utf8,
    /// Memory ran out.
    #[error("Memory")]
    Memory,
}

impl From<AllocError> for DecodeError {
    ghost from_gives = { λ _ error. error ≡ OfMemory };

    fn from(_error: AllocError) -> DecodeError {
        DecodeError::Memory
    }
}

impl<T: Drop> From<AllocFailed<T>> for DecodeError {
    ghost from_gives = { λ _ error. error ≡ OfMemory };

    fn from(_error: AllocFailed<T>) -> DecodeError {
        DecodeError::Memory
    }
}
