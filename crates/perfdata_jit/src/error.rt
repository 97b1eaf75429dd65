//! The error of opening a jitdump.
ghost use Rattle.std.specs.Prelude.{◌≡◌};
ghost use Rattle.perfdata_jit.specs.declared.error.JitDumpError.TheVariants.{Io as OfIo};

use std::io;
use thiserror::Error;

/// An error of opening a jitdump file.
#[derive(Debug, Drop, Error)]
pub enum JitDumpError {
    /// The file or the buffer ends before the end of the header.
    #[error("The file does not contain enough bytes to parse the jitdump header.")]
    NotEnoughBytesForHeader,
    /// The size field of the header, which is the value of this variant, is less than the minimum size of a
    /// header.
    #[error("Invalid jitdump header size: {0}")]
    InvalidHeaderSize(u32),
    /// The first four bytes, which are the value of this variant, are not the magic of a jitdump file.
    #[error("The file does not appear to be a jitdump file, due to unexpected magic bytes: {:02x} {:02x} {:02x} {:02x}", .0[0], .0[1], .0[2], .0[3])]
    InvalidMagicBytes([u8; 4]),
    /// Never returned: files of all versions are read in the same way.
    #[error("The jitdump file has an unrecognized version: {0}")]
    UnrecognizedVersion(u32),
    /// The source failed, or the allocation of memory failed.
    #[error("Failed to read from the jitdump file: {0}")]
    Io(io::Error),
}

impl From<io::Error> for JitDumpError {
    ghost from_gives = { λ error made. made ≡ OfIo error };

    fn from(error: io::Error) -> JitDumpError {
        JitDumpError::Io(error)
    }
}
