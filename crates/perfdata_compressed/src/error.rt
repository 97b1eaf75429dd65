//! Why the content of a compressed record can't be read.
ghost use Rattle.std.specs.Prelude.{◌≡◌, ◌≢◌, ◌↔◌, IsTrue};
ghost use Rattle.std.specs.IoError.{error_kind};
ghost use Rattle.std.specs.declared.io.ErrorKind.TheVariants.{InvalidData, OutOfMemory};
ghost use Rattle.perfdata_compressed.specs.CompressedErrors.{no_memory};

use std::alloc::AllocError;
use std::fmt::InlineText;
use std::io;
use std::io::ErrorKind;
use thiserror::Error;
use zstd::ZstdError;

// The maximum size in bytes of the text of an error.
const TEXT_SIZE: usize = 128;

/// Why the content of a compressed record can't be read.
#[derive(Clone, Copy, Debug, PartialEq, Eq, Error)]
pub enum CompressedError {
    /// The algorithm in the feature COMPRESSED isn't zstd (1).
    #[error("compressed by an unknown algorithm ({0})")]
    Algorithm(u32),
    /// The size of the compressed data in a record of type 83 is larger than its body, or truncated.
    #[error("compressed data larger than their record")]
    DataSize,
    /// The compressed data can't be decompressed.
    #[error("compressed data: {0}")]
    Stream(ZstdError),
    /// The size of a record in the content is below 8, the size of its header.
    #[error("size of a record in compressed data below 8")]
    RecordSize,
    /// A record in the content has the type of a tool's record, 64 or above, which perf doesn't compress.
    #[error("record of type {0} in compressed data")]
    RecordType(u32),
}

impl CompressedError {
    /// Whether memory ran out.
    pub fn is_out_of_memory(self) -> bool
        ensures { IsTrue result ↔ (self ≡ no_memory) }
    {
        matches!(self, CompressedError::Stream(ZstdError::Memory))
    }

    /// Returns an I/O error with the text of this one: `OutOfMemory` if memory ran out, else `InvalidData`.
    pub fn io_error(self) -> io::Error
        ensures memory { self ≡ no_memory → error_kind result ≡ OutOfMemory }
        ensures content { self ≢ no_memory → error_kind result ≡ InvalidData }
    {
        if self.is_out_of_memory() {
            return io::Error::from(ErrorKind::OutOfMemory);
        }
        let text = InlineText::<TEXT_SIZE>::of(&self);
        io::Error::new(ErrorKind::InvalidData, text.as_str())
    }
}

impl From<ZstdError> for CompressedError {
    fn from(error: ZstdError) -> CompressedError {
        CompressedError::Stream(error)
    }
}

impl From<AllocError> for CompressedError {
    fn from(_: AllocError) -> CompressedError {
        CompressedError::Stream(ZstdError::Memory)
    }
}
