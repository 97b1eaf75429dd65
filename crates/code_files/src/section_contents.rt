//! The contents of sections, which may be compressed.

use code_symbols::{Compression, CompressionFormat, ElfError, ElfFile, SectionBytes};
use inflate::{InflateError, inflate_zlib};
use perfdata_base::source::PlacedSource;
use std::alloc::Global;
use std::io::ErrorKind;
use thiserror::Error;
use zstd::{ZstdError, decompress};

// The largest number of bytes that a byte of compressed contents may stand for, and how many there may be
// more: zlib's and zstd's files have at most 7 for each.
const MAX_RATIO: u64 = 256;

const EXTRA_SIZE: u64 = 65_536;

// The size of contents that are too large.
const SIZE_LIMIT: u64 = 0x1_0000_0000;

/// Why the contents of a section can't be used.
#[derive(Debug, Drop, Error)]
pub enum SectionError {
    /// The section can't be read.
    #[error("{0}")]
    Elf(ElfError),
    /// The format of the compression, whose number is the value of this variant, is unknown.
    #[error("Unknown compression: {0}")]
    UnknownCompression(u32),
    /// The stated size is more than 256 times that of the compressed contents and 65,536 bytes more, or it
    /// isn't below 2^32.
    #[error("The stated size of the decompressed contents is too large")]
    CompressionRatio,
    /// The contents aren't what zlib writes.
    #[error("{0}")]
    Zlib(InflateError),
    /// The contents aren't what zstd writes.
    #[error("zstd: {0}")]
    Zstd(ZstdError),
}

impl From<ElfError> for SectionError {
    fn from(error: ElfError) -> SectionError {
        SectionError::Elf(error)
    }
}

impl From<InflateError> for SectionError {
    fn from(error: InflateError) -> SectionError {
        SectionError::Zlib(error)
    }
}

impl From<ZstdError> for SectionError {
    fn from(error: ZstdError) -> SectionError {
        SectionError::Zstd(error)
    }
}

impl SectionError {
    // Returns whether memory ran out.
    pub(crate) fn is_out_of_memory(&self) -> bool {
        match self {
            SectionError::Elf(ElfError::Memory) => true,
            SectionError::Elf(ElfError::Io(error)) => error.kind() == ErrorKind::OutOfMemory,
            SectionError::Zlib(InflateError::Memory(_)) => true,
            SectionError::Zstd(ZstdError::Memory) => true,
            _ => false,
        }
    }
}

/// The contents of a section.
#[derive(Drop)]
pub struct SectionContents {
    /// The address of the first byte.
    pub address: u64,
    /// The bytes, which aren't compressed.
    pub bytes: Vec<u8>,
}

// Returns whether contents may have the size that is stated of them.
fn is_possible_size(size: u64, compressed: usize) -> bool {
    let most = (compressed as u64)
        .saturating_mul(MAX_RATIO)
        .saturating_add(EXTRA_SIZE);
    size <= most && size < SIZE_LIMIT
}

// Returns whether contents are nothing but zeros, as in a copy of a file whose contents were removed.
fn is_cleared(bytes: &[u8]) -> bool {
    bytes.iter().all(|byte| *byte == 0)
}

// Decompresses contents.
fn decompress_contents(
    alloc: Global,
    compression: Compression,
    bytes: &[u8],
) -> Result<Vec<u8>, SectionError> {
    let Compression { format, size } = compression;
    if !is_possible_size(size, bytes.len()) {
        return Err(SectionError::CompressionRatio);
    }
    match format {
        CompressionFormat::Zlib => Ok(inflate_zlib(alloc, bytes, size as usize)?),
        CompressionFormat::Zstd => Ok(decompress(alloc, bytes, size as usize)?),
        CompressionFormat::Unknown(number) => Err(SectionError::UnknownCompression(number)),
    }
}

impl SectionContents {
    /// Returns the contents of a section that was read.
    ///
    /// Fails if they can't be decompressed to the stated size, or if this is too large.
    pub fn new(alloc: Global, section: SectionBytes) -> Result<SectionContents, SectionError> {
        let SectionBytes {
            address,
            bytes,
            compression,
        } = section;
        let bytes = match compression {
            Some(compression) => decompress_contents(alloc, compression, &bytes)?,
            None => bytes,
        };
        Ok(SectionContents { address, bytes })
    }

    /// Reads the contents of the first section with a name, or returns `None` if there is none, or if it is
    /// all zeros.
    ///
    /// Fails if the section can't be read or decompressed.
    pub fn read<R: PlacedSource + Drop>(
        alloc: Global,
        elf: &mut ElfFile<R>,
        name: &[u8],
    ) -> Result<Option<SectionContents>, SectionError> {
        match elf.read_section(alloc, name)? {
            Some(section) if !is_cleared(section.bytes.as_slice()) => {
                Ok(Some(SectionContents::new(alloc, section)?))
            }
            _ => Ok(None),
        }
    }
}
