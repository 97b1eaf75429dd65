//! The contents of sections.

ghost use Rattle.std.specs.Prelude.{◌≡◌, IfOk, IfSome, slice_get};
ghost use Rattle.perfdata_sources.specs.Source.{all_bytes_of};
ghost use Rattle.code_symbols.specs.Contents.{contents_of};

use crate::elf::ElfFile;
use crate::elf::header::{NOBITS, Section};
use crate::elf::input::{Encoding, TableEntry, read_table};
use crate::error::{ElfError, ElfTable};
use perfdata_base::raw::Endianness;
use perfdata_base::source::PlacedSource;
use std::alloc::Global;

// The sizes of the header of compressed contents in bytes (`Elf32_Chdr`, `Elf64_Chdr`).
const HEADER_SIZE_32: usize = 12;

const HEADER_SIZE_64: usize = 24;

// The formats of compressed contents (`ELFCOMPRESS_ZLIB`, `ELFCOMPRESS_ZSTD`).
const ZLIB: u32 = 1;

const ZSTD: u32 = 2;

// The start of a section `.zdebug_..`, which the size of its contents in big-endian order follows.
const ZDEBUG_MAGIC: &[u8] = b"ZLIB";

const ZDEBUG_HEADER_SIZE: usize = 12;

/// The format of the compressed contents of a section.
#[derive(Clone, Copy, Debug, PartialEq, Eq)]
pub enum CompressionFormat {
    /// zlib (RFC 1950).
    Zlib,
    /// zstd (RFC 8878).
    Zstd,
    /// Another one, whose number (`ch_type`) is the value of this variant.
    Unknown(u32),
}

/// How the contents of a section are compressed.
#[derive(Clone, Copy, Debug, PartialEq, Eq)]
pub struct Compression {
    /// The format.
    pub format: CompressionFormat,
    /// The number of bytes of the decompressed contents, as the file states it.
    pub size: u64,
}

/// The contents of a section in the file.
#[derive(Debug, Drop, PartialEq, Eq)]
pub struct SectionBytes {
    /// The address of its first byte.
    pub address: u64,
    /// Its bytes. Those of compressed contents don't have the header.
    pub bytes: Vec<u8>,
    /// How the bytes are compressed, if they are.
    pub compression: Option<Compression>,
}

// The header of compressed contents, and the bytes after it.
#[derive(Drop)]
struct CompressedParts {
    header: Vec<u8>,
    bytes: Vec<u8>,
}

// The section with this index.
pub(crate) fn find_section(sections: &[Section], index: usize) -> Option<Section>
    ensures { result ≡ slice_get sections.now index }
{
    if index < sections.len() {
        Some(sections[index])
    } else {
        None
    }
}

// The bytes of a section in the file.
pub(crate) fn read_contents<R: PlacedSource>(
    alloc: Global,
    source: &mut R,
    section: &Section,
    table: ElfTable,
) -> Result<Vec<u8>, ElfError>
    ensures contents { IfOk result (λ bytes. IfSome (all_bytes_of (R.state source.old).position)
        (λ all. bytes.items ≡ contents_of all section.now)) }
    ensures all { all_bytes_of (R.state source.new).position
        ≡ all_bytes_of (R.state source.old).position }
{
    if section.section_type == NOBITS {
        return Ok(Vec::new(alloc));
    }
    read_table(alloc, source, section.offset, section.size, table)
}

// Reads compressed contents that begin with a header of `header_size` bytes.
fn read_parts<R: PlacedSource>(
    alloc: Global,
    source: &mut R,
    section: &Section,
    header_size: usize,
) -> Result<CompressedParts, ElfError> {
    let header_size = header_size as u64;
    let Some(size) = section.size.checked_sub(header_size) else {
        return Err(ElfError::Truncated(ElfTable::CompressionHeader));
    };
    let (start, table) = (section.offset, ElfTable::CompressionHeader);
    let header = read_table(alloc, source, start, header_size, table)?;
    let after = start.saturating_add(header_size);
    Ok(CompressedParts {
        header,
        bytes: read_table(alloc, source, after, size, ElfTable::Section)?,
    })
}

// How contents with this header are compressed (System V ABI, chapter "Sections").
fn parse_compression(header: TableEntry<'_>) -> Compression {
    Compression {
        format: match header.read_u32(0) {
            ZLIB => CompressionFormat::Zlib,
            ZSTD => CompressionFormat::Zstd,
            number => CompressionFormat::Unknown(number),
        },
        size: header.word(4, 8),
    }
}

// How the contents of a section `.zdebug_..` with this header are compressed, or `None` if it is another one.
fn parse_zdebug(header: &[u8]) -> Option<Compression> {
    if !header.starts_with(ZDEBUG_MAGIC) {
        return None;
    }
    let encoding = Encoding {
        endian: Endianness::BigEndian,
        is_64_bit: true,
    };
    let entry = TableEntry {
        encoding,
        bytes: header,
    };
    Some(Compression {
        format: CompressionFormat::Zlib,
        size: entry.read_u64(ZDEBUG_MAGIC.len()),
    })
}

// Whether a name is that of the section `.zdebug_X` for the section `.debug_X`.
fn is_zdebug_name(name: &[u8], wanted: &[u8]) -> bool {
    match (
        name.strip_prefix(b".zdebug_"),
        wanted.strip_prefix(b".debug_"),
    ) {
        (Some(found), Some(wanted)) => found == wanted,
        _ => false,
    }
}

impl<R: PlacedSource + Drop> ElfFile<R> {
    /// Reads the first section with a name that has contents in the file, or `None` if there is none. In
    /// place of a section `.debug_X` that the file doesn't have it is the section `.zdebug_X`, whose contents
    /// are compressed by zlib.
    ///
    /// It fails with `Truncated(Section)` if the section isn't completely within the file, with
    /// `Truncated(CompressionHeader)` if it ends within the header of its compressed contents, with `Io` if
    /// the source fails, and with `Memory` if out of memory. The bytes are read in pieces of at most 4,096
    /// bytes, and aren't decompressed.
    pub fn read_section(
        &mut self,
        alloc: Global,
        name: &[u8],
    ) -> Result<Option<SectionBytes>, ElfError> {
        match self.section_of_name(name) {
            Some(section) if section.is_compressed => {
                Ok(Some(self.read_compressed(alloc, &section)?))
            }
            Some(section) => Ok(Some(SectionBytes {
                address: section.address,
                bytes: read_contents(alloc, &mut self.source, &section, ElfTable::Section)?,
                compression: None,
            })),
            None => self.read_zdebug(alloc, name),
        }
    }

    // Reads a section with a header of compressed contents (`SHF_COMPRESSED`).
    fn read_compressed(
        &mut self,
        alloc: Global,
        section: &Section,
    ) -> Result<SectionBytes, ElfError> {
        let encoding = self.header.encoding;
        let header_size = encoding.select(HEADER_SIZE_32, HEADER_SIZE_64);
        let parts = read_parts(alloc, &mut self.source, section, header_size)?;
        let CompressedParts { header, bytes } = parts;
        let compression = parse_compression(TableEntry {
            encoding,
            bytes: &header,
        });
        Ok(SectionBytes {
            address: section.address,
            bytes,
            compression: Some(compression),
        })
    }

    // Reads the section `.zdebug_X` for the section `.debug_X`, if there is one.
    fn read_zdebug(
        &mut self,
        alloc: Global,
        name: &[u8],
    ) -> Result<Option<SectionBytes>, ElfError> {
        let Some(section) = self.zdebug_section(name) else {
            return Ok(None);
        };
        let parts = read_parts(alloc, &mut self.source, &section, ZDEBUG_HEADER_SIZE)?;
        let CompressedParts { header, bytes } = parts;
        match parse_zdebug(&header) {
            Some(compression) => Ok(Some(SectionBytes {
                address: section.address,
                bytes,
                compression: Some(compression),
            })),
            None => Ok(None),
        }
    }

    // The first section `.zdebug_X` with contents in the file for the section `.debug_X`.
    fn zdebug_section(&self, name: &[u8]) -> Option<Section> {
        'sections: for section in self.sections.iter() {
            if section.section_type != NOBITS
                && is_zdebug_name(self.section_names.string(section.name as usize), name)
            {
                return Some(*section);
            }
        }
        None
    }
}
