//! The file header, the section headers and the program headers.

ghost use Rattle.std.specs.Prelude.{◌≡◌, ◌≤◌, ◌*◌, ◌++◌, ◌∷◌, [], IfOk, IfSome, OnOk, length};
ghost use Rattle.std.specs.Option.{option_or};
ghost use Rattle.std.specs.Prelude.{map};
ghost use Rattle.perfdata_sources.specs.Source.{all_bytes_of};
ghost use Rattle.code_symbols.specs.ElfHeaders.{HasEncoding, HasHeader, completed, first_entries};
ghost use Rattle.code_symbols.specs.ElfHeaders.{frame_header_in, loaded_in, program_headers};
ghost use Rattle.code_symbols.specs.ElfHeaders.{sections_in, segment_notes, table_bytes};
ghost use Rattle.code_symbols.specs.ElfHeaders.{with_first_section};
ghost use Rattle.code_symbols.specs.ElfImages.{note_range_in, section_in, segment_in};
ghost use Rattle.code_symbols.specs.steps.Segments.{AreSegments};

use crate::elf::input::{Encoding, TableEntry, read_table};
use crate::elf::notes::NoteRange;
use crate::error::{ElfError, ElfTable};
use perfdata_base::raw::Endianness;
use perfdata_base::source::{PlacedSource, fill};
use std::alloc::{AllocError, Global};
use std::io::SeekFrom;

// The magic of an ELF file.
const MAGIC: [u8; 4] = [0x7f, b'E', b'L', b'F'];

// The size of the file header of a 64-bit file in bytes, which is the larger one.
const MAX_HEADER_SIZE: usize = 64;

// The size of the file header of a 32-bit file in bytes.
const HEADER_SIZE_32: usize = 52;

// The number of program headers is in the first section header (`PN_XNUM`).
const MANY_SEGMENTS: u16 = 0xffff;

// The index of the section with the names is in the first section header (`SHN_XINDEX`).
const LARGE_INDEX: u16 = 0xffff;

// A segment that is loaded (`PT_LOAD`).
const LOAD: u32 = 1;

// A segment of notes (`PT_NOTE`).
const NOTE_SEGMENT: u32 = 4;

// The segment of `.eh_frame_hdr` (`PT_GNU_EH_FRAME`).
const FRAME_HEADER_SEGMENT: u32 = 0x6474_e550;

// The flag of a segment with code (`PF_X`).
const EXECUTABLE_FLAG: u32 = 1;

/// The type of `.symtab` (`SHT_SYMTAB`).
pub(crate) const SYMTAB: u32 = 2;

/// A section of notes (`SHT_NOTE`).
pub(crate) const NOTE_SECTION: u32 = 7;

/// A section without contents in the file (`SHT_NOBITS`).
pub(crate) const NOBITS: u32 = 8;

/// The type of `.dynsym` (`SHT_DYNSYM`).
pub(crate) const DYNSYM: u32 = 11;

/// The section indices of symbols that don't fit into their entries (`SHT_SYMTAB_SHNDX`).
pub(crate) const SYMTAB_INDICES: u32 = 18;

/// The versions of the symbols of `.dynsym` (`SHT_GNU_versym`).
pub(crate) const VERSIONS: u32 = 0x6fff_ffff;

// The flag of a section with code (`SHF_EXECINSTR`).
const CODE_FLAG: u64 = 4;

// The flag of a section whose contents are compressed (`SHF_COMPRESSED`).
const COMPRESSED_FLAG: u64 = 0x800;

/// A relocatable file (`ET_REL`).
pub(crate) const RELOCATABLE: u16 = 1;

// The fields of the file header that are used.
#[derive(Clone, Copy)]
pub(crate) struct FileHeader {
    pub(crate) encoding: Encoding,
    pub(crate) file_type: u16,
    pub(crate) machine: u16,
    pub(crate) flags: u32,
    pub(crate) segments: Table,
    pub(crate) sections: Table,
    pub(crate) names_index: u32,
}

// The offset of a table of headers, the number of its entries and the size of an entry in bytes.
#[derive(Clone, Copy)]
pub(crate) struct Table {
    offset: u64,
    count: u64,
    entry_size: u64,
}

/// A segment that is loaded into memory (`PT_LOAD`).
#[derive(Clone, Copy, Debug, PartialEq, Eq)]
pub struct Segment {
    /// The offset of its first byte in the file.
    pub offset: u64,
    /// The address of its first byte.
    pub address: u64,
    /// The number of bytes in memory.
    pub memory_size: u64,
    /// The number of bytes in the file. The bytes in memory after them are 0.
    pub file_size: u64,
    /// Whether it contains code that can be executed (`PF_X`).
    pub is_executable: bool,
}

// The program headers that are used.
#[derive(Drop)]
pub(crate) struct Segments {
    // The segments that are loaded.
    pub(crate) loaded: Vec<Segment>,
    // The segment of `.eh_frame_hdr`.
    pub(crate) frame_header: Option<Segment>,
    // The segments of notes.
    pub(crate) notes: Vec<NoteRange>,
}

// A section.
#[derive(Clone, Copy)]
pub(crate) struct Section {
    // The offset of the name in the section names.
    pub(crate) name: u32,
    pub(crate) section_type: u32,
    // Whether the section is code.
    pub(crate) is_code: bool,
    // Whether its contents are compressed.
    pub(crate) is_compressed: bool,
    pub(crate) address: u64,
    pub(crate) offset: u64,
    pub(crate) size: u64,
    pub(crate) link: u32,
    pub(crate) info: u32,
    pub(crate) entry_size: u64,
}

// The class and the byte order, by the first six bytes of a file.
fn parse_encoding(start: &[u8]) -> Result<Encoding, ElfError>
    ensures { IfOk result (HasEncoding start.now) }
{
    if start.len() < 6 || !start.starts_with(&MAGIC) {
        return Err(ElfError::NotElf);
    }
    let is_64_bit = match start[4] {
        1 => false,
        2 => true,
        class => return Err(ElfError::UnknownClass(class)),
    };
    let endian = match start[5] {
        1 => Endianness::LittleEndian,
        2 => Endianness::BigEndian,
        order => return Err(ElfError::UnknownByteOrder(order)),
    };
    Ok(Encoding { endian, is_64_bit })
}

// The file header in these bytes.
fn parse_file_header(bytes: &[u8]) -> Result<FileHeader, ElfError>
    ensures { IfOk result (HasHeader bytes.now) }
{
    let encoding = parse_encoding(bytes)?;
    if bytes.len() < encoding.select(HEADER_SIZE_32, MAX_HEADER_SIZE) {
        return Err(ElfError::Truncated(ElfTable::FileHeader));
    }
    let entry = TableEntry { encoding, bytes };
    Ok(FileHeader {
        encoding,
        file_type: entry.read_u16(16),
        machine: entry.read_u16(18),
        flags: entry.half(36, 48),
        segments: Table {
            offset: entry.word(28, 32),
            count: entry.read_u16(encoding.select(44, 56)) as u64,
            entry_size: entry.read_u16(encoding.select(42, 54)) as u64,
        },
        sections: Table {
            offset: entry.word(32, 40),
            count: entry.read_u16(encoding.select(48, 60)) as u64,
            entry_size: entry.read_u16(encoding.select(46, 58)) as u64,
        },
        names_index: entry.read_u16(encoding.select(50, 62)) as u32,
    })
}

// Reads the file header at the start of the source.
pub(crate) fn read_file_header<R: PlacedSource>(source: &mut R) -> Result<FileHeader, ElfError>
    ensures header { IfOk result (λ header. IfSome (all_bytes_of (R.state source.old).position)
        (λ all. HasHeader all header)) }
    ensures all { all_bytes_of (R.state source.new).position
        ≡ all_bytes_of (R.state source.old).position }
{
    let mut bytes = [0u8; MAX_HEADER_SIZE];
    source.seek_to(SeekFrom::Start(0))?;
    let count = fill(source, &mut bytes)?;
    parse_file_header(&bytes[..count])
}

// The bytes of a table of headers whose entries have at least `min_size` bytes.
fn read_headers<R: PlacedSource>(
    alloc: Global,
    source: &mut R,
    table: Table,
    min_size: usize,
    name: ElfTable,
) -> Result<Vec<u8>, ElfError>
    ensures least { OnOk result (min_size ≤ table.entry_size) }
    ensures size { IfOk result (λ bytes. length bytes.items ≡ table.count * table.entry_size) }
    ensures bytes { IfOk result (λ bytes. IfSome (all_bytes_of (R.state source.old).position)
        (λ all. bytes.items ≡ table_bytes all table)) }
    ensures all { all_bytes_of (R.state source.new).position
        ≡ all_bytes_of (R.state source.old).position }
{
    if table.entry_size < min_size as u64 {
        return Err(ElfError::EntrySize(name, table.entry_size));
    }
    match table.count.checked_mul(table.entry_size) {
        Some(size) => read_table(alloc, source, table.offset, size, name),
        None => Err(ElfError::Truncated(name)),
    }
}

fn parse_section(entry: TableEntry<'_>) -> Section
    ensures { result ≡ section_in entry.entry.encoding entry.entry.bytes.now }
{
    Section {
        name: entry.read_u32(0),
        section_type: entry.read_u32(4),
        is_code: entry.word(8, 8) & CODE_FLAG != 0,
        is_compressed: entry.word(8, 8) & COMPRESSED_FLAG != 0,
        address: entry.word(12, 16),
        offset: entry.word(16, 24),
        size: entry.word(20, 32),
        link: entry.half(24, 40),
        info: entry.half(28, 44),
        entry_size: entry.word(36, 56),
    }
}

// Takes the counts that do not fit into the file header from the first section.
fn apply_first_section(header: &mut FileHeader, first: &Section)
    ensures { header.new ≡ with_first_section header.old first.now }
{
    if header.sections.count == 0 {
        header.sections.count = first.size;
    }
    if header.segments.count == MANY_SEGMENTS as u64 {
        header.segments.count = first.info as u64;
    }
    if header.names_index == LARGE_INDEX as u32 {
        header.names_index = first.link;
    }
}

// Reads the section headers. Updates the counts of the file header if they are in the first section header.
pub(crate) fn read_sections<R: PlacedSource>(
    alloc: Global,
    source: &mut R,
    header: &mut FileHeader,
) -> Result<Vec<Section>, ElfError>
    ensures header { OnOk result (IfSome (all_bytes_of (R.state source.old).position)
        (λ all. header.new ≡ completed all header.old)) }
    ensures sections { IfOk result (λ sections. IfSome (all_bytes_of (R.state source.old).position)
        (λ all. sections.items ≡ sections_in all header.new)) }
    ensures all { all_bytes_of (R.state source.new).position
        ≡ all_bytes_of (R.state source.old).position }
{
    if header.sections.offset == 0 {
        return Ok(Vec::new(alloc));
    }
    let encoding = header.encoding;
    let min_size = encoding.select(40, 64);
    let first = Table {
        count: 1,
        ..header.sections
    };
    let first_bytes = read_headers(alloc, source, first, min_size, ElfTable::SectionHeaders)?;
    let first_section = parse_section(TableEntry {
        encoding,
        bytes: &first_bytes,
    });
    apply_first_section(header, &first_section);
    let table = header.sections;
    let bytes = read_headers(alloc, source, table, min_size, ElfTable::SectionHeaders)?;
    Ok(parse_sections(alloc, encoding, table, &bytes)?)
}

// The sections in the bytes of their table.
fn parse_sections(
    alloc: Global,
    encoding: Encoding,
    table: Table,
    bytes: &[u8],
) -> Result<Vec<Section>, AllocError>
    requires { length bytes.now ≡ table.count * table.entry_size }
    ensures { IfOk result (λ sections. sections.items
        ≡ map (section_in encoding) (first_entries bytes.now table.entry_size table.count)) }
{
    let size = table.entry_size as usize;
    let mut sections = Vec::new(alloc);
    let mut at = 0;
    'sections: for _index in 0..table.count {
        let bytes = &bytes[at..at + size];
        sections.push(parse_section(TableEntry { encoding, bytes }))?;
        at += size;
    }
    Ok(sections)
}

fn parse_segment(entry: TableEntry<'_>) -> Segment
    ensures { result ≡ segment_in entry.entry.encoding entry.entry.bytes.now }
{
    Segment {
        offset: entry.word(4, 8),
        address: entry.word(8, 16),
        memory_size: entry.word(20, 40),
        file_size: entry.word(16, 32),
        is_executable: entry.half(24, 4) & EXECUTABLE_FLAG != 0,
    }
}

fn parse_note_range(entry: TableEntry<'_>) -> NoteRange
    ensures { result ≡ note_range_in entry.entry.encoding entry.entry.bytes.now }
{
    NoteRange {
        offset: entry.word(4, 8),
        size: entry.word(16, 32),
        has_align_8: entry.word(28, 48) == 8,
    }
}

impl Segments {
    fn new(alloc: Global) -> Segments
        ensures loaded { result.loaded.items ≡ [] }
        ensures notes { result.notes.items ≡ [] }
        ensures frame_header { result.frame_header ≡ None }
    {
        Segments {
            loaded: Vec::new(alloc),
            frame_header: None,
            notes: Vec::new(alloc),
        }
    }

    // Adds the segment of a program header, if it is used.
    fn add(&mut self, entry: TableEntry<'_>) -> Result<(), AllocError>
        ensures loaded { OnOk result (self.new.loaded.items
            ≡ self.old.loaded.items ++ loaded_in entry.entry.encoding (entry.entry.bytes.now ∷ [])) }
        ensures notes { OnOk result (self.new.notes.items
            ≡ self.old.notes.items ++ segment_notes entry.entry.encoding (entry.entry.bytes.now ∷ [])) }
        ensures frame_header { OnOk result (self.new.frame_header ≡ option_or self.old.frame_header
            (frame_header_in entry.entry.encoding (entry.entry.bytes.now ∷ []))) }
    {
        match entry.read_u32(0) {
            LOAD => self.loaded.push(parse_segment(entry))?,
            NOTE_SEGMENT => self.notes.push(parse_note_range(entry))?,
            FRAME_HEADER_SEGMENT if self.frame_header.is_none() => {
                self.frame_header = Some(parse_segment(entry));
            }
            _ => {}
        }
        Ok(())
    }
}

// Reads the program headers.
pub(crate) fn read_segments<R: PlacedSource>(
    alloc: Global,
    source: &mut R,
    header: &FileHeader,
) -> Result<Segments, ElfError>
    ensures segments { IfOk result (λ segments. IfSome (all_bytes_of (R.state source.old).position)
        (λ all. AreSegments header.now.encoding (program_headers all header.now) segments)) }
    ensures all { all_bytes_of (R.state source.new).position
        ≡ all_bytes_of (R.state source.old).position }
{
    let table = header.segments;
    if table.offset == 0 || table.count == 0 {
        return Ok(Segments::new(alloc));
    }
    let encoding = header.encoding;
    let min_size = encoding.select(32, 56);
    let bytes = read_headers(alloc, source, table, min_size, ElfTable::ProgramHeaders)?;
    Ok(parse_segments(alloc, encoding, table, &bytes)?)
}

// The segments in the bytes of their table.
fn parse_segments(
    alloc: Global,
    encoding: Encoding,
    table: Table,
    bytes: &[u8],
) -> Result<Segments, AllocError>
    requires { length bytes.now ≡ table.count * table.entry_size }
    ensures { IfOk result
        (AreSegments encoding (first_entries bytes.now table.entry_size table.count)) }
{
    let size = table.entry_size as usize;
    let mut segments = Segments::new(alloc);
    let mut at = 0;
    'segments: for _index in 0..table.count {
        let bytes = &bytes[at..at + size];
        segments.add(TableEntry { encoding, bytes })?;
        at += size;
    }
    Ok(segments)
}
