//! ELF files: their segments, symbols, build id and debug link (System V ABI, chapter "Object files").

ghost use Rattle.std.specs.Option.{option_and_then, option_map};
ghost use Rattle.std.specs.Prelude.{◌≡◌, ◌==◌, ◌↔◌, IfOk, IfSome, IsTrue, position, slice_get};
ghost use Rattle.perfdata_sources.specs.Source.{all_bytes_of};
ghost use Rattle.code_symbols.specs.BuildIds.{IsIdInRange, IsIdInRanges};
ghost use Rattle.code_symbols.specs.Contents.{contents_of, contents_of_some};
ghost use Rattle.code_symbols.specs.DebugLinks.{IsAlternateLinkOf, IsDebugLinkOf};
ghost use Rattle.code_symbols.specs.StringTable.{bytes_of};
ghost use Rattle.code_symbols.specs.SymbolTables.{AreTextFlags, is_linked, linked_section};
ghost use Rattle.code_symbols.specs.steps.PltParts.{AddsOfParts};
ghost use Rattle.code_symbols.specs.steps.SymbolTables.{AreSymbolsOfParts};

use crate::error::{ElfError, ElfTable};
use crate::ranked::RankedSymbols;
use bstr::ByteSlice;
use perfdata_base::raw::Endianness;
use perfdata_base::source::PlacedSource;
use std::alloc::{AllocError, Global};

mod arm_plt;
mod code;
mod frame_header;
mod header;
mod input;
mod notes;
mod plt;
mod plt_ranges;
mod sections;
mod strings;
mod symbols;

pub use header::Segment;
use header::{FileHeader, Section, Segments};
use input::{Encoding, TableEntry, read_table};
pub use notes::build_id_of_notes;
use notes::{NoteRange, find_build_id};
pub use plt_ranges::PltRange;
pub use sections::{Compression, CompressionFormat, SectionBytes};
use sections::{find_section, read_contents};
use strings::{Strings, byte_offset};
use symbols::{SymbolContext, add_symbols};

// The largest part of a range of notes that is searched for the build id.
const MAX_NOTE_SIZE: u64 = 65536;

// The largest debug link that is read.
const MAX_DEBUG_LINK_SIZE: u64 = 65536;

/// The section of which the symbols are.
#[derive(Clone, Copy, Debug, PartialEq, Eq)]
pub enum SymbolSection {
    /// `.symtab`, all symbols.
    Full,
    /// `.dynsym`, those for the dynamic linker.
    Dynamic,
}

/// The name of the file with the debug information of another one (`.gnu_debuglink`).
#[derive(Debug, Drop, PartialEq, Eq)]
pub struct DebugLink {
    /// The name of the file, without directories.
    pub file_name: Vec<u8>,
    /// The CRC-32 of the file.
    pub crc: u32,
}

/// The file with parts of the debugging information of several files (`.gnu_debugaltlink`).
#[derive(Debug, Drop, PartialEq, Eq)]
pub struct AlternateLink {
    /// The path of the file. A relative one begins at the directory of the file with the link.
    pub path: Vec<u8>,
    /// The build id of the file, which isn't empty.
    pub build_id: Vec<u8>,
}

// The bytes of a symbol table, and what its symbols refer to: the tables of section indices and versions, the
// names, and whether the names of the sections contain `text`.
#[derive(Drop)]
struct TableParts {
    entries: Vec<u8>,
    section_indices: Vec<u8>,
    versions: Vec<u8>,
    names: Strings,
    text_sections: Vec<bool>,
}

// The bytes that say what the procedure linkage table calls: its relocations, the symbols and names of these,
// and the code of `.plt` for 32-bit Arm. The sizes are those of entries.
#[derive(Drop)]
struct PltParts {
    relocations: Vec<u8>,
    relocation_size: u64,
    symbols: Vec<u8>,
    symbol_size: u64,
    names: Strings,
    code: Vec<u8>,
}

/// An ELF file whose headers are read.
#[derive(Drop)]
pub struct ElfFile<R> {
    source: R,
    header: FileHeader,
    sections: Vec<Section>,
    section_names: Strings,
    segments: Vec<Segment>,
    // The segment of `.eh_frame_hdr`.
    frame_header: Option<Segment>,
    notes: Vec<NoteRange>,
}

impl<R: PlacedSource + Drop> ElfFile<R> {
    ghost use Rattle.code_symbols.specs.ElfFiles.{endian_of, file_type_of, machine_of, sections_of};
    ghost use Rattle.code_symbols.specs.ElfFiles.{HasSameHeaders, section_names_of, segments_of, source_of};
    ghost use Rattle.code_symbols.specs.SymbolTables.{SymbolsOf, index_of_type};
    ghost use Rattle.code_symbols.specs.SymbolTables.{names_offset_in, symbol_section_in, table_index};
    ghost use Rattle.code_symbols.specs.NamedSections.{IsNamed, IsSectionOfName};
    ghost use Rattle.code_symbols.specs.BuildIds.{IsBuildIdOfFile};
    ghost use Rattle.code_symbols.specs.OpenedFiles.{OpensElf};
    ghost use Rattle.code_symbols.specs.PltSymbols.{AddsPltSymbols, IsArmCode, IsCodeOfName};
    ghost use Rattle.code_symbols.specs.PltSymbols.{IsPltCode, IsRelocationSection, only_symbols};
    ghost use Rattle.code_symbols.specs.steps.PltFiles.{ArePltParts};
    ghost use Rattle.code_symbols.specs.LinkedFiles.{IsAlternateLinkOfFile, IsDebugLinkOfFile};

    /// Reads the file header, the section headers with their names, and the program headers.
    ///
    /// The errors are those of [`ElfError`]. No count of the file reserves memory: tables are read in pieces
    /// of at most 4,096 bytes.
    pub fn open(alloc: Global, source: R) -> Result<ElfFile<R>, ElfError>
        ensures opens { IfOk result (λ f. IfSome (all_bytes_of (R.state source).position)
            (λ all. OpensElf all f)) }
        ensures all { IfOk result (λ f. all_bytes_of (R.state (source_of f)).position
            ≡ all_bytes_of (R.state source).position) }
    {
        let mut source = source;
        let mut header = header::read_file_header(&mut source)?;
        let sections = header::read_sections(alloc, &mut source, &mut header)?;
        let names_index = header.names_index as usize;
        let section_names = read_strings(alloc, &mut source, &sections, names_index)?;
        let Segments {
            loaded,
            frame_header,
            mut notes,
        } = header::read_segments(alloc, &mut source, &header)?;
        notes::add_note_sections(&sections, &mut notes)?;
        Ok(ElfFile {
            source,
            header,
            sections,
            section_names,
            segments: loaded,
            frame_header,
            notes,
        })
    }

    /// Returns the number of the machine (`e_machine`): 62 for x86-64, 183 for AArch64.
    pub fn machine(&self) -> u16
        ensures { result ≡ machine_of self.now }
    {
        self.header.machine
    }

    /// Returns the order of the bytes of numbers.
    pub fn endian(&self) -> Endianness
        ensures { result ≡ endian_of self.now }
    {
        self.header.encoding.endian
    }

    /// Returns whether the file is relocatable (`ET_REL`): its code has no addresses yet.
    pub fn is_relocatable(&self) -> bool
        ensures { result ≡ (file_type_of self.now == 1) }
    {
        self.header.file_type == header::RELOCATABLE
    }

    /// Returns the segments that are loaded into memory.
    pub fn segments(&self) -> &[Segment]
        ensures { result.now ≡ segments_of self.now }
    {
        &self.segments[..]
    }

    /// Returns the section that `symbols` reads: `.symtab` if there is one, otherwise `.dynsym`.
    pub fn symbol_section(&self) -> Option<SymbolSection>
        ensures { result ≡ symbol_section_in (sections_of self.now) }
    {
        if self.index_of_type(header::SYMTAB).is_some() {
            Some(SymbolSection::Full)
        } else if self.index_of_type(header::DYNSYM).is_some() {
            Some(SymbolSection::Dynamic)
        } else {
            None
        }
    }

    /// Reads the build id, or `None` if the file has none: the first note of the type `NT_GNU_BUILD_ID` in
    /// the `PT_NOTE` segments, or in the note sections. The first 65,536 bytes of each are searched.
    pub fn build_id(&mut self, alloc: Global) -> Result<Option<Vec<u8>>, ElfError>
        ensures id { IfOk result (λ id. IfSome (all_bytes_of (R.state (source_of self.old)).position)
            (λ all. IsBuildIdOfFile all self.old (option_map (λ bytes. bytes.items) id))) }
        ensures all { all_bytes_of (R.state (source_of self.new)).position
            ≡ all_bytes_of (R.state (source_of self.old)).position }
        ensures same { HasSameHeaders self.old self.new }
    {
        first_build_id(alloc, &mut self.source, self.header.encoding, &self.notes)
    }

    /// Reads the debug link, or `None` if the file has none.
    pub fn debug_link(&mut self, alloc: Global) -> Result<Option<DebugLink>, ElfError>
        ensures link { IfOk result (λ link. IfSome (all_bytes_of (R.state (source_of self.old)).position)
            (λ all. IsDebugLinkOfFile all self.old link)) }
        ensures all { all_bytes_of (R.state (source_of self.new)).position
            ≡ all_bytes_of (R.state (source_of self.old)).position }
        ensures same { HasSameHeaders self.old self.new }
    {
        let Some(mut section) = self.section_of_name(b".gnu_debuglink") else {
            return Ok(None);
        };
        section.size = section.size.min(MAX_DEBUG_LINK_SIZE);
        let bytes = read_contents(alloc, &mut self.source, &section, ElfTable::DebugLink)?;
        parse_debug_link(alloc, self.header.encoding, &bytes)
    }

    /// Reads the link to the alternate file of the debugging information, or `None` if the file has none. Its
    /// first 65,536 bytes are read.
    pub fn alternate_link(&mut self, alloc: Global) -> Result<Option<AlternateLink>, ElfError>
        ensures link { IfOk result (λ link. IfSome (all_bytes_of (R.state (source_of self.old)).position)
            (λ all. IsAlternateLinkOfFile all self.old link)) }
        ensures all { all_bytes_of (R.state (source_of self.new)).position
            ≡ all_bytes_of (R.state (source_of self.old)).position }
        ensures same { HasSameHeaders self.old self.new }
    {
        let Some(mut section) = self.section_of_name(b".gnu_debugaltlink") else {
            return Ok(None);
        };
        section.size = section.size.min(MAX_DEBUG_LINK_SIZE);
        let bytes = read_contents(alloc, &mut self.source, &section, ElfTable::DebugLink)?;
        Ok(parse_alternate_link(alloc, &bytes)?)
    }

    /// Returns where the names of the symbols that `symbols` reads begin in the file, or `None` if it has no
    /// symbols. A name is at this offset plus its `name_start`.
    pub fn names_offset(&self) -> Option<u64>
        ensures { result ≡ names_offset_in (sections_of self.now) }
    {
        let symbols = self.symbol_table()?;
        Some(find_section(&self.sections, symbols.link as usize)?.offset)
    }

    /// Reads the symbols of functions and objects, and the labels in sections whose names contain `text`.
    ///
    /// Their starts are offsets in the file that has these segments: `self.segments()`, or those of the file
    /// whose debug information this file contains. Symbols outside all segments are skipped. Those of a
    /// relocatable file, or of one without segments, are at their offsets in its sections.
    pub fn symbols(
        &mut self,
        alloc: Global,
        segments: &[Segment],
    ) -> Result<RankedSymbols, ElfError>
        ensures of_table { IfOk result (λ symbols.
            IfSome (all_bytes_of (R.state (source_of self.old)).position)
            (λ all. SymbolsOf all self.old segments.now symbols)) }
        ensures all { all_bytes_of (R.state (source_of self.new)).position
            ≡ all_bytes_of (R.state (source_of self.old)).position }
        ensures same { HasSameHeaders self.old self.new }
    {
        let full = self.index_of_type(header::SYMTAB);
        let Some(index) = full.or(self.index_of_type(header::DYNSYM)) else {
            return Ok(RankedSymbols::new(alloc));
        };
        let Some(section) = find_section(&self.sections, index) else {
            return Ok(RankedSymbols::new(alloc));
        };
        let parts = self.read_table_parts(alloc, index, &section)?;
        symbols_of_parts(
            alloc,
            self.header,
            &self.sections,
            segments,
            section.entry_size,
            parts,
        )
    }

    // Reads the parts of the symbol table with an index.
    fn read_table_parts(
        &mut self,
        alloc: Global,
        index: usize,
        section: &Section,
    ) -> Result<TableParts, ElfError>
        ensures entries { IfOk result (λ p. IfSome (all_bytes_of (R.state (source_of self.old)).position)
            (λ all. p.entries.items ≡ contents_of all section.now)) }
        ensures indices { IfOk result (λ p. IfSome (all_bytes_of (R.state (source_of self.old)).position)
            (λ all. p.section_indices.items
            ≡ contents_of_some all (linked_section (sections_of self.old) 18 index))) }
        ensures versions { IfOk result (λ p. IfSome (all_bytes_of (R.state (source_of self.old)).position)
            (λ all. p.versions.items
            ≡ contents_of_some all (linked_section (sections_of self.old) 0x6fffffff index))) }
        ensures names { IfOk result (λ p. IfSome (all_bytes_of (R.state (source_of self.old)).position)
            (λ all. bytes_of p.names
            ≡ contents_of_some all (slice_get (sections_of self.old) section.now.link))) }
        ensures text { IfOk result (λ p. AreTextFlags (section_names_of self.old) (sections_of self.old)
            p.text_sections.items) }
        ensures all { all_bytes_of (R.state (source_of self.new)).position
            ≡ all_bytes_of (R.state (source_of self.old)).position }
        ensures same { HasSameHeaders self.old self.new }
    {
        Ok(TableParts {
            entries: read_contents(alloc, &mut self.source, section, ElfTable::Symbols)?,
            section_indices: self.linked_table(alloc, header::SYMTAB_INDICES, index)?,
            versions: self.linked_table(alloc, header::VERSIONS, index)?,
            names: self.linked_strings(alloc, section)?,
            text_sections: are_text(alloc, &self.sections, &self.section_names)?,
        })
    }

    /// Adds a symbol `NAME@plt` for each entry of the procedure linkage table, `.plt` and `.plt.sec`, that
    /// calls a function by its symbol.
    ///
    /// The entries are in the order of the addresses of their pointers, `r_offset` of the relocations
    /// `.rela.plt` or `.rel.plt`. How many bytes are before the first one follows from the size of the
    /// section and the number of entries. For 32-bit Arm the sizes of the entries follow from their code if
    /// GNU ld or gold wrote it: an entry begins with a stub where Thumb code calls it. A table that isn't
    /// what linkers write for the machine has no symbols. A relocation of a TLS descriptor has no entry, so
    /// the code after the entries, which all descriptors share, has no symbol. A symbol of the file at the
    /// start of an entry is preferred to these.
    ///
    /// If it fails, the symbols may have those of some entries.
    pub fn add_plt_symbols(
        &mut self,
        alloc: Global,
        symbols: &mut RankedSymbols,
    ) -> Result<(), ElfError>
        ensures adds { IfSome (all_bytes_of (R.state (source_of self.old)).position)
            (λ all. AddsPltSymbols all self.old symbols.old symbols.new) }
        ensures all { all_bytes_of (R.state (source_of self.new)).position
            ≡ all_bytes_of (R.state (source_of self.old)).position }
        ensures same { HasSameHeaders self.old self.new }
    {
        let Some(parts) = self.read_plt_parts(alloc)? else {
            return Ok(());
        };
        let plt = self.code_of_name(b".plt");
        let second = self.code_of_name(b".plt.sec");
        add_plt_of_parts(alloc, &self.header, parts, plt, second, symbols)
    }

    // The section with the relocations of the procedure linkage table.
    fn relocation_section(&self) -> Option<Section>
        ensures { IsRelocationSection (section_names_of self.now) (sections_of self.now) result }
    {
        let rela = self.section_of_name(b".rela.plt");
        rela.or(self.section_of_name(b".rel.plt"))
    }

    // Reads what the procedure linkage table calls, if the file says it.
    fn read_plt_parts(&mut self, alloc: Global) -> Result<Option<PltParts>, ElfError>
        ensures parts { IfOk result (λ found. IfSome found (λ parts.
            IfSome (all_bytes_of (R.state (source_of self.old)).position)
            (λ all. ArePltParts all self.old parts))) }
        ensures all { all_bytes_of (R.state (source_of self.new)).position
            ≡ all_bytes_of (R.state (source_of self.old)).position }
        ensures same { HasSameHeaders self.old self.new }
    {
        let Some(section) = self.relocation_section() else {
            return Ok(None);
        };
        let Some(dynamic) = self.find_symbol_table(section.link as usize) else {
            return Ok(None);
        };
        Ok(Some(self.plt_parts(alloc, &section, &dynamic)?))
    }

    // Reads the parts of these sections of relocations and symbols.
    fn plt_parts(
        &mut self,
        alloc: Global,
        section: &Section,
        dynamic: &Section,
    ) -> Result<PltParts, ElfError>
        ensures relocations { IfOk result (λ p. IfSome (all_bytes_of (R.state (source_of self.old)).position)
            (λ all. p.relocations.items ≡ contents_of all section.now)) }
        ensures symbols { IfOk result (λ p. IfSome (all_bytes_of (R.state (source_of self.old)).position)
            (λ all. p.symbols.items ≡ contents_of all dynamic.now)) }
        ensures names { IfOk result (λ p. IfSome (all_bytes_of (R.state (source_of self.old)).position)
            (λ all. bytes_of p.names
            ≡ contents_of_some all (slice_get (sections_of self.old) dynamic.now.link))) }
        ensures code { IfOk result (λ p. IfSome (all_bytes_of (R.state (source_of self.old)).position)
            (λ all. IsArmCode all self.old p.code.items)) }
        ensures relocation_size { IfOk result (λ p. p.relocation_size ≡ section.now.entry_size) }
        ensures symbol_size { IfOk result (λ p. p.symbol_size ≡ dynamic.now.entry_size) }
        ensures all { all_bytes_of (R.state (source_of self.new)).position
            ≡ all_bytes_of (R.state (source_of self.old)).position }
        ensures same { HasSameHeaders self.old self.new }
    {
        Ok(PltParts {
            relocations: read_contents(alloc, &mut self.source, section, ElfTable::Relocations)?,
            relocation_size: section.entry_size,
            symbols: read_contents(alloc, &mut self.source, dynamic, ElfTable::Symbols)?,
            symbol_size: dynamic.entry_size,
            names: self.linked_strings(alloc, dynamic)?,
            code: self.arm_code(alloc)?,
        })
    }

    // The code of `.plt` for 32-bit Arm, or none.
    fn arm_code(&mut self, alloc: Global) -> Result<Vec<u8>, ElfError>
        ensures code { IfOk result (λ code. IfSome (all_bytes_of (R.state (source_of self.old)).position)
            (λ all. IsArmCode all self.old code.items)) }
        ensures all { all_bytes_of (R.state (source_of self.new)).position
            ≡ all_bytes_of (R.state (source_of self.old)).position }
        ensures same { HasSameHeaders self.old self.new }
    {
        if self.header.machine == plt::ARM {
            self.plt_code(alloc)
        } else {
            Ok(Vec::new(alloc))
        }
    }

    // The code of `.plt`.
    fn plt_code(&mut self, alloc: Global) -> Result<Vec<u8>, ElfError>
        ensures code { IfOk result (λ code. IfSome (all_bytes_of (R.state (source_of self.old)).position)
            (λ all. IsPltCode all self.old code.items)) }
        ensures all { all_bytes_of (R.state (source_of self.new)).position
            ≡ all_bytes_of (R.state (source_of self.old)).position }
        ensures same { HasSameHeaders self.old self.new }
    {
        match self.code_of_name(b".plt") {
            Some(section) => read_contents(alloc, &mut self.source, &section, ElfTable::Section),
            None => Ok(Vec::new(alloc)),
        }
    }

    // The section with this index, if it is a symbol table.
    fn find_symbol_table(&self, index: usize) -> Option<Section>
        ensures { result ≡ option_and_then only_symbols (slice_get (sections_of self.now) index) }
    {
        let section = find_section(&self.sections, index)?;
        match section.section_type {
            header::SYMTAB | header::DYNSYM => Some(section),
            _ => None,
        }
    }

    // The first section with a name that has contents in the file, if it is code.
    fn code_of_name(&self, name: &[u8]) -> Option<Section>
        ensures { IsCodeOfName (section_names_of self.now) (sections_of self.now) name.now result }
    {
        let section = self.section_of_name(name)?;
        if section.is_code { Some(section) } else { None }
    }

    // The symbol table that is read: `.symtab` if there is one, otherwise `.dynsym`.
    fn symbol_table(&self) -> Option<Section>
        ensures { result ≡ option_and_then (slice_get (sections_of self.now))
            (table_index (sections_of self.now)) }
    {
        let full = self.index_of_type(header::SYMTAB);
        find_section(&self.sections, full.or(self.index_of_type(header::DYNSYM))?)
    }

    // The index of the first section of a type.
    fn index_of_type(&self, section_type: u32) -> Option<usize>
        ensures { result ≡ index_of_type (sections_of self.now) section_type }
    {
        self.sections
            .iter()
            .position(|section| section.section_type == section_type)
    }

    // The bytes of the first section of a type that is linked to the symbol table with this index, or none:
    // the section indices of the symbols that don't fit into its entries (`SHT_SYMTAB_SHNDX`), or their
    // versions (`SHT_GNU_versym`).
    fn linked_table(
        &mut self,
        alloc: Global,
        section_type: u32,
        symbol_table: usize,
    ) -> Result<Vec<u8>, ElfError>
        ensures contents { IfOk result (λ bytes.
            IfSome (all_bytes_of (R.state (source_of self.old)).position)
            (λ all. bytes.items
            ≡ contents_of_some all (linked_section (sections_of self.old) section_type symbol_table))) }
        ensures all { all_bytes_of (R.state (source_of self.new)).position
            ≡ all_bytes_of (R.state (source_of self.old)).position }
        ensures same { HasSameHeaders self.old self.new }
    {
        match find_linked(&self.sections, section_type, symbol_table) {
            Some(section) => read_contents(alloc, &mut self.source, &section, ElfTable::Symbols),
            None => Ok(Vec::new(alloc)),
        }
    }

    // The first section with a name that has contents in the file.
    fn section_of_name(&self, name: &[u8]) -> Option<Section>
        ensures { IsSectionOfName (section_names_of self.now) (sections_of self.now) name.now result }
    {
        'sections: for section in self.sections.iter() {
            if self.is_named(section, name) {
                return Some(*section);
            }
        }
        None
    }

    // Whether a section has contents in the file, and this name.
    fn is_named(&self, section: &Section, name: &[u8]) -> bool
        ensures { IsTrue result ↔ IsNamed (section_names_of self.now) name.now section.now }
    {
        section.section_type != header::NOBITS
            && self.section_names.string(section.name as usize) == name
    }

    // The strings of the section that another one is linked to.
    fn linked_strings(&mut self, alloc: Global, section: &Section) -> Result<Strings, ElfError>
        ensures strings { IfOk result (λ strings.
            IfSome (all_bytes_of (R.state (source_of self.old)).position)
            (λ all. bytes_of strings
            ≡ contents_of_some all (slice_get (sections_of self.old) section.now.link))) }
        ensures all { all_bytes_of (R.state (source_of self.new)).position
            ≡ all_bytes_of (R.state (source_of self.old)).position }
        ensures same { HasSameHeaders self.old self.new }
    {
        read_strings(
            alloc,
            &mut self.source,
            &self.sections,
            section.link as usize,
        )
    }
}

// The strings of the section with an index, which has none if there is no such section.
fn read_strings<R: PlacedSource>(
    alloc: Global,
    source: &mut R,
    sections: &[Section],
    index: usize,
) -> Result<Strings, ElfError>
    ensures strings { IfOk result (λ strings. IfSome (all_bytes_of (R.state source.old).position)
        (λ all. bytes_of strings ≡ contents_of_some all (slice_get sections.now index))) }
    ensures all { all_bytes_of (R.state source.new).position
        ≡ all_bytes_of (R.state source.old).position }
{
    let bytes = match find_section(sections, index) {
        Some(section) => read_contents(alloc, source, &section, ElfTable::Strings)?,
        None => Vec::new(alloc),
    };
    Ok(Strings::new(alloc, bytes)?)
}

// The build id in a range of notes.
fn read_build_id<R: PlacedSource>(
    alloc: Global,
    source: &mut R,
    encoding: Encoding,
    range: &NoteRange,
) -> Result<Option<Vec<u8>>, ElfError>
    ensures id { IfOk result (λ id. IfSome (all_bytes_of (R.state source.old).position)
        (λ all. IsIdInRange encoding all range.now (option_map (λ bytes. bytes.items) id))) }
    ensures all { all_bytes_of (R.state source.new).position
        ≡ all_bytes_of (R.state source.old).position }
{
    let size = range.size.min(MAX_NOTE_SIZE);
    let bytes = read_table(alloc, source, range.offset, size, ElfTable::Notes)?;
    match find_build_id(encoding, &bytes, range.has_align_8) {
        Some(id) => Ok(Some(Vec::from_slice(alloc, id)?)),
        None => Ok(None),
    }
}

// The build id in the first range of notes that has one.
fn first_build_id<R: PlacedSource>(
    alloc: Global,
    source: &mut R,
    encoding: Encoding,
    notes: &[NoteRange],
) -> Result<Option<Vec<u8>>, ElfError>
    ensures id { IfOk result (λ id. IfSome (all_bytes_of (R.state source.old).position)
        (λ all. IsIdInRanges encoding all notes.now (option_map (λ bytes. bytes.items) id))) }
    ensures all { all_bytes_of (R.state source.new).position
        ≡ all_bytes_of (R.state source.old).position }
{
    'notes: for range in notes.iter() {
        if let Some(id) = read_build_id(alloc, source, encoding, range)? {
            return Ok(Some(id));
        }
    }
    Ok(None)
}

// The symbols of a table.
fn symbols_of_parts(
    alloc: Global,
    header: FileHeader,
    sections: &[Section],
    segments: &[Segment],
    entry_size: u64,
    parts: TableParts,
) -> Result<RankedSymbols, ElfError>
    ensures { IfOk result (AreSymbolsOfParts header sections.now segments.now entry_size parts) }
{
    let TableParts {
        entries,
        section_indices,
        versions,
        names,
        text_sections,
    } = parts;
    let context = SymbolContext {
        header,
        sections,
        text_sections: &text_sections,
        section_indices: &section_indices,
        versions: &versions,
        segments,
        names: &names,
    };
    let mut symbols = Vec::new(alloc);
    add_symbols(&context, &entries, entry_size, &mut symbols)?;
    Ok(RankedSymbols {
        names: names.into_bytes(),
        symbols,
    })
}

// Adds the symbols of the entries of procedure linkage tables.
fn add_plt_of_parts(
    alloc: Global,
    header: &FileHeader,
    parts: PltParts,
    plt: Option<Section>,
    second: Option<Section>,
    symbols: &mut RankedSymbols,
) -> Result<(), ElfError>
    ensures { AddsOfParts header.now parts plt second symbols.old symbols.new }
{
    let context = plt::PltContext {
        encoding: header.encoding,
        machine: header.machine,
        relocations: &parts.relocations,
        relocation_size: parts.relocation_size,
        symbols: &parts.symbols,
        symbol_size: parts.symbol_size,
        names: &parts.names,
        code: &parts.code,
        code_encoding: arm_plt::code_encoding(header),
    };
    plt::add_sections(alloc, &context, plt, second, symbols)
}

// Whether a section has this type, and is linked to the symbol table with this index.
fn is_linked(section: &Section, section_type: u32, symbol_table: usize) -> bool
    ensures { result ≡ is_linked section_type symbol_table section.now }
{
    section.section_type == section_type && section.link as usize == symbol_table
}

// The index of the first section of a type that is linked to the symbol table with an index.
fn linked_index(sections: &[Section], section_type: u32, symbol_table: usize) -> Option<usize>
    ensures { result ≡ position (λ s. is_linked section_type symbol_table s) sections.now }
{
    sections
        .iter()
        .position(|section| is_linked(section, section_type, symbol_table))
}

// That section.
fn find_linked(sections: &[Section], section_type: u32, symbol_table: usize) -> Option<Section>
    ensures { result ≡ linked_section sections.now section_type symbol_table }
{
    match linked_index(sections, section_type, symbol_table) {
        Some(index) => find_section(sections, index),
        None => None,
    }
}

// Whether the names of the sections contain `text`.
fn are_text(alloc: Global, sections: &[Section], names: &Strings) -> Result<Vec<bool>, AllocError>
    ensures { IfOk result (λ flags. AreTextFlags (bytes_of names.now) sections.now flags.items) }
{
    let mut flags = Vec::new(alloc);
    'sections: for section in sections.iter() {
        flags.push(names.string(section.name as usize).contains_str(b"text"))?;
    }
    Ok(flags)
}

// The debug link in the bytes of its section: a name, up to three NULs after its own, and the CRC.
fn parse_debug_link(
    alloc: Global,
    encoding: Encoding,
    bytes: &[u8],
) -> Result<Option<DebugLink>, ElfError>
    ensures { IfOk result (IsDebugLinkOf encoding bytes.now) }
{
    let name_len = byte_offset(0, bytes);
    let crc_at = (name_len + 4) / 4 * 4;
    if name_len == 0 || bytes.len() < 4 || bytes.len() - 4 < crc_at {
        return Ok(None);
    }
    Ok(Some(DebugLink {
        file_name: Vec::from_slice(alloc, &bytes[..name_len])?,
        crc: TableEntry { encoding, bytes }.read_u32(crc_at),
    }))
}

// The alternate link in the bytes of its section: a path, a NUL and the build id.
fn parse_alternate_link(alloc: Global, bytes: &[u8]) -> Result<Option<AlternateLink>, AllocError>
    ensures { IfOk result (IsAlternateLinkOf bytes.now) }
{
    let path_len = byte_offset(0, bytes);
    if path_len == 0 || bytes.len() - path_len < 2 {
        return Ok(None);
    }
    Ok(Some(AlternateLink {
        path: Vec::from_slice(alloc, &bytes[..path_len])?,
        build_id: Vec::from_slice(alloc, &bytes[path_len + 1..])?,
    }))
}
