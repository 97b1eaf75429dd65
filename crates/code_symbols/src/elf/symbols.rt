//! The entries of symbol tables.

ghost use Rattle.std.specs.Option.{option_map};
ghost use Rattle.std.specs.Prelude.{◌≡◌, ◌<◌, true, IfNone, IfSome, OnOk, slice_get, slice_index};
ghost use Rattle.code_symbols.specs.ElfSymbols.{AddsAll, AddsEntries, IsDefined, IsOffsetOfAddress, IsRanked};
ghost use Rattle.code_symbols.specs.ElfSymbols.{IsLeftOut, IsListed, IsSymbolOffset, section_of_symbol};
ghost use Rattle.code_symbols.specs.ElfSymbols.{elf_symbol_in, section_index_of, section_offset};
ghost use Rattle.code_symbols.specs.ElfSymbols.{symbol_address};
ghost use Rattle.code_symbols.specs.ElfSymbols.{IsCompatibility, end_of_section, is_hidden, is_label};
ghost use Rattle.code_symbols.specs.ElfSymbols.{is_listed, is_mapping_name};
ghost use Rattle.code_symbols.specs.Versions.{IsOtherVersion, printed_len};

use crate::elf::header::{FileHeader, RELOCATABLE, Section, Segment};
use crate::elf::input::{Encoding, TableEntry};
use crate::elf::strings::{Strings, byte_offset};
use crate::error::{ElfError, ElfTable};
use crate::ranked::RankedSymbol;
use crate::symbol::Symbol;
use memchr::memchr;

// The bindings of global and weak symbols (`STB_GLOBAL`, `STB_WEAK`).
const GLOBAL: u8 = 1;

const WEAK: u8 = 2;

// The types of labels, objects, functions and functions that choose a function (`STT_NOTYPE`, `STT_OBJECT`,
// `STT_FUNC`, `STT_GNU_IFUNC`).
const NO_TYPE: u8 = 0;

const OBJECT: u8 = 1;

const FUNCTION: u8 = 2;

const INDIRECT_FUNCTION: u8 = 10;

// Visibilities of symbols that other files don't see (`STV_INTERNAL`, `STV_HIDDEN`).
const INTERNAL: u8 = 1;

const HIDDEN: u8 = 2;

// The section of symbols that are in another file (`SHN_UNDEF`).
const UNDEFINED: u16 = 0;

// The section of symbols whose values are no addresses (`SHN_ABS`).
const ABSOLUTE: u16 = 0xfff1;

// The index of a symbol's section is in another section (`SHN_XINDEX`).
const LARGE_INDEX: u16 = 0xffff;

// From this index on, an entry has a number that is no section, such as that of symbols without one
// (`SHN_LORESERVE`).
const FIRST_RESERVED: u16 = 0xff00;

// The 32-bit machine of Arm (`EM_ARM`). Bit 0 of a function's value there says in which mode it runs.
const ARM: u16 = 40;

// From this number on, a version isn't the default one of its name (bit 15 of an entry of `.gnu.version`).
const FIRST_HIDDEN_VERSION: u16 = 0x8000;

// What separates a name from its version. Two of them separate it from its default version.
const VERSION_MARK: u8 = b'@';

// What the symbols of a file refer to.
#[derive(Clone, Copy)]
pub(crate) struct SymbolContext<'a> {
    pub(crate) header: FileHeader,
    pub(crate) sections: &'a [Section],
    pub(crate) text_sections: &'a [bool],
    // The section indices of all symbols, four bytes each, or none.
    pub(crate) section_indices: &'a [u8],
    // The versions of all symbols, two bytes each, or none.
    pub(crate) versions: &'a [u8],
    pub(crate) segments: &'a [Segment],
    pub(crate) names: &'a Strings,
}

// The fields of an entry.
#[derive(Clone, Copy)]
pub(crate) struct ElfSymbol {
    pub(crate) name: u32,
    pub(crate) binding: u8,
    pub(crate) symbol_type: u8,
    pub(crate) visibility: u8,
    pub(crate) section: u16,
    pub(crate) value: u64,
    pub(crate) size: u64,
}

// The minimum size of an entry in bytes.
pub(crate) fn min_symbol_size(encoding: Encoding) -> usize
    ensures { 0 < result }
{
    encoding.select(16, 24)
}

pub(crate) fn parse_symbol(entry: TableEntry<'_>) -> ElfSymbol
    ensures { result ≡ elf_symbol_in entry.entry.encoding entry.entry.bytes.now }
{
    let encoding = entry.encoding;
    let info = entry.read_u8(encoding.select(12, 4));
    ElfSymbol {
        name: entry.read_u32(0),
        binding: info >> 4,
        symbol_type: info & 15,
        visibility: entry.read_u8(encoding.select(13, 5)) & 3,
        section: entry.read_u16(encoding.select(14, 6)),
        value: entry.word(4, 8),
        size: entry.word(8, 16),
    }
}

// Whether a name is that of a mark between code and data in code for Arm and RISC-V.
fn is_mapping_symbol(name: &[u8]) -> bool
    ensures { result ≡ is_mapping_name name.now }
{
    name.len() >= 2 && name[0] == b'$' && matches!(name[1], b'a' | b'd' | b't' | b'x')
}

// The byte of a name at an offset, or 0 after its end.
fn name_byte(name: &[u8], at: usize) -> u8
    ensures { result ≡ slice_index name.now at }
{
    if at < name.len() { name[at] } else { 0 }
}

// Whether a name has a version that isn't its default one: `NAME@VERSION`, not `NAME@@VERSION`.
fn is_other_version(name: &[u8]) -> bool
    ensures { IsOtherVersion name.now result }
{
    match memchr(VERSION_MARK, name) {
        Some(at) => at > 0 && name_byte(name, at + 1) != VERSION_MARK,
        None => false,
    }
}

// The length of a name without its default version.
fn printed_len(name: &[u8]) -> usize
    ensures { result ≡ printed_len name.now }
{
    let end = byte_offset(VERSION_MARK, name);
    if end > 0 && name_byte(name, end.saturating_add(1)) == VERSION_MARK {
        end
    } else {
        name.len()
    }
}

// The offset of an address in a file with these segments.
fn offset_of_address(segments: &[Segment], address: u64) -> Option<u64>
    ensures { IsOffsetOfAddress segments.now address result }
{
    'segments: for segment in segments.iter() {
        if segment.address <= address && address - segment.address < segment.memory_size {
            return Some((address - segment.address).wrapping_add(segment.offset));
        }
    }
    None
}

// The offset of an address in a file by a section.
fn offset_in_section(section: Option<Section>, address: u64) -> Option<u64>
    ensures { result ≡ option_map (section_offset address) section }
{
    match section {
        Some(section) => {
            Some(
                address
                    .wrapping_sub(section.address)
                    .wrapping_add(section.offset),
            )
        }
        None => None,
    }
}

impl SymbolContext<'_> {
    // The index of the section of the symbol with an index, or `None` if it has no section.
    fn section_index(&self, symbol: &ElfSymbol, symbol_index: usize) -> Option<usize>
        ensures { result ≡ section_index_of self.now symbol.now symbol_index }
    {
        if symbol.section == LARGE_INDEX {
            let entry = TableEntry {
                encoding: self.header.encoding,
                bytes: self.section_indices,
            };
            return Some(entry.read_u32(symbol_index.saturating_mul(4)) as usize);
        }
        if symbol.section >= FIRST_RESERVED {
            return None;
        }
        Some(symbol.section as usize)
    }

    // The section of the symbol with an index, or `None` if it has no section.
    fn symbol_section(&self, symbol: &ElfSymbol, symbol_index: usize) -> Option<Section>
        ensures { result ≡ section_of_symbol self.now symbol.now symbol_index }
    {
        match self.section_index(symbol, symbol_index) {
            Some(index) => self.section(index),
            None => None,
        }
    }

    fn section(&self, index: usize) -> Option<Section>
        ensures { result ≡ slice_get self.now.sections.now index }
    {
        if index < self.sections.len() {
            Some(self.sections[index])
        } else {
            None
        }
    }

    // Whether a symbol without a type is a label in code.
    fn is_label(&self, symbol: &ElfSymbol, section: Option<usize>) -> bool
        ensures { result ≡ is_label self.now symbol.now section }
    {
        let Some(index) = section else {
            return false;
        };
        symbol.visibility != INTERNAL
            && symbol.visibility != HIDDEN
            && index < self.text_sections.len()
            && self.text_sections[index]
            && !is_mapping_symbol(self.names.string(symbol.name as usize))
    }

    // Whether a symbol is one of a function, an object or a label.
    fn is_listed(&self, symbol: &ElfSymbol, section: Option<usize>) -> bool
        ensures defined { result ≡ true → IsDefined symbol.now }
        ensures is { result ≡ is_listed self.now symbol.now section }
    {
        if symbol.name == 0 || symbol.section == UNDEFINED || symbol.section == ABSOLUTE {
            return false;
        }
        match symbol.symbol_type {
            FUNCTION | INDIRECT_FUNCTION | OBJECT => true,
            NO_TYPE => self.is_label(symbol, section),
            _ => false,
        }
    }

    // The address of a symbol: its value, without the bit that says in which mode a function for Arm runs.
    fn symbol_address(&self, symbol: &ElfSymbol) -> u64
        ensures { result ≡ symbol_address self.now.header.machine symbol.now }
    {
        if self.header.machine == ARM && symbol.symbol_type == FUNCTION {
            symbol.value & !1
        } else {
            symbol.value
        }
    }

    // The offset of a symbol in the file that is mapped.
    fn symbol_offset(&self, symbol: &ElfSymbol, section: Option<Section>) -> Option<u64>
        ensures { IsSymbolOffset self.now symbol.now section result }
    {
        let address = self.symbol_address(symbol);
        if self.header.file_type == RELOCATABLE || self.segments.is_empty() {
            offset_in_section(section, address)
        } else {
            offset_of_address(self.segments, address)
        }
    }

    // Whether the version of the symbol with an index isn't the default one of its name.
    fn is_hidden(&self, symbol_index: usize) -> bool
        ensures { result ≡ is_hidden self.now symbol_index }
    {
        let entry = TableEntry {
            encoding: self.header.encoding,
            bytes: self.versions,
        };
        entry.read_u16(symbol_index.saturating_mul(2)) >= FIRST_HIDDEN_VERSION
    }

    // Whether a symbol is kept for old programs, by its name or by its version.
    fn is_compatibility(&self, symbol: &ElfSymbol, symbol_index: usize) -> bool
        ensures { IsCompatibility self.now symbol.now symbol_index result }
    {
        is_other_version(self.names.string(symbol.name as usize)) || self.is_hidden(symbol_index)
    }

    // The symbol of the entry with an index, if it is listed.
    fn ranked(&self, symbol: &ElfSymbol, symbol_index: usize) -> Option<RankedSymbol>
        ensures ranked { IfSome result (λ r. IsRanked self.now symbol.now symbol_index r) }
        ensures listed { IfSome result (λ r. IsListed self.now symbol.now symbol_index r) }
        ensures none { IfNone result (IsLeftOut self.now symbol.now symbol_index) }
    {
        let section_index = self.section_index(symbol, symbol_index);
        if !self.is_listed(symbol, section_index) {
            return None;
        }
        let name_start = symbol.name as usize;
        let name = self.names.string(name_start);
        let name_len = printed_len(name);
        if name_len == 0 {
            return None;
        }
        let section = self.symbol_section(symbol, symbol_index);
        let start = self.symbol_offset(symbol, section)?;
        Some(RankedSymbol {
            symbol: Symbol {
                start,
                size: symbol.size,
                name_start,
                name_end: name_start.saturating_add(name_len),
            },
            is_made: false,
            is_compatibility: self.is_compatibility(symbol, symbol_index),
            is_weak: symbol.binding == WEAK,
            is_global: symbol.binding == GLOBAL,
            section_end: section_end(section, self.symbol_address(symbol), start),
        })
    }
}

// The end of a section, in the units of `start`, which is the offset of `address`.
fn section_end(section: Option<Section>, address: u64, start: u64) -> u64
    ensures { result ≡ end_of_section section address start }
{
    match section {
        Some(section) => {
            let end = section.address.saturating_add(section.size);
            start.saturating_add(end.saturating_sub(address))
        }
        None => u64::MAX,
    }
}

// Adds the symbols of a table's entries.
pub(crate) fn add_symbols(
    context: &SymbolContext<'_>,
    entries: &[u8],
    entry_size: u64,
    symbols: &mut Vec<RankedSymbol>,
) -> Result<(), ElfError>
    ensures each { AddsEntries context.now entries.now entry_size symbols.old.items symbols.new.items }
    ensures all { OnOk result
        (AddsAll context.now entries.now entry_size symbols.old.items symbols.new.items) }
{
    let encoding = context.header.encoding;
    if entry_size < min_symbol_size(encoding) as u64 {
        return Err(ElfError::EntrySize(ElfTable::Symbols, entry_size));
    }
    let size = entry_size as usize;
    let (mut index, mut at) = (0, 0);
    'entries: while size <= entries.len() - at {
        let bytes = &entries[at..at + size];
        let symbol = parse_symbol(TableEntry { encoding, bytes });
        if let Some(ranked) = context.ranked(&symbol, index) {
            symbols.push(ranked)?;
        }
        at += size;
        index += 1;
    }
    Ok(())
}
