//! The entries of the procedure linkage table.

ghost use Rattle.std.specs.Prelude.{◌≡◌, ◌⊎◌, ◌+◌, ◌*◌, ◌%◌, ◌^◌, ◌<◌, ◌++◌, ◌∷◌, [], ℕ, List};
ghost use Rattle.std.specs.Prelude.{All, IfOk, IfSome, OnErr, OnOk, codes, false, filter};
ghost use Rattle.code_symbols.specs.Plt.{IsInPointerOrder};
ghost use Rattle.code_symbols.specs.PltEntries.{AddsInOrder, AddsOfSection, AddsOfSections, AddsPlt};
ghost use Rattle.code_symbols.specs.PltEntries.{HasText, IsMade, IsOfFile, IsRelocation, fixed_entries};
ghost use Rattle.code_symbols.specs.PltEntries.{fixed_entry, has_entry, name_of_relocation};
ghost use Rattle.code_symbols.specs.PltEntries.{symbol_of_relocation};
ghost use Rattle.code_symbols.specs.declared.ranked.RankedSymbol.{RankedSymbol};

use crate::elf::arm_plt::{CodedEntries, coded_entries};
use crate::elf::header::Section;
use crate::elf::input::{Encoding, TableEntry};
use crate::elf::strings::Strings;
use crate::elf::symbols::{ElfSymbol, min_symbol_size, parse_symbol};
use crate::error::{ElfError, ElfTable};
use crate::ranked::{RankedSymbol, RankedSymbols};
use crate::symbol::Symbol;
use std::alloc::{AllocError, Global};

// The machines whose tables are known (`EM_386`, `EM_S390`, `EM_ARM`, `EM_X86_64`, `EM_AARCH64`, `EM_RISCV`).
const X86: u16 = 3;

const S390: u16 = 22;

pub(crate) const ARM: u16 = 40;

const X86_64: u16 = 62;

const AARCH64: u16 = 183;

const RISCV: u16 = 243;

// The size of an entry of `.plt.sec`, and of one of `.plt` for other machines, in bytes.
const USUAL_ENTRY_SIZE: u64 = 16;

// The bytes after the name of a function in that of its entry.
const SUFFIX: [u8; 4] = [b'@', b'p', b'l', b't'];

// How many times the bytes of the string table the names of entries may have.
const MAX_NAME_SHARE: usize = 8;

// The largest size of the code for TLS descriptors after the last entry, in bytes.
const MAX_DESCRIPTOR_CODE_SIZE: u64 = 44;

// The size of the part before the first entry, and the size of an entry, in bytes.
#[derive(Clone, Copy)]
pub(crate) struct PltLayout {
    header_size: u64,
    entry_size: u64,
}

// The offset of an entry in its section, and its size, in bytes.
#[derive(Clone, Copy)]
pub(crate) struct PltEntry {
    pub(crate) offset: u64,
    pub(crate) size: u64,
}

// The tables of GNU ld, gold and lld, and of mold.
const X86_LAYOUTS: [PltLayout; 2] = [
    PltLayout {
        header_size: 16,
        entry_size: 16,
    },
    PltLayout {
        header_size: 32,
        entry_size: 16,
    },
];

const S390_LAYOUTS: [PltLayout; 1] = [PltLayout {
    header_size: 32,
    entry_size: 32,
}];

// The tables of lld and mold. The sizes of the entries of GNU ld and gold follow from their code.
const ARM_LAYOUTS: [PltLayout; 1] = [PltLayout {
    header_size: 32,
    entry_size: 16,
}];

// Entries that start with the instruction for indirect branches (BTI) have 24 bytes.
const AARCH64_LAYOUTS: [PltLayout; 2] = [
    PltLayout {
        header_size: 32,
        entry_size: 16,
    },
    PltLayout {
        header_size: 32,
        entry_size: 24,
    },
];

const RISCV_LAYOUTS: [PltLayout; 1] = [PltLayout {
    header_size: 32,
    entry_size: 16,
}];

// Whether a relocation is of a function that is called by an entry.
#[derive(Clone, Copy, PartialEq, Eq)]
enum RelocationKind {
    // Of a symbol's function (`R_.._JUMP_SLOT`).
    Function,
    // Of a function that the program chooses (`R_.._IRELATIVE`), which has an entry but no symbol.
    Indirect,
    // Of a TLS descriptor (`R_.._TLSDESC`), which has no entry. Code for all of them may follow the entries.
    Descriptor,
    // Of something else.
    Other,
}

// A relocation of the table.
#[derive(Clone, Copy)]
struct Relocation {
    // The address of the pointer by which its entry jumps.
    offset: u64,
    // The index of its symbol.
    symbol: u64,
    kind: RelocationKind,
}

// What the relocations refer to.
#[derive(Clone, Copy)]
pub(crate) struct PltContext<'a> {
    pub(crate) encoding: Encoding,
    pub(crate) machine: u16,
    pub(crate) relocations: &'a [u8],
    pub(crate) relocation_size: u64,
    pub(crate) symbols: &'a [u8],
    pub(crate) symbol_size: u64,
    pub(crate) names: &'a Strings,
    // The code of `.plt` for 32-bit Arm, otherwise none.
    pub(crate) code: &'a [u8],
    pub(crate) code_encoding: Encoding,
}

// The layouts of `.plt` that linkers write for a machine.
fn plt_layouts(machine: u16) -> &'static [PltLayout] {
    match machine {
        X86 | X86_64 => &X86_LAYOUTS,
        S390 => &S390_LAYOUTS,
        ARM => &ARM_LAYOUTS,
        AARCH64 => &AARCH64_LAYOUTS,
        RISCV => &RISCV_LAYOUTS,
        _ => &[],
    }
}

// The kind of a relocation of this type (the processor supplements of the System V ABI). All types of other
// machines count as those of functions.
fn relocation_kind(machine: u16, relocation_type: u64) -> RelocationKind {
    match (machine, relocation_type) {
        (X86 | X86_64, 7) | (S390, 11) | (ARM, 22) | (AARCH64, 1026) | (RISCV, 5) => {
            RelocationKind::Function
        }
        (X86, 42) | (X86_64, 37) | (S390, 61) | (ARM, 160) | (AARCH64, 1032) | (RISCV, 58) => {
            RelocationKind::Indirect
        }
        (X86, 41) | (X86_64, 36) | (ARM, 13) | (AARCH64, 1031) => RelocationKind::Descriptor,
        (X86 | X86_64 | S390 | ARM | AARCH64 | RISCV, _) => RelocationKind::Other,
        _ => RelocationKind::Function,
    }
}

// The relocation in these bytes.
fn parse_relocation(machine: u16, entry: TableEntry<'_>) -> Relocation
    ensures { IsRelocation entry.entry.encoding entry.entry.bytes.now result }
{
    let info = entry.word(4, 8);
    let (symbol, relocation_type) = if entry.encoding.is_64_bit {
        (info >> 32, info % 0x1_0000_0000)
    } else {
        (info >> 8, info % 0x100)
    };
    Relocation {
        offset: entry.word(0, 0),
        symbol,
        kind: relocation_kind(machine, relocation_type),
    }
}

impl PltLayout {
    // Whether a section of this size has the header, this many entries, and at most `max_rest` bytes after
    // them.
    fn fits(&self, size: u64, count: u64, max_rest: u64) -> bool {
        match count.checked_mul(self.entry_size) {
            Some(entries) => match self.header_size.checked_add(entries) {
                Some(end) => end <= size && size - end <= max_rest,
                None => false,
            },
            None => false,
        }
    }

    // The entry with an index. Its offset is modulo 2^64.
    fn entry(&self, index: u64) -> PltEntry
        ensures { result ≡ fixed_entry self.now index }
    {
        PltEntry {
            offset: index
                .wrapping_mul(self.entry_size)
                .wrapping_add(self.header_size),
            size: self.entry_size,
        }
    }

    // The first entries.
    fn entries(&self, alloc: Global, count: usize) -> Result<Vec<PltEntry>, AllocError>
        ensures { IfOk result (λ entries. entries.items ≡ fixed_entries self.now count) }
    {
        let mut entries = Vec::new(alloc);
        'entries: for index in 0..count {
            entries.push(self.entry(index as u64))?;
        }
        Ok(entries)
    }
}

// The layout for another machine: entries of the size that the section header gives, at the end.
fn usual_layout(section: &Section, count: u64) -> Option<PltLayout> {
    let entry_size = if section.entry_size == 0 {
        USUAL_ENTRY_SIZE
    } else {
        section.entry_size
    };
    let entries = count.checked_mul(entry_size)?;
    Some(PltLayout {
        header_size: section.size.checked_sub(entries)?,
        entry_size,
    })
}

// The layout of `.plt` with this many entries, or `None` if no linker writes that.
fn find_layout(machine: u16, section: &Section, count: u64, max_rest: u64) -> Option<PltLayout> {
    let layouts = plt_layouts(machine);
    if layouts.is_empty() {
        return usual_layout(section, count);
    }
    'layouts: for layout in layouts.iter() {
        if layout.fits(section.size, count, max_rest) {
            return Some(*layout);
        }
    }
    None
}

impl<'a> PltContext<'a> {
    // The relocations, in their order in the file.
    fn all_relocations(&self, alloc: Global) -> Result<Vec<Relocation>, AllocError>
        requires { 0 < self.now.relocation_size }
        ensures { IfOk result (λ relocations. All (IsOfFile self.now) relocations.items) }
    {
        let encoding = self.encoding;
        let size = self.relocation_size as usize;
        let mut relocations = Vec::new(alloc);
        let mut at = 0;
        'relocations: while size <= self.relocations.len() - at {
            let bytes = &self.relocations[at..at + size];
            relocations.push(parse_relocation(self.machine, TableEntry { encoding, bytes }))?;
            at += size;
        }
        Ok(relocations)
    }

    // The symbol of a relocation, if the symbol table has it.
    fn relocation_symbol(&self, relocation: &Relocation) -> Option<ElfSymbol>
        ensures { result ≡ symbol_of_relocation self.now relocation.now }
    {
        let start = relocation.symbol.checked_mul(self.symbol_size)?;
        let end = start.checked_add(self.symbol_size)?;
        if end > self.symbols.len() as u64 {
            return None;
        }
        Some(parse_symbol(TableEntry {
            encoding: self.encoding,
            bytes: &self.symbols[start as usize..end as usize],
        }))
    }

    // The name of the symbol of a relocation, which is empty if the symbol table doesn't have the symbol.
    fn relocation_name(&self, relocation: &Relocation) -> &'a [u8]
        ensures { result.now ≡ name_of_relocation self.now relocation.now }
    {
        match self.relocation_symbol(relocation) {
            Some(symbol) => self.names.string(symbol.name as usize),
            None => &[],
        }
    }
}

// The relocations that have entries, in the order of the entries, which is that of the pointers.
#[derive(Drop)]
pub(crate) struct PltRelocations {
    machine: u16,
    // Those of symbols and those that the program chooses.
    all: Vec<Relocation>,
    // Those of symbols.
    of_functions: Vec<Relocation>,
    // Whether code for TLS descriptors may follow the entries.
    has_descriptors: bool,
    ghost all_in_order: { IsInPointerOrder all.items },
    ghost functions_in_order: { IsInPointerOrder of_functions.items },
}

impl PltRelocations {
    ghost use Rattle.code_symbols.specs.steps.PltRelocations.{AreOfFile};

    pub(crate) fn read(alloc: Global, context: &PltContext<'_>) -> Result<PltRelocations, ElfError>
        ensures { IfOk result (λ p. AreOfFile context.now p) }
    {
        let encoding = context.encoding;
        if context.relocation_size < encoding.select(8, 16) as u64 {
            return Err(ElfError::EntrySize(ElfTable::Relocations, context.relocation_size));
        }
        if context.symbol_size < min_symbol_size(encoding) as u64 {
            return Err(ElfError::EntrySize(ElfTable::Symbols, context.symbol_size));
        }
        let mut relocations = context.all_relocations(alloc)?;
        relocations.sort_by_key(|relocation| relocation.offset)?;
        Ok(PltRelocations {
            machine: context.machine,
            all: with_kinds(alloc, &relocations, true)?,
            of_functions: with_kinds(alloc, &relocations, false)?,
            has_descriptors: relocations
                .iter()
                .any(|relocation| relocation.kind == RelocationKind::Descriptor),
        })
    }

    // The relocations whose number is that of the entries.
    fn with_count(&self, count: usize) -> Option<&[Relocation]>
        ensures { IfSome result (λ relocations. IsInPointerOrder relocations.now) }
    {
        if self.all.len() == count {
            Some(&self.all)
        } else if self.of_functions.len() == count {
            Some(&self.of_functions)
        } else {
            None
        }
    }

    // Adds the symbols of the entries whose sizes follow from their code. Returns whether there are such
    // entries.
    fn add_coded(
        &self,
        alloc: Global,
        context: &PltContext<'_>,
        section: &Section,
        symbols: &mut RankedSymbols,
    ) -> Result<bool, AllocError>
        ensures adds { (symbols.new ≡ symbols.old)
            ⊎ AddsInOrder context.now section.now symbols.old symbols.new }
        ensures none { result ≡ Ok false → symbols.new ≡ symbols.old }
    {
        let code = TableEntry {
            encoding: context.code_encoding,
            bytes: context.code,
        };
        let CodedEntries { entries, end } = coded_entries(alloc, code)?;
        if entries.is_empty() {
            return Ok(false);
        }
        if section.size < end as u64 || section.size - end as u64 > self.max_rest() {
            return Ok(true);
        }
        if let Some(relocations) = self.with_count(entries.len()) {
            add_entries(context, section, &entries, relocations, symbols)?;
        }
        Ok(true)
    }

    // How many bytes may follow the entries.
    fn max_rest(&self) -> u64 {
        if self.has_descriptors {
            MAX_DESCRIPTOR_CODE_SIZE
        } else {
            0
        }
    }

    // The relocations of the entries of `.plt`, and its layout. `None` if it isn't what linkers write.
    fn plt_entries(&self, section: &Section) -> Option<(&[Relocation], PltLayout)>
        ensures { IfSome result (λ entries. IsInPointerOrder entries.0.now) }
    {
        let max_rest = self.max_rest();
        // Some linkers have the entries of chosen functions in another section.
        if let Some(layout) = find_layout(self.machine, section, self.all.len() as u64, max_rest) {
            return Some((&self.all, layout));
        }
        let count = self.of_functions.len() as u64;
        match find_layout(self.machine, section, count, max_rest) {
            Some(layout) => Some((&self.of_functions, layout)),
            None => None,
        }
    }

    // The relocations of the entries of `.plt.sec`, which has no header, and its layout.
    fn second_entries(&self, section: &Section) -> Option<(&[Relocation], PltLayout)>
        ensures { IfSome result (λ entries. IsInPointerOrder entries.0.now) }
    {
        let layout = PltLayout {
            header_size: 0,
            entry_size: USUAL_ENTRY_SIZE,
        };
        if layout.fits(section.size, self.all.len() as u64, 0) {
            Some((&self.all, layout))
        } else if layout.fits(section.size, self.of_functions.len() as u64, 0) {
            Some((&self.of_functions, layout))
        } else {
            None
        }
    }

    // Adds the symbols of the entries of `.plt`.
    fn add_plt(
        &self,
        alloc: Global,
        context: &PltContext<'_>,
        section: &Section,
        symbols: &mut RankedSymbols,
    ) -> Result<(), AllocError>
        ensures { (symbols.new ≡ symbols.old) ⊎ AddsInOrder context.now section.now symbols.old symbols.new }
    {
        if self.add_coded(alloc, context, section, symbols)? {
            return Ok(());
        }
        match self.plt_entries(section) {
            Some((relocations, layout)) => {
                let entries = layout.entries(alloc, relocations.len())?;
                add_entries(context, section, &entries, relocations, symbols)
            }
            None => Ok(()),
        }
    }

    // Adds the symbols of the entries of `.plt.sec`.
    fn add_second_plt(
        &self,
        alloc: Global,
        context: &PltContext<'_>,
        section: &Section,
        symbols: &mut RankedSymbols,
    ) -> Result<(), AllocError>
        ensures { (symbols.new ≡ symbols.old) ⊎ AddsInOrder context.now section.now symbols.old symbols.new }
    {
        match self.second_entries(section) {
            Some((relocations, layout)) => {
                let entries = layout.entries(alloc, relocations.len())?;
                add_entries(context, section, &entries, relocations, symbols)
            }
            None => Ok(()),
        }
    }
}

// Adds the symbols of the entries of `.plt` and `.plt.sec`, of those that the file has.
pub(crate) fn add_sections(
    alloc: Global,
    context: &PltContext<'_>,
    plt: Option<Section>,
    second: Option<Section>,
    symbols: &mut RankedSymbols,
) -> Result<(), ElfError>
    ensures { AddsOfSections context.now plt second symbols.old symbols.new }
{
    let relocations = PltRelocations::read(alloc, context)?;
    add_first(alloc, context, &relocations, plt, symbols)?;
    Ok(add_second(alloc, context, &relocations, second, symbols)?)
}

// Adds the symbols of the entries of `.plt`.
fn add_first(
    alloc: Global,
    context: &PltContext<'_>,
    relocations: &PltRelocations,
    section: Option<Section>,
    symbols: &mut RankedSymbols,
) -> Result<(), AllocError>
    ensures { AddsOfSection context.now section symbols.old symbols.new }
{
    match section {
        Some(section) => relocations.add_plt(alloc, context, &section, symbols),
        None => Ok(()),
    }
}

// Adds the symbols of the entries of `.plt.sec`.
fn add_second(
    alloc: Global,
    context: &PltContext<'_>,
    relocations: &PltRelocations,
    section: Option<Section>,
    symbols: &mut RankedSymbols,
) -> Result<(), AllocError>
    ensures { AddsOfSection context.now section symbols.old symbols.new }
{
    match section {
        Some(section) => relocations.add_second_plt(alloc, context, &section, symbols),
        None => Ok(()),
    }
}

// Whether a relocation of this kind has an entry, if those of functions that the program chooses have one.
fn kind_has_entry(are_all: bool, kind: RelocationKind) -> bool
    ensures { result ≡ has_entry are_all kind }
{
    match kind {
        RelocationKind::Function => true,
        RelocationKind::Indirect => are_all,
        RelocationKind::Descriptor => false,
        RelocationKind::Other => false,
    }
}

// The relocations of functions, and those of functions that the program chooses if `are_all`.
fn with_kinds(
    alloc: Global,
    relocations: &[Relocation],
    are_all: bool,
) -> Result<Vec<Relocation>, AllocError>
    ensures { IfOk result (λ found. found.items ≡ filter (λ r. has_entry are_all r.kind) relocations.now) }
{
    let mut found = Vec::new(alloc);
    'relocations: for relocation in relocations.iter() {
        if kind_has_entry(are_all, relocation.kind) {
            found.push(*relocation)?;
        }
    }
    Ok(found)
}

// Adds a symbol whose name is that of a function, and `@plt`.
fn add_entry(
    symbols: &mut RankedSymbols,
    start: u64,
    size: u64,
    name: &[u8],
) -> Result<(), AllocError>
    ensures names { (more : List ℕ) × (symbols.new.names.items ≡ symbols.old.names.items ++ more) }
    ensures ok { OnOk result ((r : RankedSymbol)
        × (symbols.new.symbols.items ≡ symbols.old.symbols.items ++ r ∷ []) × IsMade start size r
        × HasText symbols.new.names.items (name.now ++ codes "@plt") r) }
    ensures err { OnErr result (symbols.new.symbols.items ≡ symbols.old.symbols.items) }
{
    let name_start = symbols.names.len();
    symbols.names.extend_from_slice(name)?;
    symbols.names.extend_from_slice(&SUFFIX)?;
    symbols.symbols.push(RankedSymbol {
        symbol: Symbol {
            start,
            size,
            name_start,
            name_end: symbols.names.len(),
        },
        is_made: true,
        is_compatibility: false,
        is_weak: false,
        is_global: true,
        section_end: u64::MAX,
    })?;
    Ok(())
}

// Adds the symbols of a section's entries. Stops once the names have eight times the bytes of the string
// table, which only names that overlap can have.
fn add_entries(
    context: &PltContext<'_>,
    section: &Section,
    entries: &[PltEntry],
    relocations: &[Relocation],
    symbols: &mut RankedSymbols,
) -> Result<(), AllocError>
    ensures { AddsPlt context.now section.now entries.now relocations.now symbols.old symbols.new }
{
    let limit = symbols
        .names
        .len()
        .saturating_add(context.names.len().saturating_mul(MAX_NAME_SHARE));
    'relocations: for (index, relocation) in relocations.iter().enumerate() {
        if symbols.names.len() > limit || index >= entries.len() {
            return Ok(());
        }
        let name = context.relocation_name(relocation);
        if !name.is_empty() {
            let entry = entries[index];
            let start = section.offset.wrapping_add(entry.offset);
            add_entry(symbols, start, entry.size, name)?;
        }
    }
    Ok(())
}
