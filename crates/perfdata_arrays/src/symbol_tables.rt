//! Simpleperf's symbol tables: files with their symbols.
ghost use Rattle.std.specs.Prelude.{◌≡◌, ◌+◌, ◌^◌, ◌<◌, List, MatchResult, length, map};
ghost use Rattle.perfdata_sections.specs.declared.error.Error.TheVariants.{Memory};
ghost use Rattle.perfdata_simpleperf.specs.FileRecord.{FileValue, info_value, record_value, symbol_value};
ghost use Rattle.perfdata_arrays.specs.Overwrites.{with_entries_at};
ghost use Rattle.perfdata_arrays.specs.SymbolTables.{IsSymbolSection};
ghost use Rattle.perfdata_arrays.specs.steps.SymbolTables.{AreNextTotals, IsCheckedNamesSize};
ghost use Rattle.perfdata_arrays.specs.SymbolTables.{ReadsSymbolTables};
ghost use Rattle.perfdata_arrays.specs.steps.SymbolTables.{ParsesSymbolTables};
ghost use Rattle.perfdata_arrays.specs.SymbolTables.{WritesFilesOrPrefix, dex_offsets_in, file_entry_at};
ghost use Rattle.perfdata_arrays.specs.SymbolTables.{info_type_of, min_vaddr_offset_of, symbol_entries_at};
ghost use Rattle.perfdata_arrays.specs.SymbolTables.{symbol_names, zero_totals};

use crate::array::copy_entries;
use crate::status::{Status, status_of_error};
use linux_perf_data::{Error, Feature};
use perfdata_base::raw::Endianness;
use perfdata_simpleperf::simpleperf::{
    SimpleperfFileRecord, SimpleperfSymbol, SimpleperfTypeSpecificInfo, parse_file_section,
    parse_file2_section,
};
use std::alloc::Global;

/// A file as plain numbers, with the positions of its path, its symbols and its DEX offsets.
#[repr(C)]
#[derive(Clone, Copy, Debug, Default, PartialEq, Eq)]
pub struct SymbolFile {
    /// The offset of its path in the bytes of all names.
    pub path_offset: u64,
    /// The size of its path in bytes.
    pub path_size: u64,
    /// The lowest address of its code.
    pub min_vaddr: u64,
    /// The index of its first symbol in the symbols of all files.
    pub symbols_start: u64,
    /// The number of its symbols.
    pub symbols_count: u64,
    /// For an ELF file the offset in the file of the bytes at the lowest address; for a kernel module that in
    /// the module's memory; otherwise 0.
    pub min_vaddr_offset: u64,
    /// The index of its first DEX offset in the DEX offsets of all files.
    pub dex_offsets_start: u64,
    /// The number of its DEX offsets.
    pub dex_offsets_count: u64,
    /// The type of the file: 0 kernel, 1 kernel module, 2 ELF file, 3 DEX file, 4 symbol map, otherwise
    /// another file.
    pub type_: u32,
    /// The type of file that its offsets are for: 1 kernel module, 2 ELF file, 3 DEX file; 0 without offsets.
    pub info_type: u32,
}

const _: () = prove!(size_of::<SymbolFile>() == 72);

/// A symbol as plain numbers, with the position of its name.
#[repr(C)]
#[derive(Clone, Copy, Debug, Default, PartialEq, Eq)]
pub struct Symbol {
    /// The symbol's address in the file's own address space.
    pub vaddr: u64,
    /// The symbol's size in bytes.
    pub size: u64,
    /// The offset of its name in the bytes of all names.
    pub name_offset: u64,
    /// The size of its name in bytes.
    pub name_size: u64,
}

const _: () = prove!(size_of::<Symbol>() == 32);

/// The number of files and of what they contain.
#[repr(C)]
#[derive(Clone, Copy, Debug, Default, PartialEq, Eq)]
pub struct SymbolTotals {
    /// The number of files.
    pub file_count: u64,
    /// The number of symbols of all files.
    pub symbol_count: u64,
    /// The size of all paths and names in bytes.
    pub names_size: u64,
    /// The number of DEX offsets of all files.
    pub dex_offset_count: u64,
}

const _: () = prove!(size_of::<SymbolTotals>() == 32);

/// The totals of all files, and the status of the call.
#[derive(Clone, Copy, Debug, PartialEq, Eq)]
pub struct SymbolTablesResult {
    /// The totals of all files.
    pub totals: SymbolTotals,
    /// Success if no error occurred, otherwise the status of the first error.
    pub status: Status,
}

// The totals before the first file.
fn no_totals() -> SymbolTotals
    ensures { result ≡ zero_totals }
{
    SymbolTotals {
        file_count: 0,
        symbol_count: 0,
        names_size: 0,
        dex_offset_count: 0,
    }
}

// The type of file that the offsets are for.
fn info_type(info: &Option<SimpleperfTypeSpecificInfo>) -> u32
    ensures { result ≡ info_type_of (info_value info.now) }
{
    match info {
        None => 0,
        Some(SimpleperfTypeSpecificInfo::KernelModule(_)) => 1,
        Some(SimpleperfTypeSpecificInfo::ElfFile(_)) => 2,
        Some(SimpleperfTypeSpecificInfo::SimpleperfDexFileInfo(_)) => 3,
    }
}

// The offset of the bytes at the lowest address, or 0 if it isn't known.
fn min_vaddr_offset(info: &Option<SimpleperfTypeSpecificInfo>) -> u64
    ensures { result ≡ min_vaddr_offset_of (info_value info.now) }
{
    match info {
        Some(SimpleperfTypeSpecificInfo::KernelModule(module)) => module.memory_offset_of_min_vaddr,
        Some(SimpleperfTypeSpecificInfo::ElfFile(elf)) => elf.file_offset_of_min_vaddr,
        _ => 0,
    }
}

// The offsets of the DEX files in a file.
fn dex_offsets(info: &Option<SimpleperfTypeSpecificInfo>) -> &[u64]
    ensures { result.now ≡ dex_offsets_in (info_value info.now) }
{
    match info {
        Some(SimpleperfTypeSpecificInfo::SimpleperfDexFileInfo(dex)) => {
            dex.dex_file_offset.as_slice()
        }
        _ => &[],
    }
}

// The size of all names in bytes, or `None` if it doesn't fit in 64 bits.
fn names_size(symbols: &[SimpleperfSymbol]) -> Option<u64>
    ensures { IsCheckedNamesSize (map symbol_value symbols.now) result }
{
    let mut size = 0u64;
    let mut index = 0;
    'symbols: while index < symbols.len() {
        let Some(sum) = size.checked_add(symbols[index].name.len() as u64) else {
            return None;
        };
        size = sum;
        index += 1;
    }
    Some(size)
}

// The totals with one more file, or `None` if one of them doesn't fit in 64 bits.
fn next_totals(totals: SymbolTotals, file: &SimpleperfFileRecord) -> Option<SymbolTotals>
    ensures { AreNextTotals totals (record_value file.now) result }
{
    let path_end = totals.names_size.checked_add(file.path.len() as u64)?;
    Some(SymbolTotals {
        file_count: totals.file_count.checked_add(1)?,
        symbol_count: totals.symbol_count.checked_add(file.symbol.len() as u64)?,
        names_size: path_end.checked_add(names_size(file.symbol.as_slice())?)?,
        dex_offset_count: totals
            .dex_offset_count
            .checked_add(dex_offsets(&file.type_specific_msg).len() as u64)?,
    })
}

// The entry of a file. The totals are those of the files before it.
fn file_entry(before: SymbolTotals, file: &SimpleperfFileRecord) -> SymbolFile
    ensures { result ≡ file_entry_at before (record_value file.now) }
{
    SymbolFile {
        path_offset: before.names_size,
        path_size: file.path.len() as u64,
        min_vaddr: file.min_vaddr,
        symbols_start: before.symbol_count,
        symbols_count: file.symbol.len() as u64,
        min_vaddr_offset: min_vaddr_offset(&file.type_specific_msg),
        dex_offsets_start: before.dex_offset_count,
        dex_offsets_count: dex_offsets(&file.type_specific_msg).len() as u64,
        type_: file.type_,
        info_type: info_type(&file.type_specific_msg),
    }
}

// Writes the entries of a file's symbols from index `start` on, and their names from offset `name_start` on,
// each up to the capacity of its array.
fn write_symbols(
    all: &[SimpleperfSymbol],
    start: u64,
    name_start: u64,
    symbols: &mut [Symbol],
    names: &mut [u8],
)
    requires count_fits { start + length all.now < 2 ^ 64 }
    requires names_fit { name_start + length (symbol_names (map symbol_value all.now)) < 2 ^ 64 }
    ensures symbols { symbols.new ≡ with_entries_at start
        (symbol_entries_at name_start (map symbol_value all.now)) symbols.old }
    ensures names { names.new ≡ with_entries_at name_start
        (symbol_names (map symbol_value all.now)) names.old }
{
    let mut index = 0;
    let mut name_offset = name_start;
    'symbols: while index < all.len() {
        let symbol = &all[index];
        let name = symbol.name.as_bytes();
        let name_size = name.len() as u64;
        let entry = Symbol {
            vaddr: symbol.vaddr,
            size: symbol.len as u64,
            name_offset,
            name_size,
        };
        copy_entries(symbols, start + index as u64, &[entry]);
        copy_entries(names, name_offset, name);
        name_offset += name_size;
        index += 1;
    }
}

// Writes the entries of files, their symbols, their names and their DEX offsets, each up to the capacity of
// its array. Ends with `OutOfMemory` before the first file with which a total doesn't fit in 64 bits.
fn write_files(
    all: &[SimpleperfFileRecord],
    files: &mut [SymbolFile],
    symbols: &mut [Symbol],
    names: &mut [u8],
    offsets: &mut [u64],
) -> SymbolTablesResult
    ensures { WritesFilesOrPrefix (map record_value all.now)
        (record { files = files.old; symbols = symbols.old; names = names.old; offsets = offsets.old }) result
        (record { files = files.new; symbols = symbols.new; names = names.new; offsets = offsets.new }) }
{
    let mut totals = no_totals();
    let mut index = 0;
    'files: while index < all.len() {
        let file = &all[index];
        let Some(next) = next_totals(totals, file) else {
            return SymbolTablesResult {
                totals,
                status: Status::OutOfMemory,
            };
        };
        let path = file.path.as_bytes();
        copy_entries(files, totals.file_count, &[file_entry(totals, file)]);
        copy_entries(names, totals.names_size, path);
        copy_entries(
            offsets,
            totals.dex_offset_count,
            dex_offsets(&file.type_specific_msg),
        );
        let name_start = totals.names_size + path.len() as u64;
        write_symbols(
            file.symbol.as_slice(),
            totals.symbol_count,
            name_start,
            symbols,
            names,
        );
        totals = next;
        index += 1;
    }
    SymbolTablesResult {
        totals,
        status: Status::Success,
    }
}

// Parses the files in section FILE2 if `feature` is its number, otherwise those in section FILE.
fn parse_tables(
    alloc: Global,
    feature: u32,
    endian: Endianness,
    section: &[u8],
) -> Result<Vec<SimpleperfFileRecord>, Error>
    ensures parses { ParsesSymbolTables feature endian section.now result }
    ensures no_other { (vs : List FileValue) → IsSymbolSection feature endian section.now vs
        → MatchResult result (λ v. map record_value v.items ≡ vs) (λ e. e ≡ Memory) }
{
    if feature == Feature::SIMPLEPERF_FILE2.0 {
        parse_file2_section(alloc, section, endian)
    } else {
        parse_file_section(alloc, section, endian)
    }
}

/// Writes the files of a symbol table section of simpleperf, their symbols, their paths and names, and their
/// DEX offsets.
///
/// `section` contains the bytes of section SIMPLEPERF_FILE2 if `feature` is its number, and otherwise those
/// of SIMPLEPERF_FILE. The names are the path of each file followed by the names of its symbols, without a
/// separator. Each array receives as many elements as it has capacity for. The totals count all elements.
///
/// At an error the totals are 0 and the arrays are unchanged. The status is `Truncated` if a record or its
/// length is truncated by the end of the section, and `BadSymbolTable` if a record is malformed. It is
/// `OutOfMemory` if an allocation fails, and also if a total doesn't fit in 64 bits; then the totals count
/// the files before.
pub fn symbol_tables(
    alloc: Global,
    feature: u32,
    endian: Endianness,
    section: &[u8],
    files: &mut [SymbolFile],
    symbols: &mut [Symbol],
    names: &mut [u8],
    offsets: &mut [u64],
) -> SymbolTablesResult
    ensures { ReadsSymbolTables feature endian section.now
        (record { files = files.old; symbols = symbols.old; names = names.old; offsets = offsets.old }) result
        (record { files = files.new; symbols = symbols.new; names = names.new; offsets = offsets.new }) }
{
    match parse_tables(alloc, feature, endian, section) {
        Ok(records) => write_files(records.as_slice(), files, symbols, names, offsets),
        Err(error) => SymbolTablesResult {
            totals: no_totals(),
            status: status_of_error(&error),
        },
    }
}
