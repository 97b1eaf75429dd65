//! The symbols and the build id of an ELF file, in arrays.
ghost use Rattle.std.specs.Prelude.{◌≡◌, ◌≢◌};
ghost use Rattle.perfdata_arrays.specs.declared.status.Status.TheVariants.{Success};

use code_symbols::elf::ElfFile;
use code_symbols::error::ElfError;
use code_symbols::symbol::Symbol;
use perfdata_arrays::array::{copy_prefix, write_entry};
use perfdata_arrays::status::Status;
use std::alloc::Global;
use std::io::Cursor;

/// A symbol of an ELF file as plain numbers, with the position of its name.
#[repr(C)]
#[derive(Clone, Copy, Debug, Default, PartialEq, Eq)]
pub struct ElfSymbol {
    /// The offset of its first byte in the file.
    pub start: u64,
    /// Its size in bytes.
    pub size: u64,
    /// The offset of its name in the file.
    pub name_offset: u64,
    /// The size of its name in bytes.
    pub name_size: u64,
}

const _: () = prove!(size_of::<ElfSymbol>() == 32);

// The number of entries or bytes that a file has, and the status of the call.
#[derive(Clone, Copy, Debug, PartialEq, Eq)]
pub(crate) struct ElfResult {
    pub(crate) count: u64,
    pub(crate) status: Status,
}

impl ElfResult {
    fn success(count: u64) -> ElfResult
        ensures { result.status ≡ Success }
    {
        ElfResult {
            count,
            status: Status::Success,
        }
    }

    fn failure(error: &ElfError) -> ElfResult
        ensures none { result.count ≡ 0 }
        ensures fails { result.status ≢ Success }
    {
        let status = match error {
            ElfError::NotElf | ElfError::UnknownClass(_) | ElfError::UnknownByteOrder(_) =>
                Status::NotElf,
            ElfError::EntrySize(_, _) | ElfError::Truncated(_) => Status::BadElf,
            ElfError::Memory => Status::OutOfMemory,
            ElfError::Io(_) => Status::Other,
        };
        ElfResult { count: 0, status }
    }
}

// The symbol of a file whose names begin at this offset.
fn symbol_entry(names_offset: u64, symbol: &Symbol) -> ElfSymbol {
    ElfSymbol {
        start: symbol.start,
        size: symbol.size,
        name_offset: names_offset.saturating_add(symbol.name_start as u64),
        name_size: symbol.name_end.saturating_sub(symbol.name_start) as u64,
    }
}

// Writes the symbols of a file over the start of an array, up to its capacity. Fails if the file can't be
// read.
fn write_symbols(alloc: Global, file: &[u8], entries: &mut [ElfSymbol]) -> Result<u64, ElfError> {
    let mut elf = ElfFile::open(alloc, Cursor::new(file))?;
    let names_offset = elf.names_offset().unwrap_or(0);
    let segments = Vec::from_slice(alloc, elf.segments())?;
    let table = elf.symbols(alloc, &segments)?.into_table(alloc)?;
    let symbols = table.symbols();
    'symbols: for (index, symbol) in symbols.iter().enumerate() {
        write_entry(entries, index, symbol_entry(names_offset, symbol));
    }
    Ok(symbols.len() as u64)
}

// Writes the symbols of an ELF file over the start of an array, up to its capacity. `count` is that of all
// symbols, and 0 if the file can't be read.
pub(crate) fn elf_symbols(alloc: Global, file: &[u8], entries: &mut [ElfSymbol]) -> ElfResult
    ensures failed { result.status ≢ Success → result.count ≡ 0 }
{
    match write_symbols(alloc, file, entries) {
        Ok(count) => ElfResult::success(count),
        Err(error) => ElfResult::failure(&error),
    }
}

// Writes the build id of an ELF file over the start of an array, up to its capacity. Fails if the file can't
// be read.
fn write_build_id(alloc: Global, file: &[u8], id: &mut [u8]) -> Result<u64, ElfError> {
    let mut elf = ElfFile::open(alloc, Cursor::new(file))?;
    match elf.build_id(alloc)? {
        Some(found) => {
            copy_prefix(id, &found);
            Ok(found.len() as u64)
        }
        None => Ok(0),
    }
}

// Writes the build id of an ELF file over the start of an array, up to its capacity. `count` is its size in
// bytes: 0 if there is none, or if the file can't be read.
pub(crate) fn elf_build_id(alloc: Global, file: &[u8], id: &mut [u8]) -> ElfResult
    ensures failed { result.status ≢ Success → result.count ≡ 0 }
{
    match write_build_id(alloc, file, id) {
        Ok(count) => ElfResult::success(count),
        Err(error) => ElfResult::failure(&error),
    }
}
