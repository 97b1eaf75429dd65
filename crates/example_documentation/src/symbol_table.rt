//! A table with one symbol.

use code_symbols::symbol::Symbol;
use code_symbols::table::SymbolTable;
use std::alloc::{AllocError, Global};

/// Returns whether an address is in a function `main` of 32 bytes at 0x1000.
pub fn is_in_main(alloc: Global, address: u64) -> Result<bool, AllocError> {
    let mut table = SymbolTable::new(alloc, b"main".to_vec(alloc)?);
    table.push(Symbol {
        start: 0x1000,
        size: 32,
        name_start: 0,
        name_end: 4,
    })?;
    Ok(table.find_name(address) == Some(b"main"))
}
