//! A list of the kernel's symbols.

use bstr::ByteSlice;
use code_files::mapping_names::{KERNEL_PATH, base_name};
use code_symbols::{Symbol, SymbolTable, parse_kallsyms, symbol_address, symbol_module};
use perfdata_spaces::mapping::Mapping;
use std::alloc::Global;
use std::{fs, io};

// What is after the name of a module in that of its file.
const MODULE_SUFFIX: &[u8] = b".ko";

// A list of the kernel's symbols.
#[derive(Drop)]
pub(crate) struct KernelTable {
    pub(crate) symbols: SymbolTable,
    /// What is added to an address of the recording for that of the list, modulo 2^64, once it is known.
    shift: Option<u64>,
}

// A symbol and its index.
#[derive(Clone, Copy)]
struct ListedSymbol {
    index: usize,
    symbol: Symbol,
}

impl KernelTable {
    // Reads the list at a path.
    pub(crate) fn read(rt: &HostRuntime, path: &str) -> io::Result<KernelTable> {
        KernelTable::parse(rt.alloc(), fs::read(rt, path)?)
    }

    // Parses a list. It has a symbol with an address: the kernel writes zeros for users without rights.
    pub(crate) fn parse(alloc: Global, text: Vec<u8>) -> io::Result<KernelTable> {
        let symbols = parse_kallsyms(alloc, text)?;
        if symbols.symbols().iter().any(|symbol| symbol.start != 0) {
            Ok(KernelTable {
                symbols,
                shift: None,
            })
        } else {
            Err(io::Error::other("no symbol with an address"))
        }
    }

    // Sets what is added to addresses of the recording, by the address of a symbol in it, if it isn't set.
    pub(crate) fn set_shift(&mut self, symbol: &[u8], address: u64) {
        if self.shift.is_none() {
            self.shift = Some(match symbol_address(&self.symbols, symbol) {
                Some(listed) => listed.wrapping_sub(address),
                None => 0,
            });
        }
    }

    // Returns whether a symbol has an address.
    pub(crate) fn has_symbol(&self, symbol: &[u8], address: u64) -> bool {
        symbol_address(&self.symbols, symbol) == Some(address)
    }

    // Returns the name of the module of a symbol, which is empty for one of the kernel itself.
    fn module(&self, symbol: &Symbol) -> &[u8] {
        symbol_module(&self.symbols, symbol)
    }

    // Returns the symbol at an address of the list.
    fn find(&self, address: u64) -> Option<ListedSymbol> {
        let index = self.symbols.find_index(address)?;
        let symbol = *self.symbols.symbols().get(index)?;
        Some(ListedSymbol { index, symbol })
    }

    // Returns the index of the symbol at an address of the kernel's own mapping. The addresses of modules
    // aren't shifted: they are those of the recording if the kernel wasn't restarted.
    fn kernel_index(&self, address: u64) -> Option<usize> {
        let shift = self.shift.unwrap_or(0);
        if let Some(found) = self.find(address) {
            if !self.module(&found.symbol).is_empty() {
                return Some(found.index).filter(|_| shift == 0);
            }
        }
        let found = self.find(address.wrapping_add(shift))?;
        Some(found.index).filter(|_| self.module(&found.symbol).is_empty())
    }

    // Returns the index of the symbol at an address of a module's mapping, if it is one of that module.
    fn module_index(&self, mapping: &Mapping, address: u64) -> Option<usize> {
        if self.shift.unwrap_or(0) != 0 {
            return None;
        }
        let ListedSymbol { index, symbol } = self.find(address)?;
        let is_of_module = symbol.start >= mapping.start
            && is_module(mapping.path.as_slice(), self.module(&symbol));
        Some(index).filter(|_| is_of_module)
    }

    // Returns how far an address of the recording is after the start of the symbol with an index, modulo
    // 2^64.
    pub(crate) fn offset(&self, index: usize, address: u64) -> Option<u64> {
        let symbol = self.symbols.symbols().get(index)?;
        let shift = if self.module(symbol).is_empty() {
            self.shift.unwrap_or(0)
        } else {
            0
        };
        Some(address.wrapping_add(shift).wrapping_sub(symbol.start))
    }

    // Returns the index of the symbol at an address of a mapping, or `None` if there is none.
    pub(crate) fn find_index(&self, mapping: &Mapping, address: u64) -> Option<usize> {
        if mapping.path.as_slice().starts_with(KERNEL_PATH) {
            self.kernel_index(address)
        } else {
            self.module_index(mapping, address)
        }
    }
}

// Returns the name of a module by the path of its file, or by its name in brackets.
fn module_name(path: &[u8]) -> &[u8] {
    let name = base_name(path);
    if let Some(rest) = name.strip_prefix(b"[") {
        return rest.strip_suffix(b"]").unwrap_or(rest);
    }
    match name.find(MODULE_SUFFIX) {
        Some(len) => name.get(..len).unwrap_or(name),
        None => name,
    }
}

// Returns whether a path is that of the file of a module. The kernel writes `_` for `-` in names of modules.
fn is_module(path: &[u8], module: &[u8]) -> bool {
    let name = module_name(path);
    !module.is_empty()
        && module.len() == name.len()
        && module.iter().zip(name.iter()).all(|(byte, own)| byte == own
            || (*byte == b'_' && *own == b'-'))
}
