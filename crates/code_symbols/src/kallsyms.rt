//! The kernel's list of symbols, `/proc/kallsyms`.

ghost use Rattle.std.specs.Prelude.{◌≡◌, ◌↔◌, ◌+◌, ◌^◌, ◌<◌, IfNone, IfOk, IfSome, IsTrue, drop, length, map};
ghost use Rattle.std.specs.List.Sorted.{IsNonDecreasingBy};
ghost use Rattle.code_symbols.specs.Kernel.{AreKernelSymbols, IsKernelLine, IsListed, IsListedType};
ghost use Rattle.code_symbols.specs.Kernel.{IsModuleName, ReachNext, without_size};
ghost use Rattle.code_symbols.specs.Lines.{AreSymbolsOfLines};
ghost use Rattle.code_symbols.specs.SymbolTable.{names_of, symbols_of};
ghost use Rattle.code_symbols.specs.Symbols.{IsFirstStart};
ghost use Rattle.code_symbols.specs.declared.symbol.Symbol.{Symbol};

use crate::symbol::Symbol;
use crate::table::SymbolTable;
use crate::text::{field_len, hex_number, line_end, split_field};
use std::alloc::{AllocError, Global};

// Whether symbols of this type are code or data.
fn is_listed_type(symbol_type: u8) -> bool
    ensures { IsTrue result ↔ IsListedType symbol_type }
{
    matches!(
        symbol_type,
        b'T' | b't' | b'W' | b'w' | b'D' | b'd' | b'B' | b'b'
    )
}

// Whether what follows the address in a line is the type of code or data, a space and a name without `$`.
fn is_listed(rest: &[u8]) -> bool
    ensures { IsTrue result ↔ IsListed rest.now }
{
    rest.len() >= 3 && is_listed_type(rest[0]) && rest[1] == b' ' && rest[2] != b'$'
}

// The symbol, of size 0, of a line `ADDRESS TYPE NAME` that starts at an offset of the text.
fn symbol_of_line(line: &[u8], offset: usize) -> Option<Symbol>
    requires { offset + length line.now < 2 ^ 64 }
    ensures some { IfSome result (λ s. IsKernelLine line.now offset s) }
    ensures none { IfNone result ((s : Symbol) → ¬ IsKernelLine line.now offset s) }
{
    let (address, type_at) = split_field(line, b' ')?;
    let rest = &line[type_at..];
    if !is_listed(rest) {
        return None;
    }
    let name_len = field_len(&rest[2..], b'\t');
    if name_len == 0 {
        return None;
    }
    let name_start = offset + type_at + 2;
    Some(Symbol {
        start: hex_number(address)?,
        size: 0,
        name_start,
        name_end: name_start + name_len,
    })
}

// The symbols of the lines, in their order.
fn symbols_of_lines(alloc: Global, text: &[u8]) -> Result<Vec<Symbol>, AllocError>
    ensures { IfOk result (λ symbols. AreSymbolsOfLines IsKernelLine text.now symbols.items) }
{
    let mut symbols = Vec::new(alloc);
    let mut at = 0;
    'lines: while at < text.len() {
        let end = line_end(text, at);
        if let Some(symbol) = symbol_of_line(&text[at..end], at) {
            symbols.push(symbol)?;
        }
        at = end + 1;
    }
    Ok(symbols)
}

// Extends each symbol to the next greater start. The symbols are sorted by their starts.
fn extend_to_next(symbols: &mut [Symbol])
    requires { IsNonDecreasingBy (λ s. s.start) symbols.old }
    ensures same { map without_size symbols.new ≡ map without_size symbols.old }
    ensures reach { ReachNext symbols.new }
{
    let mut end = u64::MAX;
    let mut next_start = u64::MAX;
    let mut at = symbols.len();
    'symbols: while at > 0 {
        at -= 1;
        let start = symbols[at].start;
        if start < next_start {
            end = next_start;
        }
        symbols[at].size = end - start;
        next_start = start;
    }
}

/// Makes a table of the text of such a list. The symbol at an address below 2^64 - 1 is the last line of
/// those with the greatest address at or before it.
///
/// A line is `ADDRESS TYPE NAME`, and after a tab the name of a module in brackets, which isn't part of the
/// name. Lines of other types than T, W, D and B, in both cases, names that start with `$`, and malformed
/// lines are skipped.
pub fn parse_kallsyms(alloc: Global, text: Vec<u8>) -> Result<SymbolTable, AllocError>
    ensures symbols { IfOk result (λ t. AreKernelSymbols text.items (symbols_of t)) }
    ensures names { IfOk result (λ t. names_of t ≡ text.items) }
{
    let mut symbols = symbols_of_lines(alloc, &text)?;
    symbols.sort_by_key(|symbol| symbol.start)?;
    extend_to_next(&mut symbols);
    SymbolTable::from_symbols(alloc, text, &symbols)
}

/// Returns the address of the first symbol in the table with this name, such as `_text`.
///
/// The difference to the address that a recording has for it (`pgoff` of the kernel's MMAP record) is how far
/// the kernel of the list is shifted.
pub fn symbol_address(table: &SymbolTable, name: &[u8]) -> Option<u64>
    ensures { IsFirstStart (names_of table.now) (symbols_of table.now) name.now result }
{
    'symbols: for symbol in table.symbols().iter() {
        if table.name(symbol) == name {
            return Some(symbol.start);
        }
    }
    None
}

// The name of a module in brackets that these bytes start with after a tab, or none.
fn read_module(after: &[u8]) -> &[u8]
    ensures { IsModuleName after.now result.now }
{
    if after.len() < 2 || after[0] != b'\t' || after[1] != b'[' {
        return &after[..0];
    }
    match split_field(&after[2..], b']') {
        Some((name, _)) => name,
        None => &after[..0],
    }
}

/// Returns the name of the module of a symbol in the table of such a list: what is in brackets after a tab
/// after the symbol's name. It is empty for symbols of the kernel itself.
pub fn symbol_module<'a>(table: &'a SymbolTable, symbol: &Symbol) -> &'a [u8]
    ensures { IsModuleName (drop symbol.now.name_end (names_of table.now)) result.now }
{
    let names = table.names();
    read_module(&names[symbol.name_end.min(names.len())..])
}
