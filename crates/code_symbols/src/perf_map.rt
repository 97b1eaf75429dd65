//! The files `/tmp/perf-PID.map`, in which runtimes list the code that they generate.

ghost use Rattle.std.specs.Prelude.{◌≡◌, ◌+◌, ◌^◌, ◌<◌, IfOk, IfNone, IfSome, length};
ghost use Rattle.code_symbols.specs.declared.symbol.Symbol.{Symbol};
ghost use Rattle.code_symbols.specs.Lines.{AreSymbolsOfLines};
ghost use Rattle.code_symbols.specs.SymbolTable.{names_of, symbols_of};
ghost use Rattle.code_symbols.specs.Text.{IsMapLine};

use crate::symbol::Symbol;
use crate::table::SymbolTable;
use crate::text::{line_end, prefixed_hex_number, split_field};
use std::alloc::{AllocError, Global};

// The symbol of a line `START SIZE NAME` that starts at an offset of the text.
fn symbol_of_line(line: &[u8], offset: usize) -> Option<Symbol>
    requires { offset + length line.now < 2 ^ 64 }
    ensures some { IfSome result (λ s. IsMapLine line.now offset s) }
    ensures none { IfNone result ((s : Symbol) → ¬ IsMapLine line.now offset s) }
{
    let (start_digits, size_at) = split_field(line, b' ')?;
    let (size_digits, size_len) = split_field(&line[size_at..], b' ')?;
    let name_at = size_at + size_len;
    if name_at == line.len() {
        return None;
    }
    Some(Symbol {
        start: prefixed_hex_number(start_digits)?,
        size: prefixed_hex_number(size_digits)?,
        name_start: offset + name_at,
        name_end: offset + line.len(),
    })
}

// The symbols of the lines, in their order.
fn symbols_of_lines(alloc: Global, text: &[u8]) -> Result<Vec<Symbol>, AllocError>
    ensures { IfOk result (λ symbols. AreSymbolsOfLines IsMapLine text.now symbols.items) }
{
    let mut symbols = Vec::new(alloc);
    let mut at = 0;
    'lines: while at < text.len() {
        let end = line_end(text, at);
        if let Some(symbol) = symbol_of_line(&text[at..end], at) {
            symbols.push(symbol)?;
        }
        at = end + 1;
    }
    Ok(symbols)
}

/// Makes a table of the text of such a file. The last line that contains an address is preferred.
///
/// A line is `START SIZE NAME`: two hexadecimal numbers below 2^64, with or without `0x` before their digits,
/// each followed by one space, and a name of at least one byte, which may contain spaces. Other lines are
/// skipped.
pub fn parse_perf_map(alloc: Global, text: Vec<u8>) -> Result<SymbolTable, AllocError>
    ensures lines { IfOk result (λ t. AreSymbolsOfLines IsMapLine text.items (symbols_of t)) }
    ensures names { IfOk result (λ t. names_of t ≡ text.items) }
{
    let symbols = symbols_of_lines(alloc, &text)?;
    SymbolTable::from_symbols(alloc, text, &symbols)
}
