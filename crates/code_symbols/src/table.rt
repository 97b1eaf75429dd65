//! Tables that find the symbol of an address.
ghost use Rattle.std.specs.Option.{option_map};
ghost use Rattle.std.specs.Prelude.{◌≡◌, ◌≤◌, ◌<◌, ◌^◌, ◌++◌, ◌∷◌, ◌&&◌, [], ℕ, if◌then◌else◌};
ghost use Rattle.std.specs.Prelude.{vec_len, IfOk, OnErr, OnOk, Some, None};
ghost use Rattle.std.proofs.Props.{props};
ghost use Rattle.code_symbols.specs.Boundaries.{covers, later_of};
ghost use Rattle.code_symbols.specs.Layer.{symbol_in_layers};
ghost use Rattle.code_symbols.specs.Symbols.{IsLastIndex, IsLastName, IsLastSymbol, IsName, last_from};

use crate::layer::Layer;
use crate::symbol::Symbol;
use std::alloc::{AllocError, Global};

/// A table of symbols, which finds the last symbol that was pushed of those that contain an address.
///
/// The order of the pushes is the order of preference, so a reader pushes first what it prefers least. A
/// push costs amortized logarithmic time, and amortized constant time if the symbols come in ascending order
/// of their starts and of their ends, and none contains the address `u64::MAX`. A search costs logarithmic
/// time after `compact`, and the square of the logarithm otherwise, however many symbols contain one another.
///
/// ```
/// use code_symbols::symbol::Symbol;
/// use code_symbols::table::SymbolTable;
/// use std::alloc::{AllocError, Global};
///
/// fn is_in_main(alloc: Global, address: u64) -> Result<bool, AllocError> {
///     let mut table = SymbolTable::new(alloc, b"main".to_vec(alloc)?);
///     table.push(Symbol {
///         start: 0x1000,
///         size: 32,
///         name_start: 0,
///         name_end: 4,
///     })?;
///     Ok(table.find_name(address) == Some(b"main"))
/// }
/// ```
#[derive(Drop)]
pub struct SymbolTable {
    alloc: Global,
    names: Vec<u8>,
    symbols: Vec<Symbol>,
    layers: Vec<Layer>,
    ghost found: { (x : ℕ) → x < 2 ^ 64 → symbol_in_layers layers.items x
        ≡ last_from 0 None symbols.items x } by { Prim.hlevel props },
}

impl SymbolTable {
    ghost use Rattle.code_symbols.specs.SymbolTable.{names_of, part_count, symbols_of};

    /// Makes a table without symbols. `names` contains the names of the symbols that `push` will add,
    /// anywhere and in any order.
    pub fn new(alloc: Global, names: Vec<u8>) -> SymbolTable
        ensures symbols { symbols_of result ≡ [] }
        ensures names { names_of result ≡ names.items }
    {
        SymbolTable {
            alloc,
            names,
            symbols: Vec::new(alloc),
            layers: Vec::new(alloc),
        }
    }

    /// Makes a table of symbols, the last of which is preferred. Their names are in `names`.
    pub fn from_symbols(
        alloc: Global,
        names: Vec<u8>,
        symbols: &[Symbol],
    ) -> Result<SymbolTable, AllocError>
        ensures symbols { IfOk result (λ t. symbols_of t ≡ symbols.now) }
        ensures names { IfOk result (λ t. names_of t ≡ names.items) }
        ensures compacted { IfOk result (λ t. part_count t ≤ 1) }
    {
        let mut table = SymbolTable::new(alloc, names);
        'symbols: for symbol in symbols.iter() {
            table.push(*symbol)?;
        }
        table.compact()?;
        Ok(table)
    }

    /// Returns the symbols, in the order in which they were pushed.
    pub fn symbols(&self) -> &[Symbol]
        ensures { result.now ≡ symbols_of self.now }
    {
        &self.symbols[..]
    }

    // The bytes in which the names are.
    pub(crate) fn names(&self) -> &[u8]
        ensures { result.now ≡ names_of self.now }
    {
        &self.names[..]
    }

    /// Returns the name of a symbol of this table. It is empty if the offsets aren't within the names.
    pub fn name(&self, symbol: &Symbol) -> &[u8]
        ensures { IsName (names_of self.now) symbol.now result.now }
    {
        let (start, end) = (symbol.name_start, symbol.name_end);
        if start <= end && end <= self.names.len() {
            &self.names[start..end]
        } else {
            &[]
        }
    }

    /// Adds a symbol, which is preferred to all symbols before it. Its name is in the names of the table.
    ///
    /// If it fails with `AllocError`, the table is unchanged.
    pub fn push(&mut self, symbol: Symbol) -> Result<(), AllocError>
        ensures ok { OnOk result (symbols_of self.new ≡ symbols_of self.old ++ symbol ∷ []) }
        ensures err { OnErr result (symbols_of self.new ≡ symbols_of self.old) }
        ensures names { names_of self.new ≡ names_of self.old }
    {
        self.symbols.reserve(1)?;
        add_symbol(
            self.alloc,
            &mut self.layers,
            self.symbols.len(),
            symbol.start,
            symbol.size,
        )?;
        self.symbols.push(symbol)?;
        Ok(())
    }

    /// Makes later searches faster, and changes nothing else.
    ///
    /// It can fail with `AllocError`. Searches have the same results then.
    pub fn compact(&mut self) -> Result<(), AllocError>
        ensures compacted { OnOk result (part_count self.new ≤ 1) }
        ensures symbols { symbols_of self.new ≡ symbols_of self.old }
        ensures names { names_of self.new ≡ names_of self.old }
    {
        merge_all(self.alloc, &mut self.layers)
    }

    /// Returns the index of the last symbol that contains an address, or `None` if no symbol contains it.
    pub fn find_index(&self, address: u64) -> Option<usize>
        ensures { IsLastIndex (symbols_of self.now) address result }
    {
        find_in_layers(&self.layers, address)
    }

    /// Returns the last symbol that contains an address, or `None` if no symbol contains it.
    pub fn find(&self, address: u64) -> Option<Symbol>
        ensures { IsLastSymbol (symbols_of self.now) address result }
    {
        let index = self.find_index(address)?;
        if index < self.symbols.len() {
            Some(self.symbols[index])
        } else {
            None
        }
    }

    /// Returns the name of the last symbol that contains an address, or `None` if no symbol contains it.
    pub fn find_name(&self, address: u64) -> Option<&[u8]>
        ensures { IsLastName (names_of self.now) (symbols_of self.now) address
            (option_map (λ name. name.now) result) }
    {
        match self.find(address) {
            Some(symbol) => Some(self.name(&symbol)),
            None => None,
        }
    }
}

// Replaces the last two layers by the last one over the other.
fn merge_last(alloc: Global, layers: &mut Vec<Layer>) -> Result<(), AllocError>
    requires { 2 ≤ vec_len layers.old }
    ensures same { (x : ℕ) → symbol_in_layers layers.new.items x ≡ symbol_in_layers layers.old.items x }
    ensures fewer { OnOk result (vec_len layers.new < vec_len layers.old) }
{
    let count = layers.len();
    let merged = Layer::over(alloc, &layers[count - 2], &layers[count - 1])?;
    layers[count - 2] = merged;
    layers.truncate(count - 1);
    Ok(())
}

// Merges the last two layers while the last one is at least half as long as the one before it, so that each
// layer but the last one is more than twice as long as the next.
fn merge_equal(alloc: Global, layers: &mut Vec<Layer>) -> Result<(), AllocError>
    ensures { (x : ℕ) → symbol_in_layers layers.new.items x ≡ symbol_in_layers layers.old.items x }
{
    'merges: while layers.len() > 1
        && layers[layers.len() - 2].len() / 2 <= layers[layers.len() - 1].len()
    {
        merge_last(alloc, layers)?;
    }
    Ok(())
}

// Appends a symbol over all others to the last layer and returns `true`, if it can be appended there.
fn append_to_last(
    layers: &mut Vec<Layer>,
    index: usize,
    start: u64,
    size: u64,
) -> Result<bool, AllocError>
    ensures ok { IfOk result (λ appended. (x : ℕ) → symbol_in_layers layers.new.items x
        ≡ later_of (symbol_in_layers layers.old.items x)
        (if appended && covers start size x then Some index else None)) }
    ensures err { OnErr result ((x : ℕ) → symbol_in_layers layers.new.items x
        ≡ symbol_in_layers layers.old.items x) }
{
    let count = layers.len();
    if count == 0 {
        return Ok(false);
    }
    layers[count - 1].append(index, start, size)
}

// Adds a symbol over all others.
fn add_symbol(
    alloc: Global,
    layers: &mut Vec<Layer>,
    index: usize,
    start: u64,
    size: u64,
) -> Result<(), AllocError>
    ensures ok { OnOk result ((x : ℕ) → x < 2 ^ 64 → symbol_in_layers layers.new.items x
        ≡ later_of (symbol_in_layers layers.old.items x)
        (if covers start size x then Some index else None)) }
    ensures err { OnErr result ((x : ℕ) → symbol_in_layers layers.new.items x
        ≡ symbol_in_layers layers.old.items x) }
{
    if append_to_last(layers, index, start, size)? {
        return Ok(());
    }
    merge_equal(alloc, layers)?;
    let layer = Layer::from_symbol(alloc, index, start, size)?;
    layers.push(layer)?;
    Ok(())
}

// Merges all layers into one.
fn merge_all(alloc: Global, layers: &mut Vec<Layer>) -> Result<(), AllocError>
    ensures one { OnOk result (vec_len layers.new ≤ 1) }
    ensures same { (x : ℕ) → symbol_in_layers layers.new.items x ≡ symbol_in_layers layers.old.items x }
{
    'merges: while layers.len() > 1 {
        merge_last(alloc, layers)?;
    }
    Ok(())
}

// The symbol at an address in the last layer that has one.
fn find_in_layers(layers: &[Layer], address: u64) -> Option<usize>
    ensures { result ≡ symbol_in_layers layers.now address }
{
    let mut count = layers.len();
    'layers: while count > 0 {
        count -= 1;
        match layers[count].find(address) {
            Some(index) => return Some(index),
            None => {}
        }
    }
    None
}
