//! Symbols with what decides which of several symbols at an address is preferred, as ELF files have them.

ghost use Rattle.std.specs.Prelude.{◌≡◌, ◌≤◌, [], IfOk};
ghost use Rattle.code_symbols.specs.SymbolTable.{names_of, part_count};

use crate::symbol::Symbol;
use crate::table::SymbolTable;
use std::alloc::{AllocError, Global};
use std::cmp::Reverse;

// The greatest number of leading underscores that are counted.
const MAX_UNDERSCORES: usize = 255;

/// A symbol of an ELF file.
#[derive(Clone, Copy, Debug)]
pub struct RankedSymbol {
    /// The symbol. Size 0 means that the size is unknown.
    pub symbol: Symbol,
    /// Whether the symbol isn't one of the file's symbol table, but one made for an entry of the procedure
    /// linkage table.
    pub is_made: bool,
    /// Whether the symbol is kept for old programs: its version isn't the default one of its name.
    pub is_compatibility: bool,
    /// Whether the symbol is weak.
    pub is_weak: bool,
    /// Whether the symbol is global.
    pub is_global: bool,
    /// The end of the symbol's section, in the units of `start`. A symbol without a size ends there at the
    /// latest.
    pub section_end: u64,
}

/// The symbols of one or more ELF files, and their names.
///
/// A made symbol is ignored if one of the file starts with it. The symbol at an address is, of those with a
/// size that contain it, the one with the greatest start. Of several with that start, one that isn't a
/// compatibility symbol is preferred, then one that isn't weak, then one that is global, then one with fewer
/// leading underscores (255 and more are the same), then one with a longer name, then an earlier one. A
/// compatibility symbol is treated as one without a size if another one without starts with it and none
/// with. If none with a size contains the address, it is the symbol without a size with the greatest start at
/// or before the address, if no symbol starts after it up to the address, no symbol with a size starts with
/// it, and the address is in its section.
#[derive(Drop)]
pub struct RankedSymbols {
    pub(crate) names: Vec<u8>,
    pub(crate) symbols: Vec<RankedSymbol>,
}

// What decides between symbols, from the least preferred one to the most preferred one.
#[derive(Clone, Copy, PartialEq, Eq, PartialOrd, Ord)]
struct Rank {
    start: u64,
    is_of_file: bool,
    is_current: bool,
    has_size: bool,
    is_strong: bool,
    is_global: bool,
    underscores: Reverse<usize>,
    name_len: usize,
}

// A symbol and what decides between it and others.
#[derive(Clone, Copy)]
struct Candidate {
    rank: Rank,
    symbol: Symbol,
    section_end: u64,
}

// The number of leading underscores of a name.
fn underscore_count(name: &[u8]) -> usize {
    name.iter()
        .take(MAX_UNDERSCORES)
        .position(|byte| *byte != b'_')
        .unwrap_or(name.len().min(MAX_UNDERSCORES))
}

// The bytes of the name.
fn symbol_name<'a>(names: &'a [u8], symbol: &Symbol) -> &'a [u8] {
    names
        .get(symbol.name_start..symbol.name_end)
        .unwrap_or(&names[..0])
}

fn rank_candidate(names: &[u8], ranked: &RankedSymbol) -> Candidate {
    let name = symbol_name(names, &ranked.symbol);
    Candidate {
        rank: Rank {
            start: ranked.symbol.start,
            is_of_file: !ranked.is_made,
            is_current: !ranked.is_compatibility,
            has_size: ranked.symbol.size > 0,
            is_strong: !ranked.is_weak,
            is_global: ranked.is_global,
            underscores: Reverse(underscore_count(name)),
            name_len: name.len(),
        },
        symbol: ranked.symbol,
        section_end: ranked.section_end,
    }
}

// Extends each symbol without a size to the next greater start or the end of its section, unless another
// symbol with its start is preferred. Made symbols get size 0 then, and compatibility symbols are treated as
// those without a size if that one has none. The symbols are sorted by their ranks.
fn extend_to_next(candidates: &mut [Candidate]) {
    let (mut next_start, mut next_has_size) = (u64::MAX, true);
    'candidates: for candidate in candidates.iter_mut().rev() {
        let start = candidate.symbol.start;
        if start < next_start {
            if !candidate.rank.has_size {
                let end = next_start.min(candidate.section_end);
                candidate.symbol.size = end.saturating_sub(start);
            }
            next_has_size = candidate.rank.has_size;
        } else if !candidate.rank.is_of_file {
            candidate.symbol.size = 0;
        } else if !candidate.rank.is_current && !next_has_size {
            candidate.rank.has_size = false;
        }
        next_start = start;
    }
}

impl RankedSymbols {
    ghost use Rattle.code_symbols.specs.RankedLists.{ranked_names_of, ranked_symbols_of};

    /// Makes an empty list.
    pub fn new(alloc: Global) -> RankedSymbols
        ensures symbols { ranked_symbols_of result ≡ [] }
        ensures names { ranked_names_of result ≡ [] }
    {
        RankedSymbols {
            names: Vec::new(alloc),
            symbols: Vec::new(alloc),
        }
    }

    /// Returns the symbols.
    pub fn symbols(&self) -> &[RankedSymbol]
        ensures { result.now ≡ ranked_symbols_of self.now }
    {
        &self.symbols[..]
    }

    // The symbols that are found, from the least preferred one to the most preferred one.
    fn preferences(&self, alloc: Global) -> Result<Vec<Candidate>, AllocError> {
        let mut candidates = Vec::new(alloc);
        // Of equal symbols the earlier one is preferred, so it comes last.
        'symbols: for ranked in self.symbols.iter().rev() {
            candidates.push(rank_candidate(&self.names, ranked))?;
        }
        candidates.sort_by_key(|candidate| candidate.rank)?;
        extend_to_next(&mut candidates);
        candidates.sort_by_key(|candidate| candidate.rank.has_size)?;
        Ok(candidates)
    }

    /// Makes a table whose symbol at an address is that of the list.
    pub fn into_table(self, alloc: Global) -> Result<SymbolTable, AllocError>
        ensures names { IfOk result (λ table. names_of table ≡ ranked_names_of self) }
        ensures compacted { IfOk result (λ table. part_count table ≤ 1) }
    {
        let candidates = self.preferences(alloc)?;
        let mut table = SymbolTable::new(alloc, self.names);
        'candidates: for candidate in candidates.iter() {
            table.push(candidate.symbol)?;
        }
        table.compact()?;
        Ok(table)
    }
}
