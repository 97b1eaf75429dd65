//! Layers of symbols, as boundaries of the address space.
ghost use Rattle.std.specs.Prelude.{◌≡◌, ◌<◌, ◌^◌, ◌&&◌, ℕ, if◌then◌else◌, IfOk, IfSome, OnErr, Some, None};
ghost use Rattle.std.specs.List.Sorted.{IsNonDecreasingBy};
ghost use Rattle.code_symbols.specs.Boundaries.{covers, later_of};
ghost use Rattle.code_symbols.specs.steps.Boundaries.{IsAppendPoint};

use crate::boundary::Boundary;
use crate::merge::merge;
use std::alloc::{AllocError, Global};

// Boundaries in the order of their starts. Addresses before the first one have no symbol.
#[derive(Drop)]
pub struct Layer {
    boundaries: Vec<Boundary>,
    ghost sorted: { IsNonDecreasingBy (λ c. c.start) boundaries.items },
}

impl Layer {
    ghost use Rattle.code_symbols.specs.Layer.{symbol_in};

    // The layer of one symbol, which contains `size` addresses from `start` on.
    pub(crate) fn from_symbol(
        alloc: Global,
        index: usize,
        start: u64,
        size: u64,
    ) -> Result<Layer, AllocError>
        ensures { IfOk result (λ l. (x : ℕ) → x < 2 ^ 64
            → symbol_in l x ≡ (if covers start size x then Some index else None)) }
    {
        if size == 0 {
            return Ok(Layer {
                boundaries: Vec::new(alloc),
            });
        }
        let mut boundaries = Vec::new(alloc);
        boundaries.push(Boundary {
            start,
            symbol: Some(index),
        })?;
        match start.checked_add(size) {
            Some(end) => {
                boundaries.push(Boundary {
                    start: end,
                    symbol: None,
                })?;
                Ok(Layer { boundaries })
            }
            None => Ok(Layer { boundaries }),
        }
    }

    // Puts a symbol over all others and returns `true`, if its two boundaries are the last ones then.
    // Otherwise returns `false` and changes nothing. A symbol of size 0 needs no boundaries.
    pub(crate) fn append(&mut self, index: usize, start: u64, size: u64) -> Result<bool, AllocError>
        ensures ok { IfOk result (λ appended. (x : ℕ) → symbol_in self.new x
            ≡ later_of (symbol_in self.old x)
            (if appended && covers start size x then Some index else None)) }
        ensures err { OnErr result ((x : ℕ) → symbol_in self.new x ≡ symbol_in self.old x) }
    {
        if size == 0 {
            return Ok(true);
        }
        let Some(end) = start.checked_add(size) else {
            return Ok(false);
        };
        let Some(kept) = append_point(&self.boundaries, start, end) else {
            return Ok(false);
        };
        self.boundaries.reserve(2)?;
        self.boundaries.truncate(kept);
        self.boundaries.push(Boundary {
            start,
            symbol: Some(index),
        })?;
        self.boundaries.push(Boundary {
            start: end,
            symbol: None,
        })?;
        Ok(true)
    }

    // The number of boundaries.
    pub(crate) fn len(&self) -> usize {
        self.boundaries.len()
    }

    // The symbol at an address.
    pub(crate) fn find(&self, address: u64) -> Option<usize>
        ensures { result ≡ symbol_in self.now address }
    {
        let above = self
            .boundaries
            .partition_point(|boundary| boundary.start <= address);
        if above == 0 {
            return None;
        }
        self.boundaries[above - 1].symbol
    }

    // The layer whose symbol at an address is that of `upper`, or that of `lower` if `upper` has none.
    pub(crate) fn over(alloc: Global, lower: &Layer, upper: &Layer) -> Result<Layer, AllocError>
        ensures { IfOk result (λ l. (x : ℕ)
            → symbol_in l x ≡ later_of (symbol_in lower.now x) (symbol_in upper.now x)) }
    {
        let boundaries = merge(alloc, &lower.boundaries, &upper.boundaries)?;
        Ok(Layer { boundaries })
    }
}

// The number of boundaries after which the two boundaries of a symbol over all others can replace the rest:
// all of them, or all but a last one without a symbol. `None` if the symbol needs a layer of its own.
fn append_point(boundaries: &[Boundary], start: u64, end: u64) -> Option<usize>
    requires { start < end }
    ensures { IfSome result (λ kept. IsAppendPoint boundaries.now start end kept) }
{
    let count = boundaries.len();
    if count == 0 {
        return None;
    }
    let last = boundaries[count - 1];
    if last.symbol.is_some() || end < last.start {
        return None;
    }
    if last.start <= start {
        return Some(count);
    }
    if count < 2 || start < boundaries[count - 2].start {
        return None;
    }
    Some(count - 1)
}
