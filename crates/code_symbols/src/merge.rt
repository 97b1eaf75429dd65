//! Boundaries over other boundaries.
ghost use Rattle.std.specs.Prelude.{◌≡◌, ◌<◌, ◌+◌, ◌^◌, ◌⊎◌, ℕ, IfOk, None, length};
ghost use Rattle.std.specs.List.Sorted.{IsNonDecreasingBy};
ghost use Rattle.code_symbols.specs.Boundaries.{later_of, symbol_from};
ghost use Rattle.code_symbols.specs.steps.Merge.{TakesLower, TakesUpper};

use crate::boundary::Boundary;
use std::alloc::{AllocError, Global};

// How many boundaries of two lists are before an address, the greatest start of these, and the symbols
// there.
#[derive(Clone, Copy)]
pub struct MergeState {
    lower_count: usize,
    upper_count: usize,
    start: u64,
    below: Option<usize>,
    above: Option<usize>,
}

// The second symbol if there is one, otherwise the first.
fn later_symbol(earlier: Option<usize>, later: Option<usize>) -> Option<usize>
    ensures { result ≡ later_of earlier later }
{
    match later {
        Some(index) => Some(index),
        None => earlier,
    }
}

// The state after one more boundary of the lower list.
fn take_lower(state: MergeState, boundary: Boundary) -> MergeState
    requires { state.lower_count < 2 ^ 63 }
    ensures { result ≡ record state {
      lower_count = state.lower_count + 1;
      start = boundary.start;
      below = boundary.symbol;
    } }
{
    MergeState {
        lower_count: state.lower_count + 1,
        start: boundary.start,
        below: boundary.symbol,
        ..state
    }
}

// The state after one more boundary of the upper list.
fn take_upper(state: MergeState, boundary: Boundary) -> MergeState
    requires { state.upper_count < 2 ^ 63 }
    ensures { result ≡ record state {
      upper_count = state.upper_count + 1;
      start = boundary.start;
      above = boundary.symbol;
    } }
{
    MergeState {
        upper_count: state.upper_count + 1,
        start: boundary.start,
        above: boundary.symbol,
        ..state
    }
}

// The state after the next boundary, which is the one with the lower start.
fn next_merge_state(lower: &[Boundary], upper: &[Boundary], state: MergeState) -> MergeState
    requires { (state.lower_count < length lower.now) ⊎ (state.upper_count < length upper.now) }
    ensures { TakesLower lower.now upper.now state result ⊎ TakesUpper lower.now upper.now state result }
{
    let (i, k) = (state.lower_count, state.upper_count);
    if i >= lower.len() {
        return take_upper(state, upper[k]);
    }
    if k >= upper.len() {
        return take_lower(state, lower[i]);
    }
    if lower[i].start <= upper[k].start {
        take_lower(state, lower[i])
    } else {
        take_upper(state, upper[k])
    }
}

// The boundaries whose symbol at an address is that of `upper`, or that of `lower` if `upper` has none.
pub(crate) fn merge(
    alloc: Global,
    lower: &[Boundary],
    upper: &[Boundary],
) -> Result<Vec<Boundary>, AllocError>
    requires lower { IsNonDecreasingBy (λ c. c.start) lower.now }
    requires upper { IsNonDecreasingBy (λ c. c.start) upper.now }
    ensures sorted { IfOk result (λ boundaries. IsNonDecreasingBy (λ c. c.start) boundaries.items) }
    ensures symbols { IfOk result (λ boundaries. (x : ℕ) → symbol_from None boundaries.items x
        ≡ later_of (symbol_from None lower.now x) (symbol_from None upper.now x)) }
{
    let mut boundaries = Vec::new(alloc);
    let mut state = MergeState {
        lower_count: 0,
        upper_count: 0,
        start: 0,
        below: None,
        above: None,
    };
    'boundaries: while state.lower_count < lower.len() || state.upper_count < upper.len() {
        state = next_merge_state(lower, upper, state);
        boundaries.push(Boundary {
            start: state.start,
            symbol: later_symbol(state.below, state.above),
        })?;
    }
    Ok(boundaries)
}
