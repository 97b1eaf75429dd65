//! The table of the functions of a profile.

ghost use Rattle.std.specs.Prelude.{◌≡◌, ◌<◌, ◌++◌, length, map, slice_index_or, slice_set, IfOk, OnOk};
ghost use Rattle.perfdata_profile.specs.Names.{names_of, number_of};
ghost use Rattle.perfdata_profile.specs.Profiles.{lists_of};
ghost use Rattle.perfdata_views.specs.Entries.{entries_in};
ghost use Rattle.perfdata_views.specs.FunctionTables.{IsTableOf};
ghost use Rattle.perfdata_views.specs.steps.FunctionTables.{AreTallies, CountsEntry, Sees, no_tally};
ghost use Rattle.perfdata_views.specs.steps.FunctionTables.{rows_of, seen, used_row, with_own};

use crate::entries::{find_entry, find_functions};
use perfdata_profile::names::{NameId, Names};
use perfdata_profile::profile::Profile;
use std::alloc::{AllocError, Global};

/// A function with the weights of its samples.
#[derive(Clone, Copy, Debug, PartialEq, Eq)]
pub struct FunctionRow {
    /// The name.
    pub name: NameId,
    /// The sum of the weights of the samples in it.
    pub own: u64,
    /// The sum of the weights of the samples in it and in what it calls. A sample counts once, also if the
    /// function calls itself.
    pub total: u64,
}

// The weights of the function with a name.
#[derive(Clone, Copy)]
struct Tally {
    own: u64,
    total: u64,
    // The number of entries up to the last one in which the function occurs, or 0.
    last: usize,
}

// Adds the weight of an entry to the total of a function, unless it was seen in the entry before. `count` is
// the number of entries up to this one.
fn see(tallies: &mut [Tally], number: usize, count: usize, weight: u64)
    ensures { tallies.new ≡ slice_set tallies.old number (seen count weight
        (slice_index_or tallies.old number no_tally)) }
{
    if number >= tallies.len() {
        return;
    }
    let tally = tallies[number];
    if tally.last == count {
        return;
    }
    tallies[number] = Tally {
        own: tally.own,
        total: tally.total.saturating_add(weight),
        last: count,
    };
}

// Adds a weight to that of the samples in a function.
fn add_own(tallies: &mut [Tally], number: usize, weight: u64)
    ensures { tallies.new ≡ slice_set tallies.old number (with_own weight
        (slice_index_or tallies.old number no_tally)) }
{
    if number >= tallies.len() {
        return;
    }
    let tally = tallies[number];
    tallies[number] = Tally {
        own: tally.own.saturating_add(weight),
        total: tally.total,
        last: tally.last,
    };
}

// Adds the weight of an entry to the totals of the functions of its stack.
fn see_stack(tallies: &mut [Tally], functions: &[NameId], count: usize, weight: u64)
    ensures { Sees tallies.old (map number_of functions.now) count weight tallies.new }
{
    'frames: for id in functions {
        see(tallies, id.number(), count, weight);
    }
}

// Counts an entry with the functions of its stack, that of the leaf first, and a weight.
fn count_entry(tallies: &mut [Tally], functions: &[NameId], count: usize, weight: u64)
    ensures { CountsEntry tallies.old (map number_of functions.now) count weight tallies.new }
{
    see_stack(tallies, functions, count, weight);
    if functions.is_empty() {
        return;
    }
    add_own(tallies, functions[0].number(), weight);
}

// Returns the tallies of all names.
fn tallies(alloc: Global, profile: &Profile) -> Result<Vec<Tally>, AllocError>
    ensures { IfOk result (λ tallies.
        AreTallies (names_of profile.now.tables.names) (entries_in profile.now) tallies.items) }
{
    let _total = profile.sums.total().weight; // for the prover
    let none = Tally {
        own: 0,
        total: 0,
        last: 0,
    };
    let mut tallies = vec![in alloc; none; profile.tables.names.len()]?;
    'entries: for index in 0..profile.sums.len() {
        let (key, sums) = find_entry(&profile.sums, index);
        let functions = find_functions(alloc, &profile.tables, key.stack)?;
        count_entry(&mut tallies, functions.as_slice(), index + 1, sums.weight);
    }
    Ok(tallies)
}

// Appends the row of the function with a number, if it occurs.
fn push_row(
    rows: &mut Vec<FunctionRow>,
    names: &Names,
    number: usize,
    tally: Tally,
) -> Result<(), AllocError>
    requires { number < length (names_of names.now) }
    ensures { OnOk result (rows.new.items ≡ rows.old.items ++ used_row number tally) }
{
    if tally.last == 0 {
        return Ok(());
    }
    match names.id(number) {
        Some(name) => {
            rows.push(FunctionRow {
                name,
                own: tally.own,
                total: tally.total,
            })?;
            Ok(())
        }
        None => unreachable!(),
    }
}

// Returns the rows of the functions that occur.
fn used_rows(
    alloc: Global,
    names: &Names,
    tallies: &[Tally],
) -> Result<Vec<FunctionRow>, AllocError>
    requires { length tallies.now ≡ length (names_of names.now) }
    ensures { IfOk result (λ rows. rows.items ≡ rows_of 0 tallies.now) }
{
    let mut rows = Vec::new(alloc);
    'names: for (number, tally) in tallies.iter().enumerate() {
        push_row(&mut rows, names, number, *tally)?;
    }
    Ok(rows)
}

/// Returns the functions that occur in the stacks of a profile, each once, with the weights of its samples.
///
/// Fails if memory runs out.
pub fn rows(alloc: Global, profile: &Profile) -> Result<Vec<FunctionRow>, AllocError>
    ensures { IfOk result (λ rows.
        IsTableOf (lists_of profile.now.tables) (entries_in profile.now) rows.items) }
{
    let counted = tallies(alloc, profile)?;
    used_rows(alloc, &profile.tables.names, counted.as_slice())
}
