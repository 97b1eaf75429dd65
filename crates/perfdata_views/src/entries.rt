//! What the ids of a profile stand for.

ghost use Rattle.std.specs.Prelude.{◌≡◌, ◌<◌, ◌++◌, Some, length, map, slice_get, IfOk, OnOk};
ghost use Rattle.perfdata_profile.specs.Profiles.{lists_of};
ghost use Rattle.perfdata_profile.specs.SampleSums.{entries_of};
ghost use Rattle.perfdata_profile.specs.Values.{AreLocations, location_at, name_at, stack_at};
ghost use Rattle.perfdata_views.specs.Entries.{stack_names};
ghost use Rattle.perfdata_views.specs.steps.Entries.{AreNames, location_functions, stack_functions};

use perfdata_profile::interned::Interned;
use perfdata_profile::locations::LocationId;
use perfdata_profile::names::NameId;
use perfdata_profile::stacks::StackId;
use perfdata_profile::sums::{SampleKey, SampleSums, Sums};
use std::alloc::{AllocError, Global};

/// Returns a key with its sums by its index.
pub(crate) fn find_entry(sums: &SampleSums, index: usize) -> (SampleKey, Sums)
    requires { index < length (entries_of sums.now) }
    ensures { slice_get (entries_of sums.now) index ≡ Some result }
{
    match sums.get(index) {
        Some(entry) => entry,
        None => unreachable!(),
    }
}

/// Returns a name, or nothing if there is none with the id.
pub(crate) fn find_name(tables: &Interned, id: NameId) -> &[u8]
    ensures { result.now ≡ name_at (lists_of tables.now) id }
{
    match tables.names.get(id) {
        Some(name) => name,
        None => &[],
    }
}

// Appends the names of the functions of a location, the innermost first.
fn push_location(
    functions: &mut Vec<NameId>,
    tables: &Interned,
    id: LocationId,
) -> Result<(), AllocError>
    ensures { OnOk result (functions.new.items
        ≡ functions.old.items ++ location_functions (lists_of tables.now) id) }
{
    let Some(location) = tables.locations.get(id) else {
        return Ok(());
    };
    let Some(lines) = tables.lines.get(location.lines) else {
        return Ok(());
    };
    'lines: for line in lines {
        functions.push(line.function)?;
    }
    Ok(())
}

// Returns the names of the functions of locations.
fn stack_functions(
    alloc: Global,
    tables: &Interned,
    stack: &[LocationId],
) -> Result<Vec<NameId>, AllocError>
    ensures { IfOk result (λ functions. functions.items ≡ stack_functions (lists_of tables.now) stack.now) }
{
    let mut functions = Vec::new(alloc);
    'locations: for id in stack {
        push_location(&mut functions, tables, *id)?;
    }
    Ok(functions)
}

/// Returns the locations of a stack, or none if there is no stack with the id.
pub(crate) fn find_stack(tables: &Interned, id: StackId) -> &[LocationId]
    ensures stack { map (location_at (lists_of tables.now)) result.now ≡ stack_at (lists_of tables.now) id }
    ensures within { AreLocations (lists_of tables.now) result.now }
{
    match tables.stacks.get(id) {
        Some(stack) => stack,
        None => &[],
    }
}

/// Returns the names of the functions of a stack, that of the leaf first, or none if there is no stack with
/// the id.
///
/// Fails if memory runs out.
pub(crate) fn find_functions(
    alloc: Global,
    tables: &Interned,
    id: StackId,
) -> Result<Vec<NameId>, AllocError>
    ensures names { IfOk result (λ functions. map (name_at (lists_of tables.now)) functions.items
        ≡ stack_names (stack_at (lists_of tables.now) id)) }
    ensures within { IfOk result (λ functions. AreNames (lists_of tables.now) functions.items) }
{
    stack_functions(alloc, tables, find_stack(tables, id))
}
