//! The names that attributes get by a new name table: only those of attributes whose names change.
ghost use Rattle.std.specs.Prelude.{◌≡◌, ◌≢◌, ◌<◌, length};
ghost use Rattle.std.specs.List.{All};
ghost use Rattle.std.specs.Option.{option_map};
ghost use Rattle.linux_perf_data.specs.Descriptions.{described_attributes};
ghost use Rattle.linux_perf_data.specs.steps.FirstIdIndex.{IndexesAll};
ghost use Rattle.linux_perf_data.specs.Names.{NamedBy};
ghost use Rattle.linux_perf_data.specs.steps.Renames.{AppendsRenames, AreRenamesFor, FindsRenames};
ghost use Rattle.linux_perf_data.specs.steps.Renames.{HasOtherFirstId};
ghost use Rattle.linux_perf_data.specs.steps.Renames.{IsUnlistedOrKept, KeepsName, TestsSameName};

use crate::attributes::first_id_index::FirstIdIndex;
use crate::attributes::names::NameTable;
use perfdata_sections::error::Error;
use perfdata_sections::feature_sections::AttributeDescription;
use std::alloc::Global;

// Whether two names are equal.
fn is_same_name(first: Option<&str>, second: Option<&str>) -> bool
    ensures { TestsSameName (option_map (λ s. s.now) first.entry)
        (option_map (λ s. s.now) second.entry) result }
{
    match (first, second) {
        (None, None) => true,
        (Some(first), Some(second)) => first == second,
        _ => false,
    }
}

// Appends the name that `table` gives the attribute at `index`.
fn push_rename(
    alloc: Global,
    attributes: &[AttributeDescription],
    table: &NameTable,
    index: usize,
    renames: &mut Vec<(usize, Option<String>)>,
) -> Result<(), Error>
    requires { index < length attributes.now }
    ensures { AppendsRenames attributes.now table.now
        (λ k. k ≢ index) renames.old.items result renames.new.items }
{
    let name = table.clone_name(alloc, attributes[index].ids())?;
    renames.push((index, name))?;
    Ok(())
}

// Appends the names that `table` gives the attributes with this first id.
fn push_chain_renames(
    alloc: Global,
    attributes: &[AttributeDescription],
    first_ids: &FirstIdIndex,
    table: &NameTable,
    id: u64,
    renames: &mut Vec<(usize, Option<String>)>,
) -> Result<(), Error>
    requires { IndexesAll first_ids.now attributes.now }
    ensures { AppendsRenames attributes.now table.now
        (HasOtherFirstId attributes.now id) renames.old.items result renames.new.items }
{
    let mut next = first_ids.last_index(id);
    'chain: while let Some(index) = next {
        push_rename(alloc, attributes, table, index, renames)?;
        next = first_ids.previous(index);
    }
    Ok(())
}

// Appends the names of the attributes whose first ids are in `listed`, and whose names `new` changes.
fn push_changed(
    alloc: Global,
    attributes: &[AttributeDescription],
    first_ids: &FirstIdIndex,
    listed: &NameTable,
    old: &NameTable,
    new: &NameTable,
    renames: &mut Vec<(usize, Option<String>)>,
) -> Result<(), Error>
    requires { IndexesAll first_ids.now attributes.now }
    ensures { AppendsRenames attributes.now new.now
        (IsUnlistedOrKept attributes.now listed.now old.now new.now) renames.old.items result
        renames.new.items }
{
    'ids: for id in listed.index_by_first_id.keys() {
        let ids = [*id];
        if !is_same_name(new.get(&ids), old.get(&ids)) {
            push_chain_renames(alloc, attributes, first_ids, new, *id, renames)?;
        }
    }
    Ok(())
}

// The names of the attributes whose names differ in the two tables.
pub(crate) fn changed_names(
    alloc: Global,
    attributes: &[AttributeDescription],
    first_ids: &FirstIdIndex,
    old: &NameTable,
    new: &NameTable,
) -> Result<Vec<(usize, Option<String>)>, Error>
    requires { IndexesAll first_ids.now attributes.now }
    ensures { FindsRenames attributes.now new.now (KeepsName attributes.now old.now new.now) result }
{
    let mut renames = Vec::new(alloc);
    push_changed(alloc, attributes, first_ids, old, old, new, &mut renames)?;
    push_changed(alloc, attributes, first_ids, new, old, new, &mut renames)?;
    Ok(renames)
}

// The names of all attributes.
pub(crate) fn all_names(
    alloc: Global,
    attributes: &[AttributeDescription],
    table: &NameTable,
) -> Result<Vec<(usize, Option<String>)>, Error>
    ensures { FindsRenames attributes.now table.now (λ k. ⊥) result }
{
    let mut renames = Vec::new(alloc);
    'attributes: for index in 0..attributes.len() {
        push_rename(alloc, attributes, table, index, &mut renames)?;
    }
    Ok(renames)
}

// Sets the names of attributes.
pub(crate) fn apply_renames(
    attributes: &mut [AttributeDescription],
    renames: Vec<(usize, Option<String>)>,
)
    requires { All (λ r. r.0 < length attributes.old) renames.items }
    ensures names { (t : NameTable) → AreRenamesFor attributes.old t renames.items
        → NamedBy t.events.items attributes.new }
    ensures same { described_attributes attributes.new ≡ described_attributes attributes.old }
{
    let mut renames = renames;
    'renames: while let Some((index, name)) = renames.pop() {
        attributes[index].set_name(name);
    }
}
