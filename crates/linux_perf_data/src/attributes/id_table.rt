//! The lookup of the attribute that lists an identifier.
ghost use Rattle.std.specs.Prelude.{◌≡◌, ◌++◌, ◌<◌, ℕ, length, map, IfOk, None, OnOk};
ghost use Rattle.std.specs.List.Sorted.{IsPermutation};
ghost use Rattle.linux_perf_data.specs.Descriptions.{described_attributes};
ghost use Rattle.linux_perf_data.specs.steps.IdPairs.{last_index_of_id, id_pairs_of, rank_of_id, AreOrdered};
ghost use Rattle.linux_perf_data.specs.IdPairs.{AreAscending};
ghost use Rattle.linux_perf_data.specs.steps.IdPairs.{IsInsertionPoint, TestsLastOfId, TestsPairAt};

use perfdata_sections::feature_sections::AttributeDescription;
use std::alloc::{AllocError, Global};
use std::collections::BTreeMap;

// Maps an identifier to the index of the attribute that lists it. `late_ids` contains the identifiers of late
// attributes, and is searched first. `pairs` contains the identifiers of the opening with their indices,
// ascending, each identifier once.
#[derive(Drop)]
pub(crate) struct IdTable {
    late_ids: BTreeMap<u64, usize>,
    pairs: Vec<(u64, usize)>,
    ghost ascending: { AreAscending pairs.items },
}

// Appends the id pairs of one attribute.
fn push_ids(pairs: &mut Vec<(u64, usize)>, ids: &[u64], index: usize) -> Result<(), AllocError>
    ensures { OnOk result (pairs.new.items ≡ pairs.old.items ++ map (λ id. (id, index)) ids.now) }
{
    'ids: for id in ids {
        pairs.push((*id, index))?;
    }
    Ok(())
}

// The id pairs of all attributes.
fn collect_id_pairs(
    alloc: Global,
    attributes: &[AttributeDescription],
) -> Result<Vec<(u64, usize)>, AllocError>
    ensures { IfOk result (λ v. v.items ≡ id_pairs_of 0 (described_attributes attributes.now)) }
{
    let mut pairs = Vec::new(alloc);
    let mut index = 0;
    'attributes: for attribute in attributes {
        push_ids(&mut pairs, attribute.ids(), index)?;
        index += 1;
    }
    Ok(pairs)
}

// Sorts pairs by identifier, then by index.
fn sort_pairs(pairs: &mut Vec<(u64, usize)>)
    ensures ordered { AreOrdered pairs.new.items }
    ensures permutation { IsPermutation pairs.old.items pairs.new.items }
{
    pairs.sort_unstable();
}

// Whether the pair at index `at` is the last one of its identifier.
fn is_last_of_id(ordered: &[(u64, usize)], at: usize) -> bool
    requires { at < length ordered.now }
    ensures { TestsLastOfId ordered.now at result }
{
    at + 1 == ordered.len() || ordered[at + 1].0 != ordered[at].0
}

// The last pair of each identifier.
fn last_of_each(alloc: Global, ordered: &[(u64, usize)]) -> Result<Vec<(u64, usize)>, AllocError>
    requires { AreOrdered ordered.now }
    ensures { IfOk result (λ v. AreAscending v.items
        × ((id : ℕ) → rank_of_id id v.items ≡ rank_of_id id ordered.now)) }
{
    let mut last = Vec::new(alloc);
    'pairs: for at in 0..ordered.len() {
        if is_last_of_id(ordered, at) {
            last.push(ordered[at])?;
        }
    }
    Ok(last)
}

impl IdTable {
    ghost use Rattle.linux_perf_data.specs.IdTable.{id_lookup, id_lookup_in_pairs};
    ghost use Rattle.linux_perf_data.specs.steps.IdTable.{InsertsId, InsertsIds};

    // Builds a table without identifiers.
    pub(crate) fn empty(alloc: Global) -> IdTable
        ensures { (id : ℕ) → id_lookup result id ≡ None }
    {
        IdTable {
            late_ids: BTreeMap::new(alloc),
            pairs: Vec::new(alloc),
        }
    }

    // Builds the table of the identifiers of these attributes. If several list an identifier, it maps to the
    // last one.
    pub(crate) fn new(
        alloc: Global,
        attributes: &[AttributeDescription],
    ) -> Result<IdTable, AllocError>
        ensures { IfOk result (λ t. (id : ℕ) → id_lookup t id
            ≡ last_index_of_id id 0 (described_attributes attributes.now)) }
    {
        let mut pairs = collect_id_pairs(alloc, attributes)?;
        sort_pairs(&mut pairs);
        let pairs = last_of_each(alloc, &pairs)?;
        Ok(IdTable {
            late_ids: BTreeMap::new(alloc),
            pairs,
        })
    }

    // The insertion point of an identifier in `pairs`, by bisection.
    fn insertion_point(&self, id: u64) -> usize
        ensures { IsInsertionPoint self.now.pairs.items id result }
    {
        let mut low = 0;
        let mut high = self.pairs.len();
        'halving: while low < high {
            let middle = low + (high - low) / 2;
            let (key, _) = self.pairs[middle];
            if key < id {
                low = middle + 1;
            } else {
                high = middle;
            }
        }
        low
    }

    // Whether the pair at index `at` exists and is that of the identifier.
    fn has_pair(&self, id: u64, at: usize) -> bool
        ensures { TestsPairAt self.now.pairs.items id at result }
    {
        at < self.pairs.len() && self.pairs[at].0 == id
    }

    // The index of the attribute that lists an identifier, among those of the opening.
    fn find_in_pairs(&self, id: u64) -> Option<usize>
        ensures { result ≡ id_lookup_in_pairs self.now id }
    {
        let at = self.insertion_point(id);
        if self.has_pair(id, at) {
            let (_, index) = self.pairs[at];
            Some(index)
        } else {
            None
        }
    }

    // The index of the attribute that lists an identifier.
    pub(crate) fn get(&self, id: u64) -> Option<usize>
        ensures { result ≡ id_lookup self.now id }
    {
        match self.late_ids.get(&id) {
            Some(index) => Some(*index),
            None => self.find_in_pairs(id),
        }
    }

    // Maps an identifier to this index, which replaces its previous one.
    pub(crate) fn insert(&mut self, id: u64, index: usize) -> Result<(), AllocError>
        ensures { InsertsId self.old id index result self.new }
    {
        self.late_ids.insert(id, index)?;
        Ok(())
    }

    // Maps each of the identifiers to this index, in order.
    pub(crate) fn insert_all(&mut self, ids: &[u64], index: usize) -> Result<(), AllocError>
        ensures { InsertsIds self.old ids.now index result self.new }
    {
        'ids: for id in ids {
            self.insert(*id, index)?;
        }
        Ok(())
    }
}
