//! The index of attributes by their first ids.
ghost use Rattle.std.specs.Prelude.{◌≡◌, length, OnOk};

use perfdata_sections::feature_sections::AttributeDescription;
use std::alloc::{AllocError, Global};
use std::collections::BTreeMap;

// Finds the attributes with a first id. It contains the first attributes of a list, as many as `previous` has
// elements.
#[derive(Drop)]
pub(crate) struct FirstIdIndex {
    // Maps an id to the last attribute whose first id it is.
    last: BTreeMap<u64, usize>,
    // For each attribute, the previous one with the same first id.
    previous: Vec<Option<usize>>,
}

impl FirstIdIndex {
    ghost use Rattle.std.specs.Prelude.{ℕ, ◌<◌, List, None, slice_index_or, vec_len};
    ghost use Rattle.std.specs.BTreeMap.{get};
    ghost use Rattle.std.specs.Ordering.{nat_cmp};
    ghost use Rattle.linux_perf_data.specs.FirstIdIndex.{IndexesAttributes, id_lists_of};
    ghost use Rattle.linux_perf_data.specs.steps.FirstIdIndex.{AddsIds};

    // An index that contains no attributes.
    pub(crate) fn new(alloc: Global) -> FirstIdIndex
        ensures { (lists : List (List ℕ)) → IndexesAttributes result lists }
    {
        FirstIdIndex {
            last: BTreeMap::new(alloc),
            previous: Vec::new(alloc),
        }
    }

    // The last attribute with this first id.
    pub(crate) fn last_index(&self, id: u64) -> Option<usize>
        ensures { result ≡ get nat_cmp self.now.last id }
    {
        match self.last.get(&id) {
            Some(index) => Some(*index),
            None => None,
        }
    }

    // The previous attribute with the first id of this one.
    pub(crate) fn previous(&self, index: usize) -> Option<usize>
        requires { index < length self.now.previous.items }
        ensures { result ≡ slice_index_or self.now.previous.items index None }
    {
        self.previous[index]
    }

    // Adds the next attribute, which has these ids.
    fn add(&mut self, ids: &[u64]) -> Result<(), AllocError>
        ensures { AddsIds self.old ids.now result self.new }
    {
        if ids.is_empty() {
            self.previous.push(None)?;
            return Ok(());
        }
        let index = self.previous.len();
        let previous = self.last_index(ids[0]);
        self.previous.try_reserve(1)?;
        self.last.insert(ids[0], index)?;
        self.previous.push(previous)?;
        Ok(())
    }

    // Adds the attributes of a list that the index doesn't contain.
    pub(crate) fn extend(&mut self, attributes: &[AttributeDescription]) -> Result<(), AllocError>
        requires { IndexesAttributes self.old (id_lists_of attributes.now) }
        ensures indexes { IndexesAttributes self.new (id_lists_of attributes.now) }
        ensures complete { OnOk result (length self.new.previous.items ≡ length attributes.now) }
    {
        'attributes: while self.previous.len() < attributes.len() {
            let index = self.previous.len();
            self.add(attributes[index].ids())?;
        }
        Ok(())
    }
}
