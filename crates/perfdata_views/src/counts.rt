//! Counts of lines.
ghost use Rattle.std.specs.Prelude.{◌≡◌, [], ◌∷◌, ◌++◌, List, OnOk, OnErr};
ghost use Rattle.std.specs.List.{sum_by};
ghost use Rattle.std.specs.Map.{values_of};

use std::alloc::{AllocError, Global};
use std::collections::BTreeMap;
use std::collections::btree_map::Iter;
use thiserror::Error;

/// Why a sample isn't counted.
#[derive(Clone, Copy, Debug, Drop, PartialEq, Eq, Error)]
pub enum LineCountError {
    /// The sum of all weights is 2^64 or more.
    #[error("the sum of all weights is 2^64 or more")]
    Overflow,
    /// Out of memory.
    #[error("out of memory")]
    Memory,
}

/// The sum of the weights of each line.
#[derive(Drop)]
pub struct LineCounts {
    counts: BTreeMap<Vec<u8>, u64>,
    total: u64,
    alloc: Global,
    ghost summed: { total ≡ sum_by (λ count. count) (values_of counts.entries) },
}

impl LineCounts {
    ghost use Rattle.perfdata_views.specs.Counts.{Added, AddsToLine, Counts, ListsLines, IsAscending};
    ghost use Rattle.perfdata_views.specs.Counts.{count_of, counted_lines, sum_of_counts};
    ghost use Rattle.std.specs.Option.{unwrap_or};

    /// Creates counts without lines.
    pub fn new(alloc: Global) -> LineCounts
        ensures none { counted_lines result ≡ [] }
        ensures counts { Counts [] result }
    {
        LineCounts {
            counts: BTreeMap::new(alloc),
            total: 0,
            alloc,
        }
    }

    /// Adds a weight to the count of a line.
    ///
    /// Fails with [`LineCountError::Overflow`] if the sum of all weights exceeds 2^64 - 1, and with
    /// [`LineCountError::Memory`] if memory runs out. Then nothing is counted.
    pub fn add(&mut self, line: &[u8], weight: u64) -> Result<(), LineCountError>
        ensures line { AddsToLine self.old line.now weight result self.new }
        ensures counts { OnOk result ((added : List Added) → Counts added self.old →
            Counts (added ++ record { line = line.now; weight = weight } ∷ []) self.new) }
        ensures err { OnErr result ((added : List Added) → Counts added self.old → Counts added self.new) }
    {
        let Some(total) = self.total.checked_add(weight) else {
            return Err(LineCountError::Overflow);
        };
        let mut key = Vec::new(self.alloc);
        if key.extend_from_slice(line).is_err() {
            return Err(LineCountError::Memory);
        }
        let old = self.counts.get(&key).copied().unwrap_or(0);
        match self.counts.insert(key, old + weight) {
            Ok(_) => {
                self.total = total;
                Ok(())
            }
            Err(_) => Err(LineCountError::Memory),
        }
    }

    /// Returns the count of a line, or 0 if it isn't there.
    pub fn count(&self, line: &Vec<u8>) -> u64
        ensures { result ≡ unwrap_or (count_of self.now line.now.items) 0 }
    {
        self.counts.get(line).copied().unwrap_or(0)
    }

    /// Returns the sum of all counts.
    pub fn total(&self) -> u64
        ensures sum { result ≡ sum_of_counts self.now }
        ensures counts { (added : List Added) → Counts added self.now →
            result ≡ sum_by (λ a. a.weight) added }
    {
        self.total
    }

    /// Returns the lines, ascending by bytes, with their counts.
    pub fn iter(&self) -> Iter<'_, Vec<u8>, u64>
        ensures rest { result ≡ counted_lines self.now }
        ensures ascending { IsAscending self.now }
        ensures lines { (added : List Added) → Counts added self.now →
            ListsLines added (counted_lines self.now) }
    {
        self.counts.iter()
    }
}
