//! The sums of the samples of each thread, stack and event.

ghost use Rattle.std.specs.Prelude.{◌≡◌, ◌+◌, ◌≤◌, ◌<◌, ◌^◌, ◌∷◌, [], ◌++◌, None, Some, List, slice_get};
ghost use Rattle.std.specs.Prelude.{ℕ, length, IfErr, IfSome, IfNone, OnErr, OnOk};
ghost use Rattle.indexmap.specs.IndexMap.{set_value_at};
ghost use Rattle.indexmap.specs.IndexMap.{get, index_map_len};
ghost use Rattle.std.specs.List.{sum_by};
ghost use Rattle.perfdata_profile.specs.Sums.{entry_samples, entry_weight, sums_after};

use crate::error::ProfileError;
use crate::names::NameId;
use crate::stacks::StackId;
use indexmap::IndexMap;
use std::alloc::{AllocError, Global};

/// A thread of a profile.
#[derive(Clone, Copy, Debug, PartialEq, Eq, Hash)]
pub struct Thread {
    /// The name.
    pub name: NameId,
    /// The process, if processes are distinguished.
    pub pid: Option<i32>,
    /// The thread, if threads are distinguished.
    pub tid: Option<i32>,
}

/// What the sums of samples are kept apart by.
#[derive(Clone, Copy, Debug, PartialEq, Eq, Hash)]
pub struct SampleKey {
    /// The thread.
    pub thread: Thread,
    /// The stack.
    pub stack: StackId,
    /// The column of the event.
    pub column: usize,
}

/// How a sample counts.
#[derive(Clone, Copy, Debug, PartialEq, Eq)]
pub struct SampleWeight {
    /// The column of the event.
    pub column: usize,
    /// The weight.
    pub weight: u64,
}

/// What samples with the same key add up to.
#[derive(Clone, Copy, Debug, PartialEq, Eq)]
pub struct Sums {
    /// The number of samples.
    pub samples: u64,
    /// The sum of their weights.
    pub weight: u64,
}

/// The sums of the samples of each thread, stack and column. All sums are below 2^63.
#[derive(Drop)]
pub struct SampleSums {
    entries: IndexMap<SampleKey, Sums>,
    total: Sums,
    ghost samples_summed: { total.samples ≡ sum_by entry_samples entries.entries },
    ghost weights_summed: { total.weight ≡ sum_by entry_weight entries.entries },
    ghost fits: { (total.samples < 2 ^ 63) × (total.weight < 2 ^ 63) },
}

// The number from which on no sum is counted.
const LIMIT: u64 = 1 << 63;

// Returns the sum of two numbers, if it is below 2^63.
fn checked_sum(sum: u64, more: u64) -> Option<u64>
    ensures some { IfSome result (λ total. (total ≡ sum + more) × (total < 2 ^ 63)) }
    ensures none { IfNone result (2 ^ 63 ≤ sum + more) }
{
    let total = sum.checked_add(more)?;
    if total < LIMIT { Some(total) } else { None }
}

impl Sums {
    ghost use Rattle.perfdata_profile.specs.SampleSums.{Overflows};

    // The sums after one more sample, if they are below 2^63.
    fn plus(self, weight: u64) -> Sums
        ensures { (sums_after self weight).samples < 2 ^ 63 → (sums_after self weight).weight < 2 ^ 63 →
            result ≡ sums_after self weight }
    {
        Sums {
            samples: self.samples.saturating_add(1),
            weight: self.weight.saturating_add(weight),
        }
    }

    // The sums after one more sample, or `None` if one of them is 2^63 or more.
    fn checked_plus(self, weight: u64) -> Option<Sums>
        ensures some { IfSome result (λ sums. sums ≡ sums_after self weight) }
        ensures fits { IfSome result (λ sums. (sums.samples < 2 ^ 63) × (sums.weight < 2 ^ 63)) }
        ensures none { IfNone result (Overflows self weight) }
    {
        Some(Sums {
            samples: checked_sum(self.samples, 1)?,
            weight: checked_sum(self.weight, weight)?,
        })
    }

    // Returns these sums with others added, if both numbers are below 2^63.
    fn checked_sum(self, more: Sums) -> Option<Sums>
        ensures some { IfSome result (λ total. (total.samples ≡ self.samples + more.samples)
            × (total.weight ≡ self.weight + more.weight)) }
        ensures fits { IfSome result (λ sums. (sums.samples < 2 ^ 63) × (sums.weight < 2 ^ 63)) }
    {
        let samples = checked_sum(self.samples, more.samples)?;
        let weight = checked_sum(self.weight, more.weight)?;
        Some(Sums { samples, weight })
    }
}

// Adds a sample to the sums with an index.
fn raise(entries: &mut IndexMap<SampleKey, Sums>, index: usize, weight: u64)
    requires { index < index_map_len entries.old }
    ensures { (key : SampleKey) (sums : Sums) →
        slice_get entries.old.entries index ≡ Some (key, sums) → (sums_after sums weight).samples < 2 ^ 63 →
        (sums_after sums weight).weight < 2 ^ 63 →
        entries.new.entries ≡ set_value_at entries.old.entries index (sums_after sums weight) }
{
    let sums = entries[index];
    entries[index] = sums.plus(weight);
}

impl SampleSums {
    ghost use Rattle.perfdata_profile.specs.SampleSums.{IsCause, IsEntryIndex, KeepsKeys, KeepsSums};
    ghost use Rattle.perfdata_profile.specs.SampleSums.{TalliesSamples};
    ghost use Rattle.perfdata_profile.specs.SampleSums.{entries_of, then_counted, total_of};
    ghost use Rattle.perfdata_profile.specs.Tallies.{Counted};
    ghost use Rattle.perfdata_profile.specs.declared.sums.Sums.{Sums};

    /// Creates sums without samples.
    pub fn new(alloc: Global) -> SampleSums
        ensures { TalliesSamples [] result }
    {
        SampleSums {
            entries: IndexMap::new(alloc),
            total: Sums {
                samples: 0,
                weight: 0,
            },
        }
    }

    /// Counts a sample with a key and a weight.
    ///
    /// Fails with [`ProfileError::Overflow`] if the number of all samples or the sum of all weights, whatever
    /// their columns, exceeds 2^63 - 1, and with [`ProfileError::Memory`] if memory runs out. Then nothing is
    /// counted.
    pub fn add(&mut self, key: SampleKey, weight: u64) -> Result<(), ProfileError>
        ensures ok { OnOk result ((counted : List (Counted SampleKey)) → TalliesSamples counted self.old →
            TalliesSamples (then_counted counted key weight) self.new) }
        ensures keys { OnOk result (KeepsKeys (entries_of self.old) (entries_of self.new)) }
        ensures entry { OnOk result ((index : ℕ) → IsEntryIndex (entries_of self.old) key index →
            (sums : Sums) × (slice_get (entries_of self.new) index ≡ Some (key, sums))) }
        ensures err { OnErr result (KeepsSums self.old self.new) }
        ensures cause { IfErr result (λ error. IsCause (total_of self.old) weight error) }
    {
        let Some(total) = self.total.checked_plus(weight) else {
            return Err(ProfileError::Overflow);
        };
        if let Some(index) = self.entries.get_index_of(&key) {
            raise(&mut self.entries, index, weight);
            self.total = total;
            return Ok(());
        }
        match self.entries.insert(key, Sums { samples: 1, weight }) {
            Ok(_) => {
                self.total = total;
                Ok(())
            }
            Err(_) => Err(ProfileError::Memory),
        }
    }

    /// Returns the number of keys that were counted.
    pub fn len(&self) -> usize
        ensures { result ≡ length (entries_of self.now) }
    {
        self.entries.len()
    }

    /// Returns the key with an index, and its sums, or `None` from [`SampleSums::len`] on. Keys are in the
    /// order in which they were first counted.
    pub fn get(&self, index: usize) -> Option<(SampleKey, Sums)>
        ensures { result ≡ slice_get (entries_of self.now) index }
    {
        match self.entries.get_index(index) {
            Some((key, sums)) => Some((*key, *sums)),
            None => None,
        }
    }

    // Returns the index of a key, or the one that it gets when it is counted first.
    pub(crate) fn entry_index(&self, key: &SampleKey) -> usize
        ensures { IsEntryIndex (entries_of self.now) key.now result }
    {
        match self.entries.get_index_of(key) {
            Some(index) => index,
            None => self.entries.len(),
        }
    }

    // Adds a key that wasn't counted before, with its sums.
    fn add_entry(&mut self, key: SampleKey, sums: Sums) -> Result<(), ProfileError> {
        let Some(total) = self.total.checked_sum(sums) else {
            return Err(ProfileError::Overflow);
        };
        if let Some(_index) = self.entries.get_index_of(&key) {
            return Ok(());
        }
        match self.entries.insert(key, sums) {
            Ok(_) => {
                self.total = total;
                Ok(())
            }
            Err(_) => Err(ProfileError::Memory),
        }
    }

    // Returns the sums of the keys whose index is marked, in their order. Keys beyond the marks aren't.
    pub(crate) fn marked(&self, alloc: Global, marks: &[bool]) -> Result<SampleSums, ProfileError> {
        let mut marked = SampleSums::new(alloc);
        for (index, is_marked) in marks.iter().enumerate() {
            if let (true, Some((key, sums))) = (*is_marked, self.get(index)) {
                marked.add_entry(key, sums)?;
            }
        }
        Ok(marked)
    }

    /// Returns the sums of all samples, whatever their columns.
    pub fn total(&self) -> Sums
        ensures total { result ≡ total_of self.now }
        ensures samples { result.samples ≡ sum_by entry_samples (entries_of self.now) }
        ensures weights { result.weight ≡ sum_by entry_weight (entries_of self.now) }
    {
        self.total
    }
}
