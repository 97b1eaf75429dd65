//! The samples of a profile, in order.

ghost use Rattle.std.specs.Prelude.{◌≡◌, ◌-◌, [], ◌∷◌, ◌++◌, length, slice_get, take, OnErr, OnOk};

use crate::error::ProfileError;
use std::alloc::{AllocError, Global};

/// A sample of a profile.
#[derive(Clone, Copy, Debug, PartialEq, Eq)]
pub struct ListedSample {
    /// The time in nanoseconds, or `None` for a sample without.
    pub time: Option<u64>,
    /// The index of the sums of its thread, its stack and its event, which have these as their key.
    pub entry: usize,
    /// The weight.
    pub weight: u64,
}

// A sample in 24 bytes.
#[derive(Clone, Copy)]
struct StoredSample {
    /// The time, or 0.
    time: u64,
    weight: u64,
    entry: u32,
    has_time: bool,
}

/// The selected samples of a profile, in the order of their records. Each takes 24 bytes.
#[derive(Drop)]
pub struct SampleList {
    samples: Vec<StoredSample>,
}

impl StoredSample {
    ghost use Rattle.perfdata_profile.specs.SampleLists.{stored_value};

    // Stores a sample whose entry has a small index.
    fn new(sample: ListedSample, entry: u32) -> StoredSample
        ensures { sample.entry ≡ entry → stored_value result ≡ sample }
    {
        StoredSample {
            time: sample.time.unwrap_or(0),
            weight: sample.weight,
            entry,
            has_time: sample.time.is_some(),
        }
    }

    // Returns the time, if the sample has one.
    fn time(&self) -> Option<u64>
        ensures { result ≡ (stored_value self.now).time }
    {
        if self.has_time { Some(self.time) } else { None }
    }

    // Returns the sample.
    fn listed(&self) -> ListedSample
        ensures { result ≡ stored_value self.now }
    {
        ListedSample {
            time: self.time(),
            entry: self.entry as usize,
            weight: self.weight,
        }
    }
}

// Returns the number of marks before each mark that is set.
fn marked_indices(alloc: Global, marks: &[bool]) -> Result<Vec<Option<usize>>, AllocError> {
    let mut indices = Vec::new(alloc);
    let mut count: usize = 0;
    for is_marked in marks {
        if *is_marked {
            indices.push(Some(count))?;
            count = count.saturating_add(1);
        } else {
            indices.push(None)?;
        }
    }
    Ok(indices)
}

impl SampleList {
    ghost use Rattle.perfdata_profile.specs.SampleLists.{listed_in};

    /// Creates a list without samples.
    pub fn new(alloc: Global) -> SampleList
        ensures { listed_in result ≡ [] }
    {
        SampleList {
            samples: Vec::new(alloc),
        }
    }

    /// Appends a sample.
    ///
    /// Fails with [`ProfileError::Overflow`] if the index of its entry is 2^32 or more, and with
    /// [`ProfileError::Memory`] if memory runs out. Then nothing is appended.
    pub fn push(&mut self, sample: ListedSample) -> Result<(), ProfileError>
        ensures ok { OnOk result (listed_in self.new ≡ listed_in self.old ++ sample ∷ []) }
        ensures err { OnErr result (listed_in self.new ≡ listed_in self.old) }
    {
        let Ok(entry) = u32::try_from(sample.entry) else {
            return Err(ProfileError::Overflow);
        };
        if self.samples.push(StoredSample::new(sample, entry)).is_err() {
            return Err(ProfileError::Memory);
        }
        Ok(())
    }

    // Removes the last sample, if there is one.
    pub(crate) fn remove_last(&mut self)
        ensures { listed_in self.new ≡ take (length (listed_in self.old) - 1) (listed_in self.old) }
    {
        let _last = self.samples.pop();
    }

    /// Returns the number of samples.
    pub fn len(&self) -> usize
        ensures { result ≡ length (listed_in self.now) }
    {
        self.samples.len()
    }

    /// Returns the sample with an index, or `None` from [`SampleList::len`] on.
    pub fn get(&self, index: usize) -> Option<ListedSample>
        ensures { result ≡ slice_get (listed_in self.now) index }
    {
        match self.samples.get(index) {
            Some(sample) => Some(sample.listed()),
            None => None,
        }
    }

    // Returns the samples of the entries whose index is marked, in their order, with the indices that these
    // have among the marked ones.
    pub(crate) fn marked(&self, alloc: Global, marks: &[bool]) -> Result<SampleList, ProfileError> {
        let indices = marked_indices(alloc, marks).map_err(|_| ProfileError::Memory)?;
        let mut list = SampleList::new(alloc);
        for sample in &self.samples {
            let sample = sample.listed();
            if let Some(Some(entry)) = indices.get(sample.entry) {
                list.push(ListedSample {
                    entry: *entry,
                    ..sample
                })?;
            }
        }
        Ok(list)
    }
}
