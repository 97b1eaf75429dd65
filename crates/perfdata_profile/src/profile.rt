//! A profile.

ghost use Rattle.std.specs.Prelude.{◌≡◌, OnErr};

use crate::error::ProfileError;
use crate::interned::Interned;
use crate::sample_list::SampleList;
use crate::sums::SampleSums;
use std::alloc::Global;

/// Tables of names, mappings, locations and stacks, and the sums of the samples of each thread, stack and
/// event. If samples are listed, these sums are those of the list.
#[derive(Drop)]
pub struct Profile {
    /// What the ids stand for.
    pub tables: Interned,
    /// The sums of the samples.
    pub sums: SampleSums,
    /// The samples in the order of their records, if they are listed.
    pub samples: Option<SampleList>,
}

impl Profile {
    /// Keeps the sums of the keys whose index is marked, in their order, and the samples of these keys. Keys
    /// beyond the marks aren't kept.
    ///
    /// Fails with [`ProfileError::Memory`] if memory runs out. Then nothing changes.
    pub fn keep_marked(&mut self, alloc: Global, marks: &[bool]) -> Result<(), ProfileError>
        ensures tables { self.new.tables ≡ self.old.tables }
        ensures err { OnErr result (self.new ≡ self.old) }
    {
        let sums = self.sums.marked(alloc, marks)?;
        if let Some(samples) = &self.samples {
            self.samples = Some(samples.marked(alloc, marks)?);
        }
        self.sums = sums;
        Ok(())
    }
}
