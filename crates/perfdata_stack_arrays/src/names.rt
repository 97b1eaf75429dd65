//! Where the names of threads are in the text.
ghost use Rattle.std.specs.Prelude.{◌≡◌, ℤ, [], if◌then◌else◌, Some, OnOk, OnErr};
ghost use Rattle.perfdata_spaces.specs.Effects.{naming_of};
ghost use Rattle.perfdata_spaces.specs.Processes.{is_same};

use perfdata_events::event::EventRecord;
use std::alloc::{AllocError, Global};
use std::collections::BTreeMap;

// A part of the text.
#[derive(Clone, Copy, Debug)]
pub(crate) struct TextRange {
    pub(crate) offset: usize,
    pub(crate) size: usize,
}

/// Where the names of threads are in the text.
#[derive(Drop)]
pub(crate) struct NameRanges {
    ranges: BTreeMap<i32, TextRange>,
}

impl NameRanges {
    ghost use Rattle.perfdata_stack_arrays.specs.steps.Names.{ChangesRanges, FollowsRanges, KeepsRanges};
    ghost use Rattle.perfdata_stack_arrays.specs.steps.Names.{range_of};

    // No thread has a name.
    pub(crate) fn new(alloc: Global) -> NameRanges
        ensures { FollowsRanges [] result }
    {
        NameRanges {
            ranges: BTreeMap::new(alloc),
        }
    }

    // Where the name of a thread is.
    pub(crate) fn get(&self, tid: i32) -> Option<TextRange>
        ensures { result ≡ range_of self.now tid }
    {
        match self.ranges.get(&tid) {
            Some(range) => Some(*range),
            None => None,
        }
    }

    // Sets where the name of a thread is.
    fn set(&mut self, tid: i32, range: TextRange) -> Result<(), AllocError>
        ensures ok { OnOk result ((other : ℤ) → range_of self.new other ≡
            (if is_same tid other then Some range else range_of self.old other)) }
        ensures err { OnErr result (KeepsRanges self.old self.new) }
    {
        self.ranges.insert(tid, range)?;
        Ok(())
    }

    // Gives a thread the name of another, or none if that has none.
    fn copy(&mut self, tid: i32, source: i32) -> Result<(), AllocError>
        ensures ok { OnOk result ((other : ℤ) → range_of self.new other ≡
            (if is_same tid other then range_of self.old source else range_of self.old other)) }
        ensures err { OnErr result (KeepsRanges self.old self.new) }
    {
        match self.get(source) {
            Some(range) => self.set(tid, range),
            None => {
                let _ = self.ranges.remove(&tid);
                Ok(())
            }
        }
    }

    // Applies a record. The name of a COMM record is at `offset` in the text.
    pub(crate) fn apply(
        &mut self,
        record: &EventRecord<'_>,
        offset: usize,
    ) -> Result<(), AllocError>
        ensures { ChangesRanges (naming_of «record».now) offset self.old result self.new }
    {
        match record {
            EventRecord::Comm(comm) => {
                let size = comm.name.len();
                self.set(comm.tid, TextRange { offset, size })
            }
            EventRecord::Fork(fork) => self.copy(fork.tid, fork.ptid),
            _ => Ok(()),
        }
    }
}
