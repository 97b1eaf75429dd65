//! The names of threads.

ghost use Rattle.std.specs.Prelude.{◌≡◌, ℤ, [], if◌then◌else◌, Some, OnOk, OnErr};
ghost use Rattle.std.specs.Option.{option_map};
ghost use Rattle.perfdata_sources.specs.Raw.{bytes_of};
ghost use Rattle.perfdata_spaces.specs.Effects.{naming_of, NamesThread};
ghost use Rattle.perfdata_spaces.specs.Processes.{is_same};

use crate::mapping::to_vec;
use perfdata_base::raw::RawData;
use perfdata_events::event::EventRecord;
use std::alloc::{AllocError, Global};
use std::collections::BTreeMap;
use std::rc::Rc;

/// The names of threads.
#[derive(Drop)]
pub(crate) struct ThreadNames {
    names: BTreeMap<i32, Rc<Vec<u8>>>,
    alloc: Global,
}

impl ThreadNames {
    ghost use Rattle.perfdata_spaces.specs.ThreadNames.{name_of, FollowsNames, KeepsNames};
    ghost use Rattle.perfdata_spaces.specs.steps.ThreadNames.{ChangesNames};

    // No thread has a name.
    pub(crate) fn new(alloc: Global) -> ThreadNames
        ensures { FollowsNames [] result }
    {
        ThreadNames {
            names: BTreeMap::new(alloc),
            alloc,
        }
    }

    // The name of a thread.
    pub(crate) fn get(&self, tid: i32) -> Option<&[u8]>
        ensures { option_map (λ name. name.now) result ≡ name_of self.now tid }
    {
        match self.names.get(&tid) {
            Some(name) => Some(name.as_slice()),
            None => None,
        }
    }

    // Sets the name of a thread.
    fn set(&mut self, tid: i32, name: RawData<'_>) -> Result<(), AllocError>
        ensures ok { OnOk result ((other : ℤ) → name_of self.new other ≡
            (if is_same tid other then Some (bytes_of name.entry) else name_of self.old other)) }
        ensures err { OnErr result (KeepsNames self.old self.new) }
    {
        let name = to_vec(self.alloc, name)?;
        let name = Rc::new(self.alloc, name)?;
        self.names.insert(tid, name)?;
        Ok(())
    }

    // Gives a thread the name of another, or none if that has none.
    fn copy(&mut self, tid: i32, source: i32) -> Result<(), AllocError>
        ensures ok { OnOk result ((other : ℤ) → name_of self.new other ≡
            (if is_same tid other then name_of self.old source else name_of self.old other)) }
        ensures err { OnErr result (KeepsNames self.old self.new) }
    {
        match self.names.get(&source) {
            Some(name) => {
                let name = name.clone()?;
                self.names.insert(tid, name)?;
                Ok(())
            }
            None => {
                let _ = self.names.remove(&tid);
                Ok(())
            }
        }
    }

    // Applies a record.
    pub(crate) fn apply(&mut self, record: &EventRecord<'_>) -> Result<(), AllocError>
        ensures change { ChangesNames (naming_of «record».now) self.old result self.new }
        ensures memory { OnErr result (NamesThread (naming_of «record».now)) }
    {
        match record {
            EventRecord::Comm(comm) => self.set(comm.tid, comm.name),
            EventRecord::Fork(fork) => self.copy(fork.tid, fork.ptid),
            _ => Ok(()),
        }
    }
}
