//! Values by process and address.

ghost use Rattle.std.specs.Prelude.{◌≡◌, ℕ, ℤ, ◌<◌, ◌^◌, ◌&&◌, if◌then◌else◌, None, IfOk, OnOk, OnErr};
ghost use Rattle.std.specs.Option.{option_copied};
ghost use Rattle.std.specs.Ordering.{int_cmp};
ghost use Rattle.std.specs.BTreeMap.{get};
ghost use Rattle.perfdata_spaces.specs.Ranges.{value_of};
ghost use Rattle.perfdata_spaces.specs.steps.Ranges.{covers};
ghost use Rattle.perfdata_spaces.specs.Processes.{is_same};

use crate::ranges::{AddressRange, RangeMap};
use std::alloc::{AllocError, Global};
use std::collections::BTreeMap;

/// The values of the addresses of each process.
#[derive(Drop)]
pub(crate) struct Processes {
    spaces: BTreeMap<i32, RangeMap>,
    alloc: Global,
}

impl Processes {
    ghost use Rattle.perfdata_spaces.specs.Processes.{value_in};
    ghost use Rattle.perfdata_spaces.specs.steps.Processes.{KeepsValues};

    // No address has a value.
    pub(crate) fn new(alloc: Global) -> Processes
        ensures { (pid : ℤ) (address : ℕ) → value_in result pid address ≡ None }
    {
        Processes {
            spaces: BTreeMap::new(alloc),
            alloc,
        }
    }

    // The values of a process that has values.
    fn space(&self, pid: i32) -> Option<&RangeMap>
        ensures { option_copied result ≡ get int_cmp self.now.spaces pid }
    {
        self.spaces.get(&pid)
    }

    // The value of an address of a process.
    pub(crate) fn get(&self, pid: i32, address: u64) -> Option<usize>
        ensures { result ≡ value_in self.now pid address }
    {
        match self.space(pid) {
            Some(space) => space.get(address),
            None => None,
        }
    }

    // The values of a process, but those of a range.
    fn updated_space(
        &self,
        pid: i32,
        range: Option<AddressRange>,
        value: Option<usize>,
    ) -> Result<RangeMap, AllocError>
        ensures { IfOk result (λ space. (address : ℕ) → address < 2 ^ 64 → value_of space address ≡
            (if covers range address then value else value_in self.now pid address)) }
    {
        match self.space(pid) {
            Some(space) => space.updated(self.alloc, range, value),
            None => RangeMap::new().updated(self.alloc, range, value),
        }
    }

    // Sets the values of a range of a process.
    pub(crate) fn set(
        &mut self,
        pid: i32,
        range: Option<AddressRange>,
        value: Option<usize>,
    ) -> Result<(), AllocError>
        ensures ok { OnOk result ((other : ℤ) (address : ℕ) → address < 2 ^ 64 →
            value_in self.new other address ≡ (if is_same pid other && covers range address then value
            else value_in self.old other address)) }
        ensures err { OnErr result (KeepsValues self.old self.new) }
    {
        let space = self.updated_space(pid, range, value)?;
        self.spaces.insert(pid, space)?;
        Ok(())
    }

    // Removes the values of a process.
    pub(crate) fn clear(&mut self, pid: i32)
        ensures { (other : ℤ) (address : ℕ) → value_in self.new other address ≡
            (if is_same pid other then None else value_in self.old other address) }
    {
        let _ = self.spaces.remove(&pid);
    }

    // Gives a process the values of another.
    pub(crate) fn copy(&mut self, pid: i32, source: i32) -> Result<(), AllocError>
        ensures ok { OnOk result ((other : ℤ) (address : ℕ) → value_in self.new other address ≡
            (if is_same pid other then value_in self.old source address
            else value_in self.old other address)) }
        ensures err { OnErr result (KeepsValues self.old self.new) }
    {
        match self.space(source) {
            Some(space) => {
                let space = space.share()?;
                self.spaces.insert(pid, space)?;
                Ok(())
            }
            None => {
                self.clear(pid);
                Ok(())
            }
        }
    }
}
