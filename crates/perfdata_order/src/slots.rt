//! Values in numbered slots.
ghost use Rattle.std.specs.Prelude.{◌≡◌, ◌<◌, ◌≤◌, None, Some, [], length, slice_set};

use std::alloc::{AllocError, Global};
use std::mem::replace;

// Values in slots. A slot is added if more than three quarters of them are used, so the next vacant one is
// found after few others, and consecutive values are in consecutive slots.
#[derive(Drop)]
pub(crate) struct Slots<V> {
    values: Vec<Option<V>>,
    // The slot after the last one that was filled.
    next: usize,
}

impl<V> Slots<V> {
    ghost use Rattle.perfdata_order.specs.Slots.{value_at, slots_of};
    ghost use Rattle.perfdata_order.specs.steps.Slots.{FindsVacant, FindsVacantIn};
    ghost use Rattle.perfdata_order.specs.steps.Slots.{FindsAnyVacant};

    pub(crate) fn new(alloc: Global) -> Slots<V>
        ensures { slots_of result ≡ [] }
    {
        Slots {
            values: Vec::new(alloc),
            next: 0,
        }
    }

    // The first vacant slot from `start` to before `end`.
    fn find_slot(&self, start: usize, end: usize) -> Option<usize>
        requires { end ≤ length (slots_of self.now) }
        ensures { FindsVacantIn self.now start end result }
    {
        'slots: for slot in start..end {
            match self.values.get(slot) {
                Some(None) => return Some(slot),
                _ => {}
            }
        }
        None
    }

    // The first vacant slot from the next one on, or else before it.
    fn search(&self) -> Option<usize>
        ensures { FindsAnyVacant self.now result }
    {
        let len = self.values.len();
        let next = self.next.min(len);
        match self.find_slot(next, len) {
            Some(slot) => Some(slot),
            None => self.find_slot(0, next),
        }
    }

    // Returns a vacant slot. If `used` slots are more than three quarters of all, or none is vacant, it is a
    // new one.
    pub(crate) fn vacant(&mut self, used: usize) -> Result<usize, AllocError>
        ensures { FindsVacant self.old used result self.new }
    {
        let len = self.values.len();
        if used <= len - len / 4 {
            match self.search() {
                Some(slot) => return Ok(slot),
                None => {}
            }
        }
        self.values.reserve(1)?;
        self.values.push_reserved(None);
        Ok(len)
    }

    // Fills a vacant slot.
    pub(crate) fn put(&mut self, slot: usize, value: V)
        requires in_range { slot < length (slots_of self.old) }
        requires vacant { value_at self.old slot ≡ None }
        ensures { slots_of self.new ≡ slice_set (slots_of self.old) slot (Some value) }
    {
        match replace(&mut self.values[slot], Some(value)) {
            None => {}
            Some(_) => unreachable!(),
        }
        self.next = slot.saturating_add(1);
    }

    // Returns the value in the slot, which is then vacant.
    pub(crate) fn take(&mut self, slot: usize) -> Option<V>
        ensures value { result ≡ value_at self.old slot }
        ensures vacates { slots_of self.new ≡ slice_set (slots_of self.old) slot None }
    {
        if slot < self.values.len() {
            replace(&mut self.values[slot], None)
        } else {
            None
        }
    }
}
