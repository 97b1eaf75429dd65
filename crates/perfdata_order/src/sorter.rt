//! Values in order of their keys, made available as rounds end.
ghost use Rattle.std.specs.Prelude.{◌≡◌, ◌≤◌, length, take, drop, All, true, false};
ghost use Rattle.std.specs.VecDeque.{deque_len};
ghost use Rattle.std.proofs.Props.{props};
ghost use Rattle.perfdata_order.specs.Slots.{value_at};
ghost use Rattle.perfdata_order.specs.Order.{Ascends, greatest_with, is_within};
ghost use Rattle.perfdata_order.specs.Entries.{IsPlaced, HaveKeys};

use crate::slots::Slots;
use std::alloc::{AllocError, AllocFailed, Global};
use std::collections::VecDeque;

/// Sorts values that are inserted in rounds.
///
/// Once a round ends, the values whose keys are at most the greatest key of the rounds before it are
/// available, in ascending order of their keys. Values with equal keys are returned in the order in which
/// they were inserted.
///
/// Sorting moves keys and no values.
#[derive(Drop)]
pub struct Sorter<K, V> {
    alloc: Global,
    // The keys, each with the slot of its value.
    order: VecDeque<(K, usize)>,
    values: Slots<V>,
    available: usize,
    limit: Option<K>,
    greatest: Option<K>,
    ghost in_range: { available ≤ deque_len order },
    ghost placed: { IsPlaced (value_at values) order.items } by { Prim.hlevel props },
    ghost have_keys: { HaveKeys (value_at values) order.items } by { Prim.hlevel props },
}

impl<K, V> Sorter<K, V> {
    ghost use Rattle.perfdata_order.specs.Sorter.{IsNew, TestsAvailable, TestsEmpty};

    /// Returns a sorter without values, which allocates with `alloc`.
    pub fn new(alloc: Global) -> Sorter<K, V>
        ensures { IsNew result }
    {
        Sorter {
            alloc,
            order: VecDeque::new(alloc),
            values: Slots::new(alloc),
            available: 0,
            limit: None,
            greatest: None,
        }
    }

    /// Returns whether `get_next` returns a value. If so, take it before the next round ends.
    pub fn has_more(&self) -> bool
        ensures { TestsAvailable self.now result }
    {
        self.available > 0
    }

    /// Returns whether the sorter contains no values.
    pub fn is_empty(&self) -> bool
        ensures { TestsEmpty self.now result }
    {
        self.order.len() == 0
    }
}

// The greater of the greatest key so far and one more key.
fn greatest_key<K: Ord + Copy>(greatest: Option<K>, key: K) -> K
    ensures { result ≡ greatest_with K.cmp greatest key }
{
    match greatest {
        Some(greatest) => {
            if greatest.cmp(&key).is_le() {
                key
            } else {
                greatest
            }
        }
        None => key,
    }
}

impl<K: Ord + Copy, V> Sorter<K, V> {
    ghost use Rattle.perfdata_order.specs.Sorter.{limit_of, InsertsEntry, EndsRound};
    ghost use Rattle.perfdata_order.specs.steps.Sorter.{SortsHeld};
    ghost use Rattle.perfdata_order.specs.Sorter.{EndsAllRounds, ReleasesHalf, TakesNext};

    /// Inserts a value into the current round.
    ///
    /// # Errors
    ///
    /// If memory runs out, the error contains the key and the value, and the sorter is unchanged.
    #[inline(always)]
    pub fn insert_unordered(&mut self, key: K, value: V) -> Result<(), AllocFailed<(K, V)>>
        ensures { InsertsEntry K.cmp self.old key value result self.new }
    {
        let slot = match self.values.vacant(self.order.len()) {
            Ok(slot) => slot,
            Err(_) => {
                return Err(AllocFailed {
                    value: (key, value),
                });
            }
        };
        match self.order.push_back((key, slot)) {
            Ok(()) => {}
            Err(_) => return Err(AllocFailed {
                value: (key, value),
            }),
        }
        self.values.put(slot, value);
        self.greatest = Some(greatest_key(self.greatest, key));
        Ok(())
    }

    // Sorts all values by their keys. Equal keys keep their order.
    fn sort_held(&mut self) -> Result<(), AllocError>
        ensures { SortsHeld K.cmp self.old result self.new }
    {
        let alloc = self.alloc;
        let order = self.order.make_contiguous();
        match order.sort_by_key(alloc, |entry| entry.0) {
            Ok(()) => Ok(()),
            Err(error) => Err(error),
        }
    }

    // The number of values, from the first, whose keys are at most the limit.
    fn count_within_limit(&self) -> usize
        requires { Ascends K.cmp self.now.order.items }
        ensures in_range { result ≤ deque_len self.now.order }
        ensures within { All (λ e. is_within K.cmp (limit_of self.now) e ≡ true)
            (take result self.now.order.items) }
        ensures beyond { All (λ e. is_within K.cmp (limit_of self.now) e ≡ false)
            (drop result self.now.order.items) }
    {
        match self.limit {
            Some(limit) => self
                .order
                .partition_point(|entry| entry.0.cmp(&limit).is_le()),
            None => 0,
        }
    }

    /// Ends the current round: the values whose keys are at most the greatest key of the rounds before it are
    /// available.
    ///
    /// All values that the sorter contains are sorted, so take the available ones before the next round ends.
    ///
    /// # Errors
    ///
    /// If memory runs out, the sorter is unchanged, and the call can be repeated.
    pub fn finish_round(&mut self) -> Result<(), AllocError>
        ensures { EndsRound K.cmp self.old result self.new }
    {
        self.sort_held()?;
        self.available = self.count_within_limit();
        self.limit = self.greatest;
        Ok(())
    }

    /// Ends all rounds: all values are available.
    ///
    /// # Errors
    ///
    /// If memory runs out, the sorter is unchanged, and the call can be repeated.
    pub fn finish(&mut self) -> Result<(), AllocError>
        ensures { EndsAllRounds K.cmp self.old result self.new }
    {
        self.sort_held()?;
        self.available = self.order.len();
        self.limit = self.greatest;
        Ok(())
    }

    /// Makes the first half of the values available, in ascending order of their keys, though their rounds
    /// haven't ended. Of an odd number of values, the half has one more than the rest.
    ///
    /// This limits how many values are held while a round is long. A value that is inserted later may have a
    /// smaller key than those.
    ///
    /// # Errors
    ///
    /// If memory runs out, the sorter is unchanged, and the call can be repeated.
    pub fn release_half(&mut self) -> Result<(), AllocError>
        ensures { ReleasesHalf K.cmp self.old result self.new }
    {
        self.sort_held()?;
        self.available = self.order.len().div_ceil(2);
        Ok(())
    }

    /// Removes and returns the next available value.
    pub fn get_next(&mut self) -> Option<V>
        ensures { TakesNext self.old result self.new }
    {
        if self.available == 0 {
            return None;
        }
        let (_key, slot) = self.order.pop_front()?;
        self.available -= 1;
        self.values.take(slot)
    }
}
