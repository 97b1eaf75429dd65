//! The units that may describe an address.

use crate::ranges::AddressRange;
use std::alloc::{AllocError, Global};

// A range of the root of a unit.
#[derive(Clone, Copy)]
struct UnitRange {
    start: u64,
    end: u64,
    unit: usize,
    // The greatest end of this range and of those before it.
    greatest_end: u64,
}

// The units with the ranges of their roots.
#[derive(Drop)]
pub(crate) struct Candidates {
    // In the order of the starts.
    ranges: Vec<UnitRange>,
    // Units whose root doesn't say where their code is, in order.
    everywhere: Vec<usize>,
}

// Merges numbers in order into others in order, the greatest first.
fn merge(numbers: &mut Vec<usize>, others: &[usize]) -> Result<(), AllocError> {
    let mut left = numbers.len();
    let mut from = others.len();
    numbers.extend_from_slice(others)?;
    'places: for _ in 0..numbers.len() {
        let Some(other) = last_of(others, from) else {
            break;
        };
        let greatest = match last_of(numbers, left) {
            Some(number) if number > other => {
                left = left.saturating_sub(1);
                number
            }
            _ => {
                from = from.saturating_sub(1);
                other
            }
        };
        if let Some(place) = numbers.get_mut(left.saturating_add(from)) {
            *place = greatest;
        }
    }
    Ok(())
}

// The last of the first `count` numbers.
fn last_of(numbers: &[usize], count: usize) -> Option<usize> {
    numbers.get(count.checked_sub(1)?).copied()
}

impl Candidates {
    // No units.
    pub(crate) fn new(alloc: Global) -> Candidates {
        Candidates {
            ranges: Vec::new(alloc),
            everywhere: Vec::new(alloc),
        }
    }

    // Adds a unit for the addresses of a range.
    pub(crate) fn add_range(
        &mut self,
        unit: usize,
        range: &AddressRange,
    ) -> Result<(), AllocError> {
        self.ranges.push(UnitRange {
            start: range.start,
            end: range.end,
            unit,
            greatest_end: range.end,
        })?;
        Ok(())
    }

    // Adds a unit for all addresses.
    pub(crate) fn add_everywhere(&mut self, unit: usize) -> Result<(), AllocError> {
        self.everywhere.push(unit)?;
        Ok(())
    }

    // Sorts the ranges, after which `find` can be used.
    pub(crate) fn sort(&mut self) -> Result<(), AllocError> {
        self.ranges.sort_by_key(|range| range.start)?;
        let mut greatest: u64 = 0;
        'ranges: for range in self.ranges.iter_mut() {
            greatest = greatest.max(range.end);
            range.greatest_end = greatest;
        }
        Ok(())
    }

    // Sets `units` to the units that may describe an address, in order. A unit may be there twice.
    pub(crate) fn find(&self, address: u64, units: &mut Vec<usize>) -> Result<(), AllocError> {
        units.clear();
        let mut at = self.ranges.partition_point(|range| range.start <= address);
        'starts: while at > 0 {
            at -= 1;
            let Some(range) = self.ranges.get(at) else {
                break;
            };
            if range.greatest_end <= address {
                break;
            }
            if address < range.end {
                units.push(range.unit)?;
            }
        }
        units.sort_unstable();
        merge(units, &self.everywhere)
    }
}
