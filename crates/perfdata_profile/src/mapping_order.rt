//! The order in which files were mapped.

use crate::mappings::MappedRange;
use perfdata_spaces::mapping::Mapping;
use std::alloc::{AllocError, Global};
use std::collections::HashMap;

// A range of addresses, and the offset of its start in the file.
#[derive(Clone, Copy, PartialEq, Eq, Hash)]
struct MappedPart {
    start: u64,
    end: u64,
    page_offset: u64,
}

/// The order in which files were mapped.
#[derive(Drop)]
pub struct MappingOrder {
    /// The number of each part: how many others were mapped before it.
    numbers: HashMap<MappedPart, usize>,
}

impl MappingOrder {
    /// Returns the order of no files.
    pub fn new(alloc: Global) -> MappingOrder {
        MappingOrder {
            numbers: HashMap::new(alloc),
        }
    }

    /// Adds the mapping of a record.
    ///
    /// Fails if memory runs out.
    pub fn add(&mut self, mapping: &Mapping) -> Result<(), AllocError> {
        let part = MappedPart {
            start: mapping.start,
            end: mapping.start.saturating_add(mapping.length),
            page_offset: mapping.page_offset,
        };
        if self.numbers.get(&part).is_none() {
            let number = self.numbers.len();
            self.numbers.insert(part, number)?;
        }
        Ok(())
    }

    /// Returns how many others were mapped before a range, if it is known.
    pub fn number(&self, range: MappedRange) -> Option<usize> {
        let part = MappedPart {
            start: range.start,
            end: range.end,
            page_offset: range.page_offset,
        };
        self.numbers.get(&part).copied()
    }
}
