//! The mappings of a profile, each stored once.

ghost use Rattle.std.specs.Prelude.{◌≡◌, [], length, slice_get, IfOk, OnErr};
ghost use Rattle.perfdata_profile.specs.Interning.{Interns, IsOnce};

use crate::names::NameId;
use indexmap::IndexSet;
use std::alloc::{AllocError, Global};

/// The number of a mapping in [`Mappings`].
#[derive(Clone, Copy, Debug, PartialEq, Eq, Hash)]
pub struct MappingId(usize);

/// A range of addresses to which a part of a file is mapped.
#[derive(Clone, Copy, Debug, PartialEq, Eq, Hash)]
pub struct MappedRange {
    /// The start address.
    pub start: u64,
    /// The address after the last one, at most 2^64 - 1.
    pub end: u64,
    /// The offset of the start in the file, in bytes.
    pub page_offset: u64,
    /// The path of the file.
    pub path: NameId,
    /// The build id of the file, which is empty if it isn't known.
    pub build_id: NameId,
}

/// Mappings, each once. Their ids count from 0 in the order in which they were interned.
#[derive(Drop)]
pub struct Mappings {
    ranges: IndexSet<MappedRange>,
    ghost once: { IsOnce ranges.keys },
}

impl MappingId {
    ghost use Rattle.perfdata_profile.specs.Interned.{mapping_number};

    /// Returns the number: how many mappings were interned before.
    pub fn number(self) -> usize
        ensures { result ≡ mapping_number self }
    {
        self.0
    }
}

impl Mappings {
    ghost use Rattle.perfdata_profile.specs.Interned.{ranges_of, mapping_number};

    /// Creates a table without mappings.
    pub fn new(alloc: Global) -> Mappings
        ensures none { ranges_of result ≡ [] }
    {
        Mappings {
            ranges: IndexSet::new(alloc),
        }
    }

    /// Returns the id of a mapping, which is added if it is new. Ids of other mappings stay.
    ///
    /// Fails if memory runs out. Then no mapping is added.
    pub fn intern(&mut self, range: MappedRange) -> Result<MappingId, AllocError>
        ensures ok { IfOk result (λ id.
            Interns (ranges_of self.old) range (mapping_number id) (ranges_of self.new)) }
        ensures err { OnErr result (ranges_of self.new ≡ ranges_of self.old) }
    {
        let (number, _is_new) = self.ranges.insert_full(range)?;
        Ok(MappingId(number))
    }

    /// Returns a mapping by its id, or `None` if no mapping has it.
    pub fn get(&self, id: MappingId) -> Option<MappedRange>
        ensures { result ≡ slice_get (ranges_of self.now) (mapping_number id) }
    {
        self.ranges.get_index(id.0).copied()
    }

    /// Returns the number of mappings.
    pub fn len(&self) -> usize
        ensures { result ≡ length (ranges_of self.now) }
    {
        self.ranges.len()
    }
}
