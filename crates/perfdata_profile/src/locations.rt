//! The locations of a profile, each stored once.

ghost use Rattle.std.specs.Prelude.{◌≡◌, [], length, slice_get, IfOk, OnErr};
ghost use Rattle.perfdata_profile.specs.Interning.{Interns, IsOnce};

use crate::lines::LinesId;
use crate::mappings::MappingId;
use indexmap::IndexSet;
use std::alloc::{AllocError, Global};

/// The number of a location in [`Locations`].
#[derive(Clone, Copy, Debug, PartialEq, Eq, Hash)]
pub struct LocationId(usize);

/// Where a frame is.
#[derive(Clone, Copy, Debug, PartialEq, Eq, Hash)]
pub struct Location {
    /// The mapping that contains the address. With [`Detail::Functions`](crate::options::Detail) it is
    /// `None`.
    pub mapping: Option<MappingId>,
    /// The address at which the frame is looked up: that of an instruction, or a return address less one.
    /// With [`Detail::Functions`](crate::options::Detail) it is 0.
    pub address: u64,
    /// The functions at the address: that of the frame is the last one, and the others are inlined into the
    /// next one.
    pub lines: LinesId,
}

/// Locations, each once. Their ids count from 0 in the order in which they were interned.
#[derive(Drop)]
pub struct Locations {
    locations: IndexSet<Location>,
    ghost once: { IsOnce locations.keys },
}

impl LocationId {
    ghost use Rattle.perfdata_profile.specs.Interned.{location_number};

    /// Returns the number: how many locations were interned before.
    pub fn number(self) -> usize
        ensures { result ≡ location_number self }
    {
        self.0
    }
}

impl Locations {
    ghost use Rattle.perfdata_profile.specs.Interned.{locations_of, location_number};

    /// Creates a table without locations.
    pub fn new(alloc: Global) -> Locations
        ensures none { locations_of result ≡ [] }
    {
        Locations {
            locations: IndexSet::new(alloc),
        }
    }

    /// Returns the id of a location, which is added if it is new. Ids of other locations stay.
    ///
    /// Fails if memory runs out. Then no location is added.
    pub fn intern(&mut self, location: Location) -> Result<LocationId, AllocError>
        ensures ok { IfOk result (λ id.
            Interns (locations_of self.old) location (location_number id) (locations_of self.new)) }
        ensures err { OnErr result (locations_of self.new ≡ locations_of self.old) }
    {
        let (number, _is_new) = self.locations.insert_full(location)?;
        Ok(LocationId(number))
    }

    /// Returns a location by its id, or `None` if no location has it.
    pub fn get(&self, id: LocationId) -> Option<Location>
        ensures { result ≡ slice_get (locations_of self.now) (location_number id) }
    {
        self.locations.get_index(id.0).copied()
    }

    /// Returns the number of locations.
    pub fn len(&self) -> usize
        ensures { result ≡ length (locations_of self.now) }
    {
        self.locations.len()
    }
}
