//! The locations of addresses that were looked up before.

ghost use Rattle.std.specs.Prelude.{◌≡◌, [], IfSome, OnErr, OnOk};

use crate::locations::LocationId;
use indexmap::IndexMap;
use std::alloc::{AllocError, Global};

/// An address of the mapping with an index.
#[derive(Clone, Copy, PartialEq, Eq, Hash)]
pub(crate) struct MappedAddress {
    pub(crate) index: usize,
    pub(crate) address: u64,
}

/// The ids of locations by mapping and address.
#[derive(Drop)]
pub(crate) struct LocationCache {
    ids: IndexMap<MappedAddress, LocationId>,
}

impl LocationCache {
    ghost use Rattle.perfdata_profile.specs.Caching.{cached_in};
    ghost use Rattle.perfdata_profile.specs.steps.Caching.{AddsCached, IsCachedAt};

    // Nothing is cached.
    pub(crate) fn new(alloc: Global) -> LocationCache
        ensures { cached_in result ≡ [] }
    {
        LocationCache {
            ids: IndexMap::new(alloc),
        }
    }

    // Returns the location of an address.
    pub(crate) fn get(&self, at: MappedAddress) -> Option<LocationId>
        ensures { IfSome result (λ id. IsCachedAt self.now at id) }
    {
        self.ids.get(&at).copied()
    }

    // Sets the location of an address.
    pub(crate) fn insert(&mut self, at: MappedAddress, id: LocationId) -> Result<(), AllocError>
        ensures ok { OnOk result (AddsCached self.old at id self.new) }
        ensures err { OnErr result (cached_in self.new ≡ cached_in self.old) }
    {
        self.ids.insert(at, id)?;
        Ok(())
    }
}
