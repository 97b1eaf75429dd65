//! The locations of frames.

ghost use Rattle.std.specs.Prelude.{◌≡◌, [], ℕ, List, Option, OnOk, IfOk};
ghost use Rattle.std.specs.Option.{option_map};
ghost use Rattle.perfdata_profile.specs.Resolving.{frame_value};
ghost use Rattle.perfdata_profile.specs.Samples.{Locates};
ghost use Rattle.perfdata_profile.specs.Caching.{AllCached, cached_in};
ghost use Rattle.perfdata_profile.specs.Values.{IsLocation, lists_in, location_at};
ghost use Rattle.perfdata_spaces.specs.AddressSpaces.{Follows, mapping_at, mapping_values};
ghost use Rattle.perfdata_spaces.specs.Effects.{Applied};
ghost use Rattle.perfdata_spaces.specs.Mappings.{MappingValue};
ghost use Rattle.perfdata_spaces.specs.Mappings.{mapping_value};

use crate::cache::{LocationCache, MappedAddress};
use crate::interned::Interned;
use crate::lines::{Line, LinesId};
use crate::locations::{Location, LocationId};
use crate::mappings::{MappedRange, MappingId};
use crate::options::Detail;
use crate::resolver::{ResolvedFrame, Resolver};
use perfdata_spaces::address_spaces::AddressSpaces;
use perfdata_spaces::mapping::Mapping;
use perfdata_stacks::frames::SampleFrame;
use std::alloc::{AllocError, Global};

/// The process and the time of a sample.
#[derive(Clone, Copy)]
pub(crate) struct Origin {
    pub(crate) pid: i32,
    pub(crate) time: Option<u64>,
}

// Where a frame is, without its functions.
#[derive(Clone, Copy)]
struct LocationKey {
    mapping: Option<MappingId>,
    address: u64,
}

// The functions of a frame, and whether they are those of each frame at the address of the mapping.
#[derive(Clone, Copy)]
struct FrameLines {
    id: LinesId,
    is_fixed: bool,
}

/// The location of a frame, and whether it is that of each frame at the address of the mapping.
#[derive(Clone, Copy)]
pub(crate) struct NewLocation {
    pub(crate) id: LocationId,
    pub(crate) is_fixed: bool,
}

/// Tables, and the locations of addresses that were looked up before.
#[derive(Drop)]
pub(crate) struct Locator {
    pub(crate) detail: Detail,
    pub(crate) tables: Interned,
    pub(crate) cache: LocationCache,
    /// The lines of the frame that was looked up last.
    lines: Vec<Line>,
    ghost cached: { AllCached (λ at id.
        IsLocation (lists_in tables.names tables.mappings tables.lines tables.locations tables.stacks) id)
        cache },
}

// Returns the mapping with an index, if there is an index.
pub(crate) fn indexed_mapping(spaces: &AddressSpaces, index: Option<usize>) -> Option<&Mapping>
    ensures { option_map (λ m. mapping_value m.now) result ≡ mapping_at spaces.now index }
{
    match index {
        Some(index) => spaces.mapping(index),
        None => None,
    }
}

impl Locator {
    ghost use Rattle.perfdata_profile.specs.Locating.{CacheHolds, IsFoundLocation};
    ghost use Rattle.perfdata_profile.specs.steps.Locating.{HasMapping, IsFoundKey};
    ghost use Rattle.perfdata_profile.specs.Locating.{IsNewLocation, LooksUp};
    ghost use Rattle.perfdata_profile.specs.steps.Locating.{AreFoundLines, IsFoundRange, IsTime};
    ghost use Rattle.perfdata_profile.specs.steps.Locating.{LocatorGrows};
    ghost use Rattle.perfdata_profile.specs.Locating.{located_lists};

    // Nothing was looked up.
    pub(crate) fn new(alloc: Global, detail: Detail) -> Locator
        ensures detail { result.detail ≡ detail }
        ensures cache { cached_in result.cache ≡ [] }
    {
        Locator {
            detail,
            tables: Interned::new(alloc),
            cache: LocationCache::new(alloc),
            lines: Vec::new(alloc),
        }
    }

    // Returns the tables.
    pub(crate) fn into_tables(self) -> Interned
        ensures { result ≡ self.tables }
    {
        self.tables
    }

    // Returns the id of a mapping, if its range contains an address.
    fn range<R: Resolver>(
        &mut self,
        resolver: &mut R,
        mapping: &Mapping,
        address: u64,
    ) -> Result<Option<MappingId>, AllocError>
        ensures grows { LocatorGrows self.old self.new }
        ensures cache { self.new.cache ≡ self.old.cache }
        ensures ok { IfOk result (λ id.
            IsFoundRange R.meaning (located_lists self.new) (mapping_value mapping.now) address id) }
    {
        let end = mapping.start.saturating_add(mapping.length);
        if address < mapping.start || end <= address {
            return Ok(None);
        }
        let file = resolver.file(mapping, &mut self.tables.names)?;
        let id = self.tables.mappings.intern(MappedRange {
            start: mapping.start,
            end,
            page_offset: mapping.page_offset,
            path: file.path,
            build_id: file.build_id,
        })?;
        Ok(Some(id))
    }

    // Returns where a frame is.
    fn place<R: Resolver>(
        &mut self,
        resolver: &mut R,
        frame: &ResolvedFrame<'_>,
    ) -> Result<LocationKey, AllocError>
        ensures grows { LocatorGrows self.old self.new }
        ensures cache { self.new.cache ≡ self.old.cache }
        ensures ok { IfOk result (λ place. IsFoundKey R.meaning self.old.detail (located_lists self.new)
            (frame_value frame.now) place) }
    {
        let address = frame.frame.lookup_address();
        match (self.detail, frame.mapping) {
            (Detail::Functions, _) => Ok(LocationKey {
                mapping: None,
                address: 0,
            }),
            (Detail::Locations, None) => Ok(LocationKey {
                mapping: None,
                address,
            }),
            (Detail::Locations, Some(mapping)) => {
                let mapping = self.range(resolver, mapping, address)?;
                Ok(LocationKey { mapping, address })
            }
        }
    }

    // Returns the functions of a frame.
    fn intern_lines<R: Resolver>(
        &mut self,
        resolver: &mut R,
        frame: &ResolvedFrame<'_>,
    ) -> Result<FrameLines, AllocError>
        ensures grows { LocatorGrows self.old self.new }
        ensures cache { self.new.cache ≡ self.old.cache }
        ensures ok { IfOk result (λ lines. AreFoundLines R.meaning (located_lists self.new)
            (frame_value frame.now) lines) }
    {
        let is_fixed = resolver.frame_lines(frame, &mut self.tables.names, &mut self.lines)?;
        let id = self.tables.lines.intern(self.lines.as_slice())?;
        Ok(FrameLines { id, is_fixed })
    }

    // Returns the location of a frame by what the resolver says of it.
    fn new_location<R: Resolver>(
        &mut self,
        resolver: &mut R,
        frame: &ResolvedFrame<'_>,
    ) -> Result<NewLocation, AllocError>
        ensures grows { LocatorGrows self.old self.new }
        ensures cache { self.new.cache ≡ self.old.cache }
        ensures ok { IfOk result (λ new. IsNewLocation R.meaning self.old.detail (located_lists self.new)
            (frame_value frame.now) new) }
    {
        let lines = self.intern_lines(resolver, frame)?;
        let place = self.place(resolver, frame)?;
        let id = self.tables.locations.intern(Location {
            mapping: place.mapping,
            address: place.address,
            lines: lines.id,
        })?;
        Ok(NewLocation {
            id,
            is_fixed: lines.is_fixed,
        })
    }

    // Returns the location of a frame: the cached one, or a new one. That of a frame without a mapping isn't
    // fixed.
    fn resolved_location<R: Resolver>(
        &mut self,
        resolver: &mut R,
        frame: &ResolvedFrame<'_>,
    ) -> Result<NewLocation, AllocError>
        ensures grows { LocatorGrows self.old self.new }
        ensures within { IfOk result (λ new. IsLocation (located_lists self.new) new.id) }
        ensures ok { IfOk result (λ new. (mappings : List MappingValue) →
            HasMapping mappings (frame_value frame.now) →
            CacheHolds R.meaning self.old.detail mappings self.old →
            LooksUp R.meaning self.old.detail mappings (frame_value frame.now) new self.new) }
    {
        let Some(index) = frame.index else {
            let unmapped = self.new_location(resolver, frame)?;
            return Ok(NewLocation {
                id: unmapped.id,
                is_fixed: false,
            });
        };
        let address = frame.frame.lookup_address();
        let at = MappedAddress { index, address };
        if let Some(id) = self.cache.get(at) {
            return Ok(NewLocation { id, is_fixed: true });
        }
        let new = self.new_location(resolver, frame)?;
        if !new.is_fixed {
            return Ok(new);
        }
        self.cache.insert(at, new.id)?;
        Ok(new)
    }

    // Returns the location of a frame of a sample.
    pub(crate) fn location<R: Resolver>(
        &mut self,
        resolver: &mut R,
        spaces: &AddressSpaces,
        origin: Origin,
        frame: SampleFrame,
    ) -> Result<NewLocation, AllocError>
        ensures grows { LocatorGrows self.old self.new }
        ensures cache { OnOk result ((before : List Applied) → Follows before spaces.now →
            CacheHolds R.meaning self.old.detail (mapping_values spaces.now) self.old →
            CacheHolds R.meaning self.old.detail (mapping_values spaces.now) self.new) }
        ensures within { IfOk result (λ new. IsLocation (located_lists self.new) new.id) }
        ensures ok { IfOk result (λ new. (before : List Applied) → Follows before spaces.now →
            CacheHolds R.meaning self.old.detail (mapping_values spaces.now) self.old →
            (time : Option ℕ) → IsTime new.is_fixed origin.time time →
            Locates R.meaning self.old.detail before origin.pid time frame
            (location_at (located_lists self.new) new.id)) }
    {
        let address = frame.lookup_address();
        let index = spaces.find_index(origin.pid, address, frame.frame.context);
        let resolved = ResolvedFrame {
            pid: origin.pid,
            time: origin.time,
            frame,
            index,
            mapping: indexed_mapping(spaces, index),
        };
        self.resolved_location(resolver, &resolved)
    }
}
