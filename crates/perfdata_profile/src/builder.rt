//! Counts the samples of a recording.

ghost use Rattle.std.specs.Prelude.{◌≡◌, [], ◌∷◌, ◌++◌, ℕ, true, List, Option, Some};
ghost use Rattle.std.specs.Prelude.{OnErr, OnOk, IfOk, IfSome};
ghost use Rattle.perfdata_profile.specs.Chains.{ChainsHold, IsStackOf};
ghost use Rattle.perfdata_profile.specs.Samples.{sample_task};
ghost use Rattle.perfdata_profile.specs.Values.{AreLocations, IsKey, IsName};
ghost use Rattle.perfdata_profile.specs.Building.{HasKey, has_list};
ghost use Rattle.perfdata_profile.specs.steps.Building.{HasStack, HasThread};
ghost use Rattle.perfdata_profile.specs.Locating.{CacheHolds, located_lists};
ghost use Rattle.perfdata_profile.specs.steps.Locating.{IsTime, LocatorGrows};
ghost use Rattle.perfdata_profile.specs.SampleLists.{ListsCounted, ListsIfSome, listed_in};
ghost use Rattle.perfdata_profile.specs.Selecting.{AddsSelected, FiltersWeight, IsOrigin, Selects};
ghost use Rattle.perfdata_profile.specs.SampleSums.{KeepsSums, TalliesSamples, entries_of, then_counted};
ghost use Rattle.perfdata_profile.specs.Tallies.{Counted};
ghost use Rattle.perfdata_profile.specs.declared.sums.SampleKey.{SampleKey};
ghost use Rattle.perfdata_profile.specs.declared.sums.Sums.{Sums};
ghost use Rattle.perfdata_spaces.specs.AddressSpaces.{Follows, mapping_values};
ghost use Rattle.perfdata_spaces.specs.Effects.{Applied};

use crate::chain_cache::ChainCache;
use crate::error::ProfileError;
use crate::interned::Interned;
use crate::locating::{Locator, Origin, indexed_mapping};
use crate::locations::LocationId;
use crate::options::{ProfileOptions, ThreadIds};
use crate::profile::Profile;
use crate::resolver::Resolver;
use crate::sample_list::{ListedSample, SampleList};
use crate::stacks::StackId;
use crate::sums::{SampleKey, SampleSums, SampleWeight, Thread};
use perfdata_events::event::EventRecord;
use perfdata_events::sample::SampleRecord;
use perfdata_events::sample_id::Task;
use perfdata_selection::filter::{SampleFilter, SampleOrigin};
use perfdata_spaces::address_spaces::AddressSpaces;
use perfdata_stacks::frames::SampleFrame;
use std::alloc::{AllocError, Global};

/// Counts the samples among the records of a recording, which it is given in order of time.
#[derive(Drop)]
pub struct ProfileBuilder<R> {
    /// What says which frames samples have, and their names. What no record of an event says can be added to
    /// it between two calls.
    pub resolver: R,
    thread_ids: ThreadIds,
    spaces: AddressSpaces,
    locator: Locator,
    sums: SampleSums,
    samples: Option<SampleList>,
    chains: ChainCache,
    frames: Vec<SampleFrame>,
    stack: Vec<LocationId>,
    last: Option<StackId>,
}

// The stack of some frames, and whether it is that of these frames of the process at each time.
#[derive(Clone, Copy)]
struct NewStack {
    id: StackId,
    is_fixed: bool,
}

// Returns the process and the thread of a sample. They are -1 for samples without.
fn sample_task(sample: &SampleRecord<'_>) -> Task
    ensures { result ≡ sample_task sample.now }
{
    sample.task.unwrap_or(Task { pid: -1, tid: -1 })
}

// Returns whether two things are so.
fn are_both(first: bool, second: bool) -> bool
    ensures { result ≡ true → (first ≡ true) × (second ≡ true) }
{
    first && second
}

// Sets a stack to the ids of the locations of frames, that of the leaf first. Returns whether they are those
// of these frames of the process at each time.
fn set_stack<R: Resolver>(
    resolver: &mut R,
    spaces: &AddressSpaces,
    locator: &mut Locator,
    origin: Origin,
    frames: &[SampleFrame],
    stack: &mut Vec<LocationId>,
) -> Result<bool, AllocError>
    ensures grows { LocatorGrows locator.old locator.new }
    ensures cache { OnOk result ((before : List Applied) → Follows before spaces.now →
        CacheHolds R.meaning locator.old.detail (mapping_values spaces.now) locator.old →
        CacheHolds R.meaning locator.old.detail (mapping_values spaces.now) locator.new) }
    ensures within { OnOk result (AreLocations (located_lists locator.new) stack.new.items) }
    ensures ok { IfOk result (λ is_fixed. (before : List Applied) → Follows before spaces.now →
        CacheHolds R.meaning locator.old.detail (mapping_values spaces.now) locator.old →
        (time : Option ℕ) → IsTime is_fixed origin.time time →
        HasStack R.meaning (located_lists locator.new) locator.old.detail before origin.pid time
        frames.now stack.new.items) }
{
    stack.clear();
    let mut is_fixed = true;
    'frames: for frame in frames {
        let location = locator.location(resolver, spaces, origin, *frame)?;
        stack.push(location.id)?;
        is_fixed = are_both(is_fixed, location.is_fixed);
    }
    Ok(is_fixed)
}

// Returns the thread of a sample.
fn sample_thread<R: Resolver>(
    resolver: &mut R,
    spaces: &AddressSpaces,
    locator: &mut Locator,
    thread_ids: ThreadIds,
    task: Task,
) -> Result<Thread, AllocError>
    ensures grows { LocatorGrows locator.old locator.new }
    ensures cache { locator.new.cache ≡ locator.old.cache }
    ensures ok { IfOk result (λ thread. (before : List Applied) → Follows before spaces.now →
        HasThread R.meaning (located_lists locator.new) thread_ids before task thread) }
{
    let name = resolver.thread(task, spaces.comm(task.tid), &mut locator.tables.names)?;
    Ok(Thread {
        name,
        pid: thread_ids.pid(task),
        tid: thread_ids.tid(task),
    })
}

// Returns a list without samples, if samples are listed.
fn new_list(alloc: Global, times: bool) -> Option<SampleList>
    ensures has { has_list result ≡ times }
    ensures list { (entries : List (SampleKey × Sums)) → ListsIfSome [] [] entries result }
{
    if times {
        Some(SampleList::new(alloc))
    } else {
        None
    }
}

// Counts a sample with a key, and lists it.
fn count_listed(
    sums: &mut SampleSums,
    samples: &mut SampleList,
    key: SampleKey,
    time: Option<u64>,
    weight: u64,
) -> Result<(), ProfileError>
    ensures ok { OnOk result ((counted : List (Counted SampleKey)) → TalliesSamples counted sums.old →
        TalliesSamples (then_counted counted key weight) sums.new) }
    ensures list { OnOk result ((times : List (Option ℕ)) (counted : List (Counted SampleKey)) →
        ListsCounted times counted (entries_of sums.old) samples.old →
        ListsCounted (times ++ time ∷ []) (then_counted counted key weight) (entries_of sums.new)
        samples.new) }
    ensures err { OnErr result (KeepsSums sums.old sums.new) }
    ensures same { OnErr result (listed_in samples.new ≡ listed_in samples.old) }
{
    let entry = sums.entry_index(&key);
    samples.push(ListedSample {
        time,
        entry,
        weight,
    })?;
    match sums.add(key, weight) {
        Ok(()) => Ok(()),
        Err(error) => {
            samples.remove_last();
            Err(error)
        }
    }
}

impl<R: Resolver> ProfileBuilder<R> {
    ghost use Rattle.perfdata_events.specs.declared.event.EventRecord.TheVariants.{Sample};
    ghost use Rattle.perfdata_profile.specs.Building.{Builds, IsProfileOf, options_of};
    ghost use Rattle.perfdata_profile.specs.SampleLists.{ListsSamples};
    ghost use Rattle.perfdata_profile.specs.Samples.{Given, applied_as, applied_in};
    ghost use Rattle.perfdata_profile.specs.declared.options.ProfileOptions.{ProfileOptions};
    ghost use Rattle.perfdata_profile.specs.declared.sums.SampleWeight.{SampleWeight};

    /// Creates a builder that has counted nothing.
    pub fn new(alloc: Global, resolver: R, options: ProfileOptions) -> ProfileBuilder<R>
        ensures { Builds R.meaning options [] result }
    {
        ProfileBuilder {
            resolver,
            thread_ids: options.thread_ids,
            spaces: AddressSpaces::new(alloc),
            locator: Locator::new(alloc, options.detail),
            sums: SampleSums::new(alloc),
            samples: new_list(alloc, options.times),
            chains: ChainCache::new(alloc),
            frames: Vec::new(alloc),
            stack: Vec::new(alloc),
            last: None,
        }
    }

    // Returns a new stack of the frames.
    fn new_stack(&mut self, origin: Origin) -> Result<NewStack, AllocError>
        ensures options { options_of self.new ≡ options_of self.old }
        ensures spaces { self.new.spaces ≡ self.old.spaces }
        ensures sums { self.new.sums ≡ self.old.sums }
        ensures samples { self.new.samples ≡ self.old.samples }
        ensures frames { self.new.frames ≡ self.old.frames }
        ensures chains { self.new.chains ≡ self.old.chains }
        ensures grows { LocatorGrows self.old.locator self.new.locator }
        ensures cache { OnOk result ((before : List Applied) → Follows before self.old.spaces →
            CacheHolds R.meaning self.old.locator.detail (mapping_values self.old.spaces) self.old.locator →
            CacheHolds R.meaning self.old.locator.detail (mapping_values self.old.spaces) self.new.locator) }
        ensures ok { IfOk result (λ new. (before : List Applied) → Follows before self.old.spaces →
            CacheHolds R.meaning self.old.locator.detail (mapping_values self.old.spaces) self.old.locator →
            (time : Option ℕ) → IsTime new.is_fixed origin.time time →
            IsStackOf R.meaning self.old.locator.detail (located_lists self.new.locator) before origin.pid
            time self.old.frames.items new.id) }
    {
        let is_fixed = set_stack(
            &mut self.resolver,
            &self.spaces,
            &mut self.locator,
            origin,
            self.frames.as_slice(),
            &mut self.stack,
        )?;
        let id = self.locator.tables.stacks.intern(self.stack.as_slice())?;
        Ok(NewStack { id, is_fixed })
    }

    // Returns the stack of the frames: the one that is kept, or a new one.
    fn stack_id(&mut self, origin: Origin) -> Result<StackId, AllocError>
        ensures options { options_of self.new ≡ options_of self.old }
        ensures spaces { self.new.spaces ≡ self.old.spaces }
        ensures sums { self.new.sums ≡ self.old.sums }
        ensures samples { self.new.samples ≡ self.old.samples }
        ensures frames { self.new.frames ≡ self.old.frames }
        ensures grows { LocatorGrows self.old.locator self.new.locator }
        ensures cache { OnOk result ((before : List Applied) → Follows before self.old.spaces →
            CacheHolds R.meaning self.old.locator.detail (mapping_values self.old.spaces) self.old.locator →
            CacheHolds R.meaning self.old.locator.detail (mapping_values self.old.spaces) self.new.locator) }
        ensures chains { OnOk result ((before : List Applied) → Follows before self.old.spaces →
            CacheHolds R.meaning self.old.locator.detail (mapping_values self.old.spaces) self.old.locator →
            ChainsHold R.meaning self.old.locator.detail (located_lists self.old.locator) before
            self.old.chains →
            ChainsHold R.meaning self.old.locator.detail (located_lists self.new.locator) before
            self.new.chains) }
        ensures ok { IfOk result (λ id. (before : List Applied) → Follows before self.old.spaces →
            CacheHolds R.meaning self.old.locator.detail (mapping_values self.old.spaces) self.old.locator →
            ChainsHold R.meaning self.old.locator.detail (located_lists self.old.locator) before
            self.old.chains →
            IsStackOf R.meaning self.old.locator.detail (located_lists self.new.locator) before origin.pid
            origin.time self.old.frames.items id) }
    {
        if let Some(id) = self.chains.find(origin.pid, self.frames.as_slice()) {
            return Ok(id);
        }
        let new = self.new_stack(origin)?;
        if !new.is_fixed {
            return Ok(new.id);
        }
        self.chains
            .insert(origin.pid, self.frames.as_slice(), new.id)?;
        Ok(new.id)
    }

    // Returns the key of a sample of an event with a column.
    fn key(
        &mut self,
        misc: u16,
        sample: &SampleRecord<'_>,
        column: usize,
    ) -> Result<SampleKey, AllocError>
        ensures options { options_of self.new ≡ options_of self.old }
        ensures spaces { self.new.spaces ≡ self.old.spaces }
        ensures sums { self.new.sums ≡ self.old.sums }
        ensures samples { self.new.samples ≡ self.old.samples }
        ensures grows { LocatorGrows self.old.locator self.new.locator }
        ensures cache { OnOk result ((before : List Applied) → Follows before self.old.spaces →
            CacheHolds R.meaning self.old.locator.detail (mapping_values self.old.spaces) self.old.locator →
            CacheHolds R.meaning self.old.locator.detail (mapping_values self.old.spaces) self.new.locator) }
        ensures chains { OnOk result ((before : List Applied) → Follows before self.old.spaces →
            CacheHolds R.meaning self.old.locator.detail (mapping_values self.old.spaces) self.old.locator →
            ChainsHold R.meaning self.old.locator.detail (located_lists self.old.locator) before
            self.old.chains →
            ChainsHold R.meaning self.old.locator.detail (located_lists self.new.locator) before
            self.new.chains) }
        ensures ok { IfOk result (λ key. (before : List Applied) → Follows before self.old.spaces →
            CacheHolds R.meaning self.old.locator.detail (mapping_values self.old.spaces) self.old.locator →
            ChainsHold R.meaning self.old.locator.detail (located_lists self.old.locator) before
            self.old.chains →
            HasKey R.meaning (located_lists self.new.locator) (options_of self.old) before misc sample.now
            column key) }
    {
        let task = sample_task(sample);
        let origin = Origin {
            pid: task.pid,
            time: sample.timestamp,
        };
        self.resolver
            .frames(&self.spaces, misc, sample, &mut self.frames)?;
        let stack = self.stack_id(origin)?;
        let thread = sample_thread(
            &mut self.resolver,
            &self.spaces,
            &mut self.locator,
            self.thread_ids,
            task,
        )?;
        self.last = Some(stack);
        Ok(SampleKey {
            thread,
            stack,
            column,
        })
    }

    // Counts a sample with a key, and lists it if samples are listed.
    fn count_key(
        &mut self,
        key: SampleKey,
        time: Option<u64>,
        weight: u64,
    ) -> Result<(), ProfileError>
        ensures options { options_of self.new ≡ options_of self.old }
        ensures spaces { self.new.spaces ≡ self.old.spaces }
        ensures locator { self.new.locator ≡ self.old.locator }
        ensures chains { self.new.chains ≡ self.old.chains }
        ensures ok { OnOk result ((counted : List (Counted SampleKey)) →
            TalliesSamples counted self.old.sums →
            TalliesSamples (then_counted counted key weight) self.new.sums) }
        ensures list { OnOk result ((times : List (Option ℕ)) (counted : List (Counted SampleKey)) →
            ListsIfSome times counted (entries_of self.old.sums) self.old.samples →
            ListsIfSome (times ++ time ∷ []) (then_counted counted key weight) (entries_of self.new.sums)
            self.new.samples) }
        ensures err { OnErr result (KeepsSums self.old.sums self.new.sums) }
    {
        let Some(samples) = &mut self.samples else {
            return self.sums.add(key, weight);
        };
        count_listed(&mut self.sums, samples, key, time, weight)
    }

    // Counts a sample.
    fn count(
        &mut self,
        misc: u16,
        sample: &SampleRecord<'_>,
        weight: SampleWeight,
    ) -> Result<(), ProfileError>
        ensures ok { OnOk result ((options : ProfileOptions) (given : List Given) →
            Builds R.meaning options given self.old → Builds R.meaning options (given ++ record {
              misc = misc;
              event = Sample sample.now;
              weight = Some weight;
            } ∷ []) self.new) }
        ensures err { OnErr result (KeepsSums self.old.sums self.new.sums) }
    {
        match self.key(misc, sample, weight.column) {
            Ok(key) => self.count_key(key, sample.timestamp, weight.weight),
            Err(AllocError) => Err(ProfileError::Memory),
        }
    }

    // Applies a record that isn't a sample.
    fn apply(&mut self, misc: u16, event: &EventRecord<'_>) -> Result<(), AllocError>
        requires { applied_as misc event.now ≡ record { misc = misc; event = event.now } ∷ [] }
        ensures ok { OnOk result ((options : ProfileOptions) (given : List Given)
            (weight : Option SampleWeight) → Builds R.meaning options given self.old →
            Builds R.meaning options (given ++ record {
              misc = misc;
              event = event.now;
              weight = weight;
            } ∷ []) self.new) }
        ensures err { OnErr result (KeepsSums self.old.sums self.new.sums) }
    {
        self.chains.clear();
        let index = self.spaces.apply(misc, event)?;
        self.resolver
            .record_applied(misc, event, indexed_mapping(&self.spaces, index))
    }

    /// Counts a sample with its weight, if it is selected, or applies another record. `misc` is that of the
    /// record's header. `weight` is `None` for a sample that isn't selected.
    ///
    /// Fails with [`ProfileError::Overflow`] if the number of all samples or the sum of all weights exceeds
    /// 2^63 - 1, and with [`ProfileError::Memory`] if memory runs out. Then nothing is counted.
    pub fn add_record(
        &mut self,
        misc: u16,
        event: &EventRecord<'_>,
        weight: Option<SampleWeight>,
    ) -> Result<(), ProfileError>
        ensures ok { OnOk result ((options : ProfileOptions) (given : List Given) →
            Builds R.meaning options given self.old → Builds R.meaning options (given ++ record {
              misc = misc;
              event = event.now;
              weight = weight;
            } ∷ []) self.new) }
        ensures err { OnErr result (KeepsSums self.old.sums self.new.sums) }
    {
        match (event, weight) {
            (EventRecord::Sample(sample), Some(weight)) => self.count(misc, sample, weight),
            (EventRecord::Sample(_), None) => Ok(()),
            _ => match self.apply(misc, event) {
                Ok(()) => Ok(()),
                Err(AllocError) => Err(ProfileError::Memory),
            },
        }
    }

    // Returns what a filter compares of a sample.
    fn origin<'a>(&'a self, sample: &SampleRecord<'_>) -> SampleOrigin<'a>
        ensures { (before : List Applied) → Follows before self.now.spaces →
            IsOrigin before sample.now result }
    {
        let task = sample_task(sample);
        SampleOrigin {
            comm: self.spaces.comm(task.tid),
            pid: task.pid,
            tid: task.tid,
            cpu: sample.cpu,
            time: sample.timestamp,
        }
    }

    // Returns whether a filter selects a sample.
    fn selects(&self, filter: &SampleFilter<'_>, sample: &SampleRecord<'_>) -> bool
        ensures { (before : List Applied) → Follows before self.now.spaces →
            Selects before filter.now sample.now result }
    {
        filter.selects(&self.origin(sample))
    }

    // Returns the weight of a record: that of a sample that isn't selected is `None`.
    fn selected_weight(
        &self,
        filter: &SampleFilter<'_>,
        event: &EventRecord<'_>,
        weight: Option<SampleWeight>,
    ) -> Option<SampleWeight>
        ensures { (before : List Applied) → Follows before self.now.spaces →
            FiltersWeight before filter.now event.now weight result }
    {
        match event {
            EventRecord::Sample(sample) => {
                if self.selects(filter, sample) {
                    weight
                } else {
                    None
                }
            }
            _ => weight,
        }
    }

    /// Counts a sample with its weight, if it has one and a filter selects it, or applies another record.
    /// Returns whether a sample was counted. `misc` is that of the record's header. All records are added
    /// with the same filter.
    ///
    /// Fails with [`ProfileError::Overflow`] if the number of all samples or the sum of all weights exceeds
    /// 2^63 - 1, and with [`ProfileError::Memory`] if memory runs out. Then nothing is counted.
    pub fn add_selected(
        &mut self,
        filter: &SampleFilter<'_>,
        misc: u16,
        event: &EventRecord<'_>,
        weight: Option<SampleWeight>,
    ) -> Result<bool, ProfileError>
        ensures ok { IfOk result (λ counted. (options : ProfileOptions) (given : List Given) →
            Builds R.meaning options given self.old →
            AddsSelected R.meaning options given filter.now misc event.now weight counted self.new) }
        ensures err { OnErr result (KeepsSums self.old.sums self.new.sums) }
    {
        let selected = self.selected_weight(filter, event, weight);
        self.add_record(misc, event, selected)?;
        Ok(selected.is_some())
    }

    /// Returns what the records so far map, and the names of threads.
    pub fn spaces(&self) -> &AddressSpaces
        ensures { (options : ProfileOptions) (given : List Given) → Builds R.meaning options given self.now →
            Follows (applied_in given) result.now }
    {
        &self.spaces
    }

    /// Returns the stack of the sample that was counted last, the leaf's location first.
    pub fn last_stack(&self) -> &[LocationId] {
        match self.last {
            Some(id) => self.locator.tables.stacks.get(id).unwrap_or(&[]),
            None => &[],
        }
    }

    /// Returns what the ids so far stand for.
    pub fn tables(&self) -> &Interned {
        &self.locator.tables
    }

    /// Returns the profile of the samples that were counted, and the resolver.
    pub fn finish(self) -> (Profile, R)
        ensures profile { (options : ProfileOptions) (given : List Given) →
            Builds R.meaning options given self → IsProfileOf R.meaning options given result.0 }
        ensures list { (options : ProfileOptions) (given : List Given) →
            Builds R.meaning options given self →
            IfSome result.0.samples (λ list. ListsSamples R.meaning options given result.0 list) }
        ensures times { (options : ProfileOptions) (given : List Given) →
            Builds R.meaning options given self → has_list result.0.samples ≡ options.times }
        ensures resolver { result.1 ≡ self.resolver }
    {
        let ProfileBuilder {
            resolver,
            locator,
            sums,
            samples,
            ..
        } = self;
        let tables = locator.into_tables();
        let profile = Profile {
            tables,
            sums,
            samples,
        };
        (profile, resolver)
    }
}
