//! The address spaces of processes and of the kernel, and the names of threads.

ghost use Rattle.std.specs.Prelude.{◌≡◌, ◌⊎◌, ◌%◌, [], List, slice_get, IfOk, OnOk, OnErr};
ghost use Rattle.std.specs.Option.{option_map};
ghost use Rattle.perfdata_sources.specs.CpuMode.{cpu_mode_of};
ghost use Rattle.perfdata_spaces.specs.Effects.{Applied, added, effect_of, naming_of};
ghost use Rattle.perfdata_spaces.specs.Effects.{NamesThread, NeedsMemory};
ghost use Rattle.perfdata_spaces.specs.Histories.{context_in, IsFoundMapping};
ghost use Rattle.perfdata_spaces.specs.Mappings.{mapping_value};
ghost use Rattle.perfdata_spaces.specs.NameHistories.{IsName};

use crate::mapping::Mapping;
use crate::spaces::Spaces;
use crate::thread_names::ThreadNames;
use perfdata_base::event::CpuMode;
use perfdata_events::call_chain::CallContext;
use perfdata_events::event::EventRecord;
use std::alloc::{AllocError, Global};

/// What is mapped in each process and in the kernel, and the names of threads.
///
/// ```
/// use perfdata_events::call_chain::CallContext;
/// use perfdata_events::event::EventRecord;
/// use perfdata_spaces::address_spaces::AddressSpaces;
/// use std::alloc::{AllocError, Global};
///
/// fn offset_in_file(
///     alloc: Global,
///     records: &[(u16, EventRecord<'_>)],
///     pid: i32,
///     address: u64,
/// ) -> Result<Option<u64>, AllocError> {
///     let mut spaces = AddressSpaces::new(alloc);
///     for (misc, record) in records {
///         spaces.apply(*misc, record)?;
///     }
///     let mapping = spaces.find(pid, address, CallContext::User);
///     Ok(mapping.map(|mapping| mapping.file_offset(address)))
/// }
/// ```
#[derive(Drop)]
pub struct AddressSpaces {
    spaces: Spaces,
    names: ThreadNames,
}

/// Returns the context of a record's CPU mode, which `misc` of its header contains.
pub fn context_of_mode(misc: u16) -> CallContext
    ensures { result ≡ context_in (cpu_mode_of (misc % 8)) }
{
    match CpuMode::from_misc(misc) {
        CpuMode::Kernel => CallContext::Kernel,
        CpuMode::User => CallContext::User,
        CpuMode::Hypervisor => CallContext::Hypervisor,
        CpuMode::GuestKernel => CallContext::GuestKernel,
        CpuMode::GuestUser => CallContext::GuestUser,
        CpuMode::Unknown => CallContext::Unknown,
    }
}

impl AddressSpaces {
    ghost use Rattle.perfdata_spaces.specs.AddressSpaces.{Follows, FollowsBut, FindsIndex};
    ghost use Rattle.perfdata_spaces.specs.AddressSpaces.{AddsMappings, KeepsIndices};
    ghost use Rattle.perfdata_spaces.specs.AddressSpaces.{mapping_values, space_effects, name_effects};
    ghost use Rattle.perfdata_spaces.specs.AddressSpaces.{then_applied};

    /// Creates address spaces in which nothing is mapped.
    pub fn new(alloc: Global) -> AddressSpaces
        ensures { Follows [] result }
    {
        AddressSpaces {
            spaces: Spaces::new(alloc),
            names: ThreadNames::new(alloc),
        }
    }

    /// Applies a record, and returns the index of the mapping that it adds, if it adds one. `misc` is that of
    /// its header. The records of a recording are applied in order of time.
    ///
    /// Fails if memory runs out, which only records that map or name something need. Then nothing is mapped
    /// elsewhere than before, the thread may already have the new name, and the call can be repeated.
    pub fn apply(
        &mut self,
        misc: u16,
        record: &EventRecord<'_>,
    ) -> Result<Option<usize>, AllocError>
        ensures ok { OnOk result ((records : List Applied) → Follows records self.old →
            Follows (then_applied records misc «record».now) self.new) }
        ensures added { IfOk result (λ index.
            AddsMappings (added (effect_of misc «record».now)) self.old index self.new) }
        ensures memory { OnErr result (NeedsMemory (effect_of misc «record».now)
            ⊎ NamesThread (naming_of «record».now)) }
        ensures indices { KeepsIndices self.old self.new }
        ensures unchanged { OnErr result (mapping_values self.new ≡ mapping_values self.old) }
        ensures err { OnErr result ((records : List Applied) → Follows records self.old →
            FollowsBut records «record».now self.new) }
        ensures repeated_ok { OnOk result ((records : List Applied) →
            FollowsBut records «record».now self.old →
            Follows (then_applied records misc «record».now) self.new) }
        ensures repeated_err { OnErr result ((records : List Applied) →
            FollowsBut records «record».now self.old → FollowsBut records «record».now self.new) }
    {
        self.names.apply(record)?;
        self.spaces.apply(misc, record)
    }

    /// Returns the index of the last mapping that contains an address of a process (`User`), or of the symbol
    /// or else the last mapping of the kernel (`Kernel`). [`AddressSpaces::mapping`] returns the mapping.
    pub fn find_index(&self, pid: i32, address: u64, context: CallContext) -> Option<usize>
        ensures { (records : List Applied) → Follows records self.now →
            FindsIndex records self.now pid address context result }
    {
        self.spaces.find_index(pid, address, context)
    }

    /// Returns the last mapping that contains an address of a process (`User`), or the symbol or else the
    /// last mapping of the kernel (`Kernel`).
    pub fn find(&self, pid: i32, address: u64, context: CallContext) -> Option<&Mapping>
        ensures { (records : List Applied) → Follows records self.now →
            IsFoundMapping (space_effects records) pid address context
            (option_map (λ m. mapping_value m.now) result) }
    {
        let index = self.find_index(pid, address, context)?;
        self.mapping(index)
    }

    /// Returns the mapping with an index that [`AddressSpaces::apply`] or [`AddressSpaces::find_index`]
    /// returned. Mappings that were applied later have greater indices.
    pub fn mapping(&self, index: usize) -> Option<&Mapping>
        ensures { option_map (λ m. mapping_value m.now) result ≡ slice_get (mapping_values self.now) index }
    {
        self.spaces.mapping(index)
    }

    /// Returns the name of a thread, or `None` if no record names it.
    pub fn comm(&self, tid: i32) -> Option<&[u8]>
        ensures { (records : List Applied) → Follows records self.now →
            IsName tid (name_effects records) (option_map (λ name. name.now) result) }
    {
        self.names.get(tid)
    }
}
