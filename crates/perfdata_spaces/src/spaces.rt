//! What is mapped in processes and in the kernel.

ghost use Rattle.std.specs.Prelude.{◌≡◌, ◌%◌, [], List, slice_get, IsOk, OnErr};
ghost use Rattle.std.specs.Option.{option_copied};
ghost use Rattle.perfdata_sources.specs.CpuMode.{cpu_mode_of};
ghost use Rattle.perfdata_spaces.specs.Mappings.{mapping_value, mapping_of_mmap, mapping_of_mmap2};
ghost use Rattle.perfdata_spaces.specs.Effects.{Maps, MapsKernel, Registers, Removes, Copies, Clears};
ghost use Rattle.perfdata_spaces.specs.Effects.{mapped_in, symbol_effect, forked, effect_of, NeedsMemory};

use crate::mapping::Mapping;
use crate::processes::Processes;
use crate::ranges::{AddressRange, RangeMap};
use bitflags::Flags;
use perfdata_base::event::CpuMode;
use perfdata_events::call_chain::CallContext;
use perfdata_events::event::EventRecord;
use perfdata_events::kernel::KsymbolRecord;
use perfdata_events::mmap::MmapRecord;
use perfdata_events::mmap2::Mmap2Record;
use perfdata_events::sample_bits::MiscFlags;
use perfdata_events::task::ForkOrExitRecord;
use std::alloc::{AllocError, Global};

// The flag of a removed kernel symbol (`PERF_RECORD_KSYMBOL_FLAGS_UNREGISTER`).
const KSYMBOL_UNREGISTER: u16 = 1;

/// What is mapped in each process and in the kernel, by indices of mappings.
#[derive(Drop)]
pub(crate) struct Spaces {
    mappings: Vec<Mapping>,
    processes: Processes,
    kernel: RangeMap,
    symbols: RangeMap,
    alloc: Global,
}

impl Spaces {
    ghost use Rattle.perfdata_spaces.specs.Spaces.{FollowsSpaces};
    ghost use Rattle.perfdata_spaces.specs.steps.Spaces.{Changes, index_at};

    // Nothing is mapped.
    pub(crate) fn new(alloc: Global) -> Spaces
        ensures { FollowsSpaces [] result }
    {
        Spaces {
            mappings: Vec::new(alloc),
            processes: Processes::new(alloc),
            kernel: RangeMap::new(),
            symbols: RangeMap::new(),
            alloc,
        }
    }

    // The index of the mapping at an address of a process or of the kernel.
    pub(crate) fn find_index(&self, pid: i32, address: u64, context: CallContext) -> Option<usize>
        ensures { result ≡ index_at self.now pid address context }
    {
        match context {
            CallContext::User => self.processes.get(pid, address),
            CallContext::Kernel => match self.symbols.get(address) {
                Some(index) => Some(index),
                None => self.kernel.get(address),
            },
            _ => None,
        }
    }

    // The mapping with an index.
    pub(crate) fn mapping(&self, index: usize) -> Option<&Mapping>
        ensures { option_copied result ≡ slice_get self.now.mappings.items index }
    {
        self.mappings.get(index)
    }

    // Adds a mapping to the space of a process. Returns its index.
    fn map_process(&mut self, pid: i32, mapping: Mapping) -> Result<Option<usize>, AllocError>
        ensures { Changes (Maps pid (mapping_value mapping)) self.old result self.new }
    {
        let index = self.mappings.len();
        let range = AddressRange::new(mapping.start, mapping.length);
        self.mappings.reserve(1)?;
        self.processes.set(pid, range, Some(index))?;
        self.mappings.push_reserved(mapping);
        Ok(Some(index))
    }

    // Adds a mapping to the space of the kernel. Returns its index.
    fn map_kernel(&mut self, mapping: Mapping) -> Result<Option<usize>, AllocError>
        ensures { Changes (MapsKernel (mapping_value mapping)) self.old result self.new }
    {
        let index = self.mappings.len();
        let range = AddressRange::new(mapping.start, mapping.length);
        self.mappings.reserve(1)?;
        let kernel = self.kernel.updated(self.alloc, range, Some(index))?;
        self.kernel = kernel;
        self.mappings.push_reserved(mapping);
        Ok(Some(index))
    }

    // Adds the mapping of a record to the space of a process or of the kernel. Returns its index if it is
    // added: those of guests aren't.
    fn map_mmap(&mut self, misc: u16, record: &MmapRecord<'_>) -> Result<Option<usize>, AllocError>
        ensures change { Changes (mapped_in (cpu_mode_of (misc % 8)) «record».now.pid
            (mapping_of_mmap «record».now)) self.old result self.new }
        ensures memory { OnErr result (NeedsMemory (mapped_in (cpu_mode_of (misc % 8)) «record».now.pid
            (mapping_of_mmap «record».now))) }
    {
        match CpuMode::from_misc(misc) {
            CpuMode::User | CpuMode::Unknown => {
                let mapping = Mapping::of_mmap(self.alloc, record)?;
                self.map_process(record.pid, mapping)
            }
            CpuMode::Kernel => {
                let mapping = Mapping::of_mmap(self.alloc, record)?;
                self.map_kernel(mapping)
            }
            _ => Ok(None),
        }
    }

    // Adds the mapping of a record to the space of a process or of the kernel. Returns its index if it is
    // added: those of guests aren't.
    fn map_mmap2(
        &mut self,
        misc: u16,
        record: &Mmap2Record<'_>,
    ) -> Result<Option<usize>, AllocError>
        ensures change { Changes (mapped_in (cpu_mode_of (misc % 8)) «record».now.pid
            (mapping_of_mmap2 «record».now)) self.old result self.new }
        ensures memory { OnErr result (NeedsMemory (mapped_in (cpu_mode_of (misc % 8)) «record».now.pid
            (mapping_of_mmap2 «record».now))) }
    {
        match CpuMode::from_misc(misc) {
            CpuMode::User | CpuMode::Unknown => {
                let mapping = Mapping::of_mmap2(self.alloc, record)?;
                self.map_process(record.pid, mapping)
            }
            CpuMode::Kernel => {
                let mapping = Mapping::of_mmap2(self.alloc, record)?;
                self.map_kernel(mapping)
            }
            _ => Ok(None),
        }
    }

    // Adds a symbol of the kernel. Returns its index.
    fn register(&mut self, symbol: Mapping) -> Result<Option<usize>, AllocError>
        ensures { Changes (Registers (mapping_value symbol)) self.old result self.new }
    {
        let index = self.mappings.len();
        let range = AddressRange::new(symbol.start, symbol.length);
        self.mappings.reserve(1)?;
        let symbols = self.symbols.updated(self.alloc, range, Some(index))?;
        self.symbols = symbols;
        self.mappings.push_reserved(symbol);
        Ok(Some(index))
    }

    // Removes the symbols of the kernel in a range.
    fn remove(&mut self, start: u64, length: u64) -> Result<Option<usize>, AllocError>
        ensures { Changes (Removes start length) self.old result self.new }
    {
        let range = AddressRange::new(start, length);
        let symbols = self.symbols.updated(self.alloc, range, None)?;
        self.symbols = symbols;
        Ok(None)
    }

    // Registers or removes a symbol of the kernel. Returns its index if it is registered.
    fn change_symbol(&mut self, symbol: &KsymbolRecord<'_>) -> Result<Option<usize>, AllocError>
        ensures change { Changes (symbol_effect symbol.now) self.old result self.new }
        ensures memory { OnErr result (NeedsMemory (symbol_effect symbol.now)) }
    {
        if symbol.flags & KSYMBOL_UNREGISTER != 0 {
            self.remove(symbol.address, u64::from(symbol.length))
        } else {
            let mapping = Mapping::of_ksymbol(self.alloc, symbol)?;
            self.register(mapping)
        }
    }

    // Removes the mappings of a process.
    fn clear(&mut self, pid: i32) -> Result<Option<usize>, AllocError>
        ensures ok { IsOk result }
        ensures change { Changes (Clears pid) self.old result self.new }
    {
        self.processes.clear(pid);
        Ok(None)
    }

    // Gives a process the mappings of another.
    fn copy(&mut self, pid: i32, parent: i32) -> Result<Option<usize>, AllocError>
        ensures { Changes (Copies pid parent) self.old result self.new }
    {
        self.processes.copy(pid, parent)?;
        Ok(None)
    }

    // Gives a new process the mappings of the process that forked it.
    fn fork(&mut self, misc: u16, fork: &ForkOrExitRecord) -> Result<Option<usize>, AllocError>
        ensures change { Changes (forked misc fork.now) self.old result self.new }
        ensures memory { OnErr result (NeedsMemory (forked misc fork.now)) }
    {
        if fork.pid == fork.ppid {
            Ok(None)
        } else if MiscFlags(misc).contains(MiscFlags::FORK_EXEC) {
            self.clear(fork.pid)
        } else {
            self.copy(fork.pid, fork.ppid)
        }
    }

    // Applies a record. `misc` is that of its header. Returns the index of the mapping that it adds.
    pub(crate) fn apply(
        &mut self,
        misc: u16,
        record: &EventRecord<'_>,
    ) -> Result<Option<usize>, AllocError>
        ensures change { Changes (effect_of misc «record».now) self.old result self.new }
        ensures memory { OnErr result (NeedsMemory (effect_of misc «record».now)) }
    {
        match record {
            EventRecord::Mmap(mmap) => self.map_mmap(misc, mmap),
            EventRecord::Mmap2(mmap) => self.map_mmap2(misc, mmap),
            EventRecord::Ksymbol(symbol) => self.change_symbol(symbol),
            EventRecord::Comm(comm) if comm.is_execve => self.clear(comm.pid),
            EventRecord::Fork(fork) => self.fork(misc, fork),
            _ => Ok(None),
        }
    }
}
