//! The program that a recorded command executed.

ghost use Rattle.std.specs.Prelude.{◌≡◌, None};
ghost use Rattle.std.specs.Option.{option_map};
ghost use Rattle.perfdata_overview.specs.Programs.{name_of};

use bitflags::Flags;
use linux_perf_data::PerfFile;
use perfdata_base::raw::RawData;
use perfdata_events::event::EventRecord;
use perfdata_events::sample_bits::EventFlags;
use std::alloc::{AllocError, Global};

// The bit of the protection of executable memory.
const PROT_EXEC: u32 = 4;

/// What records say of the first program that was executed.
#[derive(Drop)]
pub struct ExecutedProgram {
    alloc: Global,
    /// The process and the name of the thread that executed it.
    executed: Option<(i32, Vec<u8>)>,
    /// The address of its first executable mapping.
    mapped: Option<u64>,
}

// Returns the process and the address of an executable mapping.
fn executable_mapping(record: &EventRecord<'_>) -> Option<(i32, u64)> {
    match record {
        EventRecord::Mmap(mapping) if !mapping.is_data => Some((mapping.pid, mapping.address)),
        EventRecord::Mmap2(mapping) if mapping.protection & PROT_EXEC != 0 => {
            Some((mapping.pid, mapping.address))
        }
        _ => None,
    }
}

// Copies a text.
fn copy(alloc: Global, text: RawData<'_>) -> Result<Vec<u8>, AllocError> {
    let mut copied = Vec::new(alloc);
    text.append_to(&mut copied)?;
    Ok(copied)
}

/// Returns whether perf started a command for itself: an exec enables an event.
pub fn has_own_command(perf_file: &PerfFile) -> bool {
    perf_file.event_attributes().iter().any(|event| {
        let flags = EventFlags::from_attribute(event.attributes(), perf_file.endian());
        flags.contains(EventFlags::ENABLE_ON_EXEC)
    })
}

impl ExecutedProgram {
    /// Creates what no record says.
    pub fn new(alloc: Global) -> ExecutedProgram
        ensures { name_of result ≡ None }
    {
        ExecutedProgram {
            alloc,
            executed: None,
            mapped: None,
        }
    }

    /// Applies a record, in order of time. Returns the process and the address of the first executable
    /// mapping of the program, if the record has it.
    ///
    /// Fails if memory runs out.
    pub fn apply(&mut self, record: &EventRecord<'_>) -> Result<Option<(i32, u64)>, AllocError> {
        if self.mapped.is_some() {
            return Ok(None);
        }
        let Some((pid, _)) = &self.executed else {
            if let EventRecord::Comm(comm) = record
                && comm.is_execve
            {
                self.executed = Some((comm.pid, copy(self.alloc, comm.name)?));
            }
            return Ok(None);
        };
        match executable_mapping(record) {
            Some((mapped_pid, address)) if mapped_pid == *pid => {
                self.mapped = Some(address);
                Ok(Some((mapped_pid, address)))
            }
            _ => Ok(None),
        }
    }

    /// Returns the name of the thread that executed the program.
    pub fn name(&self) -> Option<&[u8]>
        ensures { option_map (λ name. name.now) result ≡ name_of self.now }
    {
        match &self.executed {
            Some((_, name)) => Some(name.as_slice()),
            None => None,
        }
    }
}
