//! What a process has mapped at the time of a sample.

use crate::mapped_files::{CodeAddress, MappedFiles};
use code_cfi::Machine;
use code_unwind::{CodeMap, MappedCode};
use perfdata_events::call_chain::CallContext;
use perfdata_spaces::address_spaces::AddressSpaces;
use perfdata_spaces::mapping::{Mapping, PROTECTION_EXEC};
use std::alloc::AllocError;
use std::cell::Cell;

// The index of the mapping at an address, if one is there.
#[derive(Clone, Copy)]
struct FoundMapping {
    address: u64,
    index: Option<usize>,
}

/// What a process has mapped at the time of a sample.
#[derive(Drop)]
pub struct ProcessCode<'b, 'a> {
    files: &'b mut MappedFiles<'a>,
    spaces: &'b AddressSpaces,
    pid: i32,
    machine: Machine,
    /// The mapping at the address that was looked up last: a caller's address is first examined, then loaded.
    found: Cell<Option<FoundMapping>>,
    /// What is at the address that was loaded last, if a file is there.
    loaded: Option<CodeAddress>,
}

impl<'b, 'a> ProcessCode<'b, 'a> {
    /// Returns what a process has mapped, for samples of a machine.
    pub fn new(
        files: &'b mut MappedFiles<'a>,
        spaces: &'b AddressSpaces,
        pid: i32,
        machine: Machine,
    ) -> ProcessCode<'b, 'a> {
        ProcessCode {
            files,
            spaces,
            pid,
            machine,
            found: Cell::new(None),
            loaded: None,
        }
    }

    // Returns the mapping at an address with its index, if one is there.
    fn mapping(&self, address: u64) -> Option<(usize, &'b Mapping)> {
        let index = match self.found.get() {
            Some(found) if found.address == address => found.index,
            _ => {
                let index = self.spaces.find_index(self.pid, address, CallContext::User);
                self.found.set(Some(FoundMapping { address, index }));
                index
            }
        };
        let index = index?;
        Some((index, self.spaces.mapping(index)?))
    }

    /// Returns whether the file at an address is for the machine.
    ///
    /// Fails if memory runs out.
    pub fn has_machine(&mut self, address: u64) -> Result<bool, AllocError> {
        match self.mapping(address) {
            Some((index, mapping)) => {
                let machine = self.files.find_machine(index, mapping, address)?;
                Ok(machine == Some(self.machine))
            }
            None => Ok(false),
        }
    }
}

impl CodeMap for ProcessCode<'_, '_> {
    fn is_executable(&self, address: u64) -> bool {
        match self.mapping(address) {
            Some((_index, mapping)) => mapping.protection & PROTECTION_EXEC != 0,
            None => false,
        }
    }

    fn load(&mut self, address: u64) -> Result<(), AllocError> {
        self.loaded = match self.mapping(address) {
            Some((index, mapping)) => {
                self.files
                    .find_code_address(self.machine, index, mapping, address)?
            }
            None => None,
        };
        Ok(())
    }

    fn place(&self, _address: u64) -> MappedCode<'_> {
        match &self.loaded {
            Some(at) => self.files.code(at),
            None => MappedCode::Nothing,
        }
    }
}
