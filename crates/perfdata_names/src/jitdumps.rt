//! The code that processes describe in jitdumps.

use code_files::MappedFiles;
use code_files::mapping_names::base_name;
use code_symbols::{JitSymbols, SymbolTable};
use std::alloc::{AllocError, Global};
use std::collections::BTreeMap;

// The start and the end of the name of a jitdump, with the process id between them.
const NAME_START: &[u8] = b"jit-";

const NAME_END: &[u8] = b".dump";

// The jitdump of a process.
#[derive(Drop)]
struct JitDump {
    path: Vec<u8>,
    /// How many jitdumps were mapped before it.
    number: u64,
    is_read: bool,
    /// The code, if it could be read.
    code: Option<JitSymbols>,
}

// The symbol of code that a process loaded.
#[derive(Clone, Copy)]
pub(crate) struct LoadedCode {
    /// The number of the jitdump.
    pub(crate) number: u64,
    /// The index of the symbol in its table.
    pub(crate) index: usize,
}

// The jitdumps of processes.
#[derive(Drop)]
pub(crate) struct JitDumps {
    alloc: Global,
    by_process: BTreeMap<i32, JitDump>,
    /// The number of jitdumps that were mapped.
    count: u64,
}

// Returns whether a path is that of a jitdump.
fn is_jitdump(path: &[u8]) -> bool {
    match base_name(path).strip_prefix(NAME_START) {
        Some(rest) => rest.ends_with(NAME_END),
        None => false,
    }
}

impl JitDumps {
    pub(crate) fn new(alloc: Global) -> JitDumps {
        JitDumps {
            alloc,
            by_process: BTreeMap::new(alloc),
            count: 0,
        }
    }

    // Returns whether a process has a jitdump.
    pub(crate) fn contains(&self, pid: i32) -> bool {
        self.by_process.get(&pid).is_some()
    }

    // Adds the file that a process maps, if it is a jitdump.
    pub(crate) fn add_mapping(&mut self, pid: i32, path: &[u8]) -> Result<(), AllocError> {
        if !is_jitdump(path) {
            return Ok(());
        }
        if let Some(dump) = self.by_process.get(&pid) {
            if dump.path.as_slice() == path {
                return Ok(());
            }
        }
        let dump = JitDump {
            path: path.to_vec(self.alloc)?,
            number: self.count,
            is_read: false,
            code: None,
        };
        self.count = self.count.saturating_add(1);
        self.by_process.insert(pid, dump)?;
        Ok(())
    }

    // Removes the jitdump of a process that another program replaces.
    pub(crate) fn remove(&mut self, pid: i32) {
        let _ = self.by_process.remove(&pid);
    }

    // Returns the last code that a process loaded at an address up to a time, if there is such code.
    pub(crate) fn find(
        &mut self,
        files: &mut MappedFiles<'_>,
        pid: i32,
        address: u64,
        time: u64,
    ) -> Result<Option<LoadedCode>, AllocError> {
        let Some(dump) = self.by_process.get_mut(&pid) else {
            return Ok(None);
        };
        if !dump.is_read {
            dump.is_read = true;
            dump.code = files.read_jitdump(dump.path.as_slice())?;
        }
        let Some(code) = &mut dump.code else {
            return Ok(None);
        };
        code.advance_to(time)?;
        let number = dump.number;
        let index = code.table().find_index(address);
        Ok(index.map(|index| LoadedCode { number, index }))
    }

    // Returns the symbols of the code that a process loaded so far.
    pub(crate) fn table(&self, pid: i32) -> Option<&SymbolTable> {
        Some(self.by_process.get(&pid)?.code.as_ref()?.table())
    }
}
