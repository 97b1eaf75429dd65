//! What the samples of a profile use of its tables.

use crate::stack_nodes::StackNodes;
use indexmap::IndexSet;
use perfdata_profile::interned::Interned;
use perfdata_profile::lines::Line;
use perfdata_profile::locations::{Location, LocationId};
use perfdata_profile::mappings::MappingId;
use perfdata_profile::names::NameId;
use perfdata_profile::profile::Profile;
use perfdata_profile::stacks::StackId;
use perfdata_profile::sums::{SampleKey, Thread};
use std::alloc::{AllocError, Global};

/// A function.
#[derive(Clone, Copy, PartialEq, Eq, Hash)]
pub(crate) struct Function {
    /// The name.
    pub(crate) name: NameId,
    /// The path of the source file, which is empty if it isn't known.
    pub(crate) file: NameId,
}

/// The indices of what samples with one key have in common.
#[derive(Clone, Copy)]
pub(crate) struct EntryIndices {
    pub(crate) thread: usize,
    /// That of the stack, if it has a frame.
    pub(crate) stack: Option<usize>,
    pub(crate) event: usize,
}

/// What the samples of a profile use of its tables, each in the order of its first use.
#[derive(Drop)]
pub(crate) struct Tables {
    pub(crate) threads: IndexSet<Thread>,
    pub(crate) mappings: IndexSet<MappingId>,
    pub(crate) functions: IndexSet<Function>,
    pub(crate) locations: IndexSet<LocationId>,
    pub(crate) stacks: StackNodes,
    /// The indices of each entry of the profile.
    entries: Vec<EntryIndices>,
}

impl Function {
    /// Returns the function of a line.
    pub(crate) fn of_line(line: &Line) -> Function {
        Function {
            name: line.function,
            file: line.file,
        }
    }
}

/// Returns the lines of a location.
pub(crate) fn location_lines<'a>(tables: &'a Interned, location: &Location) -> &'a [Line] {
    tables.lines.get(location.lines).unwrap_or(&[])
}

impl Tables {
    // Creates empty tables.
    fn new(alloc: Global) -> Tables {
        Tables {
            threads: IndexSet::new(alloc),
            mappings: IndexSet::new(alloc),
            functions: IndexSet::new(alloc),
            locations: IndexSet::new(alloc),
            stacks: StackNodes::new(alloc),
            entries: Vec::new(alloc),
        }
    }

    // Adds the functions of a location.
    fn add_functions(&mut self, lines: &[Line]) -> Result<(), AllocError> {
        for line in lines {
            self.functions.insert(Function::of_line(line))?;
        }
        Ok(())
    }

    // Adds a location, with its mapping and its functions. Returns its index.
    fn add_location(&mut self, tables: &Interned, id: LocationId) -> Result<usize, AllocError> {
        let (index, is_new) = self.locations.insert_full(id)?;
        if !is_new {
            return Ok(index);
        }
        if let Some(location) = tables.locations.get(id) {
            if let Some(mapping) = location.mapping {
                self.mappings.insert(mapping)?;
            }
            self.add_functions(location_lines(tables, &location))?;
        }
        Ok(index)
    }

    // Adds a stack. Returns its index, unless it has no frame.
    fn add_stack(&mut self, tables: &Interned, id: StackId) -> Result<Option<usize>, AllocError> {
        let mut parent = None;
        let stack = tables.stacks.get(id).unwrap_or(&[]);
        for id in stack.iter().rev() {
            let location = self.add_location(tables, *id)?;
            parent = Some(self.stacks.intern(parent, location)?);
        }
        Ok(parent)
    }

    // Adds what samples with a key have in common.
    fn add_entry(&mut self, tables: &Interned, key: SampleKey) -> Result<(), AllocError> {
        let (thread, _is_new) = self.threads.insert_full(key.thread)?;
        let stack = self.add_stack(tables, key.stack)?;
        self.entries.push(EntryIndices {
            thread,
            stack,
            event: key.column,
        })?;
        Ok(())
    }

    /// Returns what the samples of a profile use.
    ///
    /// Fails if memory runs out.
    pub(crate) fn of_profile(alloc: Global, profile: &Profile) -> Result<Tables, AllocError> {
        let mut tables = Tables::new(alloc);
        for index in 0..profile.sums.len() {
            if let Some((key, _)) = profile.sums.get(index) {
                tables.add_entry(&profile.tables, key)?;
            }
        }
        Ok(tables)
    }

    /// Returns what samples of an entry of the profile have in common, if there is one with the index.
    pub(crate) fn entry(&self, index: usize) -> Option<EntryIndices> {
        self.entries.get(index).copied()
    }
}
