//! Stacks as a tree: each has a location, and the stack of its callers.

use indexmap::IndexSet;
use std::alloc::{AllocError, Global};

/// A stack of at least one location.
#[derive(Clone, Copy, PartialEq, Eq, Hash)]
pub(crate) struct StackNode {
    /// The index of the stack of the callers, if there is one.
    pub(crate) parent: Option<usize>,
    /// The index of the location of the leaf.
    pub(crate) location: usize,
}

/// Stacks, each once, and after that of its callers.
#[derive(Drop)]
pub(crate) struct StackNodes {
    nodes: IndexSet<StackNode>,
}

impl StackNodes {
    /// Creates a table without stacks.
    pub(crate) fn new(alloc: Global) -> StackNodes {
        StackNodes {
            nodes: IndexSet::new(alloc),
        }
    }

    /// Returns the index of a stack, which is added if it is new.
    ///
    /// Fails if memory runs out.
    pub(crate) fn intern(
        &mut self,
        parent: Option<usize>,
        location: usize,
    ) -> Result<usize, AllocError> {
        let (index, _is_new) = self.nodes.insert_full(StackNode { parent, location })?;
        Ok(index)
    }

    /// Returns the stack with an index, or `None` from [`StackNodes::len`] on.
    pub(crate) fn get(&self, index: usize) -> Option<StackNode> {
        self.nodes.get_index(index).copied()
    }

    /// Returns the number of stacks.
    pub(crate) fn len(&self) -> usize {
        self.nodes.len()
    }
}
