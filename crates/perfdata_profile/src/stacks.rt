//! The stacks of a profile, each stored once.

ghost use Rattle.std.specs.Prelude.{◌≡◌, [], length, map, slice_get, IfOk, OnErr};
ghost use Rattle.std.specs.Option.{option_map};
ghost use Rattle.perfdata_profile.specs.Interning.{Interns, IsOnce};

use crate::locations::LocationId;
use indexmap::IndexSet;
use std::alloc::{AllocError, Global};

/// The number of a stack in [`Stacks`].
#[derive(Clone, Copy, Debug, PartialEq, Eq, Hash)]
pub struct StackId(usize);

/// Stacks, each once: lists of locations, the leaf's first. A sample without frames has the empty list. Their
/// ids count from 0 in the order in which they were interned.
#[derive(Drop)]
pub struct Stacks {
    stacks: IndexSet<Vec<LocationId>>,
    alloc: Global,
    ghost once: { IsOnce (map (λ stack. stack.items) stacks.keys) },
}

impl StackId {
    ghost use Rattle.perfdata_profile.specs.Interned.{stack_number};

    /// Returns the number: how many stacks were interned before.
    pub fn number(self) -> usize
        ensures { result ≡ stack_number self }
    {
        self.0
    }
}

impl Stacks {
    ghost use Rattle.perfdata_profile.specs.Interned.{stacks_of, stack_number};

    /// Creates a table without stacks.
    pub fn new(alloc: Global) -> Stacks
        ensures none { stacks_of result ≡ [] }
    {
        Stacks {
            stacks: IndexSet::new(alloc),
            alloc,
        }
    }

    /// Returns the id of a stack, which is added if it is new. Ids of other stacks stay.
    ///
    /// Fails if memory runs out. Then no stack is added.
    pub fn intern(&mut self, stack: &[LocationId]) -> Result<StackId, AllocError>
        ensures ok { IfOk result (λ id.
            Interns (stacks_of self.old) stack.now (stack_number id) (stacks_of self.new)) }
        ensures err { OnErr result (stacks_of self.new ≡ stacks_of self.old) }
    {
        if let Some(number) = self.stacks.get_index_of(stack) {
            return Ok(StackId(number));
        }
        let number = self.stacks.len();
        self.stacks.insert(stack.to_vec(self.alloc)?)?;
        Ok(StackId(number))
    }

    /// Returns a stack by its id, or `None` if no stack has it.
    pub fn get(&self, id: StackId) -> Option<&[LocationId]>
        ensures { option_map (λ stack. stack.now) result ≡ slice_get (stacks_of self.now) (stack_number id) }
    {
        match self.stacks.get_index(id.0) {
            Some(stack) => Some(stack.as_slice()),
            None => None,
        }
    }

    /// Returns the number of stacks.
    pub fn len(&self) -> usize
        ensures { result ≡ length (stacks_of self.now) }
    {
        self.stacks.len()
    }
}
