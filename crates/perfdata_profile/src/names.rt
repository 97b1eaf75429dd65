//! The names of functions and threads, each stored once.

ghost use Rattle.std.specs.Prelude.{◌≡◌, ◌<◌, ◌≤◌, [], length, map, slice_get};
ghost use Rattle.std.specs.Prelude.{IfNone, IfOk, IfSome, OnErr, OnSome};
ghost use Rattle.std.specs.Option.{option_map};
ghost use Rattle.perfdata_profile.specs.Interning.{Interns, IsOnce};

use indexmap::IndexSet;
use std::alloc::{AllocError, Global};

/// The number of a name in [`Names`].
#[derive(Clone, Copy, Debug, PartialEq, Eq, Hash)]
pub struct NameId(usize);

/// Names, each once. Their ids count from 0 in the order in which they were interned.
#[derive(Drop)]
pub struct Names {
    names: IndexSet<Vec<u8>>,
    alloc: Global,
    ghost once: { IsOnce (map (λ name. name.items) names.keys) },
}

impl NameId {
    ghost use Rattle.perfdata_profile.specs.Names.{number_of};

    /// Returns the number: how many names were interned before.
    pub fn number(self) -> usize
        ensures { result ≡ number_of self }
    {
        self.0
    }
}

impl Names {
    ghost use Rattle.perfdata_profile.specs.Names.{names_of, number_of};

    /// Creates a table without names.
    pub fn new(alloc: Global) -> Names
        ensures none { names_of result ≡ [] }
    {
        Names {
            names: IndexSet::new(alloc),
            alloc,
        }
    }

    /// Returns the id of a name, which is added if it is new. Ids of other names stay.
    ///
    /// Fails if memory runs out. Then no name is added.
    pub fn intern(&mut self, name: &[u8]) -> Result<NameId, AllocError>
        ensures ok { IfOk result (λ id.
            Interns (names_of self.old) name.now (number_of id) (names_of self.new)) }
        ensures err { OnErr result (names_of self.new ≡ names_of self.old) }
    {
        if let Some(number) = self.names.get_index_of(name) {
            return Ok(NameId(number));
        }
        let number = self.names.len();
        self.names.insert(name.to_vec(self.alloc)?)?;
        Ok(NameId(number))
    }

    /// Returns a name by its id, or `None` if no name has it.
    pub fn get(&self, id: NameId) -> Option<&[u8]>
        ensures { option_map (λ name. name.now) result ≡ slice_get (names_of self.now) (number_of id) }
    {
        match self.names.get_index(id.0) {
            Some(name) => Some(name.as_slice()),
            None => None,
        }
    }

    /// Returns the id with a number, or `None` from [`Names::len`] on.
    pub fn id(&self, number: usize) -> Option<NameId>
        ensures some { IfSome result (λ id. number_of id ≡ number) }
        ensures within { OnSome result (number < length (names_of self.now)) }
        ensures none { IfNone result (length (names_of self.now) ≤ number) }
    {
        if number < self.names.len() {
            Some(NameId(number))
        } else {
            None
        }
    }

    /// Returns the number of names.
    pub fn len(&self) -> usize
        ensures { result ≡ length (names_of self.now) }
    {
        self.names.len()
    }
}
