//! The functions and source lines of a profile's locations, each list stored once.

ghost use Rattle.std.specs.Prelude.{◌≡◌, [], length, map, slice_get, IfOk, OnErr};
ghost use Rattle.std.specs.Option.{option_map};
ghost use Rattle.perfdata_profile.specs.Interning.{Interns, IsOnce};

use crate::names::NameId;
use indexmap::IndexSet;
use std::alloc::{AllocError, Global};

/// A function at an address, and its source line there.
#[derive(Clone, Copy, Debug, PartialEq, Eq, Hash)]
pub struct Line {
    /// The name of the function.
    pub function: NameId,
    /// The path of the source file, which is empty if it isn't known.
    pub file: NameId,
    /// The line in the file, from 1 on, or 0 if it isn't known.
    pub line: u32,
}

/// The number of a list of lines in [`LineLists`].
#[derive(Clone, Copy, Debug, PartialEq, Eq, Hash)]
pub struct LinesId(usize);

/// Lists of lines, each once: the functions at an address, the innermost first. All but the last one are
/// inlined into the next one. Their ids count from 0 in the order in which they were interned.
#[derive(Drop)]
pub struct LineLists {
    lists: IndexSet<Vec<Line>>,
    alloc: Global,
    ghost once: { IsOnce (map (λ list. list.items) lists.keys) },
}

impl LinesId {
    ghost use Rattle.perfdata_profile.specs.Interned.{lines_number};

    /// Returns the number: how many lists were interned before.
    pub fn number(self) -> usize
        ensures { result ≡ lines_number self }
    {
        self.0
    }
}

impl LineLists {
    ghost use Rattle.perfdata_profile.specs.Interned.{line_lists_of, lines_number};

    /// Creates a table without lists.
    pub fn new(alloc: Global) -> LineLists
        ensures none { line_lists_of result ≡ [] }
    {
        LineLists {
            lists: IndexSet::new(alloc),
            alloc,
        }
    }

    /// Returns the id of a list, which is added if it is new. Ids of other lists stay.
    ///
    /// Fails if memory runs out. Then no list is added.
    pub fn intern(&mut self, lines: &[Line]) -> Result<LinesId, AllocError>
        ensures ok { IfOk result (λ id.
            Interns (line_lists_of self.old) lines.now (lines_number id) (line_lists_of self.new)) }
        ensures err { OnErr result (line_lists_of self.new ≡ line_lists_of self.old) }
    {
        if let Some(number) = self.lists.get_index_of(lines) {
            return Ok(LinesId(number));
        }
        let number = self.lists.len();
        self.lists.insert(lines.to_vec(self.alloc)?)?;
        Ok(LinesId(number))
    }

    /// Returns a list by its id, or `None` if no list has it.
    pub fn get(&self, id: LinesId) -> Option<&[Line]>
        ensures { option_map (λ lines. lines.now) result
            ≡ slice_get (line_lists_of self.now) (lines_number id) }
    {
        match self.lists.get_index(id.0) {
            Some(lines) => Some(lines.as_slice()),
            None => None,
        }
    }

    /// Returns the number of lists.
    pub fn len(&self) -> usize
        ensures { result ≡ length (line_lists_of self.now) }
    {
        self.lists.len()
    }
}
