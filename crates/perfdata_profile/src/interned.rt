//! The tables of a profile.

ghost use Rattle.std.specs.Prelude.{◌≡◌, []};
ghost use Rattle.perfdata_profile.specs.Values.{AreWithin, lists_in};

use crate::lines::LineLists;
use crate::locations::Locations;
use crate::mappings::Mappings;
use crate::names::Names;
use crate::stacks::Stacks;
use std::alloc::Global;

/// What stands in a profile under ids.
#[derive(Drop)]
pub struct Interned {
    /// The names of threads, functions and files, and build ids.
    pub names: Names,
    /// What is mapped. Paths and build ids are ids of names.
    pub mappings: Mappings,
    /// The functions and source lines of locations. Functions and files are ids of names.
    pub lines: LineLists,
    /// Where frames are. Mappings and lines are ids of mappings and lists of lines.
    pub locations: Locations,
    /// The stacks. They are lists of ids of locations.
    pub stacks: Stacks,
    ghost within: { AreWithin (lists_in names mappings lines locations stacks) },
}

impl Interned {
    ghost use Rattle.perfdata_profile.specs.Profiles.{lists_of};

    /// Creates empty tables.
    pub fn new(alloc: Global) -> Interned
        ensures names { (lists_of result).names ≡ [] }
        ensures ranges { (lists_of result).ranges ≡ [] }
        ensures lines { (lists_of result).lines ≡ [] }
        ensures locations { (lists_of result).locations ≡ [] }
        ensures stacks { (lists_of result).stacks ≡ [] }
    {
        Interned {
            names: Names::new(alloc),
            mappings: Mappings::new(alloc),
            lines: LineLists::new(alloc),
            locations: Locations::new(alloc),
            stacks: Stacks::new(alloc),
        }
    }
}
