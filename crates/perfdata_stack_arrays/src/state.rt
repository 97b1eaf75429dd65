//! What is mapped and what threads are called, with the array of mappings and the text.
ghost use Rattle.std.specs.Prelude.{◌≡◌, ◌<◌, ◌^◌, [], length, List, IfOk, OnOk, OnErr};
ghost use Rattle.std.specs.Cow.{cow_slice_items};
ghost use Rattle.std.specs.Option.{option_map};
ghost use Rattle.perfdata_arrays.specs.Overwrites.{with_entries_at};
ghost use Rattle.perfdata_spaces.specs.AddressSpaces.{mapping_at};
ghost use Rattle.perfdata_spaces.specs.Effects.{Applied, naming_of};
ghost use Rattle.perfdata_spaces.specs.Mappings.{mapping_value};
ghost use Rattle.perfdata_stack_arrays.specs.Mappings.{name_in};
ghost use Rattle.perfdata_stack_arrays.specs.steps.MappingWrites.{WritesMapping, with_text};

use crate::array::add_counts;
use crate::mapping::{StackMapping, mapping_entry};
use crate::names::NameRanges;
use perfdata_arrays::array::{copy_entries, write_entry};
use perfdata_events::event::EventRecord;
use perfdata_spaces::address_spaces::AddressSpaces;
use perfdata_spaces::mapping::Mapping;
use std::alloc::{AllocError, Global};
use std::borrow::CowSlice;

// The numbers of mappings and of bytes of the text.
#[derive(Clone, Copy, Debug)]
pub(crate) struct TextCounts {
    pub(crate) mappings: usize,
    pub(crate) text: usize,
}

// What is mapped, and what threads are called, as the records so far say.
#[derive(Drop)]
pub(crate) struct ProcessState {
    pub(crate) spaces: AddressSpaces,
    pub(crate) names: NameRanges,
    pub(crate) counts: TextCounts,
    alloc: Global,
}

// The mapping with an index, if there is an index.
fn find_mapping(spaces: &AddressSpaces, index: Option<usize>) -> Option<&Mapping>
    ensures { option_map (λ m. mapping_value m.now) result ≡ mapping_at spaces.now index }
{
    match index {
        Some(index) => spaces.mapping(index),
        None => None,
    }
}

// The name that a record gives to a thread; empty if it gives none.
fn event_name<'a>(alloc: Global, event: &EventRecord<'a>) -> Result<CowSlice<'a, u8>, AllocError>
    ensures { IfOk result (λ name. cow_slice_items name ≡ name_in (naming_of event.now)) }
{
    match event {
        EventRecord::Comm(comm) => comm.name.as_slice(alloc),
        _ => Ok(CowSlice::Borrowed(&[])),
    }
}

// Writes bytes after the text, up to its capacity. Returns the numbers with them.
fn write_text(counts: TextCounts, bytes: &[u8], text: &mut [u8]) -> TextCounts
    ensures counts { result ≡ with_text counts bytes.now }
    ensures written { text.new ≡ with_entries_at counts.text bytes.now text.old }
    ensures short { length text.old < 2 ^ 63 }
{
    // For the prover: a slice is shorter than 2^63 bytes.
    let _capacity = text.len();
    copy_entries(text, counts.text as u64, bytes);
    TextCounts {
        text: add_counts(counts.text, bytes.len()),
        ..counts
    }
}

// Writes the entry of a mapping, if there is one, and its path, up to the capacities. Returns the
// numbers with them.
fn write_mapping(
    counts: TextCounts,
    mapping: Option<&Mapping>,
    mappings: &mut [StackMapping],
    text: &mut [u8],
) -> TextCounts
    ensures { WritesMapping counts (option_map (λ m. mapping_value m.now) mapping.entry) mappings.old text.old
        result mappings.new text.new }
{
    let Some(mapping) = mapping else {
        return counts;
    };
    let entry = mapping_entry(mapping, counts.text);
    write_entry(mappings, counts.mappings, entry);
    let more = TextCounts {
        mappings: add_counts(counts.mappings, 1),
        ..counts
    };
    write_text(more, mapping.path.as_slice(), text)
}

impl ProcessState {
    ghost use Rattle.perfdata_stack_arrays.specs.steps.ProcessState.{AppliesRecord, FollowsState};
    ghost use Rattle.perfdata_stack_arrays.specs.steps.ProcessState.{KeepsTotals};

    // No record was applied.
    pub(crate) fn new(alloc: Global) -> ProcessState
        ensures { FollowsState [] result }
    {
        ProcessState {
            spaces: AddressSpaces::new(alloc),
            names: NameRanges::new(alloc),
            counts: TextCounts {
                mappings: 0,
                text: 0,
            },
            alloc,
        }
    }

    // Applies a record that isn't a sample. Writes the entry of the mapping that it adds, and its path or the
    // name of a thread, up to the capacities.
    pub(crate) fn apply(
        &mut self,
        misc: u16,
        event: &EventRecord<'_>,
        mappings: &mut [StackMapping],
        text: &mut [u8],
    ) -> Result<(), AllocError>
        ensures ok { OnOk result ((before : List Applied) → FollowsState before self.old →
            AppliesRecord before (record { misc = misc; event = event.now }) mappings.old text.old self.new
            mappings.new text.new) }
        ensures err { OnErr result
            (KeepsTotals self.old mappings.old text.old self.new mappings.new text.new) }
    {
        let name = event_name(self.alloc, event)?;
        let index = self.spaces.apply(misc, event)?;
        self.names.apply(event, self.counts.text)?;
        let counts = write_text(self.counts, &name, text);
        let mapping = find_mapping(&self.spaces, index);
        self.counts = write_mapping(counts, mapping, mappings, text);
        Ok(())
    }
}
