//! The events of a recording: which of them are selected, and how many samples they have.

ghost use Rattle.std.specs.Prelude.{◌≡◌, ◌+◌, ◌-◌, ◌^◌, ◌&&◌, min, nat_eq, nat_le, OnErr, OnOk};
ghost use Rattle.perfdata_overview.specs.Events.{samples_of, selection_of};

use crate::event_name::event_name;
use crate::pattern::selects_event;
use crate::sample_summary::SampleSummary;
use linux_perf_data::attr::PerfEventAttr;
use linux_perf_data::{AttributeDescription, PerfFile};
use std::alloc::{AllocError, Global};
use std::io;
use std::io::Write;

// The type of the events that software counts (`PERF_TYPE_SOFTWARE`).
const SOFTWARE: u32 = 1;

// The last of the clocks among them: `PERF_COUNT_SW_CPU_CLOCK` is 0, `PERF_COUNT_SW_TASK_CLOCK` is 1.
const TASK_CLOCK: u64 = 1;

/// Returns whether the period of an event is in nanoseconds.
pub fn counts_time(attr: &PerfEventAttr) -> bool
    ensures { result ≡ nat_eq attr.now.type_ 1 && nat_le attr.now.config 1 }
{
    attr.type_ == SOFTWARE && attr.config <= TASK_CLOCK
}

/// Which events are selected.
#[derive(Clone, Copy, Debug, PartialEq, Eq)]
pub enum EventSelection<'a> {
    /// The first one, in the order of attributes, that has a sample, and all of its name.
    First,
    /// All events.
    All,
    /// Those that a text names: indices and patterns for names, with commas between them.
    Listed(&'a str),
}

// An event.
#[derive(Clone, Copy)]
struct EventRow {
    /// The index of the first event with its name.
    first_of_name: usize,
    /// Whether the text names it.
    is_listed: bool,
    /// The number of its samples.
    samples: u64,
    /// Those that were counted.
    counted: SampleSummary,
}

/// The events of a recording.
#[derive(Drop)]
pub struct EventTable<'a> {
    selection: EventSelection<'a>,
    rows: Vec<EventRow>,
    /// The first one, in the order of attributes, that has a sample.
    first: Option<usize>,
    /// The number of all samples.
    samples: u64,
}

// Returns the name of an event, which is empty if it has none.
fn name_or_empty(event: &AttributeDescription) -> &str {
    event_name(event).unwrap_or("")
}

// Returns the index of the first event with the name of the one with an index.
fn first_of_name(perf_file: &PerfFile, index: usize, event: &AttributeDescription) -> usize {
    let name = name_or_empty(event);
    if name.is_empty() {
        return index;
    }
    let mut events = perf_file.event_attributes().iter().take(index);
    events
        .position(|other| name_or_empty(other) == name)
        .unwrap_or(index)
}

// Returns whether a part of the text names an event.
fn names_event(perf_file: &PerfFile, part: &str) -> bool {
    let mut events = perf_file.event_attributes().iter().enumerate();
    events.any(|(index, event)| selects_event(part, index, name_or_empty(event)))
}

/// Appends the name of the event with an index. One without a name of its own is called by its index.
///
/// Fails if memory runs out.
pub fn push_event_name(
    text: &mut Vec<u8>,
    perf_file: &PerfFile,
    index: usize,
) -> Result<(), AllocError> {
    let event = perf_file.event_attributes().get(index);
    match event.map_or("", name_or_empty) {
        "" => write!(text, "event {index}").map_err(|_| AllocError),
        name => text.extend_from_slice(name.as_bytes()),
    }
}

impl<'a> EventTable<'a> {
    /// Creates a table without samples.
    pub fn new(alloc: Global, selection: EventSelection<'a>) -> EventTable<'a>
        ensures selection { selection_of result ≡ selection.entry }
        ensures samples { samples_of result ≡ 0 }
    {
        EventTable {
            selection,
            rows: Vec::new(alloc),
            first: None,
            samples: 0,
        }
    }

    /// Returns which events are selected.
    pub fn selection(&self) -> EventSelection<'a>
        ensures { result ≡ selection_of self.now }
    {
        self.selection
    }

    /// Returns the number of all samples.
    pub fn samples(&self) -> u64
        ensures { result ≡ samples_of self.now }
    {
        self.samples
    }

    // Returns whether the text names an event.
    fn is_listed(&self, index: usize, event: &AttributeDescription) -> bool {
        let EventSelection::Listed(text) = self.selection else {
            return false;
        };
        let name = name_or_empty(event);
        text.split(',').any(|part| selects_event(part, index, name))
    }

    /// Adds the events that were read since the last call.
    ///
    /// Fails if memory runs out.
    pub fn add_events(&mut self, perf_file: &PerfFile) -> Result<(), AllocError>
        ensures selection { selection_of self.new ≡ selection_of self.old }
        ensures samples { samples_of self.new ≡ samples_of self.old }
    {
        let known = self.rows.len();
        for (index, event) in perf_file.event_attributes().iter().enumerate().skip(known) {
            let row = EventRow {
                first_of_name: first_of_name(perf_file, index, event),
                is_listed: self.is_listed(index, event),
                samples: 0,
                counted: SampleSummary::NONE,
            };
            self.rows.push(row)?;
        }
        Ok(())
    }

    /// Adds a sample of the event with an index. Returns whether it may be one that is selected: which event
    /// is the first one is known at the end.
    ///
    /// Fails if memory runs out.
    pub fn add_sample(&mut self, perf_file: &PerfFile, index: usize) -> Result<bool, AllocError>
        ensures selection { selection_of self.new ≡ selection_of self.old }
        ensures samples { OnOk result (samples_of self.new ≡ min (samples_of self.old + 1) (2 ^ 64 - 1)) }
        ensures err { OnErr result (samples_of self.new ≡ samples_of self.old) }
    {
        self.add_events(perf_file)?;
        self.samples = self.samples.saturating_add(1);
        let first = self.first.map_or(index, |first| first.min(index));
        self.first = Some(first);
        let Some(row) = self.rows.get_mut(index) else {
            return Ok(false);
        };
        row.samples = row.samples.saturating_add(1);
        Ok(match self.selection {
            EventSelection::First => row.first_of_name <= first,
            EventSelection::All => true,
            EventSelection::Listed(_) => row.is_listed,
        })
    }

    /// Counts a sample of the event with an index.
    pub fn count(&mut self, index: usize, sample: SampleSummary)
        ensures selection { selection_of self.new ≡ selection_of self.old }
        ensures samples { samples_of self.new ≡ samples_of self.old }
    {
        if let Some(row) = self.rows.get_mut(index) {
            row.counted = row.counted.with(sample);
        }
    }

    // Returns the index of the first event with the name of the one that is selected without an option.
    fn default_name(&self) -> Option<usize> {
        Some(self.rows.get(self.first?)?.first_of_name)
    }

    /// Returns whether the event with an index is selected, once all samples were added.
    pub fn is_selected(&self, index: usize) -> bool {
        let Some(row) = self.rows.get(index) else {
            return false;
        };
        match self.selection {
            EventSelection::First => Some(row.first_of_name) == self.default_name(),
            EventSelection::All => true,
            EventSelection::Listed(_) => row.is_listed,
        }
    }

    // Returns whether an event is shown: it is selected and, if asked for, has the name of the one that is
    // selected without an option.
    fn is_shown(&self, index: usize, row: &EventRow, has_default_name: bool) -> bool {
        let is_default = Some(row.first_of_name) == self.default_name();
        self.is_selected(index) && (is_default || !has_default_name)
    }

    /// Returns the samples that were counted of the selected events. With `has_default_name` these are only
    /// those with the name of the event that is selected without an option.
    pub fn counted(&self, has_default_name: bool) -> SampleSummary {
        let mut summary = SampleSummary::NONE;
        for (index, row) in self.rows.iter().enumerate() {
            if self.is_shown(index, row, has_default_name) {
                summary = summary.with(row.counted);
            }
        }
        summary
    }

    /// Returns the index of the first event that was counted, of those with the name of the event that is
    /// selected without an option, or else of all.
    pub fn first_counted(&self) -> Option<usize> {
        let default = self.default_name();
        let mut first = None;
        for (index, row) in self.rows.iter().enumerate() {
            if row.counted.samples != 0 && self.is_selected(index) {
                if Some(row.first_of_name) == default {
                    return Some(index);
                }
                first = first.or(Some(index));
            }
        }
        first
    }

    /// Returns whether samples of events with different names were counted.
    pub fn has_several_names(&self) -> bool {
        let mut counted = self.rows.iter().enumerate().filter(|(index, row)| {
            row.counted.samples != 0 && self.is_selected(*index)
        });
        let Some((_, first)) = counted.next() else {
            return false;
        };
        counted.any(|(_, row)| row.first_of_name != first.first_of_name)
    }

    // Returns the number of all samples of the events with the name of one, and of those that were counted.
    fn samples_of_name(&self, first_of_name: usize) -> (u64, u64) {
        let (mut samples, mut counted) = (0u64, 0u64);
        for row in self.rows.iter() {
            if row.first_of_name == first_of_name {
                samples = samples.saturating_add(row.samples);
                counted = counted.saturating_add(row.counted.samples);
            }
        }
        (samples, counted)
    }

    /// Returns the names of the events that were counted, each once, with commas between them.
    ///
    /// Fails if memory runs out.
    pub fn counted_names(
        &self,
        alloc: Global,
        perf_file: &PerfFile,
        has_default_name: bool,
    ) -> Result<Vec<u8>, AllocError> {
        let mut text = Vec::new(alloc);
        let mut names = Vec::new(alloc);
        for (index, row) in self.rows.iter().enumerate() {
            let is_counted = row.counted.samples != 0
                && self.is_shown(index, row, has_default_name);
            if is_counted && !names.contains(&row.first_of_name) {
                names.push(row.first_of_name)?;
                push_separator(&mut text)?;
                push_event_name(&mut text, perf_file, index)?;
            }
        }
        Ok(text)
    }

    // Returns the events of some rows with the number of their samples, as `NAME (N), NAME (N)`.
    fn listed<F: Fn(usize, u64) -> bool>(
        &self,
        alloc: Global,
        perf_file: &PerfFile,
        has: F,
    ) -> io::Result<Vec<u8>>
        requires { F.IsAlwaysCallable has }
    {
        let mut text = Vec::new(alloc);
        for (index, row) in self.rows.iter().enumerate() {
            let (samples, _) = self.samples_of_name(index);
            if row.first_of_name == index && has(index, samples) {
                push_separator(&mut text)?;
                push_event_name(&mut text, perf_file, index)?;
                write!(text, " ({samples})")?;
            }
        }
        Ok(text)
    }

    /// Returns all events with the number of their samples, as `NAME (N), NAME (N)`.
    ///
    /// Fails if memory runs out.
    pub fn all_events(&self, alloc: Global, perf_file: &PerfFile) -> io::Result<Vec<u8>> {
        self.listed(alloc, perf_file, |_index, _samples| true)
    }

    /// Returns the events that have samples and aren't selected, with the number of their samples.
    ///
    /// Fails if memory runs out.
    pub fn other_events(&self, alloc: Global, perf_file: &PerfFile) -> io::Result<Vec<u8>> {
        self.listed(
            alloc,
            perf_file,
            |index, samples| samples != 0 && !self.is_selected(index),
        )
    }

    /// Returns the first part of the text that names no event.
    pub fn part_without_event(&self, perf_file: &PerfFile) -> Option<&'a str> {
        let EventSelection::Listed(text) = self.selection else {
            return None;
        };
        text.split(',').find(|part| !names_event(perf_file, *part))
    }

    /// Returns whether the selected events have samples, which may be left out by filters.
    pub fn has_samples(&self) -> bool {
        let mut rows = self.rows.iter().enumerate();
        rows.any(|(index, row)| row.samples != 0 && self.is_selected(index))
    }
}

// Appends what is before the next event of a list.
fn push_separator(text: &mut Vec<u8>) -> Result<(), AllocError> {
    if text.is_empty() {
        Ok(())
    } else {
        text.extend_from_slice(b", ")
    }
}
