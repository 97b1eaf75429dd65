//! What a profile says of its recording, and why nothing is written.

use crate::command::{command_line, recorded_command};
use crate::events::{EventSelection, EventTable};
use crate::heading::Heading;
use crate::notes::{MainFile, RecordNotes};
use crate::program::has_own_command;
use linux_perf_data::PerfFile;
use std::alloc::Global;
use std::io;
use std::io::Write;

/// What was counted.
#[derive(Clone, Copy)]
pub struct CountedEvents<'a> {
    /// The recording.
    pub perf_file: &'a PerfFile,
    /// The events.
    pub events: &'a EventTable<'a>,
    /// What records say beside samples.
    pub notes: &'a RecordNotes,
    /// The file of the program that was executed.
    pub main_file: Option<&'a MainFile>,
}

/// What a profile says of its recording.
#[derive(Drop)]
pub struct Overview {
    /// The line above a table or a picture.
    pub heading: Vec<u8>,
    /// The title of a page.
    pub title: Vec<u8>,
    /// The recorded command line.
    pub command_line: Vec<u8>,
}

// Returns the name of a file without its directories.
fn file_name(path: &[u8]) -> &[u8] {
    match path.iter().rposition(|byte| *byte == b'/') {
        Some(end) => path.get(end.saturating_add(1)..).unwrap_or(path),
        None => path,
    }
}

// Returns the title: the name of the program, or else the command line, and the number of samples.
fn title(
    alloc: Global,
    main_file: Option<&MainFile>,
    command_line: &[u8],
    samples: u64,
) -> io::Result<Vec<u8>> {
    let name = match main_file {
        Some(file) => file_name(file.path.as_slice()),
        None => command_line,
    };
    let mut text = Vec::new(alloc);
    text.write_all(name)?;
    if !name.is_empty() {
        text.write_all(b": ")?;
    }
    write!(text, "{samples} samples")?;
    Ok(text)
}

impl Overview {
    /// Returns what a profile says. With `has_default_name` it says it of the event that is selected without
    /// an option.
    ///
    /// Fails if memory runs out.
    pub fn new(
        alloc: Global,
        counted: CountedEvents<'_>,
        has_default_name: bool,
    ) -> io::Result<Overview> {
        let CountedEvents {
            perf_file,
            events,
            notes,
            main_file,
        } = counted;
        let program = if has_own_command(perf_file) {
            notes.program.name()
        } else {
            None
        };
        let names = events.counted_names(alloc, perf_file, has_default_name)?;
        let command = recorded_command(alloc, perf_file, program)?;
        let heading = Heading {
            events: names.as_slice(),
            counted: events.counted(has_default_name),
            samples: events.samples(),
            command: command.as_slice(),
            lost: notes.lost,
        };
        let command_line = command_line(alloc, perf_file)?;
        let samples = heading.counted.samples;
        Ok(Overview {
            heading: heading.text(alloc)?,
            title: title(alloc, main_file, command_line.as_slice(), samples)?,
            command_line,
        })
    }
}

// Appends the options that select samples and are given, with commas between them.
fn push_filters(text: &mut Vec<u8>, filters: &[Option<&'static str>]) -> io::Result<()> {
    let mut separator = "";
    for filter in filters {
        if let Some(name) = filter {
            write!(text, "{separator}--{name}")?;
            separator = ", ";
        }
    }
    Ok(())
}

// Appends why the profile has no samples, although its events have some. `filters` are the options that are
// given.
fn push_left_out(
    text: &mut Vec<u8>,
    samples: u64,
    filters: &[Option<&'static str>],
) -> io::Result<()> {
    if filters.iter().all(|filter| filter.is_none()) {
        return text.write_all(b"no sample can be decoded: their fields aren't known");
    }
    write!(text, "no sample is selected of {samples}: ")?;
    push_filters(text, filters)
}

// Appends all events with the number of their samples.
fn push_events(
    alloc: Global,
    text: &mut Vec<u8>,
    perf_file: &PerfFile,
    events: &EventTable<'_>,
) -> io::Result<()> {
    let all = events.all_events(alloc, perf_file)?;
    if all.is_empty() {
        return text.write_all(b": the recording has no events");
    }
    text.write_all(b": the recording has ")?;
    text.write_all(all.as_slice())
}

/// Returns why a profile has no samples: an event isn't there or has none, or none is selected. `filters` are
/// the options that select samples, if they are given.
///
/// Fails if memory runs out.
pub fn missing_samples(
    alloc: Global,
    counted: CountedEvents<'_>,
    filters: &[Option<&'static str>],
) -> io::Result<Option<Vec<u8>>> {
    let CountedEvents {
        perf_file,
        events,
        ..
    } = counted;
    let mut text = Vec::new(alloc);
    if let Some(part) = events.part_without_event(perf_file) {
        write!(text, "no event '{part}'")?;
        push_events(alloc, &mut text, perf_file, events)?;
    } else if events.samples() == 0 {
        text.write_all(b"no samples")?;
        if counted.notes.has_statistics {
            text.write_all(b": written by perf stat")?;
        }
    } else if events.counted(false).samples == 0 {
        match events.selection() {
            EventSelection::Listed(value) if !events.has_samples() => {
                write!(text, "no sample of '{value}'")?;
                push_events(alloc, &mut text, perf_file, events)?;
            }
            _ => push_left_out(&mut text, events.samples(), filters)?,
        }
    }
    Ok(if text.is_empty() { None } else { Some(text) })
}
