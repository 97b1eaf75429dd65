//! The JSON of a profile.

use crate::columns::{
    write_functions, write_locations, write_mappings, write_stacks, write_threads,
};
use crate::samples::write_samples;
use crate::tables::Tables;
use crate::texts::write_text;
use json::Writer;
use perfdata_profile::profile::Profile;
use perfdata_profile::sample_list::SampleList;
use std::alloc::{AllocError, Global};

/// The version of the format. A program that knows an earlier one can't read it.
pub const VERSION: u64 = 1;

/// An event of a recording.
#[derive(Clone, Copy)]
pub struct EventText<'a> {
    /// The name.
    pub name: &'a [u8],
    /// The unit of its weights.
    pub unit: &'a str,
}

/// What the tables of a profile don't say.
#[derive(Clone, Copy)]
pub struct ProfileTexts<'a> {
    /// The events of the recording, by column.
    pub events: &'a [EventText<'a>],
    /// The name of the program and the number of samples.
    pub title: &'a [u8],
    /// The line above tables and pictures.
    pub heading: &'a [u8],
    /// The recorded command line, or nothing.
    pub command_line: &'a [u8],
    /// What samples count: `samples` or `period`.
    pub weight: &'a str,
}

// Writes what a profile says of itself.
fn write_meta(
    alloc: Global,
    json: &mut Writer,
    texts: &ProfileTexts<'_>,
) -> Result<(), AllocError> {
    json.key("meta")?;
    json.begin_object()?;
    json.key("version")?;
    json.u64(VERSION)?;
    json.key("title")?;
    write_text(alloc, json, texts.title)?;
    json.key("heading")?;
    write_text(alloc, json, texts.heading)?;
    json.key("command_line")?;
    write_text(alloc, json, texts.command_line)?;
    json.key("weight")?;
    json.string(texts.weight)?;
    json.end_object()
}

// Writes the names of events.
fn write_event_names(
    alloc: Global,
    json: &mut Writer,
    events: &[EventText<'_>],
) -> Result<(), AllocError> {
    json.key("name")?;
    json.begin_array()?;
    for event in events {
        write_text(alloc, json, event.name)?;
    }
    json.end_array()
}

// Writes the units of events.
fn write_event_units(json: &mut Writer, events: &[EventText<'_>]) -> Result<(), AllocError> {
    json.key("unit")?;
    json.begin_array()?;
    for event in events {
        json.string(event.unit)?;
    }
    json.end_array()
}

// Writes the events.
fn write_events(
    alloc: Global,
    json: &mut Writer,
    events: &[EventText<'_>],
) -> Result<(), AllocError> {
    json.key("events")?;
    json.begin_object()?;
    write_event_names(alloc, json, events)?;
    write_event_units(json, events)?;
    json.end_object()
}

/// Returns the JSON of a profile: an object with its tables, and the list of its samples. Bytes of names that
/// aren't UTF-8 are U+FFFD.
///
/// Fails if memory runs out.
pub fn profile_json(
    alloc: Global,
    profile: &Profile,
    samples: &SampleList,
    texts: &ProfileTexts<'_>,
) -> Result<Vec<u8>, AllocError> {
    let tables = Tables::of_profile(alloc, profile)?;
    let mut json = Writer::new(Vec::new(alloc));
    json.begin_object()?;
    write_meta(alloc, &mut json, texts)?;
    write_events(alloc, &mut json, texts.events)?;
    write_threads(alloc, &mut json, &profile.tables, &tables)?;
    write_mappings(alloc, &mut json, &profile.tables, &tables)?;
    write_functions(alloc, &mut json, &profile.tables, &tables)?;
    write_locations(alloc, &mut json, &profile.tables, &tables)?;
    write_stacks(&mut json, &tables)?;
    write_samples(&mut json, &tables, samples)?;
    json.end_object()?;
    let mut bytes = json.into_inner();
    bytes.push(b'\n')?;
    Ok(bytes)
}
