//! The samples of a profile.

use crate::tables::{EntryIndices, Tables};
use crate::texts::write_index;
use json::Writer;
use perfdata_profile::sample_list::{ListedSample, SampleList};
use std::alloc::AllocError;

// A column of the samples.
#[derive(Clone, Copy)]
enum Column {
    Time,
    Thread,
    Stack,
    Event,
    Weight,
}

// Writes an item of a column.
fn write_item(
    json: &mut Writer,
    column: Column,
    sample: ListedSample,
    entry: EntryIndices,
) -> Result<(), AllocError> {
    match (column, sample.time) {
        (Column::Time, Some(time)) => json.u64(time),
        (Column::Time, None) => json.null(),
        (Column::Thread, _) => json.u64(entry.thread as u64),
        (Column::Stack, _) => write_index(json, entry.stack),
        (Column::Event, _) => json.u64(entry.event as u64),
        (Column::Weight, _) => json.u64(sample.weight),
    }
}

// Writes a column.
fn write_column(
    json: &mut Writer,
    name: &str,
    column: Column,
    tables: &Tables,
    samples: &SampleList,
) -> Result<(), AllocError> {
    json.key(name)?;
    json.begin_array()?;
    for index in 0..samples.len() {
        if let Some(sample) = samples.get(index)
            && let Some(entry) = tables.entry(sample.entry)
        {
            write_item(json, column, sample, entry)?;
        }
    }
    json.end_array()
}

/// Writes the samples, in their order.
pub(crate) fn write_samples(
    json: &mut Writer,
    tables: &Tables,
    samples: &SampleList,
) -> Result<(), AllocError> {
    json.key("samples")?;
    json.begin_object()?;
    write_column(json, "time", Column::Time, tables, samples)?;
    write_column(json, "thread", Column::Thread, tables, samples)?;
    write_column(json, "stack", Column::Stack, tables, samples)?;
    write_column(json, "event", Column::Event, tables, samples)?;
    write_column(json, "weight", Column::Weight, tables, samples)?;
    json.end_object()
}
