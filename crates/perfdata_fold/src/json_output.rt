//! The profile as JSON.

use crate::pprof_output::ProfileInput;
use linux_perf_data::PerfFile;
use perfdata_overview::events::{counts_time, push_event_name};
use perfdata_overview::overview::Overview;
use perfdata_overview::weight::WeightKind;
use perfdata_profile_json::document::{EventText, ProfileTexts, profile_json};
use std::alloc::{AllocError, Global};
use std::io;
use std::io::Write;

// Returns the names of the events.
fn event_names(alloc: Global, perf_file: &PerfFile) -> Result<Vec<Vec<u8>>, AllocError> {
    let mut names = Vec::new(alloc);
    for index in 0..perf_file.event_attributes().len() {
        let mut name = Vec::new(alloc);
        push_event_name(&mut name, perf_file, index)?;
        names.push(name)?;
    }
    Ok(names)
}

// Returns the events with their names.
fn event_texts<'a>(
    alloc: Global,
    perf_file: &PerfFile,
    names: &'a [Vec<u8>],
) -> Result<Vec<EventText<'a>>, AllocError> {
    let mut events = Vec::new(alloc);
    for (name, event) in names.iter().zip(perf_file.event_attributes().iter()) {
        let unit = match counts_time(event.attributes()) {
            true => "nanoseconds",
            false => "count",
        };
        events.push(EventText {
            name: name.as_slice(),
            unit,
        })?;
    }
    Ok(events)
}

/// Writes a profile as JSON.
pub(crate) fn write_json<W: Write>(
    alloc: Global,
    recorded: ProfileInput<'_>,
    overview: &Overview,
    weight: WeightKind,
    out: &mut W,
) -> io::Result<()> {
    let names = event_names(alloc, recorded.perf_file)?;
    let events = event_texts(alloc, recorded.perf_file, names.as_slice())?;
    let texts = ProfileTexts {
        events: events.as_slice(),
        title: overview.title.as_slice(),
        heading: overview.heading.as_slice(),
        command_line: overview.command_line.as_slice(),
        weight: match weight {
            WeightKind::Samples => "samples",
            WeightKind::Period => "period",
        },
    };
    let profile = &recorded.counted.profile;
    let Some(samples) = &profile.samples else {
        return Ok(());
    };
    let bytes = profile_json(alloc, profile, samples, &texts)?;
    out.write_all(bytes.as_slice())
}
