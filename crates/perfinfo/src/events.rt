//! Prints the events: the fields of their attributes and the counts of their records.
use crate::escaped_text::Escaped;
use crate::names::{FlagNames, event_type_name};
use crate::records::{EventCounts, RecordCounts};
use crate::report::{Report, Spaced};
use bitflags::Flags;
use linux_perf_data::attr::PerfEventAttr;
use linux_perf_data::{AttributeDescription, PerfFile};
use perfdata_events::sample_bits::{EventFlags, ReadFields, SampleFields};
use perfdata_overview::event_name::event_name;
use std::fmt;
use std::fmt::{Display, Write};

/// Writes one item for each event, with the fields of its attribute, its ids and its counts.
pub(crate) fn show(perf_file: &PerfFile, counts: &RecordCounts<'_>, report: &mut Report) {
    report.number("events", perf_file.event_attributes().len() as u64);
    for (index, event) in perf_file.event_attributes().iter().enumerate() {
        let flags = EventFlags::from_attribute(event.attributes(), perf_file.endian());
        show_event(index, event, flags, counts.event_counts(index), report);
    }
}

// Writes an event: the fields of its attribute, its ids and its counts.
fn show_event(
    index: usize,
    event: &AttributeDescription,
    flags: EventFlags,
    counts: EventCounts,
    report: &mut Report,
) {
    let name = event_name(event).unwrap_or("unnamed");
    report.item(Spaced("event", index), Escaped(name.as_bytes()));
    show_attr(event.attributes(), flags, report);
    report.detail("ids", IdList(event.ids()));
    show_counts(counts, report);
}

// Writes the fields of an attribute.
fn show_attr(attr: &PerfEventAttr, flags: EventFlags, report: &mut Report) {
    report.detail("type", event_type_name(attr.type_));
    report.number_detail("type number", attr.type_ as u64);
    report.number_detail("config", attr.config);
    report.number_detail(period_name(flags), attr.period_or_freq);
    show_flags(
        "sample format",
        SampleFields(attr.sample_format.0),
        false,
        report,
    );
    show_flags("read format", ReadFields(attr.read_format), false, report);
    show_flags("flags", flags, true, report);
}

// Returns the name of `period_or_freq`.
fn period_name(flags: EventFlags) -> &'static str {
    if flags.contains(EventFlags::FREQ) {
        "frequency"
    } else {
        "period"
    }
}

// Writes a field of an attribute that consists of flags.
fn show_flags<F: Flags<Bits = u64>>(field: &str, flags: F, is_lower: bool, report: &mut Report) {
    report.detail(field, FlagNames { flags, is_lower });
}

// Displays the number of ids and then each id.
#[derive(Clone, Copy)]
struct IdList<'a>(&'a [u64]);

impl fmt::Display for IdList<'_> {
    fn fmt<W: fmt::Write>(&self, f: &mut fmt::Formatter<W>) -> fmt::Result {
        self.0.len().fmt(f)?;
        if !self.0.is_empty() {
            f.write_str(":")?;
        }
        for id in self.0 {
            write!(f, " {id}")?;
        }
        Ok(())
    }
}

// Writes the counts of an event and the times of its first and last sample.
fn show_counts(counts: EventCounts, report: &mut Report) {
    report.number_detail("records", counts.records);
    report.number_detail("samples", counts.samples);
    if let (Some(first), Some(last)) = (counts.first_sample, counts.last_sample) {
        report.number_detail("first sample in ns", first);
        report.number_detail("last sample in ns", last);
    }
}
