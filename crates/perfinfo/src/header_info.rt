//! Prints the machine and the recording from the feature sections of a file or pipe.
use crate::escaped_text::Escaped;
use crate::names::clock_name;
use crate::report::Report;
use crate::times::Duration;
use linux_perf_data::feature_sections::PmuMappings;
use linux_perf_data::{Endianness, Error, PerfFile};
use std::alloc::Global;
use std::collections::BTreeMap;
use std::fmt;

/// Writes all lines. A missing value has no line.
pub(crate) fn show(alloc: Global, perf_file: &PerfFile, report: &mut Report) {
    show_strings(perf_file, report);
    show_numbers(perf_file, report);
    show_command_line(alloc, perf_file, report);
    show_times(perf_file, report);
    show_clock(perf_file, report);
    show_compression(perf_file, report);
    show_features(perf_file, report);
    show_pmu_mappings(alloc, perf_file, report);
    show_meta_info(alloc, perf_file, report);
}

// Writes the feature sections that contain a string.
fn show_strings(perf_file: &PerfFile, report: &mut Report) {
    report.string_line("host name", perf_file.hostname());
    report.string_line("OS release", perf_file.os_release());
    report.string_line("perf version", perf_file.perf_version());
    report.string_line("architecture", perf_file.arch());
    report.string_line("CPU description", perf_file.cpu_desc());
    report.string_line("CPU id", perf_file.cpu_id());
}

/// Returns the name of a byte order.
pub(crate) fn byte_order_name(endian: Endianness) -> &'static str {
    match endian {
        Endianness::LittleEndian => "little-endian",
        Endianness::BigEndian => "big-endian",
    }
}

// Writes the numeric values and the byte order.
fn show_numbers(perf_file: &PerfFile, report: &mut Report) {
    if let Some(cpus) = report.value_or_note("CPUs", perf_file.nr_cpus()) {
        report.number("CPUs available", cpus.nr_cpus_available as u64);
        report.number("CPUs online", cpus.nr_cpus_online as u64);
    }
    report.number_line("memory in kB", perf_file.total_mem());
    report.word("byte order", byte_order_name(perf_file.endian()));
    let stat = if perf_file.is_stats() { "yes" } else { "no" };
    report.word("written by perf stat", stat);
}

// Writes the recording's command line, with spaces between the arguments.
fn show_command_line(alloc: Global, perf_file: &PerfFile, report: &mut Report) {
    if let Some(arguments) = report.value_or_note("command line", perf_file.cmdline(alloc)) {
        report.line("command line", CommandLine(arguments.as_slice()));
    }
}

/// Displays the arguments of a command line, with spaces between them.
#[derive(Clone, Copy)]
pub struct CommandLine<'a>(pub &'a [&'a str]);

impl fmt::Display for CommandLine<'_> {
    fn fmt<W: fmt::Write>(&self, f: &mut fmt::Formatter<W>) -> fmt::Result {
        let mut separator = "";
        for argument in self.0 {
            write!(f, "{separator}{}", Escaped(argument.as_bytes()))?;
            separator = " ";
        }
        Ok(())
    }
}

// Writes the times of the first and the last sample from the sample time section.
fn show_times(perf_file: &PerfFile, report: &mut Report) {
    if let Some(times) = report.value_or_note("sample times", perf_file.sample_time_range()) {
        report.number("first sample in ns", times.first_sample_time);
        report.number("last sample in ns", times.last_sample_time);
        let duration = times
            .last_sample_time
            .saturating_sub(times.first_sample_time);
        report.line(
            "duration",
            format_args!("{} ({duration} ns)", Duration(duration)),
        );
    }
}

// Writes the clock of the timestamps.
fn show_clock(perf_file: &PerfFile, report: &mut Report) {
    report.number_line("clock tick in ns", perf_file.clock_frequency());
    if let Some(clock) = report.value_or_note("clock", perf_file.clock_data()) {
        report.word("clock", clock_name(clock.clockid));
        report.number("clock number", clock.clockid as u64);
        report.number("clock time in ns", clock.clockid_time_ns);
        report.number("wall clock in ns", clock.wall_clock_ns);
    }
}

// Writes how the records are compressed.
fn show_compression(perf_file: &PerfFile, report: &mut Report) {
    if let Some(compression) = report.value_or_note("compression", perf_file.compression_info()) {
        report.number("compression type", compression.type_ as u64);
        report.number("compression version", compression.version as u64);
        report.number("compression level", compression.level as u64);
        report.number("compression ratio", compression.ratio as u64);
        report.number("compression buffer in bytes", compression.mmap_len as u64);
    }
}

// Writes the features, each with the size of its section in bytes.
fn show_features(perf_file: &PerfFile, report: &mut Report) {
    report.number("features", perf_file.features().len() as u64);
    for feature in perf_file.features().iter() {
        if let Some(section) = perf_file.feature_section_data(feature) {
            report.item(feature, section.len());
        }
    }
}

// Writes the performance monitoring units, ordered by number.
fn show_pmu_mappings(alloc: Global, perf_file: &PerfFile, report: &mut Report) {
    let section = perf_file.pmu_mappings(alloc);
    if let Some(units) = report.value_or_note("PMU mappings", section) {
        show_units(&units, report);
    }
}

// Writes the number and the name of each performance monitoring unit.
fn show_units(units: &PmuMappings, report: &mut Report) {
    report.number("PMU mappings", units.0.len() as u64);
    for (number, name) in units.0.iter() {
        report.item(*number, Escaped(name.as_bytes()));
    }
}

// Writes simpleperf's meta info, ordered by key.
fn show_meta_info(alloc: Global, perf_file: &PerfFile, report: &mut Report) {
    if let Some(values) = report.value_or_note("meta info", sorted_meta_info(alloc, perf_file)) {
        report.number("meta info", values.len() as u64);
        for (key, value) in values.iter() {
            report.item(Escaped(key.as_bytes()), Escaped(value.as_bytes()));
        }
    }
}

// Returns simpleperf's meta info, ordered by key.
fn sorted_meta_info(
    alloc: Global,
    perf_file: &PerfFile,
) -> Result<Option<BTreeMap<&str, &str>>, Error> {
    let Some(values) = perf_file.simpleperf_meta_info(alloc)? else {
        return Ok(None);
    };
    let mut sorted = BTreeMap::new(alloc);
    for (key, value) in values {
        sorted.insert(key, value)?;
    }
    Ok(Some(sorted))
}
