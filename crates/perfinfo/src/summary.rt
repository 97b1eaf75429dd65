//! Prints the first lines: the command, the host, the time, and the samples by event, process and file.
use crate::counting::{CountOf, ranked};
use crate::escaped_text::Escaped;
use crate::header_info::CommandLine;
use crate::records::RecordCounts;
use crate::report::{Report, Spaced};
use crate::samples::SampleCounts;
use crate::times::{Duration, Seconds};
use linux_perf_data::PerfFile;
use perfdata_overview::event_name::event_name;
use std::alloc::{AllocError, Global};
use std::collections::BTreeMap;
use std::fmt;
use std::fmt::{Display, Write};

// Maximum number of processes, and of files.
const MAX_ENTRIES: usize = 20;

/// Writes the first lines, of which one is left out if its value isn't known, and an empty line.
///
/// Fails if memory runs out.
pub(crate) fn show(
    alloc: Global,
    perf_file: &PerfFile,
    counts: &RecordCounts<'_>,
    report: &mut Report,
) -> Result<(), AllocError> {
    show_command(alloc, perf_file, report);
    show_host(perf_file, report);
    show_time(&counts.samples, report);
    show_total(counts, report);
    show_events(alloc, perf_file, &counts.samples, report)?;
    show_processes(alloc, counts, report)?;
    show_files(alloc, counts, report)?;
    report.empty_line();
    Ok(())
}

// Writes the command that recorded.
fn show_command(alloc: Global, perf_file: &PerfFile, report: &mut Report) {
    if let Ok(Some(words)) = perf_file.cmdline(alloc) {
        report.line("command", CommandLine(words.as_slice()));
    }
}

// The machine of a recording.
#[derive(Clone, Copy)]
struct Host<'a> {
    name: Option<&'a str>,
    release: Option<&'a str>,
    architecture: Option<&'a str>,
    online_cpus: Option<u32>,
}

impl<'a> Host<'a> {
    // Returns the machine of a recording. What can't be read isn't known.
    fn new(perf_file: &'a PerfFile) -> Host<'a> {
        Host {
            name: perf_file.hostname().ok().flatten(),
            release: perf_file.os_release().ok().flatten(),
            architecture: perf_file.arch().ok().flatten(),
            online_cpus: match perf_file.nr_cpus() {
                Ok(Some(cpus)) => Some(cpus.nr_cpus_online),
                _ => None,
            },
        }
    }

    // Returns whether something is known.
    fn is_known(&self) -> bool {
        let has_text = self.name.is_some() || self.release.is_some() || self.architecture.is_some();
        has_text || self.online_cpus.is_some()
    }
}

impl Display for Host<'_> {
    fn fmt<W: fmt::Write>(&self, f: &mut fmt::Formatter<W>) -> fmt::Result {
        let mut separator = "";
        if let Some(name) = self.name {
            write!(f, "{}", Escaped(name.as_bytes()))?;
            separator = ", ";
        }
        if let Some(release) = self.release {
            write!(f, "{separator}Linux {}", Escaped(release.as_bytes()))?;
            separator = ", ";
        }
        if let Some(architecture) = self.architecture {
            write!(f, "{separator}{}", Escaped(architecture.as_bytes()))?;
            separator = ", ";
        }
        if let Some(cpus) = self.online_cpus {
            write!(f, "{separator}{cpus} CPUs")?;
        }
        Ok(())
    }
}

// Writes what is known of the machine.
fn show_host(perf_file: &PerfFile, report: &mut Report) {
    let host = Host::new(perf_file);
    if host.is_known() {
        report.line("host", host);
    }
}

// Writes the times of the first and the last sample.
fn show_time(samples: &SampleCounts<'_>, report: &mut Report) {
    if let Some((first, last)) = samples.times {
        let duration = Duration(last.saturating_sub(first));
        report.line(
            "time",
            format_args!("{} to {} s, {duration}", Seconds(first), Seconds(last)),
        );
    }
}

// Displays the number of selected samples, of all samples if they are more, and of lost ones if there are.
#[derive(Clone, Copy)]
struct SampleTotal {
    selected: u64,
    recorded: u64,
    lost: u64,
}

impl Display for SampleTotal {
    fn fmt<W: fmt::Write>(&self, f: &mut fmt::Formatter<W>) -> fmt::Result {
        write!(f, "{}", self.selected)?;
        if self.recorded != self.selected {
            write!(f, " of {}", self.recorded)?;
        }
        if self.lost != 0 {
            write!(f, ", {} lost", self.lost)?;
        }
        Ok(())
    }
}

// Returns the number of samples of the events with each name.
fn samples_by_name<'a>(
    alloc: Global,
    perf_file: &'a PerfFile,
    samples: &SampleCounts<'_>,
) -> Result<BTreeMap<&'a str, u64>, AllocError> {
    let mut totals = BTreeMap::new(alloc);
    for (index, event) in perf_file.event_attributes().iter().enumerate() {
        if let Some(name) = event_name(event) {
            let total = totals.entry(name)?.or_insert(0u64);
            *total = total.saturating_add(samples.of_event(index));
        }
    }
    Ok(totals)
}

// Writes the number of samples of the events with each name, in the order of attributes. An event without a
// name, also that of its type, has its index.
fn show_events(
    alloc: Global,
    perf_file: &PerfFile,
    samples: &SampleCounts<'_>,
    report: &mut Report,
) -> Result<(), AllocError> {
    let mut totals = samples_by_name(alloc, perf_file, samples)?;
    for (index, event) in perf_file.event_attributes().iter().enumerate() {
        let Some(name) = event_name(event) else {
            report.item(Spaced("event", index), samples.of_event(index));
            continue;
        };
        if let Some(total) = totals.remove(name) {
            report.item(Escaped(name.as_bytes()), total);
        }
    }
    Ok(())
}

// Writes the number of samples.
fn show_total(counts: &RecordCounts<'_>, report: &mut Report) {
    report.line(
        "samples by event",
        SampleTotal {
            selected: counts.samples.selected,
            recorded: counts.samples.recorded,
            lost: counts.statistics.lost(),
        },
    );
}

// The name of a process.
#[derive(Clone, Copy)]
enum ProcessName<'a> {
    Comm(&'a [u8]),
    Idle,
    Unnamed(i32),
}

impl<'a> ProcessName<'a> {
    // Returns the name of a process, whose main thread has this one.
    fn new(pid: i32, comm: &'a [u8]) -> ProcessName<'a> {
        if !comm.is_empty() {
            ProcessName::Comm(comm)
        } else if pid == 0 {
            ProcessName::Idle
        } else {
            ProcessName::Unnamed(pid)
        }
    }
}

impl Display for ProcessName<'_> {
    fn fmt<W: fmt::Write>(&self, f: &mut fmt::Formatter<W>) -> fmt::Result {
        match self {
            ProcessName::Comm(comm) => write!(f, "{}", Escaped(*comm)),
            ProcessName::Idle => f.write_str("swapper"),
            ProcessName::Unnamed(pid) => write!(f, ":{pid}"),
        }
    }
}

// Writes the number of entries after the first ones, and of their samples, if there are such entries.
fn show_others<K>(entries: &[CountOf<'_, K>], report: &mut Report) {
    let others = entries.get(MAX_ENTRIES..).unwrap_or(&[]);
    let mut samples = 0u64;
    for (_, count) in others {
        samples = samples.saturating_add(**count);
    }
    if !others.is_empty() {
        report.item(format_args!("and {} more", others.len()), samples);
    }
}

// Writes the processes with the most samples.
fn show_processes(
    alloc: Global,
    counts: &RecordCounts<'_>,
    report: &mut Report,
) -> Result<(), AllocError> {
    let entries = ranked(alloc, &counts.samples.by_process)?;
    if !entries.is_empty() {
        report.number("samples by process", entries.len() as u64);
    }
    for (pid, count) in entries.iter().take(MAX_ENTRIES) {
        let name = ProcessName::new(**pid, counts.statistics.process_name(**pid));
        report.item(Spaced(name, **pid), **count);
    }
    show_others(&entries, report);
    Ok(())
}

// Writes the files with the most samples.
fn show_files(
    alloc: Global,
    counts: &RecordCounts<'_>,
    report: &mut Report,
) -> Result<(), AllocError> {
    let files = counts.samples.by_file(alloc, &counts.spaces)?;
    let entries = ranked(alloc, &files)?;
    if !entries.is_empty() {
        report.number("samples by file", entries.len() as u64);
    }
    for (name, count) in entries.iter().take(MAX_ENTRIES) {
        report.item(Escaped(**name), **count);
    }
    show_others(&entries, report);
    Ok(())
}
