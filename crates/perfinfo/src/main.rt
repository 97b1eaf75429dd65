//! Prints a report on a `perf.data` file, a pipe or a jitdump: one `name: value` pair a line, with indented
//! lists.
#![tactic(auto)]

mod build_ids;
mod counting;
mod escaped_text;
mod events;
mod header_info;
mod jit;
mod names;
mod record_statistics;
mod records;
mod report;
mod samples;
mod summary;
mod times;

use clap::{ArgMatches, Command};
use jit::JitCounts;
use linux_perf_data::PerfFile;
use linux_perf_data::jitdump::{JitDumpError, JitDumpReader};
use perfdata_cli::arguments::{
    input_argument, is_quiet, missing_cpu_error, parse_filter, print_selection_error,
    recording_filter,
};
use perfdata_cli::command_line::{
    Program, RECORDING_OR_JITDUMP_HELP, SUCCESS, command, run_program,
};
use perfdata_cli::error::{InputError, ProgramError, print_content_end, print_error};
use perfdata_cli::input::{InputKind, OpenInput, display_name, input_path};
use perfdata_cli::input_bytes::Source;
use perfdata_cli::progress::Progress;
use perfdata_cli::recording::{Recording, RecordingRecords};
use perfdata_selection::options::FilterOptions;
use records::RecordCounts;
use report::Report;
use std::alloc::{AllocError, Global};
use std::process::ExitCode;

// The program's name.
const NAME: &str = "perfinfo";

// What the program does.
const ABOUT: &str = concat!(
    "Summarizes a perf.data file, a pipe or a jitdump: the command, the machine, samples by event, process ",
    "and file, the events, the records by type, processes and threads, mappings, lost records, context ",
    "switches and build ids.",
);

// What the arguments select beside the input.
#[derive(Drop)]
struct Arguments<'a> {
    filter: FilterOptions<'a>,
    is_quiet: bool,
}

// Reads the records of a file or pipe to their end or to the first error, and prints the report.
fn report_records(
    rt: &HostRuntime,
    arguments: Arguments<'_>,
    recording: Recording,
    size: Option<u64>,
) -> Result<(), ProgramError> {
    let Recording { reader, kind } = recording;
    let mut perf_file = reader.perf_file;
    let filter = recording_filter(arguments.filter, &perf_file)?;
    let mut records = RecordingRecords::new(rt.alloc(), kind, &perf_file, reader.record_iter);
    let mut progress = Progress::start(rt, size).unless_quiet(arguments.is_quiet);
    let mut counts = RecordCounts::new(rt.alloc(), filter);
    let read = counts.read(rt.alloc(), &mut perf_file, &mut records, &mut progress);
    progress.finish();
    if counts.samples.lacks_cpu {
        return Err(InputError::Io(missing_cpu_error()).into());
    }
    let printed = print_report(rt, &perf_file, &counts);
    kind.check_end(read?)?;
    printed
}

// Writes the report on the metadata and the records of a file or pipe.
fn write_report(
    alloc: Global,
    perf_file: &PerfFile,
    counts: &RecordCounts<'_>,
    report: &mut Report,
) -> Result<(), AllocError> {
    summary::show(alloc, perf_file, counts, report)?;
    header_info::show(alloc, perf_file, report);
    events::show(perf_file, counts, report);
    records::show(counts, report);
    record_statistics::show(alloc, &counts.statistics, report)?;
    build_ids::show(alloc, perf_file, report);
    Ok(())
}

// Prints the report on the metadata and the records of a file or pipe.
fn print_report(
    rt: &HostRuntime,
    perf_file: &PerfFile,
    counts: &RecordCounts<'_>,
) -> Result<(), ProgramError> {
    let mut report = Report::new(rt.alloc(), rt.stdout()).map_err(InputError::Io)?;
    write_report(rt.alloc(), perf_file, counts, &mut report).map_err(|_| InputError::OutOfMemory)?;
    report.finish()
}

// Reads the records of a jitdump to the last complete one or to the first error, and prints the report.
fn report_jit_records(
    rt: &HostRuntime,
    reader: &mut JitDumpReader<Source>,
) -> Result<(), ProgramError> {
    let mut counts = JitCounts::new(rt.alloc());
    let read = counts.read(rt.alloc(), reader);
    let printed = print_jit_report(rt, reader, &counts);
    read?;
    printed
}

// Reports on a jitdump that was opened.
fn report_jitdump(
    rt: &HostRuntime,
    opened: Result<JitDumpReader<Source>, JitDumpError>,
) -> Result<(), ProgramError> {
    match opened {
        Ok(mut reader) => report_jit_records(rt, &mut reader),
        Err(error) => Err(InputError::JitHeader(error).into()),
    }
}

// Prints the report on the header and the records of a jitdump.
fn print_jit_report(
    rt: &HostRuntime,
    reader: &JitDumpReader<Source>,
    counts: &JitCounts,
) -> Result<(), ProgramError> {
    let mut report = Report::new(rt.alloc(), rt.stdout()).map_err(InputError::Io)?;
    jit::show(reader, counts, &mut report);
    report.finish()
}

// Prints the report on the input at a path.
fn report_input(
    rt: &HostRuntime,
    arguments: Arguments<'_>,
    path: &str,
) -> Result<(), ProgramError> {
    let input = OpenInput::open_recording(rt, path)?;
    if input.kind == Some(InputKind::JitDump) {
        let source = input.into_source(rt.alloc()).map_err(InputError::Io)?;
        return report_jitdump(rt, JitDumpReader::new(rt.alloc(), source));
    }
    let size = input.size;
    let recording = Recording::open(rt.alloc(), input)?;
    if !arguments.is_quiet {
        print_content_end(rt, NAME, display_name(path), recording.kind);
    }
    report_records(rt, arguments, recording, size)
}

// The program.
struct Perfinfo;

impl Program for Perfinfo {
    const NAME: &'static str = NAME;

    fn command<'a>(alloc: Global) -> Result<Command<'a>, AllocError> {
        command(alloc, NAME, ABOUT, RECORDING_OR_JITDUMP_HELP)
    }

    // Reports on the input that the arguments name. Returns the exit status.
    fn run(rt: &HostRuntime, matches: &ArgMatches<'_>) -> u8 {
        let filter = match parse_filter(rt.alloc(), matches) {
            Ok(filter) => filter,
            Err(error) => return print_selection_error(rt, NAME, &error),
        };
        let arguments = Arguments {
            filter,
            is_quiet: is_quiet(matches),
        };
        let path = input_path(rt, input_argument(matches));
        match report_input(rt, arguments, path) {
            Ok(()) => SUCCESS,
            Err(error) => print_error(rt, NAME, display_name(path), &error),
        }
    }
}

fn main(rt: HostRuntime) -> ExitCode {
    run_program::<Perfinfo>(&rt)
}
