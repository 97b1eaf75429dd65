//! Writes the stacks of a recording's samples as folded lines, a flame graph, a profile, a page or a table.
#![tactic(auto)]

mod options;
mod output;

use clap::{ArgMatches, Command};
use code_files::PathError;
use linux_perf_data::PerfFile;
use options::{Arguments, FOCUS, IGNORE, command_with_options, meaningless_option};
use output::{FoldError, output_error, output_format, output_options};
use perfdata_cli::arguments::{parse_filter, recording_filter};
use perfdata_cli::command_line::{FAILURE, Program, SUCCESS, USAGE_ERROR, run_program};
use perfdata_cli::error::{InputError, ProgramError, print_content_end, print_error};
use perfdata_cli::input::{OpenInput, display_name, input_path};
use perfdata_cli::progress::Progress;
use perfdata_cli::recording::{Recording, RecordingRecords};
use perfdata_cli::text_output::TextOutput;
use perfdata_focus::FocusPatterns;
use perfdata_fold::counter::{CountedSamples, OldSamples, SampleCounter};
use perfdata_fold::format::OutputFormat;
use perfdata_fold::messages::print_messages;
use perfdata_fold::output::{no_output_reason, profile_bytes};
use perfdata_resolver::{FormatData, FrameResolver};
use perfdata_selection::error::SelectionError;
use perfdata_selection::options::FilterOptions;
use perfdata_views::differences::OldCounts;
use regex::bytes::Regex;
use std::alloc::{AllocError, Global};
use std::io;
use std::io::IsTerminal;
use std::process::ExitCode;

// The program's name.
const NAME: &str = "perffold";

// What the arguments select, parsed.
#[derive(Drop)]
struct Selection<'a> {
    filter: FilterOptions<'a>,
    patterns: FocusPatterns,
}

// What was read of an input.
#[derive(Drop)]
struct ReadInput<'a> {
    perf_file: PerfFile,
    counted: CountedSamples<'a>,
    resolver: FrameResolver<'a>,
    /// Why the records ended.
    read: Result<Result<(), InputError>, FoldError<'a>>,
}

// Counts all samples. A text of samples is written as it comes. Returns the number of records, or why they
// ended.
fn add_all(
    counter: &mut SampleCounter<'_>,
    records: &mut RecordingRecords,
    perf_file: &mut PerfFile,
    output: &mut TextOutput<'_>,
    progress: &mut Progress<'_>,
) -> io::Result<Result<u64, InputError>> {
    for _ in 0..u64::MAX {
        match counter.add_next(records, perf_file, progress) {
            Ok(true) => {}
            Ok(false) => break,
            Err(error) => return Ok(Err(error)),
        }
        if let Some(text) = counter.text() {
            output.add(text)?;
        }
    }
    Ok(Ok(counter.records))
}

// Writes what was counted, unless there is a reason not to: also the samples before an error.
fn write_read<'a>(
    rt: &HostRuntime,
    arguments: &Arguments<'a>,
    format: OutputFormat,
    old: Option<OldSamples<'_>>,
    input: ReadInput<'a>,
    output: TextOutput<'a>,
) -> Result<(), FoldError<'a>> {
    let ReadInput {
        perf_file,
        counted,
        mut resolver,
        read,
    } = input;
    let read = read?;
    let options = output_options(rt, arguments, format);
    let reason = no_output_reason(rt.alloc(), options, &perf_file, &counted);
    let reason = reason.map_err(|_| InputError::OutOfMemory)?;
    if counted.notes.lacks_cpu {
        output.remove();
        return Ok(read?);
    }
    if let Some(error) = resolver.take_kernel_list_error() {
        output.remove();
        return Err(error.into());
    }
    if let Some(reason) = reason {
        output.remove();
        read?;
        return Err(FoldError::NoOutput(reason));
    }
    let written = match resolver.data.text() {
        Some(text) => output.finish(text.as_slice()),
        None => {
            let data = &resolver.data;
            let bytes = profile_bytes(rt.alloc(), options, &perf_file, &counted, data, old);
            output.finish(bytes.map_err(|_| InputError::OutOfMemory)?.as_slice())
        }
    };
    written.map_err(|error| output_error(arguments, error))?;
    if !arguments.is_quiet {
        print_messages(rt, NAME, &perf_file, &counted, &resolver);
    }
    Ok(read?)
}

// Counts the samples of the input at a path. A text of samples is written as it comes.
fn read_input<'a>(
    rt: &'a HostRuntime,
    arguments: &Arguments<'a>,
    filter: FilterOptions<'a>,
    patterns: &'a FocusPatterns,
    format: OutputFormat,
    path: &str,
    output: &mut TextOutput<'a>,
) -> Result<ReadInput<'a>, FoldError<'a>> {
    let names = arguments.resolver_options(format);
    let resolver = FrameResolver::open(rt, &names, format.data(rt.alloc()))?;
    let input = OpenInput::open_recording(rt, path)?;
    let mut progress = Progress::start(rt, input.size).unless_quiet(arguments.is_quiet);
    let Recording { reader, kind } = Recording::open(rt.alloc(), input)?;
    if !arguments.is_quiet {
        print_content_end(rt, NAME, display_name(path), kind);
    }
    let mut perf_file = reader.perf_file;
    let mut records = RecordingRecords::new(rt.alloc(), kind, &perf_file, reader.record_iter);
    let filter = recording_filter(filter, &perf_file)?;
    let mut counter = SampleCounter::new(
        rt.alloc(),
        &perf_file,
        arguments.count_options(format),
        arguments.profile_options(format, patterns.is_given()),
        resolver,
        filter,
        patterns,
    )?;
    let read = add_all(
        &mut counter,
        &mut records,
        &mut perf_file,
        output,
        &mut progress,
    );
    progress.finish();
    let read = match read {
        Ok(read) => Ok(read.and_then(|records| kind.check_end(records))),
        Err(error) => Err(output_error(arguments, error)),
    };
    let Ok((counted, resolver)) = counter.finish(&perf_file) else {
        return Err(InputError::OutOfMemory.into());
    };
    Ok(ReadInput {
        perf_file,
        counted,
        resolver,
        read,
    })
}

// Counts the samples of the recording that another one is compared with.
fn read_old<'a>(
    rt: &'a HostRuntime,
    arguments: &Arguments<'a>,
    filter: FilterOptions<'a>,
    patterns: &'a FocusPatterns,
    format: OutputFormat,
    path: &str,
) -> Result<(PerfFile, CountedSamples<'a>, FrameResolver<'a>), FoldError<'a>> {
    let mut output = TextOutput::new(rt, arguments.output);
    let ReadInput {
        perf_file,
        counted,
        mut resolver,
        read,
    } = read_input(rt, arguments, filter, patterns, format, path, &mut output)?;
    let read = read?;
    read?;
    if let Some(error) = resolver.take_kernel_list_error() {
        return Err(error.into());
    }
    let options = output_options(rt, arguments, format);
    let reason = no_output_reason(rt.alloc(), options, &perf_file, &counted);
    if let Some(reason) = reason.map_err(|_| InputError::OutOfMemory)? {
        return Err(FoldError::NoOutput(reason));
    }
    if !arguments.is_quiet {
        print_messages(rt, NAME, &perf_file, &counted, &resolver);
    }
    Ok((perf_file, counted, resolver))
}

// Writes the profile of the input at a path, or how it differs from another one.
fn fold<'a>(
    rt: &'a HostRuntime,
    arguments: &Arguments<'a>,
    filter: FilterOptions<'a>,
    patterns: &'a FocusPatterns,
    format: OutputFormat,
    path: &str,
    old: Option<OldSamples<'_>>,
) -> Result<(), FoldError<'a>> {
    let mut output = TextOutput::new(rt, arguments.output);
    let input = read_input(rt, arguments, filter, patterns, format, path, &mut output)?;
    write_read(rt, arguments, format, old, input, output)
}

// Writes the profile of the input at a path, or how it differs from what was read of an old one. Returns the
// exit status.
fn write_selected<'a>(
    rt: &'a HostRuntime,
    arguments: &Arguments<'a>,
    filter: FilterOptions<'a>,
    patterns: &'a FocusPatterns,
    format: OutputFormat,
    path: &str,
    old: Option<(&PerfFile, &CountedSamples<'_>, &FormatData)>,
) -> u8 {
    let old = match old {
        Some((perf_file, counted, data)) => Some(OldSamples {
            perf_file,
            counted,
            data,
        }),
        None => None,
    };
    match fold(rt, arguments, filter, patterns, format, path, old) {
        Ok(()) => SUCCESS,
        Err(error) => print_fold_error(rt, path, error),
    }
}

// Writes how the input at a path differs from the one at an old path. The filters are those of the old and of
// the new one. Returns the exit status.
fn compare<'a>(
    rt: &'a HostRuntime,
    arguments: &Arguments<'a>,
    filters: (FilterOptions<'a>, FilterOptions<'a>),
    patterns: &'a FocusPatterns,
    format: OutputFormat,
    paths: (&str, &str),
) -> u8 {
    let (old_filter, filter) = filters;
    let (old_path, path) = paths;
    let read = read_old(rt, arguments, old_filter, patterns, format, old_path);
    let (perf_file, counted, resolver) = match read {
        Ok(read) => read,
        Err(error) => return print_fold_error(rt, old_path, error),
    };
    let old = (&perf_file, &counted, &resolver.data);
    write_selected(rt, arguments, filter, patterns, format, path, Some(old))
}

// Prints that the arguments are invalid. Returns the exit status.
fn print_usage_error(rt: &HostRuntime, text: &str) -> u8 {
    let _ = eprintln!(rt; "{NAME}: {text}");
    USAGE_ERROR
}

// Prints why options select nothing. Returns the exit status.
fn print_selection_error(rt: &HostRuntime, error: SelectionError) -> u8 {
    let hint = match error {
        SelectionError::Pids => ": --by-pid adds the ids of processes to the names of threads",
        SelectionError::Tids => ": --by-tid adds the ids of threads to their names",
        _ => "",
    };
    let _ = eprintln!(rt; "{NAME}: {error}{hint}");
    match error {
        SelectionError::Memory => FAILURE,
        _ => USAGE_ERROR,
    }
}

// Parses the pattern that an option gives. Fails with the exit status.
fn parse_pattern(
    rt: &HostRuntime,
    matches: &ArgMatches<'_>,
    name: &str,
) -> Result<Option<Regex>, u8> {
    let Some(text) = matches.get_str(name) else {
        return Ok(None);
    };
    match Regex::new(rt.alloc(), text) {
        Ok(pattern) => Ok(Some(pattern)),
        Err(_) => {
            let _ = eprintln!(rt; "{NAME}: --{name}: not a regular expression: {text}");
            Err(USAGE_ERROR)
        }
    }
}

// Parses what the arguments select. Fails with the exit status.
fn parse_selection<'a>(rt: &HostRuntime, matches: &ArgMatches<'a>) -> Result<Selection<'a>, u8> {
    let filter = match parse_filter(rt.alloc(), matches) {
        Ok(filter) => filter,
        Err(error) => return Err(print_selection_error(rt, error)),
    };
    let patterns = FocusPatterns {
        focus: parse_pattern(rt, matches, FOCUS)?,
        ignore: parse_pattern(rt, matches, IGNORE)?,
    };
    Ok(Selection { filter, patterns })
}

// Returns why the arguments can't be used with a format.
fn format_error(
    rt: &HostRuntime,
    arguments: &Arguments<'_>,
    format: OutputFormat,
) -> Option<&'static str> {
    let is_to_terminal = arguments.output.is_none() && rt.stdout().is_terminal();
    if format == OutputFormat::Pprof && is_to_terminal {
        return Some("a profile isn't written to a terminal: name a file with -o");
    }
    if arguments.old_counts == OldCounts::Scaled && arguments.diff.is_none() {
        return Some("--normalize has no meaning without --diff");
    }
    if arguments.min_share.is_none() {
        return Some("--min-percent: not a number from 0 to 100");
    }
    None
}

// Prints why an input isn't folded. Returns the exit status.
fn print_fold_error(rt: &HostRuntime, path: &str, error: FoldError<'_>) -> u8 {
    match error {
        FoldError::Program(error) => print_error(rt, NAME, display_name(path), &error),
        FoldError::File(PathError { path, error }) => {
            print_error(rt, NAME, path, &ProgramError::Input(InputError::Io(error)))
        }
        FoldError::NoOutput(reason) => {
            let reason = String::from_utf8(reason);
            let reason = reason
                .as_ref()
                .map_or("no samples", |reason| reason.as_str());
            let _ = eprintln!(rt; "{NAME}: {}: {reason}", display_name(path));
            FAILURE
        }
    }
}

// The program.
struct Perffold;

impl Program for Perffold {
    const NAME: &'static str = NAME;

    fn command<'a>(alloc: Global) -> Result<Command<'a>, AllocError> {
        command_with_options(alloc, NAME)
    }

    // Folds the input that the arguments name. Returns the exit status.
    fn run(rt: &HostRuntime, matches: &ArgMatches<'_>) -> u8 {
        let arguments = Arguments::new(matches);
        let format = output_format(rt, &arguments);
        if let Some(error) = format_error(rt, &arguments, format) {
            return print_usage_error(rt, error);
        }
        if let Some(option) = meaningless_option(matches, format) {
            let _ = eprintln!(rt; "{NAME}: --{option} has no meaning for this format");
            return USAGE_ERROR;
        }
        let Selection { filter, patterns } = match parse_selection(rt, matches) {
            Ok(selection) => selection,
            Err(status) => return status,
        };
        let path = input_path(rt, arguments.options.file);
        let Some(old_path) = arguments.diff else {
            return write_selected(rt, &arguments, filter, &patterns, format, path, None);
        };
        let filters = match parse_filter(rt.alloc(), matches) {
            Ok(old_filter) => (old_filter, filter),
            Err(error) => return print_selection_error(rt, error),
        };
        compare(rt, &arguments, filters, &patterns, format, (old_path, path))
    }
}

fn main(rt: HostRuntime) -> ExitCode {
    run_program::<Perffold>(&rt)
}
