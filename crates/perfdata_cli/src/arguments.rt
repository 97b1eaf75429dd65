//! The options that the programs share: the input, which samples are selected, and messages.

use crate::command_line::{FAILURE, FILE, USAGE_ERROR};
use crate::error::InputError;
use clap::{Arg, ArgAction, ArgMatches, Command};
use linux_perf_data::PerfFile;
use perfdata_selection::error::SelectionError;
use perfdata_selection::filter::{NumberRange, SampleFilter};
use perfdata_selection::options::{FilterOptions, FilterTexts};
use std::alloc::{AllocError, Global};
use std::io;

// The ids of the options, which are their long names.
const INPUT: &str = "input";

const QUIET: &str = "quiet";

const COMM: &str = "comm";

const PID: &str = "pid";

const TID: &str = "tid";

const CPU: &str = "cpu";

const TIME: &str = "time";

/// The options that select samples.
pub const FILTERS: [&str; 5] = [COMM, PID, TID, CPU, TIME];

/// An option of the command line.
#[derive(Clone, Copy)]
pub struct OptionText {
    /// The long name, which is the id.
    pub name: &'static str,
    /// The name of its value, unless it is a flag.
    pub value: Option<&'static str>,
    /// The options that it can't be given with.
    pub conflicts: &'static [&'static str],
    /// What it does.
    pub help: &'static str,
}

// The options that the programs share.
const OPTIONS: &[OptionText] = &[
    OptionText {
        name: INPUT,
        value: Some("FILE"),
        conflicts: &[FILE],
        help: "Read FILE, as the argument without a name",
    },
    OptionText {
        name: COMM,
        value: Some("NAME,.."),
        conflicts: &[],
        help: "Select the samples of threads with these names",
    },
    OptionText {
        name: PID,
        value: Some("N,.."),
        conflicts: &[],
        help: "Select the samples of these processes",
    },
    OptionText {
        name: TID,
        value: Some("N,.."),
        conflicts: &[],
        help: "Select the samples of these threads",
    },
    OptionText {
        name: CPU,
        value: Some("N,A-B,.."),
        conflicts: &[],
        help: "Select the samples of these processors",
    },
    OptionText {
        name: TIME,
        value: Some("TIMES"),
        conflicts: &[],
        help: concat!(
            "Select the samples from A to B: A,B in seconds, either of which may be left out, several ",
            "with a blank between them; or percent of the recording, A%-B%, A% or A%/N, the Nth part of ",
            "A%, several with commas"
        ),
    },
    OptionText {
        name: QUIET,
        value: None,
        conflicts: &[],
        help: "Print no messages but errors",
    },
];

impl OptionText {
    /// Returns the argument: a flag, or an option with a value.
    ///
    /// Fails if memory runs out.
    pub fn argument(&self, alloc: Global) -> Result<Arg<'static>, AllocError> {
        let arg = Arg::new(alloc, self.name).long(self.name).help(self.help);
        let arg = match self.value {
            Some(value) => arg.value_name(value),
            None => arg.action(ArgAction::SetTrue),
        };
        arg.conflicts_with_all(self.conflicts)
    }
}

// Returns an argument with what only it has: a short name, or a value that may be missing, which the message
// of a list without numbers then names.
fn completed<'a>(name: &str, arg: Arg<'a>) -> Arg<'a> {
    match name {
        INPUT => arg.short('i'),
        PID | TID => arg.num_args(0..=1).default_missing_value(""),
        _ => arg,
    }
}

/// Adds the options that the programs share.
///
/// Fails if memory runs out.
pub(crate) fn add_shared_options<'a>(
    alloc: Global,
    mut command: Command<'a>,
) -> Result<Command<'a>, AllocError> {
    for option in OPTIONS {
        let arg = option.argument(alloc)?;
        command = command.arg(completed(option.name, arg))?;
    }
    Ok(command)
}

/// Returns the input that the arguments name.
pub fn input_argument<'a>(matches: &ArgMatches<'a>) -> Option<&'a str> {
    matches.get_str(INPUT).or(matches.get_str(FILE))
}

/// Returns whether no messages but errors are printed.
pub fn is_quiet(matches: &ArgMatches<'_>) -> bool {
    matches.get_flag(QUIET)
}

/// Returns whether an option selects samples.
pub fn has_filter(matches: &ArgMatches<'_>) -> bool {
    FILTERS.iter().any(|name| matches.get_str(*name).is_some())
}

/// Parses which samples are selected.
///
/// Fails with the error of the first option whose value has no known form, or if memory runs out.
pub fn parse_filter<'a>(
    alloc: Global,
    matches: &ArgMatches<'a>,
) -> Result<FilterOptions<'a>, SelectionError> {
    FilterOptions::parse(
        alloc,
        FilterTexts {
            comm: matches.get_str(COMM),
            pid: matches.get_str(PID),
            tid: matches.get_str(TID),
            cpu: matches.get_str(CPU),
            time: matches.get_str(TIME),
        },
    )
}

/// Prints why the values of options select nothing. Returns the exit status.
pub fn print_selection_error(rt: &HostRuntime, program: &str, error: &SelectionError) -> u8 {
    let _ = eprintln!(rt; "{program}: {error}");
    match error {
        SelectionError::Memory => FAILURE,
        _ => USAGE_ERROR,
    }
}

// Returns the times of the first and the last sample, which percent are parts of. All times are returned if
// no percent were given.
fn recorded_times(has_parts: bool, perf_file: &PerfFile) -> Result<NumberRange, InputError> {
    let all = NumberRange {
        first: 0,
        last: u64::MAX,
    };
    if !has_parts {
        return Ok(all);
    }
    match perf_file.sample_time_range() {
        Ok(Some(times)) if times.last_sample_time != 0 => Ok(NumberRange {
            first: times.first_sample_time,
            last: times.last_sample_time,
        }),
        _ => {
            let text = "--time: no percent: the recording doesn't have the times of its samples";
            Err(InputError::Io(io::Error::other(text)))
        }
    }
}

/// Returns which samples of a recording are selected.
///
/// Fails if percent are given and the recording doesn't have the times of its first and last sample, and if
/// memory runs out.
pub fn recording_filter<'a>(
    options: FilterOptions<'a>,
    perf_file: &PerfFile,
) -> Result<SampleFilter<'a>, InputError> {
    let times = recorded_times(options.has_parts(), perf_file)?;
    options.filter(times).map_err(|_| InputError::OutOfMemory)
}

/// Returns the error of a sample without a processor, if processors are selected.
pub fn missing_cpu_error() -> io::Error {
    io::Error::other("--cpu: samples have no CPU")
}
