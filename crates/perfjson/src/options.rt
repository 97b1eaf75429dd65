//! The program's command line.
use clap::{Arg, ArgAction, ArgMatches, Command, value_parser};
use perfdata_cli::arguments::{has_filter, input_argument, is_quiet};
use perfdata_cli::command_line::{RECORDING_HELP, command};
use std::alloc::{AllocError, Global};

// What the program does.
const ABOUT: &str = "Writes each record of a perf.data file or a pipe as a line of JSON.";

// The id of the option of the byte limit.
const BYTES: &str = "bytes";

// The id of the flag for the order of time.
const BY_TIME: &str = "by-time";

// Number of bytes that are written of bytes that are no text, without `--bytes`.
const DEFAULT_BYTE_LIMIT: usize = 64;

/// What the arguments select.
#[derive(Clone, Copy)]
pub struct Options<'a> {
    /// The input, if one is named.
    pub file: Option<&'a str>,
    /// Number of bytes that are written of bytes that are no text.
    pub byte_limit: usize,
    /// Whether the records are listed in order of time.
    pub is_by_time: bool,
    /// Whether only selected samples are listed.
    pub is_filtered: bool,
    /// Whether no messages but errors are printed.
    pub is_quiet: bool,
}

/// Returns the command with its options.
pub fn command_with_options<'a>(alloc: Global, name: &'a str) -> Result<Command<'a>, AllocError> {
    let by_time = Arg::new(alloc, BY_TIME)
        .long(BY_TIME)
        .action(ArgAction::SetTrue)
        .help("Write the records in order of time; a file is read into memory first");
    let bytes = Arg::new(alloc, BYTES)
        .long(BYTES)
        .value_name("N")
        .value_parser(value_parser!(usize))
        .help("Write the first N bytes of raw data, stacks and aux data [default: 64]");
    command(alloc, name, ABOUT, RECORDING_HELP)?
        .arg(by_time)?
        .arg(bytes)
}

impl<'a> Options<'a> {
    /// Returns what parsed arguments select.
    pub fn new(matches: &ArgMatches<'a>) -> Options<'a> {
        Options {
            file: input_argument(matches),
            byte_limit: matches
                .get_one::<usize>(BYTES)
                .unwrap_or(DEFAULT_BYTE_LIMIT),
            is_by_time: matches.get_flag(BY_TIME),
            is_filtered: has_filter(matches),
            is_quiet: is_quiet(matches),
        }
    }
}
