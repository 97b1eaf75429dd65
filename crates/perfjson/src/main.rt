//! Writes the records of a `perf.data` file or of a pipe as JSON, one line a record.
#![tactic(auto)]

mod by_time;
mod listing;
mod options;
mod record_line;
mod selected;
mod tracked_line;

use clap::{ArgMatches, Command};
use listing::list_input;
use options::{Options, command_with_options};
use perfdata_cli::arguments::{parse_filter, print_selection_error};
use perfdata_cli::command_line::{Program, SUCCESS, run_program};
use perfdata_cli::error::print_error;
use perfdata_cli::input::{display_name, input_path};
use std::alloc::{AllocError, Global};
use std::process::ExitCode;

// The program's name.
const NAME: &str = "perfjson";

// The program.
struct Perfjson;

impl Program for Perfjson {
    const NAME: &'static str = NAME;

    fn command<'a>(alloc: Global) -> Result<Command<'a>, AllocError> {
        command_with_options(alloc, NAME)
    }

    // Lists the input that the arguments name. Returns the exit status.
    fn run(rt: &HostRuntime, matches: &ArgMatches<'_>) -> u8 {
        let options = Options::new(matches);
        let filter = match parse_filter(rt.alloc(), matches) {
            Ok(filter) => filter,
            Err(error) => return print_selection_error(rt, NAME, &error),
        };
        let path = input_path(rt, options.file);
        match list_input(rt, &options, filter, path) {
            Ok(()) => SUCCESS,
            Err(error) => print_error(rt, NAME, display_name(path), &error),
        }
    }
}

fn main(rt: HostRuntime) -> ExitCode {
    run_program::<Perfjson>(&rt)
}
