//! Command lines of the form `PROGRAM [OPTIONS] [FILE]`, and the program's exit status.
use crate::arguments::add_shared_options;
use crate::error::print_output_error;
use clap::error::ErrorKind;
use clap::{Arg, ArgMatches, Command, Error};
use std::alloc::{AllocError, Global};
use std::process::ExitCode;
use std::{env, io};

/// The version of all programs.
pub const VERSION: &str = "0.1.0";

/// The id of the argument that names the input.
pub const FILE: &str = "FILE";

/// The exit status at the end of the input.
pub const SUCCESS: u8 = 0;

/// The exit status for invalid arguments.
pub const USAGE_ERROR: u8 = 1;

/// The exit status for an input that can't be read to its end, and for output that can't be written.
pub const FAILURE: u8 = 2;

// The end of each help text.
const AFTER_HELP: &str =
    "Exit status: 0 at the end of the input, 1 for invalid arguments, 2 for an error.";

/// The help of `FILE` of a program that reads perf.data files and pipes.
pub const RECORDING_HELP: &str =
    "A perf.data file or a pipe of perf; '-' is standard input [default: standard input if it is a FIFO, else perf.data]";

/// The help of `FILE` of a program that also reads jitdumps.
pub const RECORDING_OR_JITDUMP_HELP: &str =
    "A perf.data file, a pipe of perf or a jitdump; '-' is standard input [default: standard input if it is a FIFO, else perf.data]";

/// A program with a command line.
pub trait Program {
    /// The program's name.
    const NAME: &'static str;

    /// Returns the command with its options.
    ///
    /// Fails if memory runs out.
    fn command<'a>(alloc: Global) -> Result<Command<'a>, AllocError>;

    /// Runs the program with its arguments. Returns the exit status.
    fn run(rt: &HostRuntime, matches: &ArgMatches<'_>) -> u8;
}

/// Creates the command of a program: its name, what it does, `FILE` with its help, the options that the
/// programs share, help and version.
pub fn command<'a>(
    alloc: Global,
    name: &'a str,
    about: &'a str,
    file_help: &'a str,
) -> Result<Command<'a>, AllocError> {
    let file = Arg::new(alloc, FILE).help(file_help);
    let command = Command::new(alloc, name)
        .about(about)
        .version(VERSION)
        .after_help(AFTER_HELP)
        .arg(file)?;
    add_shared_options(alloc, command)
}

// Prints why there are no arguments. Returns the exit status.
fn print_argument_error(rt: &HostRuntime, name: &str, error: &io::Error) -> u8 {
    if error.kind() == io::ErrorKind::OutOfMemory {
        let _ = eprintln!(rt; "{name}: out of memory");
        return FAILURE;
    }
    let _ = eprintln!(rt; "{name}: an argument isn't UTF-8");
    USAGE_ERROR
}

// Prints the help, the version or an error of the arguments. Returns the exit status.
fn print_clap_error(rt: &HostRuntime, name: &str, error: &Error) -> u8 {
    match (error.print(rt), error.kind()) {
        (Err(cause), ErrorKind::DisplayHelp | ErrorKind::DisplayVersion) => {
            print_output_error(rt, name, &cause)
        }
        (_, ErrorKind::DisplayHelp | ErrorKind::DisplayVersion) => SUCCESS,
        (_, ErrorKind::OutOfMemory) => FAILURE,
        _ => USAGE_ERROR,
    }
}

// Returns the command-line arguments, of which the first is the program's name. Fails if one isn't UTF-8, or
// if memory runs out.
fn arguments(rt: &HostRuntime) -> io::Result<Vec<String>> {
    Ok(env::args(rt)?.collect(rt.alloc())?)
}

// Parses the arguments of a program.
fn parse<'a, P: Program>(alloc: Global, words: &'a [String]) -> Result<ArgMatches<'a>, Error> {
    P::command(alloc)?.try_get_matches_from(words)
}

/// Runs a program: parses its command line, and runs it with its arguments. Returns its exit status, or
/// prints the help, the version or an error of the arguments.
pub fn run_program<P: Program>(rt: &HostRuntime) -> ExitCode {
    ExitCode::from(match arguments(rt) {
        Ok(words) => match parse::<P>(rt.alloc(), &words) {
            Ok(matches) => P::run(rt, &matches),
            Err(error) => print_clap_error(rt, P::NAME, &error),
        },
        Err(error) => print_argument_error(rt, P::NAME, &error),
    })
}
