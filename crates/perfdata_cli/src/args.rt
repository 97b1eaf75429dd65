//! The command-line arguments `file PATH | pipe | jit PATH`.
ghost use Rattle.std.specs.Prelude.{◌≡◌, ◌↔◌, codes, Ok, Some, IsNone, IfSome, IfNone};
ghost use Rattle.std.specs.Vec.Iter.{into_iter_items};
ghost use Rattle.perfdata_cli.specs.Args.{ParsesArgs};
ghost use Rattle.perfdata_cli.specs.steps.Args.{ParsesVerb};

use std::env;
use std::env::Args;
use std::io::ErrorKind;
use std::rt::Env;

/// The command that the arguments select.
#[derive(Drop)]
pub enum Command {
    /// Read the perf.data file at this path.
    File(String),
    /// Read the pipe on standard input.
    Pipe,
    /// Read the jitdump file at this path.
    Jit(String),
}

/// The cause of a missing command.
#[derive(Clone, Copy, Debug, PartialEq, Eq)]
pub enum ArgsError {
    /// The arguments are invalid.
    Usage,
    /// Out of memory.
    OutOfMemory,
}

/// Parses the command-line arguments, as [`command_from_args`] does. Arguments that aren't UTF-8 are invalid.
pub fn parse_args<R: Env + AllocGlobal>(rt: &R) -> Result<Command, ArgsError> {
    match env::args(rt) {
        Ok(args) => command_from_args(args),
        Err(error) if error.kind() == ErrorKind::OutOfMemory => Err(ArgsError::OutOfMemory),
        Err(_) => Err(ArgsError::Usage),
    }
}

// The first argument.
#[derive(Clone, Copy)]
enum Verb {
    File,
    Pipe,
    Jit,
}

impl Verb {
    // Parses the first argument. Returns `None` if it is invalid.
    fn parse(argument: &str) -> Option<Verb>
        ensures file { (result ≡ Some Verb.File) ↔ (argument.now ≡ codes "file") }
        ensures pipe { (result ≡ Some Verb.Pipe) ↔ (argument.now ≡ codes "pipe") }
        ensures jit { (result ≡ Some Verb.Jit) ↔ (argument.now ≡ codes "jit") }
    {
        match argument {
            "file" => Some(Verb::File),
            "pipe" => Some(Verb::Pipe),
            "jit" => Some(Verb::Jit),
            _ => None,
        }
    }
}

/// Returns the command that the arguments select. The first of them is the program's name.
pub fn command_from_args(mut args: Args) -> Result<Command, ArgsError>
    ensures { ParsesArgs (into_iter_items args) result }
{
    let _program = args.next();
    let Some(verb) = args.next() else {
        return Err(ArgsError::Usage);
    };
    let path = args.next();
    if args.next().is_some() {
        return Err(ArgsError::Usage);
    }
    parse_command(verb.as_str(), path)
}

// Returns the command of the first argument and of the path, if there is one.
fn parse_command(verb: &str, path: Option<String>) -> Result<Command, ArgsError>
    ensures file { IfSome path (λ name. (result ≡ Ok (Command.File name)) ↔ (verb.now ≡ codes "file")) }
    ensures jit { IfSome path (λ name. (result ≡ Ok (Command.Jit name)) ↔ (verb.now ≡ codes "jit")) }
    ensures pipe { IfNone path ((result ≡ Ok Command.Pipe) ↔ (verb.now ≡ codes "pipe")) }
    ensures pipe_has_no_path { result ≡ Ok Command.Pipe → IsNone path }
    ensures parses { ParsesVerb verb.now path result }
{
    match (Verb::parse(verb), path) {
        (Some(Verb::File), Some(path)) => Ok(Command::File(path)),
        (Some(Verb::Pipe), None) => Ok(Command::Pipe),
        (Some(Verb::Jit), Some(path)) => Ok(Command::Jit(path)),
        _ => Err(ArgsError::Usage),
    }
}
