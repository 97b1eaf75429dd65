//! Lists the records of a `perf.data` file, of a pipe, or of a jitdump file, one line a record.
#![tactic(auto)]

mod dump;

use dump::Dump;
use linux_perf_data::source::Counted;
use perfdata_cli::args::{ArgsError, Command, parse_args};
use perfdata_cli::input::{open_file, open_stdin};
use perfdata_listing::{
    CountingBufWriter, finish, flush_listing, list_file, list_live_jit, list_live_pipe, write_line,
};
use std::fs::File;
use std::process::ExitCode;

// The text on standard error for invalid arguments.
const USAGE: &[u8] = b"usage: perflist file PATH | pipe | jit PATH\n";

// Lists a perf.data file on standard output. Returns the number of its records, or the number of lines that
// were written before an error.
fn run_file(rt: &HostRuntime, path: &str) -> Result<u64, u64> {
    let Ok(file) = open_file(rt, path) else {
        return Err(0);
    };
    let Ok(mut out) = CountingBufWriter::new(rt.alloc(), rt.stdout()) else {
        return Err(0);
    };
    let listed = list_file(rt.alloc(), file, &mut out);
    flush_listing(listed, &mut out)
}

// Lists the pipe on standard input, with the results of `run_file`.
fn run_pipe(rt: &HostRuntime) -> Result<u64, u64> {
    let Ok(input) = open_stdin(rt) else {
        return Err(0);
    };
    let Ok(mut out) = CountingBufWriter::new(rt.alloc(), rt.stdout()) else {
        return Err(0);
    };
    let listed = list_live_pipe(rt.alloc(), input, &mut out);
    flush_listing(listed, &mut out)
}

// Lists a jitdump, with the results of `run_file`. The path names a file or a pipe.
fn run_jit(rt: &HostRuntime, path: &str) -> Result<u64, u64> {
    let Ok(file) = File::open(rt, path) else {
        return Err(0);
    };
    let Ok(dump) = Dump::new(rt.alloc(), file) else {
        return Err(0);
    };
    let Ok(mut out) = CountingBufWriter::new(rt.alloc(), rt.stdout()) else {
        return Err(0);
    };
    let listed = list_live_jit(rt.alloc(), Counted::new(dump), &mut out);
    flush_listing(listed, &mut out)
}

// Reports how the listing ended, and returns the exit status.
fn exit_status(rt: &HostRuntime, outcome: Result<u64, u64>) -> u8 {
    finish(outcome, &mut rt.stderr()).unwrap_or(2)
}

fn main(rt: HostRuntime) -> ExitCode {
    let status = match parse_args(&rt) {
        Ok(Command::File(path)) => exit_status(&rt, run_file(&rt, path.as_str())),
        Ok(Command::Pipe) => exit_status(&rt, run_pipe(&rt)),
        Ok(Command::Jit(path)) => exit_status(&rt, run_jit(&rt, path.as_str())),
        Err(ArgsError::Usage) => {
            let _ = write_line(&mut rt.stderr(), USAGE);
            1
        }
        Err(ArgsError::OutOfMemory) => exit_status(&rt, Err(0)),
    };
    ExitCode::from(status)
}
