//! The calls of listings.
use crate::case::{CaseResult, split_argument};
use crate::outcome::Call;
use crate::sources::error_kind;
use crate::text::Output;
use linux_perf_data::jitdump::JitDumpError;
use linux_perf_data::source::PlacedSource;
use perfdata_listing::list::{ListCause, ListFault, flush_listing, list_file, list_pipe};
use perfdata_listing::list_jit;
use perfdata_listing::output::{CountingBufWriter, finish};
use std::io::{Cursor, Error, ErrorKind, Result as IoResult, Write};

// The largest number of bytes that a source returns one by one.
const MAX_SINGLE_BYTES: usize = 70_000;

// A writer that accepts a number of bytes and then fails.
#[derive(Drop)]
struct Sink {
    written: Vec<u8>,
    capacity: usize,
    error: ErrorKind,
}

impl Write for Sink {
    fn write(&mut self, bytes: &[u8]) -> IoResult<usize> {
        let remaining = self.capacity.saturating_sub(self.written.len());
        let count = bytes.len().min(remaining);
        if count == 0 {
            return Err(Error::from(self.error));
        }
        self.written.extend_from_slice(&bytes[..count])?;
        Ok(count)
    }

    fn flush(&mut self) -> IoResult<()> {
        Ok(())
    }
}

// Appends the complete lines of a text, the number of lines that the listing reports if it is another one,
// and the end of the listing.
fn push_listed(out: &mut Output, text: &[u8], listed: &Result<u64, ListFault>) {
    let text = str::from_utf8(text).unwrap_or("");
    if let Some((lines, _)) = text.rsplit_once('\n') {
        writeln!(out, "{lines}");
    }
    let count = text.matches('\n').count() as u64;
    let reported = match listed {
        Ok(lines) => *lines,
        Err(fault) => fault.lines,
    };
    if reported != count {
        writeln!(out, "{reported} lines");
    }
    match listed {
        Ok(_) => write!(out, "end"),
        Err(fault) => match &fault.cause {
            ListCause::Perf(error) => out.push_error(error),
            ListCause::Write(error) => write!(out, "Write({:?})", error.kind()),
            ListCause::Read(error) => write!(out, "Read({:?})", error.kind()),
            ListCause::Jit(JitDumpError::Io(error)) => write!(out, "Jit(Io({:?}))", error.kind()),
            ListCause::Jit(error) => write!(out, "Jit({error:?})"),
        },
    }
    write!(out, "\n");
}

// Lists a source into the writer of the option `sink=fail-after(N)`, or one that takes everything.
fn push_source<C: PlacedSource + Drop>(call: &Call<'_>, source: C, out: &mut Output) -> CaseResult {
    let (_, limit) = split_argument(call.case.option("sink").unwrap_or(""));
    let mut sink = Sink {
        written: Vec::new(call.alloc),
        capacity: limit.parse::<usize>().unwrap_or(usize::MAX),
        error: error_kind(call.case.option("kind").unwrap_or("StorageFull"))?,
    };
    let listed = match call.case.call {
        "list-file" => list_file(call.alloc, source, &mut sink),
        "list-pipe" => list_pipe(call.alloc, source, &mut sink),
        _ => list_jit(call.alloc, source, &mut sink),
    };
    push_listed(out, &sink.written, &listed);
    Ok(())
}

/// Lists an input, and prints the complete lines. Of an input without pauses and errors, the listing of a
/// source that returns single bytes is appended if it differs.
pub fn push_listing(call: &Call<'_>, out: &mut Output) -> CaseResult {
    if !call.is_plain() {
        return push_source(call, call.script()?, out);
    }
    let mut first = Output::new(String::new(call.alloc));
    push_source(
        call,
        Cursor::new(Vec::from_slice(call.alloc, call.bytes)?),
        &mut first,
    )?;
    let first = first.finish()?;
    write!(out, "{first}");
    let mut other = Output::new(String::new(call.alloc));
    let mut single_bytes = *call;
    single_bytes.single_bytes = call.bytes.len().min(MAX_SINGLE_BYTES);
    push_source(call, single_bytes.script()?, &mut other)?;
    out.append_other(&first, "single bytes", other)
}

/// Prints the exit status after the listing of a file, and what is written to standard error.
pub fn push_finish(call: &Call<'_>, out: &mut Output) -> CaseResult {
    let mut buffer = CountingBufWriter::new(call.alloc, Vec::new(call.alloc))?;
    let listed = list_file(call.alloc, Cursor::new(call.bytes), &mut buffer);
    let mut errors = Vec::new(call.alloc);
    out.push_io_result(&finish(flush_listing(listed, &mut buffer), &mut errors));
    out.push_line(&str::from_utf8(&errors).unwrap_or("not UTF-8"));
    Ok(())
}
