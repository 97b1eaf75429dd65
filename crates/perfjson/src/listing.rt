//! Lists an input on standard output.
use crate::NAME;
use crate::by_time::list_input_by_time;
use crate::options::Options;
use crate::record_line::RecordLine;
use crate::selected::list_selected;
use crate::tracked_line::TrackedLine;
use linux_perf_data::{Error, PerfFile, PerfFileReader, PerfRecordIter};
use perfdata_cli::error::{InputError, ProgramError, print_content_end};
use perfdata_cli::input::{OpenInput, display_name};
use perfdata_cli::input_bytes::Source;
use perfdata_cli::position::Position;
use perfdata_cli::progress::Progress;
use perfdata_cli::recording::{Recording, RecordingKind};
use perfdata_json::JsonLine;
use perfdata_listing::{
    CountingBufWriter, ListCause, ListFault, list_live_pipe_lines, write_record,
};
use perfdata_selection::options::FilterOptions;
use std::io::Write;
use std::rt::Stdout;

/// Standard output in a buffer.
pub(crate) type Output = CountingBufWriter<Stdout>;

/// Lists the input at a path.
pub(crate) fn list_input(
    rt: &HostRuntime,
    options: &Options<'_>,
    filter: FilterOptions<'_>,
    path: &str,
) -> Result<(), ProgramError> {
    let input = OpenInput::open_recording(rt, path)?;
    let is_pipe = input.is_pipe()?;
    if options.is_filtered {
        list_selected(rt, options, filter, input, path)
    } else if options.is_by_time {
        list_input_by_time(rt, options, input, is_pipe, path)
    } else if is_pipe {
        list_pipe(rt, options, input)
    } else {
        list_file(rt, options, input, path)
    }
}

/// Prints where the compressed data of the input at a path end, unless no messages are wanted.
pub(crate) fn show_content_end(
    rt: &HostRuntime,
    options: &Options<'_>,
    path: &str,
    kind: RecordingKind,
) {
    if !options.is_quiet {
        print_content_end(rt, NAME, display_name(path), kind);
    }
}

/// Returns standard output in a buffer.
pub(crate) fn output(rt: &HostRuntime) -> Result<Output, InputError> {
    CountingBufWriter::new(rt.alloc(), rt.stdout()).map_err(|_| InputError::OutOfMemory)
}

// Writes the line of the next record. Returns whether there is one.
fn list_next(
    records: &mut PerfRecordIter<Source>,
    perf_file: &mut PerfFile,
    line: &mut TrackedLine<'_>,
    out: &mut Output,
) -> Result<bool, ListCause> {
    match records.next_record(perf_file) {
        Ok(Some((place, record))) => {
            write_record(place, &record, perf_file, line, out)?;
            Ok(true)
        }
        Ok(None) => Ok(false),
        Err(error) => Err(ListCause::Perf(error)),
    }
}

// Writes a line for each record of a file. Returns the number of lines.
fn list_file_records(
    reader: PerfFileReader<Source>,
    line: &mut TrackedLine<'_>,
    out: &mut Output,
) -> Result<u64, ListFault> {
    let mut perf_file = reader.perf_file;
    let mut records = reader.record_iter;
    let mut lines = 0u64;
    for _ in 0..u64::MAX {
        match list_next(&mut records, &mut perf_file, line, out) {
            Ok(true) => lines = lines.saturating_add(1),
            Ok(false) => break,
            Err(cause) => return Err(ListFault { lines, cause }),
        }
    }
    Ok(lines)
}

// Lists a file in its own order.
fn list_file(
    rt: &HostRuntime,
    options: &Options<'_>,
    input: OpenInput,
    path: &str,
) -> Result<(), ProgramError> {
    let progress = Progress::beside_output(rt, input.size).unless_quiet(options.is_quiet);
    let Recording { reader, kind } = Recording::open(rt.alloc(), input)?;
    show_content_end(rt, options, path, kind);
    let line = RecordLine::new(JsonLine::new(rt.alloc(), options.byte_limit), kind);
    let mut line = TrackedLine::new(line, progress);
    let mut out = output(rt)?;
    let listed = list_file_records(reader, &mut line, &mut out);
    let (position, unlisted) = line.finish();
    let lines = line_count(&listed);
    finish(listed, position, unlisted, &mut out)?;
    Ok(kind.check_end(lines)?)
}

// Lists a pipe in its own order.
fn list_pipe(
    rt: &HostRuntime,
    options: &Options<'_>,
    input: OpenInput,
) -> Result<(), ProgramError> {
    let progress = Progress::beside_output(rt, input.size).unless_quiet(options.is_quiet);
    let line = JsonLine::new(rt.alloc(), options.byte_limit);
    let mut line = TrackedLine::new(RecordLine::new(line, RecordingKind::PIPE), progress);
    let mut out = output(rt)?;
    let source = input.into_source(rt.alloc()).map_err(InputError::Io)?;
    let listed = list_live_pipe_lines(rt.alloc(), source, &mut line, &mut out);
    let (position, unlisted) = line.finish();
    finish(listed, position, unlisted, &mut out)
}

/// Returns the number of lines of a listing.
pub(crate) fn line_count(listed: &Result<u64, ListFault>) -> u64 {
    match listed {
        Ok(lines) => *lines,
        Err(fault) => fault.lines,
    }
}

/// Flushes the lines, unless the output has failed. Fails with the error of the record that ended the
/// listing, if one did, else with the error of the listing, or else with that of the flush.
pub(crate) fn finish(
    listed: Result<u64, ListFault>,
    position: Position,
    unlisted: Option<Error>,
    out: &mut Output,
) -> Result<(), ProgramError> {
    if let Some(error) = unlisted {
        return flush_before(InputError::with_position(position, error), out);
    }
    match listed {
        Ok(_) => out.flush().map_err(ProgramError::Output),
        Err(fault) => match fault.cause {
            ListCause::Write(error) => Err(ProgramError::Output(error)),
            ListCause::Perf(error) => flush_before(InputError::with_position(position, error), out),
            ListCause::Jit(error) => flush_before(InputError::JitHeader(error), out),
            ListCause::Read(error) => flush_before(InputError::Io(error), out),
        },
    }
}

// Flushes the lines before an error of the input.
fn flush_before(error: InputError, out: &mut Output) -> Result<(), ProgramError> {
    out.flush().map_err(ProgramError::Output)?;
    Err(error.into())
}
