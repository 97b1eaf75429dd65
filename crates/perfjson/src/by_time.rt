//! Lists an input in order of time.
use crate::listing::{Output, finish, line_count, output, show_content_end};
use crate::options::Options;
use crate::record_line::RecordLine;
use linux_perf_data::{PerfFile, PerfFileReader};
use perfdata_cli::error::{InputError, ProgramError};
use perfdata_cli::input::OpenInput;
use perfdata_cli::input_bytes::Source;
use perfdata_cli::position::Position;
use perfdata_cli::recording::{
    Recording, RecordingInMemory, RecordingKind, RecordingRecords, is_complete_file,
    open_file_in_memory,
};
use perfdata_json::JsonLine;
use perfdata_listing::{FlushPending, ListCause, ListFault, list_by_time, write_record};
use perfdata_order::streaming::OrderedRecords;
use std::alloc::Global;

// Flushes the pending lines if the next record may wait for more of the pipe, and writes its line. Returns
// whether there is one.
fn list_next(
    records: &mut OrderedRecords<Source>,
    perf_file: &mut PerfFile,
    line: &mut RecordLine,
    out: &mut Output,
) -> Result<bool, ListCause> {
    match records.read_buffered(perf_file) {
        Ok(true) => {}
        Ok(false) => out.flush_pending().map_err(ListCause::Write)?,
        Err(error) => return Err(ListCause::Perf(error.into())),
    }
    match records.next_record(perf_file) {
        Ok(Some((place, record))) => {
            write_record(place, &record, perf_file, line, out)?;
            Ok(true)
        }
        Ok(None) => Ok(false),
        Err(error) => Err(ListCause::Perf(error)),
    }
}

// Writes a line for each record of a pipe. Returns the number of lines. What the end of a round releases is
// written before the program waits for more of the pipe.
fn list_pipe_records(
    alloc: Global,
    reader: PerfFileReader<Source>,
    line: &mut RecordLine,
    out: &mut Output,
) -> Result<u64, ListFault> {
    let mut perf_file = reader.perf_file;
    let mut records = OrderedRecords::new(alloc, reader.record_iter);
    let mut lines = 0u64;
    for _ in 0..u64::MAX {
        match list_next(&mut records, &mut perf_file, line, out) {
            Ok(true) => lines = lines.saturating_add(1),
            Ok(false) => break,
            Err(cause) => return Err(ListFault { lines, cause }),
        }
    }
    Ok(lines)
}

// Lists a pipe in order of time.
fn list_pipe_by_time(
    rt: &HostRuntime,
    byte_limit: usize,
    input: OpenInput,
) -> Result<(), ProgramError> {
    let Recording { reader, kind } = Recording::open(rt.alloc(), input)?;
    let mut out = output(rt)?;
    let mut line = RecordLine::new(JsonLine::new(rt.alloc(), byte_limit), kind);
    let listed = list_pipe_records(rt.alloc(), reader, &mut line, &mut out);
    let position = Position {
        records: line_count(&listed),
        offset: None,
    };
    finish(listed, position, line.into_error(), &mut out)
}

// Writes a line for each record of an unfinished file. Returns the number of lines.
fn list_unfinished_records(
    records: &mut RecordingRecords,
    perf_file: &mut PerfFile,
    line: &mut JsonLine,
    out: &mut Output,
) -> Result<u64, ListFault> {
    let mut lines = 0u64;
    for _ in 0..u64::MAX {
        let written = match records.next_record(perf_file) {
            Ok(Some((place, record))) => write_record(place, &record, perf_file, line, out),
            Ok(None) => break,
            Err(error) => Err(ListCause::Perf(error)),
        };
        if let Err(cause) = written {
            return Err(ListFault { lines, cause });
        }
        lines = lines.saturating_add(1);
    }
    Ok(lines)
}

// Lists an unfinished file in order of time.
fn list_unfinished_by_time(
    rt: &HostRuntime,
    byte_limit: usize,
    bytes: Vec<u8>,
) -> Result<(), ProgramError> {
    let Recording { reader, kind } = Recording::open_bytes(rt.alloc(), bytes)?;
    let mut perf_file = reader.perf_file;
    let mut records = RecordingRecords::new(rt.alloc(), kind, &perf_file, reader.record_iter);
    let mut line = JsonLine::new(rt.alloc(), byte_limit);
    let mut out = output(rt)?;
    let listed = list_unfinished_records(&mut records, &mut perf_file, &mut line, &mut out);
    let lines = line_count(&listed);
    let position = Position {
        records: lines,
        offset: None,
    };
    finish(listed, position, None, &mut out)?;
    Ok(kind.check_end(lines)?)
}

// Returns the result of a listing in memory. At content that can't be read its cause is why.
fn with_content_error(
    listed: Result<u64, ListFault>,
    kind: RecordingKind,
) -> Result<u64, ListFault> {
    match listed {
        Err(
            ListFault {
                lines,
                cause: ListCause::Perf(error),
            },
        ) => {
            let cause = ListCause::Perf(kind.error_in_memory(error));
            Err(ListFault { lines, cause })
        }
        listed => listed,
    }
}

// Lists a file in order of time. The file is read into memory.
fn list_file_by_time(
    rt: &HostRuntime,
    options: &Options<'_>,
    input: OpenInput,
    path: &str,
) -> Result<(), ProgramError> {
    let byte_limit = options.byte_limit;
    let (bytes, end) = input.into_bytes(rt.alloc()).map_err(InputError::Io)?;
    if !is_complete_file(rt.alloc(), &bytes)? {
        return list_unfinished_by_time(rt, byte_limit, bytes);
    }
    let RecordingInMemory { reader, kind } = open_file_in_memory(rt.alloc(), &bytes)?;
    let kind = kind.with_content_end(end);
    show_content_end(rt, options, path, kind);
    let mut out = output(rt)?;
    let mut line = RecordLine::new(JsonLine::new(rt.alloc(), byte_limit), kind);
    let listed = list_by_time(rt.alloc(), reader, &mut line, &mut out);
    let listed = with_content_error(listed, kind);
    let lines = line_count(&listed);
    let position = Position {
        records: lines,
        offset: None,
    };
    finish(listed, position, line.into_error(), &mut out)?;
    Ok(kind.check_end(lines)?)
}

/// Lists an input in order of time.
pub(crate) fn list_input_by_time(
    rt: &HostRuntime,
    options: &Options<'_>,
    input: OpenInput,
    is_pipe: bool,
    path: &str,
) -> Result<(), ProgramError> {
    if is_pipe {
        list_pipe_by_time(rt, options.byte_limit, input)
    } else {
        list_file_by_time(rt, options, input, path)
    }
}
