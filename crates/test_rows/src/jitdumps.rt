//! The jitdump reader.
use crate::case::{CaseError, CaseResult, parse_number, split_argument};
use crate::outcome::Call;
use crate::sources::split_count;
use crate::text::Output;
use perfdata_base::raw::RawData;
use perfdata_base::source::Script;
use perfdata_jit::*;
use std::io;
use std::mem::swap;

// The number of bytes of a function name from which on the offset of the code may exceed 64 bits.
const NAME_LIMIT: usize = 1 << 32;

// The size of the result of a call for which memory is there before the reader is opened, in bytes.
const RESULT_SIZE: usize = 512;

type Reader = JitDumpReader<Script>;

/// Appends a record as it is parsed, with the offset of the code from the record's start.
pub fn push_parsed(
    call: &Call<'_>,
    read: &io::Result<Option<JitDumpRawRecord<'_>>>,
    out: &mut Output,
) {
    let Ok(Some(record)) = read else {
        return write!(out, "no record\n");
    };
    let parsed = record.parse(call.alloc);
    out.push_io_result(&parsed);
    match &parsed {
        Ok(JitDumpRecord::CodeLoad(load)) if load.function_name.len() < NAME_LIMIT => {
            let offset = load.code_bytes_offset_from_record_header_start();
            writeln!(out, "code at {offset}");
        }
        _ => {}
    }
}

/// Opens a reader with a buffer of the size of the option `buffer`, makes a list of calls, and prints what
/// each returns. Of a call that is made N times, results that follow an equal one aren't printed.
pub fn push_calls(call: &Call<'_>, out: &mut Output) -> CaseResult {
    let source = call.script()?;
    let mut last = Output::new(String::with_capacity(call.alloc, RESULT_SIZE)?);
    let mut lines = Output::new(String::with_capacity(call.alloc, RESULT_SIZE)?);
    let opened = match call.case.number("buffer", 0)? {
        0 => JitDumpReader::new(call.alloc, source),
        size => JitDumpReader::new_with_buffer_size(call.alloc, source, size as usize),
    };
    let mut reader = match opened {
        Ok(reader) => reader,
        Err(error) => {
            out.push_line(&error);
            return Ok(());
        }
    };
    for word in call.case.option("calls").unwrap_or("next").split(',') {
        let (count, step) = split_count(word)?;
        last.text.clear();
        push_repeated(
            call,
            (count, step),
            &mut reader,
            (&mut last, &mut lines),
            out,
        )?;
    }
    Ok(())
}

// Makes a call this many times. `last` and `lines` have memory for the results of two calls.
fn push_repeated(
    call: &Call<'_>,
    (count, step): (u64, &str),
    reader: &mut Reader,
    (last, lines): (&mut Output, &mut Output),
    out: &mut Output,
) -> CaseResult {
    for _ in 0..count {
        lines.text.clear();
        push_call(call, step, reader, lines)?;
        if lines.text != last.text {
            out.append(lines);
        }
        swap(last, lines);
    }
    Ok(())
}

fn push_call(call: &Call<'_>, step: &str, reader: &mut Reader, out: &mut Output) -> CaseResult {
    let (name, argument) = split_argument(step);
    match name {
        "next" => {
            match reader.next_record() {
                Ok(Some(record)) => push_record(call, &record, out),
                Ok(None) => write!(out, "None"),
                Err(error) => write!(out, "Err({:?})", error.kind()),
            }
            writeln!(out, " at {}", reader.next_record_offset());
        }
        "skip" => {
            match reader.skip_next_record() {
                Ok(is_skipped) => write!(out, "{is_skipped}"),
                Err(error) => write!(out, "Err({:?})", error.kind()),
            }
            writeln!(out, " at {}", reader.next_record_offset());
        }
        "parse" => push_parsed(call, &reader.next_record(), out),
        "peek" => out.push_io_result(&reader.next_record_header()),
        "peek_time" => out.push_io_result(&reader.next_record_timestamp()),
        "peek_type" => out.push_io_result(&reader.next_record_type()),
        "offset" => out.push_line(&reader.next_record_offset()),
        "has_buffered" => out.push_line(&reader.has_buffered(parse_number(argument)? as usize)),
        "header" => out.push_line(reader.header()),
        "endian" => out.push_line(&reader.endian()),
        _ => return Err(CaseError::Invalid("an unknown call in a list")),
    }
    Ok(())
}

// Prints the offset, time, type and size of a record, and with the option `slices` the sizes of the slices of
// its body.
fn push_record(call: &Call<'_>, record: &JitDumpRawRecord<'_>, out: &mut Output) {
    let (offset, time) = (record.start_offset, record.timestamp);
    let (kind, size) = (record.record_type.0, record.record_size);
    write!(out, "{offset} {time} {kind} {size}");
    let start = usize::try_from(offset).unwrap_or(usize::MAX);
    let body = start.saturating_add(JitDumpRecordHeader::SIZE);
    let end = body.saturating_add(record.body.len());
    if call.bytes.get(body..end).map(RawData::from) != Some(record.body) {
        write!(out, " with another body");
    }
    if let (true, RawData::Split(first, second)) = (call.case.has("slices"), record.body) {
        write!(out, " [{}, {}]", first.len(), second.len());
    }
}
