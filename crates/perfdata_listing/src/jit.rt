//! Listing the records of a jitdump file, one line a record.
ghost use Rattle.std.specs.Prelude.{◌≡◌, ◌+◌, ◌^◌, ◌<◌, ◌≤◌, IsTrue, OnOk, false, length};
ghost use Rattle.std.specs.Io.KnownBytes.{Keeps};
ghost use Rattle.perfdata_jit.specs.RecordBytes.{HasWholeRecord};
ghost use Rattle.perfdata_jit.specs.JitDumpReader.{jit_buffered, jit_seek_failed, jit_offset, jit_endian};
ghost use Rattle.perfdata_jit.specs.JitDumpReader.{jit_ring_capacity};
ghost use Rattle.perfdata_listing.specs.JitListing.{FlushesBeforeBlocking, FlushesJitBeforeBlocking};
ghost use Rattle.perfdata_listing.specs.JitListing.{ListsJit, ListsLiveJit};
ghost use Rattle.perfdata_listing.specs.steps.JitListing.{ListsJitRecords};
ghost use Rattle.perfdata_listing.specs.JitListing.{ListsNextJit, MayBlock};
ghost use Rattle.perfdata_listing.specs.steps.JitListing.{ListsLiveJitRecords};
ghost use Rattle.perfdata_listing.specs.JitListing.{ReadsNothing};

use crate::list::{ListCause, ListFault};
use linux_perf_data::jitdump::{JitDumpReader, JitDumpRecordHeader};
use linux_perf_data::source::Source;
use perfdata_listing_lines::jit_line::format_line;
use perfdata_listing_lines::line::ListingLine;
use perfdata_listing_lines::output::{FlushPending, write_line};
use std::alloc::Global;
use std::io;
use std::io::Write;

// The size in bytes of the buffer for a live input.
const LIVE_BUFFER_SIZE: usize = 65536;

// Writes the line of the next record. Returns whether the record was complete.
fn list_next<R: Source, W: Write>(
    reader: &mut JitDumpReader<R>,
    line: &mut ListingLine,
    out: &mut W,
) -> Result<bool, ListCause>
    ensures { ListsNextJit R.state reader.old (W.contents out.old) result (W.contents out.new) reader.new }
{
    match reader.next_record() {
        Ok(Some(raw)) => {
            format_line(line, &raw);
            match write_line(out, line.as_bytes()) {
                Ok(()) => Ok(true),
                Err(error) => Err(ListCause::Write(error)),
            }
        }
        Ok(None) => Ok(false),
        Err(error) => Err(ListCause::Read(error)),
    }
}

// Does what `list_next` does for a live input. Either the writer has no pending bytes, or the next record is
// buffered.
fn list_next_live<R: Source, W: FlushPending>(
    reader: &mut JitDumpReader<R>,
    line: &mut ListingLine,
    out: &mut W,
) -> Result<bool, ListCause>
    requires flushed { MayBlock reader.old (W.pending out.old) }
    ensures { ListsNextJit R.state reader.old (W.contents out.old) result (W.contents out.new) reader.new }
{
    list_next(reader, line, out)
}

// Writes a line for each remaining record up to the first incomplete one. Returns the number of lines.
fn list_jit_records<R: Source, W: Write>(
    reader: &mut JitDumpReader<R>,
    out: &mut W,
) -> Result<u64, ListFault>
    requires { (jit_seek_failed reader.old ≡ false) × (16 ≤ jit_ring_capacity reader.old) }
    ensures { ListsJitRecords R.state reader.old (W.contents out.old) result (W.contents out.new) reader.new }
{
    let mut lines = 0u64;
    let mut line = ListingLine::new();
    'records: loop {
        match list_next(reader, &mut line, out) {
            Ok(true) => lines += 1,
            Ok(false) => return Ok(lines),
            Err(cause) => return Err(ListFault { lines, cause }),
        }
    }
}

// Whether the next record, which has this size, is valid and completely buffered.
fn is_record_buffered<R: Source>(reader: &JitDumpReader<R>, size: u32) -> bool
    ensures { IsTrue result → (16 ≤ size) × (jit_offset reader.now + size < 2 ^ 64)
        × (size ≤ length (jit_buffered reader.now)) }
{
    let offset = reader.next_record_offset();
    if (size as usize) < JitDumpRecordHeader::SIZE {
        return false;
    }
    if size as u64 > u64::MAX - offset {
        return false;
    }
    reader.has_buffered(size as usize)
}

// Whether the next record is completely buffered. The call doesn't read the source.
fn is_next_buffered<R: Source>(reader: &mut JitDumpReader<R>) -> bool
    requires found { jit_seek_failed reader.old ≡ false }
    ensures unread { ReadsNothing R.state reader.old reader.new }
    ensures buffered { IsTrue result → HasWholeRecord (jit_endian reader.new) (jit_offset reader.new)
        (jit_buffered reader.new) }
{
    if !reader.has_buffered(JitDumpRecordHeader::SIZE) {
        return false;
    }
    match reader.next_record_header() {
        Ok(Some(header)) => is_record_buffered(reader, header.total_size),
        Ok(None) => false,
        Err(_) => false,
    }
}

// Flushes the pending lines unless the next record is buffered. No line is pending while the input blocks.
fn flush_before_blocking<R: Source, W: FlushPending>(
    reader: &mut JitDumpReader<R>,
    out: &mut W,
) -> io::Result<()>
    requires found { jit_seek_failed reader.old ≡ false }
    ensures unread { ReadsNothing R.state reader.old reader.new }
    ensures contents_kept { Keeps (W.contents out.old) (W.contents out.new) }
    ensures flushed { OnOk result (MayBlock reader.new (W.pending out.new)) }
{
    if is_next_buffered(reader) {
        return Ok(());
    }
    out.flush_pending()
}

// Writes a line for each remaining record of a live input. Returns the number of lines. Pending lines are
// flushed before each call for a record that isn't buffered.
fn list_live_jit_records<R: Source, W: FlushPending>(
    reader: &mut JitDumpReader<R>,
    out: &mut W,
) -> Result<u64, ListFault>
    requires { (jit_seek_failed reader.old ≡ false) × (16 ≤ jit_ring_capacity reader.old) }
    ensures lists { ListsLiveJitRecords R.state reader.old (W.contents out.old) result
        (W.contents out.new) reader.new }
    ensures flushes { FlushesBeforeBlocking R.state W.pending W.contents reader.old out.old result out.new
        reader.new }
{
    let mut lines = 0u64;
    let mut line = ListingLine::new();
    'records: loop {
        match flush_before_blocking(reader, out) {
            Ok(()) => {}
            Err(error) => {
                let cause = ListCause::Write(error);
                return Err(ListFault { lines, cause });
            }
        }
        match list_next_live(reader, &mut line, out) {
            Ok(true) => lines += 1,
            Ok(false) => return Ok(lines),
            Err(cause) => return Err(ListFault { lines, cause }),
        }
    }
}

/// Writes a line for each record of a jitdump file up to the first incomplete one, and returns the number of
/// lines.
///
/// A line is `OFFSET TIME TYPE SIZE`: decimal numbers, separated by one space.
///
/// On an error `lines` is the number of complete lines that are written: 0 if the file doesn't open,
/// otherwise one for each record before the record that has an invalid size or that the source fails to read.
/// If the writer fails, a prefix of the next line is written. A write of 0 bytes is an error of kind
/// `WriteZero`. No write is repeated.
pub fn list_jit<R: Source + Drop, W: Write>(
    alloc: Global,
    source: R,
    out: &mut W,
) -> Result<u64, ListFault>
    ensures { ListsJit R.state source 4096 (W.contents out.old) result (W.contents out.new) }
{
    match JitDumpReader::new(alloc, source) {
        Ok(mut reader) => list_jit_records(&mut reader, out),
        Err(error) => Err(ListFault {
            lines: 0,
            cause: ListCause::Jit(error),
        }),
    }
}

/// Lists a jitdump that may still grow, as [`list_jit`] does, into a writer that may buffer lines. The lines
/// are flushed before each record that isn't buffered. Thus all lines so far are readable while the source
/// waits for data.
///
/// The call reads up to 64 KiB at once, and the source needs no buffer of its own. If this flush fails, all
/// `lines` lines are written, and no byte of a next line.
pub fn list_live_jit<R: Source + Drop, W: FlushPending>(
    alloc: Global,
    source: R,
    out: &mut W,
) -> Result<u64, ListFault>
    ensures lists { ListsLiveJit R.state source 65536 (W.contents out.old) result (W.contents out.new) }
    ensures flushes { FlushesJitBeforeBlocking R.state W.pending W.contents source 65536 out.old result
        out.new }
{
    match JitDumpReader::new_with_buffer_size(alloc, source, LIVE_BUFFER_SIZE) {
        Ok(mut reader) => list_live_jit_records(&mut reader, out),
        Err(error) => Err(ListFault {
            lines: 0,
            cause: ListCause::Jit(error),
        }),
    }
}
