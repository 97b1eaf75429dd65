//! Listing the records of a perf.data file or of a pipe, one line a record.
ghost use Rattle.std.specs.Prelude.{◌≡◌, ◌⊎◌, [], IfOk, IfErr, IsErr, IsTrue, OnOk, OnErr, Ok, false};
ghost use Rattle.std.specs.Io.KnownBytes.{Keeps};
ghost use Rattle.linux_perf_data.specs.BufferedRecord.{IsFinished};
ghost use Rattle.perfdata_listing_lines.specs.CountingBufWriter.{pending_bytes, has_failed, lines_written};
ghost use Rattle.perfdata_listing_lines.specs.CountingBufWriter.{BuffersAndForwards};
ghost use Rattle.linux_perf_data.specs.RecordViews.{record_view_of};
ghost use Rattle.perfdata_listing.specs.Listing.{WritesRecord};
ghost use Rattle.perfdata_listing_lines.specs.ListingLine.{IsPlainLine};
ghost use Rattle.linux_perf_data.specs.steps.Reading.{HasMatchingFile, HasNotFailed};
ghost use Rattle.perfdata_listing.specs.Listing.{ListsNext, ListsFile};
ghost use Rattle.perfdata_listing.specs.steps.Listing.{ListsRecords, ListsLiveRecords};
ghost use Rattle.perfdata_listing.specs.Listing.{MayBlock, FlushesBeforeBlocking};
ghost use Rattle.perfdata_listing.specs.PipeListing.{FlushesPipeBeforeBlocking, ListsPipe, ListsLivePipe};

use linux_perf_data::jitdump::JitDumpError;
use linux_perf_data::source::{PlacedSource, Source};
use linux_perf_data::{
    Error, PerfFile, PerfFileReader, PerfFileRecord, PerfRecordIter, RecordPlace,
};
use perfdata_listing_lines::line::ListingLine;
use perfdata_listing_lines::line_format::LineFormat;
use perfdata_listing_lines::output::{CountingBufWriter, FlushPending, write_line};
use std::alloc::Global;
use std::io;
use std::io::Write;

/// The cause of a listing's error.
#[derive(Debug, Drop)]
pub enum ListCause {
    /// The input is invalid, or its source failed.
    Perf(Error),
    /// The jitdump file couldn't be opened.
    Jit(JitDumpError),
    /// The size of the next jitdump record is invalid, or the source failed.
    Read(io::Error),
    /// The writer failed.
    Write(io::Error),
}

/// An error of a listing, with the number of lines before it.
#[derive(Debug, Drop)]
pub struct ListFault {
    /// Number of lines that are written completely.
    pub lines: u64,
    /// The cause of the error.
    pub cause: ListCause,
}

/// Writes the line of a record. `perf_file` contains the record's attribute, and `line` is set to the line.
///
/// Fails if memory runs out, and nothing of the line is written then, or if the writer fails, and a prefix of
/// the line is written then.
#[inline(always)]
pub fn write_record<L: LineFormat, W: Write>(
    place: RecordPlace,
    record: &PerfFileRecord<'_>,
    perf_file: &PerfFile,
    line: &mut L,
    out: &mut W,
) -> Result<(), ListCause>
    ensures { WritesRecord L.is_line L.allocates (record_view_of place «record».now)
        (W.contents out.old) result (W.contents out.new) }
{
    match line.set(place, record, perf_file) {
        Ok(()) => match write_line(out, line.as_bytes()) {
            Ok(()) => Ok(()),
            Err(error) => Err(ListCause::Write(error)),
        },
        Err(memory) => Err(ListCause::Perf(memory)),
    }
}

// Writes the line of the next record. Returns whether there is one.
fn list_next<R: Source, L: LineFormat, W: Write>(
    records: &mut PerfRecordIter<R>,
    perf_file: &mut PerfFile,
    line: &mut L,
    out: &mut W,
) -> Result<bool, ListCause>
    ensures { ListsNext L.is_line L.allocates R.state records.old perf_file.old (W.contents out.old) result
        (W.contents out.new) records.new perf_file.new }
{
    match records.next_record(perf_file) {
        Ok(Some((place, record))) => {
            match write_record(place, &record, perf_file, line, out) {
                Ok(()) => Ok(true),
                Err(cause) => Err(cause),
            }
        }
        Ok(None) => Ok(false),
        Err(error) => Err(ListCause::Perf(error)),
    }
}

// Does what `list_next` does for a live input. Either the writer has no pending bytes, or the next record is
// buffered.
fn list_next_live<R: Source, L: LineFormat, W: FlushPending>(
    records: &mut PerfRecordIter<R>,
    perf_file: &mut PerfFile,
    line: &mut L,
    out: &mut W,
) -> Result<bool, ListCause>
    requires flushed { MayBlock R.state records.old (W.pending out.old) }
    ensures { ListsNext L.is_line L.allocates R.state records.old perf_file.old (W.contents out.old) result
        (W.contents out.new) records.new perf_file.new }
{
    list_next(records, perf_file, line, out)
}

// Writes a line for each remaining record. Returns the number of lines.
fn list_records<R: Source, L: LineFormat, W: Write>(
    records: &mut PerfRecordIter<R>,
    perf_file: &mut PerfFile,
    line: &mut L,
    out: &mut W,
) -> Result<u64, ListFault>
    requires not_failed { HasNotFailed records.old }
    requires matching_file { HasMatchingFile R.state records.old perf_file.old }
    ensures { ListsRecords L.is_line L.allocates R.state records.old perf_file.old (W.contents out.old) result
        (W.contents out.new) records.new perf_file.new }
{
    let mut lines = 0u64;
    'records: loop {
        match list_next(records, perf_file, line, out) {
            Ok(true) => lines += 1,
            Ok(false) => return Ok(lines),
            Err(cause) => return Err(ListFault { lines, cause }),
        }
    }
}

/// Flushes the pending lines unless the next record is buffered. No line is pending while the input blocks.
/// Fails if the flush fails.
pub fn flush_before_blocking<R: Source, W: FlushPending>(
    records: &PerfRecordIter<R>,
    out: &mut W,
) -> io::Result<()>
    ensures contents_kept { Keeps (W.contents out.old) (W.contents out.new) }
    ensures flushed { OnOk result (MayBlock R.state records.now (W.pending out.new)) }
    ensures on_error { OnErr result (¬ IsFinished R.state records.now) }
{
    if records.is_next_buffered() {
        return Ok(());
    }
    out.flush_pending()
}

// Writes a line for each remaining record of a live input. Returns the number of lines. Pending lines are
// flushed before each call for a record that isn't buffered.
fn list_live_records<R: Source, L: LineFormat, W: FlushPending>(
    records: &mut PerfRecordIter<R>,
    perf_file: &mut PerfFile,
    line: &mut L,
    out: &mut W,
) -> Result<u64, ListFault>
    requires not_failed { HasNotFailed records.old }
    requires matching_file { HasMatchingFile R.state records.old perf_file.old }
    ensures lists { ListsLiveRecords L.is_line L.allocates R.state records.old perf_file.old
        (W.contents out.old) result (W.contents out.new) records.new perf_file.new }
    ensures flushes { FlushesBeforeBlocking L.is_line L.allocates R.state W.pending W.contents records.old
        perf_file.old out.old result out.new records.new perf_file.new }
{
    let mut lines = 0u64;
    'records: loop {
        match flush_before_blocking(records, out) {
            Ok(()) => {}
            Err(error) => {
                let cause = ListCause::Write(error);
                return Err(ListFault { lines, cause });
            }
        }
        match list_next_live(records, perf_file, line, out) {
            Ok(true) => lines += 1,
            Ok(false) => return Ok(lines),
            Err(cause) => return Err(ListFault { lines, cause }),
        }
    }
}

/// Lists a perf.data file as [`list_file`] does, by lines of any format.
pub fn list_file_lines<C: PlacedSource + Drop, L: LineFormat, W: Write>(
    alloc: Global,
    source: C,
    line: &mut L,
    out: &mut W,
) -> Result<u64, ListFault>
    ensures { ListsFile L.is_line L.allocates (C.state source) (W.contents out.old) result
        (W.contents out.new) }
{
    match PerfFileReader::parse_file(alloc, source) {
        Ok(reader) => {
            let mut perf_file = reader.perf_file;
            let mut records = reader.record_iter;
            list_records(&mut records, &mut perf_file, line, out)
        }
        Err(error) => {
            let cause = ListCause::Perf(error);
            Err(ListFault { lines: 0, cause })
        }
    }
}

/// Lists a pipe as [`list_pipe`] does, by lines of any format.
pub fn list_pipe_lines<R: Source + Drop, L: LineFormat, W: Write>(
    alloc: Global,
    source: R,
    line: &mut L,
    out: &mut W,
) -> Result<u64, ListFault>
    ensures { ListsPipe L.is_line L.allocates (R.state source) (W.contents out.old) result
        (W.contents out.new) }
{
    match PerfFileReader::parse_pipe(alloc, source) {
        Ok(reader) => {
            let mut perf_file = reader.perf_file;
            let mut records = reader.record_iter;
            list_records(&mut records, &mut perf_file, line, out)
        }
        Err(error) => {
            let cause = ListCause::Perf(error);
            Err(ListFault { lines: 0, cause })
        }
    }
}

/// Lists a live pipe as [`list_live_pipe`] does, by lines of any format.
pub fn list_live_pipe_lines<R: Source + Drop, L: LineFormat, W: FlushPending>(
    alloc: Global,
    source: R,
    line: &mut L,
    out: &mut W,
) -> Result<u64, ListFault>
    ensures lists { ListsLivePipe L.is_line L.allocates (R.state source) (W.contents out.old) result
        (W.contents out.new) }
    ensures flushes { FlushesPipeBeforeBlocking L.is_line L.allocates R.state W.pending W.contents
        (R.state source) out.old result out.new }
{
    match PerfFileReader::parse_pipe(alloc, source) {
        Ok(reader) => {
            let mut perf_file = reader.perf_file;
            let mut records = reader.record_iter;
            list_live_records(&mut records, &mut perf_file, line, out)
        }
        Err(error) => {
            let cause = ListCause::Perf(error);
            Err(ListFault { lines: 0, cause })
        }
    }
}

/// Writes a line for each record of a perf.data file, and returns the number of lines.
///
/// A line is `OFFSET ROUND TIME ATTR TYPE MISC BODYLEN`: decimal numbers, separated by one space, `-` for a
/// missing value.
///
/// On an error `lines` is the number of complete lines that are written: 0 if the file doesn't open, all of
/// its records if the layout of its data section has an error. If the writer fails, a prefix of the next line
/// is written. A write of 0 bytes is an error of kind `WriteZero`. No write is repeated.
///
/// ```
/// use linux_perf_data::source::PlacedSource;
/// use perfdata_listing::{ListFault, list_file};
/// use std::alloc::Global;
///
/// fn listing<C: PlacedSource + Drop>(alloc: Global, file: C) -> Result<Vec<u8>, ListFault> {
///     let mut lines = Vec::new(alloc);
///     list_file(alloc, file, &mut lines)?;
///     Ok(lines)
/// }
/// ```
pub fn list_file<C: PlacedSource + Drop, W: Write>(
    alloc: Global,
    source: C,
    out: &mut W,
) -> Result<u64, ListFault>
    ensures { ListsFile IsPlainLine false (C.state source) (W.contents out.old) result (W.contents out.new) }
{
    list_file_lines(alloc, source, &mut ListingLine::new(), out)
}

/// Writes a line for each record of a pipe, as [`list_file`] does, and returns the number of lines.
///
/// No byte after the records is read: after the last record, the source's position is that record's end;
/// after a truncated record, it is the end of that record's available bytes. Attributes and features after
/// the first other record are added to the metadata, and each has a line as a record.
///
/// On an error `lines` is the number of complete lines that are written: 0 if the pipe doesn't open,
/// otherwise one for each record before the record that can't be read. A truncated record is the end and not
/// an error. If the writer fails, a prefix of the next line is written. A write of 0 bytes is an error of
/// kind `WriteZero`. No write is repeated.
pub fn list_pipe<R: Source + Drop, W: Write>(
    alloc: Global,
    source: R,
    out: &mut W,
) -> Result<u64, ListFault>
    ensures { ListsPipe IsPlainLine false (R.state source) (W.contents out.old) result (W.contents out.new) }
{
    list_pipe_lines(alloc, source, &mut ListingLine::new(), out)
}

/// Lists a live pipe as [`list_pipe`] does, into a writer that may buffer lines. The lines are flushed before
/// each record that isn't buffered. Thus all lines so far are readable while the pipe waits for data.
///
/// If this flush fails, all `lines` lines are written, and no byte of a next line.
pub fn list_live_pipe<R: Source + Drop, W: FlushPending>(
    alloc: Global,
    source: R,
    out: &mut W,
) -> Result<u64, ListFault>
    ensures lists { ListsLivePipe IsPlainLine false (R.state source) (W.contents out.old) result
        (W.contents out.new) }
    ensures flushes { FlushesPipeBeforeBlocking IsPlainLine false R.state W.pending W.contents
        (R.state source) out.old result out.new }
{
    list_live_pipe_lines(alloc, source, &mut ListingLine::new(), out)
}

/// Flushes the lines that are still buffered, unless the writer has already failed. Returns the number of
/// listed records.
///
/// If the listing or the writer failed, returns the number of complete lines that were written to the inner
/// writer as `Err`.
pub fn flush_listing<W: Write>(
    listed: Result<u64, ListFault>,
    out: &mut CountingBufWriter<W>,
) -> Result<u64, u64>
    ensures forwards { BuffersAndForwards W.contents out.old [] out.new }
    ensures flushed { (pending_bytes out.new ≡ []) ⊎ IsTrue (has_failed out.new) }
    ensures on_ok { IfOk result (λ n. (listed ≡ Ok n) × (has_failed out.new ≡ false)) }
    ensures on_error { IfErr result (λ n. (n ≡ lines_written out.new)
        × (IsErr listed ⊎ IsTrue (has_failed out.new))) }
{
    if !out.has_failed() {
        let _ = out.flush();
    }
    match listed {
        Ok(records) => {
            if out.has_failed() {
                return Err(out.lines_written());
            }
            Ok(records)
        }
        Err(_) => Err(out.lines_written()),
    }
}
