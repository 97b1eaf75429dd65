//! The records of a perf.data file or pipe, as entries.
ghost use Rattle.std.specs.Prelude.{◌≡◌};
ghost use Rattle.perfdata_arrays.specs.Pages.{ReadsFilePage};
ghost use Rattle.perfdata_arrays.specs.steps.Pages.{WalksPage};
ghost use Rattle.perfdata_arrays.specs.Records.{ReadsPipeRecords};
ghost use Rattle.perfdata_arrays.specs.Overwrites.{WritesOneMore};
ghost use Rattle.perfdata_arrays.specs.steps.Walk.{ReadsMoreEntries, WalksRecords};

use crate::opening::{Recording, open};
use crate::status::{Status, status_of_end};
use linux_perf_data::in_memory::InMemoryRecords;
use linux_perf_data::in_memory::entries::RecordEntry;
use linux_perf_data::in_memory::position::RecordPosition;
use linux_perf_data::{Error, PerfFile};
use std::alloc::Global;

/// The number of records and the status of the call.
#[derive(Clone, Copy, Debug, PartialEq, Eq)]
pub struct RecordsResult {
    /// The number of records that were read.
    pub count: u64,
    /// Success if no error follows them, otherwise the status of the first error.
    pub status: Status,
}

// The number of records that a walk reads, and how it ends.
#[derive(Drop)]
pub(crate) struct WalkResult {
    pub(crate) count: u64,
    pub(crate) end: Result<(), Error>,
}

// Writes the entries of whole records that follow record `count`, those from index `start` on, while they fit
// in `entries`. Returns their number.
fn read_more_entries(
    input: &mut InMemoryRecords<'_>,
    perf_file: &PerfFile,
    count: u64,
    start: u64,
    entries: &mut [RecordEntry],
) -> u64
    ensures { ReadsMoreEntries start count input.old entries.old result input.new entries.new }
{
    if count < start || entries.len() as u64 <= count - start {
        return 0;
    }
    let written = (count - start) as usize;
    input.read_entries(perf_file, &mut entries[written..]) as u64
}

// Writes the entry of record `index` into an array that begins with the entry of record `start`. Leaves the
// array unchanged if it has no element for it.
fn write_record(entries: &mut [RecordEntry], index: u64, start: u64, entry: RecordEntry)
    ensures { WritesOneMore start index entry entries.old entries.new }
{
    if index < start {
        return;
    }
    let position = index - start;
    if position < entries.len() as u64 {
        entries[position as usize] = entry;
    }
}

// Reads all records and writes the entries of the records from index `start` on, up to the capacity of
// `entries`.
pub(crate) fn walk(
    input: &mut InMemoryRecords<'_>,
    perf_file: &mut PerfFile,
    start: u64,
    entries: &mut [RecordEntry],
) -> WalkResult
    ensures { WalksRecords input.old perf_file.old start entries.old result
        input.new perf_file.new entries.new }
{
    let first_record_offset = input.first_record_offset();
    let mut count = 0u64;
    'records: loop {
        count += read_more_entries(input, perf_file, count, start, entries);
        match input.next_record(perf_file) {
            Ok(Some((place, record))) => {
                let entry = RecordEntry::new(first_record_offset, place, &record);
                write_record(entries, count, start, entry);
                count += 1;
            }
            Ok(None) => {
                return WalkResult { count, end: Ok(()) };
            }
            Err(error) => {
                return WalkResult {
                    count,
                    end: Err(error),
                };
            }
        }
    }
}

// The number of records that a walk over a page reads, the position after them, and how it ends.
#[derive(Drop)]
pub(crate) struct PageWalk {
    pub(crate) count: u64,
    pub(crate) next: RecordPosition,
    pub(crate) end: Result<(), Error>,
}

// Writes the entries of the next records, up to the capacity of `entries`.
pub(crate) fn walk_page(
    input: &mut InMemoryRecords<'_>,
    perf_file: &mut PerfFile,
    entries: &mut [RecordEntry],
) -> PageWalk
    ensures { WalksPage input.old perf_file.old entries.old result input.new perf_file.new entries.new }
{
    let first_record_offset = input.first_record_offset();
    let mut count = 0;
    'records: while count < entries.len() {
        count += read_more_entries(input, perf_file, count as u64, 0, entries) as usize;
        if count == entries.len() {
            break;
        }
        let next = input.position();
        match input.next_record(perf_file) {
            Ok(Some((place, record))) => {
                entries[count] = RecordEntry::new(first_record_offset, place, &record);
                count += 1;
            }
            Ok(None) => {
                return PageWalk {
                    count: count as u64,
                    next,
                    end: Ok(()),
                };
            }
            Err(error) => {
                return PageWalk {
                    count: count as u64,
                    next,
                    end: Err(error),
                };
            }
        }
    }
    PageWalk {
        count: count as u64,
        next: input.position(),
        end: Ok(()),
    }
}

/// Writes the entries of a perf.data file's records from a position on, and moves the position past the last
/// of them.
///
/// Writes at most as many entries as `entries` has capacity for, and reads no record after them. The elements
/// after the last written entry are unchanged. `count` is the number of written entries. FINISHED_ROUND
/// markers aren't records.
///
/// The moved position is directly after the last written record, before any marker that follows. If no record
/// is written, it is the given position, whose round is replaced by the offset if it is larger.
///
/// If `count` is the capacity and the status is `Success`, a call with the moved position writes the records
/// that follow. If `count` is smaller and the status is `Success`, the file has no more records.
///
/// The errors are those of `InMemoryReader::parse_file` and of `InMemoryRecords::next_record`. If the file
/// doesn't open, `count` is 0 and the position is unchanged. After an error of a record, a call with the
/// moved position returns the same status, and `count` is 0.
pub fn file_records(
    alloc: Global,
    bytes: &[u8],
    position: &mut RecordPosition,
    entries: &mut [RecordEntry],
) -> RecordsResult
    ensures { ReadsFilePage bytes.now position.old entries.old result position.new entries.new }
{
    let reader = match open(alloc, bytes, Recording::File(*position)) {
        Ok(reader) => reader,
        Err(status) => return RecordsResult { count: 0, status },
    };
    let mut perf_file = reader.perf_file;
    let mut input = reader.records;
    let walked = walk_page(&mut input, &mut perf_file, entries);
    *position = walked.next;
    RecordsResult {
        count: walked.count,
        status: status_of_end(&walked.end),
    }
}

/// Writes the entries of a perf.data pipe's records, starting with the record of index `start`.
///
/// The records are those after the metadata records that open the pipe. Offsets count from the first of them.
/// Writes as many entries as `entries` has capacity for. The elements after the last written entry are
/// unchanged. `count` includes the records that aren't written. If the pipe doesn't open, `count` is 0. At an
/// error, `count` is the number of records before it.
///
/// A pipe is read in one call, because late metadata determine what the records after them belong to.
///
/// A truncated record ends a pipe without an error. The errors are those of `InMemoryReader::parse_pipe` and
/// of `InMemoryRecords::next_record`. After the opening, memory runs out only for the metadata in a record.
pub fn pipe_records(
    alloc: Global,
    bytes: &[u8],
    start: u64,
    entries: &mut [RecordEntry],
) -> RecordsResult
    ensures { ReadsPipeRecords bytes.now start entries.old result entries.new }
{
    let reader = match open(alloc, bytes, Recording::Pipe) {
        Ok(reader) => reader,
        Err(status) => return RecordsResult { count: 0, status },
    };
    let mut perf_file = reader.perf_file;
    let mut input = reader.records;
    let walked = walk(&mut input, &mut perf_file, start, entries);
    RecordsResult {
        count: walked.count,
        status: status_of_end(&walked.end),
    }
}
