//! The entries of records in memory: those of a perf.data file in pages, and those of a pipe.
ghost use Rattle.std.specs.Prelude.{◌≡◌, ◌<◌, ◌≤◌, IsTrue, false};
ghost use Rattle.perfdata_arrays.specs.DecodedPages.{ReadsDecodedPage, ReadsDecodedPipe};
ghost use Rattle.perfdata_arrays.specs.steps.DecodedPages.{DecodesRecords};
ghost use Rattle.perfdata_arrays.specs.DecodedPages.{page_result};
ghost use Rattle.perfdata_arrays.specs.steps.DecodedPages.{result_of_end};

use crate::decoder::{EntryCounts, RecordDecoder};
use crate::opening::{Recording, open};
use crate::status::{Status, status_of_end};
use linux_perf_data::in_memory::InMemoryRecords;
use linux_perf_data::in_memory::position::RecordPosition;
use linux_perf_data::{Error, PerfFile};
use std::alloc::Global;

/// The numbers of entries and of their frames, and the status of the call.
#[derive(Clone, Copy, Debug, PartialEq, Eq)]
pub struct PageResult {
    /// The number of entries that were read. With the status `NoSpace`, that of the next record if its
    /// entries don't fit.
    pub count: u64,
    /// The number of their frames: of samples. With the status `NoSpace`, that of the next sample if its
    /// frames don't fit.
    pub frames_count: u64,
    /// Success, or the status of the first error.
    pub status: Status,
}

// How a walk ends.
#[derive(Drop)]
pub(crate) enum WalkEnd {
    // The array of entries is full.
    Full,
    // The next record adds more than fits. The numbers are to be reported.
    Exceeded(EntryCounts),
    // The records end, or an error follows.
    Records(Result<(), Error>),
}

// The numbers of entries and frames of a walk, the position after its records, and how it ends.
#[derive(Drop)]
pub(crate) struct DecodingWalk {
    pub(crate) count: u64,
    pub(crate) frames_count: u64,
    pub(crate) next: RecordPosition,
    pub(crate) end: WalkEnd,
}

// Whether a walk reads another record.
#[inline(always)]
fn reads_more(counts_all: bool, count: usize, capacity: usize) -> bool
    ensures more { IsTrue result → counts_all ≡ false → count < capacity }
    ensures full { result ≡ false → counts_all ≡ false }
    ensures at_capacity { result ≡ false → capacity ≤ count }
{
    counts_all || count < capacity
}

// Writes the entries of the next records and their frames. With `counts_all` counts all of them, and writes
// as many as the arrays have capacity for. Otherwise ends before a record that adds more than fits.
fn decode_records<D: RecordDecoder>(
    input: &mut InMemoryRecords<'_>,
    perf_file: &mut PerfFile,
    counts_all: bool,
    entries: &mut [D::Entry],
    frames: &mut [D::Frame],
) -> DecodingWalk
    ensures { DecodesRecords D.kind counts_all input.old perf_file.old entries.old frames.old result input.new
        perf_file.new entries.new frames.new }
{
    let base = input.first_record_offset();
    let mut count = 0;
    let mut used = 0;
    'records: while reads_more(counts_all, count, entries.len()) {
        let next = input.position();
        match input.next_record(perf_file) {
            Ok(Some((place, record))) => {
                match D::decode(
                    perf_file, base, place, &record, counts_all, entries, count, frames, used,
                ) {
                    Ok(added) => {
                        count += added.entries;
                        used += added.frames;
                    }
                    Err(needed) => return walk_end(count, used, next, WalkEnd::Exceeded(needed)),
                }
            }
            Ok(None) => return walk_end(count, used, next, WalkEnd::Records(Ok(()))),
            Err(error) => return walk_end(count, used, next, WalkEnd::Records(Err(error))),
        }
    }
    walk_end(count, used, input.position(), WalkEnd::Full)
}

// The walk with these numbers, position and end.
fn walk_end(count: usize, used: usize, next: RecordPosition, end: WalkEnd) -> DecodingWalk
    ensures { result ≡ record { count = count; frames_count = used; next = next; end = end } }
{
    DecodingWalk {
        count: count as u64,
        frames_count: used as u64,
        next,
        end,
    }
}

// The result with these numbers and this status.
fn page_result(count: u64, frames_count: u64, status: Status) -> PageResult
    ensures { result ≡ page_result count frames_count status }
{
    PageResult {
        count,
        frames_count,
        status,
    }
}

// The result of a walk.
fn walk_result(walk: &DecodingWalk) -> PageResult
    ensures { result ≡ result_of_end walk.now.end walk.now.count walk.now.frames_count }
{
    match &walk.end {
        WalkEnd::Full => page_result(walk.count, walk.frames_count, Status::Success),
        WalkEnd::Exceeded(needed) => {
            if walk.count == 0 {
                page_result(needed.entries as u64, needed.frames as u64, Status::NoSpace)
            } else {
                page_result(walk.count, walk.frames_count, Status::Success)
            }
        }
        WalkEnd::Records(end) => page_result(walk.count, walk.frames_count, status_of_end(end)),
    }
}

// Writes the entries of a file's records from a position on and their frames, as many as the arrays have
// capacity for, and moves the position past the records.
pub(crate) fn file_page<D: RecordDecoder>(
    alloc: Global,
    bytes: &[u8],
    position: &mut RecordPosition,
    entries: &mut [D::Entry],
    frames: &mut [D::Frame],
) -> PageResult
    ensures { ReadsDecodedPage D.kind bytes.now position.old entries.old frames.old result position.new
        entries.new frames.new }
{
    let reader = match open(alloc, bytes, Recording::File(*position)) {
        Ok(reader) => reader,
        Err(status) => return page_result(0, 0, status),
    };
    let mut perf_file = reader.perf_file;
    let mut input = reader.records;
    let walk = decode_records::<D>(&mut input, &mut perf_file, false, entries, frames);
    *position = walk.next;
    walk_result(&walk)
}

// Counts the entries of a pipe's records and their frames, and writes them up to the capacities.
pub(crate) fn pipe_page<D: RecordDecoder>(
    alloc: Global,
    bytes: &[u8],
    entries: &mut [D::Entry],
    frames: &mut [D::Frame],
) -> PageResult
    ensures { ReadsDecodedPipe D.kind bytes.now entries.old frames.old result entries.new frames.new }
{
    let reader = match open(alloc, bytes, Recording::Pipe) {
        Ok(reader) => reader,
        Err(status) => return page_result(0, 0, status),
    };
    let mut perf_file = reader.perf_file;
    let mut input = reader.records;
    let walk = decode_records::<D>(&mut input, &mut perf_file, true, entries, frames);
    walk_result(&walk)
}
