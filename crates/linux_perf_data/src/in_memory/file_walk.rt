//! A walk over the whole records of a file in memory. It has what it reads for each record in values of its
//! own, which stay in registers.
ghost use Rattle.std.specs.Prelude.{◌≡◌, ◌≤◌, ◌<◌, ◌^◌, IfSome, Some, length};
ghost use Rattle.std.specs.List.{slice_range};
ghost use Rattle.linux_perf_data.specs.steps.AttributeLookup.{HasOnly, KeepsAttributes};
ghost use Rattle.linux_perf_data.specs.steps.InMemory.{TakesFileRecord};
ghost use Rattle.linux_perf_data.specs.steps.FileWalk.{IsNextRecord, IsWalkOf, MovesIter, MovesPast};
ghost use Rattle.linux_perf_data.specs.steps.FileWalk.{PeeksNextRecord, StartsWalk, remaining_in};
ghost use Rattle.linux_perf_data.specs.steps.FileWalk.{with_lookup};
ghost use Rattle.linux_perf_data.specs.steps.RecordViews.{IdentifiesRecord};

use crate::attributes::lookup::AttributeLookup;
use crate::in_memory::framing::remaining;
use crate::records::framing::{peek_kernel_record, peek_record};
use crate::records::input::RecordInput;
use crate::records::iter::{IdentifiedRecord, PerfRecordIter, Stage};
use perfdata_base::event::PerfEventHeader;
use perfdata_base::place::RecordParseInfo;
use perfdata_base::raw::Endianness;
use perfdata_sections::constants::PERF_RECORD_FINISHED_ROUND;
use std::io::Cursor;

// The state of a running iterator over a file.
#[derive(Clone, Copy)]
pub(crate) struct FileWalk<'a> {
    endian: Endianness,
    section_size: u64,
    round: u64,
    offset: u64,
    remaining: &'a [u8],
    // The parse info of the only attribute, in this byte order. `None` if there are several.
    only_parse_info: Option<RecordParseInfo>,
}

// The parse info, if its numbers have this byte order.
fn matching_parse_info(
    endian: Endianness,
    parse_info: Option<RecordParseInfo>,
) -> Option<RecordParseInfo>
    ensures same { IfSome result (λ p. parse_info ≡ Some p) }
    ensures order { IfSome result (λ p. p.endian ≡ endian) }
{
    match parse_info {
        Some(parse_info) => {
            if parse_info.endian == endian {
                Some(parse_info)
            } else {
                None
            }
        }
        None => None,
    }
}

// The parse info, with its byte order as a value that the compiler knows.
#[inline(always)]
pub(crate) fn with_known_endian(endian: Endianness, parse_info: RecordParseInfo) -> RecordParseInfo
    requires { endian ≡ parse_info.endian }
    ensures { result ≡ parse_info }
{
    RecordParseInfo {
        endian,
        ..parse_info
    }
}

// The parse info, with the offset of a sample's time as a value whose bounds the compiler knows.
#[inline(always)]
pub(crate) fn with_sample_time(parse_info: RecordParseInfo, time: u64) -> RecordParseInfo
    requires { Some time ≡ parse_info.sample_time_from_start }
    ensures { result ≡ parse_info }
{
    RecordParseInfo {
        sample_time_from_start: Some(time),
        ..parse_info
    }
}

// A whole record that is no marker: its header, its size with aux data, and its end offset.
#[derive(Clone, Copy)]
pub(crate) struct WholeRecord {
    header: PerfEventHeader,
    length: usize,
    end: u64,
}

impl<'a> FileWalk<'a> {
    // The walk from the next record on. `None` if the iterator isn't running, or if it reads a pipe.
    pub(crate) fn from_records(records: &PerfRecordIter<Cursor<&'a [u8]>>) -> Option<FileWalk<'a>>
        ensures { StartsWalk records.now result }
    {
        match records.stage {
            Stage::Running => {}
            Stage::Failed => return None,
            Stage::Ended => return None,
        }
        match records.input {
            RecordInput::Section(section_size) => Some(FileWalk {
                endian: records.endian,
                section_size,
                round: records.round,
                offset: records.offset,
                remaining: remaining(&records.source),
                only_parse_info: matching_parse_info(
                    records.endian,
                    records.attribute_lookup.only_parse_info(),
                ),
            }),
            RecordInput::Pipe(_) => None,
        }
    }

    // The byte order of the numbers.
    #[inline(always)]
    pub(crate) fn endian(&self) -> Endianness
        ensures { result ≡ self.now.endian }
    {
        self.endian
    }

    // The parse info of the only attribute, in the byte order of the walk.
    #[inline(always)]
    pub(crate) fn only_parse_info(&self) -> Option<RecordParseInfo>
        ensures { result ≡ self.now.only_parse_info }
    {
        self.only_parse_info
    }

    // The same walk, with the byte order and the parse info as values that the compiler knows.
    #[inline(always)]
    pub(crate) fn specialized(
        self,
        endian: Endianness,
        only_parse_info: Option<RecordParseInfo>,
    ) -> FileWalk<'a>
        requires same_endian { endian ≡ self.endian }
        requires same_parse_info { only_parse_info ≡ self.only_parse_info }
        ensures { result ≡ self.entry }
    {
        FileWalk {
            endian,
            only_parse_info,
            ..self
        }
    }

    // The next record, if the remaining bytes start with a whole one of the kernel. (Or `None`: then `peek`
    // decides.)
    #[inline(always)]
    pub(crate) fn peek_kernel(&self) -> Option<WholeRecord>
        ensures { IfSome result (IsNextRecord self.now) }
    {
        // A record that starts below ends below 2^64, without a test.
        let limit = self.section_size.min(u64::MAX - u16::MAX as u64);
        if self.offset >= limit {
            return None;
        }
        let (header, length) = peek_kernel_record(self.endian, self.remaining)?;
        Some(WholeRecord {
            header,
            length,
            end: self.offset + length as u64,
        })
    }

    // The next record, if the remaining bytes start with a whole one that is no marker.
    #[inline(always)]
    pub(crate) fn peek(&self) -> Option<WholeRecord>
        ensures { PeeksNextRecord self.now result }
    {
        if self.offset >= self.section_size {
            return None;
        }
        let (header, length) = peek_record(self.endian, self.remaining)?;
        if header.type_ == PERF_RECORD_FINISHED_ROUND {
            return None;
        }
        let end = self.offset.checked_add(length as u64)?;
        Some(WholeRecord {
            header,
            length,
            end,
        })
    }

    // Takes the next record, with its body.
    #[inline(always)]
    pub(crate) fn take(
        &mut self,
        lookup: &mut AttributeLookup,
        next: WholeRecord,
    ) -> (IdentifiedRecord, &'a [u8])
        requires next { IsNextRecord self.old next }
        requires only { IfSome self.old.only_parse_info (HasOnly lookup.old) }
        ensures walk { MovesPast self.old next self.new }
        ensures body { result.1.now ≡ slice_range self.old.remaining.now 8 next.length }
        ensures identifies { IdentifiesRecord lookup.old self.old.offset self.old.round next.header
            result.1.now result.0 lookup.new }
        ensures keeps_attributes { KeepsAttributes lookup.old lookup.new }
        ensures keeps_only { IfSome self.old.only_parse_info (HasOnly lookup.new) }
    {
        let (offset, bytes) = (self.offset, self.remaining);
        self.offset = next.end;
        self.remaining = &bytes[next.length..];
        let body = &bytes[PerfEventHeader::STRUCT_SIZE..next.length];
        let only = &self.only_parse_info;
        let (round, header) = (self.round, next.header);
        let identified = IdentifiedRecord::identify_with_only(
            only, lookup, body, offset, round, header,
        );
        (identified, body)
    }

    // Takes the next record, with its body. Of the iterator, nothing changes but its lookup.
    #[inline(always)]
    pub(crate) fn take_ahead(
        &mut self,
        records: &mut PerfRecordIter<Cursor<&'a [u8]>>,
        next: WholeRecord,
    ) -> (IdentifiedRecord, &'a [u8])
        requires next { IsNextRecord self.old next }
        requires only { IfSome self.old.only_parse_info (HasOnly records.old.attribute_lookup) }
        ensures same_but_lookup { records.new ≡ with_lookup records.old records.new.attribute_lookup }
        ensures walk { MovesPast self.old next self.new }
        ensures body { result.1.now ≡ slice_range self.old.remaining.now 8 next.length }
        ensures identifies { IdentifiesRecord records.old.attribute_lookup self.old.offset self.old.round
            next.header result.1.now result.0 records.new.attribute_lookup }
        ensures keeps_attributes { KeepsAttributes records.old.attribute_lookup records.new.attribute_lookup }
        ensures keeps_only { IfSome self.old.only_parse_info (HasOnly records.new.attribute_lookup) }
    {
        self.take(&mut records.attribute_lookup, next)
    }

    // Takes the next record of the iterator, with its body.
    #[inline(always)]
    pub(crate) fn take_from(
        mut self,
        records: &mut PerfRecordIter<Cursor<&'a [u8]>>,
        next: WholeRecord,
    ) -> (IdentifiedRecord, &'a [u8])
        requires walk { IsWalkOf records.old self }
        requires next { IsNextRecord self next }
        ensures { TakesFileRecord records.old (Some result) records.new }
    {
        let position = records.source.position();
        records.source.set_position(position + next.length as u64);
        records.offset = next.end;
        self.take(&mut records.attribute_lookup, next)
    }

    // Moves the iterator to the position of the walk, which is ahead of it.
    pub(crate) fn move_iter(self, records: &mut PerfRecordIter<Cursor<&'a [u8]>>)
        requires rounds_fit { records.old.round ≤ self.offset }
        requires remaining { length self.remaining.now ≤ length (remaining_in records.old) }
        ensures { MovesIter records.old self.entry records.new }
    {
        let walked = remaining(&records.source).len() - self.remaining.len();
        let position = records.source.position();
        records.source.set_position(position + walked as u64);
        records.offset = self.offset;
    }
}
