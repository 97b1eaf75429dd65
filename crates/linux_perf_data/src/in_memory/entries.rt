//! Records in memory as entries of an array: plain numbers that outlive the reader.
ghost use Rattle.std.specs.Prelude.{◌≡◌, ◌+◌, ◌<◌, ◌≤◌, ◌^◌, length};
ghost use Rattle.linux_perf_data.specs.steps.FileWalk.{IsWalkOf};
ghost use Rattle.linux_perf_data.specs.InMemoryReading.{first_record_offset_of, input_of};
ghost use Rattle.linux_perf_data.specs.RecordEntries.{record_entry_at};
ghost use Rattle.linux_perf_data.specs.RecordViews.{record_view_of};

use crate::in_memory::InMemoryRecords;
use crate::in_memory::file_walk::{FileWalk, WholeRecord, with_known_endian, with_sample_time};
use crate::perf_file::PerfFile;
use crate::records::iter::RecordPlace;
use byteorder::{BigEndian, LittleEndian};
use perfdata_base::event::PerfEventHeader;
use perfdata_base::raw::{Endianness, FileOrder, RawData};
use perfdata_records::record::PerfFileRecord;

/// The position and the header fields of a record, as plain numbers.
#[repr(C)]
#[derive(Clone, Copy, Debug, PartialEq, Eq)]
pub struct RecordEntry {
    /// The offset of the record in bytes, counted from the first record.
    pub offset: u64,
    /// The offset of the record's body in bytes, counted from the start of the input.
    pub body_offset: u64,
    /// The size of the body in bytes, including aux data.
    pub body_size: u64,
    /// The number of round markers (FINISHED_ROUND) before the record.
    pub round: u64,
    /// The time at which the record was written, in nanoseconds of the recording's clock; 0 if it has no
    /// time.
    pub timestamp: u64,
    /// The index of the record's attribute; 0 if it has none.
    pub attr_index: u64,
    /// The record's type.
    pub record_type: u32,
    /// The misc flags of the record header.
    pub misc: u16,
    /// 1 if the record has a time, otherwise 0.
    pub has_timestamp: u8,
    /// 1 if the kernel wrote the record for an attribute, 0 if a tool wrote it.
    pub has_attr: u8,
}

const _: () = prove!(size_of::<RecordEntry>() == 56);

impl RecordEntry {
    /// Returns the entry of a record.
    ///
    /// `first_record_offset` is the offset of the first record in the input, in bytes.
    #[inline(always)]
    pub fn new(
        first_record_offset: u64,
        place: RecordPlace,
        record: &PerfFileRecord<'_>,
    ) -> RecordEntry
        requires fits { first_record_offset + place.offset + 8 < 2 ^ 64 }
        ensures { result ≡ record_entry_at first_record_offset (record_view_of place «record».now) }
    {
        let (timestamp, has_timestamp) = match place.timestamp {
            Some(timestamp) => (timestamp, 1),
            None => (0, 0),
        };
        let first_body_offset = first_record_offset + PerfEventHeader::STRUCT_SIZE as u64;
        let body_offset = first_body_offset + place.offset;
        match record {
            PerfFileRecord::EventRecord { attr_index, event } => RecordEntry {
                offset: place.offset,
                body_offset,
                body_size: event.body.len() as u64,
                round: place.round,
                timestamp,
                attr_index: *attr_index as u64,
                record_type: event.record_type.0,
                misc: event.misc,
                has_timestamp,
                has_attr: 1,
            },
            PerfFileRecord::UserRecord(user) => RecordEntry {
                offset: place.offset,
                body_offset,
                body_size: user.body.len() as u64,
                round: place.round,
                timestamp,
                attr_index: 0,
                record_type: user.record_type.record_type().0,
                misc: user.misc,
                has_timestamp,
                has_attr: 0,
            },
        }
    }
}

impl<'a> InMemoryRecords<'a> {
    ghost use Rattle.linux_perf_data.specs.steps.FileWalk.{IsNextRecord, IsWalkAhead};
    ghost use Rattle.linux_perf_data.specs.RecordEntries.{ReadsEntries};
    ghost use Rattle.linux_perf_data.specs.steps.WalkEntries.{ReadsEntriesOfWalk, TakesEntryOfWalk};
    ghost use Rattle.linux_perf_data.specs.steps.WalkEntries.{TakesRecordOfWalk, WritesMoreEntries};

    // Takes the next record of a walk from these records, which stay where the walk started.
    #[inline(always)]
    fn take_record_of_walk(
        &mut self,
        walk: &mut FileWalk<'a>,
        next: WholeRecord,
    ) -> (RecordPlace, PerfFileRecord<'a>)
        requires ahead { IsWalkAhead self.old walk.old }
        requires next { IsNextRecord walk.old next }
        ensures taken { TakesRecordOfWalk self.old walk.old result.0 result.1 self.new walk.new }
        ensures input_len_fits { length (input_of self.old) < 2 ^ 63 }
    {
        // For the prover: a slice is shorter than 2^63 bytes.
        let _size = self.input.len();
        let (identified, body) = walk.take_ahead(&mut self.records, next);
        let endian = self.records.endian;
        let parse_info = *self
            .records
            .attribute_lookup
            .parse_info(identified.attr_index());
        let record = identified.into_record(parse_info, endian, RawData::Single(body));
        (identified.place, record)
    }

    // Takes the next record of a walk from these records, and returns its entry. `perf_file` is for the
    // prover: it shows that there is one.
    #[inline(always)]
    fn take_entry(
        &mut self,
        walk: &mut FileWalk<'a>,
        next: WholeRecord,
        first_record_offset: u64,
        perf_file: &PerfFile,
    ) -> RecordEntry
        requires ahead { IsWalkAhead self.old walk.old }
        requires first { first_record_offset ≡ first_record_offset_of self.old }
        requires next { IsNextRecord walk.old next }
        ensures { TakesEntryOfWalk self.old walk.old result self.new walk.new }
    {
        let (place, record) = self.take_record_of_walk(walk, next);
        RecordEntry::new(first_record_offset, place, &record)
    }

    /// Writes the entries of the next records of a file, and returns their number.
    ///
    /// Writes at most as many entries as `entries` has capacity for. Stops before a round marker, before a
    /// record that is truncated or in error, and at the end of the records: then
    /// [`InMemoryRecords::next_record`] returns the next record, the error or the end. Reads nothing from a
    /// pipe. The elements after the last written entry are unchanged.
    ///
    /// `perf_file` is the metadata of the file. Records of a file don't change it.
    pub fn read_entries(&mut self, perf_file: &PerfFile, entries: &mut [RecordEntry]) -> usize
        ensures { ReadsEntries self.old entries.old result self.new entries.new }
    {
        let walk = match FileWalk::from_records(&self.records) {
            Some(walk) => walk,
            None => return 0,
        };
        // One loop for each byte order.
        match walk.endian() {
            Endianness::LittleEndian => {
                self.read_specialized_entries::<LittleEndian>(walk, perf_file, entries)
            }
            Endianness::BigEndian => {
                self.read_specialized_entries::<BigEndian>(walk, perf_file, entries)
            }
        }
    }

    // Writes the entries of the next records of a walk, whose byte order the compiler knows.
    #[inline(always)]
    fn read_specialized_entries<T: FileOrder>(
        &mut self,
        walk: FileWalk<'a>,
        perf_file: &PerfFile,
        entries: &mut [RecordEntry],
    ) -> usize
        requires walk { IsWalkOf self.old.records walk }
        requires same_endian { T.ENDIAN ≡ walk.endian }
        ensures { ReadsEntries self.old entries.old result self.new entries.new }
    {
        // Loops of their own for one attribute whose samples have a time, for one without, and for several
        // attributes.
        match walk.only_parse_info() {
            Some(parse_info) => {
                let only = with_known_endian(T::ENDIAN, parse_info);
                match only.sample_time_from_start {
                    Some(time) if time <= u32::MAX as u64 => {
                        let only = Some(with_sample_time(only, time));
                        self.read_walk_entries(
                            walk.specialized(T::ENDIAN, only),
                            perf_file,
                            entries,
                        )
                    }
                    _ => {
                        let walk = walk.specialized(T::ENDIAN, Some(only));
                        self.read_walk_entries(walk, perf_file, entries)
                    }
                }
            }
            None => {
                self.read_walk_entries(walk.specialized(T::ENDIAN, None), perf_file, entries)
            }
        }
    }

    // Writes the entries of the next records of a walk. Then moves the records to its position.
    #[inline(always)]
    fn read_walk_entries(
        &mut self,
        mut walk: FileWalk<'a>,
        perf_file: &PerfFile,
        entries: &mut [RecordEntry],
    ) -> usize
        requires { IsWalkOf self.old.records walk }
        ensures { ReadsEntries self.old entries.old result self.new entries.new }
    {
        let count = self.walk_entries(&mut walk, perf_file, entries);
        walk.move_iter(&mut self.records);
        count
    }

    // Writes the entries of the next records of a walk.
    #[inline(always)]
    fn walk_entries(
        &mut self,
        walk: &mut FileWalk<'a>,
        perf_file: &PerfFile,
        entries: &mut [RecordEntry],
    ) -> usize
        requires { IsWalkOf self.old.records walk.old }
        ensures { ReadsEntriesOfWalk self.old entries.old result self.new walk.new entries.new }
    {
        let first = self.first_record_offset;
        let mut count = 0;
        'records: while count < entries.len() {
            count = self.walk_kernel_entries(walk, first, perf_file, entries, count);
            if count >= entries.len() {
                break;
            }
            match walk.peek() {
                Some(next) => {
                    entries[count] = self.take_entry(walk, next, first, perf_file);
                    count += 1;
                }
                None => return count,
            }
        }
        count
    }

    // Writes the entries of the kernel's records that follow, from index `count` on. Returns the index after
    // them. Most records are the kernel's: in a loop of their own the compiler leaves out the tests that
    // others need. It stores nothing but entries, since the records stay where the walk started.
    #[inline(always)]
    fn walk_kernel_entries(
        &mut self,
        walk: &mut FileWalk<'a>,
        first_record_offset: u64,
        perf_file: &PerfFile,
        entries: &mut [RecordEntry],
        count: usize,
    ) -> usize
        requires ahead { IsWalkAhead self.old walk.old }
        requires first { first_record_offset ≡ first_record_offset_of self.old }
        ensures more { WritesMoreEntries self.old walk.old entries.old count self.new walk.new entries.new
            result }
        ensures from_count { count ≤ result }
        ensures same_length { length entries.new ≡ length entries.old }
    {
        let mut count = count;
        'records: while count < entries.len() {
            let next = match walk.peek_kernel() {
                Some(next) => next,
                None => break,
            };
            entries[count] = self.take_entry(walk, next, first_record_offset, perf_file);
            count += 1;
        }
        count
    }
}
