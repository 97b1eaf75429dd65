//! The iterator over records.
ghost use Rattle.std.specs.Prelude.{◌≡◌, ◌↔◌, ◌≤◌, [], IsTrue, IfSome, IfErr, vec_capacity};
ghost use Rattle.perfdata_sections.specs.declared.error.Error.TheVariants.{Memory};
ghost use Rattle.perfdata_sources.specs.Raw.{bytes_of};
ghost use Rattle.linux_perf_data.specs.NamedErrors.{IsRecordError};
ghost use Rattle.linux_perf_data.specs.Pauses.{PausesOnlyAtEndOrError};

use crate::attributes::lookup::AttributeLookup;
use crate::metadata_records::apply_metadata;
use crate::perf_file::PerfFile;
use crate::records::buffered::{contains_next_record, has_no_pending_header};
use crate::records::framing::{HEADER_SIZE, read_header, read_record_body, skip_body};
use crate::records::input::{RecordInput, at_truncation};
use perfdata_base::event::{PerfEventHeader, RawEventRecord, RecordType};
use perfdata_base::place::RecordParseInfo;
use perfdata_base::raw::{Endianness, RawData};
use perfdata_base::source::{Source, unexpected_eof};
use perfdata_records::record::{PerfFileRecord, RawUserRecord, UserRecordType};
use perfdata_sections::constants::PERF_RECORD_FINISHED_ROUND;
use perfdata_sections::error::{Error, ReadError};
use std::alloc::Global;

/// The offset, the round and the time of a record.
#[derive(Clone, Copy, Debug, PartialEq, Eq)]
pub struct RecordPlace {
    /// The time in nanoseconds of the recording's clock. `None` for a record of a tool, and if the records of
    /// the attribute have no time.
    pub timestamp: Option<u64>,
    /// The offset in bytes from the first record.
    pub offset: u64,
    /// The number of round markers (FINISHED_ROUND) before the record.
    pub round: u64,
}

#[derive(Clone, Copy, Debug, PartialEq, Eq)]
pub(crate) enum Stage {
    Running,
    Failed,
    Ended,
}

// Where a record is from: the kernel, for the attribute with this index, or a tool.
#[derive(Clone, Copy)]
pub(crate) enum RecordOrigin {
    Kernel(usize),
    User(UserRecordType),
}

// A record whose attribute and time are known, without its body.
#[derive(Clone, Copy)]
pub(crate) struct IdentifiedRecord {
    pub(crate) place: RecordPlace,
    pub(crate) record_type: RecordType,
    pub(crate) misc: u16,
    pub(crate) origin: RecordOrigin,
}

impl IdentifiedRecord {
    ghost use Rattle.perfdata_records.specs.FileRecord.{file_record_body};
    ghost use Rattle.linux_perf_data.specs.RecordViews.{record_view_of, record_view_at, attr_index_by_origin};
    ghost use Rattle.linux_perf_data.specs.steps.RecordViews.{IdentifiesRecord};
    ghost use Rattle.linux_perf_data.specs.steps.AttributeLookup.{HasOnly, KeepsAttributes};

    // Identifies the record with this record header and body, at this offset and in this round.
    #[inline(always)]
    pub(crate) fn identify(
        lookup: &mut AttributeLookup,
        body: &[u8],
        offset: u64,
        round: u64,
        header: PerfEventHeader,
    ) -> IdentifiedRecord
        ensures identifies { IdentifiesRecord lookup.old offset round header body.now result lookup.new }
        ensures keeps_attributes { KeepsAttributes lookup.old lookup.new }
    {
        IdentifiedRecord::identify_with_only(&None, lookup, body, offset, round, header)
    }

    // Identifies the record, if `only` is the parse info of the only attribute, or `None`.
    #[inline(always)]
    pub(crate) fn identify_with_only(
        only: &Option<RecordParseInfo>,
        lookup: &mut AttributeLookup,
        body: &[u8],
        offset: u64,
        round: u64,
        header: PerfEventHeader,
    ) -> IdentifiedRecord
        requires { IfSome only.now (HasOnly lookup.old) }
        ensures identifies { IdentifiesRecord lookup.old offset round header body.now result lookup.new }
        ensures keeps_attributes { KeepsAttributes lookup.old lookup.new }
        ensures keeps_only { IfSome only.now (HasOnly lookup.new) }
    {
        let record_type = RecordType(header.type_);
        let (origin, timestamp) = match UserRecordType::try_from(record_type) {
            Some(user_type) => (RecordOrigin::User(user_type), None),
            None => match only {
                Some(parse_info) => {
                    let time = parse_info.read_time(record_type, body);
                    (RecordOrigin::Kernel(0), time)
                }
                None => {
                    let index = lookup.find_attr_index(record_type, body);
                    let time = lookup.parse_info(index).read_time(record_type, body);
                    (RecordOrigin::Kernel(index), time)
                }
            },
        };
        IdentifiedRecord {
            place: RecordPlace {
                timestamp,
                offset,
                round,
            },
            record_type,
            misc: header.misc,
            origin,
        }
    }

    // The index of its attribute, or 0 if a tool wrote the record.
    pub(crate) fn attr_index(self) -> usize
        ensures { result ≡ attr_index_by_origin self.origin }
    {
        match self.origin {
            RecordOrigin::Kernel(index) => index,
            RecordOrigin::User(_) => 0,
        }
    }

    // The record with the parse info of its attribute, and its body.
    #[inline(always)]
    pub(crate) fn into_record<'a>(
        self,
        parse_info: RecordParseInfo,
        endian: Endianness,
        body: RawData<'a>,
    ) -> PerfFileRecord<'a>
        ensures view { record_view_of self.place result
            ≡ record_view_at parse_info self endian (bytes_of body.entry) }
        ensures same_body { file_record_body result ≡ body.entry }
    {
        match self.origin {
            RecordOrigin::Kernel(index) => PerfFileRecord::EventRecord {
                attr_index: index,
                event: RawEventRecord {
                    record_type: self.record_type,
                    misc: self.misc,
                    body,
                    parse_info,
                },
            },
            RecordOrigin::User(record_type) => PerfFileRecord::UserRecord(RawUserRecord {
                record_type,
                endian,
                misc: self.misc,
                body,
            }),
        }
    }
}

// A record without its body, or the end of the round with this number.
#[derive(Clone, Copy)]
pub(crate) enum IdentifiedItem {
    Record(IdentifiedRecord),
    RoundEnd(u64),
}

/// A record, or the end of a round.
#[derive(Clone, Copy)]
pub enum PerfItem<'a> {
    /// A record with its place.
    Record(RecordPlace, PerfFileRecord<'a>),
    /// The end of a round: a round marker (FINISHED_ROUND).
    RoundEnd {
        /// The number of markers before this one, which is also the round of the records before it, up to
        /// the previous marker.
        round: u64,
    },
}

/// Returns the records of a source one by one, in the order of the source, and reuses one buffer for their
/// bodies.
///
/// It reads nothing ahead: after a record, the source is positioned directly after that record.
#[derive(Drop)]
pub struct PerfRecordIter<R> {
    pub(crate) alloc: Global,
    pub(crate) source: R,
    pub(crate) input: RecordInput,
    pub(crate) endian: Endianness,
    pub(crate) attribute_lookup: AttributeLookup,
    pub(crate) body: Vec<u8>,
    pub(crate) offset: u64,
    pub(crate) round: u64,
    pub(crate) stage: Stage,
    ghost rounds_fit: { round ≤ offset },
}

impl<R> PerfRecordIter<R> {
    // An iterator at the first record.
    pub(crate) fn new(
        alloc: Global,
        source: R,
        input: RecordInput,
        endian: Endianness,
        attribute_lookup: AttributeLookup,
        stage: Stage,
    ) -> PerfRecordIter<R>
        ensures source { result.source ≡ source }
        ensures input { result.input ≡ input }
        ensures order { result.endian ≡ endian }
        ensures attribute_lookup { result.attribute_lookup ≡ attribute_lookup }
        ensures stage { result.stage ≡ stage }
        ensures starts_at_zero { (result.offset ≡ 0) × (result.round ≡ 0) }
    {
        PerfRecordIter {
            alloc,
            source,
            input,
            endian,
            attribute_lookup,
            body: Vec::new(alloc),
            offset: 0,
            round: 0,
            stage,
        }
    }
}

// What reads a record is inlined into each caller of `next_record`, however many a program has: the results
// are large, and go through memory from one function to another.
impl<R: Source> PerfRecordIter<R> {
    ghost use Rattle.linux_perf_data.specs.BufferedRecord.{IsFinished, IsNextBuffered, ContainsNextRecord};
    ghost use Rattle.linux_perf_data.specs.BufferedRecord.{TestsNextBuffered};
    ghost use Rattle.linux_perf_data.specs.Iter.{MemoryOnlyToGrow, Advances, NextRecord};
    ghost use Rattle.linux_perf_data.specs.steps.Iter.{TestsMayStart};
    ghost use Rattle.linux_perf_data.specs.Iter.{section_size_of, iter_source_state};
    ghost use Rattle.linux_perf_data.specs.steps.IterSteps.{RawRecordExceedsBuffer, ReadsRawRecord};
    ghost use Rattle.linux_perf_data.specs.steps.IterSteps.{ProcessesRecord};
    ghost use Rattle.linux_perf_data.specs.steps.ItemSteps.{Steps, AdvancesItem};
    ghost use Rattle.linux_perf_data.specs.Items.{NextItem};
    ghost use Rattle.std.specs.Io.BufRead.{Rests};
    ghost use Rattle.std.specs.Borrow.{sem};
    ghost use Rattle.linux_perf_data.specs.contracts.records.iter.PerfRecordIter.{the_row};

    // Whether a record may start at the current offset. In a file, the records end with the section.
    pub(crate) fn may_start_record(&self) -> bool
        ensures { TestsMayStart (section_size_of R.state self.now) self.now.offset result }
    {
        match self.input {
            RecordInput::Section(size) => self.offset < size,
            RecordInput::Pipe(_) => true,
        }
    }

    /// Returns the source of the records.
    pub fn get_ref(&self) -> &R
        ensures { result.now ≡ self.now.source }
    {
        &self.source
    }

    /// Returns whether all bytes that the next call of `next_record` reads are buffered. That call then
    /// doesn't wait.
    ///
    /// If it returns true, [`Source::buffer`] contains the whole next record, with the markers before it and
    /// its aux data; or the next call reads nothing, because an earlier call failed, an earlier call returned
    /// the end, or the section of a file ends at the current offset.
    ///
    /// Otherwise it returns false, because the next call may wait, the next bytes are no valid record, or the
    /// source ends. It also returns false while the record header that the opening of a pipe read ahead is
    /// pending.
    pub fn is_next_buffered(&self) -> bool
        ensures exact { IsTrue result ↔ IsNextBuffered R.state R.buffered self.now }
        ensures prefix_of_remaining { TestsNextBuffered R.state self.now result }
        ensures contains_next { IsTrue result → ¬ IsFinished R.state self.now
            → IfSome (iter_source_state R.state self.now).bytes
            (ContainsNextRecord self.now.endian (section_size_of R.state self.now) self.now.offset) }
    {
        let buffered = self.source.buffer();
        match self.stage {
            Stage::Running => {}
            Stage::Failed => return true,
            Stage::Ended => return true,
        }
        if !self.may_start_record() {
            return true;
        }
        if !has_no_pending_header(self.input) {
            return false;
        }
        contains_next_record(self.endian, self.input, self.offset, buffered)
    }

    // Reads the next raw record: a marker, or a record whose body is then in `self.body`. `None` if a pipe
    // ends.
    #[inline(always)]
    fn next_raw_record(&mut self) -> Result<Option<PerfEventHeader>, Error>
        requires empty { self.old.body.items ≡ [] }
        ensures raw_record { ReadsRawRecord R.state self.old result self.new }
        ensures memory_only_to_grow { IfErr result
            (λ e. e ≡ Memory → RawRecordExceedsBuffer R.state self.old self.new) }
        ensures capacity { vec_capacity self.old.body ≤ vec_capacity self.new.body }
        ensures pauses { PausesOnlyAtEndOrError (R.state self.old.source) result (R.state self.new.source) }
        ensures same_loan { R.loan self.new.source ≡ R.loan self.old.source }
    {
        let (input, offset) = (&mut self.input, self.offset);
        let (header, end) = match read_header(&mut self.source, input, self.endian, offset)? {
            Some(header_and_end) => header_and_end,
            None => return at_truncation(self.input, Error::from(unexpected_eof())),
        };
        if header.type_ == PERF_RECORD_FINISHED_ROUND {
            if !skip_body(&mut self.source, (header.size - HEADER_SIZE) as u64)? {
                return at_truncation(self.input, Error::Read(ReadError::PerfEventData));
            }
            self.round += 1;
            self.offset = end;
            return Ok(Some(header));
        }
        match read_record_body(&mut self.source, self.endian, header, &mut self.body, end)? {
            Some(end) => {
                self.offset = end;
                Ok(Some(header))
            }
            None => at_truncation(self.input, Error::Read(ReadError::PerfEventData)),
        }
    }

    // Identifies the record whose body is in `self.body` by the attributes before it, and then applies its
    // metadata.
    #[inline(always)]
    fn process_record(
        &mut self,
        perf_file: &mut PerfFile,
        offset: u64,
        round: u64,
        header: PerfEventHeader,
    ) -> Result<IdentifiedRecord, Error>
        ensures processes { ProcessesRecord R.state self.old perf_file.old offset round header result self.new
            perf_file.new }
        ensures pauses { R.state self.new.source ≡ R.state self.old.source }
        ensures same_loan { R.loan self.new.source ≡ R.loan self.old.source }
    {
        let body = self.body.as_slice();
        let lookup = &mut self.attribute_lookup;
        let identified = IdentifiedRecord::identify(lookup, body, offset, round, header);
        match self.input {
            RecordInput::Section(_) => Ok(identified),
            RecordInput::Pipe(_) => {
                let (alloc, endian) = (self.alloc, self.endian);
                apply_metadata(alloc, endian, lookup, perf_file, header.type_, body)?;
                Ok(identified)
            }
        }
    }

    // Reads and processes the next raw record. The body of a record is then in `self.body`.
    #[inline(always)]
    fn step(&mut self, perf_file: &mut PerfFile) -> Result<Option<IdentifiedItem>, Error>
        requires empty { self.old.body.items ≡ [] }
        ensures steps { Steps R.state self.old perf_file.old result self.new perf_file.new }
        ensures pauses { PausesOnlyAtEndOrError (R.state self.old.source) result (R.state self.new.source) }
        ensures same_loan { R.loan self.new.source ≡ R.loan self.old.source }
    {
        if !self.may_start_record() {
            self.stage = Stage::Ended;
            return Ok(None);
        }
        let offset = self.offset;
        let round = self.round;
        match self.next_raw_record() {
            Ok(Some(header)) => {
                if header.type_ == PERF_RECORD_FINISHED_ROUND {
                    return Ok(Some(IdentifiedItem::RoundEnd(round)));
                }
                match self.process_record(perf_file, offset, round, header) {
                    Ok(identified) => Ok(Some(IdentifiedItem::Record(identified))),
                    Err(error) => {
                        self.offset = offset;
                        self.stage = Stage::Failed;
                        Err(error)
                    }
                }
            }
            Ok(None) => {
                self.stage = Stage::Ended;
                Ok(None)
            }
            Err(error) => {
                self.stage = Stage::Failed;
                Err(error)
            }
        }
    }

    // Reads up to the end of the next record, whose body is then in `self.body`.
    #[inline(always)]
    fn advance(&mut self, perf_file: &mut PerfFile) -> Result<Option<IdentifiedRecord>, Error>
        ensures advances { Advances R.state self.old perf_file.old result self.new perf_file.new }
        ensures memory_only_to_grow { MemoryOnlyToGrow R.state self.old result self.new }
        ensures pauses { PausesOnlyAtEndOrError (R.state self.old.source) result (R.state self.new.source) }
        ensures same_loan { R.loan self.new.source ≡ R.loan self.old.source }
    {
        match self.stage {
            Stage::Running => {}
            Stage::Failed => return Err(Error::Failed),
            Stage::Ended => return Ok(None),
        }
        self.body.clear();
        // For the prover: the offset has 64 bits.
        let _offset = self.offset;
        'raw_records: loop {
            match self.step(perf_file)? {
                Some(IdentifiedItem::Record(identified)) => return Ok(Some(identified)),
                Some(IdentifiedItem::RoundEnd(_)) => {}
                None => return Ok(None),
            }
        }
    }

    // Reads up to the end of the next record or marker.
    #[inline(always)]
    fn advance_item(&mut self, perf_file: &mut PerfFile) -> Result<Option<IdentifiedItem>, Error>
        ensures advances { AdvancesItem R.state self.old perf_file.old result self.new perf_file.new }
        ensures memory_only_to_grow { MemoryOnlyToGrow R.state self.old result self.new }
        ensures pauses { PausesOnlyAtEndOrError (R.state self.old.source) result (R.state self.new.source) }
        ensures same_loan { R.loan self.new.source ≡ R.loan self.old.source }
    {
        match self.stage {
            Stage::Running => {}
            Stage::Failed => return Err(Error::Failed),
            Stage::Ended => return Ok(None),
        }
        self.body.clear();
        // For the prover: the offset has 64 bits.
        let _offset = self.offset;
        self.step(perf_file)
    }

    /// Returns the next record, or the end of a round, or `Ok(None)` at the end of the records.
    ///
    /// A call consumes one record or one round marker (FINISHED_ROUND), and no byte more: it returns the end
    /// of a round before a byte after the marker is read. Without the ends of rounds, the items are the
    /// records that [`PerfRecordIter::next_record`] returns, and calls of the two can be mixed. `perf_file`
    /// and the errors are as there.
    #[inline(always)]
    pub fn next_item(&mut self, perf_file: &mut PerfFile) -> Result<Option<PerfItem<'_>>, Error>
        ensures named_error { IfErr result IsRecordError }
        ensures* after_borrow { sem 𝓛 (Rests (the_row R.row) self.entry
            (λ new. NextItem R.state R.loan self.old perf_file.old result new perf_file.new)) }
    {
        match self.advance_item(perf_file)? {
            Some(IdentifiedItem::Record(identified)) => {
                let endian = self.endian;
                let parse_info = *self.attribute_lookup.parse_info(identified.attr_index());
                let body = RawData::Single(self.body.as_slice());
                let record = identified.into_record(parse_info, endian, body);
                Ok(Some(PerfItem::Record(identified.place, record)))
            }
            Some(IdentifiedItem::RoundEnd(round)) => Ok(Some(PerfItem::RoundEnd { round })),
            None => Ok(None),
        }
    }

    /// Returns the next record with its [`RecordPlace`], or `Ok(None)` at the end of the records.
    ///
    /// The record borrows the iterator until the next call. The call consumes the markers before the record,
    /// its record header, its body and its aux data, and no byte more. After the end, each call returns
    /// `Ok(None)` and reads nothing.
    ///
    /// A pipe ends if a record header, or a body of the size in the record header, is truncated, which is no
    /// error there. A metadata record of a pipe (types 64 and 80) is applied to `perf_file` before the call
    /// returns it. Its attribute is appended to the previous ones, and EVENT_DESC then names all attributes
    /// again. The data of its feature replace the previous data of that feature.
    ///
    /// # Errors
    ///
    /// An error is returned once with its cause. Each later call returns [`Error::Failed`] and reads nothing.
    ///
    /// - `IoError` of kind `UnexpectedEof` if a record header is truncated, or if the body of an auxtrace
    ///   record has fewer than 40 bytes.
    /// - `IoError` of the source if it fails within a record header.
    /// - `InvalidPerfEventSize` if the size in a record header is below 8, the size of the record header.
    /// - `Read(PerfEventData)` if a body or aux data are truncated or can't be read, or would end past 2^64 -
    ///   1.
    /// - `IoError` of kind `Unsupported` for a compressed record (types 81 and 83), whose bytes are consumed.
    /// - `Memory` if memory runs out for a body. The body with its aux data is then larger than the
    ///   capacity of the buffer.
    ///
    /// If a metadata record can't be applied, the metadata in `perf_file` is unchanged, and the error is:
    ///
    /// - `IoError` of kind `InvalidInput` if `perf_file` has another number of attributes than the input so
    ///   far.
    /// - `IoError` of kind `UnexpectedEof` if the body of the record ends early.
    /// - `IoError` of kind `InvalidData` if the size field of an attribute is below 64.
    /// - The error of `parse_event_desc_section` if EVENT_DESC can't be parsed.
    /// - `NoIdentifierDespiteMultiEvent` or `InconsistentSampleIdAllWithMultiEvent` if the attributes are
    ///   inconsistent.
    /// - `Memory` if memory runs out.
    #[inline(always)]
    pub fn next_record(
        &mut self,
        perf_file: &mut PerfFile,
    ) -> Result<Option<(RecordPlace, PerfFileRecord<'_>)>, Error>
        ensures named_error { IfErr result IsRecordError }
        ensures* after_borrow { sem 𝓛 (Rests (the_row R.row) self.entry
            (λ new. NextRecord R.state R.loan self.old perf_file.old result new perf_file.new)) }
    {
        match self.advance(perf_file) {
            Ok(Some(identified)) => {
                let endian = self.endian;
                let parse_info = *self.attribute_lookup.parse_info(identified.attr_index());
                let body = RawData::Single(self.body.as_slice());
                Ok(Some((
                    identified.place,
                    identified.into_record(parse_info, endian, body),
                )))
            }
            Ok(None) => Ok(None),
            Err(error) => Err(error),
        }
    }
}
