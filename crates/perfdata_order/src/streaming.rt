//! The records of a source, in order of time.
ghost use Rattle.std.specs.Prelude.{◌≡◌, ℕ, ◌+◌, ◌<◌, ◌≤◌, [], MatchBool, IfSome, Some};

use crate::bodies::BodyRange;
use crate::held_record::RecordEnvelope;
use crate::held_records::HeldRecords;
use crate::in_memory::time_key;
use crate::reading::{BODY_CAPACITY, NextRecord, held_size, read_record};
use linux_perf_data::raw::RawData;
use linux_perf_data::source::Source;
use linux_perf_data::{Error, PerfFile, PerfFileRecord, PerfRecordIter, RecordPlace};
use std::alloc::{AllocError, Global};
use std::mem::replace;

// What was read from the source, and isn't in the sorter. A record has the time that it is sorted by, if it
// is timed. Its body is in `OrderedRecords::body`.
#[derive(Drop)]
pub(crate) enum PendingStep {
    Nothing,
    Record(Option<u64>, RecordEnvelope),
    RoundEnd,
    End,
    Failure(Error),
    Failed,
}

// Where the body of a record to be returned is: in the buffer of the record that was read last, or among
// those of held records.
#[derive(Clone, Copy)]
pub(crate) enum BodyBuffer {
    Read,
    Sorted,
}

/// Returns the records of a source in order of time.
///
/// A record is timed if its timestamp is neither missing, nor 0, nor 2^64 - 1, which stand for no time.
/// Records without a time are returned as soon as they are read, after the timed records that the ends of
/// earlier rounds release and before all timed records that are still held.
///
/// The timed records ascend as long as the recording keeps perf's rule: no record of round n + 2 or of a
/// later round is older than a record of round n. The records of two rounds are held, with their bodies. If
/// the recording has no rounds, all timed records are held, unless there is a budget
/// ([`OrderedRecords::with_budget`]). Equal timestamps keep the order of the source. The memory of returned
/// bodies is used again.
///
/// The records that the end of a round releases are returned before a byte after its marker is read.
///
/// ```
/// use linux_perf_data::source::Source;
/// use linux_perf_data::{Error, PerfFileReader};
/// use perfdata_order::streaming::OrderedRecords;
/// use std::alloc::Global;
///
/// fn longest_pause<R: Source + Drop>(
///     alloc: Global,
///     reader: PerfFileReader<R>,
/// ) -> Result<u64, Error> {
///     let mut perf_file = reader.perf_file;
///     let mut records = OrderedRecords::new(alloc, reader.record_iter);
///     let mut previous = None;
///     let mut longest = 0u64;
///     for _ in 0..u64::MAX {
///         let Some((place, _record)) = records.next_record(&mut perf_file)? else {
///             break;
///         };
///         let time = place.timestamp.unwrap_or(0);
///         if time == 0 {
///             continue;
///         }
///         longest = longest.max(time.saturating_sub(previous.unwrap_or(time)));
///         previous = Some(time);
///     }
///     Ok(longest)
/// }
/// ```
#[derive(Drop)]
pub struct OrderedRecords<R> {
    records: PerfRecordIter<R>,
    held: HeldRecords,
    round: u64,
    pending: PendingStep,
    body: Vec<u8>,
    // The body of the record that was returned last of the held ones.
    returned: BodyRange,
    // In bytes. 0 if there is no budget.
    budget: u64,
    held_bytes: u64,
    early: u64,
}

impl<R> OrderedRecords<R> {
    ghost use Rattle.perfdata_order.specs.StreamingOrder.{IsNewOrder};
    ghost use Rattle.perfdata_order.specs.steps.StreamingOrder.{EndsRoundsBefore, ReleasesEarly};
    ghost use Rattle.perfdata_order.specs.steps.StreamingOrder.{MayInsert, TakesEnd, TakesSorted};
    ghost use Rattle.perfdata_order.specs.StreamingOrder.{body_in, early_of};
    ghost use Rattle.perfdata_order.specs.steps.StreamingOrder.{TakesUntimed, TestsNextKnown};

    /// Returns the records of `records` in order of time. The order allocates with `alloc`.
    pub fn new(alloc: Global, records: PerfRecordIter<R>) -> OrderedRecords<R>
        ensures { IsNewOrder records 0 result }
    {
        OrderedRecords::with_budget(alloc, records, 0)
    }

    /// Returns the records of `records` in order of time, and holds at most `budget` bytes of them. The order
    /// allocates with `alloc`. 0 is no budget: all records of two rounds are held then, and of a recording
    /// without round markers all.
    ///
    /// A held record counts as the length of its body and 192 bytes. If the next record would exceed the
    /// budget, the older half of the held records is returned early, though older records may follow. A
    /// record that exceeds the budget alone is held alone.
    pub fn with_budget(alloc: Global, records: PerfRecordIter<R>, budget: u64) -> OrderedRecords<R>
        ensures { IsNewOrder records budget result }
    {
        OrderedRecords {
            records,
            held: HeldRecords::new(alloc),
            round: 0,
            pending: PendingStep::Nothing,
            body: Vec::new(alloc),
            returned: BodyRange::EMPTY,
            budget,
            held_bytes: 0,
            early: 0,
        }
    }

    /// Returns how often a half of the held records was returned early, because the next record would exceed
    /// the budget. It counts to 2^64 - 1.
    ///
    /// While it is 0, the records are in the order that they have without a budget.
    pub fn early(&self) -> u64
        ensures { result ≡ early_of self.now }
    {
        self.early
    }

    // Whether a record of this size is within the budget, which isn't 0.
    fn is_within_budget(&self, size: u64) -> bool
        ensures { MatchBool result (self.now.held_bytes + size ≤ self.now.budget)
            (self.now.budget < self.now.held_bytes + size) }
    {
        let budget = self.budget;
        match self.held_bytes.checked_add(size) {
            Some(total) => total <= budget,
            None => false,
        }
    }

    // Makes the older half of the records available, if a record of this size exceeds the budget.
    fn release_early(&mut self, size: u64) -> Result<(), AllocError>
        ensures { ReleasesEarly self.old size result self.new }
    {
        if self.budget == 0 || self.held.is_empty() {
            return Ok(());
        }
        if self.is_within_budget(size) {
            return Ok(());
        }
        self.held.release_half()?;
        self.early = self.early.saturating_add(1);
        Ok(())
    }

    // Ends the rounds before the round of the pending record.
    fn end_rounds(&mut self, round: u64) -> Result<(), AllocError>
        ensures { EndsRoundsBefore self.old round result self.new }
    {
        let ended = round.saturating_sub(self.round);
        if ended == 0 {
            return Ok(());
        }
        if ended == 1 {
            self.held.finish_round()?;
        } else {
            self.held.finish()?;
        }
        self.round = round;
        Ok(())
    }

    // The last round whose records are inserted as soon as they are read. There is none if a record is
    // available, or if there is a budget.
    fn insertable_round(&self) -> Option<u64>
        ensures { IfSome result (λ round. MayInsert self.now round) }
    {
        if self.budget == 0 && !self.held.has_more() {
            Some(self.round)
        } else {
            None
        }
    }

    // Takes the next available record from the sorter. `self.returned` is then its body.
    #[inline(always)]
    fn take_sorted(&mut self) -> Option<RecordEnvelope>
        ensures { TakesSorted self.old result self.new }
    {
        match self.held.take_next() {
            Some((envelope, range)) => {
                let size = held_size(self.held.body(range).len());
                self.returned = range;
                self.held_bytes = self.held_bytes.saturating_sub(size);
                Some(envelope)
            }
            None => None,
        }
    }

    // Takes the pending record, if it has no time. Its body is in `self.body`.
    fn take_untimed(&mut self) -> Option<RecordEnvelope>
        ensures { TakesUntimed self.old result self.new }
    {
        match self.pending {
            PendingStep::Nothing => None,
            PendingStep::RoundEnd => None,
            PendingStep::Record(Some(_), _) => None,
            PendingStep::Record(None, envelope) => {
                self.pending = PendingStep::Nothing;
                Some(envelope)
            }
            PendingStep::End => None,
            PendingStep::Failure(_) => None,
            PendingStep::Failed => None,
        }
    }

    // Returns the end of the source or its error, if it is pending. After an error, each call fails.
    fn take_end(&mut self) -> Option<Result<(), Error>>
        ensures { TakesEnd self.old result self.new }
    {
        match self.pending {
            PendingStep::Nothing => None,
            PendingStep::RoundEnd => None,
            PendingStep::Record(_, _) => None,
            PendingStep::End => Some(Ok(())),
            PendingStep::Failure(_) => match replace(&mut self.pending, PendingStep::Failed) {
                PendingStep::Failure(error) => Some(Err(error)),
                _ => None,
            },
            PendingStep::Failed => Some(Err(Error::Failed)),
        }
    }

    // Whether the next call of `next_record` returns without reading.
    fn is_next_known(&self) -> bool
        ensures { TestsNextKnown self.now result }
    {
        if self.held.has_more() {
            return true;
        }
        match self.pending {
            PendingStep::Nothing => false,
            PendingStep::RoundEnd => false,
            PendingStep::Record(Some(_), _) => false,
            PendingStep::Record(None, _) => true,
            PendingStep::End => true,
            PendingStep::Failure(_) => true,
            PendingStep::Failed => true,
        }
    }

    // The body of a record to be returned.
    fn held_body(&self, buffer: BodyBuffer) -> &[u8]
        ensures { result.now ≡ body_in buffer self.now }
    {
        match buffer {
            BodyBuffer::Read => self.body.as_slice(),
            BodyBuffer::Sorted => self.held.body(self.returned),
        }
    }
}

impl<R: Source> OrderedRecords<R> {
    ghost use Rattle.std.specs.Io.BufRead.{Rests};
    ghost use Rattle.std.specs.Borrow.{sem};
    ghost use Rattle.perfdata_order.specs.contracts.streaming.OrderedRecords.{the_row};
    ghost use Rattle.perfdata_order.specs.declared.streaming.PendingStep.TheVariants.{Record, RoundEnd};
    ghost use Rattle.perfdata_order.specs.StreamingOrder.{unplaced_of, AdmitsPending, PlacesPending};
    ghost use Rattle.perfdata_order.specs.StreamingOrder.{ReadsNext, ReadsBuffered, AdvancesInOrder};
    ghost use Rattle.perfdata_order.specs.StreamingOrder.{ReturnsInOrder};
    ghost use Rattle.perfdata_order.specs.StreamingOrder.Unplaced.{waiting};
    ghost use Rattle.perfdata_order.specs.HeldRecord.{held_size as size_of};
    ghost use Rattle.perfdata_order.specs.Sorter.{available_of};
    ghost use Rattle.linux_perf_data.specs.Layout.{RecordView};

    // Reads the next record or the end of a round, unless something is pending. A record is then in the
    // sorter, or pending with its body in `self.body`. The end of a round is pending.
    fn read(&mut self, perf_file: &mut PerfFile) -> Result<(), AllocError>
        ensures { available_of self.old.held.sorter ≡ [] → ReadsNext R.state self.old perf_file.old result
            self.new perf_file.new }
    {
        match self.pending {
            PendingStep::Nothing => {}
            _ => return Ok(()),
        }
        self.body.clear();
        self.body.try_reserve(BODY_CAPACITY)?;
        let last_round = self.insertable_round();
        match read_record(
            &mut self.records,
            perf_file,
            &mut self.held,
            last_round,
            &mut self.body,
        ) {
            // Most records aren't pending: `PendingStep` is large, and dear to write.
            Ok(Some(NextRecord::Held(size))) => {
                self.held_bytes = self.held_bytes.saturating_add(size);
                Ok(())
            }
            Ok(Some(NextRecord::Copied(envelope))) => {
                self.pending = PendingStep::Record(time_key(envelope.place), envelope);
                Ok(())
            }
            Ok(Some(NextRecord::RoundEnd)) => {
                self.pending = PendingStep::RoundEnd;
                Ok(())
            }
            Ok(None) => {
                self.pending = PendingStep::End;
                Ok(())
            }
            Err(error) => {
                self.pending = PendingStep::Failure(error);
                Ok(())
            }
        }
    }

    // Ends the rounds before the round of the pending record, and releases records early if it exceeds the
    // budget. Returns whether it may be inserted: if not, records are available that are returned before.
    fn admit_pending(&mut self, round: u64, size: u64) -> Result<bool, AllocError>
        ensures { (key : ℕ) (h : RecordView) → unplaced_of self.old ≡ waiting (Some key) h → h.round ≡ round
            → size_of h ≡ size → AdmitsPending R.state self.old h result self.new }
    {
        if self.held.has_more() {
            return Ok(false);
        }
        match self.end_rounds(round) {
            Ok(()) => {}
            Err(error) => return Err(error),
        }
        if self.held.has_more() {
            return Ok(false);
        }
        match self.release_early(size) {
            Ok(()) => {}
            Err(error) => return Err(error),
        }
        Ok(!self.held.has_more())
    }

    // Inserts the pending timed record into the sorter, if it may be inserted.
    fn insert_record(&mut self, key: u64, envelope: RecordEnvelope) -> Result<(), AllocError>
        requires { self.old.pending ≡ Record (Some key) envelope }
        ensures { PlacesPending R.state self.old result self.new }
    {
        let size = held_size(self.body.len());
        match self.admit_pending(envelope.place.round, size) {
            Ok(true) => {}
            Ok(false) => return Ok(()),
            Err(error) => return Err(error),
        }
        match self
            .held
            .insert(key, envelope, RawData::Single(self.body.as_slice()))
        {
            Ok(()) => {
                self.pending = PendingStep::Nothing;
                self.held_bytes = self.held_bytes.saturating_add(size);
                Ok(())
            }
            Err(error) => Err(error),
        }
    }

    // Ends the current round, whose end is pending.
    fn end_round(&mut self) -> Result<(), AllocError>
        requires { self.old.pending ≡ RoundEnd }
        ensures { PlacesPending R.state self.old result self.new }
    {
        self.held.finish_round()?;
        self.round = self.round.saturating_add(1);
        self.pending = PendingStep::Nothing;
        Ok(())
    }

    // Puts a pending timed record into the sorter. Before one without a time, the rounds before its own end.
    // At the end of a round this round ends, and at the end of the source, all rounds end.
    fn insert_pending(&mut self) -> Result<(), AllocError>
        ensures { PlacesPending R.state self.old result self.new }
    {
        match self.pending {
            PendingStep::Nothing => Ok(()),
            PendingStep::Record(key, envelope) => match key {
                Some(time) => self.insert_record(time, envelope),
                None => self.end_rounds(envelope.place.round),
            },
            PendingStep::RoundEnd => self.end_round(),
            PendingStep::End => self.held.finish(),
            PendingStep::Failure(_) => self.held.finish(),
            PendingStep::Failed => self.held.finish(),
        }
    }

    /// Reads the records that the source has buffered, up to one that [`OrderedRecords::next_record`] then
    /// returns without reading. Returns whether there is one. If not, that call may wait.
    ///
    /// # Errors
    ///
    /// Fails if memory runs out for the order. Then nothing is lost, and the call can be repeated.
    pub fn read_buffered(&mut self, perf_file: &mut PerfFile) -> Result<bool, AllocError>
        ensures { ReadsBuffered R.state self.old perf_file.old result self.new perf_file.new }
    {
        if self.is_next_known() {
            return Ok(true);
        }
        'reads: loop {
            if !self.records.is_next_buffered() {
                return Ok(false);
            }
            self.read(perf_file)?;
            self.insert_pending()?;
            if self.is_next_known() {
                return Ok(true);
            }
        }
    }

    // Takes the next record in order of time. Its body is then in a buffer.
    fn advance(
        &mut self,
        perf_file: &mut PerfFile,
    ) -> Result<Option<(RecordEnvelope, BodyBuffer)>, Error>
        ensures { AdvancesInOrder R.state self.old perf_file.old result self.new perf_file.new }
    {
        match self.take_sorted() {
            Some(envelope) => return Ok(Some((envelope, BodyBuffer::Sorted))),
            None => {}
        }
        'reads: loop {
            match self.read(perf_file) {
                Ok(()) => {}
                Err(error) => return Err(Error::from(error)),
            }
            match self.insert_pending() {
                Ok(()) => {}
                Err(error) => return Err(Error::from(error)),
            }
            match self.take_sorted() {
                Some(envelope) => return Ok(Some((envelope, BodyBuffer::Sorted))),
                None => {}
            }
            match self.take_untimed() {
                Some(untimed) => return Ok(Some((untimed, BodyBuffer::Read))),
                None => {}
            }
            match self.take_end() {
                Some(Ok(())) => return Ok(None),
                Some(Err(error)) => return Err(error),
                None => {}
            }
        }
    }

    /// Returns the next record in order of time with its [`RecordPlace`], or `Ok(None)` at the end of the
    /// records.
    ///
    /// The record borrows the order until the next call. Its attribute and its timestamp are determined as it
    /// is read. `perf_file` contains the metadata of all records that were read, which may come after the
    /// returned record.
    ///
    /// # Errors
    ///
    /// An error of the source is returned after all records before it, once. Each later call returns
    /// [`Error::Failed`].
    ///
    /// [`Error::Memory`] is also returned if memory runs out for the order. Then nothing is lost, and the
    /// call can be repeated. If memory runs out for the copy of a body of more than 65,536 bytes,
    /// [`Error::Memory`] is returned as an error of the source.
    pub fn next_record(
        &mut self,
        perf_file: &mut PerfFile,
    ) -> Result<Option<(RecordPlace, PerfFileRecord<'_>)>, Error>
        ensures* after_borrow { sem 𝓛 (Rests (the_row R.row) self.entry
            (λ new. ReturnsInOrder R.state self.old perf_file.old result new perf_file.new)) }
    {
        let Some((envelope, buffer)) = self.advance(perf_file)? else {
            return Ok(None);
        };
        let body = self.held_body(buffer);
        Ok(Some((envelope.place, envelope.with_body(body))))
    }
}
