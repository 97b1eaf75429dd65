//! The records of an input in memory, in order of time.
ghost use Rattle.std.specs.Prelude.{◌≡◌, Some};
ghost use Rattle.perfdata_order.specs.Times.{time_key_of};

use crate::sorter::Sorter;
use linux_perf_data::in_memory::InMemoryRecords;
use linux_perf_data::{Error, PerfFile, PerfFileRecord, RecordPlace};
use std::alloc::{AllocError, Global};
use std::mem::replace;

// What was read from the input, and isn't in the sorter. A record has the time that it is sorted by, if it is
// timed.
#[derive(Drop)]
pub(crate) enum PendingStep<'a> {
    Nothing,
    Record(Option<u64>, RecordPlace, PerfFileRecord<'a>),
    End,
    Failure(Error),
}

/// Returns the records of an input in memory in order of time. No byte of a record is copied.
///
/// A record is timed if its timestamp is neither missing, nor 0, nor 2^64 - 1, which stand for no time.
/// Records without a time are returned as soon as they are read, after the timed records that the ends of
/// earlier rounds release and before all timed records that are still held.
///
/// The timed records ascend as long as the recording keeps perf's rule: no record of round n + 2 or of a
/// later round is older than a record of round n. The records of two rounds are held, as references into the
/// input. If the recording has no rounds, all timed records are held. Equal timestamps keep the order of the
/// input.
#[derive(Drop)]
pub struct InMemoryOrderedRecords<'a> {
    records: InMemoryRecords<'a>,
    sorter: Sorter<u64, (RecordPlace, PerfFileRecord<'a>)>,
    round: u64,
    pending: PendingStep<'a>,
}

// The time that a record is sorted by. 0 and 2^64 - 1 stand for no time.
pub(crate) fn time_key(place: RecordPlace) -> Option<u64>
    ensures { result ≡ time_key_of place }
{
    match place.timestamp {
        Some(time) => {
            if time == 0 || time == u64::MAX {
                None
            } else {
                Some(time)
            }
        }
        None => None,
    }
}

impl<'a> InMemoryOrderedRecords<'a> {
    ghost use Rattle.perfdata_order.specs.InMemoryOrder.{IsNewOrder};
    ghost use Rattle.perfdata_order.specs.steps.InMemoryOrder.{EndsRoundsBefore, PlacesPending};
    ghost use Rattle.perfdata_order.specs.InMemoryOrder.{ReturnsInOrder};
    ghost use Rattle.perfdata_order.specs.steps.InMemoryOrder.{ReadsPending, TakesEnd};
    ghost use Rattle.perfdata_order.specs.steps.InMemoryOrder.{TakesUntimed};

    /// Returns the records of `records` in order of time. The order allocates with `alloc`.
    pub fn new(alloc: Global, records: InMemoryRecords<'a>) -> InMemoryOrderedRecords<'a>
        ensures { IsNewOrder records.entry result }
    {
        InMemoryOrderedRecords {
            records,
            sorter: Sorter::new(alloc),
            round: 0,
            pending: PendingStep::Nothing,
        }
    }

    // Reads the next record, unless something is pending.
    fn read(&mut self, perf_file: &mut PerfFile)
        ensures { ReadsPending self.old perf_file.old self.new perf_file.new }
    {
        match self.pending {
            PendingStep::Nothing => {}
            _ => return,
        }
        match self.records.next_record(perf_file) {
            Ok(Some((place, record))) => {
                self.pending = PendingStep::Record(time_key(place), place, record);
            }
            Ok(None) => {
                self.pending = PendingStep::End;
            }
            Err(error) => {
                self.pending = PendingStep::Failure(error);
            }
        }
    }

    // Ends the rounds before the round of the pending record.
    fn end_rounds(&mut self, round: u64) -> Result<(), AllocError>
        ensures { EndsRoundsBefore self.old round result self.new }
    {
        let ended = round.saturating_sub(self.round);
        if ended == 0 {
            return Ok(());
        }
        if ended == 1 {
            self.sorter.finish_round()?;
        } else {
            self.sorter.finish()?;
        }
        self.round = round;
        Ok(())
    }

    // Inserts the pending timed record into the sorter, after the rounds before its own ended.
    fn insert_record(
        &mut self,
        key: u64,
        place: RecordPlace,
        record: PerfFileRecord<'a>,
    ) -> Result<(), AllocError>
        requires { self.old.pending ≡ PendingStep.Record (Some key) place «record» }
        ensures { PlacesPending self.old result self.new }
    {
        match self.end_rounds(place.round) {
            Ok(()) => {}
            Err(error) => return Err(error),
        }
        match self.sorter.insert_unordered(key, (place, record)) {
            Ok(()) => {
                self.pending = PendingStep::Nothing;
                Ok(())
            }
            Err(_) => Err(AllocError),
        }
    }

    // Puts a pending timed record into the sorter. Before one without a time, the rounds before its own end.
    // At the end of the input, all rounds end.
    fn insert_pending(&mut self) -> Result<(), AllocError>
        ensures { PlacesPending self.old result self.new }
    {
        match self.pending {
            PendingStep::Nothing => Ok(()),
            PendingStep::Record(key, place, record) => match key {
                Some(time) => self.insert_record(time, place, record),
                None => self.end_rounds(place.round),
            },
            PendingStep::End => self.sorter.finish(),
            PendingStep::Failure(_) => self.sorter.finish(),
        }
    }

    // Takes the pending record, if it has no time.
    fn take_untimed(&mut self) -> Option<(RecordPlace, PerfFileRecord<'a>)>
        ensures { TakesUntimed self.old result self.new }
    {
        match self.pending {
            PendingStep::Nothing => None,
            PendingStep::Record(Some(_), _, _) => None,
            PendingStep::Record(None, place, record) => {
                self.pending = PendingStep::Nothing;
                Some((place, record))
            }
            PendingStep::End => None,
            PendingStep::Failure(_) => None,
        }
    }

    // Returns the end of the input or its error, if it is pending. The error is then no longer pending.
    fn take_end(&mut self) -> Option<Result<(), Error>>
        ensures { TakesEnd self.old result self.new }
    {
        match self.pending {
            PendingStep::Nothing => None,
            PendingStep::Record(_, _, _) => None,
            PendingStep::End => Some(Ok(())),
            PendingStep::Failure(_) => match replace(&mut self.pending, PendingStep::Nothing) {
                PendingStep::Failure(error) => Some(Err(error)),
                _ => None,
            },
        }
    }

    /// Returns the next record in order of time with its [`RecordPlace`], or `Ok(None)` at the end of the
    /// records.
    ///
    /// The attribute and the timestamp of a record are determined as it is read. `perf_file` contains the
    /// metadata of all records that were read, which may come after the returned record.
    ///
    /// # Errors
    ///
    /// An error of the input is returned after all records before it, once. Each later call returns
    /// [`Error::Failed`]. [`Error::Memory`] is also returned if memory runs out for the order. Then nothing
    /// is lost, and the call can be repeated.
    pub fn next_record(
        &mut self,
        perf_file: &mut PerfFile,
    ) -> Result<Option<(RecordPlace, PerfFileRecord<'a>)>, Error>
        ensures { ReturnsInOrder self.old perf_file.old result self.new perf_file.new }
    {
        match self.sorter.get_next() {
            Some(next) => return Ok(Some(next)),
            None => {}
        }
        'reads: loop {
            self.read(perf_file);
            match self.insert_pending() {
                Ok(()) => {}
                Err(error) => return Err(Error::from(error)),
            }
            match self.sorter.get_next() {
                Some(next) => return Ok(Some(next)),
                None => {}
            }
            match self.take_untimed() {
                Some(untimed) => return Ok(Some(untimed)),
                None => {}
            }
            match self.take_end() {
                Some(Ok(())) => return Ok(None),
                Some(Err(error)) => return Err(error),
                None => {}
            }
        }
    }
}
