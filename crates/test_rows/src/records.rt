//! The calls that read the records of files and pipes one by one.
use crate::case::{CaseError, CaseResult};
use crate::metadata::push_accessors;
use crate::outcome::Call;
use crate::sources::error_kind;
use crate::text::Output;
use linux_perf_data::in_memory::{InMemoryReader, InMemoryRecords};
use linux_perf_data::raw::RawData;
use linux_perf_data::source::{PlacedSource, Script, Source};
use linux_perf_data::{
    Error, PerfFile, PerfFileReader, PerfFileRecord, PerfRecordIter, RecordPlace,
};
use std::alloc::Global;
use std::io::Cursor;

// The largest number of records of a case.
const MAX_RECORDS: usize = 1_000_000;

type Next<'a> = Result<Option<(RecordPlace, PerfFileRecord<'a>)>, Error>;

/// The metadata and the records after an opening.
pub type Opened<R> = Result<(PerfFile, R), Error>;

// The records of an input.
trait Records {
    fn next<'a>(&'a mut self, perf_file: &mut PerfFile) -> Next<'a>;
}

impl<R: Source> Records for PerfRecordIter<R> {
    fn next<'a>(&'a mut self, perf_file: &mut PerfFile) -> Next<'a> {
        self.next_record(perf_file)
    }
}

impl Records for InMemoryRecords<'_> {
    fn next<'a>(&'a mut self, perf_file: &mut PerfFile) -> Next<'a> {
        self.next_record(perf_file)
    }
}

/// Opens a pipe, if the name of the call or the value of the option ends with `pipe`, or a file.
pub fn open<C: PlacedSource + Drop>(
    alloc: Global,
    name: &str,
    source: C,
) -> Opened<PerfRecordIter<C>> {
    let reader = match name.ends_with("pipe") {
        false => PerfFileReader::parse_file(alloc, source)?,
        true => PerfFileReader::parse_pipe(alloc, source)?,
    };
    Ok((reader.perf_file, reader.record_iter))
}

fn open_in_memory<'a>(call: &Call<'a>) -> Opened<InMemoryRecords<'a>> {
    let reader = match call.case.call.ends_with("pipe") {
        false => InMemoryReader::parse_file(call.alloc, call.bytes)?,
        true => InMemoryReader::parse_pipe(call.alloc, call.bytes)?,
    };
    Ok((reader.perf_file, reader.records))
}

// The reading of a case. The first record has this offset.
#[derive(Clone, Copy)]
struct Reading<'a> {
    call: Call<'a>,
    first_offset: u64,
}

impl Reading<'_> {
    // Appends the values of a record, and whether its body isn't that of the input.
    fn push_record(&self, place: RecordPlace, record: &PerfFileRecord<'_>, out: &mut Output) {
        write!(out, "{} {} ", place.offset, place.round);
        match place.timestamp {
            Some(time) => write!(out, "{time} "),
            None => write!(out, "- "),
        }
        match record.attr_index() {
            Some(index) => write!(out, "{index} "),
            None => write!(out, "- "),
        }
        let body = record.body();
        let (record_type, misc, size) = (record.record_type().0, record.misc(), body.len());
        write!(out, "{record_type} {misc} {size}");
        let start = self.first_offset.saturating_add(place.offset);
        let start = usize::try_from(start.saturating_add(8)).unwrap_or(usize::MAX);
        let bytes = self.call.bytes.get(start..start.saturating_add(size));
        if body != RawData::Single(bytes.unwrap_or(&[])) {
            write!(out, " with another body");
        }
    }

    fn push_next(&self, next: &Next<'_>, out: &mut Output) {
        match next {
            Ok(Some((place, record))) => self.push_record(*place, record, out),
            Ok(None) => write!(out, "end"),
            Err(error) => {
                write!(out, "next: ");
                out.push_error(error);
            }
        }
    }

    // Appends the values of the accessors that the option `of` names, and ends the line.
    fn push_values(&self, perf_file: &PerfFile, out: &mut Output) -> CaseResult {
        match self.call.case.option("of") {
            Some(_) => {
                write!(out, " ");
                push_accessors(&self.call, perf_file, out)?;
            }
            None => write!(out, "\n"),
        }
        Ok(())
    }

    // Appends the results of the calls up to the end or the first error, and of two calls after it that don't
    // return `Ok(None)` or `Failed`.
    fn push_calls<I: Records>(
        &self,
        records: &mut I,
        perf_file: &mut PerfFile,
        out: &mut Output,
    ) -> CaseResult {
        let (mut later, mut is_end) = (0u8, false);
        for _ in 0..MAX_RECORDS {
            let next = records.next(perf_file);
            match (&next, later) {
                (Ok(None), 1..) if is_end => later = later.saturating_add(1),
                (Err(Error::Failed), 1..) if !is_end => later = later.saturating_add(1),
                (_, 0) => {
                    is_end = matches!(next, Ok(None));
                    later = u8::from(!matches!(next, Ok(Some(_))));
                    self.push_next(&next, out);
                    self.push_values(perf_file, out)?;
                }
                _ => {
                    self.push_next(&next, out);
                    write!(out, " later\n");
                    later = later.saturating_add(1);
                }
            }
            if later == 3 {
                break;
            }
        }
        Ok(())
    }

    // Appends the results of an opening and of the calls after it.
    fn push_opened<I: Records + Drop>(&self, opened: Opened<I>, out: &mut Output) -> CaseResult {
        let (mut perf_file, mut records) = match opened {
            Ok(opened) => opened,
            Err(error) => {
                write!(out, "open: ");
                out.push_result(&Err::<(), _>(error));
                return Ok(());
            }
        };
        if self.call.case.has("of") {
            write!(out, "open:");
            self.push_values(&perf_file, out)?;
        }
        let (Some(name), [other, ..]) = (self.call.case.option("other"), self.call.others) else {
            return self.push_calls(&mut records, &mut perf_file, out);
        };
        match open(self.call.alloc, name, Cursor::new(other.bytes.as_slice())) {
            Ok((mut other, _)) => self.push_calls(&mut records, &mut other, out),
            Err(_) => Err(CaseError::Invalid("another input that doesn't open")),
        }
    }

    fn push_source<C: PlacedSource + Drop>(&self, source: C, out: &mut Output) -> CaseResult {
        self.push_opened(open(self.call.alloc, self.call.case.call, source), out)
    }

    // Appends the results of an input without pauses and errors, and those of a source that returns single
    // bytes and of the input in memory if they differ.
    fn push_plain(&self, in_memory: Opened<InMemoryRecords<'_>>, out: &mut Output) -> CaseResult {
        let mut call = self.call;
        let mut first = Output::new(String::new(call.alloc));
        self.push_source(
            Cursor::new(Vec::from_slice(call.alloc, call.bytes)?),
            &mut first,
        )?;
        let first = first.finish()?;
        write!(out, "{first}");
        call.single_bytes = call.bytes.len();
        let mut other = Output::new(String::new(call.alloc));
        self.push_source(call.script()?, &mut other)?;
        out.append_other(&first, "single bytes", other)?;
        let mut other = Output::new(String::new(call.alloc));
        self.push_opened(in_memory, &mut other)?;
        out.append_other(&first, "in memory", other)
    }
}

// Appends what a further read of the source returns, if it isn't an error of this kind.
fn push_unread(script: &mut Script, kind: &str, out: &mut Output) -> CaseResult {
    match script.read_front(&mut [0]) {
        Err(error) if error.kind() == error_kind(kind)? => {}
        Ok(count) => write!(out, "a further read: {count}\n"),
        Err(error) => write!(out, "a further read: {:?}\n", error.kind()),
    }
    Ok(())
}

/// Reads the records of an input, one line a record. The line of an error begins with `open:` if the opening
/// returns it, else with `next:`.
///
/// With the option `of=NAMES` each line ends with the values of these accessors after its call. With
/// `other=file` or `other=pipe` the calls get the `PerfFile` of the second input. With `unread=KIND` a read
/// after the calls must fail with this kind.
pub fn push_reading(call: &Call<'_>, out: &mut Output) -> CaseResult {
    let in_memory = open_in_memory(call);
    let first_offset = match &in_memory {
        Ok((_, records)) => records.first_record_offset(),
        Err(Error::Memory) => return Err(CaseError::OutOfMemory),
        Err(_) => 0,
    };
    let reading = Reading {
        call: *call,
        first_offset,
    };
    if call.is_plain() {
        return reading.push_plain(in_memory, out);
    }
    drop(in_memory);
    let mut script = call.script()?;
    reading.push_source(&mut script, out)?;
    match call.case.option("unread") {
        Some(kind) => push_unread(&mut script, kind, out),
        None => Ok(()),
    }
}

/// Prints the number of bytes that are left in a pipe after its opening and after each record.
pub fn push_bytes_left(call: &Call<'_>, out: &mut Output) {
    let mut rest = call.bytes;
    match PerfFileReader::parse_pipe(call.alloc, &mut rest) {
        Ok(reader) => {
            let (mut perf_file, mut records) = (reader.perf_file, reader.record_iter);
            for _ in 0..=call.bytes.len() {
                out.push_line(&records.get_ref().len());
                if !matches!(records.next_record(&mut perf_file), Ok(Some(_))) {
                    break;
                }
            }
        }
        Err(error) => out.push_result(&Err::<(), Error>(error)),
    }
}
