//! The input of an iterator: the data section of a file, or a pipe with a pending header.
ghost use Rattle.std.specs.Prelude.{◌≡◌, length};
ghost use Rattle.linux_perf_data.specs.steps.RecordInput.{AnswersTruncation, TakesPendingHeader};
ghost use Rattle.linux_perf_data.specs.RecordInput.{input_source_state};
ghost use Rattle.linux_perf_data.specs.Pauses.{PausesOnlyAtEndOrError};
ghost use Rattle.linux_perf_data.specs.steps.RecordFraming.{ReadsHeaderBytes};

use perfdata_base::event::PerfEventHeader;
use perfdata_base::source::{Source, fill};
use perfdata_sections::error::Error;

// The bytes of a record header.
pub(crate) type HeaderBytes = [u8; PerfEventHeader::STRUCT_SIZE];

#[derive(Clone, Copy)]
pub(crate) enum RecordInput {
    // The data section of a file, with its size in bytes.
    Section(u64),
    // A pipe, with the record header that its opening read ahead, until that header is consumed.
    Pipe(Option<HeaderBytes>),
}

// For the prover: the same bytes, with their length as a fact.
fn header_of_eight(bytes: HeaderBytes) -> HeaderBytes
    ensures same { result ≡ bytes }
    ensures exact_len { length result ≡ 8 }
{
    bytes
}

// Reads the next eight bytes of the source. `None` if fewer remain.
pub(crate) fn read_header_bytes<R: Source>(source: &mut R) -> Result<Option<HeaderBytes>, Error>
    ensures reads { ReadsHeaderBytes (R.state source.old) result (R.state source.new) }
    ensures pauses { PausesOnlyAtEndOrError (R.state source.old) result (R.state source.new) }
    ensures same_loan { R.loan source.new ≡ R.loan source.old }
{
    let mut bytes = [0u8; PerfEventHeader::STRUCT_SIZE];
    if source.read_buffered(&mut bytes) {
        return Ok(Some(bytes));
    }
    let read_count = fill(source, &mut bytes)?;
    if read_count < PerfEventHeader::STRUCT_SIZE {
        return Ok(None);
    }
    Ok(Some(bytes))
}

// The bytes of the next record header: the pending header, or the next bytes of the source. `None` if fewer
// remain.
pub(crate) fn next_header_bytes<R: Source>(
    source: &mut R,
    input: &mut RecordInput,
) -> Result<Option<HeaderBytes>, Error>
    ensures pending_header { TakesPendingHeader input.old input.new }
    ensures reads { ReadsHeaderBytes (input_source_state input.old (R.state source.old)) result
        (input_source_state input.new (R.state source.new)) }
    ensures pauses { PausesOnlyAtEndOrError (R.state source.old) result (R.state source.new) }
    ensures same_loan { R.loan source.new ≡ R.loan source.old }
{
    match *input {
        RecordInput::Pipe(Some(bytes)) => {
            *input = RecordInput::Pipe(None);
            Ok(Some(header_of_eight(bytes)))
        }
        RecordInput::Pipe(None) => read_header_bytes(source),
        RecordInput::Section(_) => read_header_bytes(source),
    }
}

// The result for a truncated record: the end in a pipe, this error in a file.
pub(crate) fn at_truncation(
    input: RecordInput,
    error: Error,
) -> Result<Option<PerfEventHeader>, Error>
    ensures { AnswersTruncation input error result }
{
    match input {
        RecordInput::Pipe(_) => Ok(None),
        RecordInput::Section(_) => Err(error),
    }
}
