//! Takes records from bytes in memory. The calls are those of a `PerfRecordIter` over a cursor, but the body
//! buffer stays empty.
ghost use Rattle.std.specs.Prelude.{◌≡◌};
ghost use Rattle.linux_perf_data.specs.steps.InMemory.{ProcessesBody, TakesFileRecord, TakesRecord};

use crate::in_memory::file_walk::FileWalk;
use crate::in_memory::raw_record::{RawRecord, take_raw_record};
use crate::metadata_records::apply_metadata;
use crate::perf_file::PerfFile;
use crate::records::input::RecordInput;
use crate::records::iter::{IdentifiedRecord, PerfRecordIter, Stage};
use perfdata_base::event::PerfEventHeader;
use perfdata_sections::error::Error;
use std::io::Cursor;

// Identifies the record with this body by the attributes before it, and then applies its metadata.
#[inline(always)]
fn process_record(
    records: &mut PerfRecordIter<Cursor<&[u8]>>,
    perf_file: &mut PerfFile,
    offset: u64,
    round: u64,
    header: PerfEventHeader,
    body: &[u8],
) -> Result<IdentifiedRecord, Error>
    ensures processes { ProcessesBody records.old perf_file.old offset round header body.now result
        records.new perf_file.new }
    ensures same_buffer { records.new.body ≡ records.old.body }
{
    let lookup = &mut records.attribute_lookup;
    let identified = IdentifiedRecord::identify(lookup, body, offset, round, header);
    match records.input {
        RecordInput::Section(_) => Ok(identified),
        RecordInput::Pipe(_) => {
            let (alloc, endian) = (records.alloc, records.endian);
            apply_metadata(alloc, endian, lookup, perf_file, header.type_, body)?;
            Ok(identified)
        }
    }
}

// Takes the next record of a file, with its body, if the remaining bytes start with a whole one that is no
// marker. Otherwise takes nothing.
#[inline(always)]
fn take_file_record<'a>(
    records: &mut PerfRecordIter<Cursor<&'a [u8]>>,
) -> Option<(IdentifiedRecord, &'a [u8])>
    ensures { TakesFileRecord records.old result records.new }
{
    let walk = FileWalk::from_records(records)?;
    let next = walk.peek()?;
    Some(walk.take_from(records, next))
}

// Takes the next record of a file or a pipe, with its body, after the markers before it.
#[inline(never)]
fn take_next_record<'a>(
    records: &mut PerfRecordIter<Cursor<&'a [u8]>>,
    perf_file: &mut PerfFile,
) -> Result<Option<(IdentifiedRecord, &'a [u8])>, Error>
    ensures { TakesRecord records.old perf_file.old result records.new perf_file.new }
{
    match records.stage {
        Stage::Running => {}
        Stage::Failed => return Err(Error::Failed),
        Stage::Ended => return Ok(None),
    }
    records.body.clear();
    // For the prover: the offset has 64 bits.
    let _offset = records.offset;
    'raw_records: while records.may_start_record() {
        let offset = records.offset;
        let round = records.round;
        match take_raw_record(records) {
            Ok(RawRecord::Marker(_)) => {}
            Ok(RawRecord::Record(header, body)) => {
                match process_record(records, perf_file, offset, round, header, body) {
                    Ok(identified) => return Ok(Some((identified, body))),
                    Err(error) => {
                        records.offset = offset;
                        records.stage = Stage::Failed;
                        return Err(error);
                    }
                }
            }
            Ok(RawRecord::End) => {
                records.stage = Stage::Ended;
                return Ok(None);
            }
            Err(error) => {
                records.stage = Stage::Failed;
                return Err(error);
            }
        }
    }
    records.stage = Stage::Ended;
    Ok(None)
}

// Takes the next record, with its body.
#[inline(always)]
pub(crate) fn take_record<'a>(
    records: &mut PerfRecordIter<Cursor<&'a [u8]>>,
    perf_file: &mut PerfFile,
) -> Result<Option<(IdentifiedRecord, &'a [u8])>, Error>
    ensures { TakesRecord records.old perf_file.old result records.new perf_file.new }
{
    match take_file_record(records) {
        Some(taken) => Ok(Some(taken)),
        None => take_next_record(records, perf_file),
    }
}
