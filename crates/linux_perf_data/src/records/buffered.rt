//! The check whether bytes contain the whole next record.
ghost use Rattle.std.specs.Prelude.{◌≡◌, ◌↔◌, ◌+◌, ◌≤◌, IsTrue, length, drop};
ghost use Rattle.linux_perf_data.specs.BufferedRecord.{ContainsNextRecord};
ghost use Rattle.linux_perf_data.specs.RecordInput.{HasNoPendingHeader, section_size_in};
ghost use Rattle.linux_perf_data.specs.Layout.{MayStartAt};

use crate::records::framing::peek_record;
use crate::records::input::RecordInput;
use perfdata_base::raw::Endianness;
use perfdata_sections::constants::PERF_RECORD_FINISHED_ROUND;

// The bytes from `offset` on.
fn from_offset(bytes: &[u8], offset: usize) -> &[u8]
    requires { offset ≤ length bytes.now }
    ensures { result.now ≡ drop offset bytes.now }
{
    &bytes[offset..]
}

// Whether a record may start `distance` bytes after an offset.
fn may_start_record(input: RecordInput, offset: u64, distance: usize) -> bool
    ensures { IsTrue result ↔ MayStartAt (section_size_in input) (offset + distance) }
{
    match input {
        RecordInput::Section(size) => offset < size && (distance as u64) < size - offset,
        RecordInput::Pipe(_) => true,
    }
}

// Whether no pending header precedes the bytes of the source.
pub(crate) fn has_no_pending_header(input: RecordInput) -> bool
    ensures { IsTrue result ↔ HasNoPendingHeader input }
{
    match input {
        RecordInput::Section(_) => true,
        RecordInput::Pipe(Some(_)) => false,
        RecordInput::Pipe(None) => true,
    }
}

// Whether the bytes, which start at `offset`, contain any number of markers and then a whole record that is
// no marker.
pub(crate) fn contains_next_record(
    endian: Endianness,
    input: RecordInput,
    offset: u64,
    bytes: &[u8],
) -> bool
    ensures { IsTrue result ↔ ContainsNextRecord endian (section_size_in input) offset bytes.now }
{
    let mut position = 0;
    'records: while may_start_record(input, offset, position) {
        let rest = from_offset(bytes, position);
        match peek_record(endian, rest) {
            Some((header, length)) => {
                if header.type_ != PERF_RECORD_FINISHED_ROUND {
                    return true;
                }
                position += length;
            }
            None => return false,
        }
    }
    false
}
