//! The first error of an input, in numbers.
ghost use Rattle.std.specs.Prelude.{◌≡◌, Option};
ghost use Rattle.std.specs.Option.{unwrap_or};
ghost use Rattle.perfdata_chunks.specs.InputErrors.{FindsError, FindsFileError, FindsPipeError, ReadsToEnd};
ghost use Rattle.perfdata_chunks.specs.declared.input_errors.InputError.{InputError};
ghost use Rattle.perfdata_chunks.specs.InputErrors.{attr_index_in, error_numbers, magic_in, no_error};
ghost use Rattle.perfdata_chunks.specs.InputErrors.{sizes_in};

use linux_perf_data::in_memory::{InMemoryReader, InMemoryRecords};
use linux_perf_data::{InputKind, PerfFile};
use perfdata_arrays::status::status_of_error;
use perfdata_sections::error::Error;
use std::alloc::Global;

/// The first error of an input, in numbers. What the error doesn't have is 0.
#[repr(C)]
#[derive(Clone, Copy, Debug, Default, PartialEq, Eq)]
pub struct InputError {
    /// The offset of the record that can't be read, or of the round markers before it, counted from the first
    /// record.
    pub offset: u64,
    /// The own size of an attribute in bytes, if it is above that of its entry.
    pub attr_size: u64,
    /// The size of the entry of that attribute in bytes.
    pub entry_size: u64,
    /// The index of an attribute without IDENTIFIER, or with another SAMPLE_ID_ALL than the first attribute.
    pub attr_index: u64,
    /// The first bytes of the input, if they aren't the magic of perf.
    pub magic: [u8; 8],
    /// The code of the status.
    pub status: u32,
    /// 1 if the error is that of a record, 0 if the input doesn't open.
    pub has_offset: u32,
}

const _: () = prove!(size_of::<InputError>() == 48);

// The own size of an attribute and the size of its entry, if the first is above the second; otherwise zeros.
fn error_sizes(error: &Error) -> (u64, u64)
    ensures { result ≡ sizes_in error.now }
{
    match error {
        Error::InconsistentAttributeSizes(own, size) => (*own, *size),
        _ => (0, 0),
    }
}

// The index of the attribute that isn't consistent with the others; otherwise 0.
fn error_attr_index(error: &Error) -> u64
    ensures { result ≡ attr_index_in error.now }
{
    match error {
        Error::NoIdentifierDespiteMultiEvent(index) => *index as u64,
        Error::InconsistentSampleIdAllWithMultiEvent(index) => *index as u64,
        _ => 0,
    }
}

// The first bytes of an input without the magic of perf; otherwise zeros.
fn error_magic(error: &Error) -> [u8; 8]
    ensures { result ≡ magic_in error.now }
{
    match error {
        Error::UnrecognizedMagicValue(bytes) => *bytes,
        _ => [0; 8],
    }
}

// An error in numbers: that of the record at an offset, or of the opening.
fn error_numbers(offset: Option<u64>, error: &Error) -> InputError
    ensures { result ≡ error_numbers offset error.now }
{
    let (attr_size, entry_size) = error_sizes(error);
    InputError {
        offset: offset.unwrap_or(0),
        attr_size,
        entry_size,
        attr_index: error_attr_index(error),
        magic: error_magic(error),
        status: status_of_error(error).code(),
        has_offset: offset.is_some() as u32,
    }
}

// Reads all records. Returns the error after them, or `None` if they end without one.
fn read_to_end(input: &mut InMemoryRecords<'_>, perf_file: &mut PerfFile) -> Option<InputError>
    ensures { ReadsToEnd input.old perf_file.old result }
{
    'records: loop {
        let position = input.position();
        match input.next_record(perf_file) {
            Ok(Some((_place, _record))) => {}
            Ok(None) => return None,
            Err(error) => return Some(error_numbers(Some(position.offset), &error)),
        }
    }
}

// Returns the first error of a file.
fn file_error(alloc: Global, bytes: &[u8]) -> Option<InputError>
    ensures { FindsFileError bytes.now result }
{
    match InMemoryReader::parse_file(alloc, bytes) {
        Ok(reader) => {
            let mut perf_file = reader.perf_file;
            let mut records = reader.records;
            read_to_end(&mut records, &mut perf_file)
        }
        Err(error) => Some(error_numbers(None, &error)),
    }
}

// Returns the first error of a pipe.
fn pipe_error(alloc: Global, bytes: &[u8]) -> Option<InputError>
    ensures { FindsPipeError bytes.now result }
{
    match InMemoryReader::parse_pipe(alloc, bytes) {
        Ok(reader) => {
            let mut perf_file = reader.perf_file;
            let mut records = reader.records;
            read_to_end(&mut records, &mut perf_file)
        }
        Err(error) => Some(error_numbers(None, &error)),
    }
}

/// Returns the first error of an input in numbers: of its opening or, if it opens, of its records. `None` if
/// it has none. All records are read.
///
/// An input whose first bytes are those of a pipe is read as a pipe, and every other one as a perf.data file.
/// The errors are those of `InMemoryReader::parse_file`, `InMemoryReader::parse_pipe` and
/// `InMemoryRecords::next_record`. Their statuses are those of calls on whole inputs.
pub fn first_error(alloc: Global, bytes: &[u8]) -> Option<InputError>
    ensures { FindsError bytes.now result }
{
    match InputKind::of_start(bytes) {
        Some(InputKind::Pipe) => pipe_error(alloc, bytes),
        _ => file_error(alloc, bytes),
    }
}

/// Writes the first error of an input in numbers, as `first_error` finds it, into `out`, and zeros if it has
/// none. Returns the code of the status.
pub fn read_error(alloc: Global, bytes: &[u8], out: &mut InputError) -> u32
    ensures found { (found : Option InputError) × FindsError bytes.now found × (out.new
        ≡ unwrap_or found no_error) }
    ensures status { result ≡ out.new.status }
{
    let found = first_error(alloc, bytes).unwrap_or(InputError {
        offset: 0,
        attr_size: 0,
        entry_size: 0,
        attr_index: 0,
        magic: [0; 8],
        status: 0,
        has_offset: 0,
    });
    *out = found;
    found.status
}
