//! Functions that append bytes to a `Vec`.
ghost use Rattle.std.specs.Prelude.{◌≡◌, ◌+◌, ◌<◌, ◌≤◌, IfErr, length, vec_capacity, Ok};
ghost use Rattle.std.specs.declared.io.ErrorKind.TheVariants.{UnexpectedEof};
ghost use Rattle.perfdata_sources.specs.Source.{PausesOnlyIfIncomplete, PausesOnlyOnError, AppendsUpTo};
ghost use Rattle.perfdata_sources.specs.Source.{AppendsExactly, IsIoErrorOf};
ghost use Rattle.perfdata_sources.specs.declared.source.append.AppendError.TheVariants.{Memory};
ghost use Rattle.perfdata_sources.specs.declared.source.append.AppendError.TheVariants.{Source as FromSource};

use crate::source::{Source, fill, unexpected_eof};
use std::alloc::{AllocError, AllocFailed};
use std::io::{Error, ErrorKind, Result};

/// The cause of a failed append.
#[derive(Debug, Drop)]
pub enum AppendError {
    /// Out of memory for the next chunk, which was not read.
    Memory,
    /// The source failed with this error.
    Source(Error),
}

impl From<AllocError> for AppendError {
    ghost from_gives = { λ _ error. error ≡ Memory };

    fn from(_error: AllocError) -> AppendError {
        AppendError::Memory
    }
}

// The error that collections return when memory runs out. The conversion allows `vec.push(x)?`.
impl<T: Drop> From<AllocFailed<T>> for AppendError {
    ghost from_gives = { λ _ error. error ≡ Memory };

    fn from(_failed: AllocFailed<T>) -> AppendError {
        AppendError::Memory
    }
}

impl From<Error> for AppendError {
    ghost from_gives = { λ error appended. appended ≡ FromSource error };

    fn from(error: Error) -> AppendError {
        AppendError::Source(error)
    }
}

// Out of memory becomes an error of kind `OutOfMemory`; the source's error stays as it is.
impl From<AppendError> for Error {
    ghost from_gives = { λ append_error error. IsIoErrorOf append_error error };

    fn from(append_error: AppendError) -> Error {
        match append_error {
            AppendError::Memory => Error::from(ErrorKind::OutOfMemory),
            AppendError::Source(error) => error,
        }
    }
}

// The maximum number of bytes per read. It bounds the memory that a stated length costs if its bytes are
// missing.
const APPEND_CHUNK_SIZE: usize = 4096;

static ZEROS: [u8; APPEND_CHUNK_SIZE] = [0; APPEND_CHUNK_SIZE];

fn zeros(count: usize) -> &'static [u8]
    requires { count ≤ 4096 }
    ensures { length result.now ≡ count }
{
    &ZEROS[..count]
}

fn append_chunk<S: Source>(
    source: &mut S,
    buffer: &mut Vec<u8>,
    count: usize,
) -> std::result::Result<usize, AppendError>
    requires { count ≤ 4096 }
    ensures appends { 0 < count → AppendsUpTo
        (S.state source.old) buffer.old.items count result buffer.new.items (S.state source.new) }
    ensures memory_only_to_grow { IfErr result
        (λ e. e ≡ Memory → vec_capacity buffer.old < length buffer.old.items + count) }
    ensures capacity { vec_capacity buffer.old ≤ vec_capacity buffer.new }
    ensures pauses { PausesOnlyIfIncomplete count (S.state source.old) result (S.state source.new) }
    ensures same_loan { S.loan source.new ≡ S.loan source.old }
{
    let old_len = buffer.len();
    buffer.extend_from_slice(zeros(count))?;
    let read_count = fill(source, &mut buffer.as_mut_slice()[old_len..])?;
    buffer.truncate(old_len + read_count);
    Ok(read_count)
}

// Appends by reads of at most `APPEND_CHUNK_SIZE` bytes.
fn append_by_reads<S: Source>(
    source: &mut S,
    buffer: &mut Vec<u8>,
    count: usize,
) -> std::result::Result<usize, AppendError>
    ensures appends { AppendsUpTo (S.state source.old) buffer.old.items count result buffer.new.items
        (S.state source.new) }
    ensures memory_only_to_grow { IfErr result
        (λ e. e ≡ Memory → vec_capacity buffer.old < length buffer.old.items + count) }
    ensures capacity { vec_capacity buffer.old ≤ vec_capacity buffer.new }
    ensures pauses { PausesOnlyIfIncomplete count (S.state source.old) result (S.state source.new) }
    ensures same_loan { S.loan source.new ≡ S.loan source.old }
{
    let mut appended = 0;
    while appended < count {
        let wanted = (count - appended).min(APPEND_CHUNK_SIZE);
        let read_count = append_chunk(source, buffer, wanted)?;
        appended += read_count;
        if read_count < wanted {
            return Ok(appended);
        }
    }
    Ok(appended)
}

/// Appends `count` bytes to `buffer`, or fewer if the source ends or pauses before, and returns the number of
/// bytes appended.
///
/// If all of them are buffered, the source copies them from its buffer. Otherwise the function reads chunks
/// of at most 4,096 bytes, and allocates the memory for a chunk before it reads the chunk. `buffer` is never
/// more than 4,096 bytes longer than its old content with the bytes read so far, whatever `count` is.
///
/// Errors are [`AppendError::Memory`], only if the capacity of `buffer` is smaller than its content and
/// `count` bytes, and those of [`fill`] in [`AppendError::Source`]. After an error some of the bytes may have
/// been consumed, and `buffer` may be up to 4,096 bytes longer than its old content with these bytes.
pub fn append_up_to<S: Source>(
    source: &mut S,
    buffer: &mut Vec<u8>,
    count: usize,
) -> std::result::Result<usize, AppendError>
    ensures appends { AppendsUpTo (S.state source.old) buffer.old.items count result buffer.new.items
        (S.state source.new) }
    ensures memory_only_to_grow { IfErr result
        (λ e. e ≡ Memory → vec_capacity buffer.old < length buffer.old.items + count) }
    ensures capacity { vec_capacity buffer.old ≤ vec_capacity buffer.new }
    ensures pauses { PausesOnlyIfIncomplete count (S.state source.old) result (S.state source.new) }
    ensures same_loan { S.loan source.new ≡ S.loan source.old }
{
    if count == 0 {
        return Ok(0);
    }
    match source.append_buffered(buffer, count) {
        Ok(true) => Ok(count),
        Ok(false) => append_by_reads(source, buffer, count),
        Err(_) => Err(AppendError::Memory),
    }
}

/// Appends exactly `count` bytes to `buffer`, by reads of at most 4,096 bytes as [`append_up_to`] makes them.
///
/// If the source ends or pauses before, it fails with [`AppendError::Source`] of kind
/// [`ErrorKind::UnexpectedEof`]. Other errors are those of [`append_up_to`]. After an error some of the bytes
/// may have been consumed, and `buffer` may be up to 4,096 bytes longer than its old content with these
/// bytes.
pub fn append_exact<S: Source>(
    source: &mut S,
    buffer: &mut Vec<u8>,
    count: usize,
) -> std::result::Result<(), AppendError>
    ensures appends { AppendsExactly (S.state source.old) buffer.old.items count result buffer.new.items
        (S.state source.new) }
    ensures memory_only_to_grow { IfErr result
        (λ e. e ≡ Memory → vec_capacity buffer.old < length buffer.old.items + count) }
    ensures capacity { vec_capacity buffer.old ≤ vec_capacity buffer.new }
    ensures pauses { PausesOnlyOnError (S.state source.old) result (S.state source.new) }
    ensures same_loan { S.loan source.new ≡ S.loan source.old }
{
    let appended = append_up_to(source, buffer, count)?;
    if appended < count {
        return Err(AppendError::Source(unexpected_eof()));
    }
    Ok(())
}
