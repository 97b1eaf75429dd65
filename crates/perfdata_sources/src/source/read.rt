//! Functions that fill a buffer or skip bytes.
ghost use Rattle.std.specs.Prelude.{◌≡◌, ◌+◌, ◌<◌, ◌↔◌, IsTrue, length, Ok};
ghost use Rattle.std.specs.IoError.{error_kind};
ghost use Rattle.std.specs.declared.io.ErrorKind.TheVariants.{Interrupted, UnexpectedEof};
ghost use Rattle.perfdata_sources.specs.Source.{PausesOnlyIfIncomplete, PausesOnlyOnError, Reads};
ghost use Rattle.perfdata_sources.specs.Source.{FillsBuffer};
ghost use Rattle.perfdata_sources.specs.Source.{SkipsUpTo, ReadsExactly, SkipsExactly};

use crate::source::Source;
use std::io::{Error, ErrorKind, Result};

// How many times in a row an interrupted read is retried.
const MAX_INTERRUPTED_RETRIES: u32 = 16;

fn is_interrupted(error: &Error) -> bool
    ensures { IsTrue result ↔ (error_kind error.now ≡ Interrupted) }
{
    error.kind() == ErrorKind::Interrupted
}

fn fill_by_reads<S: Source>(source: &mut S, buf: &mut [u8]) -> Result<usize>
    ensures fills { FillsBuffer (S.state source.old) buf.new result (S.state source.new) }
    ensures pauses { PausesOnlyIfIncomplete (length buf.new) (S.state source.old) result
        (S.state source.new) }
    ensures same_loan { S.loan source.new ≡ S.loan source.old }
{
    let mut filled = 0;
    let mut repeats = 0;
    while filled < buf.len() {
        match source.read_front(&mut buf[filled..]) {
            Ok(0) => return Ok(filled),
            Ok(count) => {
                filled += count;
                repeats = 0;
            }
            Err(error) => {
                if repeats == MAX_INTERRUPTED_RETRIES || !is_interrupted(&error) {
                    return Err(error);
                }
                repeats += 1;
            }
        }
    }
    Ok(filled)
}

/// Reads until `buf` is full or the source ends or pauses, and returns the number of bytes read.
///
/// If enough bytes are buffered, they fill `buf` without a read. An interrupted read is retried up to 16
/// times in a row. Every other error, and a 17th interruption in a row, is returned as the source reports it;
/// a part of `buf` may be filled then.
pub fn fill<S: Source>(source: &mut S, buf: &mut [u8]) -> Result<usize>
    ensures fills { FillsBuffer (S.state source.old) buf.new result (S.state source.new) }
    ensures pauses { PausesOnlyIfIncomplete (length buf.new) (S.state source.old) result
        (S.state source.new) }
    ensures same_loan { S.loan source.new ≡ S.loan source.old }
{
    if source.read_buffered(buf) {
        return Ok(buf.len());
    }
    fill_by_reads(source, buf)
}

// The maximum number of bytes that one read skips.
const SKIP_BUFFER_SIZE: usize = 512;

/// Skips `count` bytes, or fewer if the source ends or pauses before, and returns the number of bytes
/// skipped.
///
/// It allocates no memory. Errors are those of [`fill`]; some of the bytes may have been skipped then.
pub fn skip_up_to<S: Source>(source: &mut S, count: u64) -> Result<u64>
    ensures skips { SkipsUpTo (S.state source.old) count result (S.state source.new) }
    ensures pauses { PausesOnlyIfIncomplete count (S.state source.old) result (S.state source.new) }
    ensures same_loan { S.loan source.new ≡ S.loan source.old }
{
    let mut scratch = [0u8; SKIP_BUFFER_SIZE];
    let mut skipped = 0;
    while skipped < count {
        let wanted = ((count - skipped) as usize).min(SKIP_BUFFER_SIZE);
        let read_count = fill(source, &mut scratch[..wanted])?;
        skipped += read_count as u64;
        if read_count < wanted {
            return Ok(skipped);
        }
    }
    Ok(skipped)
}

/// The error for truncated input, of kind [`ErrorKind::UnexpectedEof`].
pub fn unexpected_eof() -> Error
    ensures { error_kind result ≡ UnexpectedEof }
{
    Error::from(ErrorKind::UnexpectedEof)
}

/// Reads until `buf` is full.
///
/// If the source ends or pauses before, it fails with an error of kind [`ErrorKind::UnexpectedEof`]. Other
/// errors are those of [`fill`].
pub fn read_exact<S: Source>(source: &mut S, buf: &mut [u8]) -> Result<()>
    ensures reads { ReadsExactly (S.state source.old) buf.new result (S.state source.new) }
    ensures pauses { PausesOnlyOnError (S.state source.old) result (S.state source.new) }
    ensures same_loan { S.loan source.new ≡ S.loan source.old }
{
    let read_count = fill(source, buf)?;
    if read_count < buf.len() {
        return Err(unexpected_eof());
    }
    Ok(())
}

/// Skips exactly `count` bytes.
///
/// If the source ends or pauses before, it fails with an error of kind [`ErrorKind::UnexpectedEof`]. Other
/// errors are those of [`fill`].
pub fn skip_exact<S: Source>(source: &mut S, count: u64) -> Result<()>
    ensures skips { SkipsExactly (S.state source.old) count result (S.state source.new) }
    ensures pauses { PausesOnlyOnError (S.state source.old) result (S.state source.new) }
    ensures same_loan { S.loan source.new ≡ S.loan source.old }
{
    let skipped = skip_up_to(source, count)?;
    if skipped < count {
        return Err(unexpected_eof());
    }
    Ok(())
}
