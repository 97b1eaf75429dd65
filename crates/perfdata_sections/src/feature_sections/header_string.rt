//! Strings with a length prefix.
ghost use Rattle.std.specs.Prelude.{◌≡◌, string_bytes};
ghost use Rattle.std.specs.Option.{option_map};
ghost use Rattle.perfdata_sources.specs.Source.{State, PausesOnlyOnError};
ghost use Rattle.perfdata_sections.specs.ParsedPart.{NoPauseIfOutOfMemory};
ghost use Rattle.perfdata_sections.specs.HeaderString.{before_nul, utf8_text, ReadsHeaderString};
ghost use Rattle.perfdata_sections.specs.HeaderString.{ParsesHeaderString};

use crate::bytes::read_bytes;
use memchr::memchr;
use perfdata_base::raw::FileOrder;
use perfdata_base::source::{AppendError, Source, read_exact};
use std::alloc::Global;
use std::io;

/// Returns the bytes before the first NUL, or all bytes if there is none.
pub fn before_nul(bytes: &[u8]) -> &[u8]
    ensures { result.now ≡ before_nul bytes.now }
{
    match memchr(0, bytes) {
        Some(nul_index) => &bytes[..nul_index],
        None => bytes,
    }
}

// Returns the text before the first NUL of a string's bytes, or `None` if it isn't UTF-8.
fn decode_text(bytes: Vec<u8>) -> Option<String>
    ensures { option_map string_bytes result ≡ utf8_text (before_nul bytes.items) }
{
    let mut bytes = bytes;
    let length = before_nul(bytes.as_slice()).len();
    bytes.truncate(length);
    match String::from_utf8(bytes) {
        Ok(text) => Some(text),
        Err(_) => None,
    }
}

/// A string in a file (`perf_header_string`): a length of four bytes, and that many bytes.
///
/// The text of the string is the bytes before the first NUL.
pub struct HeaderString;

impl HeaderString {
    /// Reads the text of the string at the position of a borrowed source.
    ///
    /// Returns `None` if the text isn't UTF-8. Fails with an `UnexpectedEof` source error if the string is
    /// truncated, and with `AppendError::Memory` if memory runs out.
    pub fn read_from<R: Source, T: FileOrder>(
        alloc: Global,
        source: &mut R,
    ) -> Result<Option<String>, AppendError>
        ensures reads { ReadsHeaderString T.number_of (R.state source.old) result (R.state source.new) }
        ensures pauses { PausesOnlyOnError (R.state source.old) result (R.state source.new) }
        ensures memory { NoPauseIfOutOfMemory (R.state source.old) result (R.state source.new) }
        ensures same_loan { R.loan source.new ≡ R.loan source.old }
    {
        let mut length = [0u8; 4];
        read_exact(source, &mut length)?;
        let bytes = read_bytes(alloc, source, T::read_u32(&length) as usize)?;
        Ok(decode_text(bytes))
    }

    /// Reads the text of the string at the position of an owned source. See `read_from`.
    ///
    /// Fails with an `UnexpectedEof` error if the string is truncated, and with an `OutOfMemory` error if
    /// memory runs out.
    pub fn parse<R: Source + Drop, T: FileOrder>(
        alloc: Global,
        mut reader: R,
    ) -> io::Result<Option<String>>
        ensures { (final : State) × ParsesHeaderString T.number_of (R.state reader) result final }
    {
        Ok(HeaderString::read_from::<R, T>(alloc, &mut reader)?)
    }
}
