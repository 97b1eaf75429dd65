//! Reads NUL-terminated strings.
ghost use Rattle.std.specs.Prelude.{ℕ, List, IfOk, IfErr, MatchOption};
ghost use Rattle.std.specs.IoError.{error_kind};
ghost use Rattle.perfdata_sources.specs.Raw.{HasNoNul, SplitsAtNul};
ghost use Rattle.perfdata_simpleperf.specs.NulText.{TextAt, TextError, ReadsNulText};

use memchr::memchr;
use perfdata_base::source::unexpected_eof;
use std::io::{Error, ErrorKind, Result};

// Returns the bytes before the first NUL and the bytes after it, or `None` if there is no NUL.
pub(crate) fn split_at_nul(bytes: &[u8]) -> Option<(&[u8], &[u8])>
    ensures { MatchOption result (HasNoNul bytes.now) (λ x. SplitsAtNul bytes.now x.0.now x.1.now) }
{
    match memchr(0, bytes) {
        Some(nul_index) => Some((&bytes[..nul_index], &bytes[nul_index + 1..])),
        None => None,
    }
}

// Splits a NUL-terminated string off the start of `bytes`. Returns it without its NUL, and the bytes after
// the NUL.
pub(crate) fn split_nul_text(bytes: &[u8]) -> Result<(&str, &[u8])>
    ensures on_ok { IfOk result (λ x. TextAt bytes.now x.0.now x.1.now) }
    ensures on_error { IfErr result (λ e. TextError bytes.now (error_kind e)) }
{
    let Some((text, rest)) = split_at_nul(bytes) else {
        return Err(unexpected_eof());
    };
    match std::str::from_utf8(text) {
        Ok(text) => Ok((text, rest)),
        Err(_) => Err(Error::from(ErrorKind::InvalidData)),
    }
}

/// Reads NUL-terminated strings from the start of a byte slice.
pub trait SliceReadStringExt<'a> {
    // the unread bytes
    ghost remaining_bytes: { Self → List ℕ };

    /// Reads the string up to the first NUL, and consumes it with the NUL.
    ///
    /// Fails with `UnexpectedEof` if there is no NUL, and with `InvalidData` if the string isn't UTF-8. On
    /// error, nothing is consumed.
    fn read_nul_terminated_str(&mut self) -> Result<&'a str>
        ensures { ReadsNulText (remaining_bytes self.old) result (remaining_bytes self.new) };
}

impl<'a> SliceReadStringExt<'a> for &'a [u8] {
    ghost remaining_bytes = { λ s. s.now };

    fn read_nul_terminated_str(&mut self) -> Result<&'a str> {
        let (text, rest) = split_nul_text(*self)?;
        *self = rest;
        Ok(text)
    }
}
