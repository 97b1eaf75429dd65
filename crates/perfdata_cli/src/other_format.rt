//! Formats that are no recording's, by the first bytes of an input.

use std::fmt::{Display, Formatter};
use std::{fmt, str};

/// A format that the programs don't read.
#[derive(Clone, Copy, Debug, PartialEq, Eq)]
pub enum OtherFormat {
    /// Compressed by gzip.
    Gzip,
    /// Compressed by xz.
    Xz,
    /// Compressed by zstd.
    Zstd,
    /// Text in UTF-8.
    Text,
}

// The first bytes of compressed files.
const MAGIC_NUMBERS: [(&[u8], OtherFormat); 3] = [
    (&[0x1f, 0x8b], OtherFormat::Gzip),
    (&[0xfd, b'7', b'z', b'X', b'Z', 0], OtherFormat::Xz),
    (&[0x28, 0xb5, 0x2f, 0xfd], OtherFormat::Zstd),
];

// Returns whether a character is one of printed text.
fn is_printable(character: char) -> bool {
    !character.is_control() || matches!(character, '\n' | '\r' | '\t')
}

// Returns whether the bytes are the start of a text, whose last character may be truncated.
fn is_text(start: &[u8]) -> bool {
    let text = match str::from_utf8(start) {
        Ok(text) => text,
        Err(error) if error.error_len().is_none() => {
            let whole = start.get(..error.valid_up_to()).unwrap_or(&[]);
            str::from_utf8(whole).unwrap_or("")
        }
        Err(_) => "",
    };
    !text.is_empty() && text.chars().all(is_printable)
}

impl OtherFormat {
    /// Returns the format of an input that starts with these bytes, if it is known.
    pub fn of_start(start: &[u8]) -> Option<OtherFormat> {
        for (magic, format) in &MAGIC_NUMBERS {
            if start.starts_with(magic) {
                return Some(*format);
            }
        }
        is_text(start).then_some(OtherFormat::Text)
    }
}

impl Display for OtherFormat {
    fn fmt<W: fmt::Write>(&self, f: &mut Formatter<W>) -> fmt::Result {
        f.write_str(match self {
            OtherFormat::Gzip => "compressed by gzip: decompress it first",
            OtherFormat::Xz => "compressed by xz: decompress it first",
            OtherFormat::Zstd => "compressed by zstd: decompress it first",
            OtherFormat::Text => "a text, not a perf.data file",
        })
    }
}
