//! The values of a line's members that more than one type of record has.

use perfdata_base::raw::RawData;
use perfdata_events::u64s::RawDataU64;
use serde::{Described, Serialize, Serializer};
use std::alloc::{AllocError, Global};
use std::fmt;
use std::fmt::{Display, Formatter, Write};

/// A number in hexadecimal: an address, a mask or flags.
#[derive(Clone, Copy)]
pub(crate) struct Address(pub(crate) u64);

impl Described for Address {}

impl Serialize for Address {
    fn serialize<S: Serializer>(&self, out: &mut S) -> Result<(), S::Error> {
        let mut text = [0; 18];
        // The prefix takes the place of the two bytes before the first digit.
        let _ = hex::encode_to_slice(self.0.to_be_bytes(), &mut text[2..]);
        let start = ((self.0 | 1).leading_zeros() / 4) as usize;
        text[start] = b'0';
        text[start + 1] = b'x';
        out.str(str::from_utf8(&text[start..]).unwrap_or_default())
    }
}

/// Numbers in hexadecimal.
#[derive(Clone, Copy)]
pub(crate) struct Addresses<'a>(pub(crate) RawDataU64<'a>);

impl Described for Addresses<'_> {}

impl Serialize for Addresses<'_> {
    fn serialize<S: Serializer>(&self, out: &mut S) -> Result<(), S::Error> {
        out.begin_seq(None)?;
        for value in self.0.iter() {
            Address(value).serialize(out)?;
        }
        out.end_seq()
    }
}

/// Bytes as hexadecimal digits.
#[derive(Clone, Copy)]
pub(crate) struct Hex<'a>(pub(crate) RawData<'a>);

// Writes two hexadecimal digits for each byte.
fn write_hex<W: Write>(f: &mut Formatter<W>, bytes: &[u8]) -> fmt::Result {
    for chunk in bytes.chunks(32) {
        let mut text = [0; 64];
        let Some(digits) = text.get_mut(..2 * chunk.len()) else {
            return Err(fmt::Error);
        };
        let _ = hex::encode_to_slice(chunk, digits);
        f.write_str(str::from_utf8(digits).unwrap_or_default())?;
    }
    Ok(())
}

impl Display for Hex<'_> {
    fn fmt<W: Write>(&self, f: &mut Formatter<W>) -> fmt::Result {
        match self.0 {
            RawData::Single(bytes) => write_hex(f, bytes),
            RawData::Split(first, second) => {
                write_hex(f, first)?;
                write_hex(f, second)
            }
        }
    }
}

impl Described for Hex<'_> {}

impl Serialize for Hex<'_> {
    fn serialize<S: Serializer>(&self, out: &mut S) -> Result<(), S::Error> {
        out.collect_str(self)
    }
}

/// The number of some bytes, and the first of them.
#[derive(Clone, Copy, Serialize)]
pub(crate) struct Bytes<'a> {
    length: usize,
    hex: Hex<'a>,
}

impl<'a> Bytes<'a> {
    /// Of the bytes the first `byte_limit` are written.
    pub(crate) fn new(bytes: RawData<'a>, byte_limit: usize) -> Bytes<'a> {
        let length = bytes.len();
        let first = bytes.get(0..length.min(byte_limit));
        Bytes {
            length,
            hex: Hex(first.unwrap_or(RawData::Single(&[]))),
        }
    }
}

/// A text, or its bytes if they aren't UTF-8.
#[derive(Drop, Serialize)]
#[serde(untagged)]
pub(crate) enum Text<'a> {
    /// A text in one slice.
    Borrowed(&'a str),
    /// A text that was in two slices.
    Owned(String),
    /// Bytes that aren't UTF-8.
    Bytes { hex: Hex<'a> },
}

impl<'a> Text<'a> {
    pub(crate) fn new(alloc: Global, bytes: RawData<'a>) -> Result<Text<'a>, AllocError> {
        match bytes {
            RawData::Single(single) => match str::from_utf8(single) {
                Ok(text) => Ok(Text::Borrowed(text)),
                Err(_) => Ok(Text::Bytes { hex: Hex(bytes) }),
            },
            RawData::Split(_, _) => {
                let mut joined = Vec::new(alloc);
                bytes.append_to(&mut joined)?;
                match String::from_utf8(joined) {
                    Ok(text) => Ok(Text::Owned(text)),
                    Err(_) => Ok(Text::Bytes { hex: Hex(bytes) }),
                }
            }
        }
    }
}
