//! Numbers and identifiers of v0 names.

use crate::cursor::Cursor;
use crate::failure::Failure;
use crate::hex::hex_value;
use memchr::memrchr;

// An identifier: bytes that are written as they are and, if it has other characters, those in Punycode.
#[derive(Clone, Copy)]
pub(crate) struct Identifier<'a> {
    pub(crate) ascii: &'a [u8],
    pub(crate) punycode: &'a [u8],
}

impl Identifier<'_> {
    pub(crate) fn is_empty(&self) -> bool {
        self.ascii.is_empty() && self.punycode.is_empty()
    }
}

// Returns the value of a digit of a number in base 62.
fn digit_62(byte: u8) -> Option<u64> {
    match byte {
        b'0'..=b'9' => Some((byte - b'0') as u64),
        b'a'..=b'z' => Some((byte - b'a') as u64 + 10),
        b'A'..=b'Z' => Some((byte - b'A') as u64 + 36),
        _ => None,
    }
}

// Reads a number in base 62: `_` is 0, and `0_` is 1.
pub(crate) fn base_62(cursor: &mut Cursor<'_>) -> Result<u64, Failure> {
    if cursor.eat(b'_') {
        return Ok(0);
    }
    let mut number = 0u64;
    'digits: for _ in 0..u64::MAX {
        let byte = cursor.next_byte()?;
        if byte == b'_' {
            return number.checked_add(1).ok_or(Failure::Limit);
        }
        let digit = digit_62(byte).ok_or(Failure::Grammar)?;
        number = number.checked_mul(62).ok_or(Failure::Limit)?;
        number = number.checked_add(digit).ok_or(Failure::Limit)?;
    }
    Err(Failure::Limit)
}

// Reads a number in base 62 after a tag, plus 1. It is 0 without the tag.
pub(crate) fn tagged_62(cursor: &mut Cursor<'_>, tag: u8) -> Result<u64, Failure> {
    if !cursor.eat(tag) {
        return Ok(0);
    }
    base_62(cursor)?.checked_add(1).ok_or(Failure::Limit)
}

// Reads what distinguishes items of the same name.
pub(crate) fn disambiguator(cursor: &mut Cursor<'_>) -> Result<u64, Failure> {
    tagged_62(cursor, b's')
}

// Reads an identifier.
pub(crate) fn read_identifier<'a>(cursor: &mut Cursor<'a>) -> Result<Identifier<'a>, Failure> {
    let is_punycode = cursor.eat(b'u');
    let length = if cursor.eat(b'0') {
        0
    } else {
        cursor.number()?
    };
    cursor.eat(b'_');
    let bytes = cursor.take(length)?;
    let none = &bytes[..0];
    if !is_punycode {
        return Ok(Identifier {
            ascii: bytes,
            punycode: none,
        });
    }
    let (ascii, punycode) = match memrchr(b'_', bytes) {
        Some(index) => (&bytes[..index], &bytes[index + 1..]),
        None => (none, bytes),
    };
    if punycode.is_empty() {
        return Err(Failure::Grammar);
    }
    Ok(Identifier { ascii, punycode })
}

// Reads lowercase hexadecimal digits up to a `_`.
pub(crate) fn hex_digits<'a>(cursor: &mut Cursor<'a>) -> Result<&'a [u8], Failure> {
    let mut start = *cursor;
    let mut count = 0usize;
    'digits: for _ in 0..u64::MAX {
        let byte = cursor.next_byte()?;
        if byte == b'_' {
            return start.take(count);
        }
        if hex_value(byte).is_none() {
            return Err(Failure::Grammar);
        }
        count = count.saturating_add(1);
    }
    Err(Failure::Limit)
}
