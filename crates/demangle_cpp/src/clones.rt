//! The suffixes that compilers add to the names of parts and clones of functions.
ghost use Rattle.std.specs.Prelude.{◌≡◌};
ghost use Rattle.demangle_text.specs.Text.{limit_of};

use demangle_text::{Cursor, Failure, Text};

// Returns whether a byte is in the name of a suffix.
fn is_suffix_byte(byte: u8) -> bool {
    byte.is_ascii_lowercase() || byte.is_ascii_digit() || byte == b'_'
}

// Returns the byte after a dot.
fn peek_after_dot(cursor: &Cursor<'_>) -> Option<u8> {
    let mut next = *cursor;
    if next.eat(b'.') { next.peek() } else { None }
}

// Moves over the letters and digits of a suffix.
fn skip_name(cursor: &mut Cursor<'_>) -> Result<(), Failure> {
    for _ in 0..u64::MAX {
        if !matches!(cursor.peek(), Some(byte) if is_suffix_byte(byte)) {
            break;
        }
        cursor.next_byte()?;
    }
    Ok(())
}

// Moves over a suffix with its numbers.
fn skip_suffix(cursor: &mut Cursor<'_>) -> Result<(), Failure> {
    cursor.next_byte()?;
    skip_name(cursor)?;
    for _ in 0..u64::MAX {
        if !matches!(peek_after_dot(cursor), Some(b'0'..=b'9')) {
            break;
        }
        cursor.next_byte()?;
        cursor.number()?;
    }
    Ok(())
}

/// Appends the suffixes at a cursor, each as `[clone .suffix]`. Fails if something else follows.
pub(crate) fn put_clones(cursor: &mut Cursor<'_>, text: &mut Text) -> Result<(), Failure>
    ensures limit { limit_of text.new ≡ limit_of text.old }
{
    'suffixes: for _ in 0..u64::MAX {
        if !matches!(peek_after_dot(cursor), Some(byte) if is_suffix_byte(byte)) {
            break;
        }
        let mut from = *cursor;
        skip_suffix(cursor)?;
        let length = cursor.position().saturating_sub(from.position());
        text.put(b" [clone ")?;
        text.put(from.take(length)?)?;
        text.put(b"]")?;
    }
    if !matches!(cursor.peek(), None | Some(b'@')) {
        return Err(Failure::Grammar);
    }
    Ok(())
}
