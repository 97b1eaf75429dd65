//! Rust's names of before, which look like C++ names whose last part is a hash.
ghost use Rattle.std.specs.Prelude.{◌≡◌, ◌≢◌, ◌==◌, ◌+◌, ◌++◌, ◌∷◌, ◌^◌, ◌<◌, ◌≤◌, ◌↔◌, ℕ, List, All, IfErr};
ghost use Rattle.std.specs.Prelude.{IfNone, IfOk, IfSome, IsOkUnless, IsTrue, OnErr, OnOk, Some, SomeIff};
ghost use Rattle.std.specs.Prelude.{false, length};
ghost use Rattle.std.specs.List.{AllPass};
ghost use Rattle.demangle_text.specs.Cursor.{bytes_of, position_of, unread};
ghost use Rattle.demangle_text.specs.Legacy.{AppendsParts, AreParts, IsHash};
ghost use Rattle.demangle_text.specs.steps.Legacy.{AppendsPart, IsEscape};
ghost use Rattle.demangle_text.specs.Legacy.{IsHexDigit, IsLegacyName, IsPart};
ghost use Rattle.demangle_text.specs.steps.Legacy.{IsNoEscape, IsVisible};
ghost use Rattle.demangle_text.specs.Legacy.{escaped, hex_character, is_part_byte};
ghost use Rattle.demangle_text.specs.steps.Legacy.{separator};
ghost use Rattle.demangle_text.specs.Legacy.{text_of_part, text_of_parts, with_colons};
ghost use Rattle.demangle_text.specs.Legacy.{without_underscore, written};
ghost use Rattle.demangle_text.specs.Text.{IsWhy, limit_of, text_of};
ghost use Rattle.demangle_text.specs.declared.failure.Failure.TheVariants.{Grammar};

use crate::cursor::Cursor;
use crate::failure::Failure;
use crate::hex::hex_number;
use crate::text::Text;
use memchr::memchr;

/// A Rust name of before.
#[derive(Clone, Copy)]
pub struct LegacyName<'a> {
    /// The parts before the hash, each after its length in decimal digits.
    pub parts: &'a [u8],
    /// What follows the name: nothing, or a suffix.
    pub suffix: &'a [u8],
}

// Returns whether a part may contain a byte.
#[tactic(auto, unfolding(crate::specs::Legacy::is_part_byte))]
fn is_part_byte(byte: u8) -> bool
    ensures { result ≡ is_part_byte byte }
{
    byte.is_ascii_alphanumeric() || matches!(byte, b'_' | b'$' | b'.' | b':' | b'@')
}

// Returns whether a part may contain all of these bytes.
fn are_part_bytes(bytes: &[u8]) -> bool
    ensures { IsTrue result ↔ AllPass is_part_byte bytes.now }
{
    'bytes: for byte in bytes {
        if !is_part_byte(*byte) {
            return false;
        }
    }
    true
}

// Returns whether all bytes are lowercase hexadecimal digits.
fn are_hex_digits(bytes: &[u8]) -> bool
    ensures { IsTrue result ↔ All IsHexDigit bytes.now }
{
    'bytes: for byte in bytes {
        if !matches!(*byte, b'0'..=b'9' | b'a'..=b'f') {
            return false;
        }
    }
    true
}

// Returns whether a part is a hash: `h` and 16 lowercase hexadecimal digits.
fn is_hash(part: &[u8]) -> bool
    ensures { IsTrue result ↔ IsHash part.now }
{
    part.len() == 17 && part[0] == b'h' && are_hex_digits(&part[1..])
}

// Reads a part: its length, without leading zeros, and that many bytes, at least one.
fn part<'a>(cursor: &mut Cursor<'a>) -> Result<&'a [u8], Failure>
    ensures all { bytes_of cursor.new ≡ bytes_of cursor.old }
    ensures part { IfOk result (λ part. IsPart part.now) }
    ensures bytes { IfOk result (λ part. unread cursor.old ≡ written part.now ++ unread cursor.new) }
    ensures position { IfOk result
        (λ part. position_of cursor.new ≡ position_of cursor.old + length (written part.now)) }
    ensures none { OnErr result
        ((part rest : List ℕ) → IsPart part → unread cursor.old ≢ written part ++ rest) }
    ensures why { IsOkUnless result Grammar }
    ensures memory { length (bytes_of cursor.old) < 2 ^ 64 }
{
    // For the prover.
    let _count = cursor.len();
    let has_zero = cursor.is_next(b'0');
    let Ok(length) = cursor.number() else {
        return Err(Failure::Grammar);
    };
    if has_zero {
        return Err(Failure::Grammar);
    }
    let part = cursor.take(length)?;
    if are_part_bytes(part) {
        Ok(part)
    } else {
        Err(Failure::Grammar)
    }
}

/// Returns the parts of a name. `name` is what follows `_ZN`.
///
/// Fails with [`Failure::Grammar`] if it isn't a Rust name: parts, at least one, then `17h`, 16 lowercase
/// hexadecimal digits, `E`, and what may be a suffix.
pub fn split_legacy_name(name: &[u8]) -> Result<LegacyName<'_>, Failure>
    ensures name { IfOk result (λ legacy. IsLegacyName name.now legacy.parts.now legacy.suffix.now) }
    ensures none { OnErr result ((bytes suffix : List ℕ) → ¬ IsLegacyName name.now bytes suffix) }
    ensures why { IsOkUnless result Grammar }
{
    let mut cursor = Cursor::new(name);
    // For the prover.
    let _count = cursor.len();
    let mut last: &[u8] = b"";
    let mut start = 0;
    'parts: while !cursor.is_next(b'E') {
        start = cursor.position();
        last = part(&mut cursor)?;
    }
    if start == 0 || !is_hash(last) {
        return Err(Failure::Grammar);
    }
    let parts = &name[..start];
    let suffix = &name[cursor.position() + 1..];
    Ok(LegacyName { parts, suffix })
}

impl LegacyName<'_> {
    /// Appends the text of the name: its parts, with `::` between them.
    ///
    /// Fails with [`Failure::Grammar`] if the parts aren't those of a name, with [`Failure::Limit`] if the
    /// text exceeds its limit, and with [`Failure::Memory`] if memory runs out. Then the text may have a part
    /// of the name's text.
    pub fn write(&self, text: &mut Text) -> Result<(), Failure>
        ensures limit { limit_of text.new ≡ limit_of text.old }
        ensures ok { OnOk result (AppendsParts self.now.parts.now text.old text.new) }
        ensures why { IfErr result (λ why. (parts : List (List ℕ)) →
            AreParts self.now.parts.now parts → IsWhy text.old (length (text_of_parts parts)) why) }
    {
        let mut cursor = Cursor::new(self.parts);
        // For the prover.
        let _count = cursor.len();
        'parts: while cursor.position() < self.parts.len() {
            write_next(&mut cursor, text)?;
        }
        Ok(())
    }
}

// Returns what is between the text of the part at a position and that of the part before it.
fn separator(position: usize) -> &'static [u8]
    ensures { result.now ≡ separator position }
{
    if position == 0 { b"" } else { b"::" }
}

// Reads a part and appends its text, after `::` unless it is the first one.
fn write_next(cursor: &mut Cursor<'_>, text: &mut Text) -> Result<(), Failure>
    ensures all { bytes_of cursor.new ≡ bytes_of cursor.old }
    ensures limit { limit_of text.new ≡ limit_of text.old }
    ensures ok { OnOk result (AppendsPart cursor.old cursor.new text.old text.new) }
    ensures why { IfErr result (λ why. (part rest : List ℕ) →
        IsPart part → unread cursor.old ≡ written part ++ rest →
        IsWhy text.old (length (separator (position_of cursor.old) ++ text_of_part part)) why) }
{
    let separator = separator(cursor.position());
    let part = part(cursor)?;
    text.put(separator)?;
    write_part(part, text)
}

// Returns the character with this number, unless it is a control character.
fn visible(number: u64) -> Option<char>
    ensures { SomeIff result (IsVisible number) number }
{
    let code = u32::try_from(number).ok()?;
    char::from_u32(code).filter(|character| *character >= ' ')
}

// Returns the character of an escape with this number in hexadecimal digits.
fn hex_character(digits: &[u8]) -> Option<char>
    ensures { result ≡ hex_character digits.now }
{
    visible(hex_number(digits)?)
}

// Returns the character of an escape with this name, which is between dollar signs.
#[tactic(auto, unfolding(crate::specs::Legacy::escaped))]
fn escaped(name: &[u8]) -> Option<char>
    ensures { result ≡ escaped name.now }
{
    if name == b"C".as_slice() {
        Some(',')
    } else if name == b"SP".as_slice() {
        Some('@')
    } else if name == b"BP".as_slice() {
        Some('*')
    } else if name == b"RF".as_slice() {
        Some('&')
    } else if name == b"LT".as_slice() {
        Some('<')
    } else if name == b"GT".as_slice() {
        Some('>')
    } else if name == b"LP".as_slice() {
        Some('(')
    } else if name == b"RP".as_slice() {
        Some(')')
    } else {
        hex_character(name.strip_prefix(b"u")?)
    }
}

// Returns the bytes before the first one that is this one, and those after it.
fn split_at_byte(bytes: &[u8], byte: u8) -> Option<(&[u8], &[u8])>
    ensures split { IfSome result (λ parts. bytes.now ≡ parts.0.now ++ byte ∷ parts.1.now) }
    ensures first { IfSome result (λ parts. All (λ b. (b == byte) ≡ false) parts.0.now) }
    ensures none { IfNone result (All (λ b. (b == byte) ≡ false) bytes.now) }
{
    let end = memchr(byte, bytes)?;
    Some((&bytes[..end], &bytes[end + 1..]))
}

// Reads the escape whose name and `$` start these bytes, and returns its character and what follows it.
fn escape(bytes: &[u8]) -> Option<(char, &[u8])>
    ensures some { IfSome result (λ read. IsEscape bytes.now read.1.now (Some read.0)) }
    ensures none { IfNone result (IsNoEscape bytes.now) }
{
    let (name, rest) = split_at_byte(bytes, b'$')?;
    let character = escaped(name)?;
    Some((character, rest))
}

// Returns the text of one dot, or two, of which the first one is before these bytes; and what follows.
fn after_dot(bytes: &[u8]) -> (&'static [u8], &[u8])
    ensures text { with_colons (46 ∷ bytes.now) ≡ result.0.now ++ with_colons result.1.now }
    ensures shorter { length result.1.now ≤ length bytes.now }
{
    match bytes.strip_prefix(b".") {
        Some(rest) => (b"::", rest),
        None => (b".", bytes),
    }
}

// Appends bytes outside of escapes, with `::` for `..`.
fn write_plain(bytes: &[u8], text: &mut Text) -> Result<(), Failure>
    ensures limit { limit_of text.new ≡ limit_of text.old }
    ensures ok { OnOk result (text_of text.new ≡ text_of text.old ++ with_colons bytes.now) }
    ensures why { IfErr result (λ why. IsWhy text.old (length (with_colons bytes.now)) why) }
{
    let mut rest = bytes;
    'dots: while let Some((plain, after)) = split_at_byte(rest, b'.') {
        text.put(plain)?;
        let (separator, next) = after_dot(after);
        text.put(separator)?;
        rest = next;
    }
    text.put(rest)
}

// Returns the part without an underscore before an escape at its beginning.
fn without_underscore(part: &[u8]) -> &[u8]
    ensures { result.now ≡ without_underscore part.now }
{
    if part.starts_with(b"_$") {
        &part[1..]
    } else {
        part
    }
}

// Appends the text of a part: without escapes, and with `::` for `..`. An underscore before an escape at the
// beginning isn't written, and an unknown escape ends the escapes.
fn write_part(part: &[u8], text: &mut Text) -> Result<(), Failure>
    ensures limit { limit_of text.new ≡ limit_of text.old }
    ensures ok { OnOk result (text_of text.new ≡ text_of text.old ++ text_of_part part.now) }
    ensures why { IfErr result (λ why. IsWhy text.old (length (text_of_part part.now)) why) }
{
    let mut rest = without_underscore(part);
    'escapes: while let Some((plain, after)) = split_at_byte(rest, b'$') {
        write_plain(plain, text)?;
        let Some((character, next)) = escape(after) else {
            return text.put(&rest[plain.len()..]);
        };
        text.put_char(character)?;
        rest = next;
    }
    write_plain(rest, text)
}
