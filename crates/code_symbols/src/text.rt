//! Numbers and lines of text files.
ghost use Rattle.std.specs.Prelude.{◌≡◌, ◌≢◌, ◌≤◌, ◌⊎◌, ◌++◌, ◌∷◌, ◌<◌, ℕ, All, IfNone, IfSome, SomeIff};
ghost use Rattle.std.specs.Prelude.{drop, length, slice_index};
ghost use Rattle.std.specs.Str.Parse.{digits_value};
ghost use Rattle.code_symbols.specs.Text.{AreDigitsOf, IsFieldLen, IsHex, WritesHex};

use memchr::memchr;

// The number below 2^64 that these hexadecimal digits write. `None` if there is no digit, or another byte.
pub(crate) fn hex_number(digits: &[u8]) -> Option<u64>
    ensures { SomeIff result (IsHex digits.now) (digits_value 16 digits.now) }
{
    if digits.is_empty() || digits[0] == b'+' {
        return None;
    }
    match str::from_utf8(digits) {
        Ok(text) => u64::from_str_radix(text, 16).ok(),
        Err(_) => None,
    }
}

// The bytes after `0x` or `0X`, or all of them if the text doesn't start with that.
fn hex_digits(text: &[u8]) -> &[u8]
    ensures { AreDigitsOf text.now result.now }
{
    if text.len() < 2 || text[0] != b'0' {
        return text;
    }
    if text[1] == b'x' || text[1] == b'X' {
        &text[2..]
    } else {
        text
    }
}

// The number below 2^64 that a text writes in hexadecimal, with or without `0x` or `0X` before the digits.
pub(crate) fn prefixed_hex_number(text: &[u8]) -> Option<u64>
    ensures some { IfSome result (λ number. WritesHex text.now number) }
    ensures none { IfNone result ((number : ℕ) → ¬ WritesHex text.now number) }
{
    hex_number(hex_digits(text))
}

// The offset of the first byte `separator` from an offset on, or the end of the bytes.
pub(crate) fn part_end(bytes: &[u8], start: usize, separator: u8) -> usize
    requires { start ≤ length bytes.now }
    ensures start { start ≤ result }
    ensures within { result ≤ length bytes.now }
    ensures one { (k : ℕ) → start ≤ k → k < result → slice_index bytes.now k ≢ separator }
    ensures ends { (result ≡ length bytes.now) ⊎ (slice_index bytes.now result ≡ separator) }
{
    match memchr(separator, &bytes[start..]) {
        Some(len) => start + len,
        None => bytes.len(),
    }
}

// The offset of the end of the line that starts at this offset: its newline, or the end of the text.
pub(crate) fn line_end(text: &[u8], start: usize) -> usize
    requires { start ≤ length text.now }
    ensures start { start ≤ result }
    ensures within { result ≤ length text.now }
    ensures one { (k : ℕ) → start ≤ k → k < result → slice_index text.now k ≢ 10 }
    ensures ends { (result ≡ length text.now) ⊎ (slice_index text.now result ≡ 10) }
{
    part_end(text, start, b'\n')
}

// The bytes before the first byte `separator`, and the number of bytes up to it, with it. `None` if there is
// none.
pub(crate) fn split_field(line: &[u8], separator: u8) -> Option<(&[u8], usize)>
    ensures within { IfSome result (λ field. field.1 ≤ length line.now) }
    ensures line { IfSome result (λ field. line.now ≡ field.0.now ++ separator ∷ drop field.1 line.now) }
    ensures first { IfSome result (λ field. All (λ b. b ≢ separator) field.0.now) }
    ensures none { IfNone result (All (λ b. b ≢ separator) line.now) }
{
    let end = memchr(separator, line)?;
    Some((&line[..end], end + 1))
}

// The number of bytes before the first byte `separator`, or of all bytes if there is none.
pub(crate) fn field_len(bytes: &[u8], separator: u8) -> usize
    ensures { IsFieldLen bytes.now separator result }
{
    memchr(separator, bytes).unwrap_or(bytes.len())
}
