//! Texts of limited length.
ghost use Rattle.std.specs.Prelude.{◌≡◌, ◌↔◌, ◌≤◌, ◌++◌, [], IfErr, OnOk, OnErr, IsTrue};
ghost use Rattle.std.specs.Prelude.{◌-◌, length, slice_get, take, vec_len, decimal, encode_utf8};

use crate::failure::Failure;
use itoa::Buffer;
use std::alloc::Global;

/// The greatest number of bytes of a text, for each byte of its name.
pub const BYTES_PER_BYTE: usize = 128;

/// The greatest number of bytes of a text.
pub const MAX_TEXT: usize = 65536;

/// A text of limited length. It keeps its memory from one name to the next. Contracts describe it with
/// `text_of` and `limit_of`.
#[derive(Drop)]
pub struct Text {
    bytes: Vec<u8>,
    limit: usize,
    pub ghost within: { vec_len bytes ≤ limit },
}

impl Text {
    ghost use Rattle.demangle_text.specs.Text.{text_of, limit_of, limit_for, IsWhy};

    /// Creates an empty text that must stay empty, until [`Text::start`].
    pub fn new(alloc: Global) -> Text
        ensures text { text_of result ≡ [] }
        ensures limit { limit_of result ≡ 0 }
    {
        Text {
            bytes: Vec::new(alloc),
            limit: 0,
        }
    }

    /// Removes all bytes, and sets the limit to that of a name of this length in bytes: 128 for each byte,
    /// and at most 65,536.
    pub fn start(&mut self, name_length: usize)
        ensures text { text_of self.new ≡ [] }
        ensures limit { limit_of self.new ≡ limit_for name_length }
    {
        self.bytes.clear();
        self.limit = if name_length < MAX_TEXT / BYTES_PER_BYTE {
            BYTES_PER_BYTE * name_length
        } else {
            MAX_TEXT
        };
    }

    /// Returns the number of bytes.
    pub fn len(&self) -> usize
        ensures len { result ≡ length (text_of self.now) }
        ensures limit { result ≤ limit_of self.now }
    {
        self.bytes.len()
    }

    /// Returns whether there are no bytes.
    pub fn is_empty(&self) -> bool
        ensures { IsTrue result ↔ (length (text_of self.now) ≡ 0) }
    {
        self.bytes.is_empty()
    }

    /// Returns the bytes.
    pub fn bytes(&self) -> &[u8]
        ensures bytes { result.now ≡ text_of self.now }
        ensures limit { length result.now ≤ limit_of self.now }
    {
        &self.bytes
    }

    /// Returns the greatest number of bytes.
    pub fn limit(&self) -> usize
        ensures { result ≡ limit_of self.now }
    {
        self.limit
    }

    /// Returns the last byte.
    pub fn last(&self) -> Option<u8>
        ensures { result ≡ slice_get (text_of self.now) (length (text_of self.now) - 1) }
    {
        self.bytes.last().copied()
    }

    /// Keeps the first `count` bytes.
    pub fn truncate(&mut self, count: usize)
        ensures text { text_of self.new ≡ take count (text_of self.old) }
        ensures limit { limit_of self.new ≡ limit_of self.old }
    {
        self.bytes.truncate(count);
    }

    /// Appends bytes.
    ///
    /// Fails with [`Failure::Limit`] if the text would be longer than its limit, and with [`Failure::Memory`]
    /// if memory runs out. Then the text stays.
    pub fn put(&mut self, bytes: &[u8]) -> Result<(), Failure>
        ensures limit { limit_of self.new ≡ limit_of self.old }
        ensures ok { OnOk result (text_of self.new ≡ text_of self.old ++ bytes.now) }
        ensures err { OnErr result (text_of self.new ≡ text_of self.old) }
        ensures why { IfErr result (λ why. IsWhy self.old (length bytes.now) why) }
    {
        if bytes.len() > self.limit - self.bytes.len() {
            return Err(Failure::Limit);
        }
        self.bytes.extend_from_slice(bytes)?;
        Ok(())
    }

    /// Appends a character in UTF-8. Fails as [`Text::put`] does.
    pub fn put_char(&mut self, character: char) -> Result<(), Failure>
        ensures limit { limit_of self.new ≡ limit_of self.old }
        ensures ok { OnOk result (text_of self.new ≡ text_of self.old ++ encode_utf8 character) }
        ensures err { OnErr result (text_of self.new ≡ text_of self.old) }
        ensures why { IfErr result (λ why. IsWhy self.old (length (encode_utf8 character)) why) }
    {
        let mut buffer = [0u8; 4];
        self.put(character.encode_utf8(&mut buffer).as_bytes())
    }

    /// Appends a number in decimal digits. Fails as [`Text::put`] does.
    pub fn put_number(&mut self, number: u64) -> Result<(), Failure>
        ensures limit { limit_of self.new ≡ limit_of self.old }
        ensures ok { OnOk result (text_of self.new ≡ text_of self.old ++ decimal number) }
        ensures err { OnErr result (text_of self.new ≡ text_of self.old) }
        ensures why { IfErr result (λ why. IsWhy self.old (length (decimal number)) why) }
    {
        let mut digits = Buffer::new();
        self.put(digits.format(number).as_bytes())
    }
}
