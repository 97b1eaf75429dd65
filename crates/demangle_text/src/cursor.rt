//! A position in the bytes of a name.
ghost use Rattle.std.specs.Prelude.{◌≡◌, ◌+◌, ◌<◌, ◌≤◌, IfOk, IsNone, IsTrue, OnErr, OnOk, if◌then◌else◌};
ghost use Rattle.std.specs.Prelude.{◌↔◌, ◌*◌, ◌^◌, [], IfNone, IfSome, IsOkUnless, SomeIff, length};
ghost use Rattle.std.specs.Prelude.{slice_range};
ghost use Rattle.demangle_text.specs.declared.failure.Failure.TheVariants.{Grammar};

use crate::failure::Failure;

/// The bytes of a name, and a position in them. Contracts describe them with `bytes_of` and `position_of`.
#[derive(Clone, Copy)]
pub struct Cursor<'a> {
    bytes: &'a [u8],
    position: usize,
}

impl<'a> Cursor<'a> {
    ghost use Rattle.demangle_text.specs.Cursor.{ReadsNumber};
    ghost use Rattle.demangle_text.specs.steps.Cursor.{IsDigitAt};
    ghost use Rattle.demangle_text.specs.Cursor.{bytes_of, byte_at, position_of, unread};
    ghost use Rattle.demangle_text.specs.Digits.{leading_digits};

    /// Creates a cursor at the first byte.
    pub fn new(bytes: &'a [u8]) -> Cursor<'a>
        ensures bytes { bytes_of result ≡ bytes.now }
        ensures position { position_of result ≡ 0 }
    {
        Cursor { bytes, position: 0 }
    }

    /// Returns the number of bytes before the position.
    pub fn position(&self) -> usize
        ensures { result ≡ position_of self.now }
    {
        self.position
    }

    /// Sets the position, which may be after the last byte.
    pub fn set_position(&mut self, position: usize)
        ensures bytes { bytes_of self.new ≡ bytes_of self.old }
        ensures position { position_of self.new ≡ position }
    {
        self.position = position;
    }

    /// Returns whether no byte is left.
    pub fn is_at_end(&self) -> bool
        ensures { IsTrue result ↔ (length (bytes_of self.now) ≤ position_of self.now) }
    {
        self.bytes.len() <= self.position
    }

    /// Returns the next byte, or `None` if no byte is left. The position stays.
    pub fn peek(&self) -> Option<u8>
        ensures { result ≡ byte_at self.now }
    {
        self.bytes.get(self.position).copied()
    }

    // Returns the number of all bytes.
    pub(crate) fn len(&self) -> usize
        ensures count { result ≡ length (bytes_of self.now) }
        ensures memory { length (bytes_of self.now) < 2 ^ 64 }
    {
        self.bytes.len()
    }

    // Returns whether the next byte is this one. The position stays.
    pub(crate) fn is_next(&self, byte: u8) -> bool
        ensures { IsTrue result ↔ (byte_at self.now ≡ Some byte) }
    {
        self.peek() == Some(byte)
    }

    /// Returns the next byte and moves after it.
    ///
    /// Fails with [`Failure::Grammar`] if no byte is left. Then the position stays.
    pub fn next_byte(&mut self) -> Result<u8, Failure>
        ensures bytes { bytes_of self.new ≡ bytes_of self.old }
        ensures byte { IfOk result (λ byte. byte_at self.old ≡ Some byte) }
        ensures position { OnOk result (position_of self.new ≡ position_of self.old + 1) }
        ensures none { OnErr result (IsNone (byte_at self.old)) }
        ensures stays { OnErr result (position_of self.new ≡ position_of self.old) }
        ensures why { IsOkUnless result Grammar }
    {
        let Some(byte) = self.peek() else {
            return Err(Failure::Grammar);
        };
        self.position += 1;
        Ok(byte)
    }

    /// Moves after the next byte if it is this one, and returns whether it is.
    pub fn eat(&mut self, byte: u8) -> bool
        ensures bytes { bytes_of self.new ≡ bytes_of self.old }
        ensures is { IsTrue result ↔ (byte_at self.old ≡ Some byte) }
        ensures position { position_of self.new ≡ position_of self.old + (if result then 1 else 0) }
    {
        if self.is_next(byte) {
            self.position += 1;
            true
        } else {
            false
        }
    }

    /// Returns the next `count` bytes and moves after them.
    ///
    /// Fails with [`Failure::Grammar`] if fewer are left. Then the position stays.
    pub fn take(&mut self, count: usize) -> Result<&'a [u8], Failure>
        ensures bytes { bytes_of self.new ≡ bytes_of self.old }
        ensures position { OnOk result (position_of self.new ≡ position_of self.old + count) }
        ensures within { OnOk result (position_of self.new ≤ length (bytes_of self.old)) }
        ensures taken { IfOk result (λ taken.
            taken.now ≡ slice_range (bytes_of self.old) (position_of self.old) (position_of self.new)) }
        ensures few { OnErr result (length (bytes_of self.old) < position_of self.old + count) }
        ensures stays { OnErr result (position_of self.new ≡ position_of self.old) }
        ensures why { IsOkUnless result Grammar }
    {
        let start = self.position;
        if self.bytes.len() < start || self.bytes.len() - start < count {
            return Err(Failure::Grammar);
        }
        self.position = start + count;
        Ok(&self.bytes[start..start + count])
    }

    /// Returns the number that the next decimal digits write, at least one, and moves after them.
    ///
    /// Fails with [`Failure::Grammar`] if the next byte isn't a digit, and with [`Failure::Limit`] if the
    /// number is 2^64 or more.
    pub fn number(&mut self) -> Result<usize, Failure>
        ensures bytes { bytes_of self.new ≡ bytes_of self.old }
        ensures position { position_of self.old ≤ position_of self.new }
        ensures digit { OnOk result (position_of self.old < position_of self.new) }
        ensures number { ReadsNumber self.old result self.new }
    {
        let start = self.position;
        // For the prover.
        let _count = self.len();
        let mut number = 0usize;
        'digits: while let Some(digit) = self.peek_digit() {
            let Some(next) = push_digit(number, digit) else {
                return Err(Failure::Limit);
            };
            number = next;
            self.position += 1;
        }
        if self.position == start {
            return Err(Failure::Grammar);
        }
        Ok(number)
    }

    // Returns the value of the next byte if that is a decimal digit. The position stays.
    fn peek_digit(&self) -> Option<usize>
        ensures some { IfSome result (λ digit. IsDigitAt self.now digit) }
        ensures none { IfNone result (leading_digits (unread self.now) ≡ []) }
    {
        let byte = self.peek()?;
        if byte.is_ascii_digit() {
            Some((byte - b'0') as usize)
        } else {
            None
        }
    }
}

// Returns the number with one more decimal digit, or `None` if it is 2^64 or more.
fn push_digit(number: usize, digit: usize) -> Option<usize>
    ensures { SomeIff result (number * 10 + digit < 2 ^ 64) (number * 10 + digit) }
{
    number.checked_mul(10)?.checked_add(digit)
}
