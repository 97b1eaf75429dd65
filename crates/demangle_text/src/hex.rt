//! Hexadecimal digits.
ghost use Rattle.std.specs.Prelude.{◌+◌, ◌*◌, ◌^◌, ◌<◌, All, SomeIff};
ghost use Rattle.std.specs.Char.{digit_value};
ghost use Rattle.std.specs.Str.Parse.{digits_value};
ghost use Rattle.demangle_text.specs.Legacy.{IsHexDigit};

// Returns the value of a lowercase hexadecimal digit.
pub(crate) fn hex_value(byte: u8) -> Option<u8>
    ensures { SomeIff result (IsHexDigit byte) (digit_value byte) }
{
    match byte {
        b'0'..=b'9' => Some(byte - b'0'),
        b'a'..=b'f' => Some(byte - b'a' + 10),
        _ => None,
    }
}

// Returns the number that lowercase hexadecimal digits write, or `None` if there is another byte, or the
// number is 2^64 or more.
pub(crate) fn hex_number(digits: &[u8]) -> Option<u64>
    ensures { SomeIff result
        (All IsHexDigit digits.now × (digits_value 16 digits.now < 2 ^ 64)) (digits_value 16 digits.now) }
{
    let mut number = 0u64;
    'digits: for byte in digits {
        number = push_digit(number, *byte)?;
    }
    Some(number)
}

// Returns the number with one more hexadecimal digit, or `None` if it is 2^64 or more, or the byte is no
// digit.
fn push_digit(number: u64, byte: u8) -> Option<u64>
    ensures { SomeIff result
        (IsHexDigit byte × (number * 16 + digit_value byte < 2 ^ 64)) (number * 16 + digit_value byte) }
{
    let digit = hex_value(byte)? as u64;
    number.checked_mul(16)?.checked_add(digit)
}
