//! Numbers of fixed size and LEB128 numbers, at the start of some bytes.
ghost use Rattle.std.specs.Prelude.{◌≡◌, ◌≤◌, ◌<◌, ◌+◌, ◌*◌, ◌%◌, ◌^◌, [], ◌∷◌, length, drop};
ghost use Rattle.std.specs.Prelude.{pos, ◌+ℤ◌, ◌*ℤ◌, ◌⊎◌, IfOk, IfErr, IfSome, OnErr, IfNone, SomeIff};
ghost use Rattle.std.specs.Prelude.{FitsSigned, ◌≢◌};
ghost use Rattle.std.specs.Int.{w64};
ghost use Rattle.code_cfi.specs.Numbers.{fixed_value, FixedAt, IsLeb128, Uleb128At, Sleb128At, BlockAt};
ghost use Rattle.code_cfi.specs.Numbers.{NoUleb128, NoSleb128, EndsInLeb128};
ghost use Rattle.code_cfi.specs.steps.Numbers.{NoLeb128, NoBlock};
ghost use Rattle.code_cfi.specs.Numbers.{IsLongLeb128, IsLargeUleb128, IsLargeSleb128};
ghost use Rattle.code_cfi.specs.declared.error.CfiError.TheVariants as errors;
ghost use Rattle.code_cfi.specs.Numbers.{uleb128_value as uleb128, sleb128_value as sleb128};

use crate::error::CfiError;

// The largest number of bytes of a LEB128 number.
const MAX_LEB128_SIZE: usize = 10;

// The number that these bytes are in little-endian order.
fn little_endian(bytes: &[u8]) -> u64
    requires { length bytes.now ≤ 8 }
    ensures { result ≡ fixed_value bytes.now }
{
    let mut value = 0;
    let mut left = bytes.len();
    'bytes: while left > 0 {
        left -= 1;
        value = value * 256 + bytes[left] as u64;
    }
    value
}

/// Reads a number of `size` bytes in little-endian order, and returns it with the rest.
///
/// # Errors
///
/// Returns `Truncated` if there are fewer bytes.
pub fn read_fixed(bytes: &[u8], size: usize) -> Result<(u64, &[u8]), CfiError>
    requires { size ≤ 8 }
    ensures found { IfOk result (λ x. FixedAt size bytes.now x.0 x.1.now) }
    ensures none { OnErr result (length bytes.now < size) }
    ensures error { IfErr result (λ e. e ≡ errors.Truncated) }
    ensures shorter { IfOk result (λ x. length x.1.now ≤ length bytes.now) }
    ensures never { IfErr result (λ e. e ≢ errors.Memory) }
{
    if bytes.len() < size {
        return Err(CfiError::Truncated);
    }
    let (number, rest) = bytes.split_at(size);
    Ok((little_endian(number), rest))
}

// Reads a byte, and returns it with the rest.
pub(crate) fn read_byte(bytes: &[u8]) -> Result<(u8, &[u8]), CfiError>
    ensures found { IfOk result (λ x. bytes.now ≡ x.0 ∷ x.1.now) }
    ensures none { OnErr result (bytes.now ≡ []) }
    ensures shorter { IfOk result (λ x. length x.1.now < length bytes.now) }
    ensures never { IfErr result (λ e. e ≢ errors.Memory) }
{
    match bytes {
        [] => Err(CfiError::Truncated),
        [byte, rest @ ..] => Ok((*byte, rest)),
    }
}

// Skips `size` bytes.
pub(crate) fn skip(bytes: &[u8], size: usize) -> Result<&[u8], CfiError>
    ensures found { IfOk result (λ rest. (size ≤ length bytes.now) × (rest.now ≡ drop size bytes.now)) }
    ensures none { OnErr result (length bytes.now < size) }
    ensures shorter { IfOk result (λ rest. length rest.now ≤ length bytes.now) }
    ensures never { IfErr result (λ e. e ≢ errors.Memory) }
{
    if bytes.len() < size {
        return Err(CfiError::Truncated);
    }
    let (_, rest) = bytes.split_at(size);
    Ok(rest)
}

// The number of bytes of the LEB128 number at the start.
fn leb128_size(bytes: &[u8]) -> Result<usize, CfiError>
    ensures found { IfOk result (λ size. IsLeb128 size bytes.now) }
    ensures none { OnErr result (NoLeb128 bytes.now) }
    ensures named { IfErr result (λ e. (e ≡ errors.Truncated) ⊎ (e ≡ errors.Leb128)) }
    ensures truncated { IfErr result (λ e. e ≡ errors.Truncated → EndsInLeb128 bytes.now) }
    ensures long { IfErr result (λ e. e ≡ errors.Leb128 → IsLongLeb128 bytes.now) }
    ensures never { IfErr result (λ e. e ≢ errors.Memory) }
{
    'bytes: for (index, byte) in bytes.iter().enumerate() {
        if index == MAX_LEB128_SIZE {
            return Err(CfiError::Leb128);
        }
        if *byte < 128 {
            return Ok(index + 1);
        }
    }
    Err(CfiError::Truncated)
}

// The number with seven more bits below it, if it fits 64 bits.
fn with_low_bits(high: u64, byte: u8) -> Option<u64>
    ensures { SomeIff result (high * 128 + byte % 128 < 2 ^ 64) (high * 128 + byte % 128) }
{
    let low = (byte % 128) as u64;
    if high > (u64::MAX - low) / 128 {
        None
    } else {
        Some(high * 128 + low)
    }
}

// The value of the bytes of an unsigned LEB128 number, if it fits 64 bits.
fn uleb128_value(bytes: &[u8]) -> Option<u64>
    ensures { SomeIff result (uleb128 bytes.now < 2 ^ 64) (uleb128 bytes.now) }
{
    let mut value: u64 = 0;
    let mut left = bytes.len();
    'bytes: while left > 0 {
        left -= 1;
        match with_low_bits(value, bytes[left]) {
            Some(more) => value = more,
            None => return None,
        }
    }
    Some(value)
}

// The number with seven more bits below it, if it fits 64 bits.
fn with_low_signed_bits(high: i64, byte: u8) -> Option<i64>
    ensures { SomeIff result (FitsSigned w64 (high *ℤ pos 128 +ℤ pos (byte % 128)))
        (high *ℤ pos 128 +ℤ pos (byte % 128)) }
{
    let low = (byte % 128) as i64;
    match high.checked_mul(128) {
        Some(product) => product.checked_add(low),
        None => None,
    }
}

// The value of the bytes of a signed LEB128 number, if it fits 64 bits.
fn sleb128_value(bytes: &[u8]) -> Option<i64>
    requires { 0 < length bytes.now }
    ensures found { IfSome result (λ n. n ≡ sleb128 bytes.now) }
    ensures none { IfNone result (FitsSigned w64 (sleb128 bytes.now) → ⊥) }
{
    let mut left = bytes.len() - 1;
    let last = (bytes[left] % 128) as i64;
    let mut value = if last < 64 { last } else { last - 128 };
    'bytes: while left > 0 {
        left -= 1;
        match with_low_signed_bits(value, bytes[left]) {
            Some(more) => value = more,
            None => return None,
        }
    }
    Some(value)
}

/// Reads an unsigned LEB128 number (DWARF 5, section 7.6), and returns it with the rest.
///
/// # Errors
///
/// Returns `Truncated` if the bytes end in the number, and `Leb128` if it has more than 10 bytes or does not
/// fit 64 bits.
pub fn read_uleb128(bytes: &[u8]) -> Result<(u64, &[u8]), CfiError>
    ensures found { IfOk result (λ x. Uleb128At bytes.now x.0 x.1.now) }
    ensures none { OnErr result (NoUleb128 bytes.now) }
    ensures named { IfErr result (λ e. (e ≡ errors.Truncated) ⊎ (e ≡ errors.Leb128)) }
    ensures truncated { IfErr result (λ e. e ≡ errors.Truncated → EndsInLeb128 bytes.now) }
    ensures large { IfErr result (λ e. e ≡ errors.Leb128 → IsLargeUleb128 bytes.now) }
    ensures shorter { IfOk result (λ x. length x.1.now < length bytes.now) }
    ensures never { IfErr result (λ e. e ≢ errors.Memory) }
{
    let size = leb128_size(bytes)?;
    let (number, rest) = bytes.split_at(size);
    let value = uleb128_value(number).ok_or(CfiError::Leb128)?;
    Ok((value, rest))
}

/// Reads a signed LEB128 number (DWARF 5, section 7.6), and returns it with the rest.
///
/// # Errors
///
/// Returns `Truncated` if the bytes end in the number, and `Leb128` if it has more than 10 bytes or does not
/// fit 64 bits.
pub fn read_sleb128(bytes: &[u8]) -> Result<(i64, &[u8]), CfiError>
    ensures found { IfOk result (λ x. Sleb128At bytes.now x.0 x.1.now) }
    ensures none { OnErr result (NoSleb128 bytes.now) }
    ensures named { IfErr result (λ e. (e ≡ errors.Truncated) ⊎ (e ≡ errors.Leb128)) }
    ensures truncated { IfErr result (λ e. e ≡ errors.Truncated → EndsInLeb128 bytes.now) }
    ensures large { IfErr result (λ e. e ≡ errors.Leb128 → IsLargeSleb128 bytes.now) }
    ensures shorter { IfOk result (λ x. length x.1.now < length bytes.now) }
    ensures never { IfErr result (λ e. e ≢ errors.Memory) }
{
    let size = leb128_size(bytes)?;
    let (number, rest) = bytes.split_at(size);
    let value = sleb128_value(number).ok_or(CfiError::Leb128)?;
    Ok((value, rest))
}

// Reads the size of a block as an unsigned LEB128 number, and returns the block with the rest.
pub(crate) fn read_block(bytes: &[u8]) -> Result<(&[u8], &[u8]), CfiError>
    ensures found { IfOk result (λ x. BlockAt bytes.now x.0.now x.1.now) }
    ensures none { OnErr result (NoBlock bytes.now) }
    ensures shorter { IfOk result (λ x. length x.0.now + length x.1.now < length bytes.now) }
    ensures never { IfErr result (λ e. e ≢ errors.Memory) }
{
    let (size, rest) = read_uleb128(bytes)?;
    if size > rest.len() as u64 {
        return Err(CfiError::Truncated);
    }
    Ok(rest.split_at(size as usize))
}
