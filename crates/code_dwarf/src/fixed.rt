//! Numbers of fixed size in either byte order, lengths, blocks and strings.
ghost use Rattle.std.specs.Prelude.{◌≡◌, ◌≤◌, ◌<◌, ◌+◌, ◌^◌, [], ◌∷◌, length, reverse};
ghost use Rattle.std.specs.Prelude.{if◌then◌else◌};
ghost use Rattle.std.specs.Prelude.{IfOk, OnErr};
ghost use Rattle.code_cfi.specs.Numbers.{fixed_value, Uleb128At, Sleb128At, NoUleb128, NoSleb128};
ghost use Rattle.code_dwarf.specs.steps.Numbers.{NumberAt, OffsetAt, LengthAt, SplitAt, NoLength};
ghost use Rattle.code_dwarf.specs.steps.Numbers.{SkippedAt, LongBlockAt, StringAt};

use crate::error::DwarfError;
use memchr::memchr;

// The largest size of a name or a path in bytes.
const MAX_STRING_SIZE: usize = 65_536;

/// The order of the bytes of a number.
#[derive(Clone, Copy, Debug, PartialEq, Eq)]
pub enum Endianness {
    /// The lowest byte is the first.
    Little,
    /// The highest byte is the first.
    Big,
}

// The number that these bytes are in big-endian order.
fn big_endian(bytes: &[u8]) -> u64
    requires { length bytes.now ≤ 8 }
    ensures { result ≡ fixed_value (reverse bytes.now) }
{
    let mut value = 0;
    'bytes: for byte in bytes {
        value = value * 256 + *byte as u64;
    }
    value
}

// Reads a number of `size` bytes, and returns it with the rest.
pub(crate) fn read_fixed(
    bytes: &[u8],
    size: usize,
    endian: Endianness,
) -> Result<(u64, &[u8]), DwarfError>
    requires { size ≤ 8 }
    ensures found { IfOk result (λ x. NumberAt endian size bytes.now x.0 x.1.now) }
    ensures none { OnErr result (length bytes.now < size) }
    ensures shorter { IfOk result (λ x. length x.1.now + size ≡ length bytes.now) }
{
    if bytes.len() < size {
        return Err(DwarfError::Truncated);
    }
    match endian {
        Endianness::Little => match code_cfi::read_fixed(bytes, size) {
            Ok(read) => Ok(read),
            Err(_) => Err(DwarfError::Truncated),
        },
        Endianness::Big => {
            let (number, rest) = bytes.split_at(size);
            Ok((big_endian(number), rest))
        }
    }
}

// Reads a byte, and returns it with the rest.
pub(crate) fn read_byte(bytes: &[u8]) -> Result<(u8, &[u8]), DwarfError>
    ensures found { IfOk result (λ x. bytes.now ≡ x.0 ∷ x.1.now) }
    ensures none { OnErr result (bytes.now ≡ []) }
    ensures shorter { IfOk result (λ x. length x.1.now < length bytes.now) }
{
    match bytes {
        [] => Err(DwarfError::Truncated),
        [byte, rest @ ..] => Ok((*byte, rest)),
    }
}

// Reads an unsigned LEB128 number, and returns it with the rest.
pub(crate) fn read_uleb128(bytes: &[u8]) -> Result<(u64, &[u8]), DwarfError>
    ensures found { IfOk result (λ x. Uleb128At bytes.now x.0 x.1.now) }
    ensures none { OnErr result (NoUleb128 bytes.now) }
    ensures shorter { IfOk result (λ x. length x.1.now < length bytes.now) }
{
    match bytes {
        [byte, rest @ ..] if *byte < 128 => Ok((*byte as u64, rest)),
        _ => match code_cfi::read_uleb128(bytes) {
            Ok(read) => Ok(read),
            Err(error) => Err(DwarfError::from(error)),
        },
    }
}

// Reads a signed LEB128 number, and returns it with the rest.
pub(crate) fn read_sleb128(bytes: &[u8]) -> Result<(i64, &[u8]), DwarfError>
    ensures found { IfOk result (λ x. Sleb128At bytes.now x.0 x.1.now) }
    ensures none { OnErr result (NoSleb128 bytes.now) }
    ensures shorter { IfOk result (λ x. length x.1.now < length bytes.now) }
{
    match code_cfi::read_sleb128(bytes) {
        Ok(read) => Ok(read),
        Err(error) => Err(DwarfError::from(error)),
    }
}

// Reads an offset in a section, and returns it with the rest.
pub(crate) fn read_offset(
    bytes: &[u8],
    is_64_bit: bool,
    endian: Endianness,
) -> Result<(u64, &[u8]), DwarfError>
    ensures found { IfOk result (λ x. OffsetAt endian is_64_bit bytes.now x.0 x.1.now) }
    ensures none { OnErr result (length bytes.now < (if is_64_bit then 8 else 4)) }
    ensures shorter { IfOk result (λ x. length x.1.now < length bytes.now) }
{
    if is_64_bit {
        read_fixed(bytes, 8, endian)
    } else {
        read_fixed(bytes, 4, endian)
    }
}

// Splits the bytes after the first `size`.
pub(crate) fn split(bytes: &[u8], size: u64) -> Result<(&[u8], &[u8]), DwarfError>
    ensures found { IfOk result (λ x. SplitAt size bytes.now x.0.now x.1.now) }
    ensures none { OnErr result (length bytes.now < size) }
    ensures sizes { IfOk result (λ x. length x.0.now + length x.1.now ≡ length bytes.now) }
    ensures block { IfOk result (λ x. length x.0.now ≡ size) }
{
    if size > bytes.len() as u64 {
        return Err(DwarfError::Truncated);
    }
    Ok(bytes.split_at(size as usize))
}

// Skips the first `size` bytes.
pub(crate) fn skip(bytes: &[u8], size: u64) -> Result<&[u8], DwarfError>
    ensures found { IfOk result (λ rest. SkippedAt size bytes.now rest.now) }
    ensures none { OnErr result (length bytes.now < size) }
    ensures shorter { IfOk result (λ rest. length rest.now ≤ length bytes.now) }
{
    if size > bytes.len() as u64 {
        return Err(DwarfError::Truncated);
    }
    let (_, rest) = bytes.split_at(size as usize);
    Ok(rest)
}

// Skips a block whose size is an unsigned LEB128 number.
pub(crate) fn skip_block(bytes: &[u8]) -> Result<&[u8], DwarfError>
    ensures found { IfOk result (λ rest. LongBlockAt bytes.now rest.now) }
    ensures shorter { IfOk result (λ rest. length rest.now < length bytes.now) }
{
    let (size, rest) = read_uleb128(bytes)?;
    skip(rest, size)
}

// Reads the bytes before the first zero byte, and returns them with what follows that.
pub(crate) fn read_string(bytes: &[u8]) -> Result<(&[u8], &[u8]), DwarfError>
    ensures found { IfOk result (λ x. StringAt bytes.now x.0.now x.1.now) }
    ensures shorter { IfOk result (λ x. length x.0.now + length x.1.now < length bytes.now) }
{
    match bytes.iter().position(|byte| *byte == 0) {
        Some(size) => {
            let (string, rest) = bytes.split_at(size);
            Ok((string, skip(rest, 1)?))
        }
        None => Err(DwarfError::Truncated),
    }
}

// The string at an offset, if it has at most 65,536 bytes.
pub(crate) fn find_string(bytes: &[u8], offset: u64) -> Option<&[u8]> {
    let rest = skip(bytes, offset).ok()?;
    let (start, _) = rest.split_at(rest.len().min(MAX_STRING_SIZE + 1));
    let size = memchr(0, start)?;
    start.get(..size)
}

// An initial length.
#[derive(Clone, Copy)]
pub(crate) struct InitialLength {
    // The number of bytes after it.
    pub(crate) size: u64,
    // Whether it has 12 bytes, not 4, and offsets have 8.
    pub(crate) is_64_bit: bool,
}

// Reads an initial length, and returns it with the rest.
pub(crate) fn read_length(
    bytes: &[u8],
    endian: Endianness,
) -> Result<(InitialLength, &[u8]), DwarfError>
    ensures found { IfOk result (λ x. LengthAt endian x.0.is_64_bit bytes.now x.0.size x.1.now) }
    ensures none { OnErr result (NoLength endian bytes.now) }
    ensures shorter { IfOk result (λ x. length x.1.now < length bytes.now) }
{
    let (size, rest) = read_fixed(bytes, 4, endian)?;
    if size < 0xffff_fff0 {
        let length = InitialLength {
            size,
            is_64_bit: false,
        };
        return Ok((length, rest));
    }
    if size != 0xffff_ffff {
        return Err(DwarfError::ReservedLength);
    }
    let (wide, after) = read_fixed(rest, 8, endian)?;
    let length = InitialLength {
        size: wide,
        is_64_bit: true,
    };
    Ok((length, after))
}
