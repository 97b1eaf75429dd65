//! Encoded pointers: their format is the low half of the encoding, what they are relative to the high half.
ghost use Rattle.std.specs.Prelude.{◌≡◌, ◌≤◌, ◌<◌, ◌%◌, ◌^◌, length, IfErr, IfOk, IfSome, IfNone};
ghost use Rattle.std.specs.Prelude.{OnErr, ◌≢◌};
ghost use Rattle.code_cfi.specs.declared.error.CfiError.TheVariants as errors;
ghost use Rattle.code_cfi.specs.Pointers.{format_code, sign_extended as extended, FormatAt, EncodedAt};
ghost use Rattle.code_cfi.specs.Pointers.{PointerAt, SignedAt, Sleb128BitsAt};
ghost use Rattle.code_cfi.specs.steps.Pointers.{NoFormat, NoEncoded, NoPointer};
ghost use Rattle.code_cfi.specs.Numbers.{NoSleb128};
ghost use Rattle.code_cfi.specs.declared.pointers.Format.{Format};

use crate::error::CfiError;
use crate::leb128::{read_fixed, read_sleb128, read_uleb128};

// The formats of encoded pointers.
#[derive(Clone, Copy, Debug, PartialEq, Eq)]
pub(crate) enum Format {
    // 8 bytes (`DW_EH_PE_absptr`).
    Absolute,
    // `DW_EH_PE_uleb128`.
    Uleb128,
    // `DW_EH_PE_udata2`.
    Unsigned2,
    // `DW_EH_PE_udata4`.
    Unsigned4,
    // `DW_EH_PE_udata8`.
    Unsigned8,
    // `DW_EH_PE_sleb128`.
    Sleb128,
    // `DW_EH_PE_sdata2`.
    Signed2,
    // `DW_EH_PE_sdata4`.
    Signed4,
    // `DW_EH_PE_sdata8`.
    Signed8,
}

// The format of an encoding.
fn pointer_format(encoding: u8) -> Option<Format>
    ensures found { IfSome result (λ format. format_code format ≡ encoding % 16) }
    ensures none { IfNone result ((f : Format) → format_code f ≡ encoding % 16 → ⊥) }
{
    match encoding % 16 {
        0 => Some(Format::Absolute),
        1 => Some(Format::Uleb128),
        2 => Some(Format::Unsigned2),
        3 => Some(Format::Unsigned4),
        4 => Some(Format::Unsigned8),
        9 => Some(Format::Sleb128),
        10 => Some(Format::Signed2),
        11 => Some(Format::Signed4),
        12 => Some(Format::Signed8),
        _ => None,
    }
}

// The 64 bits of a number whose sign is its highest bit, which has the value `sign`.
fn sign_extended(value: u64, sign: u64) -> u64
    requires { sign < 2 ^ 63 }
    ensures { result ≡ extended sign value }
{
    if value < sign {
        value
    } else {
        value.wrapping_sub(sign + sign)
    }
}

// Reads a signed number of a size, the sign of which is the bit with the value `sign`.
fn read_signed(bytes: &[u8], size: usize, sign: u64) -> Result<(u64, &[u8]), CfiError>
    requires size { size ≤ 8 }
    requires sign { sign < 2 ^ 63 }
    ensures found { IfOk result (λ x. SignedAt size sign bytes.now x.0 x.1.now) }
    ensures none { OnErr result (length bytes.now < size) }
    ensures shorter { IfOk result (λ x. length x.1.now ≤ length bytes.now) }
    ensures never { IfErr result (λ e. e ≢ errors.Memory) }
{
    let (value, rest) = read_fixed(bytes, size)?;
    Ok((sign_extended(value, sign), rest))
}

// Reads a signed LEB128 number, and returns its 64 bits with the rest.
fn read_sleb128_bits(bytes: &[u8]) -> Result<(u64, &[u8]), CfiError>
    ensures found { IfOk result (λ x. Sleb128BitsAt bytes.now x.0 x.1.now) }
    ensures none { OnErr result (NoSleb128 bytes.now) }
    ensures shorter { IfOk result (λ x. length x.1.now ≤ length bytes.now) }
    ensures never { IfErr result (λ e. e ≢ errors.Memory) }
{
    let (value, rest) = read_sleb128(bytes)?;
    Ok((value.cast_unsigned(), rest))
}

// Reads a number in a format, and returns its 64 bits with the rest.
fn read_format(bytes: &[u8], format: Format) -> Result<(u64, &[u8]), CfiError>
    ensures found { IfOk result (λ x. FormatAt format bytes.now x.0 x.1.now) }
    ensures none { OnErr result (NoFormat format bytes.now) }
    ensures shorter { IfOk result (λ x. length x.1.now ≤ length bytes.now) }
    ensures never { IfErr result (λ e. e ≢ errors.Memory) }
{
    match format {
        Format::Absolute | Format::Unsigned8 | Format::Signed8 => read_fixed(bytes, 8),
        Format::Uleb128 => read_uleb128(bytes),
        Format::Unsigned2 => read_fixed(bytes, 2),
        Format::Unsigned4 => read_fixed(bytes, 4),
        Format::Sleb128 => read_sleb128_bits(bytes),
        Format::Signed2 => read_signed(bytes, 2, 0x8000),
        Format::Signed4 => read_signed(bytes, 4, 0x8000_0000),
    }
}

// Reads a number in the format of an encoding, and returns its 64 bits with the rest.
pub(crate) fn read_encoded(bytes: &[u8], encoding: u8) -> Result<(u64, &[u8]), CfiError>
    ensures found { IfOk result (λ x. EncodedAt encoding bytes.now x.0 x.1.now) }
    ensures none { OnErr result (NoEncoded encoding bytes.now) }
    ensures shorter { IfOk result (λ x. length x.1.now ≤ length bytes.now) }
    ensures never { IfErr result (λ e. e ≢ errors.Memory) }
{
    let format = pointer_format(encoding).ok_or(CfiError::Encoding(encoding))?;
    read_format(bytes, format)
}

// Reads an address with an encoding, where the bytes are at an address, and returns it with the rest.
pub(crate) fn read_pointer(
    bytes: &[u8],
    encoding: u8,
    address: u64,
) -> Result<(u64, &[u8]), CfiError>
    ensures found { IfOk result (λ x. PointerAt encoding address bytes.now x.0 x.1.now) }
    ensures none { OnErr result (NoPointer encoding address bytes.now) }
    ensures shorter { IfOk result (λ x. length x.1.now ≤ length bytes.now) }
    ensures never { IfErr result (λ e. e ≢ errors.Memory) }
{
    let (value, rest) = read_encoded(bytes, encoding)?;
    match encoding / 16 {
        0 => Ok((value, rest)),
        1 => Ok((value.wrapping_add(address), rest)),
        _ => Err(CfiError::Encoding(encoding)),
    }
}
