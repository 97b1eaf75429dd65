//! Forms: how the values of attributes are in the bytes (DWARF 5, sections 7.5.5 and 7.5.6).
ghost use Rattle.std.specs.Prelude.{◌≡◌, ◌<◌, ◌≤◌, ◌+◌, length, IfOk, OnErr, if◌then◌else◌};
ghost use Rattle.code_dwarf.specs.steps.Numbers.{NumberAt, OffsetAt, BlockAfter};
ghost use Rattle.code_dwarf.specs.steps.LineMachine.{wrapped};
ghost use Rattle.code_dwarf.specs.steps.Forms.{IndexAt, DirectAt, OtherAt, ValueAt};

use crate::abbreviations::{AttributeSpec, IMPLICIT_CONST, ValueSizes};
use crate::error::DwarfError;
use crate::fixed::{
    Endianness, read_fixed, read_offset, read_sleb128, read_string, read_uleb128, skip, skip_block,
};

// How the values of a unit are in the bytes.
#[derive(Clone, Copy)]
pub(crate) struct Encoding {
    pub(crate) endian: Endianness,
    // Whether offsets have 8 bytes, not 4.
    pub(crate) is_64_bit: bool,
    // Whether addresses have 8 bytes, not 4.
    pub(crate) has_64_bit_addresses: bool,
    pub(crate) version: u16,
    // The offset in the section of the end of the bytes.
    pub(crate) end: usize,
}

// The value of an attribute.
#[derive(Clone, Copy)]
pub(crate) enum Value {
    // An address.
    Address(u64),
    // The index of an address in `.debug_addr`.
    AddressIndex(u64),
    // The 64 bits of a constant.
    Constant(u64),
    // An offset in a section that the attribute says.
    Offset(u64),
    // The index of a range list.
    RangeListIndex(u64),
    // The offset of a string in the section of the attribute.
    InlineString(usize),
    // The offset of a string in `.debug_str`.
    StringOffset(u64),
    // The offset of a string in `.debug_line_str`.
    LineStringOffset(u64),
    // The index of a string in `.debug_str_offsets`.
    StringIndex(u64),
    // The offset of a string in `.debug_str` of the alternate file.
    AlternateString(u64),
    // The offset of an entry from the start of the unit.
    UnitReference(u64),
    // The offset of an entry in `.debug_info`.
    InfoReference(u64),
    // The offset of an entry in `.debug_info` of the alternate file.
    AlternateReference(u64),
    // A value of another class.
    Other,
}

impl Encoding {
    // The size of an address.
    pub(crate) fn address_size(&self) -> usize
        ensures { result ≡ (if self.now.has_64_bit_addresses then 8 else 4) }
    {
        if self.has_64_bit_addresses { 8 } else { 4 }
    }

    // The size of an offset.
    pub(crate) fn offset_size(&self) -> usize
        ensures { result ≡ (if self.now.is_64_bit then 8 else 4) }
    {
        if self.is_64_bit { 8 } else { 4 }
    }

    // The size of values.
    pub(crate) fn size(&self, sizes: &ValueSizes) -> u64 {
        let addresses = sizes.addresses.saturating_mul(self.address_size() as u64);
        let offsets = sizes.offsets.saturating_mul(self.offset_size() as u64);
        sizes
            .bytes
            .saturating_add(addresses)
            .saturating_add(offsets)
    }

    // An address with its highest bits dropped where addresses have 4 bytes.
    pub(crate) fn wrap(&self, address: u64) -> u64
        ensures { result ≡ wrapped self.now address }
    {
        if self.has_64_bit_addresses {
            address
        } else {
            address % 0x1_0000_0000
        }
    }

    // Reads an offset.
    pub(crate) fn read_offset<'a>(&self, bytes: &'a [u8]) -> Result<(u64, &'a [u8]), DwarfError>
        ensures found { IfOk result (λ x.
            OffsetAt self.now.endian self.now.is_64_bit bytes.now x.0 x.1.now) }
        ensures shorter { IfOk result (λ x. length x.1.now < length bytes.now) }
    {
        read_offset(bytes, self.is_64_bit, self.endian)
    }

    // Reads an address.
    pub(crate) fn read_address<'a>(&self, bytes: &'a [u8]) -> Result<(u64, &'a [u8]), DwarfError>
        ensures found { IfOk result (λ x.
            OffsetAt self.now.endian self.now.has_64_bit_addresses bytes.now x.0 x.1.now) }
        ensures none { OnErr result (length bytes.now < (if self.now.has_64_bit_addresses then 8 else 4)) }
        ensures shorter { IfOk result (λ x. length x.1.now < length bytes.now) }
    {
        read_offset(bytes, self.has_64_bit_addresses, self.endian)
    }

    // Reads a number of a size.
    pub(crate) fn read_number<'a>(
        &self,
        bytes: &'a [u8],
        size: usize,
    ) -> Result<(u64, &'a [u8]), DwarfError>
        requires { size ≤ 8 }
        ensures found { IfOk result (λ x. NumberAt self.now.endian size bytes.now x.0 x.1.now) }
        ensures shorter { IfOk result (λ x. length x.1.now + size ≡ length bytes.now) }
    {
        read_fixed(bytes, size, self.endian)
    }
}

// Reads a value of the class constant or flag.
fn read_constant<'a>(
    spec: &AttributeSpec,
    bytes: &'a [u8],
    encoding: &Encoding,
) -> Result<(Value, &'a [u8]), DwarfError>
    ensures found { IfOk result (λ x. DirectAt encoding.now spec.now bytes.now x.0 x.1.now) }
    ensures shorter { IfOk result (λ x. length x.1.now ≤ length bytes.now) }
{
    match spec.form {
        0x0b => {
            let (value, rest) = encoding.read_number(bytes, 1)?;
            Ok((Value::Constant(value), rest))
        }
        0x05 => {
            let (value, rest) = encoding.read_number(bytes, 2)?;
            Ok((Value::Constant(value), rest))
        }
        0x06 => {
            let (value, rest) = encoding.read_number(bytes, 4)?;
            Ok((Value::Constant(value), rest))
        }
        0x07 => {
            let (value, rest) = encoding.read_number(bytes, 8)?;
            Ok((Value::Constant(value), rest))
        }
        0x0d => {
            let (value, rest) = read_sleb128(bytes)?;
            Ok((Value::Constant(value.cast_unsigned()), rest))
        }
        0x0f => {
            let (value, rest) = read_uleb128(bytes)?;
            Ok((Value::Constant(value), rest))
        }
        IMPLICIT_CONST => Ok((Value::Constant(spec.constant.cast_unsigned()), bytes)),
        _ => Err(DwarfError::UnknownForm),
    }
}

// Reads a value of the class string.
fn read_string_form<'a>(
    spec: &AttributeSpec,
    bytes: &'a [u8],
    encoding: &Encoding,
) -> Result<(Value, &'a [u8]), DwarfError>
    ensures found { IfOk result (λ x. DirectAt encoding.now spec.now bytes.now x.0 x.1.now) }
    ensures shorter { IfOk result (λ x. length x.1.now ≤ length bytes.now) }
{
    match spec.form {
        0x08 => {
            let (_string, rest) = read_string(bytes)?;
            let offset = encoding.end.saturating_sub(bytes.len());
            Ok((Value::InlineString(offset), rest))
        }
        0x0e => {
            let (offset, rest) = encoding.read_offset(bytes)?;
            Ok((Value::StringOffset(offset), rest))
        }
        0x1f => {
            let (offset, rest) = encoding.read_offset(bytes)?;
            Ok((Value::LineStringOffset(offset), rest))
        }
        0x1d | 0x1f21 => {
            let (offset, rest) = encoding.read_offset(bytes)?;
            Ok((Value::AlternateString(offset), rest))
        }
        _ => {
            let (index, rest) = read_string_index(spec.form, bytes, encoding)?;
            Ok((Value::StringIndex(index), rest))
        }
    }
}

// Reads the index of a string.
fn read_string_index<'a>(
    form: u64,
    bytes: &'a [u8],
    encoding: &Encoding,
) -> Result<(u64, &'a [u8]), DwarfError>
    ensures found { IfOk result (λ x. IndexAt encoding.now 26 7938 37 form bytes.now x.0 x.1.now) }
    ensures shorter { IfOk result (λ x. length x.1.now ≤ length bytes.now) }
{
    match form {
        0x1a | 0x1f02 => read_uleb128(bytes),
        0x25 => encoding.read_number(bytes, 1),
        0x26 => encoding.read_number(bytes, 2),
        0x27 => encoding.read_number(bytes, 3),
        0x28 => encoding.read_number(bytes, 4),
        _ => Err(DwarfError::UnknownForm),
    }
}

// Reads the index of an address.
fn read_address_index<'a>(
    form: u64,
    bytes: &'a [u8],
    encoding: &Encoding,
) -> Result<(u64, &'a [u8]), DwarfError>
    ensures found { IfOk result (λ x. IndexAt encoding.now 27 7937 41 form bytes.now x.0 x.1.now) }
    ensures shorter { IfOk result (λ x. length x.1.now ≤ length bytes.now) }
{
    match form {
        0x1b | 0x1f01 => read_uleb128(bytes),
        0x29 => encoding.read_number(bytes, 1),
        0x2a => encoding.read_number(bytes, 2),
        0x2b => encoding.read_number(bytes, 3),
        0x2c => encoding.read_number(bytes, 4),
        _ => Err(DwarfError::UnknownForm),
    }
}

// Reads a value of the classes address and section offset.
fn read_address_form<'a>(
    spec: &AttributeSpec,
    bytes: &'a [u8],
    encoding: &Encoding,
) -> Result<(Value, &'a [u8]), DwarfError>
    ensures found { IfOk result (λ x. DirectAt encoding.now spec.now bytes.now x.0 x.1.now) }
    ensures shorter { IfOk result (λ x. length x.1.now ≤ length bytes.now) }
{
    match spec.form {
        0x01 => {
            let (address, rest) = encoding.read_address(bytes)?;
            Ok((Value::Address(address), rest))
        }
        0x17 => {
            let (offset, rest) = encoding.read_offset(bytes)?;
            Ok((Value::Offset(offset), rest))
        }
        0x22 => {
            let (_index, rest) = read_uleb128(bytes)?;
            Ok((Value::Other, rest))
        }
        0x23 => {
            let (index, rest) = read_uleb128(bytes)?;
            Ok((Value::RangeListIndex(index), rest))
        }
        _ => {
            let (index, rest) = read_address_index(spec.form, bytes, encoding)?;
            Ok((Value::AddressIndex(index), rest))
        }
    }
}

// Reads a reference to an entry of the same unit.
fn read_unit_reference<'a>(
    spec: &AttributeSpec,
    bytes: &'a [u8],
    encoding: &Encoding,
) -> Result<(Value, &'a [u8]), DwarfError>
    ensures found { IfOk result (λ x. DirectAt encoding.now spec.now bytes.now x.0 x.1.now) }
    ensures shorter { IfOk result (λ x. length x.1.now ≤ length bytes.now) }
{
    match spec.form {
        0x11 => {
            let (value, rest) = encoding.read_number(bytes, 1)?;
            Ok((Value::UnitReference(value), rest))
        }
        0x12 => {
            let (value, rest) = encoding.read_number(bytes, 2)?;
            Ok((Value::UnitReference(value), rest))
        }
        0x13 => {
            let (value, rest) = encoding.read_number(bytes, 4)?;
            Ok((Value::UnitReference(value), rest))
        }
        0x14 => {
            let (value, rest) = encoding.read_number(bytes, 8)?;
            Ok((Value::UnitReference(value), rest))
        }
        0x15 => {
            let (value, rest) = read_uleb128(bytes)?;
            Ok((Value::UnitReference(value), rest))
        }
        _ => Err(DwarfError::UnknownForm),
    }
}

// Reads a reference to an entry of another unit or file.
fn read_reference<'a>(
    spec: &AttributeSpec,
    bytes: &'a [u8],
    encoding: &Encoding,
) -> Result<(Value, &'a [u8]), DwarfError>
    ensures found { IfOk result (λ x. DirectAt encoding.now spec.now bytes.now x.0 x.1.now) }
    ensures shorter { IfOk result (λ x. length x.1.now ≤ length bytes.now) }
{
    match spec.form {
        0x10 => {
            if encoding.version == 2 {
                let (offset, rest) = encoding.read_address(bytes)?;
                Ok((Value::InfoReference(offset), rest))
            } else {
                let (offset, rest) = encoding.read_offset(bytes)?;
                Ok((Value::InfoReference(offset), rest))
            }
        }
        0x1c => {
            let (value, rest) = encoding.read_number(bytes, 4)?;
            Ok((Value::AlternateReference(value), rest))
        }
        0x24 => {
            let (value, rest) = encoding.read_number(bytes, 8)?;
            Ok((Value::AlternateReference(value), rest))
        }
        0x1f20 => {
            let (value, rest) = encoding.read_offset(bytes)?;
            Ok((Value::AlternateReference(value), rest))
        }
        0x20 => {
            let (_signature, rest) = encoding.read_number(bytes, 8)?;
            Ok((Value::Other, rest))
        }
        _ => read_unit_reference(spec, bytes, encoding),
    }
}

// Skips a block whose size is a number of `digits` bytes.
fn skip_sized_block<'a>(
    bytes: &'a [u8],
    digits: usize,
    encoding: &Encoding,
) -> Result<&'a [u8], DwarfError>
    requires { digits ≤ 8 }
    ensures found { IfOk result (λ rest. BlockAfter encoding.now.endian digits bytes.now rest.now) }
    ensures shorter { IfOk result (λ rest. length rest.now ≤ length bytes.now) }
{
    let (size, rest) = encoding.read_number(bytes, digits)?;
    skip(rest, size)
}

// Skips a block or a flag.
fn skip_other<'a>(
    spec: &AttributeSpec,
    bytes: &'a [u8],
    encoding: &Encoding,
) -> Result<&'a [u8], DwarfError>
    ensures found { IfOk result (λ rest. OtherAt encoding.now spec.now.form bytes.now rest.now) }
    ensures shorter { IfOk result (λ rest. length rest.now ≤ length bytes.now) }
{
    match spec.form {
        0x19 => Ok(bytes),
        0x0c => skip(bytes, 1),
        0x1e => skip(bytes, 16),
        0x0a => skip_sized_block(bytes, 1, encoding),
        0x03 => skip_sized_block(bytes, 2, encoding),
        0x04 => skip_sized_block(bytes, 4, encoding),
        0x09 | 0x18 => skip_block(bytes),
        _ => Err(DwarfError::UnknownForm),
    }
}

// Reads the value of an attribute whose form isn't indirect, and returns it with the rest.
fn read_direct<'a>(
    spec: &AttributeSpec,
    bytes: &'a [u8],
    encoding: &Encoding,
) -> Result<(Value, &'a [u8]), DwarfError>
    ensures found { IfOk result (λ x. DirectAt encoding.now spec.now bytes.now x.0 x.1.now) }
    ensures shorter { IfOk result (λ x. length x.1.now ≤ length bytes.now) }
{
    match spec.form {
        0x05..=0x07 | 0x0b | 0x0d | 0x0f | IMPLICIT_CONST => read_constant(spec, bytes, encoding),
        0x08 | 0x0e | 0x1a | 0x1d | 0x1f | 0x25..=0x28 | 0x1f02 | 0x1f21 => {
            read_string_form(spec, bytes, encoding)
        }
        0x01 | 0x17 | 0x1b | 0x22 | 0x23 | 0x29..=0x2c | 0x1f01 => {
            read_address_form(spec, bytes, encoding)
        }
        0x10..=0x15 | 0x1c | 0x20 | 0x24 | 0x1f20 => read_reference(spec, bytes, encoding),
        _ => {
            let rest = skip_other(spec, bytes, encoding)?;
            Ok((Value::Other, rest))
        }
    }
}

// Reads the value of an attribute, and returns it with the rest. An indirect form is before the value.
pub(crate) fn read_value<'a>(
    spec: &AttributeSpec,
    bytes: &'a [u8],
    encoding: &Encoding,
) -> Result<(Value, &'a [u8]), DwarfError>
    ensures found { IfOk result (λ x. ValueAt encoding.now spec.now bytes.now x.0 x.1.now) }
    ensures shorter { IfOk result (λ x. length x.1.now ≤ length bytes.now) }
{
    if spec.form != 0x16 {
        return read_direct(spec, bytes, encoding);
    }
    let (form, rest) = read_uleb128(bytes)?;
    if form == 0x16 || form == IMPLICIT_CONST {
        return Err(DwarfError::UnknownForm);
    }
    let direct = AttributeSpec {
        name: spec.name,
        form,
        constant: 0,
    };
    read_direct(&direct, rest, encoding)
}
