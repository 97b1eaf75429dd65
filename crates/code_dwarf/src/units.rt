//! The headers of the units of `.debug_info` (DWARF 5, section 7.5.1).
ghost use Rattle.std.specs.Prelude.{◌≡◌, ◌≤◌, ◌<◌, ◌+◌, length, IfOk, OnErr};
ghost use Rattle.std.specs.Prelude.{IfSome, IfNone, OnOk, ◌++◌};
ghost use Rattle.std.specs.Option.{option_to_list};
ghost use Rattle.code_dwarf.specs.steps.Units.{OldFieldsAt, NewFieldsAt, FieldsAt, CanBeUsed, CannotBeUsed};
ghost use Rattle.code_dwarf.specs.steps.Units.{NoOldFields, NoNewFields, NoFields, AfterFields};
ghost use Rattle.code_dwarf.specs.steps.Units.{NoAfterFields};
ghost use Rattle.code_dwarf.specs.steps.Units.{HeaderAt, NoHeader, header_in, PieceAt, NoPiece, UnitsOf};

use crate::error::{DwarfError, UnitError};
use crate::fixed::{Endianness, read_byte, read_fixed, read_length, read_offset, skip, split};
use crate::forms::Encoding;
use std::alloc::{AllocError, Global};

// The header of a unit with entries.
#[derive(Clone, Copy)]
pub(crate) struct UnitHeader {
    // The offset of the unit in the section.
    pub(crate) offset: usize,
    // The offset after its last byte.
    pub(crate) end: usize,
    // The offset of its first entry.
    pub(crate) entries: usize,
    pub(crate) version: u16,
    pub(crate) is_64_bit: bool,
    pub(crate) has_64_bit_addresses: bool,
    // The offset of its abbreviation table.
    pub(crate) abbreviations: u64,
}

// What the header of a unit says after its version.
#[derive(Clone, Copy)]
struct UnitFields {
    // The type of the unit, which is that of a compilation unit before version 5.
    kind: u8,
    address_size: u8,
    abbreviations: u64,
}

// The types of units (`DW_UT_compile`, and those after it).
const COMPILE: u8 = 1;

const TYPE: u8 = 2;

const PARTIAL: u8 = 3;

const SKELETON: u8 = 4;

const SPLIT_COMPILE: u8 = 5;

const SPLIT_TYPE: u8 = 6;

// The largest number of entries of range lists that a unit may have more than bytes, if there are few units.
const MAX_EXTRA_RANGES: usize = 4096;

// The largest number of entries of range lists that all units together may have more than bytes.
const MAX_ALL_EXTRA_RANGES: usize = 65_536;

// The number of entries of range lists that each unit may have more than bytes, where there are `count`
// units.
pub(crate) fn extra_ranges(count: usize) -> usize {
    (MAX_ALL_EXTRA_RANGES / count.max(1)).min(MAX_EXTRA_RANGES)
}

impl UnitHeader {
    // The largest number of entries of range lists that may be read for the unit.
    pub(crate) fn max_ranges(&self, extra: usize) -> usize {
        self.end.saturating_sub(self.offset).saturating_add(extra)
    }

    // How the values of the unit are in the bytes of `.debug_info`.
    pub(crate) fn encoding(&self, endian: Endianness) -> Encoding {
        Encoding {
            endian,
            is_64_bit: self.is_64_bit,
            has_64_bit_addresses: self.has_64_bit_addresses,
            version: self.version,
            end: self.end,
        }
    }
}

// Reads the fields after the version in the versions 2 to 4, and returns them with the rest.
fn read_old_fields(
    bytes: &[u8],
    is_64_bit: bool,
    endian: Endianness,
) -> Result<(UnitFields, &[u8]), DwarfError>
    ensures found { IfOk result (λ x. OldFieldsAt endian is_64_bit bytes.now x.0 x.1.now) }
    ensures none { OnErr result (NoOldFields endian is_64_bit bytes.now) }
    ensures shorter { IfOk result (λ x. length x.1.now ≤ length bytes.now) }
{
    let (abbreviations, after) = read_offset(bytes, is_64_bit, endian)?;
    let (address_size, rest) = read_byte(after)?;
    let fields = UnitFields {
        kind: COMPILE,
        address_size,
        abbreviations,
    };
    Ok((fields, rest))
}

// Reads the fields after the version in version 5, and returns them with the rest.
fn read_new_fields(
    bytes: &[u8],
    is_64_bit: bool,
    endian: Endianness,
) -> Result<(UnitFields, &[u8]), DwarfError>
    ensures found { IfOk result (λ x. NewFieldsAt endian is_64_bit bytes.now x.0 x.1.now) }
    ensures none { OnErr result (NoNewFields endian is_64_bit bytes.now) }
    ensures shorter { IfOk result (λ x. length x.1.now ≤ length bytes.now) }
{
    let (kind, after_kind) = read_byte(bytes)?;
    let (address_size, after_size) = read_byte(after_kind)?;
    let (abbreviations, after_offset) = read_offset(after_size, is_64_bit, endian)?;
    let fields = UnitFields {
        kind,
        address_size,
        abbreviations,
    };
    let entries = skip_identifier(kind, after_offset)?;
    Ok((fields, entries))
}

// Skips the identifier that skeleton units and split units have after the fields.
fn skip_identifier(kind: u8, bytes: &[u8]) -> Result<&[u8], DwarfError>
    ensures found { IfOk result (λ rest. AfterFields kind bytes.now rest.now) }
    ensures none { OnErr result (NoAfterFields kind bytes.now) }
    ensures shorter { IfOk result (λ rest. length rest.now ≤ length bytes.now) }
{
    match kind {
        SKELETON | SPLIT_COMPILE => skip(bytes, 8),
        _ => Ok(bytes),
    }
}

// Reads the fields after the version, and returns them with the rest.
fn read_fields(
    version: u64,
    bytes: &[u8],
    is_64_bit: bool,
    endian: Endianness,
) -> Result<(UnitFields, &[u8]), DwarfError>
    ensures found { IfOk result (λ x. FieldsAt endian version is_64_bit bytes.now x.0 x.1.now) }
    ensures none { OnErr result (NoFields endian version is_64_bit bytes.now) }
    ensures shorter { IfOk result (λ x. length x.1.now ≤ length bytes.now) }
{
    match version {
        2..=4 => read_old_fields(bytes, is_64_bit, endian),
        5 => read_new_fields(bytes, is_64_bit, endian),
        _ => Err(DwarfError::UnknownVersion((version % 0x1_0000) as u16)),
    }
}

// Whether addresses have 8 bytes, if a unit with these fields can be used. `None` is a unit of types.
fn check_fields(fields: &UnitFields) -> Result<Option<bool>, DwarfError>
    ensures found { IfOk result (λ x. IfSome x (λ wide. CanBeUsed fields.now wide)) }
    ensures none { IfOk result (λ x. IfNone x (CannotBeUsed fields.now)) }
    ensures error { OnErr result (CannotBeUsed fields.now) }
{
    match fields.kind {
        COMPILE | PARTIAL | SKELETON | SPLIT_COMPILE => match fields.address_size {
            4 => Ok(Some(false)),
            8 => Ok(Some(true)),
            _ => Err(DwarfError::BadUnit),
        },
        TYPE | SPLIT_TYPE => Ok(None),
        _ => Err(DwarfError::BadUnit),
    }
}

// Reads the header of a unit from the bytes after its length, which are all of the unit. `offset` is where
// the unit starts in the section and `end` where it ends. `None` is a unit of types.
fn read_header(
    contents: &[u8],
    is_64_bit: bool,
    endian: Endianness,
    offset: usize,
    end: usize,
) -> Result<Option<UnitHeader>, DwarfError>
    requires { length contents.now ≤ end }
    ensures found { IfSome (header_in result) (λ u. HeaderAt endian is_64_bit contents.now u) }
    ensures offset { IfSome (header_in result) (λ u. u.offset ≡ offset) }
    ensures end { IfSome (header_in result) (λ u. u.end ≡ end) }
    ensures none { IfNone (header_in result) (NoHeader endian is_64_bit contents.now) }
{
    let (version, after_version) = read_fixed(contents, 2, endian)?;
    let (fields, entries) = read_fields(version, after_version, is_64_bit, endian)?;
    match check_fields(&fields)? {
        Some(has_64_bit_addresses) => Ok(Some(UnitHeader {
            offset,
            end,
            entries: end - entries.len(),
            version: (version % 0x1_0000) as u16,
            is_64_bit,
            has_64_bit_addresses,
            abbreviations: fields.abbreviations,
        })),
        None => Ok(None),
    }
}

// What a unit is: its header, or `None` for a unit of types, or why the header can't be used.
type UnitPiece = Result<Option<UnitHeader>, DwarfError>;

// Reads the unit at the start of `bytes`, which end the section of `size` bytes, and returns it with the
// rest.
fn read_unit(
    endian: Endianness,
    size: usize,
    bytes: &[u8],
) -> Result<(UnitPiece, &[u8]), DwarfError>
    requires { length bytes.now ≤ size }
    ensures found { IfOk result (λ x. PieceAt endian size bytes.now (header_in x.0) x.1.now) }
    ensures none { OnErr result (NoPiece endian size bytes.now) }
    ensures shorter { IfOk result (λ x. length x.1.now < length bytes.now) }
{
    let (length, after) = read_length(bytes, endian)?;
    let (contents, rest) = split(after, length.size)?;
    let offset = size - bytes.len();
    let end = size - rest.len();
    Ok((
        read_header(contents, length.is_64_bit, endian, offset, end),
        rest,
    ))
}

// Adds the header of a unit, or the error if it can't be used.
fn add_unit(
    offset: usize,
    piece: UnitPiece,
    units: &mut Vec<UnitHeader>,
    errors: &mut Vec<UnitError>,
) -> Result<(), AllocError>
    ensures { OnOk result (units.new.items ≡ units.old.items ++ option_to_list (header_in piece)) }
{
    match piece {
        Ok(Some(header)) => units.push(header)?,
        Ok(None) => {}
        Err(error) => errors.push(UnitError {
            unit: offset,
            error,
        })?,
    }
    Ok(())
}

// Reads the headers of all units that have entries. An error ends the list.
pub(crate) fn read_units(
    alloc: Global,
    endian: Endianness,
    info: &[u8],
    errors: &mut Vec<UnitError>,
) -> Result<Vec<UnitHeader>, AllocError>
    ensures { IfOk result (λ units. UnitsOf endian info.now units.items) }
{
    let mut units = Vec::new(alloc);
    let mut rest = info;
    'units: while !rest.is_empty() {
        let offset = info.len().saturating_sub(rest.len());
        let (piece, after) = match read_unit(endian, info.len(), rest) {
            Ok(read) => read,
            Err(error) => {
                errors.push(UnitError {
                    unit: offset,
                    error,
                })?;
                return Ok(units);
            }
        };
        add_unit(offset, piece, &mut units, errors)?;
        rest = after;
    }
    Ok(units)
}
