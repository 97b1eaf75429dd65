//! Entries of units (DWARF 5, section 7.5.2).
ghost use Rattle.std.specs.Prelude.{◌≤◌, ◌<◌, length, IfOk, IfSome};

use crate::abbreviations::{AbbreviationTable, AttributeSpec, ValueSizes};
use crate::error::DwarfError;
use crate::fixed::{read_uleb128, skip};
use crate::forms::{Encoding, Value, read_value};

// The tags of entries that are looked for (`DW_TAG_subprogram`, and so on).
pub(crate) const INLINED_SUBROUTINE: u64 = 0x1d;

pub(crate) const SUBPROGRAM: u64 = 0x2e;

pub(crate) const PARTIAL_UNIT: u64 = 0x3c;

// The names of attributes.
pub(crate) const NAME: u64 = 0x03;

pub(crate) const STATEMENT_LIST: u64 = 0x10;

pub(crate) const LOW_PC: u64 = 0x11;

pub(crate) const HIGH_PC: u64 = 0x12;

pub(crate) const COMPILATION_DIRECTORY: u64 = 0x1b;

pub(crate) const ABSTRACT_ORIGIN: u64 = 0x31;

pub(crate) const SPECIFICATION: u64 = 0x47;

pub(crate) const RANGES: u64 = 0x55;

pub(crate) const CALL_COLUMN: u64 = 0x57;

pub(crate) const CALL_FILE: u64 = 0x58;

pub(crate) const CALL_LINE: u64 = 0x59;

pub(crate) const LINKAGE_NAME: u64 = 0x6e;

pub(crate) const STRING_OFFSETS_BASE: u64 = 0x72;

pub(crate) const ADDRESS_BASE: u64 = 0x73;

pub(crate) const RANGE_LISTS_BASE: u64 = 0x74;

pub(crate) const SPLIT_NAME: u64 = 0x76;

pub(crate) const MIPS_LINKAGE_NAME: u64 = 0x2007;

pub(crate) const GNU_SPLIT_NAME: u64 = 0x2130;

pub(crate) const GNU_ADDRESS_BASE: u64 = 0x2133;

// An entry of a unit.
#[derive(Clone, Copy)]
pub(crate) struct Entry<'a> {
    pub(crate) tag: u64,
    pub(crate) has_children: bool,
    pub(crate) attributes: &'a [AttributeSpec],
    // The size of its values, if it doesn't depend on them.
    pub(crate) sizes: Option<ValueSizes>,
    // The bytes from its first value on.
    pub(crate) values: &'a [u8],
}

// Reads the code at the start of the bytes, and returns its entry with the bytes after the code. `None` is a
// code of 0, which closes the open entry.
pub(crate) fn read_entry<'a>(
    bytes: &'a [u8],
    table: &'a AbbreviationTable,
) -> Result<(Option<Entry<'a>>, &'a [u8]), DwarfError>
    ensures shorter { IfOk result (λ x. length x.1.now < length bytes.now) }
    ensures values { IfOk result (λ x. IfSome x.0 (λ e. length e.values.now < length bytes.now)) }
{
    let (code, values) = read_uleb128(bytes)?;
    if code == 0 {
        return Ok((None, values));
    }
    let abbreviation = table.find(code).ok_or(DwarfError::NoAbbreviation)?;
    if abbreviation.is_excessive {
        return Err(DwarfError::TooManyAttributes);
    }
    let entry = Entry {
        tag: abbreviation.tag,
        has_children: abbreviation.has_children,
        attributes: table.attributes(&abbreviation),
        sizes: abbreviation.sizes,
        values,
    };
    Ok((Some(entry), values))
}

impl<'a> Entry<'a> {
    // The bytes after the entry.
    pub(crate) fn rest(&self, encoding: &Encoding) -> Result<&'a [u8], DwarfError>
        ensures shorter { IfOk result (λ rest. length rest.now ≤ length self.now.values.now) }
    {
        match self.sizes {
            Some(sizes) => skip(self.values, encoding.size(&sizes)),
            None => self.rest_by_values(encoding),
        }
    }

    // The bytes after the entry, which its values say.
    fn rest_by_values(&self, encoding: &Encoding) -> Result<&'a [u8], DwarfError>
        ensures shorter { IfOk result (λ rest. length rest.now ≤ length self.now.values.now) }
    {
        let mut rest = self.values;
        'attributes: for attribute in self.attributes {
            let (_, after) = read_value(attribute, rest, encoding)?;
            rest = after;
        }
        Ok(rest)
    }

    // The value of the first attribute with a name.
    pub(crate) fn attribute(&self, name: u64, encoding: &Encoding) -> Option<Value> {
        let mut rest = self.values;
        'attributes: for attribute in self.attributes {
            let (value, after) = read_value(attribute, rest, encoding).ok()?;
            if attribute.name == name {
                return Some(value);
            }
            rest = after;
        }
        None
    }

    // The value of the first attribute with a name, if it is the offset of something in another section.
    // Before version 4 that is a constant.
    pub(crate) fn section_offset(&self, name: u64, encoding: &Encoding) -> Option<u64> {
        match self.attribute(name, encoding)? {
            Value::Offset(offset) => Some(offset),
            Value::Constant(offset) if encoding.version < 4 => Some(offset),
            _ => None,
        }
    }
}
