//! Abbreviation tables: the tags of entries, and the names and forms of their attributes.
ghost use Rattle.std.specs.Prelude.{◌<◌, ◌≤◌, length, IfOk};

use crate::error::DwarfError;
use crate::fixed::{read_byte, read_sleb128, read_uleb128};
use std::alloc::{AllocError, Global};

// The largest number of attributes of an abbreviation.
const MAX_ATTRIBUTES: usize = 256;

// The largest number of attributes of an abbreviation that have no bytes in an entry.
const MAX_EMPTY_ATTRIBUTES: usize = 32;

// The form of an attribute that is there or isn't (`DW_FORM_flag_present`).
pub(crate) const FLAG_PRESENT: u64 = 0x19;

// The form of a constant in the abbreviation (`DW_FORM_implicit_const`).
pub(crate) const IMPLICIT_CONST: u64 = 0x21;

// The name and the form of an attribute.
#[derive(Clone, Copy)]
pub(crate) struct AttributeSpec {
    pub(crate) name: u64,
    pub(crate) form: u64,
    // The value for the form `DW_FORM_implicit_const`.
    pub(crate) constant: i64,
}

// How much values have whose sizes don't depend on them.
#[derive(Clone, Copy)]
pub(crate) struct ValueSizes {
    // The number of bytes of values of a fixed size.
    pub(crate) bytes: u64,
    // The number of addresses.
    pub(crate) addresses: u64,
    // The number of offsets in sections.
    pub(crate) offsets: u64,
}

// An abbreviation.
#[derive(Clone, Copy)]
pub(crate) struct Abbreviation {
    pub(crate) code: u64,
    pub(crate) tag: u64,
    pub(crate) has_children: bool,
    // Whether it has more attributes than are read.
    pub(crate) is_excessive: bool,
    // The size of the values of its attributes, if it doesn't depend on them.
    pub(crate) sizes: Option<ValueSizes>,
    // The index of its first attribute in the table, and that after its last.
    pub(crate) start: usize,
    pub(crate) end: usize,
}

// An abbreviation table, in the order of the codes. Those with one code are in the order of the section.
#[derive(Drop)]
pub(crate) struct AbbreviationTable {
    abbreviations: Vec<Abbreviation>,
    attributes: Vec<AttributeSpec>,
}

// Reads the name and the form of an attribute, and returns them with the rest. `None` ends the attributes.
fn read_attribute_spec(bytes: &[u8]) -> Result<(Option<AttributeSpec>, &[u8]), DwarfError>
    ensures shorter { IfOk result (λ x. length x.1.now < length bytes.now) }
{
    let (name, after_name) = read_uleb128(bytes)?;
    let (form, after_form) = read_uleb128(after_name)?;
    if name == 0 && form == 0 {
        return Ok((None, after_form));
    }
    let (constant, rest) = if form == IMPLICIT_CONST {
        read_sleb128(after_form)?
    } else {
        (0, after_form)
    };
    let spec = AttributeSpec {
        name,
        form,
        constant,
    };
    Ok((Some(spec), rest))
}

// Reads the attributes of an abbreviation, and returns whether there are too many, with the rest. Those
// beyond the limits are not added.
fn read_attribute_specs<'a>(
    bytes: &'a [u8],
    attributes: &mut Vec<AttributeSpec>,
) -> Result<(bool, &'a [u8]), DwarfError>
    ensures shorter { IfOk result (λ x. length x.1.now < length bytes.now) }
{
    let mut rest = bytes;
    let mut count: usize = 0;
    let mut empty: usize = 0;
    let mut is_excessive = false;
    'attributes: while !rest.is_empty() {
        let (spec, after) = read_attribute_spec(rest)?;
        rest = after;
        let Some(spec) = spec else {
            return Ok((is_excessive, rest));
        };
        let is_empty = spec.form == FLAG_PRESENT || spec.form == IMPLICIT_CONST;
        if count >= MAX_ATTRIBUTES || (is_empty && empty >= MAX_EMPTY_ATTRIBUTES) {
            is_excessive = true;
        } else {
            attributes.push(spec)?;
            count = count.saturating_add(1);
            if is_empty {
                empty = empty.saturating_add(1);
            }
        }
    }
    Err(DwarfError::Truncated)
}

// The size of a value of a form that has as many bytes in each unit.
fn fixed_size(form: u64) -> Option<u64> {
    match form {
        FLAG_PRESENT | IMPLICIT_CONST => Some(0),
        0x0b | 0x0c | 0x11 | 0x25 | 0x29 => Some(1),
        0x05 | 0x12 | 0x26 | 0x2a => Some(2),
        0x27 | 0x2b => Some(3),
        0x06 | 0x13 | 0x1c | 0x28 | 0x2c => Some(4),
        0x07 | 0x14 | 0x20 | 0x24 => Some(8),
        0x1e => Some(16),
        _ => None,
    }
}

impl ValueSizes {
    // Adds a value of a form, if its size doesn't depend on the value.
    fn with_form(&self, form: u64) -> Option<ValueSizes> {
        let mut sizes = *self;
        match form {
            0x01 => sizes.addresses = sizes.addresses.saturating_add(1),
            0x0e | 0x17 | 0x1d | 0x1f | 0x1f20 | 0x1f21 => {
                sizes.offsets = sizes.offsets.saturating_add(1);
            }
            _ => sizes.bytes = sizes.bytes.saturating_add(fixed_size(form)?),
        }
        Some(sizes)
    }
}

// The size of the values of attributes, if it doesn't depend on them.
fn value_sizes(attributes: &[AttributeSpec]) -> Option<ValueSizes> {
    let mut sizes = ValueSizes {
        bytes: 0,
        addresses: 0,
        offsets: 0,
    };
    'attributes: for attribute in attributes {
        sizes = sizes.with_form(attribute.form)?;
    }
    Some(sizes)
}

// Reads an abbreviation, and returns it with the rest. `None` ends the table.
fn read_abbreviation<'a>(
    bytes: &'a [u8],
    attributes: &mut Vec<AttributeSpec>,
) -> Result<(Option<Abbreviation>, &'a [u8]), DwarfError>
    ensures shorter { IfOk result (λ x. length x.1.now < length bytes.now) }
{
    let (code, after_code) = read_uleb128(bytes)?;
    if code == 0 {
        return Ok((None, after_code));
    }
    let (tag, after_tag) = read_uleb128(after_code)?;
    let (children, after_children) = read_byte(after_tag)?;
    let start = attributes.len();
    let (is_excessive, rest) = read_attribute_specs(after_children, attributes)?;
    let abbreviation = Abbreviation {
        code,
        tag,
        has_children: children != 0,
        is_excessive,
        sizes: value_sizes(attributes.get(start..).unwrap_or(&[])),
        start,
        end: attributes.len(),
    };
    Ok((Some(abbreviation), rest))
}

// Reads the table that the bytes start with, up to its end or to an abbreviation that is incomplete, and
// returns it with the number of bytes that were read.
pub(crate) fn read_table(
    alloc: Global,
    bytes: &[u8],
) -> Result<(AbbreviationTable, usize), AllocError> {
    let mut abbreviations = Vec::new(alloc);
    let mut attributes = Vec::new(alloc);
    let mut rest = bytes;
    'abbreviations: while !rest.is_empty() {
        match read_abbreviation(rest, &mut attributes) {
            Ok((Some(abbreviation), after)) => {
                abbreviations.push(abbreviation)?;
                rest = after;
            }
            Ok((None, after)) => {
                rest = after;
                break;
            }
            Err(DwarfError::Memory) => return Err(AllocError),
            Err(_) => {
                rest = &[];
                break;
            }
        }
    }
    abbreviations.sort_by_key(|abbreviation| abbreviation.code)?;
    let table = AbbreviationTable {
        abbreviations,
        attributes,
    };
    Ok((table, bytes.len().saturating_sub(rest.len())))
}

impl AbbreviationTable {
    // Whether the abbreviation with an index is the first one with a code.
    fn is_first(&self, index: usize, code: u64) -> bool {
        self.has_code(index, code) && (index == 0 || !self.has_code(index - 1, code))
    }

    // Whether the abbreviation with an index has a code.
    fn has_code(&self, index: usize, code: u64) -> bool {
        match self.abbreviations.get(index) {
            Some(abbreviation) => abbreviation.code == code,
            None => false,
        }
    }

    // The index of the first abbreviation whose code is at least this one.
    fn count_below(&self, code: u64) -> usize {
        self.abbreviations
            .partition_point(|abbreviation| abbreviation.code < code)
    }

    // The first abbreviation with a code.
    pub(crate) fn find(&self, code: u64) -> Option<Abbreviation> {
        let guess = code.saturating_sub(1) as usize;
        let index = if self.is_first(guess, code) {
            guess
        } else {
            self.count_below(code)
        };
        match self.abbreviations.get(index) {
            Some(abbreviation) if abbreviation.code == code => Some(*abbreviation),
            _ => None,
        }
    }

    // The attributes of an abbreviation.
    pub(crate) fn attributes(&self, abbreviation: &Abbreviation) -> &[AttributeSpec] {
        self.attributes
            .get(abbreviation.start..abbreviation.end)
            .unwrap_or(&[])
    }
}
