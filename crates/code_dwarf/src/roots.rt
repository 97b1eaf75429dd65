//! The first entries of units, which say where the code, the lists and the line program of the unit are.

use crate::entries::{
    ADDRESS_BASE, COMPILATION_DIRECTORY, Entry, GNU_ADDRESS_BASE, GNU_SPLIT_NAME, HIGH_PC, LOW_PC,
    PARTIAL_UNIT, RANGE_LISTS_BASE, RANGES, SPLIT_NAME, STATEMENT_LIST, STRING_OFFSETS_BASE,
};
use crate::error::DwarfError;
use crate::file::{Bases, DwarfFile, Unit};
use crate::forms::{Encoding, Value};

// What the first entry of a unit says.
#[derive(Clone, Copy)]
pub(crate) struct Root {
    pub(crate) bases: Bases,
    pub(crate) low: Option<Value>,
    pub(crate) high: Option<Value>,
    pub(crate) ranges: Option<Value>,
    // The offset of the line program.
    pub(crate) lines: Option<u64>,
    // The compilation directory.
    pub(crate) directory: Option<Value>,
    // Whether the unit describes addresses: the entries of partial units are for other units.
    pub(crate) is_candidate: bool,
    // Whether other entries of the unit are in another file.
    pub(crate) is_split: bool,
}

// What a root says that can't be read.
pub(crate) const NO_ROOT: Root = Root {
    bases: Bases {
        address: 0,
        addresses: None,
        strings: None,
        range_lists: None,
    },
    low: None,
    high: None,
    ranges: None,
    lines: None,
    directory: None,
    is_candidate: false,
    is_split: false,
};

// The bases that a root says, without the address.
fn list_bases(entry: &Entry<'_>, encoding: &Encoding) -> Bases {
    let addresses = if encoding.version < 5 {
        GNU_ADDRESS_BASE
    } else {
        ADDRESS_BASE
    };
    Bases {
        address: 0,
        addresses: entry.section_offset(addresses, encoding),
        strings: entry.section_offset(STRING_OFFSETS_BASE, encoding),
        range_lists: entry.section_offset(RANGE_LISTS_BASE, encoding),
    }
}

// Whether an entry says that other entries are in another file.
fn is_split(entry: &Entry<'_>, encoding: &Encoding) -> bool {
    entry.attribute(SPLIT_NAME, encoding).is_some()
        || entry.attribute(GNU_SPLIT_NAME, encoding).is_some()
}

// Reads the first entry of a unit.
pub(crate) fn read_root(file: &DwarfFile, unit: &Unit) -> Result<Root, DwarfError> {
    let encoding = file.encoding(unit);
    let entry = file
        .entry(unit, unit.header.entries)?
        .ok_or(DwarfError::NoAbbreviation)?;
    let _rest = entry.rest(&encoding)?;
    let mut bases = list_bases(&entry, &encoding);
    let low = entry.attribute(LOW_PC, &encoding);
    if let Some(value) = low {
        bases.address = file.address(value, &encoding, &bases).unwrap_or(0);
    }
    Ok(Root {
        bases,
        low,
        high: entry.attribute(HIGH_PC, &encoding),
        ranges: entry.attribute(RANGES, &encoding),
        lines: entry.section_offset(STATEMENT_LIST, &encoding),
        directory: entry.attribute(COMPILATION_DIRECTORY, &encoding),
        is_candidate: entry.tag != PARTIAL_UNIT,
        is_split: is_split(&entry, &encoding),
    })
}

// The bases for a string of a unit: only the index of a string needs them.
pub(crate) fn string_bases(file: &DwarfFile, unit: &Unit, value: Value) -> Bases {
    match value {
        Value::StringIndex(_) => match read_root(file, unit) {
            Ok(root) => root.bases,
            Err(_) => NO_ROOT.bases,
        },
        _ => NO_ROOT.bases,
    }
}
