//! The names of functions, which other entries have that their entries refer to.

use crate::entries::{
    ABSTRACT_ORIGIN, Entry, LINKAGE_NAME, MIPS_LINKAGE_NAME, NAME, SPECIFICATION,
};
use crate::file::{Files, Unit};
use crate::forms::{Encoding, Value, read_value};
use crate::roots::string_bases;

// The largest number of entries that are read for a name.
const MAX_ENTRIES: usize = 16;

// The names of a function.
#[derive(Clone, Copy)]
pub(crate) struct FunctionNames<'a> {
    pub(crate) linkage_name: Option<&'a [u8]>,
    pub(crate) name: Option<&'a [u8]>,
}

// The values of the attributes of an entry that say names or where they are.
#[derive(Clone, Copy)]
struct NameValues {
    linkage_name: Option<Value>,
    mips_linkage_name: Option<Value>,
    name: Option<Value>,
    origin: Option<Value>,
    specification: Option<Value>,
}

// The values of an entry without such attributes.
const NO_VALUES: NameValues = NameValues {
    linkage_name: None,
    mips_linkage_name: None,
    name: None,
    origin: None,
    specification: None,
};

impl NameValues {
    // Sets the value of an attribute, unless an earlier one has the same name.
    fn add(&mut self, name: u64, value: Value) {
        let value = Some(value);
        match name {
            LINKAGE_NAME => self.linkage_name = self.linkage_name.or(value),
            MIPS_LINKAGE_NAME => self.mips_linkage_name = self.mips_linkage_name.or(value),
            NAME => self.name = self.name.or(value),
            ABSTRACT_ORIGIN => self.origin = self.origin.or(value),
            SPECIFICATION => self.specification = self.specification.or(value),
            _ => {}
        }
    }

    // The values of an entry up to one that can't be read.
    fn read(entry: &Entry<'_>, encoding: &Encoding) -> NameValues {
        let mut values = NO_VALUES;
        let mut rest = entry.values;
        'attributes: for attribute in entry.attributes {
            let Ok((value, after)) = read_value(attribute, rest, encoding) else {
                break;
            };
            values.add(attribute.name, value);
            rest = after;
        }
        values
    }
}

// An entry that a name is looked for in.
#[derive(Clone, Copy)]
pub(crate) struct EntryLocation<'a> {
    // The file that the entry is in, and its alternate file.
    pub(crate) files: Files<'a>,
    pub(crate) unit: Unit,
    // The offset of the entry in `.debug_info`.
    pub(crate) offset: usize,
}

// The entry at an offset in `.debug_info` of a file.
fn find_entry<'a>(files: Files<'a>, offset: u64) -> Option<EntryLocation<'a>> {
    let unit = files.main.find_unit(offset)?;
    Some(EntryLocation {
        files,
        unit,
        offset: offset as usize,
    })
}

impl<'a> EntryLocation<'a> {
    // The string of a value, if there is one that isn't empty.
    fn string(&self, value: Option<Value>, encoding: &Encoding) -> Option<&'a [u8]> {
        let file = self.files.main;
        let value = value?;
        let bases = string_bases(file, &self.unit, value);
        let string = self
            .files
            .string(value, &file.sections.info, encoding, &bases)?;
        if string.is_empty() {
            None
        } else {
            Some(string)
        }
    }

    // The entry at a distance from the start of the unit.
    fn unit_entry(&self, distance: u64) -> Option<EntryLocation<'a>> {
        let offset = (self.unit.header.offset as u64).checked_add(distance)?;
        if offset >= self.unit.header.end as u64 {
            return None;
        }
        Some(EntryLocation {
            files: self.files,
            unit: self.unit,
            offset: offset as usize,
        })
    }

    // The entry that a reference in this one means.
    fn referenced_entry(&self, reference: Value) -> Option<EntryLocation<'a>> {
        match reference {
            Value::UnitReference(distance) => self.unit_entry(distance),
            Value::InfoReference(offset) => find_entry(self.files, offset),
            Value::AlternateReference(offset) => {
                find_entry(Files::new(self.files.alternate?, None), offset)
            }
            _ => None,
        }
    }

    // Adds the names of the entry to those that aren't known yet, and returns the entry that it refers to.
    fn read_names(&self, names: &mut FunctionNames<'a>) -> Option<EntryLocation<'a>> {
        let file = self.files.main;
        let entry = file.entry(&self.unit, self.offset).ok()??;
        let encoding = file.encoding(&self.unit);
        let values = NameValues::read(&entry, &encoding);
        if names.linkage_name.is_none() {
            names.linkage_name = match self.string(values.linkage_name, &encoding) {
                Some(name) => Some(name),
                None => self.string(values.mips_linkage_name, &encoding),
            };
        }
        if names.name.is_none() {
            names.name = self.string(values.name, &encoding);
        }
        self.referenced_entry(values.origin.or(values.specification)?)
    }

    // The names of the function that the entry describes.
    pub(crate) fn names(&self) -> FunctionNames<'a> {
        let mut names = FunctionNames {
            linkage_name: None,
            name: None,
        };
        let mut at = *self;
        'entries: for _ in 0..MAX_ENTRIES {
            match at.read_names(&mut names) {
                Some(next) => at = next,
                None => return names,
            }
        }
        names
    }
}
