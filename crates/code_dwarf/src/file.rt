//! The sections of a file, its units and its abbreviation tables.
ghost use Rattle.std.specs.Prelude.{◌≤◌};

use crate::abbreviations::{AbbreviationTable, read_table};
use crate::entries::{Entry, read_entry};
use crate::error::{DwarfError, UnitError};
use crate::fixed::{Endianness, find_string, read_fixed, skip};
use crate::forms::{Encoding, Value};
use crate::units::{UnitHeader, read_units};
use std::alloc::{AllocError, Global};
use std::collections::BTreeMap;

/// The bytes of the sections with debugging information. A section that isn't there has none.
#[derive(Drop)]
pub struct Sections {
    /// `.debug_info`: the units.
    pub info: Vec<u8>,
    /// `.debug_abbrev`: the abbreviation tables.
    pub abbrev: Vec<u8>,
    /// `.debug_line`: the line programs.
    pub line: Vec<u8>,
    /// `.debug_line_str`: the strings of line programs.
    pub line_str: Vec<u8>,
    /// `.debug_str`: strings.
    pub str: Vec<u8>,
    /// `.debug_str_offsets`: offsets of strings.
    pub str_offsets: Vec<u8>,
    /// `.debug_addr`: addresses.
    pub addr: Vec<u8>,
    /// `.debug_ranges`: range lists before version 5.
    pub ranges: Vec<u8>,
    /// `.debug_rnglists`: range lists of version 5.
    pub rnglists: Vec<u8>,
}

impl Sections {
    /// Returns the sections of a file that has none.
    pub fn new(alloc: Global) -> Sections {
        Sections {
            info: Vec::new(alloc),
            abbrev: Vec::new(alloc),
            line: Vec::new(alloc),
            line_str: Vec::new(alloc),
            str: Vec::new(alloc),
            str_offsets: Vec::new(alloc),
            addr: Vec::new(alloc),
            ranges: Vec::new(alloc),
            rnglists: Vec::new(alloc),
        }
    }
}

// A unit, and where its abbreviation table is among those of the file.
#[derive(Clone, Copy)]
pub(crate) struct Unit {
    pub(crate) header: UnitHeader,
    pub(crate) table: usize,
}

// Where the lists are that indices of a unit are for, as its root says.
#[derive(Clone, Copy)]
pub(crate) struct Bases {
    // The address that range lists start from.
    pub(crate) address: u64,
    pub(crate) addresses: Option<u64>,
    pub(crate) strings: Option<u64>,
    pub(crate) range_lists: Option<u64>,
}

// The sections of a file with its units.
#[derive(Drop)]
pub(crate) struct DwarfFile {
    pub(crate) endian: Endianness,
    pub(crate) sections: Sections,
    pub(crate) units: Vec<Unit>,
    tables: Vec<AbbreviationTable>,
}

/// The units of an alternate file, which the entries of another file refer to (`.gnu_debugaltlink`).
#[derive(Drop)]
pub struct AlternateInfo {
    pub(crate) file: DwarfFile,
}

// The abbreviation tables that were read.
#[derive(Drop)]
struct TableReader {
    tables: Vec<AbbreviationTable>,
    // The index of the table at an offset.
    indices: BTreeMap<u64, usize>,
    // The number of bytes that may still be read.
    budget: usize,
}

impl AlternateInfo {
    /// Reads the headers of the units.
    ///
    /// # Errors
    ///
    /// Returns `AllocError` if an allocation fails.
    pub fn new(
        alloc: Global,
        endian: Endianness,
        sections: Sections,
    ) -> Result<AlternateInfo, AllocError> {
        let mut errors = Vec::new(alloc);
        let file = DwarfFile::new(alloc, endian, sections, &mut errors)?;
        Ok(AlternateInfo { file })
    }
}

impl TableReader {
    // The index of the table at an offset, which is read if it isn't yet.
    fn table(&mut self, alloc: Global, abbrev: &[u8], offset: u64) -> Result<usize, DwarfError> {
        if let Some(index) = self.indices.get(&offset) {
            return Ok(*index);
        }
        if self.budget == 0 {
            return Err(DwarfError::Abbreviations);
        }
        let bytes = skip(abbrev, offset)?;
        let (table, size) = read_table(alloc, bytes)?;
        self.budget = self.budget.saturating_sub(size);
        let index = self.tables.len();
        self.tables.push(table)?;
        self.indices.insert(offset, index)?;
        Ok(index)
    }
}

// The units whose abbreviation tables can be read, and the tables.
fn read_tables(
    alloc: Global,
    abbrev: &[u8],
    headers: &[UnitHeader],
    errors: &mut Vec<UnitError>,
) -> Result<(Vec<Unit>, Vec<AbbreviationTable>), AllocError> {
    let mut reader = TableReader {
        tables: Vec::new(alloc),
        indices: BTreeMap::new(alloc),
        budget: abbrev.len().saturating_mul(4).saturating_add(65_536),
    };
    let mut units = Vec::new(alloc);
    'units: for header in headers {
        match reader.table(alloc, abbrev, header.abbreviations) {
            Ok(table) => units.push(Unit {
                header: *header,
                table,
            })?,
            Err(DwarfError::Memory) => return Err(AllocError),
            Err(error) => errors.push(UnitError {
                unit: header.offset,
                error,
            })?,
        }
    }
    Ok((units, reader.tables))
}

impl DwarfFile {
    // Reads the headers of the units and their abbreviation tables.
    pub(crate) fn new(
        alloc: Global,
        endian: Endianness,
        sections: Sections,
        errors: &mut Vec<UnitError>,
    ) -> Result<DwarfFile, AllocError> {
        let headers = read_units(alloc, endian, &sections.info, errors)?;
        let (units, tables) = read_tables(alloc, &sections.abbrev, &headers, errors)?;
        Ok(DwarfFile {
            endian,
            sections,
            units,
            tables,
        })
    }

    // How the values of a unit are in the bytes.
    pub(crate) fn encoding(&self, unit: &Unit) -> Encoding {
        unit.header.encoding(self.endian)
    }

    // The abbreviation table of a unit.
    pub(crate) fn table(&self, unit: &Unit) -> Option<&AbbreviationTable> {
        self.tables.get(unit.table)
    }

    // The bytes of a unit from an offset in the section on. There are none if it isn't within its entries.
    pub(crate) fn unit_bytes(&self, unit: &Unit, offset: usize) -> &[u8] {
        if offset < unit.header.entries {
            return &[];
        }
        self.sections
            .info
            .get(offset..unit.header.end)
            .unwrap_or(&[])
    }

    // The entry of a unit at an offset in the section.
    pub(crate) fn entry(
        &self,
        unit: &Unit,
        offset: usize,
    ) -> Result<Option<Entry<'_>>, DwarfError> {
        let table = self.table(unit).ok_or(DwarfError::NoAbbreviation)?;
        let (entry, _) = read_entry(self.unit_bytes(unit, offset), table)?;
        Ok(entry)
    }

    // The number of units that start at an offset or before it.
    fn count_up_to(&self, offset: u64) -> usize {
        self.units
            .partition_point(|unit| unit.header.offset as u64 <= offset)
    }

    // The unit that contains an offset in the section.
    pub(crate) fn find_unit(&self, offset: u64) -> Option<Unit> {
        let index = self.count_up_to(offset).checked_sub(1)?;
        let unit = self.units.get(index)?;
        if offset < unit.header.end as u64 {
            Some(*unit)
        } else {
            None
        }
    }

    // The number of `size` bytes with an index in a list of a section that starts at a base.
    fn list_item(&self, section: &[u8], base: Option<u64>, index: u64, size: usize) -> Option<u64>
        requires { size ≤ 8 }
    {
        let offset = base?.checked_add(index.checked_mul(size as u64)?)?;
        let bytes = skip(section, offset).ok()?;
        let (item, _) = read_fixed(bytes, size, self.endian).ok()?;
        Some(item)
    }

    // The address that a value is.
    pub(crate) fn address(&self, value: Value, encoding: &Encoding, bases: &Bases) -> Option<u64> {
        match value {
            Value::Address(address) => Some(address),
            Value::AddressIndex(index) => {
                let size = encoding.address_size();
                self.list_item(&self.sections.addr, bases.addresses, index, size)
            }
            _ => None,
        }
    }

    // The offset of the range list with an index.
    pub(crate) fn range_list(&self, index: u64, encoding: &Encoding, bases: &Bases) -> Option<u64> {
        let base = bases.range_lists?;
        let size = encoding.offset_size();
        let offset = self.list_item(&self.sections.rnglists, Some(base), index, size)?;
        base.checked_add(offset)
    }
}

// A file, and the alternate file that its entries refer to.
#[derive(Clone, Copy)]
pub(crate) struct Files<'a> {
    pub(crate) main: &'a DwarfFile,
    pub(crate) alternate: Option<&'a DwarfFile>,
}

impl<'a> Files<'a> {
    // A file with its alternate file.
    pub(crate) fn new(main: &'a DwarfFile, alternate: Option<&'a DwarfFile>) -> Files<'a> {
        Files { main, alternate }
    }

    // The string with an index in `.debug_str_offsets`.
    fn indexed_string(&self, index: u64, encoding: &Encoding, bases: &Bases) -> Option<&'a [u8]> {
        let sections = &self.main.sections;
        let size = encoding.offset_size();
        let offset = self
            .main
            .list_item(&sections.str_offsets, bases.strings, index, size)?;
        find_string(&sections.str, offset)
    }

    // The string that a value is. An inline string is in `inline`.
    pub(crate) fn string(
        &self,
        value: Value,
        inline: &'a [u8],
        encoding: &Encoding,
        bases: &Bases,
    ) -> Option<&'a [u8]> {
        match value {
            Value::InlineString(offset) => find_string(inline, offset as u64),
            Value::StringOffset(offset) => find_string(&self.main.sections.str, offset),
            Value::LineStringOffset(offset) => find_string(&self.main.sections.line_str, offset),
            Value::StringIndex(index) => self.indexed_string(index, encoding, bases),
            Value::AlternateString(offset) => find_string(&self.alternate?.sections.str, offset),
            _ => None,
        }
    }
}
