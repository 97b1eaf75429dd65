//! The directories and files of line programs (DWARF 5, section 6.2.4; DWARF 4, section 6.2.4).
ghost use Rattle.std.specs.Prelude.{◌≡◌, ◌<◌, ◌≤◌, length, IfOk, slice_get};

use crate::abbreviations::AttributeSpec;
use crate::error::DwarfError;
use crate::fixed::{read_byte, read_string, read_uleb128};
use crate::forms::{Encoding, Value, read_value};
use crate::line_header::LineHeader;
use code_cfi::ByteRange;
use std::alloc::{AllocError, Global};

// The contents of a field that are looked for (`DW_LNCT_path`, `DW_LNCT_directory_index`).
const PATH: u64 = 1;

const DIRECTORY_INDEX: u64 = 2;

// The entries of a table.
#[derive(Drop)]
pub(crate) struct EntryList {
    // Where the contents and forms of the fields are, in version 5.
    format: ByteRange,
    // The offsets of the entries in `.debug_line`.
    entries: Vec<usize>,
}

// The tables of a line program.
#[derive(Drop)]
pub(crate) struct LineTables {
    pub(crate) directories: EntryList,
    pub(crate) files: EntryList,
}

// An entry of a table.
#[derive(Clone, Copy)]
pub(crate) struct TableEntry {
    pub(crate) path: Option<Value>,
    // The index of the directory.
    pub(crate) directory: u64,
}

impl EntryList {
    // A list without entries.
    fn new(alloc: Global) -> EntryList {
        EntryList {
            format: ByteRange { start: 0, end: 0 },
            entries: Vec::new(alloc),
        }
    }

    // The offset of the entry with an index.
    pub(crate) fn entry(&self, index: u64) -> Option<usize>
        ensures { result ≡ slice_get self.now.entries.items index }
    {
        self.entries.get(index as usize).copied()
    }

    // Adds the entry at an offset.
    pub(crate) fn push(&mut self, offset: usize) -> Result<(), AllocError> {
        self.entries.push(offset)?;
        Ok(())
    }
}

// Reads the strings up to an empty one, adds their offsets, and returns the rest. `end` is the offset of the
// end of the bytes.
fn read_old_directories<'a>(
    bytes: &'a [u8],
    end: usize,
    list: &mut EntryList,
) -> Result<&'a [u8], DwarfError> {
    let mut rest = bytes;
    'directories: while !rest.is_empty() {
        let (string, after) = read_string(rest)?;
        if string.is_empty() {
            return Ok(after);
        }
        list.push(end.saturating_sub(rest.len()))?;
        rest = after;
    }
    Err(DwarfError::BadLineHeader)
}

// Reads the index of the directory, the time and the size of a file, and returns the first with the rest.
pub(crate) fn read_file_fields(bytes: &[u8]) -> Result<(u64, &[u8]), DwarfError>
    ensures shorter { IfOk result (λ x. length x.1.now < length bytes.now) }
{
    let (directory, after) = read_uleb128(bytes)?;
    let (_, after) = read_uleb128(after)?;
    let (_, rest) = read_uleb128(after)?;
    Ok((directory, rest))
}

// Reads the files up to one without a name, and adds their offsets.
fn read_old_files(bytes: &[u8], end: usize, list: &mut EntryList) -> Result<(), DwarfError> {
    let mut rest = bytes;
    'files: while !rest.is_empty() {
        let (name, after) = read_string(rest)?;
        if name.is_empty() {
            return Ok(());
        }
        let (_, after) = read_file_fields(after)?;
        list.push(end.saturating_sub(rest.len()))?;
        rest = after;
    }
    Err(DwarfError::BadLineHeader)
}

// Skips the format of the entries of a table: `count` fields.
fn skip_format(bytes: &[u8], count: u8) -> Result<&[u8], DwarfError> {
    let mut rest = bytes;
    'fields: for _ in 0..count {
        let (_, after) = read_uleb128(rest)?;
        let (_, after) = read_uleb128(after)?;
        rest = after;
    }
    Ok(rest)
}

// Reads the field that a format starts with, and returns its contents and value, and the rests of both.
fn read_field<'a>(
    format: &'a [u8],
    bytes: &'a [u8],
    encoding: &Encoding,
) -> Result<(u64, Value, &'a [u8], &'a [u8]), DwarfError>
    ensures shorter { IfOk result (λ x. length x.2.now < length format.now) }
{
    let (name, after) = read_uleb128(format)?;
    let (form, format) = read_uleb128(after)?;
    let spec = AttributeSpec {
        name,
        form,
        constant: 0,
    };
    let (value, rest) = read_value(&spec, bytes, encoding)?;
    Ok((name, value, format, rest))
}

// Reads an entry with a format, and returns it with the rest.
fn read_new_entry<'a>(
    format: &'a [u8],
    bytes: &'a [u8],
    encoding: &Encoding,
) -> Result<(TableEntry, &'a [u8]), DwarfError> {
    let mut fields = format;
    let mut rest = bytes;
    let mut entry = TableEntry {
        path: None,
        directory: 0,
    };
    'fields: while !fields.is_empty() {
        let (name, value, next, after) = read_field(fields, rest, encoding)?;
        match (name, value) {
            (PATH, _) => entry.path = Some(value),
            (DIRECTORY_INDEX, Value::Constant(directory)) => entry.directory = directory,
            _ => {}
        }
        fields = next;
        rest = after;
    }
    Ok((entry, rest))
}

// Reads `count` entries with a format, adds their offsets, and returns the rest. An entry without bytes is an
// error.
fn read_new_entries<'a>(
    format: &'a [u8],
    bytes: &'a [u8],
    count: u64,
    encoding: &Encoding,
    list: &mut EntryList,
) -> Result<&'a [u8], DwarfError> {
    let mut rest = bytes;
    let mut left = count;
    'entries: while left > 0 {
        let (_, after) = read_new_entry(format, rest, encoding)?;
        if after.len() >= rest.len() {
            return Err(DwarfError::BadLineHeader);
        }
        list.push(encoding.end.saturating_sub(rest.len()))?;
        rest = after;
        left -= 1;
    }
    Ok(rest)
}

// Reads a table of version 5: the format, the number of entries, the entries.
fn read_new_list<'a>(
    alloc: Global,
    bytes: &'a [u8],
    encoding: &Encoding,
) -> Result<(EntryList, &'a [u8]), DwarfError> {
    let (fields, after_fields) = read_byte(bytes)?;
    let after_format = skip_format(after_fields, fields)?;
    let (count, entries) = read_uleb128(after_format)?;
    let format = after_fields
        .get(..after_fields.len().saturating_sub(after_format.len()))
        .unwrap_or(&[]);
    let mut list = EntryList {
        format: ByteRange {
            start: encoding.end.saturating_sub(after_fields.len()),
            end: encoding.end.saturating_sub(after_format.len()),
        },
        entries: Vec::new(alloc),
    };
    let rest = read_new_entries(format, entries, count, encoding, &mut list)?;
    Ok((list, rest))
}

impl LineTables {
    // Reads the tables of a line program.
    pub(crate) fn read(
        alloc: Global,
        section: &[u8],
        header: &LineHeader,
    ) -> Result<LineTables, DwarfError> {
        let bytes = section
            .get(header.tables.start..header.tables.end)
            .unwrap_or(&[]);
        if header.encoding.version >= 5 {
            let (directories, rest) = read_new_list(alloc, bytes, &header.encoding)?;
            let (files, _) = read_new_list(alloc, rest, &header.encoding)?;
            return Ok(LineTables { directories, files });
        }
        let mut directories = EntryList::new(alloc);
        let mut files = EntryList::new(alloc);
        let rest = read_old_directories(bytes, header.tables.end, &mut directories)?;
        read_old_files(rest, header.tables.end, &mut files)?;
        Ok(LineTables { directories, files })
    }
}

// The entry at an offset in `.debug_line`.
pub(crate) fn read_table_entry(
    section: &[u8],
    header: &LineHeader,
    list: &EntryList,
    offset: usize,
) -> Option<TableEntry> {
    if header.encoding.version >= 5 {
        let format = section.get(list.format.start..list.format.end)?;
        let bytes = section.get(offset..header.tables.end)?;
        let (entry, _) = read_new_entry(format, bytes, &header.encoding).ok()?;
        return Some(entry);
    }
    let bytes = section.get(offset..header.instructions.end)?;
    let (_, after) = read_string(bytes).ok()?;
    let directory = match read_file_fields(after) {
        Ok((directory, _)) => directory,
        Err(_) => 0,
    };
    Some(TableEntry {
        path: Some(Value::InlineString(offset)),
        directory,
    })
}
