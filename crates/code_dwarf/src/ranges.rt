//! Ranges of addresses: those of entries, and range lists (DWARF 5, section 2.17.3; DWARF 4, section 2.17.3).
ghost use Rattle.std.specs.Prelude.{◌≡◌, ◌<◌, length, IfOk};
ghost use Rattle.std.specs.List.{list_any};
ghost use Rattle.code_dwarf.specs.steps.LineRows.{contains, is_code_range};

use crate::error::DwarfError;
use crate::file::{Bases, DwarfFile};
use crate::fixed::{read_byte, read_uleb128, skip};
use crate::forms::{Encoding, Value};
use std::alloc::AllocError;

/// A range of addresses.
#[derive(Clone, Copy, Debug, PartialEq, Eq)]
pub struct AddressRange {
    /// The first address.
    pub start: u64,
    /// The address after the last one.
    pub end: u64,
}

// What an entry of a range list is.
#[derive(Clone, Copy)]
enum RangeEntry {
    // The end of the list.
    End,
    // The address that later entries are relative to.
    Base(u64),
    // A range.
    Range(AddressRange),
}

// What the ranges of a unit are read with.
#[derive(Clone, Copy)]
pub(crate) struct RangeContext<'a> {
    pub(crate) file: &'a DwarfFile,
    pub(crate) encoding: Encoding,
    pub(crate) bases: Bases,
    // Where code is.
    pub(crate) code: &'a [AddressRange],
    // The number of entries of range lists that a unit may have more than bytes.
    pub(crate) extra_ranges: usize,
}

// Whether an address is in one of some ranges.
fn is_in_any(ranges: &[AddressRange], address: u64) -> bool
    ensures { result ≡ list_any (λ part. contains part address) ranges.now }
{
    'parts: for part in ranges {
        if part.start <= address && address < part.end {
            return true;
        }
    }
    false
}

// Whether a range is one of code: it isn't empty, doesn't start at 0, and starts where code is.
pub(crate) fn is_code(code: &[AddressRange], start: u64, end: u64) -> bool
    ensures { result ≡ is_code_range code.now start end }
{
    0 < start && start < end && is_in_any(code, start)
}

impl RangeContext<'_> {
    // The range from an address on with a size.
    fn sized_range(&self, start: u64, size: u64) -> RangeEntry {
        RangeEntry::Range(AddressRange {
            start,
            end: self.encoding.wrap(start.wrapping_add(size)),
        })
    }

    // The range between two distances from an address.
    fn relative_range(&self, base: u64, start: u64, end: u64) -> RangeEntry {
        RangeEntry::Range(AddressRange {
            start: self.encoding.wrap(base.wrapping_add(start)),
            end: self.encoding.wrap(base.wrapping_add(end)),
        })
    }

    // The address with an index.
    fn indexed_address(&self, index: u64) -> Result<u64, DwarfError> {
        self.file
            .address(Value::AddressIndex(index), &self.encoding, &self.bases)
            .ok_or(DwarfError::Truncated)
    }

    // Reads an entry of a range list before version 5, and returns it with the rest.
    fn read_old_entry<'a>(
        &self,
        bytes: &'a [u8],
        base: u64,
    ) -> Result<(RangeEntry, &'a [u8]), DwarfError>
        ensures shorter { IfOk result (λ x. length x.1.now < length bytes.now) }
    {
        let (start, after_start) = self.encoding.read_address(bytes)?;
        let (end, rest) = self.encoding.read_address(after_start)?;
        if start == 0 && end == 0 {
            Ok((RangeEntry::End, rest))
        } else if start == self.encoding.wrap(u64::MAX) {
            Ok((RangeEntry::Base(end), rest))
        } else {
            Ok((self.relative_range(base, start, end), rest))
        }
    }

    // Reads an entry of a range list of version 5 that contains indices of addresses.
    fn read_indexed_entry<'a>(
        &self,
        kind: u8,
        bytes: &'a [u8],
    ) -> Result<(RangeEntry, &'a [u8]), DwarfError>
        ensures shorter { IfOk result (λ x. length x.1.now < length bytes.now) }
    {
        let (index, after) = read_uleb128(bytes)?;
        let start = self.indexed_address(index)?;
        if kind == 1 {
            return Ok((RangeEntry::Base(start), after));
        }
        let (operand, rest) = read_uleb128(after)?;
        if kind == 2 {
            let end = self.indexed_address(operand)?;
            return Ok((RangeEntry::Range(AddressRange { start, end }), rest));
        }
        Ok((self.sized_range(start, operand), rest))
    }

    // Reads an entry of a range list of version 5, and returns it with the rest.
    fn read_new_entry<'a>(
        &self,
        bytes: &'a [u8],
        base: u64,
    ) -> Result<(RangeEntry, &'a [u8]), DwarfError>
        ensures shorter { IfOk result (λ x. length x.1.now < length bytes.now) }
    {
        let (kind, after_kind) = read_byte(bytes)?;
        match kind {
            0 => Ok((RangeEntry::End, after_kind)),
            1..=3 => self.read_indexed_entry(kind, after_kind),
            4 => {
                let (start, after) = read_uleb128(after_kind)?;
                let (end, rest) = read_uleb128(after)?;
                Ok((self.relative_range(base, start, end), rest))
            }
            5 => {
                let (address, rest) = self.encoding.read_address(after_kind)?;
                Ok((RangeEntry::Base(address), rest))
            }
            6 => {
                let (start, after) = self.encoding.read_address(after_kind)?;
                let (end, rest) = self.encoding.read_address(after)?;
                Ok((RangeEntry::Range(AddressRange { start, end }), rest))
            }
            7 => {
                let (start, after) = self.encoding.read_address(after_kind)?;
                let (size, rest) = read_uleb128(after)?;
                Ok((self.sized_range(start, size), rest))
            }
            _ => Err(DwarfError::UnknownForm),
        }
    }

    // Reads an entry of a range list, and returns it with the rest.
    fn read_entry<'a>(
        &self,
        bytes: &'a [u8],
        base: u64,
    ) -> Result<(RangeEntry, &'a [u8]), DwarfError>
        ensures shorter { IfOk result (λ x. length x.1.now < length bytes.now) }
    {
        if self.encoding.version < 5 {
            self.read_old_entry(bytes, base)
        } else {
            self.read_new_entry(bytes, base)
        }
    }

    // Adds a range if it is one of code.
    fn add(&self, ranges: &mut Vec<AddressRange>, range: AddressRange) -> Result<(), AllocError> {
        if is_code(self.code, range.start, range.end) {
            ranges.push(range)?;
        }
        Ok(())
    }

    // Adds the ranges of a list up to its end or to what can't be read. `budget` is the number of entries
    // that may still be read for the unit.
    fn add_list(
        &self,
        bytes: &[u8],
        budget: &mut usize,
        ranges: &mut Vec<AddressRange>,
    ) -> Result<(), DwarfError> {
        let mut base = self.bases.address;
        let mut rest = bytes;
        'entries: while !rest.is_empty() {
            if *budget == 0 {
                return Err(DwarfError::TooManyRanges);
            }
            *budget -= 1;
            let Ok((entry, after)) = self.read_entry(rest, base) else {
                return Ok(());
            };
            match entry {
                RangeEntry::End => return Ok(()),
                RangeEntry::Base(address) => base = address,
                RangeEntry::Range(range) => self.add(ranges, range)?,
            }
            rest = after;
        }
        Ok(())
    }

    // The bytes of the range list that a value says.
    fn list_bytes(&self, value: Value) -> Option<&[u8]> {
        let offset = match value {
            Value::Offset(offset) => offset,
            Value::Constant(offset) if self.encoding.version < 4 => offset,
            Value::RangeListIndex(index) => {
                self.file.range_list(index, &self.encoding, &self.bases)?
            }
            _ => return None,
        };
        let section = if self.encoding.version < 5 {
            &self.file.sections.ranges
        } else {
            &self.file.sections.rnglists
        };
        skip(section, offset).ok()
    }

    // The range between two values, the second of which is an address or a size.
    fn pair(&self, low: Value, high: Value) -> Option<AddressRange> {
        let start = self.file.address(low, &self.encoding, &self.bases)?;
        let end = match high {
            Value::Constant(size) => self.encoding.wrap(start.wrapping_add(size)),
            _ => self.file.address(high, &self.encoding, &self.bases)?,
        };
        Some(AddressRange { start, end })
    }

    // Adds the ranges of an entry with these values of `DW_AT_low_pc`, `DW_AT_high_pc` and `DW_AT_ranges`.
    pub(crate) fn add_ranges(
        &self,
        low: Option<Value>,
        high: Option<Value>,
        list: Option<Value>,
        budget: &mut usize,
        ranges: &mut Vec<AddressRange>,
    ) -> Result<(), DwarfError> {
        if let Some(value) = list {
            return match self.list_bytes(value) {
                Some(bytes) => self.add_list(bytes, budget, ranges),
                None => Ok(()),
            };
        }
        let (Some(low), Some(high)) = (low, high) else {
            return Ok(());
        };
        match self.pair(low, high) {
            Some(range) => Ok(self.add(ranges, range)?),
            None => Ok(()),
        }
    }
}
