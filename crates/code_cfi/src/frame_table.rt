//! The call frame information of a section, with rows that are kept.
ghost use Rattle.std.specs.Prelude.{◌≡◌, ◌≢◌, ◌≤◌, ◌<◌, length};
ghost use Rattle.std.specs.Prelude.{slice_range, IfOk, IfErr, IfSome, IfNone, All};
ghost use Rattle.std.specs.Prelude.{Some, None};
ghost use Rattle.code_cfi.specs.declared.error.CfiError.TheVariants as errors;
ghost use Rattle.code_cfi.specs.Tables.{IsCieOf, IsFdeOf, IsFdeAt, CiesOfSection, SortedFdesOf};
ghost use Rattle.code_cfi.specs.Sections.{AreFew};
ghost use Rattle.code_cfi.specs.TableRows.{IsCached, IsWithin};

use crate::byte_range::ByteRange;
use crate::cie::Cie;
use crate::entry::FrameSection;
use crate::error::CfiError;
use crate::fde::Fde;
use crate::instruction::Machine;
use crate::table::{EntryTable, RowAtAddress};
use std::alloc::{AllocError, Global};

// The number of rows that a table keeps at most.
const SLOTS: usize = 2048;

// The row at an address.
#[derive(Clone, Copy)]
pub(crate) struct CachedRow {
    address: u64,
    // The index of the FDE.
    index: usize,
    found: RowAtAddress,
}

/// The call frame information of a section.
#[derive(Drop)]
pub struct FrameTable {
    table: EntryTable,
    // The rows that are kept, each in the slot of its address. There is no slot before the first row.
    rows: Vec<Option<CachedRow>>,
    ghost kept: { All (IsCached table) rows.items },
}

// The slot of an address.
fn slot(address: u64) -> usize
    ensures { result < 2048 }
{
    let mixed = (address ^ (address >> 11)) % 2048;
    mixed as usize
}

impl FrameTable {
    ghost use Rattle.code_cfi.specs.Remembering.{RemembersAt};
    ghost use Rattle.code_cfi.specs.FrameTables.{fdes_of, cies_of, bytes_of, table_of, IsRowAt, NoRowAt};

    /// Reads the entries of a section, whose first byte is at an address.
    ///
    /// An entry that is truncated ends the section. FDEs that can't be used are left out: those of size 0,
    /// and those that can't be read or whose CIE can't.
    ///
    /// # Errors
    ///
    /// Returns `AllocError` if an allocation fails.
    pub fn new(
        alloc: Global,
        machine: Machine,
        section: FrameSection,
        address: u64,
        bytes: Vec<u8>,
    ) -> Result<FrameTable, AllocError>
        ensures cies { IfOk result (λ t. All (IsCieOf section bytes.items) (cies_of t)) }
        ensures cies_in_order { IfOk result (λ t. CiesOfSection section bytes.items (cies_of t)) }
        ensures fdes { IfOk result (λ t. All (IsFdeOf section address bytes.items (cies_of t)) (fdes_of t)) }
        ensures in_order { IfOk result (λ t. SortedFdesOf section address bytes.items (cies_of t)
            (fdes_of t)) }
        ensures few { IfOk result (λ t. AreFew bytes.items (cies_of t) (fdes_of t)) }
        ensures bytes { IfOk result (λ t. bytes_of t ≡ bytes.items) }
    {
        let table = EntryTable::new(alloc, machine, section, address, bytes)?;
        Ok(FrameTable {
            table,
            rows: Vec::new(alloc),
        })
    }

    /// Returns the FDEs, in the order of their first addresses.
    pub fn fdes(&self) -> &[Fde]
        ensures { result.now ≡ fdes_of self.now }
    {
        self.table.fdes()
    }

    /// Returns the CIEs, in the order of the section.
    pub fn cies(&self) -> &[Cie]
        ensures { result.now ≡ cies_of self.now }
    {
        self.table.cies()
    }

    /// Returns the bytes of the section.
    pub fn bytes(&self) -> &[u8]
        ensures { result.now ≡ bytes_of self.now }
    {
        self.table.bytes()
    }

    /// Returns the bytes at a span, or `None` if they aren't within the section.
    pub fn byte_slice(&self, span: ByteRange) -> Option<&[u8]>
        ensures bytes { IfSome result (λ bytes. bytes.now
            ≡ slice_range (bytes_of self.now) span.start span.end) }
        ensures len { IfSome result (λ bytes. length bytes.now ≤ span.end) }
        ensures within { IfSome result (λ _. IsWithin (bytes_of self.now) span) }
        ensures none { IfNone result (IsWithin (bytes_of self.now) span → ⊥) }
    {
        self.table.byte_slice(span)
    }

    /// Returns the index of the FDE at an address.
    ///
    /// That is the first one of the section of those with the greatest first address up to this one, if it
    /// describes the address.
    pub fn find(&self, address: u64) -> Option<usize>
        ensures { IsFdeAt (fdes_of self.now) address result }
    {
        match self.cached(address) {
            Some(row) if self.table.starts_at(row.index, address) => Some(row.index),
            _ => self.table.find(address),
        }
    }

    /// Returns the row at an address that the FDE with an index describes.
    ///
    /// # Errors
    ///
    /// Returns the error of the first instruction that can't be read or carried out, and `Memory` if an
    /// allocation fails, which only instructions that remember a row make.
    pub fn row(&self, alloc: Global, index: usize, address: u64) -> Result<RowAtAddress, CfiError>
        ensures found { IfOk result (λ found. IsRowAt self.now index address found) }
        ensures none { IfErr result (λ e. e ≢ errors.Memory → NoRowAt self.now index address) }
        ensures memory { IfErr result (λ e. e ≡ errors.Memory → RemembersAt self.now index) }
    {
        match self.cached_row(index, address) {
            Some(row) => Ok(*row),
            None => self.table.row(alloc, index, address),
        }
    }

    /// Returns the row at an address that the FDE with an index describes, if it is kept.
    pub fn cached_row(&self, index: usize, address: u64) -> Option<&RowAtAddress>
        ensures { IfSome result (λ found. IsRowAt self.now index address found.now) }
    {
        match self.cached(address) {
            Some(row) if row.index == index => Some(&row.found),
            _ => None,
        }
    }

    /// Keeps the row at an address, if there is one, for faster calls of [`FrameTable::find`] and
    /// [`FrameTable::row`]. A table keeps at most 2,048 rows.
    ///
    /// # Errors
    ///
    /// Returns `AllocError` if an allocation fails.
    pub fn cache(&mut self, alloc: Global, address: u64) -> Result<(), AllocError>
        ensures { table_of self.new ≡ table_of self.old }
    {
        if self.cached(address).is_some() {
            return Ok(());
        }
        let Some(index) = self.table.find(address) else {
            return Ok(());
        };
        match self.table.row(alloc, index, address) {
            Ok(found) => {
                let row = CachedRow {
                    address,
                    index,
                    found,
                };
                self.set(alloc, row)
            }
            Err(CfiError::Memory) => Err(AllocError),
            Err(_) => Ok(()),
        }
    }

    // The row at an address, if it is kept.
    fn cached(&self, address: u64) -> Option<&CachedRow>
        ensures { IfSome result (λ row. IsRowAt self.now row.now.index address row.now.found) }
    {
        match self.rows.get(slot(address)) {
            Some(Some(row)) if row.address == address => Some(row),
            _ => None,
        }
    }

    // Keeps a row.
    fn set(&mut self, alloc: Global, row: CachedRow) -> Result<(), AllocError>
        requires { IsCached (table_of self.old) (Some row) }
        ensures { table_of self.new ≡ table_of self.old }
    {
        if self.rows.is_empty() {
            self.rows = empty_slots(alloc)?;
        }
        let slot = slot(row.address);
        if slot < self.rows.len() {
            self.rows[slot] = Some(row);
        }
        Ok(())
    }
}

// The slots of no rows.
fn empty_slots(alloc: Global) -> Result<Vec<Option<CachedRow>>, AllocError>
    ensures { IfOk result (λ slots. All (λ slot. slot ≡ None) slots.items) }
{
    let mut slots = Vec::new(alloc);
    'slots: while slots.len() < SLOTS {
        slots.push(None)?;
    }
    Ok(slots)
}
