//! The entries of a section, in the order of the addresses that they describe.
ghost use Rattle.std.specs.Prelude.{◌≡◌, ◌≤◌, ◌<◌, ◌+◌, ◌-◌, ◌^◌, ℕ, length};
ghost use Rattle.std.specs.Prelude.{slice_range, slice_index_or, true, IfOk, IfErr, IfNone, ◌≢◌};
ghost use Rattle.std.specs.Prelude.{IfSome, OnOk, All, Some, false, nat_le, nat_lt};
ghost use Rattle.std.specs.List.Sorted.{IsNonDecreasingBy, IsPartitionPoint, IsPermutation, IsStableByKey};
ghost use Rattle.std.specs.Ordering.{nat_cmp};
ghost use Rattle.code_cfi.specs.Tables.{IsCieIn, IsCieOf, IsFdeIn, IsFdeOf, IsFdeAt, FdesOfSection};
ghost use Rattle.code_cfi.specs.Tables.{SortedFdesOf, NoFdeIn, NoCieIn, CiesOfSection};
ghost use Rattle.code_cfi.specs.steps.Tables.{AreRising};
ghost use Rattle.code_cfi.specs.Fdes.{IsFde};

use crate::byte_range::ByteRange;
use crate::cie::{Cie, read_cie};
use crate::entry::{CfiEntry, FrameSection, read_entry};
use crate::error::CfiError;
use crate::fde::{Fde, read_fde};
use crate::instruction::{Encoding, Machine};
use crate::row::Row;
use crate::row_program::{RowState, run};
use std::alloc::{AllocError, Global};

// The entries of a section.
#[derive(Drop)]
pub(crate) struct EntryTable {
    machine: Machine,
    address: u64,
    bytes: Vec<u8>,
    cies: Vec<Cie>,
    fdes: Vec<Fde>,
    ghost sorted: { IsNonDecreasingBy (λ f. f.start) fdes.items },
}

/// The row at an address, with what its CIE says of the frame.
#[derive(Clone, Copy, Debug, PartialEq, Eq)]
pub struct RowAtAddress {
    /// How the CFA and the caller's registers are found.
    pub row: Row,
    /// The number of the register that the return address is the caller's value of.
    pub return_address: u64,
    /// Whether the caller was interrupted by a signal.
    pub is_signal: bool,
}

impl EntryTable {
    ghost use Rattle.code_cfi.specs.TableRows.{IsRowIn, NoRowIn, IsWithin, IsProgram};
    ghost use Rattle.code_cfi.specs.TableRows.{encoding_in, program_in};
    ghost use Rattle.code_cfi.specs.Rows.{Runs};
    ghost use Rattle.code_cfi.specs.Remembering.{RemembersIn, RunRemembers};
    ghost use Rattle.code_cfi.specs.steps.Rows.{NoRun, moment_of};
    ghost use Rattle.code_cfi.specs.declared.error.CfiError.TheVariants as errors;

    // Reads the entries of a section, whose first byte is at an address.
    pub(crate) fn new(
        alloc: Global,
        machine: Machine,
        section: FrameSection,
        address: u64,
        bytes: Vec<u8>,
    ) -> Result<EntryTable, AllocError>
        ensures cies { IfOk result (λ t. All (IsCieOf section bytes.items) t.cies.items) }
        ensures cies_in_order { IfOk result (λ t. CiesOfSection section bytes.items t.cies.items) }
        ensures fdes { IfOk result (λ t.
            All (IsFdeOf section address bytes.items t.cies.items) t.fdes.items) }
        ensures in_order { IfOk result (λ t. SortedFdesOf section address bytes.items t.cies.items
            t.fdes.items) }
        ensures bytes { IfOk result (λ t. t.bytes.items ≡ bytes.items) }
    {
        let cies = read_cies(alloc, section, &bytes)?;
        let fdes = read_sorted_fdes(alloc, section, address, &bytes, &cies)?;
        Ok(EntryTable {
            machine,
            address,
            bytes,
            cies,
            fdes,
        })
    }

    // The FDEs, in the order of their first addresses.
    pub(crate) fn fdes(&self) -> &[Fde]
        ensures { result.now ≡ self.now.fdes.items }
    {
        &self.fdes[..]
    }

    // The CIEs, in the order of the section.
    pub(crate) fn cies(&self) -> &[Cie]
        ensures { result.now ≡ self.now.cies.items }
    {
        &self.cies[..]
    }

    // The bytes of the section.
    pub(crate) fn bytes(&self) -> &[u8]
        ensures { result.now ≡ self.now.bytes.items }
    {
        &self.bytes[..]
    }

    // The bytes at a span, or `None` if they aren't within the section.
    pub(crate) fn byte_slice(&self, span: ByteRange) -> Option<&[u8]>
        ensures bytes { IfSome result (λ bytes. bytes.now
            ≡ slice_range self.now.bytes.items span.start span.end) }
        ensures len { IfSome result (λ bytes. length bytes.now ≤ span.end) }
        ensures within { IfSome result (λ _. IsWithin self.now.bytes.items span) }
        ensures none { IfNone result (IsWithin self.now.bytes.items span → ⊥) }
    {
        if span.start <= span.end && span.end <= self.bytes.len() {
            Some(&self.bytes[span.start..span.end])
        } else {
            None
        }
    }

    // The index of the FDE at an address.
    pub(crate) fn find(&self, address: u64) -> Option<usize>
        ensures { IsFdeAt self.now.fdes.items address result }
    {
        find_entry(&self.fdes, address)
    }

    // Whether the FDE with an index is that at an address. If others have its first address, this is false.
    pub(crate) fn starts_at(&self, index: usize, address: u64) -> bool
        ensures { result ≡ true → IsFdeAt self.now.fdes.items address (Some index) }
    {
        starts_at(&self.fdes, index, address)
    }

    // The row at an address that the FDE with an index describes.
    pub(crate) fn row(
        &self,
        alloc: Global,
        index: usize,
        address: u64,
    ) -> Result<RowAtAddress, CfiError>
        ensures found { IfOk result (λ found. IsRowIn self.now index address found) }
        ensures none { IfErr result (λ e. e ≢ errors.Memory → NoRowIn self.now index address) }
        ensures memory { IfErr result (λ e. e ≡ errors.Memory → RemembersIn self.now index) }
    {
        if index >= self.fdes.len() {
            return Err(CfiError::NoCie);
        }
        let fde = &self.fdes[index];
        if fde.cie >= self.cies.len() {
            return Err(CfiError::NoCie);
        }
        let cie = &self.cies[fde.cie];
        let mut state = RowState {
            location: 0,
            row: Row::new(),
            remembered: Vec::new(alloc),
        };
        self.run(cie, cie.instructions, &None, u64::MAX, &mut state)?;
        let initial = Some(state.row);
        state.location = fde.start;
        self.run(cie, fde.instructions, &initial, address, &mut state)?;
        Ok(RowAtAddress {
            row: state.row,
            return_address: cie.return_address,
            is_signal: cie.augmentation.is_signal,
        })
    }

    // Runs the instructions at a span while the location is at most an address.
    fn run(
        &self,
        cie: &Cie,
        span: ByteRange,
        initial: &Option<Row>,
        address: u64,
        state: &mut RowState,
    ) -> Result<(), CfiError>
        ensures done { OnOk result (Runs (encoding_in self.now cie.now span) cie.now initial.now address
            (program_in self.now span) (moment_of state.old) (moment_of state.new)) }
        ensures program { OnOk result (IsProgram self.now span) }
        ensures none { IfErr result (λ e. e ≢ errors.Memory → IsProgram self.now span
            → NoRun (encoding_in self.now cie.now span) cie.now initial.now address
            (program_in self.now span) (moment_of state.old)) }
        ensures memory { IfErr result (λ e. e ≡ errors.Memory →
            RunRemembers initial.now (encoding_in self.now cie.now span) (program_in self.now span)) }
    {
        let program = self.byte_slice(span).ok_or(CfiError::Truncated)?;
        let encoding = Encoding {
            machine: self.machine,
            pointers: cie.augmentation.pointer_encoding,
            address: self.address,
            end: span.end,
        };
        run(&encoding, cie, initial, address, program, state)
    }
}

// The CIE that an entry is, if it can be used.
fn cie_of_entry(entry: &CfiEntry<'_>) -> Option<Cie>
    requires { length entry.now.body.now ≤ entry.now.end }
    ensures found { IfSome result (λ c. IsCieIn (Some entry.now) c) }
    ensures none { IfNone result (NoCieIn (Some entry.now)) }
{
    if !entry.is_cie {
        return None;
    }
    match read_cie(entry) {
        Ok(cie) => Some(cie),
        Err(_) => None,
    }
}

// The CIE that a piece is, if it can be used.
fn parse_cie(entry: &Option<CfiEntry<'_>>) -> Option<Cie>
    requires { IfSome entry.now (λ e. length e.body.now ≤ e.end) }
    ensures found { IfSome result (λ c. IsCieIn entry.now c) }
    ensures none { IfNone result (NoCieIn entry.now) }
{
    match entry {
        Some(entry) => cie_of_entry(entry),
        None => None,
    }
}

// The CIEs of a section that can be used.
fn read_cies(alloc: Global, section: FrameSection, bytes: &[u8]) -> Result<Vec<Cie>, AllocError>
    ensures all { IfOk result (λ cies. All (IsCieOf section bytes.now) cies.items) }
    ensures in_order { IfOk result (λ cies. CiesOfSection section bytes.now cies.items) }
    ensures rising { IfOk result (λ cies. AreRising cies.items) }
{
    let mut cies = Vec::new(alloc);
    let mut rest = bytes;
    'entries: while !rest.is_empty() {
        let (entry, after) = match read_entry(section, bytes.len(), rest) {
            Ok(read) => read,
            Err(_) => return Ok(cies),
        };
        match parse_cie(&entry) {
            Some(cie) => cies.push(cie)?,
            None => {}
        }
        rest = after;
    }
    Ok(cies)
}

// The number of CIEs whose offset is below an offset.
fn count_cies_below(cies: &[Cie], offset: u64) -> usize
    requires { AreRising cies.now }
    ensures bound { result ≤ length cies.now }
    ensures point { IsPartitionPoint (λ c. nat_lt c.offset offset ≡ true)
        (λ c. nat_lt c.offset offset ≡ false) cies.now result }
{
    cies.partition_point(|cie| (cie.offset as u64) < offset)
}

// The CIE with an index.
fn cie(cies: &[Cie], index: usize) -> Cie
    requires { index < length cies.now }
    ensures { result ≡ slice_index_or cies.now index result }
{
    cies[index]
}

// Whether the CIE with an index is at an offset.
fn is_cie_offset(cies: &[Cie], index: usize, offset: u64) -> bool
    ensures yes { result ≡ true → (index < length cies.now)
        × ((d : Cie) → (slice_index_or cies.now index d).offset ≡ offset) }
    ensures no { result ≡ false → index < length cies.now
        → (d : Cie) → (slice_index_or cies.now index d).offset ≢ offset }
{
    index < cies.len() && cies[index].offset as u64 == offset
}

// The index of the CIE at an offset.
fn find_cie(cies: &[Cie], offset: u64) -> Option<usize>
    requires { AreRising cies.now }
    ensures found { IfSome result (λ i. (i < length cies.now)
        × ((d : Cie) → (slice_index_or cies.now i d).offset ≡ offset)) }
    ensures none { IfNone result (All (λ c. c.offset ≢ offset) cies.now) }
{
    let index = count_cies_below(cies, offset);
    if is_cie_offset(cies, index, offset) {
        Some(index)
    } else {
        None
    }
}

// The FDE that an entry is, if it can be used and is not empty.
fn fde_of_entry(address: u64, cies: &[Cie], entry: &CfiEntry<'_>) -> Option<Fde>
    requires body { length entry.now.body.now ≤ entry.now.end }
    requires rising { AreRising cies.now }
    ensures found { IfSome result (λ f. IsFde address cies.now entry.now f) }
    ensures none { IfNone result ((f : Fde) → IsFde address cies.now entry.now f → ⊥) }
{
    let Some(offset) = entry.cie_offset else {
        return None
    };
    let Some(index) = find_cie(cies, offset) else {
        return None
    };
    let cie = cie(cies, index);
    match read_fde(entry, &cie, index, address) {
        Ok(fde) => { if fde.size == 0 { None } else { Some(fde) } }
        Err(_) => None,
    }
}

// The FDE that a piece is, if it can be used and is not empty.
fn parse_fde(address: u64, cies: &[Cie], entry: &Option<CfiEntry<'_>>) -> Option<Fde>
    requires body { IfSome entry.now (λ e. length e.body.now ≤ e.end) }
    requires rising { AreRising cies.now }
    ensures found { IfSome result (λ f. IsFdeIn address cies.now entry.now f) }
    ensures none { IfNone result (NoFdeIn address cies.now entry.now) }
{
    match entry {
        Some(entry) => fde_of_entry(address, cies, entry),
        None => None,
    }
}

// The FDEs of a section that can be used, in the order of the section.
fn read_fdes(
    alloc: Global,
    section: FrameSection,
    address: u64,
    bytes: &[u8],
    cies: &[Cie],
) -> Result<Vec<Fde>, AllocError>
    requires { AreRising cies.now }
    ensures all { IfOk result (λ fdes. All (IsFdeOf section address bytes.now cies.now) fdes.items) }
    ensures in_order { IfOk result (λ fdes. FdesOfSection section address bytes.now cies.now fdes.items) }
{
    let mut fdes = Vec::new(alloc);
    let mut rest = bytes;
    'entries: while !rest.is_empty() {
        let (entry, after) = match read_entry(section, bytes.len(), rest) {
            Ok(read) => read,
            Err(_) => return Ok(fdes),
        };
        match parse_fde(address, cies, &entry) {
            Some(fde) => fdes.push(fde)?,
            None => {}
        }
        rest = after;
    }
    Ok(fdes)
}

// Sorts FDEs by their first addresses. Those with one first address keep their order.
fn sort_fdes(fdes: &mut Vec<Fde>) -> Result<(), AllocError>
    ensures sorted { OnOk result (IsNonDecreasingBy (λ f. f.start) fdes.new.items) }
    ensures stable { IsStableByKey (λ f. f.start) nat_cmp fdes.old.items fdes.new.items }
    ensures permutation { IsPermutation fdes.old.items fdes.new.items }
{
    fdes.sort_by_key(|fde| fde.start)
}

// The number of FDEs whose first address is at most an address.
fn count_up_to(fdes: &[Fde], address: u64) -> usize
    requires { IsNonDecreasingBy (λ f. f.start) fdes.now }
    ensures bound { result ≤ length fdes.now }
    ensures point { IsPartitionPoint (λ f. nat_le f.start address ≡ true)
        (λ f. nat_le f.start address ≡ false) fdes.now result }
{
    fdes.partition_point(|fde| fde.start <= address)
}

// The number of FDEs whose first address is below an address.
fn count_below(fdes: &[Fde], address: u64) -> usize
    requires { IsNonDecreasingBy (λ f. f.start) fdes.now }
    ensures bound { result ≤ length fdes.now }
    ensures point { IsPartitionPoint (λ f. nat_lt f.start address ≡ true)
        (λ f. nat_lt f.start address ≡ false) fdes.now result }
{
    fdes.partition_point(|fde| fde.start < address)
}

// The FDE with an index.
fn fde(fdes: &[Fde], index: usize) -> Fde
    requires { index < length fdes.now }
    ensures { result ≡ slice_index_or fdes.now index result }
{
    fdes[index]
}

// The index of the FDE at an address.
fn find_entry(fdes: &[Fde], address: u64) -> Option<usize>
    requires { IsNonDecreasingBy (λ f. f.start) fdes.now }
    ensures { IsFdeAt fdes.now address result }
{
    let above = count_up_to(fdes, address);
    if above == 0 {
        return None;
    }
    let last = fde(fdes, above - 1);
    let index = count_below(fdes, last.start);
    let fde = fde(fdes, index);
    let distance = address - last.start;
    if distance < fde.size {
        Some(index)
    } else {
        None
    }
}

// Whether the FDE with an index has another first address than the one before it.
fn is_first(fdes: &[Fde], index: usize, start: u64) -> bool
    requires { index < length fdes.now }
    ensures { result ≡ true → 0 < index
        → (f : Fde) → (slice_index_or fdes.now (index - 1) f).start < start }
{
    index == 0 || fdes[index - 1].start < start
}

// Whether the FDE after the one with an index has a first address above an address.
fn is_last(fdes: &[Fde], index: usize, address: u64) -> bool
    requires { index < length fdes.now }
    ensures { result ≡ true → index + 1 < length fdes.now
        → (f : Fde) → address < (slice_index_or fdes.now (index + 1) f).start }
{
    index + 1 >= fdes.len() || address < fdes[index + 1].start
}

// Whether the FDE with an index describes an address.
fn describes(fdes: &[Fde], index: usize, address: u64) -> bool
    requires { index < length fdes.now }
    ensures { result ≡ true → (f : Fde) → ((slice_index_or fdes.now index f).start ≤ address)
        × (address < (slice_index_or fdes.now index f).start + (slice_index_or fdes.now index f).size) }
{
    let fde = fde(fdes, index);
    fde.start <= address && address - fde.start < fde.size
}

// Whether the FDE with an index is that at an address. If others have its first address, this is false.
fn starts_at(fdes: &[Fde], index: usize, address: u64) -> bool
    requires { IsNonDecreasingBy (λ f. f.start) fdes.now }
    ensures { result ≡ true → IsFdeAt fdes.now address (Some index) }
{
    if index >= fdes.len() || !describes(fdes, index, address) {
        return false;
    }
    let start = fde(fdes, index).start;
    is_first(fdes, index, start) && is_last(fdes, index, address)
}

// The FDEs of a section that can be used, in the order of their first addresses.
fn read_sorted_fdes(
    alloc: Global,
    section: FrameSection,
    address: u64,
    bytes: &[u8],
    cies: &[Cie],
) -> Result<Vec<Fde>, AllocError>
    requires { AreRising cies.now }
    ensures all { IfOk result (λ fdes. All (IsFdeOf section address bytes.now cies.now) fdes.items) }
    ensures in_order { IfOk result (λ fdes. SortedFdesOf section address bytes.now cies.now fdes.items) }
    ensures sorted { IfOk result (λ fdes. IsNonDecreasingBy (λ f. f.start) fdes.items) }
{
    let mut fdes = read_fdes(alloc, section, address, bytes, cies)?;
    sort_fdes(&mut fdes)?;
    Ok(fdes)
}
