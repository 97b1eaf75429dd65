//! The entries of a section: their lengths, and the identifiers that tell CIEs and FDEs apart.
ghost use Rattle.std.specs.Prelude.{◌≡◌, ◌≤◌, ◌<◌, ◌+◌, ◌==◌, length, IfOk, IfSome, OnErr};
ghost use Rattle.code_cfi.specs.Entries.{LengthAt, id_size as id_size_of, cie_id, EntryAt, PieceAt};
ghost use Rattle.code_cfi.specs.Entries.{cie_offset as cie_offset_of, NoPiece};
ghost use Rattle.code_cfi.specs.steps.Entries.{NoLength, NoEntry};

use crate::error::CfiError;
use crate::leb128::read_fixed;

/// The section that call frame information is in.
#[derive(Clone, Copy, Debug, PartialEq, Eq)]
pub enum FrameSection {
    /// `.eh_frame`: the identifier of a CIE is 0, and that of an FDE is the distance to its CIE.
    EhFrame,
    /// `.debug_frame`: the identifier of a CIE is all ones, and that of an FDE is the offset of its CIE.
    DebugFrame,
}

// An entry.
#[derive(Clone, Copy)]
pub(crate) struct CfiEntry<'a> {
    // The offset of the entry in the section.
    pub(crate) offset: usize,
    // The offset of its CIE, or `None` if it is a CIE or its CIE would be before the section.
    pub(crate) cie_offset: Option<u64>,
    // Whether it is a CIE.
    pub(crate) is_cie: bool,
    // What follows the identifier.
    pub(crate) body: &'a [u8],
    // The offset of the end of the entry.
    pub(crate) end: usize,
}

// The initial length of an entry.
#[derive(Clone, Copy)]
struct Length {
    // The number of bytes after it.
    size: u64,
    // Whether it has 12 bytes, not 4.
    is_64_bit: bool,
}

// Reads an initial length, and returns it with the rest.
fn read_length(bytes: &[u8]) -> Result<(Length, &[u8]), CfiError>
    ensures found { IfOk result (λ x. LengthAt bytes.now x.0.is_64_bit x.0.size x.1.now) }
    ensures none { OnErr result (NoLength bytes.now) }
    ensures shorter { IfOk result (λ x. length x.1.now < length bytes.now) }
{
    let (size, rest) = read_fixed(bytes, 4)?;
    if size != 0xffff_ffff {
        let length = Length {
            size,
            is_64_bit: false,
        };
        return Ok((length, rest));
    }
    let (wide, after) = read_fixed(rest, 8)?;
    let length = Length {
        size: wide,
        is_64_bit: true,
    };
    Ok((length, after))
}

// The size of the identifier of an entry.
fn id_size(section: FrameSection, is_64_bit: bool) -> usize
    ensures is { result ≡ id_size_of section is_64_bit }
    ensures small { result ≤ 8 }
{
    match section {
        FrameSection::EhFrame => 4,
        FrameSection::DebugFrame => { if is_64_bit { 8 } else { 4 } }
    }
}

// Whether an identifier is that of a CIE.
fn is_cie_id(section: FrameSection, is_64_bit: bool, id: u64) -> bool
    ensures { result ≡ (id == cie_id section is_64_bit) }
{
    match section {
        FrameSection::EhFrame => id == 0,
        FrameSection::DebugFrame => {
            if is_64_bit {
                id == u64::MAX
            } else {
                id == 0xffff_ffff
            }
        }
    }
}

// The offset of the CIE of an FDE whose identifier is at an offset.
fn cie_offset(section: FrameSection, id_offset: usize, id: u64) -> Option<u64>
    ensures { result ≡ cie_offset_of section id_offset id }
{
    match section {
        FrameSection::EhFrame => {
            if id <= id_offset as u64 {
                Some(id_offset as u64 - id)
            } else {
                None
            }
        }
        FrameSection::DebugFrame => Some(id),
    }
}

// Reads the rest of an entry whose length was read. `bytes` start with the entry and are the end of a section
// of `size` bytes, and `mid` follows the length.
fn read_contents<'a>(
    section: FrameSection,
    size: usize,
    bytes: &[u8],
    initial: Length,
    mid: &'a [u8],
) -> Result<(CfiEntry<'a>, &'a [u8]), CfiError>
    requires within { length bytes.now ≤ size }
    requires shorter { length mid.now < length bytes.now }
    requires positive { 0 < initial.size }
    requires length_at { LengthAt bytes.now initial.is_64_bit initial.size mid.now }
    ensures found { IfOk result (λ x. EntryAt section size bytes.now x.0 x.1.now) }
    ensures none { OnErr result (NoEntry section size bytes.now) }
    ensures shorter { IfOk result (λ x. length x.1.now < length bytes.now) }
    ensures body { IfOk result (λ x. length x.0.body.now ≤ x.0.end) }
{
    if initial.size > mid.len() as u64 {
        return Err(CfiError::Truncated);
    }
    let (contents, rest) = mid.split_at(initial.size as usize);
    let (id, body) = read_fixed(contents, id_size(section, initial.is_64_bit))?;
    let is_cie = is_cie_id(section, initial.is_64_bit, id);
    let entry = CfiEntry {
        offset: size - bytes.len(),
        cie_offset: if is_cie {
            None
        } else {
            cie_offset(section, size - mid.len(), id)
        },
        is_cie,
        body,
        end: size - rest.len(),
    };
    Ok((entry, rest))
}

// Reads the entry at the start of `bytes`, the end of a section of `size` bytes, and returns it with the
// rest. It is `None` for a length of 0, and the rest is empty if that ends the section.
pub(crate) fn read_entry(
    section: FrameSection,
    size: usize,
    bytes: &[u8],
) -> Result<(Option<CfiEntry<'_>>, &[u8]), CfiError>
    requires { length bytes.now ≤ size }
    ensures found { IfOk result (λ x. PieceAt section size bytes.now x.0 x.1.now) }
    ensures none { OnErr result (NoPiece section size bytes.now) }
    ensures shorter { IfOk result (λ x. length x.1.now < length bytes.now) }
    ensures body { IfOk result (λ x. IfSome x.0 (λ e. length e.body.now ≤ e.end)) }
{
    let (initial, mid) = read_length(bytes)?;
    if initial.size == 0 {
        return match section {
            FrameSection::EhFrame => Ok((None, &[])),
            FrameSection::DebugFrame => Ok((None, mid)),
        };
    }
    let (entry, rest) = read_contents(section, size, bytes, initial, mid)?;
    Ok((Some(entry), rest))
}
