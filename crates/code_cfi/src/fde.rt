//! Frame description entries (FDE): the call frame information of a range of addresses.
ghost use Rattle.std.specs.Prelude.{◌≡◌, ◌≤◌, ◌<◌, length, IfOk, OnErr};
ghost use Rattle.code_cfi.specs.Fdes.{DataAt, FdeAt};
ghost use Rattle.code_cfi.specs.steps.Fdes.{NoData, NoFde};

use crate::byte_range::ByteRange;
use crate::cie::Cie;
use crate::entry::CfiEntry;
use crate::error::CfiError;
use crate::leb128::read_block;
use crate::pointers::{read_encoded, read_pointer};

/// A frame description entry (FDE).
#[derive(Clone, Copy, Debug, PartialEq, Eq)]
pub struct Fde {
    /// The first address that it describes.
    pub start: u64,
    /// The number of addresses that it describes.
    pub size: u64,
    /// The index of its CIE among those of the table.
    pub cie: usize,
    /// The instructions that make its rows from the initial row.
    pub instructions: ByteRange,
}

// Skips the augmentation data, if there are any.
fn skip_data(has_data: bool, bytes: &[u8]) -> Result<&[u8], CfiError>
    ensures found { IfOk result (λ rest. DataAt has_data bytes.now rest.now) }
    ensures none { OnErr result (NoData has_data bytes.now) }
    ensures shorter { IfOk result (λ rest. length rest.now ≤ length bytes.now) }
{
    if !has_data {
        return Ok(bytes);
    }
    let (_, rest) = read_block(bytes)?;
    Ok(rest)
}

// Reads the FDE that an entry is. `cie` is its CIE, which has this index, and `address` is that of the
// section.
pub(crate) fn read_fde(
    entry: &CfiEntry<'_>,
    cie: &Cie,
    index: usize,
    address: u64,
) -> Result<Fde, CfiError>
    requires { length entry.now.body.now ≤ entry.now.end }
    ensures found { IfOk result (λ f. FdeAt address entry.now cie.now f) }
    ensures none { OnErr result (NoFde address entry.now cie.now) }
    ensures cie { IfOk result (λ f. f.cie ≡ index) }
{
    let encoding = cie.augmentation.pointer_encoding;
    let position = address.wrapping_add((entry.end - entry.body.len()) as u64);
    let (start, after_start) = read_pointer(entry.body, encoding, position)?;
    let (size, after_size) = read_encoded(after_start, encoding)?;
    let rest = skip_data(cie.augmentation.has_data, after_size)?;
    Ok(Fde {
        start,
        size,
        cie: index,
        instructions: ByteRange {
            start: entry.end - rest.len(),
            end: entry.end,
        },
    })
}
