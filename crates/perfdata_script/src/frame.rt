//! The text of a frame.

use crate::layout::UNKNOWN;
use std::io;
use std::io::Write;

/// A symbol, and an address in its code.
#[derive(Clone, Copy, Debug)]
pub struct SymbolOffset<'a> {
    /// The name.
    pub name: &'a [u8],
    /// How far the address is after the start, modulo 2^64.
    pub offset: u64,
}

/// What the text of a frame says.
#[derive(Clone, Copy, Debug)]
pub struct FrameText<'a> {
    /// The address: in a chain that in the file, see [`paths::file_address`](crate::paths::file_address).
    pub address: u64,
    /// The symbol, if there is one.
    pub symbol: Option<SymbolOffset<'a>>,
    /// The path of the file.
    pub path: &'a [u8],
}

/// Appends the text of a frame: its address, symbol and file.
///
/// Fails if memory runs out.
pub fn push_frame(text: &mut Vec<u8>, frame: &FrameText<'_>) -> io::Result<()> {
    write!(text, "{:>16x} ", frame.address)?;
    match frame.symbol {
        Some(SymbolOffset { name, offset }) => {
            text.extend_from_slice(name)?;
            write!(text, "+{offset:#x}")?;
        }
        None => text.extend_from_slice(UNKNOWN)?,
    }
    text.extend_from_slice(b" (")?;
    text.extend_from_slice(frame.path)?;
    Ok(text.push(b')')?)
}
