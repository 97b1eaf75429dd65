//! Symbols.

/// A symbol. It contains the addresses `a` with `start <= a` and `a - start < size`.
#[derive(Clone, Copy, Debug, PartialEq, Eq)]
pub struct Symbol {
    /// The first address.
    pub start: u64,
    /// The size in bytes.
    pub size: u64,
    /// The offset of the name's first byte in the names of the table.
    pub name_start: usize,
    /// The offset of the end of the name.
    pub name_end: usize,
}
