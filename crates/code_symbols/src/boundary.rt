//! Boundaries of the address space, each with the index of the symbol up to the next boundary.

// From `start` up to the start of the next boundary, each address has this symbol, by its index.
#[derive(Clone, Copy)]
pub struct Boundary {
    pub(crate) start: u64,
    pub(crate) symbol: Option<usize>,
}
