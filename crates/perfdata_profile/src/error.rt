//! Why a sample isn't counted.

use thiserror::Error;

/// Why a sample isn't counted.
#[derive(Clone, Copy, Debug, Drop, PartialEq, Eq, Error)]
pub enum ProfileError {
    /// The number of all samples or the sum of all weights is 2^63 or more.
    #[error("the sum of all weights is 2^63 or more")]
    Overflow,
    /// Out of memory.
    #[error("out of memory")]
    Memory,
}
