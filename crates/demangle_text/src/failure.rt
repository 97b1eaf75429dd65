//! Why a name is not demangled.
ghost use Rattle.std.specs.Prelude.{◌≡◌};
ghost use Rattle.demangle_text.specs.declared.failure.Failure.TheVariants.{Memory as OfMemory};

use std::alloc::{AllocError, AllocFailed};
use thiserror::Error;

/// Why a name is not demangled.
#[derive(Clone, Copy, Debug, Drop, PartialEq, Eq, Error)]
pub enum Failure {
    /// The name isn't in the grammar.
    #[error("the name isn't in the grammar")]
    Grammar,
    /// The name, its text or the work for it exceeds a limit.
    #[error("the name exceeds a limit")]
    Limit,
    /// Out of memory.
    #[error("out of memory")]
    Memory,
}

impl From<AllocError> for Failure {
    ghost from_gives = { λ _ made. made ≡ OfMemory };

    fn from(_error: AllocError) -> Failure {
        Failure::Memory
    }
}

impl<T: Drop> From<AllocFailed<T>> for Failure {
    ghost from_gives = { λ _ made. made ≡ OfMemory };

    fn from(_failed: AllocFailed<T>) -> Failure {
        Failure::Memory
    }
}
