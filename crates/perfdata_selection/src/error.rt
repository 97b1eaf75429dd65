//! Why the values of options select nothing.

use std::alloc::{AllocError, AllocFailed};
use thiserror::Error;

/// Why the values of options select nothing.
#[derive(Clone, Copy, Debug, Drop, PartialEq, Eq, Error)]
pub enum SelectionError {
    /// The value of `--pid` is no list of numbers.
    #[error("--pid: not a list of process ids")]
    Pids,
    /// The value of `--tid` is no list of numbers.
    #[error("--tid: not a list of thread ids")]
    Tids,
    /// The value of `--cpu` is no list of numbers and ranges.
    #[error("--cpu: not a list of processors such as 0-3,7")]
    Cpus,
    /// The value of `--time` has no known form.
    #[error("--time: not a time such as 1.5,2 or ,2 or 10%-20% or 10%/2")]
    Times,
    /// Out of memory.
    #[error("out of memory")]
    Memory,
}

impl From<AllocError> for SelectionError {
    fn from(_: AllocError) -> SelectionError {
        SelectionError::Memory
    }
}

impl<T: Drop> From<AllocFailed<T>> for SelectionError {
    fn from(_: AllocFailed<T>) -> SelectionError {
        SelectionError::Memory
    }
}
