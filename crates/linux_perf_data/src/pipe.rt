//! Opening a pipe.
pub(crate) mod opening;
