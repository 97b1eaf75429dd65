//! Opening a file.
pub(crate) mod feature_data;
pub(crate) mod opening;
pub(crate) mod unfinished;
