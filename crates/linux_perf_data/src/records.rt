//! The records: framing, the iterator, and the check for buffered records.
pub(crate) mod buffered;
pub(crate) mod framing;
pub(crate) mod input;
pub(crate) mod iter;
