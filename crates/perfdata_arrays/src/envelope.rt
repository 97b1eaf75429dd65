//! What an entry has beside the fields of its record's body.

/// What an entry has beside the fields of its record's body.
#[derive(Clone, Copy, Debug)]
pub struct EntryEnvelope {
    /// The offset of the record in bytes, counted from the first record.
    pub offset: u64,
    /// The time at which the record was written, in nanoseconds of the recording's clock; 0 if it has none.
    pub timestamp: u64,
    /// The offset of the body in bytes, counted from the start of the input.
    pub body_offset: u64,
    /// The misc flags of the record header.
    pub misc: u16,
}
