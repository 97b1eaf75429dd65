//! Kernel records.

use perfdata_identifiers::place::RecordParseInfo;
use perfdata_sources::event::RecordType;
use perfdata_sources::raw::RawData;

/// A kernel record whose body is borrowed.
#[derive(Clone, Copy, Debug)]
pub struct RawEventRecord<'a> {
    /// The record's type, below 64.
    pub record_type: RecordType,
    /// Bits of the record, among them the processor's mode.
    pub misc: u16,
    /// All bytes after the record header.
    pub body: RawData<'a>,
    /// The offsets of time and identifier, from the attribute of the record's event.
    pub parse_info: RecordParseInfo,
}
