//! What is mapped at an address.

use perfdata_base::raw::RawData;
use perfdata_events::call_chain::CallContext;
use perfdata_events::event::EventRecord;
use perfdata_events::mmap::MmapRecord;
use perfdata_spaces::address_spaces::AddressSpaces;
use std::alloc::{AllocError, Global};

/// Returns the offset of an address of a process in the file that records map there.
pub fn offset_in_file(
    alloc: Global,
    records: &[(u16, EventRecord<'_>)],
    pid: i32,
    address: u64,
) -> Result<Option<u64>, AllocError> {
    let mut spaces = AddressSpaces::new(alloc);
    for (misc, record) in records {
        spaces.apply(*misc, record)?;
    }
    let mapping = spaces.find(pid, address, CallContext::User);
    Ok(mapping.map(|mapping| mapping.file_offset(address)))
}

/// A record of process 7, which maps a page of code.
pub fn mapping<'a>() -> EventRecord<'a> {
    EventRecord::Mmap(MmapRecord {
        pid: 7,
        tid: 7,
        address: 0x40_0000,
        length: 0x1000,
        page_offset: 0x2000,
        is_data: false,
        path: RawData::Single(b"/bin/true"),
    })
}
