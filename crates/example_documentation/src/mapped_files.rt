//! The function of the documentation of mapped files.

use code_files::MappedFiles;
use perfdata_base::raw::RawData;
use perfdata_events::mmap::MmapRecord;
use perfdata_spaces::mapping::Mapping;
use std::alloc::{AllocError, Global};

/// Returns the name of the function at an address in the mapping with an index, if it is known.
pub fn function_name<'a>(
    files: &'a mut MappedFiles<'_>,
    index: usize,
    mapping: &Mapping,
    address: u64,
) -> Result<Option<&'a [u8]>, AllocError> {
    let Some(number) = files.read_symbols(index, mapping)? else {
        return Ok(None);
    };
    match files.get(number) {
        Some(file) => Ok(file.name(mapping.file_offset(address))),
        None => Ok(None),
    }
}

/// Returns a mapping, at the address 0, of a file with a function of 2 bytes at offset 0x78 and one of 4
/// bytes after it.
pub fn mapping(alloc: Global) -> Result<Mapping, AllocError> {
    Mapping::of_mmap(
        alloc,
        &MmapRecord {
            pid: 7,
            tid: 7,
            address: 0,
            length: 0x1000,
            page_offset: 0,
            is_data: false,
            path: RawData::Single(b"/functions.elf"),
        },
    )
}
