//! Lists a file into memory.
use linux_perf_data::source::PlacedSource;
use perfdata_listing::{ListFault, list_file};
use std::alloc::Global;

/// The lines of a file's records.
pub fn listing<C: PlacedSource + Drop>(alloc: Global, file: C) -> Result<Vec<u8>, ListFault> {
    let mut lines = Vec::new(alloc);
    list_file(alloc, file, &mut lines)?;
    Ok(lines)
}
