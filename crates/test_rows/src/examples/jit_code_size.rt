//! Computes the size of the code in a jitdump.
use linux_perf_data::jitdump::{JitDumpError, JitDumpReader, JitDumpRecord};
use linux_perf_data::source::Counted;
use std::alloc::Global;
use std::io::Read;

/// The number of bytes of code in a jitdump file, before its first incomplete record.
pub fn code_size<R: Read + Drop>(alloc: Global, file: R) -> Result<u64, JitDumpError> {
    let mut reader = JitDumpReader::new(alloc, Counted::new(file))?;
    let mut size = 0u64;
    for _ in 0..u64::MAX {
        let Some(record) = reader.next_record()? else {
            break;
        };
        if let JitDumpRecord::CodeLoad(load) = record.parse(alloc)? {
            size = size.saturating_add(load.code_bytes.len() as u64);
        }
    }
    Ok(size)
}
