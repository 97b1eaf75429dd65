//! The build ids that a recording has.

use code_files::BuildIds;
use linux_perf_data::build_id_event::BuildIdEvent;
use linux_perf_data::raw::Endianness;
use linux_perf_data::{Error, PerfFile, RawUserRecord};
use std::alloc::Global;

// The size of a record header in bytes.
const HEADER_SIZE: usize = 8;

// Adds the build ids of a recording's metadata.
pub(crate) fn add_recorded_ids(
    alloc: Global,
    perf_file: &PerfFile,
    build_ids: &mut BuildIds,
) -> Result<(), Error> {
    for object in perf_file.build_ids(alloc)?.values() {
        let path = object.path.to_vec(alloc)?;
        build_ids.insert(path, object.build_id.to_vec(alloc)?)?;
    }
    Ok(())
}

// Adds the build id of a HEADER_BUILD_ID record, by which pipes have them. Its fields are those of an entry
// of the section BUILD_ID after the entry's header.
pub(crate) fn add_recorded_id(
    alloc: Global,
    record: &RawUserRecord<'_>,
    build_ids: &mut BuildIds,
) -> Result<(), Error> {
    let size = u16::try_from(HEADER_SIZE.saturating_add(record.body.len()));
    let mut entry = Vec::new(alloc);
    entry.extend_from_slice(&[0; 4])?;
    entry.extend_from_slice(&record.misc.to_le_bytes())?;
    entry.extend_from_slice(&size.unwrap_or(u16::MAX).to_le_bytes())?;
    record.body.append_to(&mut entry)?;
    let mut bytes = entry.as_slice();
    let event = BuildIdEvent::read_with_endian(alloc, Endianness::LittleEndian, &mut bytes)?;
    build_ids.insert(event.file_path, event.build_id)?;
    Ok(())
}
