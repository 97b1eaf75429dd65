//! The map from the keys of paths to build ids.
ghost use Rattle.perfdata_records.specs.BuildIdEvent.{build_id_entry_of};
ghost use Rattle.linux_perf_data.specs.BuildIds.{ParsesBuildIds};
ghost use Rattle.linux_perf_data.specs.steps.BuildIds.{InsertsEntry};

use perfdata_base::event::CpuMode;
use perfdata_base::raw::Endianness;
use perfdata_base::source::AppendError;
use perfdata_records::build_id_event::BuildIdEvent;
use perfdata_records::dso_info::DsoInfo;
use perfdata_records::dso_key::DsoKey;
use perfdata_sections::error::Error;
use std::alloc::Global;
use std::collections::HashMap;

// Maps the key of an entry's path to the path and the build id, if the path has a key.
fn insert_entry(
    alloc: Global,
    ids: &mut HashMap<DsoKey, DsoInfo>,
    entry: BuildIdEvent,
) -> Result<(), Error>
    ensures { InsertsEntry ids.old (build_id_entry_of entry) result ids.new }
{
    let BuildIdEvent {
        header,
        build_id,
        file_path,
        ..
    } = entry;
    let mode = CpuMode::from_misc(header.misc);
    let key = match DsoKey::detect(alloc, file_path.as_slice(), mode)? {
        Some(key) => key,
        None => return Ok(()),
    };
    let info = DsoInfo {
        path: file_path,
        build_id,
    };
    ids.insert(key, info)?;
    Ok(())
}

// The build ids of a section: for each key the path and the build id of the last entry with it.
pub(crate) fn parse_build_ids(
    alloc: Global,
    endian: Endianness,
    bytes: &[u8],
) -> Result<HashMap<DsoKey, DsoInfo>, Error>
    ensures { ParsesBuildIds endian bytes.now result }
{
    let mut rest = bytes;
    let mut ids = HashMap::new(alloc);
    'entries: while !rest.is_empty() {
        let entry = match BuildIdEvent::read_with_endian(alloc, endian, &mut rest) {
            Ok(entry) => entry,
            Err(AppendError::Memory) => return Err(Error::Memory),
            Err(AppendError::Source(_)) => return Ok(ids),
        };
        insert_entry(alloc, &mut ids, entry)?;
    }
    Ok(ids)
}
