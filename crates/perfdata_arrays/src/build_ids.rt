//! Single entries of a BUILD_ID section.
ghost use Rattle.std.specs.Prelude.{◌≡◌};
ghost use Rattle.std.specs.Option.{option_map};
ghost use Rattle.perfdata_records.specs.DsoKey.{key_in};
ghost use Rattle.perfdata_arrays.specs.BuildIds.{FindsDsoKind, ReadsBuildId, dso_kind_number};

use crate::array::byte_count;
use crate::status::Status;
use linux_perf_data::build_id_event::BuildIdEvent;
use linux_perf_data::event::CpuMode;
use linux_perf_data::source::AppendError;
use linux_perf_data::{DsoKey, Endianness};
use std::alloc::Global;

// The offset of the build ID in an entry, in bytes.
const ID_OFFSET: u64 = 12;

// The offset of the path in an entry, in bytes.
const PATH_OFFSET: u64 = 36;

/// An entry of a BUILD_ID section, with the offsets of its build ID and its path.
#[repr(C)]
#[derive(Clone, Copy, Debug, Default, PartialEq, Eq)]
pub struct BuildId {
    /// The offset of the build ID in the section, in bytes.
    pub id_offset: u64,
    /// The size of the build ID in bytes, at most 20.
    pub id_size: u64,
    /// The offset of the path in the section, in bytes.
    pub path_offset: u64,
    /// The size of the path in bytes, up to its first NUL.
    pub path_size: u64,
    /// The offset of the next entry in the section, in bytes.
    pub next_offset: u64,
    /// The process ID, usually -1.
    pub pid: i32,
    /// The DSO kind of the path: 0 no mapped file, 1 the kernel, 2 a guest kernel, 3 the 32-bit vDSO, 4 the
    /// x32 vDSO, 5 the 64-bit vDSO, 6 the vsyscall page, 7 a kernel module, 8 a file that a program maps.
    pub dso_kind: u32,
    /// The misc flags of the entry's header. The CPU mode is in the lowest three bits.
    pub misc: u16,
    /// 0.
    pub reserved: u16,
    /// 0.
    pub reserved_2: u32,
}

const _: () = prove!(size_of::<BuildId>() == 56);

// The number of a key's DSO kind; 0 for `None`.
fn dso_kind(key: &Option<DsoKey>) -> u32
    ensures { result ≡ dso_kind_number (option_map key_in key.now) }
{
    match key {
        None => 0,
        Some(DsoKey::Kernel) => 1,
        Some(DsoKey::GuestKernel) => 2,
        Some(DsoKey::Vdso32) => 3,
        Some(DsoKey::VdsoX32) => 4,
        Some(DsoKey::Vdso64) => 5,
        Some(DsoKey::Vsyscall) => 6,
        Some(DsoKey::KernelModule { .. }) => 7,
        Some(DsoKey::User { .. }) => 8,
    }
}

/// Parses the entry at byte `offset` of a BUILD_ID section into `out`.
///
/// Returns `Truncated` if the section has no complete entry at `offset`, and otherwise `OutOfMemory` if
/// memory runs out. On an error `out` is unchanged.
pub fn read_build_id(
    alloc: Global,
    endian: Endianness,
    section: &[u8],
    offset: u64,
    out: &mut BuildId,
) -> Status
    ensures { ReadsBuildId endian section.now offset out.old result out.new }
{
    if offset > byte_count(section) {
        return Status::Truncated;
    }
    let mut rest = &section[offset as usize..];
    let entry = match BuildIdEvent::read_with_endian(alloc, endian, &mut rest) {
        Ok(entry) => entry,
        Err(AppendError::Memory) => return Status::OutOfMemory,
        Err(AppendError::Source(_)) => return Status::Truncated,
    };
    let mode = CpuMode::from_misc(entry.header.misc);
    let key = match DsoKey::detect(alloc, entry.file_path.as_slice(), mode) {
        Ok(key) => key,
        Err(_) => return Status::OutOfMemory,
    };
    *out = BuildId {
        id_offset: offset + ID_OFFSET,
        id_size: entry.build_id.len() as u64,
        path_offset: offset + PATH_OFFSET,
        path_size: entry.file_path.len() as u64,
        next_offset: (section.len() - rest.len()) as u64,
        pid: entry._pid,
        dso_kind: dso_kind(&key),
        misc: entry.header.misc,
        reserved: 0,
        reserved_2: 0,
    };
    Status::Success
}

/// Writes the number of the DSO kind of a path, as `dso_kind` of an entry has it, into `out`.
///
/// `misc` has the CPU mode in its lowest three bits, as the header of a mapping or of an entry has it.
/// Returns `OutOfMemory` if memory runs out, and otherwise `Success`. After an error `out` is unchanged.
pub fn find_dso_kind(alloc: Global, path: &[u8], misc: u16, out: &mut u32) -> Status
    ensures { FindsDsoKind path.now misc out.old result out.new }
{
    let Ok(key) = DsoKey::detect(alloc, path, CpuMode::from_misc(misc)) else {
        return Status::OutOfMemory;
    };
    *out = dso_kind(&key);
    Status::Success
}
