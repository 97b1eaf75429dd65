//! Mappings, as plain numbers.
ghost use Rattle.std.specs.Prelude.{◌≡◌};
ghost use Rattle.perfdata_spaces.specs.Mappings.{mapping_value};
ghost use Rattle.perfdata_stack_arrays.specs.Mappings.{kind_code, mapping_entry_of, padded_build_id};

use perfdata_arrays::array::copy_prefix;
use perfdata_spaces::mapping::{Mapping, MappingKind};

// The maximum size of a build id in bytes.
const MAX_BUILD_ID_SIZE: usize = 20;

/// What is mapped, as plain numbers: a file (`PERF_RECORD_MMAP` or `PERF_RECORD_MMAP2` of Linux's
/// `perf_event.h`), or a symbol of the kernel (`PERF_RECORD_KSYMBOL`). What it doesn't have is 0.
#[repr(C)]
#[derive(Clone, Copy, Debug, Default, PartialEq, Eq)]
pub struct StackMapping {
    /// The start address.
    pub start: u64,
    /// The length in bytes.
    pub length: u64,
    /// The offset of the start in the file, in bytes.
    pub page_offset: u64,
    /// The offset of the path, or of the symbol's name, in the text, in bytes.
    pub path_offset: u64,
    /// The size of the path in bytes.
    pub path_size: u64,
    /// The process.
    pub pid: i32,
    /// What is mapped: 0 code, 1 data, 2 a symbol of the kernel.
    pub kind: u32,
    /// The protection of the memory, as bits. That of a record without it is PROT_EXEC (4) for code.
    pub protection: u32,
    /// The flags of the mapping, as bits.
    pub flags: u32,
    /// The build id of the file, and zeros after it.
    pub build_id: [u8; 20],
    /// The size of the build id in bytes.
    pub build_id_size: u32,
}

const _: () = prove!(size_of::<StackMapping>() == 80);

// The number of a kind.
fn kind_code(kind: MappingKind) -> u32
    ensures { result ≡ kind_code kind }
{
    match kind {
        MappingKind::Code => 0,
        MappingKind::Data => 1,
        MappingKind::KernelSymbol => 2,
    }
}

// The bytes of a build id, and zeros after them.
fn padded_build_id(id: &[u8]) -> [u8; 20]
    ensures { result ≡ padded_build_id id.now }
{
    let mut bytes = [0u8; MAX_BUILD_ID_SIZE];
    copy_prefix(&mut bytes, id);
    bytes
}

// The entry of a mapping whose path is at this offset in the text.
pub(crate) fn mapping_entry(mapping: &Mapping, path_offset: usize) -> StackMapping
    ensures { result ≡ mapping_entry_of path_offset (mapping_value mapping.now) }
{
    let build_id = padded_build_id(mapping.build_id.as_slice());
    StackMapping {
        start: mapping.start,
        length: mapping.length,
        page_offset: mapping.page_offset,
        path_offset: path_offset as u64,
        path_size: mapping.path.len() as u64,
        pid: mapping.pid,
        kind: kind_code(mapping.kind),
        protection: mapping.protection,
        flags: mapping.flags,
        build_id,
        build_id_size: MAX_BUILD_ID_SIZE.min(mapping.build_id.len()) as u32,
    }
}
