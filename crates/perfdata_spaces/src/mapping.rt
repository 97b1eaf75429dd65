//! Mappings of files and of kernel symbols.

ghost use Rattle.std.specs.Prelude.{◌≡◌, ◌≢◌, [], IfOk, OnErr};
ghost use Rattle.perfdata_sources.specs.Raw.{bytes_of};
ghost use Rattle.perfdata_spaces.specs.Mappings.{inode_of, build_id_of};

use perfdata_base::raw::RawData;
use perfdata_events::kernel::KsymbolRecord;
use perfdata_events::mmap::MmapRecord;
use perfdata_events::mmap2::{Mmap2FileId, Mmap2InodeAndVersion, Mmap2Record};
use std::alloc::{AllocError, Global};

/// What is mapped.
#[derive(Clone, Copy, Debug, PartialEq, Eq)]
pub enum MappingKind {
    /// A file, or memory without a file, as code.
    Code,
    /// A file, or memory without a file, that isn't executable.
    Data,
    /// A symbol that the kernel registered, as a BPF program. The path is its name.
    KernelSymbol,
}

/// The bit of executable memory in a mapping's protection (`PROT_EXEC` of Linux's `mman.h`).
pub const PROTECTION_EXEC: u32 = 4;

/// A mapping of a file or of a kernel symbol.
#[derive(Debug, Drop)]
pub struct Mapping {
    /// The process that mapped it.
    pub pid: i32,
    /// The start address.
    pub start: u64,
    /// The length in bytes.
    pub length: u64,
    /// The offset of the start in the file, in bytes.
    pub page_offset: u64,
    /// What is mapped.
    pub kind: MappingKind,
    /// The protection of the memory (`PROT_..` of Linux's `mman.h`), as bits. A record without it says
    /// whether the memory is executable.
    pub protection: u32,
    /// The flags of the mapping (`MAP_..` of Linux's `mman.h`), as bits.
    pub flags: u32,
    /// The device and the inode of the file, if they are known.
    pub inode: Option<Mmap2InodeAndVersion>,
    /// The build id of the file, which is empty if it isn't known.
    pub build_id: Vec<u8>,
    /// The path of the file.
    pub path: Vec<u8>,
}

// A copy of bytes. Memory runs out only if there are bytes to copy.
pub(crate) fn to_vec(alloc: Global, bytes: RawData<'_>) -> Result<Vec<u8>, AllocError>
    ensures ok { IfOk result (λ copy. copy.items ≡ bytes_of bytes.entry) }
    ensures memory { OnErr result (bytes_of bytes.entry ≢ []) }
{
    if bytes.is_empty() {
        return Ok(Vec::new(alloc));
    }
    bytes.as_slice(alloc)?.into_owned(alloc)
}

impl MappingKind {
    ghost use Rattle.perfdata_spaces.specs.Mappings.{kind_of};

    // The kind of a mapping that isn't a kernel symbol.
    fn new(is_data: bool) -> MappingKind
        ensures { result ≡ kind_of is_data }
    {
        if is_data {
            MappingKind::Data
        } else {
            MappingKind::Code
        }
    }
}

// The inode of a file, if the record has it.
fn file_inode(file_id: Mmap2FileId<'_>) -> Option<Mmap2InodeAndVersion>
    ensures { result ≡ inode_of file_id.entry }
{
    match file_id {
        Mmap2FileId::InodeAndVersion(inode) => Some(inode),
        Mmap2FileId::BuildId(_) => None,
    }
}

// The build id of a file, empty if the record has none.
fn file_build_id(alloc: Global, file_id: Mmap2FileId<'_>) -> Result<Vec<u8>, AllocError>
    ensures ok { IfOk result (λ id. id.items ≡ build_id_of file_id.entry) }
    ensures memory { OnErr result (build_id_of file_id.entry ≢ []) }
{
    match file_id {
        Mmap2FileId::InodeAndVersion(_) => Ok(Vec::new(alloc)),
        Mmap2FileId::BuildId(id) => to_vec(alloc, id),
    }
}

impl Mapping {
    ghost use Rattle.perfdata_spaces.specs.Mappings.{mapping_value, mapping_of_mmap, mapping_of_mmap2};
    ghost use Rattle.perfdata_spaces.specs.Mappings.{mapping_of_ksymbol, HasBytes, file_offset};

    /// Returns the offset of an address in the file, in bytes, modulo 2^64.
    pub fn file_offset(&self, address: u64) -> u64
        ensures { result ≡ file_offset (mapping_value self.now) address }
    {
        address
            .wrapping_sub(self.start)
            .wrapping_add(self.page_offset)
    }

    /// Returns the mapping that a record describes. Fails if memory for its path runs out.
    pub fn of_mmap(alloc: Global, record: &MmapRecord<'_>) -> Result<Mapping, AllocError>
        ensures ok { IfOk result (λ mapping. mapping_value mapping ≡ mapping_of_mmap «record».now) }
        ensures memory { OnErr result (HasBytes (mapping_of_mmap «record».now)) }
    {
        Ok(Mapping {
            pid: record.pid,
            start: record.address,
            length: record.length,
            page_offset: record.page_offset,
            kind: MappingKind::new(record.is_data),
            protection: if record.is_data { 0 } else { PROTECTION_EXEC },
            flags: 0,
            inode: None,
            build_id: Vec::new(alloc),
            path: to_vec(alloc, record.path)?,
        })
    }

    /// Returns the mapping that a record describes. Fails if memory for its path or its build id runs out.
    pub fn of_mmap2(alloc: Global, record: &Mmap2Record<'_>) -> Result<Mapping, AllocError>
        ensures ok { IfOk result (λ mapping. mapping_value mapping ≡ mapping_of_mmap2 «record».now) }
        ensures memory { OnErr result (HasBytes (mapping_of_mmap2 «record».now)) }
    {
        Ok(Mapping {
            pid: record.pid,
            start: record.address,
            length: record.length,
            page_offset: record.page_offset,
            kind: MappingKind::new(record.is_data),
            protection: record.protection,
            flags: record.flags,
            inode: file_inode(record.file_id),
            build_id: file_build_id(alloc, record.file_id)?,
            path: to_vec(alloc, record.path)?,
        })
    }

    /// Returns the range of a kernel symbol. Fails if memory for its name runs out.
    pub fn of_ksymbol(alloc: Global, record: &KsymbolRecord<'_>) -> Result<Mapping, AllocError>
        ensures ok { IfOk result (λ mapping. mapping_value mapping ≡ mapping_of_ksymbol «record».now) }
        ensures memory { OnErr result (HasBytes (mapping_of_ksymbol «record».now)) }
    {
        Ok(Mapping {
            pid: 0,
            start: record.address,
            length: record.length as u64,
            page_offset: 0,
            kind: MappingKind::KernelSymbol,
            protection: PROTECTION_EXEC,
            flags: 0,
            inode: None,
            build_id: Vec::new(alloc),
            path: to_vec(alloc, record.name)?,
        })
    }
}
