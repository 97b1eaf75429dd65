//! The mappings of files into memory: those of a perf.data file in pages, and those of a pipe.
ghost use Rattle.std.specs.Prelude.{◌≡◌, ◌+◌, ◌<◌, ◌^◌, replicate, true};
ghost use Rattle.linux_perf_data.specs.RecordEntries.{with_prefix};
ghost use Rattle.perfdata_sources.specs.Raw.{bytes_of};
ghost use Rattle.perfdata_arrays.specs.Mappings.{ReadsMappingPage, ReadsPipeMappings, event_mapping};
ghost use Rattle.perfdata_arrays.specs.Mappings.{event_mappings, identity_of, is_mapping_type, mmap_entry};
ghost use Rattle.perfdata_arrays.specs.Mappings.{mmap2_entry};

use crate::envelope::EntryEnvelope;
use crate::event_entries::{EventEntries, EventEntry, write_option};
use crate::pages::{PageResult, file_page, pipe_page};
use linux_perf_data::event::RecordType;
use linux_perf_data::in_memory::position::RecordPosition;
use linux_perf_data::raw::RawData;
use perfdata_events::event::EventRecord;
use perfdata_events::mmap::MmapRecord;
use perfdata_events::mmap2::{Mmap2FileId, Mmap2Record};
use std::alloc::Global;

// The maximum size of a build id in bytes.
const MAX_BUILD_ID_SIZE: usize = 20;

/// A mapping as plain numbers: `PERF_RECORD_MMAP` or `PERF_RECORD_MMAP2` of Linux's `perf_event.h`. What it
/// doesn't have is 0.
#[repr(C)]
#[derive(Clone, Copy, Debug, Default, PartialEq, Eq)]
pub struct MappingEntry {
    /// The offset of the record in bytes, counted from the first record.
    pub offset: u64,
    /// The time at which the record was written, in nanoseconds of the recording's clock; 0 if it has none.
    pub timestamp: u64,
    /// The start address.
    pub address: u64,
    /// The length in bytes.
    pub length: u64,
    /// The offset in the file, in bytes.
    pub page_offset: u64,
    /// The inode of the file, if its build id isn't recorded.
    pub inode: u64,
    /// The generation of the inode.
    pub inode_generation: u64,
    /// The offset of the path in bytes, counted from the start of the input.
    pub path_offset: u64,
    /// The size of the path in bytes.
    pub path_size: u64,
    /// The record's type: 1 (MMAP) or 10 (MMAP2).
    pub kind: u32,
    /// The major number of the file's device.
    pub major: u32,
    /// The minor number of the file's device.
    pub minor: u32,
    /// The protection of the mapping, as bits.
    pub protection: u32,
    /// The flags of the mapping, as bits.
    pub flags: u32,
    /// The process.
    pub pid: i32,
    /// The thread.
    pub tid: i32,
    /// The build id of the file, and zeros after it.
    pub build_id: [u8; 20],
    /// The size of the build id in bytes.
    pub build_id_size: u8,
    /// 1 if the mapping isn't executable, otherwise 0.
    pub is_data: u8,
    /// The misc flags of the record header. The CPU mode is in the lowest three bits.
    pub misc: u16,
    /// 0.
    pub reserved: u32,
}

const _: () = prove!(size_of::<MappingEntry>() == 128);

// The identity of a file: its device and inode, or its build id.
#[derive(Clone, Copy)]
struct FileIdentity {
    inode: u64,
    inode_generation: u64,
    major: u32,
    minor: u32,
    build_id: [u8; 20],
    build_id_size: u8,
}

// The bytes of a build id, and zeros after them.
fn padded_build_id(id: RawData<'_>) -> [u8; 20]
    ensures { result ≡ with_prefix (bytes_of id.entry) (replicate 20 0) }
{
    let mut bytes = [0u8; MAX_BUILD_ID_SIZE];
    let count = MAX_BUILD_ID_SIZE.min(id.len());
    let mut rest = id;
    match rest.read_exact(&mut bytes[..count]) {
        Ok(()) => bytes,
        Err(_) => bytes,
    }
}

// The identity of a file.
fn file_identity(id: &Mmap2FileId<'_>) -> FileIdentity
    ensures { result ≡ identity_of id.now }
{
    match id {
        Mmap2FileId::InodeAndVersion(version) => FileIdentity {
            inode: version.inode,
            inode_generation: version.inode_generation,
            major: version.major,
            minor: version.minor,
            build_id: [0; MAX_BUILD_ID_SIZE],
            build_id_size: 0,
        },
        Mmap2FileId::BuildId(bytes) => {
            let build_id = padded_build_id(*bytes);
            FileIdentity {
                inode: 0,
                inode_generation: 0,
                major: 0,
                minor: 0,
                build_id,
                build_id_size: MAX_BUILD_ID_SIZE.min(bytes.len()) as u8,
            }
        }
    }
}

// The entry of a mapping (1), whose path is after 32 bytes of the body.
fn mmap_entry(envelope: EntryEnvelope, mapping: &MmapRecord<'_>) -> MappingEntry
    requires { envelope.body_offset + 64 < 2 ^ 64 }
    ensures { result ≡ mmap_entry envelope mapping.now }
{
    MappingEntry {
        offset: envelope.offset,
        timestamp: envelope.timestamp,
        address: mapping.address,
        length: mapping.length,
        page_offset: mapping.page_offset,
        inode: 0,
        inode_generation: 0,
        path_offset: envelope.body_offset + 32,
        path_size: mapping.path.len() as u64,
        kind: RecordType::MMAP.0,
        major: 0,
        minor: 0,
        protection: 0,
        flags: 0,
        pid: mapping.pid,
        tid: mapping.tid,
        build_id: [0; MAX_BUILD_ID_SIZE],
        build_id_size: 0,
        is_data: mapping.is_data as u8,
        misc: envelope.misc,
        reserved: 0,
    }
}

// The entry of a mapping with the identity of its file (10), whose path is after 64 bytes of the body.
fn mmap2_entry(envelope: EntryEnvelope, mapping: &Mmap2Record<'_>) -> MappingEntry
    requires { envelope.body_offset + 64 < 2 ^ 64 }
    ensures { result ≡ mmap2_entry envelope mapping.now }
{
    let file = file_identity(&mapping.file_id);
    let build_id = file.build_id;
    MappingEntry {
        offset: envelope.offset,
        timestamp: envelope.timestamp,
        address: mapping.address,
        length: mapping.length,
        page_offset: mapping.page_offset,
        inode: file.inode,
        inode_generation: file.inode_generation,
        path_offset: envelope.body_offset + 64,
        path_size: mapping.path.len() as u64,
        kind: RecordType::MMAP2.0,
        major: file.major,
        minor: file.minor,
        protection: mapping.protection,
        flags: mapping.flags,
        pid: mapping.pid,
        tid: mapping.tid,
        build_id,
        build_id_size: file.build_id_size,
        is_data: mapping.is_data as u8,
        misc: envelope.misc,
        reserved: 0,
    }
}

/// Returns the entry of a parsed mapping, and `None` for another record.
pub fn event_mapping(envelope: EntryEnvelope, event: &EventRecord<'_>) -> Option<MappingEntry>
    requires { envelope.body_offset + 64 < 2 ^ 64 }
    ensures { result ≡ event_mapping envelope event.now }
{
    match event {
        EventRecord::Mmap(mapping) => Some(mmap_entry(envelope, mapping)),
        EventRecord::Mmap2(mapping) => Some(mmap2_entry(envelope, mapping)),
        _ => None,
    }
}

impl EventEntry for MappingEntry {
    ghost has_type = { is_mapping_type };

    ghost entries_of = { event_mappings };

    ghost is_single = { true };

    fn is_of_type(record_type: u32) -> bool {
        record_type == RecordType::MMAP.0 || record_type == RecordType::MMAP2.0
    }

    fn entry_count(event: &EventRecord<'_>) -> usize {
        match event {
            EventRecord::Mmap(_) => 1,
            EventRecord::Mmap2(_) => 1,
            _ => 0,
        }
    }

    fn write(envelope: EntryEnvelope, event: &EventRecord<'_>, mappings: &mut [MappingEntry]) {
        write_option(event_mapping(envelope, event), mappings);
    }
}

/// Writes the entries of a perf.data file's mappings from a position on, and moves the position past them
/// (MMAP and MMAP2).
///
/// Writes at most as many entries as `mappings` has capacity for, and reads no record after them. The
/// elements after the last written entry are unchanged. A record that can't be parsed is left out.
///
/// If `count` is the capacity and the status is `Success`, a call with the moved position writes the entries
/// that follow. If `count` is smaller and the status is `Success`, there are no more.
///
/// The errors are those of `records::file_records`.
pub fn file_mappings(
    alloc: Global,
    bytes: &[u8],
    position: &mut RecordPosition,
    mappings: &mut [MappingEntry],
) -> PageResult
    ensures { ReadsMappingPage bytes.now position.old mappings.old result position.new mappings.new }
{
    file_page::<EventEntries<MappingEntry>>(alloc, bytes, position, mappings, &mut [])
}

/// Writes the entries of a perf.data pipe's mappings, up to the capacity of `mappings`.
///
/// The records are those after the metadata records that open the pipe. `count` counts all entries. The
/// elements after the last written one are unchanged. If the pipe doesn't open, `count` is 0. At an error, it
/// counts the entries of the records before it. A record that can't be parsed is left out.
///
/// The errors are those of `records::pipe_records`.
pub fn pipe_mappings(alloc: Global, bytes: &[u8], mappings: &mut [MappingEntry]) -> PageResult
    ensures { ReadsPipeMappings bytes.now mappings.old result mappings.new }
{
    pipe_page::<EventEntries<MappingEntry>>(alloc, bytes, mappings, &mut [])
}
