//! The attributes of a perf.data file or pipe, with their names and IDs.
ghost use Rattle.std.specs.Prelude.{◌≡◌};
ghost use Rattle.perfdata_arrays.specs.Attrs.{ReadsFileAttrs, ReadsPipeAttrs};
ghost use Rattle.perfdata_arrays.specs.steps.Attrs.{AreEndOffsets, ReadsAttrs};
ghost use Rattle.perfdata_arrays.specs.Attrs.{WritesAttrsOrPrefix, attr_entry_at, has_name_number};
ghost use Rattle.perfdata_arrays.specs.Attrs.{name_bytes, no_attrs_with};

use crate::array::{copy_entries, write_entry};
use crate::metadata::{Metadata, file_metadata, pipe_metadata};
use crate::status::Status;
use linux_perf_data::AttributeDescription;
use std::alloc::Global;

/// An attribute as plain numbers (`perf_event_attr` in Linux's `perf_event.h`), with the positions of its
/// name and its IDs.
#[repr(C)]
#[derive(Clone, Copy, Debug, Default, PartialEq, Eq)]
pub struct Attr {
    /// The event within its type.
    pub config: u64,
    /// The sample period in events, or with the flag FREQ the sample frequency in samples per second.
    pub sample_period_or_freq: u64,
    /// The fields that a sample contains, as a bit mask.
    pub sample_type: u64,
    /// The fields that a counter reading contains, as a bit mask.
    pub read_format: u64,
    /// What is recorded beside samples, and how, as a bit mask.
    pub flags: u64,
    /// A second number of the event; for a breakpoint its address.
    pub config1: u64,
    /// A third number of the event; for a breakpoint its length in bytes.
    pub config2: u64,
    /// The branches that a branch stack contains, as a bit mask.
    pub branch_sample_type: u64,
    /// The user registers that a sample contains, as a bit mask.
    pub sample_regs_user: u64,
    /// The registers at the interrupt that a sample contains, as a bit mask.
    pub sample_regs_intr: u64,
    /// The data that a signal of the event carries.
    pub sig_data: u64,
    /// A fourth number of the event.
    pub config3: u64,
    /// The offset of its name in the bytes of all names.
    pub name_offset: u64,
    /// The size of its name in bytes; 0 if it has none.
    pub name_size: u64,
    /// The index of its first ID in the IDs of all attributes.
    pub ids_start: u64,
    /// The number of its IDs.
    pub ids_count: u64,
    /// The type of event: 0 hardware, 1 software, 2 tracepoint, 3 cache, 4 raw, 5 breakpoint, otherwise a
    /// monitoring unit.
    pub type_: u32,
    /// The size of the attribute in bytes.
    pub size: u32,
    /// The number of samples, or with the flag WATERMARK of bytes, before the recorder is woken.
    pub wakeup_events: u32,
    /// The type of breakpoint: 1 read, 2 write, 3 both, 4 execute.
    pub bp_type: u32,
    /// The size in bytes of the user stack that a sample contains.
    pub sample_stack_user: u32,
    /// The clock of the times, with the flag USE_CLOCKID.
    pub clockid: i32,
    /// The number of bytes of aux data before the recorder is woken.
    pub aux_watermark: u32,
    /// The number of bytes of aux data that a sample contains.
    pub aux_sample_size: u32,
    /// The maximum number of frames in a call chain.
    pub sample_max_stack: u32,
    /// 1 if the recording contains its name, otherwise 0.
    pub has_name: u32,
}

const _: () = prove!(size_of::<Attr>() == 168);

/// The number of attributes, the size of their names and the number of their IDs.
#[repr(C)]
#[derive(Clone, Copy, Debug, Default, PartialEq, Eq)]
pub struct AttrTotals {
    /// The number of attributes.
    pub attr_count: u64,
    /// The size of all names in bytes.
    pub names_size: u64,
    /// The number of all IDs.
    pub ids_count: u64,
}

const _: () = prove!(size_of::<AttrTotals>() == 24);

/// The totals of all attributes, and the status of the call.
#[derive(Clone, Copy, Debug, PartialEq, Eq)]
pub struct AttrsResult {
    /// The totals of all attributes.
    pub totals: AttrTotals,
    /// Success if no error occurred, otherwise the status of the first error.
    pub status: Status,
}

// The bytes of an attribute's name; empty if it has none.
fn attr_name(description: &AttributeDescription) -> &[u8]
    ensures { result.now ≡ name_bytes description.now }
{
    match description.name() {
        Some(name) => name.as_bytes(),
        None => &[],
    }
}

// 1 if the attribute has a name, otherwise 0.
fn has_name(description: &AttributeDescription) -> u32
    ensures { result ≡ has_name_number description.now }
{
    match description.name() {
        Some(_) => 1,
        None => 0,
    }
}

// The entry of an attribute. `name_offset` is the offset of its name, `ids_start` the index of its first ID.
fn attr_entry(description: &AttributeDescription, name_offset: u64, ids_start: u64) -> Attr
    ensures { result ≡ attr_entry_at name_offset ids_start description.now }
{
    let attr = description.attributes();
    Attr {
        config: attr.config,
        sample_period_or_freq: attr.period_or_freq,
        sample_type: attr.sample_format.0,
        read_format: attr.read_format,
        flags: attr.flags.0,
        config1: attr.config1,
        config2: attr.config2,
        branch_sample_type: attr.branch_sample_type,
        sample_regs_user: attr.sample_regs_user,
        sample_regs_intr: attr.sample_regs_intr,
        sig_data: attr.sig_data,
        config3: attr.config3,
        name_offset,
        name_size: attr_name(description).len() as u64,
        ids_start,
        ids_count: description.ids().len() as u64,
        type_: attr.type_,
        size: attr.size,
        wakeup_events: attr.wakeup,
        bp_type: attr.bp_type,
        sample_stack_user: attr.sample_stack_user,
        clockid: attr.clockid,
        aux_watermark: attr.aux_watermark,
        aux_sample_size: attr.aux_sample_size,
        sample_max_stack: attr.sample_max_stack as u32,
        has_name: has_name(description),
    }
}

// The end of the attribute's name and the end of its IDs, or `None` if one of them doesn't fit in 64 bits.
// The name starts at offset `name_offset`, the IDs start at index `ids_start`.
fn end_offsets(
    description: &AttributeDescription,
    name_offset: u64,
    ids_start: u64,
) -> Option<(u64, u64)>
    ensures { AreEndOffsets description.now name_offset ids_start result }
{
    let names_end = name_offset.checked_add(attr_name(description).len() as u64)?;
    let ids_end = ids_start.checked_add(description.ids().len() as u64)?;
    Some((names_end, ids_end))
}

// Writes the entries of attributes, their names and their IDs, each up to the capacity of its array. Ends
// with `OutOfMemory` before the first attribute whose name end or ID end doesn't fit in 64 bits.
fn write_attrs(
    all: &[AttributeDescription],
    entries: &mut [Attr],
    names: &mut [u8],
    ids: &mut [u64],
    status: Status,
) -> AttrsResult
    ensures { WritesAttrsOrPrefix all.now status entries.old names.old ids.old result entries.new names.new
        ids.new }
{
    let mut index = 0;
    let mut name_offset = 0u64;
    let mut ids_start = 0u64;
    'attributes: while index < all.len() {
        let description = &all[index];
        let Some((names_end, ids_end)) = end_offsets(description, name_offset, ids_start) else {
            return AttrsResult {
                totals: AttrTotals {
                    attr_count: index as u64,
                    names_size: name_offset,
                    ids_count: ids_start,
                },
                status: Status::OutOfMemory,
            };
        };
        let entry = attr_entry(description, name_offset, ids_start);
        write_entry(entries, index, entry);
        copy_entries(names, name_offset, attr_name(description));
        copy_entries(ids, ids_start, description.ids());
        name_offset = names_end;
        ids_start = ids_end;
        index += 1;
    }
    let totals = AttrTotals {
        attr_count: index as u64,
        names_size: name_offset,
        ids_count: ids_start,
    };
    AttrsResult { totals, status }
}

// The result of a call that writes nothing.
fn no_attrs(status: Status) -> AttrsResult
    ensures { result ≡ no_attrs_with status }
{
    let totals = AttrTotals {
        attr_count: 0,
        names_size: 0,
        ids_count: 0,
    };
    AttrsResult { totals, status }
}

// Writes the attributes of a recording that was read.
fn attrs_result(
    read: Result<Metadata, Status>,
    entries: &mut [Attr],
    names: &mut [u8],
    ids: &mut [u64],
) -> AttrsResult
    ensures { ReadsAttrs read entries.old names.old ids.old result entries.new names.new ids.new }
{
    match read {
        Ok(metadata) => write_attrs(
            metadata.perf_file.event_attributes(),
            entries,
            names,
            ids,
            metadata.status,
        ),
        Err(status) => no_attrs(status),
    }
}

/// Writes the attributes of a perf.data file, their concatenated names and their IDs.
///
/// Each array receives as many elements as it has capacity for. The totals count all elements.
///
/// The status is `Success` if the file opens. If it doesn't open, the status is that of the error, the totals
/// are 0 and the arrays are unchanged. The status is `OutOfMemory` if a total doesn't fit in 64 bits; then
/// the totals count the attributes before.
pub fn file_attrs(
    alloc: Global,
    bytes: &[u8],
    entries: &mut [Attr],
    names: &mut [u8],
    ids: &mut [u64],
) -> AttrsResult
    ensures { ReadsFileAttrs bytes.now entries.old names.old ids.old result entries.new names.new ids.new }
{
    attrs_result(file_metadata(alloc, bytes), entries, names, ids)
}

/// Writes the attributes of a perf.data pipe, including late ones, as [`file_attrs`] does.
///
/// Reads the pipe to its end or to its first error. If an error follows the opening, the status is that of
/// the error, and the attributes are those read before it. If the pipe doesn't open, the totals are 0 and the
/// arrays are unchanged.
pub fn pipe_attrs(
    alloc: Global,
    bytes: &[u8],
    entries: &mut [Attr],
    names: &mut [u8],
    ids: &mut [u64],
) -> AttrsResult
    ensures { ReadsPipeAttrs bytes.now entries.old names.old ids.old result entries.new names.new ids.new }
{
    attrs_result(pipe_metadata(alloc, bytes), entries, names, ids)
}
