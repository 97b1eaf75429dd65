//! The attribute in a record HEADER_ATTR, which a pipe may have among its records.
ghost use Rattle.std.specs.Prelude.{◌≡◌, ◌≢◌, ◌⊎◌};
ghost use Rattle.perfdata_arrays.specs.declared.status.Status.TheVariants.{Success};

use crate::metadata::parse_attr;
use perfdata_arrays::array::copy_prefix;
use perfdata_arrays::attrs::Attr;
use perfdata_arrays::status::Status;
use perfdata_base::attr::PerfEventAttr;
use perfdata_base::endian::Endianness;
use std::alloc::Global;

/// The number of ids of an attribute, and the status of the call.
#[derive(Clone, Copy, Debug, PartialEq, Eq)]
pub struct LateAttrResult {
    /// The number of its ids.
    pub ids_count: u64,
    /// Success, or the status of the first error.
    pub status: Status,
}

// Returns the entry of an attribute without a name.
fn attr_entry(attr: &PerfEventAttr, ids_start: u64, ids_count: u64) -> Attr
    ensures counted { result.ids_count ≡ ids_count }
    ensures placed { result.ids_start ≡ ids_start }
{
    Attr {
        config: attr.config,
        sample_period_or_freq: attr.period_or_freq,
        sample_type: attr.sample_format.0,
        read_format: attr.read_format,
        flags: attr.flags.0,
        config1: attr.config1,
        config2: attr.config2,
        branch_sample_type: attr.branch_sample_type,
        sample_regs_user: attr.sample_regs_user,
        sample_regs_intr: attr.sample_regs_intr,
        sig_data: attr.sig_data,
        config3: attr.config3,
        name_offset: 0,
        name_size: 0,
        ids_start,
        ids_count,
        type_: attr.type_,
        size: attr.size,
        wakeup_events: attr.wakeup,
        bp_type: attr.bp_type,
        sample_stack_user: attr.sample_stack_user,
        clockid: attr.clockid,
        aux_watermark: attr.aux_watermark,
        aux_sample_size: attr.aux_sample_size,
        sample_max_stack: attr.sample_max_stack as u32,
        has_name: 0,
    }
}

/// Writes the attribute in the body of a record HEADER_ATTR, and its ids up to the capacity of their array.
///
/// `ids_start` is the index of its first id in the ids of all attributes. The attribute has no name: names
/// are in the feature EVENT_DESC. The elements of `ids` after its ids are unchanged.
///
/// The status is `Truncated` if the attribute or its last id is truncated, `InvalidData` if its own size is 1
/// to 63, and `OutOfMemory` if memory runs out for its ids. Then `ids_count` is 0, and nothing is written.
pub fn late_attr(
    alloc: Global,
    endian: Endianness,
    body: &[u8],
    ids_start: u64,
    attr: &mut Attr,
    ids: &mut [u64],
) -> LateAttrResult
    ensures written { ((attr.new.ids_count ≡ result.ids_count) × (attr.new.ids_start ≡ ids_start))
        ⊎ ((attr.new ≡ attr.old) × (result.ids_count ≡ 0)) }
    ensures failed { result.status ≢ Success → result.ids_count ≡ 0 }
    ensures unchanged_attr { result.status ≢ Success → attr.new ≡ attr.old }
    ensures unchanged_ids { result.status ≢ Success → ids.new ≡ ids.old }
{
    match parse_attr(alloc, endian, body) {
        Ok(found) => {
            let ids_count = found.ids.len() as u64;
            *attr = attr_entry(&found.attr, ids_start, ids_count);
            copy_prefix(ids, found.ids.as_slice());
            LateAttrResult {
                ids_count,
                status: Status::Success,
            }
        }
        Err(status) => LateAttrResult {
            ids_count: 0,
            status,
        },
    }
}
