//! The body and the format of a record, by its entry.
ghost use Rattle.std.specs.Prelude.{◌≡◌};
ghost use Rattle.std.specs.IoError.{error_kind};
ghost use Rattle.perfdata_arrays.specs.Status.{io_kind_status};
ghost use Rattle.perfdata_chunks.specs.SingleRecords.{attr_of};
ghost use Rattle.perfdata_chunks.specs.steps.SingleRecords.{FindsRecord};

use linux_perf_data::in_memory::entries::RecordEntry;
use perfdata_arrays::attrs::Attr;
use perfdata_arrays::status::{Status, status_of_error};
use perfdata_base::attr::{AttrFlags, PerfEventAttr, SampleFormat};
use perfdata_base::endian::Endianness;
use perfdata_base::event::{RawEventRecord, RecordType};
use perfdata_base::place::RecordParseInfo;
use perfdata_base::raw::RawData;
use perfdata_events::format::EventFormat;
use perfdata_sections::error::Error;
use std::io;

/// The format of a record's attribute, and the record.
#[derive(Clone, Copy)]
pub(crate) struct SingleRecord<'a> {
    pub(crate) format: EventFormat,
    pub(crate) raw: RawEventRecord<'a>,
}

// Returns the attribute with the fields that say which fields records have and where identifiers and times
// are. The others are 0.
pub(crate) fn format_attr(attr: &Attr) -> PerfEventAttr
    ensures { result ≡ attr_of attr.now }
{
    PerfEventAttr {
        type_: attr.type_,
        size: attr.size,
        config: attr.config,
        period_or_freq: 0,
        sample_format: SampleFormat(attr.sample_type),
        read_format: attr.read_format,
        flags: AttrFlags(attr.flags),
        wakeup: 0,
        bp_type: 0,
        config1: 0,
        config2: 0,
        branch_sample_type: attr.branch_sample_type,
        sample_regs_user: attr.sample_regs_user,
        sample_stack_user: attr.sample_stack_user,
        clockid: attr.clockid,
        sample_regs_intr: attr.sample_regs_intr,
        aux_watermark: 0,
        sample_max_stack: 0,
        aux_sample_size: 0,
        sig_data: 0,
        config3: 0,
    }
}

// Finds the body and the attribute of a record.
pub(crate) fn find_record<'a>(
    endian: Endianness,
    chunk: &'a [u8],
    attrs: &[Attr],
    entry: &RecordEntry,
) -> Result<SingleRecord<'a>, Status>
    ensures { FindsRecord endian chunk.now attrs.now entry.now result }
{
    let size = chunk.len() as u64;
    if entry.body_offset > size || entry.body_size > size - entry.body_offset {
        return Err(Status::TruncatedRecord);
    }
    if entry.attr_index >= attrs.len() as u64 {
        return Err(Status::NoAttributes);
    }
    let attr = format_attr(&attrs[entry.attr_index as usize]);
    let rest = &chunk[entry.body_offset as usize..];
    let raw = RawEventRecord {
        record_type: RecordType(entry.record_type),
        misc: entry.misc,
        body: RawData::Single(&rest[..entry.body_size as usize]),
        parse_info: RecordParseInfo::new(&attr, endian),
    };
    Ok(SingleRecord {
        format: EventFormat::with_little_endian_flags(&attr, endian),
        raw,
    })
}

// Returns the status of a body that can't be parsed.
pub(crate) fn status_of_body(error: io::Error) -> Status
    ensures { result ≡ io_kind_status (error_kind error) }
{
    status_of_error(&Error::IoError(error))
}
