//! Records on mappings.
ghost use Rattle.perfdata_sources.specs.Raw.{bytes_of, IsSingle};
ghost use Rattle.perfdata_events.specs.Single.{KeepsSingle, NoParts};
ghost use Rattle.perfdata_sources.specs.Endian.{number_in};
ghost use Rattle.perfdata_events.specs.Format.{Decodes, fixed};

use crate::fields::numbers::{field_i32, field_u64};
use crate::fields::text::read_text;
use crate::sample_bits::MiscFlags;
use bitflags::Flags;
use perfdata_base::raw::{Endianness, RawData};
use std::io::Result;

/// A mapping (`PERF_RECORD_MMAP`).
#[derive(Clone, Copy, Debug, PartialEq, Eq)]
pub struct MmapRecord<'a> {
    /// The process id.
    pub pid: i32,
    /// The thread id.
    pub tid: i32,
    /// The start address.
    pub address: u64,
    /// The length in bytes.
    pub length: u64,
    /// The offset in the file, in bytes.
    pub page_offset: u64,
    /// Whether the mapping isn't executable.
    pub is_data: bool,
    /// The path of the file.
    pub path: RawData<'a>,
}

// The start of a record on a mapping.
#[derive(Clone, Copy)]
pub(crate) struct AddressRange {
    pub(crate) pid: i32,
    pub(crate) tid: i32,
    pub(crate) address: u64,
    pub(crate) length: u64,
    pub(crate) page_offset: u64,
    pub(crate) is_data: bool,
}

impl AddressRange {
    ghost use Rattle.perfdata_events.specs.Mmap.{mapping_at};
    ghost use Rattle.perfdata_events.specs.steps.Mmap.{address_range_of};

    // Parses the start of a record's fields, and removes it. `misc` is that of the record header.
    pub(crate) fn parse(
        endian: Endianness,
        misc: u16,
        fields: &mut RawData<'_>,
    ) -> Result<AddressRange>
        ensures decodes { Decodes (fixed 32 (mapping_at (number_in endian) misc)) address_range_of
            (bytes_of fields.old) result (bytes_of fields.new) }
        ensures single { KeepsSingle NoParts fields.old result fields.new }
    {
        let mut bytes = [0u8; 32];
        fields.read_exact(&mut bytes)?;
        Ok(AddressRange {
            pid: field_i32(endian, &bytes, 0),
            tid: field_i32(endian, &bytes, 4),
            address: field_u64(endian, &bytes, 8),
            length: field_u64(endian, &bytes, 16),
            page_offset: field_u64(endian, &bytes, 24),
            is_data: MiscFlags(misc).contains(MiscFlags::MMAP_DATA),
        })
    }
}

impl<'a> MmapRecord<'a> {
    ghost use Rattle.perfdata_events.specs.Mmap.{mmap, mapping_of};

    /// Parses the fields at the start of `fields`, and removes them. `misc` is that of the record header.
    ///
    /// Fails with an `UnexpectedEof` error if they are truncated, and with an `InvalidData` error if the path
    /// has no NUL.
    pub fn parse(endian: Endianness, misc: u16, fields: &mut RawData<'a>) -> Result<MmapRecord<'a>>
        ensures decodes { Decodes (mmap (number_in endian) misc) mapping_of (bytes_of fields.old) result
            (bytes_of fields.new) }
        ensures single { KeepsSingle (λ v. IsSingle v.path) fields.old result fields.new }
    {
        let range = AddressRange::parse(endian, misc, fields)?;
        let path = read_text(fields)?;
        Ok(MmapRecord {
            pid: range.pid,
            tid: range.tid,
            address: range.address,
            length: range.length,
            page_offset: range.page_offset,
            is_data: range.is_data,
            path,
        })
    }
}
