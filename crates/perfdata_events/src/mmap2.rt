//! Records on mappings with the identity of the mapped file.
ghost use Rattle.perfdata_sources.specs.Raw.{bytes_of, IsSingle};
ghost use Rattle.perfdata_events.specs.Single.{KeepsSingle};
ghost use Rattle.perfdata_events.specs.SingleParts.{SingleMapping2};
ghost use Rattle.perfdata_sources.specs.Endian.{number_in};
ghost use Rattle.perfdata_events.specs.Format.{Decodes, fixed_and_text};

pub use crate::fields::file_id::{Mmap2FileId, Mmap2InodeAndVersion};
use crate::fields::numbers::field_u32;
use crate::fields::text::read_text;
use crate::mmap::AddressRange;
use crate::sample_bits::MiscFlags;
use bitflags::Flags;
use perfdata_base::raw::{Endianness, RawData};
use std::io::Result;

/// A mapping with the identity of the mapped file (`PERF_RECORD_MMAP2`).
#[derive(Clone, Copy, Debug, PartialEq, Eq)]
pub struct Mmap2Record<'a> {
    /// The process id.
    pub pid: i32,
    /// The thread id.
    pub tid: i32,
    /// The start address.
    pub address: u64,
    /// The length in bytes.
    pub length: u64,
    /// The offset in the file, in bytes.
    pub page_offset: u64,
    /// Whether the mapping isn't executable.
    pub is_data: bool,
    /// The identity of the file.
    pub file_id: Mmap2FileId<'a>,
    /// The protection of the mapping, as bits.
    pub protection: u32,
    /// The flags of the mapping, as bits.
    pub flags: u32,
    /// The path of the file.
    pub path: RawData<'a>,
}

// The end of a record on a mapping.
#[derive(Clone, Copy)]
struct ProtectedPath<'a> {
    protection: u32,
    flags: u32,
    path: RawData<'a>,
}

impl<'a> ProtectedPath<'a> {
    ghost use Rattle.perfdata_events.specs.Mmap2.{protection_at};
    ghost use Rattle.perfdata_events.specs.steps.Mmap2.{protected_path_of};

    fn parse(endian: Endianness, fields: &mut RawData<'a>) -> Result<ProtectedPath<'a>>
        ensures decodes { Decodes (fixed_and_text 8 (protection_at (number_in endian))) protected_path_of
            (bytes_of fields.old) result (bytes_of fields.new) }
        ensures single { KeepsSingle (λ v. IsSingle v.path) fields.old result fields.new }
    {
        let mut bytes = [0u8; 8];
        fields.read_exact(&mut bytes)?;
        let path = read_text(fields)?;
        Ok(ProtectedPath {
            protection: field_u32(endian, &bytes, 0),
            flags: field_u32(endian, &bytes, 4),
            path,
        })
    }
}

impl<'a> Mmap2Record<'a> {
    ghost use Rattle.perfdata_events.specs.Mmap2.{mmap2, mapping2_of};

    /// Parses the fields at the start of `fields`, and removes them. `misc` is that of the record header.
    ///
    /// Fails with an `UnexpectedEof` error if they are truncated, and with an `InvalidData` error if the
    /// build id has more than 20 bytes or the path has no NUL.
    pub fn parse(endian: Endianness, misc: u16, fields: &mut RawData<'a>) -> Result<Mmap2Record<'a>>
        ensures decodes { Decodes (mmap2 (number_in endian) misc) mapping2_of (bytes_of fields.old) result
            (bytes_of fields.new) }
        ensures single { KeepsSingle SingleMapping2 fields.old result fields.new }
    {
        let range = AddressRange::parse(endian, misc, fields)?;
        let is_build_id = MiscFlags(misc).contains(MiscFlags::MMAP_BUILD_ID);
        let file_id = Mmap2FileId::parse(endian, is_build_id, fields)?;
        let protected = ProtectedPath::parse(endian, fields)?;
        Ok(Mmap2Record {
            pid: range.pid,
            tid: range.tid,
            address: range.address,
            length: range.length,
            page_offset: range.page_offset,
            is_data: range.is_data,
            file_id,
            protection: protected.protection,
            flags: protected.flags,
            path: protected.path,
        })
    }
}
