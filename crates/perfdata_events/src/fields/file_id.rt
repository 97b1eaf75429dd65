//! The identity of a mapped file.
ghost use Rattle.std.specs.Prelude.{◌≡◌, length, IfOk};
ghost use Rattle.perfdata_sources.specs.Raw.{bytes_of, IsSingle};
ghost use Rattle.perfdata_events.specs.Single.{KeepsSingle};
ghost use Rattle.perfdata_events.specs.SingleParts.{SingleFileId};
ghost use Rattle.perfdata_sources.specs.Endian.{number_in};
ghost use Rattle.perfdata_events.specs.Format.{Decodes};
ghost use Rattle.perfdata_events.specs.steps.FileId.{ReadsBuildId};

use crate::fields::numbers::{field_u32, field_u64};
use crate::fields::text::invalid_data;
use perfdata_base::raw::{Endianness, RawData};
use std::io::Result;

// The maximum size of a build id in bytes.
const MAX_BUILD_ID_SIZE: u8 = 20;

/// The device and the inode of a mapped file.
#[derive(Clone, Copy, Debug, PartialEq, Eq)]
pub struct Mmap2InodeAndVersion {
    /// The device's major number.
    pub major: u32,
    /// The device's minor number.
    pub minor: u32,
    /// The inode.
    pub inode: u64,
    /// The generation of the inode.
    pub inode_generation: u64,
}

/// The identity of a mapped file.
#[derive(Clone, Copy, Debug, PartialEq, Eq)]
pub enum Mmap2FileId<'a> {
    /// Its device and inode.
    InodeAndVersion(Mmap2InodeAndVersion),
    /// The bytes of its build id, at most 20.
    BuildId(RawData<'a>),
}

// The build id in 24 bytes.
fn read_build_id(bytes: RawData<'_>) -> Result<RawData<'_>>
    requires { length (bytes_of bytes) ≡ 24 }
    ensures reads { ReadsBuildId (bytes_of bytes.entry) result }
    ensures single { IfOk result (λ id. IsSingle bytes.entry → IsSingle id) }
{
    let mut rest = bytes;
    let size = rest.read_u8()?;
    if size > MAX_BUILD_ID_SIZE {
        return Err(invalid_data());
    }
    let mut padded = bytes;
    padded.skip(4)?;
    padded.split_off_prefix(size as usize)
}

impl<'a> Mmap2FileId<'a> {
    ghost use Rattle.perfdata_events.specs.FileId.{file_id, file_id_of};

    /// Parses a file id of 24 bytes at the start of `fields`, and removes it: a build id, or a device and an
    /// inode.
    ///
    /// Fails with an `UnexpectedEof` error if it is truncated, and with an `InvalidData` error if the build
    /// id has more than 20 bytes.
    pub fn parse(
        endian: Endianness,
        is_build_id: bool,
        fields: &mut RawData<'a>,
    ) -> Result<Mmap2FileId<'a>>
        ensures decodes { Decodes (file_id (number_in endian) is_build_id) file_id_of (bytes_of fields.old)
            result (bytes_of fields.new) }
        ensures single { KeepsSingle SingleFileId fields.old result fields.new }
    {
        if is_build_id {
            let id = fields.split_off_prefix(24)?;
            let build_id = read_build_id(id)?;
            return Ok(Mmap2FileId::BuildId(build_id));
        }
        let mut bytes = [0u8; 24];
        fields.read_exact(&mut bytes)?;
        Ok(Mmap2FileId::InodeAndVersion(Mmap2InodeAndVersion {
            major: field_u32(endian, &bytes, 0),
            minor: field_u32(endian, &bytes, 4),
            inode: field_u64(endian, &bytes, 8),
            inode_generation: field_u64(endian, &bytes, 16),
        }))
    }
}
