//! Entries of the section BUILD_ID.
ghost use Rattle.std.specs.Prelude.{◌≡◌, ◌↔◌, IsTrue, length};
ghost use Rattle.perfdata_sources.specs.Endian.{number_in};
ghost use Rattle.perfdata_sources.specs.Source.{State, PausesOnlyOnError};
ghost use Rattle.perfdata_records.specs.BuildIdEvent.{IsTruncatedBuildIdEntry, IsWithoutZeroGroups};
ghost use Rattle.perfdata_records.specs.BuildIdEvent.{IsBuildIdIn, ReadsBuildIdEvent, ReadsFirstEntry};
ghost use Rattle.perfdata_records.specs.BuildIdEvent.{ParsesBuildIdEvent};
ghost use Rattle.perfdata_sections.specs.HeaderString.{before_nul};
ghost use Rattle.perfdata_sections.specs.ParsedPart.{NoPauseIfOutOfMemory};

use byteorder::{BigEndian, LittleEndian};
use perfdata_base::endian::read_u16;
use perfdata_base::event::PerfEventHeader;
use perfdata_base::raw::{Endianness, FileOrder};
use perfdata_base::source::{AppendError, Source, read_exact, unexpected_eof};
use perfdata_sections::bytes::read_bytes;
use perfdata_sections::feature_sections::before_nul;
use std::alloc::Global;
use std::io;

/// An entry of the section BUILD_ID (perf's `build_id_event`): the build id of the object at a path.
#[derive(Debug, Drop)]
pub struct BuildIdEvent {
    /// The record header of the entry. Its `misc` states whether the entry contains the size of the build id.
    pub header: PerfEventHeader,
    /// The process id, usually -1.
    pub _pid: i32,
    /// The build id, of at most 20 bytes.
    pub build_id: Vec<u8>,
    /// The path up to its first NUL.
    pub file_path: Vec<u8>,
}

// The size in bytes of the part before the path: the record header, the process id, and the build id field.
const FIXED_SIZE: usize = 36;

// The maximum size of a build id in bytes.
const MAX_BUILD_ID_SIZE: usize = 20;

// The bit of `misc` for entries that contain the size of the build id (`PERF_RECORD_MISC_BUILD_ID_SIZE`).
const HAS_BUILD_ID_SIZE: u16 = 0x8000;

// Returns the bytes without trailing groups of four zero bytes.
fn trim_zero_groups(bytes: &[u8]) -> &[u8]
    ensures { IsWithoutZeroGroups bytes.now result.now }
{
    let mut rest = bytes;
    'groups: while rest.ends_with(&[0, 0, 0, 0]) {
        rest = &rest[..rest.len() - 4];
    }
    rest
}

// Returns the build id in the 24 bytes of its field.
fn build_id_bytes(misc: u16, bytes: &[u8]) -> &[u8]
    requires { length bytes.now ≡ 24 }
    ensures { IsBuildIdIn misc bytes.now result.now }
{
    if misc & HAS_BUILD_ID_SIZE != 0 {
        let length = (bytes[MAX_BUILD_ID_SIZE] as usize).min(MAX_BUILD_ID_SIZE);
        return &bytes[..length];
    }
    trim_zero_groups(&bytes[..MAX_BUILD_ID_SIZE])
}

// Returns whether the entry at the start of the bytes is truncated.
fn is_truncated(endian: Endianness, bytes: &[u8]) -> bool
    ensures { IsTrue result ↔ IsTruncatedBuildIdEntry (number_in endian) bytes.now }
{
    if bytes.len() < FIXED_SIZE {
        return true;
    }
    let size = read_u16(endian, &bytes[6..]) as usize;
    bytes.len() < FIXED_SIZE + size.saturating_sub(FIXED_SIZE)
}

// Truncates the bytes at the first NUL.
fn truncate_at_nul(bytes: Vec<u8>) -> Vec<u8>
    ensures { result.items ≡ before_nul bytes.items }
{
    let mut bytes = bytes;
    let length = before_nul(bytes.as_slice()).len();
    bytes.truncate(length);
    bytes
}

impl BuildIdEvent {
    /// Reads the entry at the position of a borrowed source.
    ///
    /// An entry is a record header of 8 bytes, a process id of 4 bytes, a field of 24 bytes with the build
    /// id, and the path. The path has the bytes by which the size in the record header exceeds these 36. The
    /// 36 bytes are read whatever that size is. `file_path` ends at the first NUL of the path.
    ///
    /// If bit 15 of `misc` is set, byte 20 of the field is the size of the build id, which is limited to 20.
    /// Otherwise the build id is the first 20 bytes of the field without trailing groups of four zero bytes.
    ///
    /// Fails with an `UnexpectedEof` source error if the entry is truncated, and with `AppendError::Memory`
    /// if memory runs out.
    pub fn read_from<R: Source, T: FileOrder>(
        alloc: Global,
        source: &mut R,
    ) -> Result<BuildIdEvent, AppendError>
        ensures reads { ReadsBuildIdEvent T.number_of (R.state source.old) result (R.state source.new) }
        ensures pauses { PausesOnlyOnError (R.state source.old) result (R.state source.new) }
        ensures memory { NoPauseIfOutOfMemory (R.state source.old) result (R.state source.new) }
        ensures same_loan { R.loan source.new ≡ R.loan source.old }
    {
        let mut bytes = [0u8; FIXED_SIZE];
        read_exact(source, &mut bytes)?;
        let header = PerfEventHeader::peek(T::ENDIAN, &bytes).unwrap();
        let build_id = build_id_bytes(header.misc, &bytes[12..]).to_vec(alloc)?;
        let path_size = (header.size as usize).saturating_sub(FIXED_SIZE);
        let path = read_bytes(alloc, source, path_size)?;
        Ok(BuildIdEvent {
            header,
            _pid: T::read_i32(&bytes[8..]),
            build_id,
            file_path: truncate_at_nul(path),
        })
    }

    /// Reads the entry at the start of `bytes`, whose numbers have the byte order `endian`, and leaves the
    /// bytes after it in `bytes`. See `read_from`.
    ///
    /// Fails with an `UnexpectedEof` source error if the entry is truncated. Otherwise fails with
    /// `AppendError::Memory` if memory runs out.
    pub fn read_with_endian(
        alloc: Global,
        endian: Endianness,
        bytes: &mut &[u8],
    ) -> Result<BuildIdEvent, AppendError>
        ensures { ReadsFirstEntry endian bytes.old.now result bytes.new.now }
    {
        if is_truncated(endian, bytes) {
            return Err(AppendError::Source(unexpected_eof()));
        }
        match endian {
            Endianness::LittleEndian => {
                BuildIdEvent::read_from::<&[u8], LittleEndian>(alloc, bytes)
            }
            Endianness::BigEndian => BuildIdEvent::read_from::<&[u8], BigEndian>(alloc, bytes),
        }
    }

    /// Reads the entry at the position of an owned source. See `read_from`.
    ///
    /// Fails with an `UnexpectedEof` error if the entry is truncated, and with an `OutOfMemory` error if
    /// memory runs out.
    pub fn parse<R: Source + Drop, T: FileOrder>(
        alloc: Global,
        mut reader: R,
    ) -> io::Result<BuildIdEvent>
        ensures { (after : State) × ParsesBuildIdEvent T.number_of (R.state reader) result after }
    {
        Ok(BuildIdEvent::read_from::<R, T>(alloc, &mut reader)?)
    }
}
