//! The file header of a jitdump.
ghost use Rattle.std.specs.Prelude.{◌≡◌, ◌+◌, ◌≤◌, ◌<◌, ◌⊎◌, IfOk, IfErr, IfSome, IfNone, length};
ghost use Rattle.std.specs.IoError.{error_kind};
ghost use Rattle.std.specs.declared.io.ErrorKind.TheVariants.{UnexpectedEof};
ghost use Rattle.perfdata_sources.specs.Endian.{number_in};
ghost use Rattle.perfdata_sources.specs.Raw.{bytes_of};
ghost use Rattle.perfdata_jit.specs.JitHeader.{BeginsWithJitHeader, IsEndianOfMagic, IsHeaderAfterMagic};
ghost use Rattle.perfdata_jit.specs.JitHeader.{IsTruncatedAfterMagic, IsJitHeaderError, IsUnknownMagic};
ghost use Rattle.perfdata_jit.specs.JitHeader.{header_after_magic, jit_magic_of};

use crate::error::JitDumpError;
use perfdata_base::endian::{read_u32, read_u64};
use perfdata_base::raw::{Endianness, FileOrder, RawData};
use std::io;

// Number of header bytes with a defined meaning after the magic.
const SIZE_AFTER_MAGIC: usize = JitDumpHeader::SIZE - 4;

// The magic of a little-endian file.
const LITTLE_MAGIC: [u8; 4] = [b'D', b'T', b'i', b'J'];

// The magic of a big-endian file.
const BIG_MAGIC: [u8; 4] = [b'J', b'i', b'T', b'D'];

/// The file header of a jitdump.
#[derive(Clone, Debug, Drop)]
pub struct JitDumpHeader {
    /// `JiTD` in the byte order of the file, which it determines.
    pub magic: [u8; 4],
    /// The version of the format, currently 1.
    pub version: u32,
    /// The size of the header in bytes, which is also the offset of the first record.
    pub total_size: u32,
    /// The machine of the code, as `e_machine` of an ELF file.
    pub elf_machine_arch: u32,
    /// The pid of the process that runs the code.
    pub pid: u32,
    /// The time at which the file was created.
    pub timestamp: u64,
    /// Bit 0: timestamps are values of the time stamp counter.
    pub flags: u64,
}

/// Returns the byte order of a file with this magic, or `None` if it is not the magic of a jitdump.
pub fn endian_of_magic(magic: &[u8; 4]) -> Option<Endianness>
    ensures some { IfSome result (λ endian. magic.now ≡ jit_magic_of endian) }
    ensures none { IfNone result (IsUnknownMagic magic.now) }
{
    if *magic == LITTLE_MAGIC {
        Some(Endianness::LittleEndian)
    } else if *magic == BIG_MAGIC {
        Some(Endianness::BigEndian)
    } else {
        None
    }
}

// The header with this magic and these 36 bytes after it.
fn parse_fields(endian: Endianness, magic: [u8; 4], rest: &[u8]) -> JitDumpHeader
    requires { length rest.now ≡ 36 }
    ensures { result ≡ header_after_magic (number_in endian) magic rest.now }
{
    JitDumpHeader {
        magic,
        version: read_u32(endian, rest),
        total_size: read_u32(endian, &rest[4..]),
        elf_machine_arch: read_u32(endian, &rest[8..]),
        pid: read_u32(endian, &rest[16..]),
        timestamp: read_u64(endian, &rest[20..]),
        flags: read_u64(endian, &rest[28..]),
    }
}

// Parses as `parse_after_magic` does, in the byte order `endian`.
fn parse_after_magic(
    endian: Endianness,
    magic: [u8; 4],
    rest: RawData<'_>,
) -> io::Result<JitDumpHeader>
    ensures value { IfOk result (λ header. IsHeaderAfterMagic (number_in endian) magic
        (bytes_of rest.entry) header) }
    ensures error { IfErr result (λ error. IsTruncatedAfterMagic (number_in endian)
        (bytes_of rest.entry) error) }
{
    let mut after = rest;
    let mut fixed = [0u8; SIZE_AFTER_MAGIC];
    after.read_exact(&mut fixed)?;
    let header = parse_fields(endian, magic, &fixed);
    let mut whole = rest;
    whole.skip(header.total_size.saturating_sub(4) as usize)?;
    Ok(header)
}

impl JitDumpHeader {
    /// Number of header bytes with a defined meaning, and the minimum size of a header.
    pub const SIZE: usize = 40;

    /// The byte order of the file, by the first byte of its magic: `D` in a little-endian file, any other in
    /// a big-endian one.
    pub fn endian(&self) -> Endianness
        ensures { IsEndianOfMagic self.now.magic result }
    {
        if self.magic[0] == LITTLE_MAGIC[0] {
            Endianness::LittleEndian
        } else {
            Endianness::BigEndian
        }
    }

    /// Parses the header at the start of the bytes. The bytes must contain the whole header, including the
    /// part after the first 40 bytes.
    ///
    /// Returns the first error that applies: `NotEnoughBytesForHeader` if there are fewer than 4 bytes,
    /// `InvalidMagicBytes` if the first 4 bytes are not a magic, `NotEnoughBytesForHeader` if there are fewer
    /// than 40 bytes, `InvalidHeaderSize` if the header's size field is less than 40,
    /// `NotEnoughBytesForHeader` if the size field is greater than the number of bytes.
    pub fn parse(bytes: RawData<'_>) -> Result<JitDumpHeader, JitDumpError>
        ensures value { IfOk result (λ header. BeginsWithJitHeader (bytes_of bytes.entry) header) }
        ensures error { IfErr result (λ error. IsJitHeaderError (bytes_of bytes.entry) error) }
    {
        let mut rest = bytes;
        let mut magic = [0u8; 4];
        match rest.read_exact(&mut magic) {
            Ok(()) => {}
            Err(_) => return Err(JitDumpError::NotEnoughBytesForHeader),
        }
        let Some(endian) = endian_of_magic(&magic) else {
            return Err(JitDumpError::InvalidMagicBytes(magic));
        };
        match parse_after_magic(endian, magic, rest) {
            Ok(header) => {
                if header.total_size < JitDumpHeader::SIZE as u32 {
                    return Err(JitDumpError::InvalidHeaderSize(header.total_size));
                }
                Ok(header)
            }
            Err(_) => Err(JitDumpError::NotEnoughBytesForHeader),
        }
    }

    /// Parses the header from its magic and the bytes after it, in the byte order `O`. A header whose size
    /// field is less than 40 is accepted.
    ///
    /// Returns an `UnexpectedEof` error if there are fewer than 36 bytes, or fewer than the header's size
    /// field minus the 4 bytes of the magic.
    pub fn parse_after_magic<O: FileOrder>(
        magic: [u8; 4],
        bytes: RawData<'_>,
    ) -> io::Result<JitDumpHeader>
        ensures value { IfOk result (λ header. IsHeaderAfterMagic O.number_of magic
            (bytes_of bytes.entry) header) }
        ensures error { IfErr result (λ error. IsTruncatedAfterMagic O.number_of
            (bytes_of bytes.entry) error) }
    {
        parse_after_magic(O::ENDIAN, magic, bytes)
    }
}
