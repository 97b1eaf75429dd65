//! A record of a jitdump, raw and parsed.
ghost use Rattle.std.specs.Prelude.{◌≡◌, ◌≤◌, IfOk, IfErr, length};
ghost use Rattle.perfdata_sources.specs.Endian.{number_in};
ghost use Rattle.perfdata_sources.specs.Raw.{bytes_of, EndsBefore};
ghost use Rattle.perfdata_jit.specs.JitRecord.{IsJitRecord, IsJitRecordError, jit_record_header_of};

use crate::records::{
    JitCodeDebugInfoRecord, JitCodeLoadRecord, JitCodeMoveRecord, JitCodeUnwindingInfoRecord,
};
use perfdata_base::endian::{read_u32, read_u64};
use perfdata_base::raw::{Endianness, FileOrder, RawData};
use std::alloc::Global;
use std::io::Result;

const LOAD: u32 = 0;

const MOVE: u32 = 1;

const DEBUG_INFO: u32 = 2;

const CLOSE: u32 = 3;

const UNWINDING_INFO: u32 = 4;

/// The type of a jitdump record.
#[derive(Clone, Copy, Debug, PartialEq, Eq, Hash, PartialOrd, Ord)]
pub struct JitDumpRecordType(pub u32);

impl JitDumpRecordType {
    /// A function was compiled.
    pub const JIT_CODE_LOAD: JitDumpRecordType = JitDumpRecordType(LOAD);

    /// A function was moved.
    pub const JIT_CODE_MOVE: JitDumpRecordType = JitDumpRecordType(MOVE);

    /// The source locations of a function's code.
    pub const JIT_CODE_DEBUG_INFO: JitDumpRecordType = JitDumpRecordType(DEBUG_INFO);

    /// The runtime writes no further records.
    pub const JIT_CODE_CLOSE: JitDumpRecordType = JitDumpRecordType(CLOSE);

    /// The unwinding information of a function.
    pub const JIT_CODE_UNWINDING_INFO: JitDumpRecordType = JitDumpRecordType(UNWINDING_INFO);
}

/// The record header at the start of each record.
#[derive(Clone, Debug, Drop)]
pub struct JitDumpRecordHeader {
    /// The type of the record.
    pub record_type: JitDumpRecordType,
    /// The size of the record in bytes, including its record header.
    pub total_size: u32,
    /// The time at which the record was written.
    pub timestamp: u64,
}

impl JitDumpRecordHeader {
    /// The size of a record header in bytes.
    pub const SIZE: usize = 16;

    /// Parses the record header at the start of the bytes: the record's type and total size of 4 bytes each,
    /// and its timestamp of 8.
    ///
    /// Returns an `UnexpectedEof` error if there are fewer than 16 bytes.
    pub fn parse(endian: Endianness, bytes: RawData<'_>) -> Result<JitDumpRecordHeader>
        ensures enough { IfOk result (λ _. 16 ≤ length (bytes_of bytes.entry)) }
        ensures value { IfOk result (λ header. header
            ≡ jit_record_header_of (number_in endian) (bytes_of bytes.entry)) }
        ensures too_short { IfErr result (λ error. EndsBefore 16 (bytes_of bytes.entry) error) }
    {
        let mut rest = bytes;
        let mut header = [0u8; JitDumpRecordHeader::SIZE];
        rest.read_exact(&mut header)?;
        Ok(JitDumpRecordHeader::from_bytes(endian, &header))
    }

    /// Parses the record header at the start of the bytes as `parse` does, in the byte order `O`.
    pub fn parse_impl<O: FileOrder>(bytes: RawData<'_>) -> Result<JitDumpRecordHeader>
        ensures enough { IfOk result (λ _. 16 ≤ length (bytes_of bytes.entry)) }
        ensures value { IfOk result (λ header. header
            ≡ jit_record_header_of O.number_of (bytes_of bytes.entry)) }
        ensures too_short { IfErr result (λ error. EndsBefore 16 (bytes_of bytes.entry) error) }
    {
        JitDumpRecordHeader::parse(O::ENDIAN, bytes)
    }

    /// Returns the record header in sixteen bytes, in the byte order `endian`.
    pub fn from_bytes(
        endian: Endianness,
        bytes: &[u8; JitDumpRecordHeader::SIZE],
    ) -> JitDumpRecordHeader
        ensures { result ≡ jit_record_header_of (number_in endian) bytes.now }
    {
        JitDumpRecordHeader {
            record_type: JitDumpRecordType(read_u32(endian, bytes)),
            total_size: read_u32(endian, &bytes[4..]),
            timestamp: read_u64(endian, &bytes[8..]),
        }
    }
}

/// A parsed record.
#[derive(Debug, Drop)]
pub enum JitDumpRecord<'a> {
    /// A function that was compiled, with its name and code.
    CodeLoad(JitCodeLoadRecord<'a>),
    /// A function that was moved.
    CodeMove(JitCodeMoveRecord),
    /// The source lines of a function's code.
    CodeDebugInfo(JitCodeDebugInfoRecord<'a>),
    /// The runtime writes no further records.
    CodeClose,
    /// The unwinding information of a function.
    CodeUnwindingInfo(JitCodeUnwindingInfoRecord<'a>),
    /// A record of any other type.
    Other(JitDumpRawRecord<'a>),
}

/// A record with a borrowed body that is not parsed.
#[derive(Clone, Debug, Drop)]
pub struct JitDumpRawRecord<'a> {
    /// The byte order of the record.
    pub endian: Endianness,
    /// The type of the record.
    pub record_type: JitDumpRecordType,
    /// The time at which the record was written.
    pub timestamp: u64,
    /// The offset of the record header in the file, in bytes.
    pub start_offset: u64,
    /// The size of the record in bytes, including its record header.
    pub record_size: u32,
    /// All bytes after the record header.
    pub body: RawData<'a>,
}

impl<'a> JitDumpRawRecord<'a> {
    /// Parses the body in the format of the record's type. The body of a `JIT_CODE_CLOSE` record is not read.
    /// A record of none of the five types is returned unparsed as `Other`. Only debug info allocates memory.
    ///
    /// Fails as the `parse` of the record's type does.
    pub fn parse(&self, alloc: Global) -> Result<JitDumpRecord<'a>>
        ensures value { IfOk result (λ parsed. IsJitRecord (number_in self.now.endian) self.now parsed) }
        ensures error { IfErr result (λ error. IsJitRecordError (number_in self.now.endian) self.now error) }
    {
        match self.record_type.0 {
            LOAD => {
                let load = JitCodeLoadRecord::parse(self.endian, self.body)?;
                Ok(JitDumpRecord::CodeLoad(load))
            }
            MOVE => {
                let moved = JitCodeMoveRecord::parse(self.endian, self.body)?;
                Ok(JitDumpRecord::CodeMove(moved))
            }
            DEBUG_INFO => {
                let info = JitCodeDebugInfoRecord::parse(alloc, self.endian, self.body)?;
                Ok(JitDumpRecord::CodeDebugInfo(info))
            }
            CLOSE => Ok(JitDumpRecord::CodeClose),
            UNWINDING_INFO => {
                let unwinding = JitCodeUnwindingInfoRecord::parse(self.endian, self.body)?;
                Ok(JitDumpRecord::CodeUnwindingInfo(unwinding))
            }
            _ => Ok(JitDumpRecord::Other(JitDumpRawRecord {
                endian: self.endian,
                record_type: self.record_type,
                timestamp: self.timestamp,
                start_offset: self.start_offset,
                record_size: self.record_size,
                body: self.body,
            })),
        }
    }
}
