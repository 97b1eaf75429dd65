//! Auxtrace records.
ghost use Rattle.std.specs.Prelude.{◌↔◌, IsOk, IfOk, IfErr};
ghost use Rattle.std.specs.IoError.{error_kind};
ghost use Rattle.std.specs.declared.io.ErrorKind.TheVariants.{InvalidData};
ghost use Rattle.perfdata_sources.specs.Raw.{bytes_of, IsSingle};
ghost use Rattle.perfdata_records.specs.Auxtrace.{AuxtraceBodiesParse, HoldsAuxtrace, IsAuxtrace};
ghost use Rattle.perfdata_records.specs.Auxtrace.{IsAuxtraceError};

use perfdata_base::raw::{FileOrder, RawData};
use std::io::{Error, ErrorKind, Result};

/// The body of an auxtrace record (`PERF_RECORD_AUXTRACE` of Linux's perf), for example of Intel PT.
#[derive(Clone, Debug, Drop, PartialEq, Eq)]
pub struct Auxtrace<'a> {
    /// The size of the aux data in bytes.
    pub size: u64,
    /// The offset of this aux data in the complete aux data of the recording, in bytes.
    pub offset: u64,
    /// The hardware-specific reference that distinguishes the buffers of the aux data.
    pub reference: u64,
    /// The index of the buffer that contained the aux data.
    pub index: u32,
    /// The id of the recorded thread.
    pub tid: u32,
    /// The recorded CPU.
    pub cpu: u32,
    /// The aux data, of `size` bytes.
    pub aux_data: RawData<'a>,
}

impl<'a> Auxtrace<'a> {
    /// The size of the part of the body before the aux data, in bytes.
    pub const FIXED_SIZE: usize = 40;

    /// Parses the body of an auxtrace record and the aux data after it.
    ///
    /// The body is a size, an offset and a reference of eight bytes each, and an index, a thread id, a CPU
    /// and a reserved number of four bytes each. The aux data follows.
    ///
    /// Fails with an `UnexpectedEof` error if these 40 bytes are truncated, and with an `InvalidData` error
    /// unless exactly `size` bytes follow them.
    pub fn parse<T: FileOrder>(body: RawData<'a>) -> Result<Auxtrace<'a>>
        ensures accepts { IsOk result ↔ HoldsAuxtrace T.number_of (bytes_of body.entry) }
        ensures value { IfOk result (λ parsed. IsAuxtrace T.number_of (bytes_of body.entry) parsed) }
        ensures single { IfOk result (λ parsed. IsSingle body.entry → IsSingle parsed.aux_data) }
        ensures error { IfErr result (λ error. IsAuxtraceError T.number_of (bytes_of body.entry) error) }
    {
        let mut rest = body;
        let mut fixed = [0u8; Auxtrace::FIXED_SIZE];
        rest.read_exact(&mut fixed)?;
        let size = T::read_u64(&fixed);
        if rest.len() as u64 != size {
            return Err(Error::from(ErrorKind::InvalidData));
        }
        Ok(Auxtrace {
            size,
            offset: T::read_u64(&fixed[8..]),
            reference: T::read_u64(&fixed[16..]),
            index: T::read_u32(&fixed[24..]),
            tid: T::read_u32(&fixed[28..]),
            cpu: T::read_u32(&fixed[32..]),
            aux_data: rest,
        })
    }
}

/// A law of the format, without code to run.
///
/// `Auxtrace::parse` accepts the body and aux data of every complete auxtrace record with a size of 48 bytes
/// in its record header, which are the 8 of the record header and the 40 of the body.
pub fn auxtrace_bodies_parse()
    ensures { AuxtraceBodiesParse }
{}
