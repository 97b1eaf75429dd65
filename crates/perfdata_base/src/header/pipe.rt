//! The header of a perf.data pipe.
ghost use Rattle.std.specs.Prelude.{◌≡◌, ◌+◌, ◌≤◌, length};
ghost use Rattle.perfdata_sources.specs.Source.{State};
ghost use Rattle.perfdata_base.specs.PipeHeader.{pipe_header_of, ParsesPipeHeader, ParsesPipeHeaderWithExtra};
ghost use Rattle.perfdata_base.specs.PipeHeader.{PausesOnlyInExtra};

use crate::header::endian_by_first_byte;
use perfdata_sources::endian::read_u64;
use perfdata_sources::source::{Source, read_exact, skip_up_to};
use std::io::Result;

/// The header of a perf.data pipe (`perf_pipe_file_header`).
#[derive(Clone, Copy, Debug)]
pub struct PerfPipeHeader {
    /// `PERFILE2` in the byte order of the pipe.
    pub magic: [u8; 8],
    /// The size of the header in bytes. A value below 16 means 16.
    pub size: u64,
}

// The number of header bytes that are parsed.
const KNOWN_SIZE: usize = 16;

// Parses a header in the byte order of its magic.
fn parse_header(bytes: &[u8]) -> PerfPipeHeader
    requires { length bytes.now ≡ 16 }
    ensures { result ≡ pipe_header_of bytes.now }
{
    let mut magic = [0u8; 8];
    magic.copy_from_slice(&bytes[..8]);
    PerfPipeHeader {
        magic,
        size: read_u64(endian_by_first_byte(bytes), &bytes[8..]),
    }
}

impl PerfPipeHeader {
    /// Parses a pipe header from a source, and returns it with whether all bytes of its size were read.
    ///
    /// Its size is little-endian if the first byte of the magic is `P`, else big-endian. If its size is more
    /// than 16 bytes, the bytes after these are read and discarded. It fails with `UnexpectedEof` if fewer
    /// than 16 bytes are read, and with the source's error if the source fails.
    pub fn parse_with_extra<R: Source>(source: &mut R) -> Result<(PerfPipeHeader, bool)>
        ensures parses { ParsesPipeHeaderWithExtra (R.state source.old) result (R.state source.new) }
        ensures pauses { PausesOnlyInExtra (R.state source.old) result (R.state source.new) }
        ensures same_loan { R.loan source.new ≡ R.loan source.old }
    {
        let mut bytes = [0u8; KNOWN_SIZE];
        read_exact(source, &mut bytes)?;
        let header = parse_header(&bytes);
        let extra = header.size.saturating_sub(KNOWN_SIZE as u64);
        let skipped = skip_up_to(source, extra)?;
        Ok((header, skipped == extra))
    }

    /// Parses a pipe header from a borrowed source, and leaves the source after it.
    ///
    /// It parses as `parse_with_extra` does. Missing bytes after the first 16 are no error.
    pub fn parse_from<R: Source>(source: &mut R) -> Result<PerfPipeHeader>
        ensures parses { ParsesPipeHeader (R.state source.old) result (R.state source.new) }
        ensures pauses { (R.state source.new).pauses ≤ (R.state source.old).pauses + 1 }
        ensures same_loan { R.loan source.new ≡ R.loan source.old }
    {
        let (header, _) = PerfPipeHeader::parse_with_extra(source)?;
        Ok(header)
    }

    /// Parses a pipe header from a source, as `parse_from` does.
    pub fn parse<R: Source + Drop>(mut r: R) -> Result<PerfPipeHeader>
        ensures { (left : State) × ParsesPipeHeader (R.state r) result left }
    {
        PerfPipeHeader::parse_from(&mut r)
    }
}
