//! A jitdump that may be a pipe. Opening it waits for its file header and for nothing after it.
use linux_perf_data::jitdump::{DEFAULT_BUFFER_SIZE, JitDumpError, JitDumpHeader};
use linux_perf_data::raw::RawData;
use std::alloc::Global;
use std::io::{self, Read};

/// A jitdump whose file header is already read. A reader of it reads the header, then one empty read, and
/// then the rest.
#[derive(Drop)]
pub struct Dump<R> {
    header: Vec<u8>,
    given: usize,
    is_header_given: bool,
    rest: R,
}

// Whether the bytes contain a complete header, or can't be the start of one.
fn ends_header(bytes: &[u8]) -> bool {
    match JitDumpHeader::parse(RawData::Single(bytes)) {
        Err(JitDumpError::NotEnoughBytesForHeader) => false,
        _ => true,
    }
}

impl<R: Read + Drop> Dump<R> {
    // Reads the header, or as much of it as there is, byte by byte. The listing of a jitdump whose header is
    // longer than the buffer fails, as `list_jit` does.
    pub fn new(alloc: Global, mut rest: R) -> io::Result<Dump<R>> {
        let mut header = Vec::new(alloc);
        for _ in 0..DEFAULT_BUFFER_SIZE {
            if ends_header(&header) {
                break;
            }
            let mut byte = [0];
            if rest.read(&mut byte)? == 0 {
                break;
            }
            header.push(byte[0])?;
        }
        Ok(Dump {
            header,
            given: 0,
            is_header_given: false,
            rest,
        })
    }
}

impl<R: Read> Read for Dump<R> {
    fn read(&mut self, buf: &mut [u8]) -> io::Result<usize> {
        if self.is_header_given {
            return self.rest.read(buf);
        }
        let mut unread = self.header.get(self.given..).unwrap_or(&[]);
        let count = unread.read(buf)?;
        self.given = self.given.saturating_add(count);
        if count == 0 && !buf.is_empty() {
            self.is_header_given = true;
        }
        Ok(count)
    }
}
