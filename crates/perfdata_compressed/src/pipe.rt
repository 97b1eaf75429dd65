//! The bytes of a pipe without compression.
ghost use Rattle.std.specs.Io.{ReadsAtMost};

use crate::content::ContentEnd;
use crate::plain_records::PlainRecords;
use std::alloc::Global;
use std::io::{Read, Result};

/// Reads the bytes of a pipe without compression: whole records of the content of compressed records (types
/// 81 and 83) take the place of each compressed record, and all other bytes are those of the pipe.
///
/// All compressed records are one zstd stream. A record of the content may continue in the next compressed
/// record. Nothing is read ahead but what one read of the pipe returns, at most 64 KiB, and a read waits only
/// if nothing can be returned. Beside these bytes a window (up to 128 MiB), a block (128 KiB) and a record
/// are held.
///
/// From a record on whose size is too small, and from a record that the end of the pipe cuts, all bytes are
/// those of the pipe. A pipe may end in a record of the content or in a block of the stream: what is there of
/// the record isn't returned, and this is no error.
///
/// # Errors
///
/// A read fails with the errors of the pipe, and, after all bytes before, then and at each later call, with
/// `InvalidData` and the text of a [`CompressedError`](crate::CompressedError) if content can't be read, or
/// `OutOfMemory` if memory runs out.
#[derive(Drop)]
pub struct DecompressedPipe<R> {
    pipe: R,
    records: PlainRecords,
}

impl<R: Read + Drop> DecompressedPipe<R> {
    /// Returns the bytes of a pipe, from its header on. Nothing is read.
    ///
    /// # Errors
    ///
    /// `OutOfMemory` if the allocation of a buffer of 64 KiB fails.
    pub fn new(alloc: Global, pipe: R) -> Result<DecompressedPipe<R>> {
        Ok(DecompressedPipe {
            pipe,
            records: PlainRecords::of_pipe(alloc)?,
        })
    }

    /// Returns the bytes of a pipe, as `new` does. From the first compressed record on whose content can't be
    /// read, all bytes are those of the pipe, after the records of its content before the error.
    ///
    /// # Errors
    ///
    /// `OutOfMemory` if the allocation of a buffer of 64 KiB fails.
    pub fn with_unreadable_records(alloc: Global, pipe: R) -> Result<DecompressedPipe<R>> {
        let mut records = PlainRecords::of_pipe(alloc)?;
        records.keep_unreadable();
        Ok(DecompressedPipe { pipe, records })
    }

    /// Returns where the content of the compressed records ends, once all bytes were read.
    pub fn content_end(&self) -> ContentEnd {
        self.records.content_end()
    }
}

// Takes the next bytes that are known into `buf`, and returns their number. It is 0 if more input is needed.
pub(crate) fn take_known(records: &mut PlainRecords, buf: &mut [u8]) -> Result<usize>
    ensures bound { ReadsAtMost result buf.new }
{
    let bytes = match records.next_bytes() {
        Ok(bytes) => bytes,
        Err(error) => return Err(error.io_error()),
    };
    let count = bytes.len().min(buf.len());
    let (taken, _) = bytes.split_at(count);
    buf[..count].copy_from_slice(taken);
    records.take(count);
    Ok(count)
}

impl<R: Read> DecompressedPipe<R> {
    // Reads until bytes are known, or content can't be read, or the pipe ends.
    fn fill(&mut self) -> Result<()> {
        for _ in 0..u64::MAX {
            match self.records.next_bytes() {
                Ok(bytes) if bytes.is_empty() => {}
                Ok(_) | Err(_) => break,
            }
            let count = self.pipe.read(self.records.input_space())?;
            self.records.add_input(count);
            if count == 0 {
                break;
            }
        }
        Ok(())
    }
}

impl<R: Read> Read for DecompressedPipe<R> {
    fn read(&mut self, buf: &mut [u8]) -> Result<usize> {
        if buf.is_empty() {
            return Ok(0);
        }
        self.fill()?;
        take_known(&mut self.records, buf)
    }
}
