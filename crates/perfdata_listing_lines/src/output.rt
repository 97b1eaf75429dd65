//! Output to a writer that may fail: lines, a buffer that counts them, and the end of the program's output.
ghost use Rattle.std.specs.Prelude.{◌≡◌, ◌≢◌, ◌+◌, ◌-◌, ◌^◌, ◌<◌, ◌≤◌, ◌++◌, ℕ, List, [], length, take, drop};
ghost use Rattle.std.specs.Prelude.{vec_len, vec_capacity, IfOk, OnOk, OnErr, false};
ghost use Rattle.std.specs.Io.{WritesAtMost};
ghost use Rattle.std.specs.Io.KnownBytes.{Appends, Keeps, WriteAppends};
ghost use Rattle.perfdata_listing_lines.specs.Output.{WritesAll, Finishes, newline_count};

use crate::line::ListingLine;
use std::alloc::{AllocError, Global};
use std::io;
use std::io::{ErrorKind, Write};

// The capacity of a `CountingBufWriter` in bytes.
const BUFFER_CAPACITY: usize = 65536;

// Number of bytes that are searched for newlines at once.
const NEWLINE_BLOCK_SIZE: usize = 128;

// Writes all bytes or as many as the writer accepts, and returns the number of bytes written. No write is
// repeated. A write of 0 bytes is an error of kind `WriteZero`.
fn write_all_counted<W: Write>(out: &mut W, bytes: &[u8]) -> (usize, io::Result<()>)
    ensures bound { result.0 ≤ length bytes.now }
    ensures on_ok { OnOk result.1 (result.0 ≡ length bytes.now) }
    ensures on_error { OnErr result.1 (result.0 < length bytes.now) }
    ensures appends { Appends (W.contents out.old) (W.contents out.new) (take result.0 bytes.now) }
{
    let mut total = 0;
    'writes: while total < bytes.len() {
        match out.write(&bytes[total..]) {
            Ok(0) => {
                let error = io::Error::new(ErrorKind::WriteZero, "the writer takes no byte");
                return (total, Err(error));
            }
            Ok(count) => total += count,
            Err(error) => return (total, Err(error)),
        }
    }
    (total, Ok(()))
}

/// Writes a line. If the writer fails, a proper prefix of the line is written. The error is the writer's own,
/// or of kind `WriteZero` if it accepts no byte. No write is repeated.
pub fn write_line<W: Write>(out: &mut W, line: &[u8]) -> io::Result<()>
    ensures { WritesAll (W.contents out.old) (W.contents out.new) line.now result }
{
    let (_, outcome) = write_all_counted(out, line);
    outcome
}

/// Ends the listing. For `Ok` it writes nothing and returns the exit status 0. For an error after `records`
/// records it writes the error's line and returns the exit status 2. Fails as `write_line` does.
pub fn finish<W: Write>(outcome: Result<u64, u64>, err: &mut W) -> io::Result<u8>
    ensures { Finishes (W.contents err.old) (W.contents err.new) outcome result }
{
    match outcome {
        Ok(_) => Ok(0),
        Err(records) => {
            let line = ListingLine::for_error(records);
            write_line(err, line.as_bytes())?;
            Ok(2)
        }
    }
}

/// A writer that buffers lines until its buffer is full, and counts the complete lines that it wrote to the
/// inner writer. It allocates memory only when it is created.
#[derive(Drop)]
pub struct CountingBufWriter<W> {
    inner: W,
    buffered: Vec<u8>,
    lines_written: u64,
    failed: bool,
    ghost has_capacity: { 0 < vec_capacity buffered },
    ghost count_in_range: { lines_written < 2 ^ 64 },
}

// The number of newlines in at most 255 bytes. An 8-bit count lets the compiler count 16 bytes at once.
fn count_newlines_in_block(bytes: &[u8]) -> u8
    requires { length bytes.now ≤ 255 }
    ensures { result ≡ newline_count bytes.now }
{
    let mut lines = 0;
    'bytes: for byte in bytes {
        lines += (*byte == b'\n') as u8;
    }
    lines
}

// The number of newlines in the bytes.
fn count_newlines(bytes: &[u8]) -> u64
    ensures { result ≡ newline_count bytes.now }
{
    let mut lines = 0;
    let mut remaining = bytes;
    'blocks: while !remaining.is_empty() {
        let (block, rest) = remaining.split_at(remaining.len().min(NEWLINE_BLOCK_SIZE));
        lines += count_newlines_in_block(block) as u64;
        remaining = rest;
    }
    lines
}

// Removes the first `count` bytes.
fn drain_prefix(bytes: &mut Vec<u8>, count: usize)
    requires { count ≤ vec_len bytes.old }
    ensures items { bytes.new.items ≡ drop count bytes.old.items }
    ensures capacity { vec_capacity bytes.new ≡ vec_capacity bytes.old }
{
    let length = bytes.len();
    bytes.as_mut_slice().copy_within(count..length, 0);
    bytes.truncate(length - count);
}

// Appends the bytes to the buffered ones, without an allocation.
#[inline]
fn append_within_capacity(buffer: &mut Vec<u8>, bytes: &[u8])
    requires { vec_len buffer.old + length bytes.now ≤ vec_capacity buffer.old }
    ensures items { buffer.new.items ≡ buffer.old.items ++ bytes.now }
    ensures capacity { vec_capacity buffer.old ≤ vec_capacity buffer.new }
{
    let Ok(()) = buffer.extend_from_slice(bytes) else {
        unreachable!()
    };
}

impl<W: Write> CountingBufWriter<W> {
    ghost use Rattle.perfdata_listing_lines.specs.CountingBufWriter.{pending_bytes, has_failed};
    ghost use Rattle.perfdata_listing_lines.specs.CountingBufWriter.{lines_written};
    ghost use Rattle.perfdata_listing_lines.specs.CountingBufWriter.{inner_writer, BuffersAndForwards};
    ghost use Rattle.perfdata_listing_lines.specs.CountingBufWriter.{AcceptsWrite, Tries};

    /// Creates a buffer of 64 KiB for a writer. Fails if the allocation fails, and drops the writer.
    pub fn new(alloc: Global, inner: W) -> Result<CountingBufWriter<W>, AllocError>
    where
        W: Drop,
        ensures empty { IfOk result (λ b. pending_bytes b ≡ []) }
        ensures none_written { IfOk result (λ b. lines_written b ≡ 0) }
        ensures not_failed { IfOk result (λ b. has_failed b ≡ false) }
        ensures inner { IfOk result (λ b. inner_writer b ≡ inner) }
    {
        let buffered = Vec::with_capacity(alloc, BUFFER_CAPACITY)?;
        Ok(CountingBufWriter {
            inner,
            buffered,
            lines_written: 0,
            failed: false,
        })
    }

    /// Number of complete lines that were written to the inner writer, at most `u64::MAX`.
    pub fn lines_written(&self) -> u64
        ensures { result ≡ lines_written self.now }
    {
        self.lines_written
    }

    /// Whether the inner writer has failed in a write or a flush.
    pub fn has_failed(&self) -> bool
        ensures { result ≡ has_failed self.now }
    {
        self.failed
    }

    // Writes the buffered bytes to the inner writer. Bytes that it doesn't accept stay in the buffer.
    fn flush_buffer(&mut self) -> io::Result<()>
        ensures forwards { BuffersAndForwards W.contents self.old [] self.new }
        ensures empty { OnOk result (pending_bytes self.new ≡ []) }
        ensures not_empty_on_error { OnErr result (pending_bytes self.new ≢ []) }
        ensures tries { Tries self.old result self.new }
        ensures capacity { vec_capacity self.new.buffered ≡ vec_capacity self.old.buffered }
    {
        let (count, outcome) = write_all_counted(&mut self.inner, self.buffered.as_slice());
        let lines = count_newlines(&self.buffered[..count]);
        self.lines_written = self.lines_written.saturating_add(lines);
        drain_prefix(&mut self.buffered, count);
        if outcome.is_err() {
            self.failed = true;
        }
        outcome
    }

    // Flushes the buffer, and appends as many of the bytes as fit.
    #[cold]
    #[inline(never)]
    fn flush_then_write(&mut self, bytes: &[u8]) -> io::Result<usize>
        ensures bound { WritesAtMost result bytes.now }
        ensures accepts { AcceptsWrite W.contents self.old bytes.now result self.new }
        ensures not_empty_on_error { OnErr result (pending_bytes self.new ≢ []) }
        ensures tries { Tries self.old result self.new }
        ensures progress { IfOk result (λ n. 0 < length bytes.now → 0 < n) }
    {
        self.flush_buffer()?;
        let count = bytes.len().min(self.buffered.capacity());
        append_within_capacity(&mut self.buffered, &bytes[..count]);
        Ok(count)
    }
}

impl<W: Write> Write for CountingBufWriter<W> {
    ghost use Rattle.perfdata_listing_lines.specs.CountingBufWriter.{pending_bytes, free_capacity};
    ghost use Rattle.perfdata_listing_lines.specs.CountingBufWriter.{contents_with_buffer};
    ghost use Rattle.perfdata_listing_lines.specs.CountingBufWriter.{BuffersAndForwards};
    ghost use Rattle.perfdata_listing_lines.specs.CountingBufWriter.{AcceptsWrite, Tries};

    ghost contents = { contents_with_buffer W.contents };

    #[inline]
    fn write(&mut self, bytes: &[u8]) -> io::Result<usize>
        ensures bound { WritesAtMost result bytes.now }
        ensures bytes { WriteAppends (contents_with_buffer W.contents self.old)
            (contents_with_buffer W.contents self.new) result bytes.now }
        ensures accepts { AcceptsWrite W.contents self.old bytes.now result self.new }
        ensures not_empty_on_error { OnErr result (pending_bytes self.new ≢ []) }
        ensures tries { Tries self.old result self.new }
        ensures progress { IfOk result (λ n. 0 < length bytes.now → 0 < n) }
        ensures fits { length bytes.now ≤ free_capacity self.old → result ≡ Ok (length bytes.now) }
    {
        if bytes.len() <= self.buffered.capacity() - self.buffered.len() {
            append_within_capacity(&mut self.buffered, bytes);
            return Ok(bytes.len());
        }
        self.flush_then_write(bytes)
    }

    fn flush(&mut self) -> io::Result<()>
        ensures bytes { Keeps (contents_with_buffer W.contents self.old)
            (contents_with_buffer W.contents self.new) }
        ensures forwards { BuffersAndForwards W.contents self.old [] self.new }
        ensures tries { Tries self.old result self.new }
        ensures empty { OnOk result (pending_bytes self.new ≡ []) }
    {
        self.flush_buffer()?;
        let flushed = self.inner.flush();
        if flushed.is_err() {
            self.failed = true;
        }
        flushed
    }
}

/// A writer that may buffer bytes, and whose contract says which bytes are pending.
pub trait FlushPending: Write {
    /// The bytes that are buffered and not written yet.
    ghost pending: { Self → List ℕ };

    /// Flushes all pending bytes.
    fn flush_pending(&mut self) -> io::Result<()>
        ensures contents_kept { Keeps (Self.contents self.old) (Self.contents self.new) }
        ensures on_ok { OnOk result (pending self.new ≡ []) };
}

impl<W: Write> FlushPending for CountingBufWriter<W> {
    ghost use Rattle.perfdata_listing_lines.specs.CountingBufWriter.{pending_bytes};

    ghost pending = { pending_bytes };

    fn flush_pending(&mut self) -> io::Result<()> {
        self.flush()
    }
}
