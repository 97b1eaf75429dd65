//! The bytes of a recording without compression: each compressed record replaced by the records that its
//! content completes.
ghost use Rattle.std.specs.Prelude.{◌≡◌, ◌⊎◌, ◌↔◌, IsTrue};
ghost use Rattle.perfdata_arrays.specs.Decompressing.{MayBeCompressed, WritesInput, WritesNothing};
ghost use Rattle.perfdata_arrays.specs.Decompressing.{WritesPlainInput, WritesPlainOf};
ghost use Rattle.perfdata_arrays.specs.Overwrites.{WritesBytes};
ghost use Rattle.perfdata_arrays.specs.steps.Decompressing.{ReadsToEnd, WritesPlainRecording};
ghost use Rattle.perfdata_arrays.specs.steps.Written.{WritesMore};

use crate::array::{byte_count, copy_prefix};
use crate::metadata::FIRST_RECORD;
use crate::opening::{Recording, open};
use crate::output::push;
use crate::records::walk;
use crate::status::{Status, status_of_end, status_of_error};
use linux_perf_data::input_kind::InputKind;
use linux_perf_data::{Error, PerfFileReader};
use perfdata_base::source::{Counted, Source};
use perfdata_compressed::{ContentEnd, DecompressedFile, DecompressedPipe, is_compressed_file};
use std::alloc::Global;
use std::io;
use std::io::{Cursor, ErrorKind, Read, Seek, SeekFrom};

// The number of bytes that are copied at a time.
const CHUNK_SIZE: usize = 4096;

/// The size of a recording without compression and the status of the call.
#[derive(Clone, Copy, Debug, PartialEq, Eq)]
pub struct DecompressResult {
    /// The size of the recording in bytes; 0 if the input doesn't open.
    pub size: u64,
    /// Success, or the status of the first error.
    pub status: Status,
}

// The bytes of a file: without compression, or as they are if no record is compressed.
#[derive(Drop)]
enum FileBytes<'a> {
    Plain(Cursor<&'a [u8]>),
    Decompressed(DecompressedFile<Cursor<&'a [u8]>>),
}

impl Read for FileBytes<'_> {
    fn read(&mut self, buf: &mut [u8]) -> io::Result<usize> {
        match self {
            FileBytes::Plain(bytes) => bytes.read(buf),
            FileBytes::Decompressed(file) => file.read(buf),
        }
    }
}

impl Seek for FileBytes<'_> {
    fn seek(&mut self, to: SeekFrom) -> io::Result<u64> {
        match self {
            FileBytes::Plain(bytes) => bytes.seek(to),
            FileBytes::Decompressed(file) => file.seek(to),
        }
    }
}

impl FileBytes<'_> {
    fn content_end(&self) -> ContentEnd {
        match self {
            FileBytes::Plain(_) => ContentEnd::Whole,
            FileBytes::Decompressed(file) => file.content_end(),
        }
    }
}

fn file_bytes(alloc: Global, input: &[u8]) -> io::Result<FileBytes<'_>> {
    if !is_compressed_file(alloc, &mut Cursor::new(input))? {
        return Ok(FileBytes::Plain(Cursor::new(input)));
    }
    let file = DecompressedFile::with_unreadable_records(alloc, Cursor::new(input))?;
    Ok(FileBytes::Decompressed(file))
}

fn pipe_bytes(alloc: Global, input: &[u8]) -> io::Result<DecompressedPipe<Cursor<&[u8]>>> {
    DecompressedPipe::with_unreadable_records(alloc, Cursor::new(input))
}

// The status of an I/O error, which for bytes in memory says that memory ran out.
fn status_of_io(error: &io::Error) -> Status {
    match error.kind() {
        ErrorKind::OutOfMemory => Status::OutOfMemory,
        _ => Status::Other,
    }
}

// Returns the status of the first error in the records.
fn records_status<R: Source + Drop>(reader: PerfFileReader<R>) -> Status {
    let mut perf_file = reader.perf_file;
    let mut records = reader.record_iter;
    for _ in 0..u64::MAX {
        match records.next_record(&mut perf_file) {
            Ok(Some(_)) => {}
            Ok(None) => break,
            Err(error) => return status_of_error(&error),
        }
    }
    Status::Success
}

// Opens a file without compression, and returns the status of the first error in its records.
fn file_status(alloc: Global, input: &[u8]) -> Result<Status, Error> {
    let source = Counted::new(file_bytes(alloc, input)?);
    Ok(records_status(PerfFileReader::parse_file(alloc, source)?))
}

// Opens a pipe without compression, and returns the status of the first error in its records.
fn pipe_status(alloc: Global, input: &[u8]) -> Result<Status, Error> {
    let source = Counted::new(pipe_bytes(alloc, input)?);
    Ok(records_status(PerfFileReader::parse_pipe(alloc, source)?))
}

// Writes all bytes of a reader.
fn write_bytes<R: Read>(reader: &mut R, array: &mut [u8], size: &mut u64) -> io::Result<()>
    ensures { WritesMore size.old array.old size.new array.new }
{
    let mut chunk = [0u8; CHUNK_SIZE];
    for _ in 0..u64::MAX {
        let count = reader.read(&mut chunk)?;
        if count == 0 {
            break;
        }
        let (bytes, _) = chunk.split_at(count.min(chunk.len()));
        push(array, size, bytes);
    }
    Ok(())
}

fn write_file(
    alloc: Global,
    input: &[u8],
    array: &mut [u8],
    size: &mut u64,
) -> io::Result<ContentEnd>
    ensures { WritesMore size.old array.old size.new array.new }
{
    let mut bytes = file_bytes(alloc, input)?;
    write_bytes(&mut bytes, array, size)?;
    Ok(bytes.content_end())
}

fn write_pipe(
    alloc: Global,
    input: &[u8],
    array: &mut [u8],
    size: &mut u64,
) -> io::Result<ContentEnd>
    ensures { WritesMore size.old array.old size.new array.new }
{
    let mut bytes = pipe_bytes(alloc, input)?;
    write_bytes(&mut bytes, array, size)?;
    Ok(bytes.content_end())
}

// The status of a recording that was written, by that of its records: no memory for the content comes first.
fn written_status(written: io::Result<ContentEnd>, records: Status) -> Status {
    match written {
        Ok(ContentEnd::Error(error)) if error.is_out_of_memory() => Status::OutOfMemory,
        Ok(_) => records,
        Err(error) => status_of_io(&error),
    }
}

// Reads all records of a recording as they are. Returns the status of their end. Fails with the status of an
// error of the opening.
fn end_status(alloc: Global, bytes: &[u8], recording: Recording) -> Result<Status, Status>
    ensures { ReadsToEnd bytes.now recording result }
{
    let reader = open(alloc, bytes, recording)?;
    let mut perf_file = reader.perf_file;
    let mut input = reader.records;
    let walked = walk(&mut input, &mut perf_file, 0, &mut []);
    Ok(status_of_end(&walked.end))
}

// Writes a recording without compression.
fn decompress(
    alloc: Global,
    bytes: &[u8],
    recording: Recording,
    array: &mut [u8],
) -> DecompressResult
    ensures { WritesBytes result.size array.old array.new }
{
    let opened = match recording {
        Recording::File(_) => file_status(alloc, bytes),
        Recording::Pipe => pipe_status(alloc, bytes),
    };
    let records = match opened {
        Ok(status) => status,
        Err(error) => return nothing_written(status_of_error(&error)),
    };
    let mut size = 0;
    let written = match recording {
        Recording::File(_) => write_file(alloc, bytes, array, &mut size),
        Recording::Pipe => write_pipe(alloc, bytes, array, &mut size),
    };
    DecompressResult {
        size,
        status: written_status(written, records),
    }
}

// The result if nothing is written.
fn nothing_written(status: Status) -> DecompressResult
    ensures { result ≡ record { size = 0; status = status } }
{
    DecompressResult { size: 0, status }
}

// Whether a record may be compressed, by the status of the end of the records.
fn may_be_compressed(status: Status) -> bool
    ensures { IsTrue result ↔ MayBeCompressed status }
{
    matches!(status, Status::Compressed | Status::OutOfMemory)
}

// Writes a recording whose records end with a status: as it is, unless a record is compressed.
fn write_ended(
    alloc: Global,
    bytes: &[u8],
    recording: Recording,
    status: Status,
    array: &mut [u8],
) -> DecompressResult
    ensures plain { MayBeCompressed status ⊎ WritesInput bytes.now status array.old result array.new }
    ensures written { WritesBytes result.size array.old array.new }
{
    if may_be_compressed(status) {
        return decompress(alloc, bytes, recording, array);
    }
    copy_prefix(array, bytes);
    DecompressResult {
        size: byte_count(bytes),
        status,
    }
}

// Writes a recording whose opening fails with a status: nothing, unless a record is compressed.
fn write_unopened(
    alloc: Global,
    bytes: &[u8],
    recording: Recording,
    status: Status,
    array: &mut [u8],
) -> DecompressResult
    ensures plain { MayBeCompressed status ⊎ WritesNothing status array.old result array.new }
    ensures written { WritesBytes result.size array.old array.new }
{
    if may_be_compressed(status) {
        return decompress(alloc, bytes, recording, array);
    }
    nothing_written(status)
}

// Writes a recording: as it is, unless a record is compressed.
fn write_recording(
    alloc: Global,
    bytes: &[u8],
    recording: Recording,
    array: &mut [u8],
) -> DecompressResult
    ensures plain { WritesPlainRecording bytes.now recording array.old result array.new }
    ensures written { WritesBytes result.size array.old array.new }
{
    match end_status(alloc, bytes, recording) {
        Ok(status) => write_ended(alloc, bytes, recording, status, array),
        Err(status) => write_unopened(alloc, bytes, recording, status, array),
    }
}

// Writes an input of a kind: as it is, unless a record is compressed.
fn write_kind(
    alloc: Global,
    bytes: &[u8],
    kind: Option<InputKind>,
    array: &mut [u8],
) -> DecompressResult
    ensures plain { WritesPlainOf bytes.now array.old result array.new kind }
    ensures written { WritesBytes result.size array.old array.new }
{
    match kind {
        Some(InputKind::File) => {
            write_recording(alloc, bytes, Recording::File(FIRST_RECORD), array)
        }
        Some(InputKind::Pipe) => write_recording(alloc, bytes, Recording::Pipe, array),
        Some(InputKind::JitDump) | None => nothing_written(Status::BadMagic),
    }
}

/// Writes the recording of a perf.data file or a pipe without compression into `array`, up to its capacity:
/// each compressed record is replaced by the records that its content completes. The sections of features of
/// a file, which follow the records, move. The attributes and their ids precede the records, as perf writes
/// them.
///
/// From the first record on that can't be read, or whose content can't, the records are those of the input:
/// the recording that is written has the same first error there, and `Compressed` if it is one of compressed
/// data. If no record before the first error is compressed, the input is written as it is. If the input
/// doesn't open, the status is that of the error, and `size` is 0.
pub fn decompress_recording(alloc: Global, bytes: &[u8], array: &mut [u8]) -> DecompressResult
    ensures plain { WritesPlainInput bytes.now array.old result array.new }
    ensures written { WritesBytes result.size array.old array.new }
{
    write_kind(alloc, bytes, InputKind::of_start(bytes), array)
}
