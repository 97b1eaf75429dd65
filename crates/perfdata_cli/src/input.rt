//! The inputs of the programs: their kind, and their bytes in a buffer of 64 KiB.
ghost use Rattle.std.specs.Prelude.{◌≡◌, ◌≢◌, [], IfOk, codes};
ghost use Rattle.perfdata_sources.specs.CountedBuffer.{buffered_state, counted_buffer_bytes};
ghost use Rattle.perfdata_sources.specs.Source.{opaque_source};
ghost use Rattle.perfdata_cli.specs.Inputs.{OpensInMemory};

use crate::error::InputError;
use crate::input_bytes::{InputBytes, RawBytes, UNREADABLE_SIZE, Unread};
use crate::other_format::OtherFormat;
use linux_perf_data::in_memory::InMemoryReader;
pub use linux_perf_data::input_kind::InputKind;
use linux_perf_data::input_kind::START_SIZE;
use perfdata_base::source::CountedBuffer;
use perfdata_compressed::{ContentEnd, DecompressedFile, DecompressedPipe, is_compressed_file};
use std::alloc::Global;
use std::fs::File;
use std::io::{BufReader, Cursor, Input as StandardInput, Read, Result, Seek, copy};
use std::os::unix::fs::FileTypeExt;
use std::rt::Files;
use std::{fs, result};

/// The size of an input buffer in bytes.
pub const BUFFER_SIZE: usize = 65536;

// The number of bytes that tell whether an input is a text.
const TEXT_SIZE: u64 = 512;

// The file of a directory of `perf record --threads` that contains its metadata.
const THREADS_FILE: &str = "data";

// The input if the arguments name none and standard input isn't a FIFO.
const DEFAULT_PATH: &str = "perf.data";

// The path that stands for standard input.
const STANDARD_INPUT: &str = "-";

// The system's path of standard input.
const STANDARD_INPUT_PATH: &str = "/dev/stdin";

// The name of standard input in messages.
const STANDARD_INPUT_NAME: &str = "standard input";

// A record header with the size 0, in place of the one at which a read of a file fails if content can't be
// read.
const UNREADABLE: [u8; UNREADABLE_SIZE] = [0; UNREADABLE_SIZE];

/// Returns the input that a FILE argument names: standard input if there is none and standard input is a
/// FIFO, else the default.
pub fn input_path<'a>(rt: &HostRuntime, file: Option<&'a str>) -> &'a str {
    match (file, fs::metadata(rt, STANDARD_INPUT_PATH)) {
        (Some(path), _) => path,
        (None, Ok(metadata)) if metadata.file_type().is_fifo() => STANDARD_INPUT,
        (None, _) => DEFAULT_PATH,
    }
}

/// Returns the name of an input in messages.
pub fn display_name(path: &str) -> &str
    ensures standard_input { path.now ≡ codes "-" → result.now ≡ codes "standard input" }
    ensures other { path.now ≢ codes "-" → result.now ≡ path.now }
{
    match path {
        STANDARD_INPUT => STANDARD_INPUT_NAME,
        path => path,
    }
}

/// Returns the path at which an input with this name in messages can be opened again, if it is a regular
/// file.
pub(crate) fn path_of_name(name: &str) -> &str
    ensures standard_input { name.now ≡ codes "standard input" → result.now ≡ codes "/dev/stdin" }
    ensures other { name.now ≢ codes "standard input" → result.now ≡ name.now }
{
    match name {
        STANDARD_INPUT_NAME => STANDARD_INPUT_PATH,
        path => path,
    }
}

/// An open input, of which the first bytes were read.
#[derive(Drop)]
pub struct OpenInput {
    /// The kind of the input, if it is known.
    pub kind: Option<InputKind>,
    /// The size in bytes of a regular file.
    pub size: Option<u64>,
    start: Vec<u8>,
    unread: Unread,
}

// Opens an input. Returns the size of a regular file.
fn open_unread(rt: &HostRuntime, path: &str) -> Result<(Unread, Option<u64>)> {
    if path == STANDARD_INPUT {
        return Ok((Unread::Stdin(rt.stdin()), None));
    }
    let file = File::open(rt, path)?;
    let metadata = file.metadata()?;
    let size = if metadata.is_file() {
        Some(metadata.len())
    } else {
        None
    };
    Ok((Unread::File(file), size))
}

// Returns whether the input at a path is a directory of `perf record --threads`.
fn is_threads_directory(rt: &HostRuntime, path: &str) -> Result<bool> {
    if !fs::metadata(rt, path)?.is_dir() {
        return Ok(false);
    }
    let file = format!(in rt.alloc(); "{path}/{THREADS_FILE}")?;
    Ok(fs::metadata(rt, file.as_str())?.is_file())
}

impl OpenInput {
    ghost use Rattle.std.specs.Prelude.{Some};
    ghost use Rattle.linux_perf_data.specs.declared.input_kind.InputKind.TheVariants.{File as FileInput};
    ghost use Rattle.perfdata_compressed.specs.declared.content.ContentEnd.TheVariants.{Whole};
    ghost use Rattle.perfdata_cli.specs.Inputs.{IsNoCompressedFile, IsPipe};

    /// Opens the input at a path and reads its first bytes, of which the first read may wait.
    ///
    /// Fails if it can't be opened, if a read fails, or if memory runs out.
    pub fn open(rt: &HostRuntime, path: &str) -> Result<OpenInput> {
        let (mut unread, size) = open_unread(rt, path)?;
        let mut start = Vec::new(rt.alloc());
        unread
            .by_ref()
            .take(START_SIZE as u64)
            .read_to_end(&mut start)?;
        Ok(OpenInput {
            kind: InputKind::of_start(&start),
            size,
            start,
            unread,
        })
    }

    // Returns the format of an input that starts with no known kind, if it is known.
    fn other_format(&mut self) -> Result<Option<OtherFormat>> {
        if self.kind.is_some() {
            return Ok(None);
        }
        self.unread
            .by_ref()
            .take(TEXT_SIZE)
            .read_to_end(&mut self.start)?;
        Ok(OtherFormat::of_start(&self.start))
    }

    /// Opens the input at a path, as `open` does.
    ///
    /// Fails with `ThreadsDirectory` if it is a directory of `perf record --threads`, with `OtherFormat` if
    /// it has a format that no program reads, and with `Io` if it can't be opened or read.
    pub fn open_recording(rt: &HostRuntime, path: &str) -> result::Result<OpenInput, InputError> {
        if is_threads_directory(rt, path).unwrap_or(false) {
            return Err(InputError::ThreadsDirectory);
        }
        let mut input = OpenInput::open(rt, path).map_err(InputError::Io)?;
        match input.other_format() {
            Ok(Some(format)) => Err(InputError::OtherFormat(format)),
            Ok(None) => Ok(input),
            Err(error) => Err(InputError::Io(error)),
        }
    }

    /// Returns whether the input is a pipe, otherwise it is a perf.data file.
    ///
    /// Fails with `JitDump` if it is a jitdump, and with `UnknownFormat` if it is none of them.
    pub fn is_pipe(&self) -> result::Result<bool, InputError>
        ensures { IsPipe self.now.kind result }
    {
        match self.kind {
            Some(InputKind::File) => Ok(false),
            Some(InputKind::Pipe) => Ok(true),
            Some(InputKind::JitDump) => Err(InputError::JitDump),
            None => Err(InputError::UnknownFormat),
        }
    }

    // Reads the input as it is into memory.
    fn into_raw_vec(self) -> Result<Vec<u8>> {
        let OpenInput {
            mut start,
            mut unread,
            ..
        } = self;
        copy(&mut unread, &mut start)?;
        Ok(start)
    }

    // Returns the bytes of the input as they are, from its start. A regular file is sought, a pipe is read as
    // a stream, and other inputs are read into memory.
    fn into_raw_bytes(self) -> Result<RawBytes> {
        match self {
            OpenInput {
                unread: Unread::File(mut file),
                size: Some(_),
                ..
            } => {
                file.rewind()?;
                Ok(RawBytes::File(file))
            }
            OpenInput {
                kind: Some(InputKind::Pipe),
                start,
                unread,
                ..
            } => Ok(RawBytes::Stream(Cursor::new(start).chain(unread))),
            input => Ok(RawBytes::Memory(Cursor::new(input.into_raw_vec()?))),
        }
    }

    // Returns the bytes of the input from its start. Those of a recording are without compression.
    pub(crate) fn into_input_bytes(self, alloc: Global) -> Result<InputBytes>
        ensures { IfOk result (λ bytes. self.kind ≢ Some FileInput → IsNoCompressedFile bytes) }
    {
        let kind = self.kind;
        let bytes = self.into_raw_bytes()?;
        match kind {
            Some(InputKind::Pipe) => Ok(InputBytes::Pipe(DecompressedPipe::new(alloc, bytes)?)),
            Some(InputKind::File) => file_bytes(alloc, bytes),
            Some(InputKind::JitDump) | None => Ok(InputBytes::Raw(bytes)),
        }
    }

    /// Reads the input into memory, a recording without compression. Returns its bytes, and where the content
    /// of a file's compressed records ends, which is whole for other inputs. If content of a file can't be
    /// read, the record header at which a reader gets the error has the size 0.
    ///
    /// Fails if a read fails, if content of a pipe can't be read, or if memory runs out.
    pub fn into_bytes(self, alloc: Global) -> Result<(Vec<u8>, ContentEnd)>
        ensures whole { IfOk result (λ read. self.kind ≢ Some FileInput → read.1 ≡ Whole) }
    {
        let mut bytes = self.into_input_bytes(alloc)?;
        let end = bytes.content_end();
        let mut all = Vec::new(alloc);
        let read = bytes.read_to_end(&mut all);
        if let Err(error) = read {
            bytes.skip_unreadable(error)?;
            all.extend_from_slice(&UNREADABLE)?;
            bytes.read_to_end(&mut all)?;
        }
        Ok((all, end))
    }

    /// Returns the input from its start as a source with a buffer of `BUFFER_SIZE` bytes. A recording is
    /// without compression.
    ///
    /// The buffer is empty, and the counts of I/O errors and of empty reads are 0.
    pub fn into_source(self, alloc: Global) -> Result<CountedBuffer<InputBytes>>
        ensures counts { IfOk result (λ s. buffered_state s ≡ opaque_source 0 0) }
        ensures empty { IfOk result (λ s. counted_buffer_bytes s ≡ []) }
    {
        with_buffer(alloc, self.into_input_bytes(alloc)?)
    }
}

// Returns the bytes of a perf.data file, without compression.
fn file_bytes(alloc: Global, mut bytes: RawBytes) -> Result<InputBytes> {
    if is_compressed_file(alloc, &mut bytes)? {
        return Ok(InputBytes::File(DecompressedFile::new(alloc, bytes)?));
    }
    bytes.rewind()?;
    Ok(InputBytes::Raw(bytes))
}

/// Opens a pipe or a perf.data file in memory. Fails with `Metadata` if its metadata can't be read.
pub fn open_in_memory(
    alloc: Global,
    bytes: &[u8],
    is_pipe: bool,
) -> result::Result<InMemoryReader<'_>, InputError>
    ensures { OpensInMemory bytes.now is_pipe result }
{
    let opened = if is_pipe {
        InMemoryReader::parse_pipe(alloc, bytes)
    } else {
        InMemoryReader::parse_file(alloc, bytes)
    };
    opened.map_err(InputError::Metadata)
}

// Buffers a reader. Fails if the allocation of the buffer fails.
pub(crate) fn with_buffer<R: Read + Drop>(alloc: Global, reader: R) -> Result<CountedBuffer<R>>
    ensures counts { IfOk result (λ s. buffered_state s ≡ opaque_source 0 0) }
    ensures empty { IfOk result (λ s. counted_buffer_bytes s ≡ []) }
{
    let reader = BufReader::with_capacity(alloc, BUFFER_SIZE, reader)?;
    Ok(CountedBuffer::new(reader))
}

/// Opens the file at a path with a buffer of `BUFFER_SIZE` bytes. The buffer is empty, and the counts of I/O
/// errors and of empty reads are 0.
///
/// Fails if the file can't be opened, or the allocation of the buffer fails.
pub fn open_file<R: Files + AllocGlobal>(rt: &R, path: &str) -> Result<CountedBuffer<R::File>>
    ensures counts { IfOk result (λ s. buffered_state s ≡ opaque_source 0 0) }
    ensures empty { IfOk result (λ s. counted_buffer_bytes s ≡ []) }
{
    let file = fs::open(rt, path)?;
    with_buffer(rt.alloc(), file)
}

/// Returns standard input with a buffer of `BUFFER_SIZE` bytes. The buffer is empty, and the counts of I/O
/// errors and of empty reads are 0.
///
/// Fails if the allocation of the buffer fails.
pub fn open_stdin<R: StandardInput + AllocGlobal>(rt: &R) -> Result<CountedBuffer<R::Reader>>
    ensures counts { IfOk result (λ s. buffered_state s ≡ opaque_source 0 0) }
    ensures empty { IfOk result (λ s. counted_buffer_bytes s ≡ []) }
{
    with_buffer(rt.alloc(), rt.reader())
}
