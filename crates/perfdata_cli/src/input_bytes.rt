//! The bytes of an input: a file, a stream after its first bytes, or bytes in memory; those of a recording
//! without compression.
ghost use Rattle.std.specs.Prelude.{◌≡◌};
ghost use Rattle.perfdata_compressed.specs.declared.content.ContentEnd.TheVariants.{Whole};
ghost use Rattle.perfdata_cli.specs.Inputs.{IsNoCompressedFile};

use perfdata_base::source::CountedBuffer;
use perfdata_compressed::{ContentEnd, DecompressedFile, DecompressedPipe};
use std::fs::File;
use std::io::{Chain, Cursor, Error, ErrorKind, Read, Result, Seek, SeekFrom};
use std::rt::Stdin;

/// The size in bytes of the record header at which a read of a file fails, if content can't be read.
pub(crate) const UNREADABLE_SIZE: usize = 8;

/// Bytes that are read once.
#[derive(Drop)]
pub enum Unread {
    /// The bytes of a file or FIFO.
    File(File),
    /// The bytes of standard input.
    Stdin(Stdin),
}

impl Read for Unread {
    fn read(&mut self, buf: &mut [u8]) -> Result<usize> {
        match self {
            Unread::File(file) => file.read(buf),
            Unread::Stdin(stdin) => stdin.read(buf),
        }
    }
}

/// The bytes of an input in a buffer.
pub type Source = CountedBuffer<InputBytes>;

/// The bytes of an input from its start, as they are.
#[derive(Drop)]
pub enum RawBytes {
    /// A file that can be sought.
    File(File),
    /// A stream, whose first bytes are in memory.
    Stream(Chain<Cursor<Vec<u8>>, Unread>),
    /// All bytes in memory.
    Memory(Cursor<Vec<u8>>),
}

impl Read for RawBytes {
    fn read(&mut self, buf: &mut [u8]) -> Result<usize> {
        match self {
            RawBytes::File(file) => file.read(buf),
            RawBytes::Stream(stream) => stream.read(buf),
            RawBytes::Memory(bytes) => bytes.read(buf),
        }
    }
}

impl Seek for RawBytes {
    // Fails for a stream.
    fn seek(&mut self, to: SeekFrom) -> Result<u64> {
        match self {
            RawBytes::File(file) => file.seek(to),
            RawBytes::Stream(_) => Err(ErrorKind::NotSeekable.into()),
            RawBytes::Memory(bytes) => bytes.seek(to),
        }
    }
}

/// The bytes of an input from its start. Those of a recording are without compression.
#[derive(Drop)]
pub enum InputBytes {
    /// A file without compressed records, or an input that is no recording.
    Raw(RawBytes),
    /// A file with compressed records.
    File(DecompressedFile<RawBytes>),
    /// A pipe.
    Pipe(DecompressedPipe<RawBytes>),
}

impl InputBytes {
    /// Returns where the content of a file's compressed records ends.
    pub(crate) fn content_end(&self) -> ContentEnd
        ensures { IsNoCompressedFile self.now → result ≡ Whole }
    {
        match self {
            InputBytes::File(file) => file.content_end(),
            InputBytes::Raw(_) | InputBytes::Pipe(_) => ContentEnd::Whole,
        }
    }

    /// Goes on after the record header at which a read of a file failed, if content can't be read.
    ///
    /// Fails with the error of the read if it has another cause.
    pub(crate) fn skip_unreadable(&mut self, error: Error) -> Result<()> {
        match self.content_end() {
            ContentEnd::Error(_) => {
                self.seek(SeekFrom::Current(UNREADABLE_SIZE as i64))?;
                Ok(())
            }
            _ => Err(error),
        }
    }
}

impl Read for InputBytes {
    fn read(&mut self, buf: &mut [u8]) -> Result<usize> {
        match self {
            InputBytes::Raw(bytes) => bytes.read(buf),
            InputBytes::File(file) => file.read(buf),
            InputBytes::Pipe(pipe) => pipe.read(buf),
        }
    }
}

impl Seek for InputBytes {
    // Fails for a pipe, and for a stream.
    fn seek(&mut self, to: SeekFrom) -> Result<u64> {
        match self {
            InputBytes::Raw(bytes) => bytes.seek(to),
            InputBytes::File(file) => file.seek(to),
            InputBytes::Pipe(_) => Err(ErrorKind::NotSeekable.into()),
        }
    }
}
