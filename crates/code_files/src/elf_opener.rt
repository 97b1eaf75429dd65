//! Opens ELF files.

use crate::build_ids::is_accepted;
use crate::directories::Directories;
use crate::file_bytes::FileBytes;
use crate::file_problems::{FileProblem, read_or_none, value_or_none, value_or_problem};
use crate::file_sources::{FileSource, PathRoot};
use code_symbols::{Crc32, ElfError, ElfFile};
use perfdata_base::source::CountedBuffer;
use std::alloc::{AllocError, Global};
use std::fs::File;
use std::io;
use std::io::{BufReader, Read};

// The number of bytes of a file that are read at once for its CRC-32.
const PIECE_SIZE: usize = 4096;

// An ELF file whose headers are read.
pub(crate) type Elf = ElfFile<CountedBuffer<FileBytes>>;

// Opens ELF files.
#[derive(Drop)]
pub(crate) struct ElfOpener<'a> {
    pub(crate) rt: &'a HostRuntime,
    /// Where files are, if any are read.
    pub(crate) directories: Option<Directories<'a>>,
}

// Returns bytes with a buffer.
pub(crate) fn buffered<R: Read + Drop>(
    alloc: Global,
    bytes: R,
) -> Result<CountedBuffer<R>, AllocError> {
    match BufReader::new(alloc, bytes) {
        Ok(reader) => Ok(CountedBuffer::new(reader)),
        Err(_) => Err(AllocError),
    }
}

// Returns the CRC-32 of the rest of a file.
fn file_crc(file: &mut File) -> io::Result<u32> {
    let mut crc = Crc32::new();
    let mut piece = [0u8; PIECE_SIZE];
    for _ in 0..u64::MAX {
        let count = file.read(&mut piece)?;
        if count == 0 {
            break;
        }
        crc.update(piece.get(..count).unwrap_or(&[]));
    }
    Ok(crc.value())
}

// Returns whether a file has the CRC-32 of a debug link.
fn has_crc(file: &mut File, crc: u32) -> Result<bool, AllocError> {
    let read = read_or_none(file_crc(file).map_err(ElfError::Io))?;
    Ok(read == Some(crc))
}

impl ElfOpener<'_> {
    // Reads the headers of a file.
    pub(crate) fn read_headers(
        &self,
        bytes: FileBytes,
    ) -> Result<Result<Elf, FileProblem>, AllocError> {
        let alloc = self.rt.alloc();
        let opened = ElfFile::open(alloc, buffered(alloc, bytes)?);
        value_or_problem(opened.map_err(|error| FileProblem::from(error)))
    }

    // Opens the mapped file at a path.
    pub(crate) fn open_path(&self, path: &str) -> Result<Result<Elf, FileProblem>, AllocError> {
        let Some(directories) = &self.directories else {
            return Ok(Err(FileProblem::NotFound));
        };
        match value_or_problem(directories.files.find_file(self.rt, path))? {
            Ok(file) => self.read_headers(FileBytes::File(file)),
            Err(problem) => Ok(Err(problem)),
        }
    }

    // Returns the build id of a file, which is empty if it has none or if it can't be read.
    pub(crate) fn build_id(&self, elf: &mut Elf) -> Result<Vec<u8>, AllocError> {
        let alloc = self.rt.alloc();
        match read_or_none(elf.build_id(alloc))? {
            Some(Some(id)) => Ok(id),
            _ => Ok(Vec::new(alloc)),
        }
    }

    // Opens the file of a source. A file that isn't there, or that can't be read, is none. The CRC-32 of the
    // debug link decides where there is no build id.
    fn open_file(&self, source: &FileSource, id: &[u8]) -> Result<Option<File>, AllocError> {
        let Some(directories) = &self.directories else {
            return Ok(None);
        };
        let directory = match source.root {
            PathRoot::Files => &directories.files,
            PathRoot::DebugFiles => &directories.debug_files,
            PathRoot::Machine => &directories.machine,
        };
        let Some(mut file) = directory.open_file(self.rt, source.path.as_str())? else {
            return Ok(None);
        };
        match source.crc {
            Some(crc) if id.is_empty() && !has_crc(&mut file, crc)? => Ok(None),
            _ => Ok(Some(file)),
        }
    }

    // Opens the file of a source, if it has the build id.
    pub(crate) fn open_source(
        &self,
        source: &FileSource,
        id: &[u8],
    ) -> Result<Option<Elf>, AllocError> {
        let Some(file) = self.open_file(source, id)? else {
            return Ok(None);
        };
        let opened = self.read_headers(FileBytes::File(file))?;
        let Some(mut elf) = value_or_none(opened)? else {
            return Ok(None);
        };
        let own = self.build_id(&mut elf)?;
        Ok(Some(elf).filter(|_| is_accepted(&own, id)))
    }
}
