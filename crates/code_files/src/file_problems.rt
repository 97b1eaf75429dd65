//! Why files of mappings aren't used.

use crate::section_contents::SectionError;
use code_symbols::{ElfError, JitSymbolsError};
use std::alloc::AllocError;
use std::fmt::{Display, Formatter};
use std::io::ErrorKind;
use std::{fmt, io};

/// Why a file can't be read.
#[derive(Drop)]
pub enum ReadCause {
    /// The system's error.
    Io(io::Error),
    /// It is no regular file, or it is in a directory of the kernel.
    NotRegular,
    /// A link leaves the directory of mapped files.
    OutsideDirectory,
    /// It is no ELF file, or a part of it can't be read.
    Elf(ElfError),
    /// A section, whose name is the first value of this variant, can't be used.
    Section(&'static str, SectionError),
    /// It is a jitdump that can't be read.
    JitDump(JitSymbolsError),
}

impl Display for ReadCause {
    fn fmt<W: fmt::Write>(&self, f: &mut Formatter<W>) -> fmt::Result {
        match self {
            ReadCause::Io(error) => Display::fmt(error, f),
            ReadCause::NotRegular => f.write_str("not a regular file"),
            ReadCause::OutsideDirectory => f.write_str("a link leaves the directory of files"),
            ReadCause::Elf(ElfError::NotElf) => f.write_str("not an ELF file"),
            ReadCause::Elf(error) => Display::fmt(error, f),
            ReadCause::Section(name, error) => write!(f, "{name}: {error}"),
            ReadCause::JitDump(error) => Display::fmt(error, f),
        }
    }
}

/// Why the file of a mapping isn't used.
#[derive(Drop)]
pub enum FileProblem {
    /// It isn't there.
    NotFound,
    /// It can't be read.
    Unreadable(ReadCause),
    /// Its build id isn't the recorded one.
    Different,
    /// It has no call frame information where a chain ends.
    NoFrameInformation,
    /// It has no debugging information with lines, nor has a debug file.
    NoLineInformation,
}

/// A file of mappings with a problem.
#[derive(Drop)]
pub struct ProblemFile {
    /// The path as the recording has it.
    pub path: Vec<u8>,
    /// The problem.
    pub problem: FileProblem,
    /// The number of samples with a frame in the file or, if it has no call frame information, of chains that
    /// end in it.
    pub samples: u64,
    /// The number of the last sample with a frame in the file.
    pub(crate) last_sample: u64,
}

impl ReadCause {
    // Returns whether memory ran out.
    fn is_out_of_memory(&self) -> bool {
        match self {
            ReadCause::Io(error) | ReadCause::Elf(ElfError::Io(error)) => {
                error.kind() == ErrorKind::OutOfMemory
            }
            ReadCause::Elf(ElfError::Memory) => true,
            ReadCause::Section(_, error) => error.is_out_of_memory(),
            _ => false,
        }
    }
}

impl FileProblem {
    // Returns whether memory ran out.
    fn is_out_of_memory(&self) -> bool {
        match self {
            FileProblem::Unreadable(cause) => cause.is_out_of_memory(),
            _ => false,
        }
    }
}

impl From<io::Error> for FileProblem {
    fn from(error: io::Error) -> FileProblem {
        match error.kind() {
            ErrorKind::NotFound | ErrorKind::NotADirectory => FileProblem::NotFound,
            _ => FileProblem::Unreadable(ReadCause::Io(error)),
        }
    }
}

impl From<ElfError> for FileProblem {
    fn from(error: ElfError) -> FileProblem {
        FileProblem::Unreadable(ReadCause::Elf(error))
    }
}

// Returns what was read of a file or its problem. Fails if memory runs out.
pub(crate) fn value_or_problem<T: Drop>(
    read: Result<T, FileProblem>,
) -> Result<Result<T, FileProblem>, AllocError> {
    match read {
        Err(problem) if problem.is_out_of_memory() => Err(AllocError),
        read => Ok(read),
    }
}

// Returns what was read of a file, or `None` if it has a problem. Fails if memory runs out.
pub(crate) fn value_or_none<T: Drop>(
    read: Result<T, FileProblem>,
) -> Result<Option<T>, AllocError> {
    match read {
        Ok(value) => Ok(Some(value)),
        Err(problem) if problem.is_out_of_memory() => Err(AllocError),
        Err(_) => Ok(None),
    }
}

// Returns what was read of a file, or `None` if it can't be read. Fails if memory runs out.
pub(crate) fn read_or_none<T: Drop>(read: Result<T, ElfError>) -> Result<Option<T>, AllocError> {
    match read {
        Ok(value) => Ok(Some(value)),
        Err(ElfError::Memory) => Err(AllocError),
        Err(ElfError::Io(error)) if error.kind() == ErrorKind::OutOfMemory => Err(AllocError),
        Err(_) => Ok(None),
    }
}

// Returns what was read of a file or, if it can't be read, `None`. The cause is kept if it is the first one.
// Fails if memory runs out.
pub(crate) fn value_or_keep<T: Drop>(
    read: Result<T, ReadCause>,
    failure: &mut Option<ReadCause>,
) -> Result<Option<T>, AllocError> {
    match read {
        Ok(value) => Ok(Some(value)),
        Err(cause) if cause.is_out_of_memory() => Err(AllocError),
        Err(cause) => {
            if failure.is_none() {
                *failure = Some(cause);
            }
            Ok(None)
        }
    }
}

// Returns what was read of a file or, if it can't be read, `None`. The error is kept if it is the first one.
// Fails if memory runs out.
pub(crate) fn read_or_keep<T: Drop>(
    read: Result<T, ElfError>,
    failure: &mut Option<ReadCause>,
) -> Result<Option<T>, AllocError> {
    value_or_keep(read.map_err(ReadCause::Elf), failure)
}
