//! The errors of the readers.
ghost use Rattle.std.specs.Prelude.{◌≡◌};
ghost use Rattle.code_symbols.specs.declared.error.ElfError.TheVariants.{Io as OfIo, Memory as OfMemory};
ghost use Rattle.code_symbols.specs.declared.error.JitSymbolsError.TheVariants.{Io as OfJitIo};
ghost use Rattle.code_symbols.specs.declared.error.JitSymbolsError.TheVariants.{Memory as OfJitMemory};
ghost use Rattle.code_symbols.specs.declared.error.JitSymbolsError.TheVariants.{Jitdump as OfJitdump};

use perfdata_jit::JitDumpError;
use std::alloc::{AllocError, AllocFailed};
use std::io;
use thiserror::Error;

/// An error of reading an ELF file.
#[derive(Debug, Drop, Error)]
pub enum ElfError {
    /// The file does not start with the magic of an ELF file.
    #[error("The file is not an ELF file")]
    NotElf,
    /// The class, which is the value of this variant, is neither 32 nor 64 bits.
    #[error("Unknown ELF class: {0}")]
    UnknownClass(u8),
    /// The data encoding, which is the value of this variant, is neither byte order.
    #[error("Unknown ELF data encoding: {0}")]
    UnknownByteOrder(u8),
    /// The entries of a table, whose name and entry size are the values of this variant, are smaller than the
    /// format's.
    #[error("Invalid size of the entries of the {0}: {1}")]
    EntrySize(ElfTable, u64),
    /// A table, whose name is the value of this variant, isn't completely within the file.
    #[error("The {0} ends after the end of the file")]
    Truncated(ElfTable),
    /// Out of memory.
    #[error("Out of memory")]
    Memory,
    /// The source failed.
    #[error("I/O error: {0}")]
    Io(io::Error),
}

/// A part of an ELF file.
#[derive(Clone, Copy, Debug, PartialEq, Eq, Error)]
pub enum ElfTable {
    /// The file header.
    #[error("file header")]
    FileHeader,
    /// The program headers.
    #[error("program headers")]
    ProgramHeaders,
    /// The section headers.
    #[error("section headers")]
    SectionHeaders,
    /// The names of sections or of symbols.
    #[error("string table")]
    Strings,
    /// The symbols.
    #[error("symbol table")]
    Symbols,
    /// The relocations of the procedure linkage table.
    #[error("relocations")]
    Relocations,
    /// The notes.
    #[error("notes")]
    Notes,
    /// The debug link.
    #[error("debug link")]
    DebugLink,
    /// The contents of a section.
    #[error("section")]
    Section,
    /// The header of the compressed contents of a section.
    #[error("header of a compressed section")]
    CompressionHeader,
    /// The header of the call frame information (`.eh_frame_hdr`).
    #[error("header of the call frame information")]
    FrameHeader,
    /// The bytes of a segment.
    #[error("segment")]
    Segment,
}

impl From<io::Error> for ElfError {
    ghost from_gives = { λ error made. made ≡ OfIo error };

    fn from(error: io::Error) -> ElfError {
        ElfError::Io(error)
    }
}

impl From<AllocError> for ElfError {
    ghost from_gives = { λ _ made. made ≡ OfMemory };

    fn from(_error: AllocError) -> ElfError {
        ElfError::Memory
    }
}

impl<T: Drop> From<AllocFailed<T>> for ElfError {
    ghost from_gives = { λ _ made. made ≡ OfMemory };

    fn from(_failed: AllocFailed<T>) -> ElfError {
        ElfError::Memory
    }
}

/// An error of reading the symbols of a jitdump.
#[derive(Debug, Drop, Error)]
pub enum JitSymbolsError {
    /// The file does not open as a jitdump.
    #[error("{0}")]
    Jitdump(JitDumpError),
    /// A record is invalid, or the source failed.
    #[error("Invalid jitdump record: {0}")]
    Io(io::Error),
    /// Out of memory.
    #[error("Out of memory")]
    Memory,
}

impl From<JitDumpError> for JitSymbolsError {
    ghost from_gives = { λ error made. made ≡ OfJitdump error };

    fn from(error: JitDumpError) -> JitSymbolsError {
        JitSymbolsError::Jitdump(error)
    }
}

impl From<io::Error> for JitSymbolsError {
    ghost from_gives = { λ error made. made ≡ OfJitIo error };

    fn from(error: io::Error) -> JitSymbolsError {
        JitSymbolsError::Io(error)
    }
}

impl From<AllocError> for JitSymbolsError {
    ghost from_gives = { λ _ made. made ≡ OfJitMemory };

    fn from(_error: AllocError) -> JitSymbolsError {
        JitSymbolsError::Memory
    }
}

impl<T: Drop> From<AllocFailed<T>> for JitSymbolsError {
    ghost from_gives = { λ _ made. made ≡ OfJitMemory };

    fn from(_failed: AllocFailed<T>) -> JitSymbolsError {
        JitSymbolsError::Memory
    }
}
