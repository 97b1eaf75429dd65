//! The errors of debugging information.

use code_cfi::CfiError;
use std::alloc::{AllocError, AllocFailed};
use thiserror::Error;

/// Why a unit or a line program can't be read, or not to its end.
#[derive(Clone, Copy, Debug, PartialEq, Eq, Error)]
pub enum DwarfError {
    /// The bytes end inside a unit, an entry, a field or an operand.
    #[error("The debugging information is truncated")]
    Truncated,
    /// A LEB128 number has more than 10 bytes or does not fit 64 bits.
    #[error("A LEB128 number is too long")]
    Leb128,
    /// The initial length of a unit is one of the reserved values.
    #[error("Reserved length of a unit")]
    ReservedLength,
    /// The version, which is the value of this variant, is none of 2 to 5.
    #[error("Unknown version of a unit: {0}")]
    UnknownVersion(u16),
    /// The type of a unit is unknown, or its addresses have neither 4 nor 8 bytes.
    #[error("Unsupported unit")]
    BadUnit,
    /// An entry has a code that its abbreviation table doesn't have.
    #[error("An entry has no abbreviation")]
    NoAbbreviation,
    /// The form of an attribute is unknown.
    #[error("Unknown form of an attribute")]
    UnknownForm,
    /// An abbreviation has more than 256 attributes, or more than 32 without bytes.
    #[error("Too many attributes")]
    TooManyAttributes,
    /// More than 1,024 entries are open, or more than 128 inlined functions.
    #[error("Entries are nested too deeply")]
    TooDeep,
    /// The abbreviation tables that units begin at overlap too much.
    #[error("The abbreviation tables overlap too much")]
    Abbreviations,
    /// The range lists of a unit have more entries than the unit has bytes, by 4,096, or by its part of
    /// 65,536 for all units.
    #[error("Too many ranges")]
    TooManyRanges,
    /// A line program begins within another one.
    #[error("A line program begins within another one")]
    OverlappingLines,
    /// The header of a line program can't be used.
    #[error("Bad header of a line program")]
    BadLineHeader,
    /// An instruction of a line program can't be read.
    #[error("Bad line program")]
    BadLineProgram,
    /// The entries of a unit are in another file (`DW_AT_dwo_name`).
    #[error("The entries of a unit are in a .dwo file")]
    SplitUnit,
    /// Out of memory.
    #[error("Out of memory")]
    Memory,
}

impl From<CfiError> for DwarfError {
    fn from(error: CfiError) -> DwarfError {
        match error {
            CfiError::Truncated => DwarfError::Truncated,
            _ => DwarfError::Leb128,
        }
    }
}

impl From<AllocError> for DwarfError {
    fn from(_error: AllocError) -> DwarfError {
        DwarfError::Memory
    }
}

impl<T: Drop> From<AllocFailed<T>> for DwarfError {
    fn from(_failed: AllocFailed<T>) -> DwarfError {
        DwarfError::Memory
    }
}

/// An error of a unit or of its line program.
#[derive(Clone, Copy, Debug, PartialEq, Eq)]
pub struct UnitError {
    /// The offset of the unit in `.debug_info`.
    pub unit: usize,
    /// What can't be read.
    pub error: DwarfError,
}
