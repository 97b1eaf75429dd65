//! The errors of call frame information.

use thiserror::Error;

/// Why an entry or a row of call frame information can't be read.
#[derive(Clone, Copy, Debug, PartialEq, Eq, Error)]
pub enum CfiError {
    /// The bytes end inside an entry, a field or an operand.
    #[error("The call frame information is truncated")]
    Truncated,
    /// A LEB128 number has more than 10 bytes or does not fit 64 bits.
    #[error("A LEB128 number is too long")]
    Leb128,
    /// The version of a CIE, which is the value of this variant, is none of 1, 3 and 4.
    #[error("Unknown version of a CIE: {0}")]
    Version(u8),
    /// The size of an address in a CIE, which is the value of this variant, is not 8 bytes.
    #[error("Unsupported size of addresses: {0}")]
    AddressSize(u8),
    /// The size of a segment selector in a CIE, which is the value of this variant, is not 0.
    #[error("Unsupported size of segment selectors: {0}")]
    SegmentSize(u8),
    /// The augmentation of a CIE neither is empty nor starts with `z`.
    #[error("Unknown augmentation of a CIE")]
    Augmentation,
    /// The encoding of a pointer, which is the value of this variant, isn't supported.
    #[error("Unsupported encoding of a pointer: {0}")]
    Encoding(u8),
    /// No CIE that can be used is where an FDE says.
    #[error("An FDE has no CIE")]
    NoCie,
    /// The instructions have more than 65,536 bytes.
    #[error("The call frame instructions are too long")]
    ProgramSize,
    /// The opcode, which is the value of this variant, is unknown.
    #[error("Unknown call frame instruction: {0}")]
    Opcode(u8),
    /// A CIE contains an instruction that only an FDE may contain.
    #[error("Instruction of an FDE in a CIE")]
    NotInitial,
    /// An instruction changes a part of the CFA's register and offset, but the CFA has none.
    #[error("The CFA has no register")]
    NoCfaRegister,
    /// More than 8 rows are remembered.
    #[error("Too many remembered rows")]
    RememberedRows,
    /// No row is remembered that could be restored.
    #[error("No remembered row")]
    NoRememberedRow,
    /// Out of memory.
    #[error("Out of memory")]
    Memory,
}
