//! Headers of line programs (DWARF 5, section 6.2.4; DWARF 4, section 6.2.4).
ghost use Rattle.std.specs.Prelude.{◌≡◌, ◌≤◌, length, IfOk};
ghost use Rattle.code_dwarf.specs.steps.LineHeaders.{AddressSizeAt, MaximumAt, ParametersAt, signed};
ghost use Rattle.code_dwarf.specs.steps.LineHeaders.{LineHeaderAt};

use crate::error::DwarfError;
use crate::fixed::{Endianness, read_byte, read_fixed, read_length, read_offset, skip, split};
use crate::forms::Encoding;
use code_cfi::ByteRange;

// The header of a line program, without its tables.
#[derive(Clone, Copy)]
pub(crate) struct LineHeader {
    // How values in the header are in the bytes of `.debug_line`.
    pub(crate) encoding: Encoding,
    // The smallest size of an instruction of the machine, by which addresses advance.
    pub(crate) minimum_size: u64,
    // The largest number of operations in an instruction of the machine.
    pub(crate) maximum_operations: u64,
    pub(crate) line_base: i64,
    pub(crate) line_range: u8,
    pub(crate) opcode_base: u8,
    // Where the numbers of operands of the standard instructions are.
    pub(crate) operand_counts: ByteRange,
    // Where the tables of directories and files are.
    pub(crate) tables: ByteRange,
    // Where the instructions are.
    pub(crate) instructions: ByteRange,
}

// The part of a header from its smallest size of an instruction on.
#[derive(Clone, Copy)]
struct Parameters {
    minimum_size: u8,
    maximum_operations: u8,
    line_base: u8,
    line_range: u8,
    opcode_base: u8,
}

// Reads the size of an address in version 5, and returns whether it is 8 with the rest.
fn read_address_size(
    version: u64,
    bytes: &[u8],
    has_64_bit_addresses: bool,
) -> Result<(bool, &[u8]), DwarfError>
    ensures found { IfOk result (λ x.
        AddressSizeAt version has_64_bit_addresses bytes.now x.0 x.1.now) }
    ensures shorter { IfOk result (λ x. length x.1.now ≤ length bytes.now) }
{
    if version < 5 {
        return Ok((has_64_bit_addresses, bytes));
    }
    let (size, after_size) = read_byte(bytes)?;
    let rest = skip(after_size, 1)?;
    match size {
        4 => Ok((false, rest)),
        8 => Ok((true, rest)),
        _ => Err(DwarfError::BadLineHeader),
    }
}

// Reads the largest number of operations, which versions from 4 on have, and returns it with the rest.
fn read_maximum_operations(version: u64, bytes: &[u8]) -> Result<(u8, &[u8]), DwarfError>
    ensures found { IfOk result (λ x. MaximumAt version bytes.now x.0 x.1.now) }
    ensures shorter { IfOk result (λ x. length x.1.now ≤ length bytes.now) }
{
    if version < 4 {
        Ok((1, bytes))
    } else {
        read_byte(bytes)
    }
}

// Reads the parameters of a program, and returns them with the rest.
fn read_parameters(version: u64, bytes: &[u8]) -> Result<(Parameters, &[u8]), DwarfError>
    ensures found { IfOk result (λ x. ParametersAt version bytes.now x.0 x.1.now) }
    ensures shorter { IfOk result (λ x. length x.1.now ≤ length bytes.now) }
{
    let (minimum_size, mid) = read_byte(bytes)?;
    let (maximum_operations, flag) = read_maximum_operations(version, mid)?;
    let left = skip(flag, 1)?;
    let (line_base, after_base) = read_byte(left)?;
    let (line_range, after_range) = read_byte(after_base)?;
    let (opcode_base, rest) = read_byte(after_range)?;
    if maximum_operations == 0 || line_range == 0 || opcode_base == 0 {
        return Err(DwarfError::BadLineHeader);
    }
    let parameters = Parameters {
        minimum_size,
        maximum_operations,
        line_base,
        line_range,
        opcode_base,
    };
    Ok((parameters, rest))
}

// The signed number that a byte is.
fn signed_byte(byte: u8) -> i64
    ensures { result ≡ signed byte }
{
    if byte < 128 {
        byte as i64
    } else {
        byte as i64 - 256
    }
}

// The end of the line program at an offset, by its length.
pub(crate) fn program_end(
    section: &[u8],
    offset: u64,
    endian: Endianness,
) -> Result<usize, DwarfError> {
    let bytes = skip(section, offset)?;
    let (length, after) = read_length(bytes, endian)?;
    let rest = skip(after, length.size)?;
    Ok(section.len().saturating_sub(rest.len()))
}

// Reads the header of the line program at an offset. Before version 5 the unit says the size of addresses.
pub(crate) fn read_header(
    section: &[u8],
    offset: u64,
    endian: Endianness,
    has_64_bit_addresses: bool,
) -> Result<LineHeader, DwarfError>
    ensures { IfOk result (λ h. LineHeaderAt section.now offset endian has_64_bit_addresses h) }
{
    let bytes = skip(section, offset)?;
    let (length, after) = read_length(bytes, endian)?;
    let (contents, rest) = split(after, length.size)?;
    let end = section.len().saturating_sub(rest.len());
    let (version, after_version) = read_fixed(contents, 2, endian)?;
    if version < 2 || version > 5 {
        return Err(DwarfError::UnknownVersion((version % 0x1_0000) as u16));
    }
    let (is_wide, after_size) = read_address_size(version, after_version, has_64_bit_addresses)?;
    let (size, after_length) = read_offset(after_size, length.is_64_bit, endian)?;
    let (header, instructions) = split(after_length, size)?;
    let tables_end = end.saturating_sub(instructions.len());
    let (parameters, counts) = read_parameters(version, header)?;
    let counts_start = tables_end.saturating_sub(counts.len());
    let count = (parameters.opcode_base as u64).saturating_sub(1);
    let tables = skip(counts, count)?;
    let tables_start = tables_end.saturating_sub(tables.len());
    let line_base = signed_byte(parameters.line_base);
    Ok(LineHeader {
        encoding: Encoding {
            endian,
            is_64_bit: length.is_64_bit,
            has_64_bit_addresses: is_wide,
            version: (version % 0x1_0000) as u16,
            end: tables_end,
        },
        minimum_size: parameters.minimum_size as u64,
        maximum_operations: parameters.maximum_operations as u64,
        line_base,
        line_range: parameters.line_range,
        opcode_base: parameters.opcode_base,
        operand_counts: ByteRange {
            start: counts_start,
            end: tables_start,
        },
        tables: ByteRange {
            start: tables_start,
            end: tables_end,
        },
        instructions: ByteRange {
            start: tables_end,
            end,
        },
    })
}
