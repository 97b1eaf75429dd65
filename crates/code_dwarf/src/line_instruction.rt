//! Instructions of line programs (DWARF 5, section 6.2.5).
ghost use Rattle.std.specs.Prelude.{◌≡◌, ◌+◌, ◌-◌, ◌%◌, ◌^◌, ◌<◌, ◌≤◌, length, IfOk, OnErr};
ghost use Rattle.std.specs.Int.{cast_unsigned, w64};
ghost use Rattle.code_dwarf.specs.steps.LineInstructions.{OperandsAt, StandardAt, ExtendedIs, ExtendedAt};
ghost use Rattle.code_dwarf.specs.steps.LineInstructions.{InstructionAt, NoOperands, NoStandard};
ghost use Rattle.code_dwarf.specs.steps.LineInstructions.{NotExtended, NoExtended, NoInstruction};
ghost use Rattle.code_dwarf.specs.steps.LineInstructions.{operand_count as count_of_operands};
ghost use Rattle.code_dwarf.specs.steps.LineMachine.{advanced, with_line, with_address, after_special};
ghost use Rattle.code_dwarf.specs.steps.LineMachine.{after as registers_after, effect_of};

use crate::error::DwarfError;
use crate::fixed::{read_byte, read_fixed, read_sleb128, read_uleb128, split};
use crate::line_header::LineHeader;

// An instruction of a line program.
#[derive(Clone, Copy)]
pub(crate) enum LineInstruction {
    // An instruction that changes nothing that rows have here.
    Other,
    // A special opcode: what it is above the first one.
    Special(u8),
    // `DW_LNS_copy`.
    Copy,
    // `DW_LNS_advance_pc`: the number of operations.
    AdvanceAddress(u64),
    // `DW_LNS_advance_line`.
    AdvanceLine(i64),
    // `DW_LNS_set_file`.
    SetFile(u64),
    // `DW_LNS_set_column`.
    SetColumn(u64),
    // `DW_LNS_const_add_pc`.
    AdvanceByLast,
    // `DW_LNS_fixed_advance_pc`: the number of bytes.
    AdvanceFixed(u64),
    // `DW_LNE_end_sequence`.
    EndSequence,
    // `DW_LNE_set_address`.
    SetAddress(u64),
    // `DW_LNE_define_file`: the offset of the entry.
    DefineFile(usize),
}

// The values of the state machine that rows have, and the index of the operation (DWARF 5, section 6.2.2).
#[derive(Clone, Copy)]
pub(crate) struct Registers {
    pub(crate) address: u64,
    pub(crate) operation: u64,
    pub(crate) file: u64,
    pub(crate) line: u32,
    pub(crate) column: u64,
}

// The values at the start of a sequence.
pub(crate) const INITIAL: Registers = Registers {
    address: 0,
    operation: 0,
    file: 1,
    line: 1,
    column: 0,
};

// What an instruction does beside changing registers.
#[derive(Clone, Copy, PartialEq, Eq)]
pub(crate) enum RowEffect {
    // Nothing.
    None,
    // It appends a row.
    Row,
    // It ends the sequence.
    End,
}

// Skips operands of a standard instruction: `count` unsigned LEB128 numbers.
fn skip_operands(bytes: &[u8], count: u8) -> Result<&[u8], DwarfError>
    ensures found { IfOk result (λ rest. OperandsAt count bytes.now rest.now) }
    ensures none { OnErr result (NoOperands count bytes.now) }
    ensures shorter { IfOk result (λ rest. length rest.now ≤ length bytes.now) }
{
    let mut rest = bytes;
    'operands: for _index in 0..count {
        let (_, after) = read_uleb128(rest)?;
        rest = after;
    }
    Ok(rest)
}

// Reads the operands of an extended instruction from the bytes after its opcode, which end at an offset.
fn read_operands(
    opcode: u8,
    bytes: &[u8],
    end: usize,
    header: &LineHeader,
) -> Result<LineInstruction, DwarfError>
    ensures found { IfOk result (λ i. ExtendedIs header.now end opcode bytes.now i) }
    ensures none { OnErr result (NotExtended header.now end opcode bytes.now) }
{
    match opcode {
        1 => Ok(LineInstruction::EndSequence),
        2 => {
            let (address, _) = header.encoding.read_address(bytes)?;
            Ok(LineInstruction::SetAddress(address))
        }
        3 => {
            if header.encoding.version < 5 {
                let offset = end.saturating_sub(bytes.len());
                Ok(LineInstruction::DefineFile(offset))
            } else {
                Ok(LineInstruction::Other)
            }
        }
        _ => Ok(LineInstruction::Other),
    }
}

// Reads an extended instruction from the bytes after the zero byte, and returns it with the rest.
fn read_extended<'a>(
    bytes: &'a [u8],
    header: &LineHeader,
) -> Result<(LineInstruction, &'a [u8]), DwarfError>
    ensures found { IfOk result (λ x. ExtendedAt header.now bytes.now x.0 x.1.now) }
    ensures none { OnErr result (NoExtended header.now bytes.now) }
    ensures shorter { IfOk result (λ x. length x.1.now < length bytes.now) }
{
    let (size, after_size) = read_uleb128(bytes)?;
    let (contents, rest) = split(after_size, size)?;
    let (opcode, operands) = read_byte(contents)?;
    let end = header.instructions.end.saturating_sub(rest.len());
    let instruction = read_operands(opcode, operands, end, header)?;
    Ok((instruction, rest))
}

// Reads the operand of a standard instruction that is known, and returns it with the rest.
fn read_standard<'a>(
    opcode: u8,
    bytes: &'a [u8],
    header: &LineHeader,
) -> Result<(LineInstruction, &'a [u8]), DwarfError>
    ensures found { IfOk result (λ x. StandardAt header.now opcode bytes.now x.0 x.1.now) }
    ensures none { OnErr result (1 ≤ opcode → opcode ≤ 12 → NoStandard header.now opcode bytes.now) }
    ensures shorter { IfOk result (λ x. length x.1.now ≤ length bytes.now) }
{
    match opcode {
        1 => Ok((LineInstruction::Copy, bytes)),
        2 => {
            let (advance, rest) = read_uleb128(bytes)?;
            Ok((LineInstruction::AdvanceAddress(advance), rest))
        }
        3 => {
            let (advance, rest) = read_sleb128(bytes)?;
            Ok((LineInstruction::AdvanceLine(advance), rest))
        }
        4 => {
            let (file, rest) = read_uleb128(bytes)?;
            Ok((LineInstruction::SetFile(file), rest))
        }
        5 => {
            let (column, rest) = read_uleb128(bytes)?;
            Ok((LineInstruction::SetColumn(column), rest))
        }
        8 => Ok((LineInstruction::AdvanceByLast, bytes)),
        9 => {
            let (advance, rest) = read_fixed(bytes, 2, header.encoding.endian)?;
            Ok((LineInstruction::AdvanceFixed(advance), rest))
        }
        6 | 7 | 10 | 11 => Ok((LineInstruction::Other, bytes)),
        12 => {
            let (_, rest) = read_uleb128(bytes)?;
            Ok((LineInstruction::Other, rest))
        }
        _ => Err(DwarfError::BadLineProgram),
    }
}

// The number of operands of a standard instruction, which the header says.
fn operand_count(opcode: u8, section: &[u8], header: &LineHeader) -> u8
    ensures { result ≡ count_of_operands section.now header.now opcode }
{
    let index = (opcode as usize).saturating_sub(1);
    section
        .get(header.operand_counts.start.saturating_add(index))
        .copied()
        .unwrap_or(0)
}

// Reads the instruction at the start of the bytes, and returns it with the rest.
pub(crate) fn read_instruction<'a>(
    section: &[u8],
    bytes: &'a [u8],
    header: &LineHeader,
) -> Result<(LineInstruction, &'a [u8]), DwarfError>
    ensures found { IfOk result (λ x. InstructionAt section.now header.now bytes.now x.0 x.1.now) }
    ensures none { OnErr result (NoInstruction section.now header.now bytes.now) }
    ensures shorter { IfOk result (λ x. length x.1.now < length bytes.now) }
{
    let (opcode, rest) = read_byte(bytes)?;
    if opcode >= header.opcode_base {
        let special = opcode.saturating_sub(header.opcode_base);
        return Ok((LineInstruction::Special(special), rest));
    }
    match opcode {
        0 => read_extended(rest, header),
        1..=12 => read_standard(opcode, rest, header),
        _ => {
            let count = operand_count(opcode, section, header);
            let after = skip_operands(rest, count)?;
            Ok((LineInstruction::Other, after))
        }
    }
}

impl Registers {
    // Advances by a number of operations.
    fn advance(&mut self, header: &LineHeader, operations: u64)
        ensures { self.new ≡ advanced header.now self.old operations }
    {
        let total = self.operation.wrapping_add(operations);
        let most = header.maximum_operations.max(1);
        let size = header.minimum_size.wrapping_mul(total / most);
        self.address = header.encoding.wrap(self.address.wrapping_add(size));
        self.operation = total % most;
    }

    // Advances the line by the number that 64 bits are.
    fn advance_line(&mut self, advance: u64)
        ensures { self.new ≡ with_line self.old advance }
    {
        let low = (advance % 0x1_0000_0000) as u32;
        self.line = self.line.wrapping_add(low);
    }

    // Goes to the first operation at an address.
    fn set_address(&mut self, address: u64)
        ensures { self.new ≡ with_address self.old address }
    {
        self.address = address;
        self.operation = 0;
    }

    // Does what a special opcode does.
    fn special(&mut self, header: &LineHeader, opcode: u8)
        ensures { self.new ≡ after_special header.now self.old opcode }
    {
        let range = header.line_range.max(1);
        self.advance(header, (opcode / range) as u64);
        let line_base = header.line_base.cast_unsigned();
        self.advance_line(line_base.wrapping_add((opcode % range) as u64));
    }

    // Does what an instruction does to the registers, and returns what else it does.
    pub(crate) fn step(&mut self, header: &LineHeader, instruction: &LineInstruction) -> RowEffect
        ensures registers { self.new ≡ registers_after header.now instruction.now self.old }
        ensures effect { result ≡ effect_of instruction.now }
    {
        match instruction {
            LineInstruction::Other | LineInstruction::DefineFile(_) => {}
            LineInstruction::Special(opcode) => {
                self.special(header, *opcode);
                return RowEffect::Row;
            }
            LineInstruction::Copy => return RowEffect::Row,
            LineInstruction::AdvanceAddress(operations) => self.advance(header, *operations),
            LineInstruction::AdvanceLine(advance) => self.advance_line(advance.cast_unsigned()),
            LineInstruction::SetFile(file) => self.file = *file,
            LineInstruction::SetColumn(column) => self.column = *column,
            LineInstruction::AdvanceByLast => {
                let last = 255_u8.saturating_sub(header.opcode_base);
                let range = header.line_range.max(1);
                self.advance(header, (last / range) as u64);
            }
            LineInstruction::AdvanceFixed(size) => {
                let address = self.address.wrapping_add(*size);
                self.set_address(header.encoding.wrap(address));
            }
            LineInstruction::EndSequence => return RowEffect::End,
            LineInstruction::SetAddress(address) => self.set_address(*address),
        }
        RowEffect::None
    }
}
