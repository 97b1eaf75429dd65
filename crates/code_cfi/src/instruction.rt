//! Call frame instructions, as they are in the bytes of a program.
ghost use Rattle.std.specs.Prelude.{◌≡◌, ◌≢◌, ◌≤◌, ◌<◌, length, true, false, IfErr, IfOk, OnErr};
ghost use Rattle.code_cfi.specs.declared.error.CfiError.TheVariants as errors;
ghost use Rattle.code_cfi.specs.Instructions.{PairAt, SignedPairAt, ExpressionAt, RegisterExpressionAt};
ghost use Rattle.code_cfi.specs.Instructions.{OperandsAt, InstructionAt};
ghost use Rattle.code_cfi.specs.steps.Instructions.{NoPair, NoSignedPair, NoExpression, NoRegisterExpression};
ghost use Rattle.code_cfi.specs.steps.Instructions.{NoOperands, NoInstruction, is_location};
ghost use Rattle.code_cfi.specs.steps.Instructions.{is_cfa, is_rule, is_value_rule};

use crate::byte_range::ByteRange;
use crate::error::CfiError;
use crate::leb128::{read_block, read_byte, read_fixed, read_sleb128, read_uleb128};
use crate::pointers::read_pointer;

/// A machine with 64-bit registers.
#[derive(Clone, Copy, Debug, PartialEq, Eq)]
pub enum Machine {
    /// x86-64: registers 0 to 15, and 16 for the return address.
    X86_64,
    /// AArch64: registers 0 to 30, the stack pointer is 31.
    AArch64,
}

/// A call frame instruction. Operands are as in the bytes: the factors of the CIE are not applied.
#[derive(Clone, Copy, Debug, PartialEq, Eq)]
pub enum Instruction {
    /// `DW_CFA_nop`, and instructions that change no row: `DW_CFA_GNU_args_size`, and the instruction that
    /// says on AArch64 that the return address is signed or isn't.
    Nop,
    /// `DW_CFA_advance_loc` and `DW_CFA_advance_loc1`, `2` and `4`: the delta.
    Advance(u64),
    /// `DW_CFA_set_loc`: the address.
    SetLocation(u64),
    /// `DW_CFA_def_cfa`: the register and the offset.
    DefineCfa(u64, u64),
    /// `DW_CFA_def_cfa_sf`: the register and the offset.
    DefineCfaSigned(u64, i64),
    /// `DW_CFA_def_cfa_register`.
    DefineCfaRegister(u64),
    /// `DW_CFA_def_cfa_offset`.
    DefineCfaOffset(u64),
    /// `DW_CFA_def_cfa_offset_sf`.
    DefineCfaOffsetSigned(i64),
    /// `DW_CFA_def_cfa_expression`.
    DefineCfaExpression(ByteRange),
    /// `DW_CFA_undefined`: the register.
    Undefined(u64),
    /// `DW_CFA_same_value`: the register.
    SameValue(u64),
    /// `DW_CFA_offset` and `DW_CFA_offset_extended`: the register and the offset.
    Offset(u64, u64),
    /// `DW_CFA_offset_extended_sf`: the register and the offset.
    OffsetSigned(u64, i64),
    /// `DW_CFA_GNU_negative_offset_extended`: the register and the offset, which is subtracted.
    OffsetNegative(u64, u64),
    /// `DW_CFA_val_offset`: the register and the offset.
    ValueOffset(u64, u64),
    /// `DW_CFA_val_offset_sf`: the register and the offset.
    ValueOffsetSigned(u64, i64),
    /// `DW_CFA_register`: the register, and the register that its value is in.
    Register(u64, u64),
    /// `DW_CFA_expression`: the register and the expression.
    Expression(u64, ByteRange),
    /// `DW_CFA_val_expression`: the register and the expression.
    ValueExpression(u64, ByteRange),
    /// `DW_CFA_restore` and `DW_CFA_restore_extended`: the register.
    Restore(u64),
    /// `DW_CFA_remember_state`.
    RememberState,
    /// `DW_CFA_restore_state`.
    RestoreState,
}

// What instructions are read for.
#[derive(Clone, Copy)]
pub(crate) struct Encoding {
    pub(crate) machine: Machine,
    // The encoding of addresses.
    pub(crate) pointers: u8,
    // The address of the section.
    pub(crate) address: u64,
    // The offset in the section of the end of the instructions.
    pub(crate) end: usize,
}

// Reads two unsigned numbers, and returns them with the rest.
fn read_pair(bytes: &[u8]) -> Result<(u64, u64, &[u8]), CfiError>
    ensures found { IfOk result (λ x. PairAt bytes.now x.0 x.1 x.2.now) }
    ensures none { OnErr result (NoPair bytes.now) }
    ensures shorter { IfOk result (λ x. length x.2.now ≤ length bytes.now) }
    ensures never { IfErr result (λ e. e ≢ errors.Memory) }
{
    let (first, rest) = read_uleb128(bytes)?;
    let (second, rest) = read_uleb128(rest)?;
    Ok((first, second, rest))
}

// Reads an unsigned and a signed number, and returns them with the rest.
fn read_signed_pair(bytes: &[u8]) -> Result<(u64, i64, &[u8]), CfiError>
    ensures found { IfOk result (λ x. SignedPairAt bytes.now x.0 x.1 x.2.now) }
    ensures none { OnErr result (NoSignedPair bytes.now) }
    ensures shorter { IfOk result (λ x. length x.2.now ≤ length bytes.now) }
    ensures never { IfErr result (λ e. e ≢ errors.Memory) }
{
    let (first, rest) = read_uleb128(bytes)?;
    let (second, rest) = read_sleb128(rest)?;
    Ok((first, second, rest))
}

// Reads an expression, and returns where it is with the rest. The bytes end at an offset.
fn read_expression(bytes: &[u8], end: usize) -> Result<(ByteRange, &[u8]), CfiError>
    requires { length bytes.now ≤ end }
    ensures found { IfOk result (λ x. ExpressionAt end bytes.now x.0 x.1.now) }
    ensures none { OnErr result (NoExpression end bytes.now) }
    ensures shorter { IfOk result (λ x. length x.1.now ≤ length bytes.now) }
    ensures never { IfErr result (λ e. e ≢ errors.Memory) }
{
    let (block, rest) = read_block(bytes)?;
    let block_end = end - rest.len();
    let span = ByteRange {
        start: block_end - block.len(),
        end: block_end,
    };
    Ok((span, rest))
}

// Reads a register and an expression, and returns them with the rest. The bytes end at an offset.
fn read_register_expression(bytes: &[u8], end: usize) -> Result<(u64, ByteRange, &[u8]), CfiError>
    requires { length bytes.now ≤ end }
    ensures found { IfOk result (λ x. RegisterExpressionAt end bytes.now x.0 x.1 x.2.now) }
    ensures none { OnErr result (NoRegisterExpression end bytes.now) }
    ensures shorter { IfOk result (λ x. length x.2.now ≤ length bytes.now) }
    ensures never { IfErr result (λ e. e ≢ errors.Memory) }
{
    let (register, rest) = read_uleb128(bytes)?;
    let (span, rest) = read_expression(rest, end)?;
    Ok((register, span, rest))
}

// Reads the operand of an instruction that sets the location.
fn read_location<'a>(
    opcode: u8,
    bytes: &'a [u8],
    encoding: &Encoding,
) -> Result<(Instruction, &'a [u8]), CfiError>
    requires { length bytes.now ≤ encoding.now.end }
    ensures found { IfOk result (λ x. OperandsAt encoding.now opcode bytes.now x.0 x.1.now) }
    ensures none { OnErr result (is_location opcode ≡ true → NoOperands encoding.now opcode bytes.now) }
    ensures shorter { IfOk result (λ x. length x.1.now ≤ length bytes.now) }
    ensures never { IfErr result (λ e. e ≢ errors.Memory) }
{
    match opcode {
        0x01 => {
            let offset = (encoding.end - bytes.len()) as u64;
            let address = encoding.address.wrapping_add(offset);
            let (location, rest) = read_pointer(bytes, encoding.pointers, address)?;
            Ok((Instruction::SetLocation(location), rest))
        }
        0x02 => {
            let (delta, rest) = read_fixed(bytes, 1)?;
            Ok((Instruction::Advance(delta), rest))
        }
        0x03 => {
            let (delta, rest) = read_fixed(bytes, 2)?;
            Ok((Instruction::Advance(delta), rest))
        }
        0x04 => {
            let (delta, rest) = read_fixed(bytes, 4)?;
            Ok((Instruction::Advance(delta), rest))
        }
        _ => Err(CfiError::Opcode(opcode)),
    }
}

// Reads the operands of an instruction that defines the CFA.
fn read_cfa<'a>(
    opcode: u8,
    bytes: &'a [u8],
    encoding: &Encoding,
) -> Result<(Instruction, &'a [u8]), CfiError>
    requires { length bytes.now ≤ encoding.now.end }
    ensures found { IfOk result (λ x. OperandsAt encoding.now opcode bytes.now x.0 x.1.now) }
    ensures none { OnErr result (is_cfa opcode ≡ true → NoOperands encoding.now opcode bytes.now) }
    ensures shorter { IfOk result (λ x. length x.1.now ≤ length bytes.now) }
    ensures never { IfErr result (λ e. e ≢ errors.Memory) }
{
    match opcode {
        0x0c => {
            let (register, offset, rest) = read_pair(bytes)?;
            Ok((Instruction::DefineCfa(register, offset), rest))
        }
        0x0d => {
            let (register, rest) = read_uleb128(bytes)?;
            Ok((Instruction::DefineCfaRegister(register), rest))
        }
        0x0e => {
            let (offset, rest) = read_uleb128(bytes)?;
            Ok((Instruction::DefineCfaOffset(offset), rest))
        }
        0x0f => {
            let (expression, rest) = read_expression(bytes, encoding.end)?;
            Ok((Instruction::DefineCfaExpression(expression), rest))
        }
        0x12 => {
            let (register, offset, rest) = read_signed_pair(bytes)?;
            Ok((Instruction::DefineCfaSigned(register, offset), rest))
        }
        0x13 => {
            let (offset, rest) = read_sleb128(bytes)?;
            Ok((Instruction::DefineCfaOffsetSigned(offset), rest))
        }
        _ => Err(CfiError::Opcode(opcode)),
    }
}

// Reads the operands of an instruction that says where the value of a register is.
fn read_rule<'a>(
    opcode: u8,
    bytes: &'a [u8],
    encoding: &Encoding,
) -> Result<(Instruction, &'a [u8]), CfiError>
    requires { length bytes.now ≤ encoding.now.end }
    ensures found { IfOk result (λ x. OperandsAt encoding.now opcode bytes.now x.0 x.1.now) }
    ensures none { OnErr result (is_rule opcode ≡ true → NoOperands encoding.now opcode bytes.now) }
    ensures shorter { IfOk result (λ x. length x.1.now ≤ length bytes.now) }
    ensures never { IfErr result (λ e. e ≢ errors.Memory) }
{
    match opcode {
        0x05 => {
            let (register, offset, rest) = read_pair(bytes)?;
            Ok((Instruction::Offset(register, offset), rest))
        }
        0x07 => {
            let (register, rest) = read_uleb128(bytes)?;
            Ok((Instruction::Undefined(register), rest))
        }
        0x08 => {
            let (register, rest) = read_uleb128(bytes)?;
            Ok((Instruction::SameValue(register), rest))
        }
        0x09 => {
            let (register, other, rest) = read_pair(bytes)?;
            Ok((Instruction::Register(register, other), rest))
        }
        0x10 => {
            let (register, expression, rest) = read_register_expression(bytes, encoding.end)?;
            Ok((Instruction::Expression(register, expression), rest))
        }
        0x11 => {
            let (register, offset, rest) = read_signed_pair(bytes)?;
            Ok((Instruction::OffsetSigned(register, offset), rest))
        }
        0x2f => {
            let (register, offset, rest) = read_pair(bytes)?;
            Ok((Instruction::OffsetNegative(register, offset), rest))
        }
        _ => Err(CfiError::Opcode(opcode)),
    }
}

// Reads the operands of an instruction that says how the value of a register is computed.
fn read_value_rule<'a>(
    opcode: u8,
    bytes: &'a [u8],
    encoding: &Encoding,
) -> Result<(Instruction, &'a [u8]), CfiError>
    requires { length bytes.now ≤ encoding.now.end }
    ensures found { IfOk result (λ x. OperandsAt encoding.now opcode bytes.now x.0 x.1.now) }
    ensures none { OnErr result (is_value_rule opcode ≡ true → NoOperands encoding.now opcode bytes.now) }
    ensures shorter { IfOk result (λ x. length x.1.now ≤ length bytes.now) }
    ensures never { IfErr result (λ e. e ≢ errors.Memory) }
{
    match opcode {
        0x14 => {
            let (register, offset, rest) = read_pair(bytes)?;
            Ok((Instruction::ValueOffset(register, offset), rest))
        }
        0x15 => {
            let (register, offset, rest) = read_signed_pair(bytes)?;
            Ok((Instruction::ValueOffsetSigned(register, offset), rest))
        }
        0x16 => {
            let (register, expression, rest) = read_register_expression(bytes, encoding.end)?;
            Ok((Instruction::ValueExpression(register, expression), rest))
        }
        _ => Err(CfiError::Opcode(opcode)),
    }
}

// Reads the operands of an instruction that restores or remembers, or has no effect.
fn read_other<'a>(
    opcode: u8,
    bytes: &'a [u8],
    encoding: &Encoding,
) -> Result<(Instruction, &'a [u8]), CfiError>
    ensures found { IfOk result (λ x. OperandsAt encoding.now opcode bytes.now x.0 x.1.now) }
    ensures none { OnErr result (is_location opcode ≡ false → is_cfa opcode ≡ false → is_rule opcode ≡ false
        → is_value_rule opcode ≡ false → NoOperands encoding.now opcode bytes.now) }
    ensures shorter { IfOk result (λ x. length x.1.now ≤ length bytes.now) }
    ensures never { IfErr result (λ e. e ≢ errors.Memory) }
{
    match opcode {
        0x00 => Ok((Instruction::Nop, bytes)),
        0x06 => {
            let (register, rest) = read_uleb128(bytes)?;
            Ok((Instruction::Restore(register), rest))
        }
        0x0a => Ok((Instruction::RememberState, bytes)),
        0x0b => Ok((Instruction::RestoreState, bytes)),
        0x2d => match encoding.machine {
            Machine::AArch64 => Ok((Instruction::Nop, bytes)),
            Machine::X86_64 => Err(CfiError::Opcode(opcode)),
        },
        0x2e => {
            let (_, rest) = read_uleb128(bytes)?;
            Ok((Instruction::Nop, rest))
        }
        _ => Err(CfiError::Opcode(opcode)),
    }
}

// Reads the operands of an instruction whose opcode is a whole byte.
fn read_operands<'a>(
    opcode: u8,
    bytes: &'a [u8],
    encoding: &Encoding,
) -> Result<(Instruction, &'a [u8]), CfiError>
    requires { length bytes.now ≤ encoding.now.end }
    ensures found { IfOk result (λ x. OperandsAt encoding.now opcode bytes.now x.0 x.1.now) }
    ensures none { OnErr result (NoOperands encoding.now opcode bytes.now) }
    ensures shorter { IfOk result (λ x. length x.1.now ≤ length bytes.now) }
    ensures never { IfErr result (λ e. e ≢ errors.Memory) }
{
    match opcode {
        0x01..=0x04 => read_location(opcode, bytes, encoding),
        0x0c..=0x0f | 0x12 | 0x13 => read_cfa(opcode, bytes, encoding),
        0x05 | 0x07..=0x09 | 0x10 | 0x11 | 0x2f => read_rule(opcode, bytes, encoding),
        0x14..=0x16 => read_value_rule(opcode, bytes, encoding),
        _ => read_other(opcode, bytes, encoding),
    }
}

// Reads the instruction at the start of the bytes, and returns it with the rest.
pub(crate) fn read_instruction<'a>(
    bytes: &'a [u8],
    encoding: &Encoding,
) -> Result<(Instruction, &'a [u8]), CfiError>
    requires { length bytes.now ≤ encoding.now.end }
    ensures found { IfOk result (λ x. InstructionAt encoding.now bytes.now x.0 x.1.now) }
    ensures none { OnErr result (NoInstruction encoding.now bytes.now) }
    ensures shorter { IfOk result (λ x. length x.1.now < length bytes.now) }
    ensures never { IfErr result (λ e. e ≢ errors.Memory) }
{
    let (opcode, rest) = read_byte(bytes)?;
    let operand = (opcode % 64) as u64;
    match opcode / 64 {
        0 => read_operands(opcode, rest, encoding),
        1 => Ok((Instruction::Advance(operand), rest)),
        2 => {
            let (offset, rest) = read_uleb128(rest)?;
            Ok((Instruction::Offset(operand, offset), rest))
        }
        _ => Ok((Instruction::Restore(operand), rest)),
    }
}
