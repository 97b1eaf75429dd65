//! The operations of expressions, as they are in bytes (DWARF 5, sections 2.5.1 and 7.7.1).
ghost use Rattle.std.specs.Prelude.{◌≡◌, ◌≤◌, ◌<◌, ◌^◌, length, IfOk, IfErr};
ghost use Rattle.code_cfi.specs.Numbers.{FixedAt};
ghost use Rattle.code_unwind.specs.Operations.{binary_opcode, comparison_opcode, unary_opcode};
ghost use Rattle.code_unwind.specs.Operations.{other_opcode, constant_opcode};
ghost use Rattle.code_unwind.specs.Operations.{operand_opcode, form_of, sign_extended, SignedAt};
ghost use Rattle.code_unwind.specs.Operations.{NumberAt, OperandsAt, OperationAt};
ghost use Rattle.code_unwind.specs.steps.Operations.{NoNumber, NoOperands};
ghost use Rattle.code_unwind.specs.Operations.{NoOperation};

use crate::expression::ExpressionError;
use code_cfi::{read_fixed, read_sleb128, read_uleb128};

/// An operation that replaces the value on top.
#[derive(Clone, Copy, Debug, PartialEq, Eq)]
pub enum UnaryOperation {
    /// `DW_OP_deref` and `DW_OP_deref_size`: reads this number of bytes at the address, 1 to 8.
    Dereference(u64),
    /// `DW_OP_abs`.
    Absolute,
    /// `DW_OP_neg`.
    Negate,
    /// `DW_OP_not`.
    Not,
    /// `DW_OP_plus_uconst`: adds this constant.
    AddConstant(u64),
}

/// A comparison of two values with signs.
#[derive(Clone, Copy, Debug, PartialEq, Eq)]
pub enum Comparison {
    /// `DW_OP_eq`.
    Equal,
    /// `DW_OP_ge`.
    GreaterOrEqual,
    /// `DW_OP_gt`.
    Greater,
    /// `DW_OP_le`.
    LessOrEqual,
    /// `DW_OP_lt`.
    Less,
    /// `DW_OP_ne`.
    NotEqual,
}

/// An operation that replaces the two values on top. The upper one is the right operand.
#[derive(Clone, Copy, Debug, PartialEq, Eq)]
pub enum BinaryOperation {
    /// `DW_OP_and`.
    And,
    /// `DW_OP_div`.
    Divide,
    /// `DW_OP_minus`.
    Minus,
    /// `DW_OP_mod`.
    Modulo,
    /// `DW_OP_mul`.
    Multiply,
    /// `DW_OP_or`.
    Or,
    /// `DW_OP_plus`.
    Plus,
    /// `DW_OP_shl`.
    ShiftLeft,
    /// `DW_OP_shr`.
    ShiftRight,
    /// `DW_OP_shra`.
    ShiftRightArithmetic,
    /// `DW_OP_xor`.
    Xor,
    /// 1 if the comparison holds, else 0.
    Compare(Comparison),
}

/// An operation of an expression.
#[derive(Clone, Copy, Debug, PartialEq, Eq)]
pub enum Operation {
    /// `DW_OP_lit0` to `DW_OP_lit31`, `DW_OP_addr` and `DW_OP_const*`: pushes this value.
    Literal(u64),
    /// `DW_OP_breg0` to `DW_OP_breg31` and `DW_OP_bregx`: pushes a register plus an offset.
    Register(u64, u64),
    /// `DW_OP_pick`, `DW_OP_dup` (0) and `DW_OP_over` (1): pushes the value at this index from the top.
    Pick(u64),
    /// Replaces the value on top.
    Unary(UnaryOperation),
    /// Replaces the two values on top.
    Binary(BinaryOperation),
    /// `DW_OP_drop`.
    Drop,
    /// `DW_OP_swap`.
    Swap,
    /// `DW_OP_rot`: the value on top becomes the third.
    Rotate,
    /// `DW_OP_bra`: skips this number of bytes if the value on top is not 0, which is removed.
    Branch(u64),
    /// `DW_OP_skip`: skips this number of bytes.
    Skip(u64),
    /// `DW_OP_nop`.
    Nop,
}

// How a number is encoded.
#[derive(Clone, Copy, Debug, PartialEq, Eq)]
pub(crate) enum Number {
    Unsigned8,
    Signed8,
    Unsigned16,
    Signed16,
    Unsigned32,
    Signed32,
    // A sign changes nothing.
    Whole64,
    Uleb128,
    Sleb128,
}

// What follows an opcode.
#[derive(Clone, Copy, Debug, PartialEq, Eq)]
pub(crate) enum Operands {
    // Nothing.
    Plain(Operation),
    // A value.
    Literal(Number),
    // An offset from this register.
    Offset(u64),
    // A register and an offset.
    RegisterOffset,
    // The index of a value.
    Index,
    // The number of bytes that are read.
    Size,
    // The constant that is added.
    AddConstant,
    // The distance of a jump.
    Branch,
    Skip,
}

// The operation of an opcode that replaces the two values on top.
fn binary_operation(opcode: u8) -> Option<BinaryOperation>
    ensures { result ≡ binary_opcode opcode }
{
    match opcode {
        0x1a => Some(BinaryOperation::And),
        0x1b => Some(BinaryOperation::Divide),
        0x1c => Some(BinaryOperation::Minus),
        0x1d => Some(BinaryOperation::Modulo),
        0x1e => Some(BinaryOperation::Multiply),
        0x21 => Some(BinaryOperation::Or),
        0x22 => Some(BinaryOperation::Plus),
        0x24 => Some(BinaryOperation::ShiftLeft),
        0x25 => Some(BinaryOperation::ShiftRight),
        0x26 => Some(BinaryOperation::ShiftRightArithmetic),
        0x27 => Some(BinaryOperation::Xor),
        _ => None,
    }
}

// The comparison of an opcode.
fn opcode_comparison(opcode: u8) -> Option<Comparison>
    ensures { result ≡ comparison_opcode opcode }
{
    match opcode {
        0x29 => Some(Comparison::Equal),
        0x2a => Some(Comparison::GreaterOrEqual),
        0x2b => Some(Comparison::Greater),
        0x2c => Some(Comparison::LessOrEqual),
        0x2d => Some(Comparison::Less),
        0x2e => Some(Comparison::NotEqual),
        _ => None,
    }
}

// The operation of an opcode that replaces the value on top and has no operands.
fn unary_operation(opcode: u8) -> Option<UnaryOperation>
    ensures { result ≡ unary_opcode opcode }
{
    match opcode {
        0x06 => Some(UnaryOperation::Dereference(8)),
        0x19 => Some(UnaryOperation::Absolute),
        0x1f => Some(UnaryOperation::Negate),
        0x20 => Some(UnaryOperation::Not),
        _ => None,
    }
}

// Any other operation of an opcode that has no operands.
fn other_operation(opcode: u8) -> Option<Operation>
    ensures { result ≡ other_opcode opcode }
{
    match opcode {
        0x12 => Some(Operation::Pick(0)),
        0x13 => Some(Operation::Drop),
        0x14 => Some(Operation::Pick(1)),
        0x16 => Some(Operation::Swap),
        0x17 => Some(Operation::Rotate),
        0x96 => Some(Operation::Nop),
        0x30..=0x4f => Some(Operation::Literal((opcode - 0x30) as u64)),
        _ => None,
    }
}

// The encoding of the constant that an opcode pushes.
fn constant_encoding(opcode: u8) -> Option<Number>
    ensures { result ≡ constant_opcode opcode }
{
    match opcode {
        0x08 => Some(Number::Unsigned8),
        0x09 => Some(Number::Signed8),
        0x0a => Some(Number::Unsigned16),
        0x0b => Some(Number::Signed16),
        0x0c => Some(Number::Unsigned32),
        0x0d => Some(Number::Signed32),
        0x03 | 0x0e | 0x0f => Some(Number::Whole64),
        0x10 => Some(Number::Uleb128),
        0x11 => Some(Number::Sleb128),
        _ => None,
    }
}

// What follows any other opcode.
fn other_operands(opcode: u8) -> Option<Operands>
    ensures { result ≡ operand_opcode opcode }
{
    match opcode {
        0x15 => Some(Operands::Index),
        0x23 => Some(Operands::AddConstant),
        0x28 => Some(Operands::Branch),
        0x2f => Some(Operands::Skip),
        0x92 => Some(Operands::RegisterOffset),
        0x94 => Some(Operands::Size),
        0x70..=0x8f => Some(Operands::Offset((opcode - 0x70) as u64)),
        _ => None,
    }
}

// What follows an opcode, if it is known.
fn opcode_operands(opcode: u8) -> Option<Operands>
    ensures { result ≡ form_of opcode }
{
    if let Some(operation) = binary_operation(opcode) {
        return Some(Operands::Plain(Operation::Binary(operation)));
    }
    if let Some(comparison) = opcode_comparison(opcode) {
        return Some(Operands::Plain(Operation::Binary(BinaryOperation::Compare(comparison))));
    }
    if let Some(operation) = unary_operation(opcode) {
        return Some(Operands::Plain(Operation::Unary(operation)));
    }
    if let Some(operation) = other_operation(opcode) {
        return Some(Operands::Plain(operation));
    }
    match constant_encoding(opcode) {
        Some(number) => Some(Operands::Literal(number)),
        None => other_operands(opcode),
    }
}

// Reads a number without a sign of `size` bytes, and returns it with the rest.
fn read_unsigned(bytes: &[u8], size: usize) -> Result<(u64, &[u8]), ExpressionError>
    requires { size ≤ 8 }
    ensures found { IfOk result (λ x. FixedAt size bytes.now x.0 x.1.now) }
    ensures none { IfErr result (λ e. (e ≡ ExpressionError.Bad) × (length bytes.now < size)) }
{
    match read_fixed(bytes, size) {
        Ok(read) => Ok(read),
        Err(_) => Err(ExpressionError::Bad),
    }
}

// The value modulo 2 ^ 64 of a number below `limit`, the upper half of which are negative.
fn sign_extend(number: u64, limit: u64) -> u64
    ensures { result ≡ sign_extended limit number }
{
    if number < limit / 2 {
        number
    } else {
        number.wrapping_sub(limit)
    }
}

// Reads a number with a sign of `size` bytes, which is below `limit` without it.
fn read_signed(bytes: &[u8], size: usize, limit: u64) -> Result<(u64, &[u8]), ExpressionError>
    requires small { size ≤ 4 }
    requires limit { limit ≡ 256 ^ size }
    ensures found { IfOk result (λ x. SignedAt size bytes.now x.0 x.1.now) }
    ensures none { IfErr result (λ e. (e ≡ ExpressionError.Bad) × (length bytes.now < size)) }
{
    let (number, rest) = read_unsigned(bytes, size)?;
    Ok((sign_extend(number, limit), rest))
}

// Reads a number, and returns it modulo 2 ^ 64 with the rest.
fn read_number(bytes: &[u8], number: Number) -> Result<(u64, &[u8]), ExpressionError>
    ensures found { IfOk result (λ x. NumberAt number bytes.now x.0 x.1.now) }
    ensures none { IfErr result (λ e. (e ≡ ExpressionError.Bad) × NoNumber number bytes.now) }
{
    match number {
        Number::Unsigned8 => read_unsigned(bytes, 1),
        Number::Unsigned16 => read_unsigned(bytes, 2),
        Number::Unsigned32 => read_unsigned(bytes, 4),
        Number::Whole64 => read_unsigned(bytes, 8),
        Number::Signed8 => read_signed(bytes, 1, 0x100),
        Number::Signed16 => read_signed(bytes, 2, 0x1_0000),
        Number::Signed32 => read_signed(bytes, 4, 0x1_0000_0000),
        Number::Uleb128 => match read_uleb128(bytes) {
            Ok(read) => Ok(read),
            Err(_) => Err(ExpressionError::Bad),
        },
        Number::Sleb128 => match read_sleb128(bytes) {
            Ok((number, rest)) => Ok((number.cast_unsigned(), rest)),
            Err(_) => Err(ExpressionError::Bad),
        },
    }
}

// Reads a register and an offset, and returns the operation that adds them with the rest.
fn read_register(bytes: &[u8]) -> Result<(Operation, &[u8]), ExpressionError>
    ensures found { IfOk result (λ x. OperandsAt Operands.RegisterOffset bytes.now x.0 x.1.now) }
    ensures none { IfErr result (λ e. (e ≡ ExpressionError.Bad)
        × NoOperands Operands.RegisterOffset bytes.now) }
{
    let (register, rest) = read_number(bytes, Number::Uleb128)?;
    let (offset, rest) = read_number(rest, Number::Sleb128)?;
    Ok((Operation::Register(register, offset), rest))
}

// Reads what follows an opcode, and returns the operation with the rest.
fn read_operands(operands: Operands, bytes: &[u8]) -> Result<(Operation, &[u8]), ExpressionError>
    ensures found { IfOk result (λ x. OperandsAt operands bytes.now x.0 x.1.now) }
    ensures none { IfErr result (λ e. (e ≡ ExpressionError.Bad) × NoOperands operands bytes.now) }
{
    match operands {
        Operands::Plain(operation) => Ok((operation, bytes)),
        Operands::Literal(number) => {
            let (value, rest) = read_number(bytes, number)?;
            Ok((Operation::Literal(value), rest))
        }
        Operands::Offset(register) => {
            let (offset, rest) = read_number(bytes, Number::Sleb128)?;
            Ok((Operation::Register(register, offset), rest))
        }
        Operands::RegisterOffset => read_register(bytes),
        Operands::Index => {
            let (index, rest) = read_number(bytes, Number::Unsigned8)?;
            Ok((Operation::Pick(index), rest))
        }
        Operands::Size => {
            let (size, rest) = read_number(bytes, Number::Unsigned8)?;
            Ok((Operation::Unary(UnaryOperation::Dereference(size)), rest))
        }
        Operands::AddConstant => {
            let (constant, rest) = read_number(bytes, Number::Uleb128)?;
            Ok((
                Operation::Unary(UnaryOperation::AddConstant(constant)),
                rest,
            ))
        }
        Operands::Branch => {
            let (distance, rest) = read_number(bytes, Number::Signed16)?;
            Ok((Operation::Branch(distance), rest))
        }
        Operands::Skip => {
            let (distance, rest) = read_number(bytes, Number::Signed16)?;
            Ok((Operation::Skip(distance), rest))
        }
    }
}

// Reads the operation at the start of the bytes, and returns it with the rest.
pub(crate) fn read_operation(bytes: &[u8]) -> Result<(Operation, &[u8]), ExpressionError>
    ensures found { IfOk result (λ x. OperationAt bytes.now x.0 x.1.now) }
    ensures none { IfErr result (λ e. (e ≡ ExpressionError.Bad) × NoOperation bytes.now) }
    ensures shorter { IfOk result (λ x. length x.1.now < length bytes.now) }
{
    match bytes {
        [] => Err(ExpressionError::Bad),
        [opcode, rest @ ..] => match opcode_operands(*opcode) {
            Some(operands) => read_operands(operands, rest),
            None => Err(ExpressionError::Bad),
        },
    }
}
