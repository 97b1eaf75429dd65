//! The values of an expression, and what operations do to them.
ghost use Rattle.std.specs.Prelude.{◌≡◌, ◌<◌, [], ◌∷◌, length, IfOk, IfErr, slice_get};
ghost use Rattle.code_unwind.specs.ExpressionStack.{holds as comparison_holds, binary_value, unary_value};
ghost use Rattle.code_unwind.specs.ExpressionStack.{or_bad};

use crate::expression::ExpressionError;
use crate::operation::{BinaryOperation, Comparison, Operation, UnaryOperation};
use crate::registers::FrameRegisters;
use crate::stack_copy::StackCopy;
use arrayvec::ArrayVec;

// The largest number of values.
const MAX_VALUES: usize = 64;

// The values of an expression.
#[derive(Drop)]
pub(crate) struct ExpressionStack {
    items: ArrayVec<u64, MAX_VALUES>,
}

// The signed quotient, rounded to zero.
fn divide(left: u64, right: u64) -> Option<u64>
    ensures { result ≡ binary_value BinaryOperation.Divide left right }
{
    if right == 0 {
        return None;
    }
    let quotient = left.cast_signed().wrapping_div(right.cast_signed());
    Some(quotient.cast_unsigned())
}

// A shift to the left. All bits are gone after 64.
fn shift_left(left: u64, right: u64) -> u64
    ensures { Some result ≡ binary_value BinaryOperation.ShiftLeft left right }
{
    if right < 64 { left << right } else { 0 }
}

// A shift to the right. All bits are gone after 64.
fn shift_right(left: u64, right: u64) -> u64
    ensures { Some result ≡ binary_value BinaryOperation.ShiftRight left right }
{
    if right < 64 { left >> right } else { 0 }
}

// A shift to the right that keeps the sign. All other bits are gone after 63.
fn shift_right_arithmetic(left: u64, right: u64) -> u64
    ensures { Some result ≡ binary_value BinaryOperation.ShiftRightArithmetic left right }
{
    (left.cast_signed() >> right.min(63)).cast_unsigned()
}

// Whether a comparison holds.
fn holds(comparison: Comparison, left: i64, right: i64) -> bool
    ensures { result ≡ comparison_holds comparison left right }
{
    match comparison {
        Comparison::Equal => left == right,
        Comparison::GreaterOrEqual => left >= right,
        Comparison::Greater => left > right,
        Comparison::LessOrEqual => left <= right,
        Comparison::Less => left < right,
        Comparison::NotEqual => left != right,
    }
}

// The value of an operation on two values, if it has one.
fn binary_result(operation: BinaryOperation, left: u64, right: u64) -> Option<u64>
    ensures { result ≡ binary_value operation left right }
{
    match operation {
        BinaryOperation::And => Some(left & right),
        BinaryOperation::Divide => divide(left, right),
        BinaryOperation::Minus => Some(left.wrapping_sub(right)),
        BinaryOperation::Modulo => left.checked_rem(right),
        BinaryOperation::Multiply => Some(left.wrapping_mul(right)),
        BinaryOperation::Or => Some(left | right),
        BinaryOperation::Plus => Some(left.wrapping_add(right)),
        BinaryOperation::ShiftLeft => Some(shift_left(left, right)),
        BinaryOperation::ShiftRight => Some(shift_right(left, right)),
        BinaryOperation::ShiftRightArithmetic => Some(shift_right_arithmetic(left, right)),
        BinaryOperation::Xor => Some(left ^ right),
        BinaryOperation::Compare(comparison) => {
            let is_true = holds(comparison, left.cast_signed(), right.cast_signed());
            Some(is_true as u64)
        }
    }
}

// The number of `size` bytes at an address.
fn read_word(copy: &StackCopy<'_>, address: u64, size: u64) -> Result<u64, ExpressionError>
    ensures { result ≡ unary_value copy.now (UnaryOperation.Dereference size) address }
{
    if size == 0 || size > 8 {
        return Err(ExpressionError::Bad);
    }
    copy.word(address, size as usize)
        .ok_or(ExpressionError::Truncated)
}

// The value of an operation on a value.
fn unary_result(
    copy: &StackCopy<'_>,
    operation: UnaryOperation,
    value: u64,
) -> Result<u64, ExpressionError>
    ensures { result ≡ unary_value copy.now operation value }
{
    match operation {
        UnaryOperation::Dereference(size) => read_word(copy, value, size),
        UnaryOperation::Absolute => Ok(value.cast_signed().unsigned_abs()),
        UnaryOperation::Negate => Ok(0u64.wrapping_sub(value)),
        UnaryOperation::Not => Ok(!value),
        UnaryOperation::AddConstant(constant) => Ok(value.wrapping_add(constant)),
    }
}

impl ExpressionStack {
    ghost use Rattle.code_unwind.specs.ExpressionStack.{first_values, pushed, with_unary};
    ghost use Rattle.code_unwind.specs.steps.ExpressionStack.{stack_of, Leaves};
    ghost use Rattle.code_unwind.specs.ExpressionStack.{with_binary};
    ghost use Rattle.code_unwind.specs.ExpressionStack.{dropped, swapped, rotated, effect, distance_of};

    // No values.
    pub(crate) fn new() -> ExpressionStack
        ensures { stack_of result ≡ [] }
    {
        ExpressionStack {
            items: ArrayVec::new(),
        }
    }

    // Removes all values, and pushes the first one, if there is one.
    pub(crate) fn restart(&mut self, first: Option<u64>)
        ensures { stack_of self.new ≡ first_values first }
    {
        self.items.clear();
        if let Some(value) = first {
            self.items.push(value);
        }
    }

    // Removes the value on top.
    pub(crate) fn pop(&mut self) -> Result<u64, ExpressionError>
        ensures found { IfOk result (λ x. stack_of self.old ≡ x ∷ stack_of self.new) }
        ensures none { IfErr result (λ e. (e ≡ ExpressionError.Bad) × (stack_of self.old ≡ [])) }
        ensures few { length (stack_of self.new) < 64 }
    {
        let _count = self.items.len(); // for the prover
        self.items.pop().ok_or(ExpressionError::Bad)
    }

    // Pushes a value.
    pub(crate) fn push(&mut self, value: u64) -> Result<(), ExpressionError>
        ensures { Leaves (pushed (Ok value) (stack_of self.old)) (stack_of self.new) result }
    {
        match self.items.try_push(value) {
            Ok(()) => Ok(()),
            Err(_) => Err(ExpressionError::Bad),
        }
    }

    // The value at an index from the top.
    fn get(&self, index: u64) -> Result<u64, ExpressionError>
        ensures { result ≡ or_bad (slice_get (stack_of self.now) index) }
    {
        let values = self.items.as_slice();
        if index < values.len() as u64 {
            Ok(values[values.len() - 1 - index as usize])
        } else {
            Err(ExpressionError::Bad)
        }
    }

    // Puts a value in the place of the one on top.
    fn replace(
        &mut self,
        copy: &StackCopy<'_>,
        operation: UnaryOperation,
    ) -> Result<(), ExpressionError>
        ensures { Leaves (with_unary copy.now operation (stack_of self.old)) (stack_of self.new) result }
    {
        let value = self.pop()?;
        self.push(unary_result(copy, operation, value)?)
    }

    // Puts a value in the place of the two on top.
    fn combine(&mut self, operation: BinaryOperation) -> Result<(), ExpressionError>
        ensures { Leaves (with_binary operation (stack_of self.old)) (stack_of self.new) result }
    {
        let right = self.pop()?;
        let left = self.pop()?;
        self.push(binary_result(operation, left, right).ok_or(ExpressionError::Bad)?)
    }

    // Removes the value on top.
    fn discard(&mut self) -> Result<(), ExpressionError>
        ensures { Leaves (dropped (stack_of self.old)) (stack_of self.new) result }
    {
        self.pop()?;
        Ok(())
    }

    // Swaps the two values on top.
    fn swap(&mut self) -> Result<(), ExpressionError>
        ensures { Leaves (swapped (stack_of self.old)) (stack_of self.new) result }
    {
        let first = self.pop()?;
        let second = self.pop()?;
        self.push(first)?;
        self.push(second)
    }

    // Moves the value on top below the two that follow.
    fn rotate(&mut self) -> Result<(), ExpressionError>
        ensures { Leaves (rotated (stack_of self.old)) (stack_of self.new) result }
    {
        let first = self.pop()?;
        let second = self.pop()?;
        let third = self.pop()?;
        self.push(first)?;
        self.push(third)?;
        self.push(second)
    }

    // Carries an operation out.
    pub(crate) fn carry_out(
        &mut self,
        registers: &FrameRegisters,
        copy: &StackCopy<'_>,
        operation: Operation,
    ) -> Result<(), ExpressionError>
        ensures { Leaves (effect registers.now copy.now operation (stack_of self.old)) (stack_of self.new)
            result }
    {
        match operation {
            Operation::Literal(value) => self.push(value),
            Operation::Register(register, offset) => {
                let value = registers.get(register).ok_or(ExpressionError::Bad)?;
                self.push(value.wrapping_add(offset))
            }
            Operation::Pick(index) => self.push(self.get(index)?),
            Operation::Unary(operation) => self.replace(copy, operation),
            Operation::Binary(operation) => self.combine(operation),
            Operation::Drop | Operation::Branch(_) => self.discard(),
            Operation::Swap => self.swap(),
            Operation::Rotate => self.rotate(),
            Operation::Skip(_) | Operation::Nop => Ok(()),
        }
    }

    // The number of bytes that an operation skips.
    pub(crate) fn distance(&self, operation: Operation) -> u64
        ensures { result ≡ distance_of operation (stack_of self.now) }
    {
        match operation {
            Operation::Branch(distance) => match self.get(0) {
                Ok(0) | Err(_) => 0,
                Ok(_) => distance,
            },
            Operation::Skip(distance) => distance,
            _ => 0,
        }
    }
}
