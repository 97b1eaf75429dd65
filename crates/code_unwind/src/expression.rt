//! Expressions: values that are computed from registers and memory (DWARF 5, section 2.5.1).
ghost use Rattle.std.specs.Prelude.{◌≡◌, ◌≤◌, ◌<◌, length, IfOk, IfErr};

use crate::operation::read_operation;
use crate::registers::FrameRegisters;
use crate::stack_copy::StackCopy;
use crate::values::ExpressionStack;
use thiserror::Error;

// The largest number of operations of all expressions of a sample.
const MAX_OPERATIONS: u64 = 16_384;

/// Why an expression has no value.
#[derive(Clone, Copy, Debug, PartialEq, Eq, Error)]
pub enum ExpressionError {
    /// An operation is unknown or truncated, lacks values, divides by 0, reads an unknown register or jumps
    /// outside the expression, or there are more than 64 values or too many operations.
    #[error("Bad expression")]
    Bad,
    /// The expression reads memory that isn't in the copy.
    #[error("The expression reads memory that was not copied")]
    Truncated,
}

/// Evaluates the expressions of a sample, with at most 16,384 operations together.
#[derive(Drop)]
pub struct Evaluator {
    values: ExpressionStack,
    remaining: u64,
}

impl Evaluator {
    ghost use Rattle.code_unwind.specs.Expressions.{remaining_of, Evaluates, StepsTo, Stops};
    ghost use Rattle.code_unwind.specs.steps.Expressions.{moment_at};
    ghost use Rattle.code_unwind.specs.declared.operation.Operation.{Operation};

    /// Makes an evaluator, which may carry out 16,384 operations.
    pub fn new() -> Evaluator
        ensures { remaining_of result ≡ 16384 }
    {
        Evaluator {
            values: ExpressionStack::new(),
            remaining: MAX_OPERATIONS,
        }
    }

    /// Returns the value of an expression, before whose operations a first value may be pushed.
    ///
    /// # Errors
    ///
    /// Returns `Truncated` if an operation reads memory that isn't in the copy, and `Bad` in all other cases
    /// in which there is no value. Fewer operations may then be carried out.
    pub fn evaluate(
        &mut self,
        bytes: &[u8],
        registers: &FrameRegisters,
        copy: &StackCopy<'_>,
        first: Option<u64>,
    ) -> Result<u64, ExpressionError>
        ensures { Evaluates (record { bytes = bytes.now; registers = registers.now; copy = copy.now }) first
            (remaining_of self.old) result (remaining_of self.new) }
    {
        self.values.restart(first);
        let mut position = 0;
        'operations: while position < bytes.len() {
            position = self.step(bytes, position, registers, copy)?;
        }
        self.values.pop()
    }

    // Carries out the operation at a position, and returns the next position.
    fn step(
        &mut self,
        bytes: &[u8],
        position: usize,
        registers: &FrameRegisters,
        copy: &StackCopy<'_>,
    ) -> Result<usize, ExpressionError>
        requires { position < length bytes.now }
        ensures steps { IfOk result (λ next. (op : Operation) × StepsTo (record {
          bytes = bytes.now;
          registers = registers.now;
          copy = copy.now;
        }) (moment_at self.old position) op
            (moment_at self.new next)) }
        ensures stops { IfErr result (λ e. Stops (record {
          bytes = bytes.now;
          registers = registers.now;
          copy = copy.now;
        }) (moment_at self.old position) e) }
        ensures fewer { remaining_of self.new ≤ remaining_of self.old }
    {
        if self.remaining == 0 {
            return Err(ExpressionError::Bad);
        }
        self.remaining -= 1;
        let (operation, rest) = read_operation(&bytes[position..])?;
        let distance = self.values.distance(operation);
        self.values.carry_out(registers, copy, operation)?;
        let after = (bytes.len() - rest.len()) as u64;
        let next = after.wrapping_add(distance);
        if next > bytes.len() as u64 {
            return Err(ExpressionError::Bad);
        }
        Ok(next as usize)
    }
}
