//! The registers of a caller, by the rules of a row.
ghost use Rattle.std.specs.Prelude.{◌≡◌, true, slice_range, Err, IfErr, OnOk};
ghost use Rattle.code_cfi.specs.FrameTables.{bytes_of};
ghost use Rattle.code_unwind.specs.Expressions.{Evaluates, remaining_of};
ghost use Rattle.code_unwind.specs.steps.ChainEnds.{value_in};
ghost use Rattle.code_unwind.specs.Machines.{stack_pointer as stack_pointer_of};
ghost use Rattle.code_unwind.specs.Rules.{expression_end as end_by, ExpressionIs, CfaIs, ValueIs, ValuesAre};
ghost use Rattle.code_unwind.specs.Rules.{ByRow, is_span};
ghost use Rattle.code_unwind.specs.Rules.{stored_value as stored, same_value as same};
ghost use Rattle.code_unwind.specs.Rules.{is_needed as needed};
ghost use Rattle.code_unwind.specs.Rules.{RegisterIs, SetsRegister, register_rule as rule_in};
ghost use Rattle.code_unwind.specs.Rules.{caller_return_address as return_address};
ghost use Rattle.code_unwind.specs.Rules.{link_register as link, is_popped as popped};
ghost use Rattle.code_unwind.specs.Rules.{keeps_popped as keeps};
ghost use Rattle.code_unwind.specs.Stacks.{register_of};

use crate::expression::{Evaluator, ExpressionError};
use crate::frame::ChainEnd;
use crate::machine::{LINK_REGISTER, pc_number, register_count, stack_pointer};
use crate::registers::FrameRegisters;
use crate::stack_copy::StackCopy;
use code_cfi::{ByteRange, Cfa, FrameTable, Machine, Row, RowAtAddress, Rule};

// A frame whose caller is looked for, and what rules read.
#[derive(Clone, Copy)]
pub(crate) struct Callee<'a> {
    pub(crate) machine: Machine,
    pub(crate) registers: &'a FrameRegisters,
    pub(crate) is_exact: bool,
    pub(crate) copy: StackCopy<'a>,
    // The table that the row is of.
    pub(crate) table: &'a FrameTable,
}

// How a chain ends at an expression that has no value.
fn expression_end(error: ExpressionError) -> ChainEnd
    ensures { result ≡ end_by error }
{
    match error {
        ExpressionError::Bad => ChainEnd::BadCfi,
        ExpressionError::Truncated => ChainEnd::Truncated,
    }
}

// The value of the expression at a span of the section.
fn range_value(
    callee: &Callee<'_>,
    span: ByteRange,
    first: Option<u64>,
    evaluator: &mut Evaluator,
) -> Result<u64, ExpressionError>
    requires { is_span (bytes_of callee.now.table.now) span ≡ true }
    ensures { Evaluates (record {
      bytes = slice_range (bytes_of callee.now.table.now) span.start span.end;
      registers = callee.now.registers.now;
      copy = callee.now.copy;
    }) first (remaining_of evaluator.old) result (remaining_of evaluator.new) }
{
    let section = callee.table.bytes();
    evaluator.evaluate(
        &section[span.start..span.end],
        callee.registers,
        &callee.copy,
        first,
    )
}

// Whether a span is within the section.
fn is_within(callee: &Callee<'_>, span: ByteRange) -> bool
    ensures { result ≡ is_span (bytes_of callee.now.table.now) span }
{
    span.start <= span.end && span.end <= callee.table.bytes().len()
}

// The value of an expression, before which `first` is pushed.
fn expression_value(
    callee: &Callee<'_>,
    span: ByteRange,
    first: Option<u64>,
    evaluator: &mut Evaluator,
) -> Result<u64, ChainEnd>
    ensures { ExpressionIs callee.now span first (remaining_of evaluator.old) result
        (remaining_of evaluator.new) }
{
    if !is_within(callee, span) {
        return Err(ChainEnd::BadCfi);
    }
    match range_value(callee, span, first, evaluator) {
        Ok(value) => Ok(value),
        Err(error) => Err(expression_end(error)),
    }
}

// The canonical frame address.
fn cfa(callee: &Callee<'_>, cfa: Cfa, evaluator: &mut Evaluator) -> Result<u64, ChainEnd>
    ensures { CfaIs callee.now cfa (remaining_of evaluator.old) result (remaining_of evaluator.new) }
{
    match cfa {
        Cfa::Undefined => Err(ChainEnd::BadCfi),
        Cfa::Register(register, offset) => match callee.registers.get(register) {
            Some(value) => Ok(value.wrapping_add(offset)),
            None => Err(ChainEnd::BadCfi),
        },
        Cfa::Expression(span) => expression_value(callee, span, None, evaluator),
    }
}

// Whether an address is below the stack pointer.
fn is_popped(callee: &Callee<'_>, address: u64) -> bool
    ensures { result ≡ popped (register_of callee.now.registers.now (stack_pointer_of callee.now.machine))
        address }
{
    match callee.registers.get(stack_pointer(callee.machine)) {
        Some(top) => address < top,
        None => false,
    }
}

// Whether a register has its own value where the word that it is stored in is popped. The return address and
// the stack pointer don't, since they would be the frame's own again. x30 of AArch64 does in a frame that was
// interrupted: an epilogue loads it before it returns.
fn keeps_popped(callee: &Callee<'_>, register: u64, is_needed: bool) -> bool
    ensures { result ≡ keeps callee.now.machine callee.now.is_exact register is_needed }
{
    if !is_needed {
        return true;
    }
    match callee.machine {
        Machine::X86_64 => false,
        Machine::AArch64 => callee.is_exact && register == LINK_REGISTER,
    }
}

// The value of a register that is stored at an address. A word below the stack pointer is popped already, or
// not stored yet. `is_needed` says that the chain ends without the value.
fn stored_value(
    callee: &Callee<'_>,
    register: u64,
    is_needed: bool,
    address: u64,
) -> Result<Option<u64>, ChainEnd>
    ensures { result ≡ stored callee.now register is_needed address }
{
    if is_popped(callee, address) && keeps_popped(callee, register, is_needed) {
        return Ok(callee.registers.get(register));
    }
    match callee.copy.word(address, 8) {
        Some(word) => Ok(Some(word)),
        None => if is_needed {
            Err(ChainEnd::Truncated)
        } else {
            Ok(None)
        },
    }
}

// The caller's value of a register that has the same value, which the stack pointer can't.
fn same_value(callee: &Callee<'_>, register: u64, cfa: u64) -> Option<u64>
    ensures { result ≡ same callee.now register cfa }
{
    if register == stack_pointer(callee.machine) {
        Some(cfa)
    } else {
        callee.registers.get(register)
    }
}

// The caller's value of a register by a rule.
fn register_value(
    callee: &Callee<'_>,
    register: u64,
    is_needed: bool,
    rule: Rule,
    cfa: u64,
    evaluator: &mut Evaluator,
) -> Result<Option<u64>, ChainEnd>
    ensures { ValueIs callee.now register is_needed cfa rule (remaining_of evaluator.old) result
        (remaining_of evaluator.new) }
{
    match rule {
        Rule::SameValue => Ok(same_value(callee, register, cfa)),
        Rule::Undefined => Ok(None),
        Rule::Offset(offset) => {
            stored_value(callee, register, is_needed, cfa.wrapping_add(offset))
        }
        Rule::ValueOffset(offset) => Ok(Some(cfa.wrapping_add(offset))),
        Rule::Register(other) => Ok(callee.registers.get(other)),
        Rule::Expression(span) => {
            let address = expression_value(callee, span, Some(cfa), evaluator)?;
            stored_value(callee, register, is_needed, address)
        }
        Rule::ValueExpression(span) => {
            let value = expression_value(callee, span, Some(cfa), evaluator)?;
            Ok(Some(value))
        }
    }
}

// Whether there is no caller without a register.
fn is_needed(callee: &Callee<'_>, found: &RowAtAddress, register: u64) -> bool
    ensures { result ≡ needed callee.now found.now register }
{
    register == found.return_address || register == stack_pointer(callee.machine)
}

// The caller's value of a register by a row.
fn value_by_row(
    callee: &Callee<'_>,
    found: &RowAtAddress,
    register: u64,
    cfa: u64,
    evaluator: &mut Evaluator,
) -> Result<Option<u64>, ChainEnd>
    ensures { RegisterIs callee.now found.now cfa register (remaining_of evaluator.old) result
        (remaining_of evaluator.new) }
{
    let is_needed = is_needed(callee, found, register);
    let rule = found.row.rule(register);
    register_value(callee, register, is_needed, rule, cfa, evaluator)
}

// Sets the caller's value of a register by a row. Most registers have the same value.
fn set_value(
    callee: &Callee<'_>,
    found: &RowAtAddress,
    register: u64,
    cfa: u64,
    evaluator: &mut Evaluator,
    caller: &mut FrameRegisters,
) -> Result<(), ChainEnd>
    ensures ok { OnOk result (SetsRegister callee.now found.now cfa register (remaining_of evaluator.old)
        caller.old caller.new (remaining_of evaluator.new)) }
    ensures err { IfErr result (λ e. RegisterIs callee.now found.now cfa register
        (remaining_of evaluator.old) (Err e) (remaining_of evaluator.new)) }
{
    if let Rule::SameValue = found.row.rule(register) {
        caller.set(register, same_value(callee, register, cfa));
        return Ok(());
    }
    let value = value_by_row(callee, found, register, cfa, evaluator)?;
    caller.set(register, value);
    Ok(())
}

// Sets the caller's registers by the rules of a row, but for the program counter.
fn set_values(
    callee: &Callee<'_>,
    found: &RowAtAddress,
    cfa: u64,
    evaluator: &mut Evaluator,
    caller: &mut FrameRegisters,
) -> Result<(), ChainEnd>
    ensures { ValuesAre callee.now found.now cfa (remaining_of evaluator.old) (value_in result caller.new)
        (remaining_of evaluator.new) }
{
    *caller = FrameRegisters::new();
    'registers: for register in 0..register_count(callee.machine) {
        set_value(callee, found, register, cfa, evaluator, caller)?;
    }
    Ok(())
}

// The rule of a register. Other registers than those of the machine have none.
fn register_rule(machine: Machine, row: &Row, register: u64) -> Rule
    ensures { result ≡ rule_in machine row.now register }
{
    if register < register_count(machine) {
        row.rule(register)
    } else {
        Rule::SameValue
    }
}

// The return address of a frame whose row has no rule for it.
fn link_register(callee: &Callee<'_>) -> Result<Option<u64>, ChainEnd>
    ensures { result ≡ link callee.now.machine callee.now.is_exact callee.now.registers.now }
{
    match callee.machine {
        Machine::X86_64 => Err(ChainEnd::BadCfi),
        Machine::AArch64 => {
            if callee.is_exact {
                Ok(callee.registers.get(LINK_REGISTER))
            } else {
                Err(ChainEnd::BadCfi)
            }
        }
    }
}

// The return address, where `caller` has the other registers.
fn caller_return_address(
    callee: &Callee<'_>,
    found: &RowAtAddress,
    caller: &FrameRegisters,
) -> Result<Option<u64>, ChainEnd>
    ensures { result ≡ return_address callee.now found.now caller.now }
{
    match register_rule(callee.machine, &found.row, found.return_address) {
        Rule::Undefined => Err(ChainEnd::Root),
        Rule::SameValue => link_register(callee),
        _ => Ok(caller.get(found.return_address)),
    }
}

// Sets the caller's registers by a row, where they are: a result with them would be copied at each return.
pub(crate) fn set_registers_by_row(
    callee: &Callee<'_>,
    found: &RowAtAddress,
    evaluator: &mut Evaluator,
    caller: &mut FrameRegisters,
) -> Result<(), ChainEnd>
    ensures { ByRow callee.now found.now (remaining_of evaluator.old) (value_in result caller.new)
        (remaining_of evaluator.new) }
{
    let cfa = cfa(callee, found.row.cfa(), evaluator)?;
    set_values(callee, found, cfa, evaluator, caller)?;
    let pc = caller_return_address(callee, found, caller)?;
    caller.set(pc_number(callee.machine), pc);
    Ok(())
}
