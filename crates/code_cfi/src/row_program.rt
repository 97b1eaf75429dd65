//! Programs of call frame instructions: what each instruction does to a row, and the row at an address.
ghost use Rattle.std.specs.Prelude.{◌≡◌, ◌≢◌, ◌≤◌, ◌<◌, ◌++◌, ◌∷◌};
ghost use Rattle.std.specs.Prelude.{[], None, length, IfOk, IfErr, OnOk, OnErr};
ghost use Rattle.code_cfi.specs.Rows.{factored, signed_factored, DefinesCfa};
ghost use Rattle.code_cfi.specs.steps.Rows.{moment_of};
ghost use Rattle.code_cfi.specs.Rows.{rule_of as rule_set, Rewrites, SetsRule, with_cfa, Runs, Steps};
ghost use Rattle.code_cfi.specs.Rows.{Moment, StepsInFde};
ghost use Rattle.code_cfi.specs.steps.Rows.{NoStep, NoRun};
ghost use Rattle.code_cfi.specs.declared.row.Cfa.{Cfa};
ghost use Rattle.code_cfi.specs.Remembering.{RemembersAfter, RunRemembers};
ghost use Rattle.code_cfi.specs.declared.error.CfiError.TheVariants as errors;
ghost use Rattle.code_cfi.specs.declared.instruction.Instruction.TheVariants as instructions;

use crate::cie::Cie;
use crate::error::CfiError;
use crate::instruction::{Encoding, Instruction, read_instruction};
use crate::row::{Cfa, Row, Rule};

// The largest number of bytes of the instructions of an entry.
const MAX_PROGRAM_SIZE: usize = 65_536;

// The largest number of remembered rows.
const MAX_REMEMBERED_ROWS: usize = 8;

// The state between two instructions.
#[derive(Drop)]
pub(crate) struct RowState {
    pub(crate) location: u64,
    pub(crate) row: Row,
    pub(crate) remembered: Vec<Row>,
}

// The offset that an operand of an instruction says.
fn scaled_offset(cie: &Cie, operand: u64) -> u64
    ensures { result ≡ factored cie.now operand }
{
    operand.wrapping_mul(cie.data_factor.cast_unsigned())
}

// The offset that a signed operand of an instruction says.
fn signed_scaled_offset(cie: &Cie, operand: i64) -> u64
    ensures { result ≡ signed_factored cie.now operand }
{
    scaled_offset(cie, operand.cast_unsigned())
}

// The register and the rule that an instruction sets, if it sets one without reading the row.
fn rule(cie: &Cie, instruction: &Instruction) -> Option<(u64, Rule)>
    ensures { result ≡ rule_set cie.now instruction.now }
{
    match *instruction {
        Instruction::Undefined(register) => Some((register, Rule::Undefined)),
        Instruction::SameValue(register) => Some((register, Rule::SameValue)),
        Instruction::Offset(register, offset) => {
            Some((register, Rule::Offset(scaled_offset(cie, offset))))
        }
        Instruction::OffsetSigned(register, offset) => {
            Some((register, Rule::Offset(signed_scaled_offset(cie, offset))))
        }
        Instruction::OffsetNegative(register, offset) => {
            let offset = 0u64.wrapping_sub(scaled_offset(cie, offset));
            Some((register, Rule::Offset(offset)))
        }
        Instruction::ValueOffset(register, offset) => {
            Some((register, Rule::ValueOffset(scaled_offset(cie, offset))))
        }
        Instruction::ValueOffsetSigned(register, offset) => {
            Some((
                register,
                Rule::ValueOffset(signed_scaled_offset(cie, offset)),
            ))
        }
        Instruction::Register(register, other) => Some((register, Rule::Register(other))),
        Instruction::Expression(register, span) => Some((register, Rule::Expression(span))),
        Instruction::ValueExpression(register, span) => {
            Some((register, Rule::ValueExpression(span)))
        }
        _ => None,
    }
}

// The CFA that an instruction defines, where `cfa` is the one before.
fn cfa(cie: &Cie, instruction: &Instruction, cfa: Cfa) -> Result<Cfa, CfiError>
    ensures found { IfOk result (λ new. DefinesCfa cie.now instruction.now cfa new) }
    ensures none { OnErr result ((new : Cfa) → DefinesCfa cie.now instruction.now cfa new → ⊥) }
    ensures never { IfErr result (λ e. e ≢ errors.Memory) }
{
    match *instruction {
        Instruction::DefineCfa(register, offset) => Ok(Cfa::Register(register, offset)),
        Instruction::DefineCfaSigned(register, offset) => {
            Ok(Cfa::Register(register, signed_scaled_offset(cie, offset)))
        }
        Instruction::DefineCfaExpression(span) => Ok(Cfa::Expression(span)),
        Instruction::DefineCfaRegister(register) => match cfa {
            Cfa::Register(_, offset) => Ok(Cfa::Register(register, offset)),
            _ => Err(CfiError::NoCfaRegister),
        },
        Instruction::DefineCfaOffset(offset) => match cfa {
            Cfa::Register(register, _) => Ok(Cfa::Register(register, offset)),
            _ => Err(CfiError::NoCfaRegister),
        },
        Instruction::DefineCfaOffsetSigned(offset) => match cfa {
            Cfa::Register(register, _) => {
                Ok(Cfa::Register(register, signed_scaled_offset(cie, offset)))
            }
            _ => Err(CfiError::NoCfaRegister),
        },
        _ => Err(CfiError::NoCfaRegister),
    }
}

// Restores the row that was remembered last.
fn restore_row(state: &mut RowState) -> Result<(), CfiError>
    ensures location { OnOk result (state.new.location ≡ state.old.location) }
    ensures remembered { OnOk result (state.old.remembered.items
        ≡ state.new.remembered.items ++ state.new.row ∷ []) }
    ensures none { OnErr result (state.old.remembered.items ≡ []) }
    ensures never { IfErr result (λ e. e ≢ errors.Memory) }
{
    match state.remembered.pop() {
        Some(row) => {
            state.row = row;
            Ok(())
        }
        None => Err(CfiError::NoRememberedRow),
    }
}

// Remembers the row.
fn remember_row(state: &mut RowState) -> Result<(), CfiError>
    ensures few { OnOk result (length state.old.remembered.items < 8) }
    ensures location { OnOk result (state.new.location ≡ state.old.location) }
    ensures row { OnOk result (state.new.row ≡ state.old.row) }
    ensures remembered { OnOk result (state.new.remembered.items
        ≡ state.old.remembered.items ++ state.old.row ∷ []) }
    ensures many { IfErr result (λ e. e ≢ errors.Memory → 8 ≤ length state.old.remembered.items) }
{
    if state.remembered.len() >= MAX_REMEMBERED_ROWS {
        return Err(CfiError::RememberedRows);
    }
    let row = state.row;
    match state.remembered.push(row) {
        Ok(()) => Ok(()),
        Err(_) => Err(CfiError::Memory),
    }
}

// Carries an instruction out that only an FDE may contain.
fn step_in_fde(
    initial: &Row,
    instruction: &Instruction,
    state: &mut RowState,
) -> Result<(), CfiError>
    ensures done { OnOk result (StepsInFde initial.now instruction.now (moment_of state.old)
        (moment_of state.new)) }
    ensures none { IfErr result (λ e. e ≢ errors.Memory
        → (n : Moment) → StepsInFde initial.now instruction.now (moment_of state.old) n → ⊥) }
    ensures memory { IfErr result (λ e. e ≡ errors.Memory → instruction.now ≡ instructions.RememberState) }
{
    match *instruction {
        Instruction::SetLocation(location) => {
            state.location = location;
            Ok(())
        }
        Instruction::Restore(register) => {
            let rule = initial.rule(register);
            state.row.set_rule(register, rule);
            Ok(())
        }
        Instruction::RememberState => remember_row(state),
        Instruction::RestoreState => restore_row(state),
        _ => Err(CfiError::NotInitial),
    }
}

// Carries an instruction out that defines the CFA.
fn step_of_cfa(cie: &Cie, instruction: &Instruction, state: &mut RowState) -> Result<(), CfiError>
    ensures done { OnOk result ((cfa : Cfa) × DefinesCfa cie.now instruction.now state.old.row.cfa cfa
        × Rewrites (moment_of state.old) (with_cfa state.old.row cfa) (moment_of state.new)) }
    ensures none { OnErr result ((cfa : Cfa) → DefinesCfa cie.now instruction.now state.old.row.cfa cfa → ⊥) }
    ensures never { IfErr result (λ e. e ≢ errors.Memory) }
{
    let cfa = cfa(cie, instruction, state.row.cfa)?;
    state.row.cfa = cfa;
    Ok(())
}

// Carries an instruction out that sets a rule.
fn step_of_rule(cie: &Cie, instruction: &Instruction, state: &mut RowState) -> Result<(), CfiError>
    ensures done { OnOk result (SetsRule (rule_set cie.now instruction.now) (moment_of state.old)
        (moment_of state.new)) }
    ensures none { OnErr result (rule_set cie.now instruction.now ≡ None) }
    ensures never { IfErr result (λ e. e ≢ errors.Memory) }
{
    match rule(cie, instruction) {
        Some((register, rule)) => {
            state.row.set_rule(register, rule);
            Ok(())
        }
        None => Err(CfiError::NotInitial),
    }
}

// Carries an instruction out. `initial` is the row that the CIE's instructions made, or `None` for these.
fn step(
    cie: &Cie,
    initial: &Option<Row>,
    instruction: &Instruction,
    state: &mut RowState,
) -> Result<(), CfiError>
    ensures done { OnOk result (Steps cie.now initial.now instruction.now (moment_of state.old)
        (moment_of state.new)) }
    ensures none { IfErr result (λ e. e ≢ errors.Memory
        → NoStep cie.now initial.now instruction.now (moment_of state.old)) }
    ensures memory { IfErr result (λ e. e ≡ errors.Memory → RemembersAfter initial.now instruction.now) }
{
    match *instruction {
        Instruction::Nop => Ok(()),
        Instruction::Advance(delta) => {
            let size = delta.wrapping_mul(cie.code_factor);
            state.location = state.location.wrapping_add(size);
            Ok(())
        }
        Instruction::SetLocation(_)
        | Instruction::Restore(_)
        | Instruction::RememberState
        | Instruction::RestoreState => match initial {
            Some(row) => step_in_fde(row, instruction, state),
            None => Err(CfiError::NotInitial),
        },
        Instruction::DefineCfa(_, _)
        | Instruction::DefineCfaSigned(_, _)
        | Instruction::DefineCfaRegister(_)
        | Instruction::DefineCfaOffset(_)
        | Instruction::DefineCfaOffsetSigned(_)
        | Instruction::DefineCfaExpression(_) => step_of_cfa(cie, instruction, state),
        Instruction::Undefined(_)
        | Instruction::SameValue(_)
        | Instruction::Offset(_, _)
        | Instruction::OffsetSigned(_, _)
        | Instruction::OffsetNegative(_, _)
        | Instruction::ValueOffset(_, _)
        | Instruction::ValueOffsetSigned(_, _)
        | Instruction::Register(_, _)
        | Instruction::Expression(_, _)
        | Instruction::ValueExpression(_, _) => step_of_rule(cie, instruction, state),
    }
}

// Runs instructions while the location is at most an address.
pub(crate) fn run(
    encoding: &Encoding,
    cie: &Cie,
    initial: &Option<Row>,
    address: u64,
    program: &[u8],
    state: &mut RowState,
) -> Result<(), CfiError>
    requires { length program.now ≤ encoding.now.end }
    ensures done { OnOk result (Runs encoding.now cie.now initial.now address program.now
        (moment_of state.old) (moment_of state.new)) }
    ensures small { OnOk result (length program.now ≤ 65536) }
    ensures none { IfErr result (λ e. e ≢ errors.Memory → length program.now ≤ 65536
        → NoRun encoding.now cie.now initial.now address program.now (moment_of state.old)) }
    ensures memory { IfErr result (λ e. e ≡ errors.Memory →
        RunRemembers initial.now encoding.now program.now) }
{
    if program.len() > MAX_PROGRAM_SIZE {
        return Err(CfiError::ProgramSize);
    }
    let mut rest = program;
    'instructions: while !rest.is_empty() && state.location <= address {
        let (instruction, after) = read_instruction(rest, encoding)?;
        step(cie, initial, &instruction, state)?;
        rest = after;
    }
    Ok(())
}
