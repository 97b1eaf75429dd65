//! From a frame to its caller.
ghost use Rattle.std.specs.Prelude.{◌≡◌, ℕ, Bool, IfOk, MatchOption};
ghost use Rattle.code_unwind.specs.steps.ChainEnds.{value_in};
ghost use Rattle.code_unwind.specs.Expressions.{remaining_of};
ghost use Rattle.code_cfi.specs.FrameTables.{IsRowAt};
ghost use Rattle.code_unwind.specs.FrameSteps.{Finds, FoundByFde, FoundByRow};
ghost use Rattle.code_unwind.specs.steps.FrameSteps.{IsStep};
ghost use Rattle.code_unwind.specs.FrameSteps.{by_code, by_bytes, by_mapped_code};
ghost use Rattle.code_unwind.specs.steps.FrameSteps.{found_in};
ghost use Rattle.code_unwind.specs.FrameSteps.{CodeHasFde, CodeHasNoFde, IsCallee, origin_by_row};
ghost use Rattle.code_unwind.specs.declared.code.MappedCode.{MappedCode as Mapped};
ghost use Rattle.code_unwind.specs.Callers.{pc_address as address_in};
ghost use Rattle.code_unwind.specs.steps.Callers.{Makes, MakesFoundCaller};
ghost use Rattle.code_unwind.specs.Callers.{may_follow};
ghost use Rattle.code_unwind.specs.Callers.{caller_frame as frame_of_caller};

use crate::code::{CodeMap, MappedCode, Plt};
use crate::expression::Evaluator;
use crate::frame::{ChainEnd, FrameOrigin, UnwoundFrame};
use crate::machine::{pc_number, stack_pointer};
use crate::registers::FrameRegisters;
use crate::rules::{Callee, set_registers_by_row};
use crate::stack_copy::StackCopy;
use crate::without_cfi::{
    is_sigreturn, registers_at_plt, registers_at_signal, registers_by_frame_pointer,
};
use code_cfi::{CfiError, FrameTable, Machine, RowAtAddress};
use std::alloc::{AllocError, Global};

// The number of addresses of AArch64. Higher bits of a program counter may have a signature.
const ADDRESSES_AARCH64: u64 = 0x1_0000_0000_0000;

// What the samples' frames have in common.
#[derive(Clone, Copy)]
pub(crate) struct UnwindContext<'a> {
    pub(crate) alloc: Global,
    pub(crate) machine: Machine,
    pub(crate) copy: StackCopy<'a>,
}

// The registers of a frame's caller, before they are examined.
#[derive(Clone, Copy)]
pub(crate) struct CallerRegisters {
    // Whether the frame is a signal frame.
    is_signal: bool,
    // How the caller was found.
    origin: FrameOrigin,
    registers: Result<FrameRegisters, ChainEnd>,
}

// An FDE at an address in a file.
#[derive(Clone, Copy)]
struct FdeAtAddress<'a> {
    table: &'a FrameTable,
    index: usize,
    address: u64,
}

// How a caller was found whose registers are already in its frame, and whether they were found.
#[derive(Clone, Copy)]
pub(crate) struct CallerOutcome {
    is_signal: bool,
    origin: FrameOrigin,
    end: Result<(), ChainEnd>,
}

// What a step finds beside the caller: whether the frame is a signal frame, and whether it has a caller.
#[derive(Clone, Copy)]
pub(crate) struct Step {
    pub(crate) is_signal: bool,
    pub(crate) end: Result<(), ChainEnd>,
}

// The frame as rules of a table see it.
fn frame_callee<'a>(
    sample: &UnwindContext<'a>,
    frame: &'a UnwoundFrame,
    table: &'a FrameTable,
) -> Callee<'a>
    ensures { IsCallee sample.now.machine sample.now.copy frame.now table.now result }
{
    Callee {
        machine: sample.machine,
        registers: &frame.registers,
        is_exact: frame.is_exact,
        copy: sample.copy,
        table,
    }
}

// How a caller was found by a row.
fn row_origin(is_signal: bool) -> FrameOrigin
    ensures { result ≡ origin_by_row is_signal }
{
    if is_signal {
        FrameOrigin::SignalFrame
    } else {
        FrameOrigin::Cfi
    }
}

// Sets the registers of the caller by a row of a table.
fn find_by_row(
    sample: &UnwindContext<'_>,
    frame: &UnwoundFrame,
    table: &FrameTable,
    row: &RowAtAddress,
    evaluator: &mut Evaluator,
    caller: &mut FrameRegisters,
) -> CallerOutcome
    ensures { (index address : ℕ) → IsRowAt table.now index address row.now →
        FoundByRow sample.now.machine sample.now.copy frame.now table.now index address
        (remaining_of evaluator.old) (found_in result caller.new) (remaining_of evaluator.new) }
{
    let callee = frame_callee(sample, frame, table);
    let end = set_registers_by_row(&callee, row, evaluator, caller);
    CallerOutcome {
        is_signal: row.is_signal,
        origin: row_origin(row.is_signal),
        end,
    }
}

// Sets the registers of the caller by an FDE of a table.
fn find_by_table(
    sample: &UnwindContext<'_>,
    frame: &UnwoundFrame,
    fde: &FdeAtAddress<'_>,
    evaluator: &mut Evaluator,
    caller: &mut FrameRegisters,
) -> Result<CallerOutcome, AllocError>
    ensures { IfOk result (λ found. FoundByFde sample.now.machine sample.now.copy frame.now
        fde.now.table.now fde.now.index fde.now.address (remaining_of evaluator.old)
        (found_in found caller.new) (remaining_of evaluator.new)) }
{
    if let Some(row) = fde.table.cached_row(fde.index, fde.address) {
        return Ok(find_by_row(sample, frame, fde.table, row, evaluator, caller));
    }
    match fde.table.row(sample.alloc, fde.index, fde.address) {
        Ok(row) => Ok(find_by_row(sample, frame, fde.table, &row, evaluator, caller)),
        Err(CfiError::Memory) => Err(AllocError),
        Err(_) => Ok(CallerOutcome {
            is_signal: false,
            origin: FrameOrigin::Cfi,
            end: Err(ChainEnd::BadCfi),
        }),
    }
}

// The registers of the caller of code that isn't in a procedure linkage table.
fn find_by_bytes(sample: &UnwindContext<'_>, frame: &UnwoundFrame, code: &[u8]) -> CallerRegisters
    ensures { result ≡ by_bytes sample.now.machine sample.now.copy frame.now code.now }
{
    if is_sigreturn(sample.machine, code) {
        CallerRegisters {
            is_signal: true,
            origin: FrameOrigin::SignalFrame,
            registers: registers_at_signal(sample.machine, &frame.registers, &sample.copy),
        }
    } else {
        CallerRegisters {
            is_signal: false,
            origin: FrameOrigin::FramePointer,
            registers: registers_by_frame_pointer(sample.machine, &frame.registers, &sample.copy),
        }
    }
}

// The registers of the caller of code without call frame information.
fn find_by_code(
    sample: &UnwindContext<'_>,
    frame: &UnwoundFrame,
    plt: Option<Plt>,
    code: &[u8],
) -> CallerRegisters
    ensures { result ≡ by_code sample.now.machine sample.now.copy frame.now plt code.now }
{
    match plt {
        Some(plt) if frame.is_exact => CallerRegisters {
            is_signal: false,
            origin: FrameOrigin::Plt,
            registers: registers_at_plt(sample.machine, plt, &frame.registers, &sample.copy),
        },
        _ => find_by_bytes(sample, frame, code),
    }
}

// The registers of the caller of code without call frame information, by what is mapped there.
fn find_by_mapped_code(
    sample: &UnwindContext<'_>,
    frame: &UnwoundFrame,
    place: &MappedCode<'_>,
) -> CallerRegisters
    ensures { result ≡ by_mapped_code sample.now.machine sample.now.copy frame.now place.now }
{
    match *place {
        MappedCode::File { plt, code, .. } => find_by_code(sample, frame, plt, code),
        MappedCode::Nothing => find_by_code(sample, frame, None, &[]),
    }
}

// The FDE at a place.
fn find_fde<'a>(place: &MappedCode<'a>) -> Option<FdeAtAddress<'a>>
    ensures { MatchOption result (CodeHasNoFde place.now)
        (λ fde. CodeHasFde place.now fde.table.now fde.index fde.address) }
{
    match *place {
        MappedCode::File {
            tables,
            address,
            ..
        } => match tables.find(address) {
            Some((table, index)) => Some(FdeAtAddress {
                table,
                index,
                address,
            }),
            None => None,
        },
        MappedCode::Nothing => None,
    }
}

// Sets the registers of a caller, if they were found.
fn set_found(found: &CallerRegisters, caller: &mut FrameRegisters) -> CallerOutcome
    ensures { found_in result caller.new ≡ found.now }
{
    let end = match &found.registers {
        Ok(registers) => {
            *caller = *registers;
            Ok(())
        }
        Err(end) => Err(*end),
    };
    CallerOutcome {
        is_signal: found.is_signal,
        origin: found.origin,
        end,
    }
}

// Sets the registers of a frame's caller.
fn find_caller<C: CodeMap>(
    sample: &UnwindContext<'_>,
    code: &mut C,
    frame: &UnwoundFrame,
    evaluator: &mut Evaluator,
    caller: &mut FrameRegisters,
) -> Result<CallerOutcome, AllocError>
    ensures executable { (a : ℕ) → (b : Bool) → C.executable code.new a b → C.executable code.old a b }
    ensures places { (a : ℕ) → (p : Mapped) → C.places code.new a p → C.places code.old a p }
    ensures found { IfOk result (λ found. Finds (C.places code.old) sample.now.machine sample.now.copy
        frame.now (remaining_of evaluator.old) (found_in found caller.new) (remaining_of evaluator.new)) }
{
    let look_up = frame.look_up_address();
    code.load(look_up)?;
    let place = code.place(look_up);
    match find_fde(&place) {
        Some(fde) => {
            let found = find_by_table(sample, frame, &fde, evaluator, caller)?;
            Ok(found)
        }
        None => {
            code.load(frame.pc)?;
            let code_place = code.place(frame.pc);
            let found = find_by_mapped_code(sample, frame, &code_place);
            Ok(set_found(&found, caller))
        }
    }
}

// The address that a program counter has.
fn pc_address(machine: Machine, pc: u64) -> u64
    ensures { result ≡ address_in machine pc }
{
    match machine {
        Machine::X86_64 => pc,
        Machine::AArch64 => pc % ADDRESSES_AARCH64,
    }
}

// Whether a caller's stack pointer may follow that of a frame.
fn rises(machine: Machine, frame: &UnwoundFrame, is_signal: bool, caller_top: u64) -> bool
    ensures { result ≡ may_follow machine frame.now is_signal caller_top }
{
    if is_signal {
        return true;
    }
    match frame.registers.get(stack_pointer(machine)) {
        Some(top) => if frame.is_exact {
            top <= caller_top
        } else {
            top < caller_top
        },
        None => false,
    }
}

// Makes the caller of these registers, if it can be one.
fn make_caller<C: CodeMap>(
    sample: &UnwindContext<'_>,
    code: &C,
    frame: &UnwoundFrame,
    found: &CallerOutcome,
    caller: &mut UnwoundFrame,
) -> Result<(), ChainEnd>
    ensures { Makes (C.executable code.now) sample.now.machine frame.now
        (found_in found.now caller.old.registers) caller.old.registers (value_in result caller.new) }
{
    let Some(stored) = caller.registers.get(pc_number(sample.machine)) else {
        return Err(ChainEnd::BadCfi);
    };
    let Some(caller_top) = caller.registers.get(stack_pointer(sample.machine)) else {
        return Err(ChainEnd::BadCfi);
    };
    let pc = pc_address(sample.machine, stored);
    if pc == 0 {
        return Err(ChainEnd::Root);
    }
    if !rises(sample.machine, frame, found.is_signal, caller_top) {
        return Err(ChainEnd::Stuck);
    }
    set_frame(sample.machine, found, pc, caller);
    if code.is_executable(caller.look_up_address()) {
        Ok(())
    } else {
        Err(ChainEnd::Outside)
    }
}

// Makes the frame that registers are of, with this program counter.
fn set_frame(machine: Machine, found: &CallerOutcome, pc: u64, caller: &mut UnwoundFrame)
    ensures { caller.new ≡ frame_of_caller machine (found_in found.now caller.old.registers)
        caller.old.registers pc }
{
    caller.registers.set(pc_number(machine), Some(pc));
    caller.pc = pc;
    caller.is_exact = found.is_signal;
    caller.origin = found.origin;
}

// Makes the caller of the registers that were found, if it can be one.
fn make_found_caller<C: CodeMap>(
    sample: &UnwindContext<'_>,
    code: &C,
    frame: &UnwoundFrame,
    found: &CallerOutcome,
    caller: &mut UnwoundFrame,
) -> Result<(), ChainEnd>
    ensures { MakesFoundCaller (C.executable code.now) sample.now.machine frame.now
        (found_in found.now caller.old.registers) (value_in result caller.new) }
{
    match found.end {
        Ok(()) => make_caller(sample, code, frame, found, caller),
        Err(end) => Err(end),
    }
}

// Finds the caller of a frame, and sets `caller` to it, if there is one.
pub(crate) fn find_step<C: CodeMap>(
    sample: &UnwindContext<'_>,
    code: &mut C,
    frame: &UnwoundFrame,
    evaluator: &mut Evaluator,
    caller: &mut UnwoundFrame,
) -> Result<Step, AllocError>
    ensures executable { (a : ℕ) → (b : Bool) → C.executable code.new a b → C.executable code.old a b }
    ensures places { (a : ℕ) → (p : Mapped) → C.places code.new a p → C.places code.old a p }
    ensures step { IfOk result (λ step. IsStep (C.executable code.old) (C.places code.old)
        sample.now.machine sample.now.copy frame.now (remaining_of evaluator.old) step caller.new
        (remaining_of evaluator.new)) }
{
    let found = find_caller(sample, code, frame, evaluator, &mut caller.registers)?;
    let end = make_found_caller(sample, code, frame, &found, caller);
    Ok(Step {
        is_signal: found.is_signal,
        end,
    })
}
