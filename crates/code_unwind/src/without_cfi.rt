//! The registers of a caller of code that has no call frame information.
ghost use Rattle.std.specs.Prelude.{◌≡◌, ◌<◌, ◌≤◌};
ghost use Rattle.code_unwind.specs.Machines.{register_count as register_count_of};
ghost use Rattle.code_unwind.specs.Stacks.{register_of};
ghost use Rattle.code_unwind.specs.WithoutCfi.{stored_index as stored_index_of};
ghost use Rattle.code_unwind.specs.WithoutCfi.{stored_word as stored_word_of};
ghost use Rattle.code_unwind.specs.WithoutCfi.{stored_registers as stored_registers_of, at_signal};
ghost use Rattle.code_unwind.specs.WithoutCfi.{stored_offset as stored_offset_of, at_plt, at_plt_from};
ghost use Rattle.code_unwind.specs.WithoutCfi.{by_base};
ghost use Rattle.code_unwind.specs.WithoutCfi.{pushed_words as pushed_words_of, by_frame_pointer};
ghost use Rattle.code_unwind.specs.WithoutCfi.{is_sigreturn as is_sigreturn_code};
ghost use Rattle.code_unwind.specs.WithoutCfi.{are_stored as are_stored_at};

use crate::code::Plt;
use crate::frame::ChainEnd;
use crate::machine::{LINK_REGISTER, frame_pointer, pc_number, register_count, stack_pointer};
use crate::registers::FrameRegisters;
use crate::stack_copy::StackCopy;
use code_cfi::Machine;

// `mov $15, %rax; syscall`: the call of rt_sigreturn.
const SIGRETURN_X86_64: [u8; 9] = [0x48, 0xc7, 0xc0, 0x0f, 0x00, 0x00, 0x00, 0x0f, 0x05];

// `mov x8, #139; svc #0`: the call of rt_sigreturn.
const SIGRETURN_AARCH64: [u8; 8] = [0x68, 0x11, 0x80, 0xd2, 0x01, 0x00, 0x00, 0xd4];

// Whether code starts with the call of rt_sigreturn.
pub(crate) fn is_sigreturn(machine: Machine, code: &[u8]) -> bool
    ensures { result ≡ is_sigreturn_code machine code.now }
{
    match machine {
        Machine::X86_64 => code.starts_with(&SIGRETURN_X86_64),
        Machine::AArch64 => code.starts_with(&SIGRETURN_AARCH64),
    }
}

// The index of each register among those that the kernel stores at a signal, by its DWARF number: r8 to r15,
// rdi, rsi, rbp, rbx, rdx, rax, rcx, rsp and rip.
const STORED_X86_64: [u64; 17] = [13, 12, 14, 11, 9, 8, 10, 15, 0, 1, 2, 3, 4, 5, 6, 7, 16];

// The index of a register among those that the kernel stores at a signal.
fn stored_index(machine: Machine, number: u64) -> u64
    requires { number < register_count_of machine }
    ensures is { result ≡ stored_index_of machine number }
    ensures small { result < 33 }
{
    match machine {
        Machine::X86_64 => STORED_X86_64[number as usize],
        Machine::AArch64 => number,
    }
}

// The offset from the stack pointer of the first register that the kernel stores at a signal.
fn stored_offset(machine: Machine) -> u64
    ensures { result ≡ stored_offset_of machine }
{
    match machine {
        Machine::X86_64 => 40,
        Machine::AArch64 => 312,
    }
}

// The value of a register that the kernel stored at a signal, if it is in the copy.
fn stored_word(machine: Machine, copy: &StackCopy<'_>, top: u64, number: u64) -> Option<u64>
    requires { number < register_count_of machine }
    ensures { result ≡ stored_word_of machine copy.now top number }
{
    let offset = 8 * stored_index(machine, number);
    let first = top.wrapping_add(stored_offset(machine));
    copy.word(first.wrapping_add(offset), 8)
}

// Whether the stack pointer and the program counter that the kernel stored are in the copy.
fn are_stored(machine: Machine, copy: &StackCopy<'_>, top: u64) -> bool
    ensures { result ≡ are_stored_at machine copy.now top }
{
    stored_word(machine, copy, top, stack_pointer(machine)).is_some()
        && stored_word(machine, copy, top, pc_number(machine)).is_some()
}

// The caller's registers of a signal frame, whose stack pointer is `top`: those that the kernel stored.
fn stored_registers(
    machine: Machine,
    copy: &StackCopy<'_>,
    top: u64,
) -> Result<FrameRegisters, ChainEnd>
    ensures { result ≡ stored_registers_of machine copy.now top }
{
    if !are_stored(machine, copy, top) {
        return Err(ChainEnd::Truncated);
    }
    let mut caller = FrameRegisters::new();
    'stored: for number in 0..register_count(machine) {
        caller.set(number, stored_word(machine, copy, top, number));
    }
    Ok(caller)
}

// The caller's registers of a signal frame.
pub(crate) fn registers_at_signal(
    machine: Machine,
    registers: &FrameRegisters,
    copy: &StackCopy<'_>,
) -> Result<FrameRegisters, ChainEnd>
    ensures { result ≡ at_signal machine registers.now copy.now }
{
    match registers.get(stack_pointer(machine)) {
        Some(top) => stored_registers(machine, copy, top),
        None => Err(ChainEnd::BadCfi),
    }
}

// The number of words that an entry of a procedure linkage table has pushed, by what GNU ld says of it.
fn pushed_words(plt: Plt) -> u64
    ensures is { result ≡ pushed_words_of plt }
    ensures few { result ≤ 2 }
{
    match plt {
        Plt::Lazy(offset) if offset < 6 => 1,
        Plt::Lazy(offset) if offset < 16 => 2,
        Plt::Lazy(offset) if offset % 16 >= 11 => 1,
        _ => 0,
    }
}

// The caller's registers of an entry of a procedure linkage table of x86-64.
fn registers_at_x86_64_plt(
    plt: Plt,
    registers: &FrameRegisters,
    copy: &StackCopy<'_>,
) -> Result<FrameRegisters, ChainEnd>
    ensures { result ≡ at_plt_from plt registers.now copy.now (register_of registers.now 7) }
{
    let Some(top) = registers.get(7) else {
        return Err(ChainEnd::BadCfi);
    };
    let address = top.wrapping_add(8 * pushed_words(plt));
    let Some(pc) = copy.word(address, 8) else {
        return Err(ChainEnd::Truncated);
    };
    let mut caller = *registers;
    caller.set(7, Some(address.wrapping_add(8)));
    caller.set(16, Some(pc));
    Ok(caller)
}

// The caller's registers of an entry of a procedure linkage table.
pub(crate) fn registers_at_plt(
    machine: Machine,
    plt: Plt,
    registers: &FrameRegisters,
    copy: &StackCopy<'_>,
) -> Result<FrameRegisters, ChainEnd>
    ensures { result ≡ at_plt machine plt registers.now copy.now }
{
    match machine {
        Machine::X86_64 => registers_at_x86_64_plt(plt, registers, copy),
        Machine::AArch64 => {
            let mut caller = *registers;
            caller.set(32, registers.get(LINK_REGISTER));
            Ok(caller)
        }
    }
}

// The caller's registers by a frame pointer that isn't 0.
fn registers_by_base(
    machine: Machine,
    copy: &StackCopy<'_>,
    base: u64,
    top: u64,
) -> Result<FrameRegisters, ChainEnd>
    ensures { result ≡ by_base machine copy.now base (Some top) }
{
    if base < top || base % 8 != 0 {
        return Err(ChainEnd::NoCfi);
    }
    let Some(next) = copy.word(base, 8) else {
        return Err(ChainEnd::NoCfi);
    };
    let Some(pc) = copy.word(base.wrapping_add(8), 8) else {
        return Err(ChainEnd::NoCfi);
    };
    let mut caller = FrameRegisters::new();
    caller.set(frame_pointer(machine), Some(next));
    caller.set(stack_pointer(machine), Some(base.wrapping_add(16)));
    caller.set(pc_number(machine), Some(pc));
    Ok(caller)
}

// The caller's registers by the frame pointer.
pub(crate) fn registers_by_frame_pointer(
    machine: Machine,
    registers: &FrameRegisters,
    copy: &StackCopy<'_>,
) -> Result<FrameRegisters, ChainEnd>
    ensures { result ≡ by_frame_pointer machine registers.now copy.now }
{
    let Some(base) = registers.get(frame_pointer(machine)) else {
        return Err(ChainEnd::NoCfi);
    };
    if base == 0 {
        return Err(ChainEnd::Root);
    }
    match registers.get(stack_pointer(machine)) {
        Some(top) => registers_by_base(machine, copy, base, top),
        None => Err(ChainEnd::NoCfi),
    }
}
