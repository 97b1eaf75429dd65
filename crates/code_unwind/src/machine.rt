//! The DWARF numbers of the registers of a machine.
ghost use Rattle.std.specs.Prelude.{◌≡◌};
ghost use Rattle.code_unwind.specs.Machines.{register_count as count_of};
ghost use Rattle.code_unwind.specs.Machines.{frame_pointer as frame_pointer_of};
ghost use Rattle.code_unwind.specs.Machines.{stack_pointer as stack_pointer_of};
ghost use Rattle.code_unwind.specs.Machines.{pc_number as pc_number_of};

use code_cfi::Machine;

/// The number of the link register of AArch64, x30.
pub(crate) const LINK_REGISTER: u64 = 30;

// The number of the registers that are numbered from 0 on.
pub(crate) fn register_count(machine: Machine) -> u64
    ensures { result ≡ count_of machine }
{
    match machine {
        Machine::X86_64 => 17,
        Machine::AArch64 => 33,
    }
}

// The number of the frame pointer, rbp or x29.
pub(crate) fn frame_pointer(machine: Machine) -> u64
    ensures { result ≡ frame_pointer_of machine }
{
    match machine {
        Machine::X86_64 => 6,
        Machine::AArch64 => 29,
    }
}

/// Returns the number of the stack pointer.
pub fn stack_pointer(machine: Machine) -> u64
    ensures { result ≡ stack_pointer_of machine }
{
    match machine {
        Machine::X86_64 => 7,
        Machine::AArch64 => 31,
    }
}

/// Returns the number of the program counter.
pub fn pc_number(machine: Machine) -> u64
    ensures { result ≡ pc_number_of machine }
{
    match machine {
        Machine::X86_64 => 16,
        Machine::AArch64 => 32,
    }
}
