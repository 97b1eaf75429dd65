//! The registers of a sample.
ghost use Rattle.std.specs.Prelude.{◌≡◌, ◌<◌};
ghost use Rattle.perfdata_events.specs.Words.{u64s_in};
ghost use Rattle.code_unwind.specs.Machines.{register_count as count_of};
ghost use Rattle.code_unwind.specs.Samples.{mask_bit as mask_bit_of, sample_value as sample_value_of};
ghost use Rattle.code_unwind.specs.Samples.{registers_of_sample};

use crate::machine::register_count;
use crate::registers::FrameRegisters;
use code_cfi::Machine;
use perfdata_events::registers::SampleRegisters;

// The kind of 64-bit processes (`PERF_SAMPLE_REGS_ABI_64`).
const ABI_64: u64 = 2;

// The bit of the mask of a sample's registers that stands for each register, by its DWARF number.
const BITS_X86_64: [u64; 17] = [0, 3, 2, 1, 4, 5, 6, 7, 16, 17, 18, 19, 20, 21, 22, 23, 8];

impl FrameRegisters {
    /// Returns the registers of a sample of a 64-bit process. `mask` has a bit for each register in it
    /// (`sample_regs_user`). It is `None` for those of a 32-bit process, and for no registers.
    pub fn from_sample(
        machine: Machine,
        mask: u64,
        sample: &SampleRegisters<'_>,
    ) -> Option<FrameRegisters>
        ensures { result ≡ registers_of_sample machine mask sample.now.abi (u64s_in sample.now.values) }
    {
        if sample.abi != ABI_64 {
            return None;
        }
        let mut registers = FrameRegisters::new();
        'registers: for number in 0..register_count(machine) {
            let bit = mask_bit(machine, number);
            let value = sample_value(mask, sample, bit);
            registers.set(number, value);
        }
        Some(registers)
    }
}

// The bit of the mask of a sample's registers that stands for a register.
fn mask_bit(machine: Machine, number: u64) -> u64
    requires { number < count_of machine }
    ensures is { result ≡ mask_bit_of machine number }
    ensures small { result < 64 }
{
    match machine {
        Machine::X86_64 => BITS_X86_64[number as usize],
        Machine::AArch64 => number,
    }
}

// The value of the register of a sample that a bit of its mask stands for.
fn sample_value(mask: u64, sample: &SampleRegisters<'_>, bit: u64) -> Option<u64>
    requires { bit < 64 }
    ensures { result ≡ sample_value_of mask (u64s_in sample.now.values) bit }
{
    let flag: u64 = 1 << bit;
    if mask & flag == 0 {
        return None;
    }
    let below = mask & (flag - 1);
    sample.values.get(below.count_ones() as usize)
}
