//! The registers of a frame.
ghost use Rattle.std.specs.Prelude.{◌≡◌};

use code_cfi::REGISTER_COUNT;

/// The registers of a frame by their DWARF numbers, as far as they are known.
#[derive(Clone, Copy, Debug, PartialEq, Eq)]
pub struct FrameRegisters {
    // The values, and 0 for those that aren't known.
    values: [u64; REGISTER_COUNT],
    // Which values are known.
    known: [bool; REGISTER_COUNT],
}

impl FrameRegisters {
    ghost use Rattle.code_unwind.specs.Stacks.{register_of};
    ghost use Rattle.code_unwind.specs.FrameRegisters.{no_registers, with_register};

    /// Returns registers of which none is known.
    pub const fn new() -> FrameRegisters
        ensures { result ≡ no_registers }
    {
        FrameRegisters {
            values: [0; REGISTER_COUNT],
            known: [false; REGISTER_COUNT],
        }
    }

    /// Returns the value of a register by its DWARF number, or `None` if it isn't known.
    pub fn get(&self, number: u64) -> Option<u64>
        ensures { result ≡ register_of self.now number }
    {
        if number < REGISTER_COUNT as u64 && self.known[number as usize] {
            Some(self.values[number as usize])
        } else {
            None
        }
    }

    /// Sets the value of a register, or that it isn't known. Registers from 33 on stay unknown.
    pub fn set(&mut self, number: u64, value: Option<u64>)
        ensures { self.new ≡ with_register self.old number value }
    {
        if number < REGISTER_COUNT as u64 {
            self.values[number as usize] = value.unwrap_or(0);
            self.known[number as usize] = value.is_some();
        }
    }
}
