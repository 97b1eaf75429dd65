//! The chain of frames of a sample.
ghost use Rattle.std.specs.Prelude.{◌≡◌, ◌≤◌, [], length, drop, IfOk, OnOk, All};
ghost use Rattle.code_unwind.specs.FrameSteps.{Finds};
ghost use Rattle.code_unwind.specs.Chains.{IsChain, IsMapped, frame_limit};

use crate::code::CodeMap;
use crate::expression::Evaluator;
use crate::frame::{ChainEnd, FrameOrigin, UnwoundFrame, UserFrame};
use crate::machine::pc_number;
use crate::registers::FrameRegisters;
use crate::stack_copy::StackCopy;
use crate::step::{UnwindContext, find_step};
use code_cfi::Machine;
use std::alloc::{AllocError, Global};

// The number of frames that a chain may have beside one for each word of the copy.
const MORE_FRAMES: usize = 16;

/// Finds the callers of samples.
#[derive(Drop)]
pub struct Unwinder {
    alloc: Global,
    frames: Vec<UserFrame>,
}

impl Unwinder {
    ghost use Rattle.code_unwind.specs.Unwinders.{frames_of, Unwinds};

    /// Returns an unwinder that has no frames.
    pub fn new(alloc: Global) -> Unwinder
        ensures { frames_of result ≡ [] }
    {
        Unwinder {
            alloc,
            frames: Vec::new(alloc),
        }
    }

    /// Finds the frames of a sample of a 64-bit process, and returns why they end.
    ///
    /// There is no frame without a program counter among the registers.
    ///
    /// # Errors
    ///
    /// Returns `AllocError` if an allocation fails.
    pub fn unwind<C: CodeMap>(
        &mut self,
        code: &mut C,
        machine: Machine,
        registers: &FrameRegisters,
        stack: StackCopy<'_>,
    ) -> Result<ChainEnd, AllocError>
        ensures few { OnOk result (length (frames_of self.new) ≤ frame_limit stack.entry) }
        ensures mapped { OnOk result (All (IsMapped (C.executable code.old)) (drop 1 (frames_of self.new))) }
        ensures chain { IfOk result (λ end. Unwinds (C.executable code.old) (C.places code.old) machine
            registers.now stack.entry (frames_of self.new) end) }
    {
        self.frames.clear();
        let Some(pc) = registers.get(pc_number(machine)) else {
            return Ok(ChainEnd::BadCfi);
        };
        let first = UnwoundFrame {
            registers: *registers,
            pc,
            is_exact: true,
            origin: FrameOrigin::Registers,
        };
        let sample = UnwindContext {
            alloc: self.alloc,
            machine,
            copy: stack,
        };
        push_frames(&mut self.frames, code, &sample, first)
    }

    /// Returns the frames of the last sample, the innermost first.
    pub fn frames(&self) -> &[UserFrame]
        ensures { result.now ≡ frames_of self.now }
    {
        &self.frames[..]
    }
}

// Adds a frame and its callers, and returns why they end.
fn push_frames<C: CodeMap>(
    frames: &mut Vec<UserFrame>,
    code: &mut C,
    sample: &UnwindContext<'_>,
    first: UnwoundFrame,
) -> Result<ChainEnd, AllocError>
    requires { frames.old.items ≡ [] }
    ensures few { OnOk result (length frames.new.items ≤ frame_limit sample.now.copy) }
    ensures chain { IfOk result (λ end. IsChain (C.executable code.old) sample.now.machine
        (Finds (C.places code.old) sample.now.machine sample.now.copy) (frame_limit sample.now.copy) first
        16384 frames.new.items end) }
{
    let limit = sample.copy.bytes.len() / 8 + MORE_FRAMES;
    let mut evaluator = Evaluator::new();
    let mut frame = first;
    let mut caller = first;
    'frames: loop {
        let step = find_step(sample, code, &frame, &mut evaluator, &mut caller)?;
        frames.push(frame.user_frame(step.is_signal))?;
        match step.end {
            Err(end) => return Ok(end),
            Ok(()) if frames.len() >= limit => return Ok(ChainEnd::Limit),
            Ok(()) => frame = caller,
        }
    }
}
