//! The frames of a chain, and why it ends.

use crate::registers::FrameRegisters;

/// How a frame was found.
#[derive(Clone, Copy, Debug, PartialEq, Eq)]
pub enum FrameOrigin {
    /// By the registers of the sample.
    Registers,
    /// By the call frame information of the frame that it called.
    Cfi,
    /// From what the kernel stored at a signal: the frame that it called is a signal frame.
    SignalFrame,
    /// The frame that it called is an entry of a procedure linkage table without call frame information.
    Plt,
    /// By the frame pointer of the frame that it called.
    FramePointer,
}

/// A frame of user code.
#[derive(Clone, Copy, Debug, PartialEq, Eq)]
pub struct UserFrame {
    /// The address of an instruction of the frame: the one that was interrupted, or one of the call.
    pub address: u64,
    /// How the frame was found.
    pub origin: FrameOrigin,
    /// Whether it is the code to which a signal handler returns.
    pub is_signal: bool,
}

/// Why a chain of frames ends.
#[derive(Clone, Copy, Debug, PartialEq, Eq)]
pub enum ChainEnd {
    /// The last frame has no caller.
    Root,
    /// The caller is in memory that isn't in the copy of the stack.
    Truncated,
    /// The caller's address isn't in an executable mapping.
    Outside,
    /// The last frame's code has no call frame information, and no frame pointer.
    NoCfi,
    /// The call frame information of the last frame's code is damaged or leads nowhere.
    BadCfi,
    /// The caller's stack pointer isn't above that of the last frame.
    Stuck,
    /// The chain has more frames than its stack can have.
    Limit,
    /// The registers are those of a 32-bit process.
    OtherAbi,
    /// The sample has no user registers.
    None,
}

impl ChainEnd {
    ghost use Rattle.std.specs.Prelude.{◌≡◌};
    ghost use Rattle.code_unwind.specs.ChainEnds.{chain_end_name};

    /// Returns the name of the end: its words in lower case with `-` between them.
    pub fn name(self) -> &'static str
        ensures { result.now ≡ chain_end_name self }
    {
        match self {
            ChainEnd::Root => "root",
            ChainEnd::Truncated => "truncated",
            ChainEnd::Outside => "outside",
            ChainEnd::NoCfi => "no-cfi",
            ChainEnd::BadCfi => "bad-cfi",
            ChainEnd::Stuck => "stuck",
            ChainEnd::Limit => "limit",
            ChainEnd::OtherAbi => "other-abi",
            ChainEnd::None => "none",
        }
    }
}

// A frame before its caller is looked for.
#[derive(Clone, Copy)]
pub(crate) struct UnwoundFrame {
    pub(crate) registers: FrameRegisters,
    // The program counter.
    pub(crate) pc: u64,
    // Whether the instruction at the program counter was interrupted: it isn't a return address.
    pub(crate) is_exact: bool,
    pub(crate) origin: FrameOrigin,
}

impl UnwoundFrame {
    ghost use Rattle.std.specs.Prelude.{◌≡◌};
    ghost use Rattle.code_unwind.specs.Frames.{look_up_of, user_frame_of};

    // The address of an instruction of the frame: that of the call, unless it is exact.
    pub(crate) fn look_up_address(&self) -> u64
        ensures { result ≡ look_up_of self.now }
    {
        if self.is_exact {
            self.pc
        } else {
            self.pc.wrapping_sub(1)
        }
    }

    // The frame for users.
    pub(crate) fn user_frame(&self, is_signal: bool) -> UserFrame
        ensures { result ≡ user_frame_of self.now is_signal }
    {
        UserFrame {
            address: if is_signal {
                self.pc
            } else {
                self.look_up_address()
            },
            origin: self.origin,
            is_signal,
        }
    }
}
