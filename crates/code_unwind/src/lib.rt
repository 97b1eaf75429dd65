//! The callers of a sample's user code, from its registers and its copy of the user stack.
//!
//! [`Unwinder::unwind`] finds a frame's caller by the call frame information of the mapped files
//! (`code_cfi`), by what is known of code without it, or by the frame pointer. What a process has mapped
//! is a [`CodeMap`].
#![tactic(auto)]

mod chain;
mod code;
mod expression;
mod frame;
mod machine;
mod operation;
mod registers;
mod rules;
mod sample;
mod stack_copy;
mod step;
mod values;
mod without_cfi;

pub use chain::Unwinder;
pub use code::{CodeMap, FileTables, MappedCode, Plt};
pub use code_cfi::Machine;
pub use expression::{Evaluator, ExpressionError};
pub use frame::{ChainEnd, FrameOrigin, UserFrame};
pub use machine::{pc_number, stack_pointer};
pub use registers::FrameRegisters;
pub use stack_copy::StackCopy;
