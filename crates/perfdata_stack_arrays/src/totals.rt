//! The numbers of what a recording has.

/// The numbers of the stacks, frames and mappings of a recording, and of the bytes of its text.
#[repr(C)]
#[derive(Clone, Copy, Debug, Default, PartialEq, Eq)]
pub struct StackTotals {
    /// The number of stacks: of samples.
    pub stack_count: u64,
    /// The number of frames of all stacks.
    pub frame_count: u64,
    /// The number of mappings.
    pub mapping_count: u64,
    /// The size of all names and paths in bytes.
    pub text_size: u64,
}

const _: () = prove!(size_of::<StackTotals>() == 32);
