//! The frames of call chains, as plain numbers.
ghost use Rattle.std.specs.Prelude.{◌≡◌, ◌<◌, ◌≤◌, length, IfNone, IfSome};
ghost use Rattle.linux_perf_data.specs.RecordEntries.{with_prefix};
ghost use Rattle.perfdata_events.specs.CallChain.{chain_values_of};
ghost use Rattle.perfdata_arrays.specs.Samples.{context_code, frame_entry_of, chain_entries};

use crate::array::write_entry;
use perfdata_events::call_chain::{CallChain, CallContext, ChainFrame};

/// A frame of a call chain, as plain numbers.
#[repr(C)]
#[derive(Clone, Copy, Debug, Default, PartialEq, Eq)]
pub struct FrameEntry {
    /// The address of the instruction.
    pub address: u64,
    /// The context of the address: 1 the kernel, 2 a program, 3 the hypervisor, 4 a guest's kernel, 5 a
    /// guest's program, 6 a guest, 0 a context that isn't known.
    pub context: u32,
    /// 0.
    pub reserved: u32,
}

const _: () = prove!(size_of::<FrameEntry>() == 16);

// The number of a context: that of the CPU mode, if it has one.
fn context_code(context: CallContext) -> u32
    ensures { result ≡ context_code context }
{
    match context {
        CallContext::Unknown => 0,
        CallContext::Kernel => 1,
        CallContext::User => 2,
        CallContext::Hypervisor => 3,
        CallContext::GuestKernel => 4,
        CallContext::GuestUser => 5,
        CallContext::Guest => 6,
    }
}

impl FrameEntry {
    /// Returns the entry of a frame.
    pub fn new(frame: ChainFrame) -> FrameEntry
        ensures { result ≡ frame_entry_of frame }
    {
        FrameEntry {
            address: frame.address,
            context: context_code(frame.context),
            reserved: 0,
        }
    }
}

/// Writes the entries of a call chain's frames, up to the capacity of `entries`. Returns the number of all
/// frames.
pub fn write_frames(chain: &CallChain<'_>, entries: &mut [FrameEntry]) -> usize
    ensures count { result ≡ length (chain_entries (chain_values_of chain.now)) }
    ensures written { entries.new ≡ with_prefix (chain_entries (chain_values_of chain.now)) entries.old }
{
    // For the prover: no chain has more frames than values.
    let _count = chain.values.len();
    let mut count = 0;
    let mut rest = chain.iter();
    'frames: while let Some(frame) = rest.next() {
        write_entry(entries, count, FrameEntry::new(frame));
        count += 1;
    }
    count
}

// The number of a call chain's frames if there are more than `capacity`, otherwise `None`.
#[inline(always)]
pub(crate) fn frames_above(chain: &CallChain<'_>, capacity: usize) -> Option<usize>
    ensures none { IfNone result (length (chain_entries (chain_values_of chain.now)) ≤ capacity) }
    ensures count { IfSome result (λ n. n ≡ length (chain_entries (chain_values_of chain.now))) }
    ensures above { IfSome result (λ n. capacity < n) }
{
    // A chain has no more frames than values.
    if chain.values.len() <= capacity {
        return None;
    }
    let count = write_frames(chain, &mut []);
    if count > capacity { Some(count) } else { None }
}
