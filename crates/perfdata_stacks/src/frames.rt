//! The frames of a sample.
ghost use Rattle.std.specs.Prelude.{◌≡◌};
ghost use Rattle.std.specs.Iterator.{YieldsFirstBy, item_count};

use perfdata_events::call_chain::{CallContext, ChainFrame, call_context, is_context_change};
use perfdata_events::sample::SampleRecord;
use perfdata_events::u64s::RawDataU64Iter;

/// A frame of a sample.
#[derive(Clone, Copy, Debug, PartialEq, Eq)]
pub struct SampleFrame {
    /// The address and its context.
    pub frame: ChainFrame,
    /// Whether the address is the one that a call returns to: the frame is in a call chain, and the value
    /// before it in the chain is a frame. Otherwise it is the address of an instruction.
    pub is_caller: bool,
}

// The frames of a call chain that aren't returned yet.
#[derive(Drop)]
struct ChainFrames<'a> {
    // The last context.
    context: CallContext,
    // Whether the last value was a frame.
    after_frame: bool,
    values: RawDataU64Iter<'a>,
}

/// An iterator over the frames of a sample, leaf first: those of its call chain or, if that has none, its
/// instruction. Contracts describe the rest with `remaining_frames`.
#[derive(Drop)]
pub struct SampleFrames<'a> {
    chain: Option<ChainFrames<'a>>,
    // The frame of the instruction, until a frame is returned.
    instruction: Option<SampleFrame>,
}

impl SampleFrame {
    ghost use Rattle.perfdata_stacks.specs.Frames.{lookup_address};

    /// Returns the address at which the code of the frame is looked up. For a caller it is the one before the
    /// return address, which belongs to the code after the call.
    pub fn lookup_address(&self) -> u64
        ensures { result ≡ lookup_address self.now }
    {
        if self.is_caller {
            self.frame.address.saturating_sub(1)
        } else {
            self.frame.address
        }
    }
}

impl<'a> Iterator for ChainFrames<'a> {
    ghost use Rattle.perfdata_stacks.specs.Frames.{remaining_chain};

    type Item = SampleFrame;

    ghost next_gives = { YieldsFirstBy (λ frame. frame) remaining_chain };

    ghost remaining = { item_count remaining_chain };

    fn next(&mut self) -> Option<SampleFrame> {
        'values: while let Some(value) = self.values.next() {
            if is_context_change(value) {
                let context = call_context(value);
                self.context = context;
                self.after_frame = false;
            } else {
                let is_caller = self.after_frame;
                self.after_frame = true;
                let frame = ChainFrame {
                    address: value,
                    context: self.context,
                };
                return Some(SampleFrame { frame, is_caller });
            }
        }
        None
    }
}

impl<'a> SampleFrames<'a> {
    ghost use Rattle.perfdata_stacks.specs.Frames.{remaining_frames, sample_frames};

    /// Returns the frames of a sample. `context` is that of the CPU mode of its record header.
    pub fn new(sample: &SampleRecord<'a>, context: CallContext) -> SampleFrames<'a>
        ensures { remaining_frames result ≡ sample_frames sample.now context }
    {
        SampleFrames {
            chain: match sample.call_chain {
                Some(chain) => Some(ChainFrames {
                    context: CallContext::User,
                    after_frame: false,
                    values: chain.values.iter(),
                }),
                None => None,
            },
            instruction: match sample.ip {
                Some(address) => Some(SampleFrame {
                    frame: ChainFrame { address, context },
                    is_caller: false,
                }),
                None => None,
            },
        }
    }
}

impl<'a> Iterator for SampleFrames<'a> {
    ghost use Rattle.perfdata_stacks.specs.Frames.{remaining_frames};

    type Item = SampleFrame;

    ghost next_gives = { YieldsFirstBy (λ frame. frame) remaining_frames };

    ghost remaining = { item_count remaining_frames };

    fn next(&mut self) -> Option<SampleFrame> {
        if let Some(chain) = &mut self.chain {
            if let Some(frame) = chain.next() {
                self.instruction = None;
                return Some(frame);
            }
        }
        self.instruction.take()
    }
}
