//! What call chains without a copy of the stack look like: whether frame pointers were kept.

use perfdata_events::call_chain::CallContext;
use perfdata_events::sample::SampleRecord;
use perfdata_profile::resolver::ResolvedFrame;
use perfdata_stacks::frames::SampleFrame;

// The number of samples from which on chains are judged.
const MIN_SAMPLES: u64 = 10;

/// Numbers of samples with a call chain, a user frame and no copy of the stack, and of their frames.
#[derive(Clone, Copy, Debug, PartialEq, Eq)]
pub struct ChainShapes {
    samples: u64,
    /// Samples with one user frame.
    single: u64,
    /// User frames that are callers.
    callers: u64,
    /// Callers that lie in no mapping.
    unmapped: u64,
    /// Whether the last sample is one of these.
    is_counting: bool,
}

// Returns whether a number is more than half of another one.
fn is_majority(part: u64, all: u64) -> bool {
    part > all / 2
}

impl ChainShapes {
    /// Nothing was counted.
    pub(crate) const NONE: ChainShapes = ChainShapes {
        samples: 0,
        single: 0,
        callers: 0,
        unmapped: 0,
        is_counting: false,
    };

    // Counts a sample with its frames.
    pub(crate) fn add(&mut self, sample: &SampleRecord<'_>, frames: &[SampleFrame]) {
        let (mut user, mut callers) = (0u64, 0u64);
        if sample.call_chain.is_some() && sample.user_stack.is_none() {
            for frame in frames {
                if frame.frame.context == CallContext::User {
                    user = user.saturating_add(1);
                    callers = callers.saturating_add(u64::from(frame.is_caller));
                }
            }
        }
        self.is_counting = user != 0;
        self.samples = self.samples.saturating_add(u64::from(user != 0));
        self.single = self.single.saturating_add(u64::from(user == 1));
        self.callers = self.callers.saturating_add(callers);
    }

    // Counts a frame of the last sample that is looked up.
    pub(crate) fn add_frame(&mut self, frame: &ResolvedFrame<'_>) {
        let is_user_caller = frame.frame.is_caller
            && frame.frame.frame.context == CallContext::User;
        if self.is_counting && is_user_caller && frame.index.is_none() {
            self.unmapped = self.unmapped.saturating_add(1);
        }
    }

    /// Returns whether most chains have one frame or lead nowhere.
    pub fn look_broken(&self) -> bool {
        self.samples >= MIN_SAMPLES
            && (is_majority(self.single, self.samples) || is_majority(self.unmapped, self.callers))
    }
}
