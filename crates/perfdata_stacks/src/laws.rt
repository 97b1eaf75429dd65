//! Laws on frames.

ghost use Rattle.perfdata_stacks.specs.Frames.{AreChainFrames};

/// The frames of a call chain are those of
/// [`CallChain::iter`](perfdata_events::call_chain::CallChain::iter).
pub fn frames()
    ensures { AreChainFrames }
{}
