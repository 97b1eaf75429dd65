//! What kind of code the functions of frames are.

use code_files::mapping_names::{is_anonymous, is_generated};
use perfdata_events::call_chain::CallContext;
use perfdata_profile::function_kinds::{FrameKind, FunctionKinds};
use perfdata_profile::names::NameId;
use perfdata_profile::resolver::ResolvedFrame;
use std::alloc::AllocError;

// Returns what code a frame is.
fn frame_kind(frame: &ResolvedFrame<'_>) -> FrameKind {
    match (frame.frame.frame.context, frame.mapping) {
        (CallContext::Kernel | CallContext::GuestKernel | CallContext::Hypervisor, _) => {
            FrameKind::Kernel
        }
        (_, None) => FrameKind::Unknown,
        (_, Some(mapping)) if is_generated(mapping) => FrameKind::Generated,
        (_, Some(_)) => FrameKind::User,
    }
}

/// Adds the name of a frame.
///
/// Fails if memory runs out.
pub(crate) fn add_frame(
    kinds: &mut FunctionKinds,
    name: NameId,
    frame: &ResolvedFrame<'_>,
) -> Result<(), AllocError> {
    let path = match frame.mapping {
        Some(mapping) if !is_anonymous(mapping) => mapping.path.as_slice(),
        _ => b"",
    };
    kinds.insert(name, frame_kind(frame), path)
}
