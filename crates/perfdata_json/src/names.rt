//! Names of contexts and of errors.

use perfdata_events::call_chain::CallContext;
use std::io::ErrorKind;

/// The name of a frame's context.
pub(crate) fn context_name(context: CallContext) -> &'static str {
    match context {
        CallContext::Hypervisor => "hypervisor",
        CallContext::Kernel => "kernel",
        CallContext::User => "user",
        CallContext::Guest => "guest",
        CallContext::GuestKernel => "guest_kernel",
        CallContext::GuestUser => "guest_user",
        CallContext::Unknown => "unknown",
    }
}

/// The name of an error's kind.
pub(crate) fn error_name(kind: ErrorKind) -> &'static str {
    match kind {
        ErrorKind::UnexpectedEof => "UnexpectedEof",
        ErrorKind::InvalidData => "InvalidData",
        _ => "Other",
    }
}
