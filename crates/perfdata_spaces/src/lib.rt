//! What is mapped at an address of a process, and what a thread is called, as the records of a recording say.
//!
//! [`address_spaces::AddressSpaces`] is given the records in order of time. After each it returns the mapping
//! that contains an address of a process or of the kernel, and the name of a thread.
#![tactic(auto)]

pub mod address_spaces;
pub mod laws;
pub mod mapping;
mod processes;
mod ranges;
mod spaces;
mod thread_names;
