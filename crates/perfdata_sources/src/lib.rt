//! Byte sources, bytes in one slice or two, numbers, record headers, record types and attributes.
#![tactic(auto)]

pub mod attr;
pub mod endian;
pub mod event;
pub mod raw;
pub mod source;
