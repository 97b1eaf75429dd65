//! The base of the demanglers: a cursor over the bytes of a name, a text of limited length, and why a name is
//! not demangled; and the demanglers of Rust's names.
#![tactic(auto)]

pub mod cursor;
pub mod failure;
mod hex;
pub mod legacy;
pub mod text;
pub mod v0;

pub use cursor::Cursor;
pub use failure::Failure;
pub use legacy::{LegacyName, split_legacy_name};
pub use text::Text;
pub use v0::RustNames;
