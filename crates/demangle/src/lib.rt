//! Texts that people can read for the mangled names of symbols: names of C++ (Itanium C++ ABI), and those of
//! Rust, of today (v0) and of before.
#![tactic(auto)]

pub mod demangler;
mod prefix;

pub use demangle_cpp::Style;
pub use demangler::{Demangler, MAX_NAME};
