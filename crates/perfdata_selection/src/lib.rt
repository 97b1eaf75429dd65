//! Which samples of a recording are selected: by the name of the thread, the process, the thread, the
//! processor and the time.
#![tactic(auto)]

pub mod error;
pub mod filter;
pub mod lists;
pub mod options;
pub mod times;
