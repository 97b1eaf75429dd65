//! A profile as lines, a table, a tree, a flame graph and a profile for pprof.
//!
//! [`lines::lines`] returns the folded lines of a profile, [`table::rows`] its functions, and
//! [`entry_tree::entry_tree`] the tree of its threads and functions, with the sums of the weights of their
//! samples. [`flame::svg::write_svg`] draws the tree, and [`pprof_profile::convert`] makes the profile that
//! pprof reads. [`differences`] has the lines and the functions of two profiles. [`laws`] says which samples
//! of a recording these count, and how the nodes of a tree lie as boxes.
#![tactic(auto)]

pub mod call_tree;
pub mod counts;
pub mod differences;
mod entries;
pub mod entry_tree;
pub mod flame;
pub mod laws;
pub mod lines;
pub mod pprof_profile;
mod sample_times;
pub mod share;
pub mod table;
pub mod top;
pub mod tree;
