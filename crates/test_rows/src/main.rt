//! Runs the cases of `data/` on the proved calls: what records, errors and states a reader returns for a few
//! inputs, also from sources that pause or fail, and when an allocation fails.
//!
//! The language of the cases is that of `rust/tests/language`, of which the functions `for`, `times` and
//! `digits` aren't known here.
#![tactic(auto)]

mod case;
mod examples;
mod jitdumps;
mod listings;
mod metadata;
mod outcome;
mod parsers;
mod records;
mod runner;
mod sources;
mod text;
mod values;

use std::process::ExitCode;

fn main(rt: HostRuntime) -> ExitCode {
    runner::run(&rt)
}
