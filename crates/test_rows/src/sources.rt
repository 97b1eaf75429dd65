//! The steps of a source, as text.
use crate::case::{CaseError, CaseResult, parse_number, split_argument};
use perfdata_base::source::Step;
use std::alloc::Global;
use std::io::ErrorKind;

/// The kind of an I/O error of this name.
pub fn error_kind(name: &str) -> CaseResult<ErrorKind> {
    match name {
        "Interrupted" => Ok(ErrorKind::Interrupted),
        "Other" => Ok(ErrorKind::Other),
        "PermissionDenied" => Ok(ErrorKind::PermissionDenied),
        "StorageFull" => Ok(ErrorKind::StorageFull),
        "TimedOut" => Ok(ErrorKind::TimedOut),
        "UnexpectedEof" => Ok(ErrorKind::UnexpectedEof),
        _ => Err(CaseError::Invalid("an unknown kind of I/O errors")),
    }
}

// The step of a word: a number of bytes, `pause` or `stop`, `fail(KIND)` or `grow(N)`.
fn parse_step(word: &str) -> CaseResult<Step> {
    match split_argument(word) {
        ("fail", kind) => Ok(Step::Fault(error_kind(kind)?)),
        ("grow", count) => Ok(Step::Grow(parse_number(count)? as usize)),
        ("pause" | "stop", _) => Ok(Step::Pause),
        _ => Ok(Step::Give(parse_number(word)? as usize)),
    }
}

/// The number and the rest of `N*REST`. The number is 1 if there is none.
pub fn split_count(word: &str) -> CaseResult<(u64, &str)> {
    let (count, rest) = word.split_once('*').unwrap_or(("1", word));
    Ok((parse_number(count)?, rest))
}

// Appends the steps of a group, which have a slash between them, this many times.
fn push_group(steps: &mut Vec<Step>, count: u64, group: &str) -> CaseResult {
    for _ in 0..count {
        for word in group.split('/') {
            steps.push(parse_step(word)?)?;
        }
    }
    Ok(())
}

/// Parses steps with a comma or a plus between them. `N*STEP` is a step N times, and `N*STEP/STEP` is a group
/// of steps N times. `rest` at the end is no step: a source without further steps returns all of its bytes.
pub fn parse_steps(alloc: Global, text: &str) -> CaseResult<Vec<Step>> {
    let mut steps = Vec::new(alloc);
    for word in text.split([',', '+']) {
        if word == "rest" || word.is_empty() {
            continue;
        }
        let (count, group) = split_count(word)?;
        push_group(&mut steps, count, group)?;
    }
    Ok(steps)
}
