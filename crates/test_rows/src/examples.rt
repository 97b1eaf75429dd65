//! Functions that use the library as a caller does: the size of a jitdump's code, proved counts of records,
//! the sum of the samples' periods, and a listing in memory.
pub mod count;
pub mod jit_code_size;
pub mod listing;
pub mod period_sum;

use crate::outcome::Call;
use crate::text::Output;
use std::io::Cursor;

/// Prints what an example returns.
pub fn call(call: &Call<'_>, out: &mut Output) {
    let (alloc, source) = (call.alloc, Cursor::new(call.bytes));
    match call.case.call {
        "count-file" => out.push_result(&count::count_records(alloc, call.bytes)),
        "count-pipe" => out.push_result(&count::count_pipe_records(alloc, call.bytes)),
        "period-sum" => out.push_result(&period_sum::period_sum(alloc, source)),
        "listing" => match listing::listing(alloc, source) {
            Ok(lines) => write!(out, "{}", str::from_utf8(&lines).unwrap_or("not UTF-8")),
            Err(fault) => writeln!(out, "{} lines before an error", fault.lines),
        },
        _ => match jit_code_size::code_size(alloc, source) {
            Ok(size) => out.push_line(&size),
            Err(error) => out.push_line(&error),
        },
    }
}
