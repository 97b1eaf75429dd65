//! The result of a case, whose call is made once, or once for each length, read, seek or split of its input.
use crate::case::{Case, CaseError, CaseResult, parse_number, split_argument};
use crate::sources::{error_kind, parse_steps};
use crate::text::{Output, result_lines};
use crate::values::{Scope, Value, parse_values};
use crate::{examples, jitdumps, listings, metadata, parsers, records};
use perfdata_base::raw::{Endianness, RawData};
use perfdata_base::source::{Script, Step};
use std::alloc::Global;
use std::io::ErrorKind;

// The largest number of seeks that an opening does.
const MAX_SEEKS: usize = 1000;

// The size of a result for which memory is there before a call, in bytes.
const RESULT_SIZE: usize = 4096;

/// A call of a case: its bytes, their byte order, and what a source of them does at its reads and seeks.
#[derive(Clone, Copy)]
pub struct Call<'a> {
    pub alloc: Global,
    pub case: Case<'a>,
    pub bytes: &'a [u8],
    /// The values after the first comma.
    pub others: &'a [Value],
    pub endian: Endianness,
    /// Where the bytes are split into two slices, if they are.
    split: Option<usize>,
    /// The number of bytes that a source returns one by one, and what it does at its reads after that.
    pub single_bytes: usize,
    pub steps: &'a [Step],
    /// The number of bytes that a source has at first.
    shown: usize,
    /// The number of the seek of a source that fails, from 0, and the kind of its error.
    seek_error: Option<(u64, ErrorKind)>,
}

impl<'a> Call<'a> {
    /// The bytes in one slice, or in two.
    pub fn raw(&self) -> RawData<'a> {
        match self.split.and_then(|at| self.bytes.split_at_checked(at)) {
            Some((first, second)) => RawData::Split(first, second),
            None => RawData::Single(self.bytes),
        }
    }

    /// A source of the bytes.
    pub fn script(&self) -> CaseResult<Script> {
        let bytes = Vec::from_slice(self.alloc, self.bytes)?;
        let mut steps = Vec::new(self.alloc);
        steps.resize(self.single_bytes, Step::Give(1))?;
        steps.extend_from_slice(self.steps)?;
        let mut seek_errors = Vec::new(self.alloc);
        if let Some(error) = self.seek_error {
            seek_errors.push(error)?;
        }
        Ok(Script::with_seek_errors(bytes, self.shown, steps, seek_errors))
    }

    /// Whether the source returns its bytes without a pause or an error.
    pub fn is_plain(&self) -> bool {
        self.steps.is_empty() && self.seek_error.is_none() && self.shown >= self.bytes.len()
    }

    // The call with this number of its variation: of a length, a split, single bytes, or a seek that fails.
    fn varied(mut self, number: usize) -> CaseResult<Call<'a>> {
        let case = self.case;
        if case.has("each-length") {
            self.bytes = self.bytes.get(..number).unwrap_or(&[]);
            self.shown = number;
        } else if case.has("each-split") {
            self.split = Some(number);
        } else if let Some(kind) = case.option("each-seek") {
            self.seek_error = Some((number as u64, error_kind(split_argument(kind).1)?));
        } else if let Some(steps) = case.option("each-read") {
            self.single_bytes = number;
            if steps.starts_with("stop") {
                self.shown = number;
            }
        }
        Ok(self)
    }
}

fn call_once(call: &Call<'_>) -> CaseResult<String> {
    let mut out = Output::new(String::with_capacity(call.alloc, RESULT_SIZE)?);
    match call.case.call {
        "list-file" | "list-pipe" | "list-jit" => listings::push_listing(call, &mut out)?,
        "finish" => listings::push_finish(call, &mut out)?,
        "read-file" | "read-pipe" => records::push_reading(call, &mut out)?,
        "bytes-left" => records::push_bytes_left(call, &mut out),
        "metadata" => metadata::push_metadata(call, &mut out)?,
        "jit" => jitdumps::push_calls(call, &mut out)?,
        "count-file" | "count-pipe" | "code-size" | "period-sum" | "listing" => {
            examples::call(call, &mut out);
        }
        "size" => out.push_line(&call.bytes.len()),
        _ => parsers::call(call, &mut out)?,
    }
    out.finish()
}

// The results for each number of a variation. Seeks end with the first that isn't done.
fn call_each(call: &Call<'_>) -> CaseResult<String> {
    let mut results = Vec::new(call.alloc);
    let complete = call_once(call)?;
    let is_seek = call.case.has("each-seek");
    let last = if is_seek { MAX_SEEKS } else { call.bytes.len() };
    for number in call.case.number("after", 0)? as usize..=last {
        let outcome = call_once(&call.varied(number)?)?;
        if is_seek && outcome == complete {
            break;
        }
        results.push((number as u64, outcome))?;
    }
    result_lines(call.alloc, &results)
}

// The results of a case for one byte order and turn.
fn outcome_in(case: Case<'_>, scope: Scope<'_>) -> CaseResult<String> {
    let alloc = scope.alloc;
    let values = parse_values(scope, case.input)?;
    let steps = case.option("each-read").or(case.option("source"));
    let steps = parse_steps(alloc, steps.unwrap_or(""))?;
    let Some((first, others)) = values.split_first() else {
        return Err(CaseError::Invalid("a case without an input"));
    };
    let split = case.option("split").map(parse_number).transpose()?;
    let call = Call {
        alloc,
        case,
        bytes: &first.bytes,
        others,
        endian: scope.endian,
        split: split.map(|at| at as usize),
        single_bytes: 0,
        steps: &steps,
        shown: case.number("shown", u64::MAX)? as usize,
        seek_error: None,
    };
    let mut options = case.options.split_whitespace();
    if options.any(|option| option.starts_with("each-") && option != "each-order") {
        return call_each(&call);
    }
    call_once(&call)
}

// The results of a case for one byte order. With the option `each=FIRST..LAST` the input has each of these
// values of `n`; `N` stands for it at the end of a line.
fn outcomes_in(case: Case<'_>, mut scope: Scope<'_>) -> CaseResult<String> {
    let Some(range) = case.option("each") else {
        return outcome_in(case, scope);
    };
    let (first, last) = range.split_once("..").unwrap_or((range, range));
    let mut results = Vec::new(scope.alloc);
    for number in parse_number(first)?..=parse_number(last)? {
        scope.turn = number;
        let ending = format!(in scope.alloc; " {number}\n")?;
        let outcome = outcome_in(case, scope)?;
        let outcome = outcome.replace(scope.alloc, ending.as_str(), " N\n")?;
        results.push((number, outcome))?;
    }
    result_lines(scope.alloc, &results)
}

/// The result of a case. With the option `each-order` it is the result for both byte orders, or both results
/// if they differ.
pub fn case_outcome(case: Case<'_>, mut scope: Scope<'_>) -> CaseResult<String> {
    if case.has("big-endian") {
        scope.endian = Endianness::BigEndian;
    }
    let mut outcome = outcomes_in(case, scope)?;
    if case.has("each-order") {
        scope.endian = Endianness::BigEndian;
        let other = outcomes_in(case, scope)?;
        if other != outcome {
            outcome.push_str("big-endian:\n")?;
            outcome.push_str(&other)?;
        }
    }
    Ok(outcome)
}
