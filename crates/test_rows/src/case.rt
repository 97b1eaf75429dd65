//! A case: a call, its options, its input and its expected result.
use std::alloc::{AllocError, AllocFailed, Global};
use std::io;

/// Why a case has no result.
#[derive(Clone, Copy)]
pub enum CaseError {
    OutOfMemory,
    /// What is wrong with the case, or with what it is run in.
    Invalid(&'static str),
}

/// The result of a function that prints what a call returns, or that reads a case.
pub type CaseResult<T = ()> = Result<T, CaseError>;

/// A call, the words after its name, its input and its expected result.
#[derive(Clone, Copy)]
pub struct Case<'a> {
    pub call: &'a str,
    pub options: &'a str,
    pub input: &'a str,
    pub expected: &'a str,
}

impl<'a> Case<'a> {
    /// Parses a call with its options, the lines of the input, a line `----`, and the expected result.
    pub fn parse(text: &'a str) -> CaseResult<Case<'a>> {
        let Some((first, expected)) = text.split_once("\n----") else {
            return Err(CaseError::Invalid("a case without a line ----"));
        };
        let (first, input) = first.split_once('\n').unwrap_or((first, ""));
        let (call, options) = first.split_once(' ').unwrap_or((first, ""));
        let expected = expected.trim_matches('\n');
        Ok(Case {
            call,
            options,
            input,
            expected,
        })
    }

    /// The value of an option `NAME=VALUE`, or the empty text for an option `NAME`.
    pub fn option(&self, name: &str) -> Option<&'a str> {
        let mut options = self.options.split_whitespace();
        options.find_map(|option| {
            let (key, value) = option.split_once('=').unwrap_or((option, ""));
            if key == name { Some(value) } else { None }
        })
    }

    /// Whether the case has an option.
    pub fn has(&self, name: &str) -> bool {
        self.option(name).is_some()
    }

    /// The value of an option as a number; `default` if there is no such option.
    pub fn number(&self, name: &str, default: u64) -> CaseResult<u64> {
        self.option(name).map_or(Ok(default), parse_number)
    }

    /// The value of an option as numbers with a comma between them; none if there is no such option.
    pub fn numbers(&self, alloc: Global, name: &str) -> CaseResult<Vec<u64>> {
        let mut numbers = Vec::new(alloc);
        for value in self.option(name).unwrap_or("").split_terminator(',') {
            numbers.push(parse_number(value)?)?;
        }
        Ok(numbers)
    }
}

/// A number, decimal or hexadecimal after `0x`.
pub fn parse_number(word: &str) -> CaseResult<u64> {
    let number = match word.strip_prefix("0x") {
        Some(digits) => u64::from_str_radix(digits, 16),
        None => word.parse::<u64>(),
    };
    number.map_err(|_| CaseError::Invalid("a word that isn't a number"))
}

/// The name and the argument of `NAME(ARGUMENT)`. The argument is empty if there are no parentheses.
pub fn split_argument(word: &str) -> (&str, &str) {
    let (name, argument) = word.split_once('(').unwrap_or((word, ""));
    (name, argument.trim_end_matches(')'))
}

impl From<AllocError> for CaseError {
    fn from(_error: AllocError) -> CaseError {
        CaseError::OutOfMemory
    }
}

impl<T: Drop> From<AllocFailed<T>> for CaseError {
    fn from(_error: AllocFailed<T>) -> CaseError {
        CaseError::OutOfMemory
    }
}

impl From<io::Error> for CaseError {
    fn from(_error: io::Error) -> CaseError {
        CaseError::Invalid("an I/O error")
    }
}
