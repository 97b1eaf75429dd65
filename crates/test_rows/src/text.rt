//! The text that a case prints.
use crate::case::{CaseError, CaseResult};
use perfdata_sections::error::Error;
use std::alloc::Global;
use std::fmt::{Debug, Display};
use std::io;

/// The text that a case prints. What appends to it returns nothing: whether an append is out of memory is
/// kept, and `finish` fails then.
#[derive(Drop)]
pub struct Output {
    pub text: String,
    is_out_of_memory: bool,
}

impl Output {
    /// An output that appends to a text.
    pub fn new(text: String) -> Output {
        Output {
            text,
            is_out_of_memory: false,
        }
    }

    /// The complete text.
    pub fn finish(self) -> CaseResult<String> {
        match self.is_out_of_memory {
            false => Ok(self.text),
            true => Err(CaseError::OutOfMemory),
        }
    }

    /// What `write!` and `writeln!` call.
    pub fn write_fmt<D: Display + Drop>(&mut self, value: D) {
        self.is_out_of_memory |= self.text.write_fmt(value).is_err();
    }

    /// Appends a value in the form of `{:?}` as a line.
    pub fn push_line<T: Debug>(&mut self, value: &T) {
        writeln!(self, "{value:?}");
    }

    /// Appends a value in the form of `{:?}`, or `Err(KIND)` for an I/O error of this kind, as a line.
    pub fn push_io_result<T: Debug>(&mut self, value: &io::Result<T>) {
        match value {
            Ok(value) => self.push_line(value),
            Err(error) => self.push_line(&Err::<(), io::ErrorKind>(error.kind())),
        }
    }

    /// Appends the name of an error, in which the kind stands for an I/O error. The line isn't ended.
    pub fn push_error(&mut self, error: &Error) {
        match error {
            Error::IoError(error) => write!(self, "IoError({:?})", error.kind()),
            Error::ParsingSimpleperfFileV1Section(error) => {
                write!(self, "ParsingSimpleperfFileV1Section({:?})", error.kind());
            }
            error => write!(self, "{error:?}"),
        }
    }

    /// Appends a value in the form of `{:?}`, or the name of an error, as a line.
    pub fn push_result<T: Debug>(&mut self, value: &Result<T, Error>) {
        match value {
            Ok(value) => self.push_line(value),
            Err(error) => {
                self.push_error(error);
                write!(self, "\n");
            }
        }
    }

    /// Appends the text of another output.
    pub fn append(&mut self, other: &Output) {
        write!(self, "{}", other.text);
        self.is_out_of_memory |= other.is_out_of_memory;
    }

    /// Appends a result after its name if it isn't the first result.
    pub fn append_other(&mut self, first: &str, name: &str, other: Output) -> CaseResult {
        let other = other.finish()?;
        if other.as_str() != first {
            write!(self, "{name}:\n{other}");
        }
        Ok(())
    }
}

/// The results of numbers as lines `FIRST..LAST: RESULT`, where `; ` stands between the lines of a result.
pub fn result_lines(alloc: Global, results: &[(u64, String)]) -> CaseResult<String> {
    let mut out = Output::new(String::new(alloc));
    for range in results.chunk_by(|one, next| one.1 == next.1) {
        if let [(first, outcome), ..] = range {
            write!(out, "{first}");
            if let [_, .., (last, _)] = range {
                write!(out, "..{last}");
            }
            let lines = outcome.as_str().trim_end_matches('\n');
            let line = lines.replace(alloc, "\n", "; ")?;
            writeln!(out, ": {line}");
        }
    }
    out.finish()
}
