//! Writes the report: one `name: value` pair a line, with indented lists.
use crate::escaped_text::Escaped;
use linux_perf_data::Error;
use perfdata_cli::error::{InputError, ProgramError};
use std::alloc::Global;
use std::fmt::Display;
use std::io::{BufWriter, Write};
use std::rt::Stdout;
use std::{fmt, io};

/// Writes the lines of the report. No line is written after the first write error.
#[derive(Drop)]
pub struct Report {
    out: BufWriter<Stdout>,
    write_error: Option<io::Error>,
    unreadable_sections: u64,
}

/// Displays two values with a space between them.
#[derive(Drop)]
pub struct Spaced<A, B>(pub A, pub B);

impl<A: Display, B: Display> Display for Spaced<A, B> {
    fn fmt<W: fmt::Write>(&self, f: &mut fmt::Formatter<W>) -> fmt::Result {
        write!(f, "{} {}", self.0, self.1)
    }
}

/// Displays a name and a number after it in parentheses.
#[derive(Clone, Copy)]
pub struct Named(pub &'static str, pub u32);

impl Display for Named {
    fn fmt<W: fmt::Write>(&self, f: &mut fmt::Formatter<W>) -> fmt::Result {
        write!(f, "{} ({})", self.0, self.1)
    }
}

impl Report {
    /// Creates a report without lines. Fails if the allocation of a buffer fails.
    pub(crate) fn new(alloc: Global, out: Stdout) -> io::Result<Report> {
        Ok(Report {
            out: BufWriter::new(alloc, out)?,
            write_error: None,
            unreadable_sections: 0,
        })
    }

    // Writes a line with this indentation.
    fn write_indented<N: Display + Drop, V: Display + Drop>(
        &mut self,
        indent: &str,
        name: N,
        value: V,
    ) {
        if self.write_error.is_some() {
            return;
        }
        if let Err(error) = writeln!(self.out, "{indent}{name}: {value}") {
            self.write_error = Some(error);
        }
    }

    /// Writes an empty line.
    pub(crate) fn empty_line(&mut self) {
        if self.write_error.is_some() {
            return;
        }
        if let Err(error) = writeln!(self.out) {
            self.write_error = Some(error);
        }
    }

    /// Writes a line without indentation.
    pub(crate) fn line<V: Display + Drop>(&mut self, name: &str, value: V) {
        self.write_indented("", name, value);
    }

    /// Writes a line that contains a number.
    pub(crate) fn number(&mut self, name: &str, value: u64) {
        self.line(name, value);
    }

    /// Writes a line that contains a word.
    pub(crate) fn word(&mut self, name: &str, value: &str) {
        self.line(name, value);
    }

    /// Writes a line for an item of a list.
    pub(crate) fn item<N: Display + Drop, V: Display + Drop>(&mut self, name: N, value: V) {
        self.write_indented("  ", name, value);
    }

    /// Writes a line for a detail of an item.
    pub(crate) fn detail<N: Display + Drop, V: Display + Drop>(&mut self, name: N, value: V) {
        self.write_indented("    ", name, value);
    }

    /// Writes a line for a detail of an item that is a number.
    pub(crate) fn number_detail(&mut self, name: &str, value: u64) {
        self.detail(name, value);
    }

    // Counts a section that can't be read, and writes a line with the error.
    fn note(&mut self, name: &str, error: &Error) {
        self.unreadable_sections = self.unreadable_sections.saturating_add(1);
        self.line(name, format_args!("can't be read: {error}"));
    }

    /// Returns the value of a section, or `None` if the section is missing or can't be read. For an
    /// unreadable section it writes a line with the error.
    pub(crate) fn value_or_note<T>(
        &mut self,
        name: &str,
        section: Result<Option<T>, Error>,
    ) -> Option<T> {
        match section {
            Ok(value) => value,
            Err(error) => {
                self.note(name, &error);
                None
            }
        }
    }

    /// Writes the line of a section that contains a string.
    pub(crate) fn string_line(&mut self, name: &str, section: Result<Option<&str>, Error>) {
        if let Some(text) = self.value_or_note(name, section) {
            self.line(name, Escaped(text.as_bytes()));
        }
    }

    /// Writes the line of a section that contains a number.
    pub(crate) fn number_line(&mut self, name: &str, section: Result<Option<u64>, Error>) {
        if let Some(number) = self.value_or_note(name, section) {
            self.number(name, number);
        }
    }

    /// Flushes the writer. Fails if a write or the flush fails, or else with the number of unreadable
    /// sections if it isn't 0.
    pub(crate) fn finish(self) -> Result<(), ProgramError> {
        let Report {
            mut out,
            write_error,
            unreadable_sections,
        } = self;
        if let Some(error) = write_error {
            return Err(ProgramError::Output(error));
        }
        out.flush().map_err(ProgramError::Output)?;
        match unreadable_sections {
            0 => Ok(()),
            count => Err(InputError::Sections(count).into()),
        }
    }
}
