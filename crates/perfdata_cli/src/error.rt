//! Errors of the programs: what failed, where, and why.
use crate::command_line::FAILURE;
use crate::input::path_of_name;
use crate::other_format::OtherFormat;
use crate::position::Position;
use crate::recording::RecordingKind;
use linux_perf_data::Error;
use linux_perf_data::jitdump::JitDumpError;
use linux_perf_data::source::Counted;
use linux_perf_data::truncation::{Completeness, OpeningPart, find_truncated_part};
use perfdata_compressed::ContentEnd;
use std::fmt::{Display, Formatter, InlineText};
use std::fs::File;
use std::io::ErrorKind;
use std::{fmt, fs, io};

// The maximum size in bytes of the text of an I/O error.
const TEXT_SIZE: usize = 256;

// What std appends to the text of an error of the system, before its number.
const NUMBER_PREFIX: &str = " (os error ";

/// Why an input can't be read to its end.
#[derive(Drop)]
pub enum InputError {
    /// The first bytes are those of no format that the program reads.
    UnknownFormat,
    /// The input has a format that no program reads.
    OtherFormat(OtherFormat),
    /// The input is a directory of `perf record --threads`.
    ThreadsDirectory,
    /// The input is a jitdump, which the program doesn't read.
    JitDump,
    /// The input can't be opened, or its first bytes can't be read.
    Io(io::Error),
    /// The metadata of a perf.data file or pipe can't be read.
    Metadata(Error),
    /// The header of a jitdump can't be read.
    JitHeader(JitDumpError),
    /// A record can't be read.
    Record {
        /// What was read before it.
        position: Position,
        /// The cause.
        cause: Error,
    },
    /// A record of a jitdump can't be read.
    JitRecord {
        /// What was read before it.
        position: Position,
        /// The cause.
        cause: io::Error,
    },
    /// Number of sections that can't be read.
    Sections(u64),
    /// The recording wasn't finished.
    NotFinished {
        /// The number of records that were read to the end of the file.
        records: u64,
        /// Whether the header names features.
        has_features: bool,
    },
    /// The end of the file is missing. This many records were read.
    Truncated(u64),
    /// Out of memory.
    OutOfMemory,
}

impl InputError {
    ghost use Rattle.std.specs.Prelude.{◌≡◌, ◌≢◌};
    ghost use Rattle.perfdata_cli.specs.declared.error.InputError.TheVariants.{Metadata, Record};

    /// Returns the error of reading the records, or of the metadata if none was read.
    pub fn with_position(position: Position, cause: Error) -> InputError
        ensures metadata { position.records ≡ 0 → result ≡ Metadata cause }
        ensures later { position.records ≢ 0 → result ≡ Record position cause }
    {
        match position.records {
            0 => InputError::Metadata(cause),
            _ => InputError::Record { position, cause },
        }
    }
}

/// An error that ends a program or makes its output incomplete.
#[derive(Drop)]
pub enum ProgramError {
    /// The input can't be read to its end.
    Input(InputError),
    /// Standard output can't be written.
    Output(io::Error),
}

impl From<InputError> for ProgramError {
    fn from(error: InputError) -> ProgramError {
        ProgramError::Input(error)
    }
}

/// Displays an I/O error without the system's number of it.
#[derive(Clone, Copy)]
pub struct IoCause<'a>(pub &'a io::Error);

impl Display for IoCause<'_> {
    fn fmt<W: fmt::Write>(&self, f: &mut Formatter<W>) -> fmt::Result {
        let text = InlineText::<TEXT_SIZE>::of(self.0);
        let words = text.as_str().split(NUMBER_PREFIX).next();
        f.write_str(words.unwrap_or("I/O error"))
    }
}

// Displays why a part of a recording can't be read.
#[derive(Clone, Copy)]
struct Cause<'a>(&'a Error);

impl Display for Cause<'_> {
    fn fmt<W: fmt::Write>(&self, f: &mut Formatter<W>) -> fmt::Result {
        match self.0 {
            Error::Read(part) => Display::fmt(part, f),
            Error::IoError(error) if error.kind() == ErrorKind::Unsupported => {
                f.write_str("compressed records; record without -z")
            }
            Error::IoError(error) => Display::fmt(&IoCause(error), f),
            Error::UnrecognizedMagicValue(_) => f.write_str("not a perf.data file"),
            error => Display::fmt(error, f),
        }
    }
}

// Displays a number with a comma before each group of three digits.
#[derive(Clone, Copy)]
struct Grouped(u64);

impl Display for Grouped {
    fn fmt<W: fmt::Write>(&self, f: &mut Formatter<W>) -> fmt::Result {
        let digits = InlineText::<20>::of(self.0);
        let mut remaining = digits.as_str().len();
        for digit in digits.as_str().chars() {
            f.write_char(digit)?;
            remaining = remaining.saturating_sub(1);
            if remaining != 0 && remaining % 3 == 0 {
                f.write_char(',')?;
            }
        }
        Ok(())
    }
}

// Writes where a record is that can't be read, and why.
fn write_record_error<W: fmt::Write, C: Display>(
    position: Position,
    cause: &C,
    f: &mut Formatter<W>,
) -> fmt::Result {
    if let Some(offset) = position.offset {
        write!(f, "record at offset {offset} ")?;
    }
    write!(f, "(after {} records): {cause}", Grouped(position.records))
}

// Writes that a recording isn't finished.
fn write_not_finished<W: fmt::Write>(
    records: u64,
    has_features: bool,
    f: &mut Formatter<W>,
) -> fmt::Result {
    let features = if has_features {
        ""
    } else {
        ": no features either"
    };
    write!(
        f,
        "not finished: no data size{features}; read {records} records to the end of the file"
    )
}

impl Display for InputError {
    fn fmt<W: fmt::Write>(&self, f: &mut Formatter<W>) -> fmt::Result {
        match self {
            InputError::UnknownFormat => f.write_str("not a perf.data file"),
            InputError::OtherFormat(format) => Display::fmt(format, f),
            InputError::ThreadsDirectory => {
                f.write_str("a directory of perf record --threads: record without --threads")
            }
            InputError::JitDump => f.write_str("a jitdump, which perflist jit and perfinfo read"),
            InputError::Io(error) => Display::fmt(&IoCause(error), f),
            InputError::Metadata(error) => Display::fmt(&Cause(error), f),
            InputError::JitHeader(error) => Display::fmt(error, f),
            InputError::Record { position, cause } => write_record_error(
                *position,
                &Cause(cause),
                f,
            ),
            InputError::JitRecord { position, cause } => {
                write_record_error(*position, &IoCause(cause), f)
            }
            InputError::OutOfMemory => f.write_str("out of memory"),
            InputError::Sections(count) => write!(f, "sections that can't be read: {count}"),
            InputError::NotFinished {
                records,
                has_features,
            } => write_not_finished(*records, *has_features, f),
            InputError::Truncated(records) => {
                write!(
                    f,
                    "truncated: the end of the file is missing; read {records} records"
                )
            }
        }
    }
}

/// Prints that standard output can't be written. Returns the exit status. That nobody reads the output any
/// more is no error to report.
pub fn print_output_error(rt: &HostRuntime, program: &str, error: &io::Error) -> u8 {
    if error.kind() != ErrorKind::BrokenPipe {
        let _ = eprintln!(rt; "{program}: standard output: {}", IoCause(error));
    }
    FAILURE
}

// Returns the part of a regular file that ends too early, if this is the error of an opening that ends so.
fn truncated_opening_part(
    rt: &HostRuntime,
    input: &str,
    error: &InputError,
) -> Option<OpeningPart> {
    match error {
        InputError::Metadata(Error::IoError(cause)) if cause.kind() == ErrorKind::UnexpectedEof =>
            {}
        _ => return None,
    }
    let path = path_of_name(input);
    if !fs::metadata(rt, path).ok()?.is_file() {
        return None;
    }
    find_truncated_part(&mut Counted::new(File::open(rt, path).ok()?))
}

/// Prints an error of a program that reads this input. Returns the exit status. If the metadata of a regular
/// file end too early, the message names the part that does.
pub fn print_error(rt: &HostRuntime, program: &str, input: &str, error: &ProgramError) -> u8 {
    match error {
        ProgramError::Input(cause) => {
            let _ = match truncated_opening_part(rt, input, cause) {
                Some(part) => eprintln!(rt; "{program}: {input}: {cause} in {part}"),
                None => eprintln!(rt; "{program}: {input}: {cause}"),
            };
            FAILURE
        }
        ProgramError::Output(cause) => print_output_error(rt, program, cause),
    }
}

/// Prints where the compressed data of a file end, if they end in a record or in a block: perf drops the end
/// of what it compressed last, which is no error. Also prints why the content of a file whose end is missing
/// can't be read. In other files the record there has this error.
pub fn print_content_end(rt: &HostRuntime, program: &str, input: &str, kind: RecordingKind) {
    let _ = match kind.content_end {
        ContentEnd::Whole => Ok(()),
        ContentEnd::InBlock => {
            eprintln!(rt; "{program}: {input}: the compressed data end in a block")
        }
        ContentEnd::InRecord(size) => {
            eprintln!(rt;
                "{program}: {input}: the compressed data end in a record, after {size} bytes of it"
            )
        }
        ContentEnd::Error(_) if kind.completeness == Completeness::Complete => Ok(()),
        ContentEnd::Error(error) => eprintln!(rt; "{program}: {input}: {error}"),
    };
}
