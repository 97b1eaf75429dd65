//! The format of the output, and errors.

use crate::options::Arguments;
use code_files::PathError;
use perfdata_cli::error::{InputError, ProgramError};
use perfdata_fold::format::OutputFormat;
use perfdata_fold::output::OutputOptions;
use perfdata_views::call_tree::MinShare;
use std::alloc::AllocError;
use std::io::IsTerminal;
use std::{env, io};

// The width of a terminal that doesn't say it.
const TERMINAL_WIDTH: usize = 80;

// The format of files by the end of their names.
const FORMATS: [(&str, OutputFormat); 4] = [
    (".svg", OutputFormat::Svg),
    (".pb", OutputFormat::Pprof),
    (".html", OutputFormat::Html),
    (".json", OutputFormat::Json),
];

/// Why a profile isn't written.
#[derive(Drop)]
pub(crate) enum FoldError<'a> {
    /// The input can't be read, or standard output can't be written.
    Program(ProgramError),
    /// A file of the command line can't be read or written.
    File(PathError<'a>),
    /// Nothing is written, for a reason.
    NoOutput(Vec<u8>),
}

impl<'a> From<AllocError> for FoldError<'a> {
    fn from(_: AllocError) -> FoldError<'a> {
        InputError::OutOfMemory.into()
    }
}

impl<'a> From<InputError> for FoldError<'a> {
    fn from(error: InputError) -> FoldError<'a> {
        FoldError::Program(ProgramError::Input(error))
    }
}

impl<'a> From<PathError<'a>> for FoldError<'a> {
    fn from(error: PathError<'a>) -> FoldError<'a> {
        FoldError::File(error)
    }
}

/// Returns the error of writing the output.
pub(crate) fn output_error<'a>(arguments: &Arguments<'a>, error: io::Error) -> FoldError<'a> {
    match arguments.output {
        Some(path) => FoldError::File(PathError { path, error }),
        None => FoldError::Program(ProgramError::Output(error)),
    }
}

/// Returns the format that is written.
pub(crate) fn output_format(rt: &HostRuntime, arguments: &Arguments<'_>) -> OutputFormat {
    match (arguments.format, arguments.output) {
        (Some(format), _) => format,
        (None, Some(path)) => {
            let mut formats = FORMATS.iter();
            let found = formats.find(|(suffix, _)| path.ends_with(*suffix));
            found.map_or(OutputFormat::Lines, |(_, format)| *format)
        }
        (None, None) if rt.stdout().is_terminal() => OutputFormat::Top,
        (None, None) => OutputFormat::Lines,
    }
}

// Returns the width of the terminal, if that is the output. One that isn't known is 80.
fn line_width(rt: &HostRuntime, arguments: &Arguments<'_>) -> Option<usize> {
    if arguments.output.is_some() || !rt.stdout().is_terminal() {
        return None;
    }
    match env::var(rt, "COLUMNS") {
        Ok(text) => text.as_str().parse::<usize>().ok().or(Some(TERMINAL_WIDTH)),
        Err(_) => Some(TERMINAL_WIDTH),
    }
}

/// Returns what is written in a format.
pub(crate) fn output_options<'a>(
    rt: &HostRuntime,
    arguments: &'a Arguments<'_>,
    format: OutputFormat,
) -> OutputOptions<'a> {
    OutputOptions {
        format,
        weight: arguments.options.weight,
        rows: arguments.shown_rows(),
        width: line_width(rt, arguments),
        min_share: arguments.min_share.unwrap_or(MinShare::DEFAULT),
        old_counts: arguments.old_counts,
        filters: arguments.filters.as_slice(),
    }
}
