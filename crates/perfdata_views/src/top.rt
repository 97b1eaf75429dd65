//! The table of the functions with the most samples.

use crate::share::Share;
use crate::table::rows;
use perfdata_profile::profile::Profile;
use std::alloc::{AllocError, Global};
use std::cmp::Ordering;
use std::fmt::InlineText;
use std::io;
use std::io::Write;

/// What is between the name of a function and that of its file, in a profile for the table.
pub const FILE_MARK: u8 = 0;

// The largest width of the column of functions for a row's sake.
const WIDEST: usize = 40;

/// What the table shows.
#[derive(Clone, Copy)]
pub struct TableOptions<'a> {
    /// The line above it.
    pub heading: &'a [u8],
    /// What is counted, as `samples`.
    pub unit: &'a str,
    /// The number of rows, if not all are shown.
    pub rows: Option<usize>,
    /// The number of characters of a line, if lines are cut.
    pub width: Option<usize>,
}

// A row of the table.
#[derive(Clone, Copy)]
struct Row<'a> {
    name: &'a [u8],
    file: &'a [u8],
    /// The weight of the samples in the function.
    own: u64,
    /// The weight of the samples in it and in what it calls.
    total: u64,
}

// Returns which function is first in the table: the one with more samples in it, then with more in all.
fn by_weight(first: &Row<'_>, second: &Row<'_>) -> Ordering {
    let own = second.own.cmp(&first.own);
    let total = second.total.cmp(&first.total);
    own.then(total)
        .then(first.name.cmp(second.name))
        .then(first.file.cmp(second.file))
}

/// Returns the name of a function and that of its file, which is empty if the name has no mark.
pub fn split_file(name: &[u8]) -> (&[u8], &[u8]) {
    let Some(end) = name.iter().position(|byte| *byte == FILE_MARK) else {
        return (name, b"");
    };
    let file = name.get(end.saturating_add(1)..).unwrap_or(b"");
    (name.get(..end).unwrap_or(name), file)
}

// Returns the functions in the order of the table.
fn sorted_rows<'a>(alloc: Global, profile: &'a Profile) -> Result<Vec<Row<'a>>, AllocError> {
    let mut sorted = Vec::new(alloc);
    for row in rows(alloc, profile)?.iter() {
        let (name, file) = split_file(profile.tables.names.get(row.name).unwrap_or(b""));
        sorted.push(Row {
            name,
            file,
            own: row.own,
            total: row.total,
        })?;
    }
    sorted.sort_by(by_weight)?;
    Ok(sorted)
}

// Returns whether a byte begins a character.
fn is_start(byte: u8) -> bool {
    byte & 0xc0 != 0x80
}

/// Returns the number of characters of a text.
pub(crate) fn character_count(text: &[u8]) -> usize {
    text.iter().filter(|byte| is_start(**byte)).count()
}

// Returns the first characters of a line.
fn cut(line: &[u8], width: usize) -> &[u8] {
    let mut starts = line.iter().enumerate().filter(|(_, byte)| is_start(**byte));
    match starts.nth(width) {
        Some((end, _)) => line.get(..end).unwrap_or(line),
        None => line,
    }
}

/// Writes a line, cut to a width.
pub(crate) fn write_line<W: Write>(
    line: &[u8],
    width: Option<usize>,
    out: &mut W,
) -> io::Result<()> {
    out.write_all(match width {
        Some(width) => cut(line, width),
        None => line,
    })?;
    out.write_all(b"\n")
}

/// Appends a name in the column of functions, and two blanks.
pub(crate) fn push_name(line: &mut Vec<u8>, name: &[u8], width: usize) -> Result<(), AllocError> {
    line.extend_from_slice(name)?;
    for _ in character_count(name)..width {
        line.push(b' ')?;
    }
    line.extend_from_slice(b"  ")
}

// Sets a line to a row, in which the column of functions has a width. `total` is the weight of all samples.
fn set_row(line: &mut Vec<u8>, row: &Row<'_>, total: u64, width: usize) -> io::Result<()> {
    let (own, all) = (
        Share {
            part: row.own,
            total,
        },
        Share {
            part: row.total,
            total,
        },
    );
    let (own, all) = (InlineText::<24>::of(own), InlineText::<24>::of(all));
    let (own, all) = (own.as_str(), all.as_str());
    line.clear();
    write!(line, "{own:>7}  {all:>7} {:>12}  ", row.own)?;
    push_name(line, row.name, width)?;
    Ok(line.extend_from_slice(row.file)?)
}

/// Writes the functions with the most samples below a heading: the share of the samples in each, the share of
/// those in it and in what it calls, the weight of the former, its name, and the name of its file.
///
/// Fails if memory runs out or if the output can't be written.
pub fn write_top<W: Write>(
    alloc: Global,
    profile: &Profile,
    options: TableOptions<'_>,
    out: &mut W,
) -> io::Result<()> {
    let total = profile.sums.total().weight;
    let sorted = sorted_rows(alloc, profile)?;
    let shown = options.rows.unwrap_or(sorted.len());
    let widths = sorted
        .iter()
        .take(shown)
        .map(|row| character_count(row.name));
    let width = widths.filter(|width| *width <= WIDEST).max().unwrap_or(0);
    write_line(options.heading, options.width, out)?;
    let mut line = Vec::new(alloc);
    let unit = options.unit;
    write!(line, "{:>7}  {:>7} {unit:>12}  ", "self", "total")?;
    push_name(&mut line, b"function", width)?;
    line.extend_from_slice(b"file")?;
    write_line(line.as_slice(), options.width, out)?;
    for row in sorted.iter().take(shown) {
        set_row(&mut line, row, total, width)?;
        write_line(line.as_slice(), options.width, out)?;
    }
    Ok(())
}
