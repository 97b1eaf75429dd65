//! The lines and the functions of two profiles, side by side.

ghost use Rattle.std.specs.Prelude.{◌≡◌, ◌∷◌, ◌++◌, ℕ, List, map, IfOk, OnOk};
ghost use Rattle.std.specs.Fmt.{decimal};
ghost use Rattle.std.specs.Io.KnownBytes.{Appends};
ghost use Rattle.std.specs.List.{flat_map};
ghost use Rattle.perfdata_views.specs.Counts.{Added, Counts, counted_lines};
ghost use Rattle.perfdata_views.specs.Differences.{IsPairedText, line_text, totals_of, written_count};
ghost use Rattle.perfdata_views.specs.steps.Differences.{columns_of, key_of};

use crate::counts::LineCounts;
use crate::lines::{add_line, line_counts};
use crate::share::Share;
use crate::table::rows;
use crate::top::{TableOptions, character_count, push_name, split_file, write_line};
use itoa::Buffer;
use perfdata_profile::profile::Profile;
use std::alloc::{AllocError, Global};
use std::cmp::Ordering;
use std::collections::BTreeMap;
use std::io;
use std::io::Write;

// The largest width of the column of functions for a row's sake.
const WIDEST: usize = 40;

/// What is counted in an old and in a new profile.
#[derive(Clone, Copy, Debug, PartialEq, Eq)]
pub struct CountPair {
    /// The count in the old one.
    pub old: u64,
    /// The count in the new one.
    pub new: u64,
}

/// How what an old profile counts is written.
#[derive(Clone, Copy, Debug, PartialEq, Eq)]
pub enum OldCounts {
    /// As it was counted.
    Recorded,
    /// As if all of it added up to what the new profile counts, rounded down.
    Scaled,
}

/// Two profiles that are compared.
#[derive(Clone, Copy)]
pub struct Comparison<'a> {
    /// The old one.
    pub old: &'a Profile,
    /// The new one.
    pub new: &'a Profile,
    /// How what the old one counts is written.
    pub counts: OldCounts,
}

// The counts of texts in two profiles.
#[derive(Drop)]
pub(crate) struct PairedCounts {
    alloc: Global,
    pairs: BTreeMap<Vec<u8>, CountPair>,
}

// A row of the table.
#[derive(Clone, Copy)]
struct DifferenceRow<'a> {
    name: &'a [u8],
    file: &'a [u8],
    counts: CountPair,
    totals: CountPair,
}

impl CountPair {
    // Returns the shares in hundredths of a percent of two totals.
    fn hundredths(self, totals: CountPair) -> (u64, u64) {
        let old = Share {
            part: self.old,
            total: totals.old,
        };
        let new = Share {
            part: self.new,
            total: totals.new,
        };
        (old.hundredths(), new.hundredths())
    }

    // Returns how much the shares of two totals differ, in parts of the product of these.
    fn distance(self, totals: CountPair) -> u128 {
        let new = self.new as u128 * totals.old.max(1) as u128;
        let old = self.old as u128 * totals.new.max(1) as u128;
        new.max(old) - new.min(old)
    }
}

impl OldCounts {
    /// Returns what is written of a count in an old profile. `totals` are the sums of all counts.
    pub(crate) fn written(self, count: u64, totals: CountPair) -> u64
        ensures { result ≡ written_count self totals count }
    {
        if self == OldCounts::Recorded || totals.old == 0 {
            return count;
        }
        let scaled = count as u128 * totals.new as u128 / totals.old as u128;
        u64::try_from(scaled).unwrap_or(u64::MAX)
    }
}

impl<'a> Comparison<'a> {
    // Returns the sums of all counts.
    fn totals(&self) -> CountPair
        ensures { result ≡ totals_of self.now.old.now self.now.new.now }
    {
        CountPair {
            old: self.old.sums.total().weight,
            new: self.new.sums.total().weight,
        }
    }
}

impl PairedCounts {
    // Returns counts of no texts.
    fn new(alloc: Global) -> PairedCounts {
        PairedCounts {
            alloc,
            pairs: BTreeMap::new(alloc),
        }
    }

    // Adds the counts of a text.
    fn add(&mut self, text: &[u8], counts: CountPair) -> Result<(), AllocError> {
        let key = text.to_vec(self.alloc)?;
        let known = self.pairs.get(&key).copied();
        let known = known.unwrap_or(CountPair { old: 0, new: 0 });
        let counts = CountPair {
            old: known.old.saturating_add(counts.old),
            new: known.new.saturating_add(counts.new),
        };
        self.pairs.insert(key, counts)?;
        Ok(())
    }

    // Adds what the samples in each function of the old profile count.
    fn add_old_functions(&mut self, profile: &Profile) -> Result<(), AllocError> {
        for row in rows(self.alloc, profile)?.iter() {
            let name = profile.tables.names.get(row.name).unwrap_or(b"");
            let counts = CountPair {
                old: row.own,
                new: 0,
            };
            self.add(name, counts)?;
        }
        Ok(())
    }

    // Adds what the samples in each function of the new profile count.
    fn add_new_functions(&mut self, profile: &Profile) -> Result<(), AllocError> {
        for row in rows(self.alloc, profile)?.iter() {
            let name = profile.tables.names.get(row.name).unwrap_or(b"");
            let counts = CountPair {
                old: 0,
                new: row.own,
            };
            self.add(name, counts)?;
        }
        Ok(())
    }
}

// Adds the lines of other counts, with 0 to their counts.
fn add_keys(counts: &mut LineCounts, other: &LineCounts) -> Result<(), AllocError>
    ensures { OnOk result ((added : List Added) → Counts added counts.old →
        Counts (added ++ map key_of (counted_lines other.now)) counts.new) }
{
    'lines: for (line, _) in other.iter() {
        let _total = counts.total(); // for the prover
        add_line(counts, line.as_slice(), 0)?;
    }
    Ok(())
}

// Appends a blank and a count.
fn push_count(text: &mut Vec<u8>, count: u64) -> Result<(), AllocError>
    ensures { OnOk result (text.new.items ≡ text.old.items ++ 32 ∷ decimal count) }
{
    text.push(b' ')?;
    let mut buffer = Buffer::new();
    text.extend_from_slice(buffer.format(count).as_bytes())
}

// Appends a line with its counts in two profiles.
fn push_columns(text: &mut Vec<u8>, line: &[u8], counts: CountPair) -> Result<(), AllocError>
    ensures { OnOk result (text.new.items ≡ text.old.items ++ line_text line.now counts.old counts.new) }
{
    text.extend_from_slice(line)?;
    push_count(text, counts.old)?;
    push_count(text, counts.new)?;
    text.extend_from_slice(b"\n")
}

// Returns the lines of `new` as text, each with its count in `old` and its own.
fn columns_text(
    alloc: Global,
    old: &LineCounts,
    new: &LineCounts,
    written: OldCounts,
    totals: CountPair,
) -> Result<Vec<u8>, AllocError>
    ensures { IfOk result (λ text. text.items
        ≡ flat_map (columns_of old.now (written_count written totals)) (counted_lines new.now)) }
{
    let mut text = Vec::new(alloc);
    'lines: for (line, count) in new.iter() {
        let counts = CountPair {
            old: written.written(old.count(line), totals),
            new: *count,
        };
        push_columns(&mut text, line.as_slice(), counts)?;
    }
    Ok(text)
}

// Returns the folded lines of two profiles as text.
fn paired_text(alloc: Global, compared: Comparison<'_>) -> Result<Vec<u8>, AllocError>
    ensures { IfOk result (λ text.
        IsPairedText compared.entry.old.now compared.entry.new.now compared.entry.counts text.items) }
{
    let old = line_counts(alloc, compared.old)?;
    let mut both = line_counts(alloc, compared.new)?;
    add_keys(&mut both, &old)?;
    let (_old, _both) = (old.iter(), both.iter()); // for the prover
    columns_text(alloc, &old, &both, compared.counts, compared.totals())
}

/// Writes the folded lines of two profiles, ascending by bytes, each with its count in the old one and in the
/// new one, which is 0 if the profile hasn't the line.
///
/// Fails if memory runs out or if the output can't be written.
pub fn write_paired_lines<W: Write>(
    alloc: Global,
    compared: Comparison<'_>,
    out: &mut W,
) -> io::Result<()>
    ensures { OnOk result ((text : List ℕ) × Appends (W.contents out.old) (W.contents out.new) text
        × IsPairedText compared.entry.old.now compared.entry.new.now compared.entry.counts text) }
{
    out.write_all(paired_text(alloc, compared)?.as_slice())
}

// Returns which row is first: that of the greater difference of shares.
fn by_distance(first: &DifferenceRow<'_>, second: &DifferenceRow<'_>) -> Ordering {
    let distances = (
        first.counts.distance(first.totals),
        second.counts.distance(second.totals),
    );
    let distance = distances.1.cmp(&distances.0);
    distance
        .then(first.name.cmp(second.name))
        .then(first.file.cmp(second.file))
}

// Returns the functions in the order of the table.
fn sorted_rows(
    alloc: Global,
    pairs: &PairedCounts,
    totals: CountPair,
) -> Result<Vec<DifferenceRow<'_>>, AllocError> {
    let mut sorted = Vec::new(alloc);
    for (text, counts) in pairs.pairs.iter() {
        let (name, file) = split_file(text.as_slice());
        if counts.old != 0 || counts.new != 0 {
            sorted.push(DifferenceRow {
                name,
                file,
                counts: *counts,
                totals,
            })?;
        }
    }
    sorted.sort_by(by_distance)?;
    Ok(sorted)
}

// Returns the sign and the size of a difference.
fn signed_difference(old: u64, new: u64) -> (&'static str, u64) {
    match new.cmp(&old) {
        Ordering::Greater => ("+", new - old),
        Ordering::Equal => ("", 0),
        Ordering::Less => ("-", old - new),
    }
}

// Appends the difference of two shares in points of a percent, with its sign.
pub(crate) fn push_points(line: &mut Vec<u8>, old: u64, new: u64) -> io::Result<()> {
    let (sign, points) = signed_difference(old, new);
    write!(line, "{sign}{}.{:02}", points / 100, points % 100)
}

// Appends a column of text with blanks before it.
fn push_column(line: &mut Vec<u8>, text: &[u8], width: usize) -> Result<(), AllocError> {
    for _ in text.len()..width {
        line.push(b' ')?;
    }
    line.extend_from_slice(text)
}

// Sets a line to a row, in which the column of functions has a width.
fn set_row(
    alloc: Global,
    line: &mut Vec<u8>,
    row: &DifferenceRow<'_>,
    written: OldCounts,
    width: usize,
) -> io::Result<()> {
    let DifferenceRow { counts, totals, .. } = *row;
    let (old, new) = counts.hundredths(totals);
    let mut points = Vec::new(alloc);
    push_points(&mut points, old, new)?;
    let (sign, size) = signed_difference(written.written(counts.old, totals), counts.new);
    let mut samples = Vec::new(alloc);
    write!(samples, "{sign}{size}")?;
    line.clear();
    write!(line, "{:>4}.{:02}%", old / 100, old % 100)?;
    write!(line, " {:>4}.{:02}%", new / 100, new % 100)?;
    push_column(line, points.as_slice(), 9)?;
    push_column(line, samples.as_slice(), 13)?;
    line.extend_from_slice(b"  ")?;
    push_name(line, row.name, width)?;
    Ok(line.extend_from_slice(row.file)?)
}

// Returns the functions of two profiles, with their counts in both.
fn paired_functions(
    alloc: Global,
    old: &Profile,
    new: &Profile,
) -> Result<PairedCounts, AllocError> {
    let mut pairs = PairedCounts::new(alloc);
    pairs.add_old_functions(old)?;
    pairs.add_new_functions(new)?;
    Ok(pairs)
}

// Returns the table of rows below a heading.
fn table_text(
    alloc: Global,
    shown: &[DifferenceRow<'_>],
    written: OldCounts,
    options: TableOptions<'_>,
) -> io::Result<Vec<u8>> {
    let widths = shown.iter().map(|row| character_count(row.name));
    let width = widths.filter(|width| *width <= WIDEST).max().unwrap_or(0);
    let (mut text, mut line) = (Vec::new(alloc), Vec::new(alloc));
    let unit = options.unit;
    write_line(options.heading, options.width, &mut text)?;
    write!(line, "{:>8} {:>8}{:>9}{unit:>13}  ", "old", "new", "points")?;
    push_name(&mut line, b"function", width)?;
    line.extend_from_slice(b"file")?;
    write_line(line.as_slice(), options.width, &mut text)?;
    for row in shown.iter() {
        set_row(alloc, &mut line, row, written, width)?;
        write_line(line.as_slice(), options.width, &mut text)?;
    }
    Ok(text)
}

/// Writes the functions of two profiles below a heading, those whose shares differ most first: the share of
/// the samples in each in the old profile and in the new one, the difference of these in points and in
/// samples, its name, and the name of its file. Functions with the same name and file are one.
///
/// Fails if memory runs out or if the output can't be written.
pub fn write_differences<W: Write>(
    alloc: Global,
    compared: Comparison<'_>,
    options: TableOptions<'_>,
    out: &mut W,
) -> io::Result<()>
    ensures { OnOk result ((text : List ℕ) × Appends (W.contents out.old) (W.contents out.new) text) }
{
    let pairs = paired_functions(alloc, compared.old, compared.new)?;
    let sorted = sorted_rows(alloc, &pairs, compared.totals())?;
    let count = options.rows.unwrap_or(sorted.len()).min(sorted.len());
    let text = table_text(alloc, &sorted[..count], compared.counts, options)?;
    out.write_all(text.as_slice())
}
