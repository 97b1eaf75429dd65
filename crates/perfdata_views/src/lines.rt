//! The folded lines of a profile.

ghost use Rattle.std.specs.Prelude.{◌≡◌, ◌+◌, ◌^◌, ◌<◌, [], ◌∷◌, ◌++◌, List, map, IfOk, OnOk};
ghost use Rattle.std.specs.Fmt.{signed_decimal};
ghost use Rattle.perfdata_profile.specs.Profiles.{lists_of};
ghost use Rattle.perfdata_profile.specs.Values.{sample_value, thread_key};
ghost use Rattle.perfdata_views.specs.Counts.{Added, Counts, counted_lines, sum_of_counts};
ghost use Rattle.perfdata_views.specs.Entries.{entries_in, total_weight};
ghost use Rattle.perfdata_views.specs.Lines.{AreLinesOf, id_text, line_of, thread_text};
ghost use Rattle.perfdata_views.specs.steps.Lines.{added_of};

use crate::counts::{LineCountError, LineCounts};
use crate::entries::{find_entry, find_functions, find_name};
use itoa::Buffer;
use perfdata_profile::interned::Interned;
use perfdata_profile::profile::Profile;
use perfdata_profile::sums::{SampleKey, Thread};
use perfdata_stacks::line::push_comm;
use std::alloc::{AllocError, Global};
use std::io;
use std::io::Write;

// Appends a byte and a number.
fn push_number(line: &mut Vec<u8>, before: u8, number: i32) -> Result<(), AllocError>
    ensures { OnOk result (line.new.items ≡ line.old.items ++ before ∷ signed_decimal number) }
{
    line.push(before)?;
    let mut buffer = Buffer::new();
    line.extend_from_slice(buffer.format(number).as_bytes())
}

// Appends a byte and a number, if there is one.
fn push_id(line: &mut Vec<u8>, before: u8, id: Option<i32>) -> Result<(), AllocError>
    ensures { OnOk result (line.new.items ≡ line.old.items ++ id_text before id) }
{
    match id {
        Some(number) => push_number(line, before, number),
        None => Ok(()),
    }
}

/// Appends the name of a thread and its ids, if they are distinguished.
///
/// Fails if memory runs out.
pub fn push_thread(line: &mut Vec<u8>, tables: &Interned, thread: Thread) -> Result<(), AllocError>
    ensures { OnOk result (line.new.items
        ≡ line.old.items ++ thread_text (thread_key (lists_of tables.now) thread)) }
{
    push_comm(line, find_name(tables, thread.name))?;
    push_id(line, b'-', thread.pid)?;
    push_id(line, b'/', thread.tid)
}

// Appends the line of samples with a key.
fn push_line(
    alloc: Global,
    line: &mut Vec<u8>,
    tables: &Interned,
    key: &SampleKey,
) -> Result<(), AllocError>
    ensures { OnOk result (line.new.items
        ≡ line.old.items ++ line_of (sample_value (lists_of tables.now) key.now)) }
{
    push_thread(line, tables, key.thread)?;
    let names = find_functions(alloc, tables, key.stack)?;
    let functions = names.as_slice();
    'frames: for index in (0..functions.len()).rev() {
        line.push(b';')?;
        line.extend_from_slice(find_name(tables, functions[index]))?;
    }
    Ok(())
}

/// Adds a weight to the number of a line.
///
/// Fails if memory runs out.
pub(crate) fn add_line(counts: &mut LineCounts, line: &[u8], weight: u64) -> Result<(), AllocError>
    requires { sum_of_counts counts.old + weight < 2 ^ 64 }
    ensures { OnOk result ((added : List Added) → Counts added counts.old →
        Counts (added ++ record { line = line.now; weight = weight } ∷ []) counts.new) }
{
    match counts.add(line, weight) {
        Ok(()) => Ok(()),
        Err(LineCountError::Memory) => Err(AllocError),
        Err(LineCountError::Overflow) => unreachable!(),
    }
}

/// Returns the lines of the entries of a profile, counted with their weights.
///
/// Fails if memory runs out.
pub(crate) fn line_counts(alloc: Global, profile: &Profile) -> Result<LineCounts, AllocError>
    ensures { IfOk result (λ counts. Counts (map added_of (entries_in profile.now)) counts) }
{
    let _total = profile.sums.total().weight; // for the prover
    let mut counts = LineCounts::new(alloc);
    let mut line = Vec::new(alloc);
    'entries: for index in 0..profile.sums.len() {
        let (key, sums) = find_entry(&profile.sums, index);
        line.clear();
        push_line(alloc, &mut line, &profile.tables, &key)?;
        add_line(&mut counts, line.as_slice(), sums.weight)?;
    }
    Ok(counts)
}

/// Returns the lines of a profile with the sums of their weights, ascending by bytes. Each entry is in one
/// line: its thread, then the names of its functions, the root's first, with semicolons between them.
///
/// Fails if memory runs out.
pub fn lines(alloc: Global, profile: &Profile) -> Result<LineCounts, AllocError>
    ensures lines { IfOk result (λ counts. AreLinesOf (entries_in profile.now) (counted_lines counts)) }
    ensures total { IfOk result (λ counts. sum_of_counts counts ≡ total_weight profile.now) }
{
    let counts = line_counts(alloc, profile)?;
    let _lines = counts.iter(); // for the prover
    Ok(counts)
}

/// Writes the lines of a profile with the sums of their weights.
///
/// Fails if memory runs out or if the output can't be written.
pub fn write_lines<W: Write>(alloc: Global, profile: &Profile, out: &mut W) -> io::Result<()> {
    for (line, count) in lines(alloc, profile)?.iter() {
        out.write_all(line.as_slice())?;
        writeln!(out, " {count}")?;
    }
    Ok(())
}
