//! The first line of the text of a sample.

use crate::layout::TextFields;
use std::alloc::AllocError;
use std::io;
use std::io::Write;

// The width of the name of a thread in the text of a sample without a chain.
const THREAD_WIDTH: usize = 16;

// The number of nanoseconds of a second, and of a microsecond.
const SECOND: u64 = 1_000_000_000;

const MICROSECOND: u64 = 1_000;

/// What the first line of the text of a sample says.
#[derive(Clone, Copy, Debug)]
pub struct SampleHead<'a> {
    /// Which fields the line has.
    pub fields: TextFields,
    /// The name of the thread.
    pub thread: &'a [u8],
    /// The id of the thread.
    pub tid: i32,
    /// The processor.
    pub cpu: Option<u32>,
    /// The time in nanoseconds.
    pub time: Option<u64>,
    /// The number of events since the previous sample.
    pub period: u64,
    /// The name of the event.
    pub event: &'a [u8],
    /// The width of the name of an event.
    pub event_width: usize,
}

// Appends a name with blanks before it, up to a width.
fn push_right_aligned(text: &mut Vec<u8>, name: &[u8], width: usize) -> Result<(), AllocError> {
    for _ in name.len()..width {
        text.push(b' ')?;
    }
    text.extend_from_slice(name)
}

// Appends a processor. One that a sample doesn't have is -1.
fn push_cpu(text: &mut Vec<u8>, cpu: Option<u32>) -> io::Result<()> {
    match cpu {
        Some(cpu) => write!(text, "[{cpu:03}] "),
        None => write!(text, "[-01] "),
    }
}

// Appends a time, cut to microseconds. One that a sample doesn't have is 2^64 - 1 nanoseconds.
fn push_time(text: &mut Vec<u8>, time: Option<u64>) -> io::Result<()> {
    let time = time.unwrap_or(u64::MAX);
    write!(
        text,
        "{:>5}.{:06}: ",
        time / SECOND,
        time % SECOND / MICROSECOND
    )
}

/// Appends the first line of the text of a sample, without what ends it.
///
/// Fails if memory runs out.
pub fn push_head(text: &mut Vec<u8>, head: &SampleHead<'_>) -> io::Result<()> {
    let fields = head.fields;
    let width = if fields.chain { 0 } else { THREAD_WIDTH };
    push_right_aligned(text, head.thread, width)?;
    text.push(b' ')?;
    if fields.tid {
        write!(text, "{:>5} ", head.tid)?;
    }
    if fields.cpu {
        push_cpu(text, head.cpu)?;
    }
    if fields.time {
        push_time(text, head.time)?;
    }
    if fields.period {
        write!(text, "{:>10} ", head.period)?;
    }
    push_right_aligned(text, head.event, head.event_width)?;
    Ok(text.extend_from_slice(b": ")?)
}
