//! Progress on standard error, if that is a terminal and the work lasts more than a second.
use std::io::{IsTerminal, Write};
use std::time::Instant;

// Number of records between two readings of the clock.
const RECORDS_PER_READING: u64 = 4096;

// Milliseconds between two lines of progress.
const INTERVAL: u128 = 1000;

/// The progress of reading an input.
#[derive(Drop)]
pub struct Progress<'a> {
    rt: &'a HostRuntime,
    /// When the last line was written or the work began; `None` if there are no lines.
    since: Option<Instant>,
    /// The size of the input in bytes, if it is known.
    size: Option<u64>,
    records: u64,
    is_shown: bool,
}

impl<'a> Progress<'a> {
    /// Starts the work on an input of this size.
    pub fn start(rt: &'a HostRuntime, size: Option<u64>) -> Progress<'a> {
        Progress::with_lines(rt, size, rt.stderr().is_terminal())
    }

    /// Starts the work on an input of this size. There is no progress if standard output is a terminal.
    pub fn beside_output(rt: &'a HostRuntime, size: Option<u64>) -> Progress<'a> {
        let has_lines = rt.stderr().is_terminal() && !rt.stdout().is_terminal();
        Progress::with_lines(rt, size, has_lines)
    }

    // Starts the work, with or without lines.
    fn with_lines(rt: &'a HostRuntime, size: Option<u64>, has_lines: bool) -> Progress<'a> {
        let since = if has_lines {
            Instant::now(rt).ok()
        } else {
            None
        };
        Progress {
            rt,
            since,
            size,
            records: 0,
            is_shown: false,
        }
    }

    /// Writes no lines, if no messages are wanted.
    pub fn unless_quiet(self, is_quiet: bool) -> Progress<'a> {
        Progress {
            since: self.since.filter(|_| !is_quiet),
            ..self
        }
    }

    /// Counts a record that ends this many bytes after the start of the records, and writes a line once a
    /// second.
    pub fn add_record(&mut self, end: u64) {
        self.records = self.records.wrapping_add(1);
        if self.records % RECORDS_PER_READING != 0 {
            return;
        }
        if self.is_due() {
            self.show(end);
        }
    }

    // Whether a second has passed since the last line. If it has, the next second begins.
    fn is_due(&mut self) -> bool {
        let Some(since) = self.since else {
            return false;
        };
        let Ok(now) = Instant::now(self.rt) else {
            return false;
        };
        let is_due = now.duration_since(since).as_millis() >= INTERVAL;
        if is_due {
            self.since = Some(now);
        }
        is_due
    }

    // Writes the line.
    fn show(&mut self, end: u64) {
        self.is_shown = true;
        let mut out = self.rt.stderr();
        let records = self.records;
        let _ = match self.size {
            Some(size) if end <= size => write!(out, "\r{end} of {size} bytes, {records} records"),
            _ => write!(out, "\r{end} bytes, {records} records"),
        };
    }

    /// Ends the line if there is one.
    pub fn finish(&self) {
        if self.is_shown {
            let _ = writeln!(self.rt.stderr());
        }
    }
}
