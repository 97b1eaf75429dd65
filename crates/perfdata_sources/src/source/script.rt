//! A scripted source for tests.
ghost use Rattle.std.specs.Prelude.{◌≡◌, ◌≤◌, [], vec_len, refl};
ghost use Rattle.std.proofs.lemmas.Bool.{false≢true};

use crate::source::slices::copy_from_offset;
use crate::source::{NOT_BUFFERED, PlacedSource, Source};
use std::io::{Cursor, Error, ErrorKind, Result, SeekFrom};

/// The effect of one read of a [`Script`].
#[derive(Clone, Copy, Debug)]
pub enum Step {
    /// Returns at most this number of the shown bytes.
    Give(usize),
    /// Returns 0 bytes.
    Pause,
    /// Fails with an error of this kind.
    Fault(ErrorKind),
    /// Shows this number of bytes more, at most all, and continues with the next step.
    Grow(usize),
}

// The seeks that fail, by their numbers.
#[derive(Drop)]
enum SeekErrors {
    // Each of these seeks fails with an error of kind `Other`.
    Other(Vec<u64>),
    Kinds(Vec<(u64, ErrorKind)>),
}

impl SeekErrors {
    // The kind of the error of the seek with this number.
    fn kind_of(&self, number: u64) -> Option<ErrorKind> {
        match self {
            SeekErrors::Other(numbers) => numbers.contains(&number).then_some(ErrorKind::Other),
            SeekErrors::Kinds(errors) => {
                for (failing, kind) in errors {
                    if *failing == number {
                        return Some(*kind);
                    }
                }
                None
            }
        }
    }
}

/// A source for tests that shows a growing prefix of its bytes. A script decides which reads return bytes,
/// pause or fail, and which seeks fail.
///
/// Each read into a buffer that isn't empty performs the next step. After the last step a read returns all
/// shown bytes that fit.
#[derive(Drop)]
pub struct Script {
    bytes: Vec<u8>,
    shown: usize,
    position: u64,
    steps: Vec<Step>,
    next_step: usize,
    seek_errors: SeekErrors,
    seek_count: u64,
    errors: u64,
    pauses: u64,
    ghost shown_within_bytes: { shown ≤ vec_len bytes },
}

impl Script {
    ghost use Rattle.perfdata_sources.specs.Script.{script_state, unread_script_state};

    /// Makes a source of `bytes` that shows the first `shown` of them, at most all.
    ///
    /// A seek fails with an error of kind [`ErrorKind::Other`] if its number is in `seek_faults`. The first
    /// seek has number 0.
    pub fn new(bytes: Vec<u8>, shown: usize, steps: Vec<Step>, seek_faults: Vec<u64>) -> Script
        ensures { script_state result ≡ unread_script_state bytes.items }
    {
        Script::failing(bytes, shown, steps, SeekErrors::Other(seek_faults))
    }

    /// Makes a source of `bytes` that shows the first `shown` of them, at most all.
    ///
    /// A seek fails if its number is in `seek_errors`, with an error of the kind that is paired with the
    /// number. The first seek has number 0. If a number is there twice, its first kind counts.
    pub fn with_seek_errors(
        bytes: Vec<u8>,
        shown: usize,
        steps: Vec<Step>,
        seek_errors: Vec<(u64, ErrorKind)>,
    ) -> Script
        ensures { script_state result ≡ unread_script_state bytes.items }
    {
        Script::failing(bytes, shown, steps, SeekErrors::Kinds(seek_errors))
    }

    // Makes a source whose seeks fail according to `seek_errors`.
    fn failing(bytes: Vec<u8>, shown: usize, steps: Vec<Step>, seek_errors: SeekErrors) -> Script
        ensures { script_state result ≡ unread_script_state bytes.items }
    {
        let shown = shown.min(bytes.len());
        Script {
            bytes,
            shown,
            position: 0,
            steps,
            next_step: 0,
            seek_errors,
            seek_count: 0,
            errors: 0,
            pauses: 0,
        }
    }

    // Performs the `Grow` steps before the next read. Returns the maximum number of bytes of that read, or
    // the kind of its error.
    fn next_read_limit(&mut self) -> std::result::Result<usize, ErrorKind>
        ensures { script_state self.new ≡ script_state self.old }
    {
        'growths: while self.next_step < self.steps.len() {
            let step = self.steps[self.next_step];
            self.next_step += 1;
            match step {
                Step::Give(most) => return Ok(most),
                Step::Pause => return Ok(0),
                Step::Fault(kind) => return Err(kind),
                Step::Grow(count) => {
                    self.shown = self.shown.saturating_add(count).min(self.bytes.len());
                }
            }
        }
        Ok(usize::MAX)
    }
}

impl Source for Script {
    ghost use Rattle.perfdata_sources.specs.Script.{script_state};

    ghost state = { script_state };

    ghost loan = { λ _. 0 };

    ghost buffered = { λ _. [] };

    fn read_front(&mut self, place: &mut [u8]) -> Result<usize> {
        if place.is_empty() {
            return Ok(0);
        }
        let most = match self.next_read_limit() {
            Ok(most) => most.min(place.len()),
            Err(kind) => {
                self.errors = self.errors.saturating_add(1);
                return Err(Error::from(kind));
            }
        };
        let count = copy_from_offset(&self.bytes[..self.shown], self.position, &mut place[..most]);
        if count == 0 {
            self.pauses = self.pauses.saturating_add(1);
            return Ok(0);
        }
        self.position += count as u64;
        Ok(count)
    }

    fn buffer(&self) -> &[u8] {
        NOT_BUFFERED
    }

    ghost steady_can_count = { λ _ steady. absurd (false≢true steady) };
}

impl PlacedSource for Script {
    fn seek_to(&mut self, to: SeekFrom) -> Result<u64> {
        let position = self.position;
        let number = self.seek_count;
        self.seek_count = self.seek_count.saturating_add(1);
        if let Some(kind) = self.seek_errors.kind_of(number) {
            self.errors = self.errors.saturating_add(1);
            return Err(Error::from(kind));
        }
        let mut shown = Cursor::new(&self.bytes[..self.shown]);
        shown.set_position(position);
        let at = shown.seek_to(to)?;
        self.position = at;
        Ok(at)
    }

    ghost remaining_from_position = { λ _. refl };
}
