//! The records of a data section from the first compressed one on, kept while they are measured.
ghost use Rattle.std.specs.Prelude.{◌≤◌, length};

use crate::content::copy_from_index;
use std::alloc::Global;

// The size in bytes of each piece but the last.
const PIECE_SIZE: usize = 1 << 18;

// The largest number of pieces: 8 MiB are kept.
const MAX_PIECES: usize = 32;

/// The bytes of all records from a position on, in pieces, unless they are too many, or memory for them ran
/// out. Those that were read are freed.
#[derive(Drop)]
pub(crate) struct KeptRecords {
    alloc: Global,
    // The position of the first byte. Those before are in the file as they are.
    start: u64,
    // A piece that was freed has no bytes.
    pieces: Vec<Vec<u8>>,
    is_complete: bool,
}

impl KeptRecords {
    /// The bytes of no record.
    pub(crate) fn new(alloc: Global) -> KeptRecords {
        KeptRecords {
            alloc,
            start: 0,
            pieces: Vec::new(alloc),
            is_complete: true,
        }
    }

    /// The position of the first byte.
    pub(crate) fn start(&self) -> u64 {
        self.start
    }

    /// Whether all bytes from there on are kept.
    pub(crate) fn is_complete(&self) -> bool {
        self.is_complete
    }

    /// Skips bytes of records before the first compressed one.
    pub(crate) fn skip(&mut self, count: usize) {
        self.start = self.start.saturating_add(count as u64);
    }

    /// Adds bytes of records.
    pub(crate) fn add(&mut self, bytes: &[u8]) {
        let mut rest = bytes;
        for _ in 0..bytes.len() {
            if rest.is_empty() || !self.is_complete {
                return;
            }
            match self.add_to_piece(rest) {
                Some(after) => rest = after,
                None => self.forget(),
            }
        }
    }

    // Adds bytes to the last piece, or to a new one if it is full. Returns those that it has no space for.
    // There is no space at all if there are too many pieces, or memory ran out.
    fn add_to_piece<'a>(&mut self, bytes: &'a [u8]) -> Option<&'a [u8]> {
        let count = self.pieces.len();
        let is_full = match self.pieces.last() {
            Some(piece) => piece.len() >= PIECE_SIZE,
            None => true,
        };
        if is_full {
            if count >= MAX_PIECES {
                return None;
            }
            self.pieces.push(Vec::new(self.alloc)).ok()?;
        }
        let piece = self.pieces.last_mut()?;
        let space = PIECE_SIZE.saturating_sub(piece.len());
        let (added, rest) = bytes.split_at(space.min(bytes.len()));
        piece.extend_from_slice(added).ok()?;
        Some(rest)
    }

    /// Frees the bytes, and keeps none from now on.
    pub(crate) fn forget(&mut self) {
        self.is_complete = false;
        self.pieces = Vec::new(self.alloc);
    }

    // The piece with the byte at a position, and the index of the byte in it.
    fn place(&self, position: u64) -> (usize, u64) {
        let index = position.saturating_sub(self.start);
        let piece = usize::try_from(index / PIECE_SIZE as u64).unwrap_or(usize::MAX);
        (piece, index % PIECE_SIZE as u64)
    }

    /// Whether no record has to be read again for the byte at a position.
    pub(crate) fn has(&self, position: u64) -> bool {
        let (piece, _) = self.place(position);
        let is_freed = match self.pieces.get(piece) {
            Some(bytes) => bytes.is_empty(),
            None => false,
        };
        self.is_complete && (position < self.start || !is_freed)
    }

    /// Copies bytes from a position on, as many as there are in a piece. Frees the last piece but one before.
    pub(crate) fn take(&mut self, position: u64, buf: &mut [u8]) -> usize
        ensures bound { result ≤ length buf.new }
    {
        let (piece, index) = self.place(position);
        if let Some(before) = piece.checked_sub(2)
            && let Some(bytes) = self.pieces.get_mut(before)
        {
            *bytes = Vec::new(self.alloc);
        }
        match self.pieces.get(piece) {
            Some(bytes) => copy_from_index(bytes, index, buf),
            None => 0,
        }
    }
}
