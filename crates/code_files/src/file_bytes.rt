//! The bytes of a file, or of memory of the same form.

use std::fs::File;
use std::io::{Cursor, Read, Result, Seek, SeekFrom};

/// The bytes of an ELF file.
#[derive(Drop)]
pub(crate) enum FileBytes {
    /// A file.
    File(File),
    /// Memory that was copied.
    Memory(Cursor<Vec<u8>>),
}

impl Read for FileBytes {
    fn read(&mut self, buf: &mut [u8]) -> Result<usize> {
        match self {
            FileBytes::File(file) => file.read(buf),
            FileBytes::Memory(bytes) => bytes.read(buf),
        }
    }
}

impl Seek for FileBytes {
    fn seek(&mut self, to: SeekFrom) -> Result<u64> {
        match self {
            FileBytes::File(file) => file.seek(to),
            FileBytes::Memory(bytes) => bytes.seek(to),
        }
    }
}
