//! Paths of source files.

use std::alloc::AllocError;

/// The path of a source file. Its parts are joined, and not normalised.
#[derive(Clone, Copy, Debug)]
pub struct SourcePath<'a> {
    /// The directory that a relative directory is relative to, or nothing.
    pub compilation_directory: &'a [u8],
    /// The directory that a relative name is relative to, or nothing.
    pub directory: &'a [u8],
    /// The name of the file.
    pub name: &'a [u8],
}

// Whether a path starts at the root.
fn is_absolute(path: &[u8]) -> bool {
    match path {
        [b'/', ..] => true,
        _ => false,
    }
}

// Appends a directory with a slash behind it, unless there is none.
fn write_directory(directory: &[u8], output: &mut Vec<u8>) -> Result<(), AllocError> {
    if directory.is_empty() {
        return Ok(());
    }
    output.extend_from_slice(directory)?;
    output.push(b'/')?;
    Ok(())
}

impl SourcePath<'_> {
    /// Appends the path to a buffer.
    ///
    /// # Errors
    ///
    /// Returns `AllocError` if an allocation fails. Parts of the path may be in the buffer then.
    pub fn write_to(&self, output: &mut Vec<u8>) -> Result<(), AllocError> {
        if !is_absolute(self.name) {
            if !is_absolute(self.directory) {
                write_directory(self.compilation_directory, output)?;
            }
            write_directory(self.directory, output)?;
        }
        output.extend_from_slice(self.name)
    }
}
