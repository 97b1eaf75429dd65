//! A text that is written as it comes.

use std::fs::File;
use std::io::Write;
use std::{fs, io};

// The number of bytes of a text from which on it is written.
const PART_SIZE: usize = 1 << 16;

/// Where a text is written: standard output, or a file beside the one at a path, which it then replaces.
#[derive(Drop)]
pub struct TextOutput<'a> {
    rt: &'a HostRuntime,
    path: Option<&'a str>,
    /// The file, once there is text.
    file: Option<File>,
}

impl<'a> TextOutput<'a> {
    /// Returns the output to a path, or to standard output.
    pub fn new(rt: &'a HostRuntime, path: Option<&'a str>) -> TextOutput<'a> {
        TextOutput {
            rt,
            path,
            file: None,
        }
    }

    // Returns the path of the file beside the one at a path.
    fn part_path(&self, path: &str) -> io::Result<String> {
        Ok(format!(in self.rt.alloc(); "{path}.part")?)
    }

    // Writes a text.
    fn write(&mut self, text: &[u8]) -> io::Result<()> {
        let Some(path) = self.path else {
            let mut stdout = self.rt.stdout();
            return stdout.write_all(text);
        };
        if self.file.is_none() {
            self.file = Some(File::create(self.rt, self.part_path(path)?.as_str())?);
        }
        match &mut self.file {
            Some(file) => file.write_all(text),
            None => Ok(()),
        }
    }

    // Writes a text, and replaces the file if there is any text.
    fn write_last(&mut self, text: &[u8]) -> io::Result<()> {
        if !text.is_empty() {
            self.write(text)?;
        }
        match (self.path, &self.file) {
            (Some(path), Some(_)) => fs::rename(self.rt, self.part_path(path)?.as_str(), path),
            _ => Ok(()),
        }
    }

    /// Removes the file that isn't whole, if there is one.
    pub fn remove(&self) {
        if let (Some(path), Some(_)) = (self.path, &self.file)
            && let Ok(part) = self.part_path(path)
        {
            let _ = fs::remove_file(self.rt, part.as_str());
        }
    }

    /// Writes a text and clears it, if it is long. Fails if it can't be written, and removes the file that
    /// isn't whole.
    pub fn add(&mut self, text: &mut Vec<u8>) -> io::Result<()> {
        if text.len() < PART_SIZE {
            return Ok(());
        }
        let written = self.write(text.as_slice());
        text.clear();
        if written.is_err() {
            self.remove();
        }
        written
    }

    /// Writes the rest of a text. Without any text nothing is written, and no file is replaced. Fails if the
    /// text can't be written, and removes the file that isn't whole.
    pub fn finish(mut self, text: &[u8]) -> io::Result<()> {
        let written = self.write_last(text);
        if written.is_err() {
            self.remove();
        }
        written
    }
}
