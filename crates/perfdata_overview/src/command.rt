//! The recorded command.

use linux_perf_data::PerfFile;
use std::alloc::{AllocError, Global};

// The longest name of a thread.
const NAME_SIZE: usize = 15;

// Returns whether the file name of a word begins with the name of a thread: with all of it.
fn is_named(word: &str, name: &[u8]) -> bool {
    let file = word.rsplit('/').next().unwrap_or(word).as_bytes();
    file.get(..NAME_SIZE).unwrap_or(file) == name
}

// Returns words with a blank between them.
fn join(alloc: Global, words: &[&str]) -> Result<Vec<u8>, AllocError> {
    let mut text = Vec::new(alloc);
    for (index, word) in words.iter().enumerate() {
        if index != 0 {
            text.push(b' ')?;
        }
        text.extend_from_slice(word.as_bytes())?;
    }
    Ok(text)
}

/// Returns the command line of the recording, or nothing if the recording doesn't have it.
///
/// Fails if memory runs out.
pub fn command_line(alloc: Global, perf_file: &PerfFile) -> Result<Vec<u8>, AllocError> {
    match perf_file.cmdline(alloc) {
        Ok(Some(words)) => join(alloc, words.as_slice()),
        _ => Ok(Vec::new(alloc)),
    }
}

/// Returns the command that was recorded: the command line from the program on, if it was started by the
/// recorder. `program` is the name of the thread that executed it. Otherwise it is all of the command line.
///
/// Fails if memory runs out.
pub fn recorded_command(
    alloc: Global,
    perf_file: &PerfFile,
    program: Option<&[u8]>,
) -> Result<Vec<u8>, AllocError> {
    let Ok(Some(words)) = perf_file.cmdline(alloc) else {
        return Ok(Vec::new(alloc));
    };
    let start = match program {
        Some(name) => words
            .iter()
            .position(|word| is_named(word, name))
            .unwrap_or(0),
        None => 0,
    };
    join(alloc, words.get(start..).unwrap_or(&[]))
}
