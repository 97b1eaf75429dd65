//! The functions and source lines at an address, as the debugging information of its file has them.

use crate::options::SourceOptions;
use code_dwarf::{SourceFrame, SourceFrames};
use demangle::{Demangler, Style};
use perfdata_stacks::line::push_name;
use std::alloc::{AllocError, Global};
use std::collections::HashMap;
use std::io;
use std::io::Write;

// Where a text is among others.
#[derive(Clone, Copy)]
struct TextRange {
    start: usize,
    end: usize,
}

// No text.
const NOTHING: TextRange = TextRange { start: 0, end: 0 };

// A function at an address.
#[derive(Clone, Copy)]
struct FoundFunction {
    name: TextRange,
    path: TextRange,
    line: u32,
    column: u32,
}

/// A function at an address, and its source line there.
#[derive(Clone, Copy)]
pub(crate) struct SourceLine<'a> {
    /// The name as lines have it, or nothing.
    pub(crate) name: &'a [u8],
    /// The path of the file, or nothing.
    pub(crate) path: &'a [u8],
    /// The line, or 0.
    pub(crate) line: u32,
    /// The column, or 0.
    pub(crate) column: u32,
}

/// What demangles names.
#[derive(Drop)]
pub(crate) struct NameReader<'a> {
    /// The demangler.
    pub(crate) demangler: &'a mut Demangler,
    /// The style of the texts of mangled names, unless these stay.
    pub(crate) style: Option<Style>,
}

/// The functions and source lines at the address that was looked up last.
#[derive(Drop)]
pub(crate) struct SourceLines {
    alloc: Global,
    /// What is looked up.
    pub(crate) options: SourceOptions,
    /// The texts of names, one after another, and where that of each name is.
    names: Vec<u8>,
    ranges: HashMap<Vec<u8>, TextRange>,
    /// The paths of the files of the address.
    paths: Vec<u8>,
    /// The inlined functions, the innermost first.
    inlined: Vec<FoundFunction>,
    /// The function that they are inlined into.
    own: FoundFunction,
}

// A function of which nothing is known.
const UNKNOWN_FUNCTION: FoundFunction = FoundFunction {
    name: NOTHING,
    path: NOTHING,
    line: 0,
    column: 0,
};

// Returns the last two parts of a path.
fn short_path(path: &[u8]) -> &[u8] {
    let mut slashes = path.iter().enumerate().rev();
    let mut starts = slashes.filter(|(_, byte)| **byte == b'/');
    match starts.nth(1) {
        Some((index, _)) => path.get(index.saturating_add(1)..).unwrap_or(path),
        None => path,
    }
}

impl SourceLine<'_> {
    /// Returns whether the file is known.
    pub(crate) fn has_file(&self) -> bool {
        !self.path.is_empty()
    }

    /// Appends the last two parts of the path and the line, if the file is known.
    ///
    /// Fails if memory runs out.
    pub(crate) fn push_short(&self, text: &mut Vec<u8>) -> io::Result<()> {
        if !self.has_file() {
            return Ok(());
        }
        text.push(b' ')?;
        push_name(text, short_path(self.path))?;
        write!(text, ":{}", self.line)
    }

    /// Appends the path, the line and the column, if the file is known.
    ///
    /// Fails if memory runs out.
    pub(crate) fn push_whole(&self, text: &mut Vec<u8>) -> io::Result<()> {
        if !self.has_file() {
            return Ok(());
        }
        text.push(b' ')?;
        push_name(text, self.path)?;
        write!(text, ":{}:{}", self.line, self.column)
    }
}

impl SourceLines {
    /// Returns those of no address.
    pub(crate) fn new(alloc: Global, options: SourceOptions) -> SourceLines {
        SourceLines {
            alloc,
            options,
            names: Vec::new(alloc),
            ranges: HashMap::new(alloc),
            paths: Vec::new(alloc),
            inlined: Vec::new(alloc),
            own: UNKNOWN_FUNCTION,
        }
    }

    /// Removes those of the address that was looked up last.
    pub(crate) fn clear(&mut self) {
        self.paths.clear();
        self.inlined.clear();
        self.own = UNKNOWN_FUNCTION;
    }

    /// Returns the number of inlined functions.
    pub(crate) fn inlined_count(&self) -> usize {
        self.inlined.len()
    }

    // Returns the texts of a function.
    fn texts(&self, found: FoundFunction) -> SourceLine<'_> {
        SourceLine {
            name: self
                .names
                .get(found.name.start..found.name.end)
                .unwrap_or(&[]),
            path: self
                .paths
                .get(found.path.start..found.path.end)
                .unwrap_or(&[]),
            line: found.line,
            column: found.column,
        }
    }

    /// Returns a function by its index: an inlined one, the innermost first, or that which these are inlined
    /// into.
    pub(crate) fn get(&self, index: usize) -> SourceLine<'_> {
        self.texts(self.inlined.get(index).copied().unwrap_or(self.own))
    }

    // Appends the text of a name, demangled if it is mangled and has such a text. Returns where it is.
    fn push_text(
        &mut self,
        reader: &mut NameReader<'_>,
        name: &[u8],
    ) -> Result<TextRange, AllocError> {
        if let Some(range) = self.ranges.get(name) {
            return Ok(*range);
        }
        let has_text = match reader.style {
            Some(style) => reader.demangler.demangle(name, style)?,
            None => false,
        };
        let start = self.names.len();
        if has_text {
            push_name(&mut self.names, reader.demangler.text())?;
        } else {
            push_name(&mut self.names, name)?;
        }
        let range = TextRange {
            start,
            end: self.names.len(),
        };
        self.ranges.insert(name.to_vec(self.alloc)?, range)?;
        Ok(range)
    }

    // Appends the path of a function's file. Returns where it is.
    fn push_path(&mut self, frame: &SourceFrame<'_>) -> Result<TextRange, AllocError> {
        let Some(path) = frame.path.filter(|_| self.options.has_lines) else {
            return Ok(NOTHING);
        };
        let start = self.paths.len();
        path.write_to(&mut self.paths)?;
        Ok(TextRange {
            start,
            end: self.paths.len(),
        })
    }

    // Returns a function. Its name is that for linkers or, without one, that in the source.
    fn read_function(
        &mut self,
        reader: &mut NameReader<'_>,
        frame: &SourceFrame<'_>,
        has_name: bool,
    ) -> Result<FoundFunction, AllocError> {
        let name = match frame.linkage_name.or(frame.name) {
            Some(name) if has_name => self.push_text(reader, name)?,
            _ => NOTHING,
        };
        Ok(FoundFunction {
            name,
            path: self.push_path(frame)?,
            line: frame.line,
            column: frame.column,
        })
    }

    /// Reads the functions and lines of an address. Inlined functions without a name aren't read.
    /// `names_own` says whether the name of the function that they are inlined into is read.
    ///
    /// Fails if memory runs out.
    pub(crate) fn read(
        &mut self,
        mut reader: NameReader<'_>,
        frames: &SourceFrames<'_>,
        names_own: bool,
    ) -> Result<(), AllocError> {
        let Some(own) = frames.len().checked_sub(1) else {
            return Ok(());
        };
        let inlined = if self.options.has_inlined { own } else { 0 };
        for depth in 0..inlined {
            if let Some(frame) = frames.get(depth) {
                let found = self.read_function(&mut reader, &frame, true)?;
                if found.name.start != found.name.end {
                    self.inlined.push(found)?;
                }
            }
        }
        if let Some(frame) = frames.get(own) {
            self.own = self.read_function(&mut reader, &frame, names_own)?;
        }
        Ok(())
    }
}
