//! What kind of code the names of functions stand for.

use crate::names::NameId;
use std::alloc::{AllocError, Global};
use std::collections::HashMap;

/// What a frame is.
#[derive(Clone, Copy, Debug, PartialEq, Eq)]
pub enum FrameKind {
    /// The thread, in which all frames are.
    Thread,
    /// Code of a file that a process has mapped.
    User,
    /// Code of the kernel.
    Kernel,
    /// Code that a process generated.
    Generated,
    /// Code of which it isn't known where it is from.
    Unknown,
}

// The code of a function.
#[derive(Drop)]
struct FunctionCode {
    kind: FrameKind,
    /// The path of its file, or nothing.
    path: Vec<u8>,
    /// Whether it is inlined.
    is_inlined: bool,
    /// The path of its source file, or nothing.
    source: Vec<u8>,
    lines: LineRange,
}

/// The source lines of a function in which samples are.
#[derive(Clone, Copy, Debug, PartialEq, Eq)]
pub struct LineRange {
    /// The first one.
    pub first: u32,
    /// The last one.
    pub last: u32,
}

// No lines.
const NO_LINES: LineRange = LineRange { first: 0, last: 0 };

impl FunctionCode {
    // Adds a line of a source file, if it is that of the lines before.
    fn add_line(&mut self, source: &[u8], line: u32) -> Result<(), AllocError> {
        if self.source.is_empty() {
            self.source.extend_from_slice(source)?;
            self.lines = LineRange {
                first: line,
                last: line,
            };
        } else if self.source.as_slice() == source {
            self.lines = LineRange {
                first: self.lines.first.min(line),
                last: self.lines.last.max(line),
            };
        }
        Ok(())
    }
}

/// What code the functions with a name are. If it differs, it is that of the one that was found first.
#[derive(Drop)]
pub struct FunctionKinds {
    alloc: Global,
    by_name: HashMap<NameId, FunctionCode>,
}

impl FunctionKinds {
    /// Returns those of no functions.
    pub fn new(alloc: Global) -> FunctionKinds {
        FunctionKinds {
            alloc,
            by_name: HashMap::new(alloc),
        }
    }

    /// Adds what code the functions with a name are, and the path of their file, or nothing, unless the name
    /// was added before.
    ///
    /// Fails if memory runs out.
    pub fn insert(&mut self, name: NameId, kind: FrameKind, path: &[u8]) -> Result<(), AllocError> {
        if self.by_name.contains_key(&name) {
            return Ok(());
        }
        let path = path.to_vec(self.alloc)?;
        let code = FunctionCode {
            kind,
            path,
            is_inlined: false,
            source: Vec::new(self.alloc),
            lines: NO_LINES,
        };
        self.by_name.insert(name, code)?;
        Ok(())
    }

    /// Adds whether a function with a name is inlined, and a line of its source file in which a sample is.
    /// Lines of other source files than the first one aren't added.
    ///
    /// Fails if memory runs out.
    pub fn add_line(
        &mut self,
        name: NameId,
        is_inlined: bool,
        source: &[u8],
        line: u32,
    ) -> Result<(), AllocError> {
        match self.by_name.get_mut(&name) {
            Some(code) => {
                code.is_inlined = is_inlined;
                code.add_line(source, line)
            }
            None => Ok(()),
        }
    }

    /// Returns whether a function with a name is inlined.
    pub fn is_inlined(&self, name: NameId) -> bool {
        self.by_name.get(&name).is_some_and(|code| code.is_inlined)
    }

    /// Returns the path of the source file of a function with a name, or nothing, and the lines.
    pub fn source(&self, name: NameId) -> (&[u8], LineRange) {
        match self.by_name.get(&name) {
            Some(code) => (code.source.as_slice(), code.lines),
            None => (b"", NO_LINES),
        }
    }

    /// Returns what code a function with a name is.
    pub fn kind(&self, name: NameId) -> FrameKind {
        match self.by_name.get(&name) {
            Some(code) => code.kind,
            None => FrameKind::Unknown,
        }
    }

    /// Returns the path of the file of a function with a name, or nothing.
    pub fn path(&self, name: NameId) -> &[u8] {
        match self.by_name.get(&name) {
            Some(code) => code.path.as_slice(),
            None => b"",
        }
    }
}
