//! The functions and lines at an address.

use crate::debug_info::DebugInfo;
use crate::file::Unit;
use crate::forms::Value;
use crate::line_instruction::Registers;
use crate::line_program::LineProgram;
use crate::line_tables::TableEntry;
use crate::names::{EntryLocation, FunctionNames};
use crate::paths::SourcePath;
use crate::roots::Root;

/// A function at an address, or one that was copied into it.
#[derive(Clone, Copy, Debug)]
pub struct SourceFrame<'a> {
    /// The name for linkers, which is mangled.
    pub linkage_name: Option<&'a [u8]>,
    /// The name in the source.
    pub name: Option<&'a [u8]>,
    /// The file.
    pub path: Option<SourcePath<'a>>,
    /// The line, from 1 on, or 0 if it isn't known.
    pub line: u32,
    /// The column, from 1 on, or 0 if it isn't known.
    pub column: u32,
}

/// The functions and lines at an address, the innermost first.
#[derive(Clone, Copy)]
pub struct SourceFrames<'a> {
    pub(crate) info: &'a DebugInfo,
    // The index of the unit.
    pub(crate) unit: usize,
    pub(crate) row: Option<Registers>,
    // The nodes of the functions, the innermost first.
    pub(crate) chain: &'a [usize],
}

// Where a frame is in the source.
#[derive(Clone, Copy)]
struct SourcePosition {
    file: Option<u64>,
    line: u32,
    column: u32,
}

impl<'a> SourceFrames<'a> {
    /// Returns the number of functions at the address, or 1 if only a line is known.
    pub fn len(&self) -> usize {
        if self.chain.is_empty() && self.row.is_some() {
            1
        } else {
            self.chain.len()
        }
    }

    /// Returns whether nothing is known of the address.
    pub fn is_empty(&self) -> bool {
        self.len() == 0
    }

    /// Returns a frame, or `None` if there are fewer. The frame with depth 0 is the innermost.
    pub fn get(&self, depth: usize) -> Option<SourceFrame<'a>> {
        if depth >= self.len() {
            return None;
        }
        let position = self.position(depth);
        let names = self.names(depth);
        Some(SourceFrame {
            linkage_name: names.linkage_name,
            name: names.name,
            path: self.path(position.file),
            line: position.line,
            column: position.column,
        })
    }

    // Where a frame is in the source: the row, or where the next inner function is called.
    fn position(&self, depth: usize) -> SourcePosition {
        match depth.checked_sub(1) {
            None => self.row_position(),
            Some(inner) => self.call_position(inner),
        }
    }

    // Where the row is.
    fn row_position(&self) -> SourcePosition {
        match self.row {
            Some(row) => SourcePosition {
                file: Some(row.file),
                line: row.line,
                column: u32::try_from(row.column).unwrap_or(0),
            },
            None => SourcePosition {
                file: None,
                line: 0,
                column: 0,
            },
        }
    }

    // Where the function with a depth is called.
    fn call_position(&self, depth: usize) -> SourcePosition {
        match self.chain.get(depth) {
            Some(index) => match self.info.function_node(self.unit, *index) {
                Some(node) => SourcePosition {
                    file: node.call_file,
                    line: node.call_line,
                    column: node.call_column,
                },
                None => NOWHERE,
            },
            None => NOWHERE,
        }
    }

    // The names of the function with a depth.
    fn names(&self, depth: usize) -> FunctionNames<'a> {
        match self.location(depth) {
            Some(location) => location.names(),
            None => FunctionNames {
                linkage_name: None,
                name: None,
            },
        }
    }

    // Where the entry of the function with a depth is.
    fn location(&self, depth: usize) -> Option<EntryLocation<'a>> {
        let node = self.info.function_node(self.unit, *self.chain.get(depth)?)?;
        Some(EntryLocation {
            files: self.info.files(),
            unit: *self.unit()?,
            offset: node.entry,
        })
    }

    // The unit.
    fn unit(&self) -> Option<&'a Unit> {
        self.info.files().main.units.get(self.unit)
    }

    // The path of the file with an index.
    fn path(&self, file: Option<u64>) -> Option<SourcePath<'a>> {
        let file = file?;
        let program = self.info.line_program(self.unit)?;
        let root = self.info.root(self.unit)?;
        let section = &self.info.files().main.sections.line;
        let entry = program.file(section, file)?;
        let name = self.string(program, root, entry.path?)?;
        if name.is_empty() {
            return None;
        }
        let compilation_directory = self.compilation_directory(root);
        match program.directory(section, entry.directory) {
            Some(directory) => Some(SourcePath {
                compilation_directory,
                directory: self.directory(program, root, &directory),
                name,
            }),
            None => Some(SourcePath {
                compilation_directory: &[],
                directory: compilation_directory,
                name,
            }),
        }
    }

    // The string of a value in the header of a line program.
    fn string(&self, program: &LineProgram, root: &Root, value: Value) -> Option<&'a [u8]> {
        let files = self.info.files();
        let file = files.main;
        let encoding = program.header().encoding;
        let bases = root.bases;
        files.string(value, &file.sections.line, &encoding, &bases)
    }

    // The compilation directory, or nothing.
    fn compilation_directory(&self, root: &Root) -> &'a [u8] {
        let (Some(value), Some(unit)) = (root.directory, self.unit()) else {
            return &[];
        };
        let files = self.info.files();
        let file = files.main;
        let encoding = file.encoding(unit);
        let bases = root.bases;
        files
            .string(value, &file.sections.info, &encoding, &bases)
            .unwrap_or(&[])
    }

    // The path of a directory, or nothing.
    fn directory(&self, program: &LineProgram, root: &Root, entry: &TableEntry) -> &'a [u8] {
        match entry.path {
            Some(value) => self.string(program, root, value).unwrap_or(&[]),
            None => &[],
        }
    }
}

// A position that isn't known.
const NOWHERE: SourcePosition = SourcePosition {
    file: None,
    line: 0,
    column: 0,
};
