//! The functions of a unit, and the functions that were copied into them, by address.
ghost use Rattle.std.specs.Prelude.{◌<◌, length, IfOk};

use crate::entries::{
    CALL_COLUMN, CALL_FILE, CALL_LINE, Entry, HIGH_PC, INLINED_SUBROUTINE, LOW_PC, RANGES,
    SUBPROGRAM, read_entry,
};
use crate::error::DwarfError;
use crate::file::Unit;
use crate::forms::{Encoding, Value, read_value};
use crate::intervals::{Intervals, NodeRange};
use crate::ranges::{AddressRange, RangeContext};
use std::alloc::{AllocError, Global};

// The largest number of open entries.
const MAX_DEPTH: usize = 1024;

// The largest number of open entries of inlined functions.
const MAX_INLINED: usize = 128;

// The node that functions are children of.
pub(crate) const UNIT_NODE: usize = 0;

// A function, or one that was copied into another one.
#[derive(Clone, Copy)]
pub(crate) struct FunctionNode {
    // The offset of the entry in the section.
    pub(crate) entry: usize,
    // Where it is called, if it was copied.
    pub(crate) call_file: Option<u64>,
    pub(crate) call_line: u32,
    pub(crate) call_column: u32,
}

// The functions of a unit.
#[derive(Drop)]
pub(crate) struct UnitFunctions {
    // The first node is the unit.
    nodes: Vec<FunctionNode>,
    intervals: Intervals,
}

// An entry whose children are being read.
#[derive(Clone, Copy)]
struct OpenEntry {
    // The node of the function that the children are in, or `None` if it has no code.
    node: Option<usize>,
    // The number of inlined functions that the children are in.
    inlined: usize,
}

// What is read of a unit.
#[derive(Drop)]
struct FunctionReader {
    nodes: Vec<FunctionNode>,
    ranges: Vec<NodeRange>,
    open: Vec<OpenEntry>,
    // The ranges of one entry.
    buffer: Vec<AddressRange>,
    // The number of entries of range lists that may still be read.
    budget: usize,
}

// The values of the attributes of an entry that say where its code is and where it is called.
#[derive(Clone, Copy)]
struct FunctionValues {
    low: Option<Value>,
    high: Option<Value>,
    ranges: Option<Value>,
    call_file: Option<Value>,
    call_line: Option<Value>,
    call_column: Option<Value>,
}

// The values of an entry without such attributes.
const NO_VALUES: FunctionValues = FunctionValues {
    low: None,
    high: None,
    ranges: None,
    call_file: None,
    call_line: None,
    call_column: None,
};

impl FunctionValues {
    // Sets the value of an attribute, unless an earlier one has the same name.
    fn add(&mut self, name: u64, value: Value) {
        let value = Some(value);
        match name {
            LOW_PC => self.low = self.low.or(value),
            HIGH_PC => self.high = self.high.or(value),
            RANGES => self.ranges = self.ranges.or(value),
            CALL_FILE => self.call_file = self.call_file.or(value),
            CALL_LINE => self.call_line = self.call_line.or(value),
            CALL_COLUMN => self.call_column = self.call_column.or(value),
            _ => {}
        }
    }

    // The values of an entry up to one that can't be read.
    fn read(entry: &Entry<'_>, encoding: &Encoding) -> FunctionValues {
        let mut values = NO_VALUES;
        let mut rest = entry.values;
        'attributes: for attribute in entry.attributes {
            let Ok((value, after)) = read_value(attribute, rest, encoding) else {
                break;
            };
            values.add(attribute.name, value);
            rest = after;
        }
        values
    }
}

// The number that a value is, if it is a constant.
fn constant(value: Option<Value>) -> Option<u64> {
    match value? {
        Value::Constant(number) => Some(number),
        _ => None,
    }
}

// The number in a constant, or 0 if there is none or it doesn't fit.
fn small_number(value: Option<Value>) -> u32 {
    u32::try_from(constant(value).unwrap_or(0)).unwrap_or(0)
}

// The node of an entry at an offset.
fn function_node(values: &FunctionValues, offset: usize) -> FunctionNode {
    FunctionNode {
        entry: offset,
        call_file: constant(values.call_file),
        call_line: small_number(values.call_line),
        call_column: small_number(values.call_column),
    }
}

impl FunctionReader {
    // The open entry that is the parent of the next entry.
    fn parent(&self) -> OpenEntry {
        self.open.last().copied().unwrap_or(OpenEntry {
            node: None,
            inlined: 0,
        })
    }

    // Reads the ranges of an entry, and adds a node for it if it has any. `parent` is the node that it is a
    // child of.
    fn add_node(
        &mut self,
        context: &RangeContext<'_>,
        entry: &Entry<'_>,
        offset: usize,
        parent: usize,
    ) -> Result<Option<usize>, DwarfError> {
        let values = FunctionValues::read(entry, &context.encoding);
        self.buffer.clear();
        let read = context.add_ranges(
            values.low,
            values.high,
            values.ranges,
            &mut self.budget,
            &mut self.buffer,
        );
        let node = self.nodes.len();
        'ranges: for range in &self.buffer {
            self.ranges.push(NodeRange {
                parent,
                start: range.start,
                end: range.end,
                node,
            })?;
        }
        if self.buffer.is_empty() {
            read?;
            return Ok(None);
        }
        self.nodes.push(function_node(&values, offset))?;
        read?;
        Ok(Some(node))
    }

    // The open entry that an entry would be, after a node is added for it if it is a function.
    fn add_entry(
        &mut self,
        context: &RangeContext<'_>,
        entry: &Entry<'_>,
        offset: usize,
    ) -> Result<OpenEntry, DwarfError> {
        let parent = self.parent();
        match entry.tag {
            SUBPROGRAM => Ok(OpenEntry {
                node: self.add_node(context, entry, offset, UNIT_NODE)?,
                inlined: parent.inlined,
            }),
            INLINED_SUBROUTINE => {
                if parent.inlined >= MAX_INLINED {
                    return Err(DwarfError::TooDeep);
                }
                let node = match parent.node {
                    Some(node) => self.add_node(context, entry, offset, node)?,
                    None => None,
                };
                Ok(OpenEntry {
                    node,
                    inlined: parent.inlined.saturating_add(1),
                })
            }
            _ => Ok(parent),
        }
    }

    // Opens an entry.
    fn push(&mut self, entry: OpenEntry) -> Result<(), DwarfError> {
        if self.open.len() >= MAX_DEPTH {
            return Err(DwarfError::TooDeep);
        }
        self.open.push(entry)?;
        Ok(())
    }

    // Reads the entry that the bytes start with, which is at an offset, and returns what follows it.
    fn read<'a>(
        &mut self,
        context: &RangeContext<'a>,
        unit: &Unit,
        bytes: &'a [u8],
    ) -> Result<&'a [u8], DwarfError>
        ensures shorter { IfOk result (λ rest. length rest.now < length bytes.now) }
    {
        let table = context.file.table(unit).ok_or(DwarfError::NoAbbreviation)?;
        let (entry, after) = read_entry(bytes, table)?;
        let Some(entry) = entry else {
            let _closed = self.open.pop();
            return Ok(after);
        };
        let rest = entry.rest(&context.encoding)?;
        let offset = context.encoding.end.saturating_sub(bytes.len());
        let open = self.add_entry(context, &entry, offset)?;
        if entry.has_children {
            self.push(open)?;
        }
        Ok(rest)
    }

    // Reads the entries of a unit up to its end or to one that can't be read.
    fn read_all<'a>(
        &mut self,
        context: &RangeContext<'a>,
        unit: &Unit,
        bytes: &'a [u8],
    ) -> Result<(), DwarfError> {
        let mut rest = bytes;
        'entries: while !rest.is_empty() {
            rest = self.read(context, unit, rest)?;
        }
        Ok(())
    }
}

impl UnitFunctions {
    // Reads the functions of a unit up to its end or to an entry that can't be read, and returns them with
    // the error.
    pub(crate) fn read(
        alloc: Global,
        context: &RangeContext<'_>,
        unit: &Unit,
    ) -> Result<(UnitFunctions, Option<DwarfError>), AllocError> {
        let bytes = context.file.unit_bytes(unit, unit.header.entries);
        let mut reader = FunctionReader {
            nodes: Vec::new(alloc),
            ranges: Vec::new(alloc),
            open: Vec::new(alloc),
            buffer: Vec::new(alloc),
            budget: unit.header.max_ranges(context.extra_ranges),
        };
        reader.nodes.push(FunctionNode {
            entry: unit.header.entries,
            call_file: None,
            call_line: 0,
            call_column: 0,
        })?;
        let error = match reader.read_all(context, unit, bytes) {
            Ok(()) => None,
            Err(DwarfError::Memory) => return Err(AllocError),
            Err(error) => Some(error),
        };
        let functions = UnitFunctions {
            intervals: Intervals::new(alloc, &reader.ranges)?,
            nodes: reader.nodes,
        };
        Ok((functions, error))
    }

    // The function at an address, or the one that was copied into a function at an address.
    pub(crate) fn find(&self, parent: usize, address: u64) -> Option<usize> {
        self.intervals.find(parent, address)
    }

    // The node with an index.
    pub(crate) fn node(&self, index: usize) -> Option<FunctionNode> {
        self.nodes.get(index).copied()
    }
}
