//! The debugging information of a file.
ghost use Rattle.std.specs.Prelude.{IfOk};
ghost use Rattle.code_dwarf.specs.Frames.{HasNoRow};

use crate::candidates::Candidates;
use crate::error::{DwarfError, UnitError};
use crate::file::{AlternateInfo, DwarfFile, Files, Sections, Unit};
use crate::fixed::Endianness;
use crate::frames::SourceFrames;
use crate::functions::{FunctionNode, UNIT_NODE, UnitFunctions};
use crate::line_header::program_end;
use crate::line_instruction::Registers;
use crate::line_program::LineProgram;
use crate::ranges::{AddressRange, RangeContext};
use crate::roots::{NO_ROOT, Root, read_root};
use crate::units::extra_ranges;
use std::alloc::{AllocError, Global};

// The largest number of functions at an address.
const MAX_CHAIN: usize = 129;

// The line program of units.
#[derive(Drop)]
struct ProgramSlot {
    // The offset of the program in `.debug_line`.
    offset: u64,
    // Whether it begins within another one.
    is_overlapping: bool,
    // Whether it was read, or can't be.
    is_loaded: bool,
    program: Option<LineProgram>,
}

// What is known of a unit.
#[derive(Drop)]
struct UnitInfo {
    root: Root,
    // The index of its line program.
    slot: Option<usize>,
    // Its functions, once they were read.
    functions: Option<UnitFunctions>,
}

/// The debugging information of a file.
#[derive(Drop)]
pub struct DebugInfo {
    alloc: Global,
    file: DwarfFile,
    alternate: Option<AlternateInfo>,
    code: Vec<AddressRange>,
    units: Vec<UnitInfo>,
    programs: Vec<ProgramSlot>,
    candidates: Candidates,
    errors: Vec<UnitError>,
    // The candidates of the last look-up.
    units_at: Vec<usize>,
    // The functions of the last look-up, the innermost first.
    chain: Vec<usize>,
}

// A function at an address.
#[derive(Clone, Copy)]
struct FunctionAtAddress {
    unit: usize,
    node: usize,
}

// The roots of units. That of one that can't be read says nothing.
fn read_roots(
    alloc: Global,
    file: &DwarfFile,
    errors: &mut Vec<UnitError>,
) -> Result<Vec<UnitInfo>, AllocError> {
    let mut units = Vec::new(alloc);
    'units: for unit in &file.units {
        let (root, error) = match read_root(file, unit) {
            Ok(root) if root.is_split => (root, Some(DwarfError::SplitUnit)),
            Ok(root) => (root, None),
            Err(error) => (NO_ROOT, Some(error)),
        };
        if let Some(error) = error {
            errors.push(UnitError {
                unit: unit.header.offset,
                error,
            })?;
        }
        units.push(UnitInfo {
            root,
            slot: None,
            functions: None,
        })?;
    }
    Ok(units)
}

// The offsets of line programs, in order, with those that begin within another one marked.
fn find_programs(
    alloc: Global,
    file: &DwarfFile,
    units: &[UnitInfo],
) -> Result<Vec<ProgramSlot>, AllocError> {
    let mut offsets = Vec::new(alloc);
    'units: for unit in units {
        if let Some(offset) = unit.root.lines {
            offsets.push(offset)?;
        }
    }
    offsets.sort_unstable();
    make_slots(alloc, file, &offsets)
}

// The line programs at offsets that ascend, with those that begin within another one marked.
fn make_slots(
    alloc: Global,
    file: &DwarfFile,
    offsets: &[u64],
) -> Result<Vec<ProgramSlot>, AllocError> {
    let mut programs = Vec::new(alloc);
    let mut end: u64 = 0;
    let mut previous = None;
    'offsets: for offset in offsets {
        if previous == Some(*offset) {
            continue;
        }
        previous = Some(*offset);
        let is_overlapping = *offset < end;
        if !is_overlapping {
            end = program_end(&file.sections.line, *offset, file.endian).unwrap_or(0) as u64;
        }
        programs.push(ProgramSlot {
            offset: *offset,
            is_overlapping,
            is_loaded: false,
            program: None,
        })?;
    }
    Ok(programs)
}

// The index of the line program at an offset.
fn find_slot(programs: &[ProgramSlot], offset: u64) -> Option<usize> {
    let index = programs.partition_point(|slot| slot.offset < offset);
    match programs.get(index) {
        Some(slot) if slot.offset == offset => Some(index),
        _ => None,
    }
}

// Sets which line programs units have.
fn set_slots(units: &mut Vec<UnitInfo>, programs: &[ProgramSlot]) {
    'units: for unit in units.iter_mut() {
        unit.slot = match unit.root.lines {
            Some(offset) => find_slot(programs, offset),
            None => None,
        };
    }
}

// Adds a unit for the ranges of its root, or for all addresses if the root has none.
fn add_candidate(
    alloc: Global,
    context: &RangeContext<'_>,
    unit: &Unit,
    index: usize,
    root: &Root,
    candidates: &mut Candidates,
) -> Result<(), DwarfError> {
    if root.ranges.is_none() && (root.low.is_none() || root.high.is_none()) {
        return Ok(candidates.add_everywhere(index)?);
    }
    let mut ranges = Vec::new(alloc);
    let mut budget = unit.header.max_ranges(context.extra_ranges);
    let read = context.add_ranges(root.low, root.high, root.ranges, &mut budget, &mut ranges);
    'ranges: for range in &ranges {
        candidates.add_range(index, range)?;
    }
    read
}

// The units that may describe addresses.
fn find_candidates(
    alloc: Global,
    file: &DwarfFile,
    units: &[UnitInfo],
    code: &[AddressRange],
    errors: &mut Vec<UnitError>,
) -> Result<Candidates, AllocError> {
    let mut candidates = Candidates::new(alloc);
    'units: for (index, unit) in file.units.iter().enumerate() {
        let Some(info) = units.get(index) else {
            break;
        };
        if !info.root.is_candidate {
            continue;
        }
        let context = RangeContext {
            file,
            encoding: file.encoding(unit),
            bases: info.root.bases,
            code,
            extra_ranges: extra_ranges(file.units.len()),
        };
        match add_candidate(alloc, &context, unit, index, &info.root, &mut candidates) {
            Ok(()) => {}
            Err(DwarfError::Memory) => return Err(AllocError),
            Err(error) => errors.push(UnitError {
                unit: unit.header.offset,
                error,
            })?,
        }
    }
    candidates.sort()?;
    Ok(candidates)
}

impl DebugInfo {
    /// Reads the headers and the first entries of the units of a file.
    ///
    /// `code` are the addresses of the file's executable segments: what DWARF says of others doesn't count.
    /// `alternate` is the file that `.gnu_debugaltlink` names.
    ///
    /// # Errors
    ///
    /// Returns `AllocError` if an allocation fails.
    pub fn new(
        alloc: Global,
        endian: Endianness,
        sections: Sections,
        code: &[AddressRange],
        alternate: Option<AlternateInfo>,
    ) -> Result<DebugInfo, AllocError> {
        let mut errors = Vec::new(alloc);
        let file = DwarfFile::new(alloc, endian, sections, &mut errors)?;
        let mut units = read_roots(alloc, &file, &mut errors)?;
        let programs = find_programs(alloc, &file, &units)?;
        set_slots(&mut units, &programs);
        let candidates = find_candidates(alloc, &file, &units, code, &mut errors)?;
        Ok(DebugInfo {
            alloc,
            file,
            alternate,
            code: Vec::from_slice(alloc, code)?,
            units,
            programs,
            candidates,
            errors,
            units_at: Vec::new(alloc),
            chain: Vec::new(alloc),
        })
    }

    /// Returns what couldn't be read: units and line programs, in the order in which that was found.
    pub fn errors(&self) -> &[UnitError] {
        &self.errors
    }

    /// Returns the functions and lines at an address of the file, the innermost first.
    ///
    /// The functions of a unit and its line program are read when an address of the unit is first looked for.
    ///
    /// # Errors
    ///
    /// Returns `AllocError` if an allocation fails. The call can be repeated then.
    pub fn find(&mut self, address: u64) -> Result<SourceFrames<'_>, AllocError> {
        self.candidates.find(address, &mut self.units_at)?;
        self.chain.clear();
        let (unit, row) = match self.find_function(address)? {
            Some(function) => {
                self.load_program(function.unit)?;
                self.find_chain(address, &function)?;
                (function.unit, self.row(function.unit, address))
            }
            None => self.find_row(address)?,
        };
        Ok(SourceFrames {
            info: self,
            unit,
            row,
            chain: &self.chain,
        })
    }

    /// Returns the functions at an address of the file, the innermost first, without lines: no line program
    /// is read. Nothing is known of an address without a function.
    ///
    /// The functions of a unit are read when an address of the unit is first looked for.
    ///
    /// # Errors
    ///
    /// Returns `AllocError` if an allocation fails. The call can be repeated then.
    pub fn find_functions(&mut self, address: u64) -> Result<SourceFrames<'_>, AllocError>
        ensures { IfOk result (λ frames. HasNoRow frames) }
    {
        self.candidates.find(address, &mut self.units_at)?;
        self.chain.clear();
        let unit = match self.find_function(address)? {
            Some(function) => {
                self.find_chain(address, &function)?;
                function.unit
            }
            None => 0,
        };
        Ok(SourceFrames {
            info: self,
            unit,
            row: None,
            chain: &self.chain,
        })
    }

    // The function at an address: that of the first unit that has one.
    fn find_function(&mut self, address: u64) -> Result<Option<FunctionAtAddress>, AllocError> {
        'units: for index in 0..self.units_at.len() {
            let Some(unit) = self.units_at.get(index).copied() else {
                break;
            };
            self.load_functions(unit)?;
            if let Some(node) = self.child(unit, UNIT_NODE, address) {
                return Ok(Some(FunctionAtAddress { unit, node }));
            }
        }
        Ok(None)
    }

    // The first unit that has a row at an address, and the row.
    fn find_row(&mut self, address: u64) -> Result<(usize, Option<Registers>), AllocError> {
        'units: for index in 0..self.units_at.len() {
            let Some(unit) = self.units_at.get(index).copied() else {
                break;
            };
            self.load_program(unit)?;
            if let Some(row) = self.row(unit, address) {
                return Ok((unit, Some(row)));
            }
        }
        Ok((0, None))
    }

    // Sets the chain to a function and those that were copied into it at an address, the innermost first.
    fn find_chain(&mut self, address: u64, function: &FunctionAtAddress) -> Result<(), AllocError> {
        let mut node = Some(function.node);
        'nodes: for _ in 0..MAX_CHAIN {
            let Some(parent) = node else {
                break;
            };
            self.chain.push(parent)?;
            node = self.child(function.unit, parent, address);
        }
        self.chain.reverse();
        Ok(())
    }

    // The function of a unit at an address, or the one that was copied into a function.
    fn child(&self, unit: usize, parent: usize, address: u64) -> Option<usize> {
        let functions = self.units.get(unit)?.functions.as_ref()?;
        functions.find(parent, address)
    }

    // The row of a unit's line program at an address, if that was read.
    fn row(&self, unit: usize, address: u64) -> Option<Registers> {
        self.line_program(unit)?
            .row(&self.file.sections.line, address)
    }

    // Adds an error of a unit.
    fn add_error(&mut self, unit: &Unit, error: Option<DwarfError>) -> Result<(), AllocError> {
        if let Some(error) = error {
            self.errors.push(UnitError {
                unit: unit.header.offset,
                error,
            })?;
        }
        Ok(())
    }

    // Reads the functions of a unit, unless that was done.
    fn load_functions(&mut self, index: usize) -> Result<(), AllocError> {
        let Some(info) = self.units.get(index) else {
            return Ok(());
        };
        if info.functions.is_some() {
            return Ok(());
        }
        let Some(unit) = self.file.units.get(index).copied() else {
            return Ok(());
        };
        let extra_ranges = extra_ranges(self.file.units.len());
        let context = RangeContext {
            file: &self.file,
            encoding: self.file.encoding(&unit),
            bases: info.root.bases,
            code: &self.code,
            extra_ranges,
        };
        let (functions, error) = UnitFunctions::read(self.alloc, &context, &unit)?;
        self.add_error(&unit, error)?;
        if let Some(info) = self.units.get_mut(index) {
            info.functions = Some(functions);
        }
        Ok(())
    }

    // Reads the line program of a unit, unless that was done.
    fn load_program(&mut self, index: usize) -> Result<(), AllocError> {
        let Some(slot) = self.slot(index) else {
            return Ok(());
        };
        let Some(unit) = self.file.units.get(index).copied() else {
            return Ok(());
        };
        match self.programs.get(slot) {
            Some(program) if !program.is_loaded => {
                let (program, error) = self.read_program(&unit, program)?;
                self.add_error(&unit, error)?;
                self.set_program(slot, program);
                Ok(())
            }
            _ => Ok(()),
        }
    }

    // Reads the line program of a unit, and returns it with the error.
    fn read_program(
        &self,
        unit: &Unit,
        slot: &ProgramSlot,
    ) -> Result<(Option<LineProgram>, Option<DwarfError>), AllocError> {
        if slot.is_overlapping {
            return Ok((None, Some(DwarfError::OverlappingLines)));
        }
        let read = LineProgram::read(
            self.alloc,
            &self.file.sections.line,
            slot.offset,
            self.file.endian,
            unit.header.has_64_bit_addresses,
            &self.code,
        );
        match read {
            Ok((program, error)) => Ok((Some(program), error)),
            Err(DwarfError::Memory) => Err(AllocError),
            Err(error) => Ok((None, Some(error))),
        }
    }

    // Sets the line program with an index.
    fn set_program(&mut self, slot: usize, program: Option<LineProgram>) {
        if let Some(slot) = self.programs.get_mut(slot) {
            slot.is_loaded = true;
            slot.program = program;
        }
    }

    // The index of the line program of a unit.
    fn slot(&self, unit: usize) -> Option<usize> {
        self.units.get(unit)?.slot
    }

    // The line program of a unit, if it was read.
    pub(crate) fn line_program(&self, unit: usize) -> Option<&LineProgram> {
        self.programs.get(self.slot(unit)?)?.program.as_ref()
    }

    // The root of a unit.
    pub(crate) fn root(&self, unit: usize) -> Option<&Root> {
        Some(&self.units.get(unit)?.root)
    }

    // A node of the functions of a unit.
    pub(crate) fn function_node(&self, unit: usize, node: usize) -> Option<FunctionNode> {
        self.units.get(unit)?.functions.as_ref()?.node(node)
    }

    // The file, and its alternate file.
    pub(crate) fn files(&self) -> Files<'_> {
        Files {
            main: &self.file,
            alternate: match &self.alternate {
                Some(alternate) => Some(&alternate.file),
                None => None,
            },
        }
    }
}
