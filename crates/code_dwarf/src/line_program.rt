//! Line programs: their sequences, and the row at an address (DWARF 5, section 6.2).
ghost use Rattle.std.specs.Prelude.{◌≡◌, ◌≤◌, ◌<◌, ◌-◌, ℕ, List, length, drop, slice_range};
ghost use Rattle.std.specs.Prelude.{IfOk, OnOk, IfSome, is_some, slice_index_or, ◌⊎◌, true, false};
ghost use Rattle.code_dwarf.specs.declared.line_program.Checkpoint.{Checkpoint};
ghost use Rattle.code_dwarf.specs.declared.ranges.AddressRange.{AddressRange};
ghost use Rattle.code_dwarf.specs.declared.line_header.LineHeader.{LineHeader};
ghost use Rattle.std.specs.List.{Contains};
ghost use Rattle.code_dwarf.specs.steps.LineInstructions.{InstructionAt};
ghost use Rattle.code_dwarf.specs.steps.LineRows.{Sequence, Progress, at_start, stepped, program_bytes};
ghost use Rattle.code_dwarf.specs.steps.LineHeaders.{LineHeaderAt, index_in_table};
ghost use Rattle.code_dwarf.specs.steps.LineRows.{Runs, LastRow, RowIn, counts};
ghost use Rattle.code_dwarf.specs.steps.LineReaders.{IsProgram, IsOf, Follows, NotesRow, NotesState};
ghost use Rattle.code_dwarf.specs.steps.LineReaders.{EndsSequence, notes_count};

use crate::error::DwarfError;
use crate::fixed::Endianness;
use crate::intervals::{Intervals, NodeRange};
use crate::line_header::{LineHeader, read_header};
use crate::line_instruction::{INITIAL, LineInstruction, Registers, RowEffect, read_instruction};
use crate::line_tables::{LineTables, TableEntry, read_table_entry};
use crate::ranges::{AddressRange, is_code};
use std::alloc::{AllocError, Global};

// The largest number of rows between two checkpoints.
const ROWS_BETWEEN: usize = 16;

// The number of bytes of instructions after which there is a checkpoint.
const BYTES_BETWEEN: usize = 4096;

// The state of the machine between two instructions, with the last row before it.
#[derive(Clone, Copy)]
struct Checkpoint {
    // The number of bytes of instructions that are left.
    left: usize,
    registers: Registers,
    row: Registers,
}

// A sequence of rows.
#[derive(Clone, Copy)]
struct LineSequence {
    start: u64,
    end: u64,
    // The index of its first checkpoint, and that after the last.
    first: usize,
    last: usize,
}

// A line program.
#[derive(Drop)]
pub(crate) struct LineProgram {
    header: LineHeader,
    tables: LineTables,
    sequences: Vec<LineSequence>,
    checkpoints: Vec<Checkpoint>,
    // The sequence at an address.
    intervals: Intervals,
}

// What is read of a line program.
#[derive(Drop)]
struct ProgramReader {
    sequences: Vec<LineSequence>,
    checkpoints: Vec<Checkpoint>,
    registers: Registers,
    // The first and the last row of the sequence.
    first: Option<Registers>,
    row: Registers,
    // Whether an address of the sequence is below one before it.
    descends: bool,
    // The index of the first checkpoint of the sequence.
    start: usize,
    // The number of rows since the last checkpoint.
    rows: usize,
}

impl ProgramReader {
    // A reader at the start of a program.
    fn new(alloc: Global) -> ProgramReader
        ensures { (section rest : List ℕ) (h : LineHeader) (code : List AddressRange)
            → Follows section h code result at_start rest }
    {
        ProgramReader {
            sequences: Vec::new(alloc),
            checkpoints: Vec::new(alloc),
            registers: INITIAL,
            first: None,
            row: INITIAL,
            descends: false,
            start: 0,
            rows: 0,
        }
    }

    // Notes a row.
    fn add_row(&mut self)
        ensures { NotesRow self.old self.new }
    {
        if self.first.is_none() {
            self.first = Some(self.registers);
        } else if self.registers.address < self.row.address {
            self.descends = true;
        }
        self.row = self.registers;
        self.rows = self.rows.saturating_add(1);
    }

    // Whether a checkpoint is to be added, with `left` bytes left.
    fn needs_checkpoint(&self, left: usize) -> bool
        ensures some { result ≡ true → is_some self.now.first ≡ true }
        ensures none { result ≡ false → is_some self.now.first ≡ true
            → self.now.start < length self.now.checkpoints.items }
    {
        if self.first.is_none() {
            return false;
        }
        match self.checkpoints.last() {
            Some(checkpoint) if self.checkpoints.len() > self.start => {
                self.rows >= ROWS_BETWEEN || checkpoint.left.saturating_sub(left) >= BYTES_BETWEEN
            }
            _ => true,
        }
    }

    // Adds a checkpoint if one is due.
    fn add_checkpoint(&mut self, left: usize) -> Result<(), AllocError>
        ensures { OnOk result (NotesState left self.old self.new) }
    {
        if self.needs_checkpoint(left) {
            self.rows = 0;
            self.checkpoints.push(Checkpoint {
                left,
                registers: self.registers,
                row: self.row,
            })?;
        }
        Ok(())
    }

    // The first address of the sequence, if the sequence counts.
    fn counted_start(&self, code: &[AddressRange]) -> Option<u64>
        ensures { result ≡ notes_count code.now self.now.first self.now.row self.now.descends
            self.now.registers.address }
    {
        let first = self.first?;
        let end = self.registers.address;
        if !self.descends && self.row.address <= end && is_code(code, first.address, end) {
            Some(first.address)
        } else {
            None
        }
    }

    // Ends the sequence, and adds it if it counts.
    fn end_sequence(&mut self, code: &[AddressRange]) -> Result<(), AllocError>
        ensures { OnOk result (EndsSequence code.now self.old self.new) }
    {
        match self.counted_start(code) {
            Some(start) => {
                self.sequences.push(LineSequence {
                    start,
                    end: self.registers.address,
                    first: self.start,
                    last: self.checkpoints.len(),
                })?;
            }
            None => self.checkpoints.truncate(self.start),
        }
        self.start = self.checkpoints.len();
        self.registers = INITIAL;
        self.first = None;
        self.descends = false;
        self.rows = 0;
        Ok(())
    }

    // Does what an instruction does, after which `left` bytes are left.
    fn step(
        &mut self,
        header: &LineHeader,
        code: &[AddressRange],
        instruction: &LineInstruction,
        left: usize,
    ) -> Result<(), AllocError>
        ensures { (section bytes rest : List ℕ) (p : Progress)
            → InstructionAt section header.now bytes instruction.now rest
            → bytes ≡ drop (length (program_bytes section header.now) - length bytes)
            (program_bytes section header.now)
            → length rest ≡ left → Follows section header.now code.now self.old p bytes
            → OnOk result (Follows section header.now code.now self.new
            (stepped header.now instruction.now p) rest) }
    {
        match self.registers.step(header, instruction) {
            RowEffect::None => {}
            RowEffect::Row => self.add_row(),
            RowEffect::End => return self.end_sequence(code),
        }
        self.add_checkpoint(left)
    }

    // Runs the instructions up to their end or to one that can't be read, and returns whether there was none.
    fn run(
        &mut self,
        section: &[u8],
        header: &LineHeader,
        code: &[AddressRange],
        tables: &mut LineTables,
    ) -> Result<bool, AllocError>
        ensures { Follows section.now header.now code.now self.old at_start
            (program_bytes section.now header.now)
            → OnOk result ((p : Progress) × (rest : List ℕ) × Runs section.now header.now p
            × Follows section.now header.now code.now self.new p rest) }
    {
        let mut rest = instruction_bytes(section, header);
        'instructions: while !rest.is_empty() {
            let Ok((instruction, after)) = read_instruction(section, rest, header) else {
                return Ok(false);
            };
            self.step(header, code, &instruction, after.len())?;
            if let LineInstruction::DefineFile(offset) = instruction {
                tables.files.push(offset)?;
            }
            rest = after;
        }
        Ok(true)
    }
}

// The instructions of a program.
fn instruction_bytes<'a>(section: &'a [u8], header: &LineHeader) -> &'a [u8]
    ensures { result.now ≡ program_bytes section.now header.now }
{
    section
        .get(header.instructions.start..header.instructions.end)
        .unwrap_or(&[])
}

// The intervals of sequences: of those with an address the ones with the greatest start count, and of these
// the first.
fn sequence_intervals(alloc: Global, sequences: &[LineSequence]) -> Result<Intervals, AllocError> {
    let mut ranges = Vec::new(alloc);
    'sequences: for (node, sequence) in sequences.iter().enumerate() {
        ranges.push(NodeRange {
            parent: 0,
            start: sequence.start,
            end: sequence.end,
            node,
        })?;
    }
    ranges.sort_by_key(|range| u64::MAX - range.start)?;
    Intervals::new(alloc, &ranges)
}

impl LineProgram {
    // Reads the line program at an offset, up to its end or to an instruction that can't be read, and returns
    // it with the error.
    pub(crate) fn read(
        alloc: Global,
        section: &[u8],
        offset: u64,
        endian: Endianness,
        has_64_bit_addresses: bool,
        code: &[AddressRange],
    ) -> Result<(LineProgram, Option<DwarfError>), DwarfError>
        ensures rows { IfOk result (λ x. (p : Progress) × IsProgram section.now code.now x.0 p) }
        ensures header { IfOk result (λ x. (at : LineHeaderAt section.now offset endian has_64_bit_addresses
            x.0.header) × (program_bytes section.now x.0.header ≡ at.instructions)) }
    {
        let header = read_header(section, offset, endian, has_64_bit_addresses)?;
        let mut tables = LineTables::read(alloc, section, &header)?;
        let mut reader = ProgramReader::new(alloc);
        let is_whole = reader.run(section, &header, code, &mut tables)?;
        let error = if is_whole {
            None
        } else {
            Some(DwarfError::BadLineProgram)
        };
        reader.checkpoints.truncate(reader.start);
        let program = LineProgram {
            header,
            tables,
            intervals: sequence_intervals(alloc, &reader.sequences)?,
            sequences: reader.sequences,
            checkpoints: reader.checkpoints,
        };
        Ok((program, error))
    }

    // The last checkpoint of a sequence whose row isn't after an address, else the first one.
    fn checkpoint(&self, sequence: &LineSequence, address: u64) -> Option<Checkpoint>
        ensures { IfSome result (λ c. Contains (slice_range self.now.checkpoints.items sequence.now.first
            sequence.now.last) c × (c.row.address ≤ address ⊎ ((d : Checkpoint) → c
            ≡ slice_index_or (slice_range self.now.checkpoints.items sequence.now.first sequence.now.last)
            0 d))) }
    {
        let checkpoints = self.checkpoints.get(sequence.first..sequence.last)?;
        let after = checkpoints.partition_point(|checkpoint| checkpoint.row.address <= address);
        match checkpoints.get(after.saturating_sub(1)) {
            Some(checkpoint) if checkpoint.row.address <= address => Some(*checkpoint),
            _ => checkpoints.first().copied(),
        }
    }

    // The last row after a checkpoint whose address isn't after an address.
    fn last_row(&self, section: &[u8], checkpoint: &Checkpoint, address: u64) -> Registers
        ensures { (code : List AddressRange) (s : Sequence) → counts code s ≡ true
            → IsOf section.now self.now.header s checkpoint.now → checkpoint.now.row.address ≤ address
            → LastRow s.rows address result }
    {
        let bytes = instruction_bytes(section, &self.header);
        let start = bytes.len().saturating_sub(checkpoint.left);
        let (_, mut rest) = bytes.split_at(start);
        let mut registers = checkpoint.registers;
        let mut row = checkpoint.row;
        'instructions: while !rest.is_empty() {
            let Ok((instruction, after)) = read_instruction(section, rest, &self.header) else {
                return row;
            };
            match registers.step(&self.header, &instruction) {
                RowEffect::None => {}
                RowEffect::Row => {
                    if registers.address > address {
                        return row;
                    }
                    row = registers;
                }
                RowEffect::End => return row,
            }
            rest = after;
        }
        row
    }

    // The row at an address.
    pub(crate) fn row(&self, section: &[u8], address: u64) -> Option<Registers>
        ensures { (code : List AddressRange) (p : Progress) → IsProgram section.now code self.now p
            → IfSome result (λ row. RowIn code p.ended address row) }
    {
        let sequence = self.sequences.get(self.intervals.find(0, address)?)?;
        if address < sequence.start || sequence.end <= address {
            return None;
        }
        let checkpoint = self.checkpoint(sequence, address)?;
        Some(self.last_row(section, &checkpoint, address))
    }

    // Where a table contains the entry with an index: from 1 on before version 5, from 0 on in it.
    fn table_index(&self, index: u64) -> Option<u64>
        ensures { result ≡ index_in_table self.now.header.encoding.version index }
    {
        if self.header.encoding.version < 5 {
            index.checked_sub(1)
        } else {
            Some(index)
        }
    }

    // The file with an index.
    pub(crate) fn file(&self, section: &[u8], index: u64) -> Option<TableEntry> {
        let offset = self.tables.files.entry(self.table_index(index)?)?;
        read_table_entry(section, &self.header, &self.tables.files, offset)
    }

    // The directory with an index, or `None` for the compilation directory.
    pub(crate) fn directory(&self, section: &[u8], index: u64) -> Option<TableEntry> {
        let offset = self.tables.directories.entry(self.table_index(index)?)?;
        read_directory(section, &self.header, &self.tables, offset)
    }

    // How values in the header are in the bytes.
    pub(crate) fn header(&self) -> &LineHeader {
        &self.header
    }
}

// The directory at an offset in `.debug_line`: a string before version 5.
fn read_directory(
    section: &[u8],
    header: &LineHeader,
    tables: &LineTables,
    offset: usize,
) -> Option<TableEntry> {
    if header.encoding.version < 5 {
        return Some(TableEntry {
            path: Some(crate::forms::Value::InlineString(offset)),
            directory: 0,
        });
    }
    read_table_entry(section, header, &tables.directories, offset)
}
