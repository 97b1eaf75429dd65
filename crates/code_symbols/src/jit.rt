//! The code that a jitdump describes, at a time.

ghost use Rattle.std.specs.Prelude.{◌≡◌, ◌≤◌, OnOk, length, map, take};
ghost use Rattle.std.specs.List.Sorted.{IsNonDecreasingBy};
ghost use Rattle.std.proofs.Props.{props};
ghost use Rattle.code_symbols.specs.Loads.{AreUntil, ShowsMore, loaded_until};
ghost use Rattle.code_symbols.specs.SymbolTable.{names_of, symbols_of};

use crate::error::JitSymbolsError;
use crate::symbol::Symbol;
use crate::table::SymbolTable;
use perfdata_base::raw::RawData;
use perfdata_base::source::Source;
use perfdata_jit::{JitDumpRawRecord, JitDumpReader, JitDumpRecord};
use std::alloc::{AllocError, Global};
use std::collections::HashMap;

// The flag of a jitdump whose times are those of the processor (`JITDUMP_FLAGS_ARCH_TIMESTAMP`).
const PROCESSOR_TIMES: u64 = 1;

// The code of a load or move record, and the time of the record.
#[derive(Clone, Copy)]
struct Load {
    time: u64,
    symbol: Symbol,
}

/// The symbols of a jitdump: the code that is loaded up to a time.
#[derive(Drop)]
pub struct JitSymbols {
    // In the order of their times.
    loads: Vec<Load>,
    added: usize,
    table: SymbolTable,
    ghost sorted: { IsNonDecreasingBy (λ l. l.time) loads.items },
    ghost within: { added ≤ length loads.items },
    ghost shown: { symbols_of table ≡ map (λ l. l.symbol) (take added loads.items) } by { Prim.hlevel props },
}

// The loads that are read so far.
#[derive(Drop)]
struct Loads {
    // Whether the times of records can be compared with those of samples.
    has_times: bool,
    names: Vec<u8>,
    loads: Vec<Load>,
    // The last load of each code index.
    by_index: HashMap<u64, usize>,
}

impl Loads {
    // Adds a load of code with a name.
    fn add_load(
        &mut self,
        time: u64,
        code_index: u64,
        start: u64,
        size: u64,
        name: RawData<'_>,
    ) -> Result<(), AllocError> {
        let name_start = self.names.len();
        name.append_to(&mut self.names)?;
        let symbol = Symbol {
            start,
            size,
            name_start,
            name_end: self.names.len(),
        };
        self.by_index.insert(code_index, self.loads.len())?;
        self.loads.push(Load { time, symbol })?;
        Ok(())
    }

    // Adds the code of a load at its new address. Code that was never loaded is skipped.
    fn add_move(
        &mut self,
        time: u64,
        code_index: u64,
        start: u64,
        size: u64,
    ) -> Result<(), AllocError> {
        let Some(index) = self.by_index.get(&code_index).copied() else {
            return Ok(());
        };
        if index < self.loads.len() {
            let symbol = Symbol {
                start,
                size,
                ..self.loads[index].symbol
            };
            self.loads.push(Load { time, symbol })?;
        }
        Ok(())
    }

    // Adds the code of a record, if it is a load or a move.
    fn add_record(
        &mut self,
        alloc: Global,
        raw: &JitDumpRawRecord<'_>,
    ) -> Result<(), JitSymbolsError> {
        let time = if self.has_times { raw.timestamp } else { 0 };
        match raw.parse(alloc)? {
            JitDumpRecord::CodeLoad(load) => {
                let size = load.code_bytes.len() as u64;
                self.add_load(
                    time,
                    load.code_index,
                    load.code_addr,
                    size,
                    load.function_name,
                )?;
            }
            JitDumpRecord::CodeMove(moved) => {
                self.add_move(time, moved.code_index, moved.new_code_addr, moved.code_size)?;
            }
            _ => {}
        }
        Ok(())
    }
}

// Adds the code of the next record. Returns whether there is one.
fn add_next<R: Source>(
    alloc: Global,
    reader: &mut JitDumpReader<R>,
    loads: &mut Loads,
) -> Result<bool, JitSymbolsError> {
    match reader.next_record()? {
        Some(raw) => {
            loads.add_record(alloc, &raw)?;
            Ok(true)
        }
        None => Ok(false),
    }
}

impl JitSymbols {
    ghost use Rattle.code_symbols.specs.Jit.{jit_table_of, load_symbols, loads_of, shown_of};

    /// Reads the load and move records of a jitdump, up to its end or its first incomplete record.
    ///
    /// If the times are those of the processor (the flag `JITDUMP_FLAGS_ARCH_TIMESTAMP`), all code counts as
    /// loaded at time 0, in the order of the records.
    ///
    /// It fails with `Jitdump` if the file does not open as a jitdump, with `Io` if a record is invalid or
    /// the source fails, and with `Memory` if out of memory.
    pub fn read<R: Source + Drop>(alloc: Global, source: R) -> Result<JitSymbols, JitSymbolsError> {
        let mut reader = JitDumpReader::new(alloc, source)?;
        let mut loads = Loads {
            has_times: reader.header().flags & PROCESSOR_TIMES == 0,
            names: Vec::new(alloc),
            loads: Vec::new(alloc),
            by_index: HashMap::new(alloc),
        };
        'records: for _index in 0..u64::MAX {
            if !add_next(alloc, &mut reader, &mut loads)? {
                break;
            }
        }
        loads.loads.sort_by_key(|load| load.time)?;
        let Loads {
            names,
            loads,
            by_index: _,
            has_times: _,
        } = loads;
        Ok(JitSymbols {
            loads,
            added: 0,
            table: SymbolTable::new(alloc, names),
        })
    }

    /// Adds to the table the code of the records whose times are at most `time`. It never removes code, so
    /// call it with times that don't decrease.
    ///
    /// If it fails with `AllocError`, it can be called again.
    pub fn advance_to(&mut self, time: u64) -> Result<(), AllocError>
        ensures up_to { OnOk result (AreUntil time (shown_of self.old)
            → shown_of self.new ≡ loaded_until time (loads_of self.old)) }
        ensures kept { ShowsMore (shown_of self.old) (shown_of self.new) }
        ensures loads { loads_of self.new ≡ loads_of self.old }
        ensures names { names_of (jit_table_of self.new) ≡ names_of (jit_table_of self.old) }
    {
        'loads: while self.added < self.loads.len() && self.loads[self.added].time <= time {
            self.table.push(self.loads[self.added].symbol)?;
            self.added += 1;
        }
        Ok(())
    }

    /// Returns the code up to the time of the last `advance_to`. The last record that contains an address is
    /// preferred. Addresses are those of the process.
    pub fn table(&self) -> &SymbolTable
        ensures table { result.now ≡ jit_table_of self.now }
        ensures symbols { symbols_of result.now ≡ load_symbols (shown_of self.now) }
    {
        &self.table
    }
}
