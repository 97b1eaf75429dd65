//! Prints a jitdump file: its header, its records by type, and its code.

use crate::counting::{count_one, show_types, to_vec};
use crate::escaped_text::Escaped;
use crate::header_info::byte_order_name;
use crate::names::RecordTypes;
use crate::report::Report;
use linux_perf_data::jitdump::{JitDumpHeader, JitDumpRawRecord, JitDumpReader, JitDumpRecord};
use linux_perf_data::raw::RawData;
use linux_perf_data::source::Source;
use perfdata_cli::error::InputError;
use perfdata_cli::position::Position;
use std::alloc::Global;
use std::cmp::Reverse;
use std::collections::BTreeMap;
use std::io;

// Maximum number of largest functions in the report.
const MAX_FUNCTIONS: usize = 10;

// A function of a load record.
#[derive(Drop)]
struct JitFunction {
    size: u64,
    name: Vec<u8>,
}

// The key of a function that orders functions by decreasing size.
fn largest_first(function: &JitFunction) -> Reverse<u64> {
    Reverse(function.size)
}

/// Counts of a jitdump file's records.
#[derive(Drop)]
pub struct JitCounts {
    per_type: BTreeMap<u32, u64>,
    records: u64,
    code_bytes: u64,
    /// The largest functions, ordered by decreasing size.
    largest: Vec<JitFunction>,
    /// File offset of the end of the records that were read, in bytes.
    end: u64,
}

impl JitCounts {
    /// Creates counts with no records.
    pub(crate) fn new(alloc: Global) -> JitCounts {
        JitCounts {
            per_type: BTreeMap::new(alloc),
            records: 0,
            code_bytes: 0,
            largest: Vec::new(alloc),
            end: 0,
        }
    }

    // Adds a function with `size` bytes of code to the counts.
    fn add_function(&mut self, alloc: Global, size: u64, name: RawData<'_>) -> io::Result<()> {
        self.code_bytes = self.code_bytes.saturating_add(size);
        let name = to_vec(alloc, name)?;
        self.largest.push(JitFunction { size, name })?;
        self.largest.sort_by_key(largest_first)?;
        self.largest.truncate(MAX_FUNCTIONS);
        Ok(())
    }

    // Adds the function of a record to the counts, if it is a load record.
    fn add_code(&mut self, alloc: Global, raw: &JitDumpRawRecord<'_>) -> io::Result<()> {
        match raw.parse(alloc)? {
            JitDumpRecord::CodeLoad(load) => {
                self.add_function(alloc, load.code_bytes.len() as u64, load.function_name)
            }
            _ => Ok(()),
        }
    }

    // Adds a record to the counts.
    fn add(&mut self, alloc: Global, raw: &JitDumpRawRecord<'_>) -> io::Result<()> {
        self.add_code(alloc, raw)?;
        count_one(&mut self.per_type, raw.record_type.0)?;
        self.records = self.records.saturating_add(1);
        self.end = raw.start_offset.saturating_add(raw.record_size as u64);
        Ok(())
    }

    // Adds the remaining records until the last complete one or the first error.
    fn add_all<R: Source>(
        &mut self,
        alloc: Global,
        reader: &mut JitDumpReader<R>,
    ) -> io::Result<()> {
        self.end = reader.next_record_offset();
        for _ in 0..u64::MAX {
            let Some(raw) = reader.next_record()? else {
                break;
            };
            self.add(alloc, &raw)?;
        }
        Ok(())
    }

    /// Adds the remaining records until the last complete one or the first error.
    pub(crate) fn read<R: Source>(
        &mut self,
        alloc: Global,
        reader: &mut JitDumpReader<R>,
    ) -> Result<(), InputError> {
        let read = self.add_all(alloc, reader);
        let position = Position {
            records: self.records,
            offset: Some(self.end),
        };
        match read {
            Ok(()) => Ok(()),
            Err(cause) => Err(InputError::JitRecord { position, cause }),
        }
    }
}

/// Writes the header and the counts.
pub(crate) fn show<R: Source>(reader: &JitDumpReader<R>, counts: &JitCounts, report: &mut Report) {
    report.word("byte order", byte_order_name(reader.endian()));
    show_header(reader.header(), report);
    show_types(RecordTypes::JitDump, &counts.per_type, report);
    report.number("bytes of records", counts.end);
    report.number("bytes of code", counts.code_bytes);
    show_functions(&counts.largest, report);
}

// Writes the header.
fn show_header(header: &JitDumpHeader, report: &mut Report) {
    report.number("version", header.version as u64);
    report.number("machine number", header.elf_machine_arch as u64);
    report.number("process", header.pid as u64);
    report.number("time", header.timestamp);
    report.number("flags", header.flags);
}

// Writes the sizes and names of functions.
fn show_functions(functions: &[JitFunction], report: &mut Report) {
    report.number("largest functions", functions.len() as u64);
    for function in functions {
        report.item(function.size, Escaped(function.name.as_slice()));
    }
}
