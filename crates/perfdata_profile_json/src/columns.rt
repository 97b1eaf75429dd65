//! The columns of the tables.

use crate::stack_nodes::StackNodes;
use crate::tables::{Function, Tables, location_lines};
use crate::texts::{write_address, write_digits, write_id, write_index, write_name};
use indexmap::IndexSet;
use json::Writer;
use perfdata_profile::interned::Interned;
use perfdata_profile::lines::Line;
use perfdata_profile::locations::{Location, LocationId};
use perfdata_profile::mappings::MappingId;
use std::alloc::{AllocError, Global};

// Begins a column.
fn begin_column(json: &mut Writer, name: &str) -> Result<(), AllocError> {
    json.key(name)?;
    json.begin_array()
}

// Begins a table.
fn begin_table(json: &mut Writer, name: &str) -> Result<(), AllocError> {
    json.key(name)?;
    json.begin_object()
}

// Writes the names of threads.
fn write_thread_names(
    alloc: Global,
    json: &mut Writer,
    names: &Interned,
    tables: &Tables,
) -> Result<(), AllocError> {
    begin_column(json, "name")?;
    for thread in &tables.threads {
        write_name(alloc, json, names, thread.name)?;
    }
    json.end_array()
}

// Writes the processes of threads.
fn write_pids(json: &mut Writer, tables: &Tables) -> Result<(), AllocError> {
    begin_column(json, "pid")?;
    for thread in &tables.threads {
        write_id(json, thread.pid)?;
    }
    json.end_array()
}

// Writes the ids of threads.
fn write_tids(json: &mut Writer, tables: &Tables) -> Result<(), AllocError> {
    begin_column(json, "tid")?;
    for thread in &tables.threads {
        write_id(json, thread.tid)?;
    }
    json.end_array()
}

/// Writes the threads.
pub(crate) fn write_threads(
    alloc: Global,
    json: &mut Writer,
    names: &Interned,
    tables: &Tables,
) -> Result<(), AllocError> {
    begin_table(json, "threads")?;
    write_thread_names(alloc, json, names, tables)?;
    write_pids(json, tables)?;
    write_tids(json, tables)?;
    json.end_object()
}

// A number of a mapping.
#[derive(Clone, Copy)]
enum MappingNumber {
    Start,
    End,
    Offset,
}

// Writes a number of each mapping.
fn write_mapping_numbers(
    alloc: Global,
    json: &mut Writer,
    names: &Interned,
    mappings: &IndexSet<MappingId>,
    number: MappingNumber,
) -> Result<(), AllocError> {
    for id in mappings {
        if let Some(range) = names.mappings.get(*id) {
            let address = match number {
                MappingNumber::Start => range.start,
                MappingNumber::End => range.end,
                MappingNumber::Offset => range.page_offset,
            };
            write_address(alloc, json, address)?;
        }
    }
    json.end_array()
}

// Writes the paths of mappings.
fn write_paths(
    alloc: Global,
    json: &mut Writer,
    names: &Interned,
    mappings: &IndexSet<MappingId>,
) -> Result<(), AllocError> {
    begin_column(json, "path")?;
    for id in mappings {
        if let Some(range) = names.mappings.get(*id) {
            write_name(alloc, json, names, range.path)?;
        }
    }
    json.end_array()
}

// Writes the build ids of mappings.
fn write_build_ids(
    alloc: Global,
    json: &mut Writer,
    names: &Interned,
    mappings: &IndexSet<MappingId>,
) -> Result<(), AllocError> {
    begin_column(json, "build_id")?;
    for id in mappings {
        if let Some(range) = names.mappings.get(*id) {
            write_digits(alloc, json, names, range.build_id)?;
        }
    }
    json.end_array()
}

/// Writes the mappings.
pub(crate) fn write_mappings(
    alloc: Global,
    json: &mut Writer,
    names: &Interned,
    tables: &Tables,
) -> Result<(), AllocError> {
    let mappings = &tables.mappings;
    begin_table(json, "mappings")?;
    begin_column(json, "start")?;
    write_mapping_numbers(alloc, json, names, mappings, MappingNumber::Start)?;
    begin_column(json, "end")?;
    write_mapping_numbers(alloc, json, names, mappings, MappingNumber::End)?;
    begin_column(json, "offset")?;
    write_mapping_numbers(alloc, json, names, mappings, MappingNumber::Offset)?;
    write_paths(alloc, json, names, mappings)?;
    write_build_ids(alloc, json, names, mappings)?;
    json.end_object()
}

// Writes the names of functions.
fn write_function_names(
    alloc: Global,
    json: &mut Writer,
    names: &Interned,
    functions: &IndexSet<Function>,
) -> Result<(), AllocError> {
    begin_column(json, "name")?;
    for function in functions {
        write_name(alloc, json, names, function.name)?;
    }
    json.end_array()
}

// Writes the source files of functions.
fn write_function_files(
    alloc: Global,
    json: &mut Writer,
    names: &Interned,
    functions: &IndexSet<Function>,
) -> Result<(), AllocError> {
    begin_column(json, "file")?;
    for function in functions {
        write_name(alloc, json, names, function.file)?;
    }
    json.end_array()
}

/// Writes the functions.
pub(crate) fn write_functions(
    alloc: Global,
    json: &mut Writer,
    names: &Interned,
    tables: &Tables,
) -> Result<(), AllocError> {
    begin_table(json, "functions")?;
    write_function_names(alloc, json, names, &tables.functions)?;
    write_function_files(alloc, json, names, &tables.functions)?;
    json.end_object()
}

// Writes the mapping of a location.
fn write_location_mapping(
    json: &mut Writer,
    tables: &Tables,
    location: Location,
) -> Result<(), AllocError> {
    match location.mapping {
        Some(mapping) => write_index(json, tables.mappings.get_index_of(&mapping)),
        None => json.null(),
    }
}

// Writes the mappings of locations.
fn write_location_mappings(
    json: &mut Writer,
    names: &Interned,
    tables: &Tables,
) -> Result<(), AllocError> {
    begin_column(json, "mapping")?;
    for id in &tables.locations {
        if let Some(location) = names.locations.get(*id) {
            write_location_mapping(json, tables, location)?;
        }
    }
    json.end_array()
}

// Writes the addresses of locations.
fn write_addresses(
    alloc: Global,
    json: &mut Writer,
    names: &Interned,
    locations: &IndexSet<LocationId>,
) -> Result<(), AllocError> {
    begin_column(json, "address")?;
    for id in locations {
        if let Some(location) = names.locations.get(*id) {
            write_address(alloc, json, location.address)?;
        }
    }
    json.end_array()
}

// Writes a line: its function and its number.
fn write_line(json: &mut Writer, tables: &Tables, line: &Line) -> Result<(), AllocError> {
    json.begin_object()?;
    json.key("function")?;
    write_index(
        json,
        tables.functions.get_index_of(&Function::of_line(line)),
    )?;
    json.key("line")?;
    json.u64(line.line as u64)?;
    json.end_object()
}

// Writes the lines of a location.
fn write_lines(json: &mut Writer, tables: &Tables, lines: &[Line]) -> Result<(), AllocError> {
    json.begin_array()?;
    for line in lines {
        write_line(json, tables, line)?;
    }
    json.end_array()
}

// Writes the lines of locations.
fn write_location_lines(
    json: &mut Writer,
    names: &Interned,
    tables: &Tables,
) -> Result<(), AllocError> {
    begin_column(json, "lines")?;
    for id in &tables.locations {
        if let Some(location) = names.locations.get(*id) {
            write_lines(json, tables, location_lines(names, &location))?;
        }
    }
    json.end_array()
}

/// Writes the locations.
pub(crate) fn write_locations(
    alloc: Global,
    json: &mut Writer,
    names: &Interned,
    tables: &Tables,
) -> Result<(), AllocError> {
    begin_table(json, "locations")?;
    write_location_mappings(json, names, tables)?;
    write_addresses(alloc, json, names, &tables.locations)?;
    write_location_lines(json, names, tables)?;
    json.end_object()
}

// Writes the callers of stacks.
fn write_parents(json: &mut Writer, stacks: &StackNodes) -> Result<(), AllocError> {
    begin_column(json, "parent")?;
    for index in 0..stacks.len() {
        if let Some(node) = stacks.get(index) {
            write_index(json, node.parent)?;
        }
    }
    json.end_array()
}

// Writes the locations of stacks.
fn write_leaves(json: &mut Writer, stacks: &StackNodes) -> Result<(), AllocError> {
    begin_column(json, "location")?;
    for index in 0..stacks.len() {
        if let Some(node) = stacks.get(index) {
            json.u64(node.location as u64)?;
        }
    }
    json.end_array()
}

/// Writes the stacks.
pub(crate) fn write_stacks(json: &mut Writer, tables: &Tables) -> Result<(), AllocError> {
    begin_table(json, "stacks")?;
    write_parents(json, &tables.stacks)?;
    write_leaves(json, &tables.stacks)?;
    json.end_object()
}
