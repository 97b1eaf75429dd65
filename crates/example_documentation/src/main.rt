//! The functions that the documentation of types and calls shows, run on the files in its arguments.
#![tactic(auto)]

mod address_spaces;
mod compressed_records;
mod mapped_files;
mod ordered_records;
mod reading;
mod sample_arrays;
mod symbol_table;

use code_files::{FileOptions, MappedFiles, PathError};
use linux_perf_data::source::Counted;
use linux_perf_data::{PerfFileReader, PerfFileRecord};
use std::env;
use std::fs::File;
use std::io::{BufReader, Read};

// Prints the type of the last record of a file.
fn print_last_type(rt: &HostRuntime, path: &str) -> anyhow::Result<()> {
    let mut bytes = Vec::new(rt.alloc());
    File::open(rt, path)?.read_to_end(&mut bytes)?;
    match reading::last_record(rt.alloc(), &bytes)? {
        Some(PerfFileRecord::EventRecord { event, .. }) => {
            println!(rt; "last record: type {}", event.record_type.0)?
        }
        Some(PerfFileRecord::UserRecord(record)) => {
            println!(rt; "last record: {:?}", record.record_type)?
        }
        None => println!(rt; "no record")?,
    }
    Ok(())
}

// Prints the longest time between two records of a file.
fn print_longest_pause(rt: &HostRuntime, path: &str) -> anyhow::Result<()> {
    let file = BufReader::new(rt.alloc(), File::open(rt, path)?)?;
    let reader = PerfFileReader::parse_file(rt.alloc(), Counted::new(file))?;
    let pause = ordered_records::longest_pause(rt.alloc(), reader)?;
    println!(rt; "longest pause: {pause} ns")?;
    Ok(())
}

// Prints the offset in a file of an address of process 7.
fn print_offset(rt: &HostRuntime, address: u64) -> anyhow::Result<()> {
    let records = [(0, address_spaces::mapping())];
    match address_spaces::offset_in_file(rt.alloc(), &records, 7, address)? {
        Some(offset) => println!(rt; "{address:#x} at offset {offset:#x} of its file")?,
        None => println!(rt; "{address:#x} in no file")?,
    }
    Ok(())
}

// Prints the names of the functions at addresses of a file in the current directory.
fn print_functions(rt: &HostRuntime) -> anyhow::Result<()> {
    let options = FileOptions {
        symfs: Some("."),
        debug_dir: None,
        maps: None,
        vdso: None,
    };
    let mut files = match MappedFiles::open(rt, Some(&options)) {
        Ok(files) => files,
        Err(PathError { error, .. }) => return Err(error.into()),
    };
    let mapping = mapped_files::mapping(rt.alloc())?;
    for address in [0x77, 0x79, 0x7a, 0x7e] {
        match mapped_files::function_name(&mut files, 0, &mapping, address)? {
            Some(name) => println!(rt; "{address:#x} in {}", str::from_utf8(name)?)?,
            None => println!(rt; "{address:#x} in no function")?,
        }
    }
    Ok(())
}

// A pipe of one attribute and a compressed record (type 81): a zstd frame, and a block with two records of
// type 9.
const PIPE: &[u8] = &[
    0x50, 0x45, 0x52, 0x46, 0x49, 0x4c, 0x45, 0x32, 16, 0, 0, 0, 0, 0, 0, 0, 64, 0, 0, 0, 0, 0, 72,
    0, 0, 0, 0, 0, 64, 0, 0, 0, 0, 0, 0, 0, 0, 0, 0, 0, 0, 0, 0, 0, 0, 0, 0, 0, 0, 0, 0, 0, 0, 0,
    0, 0, 0, 0, 0, 0, 0, 0, 0, 0, 0, 0, 0, 0, 0, 0, 0, 0, 0, 0, 0, 0, 0, 0, 0, 0, 0, 0, 0, 0, 0, 0,
    0, 0, 81, 0, 0, 0, 0, 0, 33, 0, 0x28, 0xb5, 0x2f, 0xfd, 0, 0, 128, 0, 0, 9, 0, 0, 0, 0, 0, 8,
    0, 9, 0, 0, 0, 0, 0, 8, 0,
];

// Prints the number of records of a pipe with a compressed record.
fn print_compressed(rt: &HostRuntime) -> anyhow::Result<()> {
    let count = compressed_records::count_records(rt.alloc(), PIPE)?;
    println!(rt; "records of a pipe: {count}")?;
    Ok(())
}

// The addresses of the kernel start here, on x86-64.
const KERNEL_START: u64 = 1 << 63;

// Prints the number of a file's samples with a frame in the kernel, or the status of the first error.
fn print_kernel_samples(rt: &HostRuntime, path: &str) -> anyhow::Result<()> {
    let mut bytes = Vec::new(rt.alloc());
    File::open(rt, path)?.read_to_end(&mut bytes)?;
    match sample_arrays::samples_through(rt.alloc(), &bytes, KERNEL_START, u64::MAX) {
        Ok(count) => println!(rt; "samples with a frame in the kernel: {count}")?,
        Err(status) => println!(rt; "samples: {status:?}")?,
    }
    Ok(())
}

fn main(rt: HostRuntime) -> anyhow::Result<()> {
    for path in env::args(&rt)?.skip(1) {
        reading::print_types(&rt, path.as_str())?;
        print_last_type(&rt, path.as_str())?;
        print_longest_pause(&rt, path.as_str())?;
        print_kernel_samples(&rt, path.as_str())?;
    }
    for address in [0xfff, 0x1000, 0x101f, 0x1020] {
        let is_in_main = symbol_table::is_in_main(rt.alloc(), address)?;
        println!(rt; "{address:#x} in main: {is_in_main}")?;
    }
    for address in [0x40_0123, 0x40_1000] {
        print_offset(&rt, address)?;
    }
    print_compressed(&rt)?;
    print_functions(&rt)
}
