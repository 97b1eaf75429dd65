//! The code that the running kernel gives to each process (`[vdso]`).

use crate::directories::none_if_missing;
use std::alloc::AllocError;
use std::fs::File;
use std::io::{Read, Seek, SeekFrom};
use std::{fs, io};

// The mappings of this process, and its memory.
const MAPPINGS_PATH: &str = "/proc/self/maps";

const MEMORY_PATH: &str = "/proc/self/mem";

// The end of the line of its mapping.
const VDSO_NAME: &str = "[vdso]";

// The radix of addresses.
const HEXADECIMAL: u32 = 16;

// A range of addresses.
#[derive(Clone, Copy)]
struct AddressRange {
    start: u64,
    end: u64,
}

// Returns the addresses of the line of a mapping, which are before its first blank.
fn parse_range(line: &str) -> Option<AddressRange> {
    let (addresses, _) = line.split_once(' ')?;
    let (start, end) = addresses.split_once('-')?;
    Some(AddressRange {
        start: u64::from_str_radix(start, HEXADECIMAL).ok()?,
        end: u64::from_str_radix(end, HEXADECIMAL).ok()?,
    })
}

// Returns the addresses of the vDSO in this process.
fn find_range(mappings: &str) -> Option<AddressRange> {
    for line in mappings.lines() {
        if line.ends_with(VDSO_NAME) {
            return parse_range(line);
        }
    }
    None
}

// Reads memory of this process.
fn read_memory(rt: &HostRuntime, range: AddressRange) -> io::Result<Option<Vec<u8>>> {
    let mut memory = File::open(rt, MEMORY_PATH)?;
    memory.seek(SeekFrom::Start(range.start))?;
    let mut bytes = Vec::new(rt.alloc());
    let size = range.end.saturating_sub(range.start);
    memory.take(size).read_to_end(&mut bytes)?;
    Ok(Some(bytes))
}

// Reads the vDSO of this process, or returns `None` if it has none that can be read.
pub(crate) fn read_vdso(rt: &HostRuntime) -> Result<Option<Vec<u8>>, AllocError> {
    let Some(mappings) = none_if_missing(fs::read(rt, MAPPINGS_PATH).map(Some))? else {
        return Ok(None);
    };
    let Ok(mappings) = str::from_utf8(mappings.as_slice()) else {
        return Ok(None);
    };
    match find_range(mappings) {
        Some(range) => none_if_missing(read_memory(rt, range)),
        None => Ok(None),
    }
}
