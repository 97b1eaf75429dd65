//! The numbers of small feature sections, and the units of PMU_MAPPINGS.
ghost use Rattle.std.specs.Prelude.{◌≡◌, ◌+◌, ◌≤◌, ◌<◌, ◌^◌, List, drop, length};
ghost use Rattle.linux_perf_data.specs.RecordEntries.{with_prefix};
ghost use Rattle.perfdata_sources.specs.Endian.{number_in};
ghost use Rattle.perfdata_chunks.specs.Numbers.{ReadsNumbers, ReadsPmu, numbers_of, numbers_size};

use perfdata_arrays::array::copy_prefix;
use perfdata_arrays::status::Status;
use perfdata_arrays::strings::{StringEntry, find_string};
use perfdata_base::endian::{Endianness, read_u32, read_u64};
use perfdata_base::features::{
    HEADER_CLOCK_DATA, HEADER_CLOCKID, HEADER_COMPRESSED, HEADER_DIR_FORMAT, HEADER_NRCPUS,
    HEADER_SAMPLE_TIME, HEADER_TOTAL_MEM,
};

/// The number of a section's numbers, and the status of the call.
#[derive(Clone, Copy, Debug, PartialEq, Eq)]
pub struct NumbersResult {
    /// The number of all numbers.
    pub count: u64,
    /// Success, or the status of the first error.
    pub status: Status,
}

/// A unit of the section PMU_MAPPINGS: what counts the events of a type.
#[repr(C)]
#[derive(Clone, Copy, Debug, Default, PartialEq, Eq)]
pub struct Pmu {
    /// The offset of the name in the section, in bytes.
    pub name_offset: u64,
    /// The size of the name in bytes, up to its first NUL.
    pub name_size: u64,
    /// The offset of the bytes after the unit, in bytes.
    pub next_offset: u64,
    /// The type of the events, as attributes have it.
    pub event_type: u32,
    /// 0.
    pub reserved: u32,
}

const _: () = prove!(size_of::<Pmu>() == 32);

// The size of the numbers of a feature in bytes; 0 for a feature that isn't numbers alone.
fn numbers_size(feature: u32) -> usize
    ensures { result ≡ numbers_size feature }
{
    match feature {
        HEADER_NRCPUS => 8,
        HEADER_TOTAL_MEM => 8,
        HEADER_SAMPLE_TIME => 16,
        HEADER_CLOCKID => 8,
        HEADER_DIR_FORMAT => 8,
        HEADER_COMPRESSED => 20,
        HEADER_CLOCK_DATA => 24,
        _ => 0,
    }
}

// The number of four bytes at an offset.
fn read_u32_number(endian: Endianness, section: &[u8], offset: usize) -> u64
    requires { offset + 4 ≤ length section.now }
    ensures { result ≡ number_in endian 4 (drop offset section.now) }
{
    read_u32(endian, &section[offset..]) as u64
}

// The number of eight bytes at an offset.
fn read_u64_number(endian: Endianness, section: &[u8], offset: usize) -> u64
    requires { offset + 8 ≤ length section.now }
    ensures { result ≡ number_in endian 8 (drop offset section.now) }
{
    read_u64(endian, &section[offset..])
}

// Writes numbers over the start of an array, up to its capacity. Returns how many there are.
fn write_all(numbers: &mut [u64], found: &[u64]) -> usize
    ensures written { numbers.new ≡ with_prefix found.now numbers.old }
    ensures count { result ≡ length found.now }
{
    copy_prefix(numbers, found);
    found.len()
}

// Writes the numbers of a feature, up to the capacity. Returns the number of all.
fn write_numbers(endian: Endianness, section: &[u8], feature: u32, numbers: &mut [u64]) -> usize
    requires { numbers_size feature ≤ length section.now }
    ensures written { numbers.new ≡ with_prefix (numbers_of endian feature section.now) numbers.old }
    ensures count { result ≡ length (numbers_of endian feature section.now) }
{
    match feature {
        HEADER_NRCPUS => {
            let available = read_u32_number(endian, section, 0);
            write_all(numbers, &[available, read_u32_number(endian, section, 4)])
        }
        HEADER_TOTAL_MEM | HEADER_CLOCKID | HEADER_DIR_FORMAT => {
            write_all(numbers, &[read_u64_number(endian, section, 0)])
        }
        HEADER_SAMPLE_TIME => {
            let first = read_u64_number(endian, section, 0);
            write_all(numbers, &[first, read_u64_number(endian, section, 8)])
        }
        HEADER_COMPRESSED => {
            let version = read_u32_number(endian, section, 0);
            let algorithm = read_u32_number(endian, section, 4);
            let level = read_u32_number(endian, section, 8);
            let ratio = read_u32_number(endian, section, 12);
            let mmap_len = read_u32_number(endian, section, 16);
            write_all(numbers, &[version, algorithm, level, ratio, mmap_len])
        }
        HEADER_CLOCK_DATA => {
            let version = read_u32_number(endian, section, 0);
            let clock = read_u32_number(endian, section, 4);
            let wall = read_u64_number(endian, section, 8);
            write_all(
                numbers,
                &[version, clock, wall, read_u64_number(endian, section, 16)],
            )
        }
        _ => 0,
    }
}

/// Writes the numbers of a feature section, up to the capacity of `numbers`, in the order of the section.
///
/// These sections are numbers alone: NRCPUS (the available processors and those online), TOTAL_MEM (the
/// memory in KiB), SAMPLE_TIME (the first and the last time), CLOCKID (a resolution in nanoseconds),
/// DIR_FORMAT (a version), COMPRESSED (version, algorithm, level, ratio, mapped size), and CLOCK_DATA
/// (version, clock id, wall clock, clock time). Another feature has none. `count` counts all of them.
///
/// The status is `Truncated` if the section doesn't contain all of them. Then `count` is 0 and `numbers` is
/// unchanged.
pub fn read_numbers(
    endian: Endianness,
    section: &[u8],
    feature: u32,
    numbers: &mut [u64],
) -> NumbersResult
    ensures { ReadsNumbers endian feature section.now numbers.old result numbers.new }
{
    if section.len() < numbers_size(feature) {
        return NumbersResult {
            count: 0,
            status: Status::Truncated,
        };
    }
    NumbersResult {
        count: write_numbers(endian, section, feature, numbers) as u64,
        status: Status::Success,
    }
}

/// Writes the unit at byte `offset` of the section PMU_MAPPINGS into `out`. The first one is at offset 4,
/// after a count of four bytes.
///
/// A unit is a type of four bytes and a string. Returns `Truncated` if the section has no complete unit at
/// `offset`; then `out` is unchanged.
pub fn read_pmu(endian: Endianness, section: &[u8], offset: u64, out: &mut Pmu) -> Status
    ensures { ReadsPmu endian section.now offset out.old result out.new }
{
    let size = section.len() as u64;
    if offset > size || size - offset < 4 {
        return Status::Truncated;
    }
    let event_type = read_u32(endian, &section[offset as usize..]);
    let mut name = StringEntry {
        text_offset: 0,
        text_size: 0,
        next_offset: 0,
    };
    match find_string(endian, section, offset + 4, &mut name) {
        Status::Success => {
            *out = Pmu {
                name_offset: name.text_offset,
                name_size: name.text_size,
                next_offset: name.next_offset,
                event_type,
                reserved: 0,
            };
            Status::Success
        }
        _ => Status::Truncated,
    }
}
