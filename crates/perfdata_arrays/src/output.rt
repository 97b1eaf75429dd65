//! Bytes that are written one after another into an array, up to its capacity.
ghost use Rattle.perfdata_arrays.specs.steps.Written.{WritesMore};

use crate::array::copy_entries;
use linux_perf_data::raw::Endianness;

// The bytes of a number.
fn number_bytes(endian: Endianness, number: u64) -> [u8; 8] {
    match endian {
        Endianness::LittleEndian => number.to_le_bytes(),
        Endianness::BigEndian => number.to_be_bytes(),
    }
}

// Writes bytes after the first `size` ones, and adds their number.
pub(crate) fn push(array: &mut [u8], size: &mut u64, bytes: &[u8])
    ensures { WritesMore size.old array.old size.new array.new }
{
    copy_entries(array, *size, bytes);
    *size = size.saturating_add(bytes.len() as u64);
}

// Writes a number after the first `size` bytes, and adds its size.
pub(crate) fn push_number(array: &mut [u8], size: &mut u64, endian: Endianness, number: u64)
    ensures { WritesMore size.old array.old size.new array.new }
{
    push(array, size, &number_bytes(endian, number));
}

// Returns the bytes from an offset to another; none if they aren't in the input.
pub(crate) fn range(input: &[u8], start: u64, end: u64) -> &[u8] {
    match (usize::try_from(start), usize::try_from(end)) {
        (Ok(start), Ok(end)) => input.get(start..end).unwrap_or(&[]),
        _ => &[],
    }
}
