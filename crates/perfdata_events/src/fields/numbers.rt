//! Numbers at offsets of a record's fixed part.
ghost use Rattle.std.specs.Prelude.{◌≡◌, ◌+◌, ◌≤◌, length};
ghost use Rattle.perfdata_sources.specs.Endian.{number_in};
ghost use Rattle.perfdata_events.specs.Fields.{u16_at, u32_at, u64_at, i32_at};

use perfdata_base::endian::{read_u16, read_u32, read_u64};
use perfdata_base::raw::Endianness;

/// Returns the number of two bytes at an offset.
pub fn field_u16(endian: Endianness, bytes: &[u8], at: usize) -> u16
    requires { at + 2 ≤ length bytes.now }
    ensures { result ≡ u16_at (number_in endian) at bytes.now }
{
    read_u16(endian, &bytes[at..])
}

/// Returns the number of four bytes at an offset.
pub fn field_u32(endian: Endianness, bytes: &[u8], at: usize) -> u32
    requires { at + 4 ≤ length bytes.now }
    ensures { result ≡ u32_at (number_in endian) at bytes.now }
{
    read_u32(endian, &bytes[at..])
}

/// Returns the number of eight bytes at an offset.
pub fn field_u64(endian: Endianness, bytes: &[u8], at: usize) -> u64
    requires { at + 8 ≤ length bytes.now }
    ensures { result ≡ u64_at (number_in endian) at bytes.now }
{
    read_u64(endian, &bytes[at..])
}

/// Returns the signed number of four bytes at an offset.
pub fn field_i32(endian: Endianness, bytes: &[u8], at: usize) -> i32
    requires { at + 4 ≤ length bytes.now }
    ensures { result ≡ i32_at (number_in endian) at bytes.now }
{
    read_u32(endian, &bytes[at..]).cast_signed()
}
