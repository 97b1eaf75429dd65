//! Byte orders, and numbers in a byte order that is known at run time.
ghost use Rattle.std.specs.Prelude.{◌≡◌, ◌≤◌, ℕ, List, length, refl};
ghost use Rattle.perfdata_sources.specs.Endian.{number_in};
ghost use Rattle.perfdata_sources.specs.declared.endian.Endianness.{Endianness};
ghost use Rattle.perfdata_sources.specs.declared.endian.Endianness.TheVariants.{LittleEndian as Little};
ghost use Rattle.perfdata_sources.specs.declared.endian.Endianness.TheVariants.{BigEndian as Big};

use byteorder::{BigEndian, ByteOrder, LittleEndian};

/// The byte order of numbers.
#[derive(Clone, Copy, Debug, PartialEq, Eq)]
pub enum Endianness {
    /// The lowest byte is first.
    LittleEndian,
    /// The highest byte is first.
    BigEndian,
}

/// The byte order of a file's numbers, known at compile time.
pub trait FileOrder: ByteOrder {
    ghost ENDIAN: { Endianness };

    const ENDIAN: Endianness;

    // `number_of` agrees with `number_in` for `ENDIAN`.
    ghost reads_by: { (n : ℕ) (xs : List ℕ) → Self.number_of n xs ≡ number_in ENDIAN n xs };
}

impl FileOrder for LittleEndian {
    ghost ENDIAN = { Little };

    const ENDIAN: Endianness = Endianness::LittleEndian;

    ghost reads_by = { λ _ _. refl };
}

impl FileOrder for BigEndian {
    ghost ENDIAN = { Big };

    const ENDIAN: Endianness = Endianness::BigEndian;

    ghost reads_by = { λ _ _. refl };
}

/// Returns the number in the first two bytes, in the byte order `endian`.
pub fn read_u16(endian: Endianness, bytes: &[u8]) -> u16
    requires { 2 ≤ length bytes.now }
    ensures { result ≡ number_in endian 2 bytes.now }
{
    match endian {
        Endianness::LittleEndian => LittleEndian::read_u16(bytes),
        Endianness::BigEndian => BigEndian::read_u16(bytes),
    }
}

/// Returns the number in the first four bytes, in the byte order `endian`.
pub fn read_u32(endian: Endianness, bytes: &[u8]) -> u32
    requires { 4 ≤ length bytes.now }
    ensures { result ≡ number_in endian 4 bytes.now }
{
    match endian {
        Endianness::LittleEndian => LittleEndian::read_u32(bytes),
        Endianness::BigEndian => BigEndian::read_u32(bytes),
    }
}

/// Returns the number in the first eight bytes, in the byte order `endian`.
pub fn read_u64(endian: Endianness, bytes: &[u8]) -> u64
    requires { 8 ≤ length bytes.now }
    ensures { result ≡ number_in endian 8 bytes.now }
{
    match endian {
        Endianness::LittleEndian => LittleEndian::read_u64(bytes),
        Endianness::BigEndian => BigEndian::read_u64(bytes),
    }
}
