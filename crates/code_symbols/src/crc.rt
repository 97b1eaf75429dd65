//! The CRC-32 of debug files, which debug links contain.

ghost use Rattle.std.specs.Prelude.{◌≡◌, ◌%◌, ◌++◌, [], ℕ, List, bit_xor};
ghost use Rattle.code_symbols.specs.Crc.{IsCrcOf, crc_32, crc_bits};

// What four bits more make of the lowest four bits of a CRC, for the polynomial 0xedb88320.
const NIBBLES: [u32; 16] = [
    0x0000_0000,
    0x1db7_1064,
    0x3b6e_20c8,
    0x26d9_30ac,
    0x76dc_4190,
    0x6b6b_51f4,
    0x4db2_6158,
    0x5005_713c,
    0xedb8_8320,
    0xf00f_9344,
    0xd6d6_a3e8,
    0xcb61_b38c,
    0x9b64_c2b0,
    0x86d3_d2d4,
    0xa00a_e278,
    0xbdbd_f21c,
];

/// The CRC-32 of bytes that come in pieces (that of zlib, and of `.gnu_debuglink`).
#[derive(Clone, Copy, Debug, PartialEq, Eq)]
pub struct Crc32 {
    state: u32,
}

// The state after four bits, the lowest ones of `bits`.
fn next_state(state: u32, bits: u32) -> u32
    ensures { result ≡ crc_bits 4 (bit_xor state (bits % 16)) }
{
    NIBBLES[((state ^ bits) % 16) as usize] ^ (state >> 4)
}

// The state after a byte.
fn state_after(state: u32, byte: u8) -> u32
    ensures { result ≡ crc_bits 8 (bit_xor state byte) }
{
    let bits = byte as u32;
    next_state(next_state(state, bits), bits >> 4)
}

impl Crc32 {
    /// Returns the CRC of no bytes.
    pub fn new() -> Crc32
        ensures { IsCrcOf result [] }
    {
        Crc32 { state: u32::MAX }
    }

    /// Adds bytes.
    pub fn update(&mut self, bytes: &[u8])
        ensures { (before : List ℕ) → IsCrcOf self.old before → IsCrcOf self.new (before ++ bytes.now) }
    {
        'bytes: for byte in bytes.iter() {
            self.state = state_after(self.state, *byte);
        }
    }

    /// Returns the CRC of the bytes so far.
    pub fn value(&self) -> u32
        ensures { (bytes : List ℕ) → IsCrcOf self.now bytes → result ≡ crc_32 bytes }
    {
        !self.state
    }
}
