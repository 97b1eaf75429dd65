//! String tables.
ghost use Rattle.std.specs.List.{position_or_len};
ghost use Rattle.std.specs.Prelude.{◌≡◌, ◌≤◌, ◌==◌, IfOk, length};
ghost use Rattle.std.proofs.Props.{props};
ghost use Rattle.code_symbols.specs.Strings.{AreNuls, IsStringAt, IsStringEnd, string_in};

use crate::text::part_end;
use memchr::memchr;
use std::alloc::{AllocError, Global};

// The bytes of a string table, and the offsets of its NULs, so that the end of a name is found in logarithmic
// time however long the names are.
#[derive(Drop)]
pub(crate) struct Strings {
    bytes: Vec<u8>,
    nuls: Vec<usize>,
    ghost listed: { AreNuls bytes.items nuls.items (length bytes.items) } by { Prim.hlevel props },
}

// The offset of the first such byte, or the number of bytes if there is none.
pub(crate) fn byte_offset(byte: u8, bytes: &[u8]) -> usize
    ensures is { result ≡ position_or_len (λ b. b == byte) bytes.now }
    ensures within { result ≤ length bytes.now }
{
    match memchr(byte, bytes) {
        Some(at) => at,
        None => bytes.len(),
    }
}

// The offsets of the NULs.
fn find_nuls(alloc: Global, bytes: &[u8]) -> Result<Vec<usize>, AllocError>
    ensures { IfOk result (λ nuls. AreNuls bytes.now nuls.items (length bytes.now)) }
{
    let mut nuls = Vec::new(alloc);
    let mut at = part_end(bytes, 0, 0);
    'nuls: while at < bytes.len() {
        nuls.push(at)?;
        at = part_end(bytes, at + 1, 0);
    }
    Ok(nuls)
}

impl Strings {
    ghost use Rattle.code_symbols.specs.StringTable.{bytes_of};

    pub(crate) fn new(alloc: Global, bytes: Vec<u8>) -> Result<Strings, AllocError>
        ensures { IfOk result (λ s. bytes_of s ≡ bytes.items) }
    {
        let nuls = find_nuls(alloc, &bytes)?;
        Ok(Strings { bytes, nuls })
    }

    pub(crate) fn len(&self) -> usize {
        self.bytes.len()
    }

    // The end of the string that starts at an offset: its NUL, or the end of the table.
    pub(crate) fn string_end(&self, start: usize) -> usize
        ensures within { result ≤ length (bytes_of self.now) }
        ensures end { start ≤ length (bytes_of self.now) → IsStringEnd (bytes_of self.now) start result }
    {
        let index = self.nuls.partition_point(|nul| *nul < start);
        if index < self.nuls.len() {
            self.nuls[index]
        } else {
            self.bytes.len()
        }
    }

    // The string that starts at an offset. It is empty if the offset is not in the table.
    pub(crate) fn string(&self, start: usize) -> &[u8]
        ensures at { IsStringAt (bytes_of self.now) start result.now }
        ensures is { result.now ≡ string_in (bytes_of self.now) start }
    {
        if start > self.bytes.len() {
            return &self.bytes[..0];
        }
        let end = self.string_end(start);
        &self.bytes[start..end]
    }

    pub(crate) fn into_bytes(self) -> Vec<u8>
        ensures { result.items ≡ bytes_of self }
    {
        let Strings { bytes, nuls: _ } = self;
        bytes
    }
}
