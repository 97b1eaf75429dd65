//! The copy of the stack.
ghost use Rattle.std.specs.Prelude.{◌≡◌, ◌≤◌, length};

use code_cfi::read_fixed;

/// The copy of the first bytes of a stack.
#[derive(Clone, Copy, Debug)]
pub struct StackCopy<'a> {
    /// The address of the first byte, which is the stack pointer.
    pub address: u64,
    /// The bytes.
    pub bytes: &'a [u8],
}

impl<'a> StackCopy<'a> {
    ghost use Rattle.code_unwind.specs.Stacks.{word_of};

    /// Returns the little-endian number of `size` bytes at an address, or `None` if the copy doesn't have
    /// all of them. Addresses go on at 0 after the last one.
    pub fn word(&self, address: u64, size: usize) -> Option<u64>
        requires { size ≤ 8 }
        ensures { result ≡ word_of self.now address size }
    {
        let offset = address.wrapping_sub(self.address);
        let len = self.bytes.len() as u64;
        if size as u64 > len || offset > len - size as u64 {
            return None;
        }
        let start = offset as usize;
        match read_fixed(&self.bytes[start..start + size], size) {
            Ok((number, _)) => Some(number),
            Err(_) => None,
        }
    }
}
