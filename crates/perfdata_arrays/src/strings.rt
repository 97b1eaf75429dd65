//! Single strings of a feature section.
ghost use Rattle.std.specs.Prelude.{◌≡◌};
ghost use Rattle.perfdata_arrays.specs.Strings.{ReadsString};

use crate::array::byte_count;
use crate::status::Status;
use perfdata_base::endian::read_u32;
use perfdata_base::raw::Endianness;
use perfdata_sections::feature_sections::before_nul;

// The size of the length before a string, in bytes.
const LENGTH_SIZE: usize = 4;

/// The positions of a string in a section.
#[repr(C)]
#[derive(Clone, Copy, Debug, Default, PartialEq, Eq)]
pub struct StringEntry {
    /// The offset of the text in the section, in bytes.
    pub text_offset: u64,
    /// The size of the text in bytes, up to its first NUL.
    pub text_size: u64,
    /// The offset of the bytes after the string, in bytes.
    pub next_offset: u64,
}

const _: () = prove!(size_of::<StringEntry>() == 24);

/// Finds the string at byte `offset` of a section: a length of four bytes, and that many bytes.
///
/// The sections HOSTNAME, OSRELEASE, VERSION, ARCH, CPUDESC and CPUID contain one string. CMDLINE contains a
/// count of four bytes, and that many strings. Returns `Truncated` if the section has no complete string at
/// `offset`; then `out` is unchanged.
pub fn find_string(endian: Endianness, section: &[u8], offset: u64, out: &mut StringEntry) -> Status
    ensures { ReadsString endian section.now offset out.old result out.new }
{
    if offset > byte_count(section) {
        return Status::Truncated;
    }
    let rest = &section[offset as usize..];
    if rest.len() < LENGTH_SIZE {
        return Status::Truncated;
    }
    let size = read_u32(endian, rest) as usize;
    let after_length = &rest[LENGTH_SIZE..];
    if after_length.len() < size {
        return Status::Truncated;
    }
    let text = before_nul(&after_length[..size]);
    let text_offset = offset + LENGTH_SIZE as u64;
    *out = StringEntry {
        text_offset,
        text_size: text.len() as u64,
        next_offset: text_offset + size as u64,
    };
    Status::Success
}
