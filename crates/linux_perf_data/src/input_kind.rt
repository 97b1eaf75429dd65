//! The kind of an input, by its first bytes.
ghost use Rattle.std.specs.Prelude.{ℕ, IfSome, IfNone};
ghost use Rattle.linux_perf_data.specs.InputKind.{StartsWithPerfHeader};

use perfdata_base::endian::read_u64;
use perfdata_base::header::endian_of_magic;
use perfdata_jit::header::endian_of_magic as endian_of_jitdump_magic;

/// The number of bytes at the start of an input that determine its kind.
pub const START_SIZE: usize = 16;

// The size in bytes of the smallest header of a file. The header of a pipe is smaller.
const FILE_HEADER_SIZE: u64 = 104;

/// The kind of an input.
#[derive(Clone, Copy, Debug, PartialEq, Eq)]
pub enum InputKind {
    /// A perf.data file.
    File,
    /// The output of `perf record -o -`, also if it was saved to a file.
    Pipe,
    /// A jitdump.
    JitDump,
}

// Returns the size of the header of a perf.data file or pipe, in the byte order of its magic.
fn perf_header_size(start: &[u8]) -> Option<u64>
    ensures some { IfSome result (λ size. StartsWithPerfHeader start.now size) }
    ensures none { IfNone result ((size : ℕ) → ¬ StartsWithPerfHeader start.now size) }
{
    let endian = endian_of_magic(start.first_chunk::<8>()?)?;
    let size = start.get(8..16)?;
    Some(read_u64(endian, size))
}

impl InputKind {
    ghost use Rattle.linux_perf_data.specs.InputKind.{IsKindOfStart};

    /// Returns the kind of an input that starts with these bytes, or `None` if it isn't known.
    ///
    /// The first `START_SIZE` bytes determine the kind, and later ones are ignored. A jitdump is known by its
    /// first 4 bytes, its magic. A file or a pipe of perf is known by 16 bytes, its magic and the size of its
    /// header: a header of fewer than 104 bytes, of which perf writes 16, is that of a pipe. So `None` means
    /// fewer than 16 bytes, unless they are those of a jitdump, or another magic.
    pub fn of_start(start: &[u8]) -> Option<InputKind>
        ensures kind { IsKindOfStart start.now result }
    {
        if endian_of_jitdump_magic(start.first_chunk::<4>()?).is_some() {
            Some(InputKind::JitDump)
        } else if perf_header_size(start)? < FILE_HEADER_SIZE {
            Some(InputKind::Pipe)
        } else {
            Some(InputKind::File)
        }
    }
}
