//! Reading a given number of bytes.
ghost use Rattle.std.specs.Prelude.{◌≡◌};
ghost use Rattle.perfdata_sources.specs.Source.{PausesOnlyOnError};
ghost use Rattle.perfdata_sections.specs.ParsedPart.{NoPauseIfOutOfMemory, ReadsBytes};

use perfdata_base::source::{AppendError, Source, append_exact};
use std::alloc::Global;

/// Reads `count` bytes into a new `Vec`, in chunks of at most 4,096 bytes.
///
/// Fails with an `UnexpectedEof` source error if the source returns fewer bytes. If memory runs out or the
/// source fails, some of the bytes may be consumed.
pub fn read_bytes<R: Source>(
    alloc: Global,
    source: &mut R,
    count: usize,
) -> Result<Vec<u8>, AppendError>
    ensures reads { ReadsBytes (R.state source.old) count result (R.state source.new) }
    ensures pauses { PausesOnlyOnError (R.state source.old) result (R.state source.new) }
    ensures memory { NoPauseIfOutOfMemory (R.state source.old) result (R.state source.new) }
    ensures same_loan { R.loan source.new ≡ R.loan source.old }
{
    let mut bytes = Vec::new(alloc);
    append_exact(source, &mut bytes, count)?;
    Ok(bytes)
}
