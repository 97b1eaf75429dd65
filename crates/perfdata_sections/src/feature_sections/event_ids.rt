//! Event ids, of eight bytes each.
ghost use Rattle.std.specs.Prelude.{◌≡◌, ◌++◌, ◌≤◌, ◌/◌, length, OnErr, OnOk};
ghost use Rattle.perfdata_sources.specs.Source.{PausesOnlyOnError};
ghost use Rattle.perfdata_sections.specs.EventIds.{ReadsIds, u64s_of};
ghost use Rattle.perfdata_sections.specs.steps.EventIds.{AppendsIds};
ghost use Rattle.perfdata_sections.specs.ParsedPart.{NoPauseIfOutOfMemory};

use perfdata_base::raw::FileOrder;
use perfdata_base::source::{AppendError, Source, read_exact};
use std::alloc::{AllocError, Global};

// The size in bytes of an id.
const ID_SIZE: usize = 8;

// The maximum number of bytes per read. The buffer is cleared for each list, and most lists are short.
const ID_BUFFER_SIZE: usize = 512;

// Appends the ids in `bytes`.
fn push_ids<T: FileOrder>(ids: &mut Vec<u64>, bytes: &[u8]) -> Result<(), AllocError>
    ensures ids { OnOk result (ids.new.items ≡ ids.old.items
        ++ u64s_of T.number_of (length bytes.now / 8) bytes.now) }
    ensures memory { OnErr result (8 ≤ length bytes.now) }
{
    let mut rest = bytes;
    'ids: while rest.len() >= ID_SIZE {
        ids.push(T::read_u64(rest))?;
        rest = &rest[ID_SIZE..];
    }
    Ok(())
}

// Fills `buf` with ids, and appends them to `ids`.
fn append_ids<R: Source, T: FileOrder>(
    source: &mut R,
    buf: &mut [u8],
    ids: &mut Vec<u64>,
) -> Result<(), AppendError>
    ensures reads { AppendsIds T.number_of (length buf.new)
        (R.state source.old) ids.old.items result ids.new.items (R.state source.new) }
    ensures pauses { PausesOnlyOnError (R.state source.old) result (R.state source.new) }
    ensures memory { NoPauseIfOutOfMemory (R.state source.old) result (R.state source.new) }
    ensures same_loan { R.loan source.new ≡ R.loan source.old }
{
    read_exact(source, buf)?;
    push_ids::<T>(ids, buf)?;
    Ok(())
}

// Reads `count` ids at the source's position, at most 64 per read.
pub(crate) fn read_ids<R: Source, T: FileOrder>(
    alloc: Global,
    source: &mut R,
    count: u64,
) -> Result<Vec<u64>, AppendError>
    ensures reads { ReadsIds T.number_of count (R.state source.old) result (R.state source.new) }
    ensures pauses { PausesOnlyOnError (R.state source.old) result (R.state source.new) }
    ensures memory { NoPauseIfOutOfMemory (R.state source.old) result (R.state source.new) }
    ensures same_loan { R.loan source.new ≡ R.loan source.old }
{
    let mut buffer = [0u8; ID_BUFFER_SIZE];
    let mut ids = Vec::new(alloc);
    let mut remaining = count;
    'reads: while remaining > 0 {
        let wanted = remaining.min((ID_BUFFER_SIZE / ID_SIZE) as u64);
        let size = wanted as usize * ID_SIZE;
        append_ids::<R, T>(source, &mut buffer[..size], &mut ids)?;
        remaining -= wanted;
    }
    Ok(ids)
}
