//! Seeks of a reader whose position is known.
ghost use Rattle.std.specs.Prelude.{◌≡◌, ◌+◌, ◌^◌, ◌<◌, ◌≤◌, IfSome, IsSomeAnd};
ghost use Rattle.std.specs.Io.KnownBytes.{Keeps};
ghost use Rattle.std.specs.Io.Seek.{IsAtOffset, SeekMoves};
ghost use Rattle.perfdata_sources.specs.RelativeSeek.{AgreesWithPosition, IsPositionAfter};
ghost use Rattle.perfdata_sources.specs.steps.RelativeSeek.{IsRelativeSeek};
ghost use Rattle.std.specs.declared.io.SeekFrom.TheVariants.{Start};

use std::io::{Result, Seek, SeekFrom};

// The last position of a file.
const MAX_POSITION: u64 = i64::MAX as u64;

// The offset from a known position to a target, and the target's position.
#[derive(Clone, Copy)]
struct RelativeSeek {
    offset: i64,
    target: u64,
}

// The relative seek between two positions of a file.
fn relative_seek_between(position: u64, target: u64) -> RelativeSeek
    requires position { position ≤ 9223372036854775807 }
    requires target { target ≤ 9223372036854775807 }
    ensures { IsRelativeSeek position (Start target) result.offset result.target }
{
    if position <= target {
        return RelativeSeek {
            offset: (target - position) as i64,
            target,
        };
    }
    RelativeSeek {
        offset: -((position - target) as i64),
        target,
    }
}

// The position at an offset from `here`. `None` if it isn't in 0 to `u64::MAX`.
fn position_at_offset(position: u64, offset: i64) -> Option<u64>
    ensures { IfSome result (IsAtOffset position offset) }
{
    let size = offset.unsigned_abs();
    if offset >= 0 {
        return position.checked_add(size);
    }
    position.checked_sub(size)
}

// The relative seek from a known position to the target of `to`. `None` if the position is unknown, if only
// the reader knows the target, or if either isn't a position of a file.
fn relative_seek_to(known_position: Option<u64>, to: SeekFrom) -> Option<RelativeSeek>
    ensures { IfSome result (λ relative. IsSomeAnd known_position
        (λ position. IsRelativeSeek position to relative.offset relative.target)) }
{
    let position = match known_position {
        Some(position) => position,
        None => return None,
    };
    let target = match to {
        SeekFrom::Start(target) => target,
        SeekFrom::Current(offset) => match position_at_offset(position, offset) {
            Some(target) => target,
            None => return None,
        },
        SeekFrom::End(_) => return None,
    };
    if position > MAX_POSITION || target > MAX_POSITION {
        return None;
    }
    Some(relative_seek_between(position, target))
}

/// The position `count` bytes after `position`. `None` if it is unknown or exceeds `u64::MAX`.
pub(super) fn position_after(position: Option<u64>, count: usize) -> Option<u64>
    ensures { IsPositionAfter position count result }
{
    match position {
        Some(at) => at.checked_add(count as u64),
        None => None,
    }
}

/// Seeks to `to`, and returns the new position. If the position and the target are known, the seek is
/// relative, and a seek to the current position doesn't call the reader.
pub(super) fn seek_from<R: Seek>(
    reader: &mut R,
    known_position: Option<u64>,
    to: SeekFrom,
) -> Result<u64>
    ensures position { AgreesWithPosition known_position (R.stream_position reader.old)
        → SeekMoves (R.stream_position reader.old) (R.stream_position reader.new)
        (R.stream_bytes reader.old) to result }
    ensures bytes { Keeps (R.stream_bytes reader.old) (R.stream_bytes reader.new) }
{
    match relative_seek_to(known_position, to) {
        Some(relative) => {
            if relative.offset != 0 {
                reader.seek_relative(relative.offset)?;
            }
            Ok(relative.target)
        }
        None => Seek::seek(reader, to),
    }
}
