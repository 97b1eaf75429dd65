//! Optional words of eight bytes each, and lists of numbers.
ghost use Rattle.std.specs.Prelude.{◌≡◌, ◌<◌, ◌*◌, [], ◌∷◌, length, take};
ghost use Rattle.std.specs.Prelude.{IfErr, IfOk, IfSome, IfNone, OnErr, OnOk};
ghost use Rattle.perfdata_sources.specs.Raw.{DropsPrefix, EndsBefore, bytes_of};
ghost use Rattle.perfdata_events.specs.Single.{KeepsSingle, NoParts};
ghost use Rattle.perfdata_events.specs.SingleParts.{SingleNumbers};
ghost use Rattle.perfdata_sources.specs.Endian.{number_in};
ghost use Rattle.perfdata_events.specs.Format.{Decodes, fixed};
ghost use Rattle.perfdata_events.specs.Fields.{u32_at, u64_at};
ghost use Rattle.perfdata_events.specs.Words.{word, u64s, u64s_in};
ghost use Rattle.perfdata_events.specs.Task.{task_at};

use crate::fields::numbers::{field_i32, field_u32, field_u64};
use crate::fields::task::Task;
use crate::fields::u64s::{RawDataU64, split_off_elements};
use perfdata_base::raw::{Endianness, RawData};
use std::io::Result;

// Removes the first N bytes, and returns them by value: a word that was written into a buffer byte by byte is
// slow to load.
#[inline(always)]
fn read_array<const N: usize>(fields: &mut RawData<'_>) -> Result<[u8; N]>
    ensures read { IfOk result (λ bytes. bytes ≡ take N (bytes_of fields.old)) }
    ensures rest { OnOk result (DropsPrefix N fields.old fields.new) }
    ensures too_short { IfErr result (λ error. EndsBefore N (bytes_of fields.old) error) }
    ensures unchanged { OnErr result (fields.new ≡ fields.old) }
{
    if let RawData::Single(bytes) = *fields {
        if let Some((first, rest)) = bytes.split_first_chunk::<N>() {
            *fields = RawData::Single(rest);
            return Ok(*first);
        }
    }
    let mut bytes = [0u8; N];
    fields.read_exact(&mut bytes)?;
    Ok(bytes)
}

/// Removes a number of eight bytes if it is there.
///
/// Fails with an `UnexpectedEof` error if it is truncated.
#[inline]
pub fn read_u64_if(
    endian: Endianness,
    fields: &mut RawData<'_>,
    present: bool,
) -> Result<Option<u64>>
    ensures decodes { Decodes (word present (u64_at (number_in endian) 0)) (λ v. v) (bytes_of fields.old)
        result (bytes_of fields.new) }
    ensures single { KeepsSingle NoParts fields.old result fields.new }
{
    if !present {
        return Ok(None);
    }
    let bytes = read_array::<8>(fields)?;
    Ok(Some(field_u64(endian, &bytes, 0)))
}

/// Removes a number of four bytes and four reserved bytes if they are there.
///
/// Fails with an `UnexpectedEof` error if they are truncated.
#[inline]
pub fn read_u32_if(
    endian: Endianness,
    fields: &mut RawData<'_>,
    present: bool,
) -> Result<Option<u32>>
    ensures decodes { Decodes (word present (u32_at (number_in endian) 0)) (λ v. v) (bytes_of fields.old)
        result (bytes_of fields.new) }
    ensures single { KeepsSingle NoParts fields.old result fields.new }
{
    if !present {
        return Ok(None);
    }
    let bytes = read_array::<8>(fields)?;
    Ok(Some(field_u32(endian, &bytes, 0)))
}

/// Removes a process id and a thread id if they are there.
///
/// Fails with an `UnexpectedEof` error if they are truncated.
#[inline]
pub fn read_task_if(
    endian: Endianness,
    fields: &mut RawData<'_>,
    present: bool,
) -> Result<Option<Task>>
    ensures decodes { Decodes (word present (task_at (number_in endian))) (λ v. v) (bytes_of fields.old)
        result (bytes_of fields.new) }
    ensures single { KeepsSingle NoParts fields.old result fields.new }
{
    if !present {
        return Ok(None);
    }
    let bytes = read_array::<8>(fields)?;
    Ok(Some(Task {
        pid: field_i32(endian, &bytes, 0),
        tid: field_i32(endian, &bytes, 4),
    }))
}

/// Removes a number of eight bytes.
///
/// Fails with an `UnexpectedEof` error if it is truncated.
pub fn read_u64(endian: Endianness, fields: &mut RawData<'_>) -> Result<u64>
    ensures decodes { Decodes (fixed 8 (u64_at (number_in endian) 0)) (λ v. v) (bytes_of fields.old) result
        (bytes_of fields.new) }
    ensures single { KeepsSingle NoParts fields.old result fields.new }
{
    let bytes = read_array::<8>(fields)?;
    Ok(field_u64(endian, &bytes, 0))
}

/// Removes a number of four bytes.
///
/// Fails with an `UnexpectedEof` error if it is truncated.
pub fn read_u32(endian: Endianness, fields: &mut RawData<'_>) -> Result<u32>
    ensures decodes { Decodes (fixed 4 (u32_at (number_in endian) 0)) (λ v. v) (bytes_of fields.old) result
        (bytes_of fields.new) }
    ensures single { KeepsSingle NoParts fields.old result fields.new }
{
    let bytes = read_array::<4>(fields)?;
    Ok(field_u32(endian, &bytes, 0))
}

/// Removes a process id and a thread id.
///
/// Fails with an `UnexpectedEof` error if they are truncated.
pub fn read_task(endian: Endianness, fields: &mut RawData<'_>) -> Result<Task>
    ensures decodes { Decodes (fixed 8 (task_at (number_in endian))) (λ v. v) (bytes_of fields.old) result
        (bytes_of fields.new) }
    ensures single { KeepsSingle NoParts fields.old result fields.new }
{
    let bytes = read_array::<8>(fields)?;
    Ok(Task {
        pid: field_i32(endian, &bytes, 0),
        tid: field_i32(endian, &bytes, 4),
    })
}

/// Removes `count` elements, each of `width` numbers.
///
/// Fails with an `UnexpectedEof` error if they are truncated.
pub fn read_u64s<'a>(
    endian: Endianness,
    fields: &mut RawData<'a>,
    count: u64,
    width: u64,
) -> Result<RawDataU64<'a>>
    requires { width < 1024 }
    ensures decodes { Decodes (u64s (number_in endian) (width * count)) u64s_in (bytes_of fields.old) result
        (bytes_of fields.new) }
    ensures single { KeepsSingle SingleNumbers fields.old result fields.new }
{
    let bytes = split_off_elements(fields, count, 8 * width)?;
    Ok(RawDataU64 { endian, bytes })
}

/// Removes `count` numbers.
///
/// Fails with an `UnexpectedEof` error if they are truncated.
pub fn read_u64_list<'a>(
    endian: Endianness,
    fields: &mut RawData<'a>,
    count: u64,
) -> Result<RawDataU64<'a>>
    ensures decodes { Decodes (u64s (number_in endian) count) u64s_in (bytes_of fields.old) result
        (bytes_of fields.new) }
    ensures single { KeepsSingle SingleNumbers fields.old result fields.new }
{
    read_u64s(endian, fields, count, 1)
}

// Splits into the first number and the others.
pub(crate) fn split_first_u64(values: RawDataU64<'_>) -> Option<(u64, RawDataU64<'_>)>
    ensures none { IfNone result (u64s_in values.entry ≡ []) }
    ensures some { IfSome result (λ parts. u64s_in values.entry ≡ parts.0 ∷ u64s_in parts.1) }
    ensures shorter { IfSome result (λ parts. length (bytes_of parts.1.bytes)
        < length (bytes_of values.entry.bytes)) }
{
    let mut rest = values.bytes;
    let Ok(value) = read_u64(values.endian, &mut rest) else {
        return None;
    };
    let others = RawDataU64 {
        endian: values.endian,
        bytes: rest,
    };
    Some((value, others))
}
