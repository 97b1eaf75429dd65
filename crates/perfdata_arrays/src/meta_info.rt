//! The keys and values of simpleperf's meta info.
ghost use Rattle.std.specs.Prelude.{◌≡◌, ◌↔◌, ◌+◌, ◌^◌, ◌<◌, IsTrue, length};
ghost use Rattle.std.specs.Str.{IsUtf8};
ghost use Rattle.perfdata_simpleperf.specs.MetaInfo.{IsUtf8Pair};
ghost use Rattle.perfdata_arrays.specs.MetaPairs.{ReadsMetaInfo, pair_entry_at};
ghost use Rattle.perfdata_arrays.specs.steps.MetaPairs.{FindsPair, FindsSegment};

use crate::array::{byte_count, copy_entries};
use crate::status::Status;
use perfdata_sections::feature_sections::before_nul;

/// The positions of a key and of its value in the section.
#[repr(C)]
#[derive(Clone, Copy, Debug, Default, PartialEq, Eq)]
pub struct MetaPair {
    /// The offset of the key in the section, in bytes.
    pub key_offset: u64,
    /// The size of the key in bytes.
    pub key_size: u64,
    /// The offset of the value in the section, in bytes.
    pub value_offset: u64,
    /// The size of the value in bytes.
    pub value_size: u64,
}

const _: () = prove!(size_of::<MetaPair>() == 32);

/// The number of pairs and the status of the call.
#[derive(Clone, Copy, Debug, PartialEq, Eq)]
pub struct MetaInfoResult {
    /// The number of pairs.
    pub count: u64,
    /// Success, or `InvalidUtf8` if the pair after them isn't UTF-8.
    pub status: Status,
}

// The segment that starts at an offset and ends before a NUL or at the end of the section, or `None` past the
// end.
fn find_segment(section: &[u8], offset: u64) -> Option<&[u8]>
    ensures { FindsSegment section.now offset result }
{
    if offset > byte_count(section) {
        return None;
    }
    Some(before_nul(&section[offset as usize..]))
}

// The key that starts at an offset and its value, or `None` if no two segments follow.
fn find_pair(section: &[u8], offset: u64) -> Option<(&[u8], &[u8])>
    ensures { FindsPair section.now offset result }
{
    // For the prover.
    let _size = byte_count(section);
    let key = find_segment(section, offset)?;
    let value = find_segment(section, offset + key.len() as u64 + 1)?;
    Some((key, value))
}

// Whether bytes are UTF-8.
fn is_utf8(bytes: &[u8]) -> bool
    ensures { IsTrue result ↔ IsUtf8 bytes.now }
{
    std::str::from_utf8(bytes).is_ok()
}

// Whether a key and its value are UTF-8.
fn is_utf8_pair(key: &[u8], value: &[u8]) -> bool
    ensures { IsTrue result ↔ IsUtf8Pair (key.now, value.now) }
{
    is_utf8(key) && is_utf8(value)
}

// The positions of a pair whose key is at an offset.
fn pair_entry(offset: u64, key: &[u8], value: &[u8]) -> MetaPair
    requires { offset + length key.now + 1 < 2 ^ 64 }
    ensures { result ≡ pair_entry_at offset (key.now, value.now) }
{
    let key_size = key.len() as u64;
    MetaPair {
        key_offset: offset,
        key_size,
        value_offset: offset + key_size + 1,
        value_size: value.len() as u64,
    }
}

/// Writes the positions of the keys and values of simpleperf's meta info (section SIMPLEPERF_META_INFO), in
/// order.
///
/// The segments between NULs are alternately a key and its value. A last segment without a partner is
/// ignored. If a key occurs more than once, its last value counts. Writes as many entries as `entries` has
/// capacity for; the elements after the last written entry are unchanged. `count` includes the pairs that
/// aren't written.
///
/// The status is `InvalidUtf8` if a key or a value isn't UTF-8. Then `count` is the number of pairs before
/// it.
pub fn meta_info(section: &[u8], entries: &mut [MetaPair]) -> MetaInfoResult
    ensures { ReadsMetaInfo section.now entries.old result entries.new }
{
    // For the prover.
    let _size = byte_count(section);
    let mut offset = 0u64;
    let mut count = 0u64;
    'pairs: while let Some((key, value)) = find_pair(section, offset) {
        if !is_utf8_pair(key, value) {
            return MetaInfoResult {
                count,
                status: Status::InvalidUtf8,
            };
        }
        let entry = pair_entry(offset, key, value);
        copy_entries(entries, count, &[entry]);
        offset = entry.value_offset + entry.value_size + 1;
        count += 1;
    }
    MetaInfoResult {
        count,
        status: Status::Success,
    }
}
