//! Parses simpleperf's meta info: pairs of strings.
ghost use Rattle.std.specs.Prelude.{◌≡◌, ◌∷◌};
ghost use Rattle.std.specs.Iterator.{YieldsFirstBy, item_count};
ghost use Rattle.perfdata_simpleperf.specs.MetaInfo.{nul_segments, ParsesMetaInfo};
ghost use Rattle.perfdata_simpleperf.specs.steps.MetaInfo.{InsertsPair};
ghost use Rattle.perfdata_simpleperf.specs.MetaInfoPairs.{remaining_segments, remaining_pairs, pair_of};

use crate::simpleperf::nul_text::split_at_nul;
use perfdata_sections::error::Error;
use std::alloc::Global;
use std::collections::HashMap;

// Returns the first segment. If a NUL ends it, also returns the bytes after the NUL.
fn split_first_segment(bytes: &[u8]) -> (&[u8], Option<&[u8]>)
    ensures { nul_segments bytes.now ≡ result.0.now ∷ remaining_segments result.1 }
{
    match split_at_nul(bytes) {
        Some((segment, rest)) => (segment, Some(rest)),
        None => (bytes, None),
    }
}

// Iterates over the pairs of segments between NULs.
#[derive(Drop)]
struct Pairs<'a> {
    rest: Option<&'a [u8]>,
}

impl<'a> Iterator for Pairs<'a> {
    type Item = (&'a [u8], &'a [u8]);

    ghost next_gives = { YieldsFirstBy pair_of remaining_pairs };

    ghost remaining = { item_count remaining_pairs };

    fn next(&mut self) -> Option<(&'a [u8], &'a [u8])> {
        let (key, after_key) = split_first_segment(self.rest?);
        let (value, rest) = split_first_segment(after_key?);
        self.rest = rest;
        Some((key, value))
    }
}

// Inserts a key with its value. Fails with `StringUtf8` if one of them isn't UTF-8.
fn insert_pair<'a>(
    map: &mut HashMap<&'a str, &'a str>,
    key: &'a [u8],
    value: &'a [u8],
) -> Result<(), Error>
    ensures { InsertsPair map.old (key.now, value.now) result map.new }
{
    let (Ok(key), Ok(value)) = (std::str::from_utf8(key), std::str::from_utf8(value)) else {
        return Err(Error::StringUtf8);
    };
    map.insert(key, value)?;
    Ok(())
}

/// Parses the pairs of simpleperf's meta info (section SIMPLEPERF_META_INFO).
///
/// The segments between NULs are alternately a key and its value. The last value of a key counts. A last
/// segment without a partner is ignored and isn't checked.
///
/// Fails with `StringUtf8` if a key or a value isn't UTF-8, and with `Memory` if out of memory.
pub fn parse_meta_info_map(alloc: Global, bytes: &[u8]) -> Result<HashMap<&str, &str>, Error>
    ensures { ParsesMetaInfo bytes.now result }
{
    let mut map = HashMap::new(alloc);
    let pairs = Pairs { rest: Some(bytes) };
    'pairs: for (key, value) in pairs {
        insert_pair(&mut map, key, value)?;
    }
    Ok(map)
}
