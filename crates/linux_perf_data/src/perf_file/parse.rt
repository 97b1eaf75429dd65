//! The bytes of the sections of features, and their parsers without a source.
ghost use Rattle.std.specs.Prelude.{◌≡◌, ◌≤◌, length, take, drop};
ghost use Rattle.std.specs.Option.{option_map};
ghost use Rattle.perfdata_sources.specs.Endian.{number_in};
ghost use Rattle.linux_perf_data.specs.FeatureData.{feature_data_of};
ghost use Rattle.linux_perf_data.specs.Values.{ParsesStringSection, ParsesStringList, ParsesU64};
ghost use Rattle.linux_perf_data.specs.Values.{ParsesNrCpus, ParsesSampleTimes, ParsesCompression};
ghost use Rattle.linux_perf_data.specs.Values.{ParsesClockData, ParsesPmuMappings, SplitsString};

use byteorder::{BigEndian, LittleEndian};
use indexmap::IndexMap;
use perfdata_base::endian::{read_u32, read_u64};
use perfdata_base::features::Feature;
use perfdata_base::raw::Endianness;
use perfdata_sections::error::Error;
use perfdata_sections::feature_sections::{
    ClockData, CompressionInfo, NrCpus, PmuMappings, SampleTimeRange, before_nul,
};
use std::alloc::Global;

// The bytes of a feature's section, if `sections` contains it.
pub(crate) fn feature_bytes(
    sections: &IndexMap<Feature, Vec<u8>>,
    feature: Feature,
) -> Option<&[u8]>
    ensures { option_map (λ s. s.now) result ≡ feature_data_of sections.now feature.0 }
{
    match sections.get(&feature) {
        Some(bytes) => Some(bytes.as_slice()),
        None => None,
    }
}

// The text of the string at the start of `bytes`, and the rest after it.
fn split_string(endian: Endianness, bytes: &[u8]) -> Result<(&str, &[u8]), Error>
    ensures { SplitsString endian bytes.now result }
{
    if bytes.len() < 4 {
        return Err(Error::NotEnoughSpaceForStringLen);
    }
    let length = read_u32(endian, bytes) as usize;
    let rest = &bytes[4..];
    if rest.len() < length {
        return Err(Error::StringLengthTooLong);
    }
    let text = std::str::from_utf8(before_nul(&rest[..length]))?;
    Ok((text, &rest[length..]))
}

// The text of a section that contains one string.
pub(crate) fn parse_string(endian: Endianness, bytes: &[u8]) -> Result<&str, Error>
    ensures { ParsesStringSection endian bytes.now result }
{
    let (text, _) = split_string(endian, bytes)?;
    Ok(text)
}

// The texts of a section that contains a list of strings.
pub(crate) fn parse_string_list(
    alloc: Global,
    endian: Endianness,
    bytes: &[u8],
) -> Result<Vec<&str>, Error>
    ensures { ParsesStringList endian bytes.now result }
{
    if bytes.len() < 4 {
        return Err(Error::NotEnoughSpaceForStringListLen);
    }
    let count = read_u32(endian, bytes);
    let mut rest = &bytes[4..];
    let mut texts = Vec::new(alloc);
    'texts: for _index in 0..count {
        let (text, after) = split_string(endian, rest)?;
        texts.push(text)?;
        rest = after;
    }
    Ok(texts)
}

// The number of a section that contains one u64.
pub(crate) fn parse_u64(endian: Endianness, bytes: &[u8]) -> Result<u64, Error>
    ensures { ParsesU64 endian bytes.now result }
{
    if bytes.len() < 8 {
        return Err(Error::FeatureSectionTooSmall);
    }
    Ok(read_u64(endian, bytes))
}

pub(crate) fn parse_nr_cpus(endian: Endianness, bytes: &[u8]) -> Result<NrCpus, Error>
    ensures { ParsesNrCpus endian bytes.now result }
{
    let mut source = bytes;
    Ok(NrCpus::parse_with_endian(endian, &mut source)?)
}

pub(crate) fn parse_sample_times(endian: Endianness, bytes: &[u8]) -> Result<SampleTimeRange, Error>
    ensures { ParsesSampleTimes endian bytes.now result }
{
    let mut source = bytes;
    Ok(SampleTimeRange::parse_with_endian(endian, &mut source)?)
}

pub(crate) fn parse_compression(endian: Endianness, bytes: &[u8]) -> Result<CompressionInfo, Error>
    ensures { ParsesCompression endian bytes.now result }
{
    let mut source = bytes;
    Ok(CompressionInfo::parse_with_endian(endian, &mut source)?)
}

pub(crate) fn parse_clock_data(endian: Endianness, bytes: &[u8]) -> Result<ClockData, Error>
    ensures { ParsesClockData endian bytes.now result }
{
    let mut source = bytes;
    Ok(ClockData::parse_with_endian(endian, &mut source)?)
}

pub(crate) fn parse_pmu_mappings(
    alloc: Global,
    endian: Endianness,
    bytes: &[u8],
) -> Result<PmuMappings, Error>
    ensures { ParsesPmuMappings endian bytes.now result }
{
    let mut source = bytes;
    let read = match endian {
        Endianness::LittleEndian => {
            PmuMappings::read_from::<&[u8], LittleEndian>(alloc, &mut source)
        }
        Endianness::BigEndian => PmuMappings::read_from::<&[u8], BigEndian>(alloc, &mut source),
    };
    match read {
        Ok(units) => Ok(units),
        Err(error) => Err(Error::from(error)),
    }
}
