//! Records on what the kernel dropped or limited.
ghost use Rattle.perfdata_sources.specs.Raw.{bytes_of};
ghost use Rattle.perfdata_events.specs.Single.{KeepsSingle, NoParts};
ghost use Rattle.perfdata_sources.specs.Endian.{number_in};
ghost use Rattle.perfdata_events.specs.Format.{Decodes};
ghost use Rattle.perfdata_events.specs.Lost.{lost};
ghost use Rattle.perfdata_events.specs.LostSamples.{lost_samples};
ghost use Rattle.perfdata_events.specs.Throttle.{throttle};

use crate::fields::numbers::field_u64;
use perfdata_base::raw::{Endianness, RawData};
use std::io::Result;

/// Records that the kernel dropped because the buffer was full (`PERF_RECORD_LOST`).
#[derive(Clone, Copy, Debug, PartialEq, Eq)]
pub struct LostRecord {
    /// The identifier of the event.
    pub id: u64,
    /// The number of dropped records.
    pub count: u64,
}

/// Samples that the hardware or the kernel dropped (`PERF_RECORD_LOST_SAMPLES`).
#[derive(Clone, Copy, Debug, PartialEq, Eq)]
pub struct LostSamplesRecord {
    /// The number of dropped samples.
    pub count: u64,
}

/// An event whose samples the kernel began or ceased to limit (`PERF_RECORD_THROTTLE`,
/// `PERF_RECORD_UNTHROTTLE`).
#[derive(Clone, Copy, Debug, PartialEq, Eq)]
pub struct ThrottleRecord {
    /// The time.
    pub timestamp: u64,
    /// The identifier of the event.
    pub id: u64,
    /// The identifier of the event itself, also if another task inherited it.
    pub stream_id: u64,
}

impl LostRecord {
    /// Parses the fields at the start of `fields`, and removes them.
    ///
    /// Fails with an `UnexpectedEof` error if they are truncated.
    pub fn parse(endian: Endianness, fields: &mut RawData<'_>) -> Result<LostRecord>
        ensures decodes { Decodes (lost (number_in endian)) (λ v. v) (bytes_of fields.old) result
            (bytes_of fields.new) }
        ensures single { KeepsSingle NoParts fields.old result fields.new }
    {
        let mut bytes = [0u8; 16];
        fields.read_exact(&mut bytes)?;
        Ok(LostRecord {
            id: field_u64(endian, &bytes, 0),
            count: field_u64(endian, &bytes, 8),
        })
    }
}

impl LostSamplesRecord {
    /// Parses the fields at the start of `fields`, and removes them.
    ///
    /// Fails with an `UnexpectedEof` error if they are truncated.
    pub fn parse(endian: Endianness, fields: &mut RawData<'_>) -> Result<LostSamplesRecord>
        ensures decodes { Decodes (lost_samples (number_in endian)) (λ v. v) (bytes_of fields.old) result
            (bytes_of fields.new) }
        ensures single { KeepsSingle NoParts fields.old result fields.new }
    {
        let mut bytes = [0u8; 8];
        fields.read_exact(&mut bytes)?;
        Ok(LostSamplesRecord {
            count: field_u64(endian, &bytes, 0),
        })
    }
}

impl ThrottleRecord {
    /// Parses the fields at the start of `fields`, and removes them.
    ///
    /// Fails with an `UnexpectedEof` error if they are truncated.
    pub fn parse(endian: Endianness, fields: &mut RawData<'_>) -> Result<ThrottleRecord>
        ensures decodes { Decodes (throttle (number_in endian)) (λ v. v) (bytes_of fields.old) result
            (bytes_of fields.new) }
        ensures single { KeepsSingle NoParts fields.old result fields.new }
    {
        let mut bytes = [0u8; 24];
        fields.read_exact(&mut bytes)?;
        Ok(ThrottleRecord {
            timestamp: field_u64(endian, &bytes, 0),
            id: field_u64(endian, &bytes, 8),
            stream_id: field_u64(endian, &bytes, 16),
        })
    }
}
