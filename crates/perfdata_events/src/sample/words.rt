//! The words of a sample up to its processor.
ghost use Rattle.perfdata_sources.specs.Raw.{bytes_of};
ghost use Rattle.perfdata_events.specs.Single.{KeepsSingle, NoParts};
ghost use Rattle.perfdata_sources.specs.Endian.{number_in};
ghost use Rattle.perfdata_events.specs.Format.{Decodes};

use crate::fields::task::Task;
use crate::fields::words::{read_task_if, read_u32_if, read_u64_if};
pub use crate::sample::end::{DataWords, PageFields, WeightStruct};
use crate::sample_bits::SampleFields;
use bitflags::Flags;
use perfdata_base::raw::{Endianness, RawData};
use std::io::Result;

/// The first words of a sample. A field is `None` if the attribute doesn't select it.
#[derive(Clone, Copy, Debug, PartialEq, Eq)]
pub struct OriginFields {
    /// The identifier of the event, at an offset that doesn't depend on the other fields.
    pub identifier: Option<u64>,
    /// The address of the instruction.
    pub ip: Option<u64>,
    /// The process and the thread.
    pub task: Option<Task>,
    /// The time.
    pub timestamp: Option<u64>,
}

/// The next words of a sample. A field is `None` if the attribute doesn't select it.
#[derive(Clone, Copy, Debug, PartialEq, Eq)]
pub struct EventFields {
    /// The address in memory.
    pub address: Option<u64>,
    /// The identifier of the event.
    pub id: Option<u64>,
    /// The identifier of the event itself, also if another task inherited it.
    pub stream_id: Option<u64>,
    /// The processor.
    pub cpu: Option<u32>,
}

impl OriginFields {
    ghost use Rattle.perfdata_events.specs.Sample.{origin_words};

    /// Parses the words that a sample format selects at the start of `fields`, and removes them.
    ///
    /// Fails with an `UnexpectedEof` error if they are truncated.
    #[inline(always)]
    pub fn parse(
        endian: Endianness,
        sample_format: SampleFields,
        fields: &mut RawData<'_>,
    ) -> Result<OriginFields>
        ensures decodes { Decodes (origin_words (number_in endian) sample_format.0) (λ v. v)
            (bytes_of fields.old) result (bytes_of fields.new) }
        ensures single { KeepsSingle NoParts fields.old result fields.new }
    {
        let identifier = read_u64_if(
            endian,
            fields,
            sample_format.contains(SampleFields::IDENTIFIER),
        )?;
        let ip = read_u64_if(endian, fields, sample_format.contains(SampleFields::IP))?;
        let task = read_task_if(endian, fields, sample_format.contains(SampleFields::TID))?;
        let timestamp = read_u64_if(endian, fields, sample_format.contains(SampleFields::TIME))?;
        Ok(OriginFields {
            identifier,
            ip,
            task,
            timestamp,
        })
    }
}

impl EventFields {
    ghost use Rattle.perfdata_events.specs.Sample.{event_words};

    /// Parses the words that a sample format selects at the start of `fields`, and removes them.
    ///
    /// Fails with an `UnexpectedEof` error if they are truncated.
    #[inline(always)]
    pub fn parse(
        endian: Endianness,
        sample_format: SampleFields,
        fields: &mut RawData<'_>,
    ) -> Result<EventFields>
        ensures decodes { Decodes (event_words (number_in endian) sample_format.0) (λ v. v)
            (bytes_of fields.old) result (bytes_of fields.new) }
        ensures single { KeepsSingle NoParts fields.old result fields.new }
    {
        let address = read_u64_if(endian, fields, sample_format.contains(SampleFields::ADDR))?;
        let id = read_u64_if(endian, fields, sample_format.contains(SampleFields::ID))?;
        let stream_id = read_u64_if(
            endian,
            fields,
            sample_format.contains(SampleFields::STREAM_ID),
        )?;
        let cpu = read_u32_if(endian, fields, sample_format.contains(SampleFields::CPU))?;
        Ok(EventFields {
            address,
            id,
            stream_id,
            cpu,
        })
    }
}
