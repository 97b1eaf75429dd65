//! Who wrote a record, when and where.
ghost use Rattle.perfdata_sources.specs.Raw.{bytes_of};
ghost use Rattle.perfdata_events.specs.Single.{KeepsSingle, NoParts};
ghost use Rattle.perfdata_sources.specs.Endian.{number_in};
ghost use Rattle.perfdata_events.specs.Format.{Decodes};
ghost use Rattle.perfdata_events.specs.SampleId.{sample_id};

pub use crate::fields::task::Task;
use crate::fields::words::{read_task_if, read_u32_if, read_u64_if};
use crate::sample_bits::SampleFields;
use bitflags::Flags;
use perfdata_base::raw::{Endianness, RawData};
use std::io::Result;

/// Who wrote a record, when and where. A field is `None` if the attribute doesn't select it.
#[derive(Clone, Copy, Debug, PartialEq, Eq)]
pub struct SampleId {
    /// The process and the thread.
    pub task: Option<Task>,
    /// The time.
    pub timestamp: Option<u64>,
    /// The identifier of the event.
    pub id: Option<u64>,
    /// The identifier of the event itself, also if another task inherited it.
    pub stream_id: Option<u64>,
    /// The processor.
    pub cpu: Option<u32>,
    /// The identifier of the event again, at an offset that doesn't depend on the other fields.
    pub identifier: Option<u64>,
}

impl SampleId {
    /// Parses the sample_id fields that a sample format selects at the start of `fields`, and removes them.
    ///
    /// Fails with an `UnexpectedEof` error if they are truncated.
    pub fn parse(
        endian: Endianness,
        format: SampleFields,
        fields: &mut RawData<'_>,
    ) -> Result<SampleId>
        ensures decodes { Decodes (sample_id (number_in endian) format.0) (λ v. v) (bytes_of fields.old)
            result (bytes_of fields.new) }
        ensures single { KeepsSingle NoParts fields.old result fields.new }
    {
        let task = read_task_if(endian, fields, format.contains(SampleFields::TID))?;
        let timestamp = read_u64_if(endian, fields, format.contains(SampleFields::TIME))?;
        let id = read_u64_if(endian, fields, format.contains(SampleFields::ID))?;
        let stream_id = read_u64_if(endian, fields, format.contains(SampleFields::STREAM_ID))?;
        let cpu = read_u32_if(endian, fields, format.contains(SampleFields::CPU))?;
        let identifier = read_u64_if(endian, fields, format.contains(SampleFields::IDENTIFIER))?;
        Ok(SampleId {
            task,
            timestamp,
            id,
            stream_id,
            cpu,
            identifier,
        })
    }
}
