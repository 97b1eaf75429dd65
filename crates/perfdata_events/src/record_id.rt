//! Who wrote a kernel record, when and where.
ghost use Rattle.std.specs.Prelude.{IfOk, IfErr, ◌≡◌};
ghost use Rattle.std.specs.IoError.{error_kind};
ghost use Rattle.perfdata_sources.specs.Raw.{bytes_of};

use crate::format::EventFormat;
use crate::sample::words::{EventFields, OriginFields};
use crate::sample_id::SampleId;
use perfdata_base::event::{RawEventRecord, RecordType};
use perfdata_base::raw::RawData;
use std::io::Result;

impl EventFormat {
    ghost use Rattle.perfdata_events.specs.RecordId.{ReadsHead, IsSampleIdOf, SampleIdFails};

    // The sample_id fields among the first words of a sample.
    fn head_id(&self, body: RawData<'_>) -> Result<SampleId>
        ensures { ReadsHead self.now (bytes_of body.entry) result }
    {
        let mut fields = body;
        let origin = OriginFields::parse(self.endian, self.sample_format, &mut fields)?;
        let event = EventFields::parse(self.endian, self.sample_format, &mut fields)?;
        Ok(SampleId {
            task: origin.task,
            timestamp: origin.timestamp,
            id: event.id,
            stream_id: event.stream_id,
            cpu: event.cpu,
            identifier: origin.identifier,
        })
    }

    /// Returns who wrote a kernel record, when and where. A field that the attribute doesn't select is
    /// `None`; so are all fields of a record that isn't a sample without the flag SAMPLE_ID_ALL.
    ///
    /// Fails with an `UnexpectedEof` error if the body doesn't contain all of the fields.
    pub fn sample_id(&self, raw: &RawEventRecord<'_>) -> Result<SampleId>
        ensures value { IfOk result (λ id. IsSampleIdOf self.now raw.now id) }
        ensures error { IfErr result (λ error. SampleIdFails self.now raw.now (error_kind error)) }
    {
        if raw.record_type.0 == RecordType::SAMPLE.0 {
            return self.head_id(raw.body);
        }
        if !self.sample_id_all {
            return Ok(SampleId {
                task: None,
                timestamp: None,
                id: None,
                stream_id: None,
                cpu: None,
                identifier: None,
            });
        }
        let (_, trailing) = self.split_trailing(raw.body)?;
        let mut fields = trailing;
        let id = SampleId::parse(self.endian, self.sample_format, &mut fields)?;
        Ok(id)
    }
}
