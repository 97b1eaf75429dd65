//! The values of counters.
ghost use Rattle.perfdata_sources.specs.Raw.{bytes_of};
ghost use Rattle.perfdata_events.specs.Single.{KeepsSingle};
ghost use Rattle.perfdata_events.specs.SingleParts.{SingleValuesOf};
ghost use Rattle.perfdata_sources.specs.Endian.{number_in};
ghost use Rattle.perfdata_events.specs.Format.{Decodes};

pub use crate::fields::read_values::{CounterValue, GroupValues, ReadValues, SingleValues};
use crate::fields::task::Task;
use crate::fields::words::read_task;
use crate::sample_bits::ReadFields;
use perfdata_base::raw::{Endianness, RawData};
use std::io::Result;

/// The values of counters when a task ended (`PERF_RECORD_READ`).
#[derive(Clone, Copy, Debug)]
pub struct ReadRecord<'a> {
    /// The process and the thread.
    pub task: Task,
    /// The values.
    pub values: ReadValues<'a>,
}

impl<'a> ReadRecord<'a> {
    ghost use Rattle.perfdata_events.specs.Read.{read, task_values_of};

    /// Parses the fields at the start of `fields`, and removes them. The read format is that of the
    /// attribute.
    ///
    /// Fails with an `UnexpectedEof` error if they are truncated.
    pub fn parse(
        endian: Endianness,
        read_format: ReadFields,
        fields: &mut RawData<'a>,
    ) -> Result<ReadRecord<'a>>
        ensures decodes { Decodes (read (number_in endian) read_format.0) task_values_of (bytes_of fields.old)
            result (bytes_of fields.new) }
        ensures single { KeepsSingle (λ v. SingleValuesOf v.values) fields.old result fields.new }
    {
        let task = read_task(endian, fields)?;
        let values = ReadValues::parse(endian, read_format, fields)?;
        Ok(ReadRecord { task, values })
    }
}
