//! Samples.
ghost use Rattle.std.specs.Prelude.{◌≡◌};
ghost use Rattle.perfdata_sources.specs.Raw.{bytes_of};
ghost use Rattle.perfdata_events.specs.Single.{KeepsSingle};
ghost use Rattle.perfdata_events.specs.SingleParts.{SingleSample};
ghost use Rattle.perfdata_sources.specs.Endian.{number_in};
ghost use Rattle.perfdata_events.specs.Format.{Decodes};

use crate::fields::call_chain::CallChain;
use crate::fields::read_values::ReadValues;
use crate::fields::registers::SampleRegisters;
use crate::fields::task::Task;
use crate::fields::words::read_u64_if;
use crate::format::EventFormat;
use crate::record_masks::DataSource;
use crate::sample_bits::SampleFields;
use bitflags::Flags;
use perfdata_base::raw::RawData;
use std::io::Result;

pub mod end;
pub mod parts;
pub mod words;

use end::SampleEnd;
use parts::{BranchStack, UserStack, read_raw_data_if};
use words::{EventFields, OriginFields};

/// A sample of an event (`PERF_RECORD_SAMPLE`). A field is `None` if the attribute doesn't select it.
#[derive(Clone, Copy, Debug)]
pub struct SampleRecord<'a> {
    /// The identifier of the event, at an offset that doesn't depend on the other fields.
    pub identifier: Option<u64>,
    /// The address of the instruction.
    pub ip: Option<u64>,
    /// The process and the thread.
    pub task: Option<Task>,
    /// The time.
    pub timestamp: Option<u64>,
    /// The address in memory.
    pub address: Option<u64>,
    /// The identifier of the event.
    pub id: Option<u64>,
    /// The identifier of the event itself, also if another task inherited it.
    pub stream_id: Option<u64>,
    /// The processor.
    pub cpu: Option<u32>,
    /// The number of events since the previous sample.
    pub period: Option<u64>,
    /// The values of the event's counters.
    pub values: Option<ReadValues<'a>>,
    /// The call chain.
    pub call_chain: Option<CallChain<'a>>,
    /// Raw data, as of a tracepoint.
    pub raw: Option<RawData<'a>>,
    /// The last branches.
    pub branch_stack: Option<BranchStack<'a>>,
    /// The registers of the program.
    pub user_registers: Option<SampleRegisters<'a>>,
    /// A copy of the start of the program's stack.
    pub user_stack: Option<UserStack<'a>>,
    /// The weight: the cost of the access, in the unit of the hardware. With [`SampleFields::WEIGHT_STRUCT`]
    /// it is three numbers, see [`WeightStruct`](crate::sample::end::WeightStruct).
    pub weight: Option<u64>,
    /// Where the data came from, as bits, see [`SampleRecord::named_data_source`].
    pub data_source: Option<u64>,
    /// Why a transaction was aborted, as bits.
    pub transaction: Option<u64>,
    /// The registers at the interrupt.
    pub interrupt_registers: Option<SampleRegisters<'a>>,
    /// The physical address of the data.
    pub physical_address: Option<u64>,
    /// The id of the control group.
    pub cgroup: Option<u64>,
    /// The size of the page of the data, in bytes.
    pub data_page_size: Option<u64>,
    /// The size of the page of the instruction, in bytes.
    pub code_page_size: Option<u64>,
    /// Aux data.
    pub aux_data: Option<RawData<'a>>,
}

impl<'a> SampleRecord<'a> {
    ghost use Rattle.std.specs.Prelude.{IfSome, IfNone, None, Some};
    ghost use Rattle.perfdata_events.specs.Sample.{sample, sample_of};

    /// Returns where the data came from by names, or `None` if the attribute doesn't select it.
    pub fn named_data_source(&self) -> Option<DataSource>
        ensures some { IfSome result (λ source. self.now.data_source ≡ Some source.0) }
        ensures none { IfNone result (self.now.data_source ≡ None) }
    {
        self.data_source.map(DataSource)
    }

    /// Parses the fields that a format selects at the start of `fields`, and removes them.
    ///
    /// Fails with an `UnexpectedEof` error if they are truncated.
    #[inline(always)]
    pub fn parse(format: &EventFormat, fields: &mut RawData<'a>) -> Result<SampleRecord<'a>>
        ensures decodes { Decodes (sample (number_in format.now.endian) format.now) sample_of
            (bytes_of fields.old) result (bytes_of fields.new) }
        ensures single { KeepsSingle SingleSample fields.old result fields.new }
    {
        let endian = format.endian;
        let bits = format.sample_format;
        let masks = format.register_masks();
        let origin = OriginFields::parse(endian, bits, fields)?;
        let event = EventFields::parse(endian, bits, fields)?;
        let period = read_u64_if(endian, fields, bits.contains(SampleFields::PERIOD))?;
        let values = ReadValues::parse_if(format, fields)?;
        let call_chain = CallChain::parse_if(format, fields)?;
        let raw = read_raw_data_if(format, fields)?;
        let branch_stack = BranchStack::parse_if(format, fields)?;
        let user_registers = SampleRegisters::parse_user(endian, bits, masks, fields)?;
        let user_stack = UserStack::parse_if(format, fields)?;
        let end = SampleEnd::parse(endian, bits, masks, fields)?;
        Ok(SampleRecord {
            identifier: origin.identifier,
            ip: origin.ip,
            task: origin.task,
            timestamp: origin.timestamp,
            address: event.address,
            id: event.id,
            stream_id: event.stream_id,
            cpu: event.cpu,
            period,
            values,
            call_chain,
            raw,
            branch_stack,
            user_registers,
            user_stack,
            weight: end.weight,
            data_source: end.data.data_source,
            transaction: end.data.transaction,
            interrupt_registers: end.interrupt_registers,
            physical_address: end.pages.physical_address,
            cgroup: end.pages.cgroup,
            data_page_size: end.pages.data_page_size,
            code_page_size: end.pages.code_page_size,
            aux_data: end.aux_data,
        })
    }
}
