//! The members of samples, and of records of counter values.

use crate::fields::{Address, Addresses, Bytes};
use crate::names::context_name;
use perfdata_base::raw::RawData;
use perfdata_events::call_chain::CallChain;
use perfdata_events::format::EventFormat;
use perfdata_events::read_values::{GroupValues, ReadRecord, ReadValues};
use perfdata_events::sample::SampleRecord;
use perfdata_events::sample_bits::SampleFields;
use perfdata_events::sample_parts::{BranchStack, SampleRegisters};
use serde::{Described, Serialize, Serializer};

// The counters of a group.
#[derive(Clone, Copy)]
struct Counters<'a>(GroupValues<'a>);

#[derive(Clone, Copy, Serialize)]
struct Counter {
    value: u64,
    #[serde(skip_serializing_if = "Option::is_none")]
    id: Option<u64>,
    #[serde(skip_serializing_if = "Option::is_none")]
    lost: Option<u64>,
}

impl Described for Counters<'_> {}

impl Serialize for Counters<'_> {
    fn serialize<S: Serializer>(&self, out: &mut S) -> Result<(), S::Error> {
        out.begin_seq(None)?;
        for index in 0..self.0.len() {
            if let Some(counter) = self.0.get(index) {
                let (value, id, lost) = (counter.value, counter.id, counter.lost);
                Counter { value, id, lost }.serialize(out)?;
            }
        }
        out.end_seq()
    }
}

/// The values of one counter, or of the counters of a group.
#[derive(Clone, Copy, Serialize)]
pub(crate) struct Values<'a> {
    #[serde(skip_serializing_if = "Option::is_none")]
    value: Option<u64>,
    #[serde(skip_serializing_if = "Option::is_none")]
    time_enabled: Option<u64>,
    #[serde(skip_serializing_if = "Option::is_none")]
    time_running: Option<u64>,
    #[serde(skip_serializing_if = "Option::is_none")]
    id: Option<u64>,
    #[serde(skip_serializing_if = "Option::is_none")]
    lost: Option<u64>,
    #[serde(skip_serializing_if = "Option::is_none")]
    counters: Option<Counters<'a>>,
}

impl<'a> Values<'a> {
    fn new(values: ReadValues<'a>) -> Values<'a> {
        match values {
            ReadValues::Single(single) => Values {
                value: Some(single.value),
                time_enabled: single.time_enabled,
                time_running: single.time_running,
                id: single.id,
                lost: single.lost,
                counters: None,
            },
            ReadValues::Group(group) => Values {
                value: None,
                time_enabled: group.time_enabled,
                time_running: group.time_running,
                id: None,
                lost: None,
                counters: Some(Counters(group)),
            },
        }
    }
}

#[derive(Clone, Copy, Serialize)]
pub(crate) struct Read<'a> {
    pid: i32,
    tid: i32,
    values: Values<'a>,
}

impl<'a> Read<'a> {
    pub(crate) fn new(read: &ReadRecord<'a>) -> Read<'a> {
        Read {
            pid: read.task.pid,
            tid: read.task.tid,
            values: Values::new(read.values),
        }
    }
}

// The frames of a call chain, each as its context and its address.
#[derive(Clone, Copy)]
struct Chain<'a>(CallChain<'a>);

impl Described for Chain<'_> {}

impl Serialize for Chain<'_> {
    fn serialize<S: Serializer>(&self, out: &mut S) -> Result<(), S::Error> {
        out.begin_seq(None)?;
        for frame in self.0.iter() {
            (context_name(frame.context), Address(frame.address)).serialize(out)?;
        }
        out.end_seq()
    }
}

#[derive(Clone, Copy, Serialize)]
struct Branch {
    from: Address,
    to: Address,
    flags: Address,
}

#[derive(Clone, Copy)]
struct Branches<'a>(BranchStack<'a>);

impl Described for Branches<'_> {}

impl Serialize for Branches<'_> {
    fn serialize<S: Serializer>(&self, out: &mut S) -> Result<(), S::Error> {
        out.begin_seq(None)?;
        for index in 0..self.0.len() {
            if let Some(entry) = self.0.get(index) {
                let branch = Branch {
                    from: Address(entry.from),
                    to: Address(entry.to),
                    flags: Address(entry.flags),
                };
                branch.serialize(out)?;
            }
        }
        out.end_seq()
    }
}

#[derive(Clone, Copy, Serialize)]
struct BranchMembers<'a> {
    #[serde(skip_serializing_if = "Option::is_none")]
    hw_index: Option<u64>,
    entries: Branches<'a>,
    #[serde(skip_serializing_if = "Option::is_none")]
    counters: Option<Addresses<'a>>,
}

impl<'a> BranchMembers<'a> {
    fn new(stack: BranchStack<'a>) -> BranchMembers<'a> {
        BranchMembers {
            hw_index: stack.hw_index,
            entries: Branches(stack),
            counters: stack.counters.map(Addresses),
        }
    }
}

#[derive(Clone, Copy, Serialize)]
struct RegisterMembers<'a> {
    abi: u64,
    mask: Address,
    values: Addresses<'a>,
}

impl<'a> RegisterMembers<'a> {
    fn new(mask: u64, registers: SampleRegisters<'a>) -> RegisterMembers<'a> {
        RegisterMembers {
            abi: registers.abi,
            mask: Address(mask),
            values: Addresses(registers.values),
        }
    }
}

/// The members of a sample. They are written from the record itself, since a struct of its optional fields
/// takes longer to fill than to write.
#[derive(Clone, Copy)]
pub(crate) struct Sample<'a> {
    record: &'a SampleRecord<'a>,
    format: &'a EventFormat,
    byte_limit: usize,
}

// The fields from the counter values to the user stack.
const STATE_FIELDS: u64 = SampleFields::READ.0
    | SampleFields::CALLCHAIN.0
    | SampleFields::RAW.0
    | SampleFields::BRANCH_STACK.0
    | SampleFields::REGS_USER.0
    | SampleFields::STACK_USER.0;

// The fields from the weight on.
const ACCESS_FIELDS: u64 = SampleFields::WEIGHT.0
    | SampleFields::WEIGHT_STRUCT.0
    | SampleFields::DATA_SRC.0
    | SampleFields::TRANSACTION.0
    | SampleFields::REGS_INTR.0
    | SampleFields::PHYS_ADDR.0
    | SampleFields::CGROUP.0
    | SampleFields::DATA_PAGE_SIZE.0
    | SampleFields::CODE_PAGE_SIZE.0
    | SampleFields::AUX.0;

// Writes a member unless it is absent.
fn write_optional<T: Serialize + Copy, S: Serializer>(
    out: &mut S,
    name: &str,
    value: Option<T>,
) -> Result<(), S::Error> {
    match value {
        Some(value) => {
            out.key(name)?;
            value.serialize(out)
        }
        None => Ok(()),
    }
}

impl<'a> Sample<'a> {
    pub(crate) fn new(
        record: &'a SampleRecord<'a>,
        format: &'a EventFormat,
        byte_limit: usize,
    ) -> Sample<'a> {
        Sample {
            record,
            format,
            byte_limit,
        }
    }

    fn bytes(&self, bytes: Option<RawData<'a>>) -> Option<Bytes<'a>> {
        bytes.map(|bytes| Bytes::new(bytes, self.byte_limit))
    }

    // Writes the members up to the period.
    fn write_origin<S: Serializer>(&self, out: &mut S) -> Result<(), S::Error> {
        let record = self.record;
        write_optional(out, "identifier", record.identifier)?;
        write_optional(out, "ip", record.ip.map(Address))?;
        write_optional(out, "pid", record.task.map(|task| task.pid))?;
        write_optional(out, "tid", record.task.map(|task| task.tid))?;
        write_optional(out, "timestamp", record.timestamp)?;
        write_optional(out, "address", record.address.map(Address))?;
        write_optional(out, "id", record.id)?;
        write_optional(out, "stream_id", record.stream_id)?;
        write_optional(out, "cpu", record.cpu)?;
        write_optional(out, "period", record.period)
    }

    // Writes the members from the counter values to the user stack.
    fn write_state<S: Serializer>(&self, out: &mut S) -> Result<(), S::Error> {
        let record = self.record;
        let user_registers = record.user_registers;
        let user_mask = self.format.sample_regs_user;
        let stack = record.user_stack;
        write_optional(out, "values", record.values.map(Values::new))?;
        write_optional(out, "call_chain", record.call_chain.map(Chain))?;
        write_optional(out, "raw", self.bytes(record.raw))?;
        write_optional(
            out,
            "branch_stack",
            record.branch_stack.map(BranchMembers::new),
        )?;
        write_optional(
            out,
            "user_registers",
            user_registers.map(|registers| RegisterMembers::new(user_mask, registers)),
        )?;
        write_optional(
            out,
            "user_stack",
            self.bytes(stack.map(|stack| stack.bytes)),
        )?;
        write_optional(
            out,
            "dynamic_size",
            stack.and_then(|stack| stack.dynamic_size),
        )
    }

    // Writes the members from the weight on.
    fn write_access<S: Serializer>(&self, out: &mut S) -> Result<(), S::Error> {
        let record = self.record;
        let interrupt_registers = record.interrupt_registers;
        let interrupt_mask = self.format.sample_regs_intr;
        write_optional(out, "weight", record.weight)?;
        write_optional(out, "data_source", record.data_source.map(Address))?;
        write_optional(out, "transaction", record.transaction.map(Address))?;
        write_optional(
            out,
            "interrupt_registers",
            interrupt_registers.map(|registers| RegisterMembers::new(interrupt_mask, registers)),
        )?;
        write_optional(
            out,
            "physical_address",
            record.physical_address.map(Address),
        )?;
        write_optional(out, "cgroup", record.cgroup)?;
        write_optional(out, "data_page_size", record.data_page_size)?;
        write_optional(out, "code_page_size", record.code_page_size)?;
        write_optional(out, "aux_data", self.bytes(record.aux_data))
    }
}

impl Described for Sample<'_> {}

impl Serialize for Sample<'_> {
    fn serialize<S: Serializer>(&self, out: &mut S) -> Result<(), S::Error> {
        // Most samples have no field of one group or of both.
        let fields = self.format.sample_format.0;
        out.begin_map(None)?;
        self.write_origin(out)?;
        if fields & STATE_FIELDS != 0 {
            self.write_state(out)?;
        }
        if fields & ACCESS_FIELDS != 0 {
            self.write_access(out)?;
        }
        out.end_map()
    }
}
