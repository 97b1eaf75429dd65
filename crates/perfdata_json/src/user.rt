//! The members of records that tools wrote.

use crate::fields::{Address, Bytes, Text};
use perfdata_base::attr::PerfEventAttr;
use perfdata_records::auxtrace::Auxtrace;
use perfdata_records::thread_map::ThreadMap;
use perfdata_records::user_record::HeaderAttr;
use serde::Serialize;
use std::alloc::{AllocError, Global};

#[derive(Drop, Serialize)]
struct Thread<'a> {
    tid: u64,
    name: Text<'a>,
}

#[derive(Drop, Serialize)]
pub(crate) struct Threads<'a> {
    threads: Vec<Thread<'a>>,
}

impl<'a> Threads<'a> {
    pub(crate) fn new(alloc: Global, map: &ThreadMap<'a>) -> Result<Threads<'a>, AllocError> {
        let mut threads = Vec::new(alloc);
        for thread in map.iter() {
            let name = Text::new(alloc, thread.name)?;
            let tid = thread.tid;
            threads.push(Thread { tid, name })?;
        }
        Ok(Threads { threads })
    }
}

// The first fields of an attribute.
#[derive(Clone, Copy, Serialize)]
struct AttributeStart {
    #[serde(rename = "type")]
    event_type: u32,
    size: u32,
    config: Address,
    period_or_freq: u64,
    sample_format: Address,
    read_format: Address,
    flags: Address,
    wakeup: u32,
    bp_type: u32,
    config1: Address,
    config2: Address,
}

// The other fields of an attribute.
#[derive(Clone, Copy, Serialize)]
struct AttributeEnd {
    branch_sample_type: Address,
    sample_regs_user: Address,
    sample_stack_user: u32,
    clockid: i32,
    sample_regs_intr: Address,
    aux_watermark: u32,
    sample_max_stack: u16,
    aux_sample_size: u32,
    sig_data: Address,
    config3: Address,
}

#[derive(Clone, Copy, Serialize)]
struct Attribute {
    #[serde(flatten)]
    start: AttributeStart,
    #[serde(flatten)]
    end: AttributeEnd,
}

impl AttributeStart {
    fn new(attr: &PerfEventAttr) -> AttributeStart {
        AttributeStart {
            event_type: attr.type_,
            size: attr.size,
            config: Address(attr.config),
            period_or_freq: attr.period_or_freq,
            sample_format: Address(attr.sample_format.0),
            read_format: Address(attr.read_format),
            flags: Address(attr.flags.0),
            wakeup: attr.wakeup,
            bp_type: attr.bp_type,
            config1: Address(attr.config1),
            config2: Address(attr.config2),
        }
    }
}

impl AttributeEnd {
    fn new(attr: &PerfEventAttr) -> AttributeEnd {
        AttributeEnd {
            branch_sample_type: Address(attr.branch_sample_type),
            sample_regs_user: Address(attr.sample_regs_user),
            sample_stack_user: attr.sample_stack_user,
            clockid: attr.clockid,
            sample_regs_intr: Address(attr.sample_regs_intr),
            aux_watermark: attr.aux_watermark,
            sample_max_stack: attr.sample_max_stack,
            aux_sample_size: attr.aux_sample_size,
            sig_data: Address(attr.sig_data),
            config3: Address(attr.config3),
        }
    }
}

#[derive(Drop, Serialize)]
pub(crate) struct AttributeAndIds<'a> {
    attribute: Attribute,
    ids: &'a [u64],
}

impl<'a> AttributeAndIds<'a> {
    pub(crate) fn new(header: &'a HeaderAttr) -> AttributeAndIds<'a> {
        AttributeAndIds {
            attribute: Attribute {
                start: AttributeStart::new(&header.attr),
                end: AttributeEnd::new(&header.attr),
            },
            ids: header.ids.as_slice(),
        }
    }
}

#[derive(Clone, Copy, Serialize)]
pub(crate) struct AuxArea<'a> {
    aux_size: u64,
    aux_offset: u64,
    reference: Address,
    index: u32,
    tid: u32,
    cpu: u32,
    aux_data: Bytes<'a>,
}

impl<'a> AuxArea<'a> {
    pub(crate) fn new(auxtrace: &Auxtrace<'a>, byte_limit: usize) -> AuxArea<'a> {
        AuxArea {
            aux_size: auxtrace.size,
            aux_offset: auxtrace.offset,
            reference: Address(auxtrace.reference),
            index: auxtrace.index,
            tid: auxtrace.tid,
            cpu: auxtrace.cpu,
            aux_data: Bytes::new(auxtrace.aux_data, byte_limit),
        }
    }
}
