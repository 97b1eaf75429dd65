//! The members of kernel records that aren't samples.

use crate::fields::{Address, Bytes, Hex, Text};
use perfdata_events::aux_area::{AuxOutputHwIdRecord, AuxRecord, ItraceStartRecord};
use perfdata_events::context_switch::ContextSwitchRecord;
use perfdata_events::kernel::{BpfEventRecord, KsymbolRecord, TextPokeRecord};
use perfdata_events::lost::{LostRecord, LostSamplesRecord, ThrottleRecord};
use perfdata_events::mmap::MmapRecord;
use perfdata_events::mmap2::{Mmap2FileId, Mmap2Record};
use perfdata_events::sample_id::SampleId;
use perfdata_events::task::{CgroupRecord, CommOrExecRecord, ForkOrExitRecord, NamespacesRecord};
use serde::{Described, Serialize, Serializer};
use std::alloc::{AllocError, Global};

/// The sample_id fields of a record.
#[derive(Clone, Copy, Serialize)]
pub(crate) struct SampleIdMembers {
    #[serde(skip_serializing_if = "Option::is_none")]
    pid: Option<i32>,
    #[serde(skip_serializing_if = "Option::is_none")]
    tid: Option<i32>,
    #[serde(skip_serializing_if = "Option::is_none")]
    timestamp: Option<u64>,
    #[serde(skip_serializing_if = "Option::is_none")]
    id: Option<u64>,
    #[serde(skip_serializing_if = "Option::is_none")]
    stream_id: Option<u64>,
    #[serde(skip_serializing_if = "Option::is_none")]
    cpu: Option<u32>,
    #[serde(skip_serializing_if = "Option::is_none")]
    identifier: Option<u64>,
}

impl SampleIdMembers {
    /// Returns `None` if the attribute selects none of the fields.
    pub(crate) fn new(id: &SampleId) -> Option<SampleIdMembers> {
        let has_none = id.task.is_none() && id.timestamp.is_none() && id.id.is_none();
        if has_none && id.stream_id.is_none() && id.cpu.is_none() && id.identifier.is_none() {
            return None;
        }
        Some(SampleIdMembers {
            pid: id.task.map(|task| task.pid),
            tid: id.task.map(|task| task.tid),
            timestamp: id.timestamp,
            id: id.id,
            stream_id: id.stream_id,
            cpu: id.cpu,
            identifier: id.identifier,
        })
    }
}

#[derive(Drop, Serialize)]
pub(crate) struct Mmap<'a> {
    pid: i32,
    tid: i32,
    address: Address,
    length: u64,
    page_offset: Address,
    path: Text<'a>,
}

impl<'a> Mmap<'a> {
    pub(crate) fn new(alloc: Global, mmap: &MmapRecord<'a>) -> Result<Mmap<'a>, AllocError> {
        Ok(Mmap {
            pid: mmap.pid,
            tid: mmap.tid,
            address: Address(mmap.address),
            length: mmap.length,
            page_offset: Address(mmap.page_offset),
            path: Text::new(alloc, mmap.path)?,
        })
    }
}

// What identifies a mapped file.
#[derive(Clone, Copy, Serialize)]
#[serde(untagged)]
enum FileId<'a> {
    Inode {
        major: u32,
        minor: u32,
        inode: u64,
        inode_generation: u64,
    },
    BuildId {
        build_id: Hex<'a>,
    },
}

impl<'a> FileId<'a> {
    fn new(file_id: Mmap2FileId<'a>) -> FileId<'a> {
        match file_id {
            Mmap2FileId::InodeAndVersion(file) => FileId::Inode {
                major: file.major,
                minor: file.minor,
                inode: file.inode,
                inode_generation: file.inode_generation,
            },
            Mmap2FileId::BuildId(bytes) => FileId::BuildId {
                build_id: Hex(bytes),
            },
        }
    }
}

#[derive(Drop, Serialize)]
pub(crate) struct Mmap2<'a> {
    pid: i32,
    tid: i32,
    address: Address,
    length: u64,
    page_offset: Address,
    #[serde(flatten)]
    file_id: FileId<'a>,
    protection: u32,
    flags: Address,
    path: Text<'a>,
}

impl<'a> Mmap2<'a> {
    pub(crate) fn new(alloc: Global, mmap: &Mmap2Record<'a>) -> Result<Mmap2<'a>, AllocError> {
        Ok(Mmap2 {
            pid: mmap.pid,
            tid: mmap.tid,
            address: Address(mmap.address),
            length: mmap.length,
            page_offset: Address(mmap.page_offset),
            file_id: FileId::new(mmap.file_id),
            protection: mmap.protection,
            flags: Address(mmap.flags as u64),
            path: Text::new(alloc, mmap.path)?,
        })
    }
}

#[derive(Clone, Copy, Serialize)]
pub(crate) struct Lost {
    id: u64,
    count: u64,
}

impl Lost {
    pub(crate) fn new(lost: &LostRecord) -> Lost {
        let (id, count) = (lost.id, lost.count);
        Lost { id, count }
    }
}

#[derive(Drop, Serialize)]
pub(crate) struct Comm<'a> {
    pid: i32,
    tid: i32,
    name: Text<'a>,
    is_execve: bool,
}

impl<'a> Comm<'a> {
    pub(crate) fn new(alloc: Global, comm: &CommOrExecRecord<'a>) -> Result<Comm<'a>, AllocError> {
        Ok(Comm {
            pid: comm.pid,
            tid: comm.tid,
            name: Text::new(alloc, comm.name)?,
            is_execve: comm.is_execve,
        })
    }
}

#[derive(Clone, Copy, Serialize)]
pub(crate) struct ForkOrExit {
    pid: i32,
    ppid: i32,
    tid: i32,
    ptid: i32,
    timestamp: u64,
}

impl ForkOrExit {
    pub(crate) fn new(task: &ForkOrExitRecord) -> ForkOrExit {
        ForkOrExit {
            pid: task.pid,
            ppid: task.ppid,
            tid: task.tid,
            ptid: task.ptid,
            timestamp: task.timestamp,
        }
    }
}

#[derive(Clone, Copy, Serialize)]
pub(crate) struct Throttle {
    timestamp: u64,
    id: u64,
    stream_id: u64,
}

impl Throttle {
    pub(crate) fn new(throttle: &ThrottleRecord) -> Throttle {
        Throttle {
            timestamp: throttle.timestamp,
            id: throttle.id,
            stream_id: throttle.stream_id,
        }
    }
}

#[derive(Clone, Copy, Serialize)]
pub(crate) struct Aux {
    aux_offset: u64,
    aux_size: u64,
    aux_flags: Address,
}

impl Aux {
    pub(crate) fn new(aux: &AuxRecord) -> Aux {
        Aux {
            aux_offset: aux.offset,
            aux_size: aux.size,
            aux_flags: Address(aux.flags),
        }
    }
}

#[derive(Clone, Copy, Serialize)]
pub(crate) struct ItraceStart {
    pid: i32,
    tid: i32,
}

impl ItraceStart {
    pub(crate) fn new(start: &ItraceStartRecord) -> ItraceStart {
        let (pid, tid) = (start.pid, start.tid);
        ItraceStart { pid, tid }
    }
}

#[derive(Clone, Copy, Serialize)]
pub(crate) struct LostSamples {
    count: u64,
}

impl LostSamples {
    pub(crate) fn new(lost: &LostSamplesRecord) -> LostSamples {
        LostSamples { count: lost.count }
    }
}

#[derive(Clone, Copy, Serialize)]
pub(crate) struct ContextSwitch {
    is_out: bool,
    preempted: bool,
    #[serde(skip_serializing_if = "Option::is_none")]
    other_pid: Option<i32>,
    #[serde(skip_serializing_if = "Option::is_none")]
    other_tid: Option<i32>,
}

impl ContextSwitch {
    pub(crate) fn new(switch: &ContextSwitchRecord) -> ContextSwitch {
        ContextSwitch {
            is_out: switch.is_out,
            preempted: switch.preempted,
            other_pid: switch.other_task.map(|task| task.pid),
            other_tid: switch.other_task.map(|task| task.tid),
        }
    }
}

#[derive(Clone, Copy, Serialize)]
struct NamespaceMembers {
    device: u64,
    inode: u64,
}

#[derive(Clone, Copy)]
struct NamespaceList<'a>(NamespacesRecord<'a>);

impl Described for NamespaceList<'_> {}

impl Serialize for NamespaceList<'_> {
    fn serialize<S: Serializer>(&self, out: &mut S) -> Result<(), S::Error> {
        out.begin_seq(None)?;
        for index in 0..self.0.len() {
            if let Some(namespace) = self.0.get(index) {
                let (device, inode) = (namespace.device, namespace.inode);
                NamespaceMembers { device, inode }.serialize(out)?;
            }
        }
        out.end_seq()
    }
}

#[derive(Clone, Copy, Serialize)]
pub(crate) struct Namespaces<'a> {
    pid: i32,
    tid: i32,
    namespaces: NamespaceList<'a>,
}

impl<'a> Namespaces<'a> {
    pub(crate) fn new(record: NamespacesRecord<'a>) -> Namespaces<'a> {
        Namespaces {
            pid: record.pid,
            tid: record.tid,
            namespaces: NamespaceList(record),
        }
    }
}

#[derive(Drop, Serialize)]
pub(crate) struct Ksymbol<'a> {
    address: Address,
    length: u32,
    ksym_type: u16,
    ksym_flags: Address,
    name: Text<'a>,
}

impl<'a> Ksymbol<'a> {
    pub(crate) fn new(
        alloc: Global,
        symbol: &KsymbolRecord<'a>,
    ) -> Result<Ksymbol<'a>, AllocError> {
        Ok(Ksymbol {
            address: Address(symbol.address),
            length: symbol.length,
            ksym_type: symbol.symbol_type,
            ksym_flags: Address(symbol.flags as u64),
            name: Text::new(alloc, symbol.name)?,
        })
    }
}

#[derive(Clone, Copy, Serialize)]
pub(crate) struct BpfEvent<'a> {
    bpf_type: u16,
    bpf_flags: Address,
    id: u32,
    tag: Hex<'a>,
}

impl<'a> BpfEvent<'a> {
    pub(crate) fn new(event: &BpfEventRecord<'a>) -> BpfEvent<'a> {
        BpfEvent {
            bpf_type: event.event_type,
            bpf_flags: Address(event.flags as u64),
            id: event.id,
            tag: Hex(event.tag),
        }
    }
}

#[derive(Drop, Serialize)]
pub(crate) struct ControlGroup<'a> {
    id: u64,
    path: Text<'a>,
}

impl<'a> ControlGroup<'a> {
    pub(crate) fn new(
        alloc: Global,
        group: &CgroupRecord<'a>,
    ) -> Result<ControlGroup<'a>, AllocError> {
        let path = Text::new(alloc, group.path)?;
        Ok(ControlGroup { id: group.id, path })
    }
}

#[derive(Clone, Copy, Serialize)]
pub(crate) struct TextPoke<'a> {
    address: Address,
    old_bytes: Bytes<'a>,
    new_bytes: Bytes<'a>,
}

impl<'a> TextPoke<'a> {
    pub(crate) fn new(poke: &TextPokeRecord<'a>, byte_limit: usize) -> TextPoke<'a> {
        TextPoke {
            address: Address(poke.address),
            old_bytes: Bytes::new(poke.old_bytes, byte_limit),
            new_bytes: Bytes::new(poke.new_bytes, byte_limit),
        }
    }
}

#[derive(Clone, Copy, Serialize)]
pub(crate) struct AuxOutputHwId {
    hw_id: u64,
}

impl AuxOutputHwId {
    pub(crate) fn new(record: &AuxOutputHwIdRecord) -> AuxOutputHwId {
        AuxOutputHwId {
            hw_id: record.hw_id,
        }
    }
}
