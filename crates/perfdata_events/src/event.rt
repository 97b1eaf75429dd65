//! The parsed bodies of kernel records.
ghost use Rattle.std.specs.Prelude.{◌≡◌, ◌<◌, ◌≤◌, ◌≢◌, ◌||◌, ◌&&◌, nat_lt, not, IfOk, IfErr};
ghost use Rattle.std.specs.IoError.{error_kind};
ghost use Rattle.perfdata_sources.specs.Raw.{bytes_of, IsSingle};
ghost use Rattle.perfdata_events.specs.Single.{KeepsSingle};
ghost use Rattle.perfdata_events.specs.SingleParts.{HasSingleParts};

use crate::aux_area::{AuxOutputHwIdRecord, AuxRecord, ItraceStartRecord};
use crate::context_switch::ContextSwitchRecord;
use crate::format::EventFormat;
use crate::kernel::{BpfEventRecord, KsymbolRecord, TextPokeRecord};
use crate::lost::{LostRecord, LostSamplesRecord, ThrottleRecord};
use crate::mmap::MmapRecord;
use crate::mmap2::Mmap2Record;
use crate::read_values::ReadRecord;
use crate::sample::SampleRecord;
use crate::sample_bits::{BranchFields, ReadFields, SampleFields};
use crate::task::{CgroupRecord, CommOrExecRecord, ForkOrExitRecord, NamespacesRecord};
use bitflags::Flags;
use perfdata_base::event::{RawEventRecord, RecordType};
use perfdata_base::raw::RawData;
use std::io::Result;

// The highest type that is parsed.
const LAST_TYPE: u32 = RecordType::AUX_OUTPUT_HW_ID.0;

// The lowest bit of the sample format after the last one that has a name.
const SAMPLE_FIELDS_END: u64 = SampleFields::WEIGHT_STRUCT.0 << 1;

// The lowest bit of the read format after the last one that has a name.
const READ_FIELDS_END: u64 = ReadFields::LOST.0 << 1;

// The lowest bit of the branch sample type after the last one that has a name.
const BRANCH_FIELDS_END: u64 = BranchFields::COUNTERS.0 << 1;

/// A kernel record, parsed by its type.
#[derive(Clone, Copy, Debug)]
pub enum EventRecord<'a> {
    /// A mapping (1).
    Mmap(MmapRecord<'a>),
    /// Dropped records (2).
    Lost(LostRecord),
    /// The name of a task (3).
    Comm(CommOrExecRecord<'a>),
    /// The end of a task (4).
    Exit(ForkOrExitRecord),
    /// The kernel limits the samples of an event (5).
    Throttle(ThrottleRecord),
    /// The kernel no longer limits the samples of an event (6).
    Unthrottle(ThrottleRecord),
    /// A new task (7).
    Fork(ForkOrExitRecord),
    /// The values of counters when a task ended (8).
    Read(ReadRecord<'a>),
    /// A sample (9).
    Sample(SampleRecord<'a>),
    /// A mapping with the identity of its file (10).
    Mmap2(Mmap2Record<'a>),
    /// New data in the aux area (11).
    Aux(AuxRecord),
    /// The start of an instruction trace (12).
    ItraceStart(ItraceStartRecord),
    /// Dropped samples (13).
    LostSamples(LostSamplesRecord),
    /// A switch of the recorded task (14, 15).
    ContextSwitch(ContextSwitchRecord),
    /// The namespaces of a task (16).
    Namespaces(NamespacesRecord<'a>),
    /// A symbol of the kernel (17).
    Ksymbol(KsymbolRecord<'a>),
    /// An event of a BPF program (18).
    BpfEvent(BpfEventRecord<'a>),
    /// The path of a control group (19).
    Cgroup(CgroupRecord<'a>),
    /// Changed code of the kernel (20).
    TextPoke(TextPokeRecord<'a>),
    /// The hardware id of an event (21).
    AuxOutputHwId(AuxOutputHwIdRecord),
    /// A record of any other type, or a sample or READ record with fields that aren't known.
    Raw(RawEventRecord<'a>),
}

// The same record, field by field for the prover.
fn copy_fields<'a>(raw: &RawEventRecord<'a>) -> RawEventRecord<'a>
    ensures { result ≡ raw.now }
{
    RawEventRecord {
        record_type: raw.record_type,
        misc: raw.misc,
        body: raw.body,
        parse_info: raw.parse_info,
    }
}

// The fields of the types are parsed in three functions that aren't inlined, because all locals of a function
// are set to zero when it is called.
impl EventFormat {
    ghost use Rattle.perfdata_events.specs.Event.{DecodesEvent, IsParsed, ParseFails};
    ghost use Rattle.perfdata_events.specs.Event.{has_known_fields, has_known_values};
    ghost use Rattle.perfdata_events.specs.steps.Event.{has_unknown_values};

    // Parses the fields of a record of type 1 to 7.
    #[inline(never)]
    fn parse_types_to_7<'a>(
        &self,
        raw: &RawEventRecord<'a>,
        fields: &mut RawData<'a>,
    ) -> Result<EventRecord<'a>>
        requires from { 1 ≤ raw.now.record_type.0 }
        requires to { raw.now.record_type.0 ≤ 7 }
        ensures decodes { DecodesEvent self.now raw.now (bytes_of fields.old) result (bytes_of fields.new) }
        ensures single { KeepsSingle HasSingleParts fields.old result fields.new }
    {
        let endian = self.endian;
        let misc = raw.misc;
        match raw.record_type {
            RecordType::MMAP => {
                let mmap = MmapRecord::parse(endian, misc, fields)?;
                Ok(EventRecord::Mmap(mmap))
            }
            RecordType::LOST => {
                let lost = LostRecord::parse(endian, fields)?;
                Ok(EventRecord::Lost(lost))
            }
            RecordType::COMM => {
                let comm = CommOrExecRecord::parse(endian, misc, fields)?;
                Ok(EventRecord::Comm(comm))
            }
            RecordType::EXIT => {
                let exit = ForkOrExitRecord::parse(endian, fields)?;
                Ok(EventRecord::Exit(exit))
            }
            RecordType::THROTTLE => {
                let throttle = ThrottleRecord::parse(endian, fields)?;
                Ok(EventRecord::Throttle(throttle))
            }
            RecordType::UNTHROTTLE => {
                let unthrottle = ThrottleRecord::parse(endian, fields)?;
                Ok(EventRecord::Unthrottle(unthrottle))
            }
            RecordType::FORK => {
                let fork = ForkOrExitRecord::parse(endian, fields)?;
                Ok(EventRecord::Fork(fork))
            }
            _ => Ok(EventRecord::Raw(copy_fields(raw))),
        }
    }

    // Parses the fields of a record of type 8 or 10 to 15.
    #[inline(never)]
    fn parse_types_to_15<'a>(
        &self,
        raw: &RawEventRecord<'a>,
        fields: &mut RawData<'a>,
    ) -> Result<EventRecord<'a>>
        requires from { 8 ≤ raw.now.record_type.0 }
        requires to { raw.now.record_type.0 ≤ 15 }
        requires no_sample { raw.now.record_type.0 ≢ 9 }
        ensures decodes { DecodesEvent self.now raw.now (bytes_of fields.old) result (bytes_of fields.new) }
        ensures single { KeepsSingle HasSingleParts fields.old result fields.new }
    {
        let endian = self.endian;
        let misc = raw.misc;
        match raw.record_type {
            RecordType::READ => {
                let read = ReadRecord::parse(endian, self.read_format, fields)?;
                Ok(EventRecord::Read(read))
            }
            RecordType::MMAP2 => {
                let mmap2 = Mmap2Record::parse(endian, misc, fields)?;
                Ok(EventRecord::Mmap2(mmap2))
            }
            RecordType::AUX => {
                let aux = AuxRecord::parse(endian, fields)?;
                Ok(EventRecord::Aux(aux))
            }
            RecordType::ITRACE_START => {
                let start = ItraceStartRecord::parse(endian, fields)?;
                Ok(EventRecord::ItraceStart(start))
            }
            RecordType::LOST_SAMPLES => {
                let lost_samples = LostSamplesRecord::parse(endian, fields)?;
                Ok(EventRecord::LostSamples(lost_samples))
            }
            RecordType::SWITCH => {
                let switch = ContextSwitchRecord::parse(misc, fields)?;
                Ok(EventRecord::ContextSwitch(switch))
            }
            RecordType::SWITCH_CPU_WIDE => {
                let wide = ContextSwitchRecord::parse_cpu_wide(endian, misc, fields)?;
                Ok(EventRecord::ContextSwitch(wide))
            }
            _ => Ok(EventRecord::Raw(copy_fields(raw))),
        }
    }

    // Parses the fields of a record of type 16 to 21.
    #[inline(never)]
    fn parse_types_to_21<'a>(
        &self,
        raw: &RawEventRecord<'a>,
        fields: &mut RawData<'a>,
    ) -> Result<EventRecord<'a>>
        requires from { 16 ≤ raw.now.record_type.0 }
        requires to { raw.now.record_type.0 ≤ 21 }
        ensures decodes { DecodesEvent self.now raw.now (bytes_of fields.old) result (bytes_of fields.new) }
        ensures single { KeepsSingle HasSingleParts fields.old result fields.new }
    {
        let endian = self.endian;
        let misc = raw.misc;
        match raw.record_type {
            RecordType::NAMESPACES => {
                let namespaces = NamespacesRecord::parse(endian, fields)?;
                Ok(EventRecord::Namespaces(namespaces))
            }
            RecordType::KSYMBOL => {
                let ksymbol = KsymbolRecord::parse(endian, fields)?;
                Ok(EventRecord::Ksymbol(ksymbol))
            }
            RecordType::BPF_EVENT => {
                let bpf_event = BpfEventRecord::parse(endian, fields)?;
                Ok(EventRecord::BpfEvent(bpf_event))
            }
            RecordType::CGROUP => {
                let cgroup = CgroupRecord::parse(endian, fields)?;
                Ok(EventRecord::Cgroup(cgroup))
            }
            RecordType::TEXT_POKE => {
                let poke = TextPokeRecord::parse(endian, fields)?;
                Ok(EventRecord::TextPoke(poke))
            }
            RecordType::AUX_OUTPUT_HW_ID => {
                let hw_id = AuxOutputHwIdRecord::parse(endian, fields)?;
                Ok(EventRecord::AuxOutputHwId(hw_id))
            }
            _ => Ok(EventRecord::Raw(copy_fields(raw))),
        }
    }

    // Parses the fields of a record that isn't a sample.
    fn parse_fields<'a>(
        &self,
        raw: &RawEventRecord<'a>,
        fields: &mut RawData<'a>,
    ) -> Result<EventRecord<'a>>
        requires from { 1 ≤ raw.now.record_type.0 }
        requires to { raw.now.record_type.0 ≤ 21 }
        requires no_sample { raw.now.record_type.0 ≢ 9 }
        ensures decodes { DecodesEvent self.now raw.now (bytes_of fields.old) result (bytes_of fields.new) }
        ensures single { KeepsSingle HasSingleParts fields.old result fields.new }
    {
        if raw.record_type.0 < RecordType::READ.0 {
            self.parse_types_to_7(raw, fields)
        } else if raw.record_type.0 < RecordType::NAMESPACES.0 {
            self.parse_types_to_15(raw, fields)
        } else {
            self.parse_types_to_21(raw, fields)
        }
    }

    /// Whether the offset of each counter value is known. `parse` says when it isn't.
    pub fn has_known_values(&self) -> bool
        ensures { result ≡ has_known_values self.now }
    {
        self.read_format.0 < READ_FIELDS_END
    }

    // Whether a record of a type consists of counter values whose offsets aren't known.
    fn has_unknown_values(&self, record_type: RecordType) -> bool
        ensures { result ≡ has_unknown_values self.now record_type.0 }
    {
        record_type.0 == RecordType::READ.0 && !self.has_known_values()
    }

    /// Whether the offset of each field of a sample is known. `parse` says when it isn't.
    pub fn has_known_fields(&self) -> bool
        ensures { result ≡ has_known_fields self.now }
    {
        self.sample_format.0 < SAMPLE_FIELDS_END
            && (!self.sample_format.contains(SampleFields::READ) || self.has_known_values())
            && (!self.sample_format.contains(SampleFields::BRANCH_STACK)
                || self.branch_sample_type.0 < BRANCH_FIELDS_END)
    }

    /// Parses the body of a record by its type. Nothing is allocated; what has no fixed size is borrowed from
    /// the body.
    ///
    /// A record of a type that isn't parsed remains raw. So does a sample if its attribute selects a field
    /// whose offset isn't known: bits of the sample format from 25 on, of the read format from 5 on, and of
    /// the branch sample type from 20 on, the last two only where they apply; and a READ record if bits of
    /// the read format from 5 on are set.
    ///
    /// Fails with an `UnexpectedEof` error if the fields are truncated, and with an `InvalidData` error if a
    /// text has no NUL before the sample_id fields or a build id has more than 20 bytes. The first error
    /// counts.
    pub fn parse<'a>(&self, raw: &RawEventRecord<'a>) -> Result<EventRecord<'a>>
        ensures value { IfOk result (λ event. IsParsed self.now raw.now event) }
        ensures error { IfErr result (λ error. ParseFails self.now raw.now (error_kind error)) }
        ensures single { IsSingle raw.now.body → IfOk result HasSingleParts }
    {
        let record_type = raw.record_type.0;
        if record_type == RecordType::SAMPLE.0 {
            if !self.has_known_fields() {
                return Ok(EventRecord::Raw(copy_fields(raw)));
            }
            let mut body = raw.body;
            return SampleRecord::parse(self, &mut body).map(EventRecord::Sample);
        }
        if record_type == 0 || record_type > LAST_TYPE {
            return Ok(EventRecord::Raw(copy_fields(raw)));
        }
        if self.has_unknown_values(raw.record_type) {
            return Ok(EventRecord::Raw(copy_fields(raw)));
        }
        let (fields, _) = self.split_trailing(raw.body)?;
        let mut rest = fields;
        self.parse_fields(raw, &mut rest)
    }
}
