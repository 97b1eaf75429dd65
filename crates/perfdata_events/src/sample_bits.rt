//! The bits of attributes and record headers, by their names in Linux's `perf_event.h`. Bits without a
//! constant here are preserved.
ghost use Rattle.std.specs.Prelude.{⊤, ◌≡◌, ◌/◌, ◌%◌, ◌^◌, [], ◌∷◌, codes};
ghost use Rattle.perfdata_events.specs.AttributeFlags.{recorded_flags};

use bitflags::{Flag, Flags, bitflag_items};
use perfdata_base::attr::PerfEventAttr;
use perfdata_base::raw::Endianness;

/// The fields of a sample (`perf_event_sample_format`).
#[derive(Clone, Copy, Debug, PartialEq, Eq)]
pub struct SampleFields(pub u64);

bitflag_items! {
    impl SampleFields: u64 {
        /// The address of the instruction.
        const IP = 1 << 0;
        /// The process and the thread.
        const TID = 1 << 1;
        /// The time.
        const TIME = 1 << 2;
        /// The address in memory.
        const ADDR = 1 << 3;
        /// The values of the event's counters.
        const READ = 1 << 4;
        /// The call chain.
        const CALLCHAIN = 1 << 5;
        /// The identifier of the event.
        const ID = 1 << 6;
        /// The processor.
        const CPU = 1 << 7;
        /// The number of events since the previous sample.
        const PERIOD = 1 << 8;
        /// The identifier of the event itself, also if another task inherited it.
        const STREAM_ID = 1 << 9;
        /// Raw data, as of a tracepoint.
        const RAW = 1 << 10;
        /// The last branches.
        const BRANCH_STACK = 1 << 11;
        /// The registers of the program.
        const REGS_USER = 1 << 12;
        /// A copy of the start of the program's stack.
        const STACK_USER = 1 << 13;
        /// The weight.
        const WEIGHT = 1 << 14;
        /// Where the data came from.
        const DATA_SRC = 1 << 15;
        /// The identifier of the event, at an offset that doesn't depend on the other fields.
        const IDENTIFIER = 1 << 16;
        /// Why a transaction was aborted.
        const TRANSACTION = 1 << 17;
        /// The registers at the interrupt.
        const REGS_INTR = 1 << 18;
        /// The physical address of the data.
        const PHYS_ADDR = 1 << 19;
        /// Aux data.
        const AUX = 1 << 20;
        /// The id of the control group.
        const CGROUP = 1 << 21;
        /// The size of the page of the data.
        const DATA_PAGE_SIZE = 1 << 22;
        /// The size of the page of the instruction.
        const CODE_PAGE_SIZE = 1 << 23;
        /// The weight in three parts, in place of `WEIGHT`.
        const WEIGHT_STRUCT = 1 << 24;
    }
}

impl Flags for SampleFields {
    type Bits = u64;

    ghost exact = { ⊤ };

    ghost table = { (codes "IP", 1) ∷ (codes "TID", 2) ∷ (codes "TIME", 4) ∷ (codes "ADDR", 8) ∷
        (codes "READ", 16) ∷ (codes "CALLCHAIN", 32) ∷ (codes "ID", 64) ∷ (codes "CPU", 128) ∷
        (codes "PERIOD", 256) ∷ (codes "STREAM_ID", 512) ∷ (codes "RAW", 1024) ∷
        (codes "BRANCH_STACK", 2048) ∷ (codes "REGS_USER", 4096) ∷ (codes "STACK_USER", 8192) ∷
        (codes "WEIGHT", 16384) ∷ (codes "DATA_SRC", 32768) ∷ (codes "IDENTIFIER", 65536) ∷
        (codes "TRANSACTION", 131072) ∷ (codes "REGS_INTR", 262144) ∷ (codes "PHYS_ADDR", 524288) ∷
        (codes "AUX", 1048576) ∷ (codes "CGROUP", 2097152) ∷ (codes "DATA_PAGE_SIZE", 4194304) ∷
        (codes "CODE_PAGE_SIZE", 8388608) ∷ (codes "WEIGHT_STRUCT", 16777216) ∷ [] };

    ghost set_of = { λ bits. bits.0 };

    fn flags<'a>() -> &'a [Flag<SampleFields>] {
        SampleFields::FLAGS
    }

    fn bits(&self) -> u64 {
        self.0
    }

    fn from_bits_retain(bits: u64) -> SampleFields {
        SampleFields(bits)
    }
}

/// The fields of counter values (`perf_event_read_format`).
#[derive(Clone, Copy, Debug, PartialEq, Eq)]
pub struct ReadFields(pub u64);

bitflag_items! {
    impl ReadFields: u64 {
        /// The time that the event was enabled.
        const TOTAL_TIME_ENABLED = 1 << 0;
        /// The time that the event was counted.
        const TOTAL_TIME_RUNNING = 1 << 1;
        /// The identifier of the event.
        const ID = 1 << 2;
        /// The counters of the whole group.
        const GROUP = 1 << 3;
        /// The number of lost samples.
        const LOST = 1 << 4;
    }
}

impl Flags for ReadFields {
    type Bits = u64;

    ghost exact = { ⊤ };

    ghost table = { (codes "TOTAL_TIME_ENABLED", 1) ∷ (codes "TOTAL_TIME_RUNNING", 2) ∷ (codes "ID", 4) ∷
        (codes "GROUP", 8) ∷ (codes "LOST", 16) ∷ [] };

    ghost set_of = { λ bits. bits.0 };

    fn flags<'a>() -> &'a [Flag<ReadFields>] {
        ReadFields::FLAGS
    }

    fn bits(&self) -> u64 {
        self.0
    }

    fn from_bits_retain(bits: u64) -> ReadFields {
        ReadFields(bits)
    }
}

/// The branches and the fields of a branch stack (`perf_branch_sample_type`).
#[derive(Clone, Copy, Debug, PartialEq, Eq)]
pub struct BranchFields(pub u64);

bitflag_items! {
    impl BranchFields: u64 {
        /// Branches to user space.
        const USER = 1 << 0;
        /// Branches to the kernel.
        const KERNEL = 1 << 1;
        /// Branches to the hypervisor.
        const HV = 1 << 2;
        /// Branches of any kind.
        const ANY = 1 << 3;
        /// Calls of any kind.
        const ANY_CALL = 1 << 4;
        /// Returns of any kind.
        const ANY_RETURN = 1 << 5;
        /// Indirect calls.
        const IND_CALL = 1 << 6;
        /// Aborts of transactions.
        const ABORT_TX = 1 << 7;
        /// Branches in a transaction.
        const IN_TX = 1 << 8;
        /// Branches outside of transactions.
        const NO_TX = 1 << 9;
        /// Conditional branches.
        const COND = 1 << 10;
        /// The call stack.
        const CALL_STACK = 1 << 11;
        /// Indirect jumps.
        const IND_JUMP = 1 << 12;
        /// Direct calls.
        const CALL = 1 << 13;
        /// No flags in the entries.
        const NO_FLAGS = 1 << 14;
        /// No cycles in the entries.
        const NO_CYCLES = 1 << 15;
        /// The type of each branch.
        const TYPE_SAVE = 1 << 16;
        /// The hardware index of the first entry.
        const HW_INDEX = 1 << 17;
        /// The privilege level of each branch.
        const PRIV_SAVE = 1 << 18;
        /// The events that occurred before each branch.
        const COUNTERS = 1 << 19;
    }
}

impl Flags for BranchFields {
    type Bits = u64;

    ghost exact = { ⊤ };

    ghost table = { (codes "USER", 1) ∷ (codes "KERNEL", 2) ∷ (codes "HV", 4) ∷ (codes "ANY", 8) ∷
        (codes "ANY_CALL", 16) ∷ (codes "ANY_RETURN", 32) ∷ (codes "IND_CALL", 64) ∷
        (codes "ABORT_TX", 128) ∷ (codes "IN_TX", 256) ∷ (codes "NO_TX", 512) ∷ (codes "COND", 1024) ∷
        (codes "CALL_STACK", 2048) ∷ (codes "IND_JUMP", 4096) ∷ (codes "CALL", 8192) ∷
        (codes "NO_FLAGS", 16384) ∷ (codes "NO_CYCLES", 32768) ∷ (codes "TYPE_SAVE", 65536) ∷
        (codes "HW_INDEX", 131072) ∷ (codes "PRIV_SAVE", 262144) ∷ (codes "COUNTERS", 524288) ∷ [] };

    ghost set_of = { λ bits. bits.0 };

    fn flags<'a>() -> &'a [Flag<BranchFields>] {
        BranchFields::FLAGS
    }

    fn bits(&self) -> u64 {
        self.0
    }

    fn from_bits_retain(bits: u64) -> BranchFields {
        BranchFields(bits)
    }
}

/// What an attribute records besides samples, and how (the bit fields of `perf_event_attr`).
#[derive(Clone, Copy, Debug, PartialEq, Eq)]
pub struct EventFlags(pub u64);

bitflag_items! {
    impl EventFlags: u64 {
        /// The event starts disabled.
        const DISABLED = 1 << 0;
        /// Tasks that the task starts are counted too.
        const INHERIT = 1 << 1;
        /// The event must always be on its counter.
        const PINNED = 1 << 2;
        /// No other group is on the monitoring unit at the same time.
        const EXCLUSIVE = 1 << 3;
        /// User space isn't counted.
        const EXCLUDE_USER = 1 << 4;
        /// The kernel isn't counted.
        const EXCLUDE_KERNEL = 1 << 5;
        /// The hypervisor isn't counted.
        const EXCLUDE_HV = 1 << 6;
        /// Idle processors aren't counted.
        const EXCLUDE_IDLE = 1 << 7;
        /// Executable mappings are recorded.
        const MMAP = 1 << 8;
        /// Names of tasks are recorded.
        const COMM = 1 << 9;
        /// The attribute has a frequency, and not a period.
        const FREQ = 1 << 10;
        /// The counts of each inherited task are kept.
        const INHERIT_STAT = 1 << 11;
        /// An exec enables the event.
        const ENABLE_ON_EXEC = 1 << 12;
        /// Starts and ends of tasks are recorded.
        const TASK = 1 << 13;
        /// The recorder is woken after a number of bytes, and not of samples.
        const WATERMARK = 1 << 14;
        /// The two bits of [`EventFlags::precise_ip`].
        const PRECISE_IP = 3 << 15;
        /// Mappings that aren't executable are recorded.
        const MMAP_DATA = 1 << 17;
        /// Records that aren't samples end with sample_id fields.
        const SAMPLE_ID_ALL = 1 << 18;
        /// The host isn't counted.
        const EXCLUDE_HOST = 1 << 19;
        /// Guests aren't counted.
        const EXCLUDE_GUEST = 1 << 20;
        /// Call chains lack the kernel's frames.
        const EXCLUDE_CALLCHAIN_KERNEL = 1 << 21;
        /// Call chains lack the program's frames.
        const EXCLUDE_CALLCHAIN_USER = 1 << 22;
        /// Mappings are recorded with the identity of the file.
        const MMAP2 = 1 << 23;
        /// Names that an exec set are marked.
        const COMM_EXEC = 1 << 24;
        /// The clock of the times is the attribute's.
        const USE_CLOCKID = 1 << 25;
        /// Context switches are recorded.
        const CONTEXT_SWITCH = 1 << 26;
        /// The ring buffer is written from its end to its start.
        const WRITE_BACKWARD = 1 << 27;
        /// Namespaces are recorded.
        const NAMESPACES = 1 << 28;
        /// Symbols of the kernel are recorded.
        const KSYMBOL = 1 << 29;
        /// Events of BPF programs are recorded.
        const BPF_EVENT = 1 << 30;
        /// The event writes into the aux area.
        const AUX_OUTPUT = 1 << 31;
        /// Control groups are recorded.
        const CGROUP = 1 << 32;
        /// Changes of the kernel's code are recorded.
        const TEXT_POKE = 1 << 33;
        /// Mappings are recorded with the build id of the file.
        const BUILD_ID = 1 << 34;
        /// Only threads inherit the event.
        const INHERIT_THREAD = 1 << 35;
        /// An exec removes the event.
        const REMOVE_ON_EXEC = 1 << 36;
        /// The event sends a SIGTRAP signal.
        const SIGTRAP = 1 << 37;
    }
}

impl Flags for EventFlags {
    type Bits = u64;

    ghost exact = { ⊤ };

    ghost table = { (codes "DISABLED", 1) ∷ (codes "INHERIT", 2) ∷ (codes "PINNED", 4) ∷
        (codes "EXCLUSIVE", 8) ∷ (codes "EXCLUDE_USER", 16) ∷ (codes "EXCLUDE_KERNEL", 32) ∷
        (codes "EXCLUDE_HV", 64) ∷ (codes "EXCLUDE_IDLE", 128) ∷ (codes "MMAP", 256) ∷ (codes "COMM", 512) ∷
        (codes "FREQ", 1024) ∷ (codes "INHERIT_STAT", 2048) ∷ (codes "ENABLE_ON_EXEC", 4096) ∷
        (codes "TASK", 8192) ∷ (codes "WATERMARK", 16384) ∷ (codes "PRECISE_IP", 98304) ∷
        (codes "MMAP_DATA", 131072) ∷ (codes "SAMPLE_ID_ALL", 262144) ∷ (codes "EXCLUDE_HOST", 524288) ∷
        (codes "EXCLUDE_GUEST", 1048576) ∷ (codes "EXCLUDE_CALLCHAIN_KERNEL", 2097152) ∷
        (codes "EXCLUDE_CALLCHAIN_USER", 4194304) ∷ (codes "MMAP2", 8388608) ∷
        (codes "COMM_EXEC", 16777216) ∷ (codes "USE_CLOCKID", 33554432) ∷
        (codes "CONTEXT_SWITCH", 67108864) ∷ (codes "WRITE_BACKWARD", 134217728) ∷
        (codes "NAMESPACES", 268435456) ∷ (codes "KSYMBOL", 536870912) ∷ (codes "BPF_EVENT", 1073741824) ∷
        (codes "AUX_OUTPUT", 2147483648) ∷ (codes "CGROUP", 4294967296) ∷ (codes "TEXT_POKE", 8589934592) ∷
        (codes "BUILD_ID", 17179869184) ∷ (codes "INHERIT_THREAD", 34359738368) ∷
        (codes "REMOVE_ON_EXEC", 68719476736) ∷ (codes "SIGTRAP", 137438953472) ∷ [] };

    ghost set_of = { λ bits. bits.0 };

    fn flags<'a>() -> &'a [Flag<EventFlags>] {
        EventFlags::FLAGS
    }

    fn bits(&self) -> u64 {
        self.0
    }

    fn from_bits_retain(bits: u64) -> EventFlags {
        EventFlags(bits)
    }
}

// What a word of flags is a multiple of if no flag is set but those that are known, of which flag n is bit
// 63 - n: 2^26, since 38 flags are known.
const FLAGS_FROM_TOP: u64 = 1 << 26;

impl EventFlags {
    /// Returns the flags of an attribute of a recording in the byte order `endian`.
    ///
    /// A big-endian compiler makes flag n bit 63 - n of the word, as on s390x. In big-endian order the word
    /// is read so, if then a flag is set and none that isn't known. Otherwise flag n is bit n.
    pub fn from_attribute(attr: &PerfEventAttr, endian: Endianness) -> EventFlags
        ensures { result.0 ≡ recorded_flags endian attr.now.flags.0 }
    {
        let word = attr.flags.0;
        EventFlags(match endian {
            Endianness::BigEndian if word != 0 && word % FLAGS_FROM_TOP == 0 => word.reverse_bits(),
            _ => word,
        })
    }

    /// Returns how exact the address of a sample is (`precise_ip`): 0 may be any later instruction, 3 is the
    /// instruction itself.
    pub fn precise_ip(&self) -> u8
        ensures { result ≡ self.now.0 / 2 ^ 15 % 4 }
    {
        ((self.0 >> 15) % 4) as u8
    }
}

/// The bits of a record header's `misc` that depend on the record's type (`PERF_RECORD_MISC_*`). The bits
/// below them are the CPU mode.
#[derive(Clone, Copy, Debug, PartialEq, Eq)]
pub struct MiscFlags(pub u16);

bitflag_items! {
    impl MiscFlags: u16 {
        /// The reading of `/proc/PID/maps` took too long.
        const PROC_MAP_PARSE_TIMEOUT = 1 << 12;
        /// A mapping isn't executable.
        const MMAP_DATA = 1 << 13;
        /// An exec set the name of a task.
        const COMM_EXEC = 1 << 13;
        /// A task began for an exec of perf.
        const FORK_EXEC = 1 << 13;
        /// A task was switched out, and not in.
        const SWITCH_OUT = 1 << 13;
        /// The address of a sample is that of the instruction that caused the event.
        const EXACT_IP = 1 << 14;
        /// A task that was switched out was preempted.
        const SWITCH_OUT_PREEMPT = 1 << 14;
        /// A mapping has a build id, and no device and inode.
        const MMAP_BUILD_ID = 1 << 14;
        /// Reserved for an extension of the header.
        const EXT_RESERVED = 1 << 15;
    }
}

impl Flags for MiscFlags {
    type Bits = u16;

    ghost exact = { ⊤ };

    ghost table = { (codes "PROC_MAP_PARSE_TIMEOUT", 4096) ∷ (codes "MMAP_DATA", 8192) ∷
        (codes "COMM_EXEC", 8192) ∷ (codes "FORK_EXEC", 8192) ∷ (codes "SWITCH_OUT", 8192) ∷
        (codes "EXACT_IP", 16384) ∷ (codes "SWITCH_OUT_PREEMPT", 16384) ∷ (codes "MMAP_BUILD_ID", 16384) ∷
        (codes "EXT_RESERVED", 32768) ∷ [] };

    ghost set_of = { λ bits. bits.0 };

    fn flags<'a>() -> &'a [Flag<MiscFlags>] {
        MiscFlags::FLAGS
    }

    fn bits(&self) -> u16 {
        self.0
    }

    fn from_bits_retain(bits: u16) -> MiscFlags {
        MiscFlags(bits)
    }
}
