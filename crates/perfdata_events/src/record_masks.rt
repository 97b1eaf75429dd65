//! The bits of numbers in records, by their names in Linux's `perf_event.h` in full words. Bits without a
//! constant here are preserved.
ghost use Rattle.std.specs.Prelude.{⊤, ◌≡◌, ◌/◌, ◌%◌, ◌^◌, [], ◌∷◌, codes};
ghost use Rattle.perfdata_events.specs.BranchFlags.{branch_flags_in};
ghost use Rattle.perfdata_sources.specs.declared.endian.Endianness.TheVariants.{BigEndian};

use bitflags::{Flag, Flags, bitflag_items};
use perfdata_base::raw::Endianness;

/// The flags of a branch (`struct perf_branch_entry`), as a little-endian compiler lays them out.
#[derive(Clone, Copy, Debug, PartialEq, Eq)]
pub struct BranchFlags(pub u64);

bitflag_items! {
    impl BranchFlags: u64 {
        /// The target was mispredicted.
        const MISPREDICTED = 1 << 0;
        /// The target was predicted.
        const PREDICTED = 1 << 1;
        /// The branch is in a transaction.
        const IN_TRANSACTION = 1 << 2;
        /// The branch aborted a transaction.
        const ABORT = 1 << 3;
        /// The bits of [`BranchFlags::cycles`].
        const CYCLES = 0xffff << 4;
        /// The bits of [`BranchFlags::branch_type`].
        const TYPE = 0xf << 20;
        /// The bits of [`BranchFlags::speculation`].
        const SPECULATION = 3 << 24;
        /// The bits of [`BranchFlags::new_type`].
        const NEW_TYPE = 0xf << 26;
        /// The bits of [`BranchFlags::privilege`].
        const PRIVILEGE = 7 << 30;
    }
}

impl Flags for BranchFlags {
    type Bits = u64;

    ghost exact = { ⊤ };

    ghost table = { (codes "MISPREDICTED", 1) ∷ (codes "PREDICTED", 2) ∷ (codes "IN_TRANSACTION", 4) ∷
        (codes "ABORT", 8) ∷ (codes "CYCLES", 1048560) ∷ (codes "TYPE", 15728640) ∷
        (codes "SPECULATION", 50331648) ∷ (codes "NEW_TYPE", 1006632960) ∷ (codes "PRIVILEGE", 7516192768) ∷
        [] };

    ghost set_of = { λ bits. bits.0 };

    fn flags<'a>() -> &'a [Flag<BranchFlags>] {
        BranchFlags::FLAGS
    }

    fn bits(&self) -> u64 {
        self.0
    }

    fn from_bits_retain(bits: u64) -> BranchFlags {
        BranchFlags(bits)
    }
}

impl BranchFlags {
    /// Returns the flags of a word of a record in the byte order `endian`. A big-endian compiler lays out the
    /// same fields from the highest bit to the lowest one.
    pub fn new(word: u64, endian: Endianness) -> BranchFlags
        ensures { result.0 ≡ branch_flags_in endian word }
    {
        match endian {
            Endianness::LittleEndian => BranchFlags(word),
            Endianness::BigEndian => BranchFlags(little_endian_layout(word)),
        }
    }

    /// Returns the number of cycles since the previous branch.
    pub fn cycles(&self) -> u16
        ensures { result ≡ self.now.0 / 2 ^ 4 % 2 ^ 16 }
    {
        ((self.0 >> 4) % 0x1_0000) as u16
    }

    /// Returns the type of the branch (`PERF_BR_*`); 15 refers to [`BranchFlags::new_type`].
    pub fn branch_type(&self) -> u8
        ensures { result ≡ self.now.0 / 2 ^ 20 % 16 }
    {
        ((self.0 >> 20) % 16) as u8
    }

    /// Returns how the processor speculated on the branch (`PERF_BR_SPEC_*`).
    pub fn speculation(&self) -> u8
        ensures { result ≡ self.now.0 / 2 ^ 24 % 4 }
    {
        ((self.0 >> 24) % 4) as u8
    }

    /// Returns the type of the branch where [`BranchFlags::branch_type`] is 15 (`PERF_BR_NEW_*`).
    pub fn new_type(&self) -> u8
        ensures { result ≡ self.now.0 / 2 ^ 26 % 16 }
    {
        ((self.0 >> 26) % 16) as u8
    }

    /// Returns the privilege level of the target (`PERF_BR_PRIV_*`).
    pub fn privilege(&self) -> u8
        ensures { result ≡ self.now.0 / 2 ^ 30 % 8 }
    {
        ((self.0 >> 30) % 8) as u8
    }
}

// The flags of a word as a big-endian compiler lays them out, as a little-endian one does.
fn little_endian_layout(word: u64) -> u64
    ensures { result ≡ branch_flags_in BigEndian word }
{
    let mispredicted = word >> 63;
    let predicted = (word >> 62) % 2;
    let in_transaction = (word >> 61) % 2;
    let abort = (word >> 60) % 2;
    let cycles = (word >> 44) % 0x1_0000;
    let branch_type = (word >> 40) % 16;
    let speculation = (word >> 38) % 4;
    let new_type = (word >> 34) % 16;
    let privilege = (word >> 31) % 8;
    let reserved = word % 0x8000_0000;
    mispredicted
        + 0x2 * predicted
        + 0x4 * in_transaction
        + 0x8 * abort
        + 0x10 * cycles
        + 0x10_0000 * branch_type
        + 0x100_0000 * speculation
        + 0x400_0000 * new_type
        + 0x4000_0000 * privilege
        + 0x2_0000_0000 * reserved
}

/// The flags of new data in the aux area (`PERF_AUX_FLAG_*`).
#[derive(Clone, Copy, Debug, PartialEq, Eq)]
pub struct AuxFlags(pub u64);

bitflag_items! {
    impl AuxFlags: u64 {
        /// The data was truncated to fit.
        const TRUNCATED = 1 << 0;
        /// The data is a snapshot of a buffer that is overwritten.
        const OVERWRITE = 1 << 1;
        /// The data has gaps.
        const PARTIAL = 1 << 2;
        /// A sample of the data collided with another one.
        const COLLISION = 1 << 3;
        /// The bits of [`AuxFlags::pmu_format_type`].
        const PMU_FORMAT_TYPE = 0xff << 8;
    }
}

impl Flags for AuxFlags {
    type Bits = u64;

    ghost exact = { ⊤ };

    ghost table = { (codes "TRUNCATED", 1) ∷ (codes "OVERWRITE", 2) ∷ (codes "PARTIAL", 4) ∷
        (codes "COLLISION", 8) ∷ (codes "PMU_FORMAT_TYPE", 65280) ∷ [] };

    ghost set_of = { λ bits. bits.0 };

    fn flags<'a>() -> &'a [Flag<AuxFlags>] {
        AuxFlags::FLAGS
    }

    fn bits(&self) -> u64 {
        self.0
    }

    fn from_bits_retain(bits: u64) -> AuxFlags {
        AuxFlags(bits)
    }
}

impl AuxFlags {
    /// Returns the format of the data, which depends on the hardware. 1 is CoreSight's raw format.
    pub fn pmu_format_type(&self) -> u8
        ensures { result ≡ self.now.0 / 2 ^ 8 % 2 ^ 8 }
    {
        ((self.0 >> 8) % 0x100) as u8
    }
}

/// Where the data of a sample came from (`union perf_mem_data_src`), in either byte order.
#[derive(Clone, Copy, Debug, PartialEq, Eq)]
pub struct DataSource(pub u64);

bitflag_items! {
    impl DataSource: u64 {
        /// The operation isn't known.
        const OPERATION_NOT_AVAILABLE = 1 << 0;
        /// A load.
        const OPERATION_LOAD = 1 << 1;
        /// A store.
        const OPERATION_STORE = 1 << 2;
        /// A prefetch.
        const OPERATION_PREFETCH = 1 << 3;
        /// An instruction fetch.
        const OPERATION_EXECUTE = 1 << 4;
        /// The level of the memory hierarchy isn't known.
        const LEVEL_NOT_AVAILABLE = 1 << 5;
        /// The data was found in the level.
        const LEVEL_HIT = 1 << 6;
        /// The data wasn't found in the level.
        const LEVEL_MISS = 1 << 7;
        /// The first cache.
        const LEVEL_L1 = 1 << 8;
        /// The line fill buffer.
        const LEVEL_LINE_FILL_BUFFER = 1 << 9;
        /// The second cache.
        const LEVEL_L2 = 1 << 10;
        /// The third cache.
        const LEVEL_L3 = 1 << 11;
        /// Local memory.
        const LEVEL_LOCAL_RAM = 1 << 12;
        /// Remote memory, one hop away.
        const LEVEL_REMOTE_RAM1 = 1 << 13;
        /// Remote memory, two hops away.
        const LEVEL_REMOTE_RAM2 = 1 << 14;
        /// A remote cache, one hop away.
        const LEVEL_REMOTE_CACHE1 = 1 << 15;
        /// A remote cache, two hops away.
        const LEVEL_REMOTE_CACHE2 = 1 << 16;
        /// Memory of a device.
        const LEVEL_IO = 1 << 17;
        /// Uncached memory.
        const LEVEL_UNCACHED = 1 << 18;
        /// The snoop isn't known.
        const SNOOP_NOT_AVAILABLE = 1 << 19;
        /// No snoop.
        const SNOOP_NONE = 1 << 20;
        /// A snoop that hit.
        const SNOOP_HIT = 1 << 21;
        /// A snoop that missed.
        const SNOOP_MISS = 1 << 22;
        /// A snoop that hit a modified line.
        const SNOOP_HIT_MODIFIED = 1 << 23;
        /// Whether the transaction is locked isn't known.
        const LOCK_NOT_AVAILABLE = 1 << 24;
        /// A locked transaction.
        const LOCK_LOCKED = 1 << 25;
        /// The access to the translation buffer isn't known.
        const TLB_NOT_AVAILABLE = 1 << 26;
        /// The translation was found.
        const TLB_HIT = 1 << 27;
        /// The translation wasn't found.
        const TLB_MISS = 1 << 28;
        /// The first translation buffer.
        const TLB_L1 = 1 << 29;
        /// The second translation buffer.
        const TLB_L2 = 1 << 30;
        /// The hardware walked the page table.
        const TLB_WALKER = 1 << 31;
        /// The operating system handled the fault.
        const TLB_OPERATING_SYSTEM = 1 << 32;
        /// The bits of [`DataSource::level_number`].
        const LEVEL_NUMBER = 0xf << 33;
        /// The level is remote.
        const REMOTE = 1 << 37;
        /// The snoop forwarded the data.
        const SNOOP_FORWARD = 1 << 38;
        /// The data came from a peer cache.
        const SNOOP_PEER = 1 << 39;
        /// Whether the access was blocked isn't known.
        const BLOCK_NOT_AVAILABLE = 1 << 40;
        /// The access was blocked: the data couldn't be forwarded.
        const BLOCK_DATA = 1 << 41;
        /// The access was blocked by an address conflict.
        const BLOCK_ADDRESS = 1 << 42;
        /// The bits of [`DataSource::hops`].
        const HOPS = 7 << 43;
    }
}

impl Flags for DataSource {
    type Bits = u64;

    ghost exact = { ⊤ };

    ghost table = { (codes "OPERATION_NOT_AVAILABLE", 1) ∷ (codes "OPERATION_LOAD", 2) ∷
        (codes "OPERATION_STORE", 4) ∷ (codes "OPERATION_PREFETCH", 8) ∷ (codes "OPERATION_EXECUTE", 16) ∷
        (codes "LEVEL_NOT_AVAILABLE", 32) ∷ (codes "LEVEL_HIT", 64) ∷ (codes "LEVEL_MISS", 128) ∷
        (codes "LEVEL_L1", 256) ∷ (codes "LEVEL_LINE_FILL_BUFFER", 512) ∷ (codes "LEVEL_L2", 1024) ∷
        (codes "LEVEL_L3", 2048) ∷ (codes "LEVEL_LOCAL_RAM", 4096) ∷ (codes "LEVEL_REMOTE_RAM1", 8192) ∷
        (codes "LEVEL_REMOTE_RAM2", 16384) ∷ (codes "LEVEL_REMOTE_CACHE1", 32768) ∷
        (codes "LEVEL_REMOTE_CACHE2", 65536) ∷ (codes "LEVEL_IO", 131072) ∷
        (codes "LEVEL_UNCACHED", 262144) ∷ (codes "SNOOP_NOT_AVAILABLE", 524288) ∷
        (codes "SNOOP_NONE", 1048576) ∷ (codes "SNOOP_HIT", 2097152) ∷ (codes "SNOOP_MISS", 4194304) ∷
        (codes "SNOOP_HIT_MODIFIED", 8388608) ∷ (codes "LOCK_NOT_AVAILABLE", 16777216) ∷
        (codes "LOCK_LOCKED", 33554432) ∷ (codes "TLB_NOT_AVAILABLE", 67108864) ∷
        (codes "TLB_HIT", 134217728) ∷ (codes "TLB_MISS", 268435456) ∷ (codes "TLB_L1", 536870912) ∷
        (codes "TLB_L2", 1073741824) ∷ (codes "TLB_WALKER", 2147483648) ∷
        (codes "TLB_OPERATING_SYSTEM", 4294967296) ∷ (codes "LEVEL_NUMBER", 128849018880) ∷
        (codes "REMOTE", 137438953472) ∷ (codes "SNOOP_FORWARD", 274877906944) ∷
        (codes "SNOOP_PEER", 549755813888) ∷ (codes "BLOCK_NOT_AVAILABLE", 1099511627776) ∷
        (codes "BLOCK_DATA", 2199023255552) ∷ (codes "BLOCK_ADDRESS", 4398046511104) ∷
        (codes "HOPS", 61572651155456) ∷ [] };

    ghost set_of = { λ bits. bits.0 };

    fn flags<'a>() -> &'a [Flag<DataSource>] {
        DataSource::FLAGS
    }

    fn bits(&self) -> u64 {
        self.0
    }

    fn from_bits_retain(bits: u64) -> DataSource {
        DataSource(bits)
    }
}

impl DataSource {
    /// Returns the level of the memory hierarchy (`PERF_MEM_LVLNUM_*`); 15 if it isn't known.
    pub fn level_number(&self) -> u8
        ensures { result ≡ self.now.0 / 2 ^ 33 % 16 }
    {
        ((self.0 >> 33) % 16) as u8
    }

    /// Returns how far the data was away (`PERF_MEM_HOPS_*`); 0 if it isn't known.
    pub fn hops(&self) -> u8
        ensures { result ≡ self.now.0 / 2 ^ 43 % 8 }
    {
        ((self.0 >> 43) % 8) as u8
    }
}
