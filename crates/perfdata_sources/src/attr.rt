//! Event attributes of every size.
ghost use Rattle.std.specs.Prelude.{⊤, ◌≡◌, ◌+◌, ◌≤◌, [], ◌∷◌, codes, length, take};
ghost use Rattle.std.specs.Int.{w32, cast_signed};
ghost use Rattle.std.specs.IoError.{error_kind};
ghost use Rattle.std.specs.declared.io.ErrorKind.TheVariants.{InvalidData};
ghost use Rattle.perfdata_sources.specs.Source.{State, PausesOnlyOnError};
ghost use Rattle.perfdata_sources.specs.Attr.{field, attr_of_size, ParsesAttr, ReadsOwnSize, ReadsAttrRest};

use crate::endian::FileOrder;
use crate::source::{Source, read_exact, skip_exact};
use bitflags::{Flag, Flags, bitflag_items};
use std::io::{Error, ErrorKind, Result};

/// The fields of an event's samples, as bits (`perf_event_sample_format` in Linux's `perf_event.h`). Bits
/// without a constant here are preserved.
#[derive(Clone, Copy, Debug, PartialEq, Eq)]
pub struct SampleFormat(pub u64);

bitflag_items! {
    impl SampleFormat: u64 {
        /// The address of the instruction.
        const IP = 1 << 0;
        /// The process and the thread.
        const TID = 1 << 1;
        /// The time.
        const TIME = 1 << 2;
        /// The address in memory.
        const ADDR = 1 << 3;
        /// The event's identifier.
        const ID = 1 << 6;
        /// The processor.
        const CPU = 1 << 7;
        /// The identifier of the event itself, also if another task inherited it.
        const STREAM_ID = 1 << 9;
        /// The event's identifier, at an offset that doesn't depend on the other fields.
        const IDENTIFIER = 1 << 16;
    }
}

impl Flags for SampleFormat {
    type Bits = u64;

    ghost exact = { ⊤ };

    ghost table = { (codes "IP", 1) ∷ (codes "TID", 2) ∷ (codes "TIME", 4) ∷ (codes "ADDR", 8) ∷
        (codes "ID", 64) ∷ (codes "CPU", 128) ∷ (codes "STREAM_ID", 512) ∷ (codes "IDENTIFIER", 65536) ∷ [] };

    ghost set_of = { λ format. format.0 };

    fn flags<'a>() -> &'a [Flag<SampleFormat>] {
        SampleFormat::FLAGS
    }

    fn bits(&self) -> u64 {
        self.0
    }

    fn from_bits_retain(bits: u64) -> SampleFormat {
        SampleFormat(bits)
    }
}

/// The flags of an event's attribute, as bits. Bits without a constant here are preserved.
#[derive(Clone, Copy, Debug, PartialEq, Eq)]
pub struct AttrFlags(pub u64);

bitflag_items! {
    impl AttrFlags: u64 {
        /// Records that aren't samples end with sample_id fields.
        const SAMPLE_ID_ALL = 1 << 18;
    }
}

impl Flags for AttrFlags {
    type Bits = u64;

    ghost exact = { ⊤ };

    ghost table = { (codes "SAMPLE_ID_ALL", 262144) ∷ [] };

    ghost set_of = { λ flags. flags.0 };

    fn flags<'a>() -> &'a [Flag<AttrFlags>] {
        AttrFlags::FLAGS
    }

    fn bits(&self) -> u64 {
        self.0
    }

    fn from_bits_retain(bits: u64) -> AttrFlags {
        AttrFlags(bits)
    }
}

/// The attribute of an event (`perf_event_attr` in Linux's `perf_event.h`).
#[derive(Clone, Copy, Debug)]
pub struct PerfEventAttr {
    /// The type of event: 0 hardware, 1 software, 2 tracepoint, 3 cache, 4 raw, 5 breakpoint, or a monitoring
    /// unit.
    pub type_: u32,
    /// The size of the attribute in bytes.
    pub size: u32,
    /// The event among those of its type.
    pub config: u64,
    /// The number of events per sample, or of samples per second with the flag FREQ.
    pub period_or_freq: u64,
    /// The fields of a sample.
    pub sample_format: SampleFormat,
    /// The fields of a counter reading, as bits.
    pub read_format: u64,
    /// What is recorded besides samples, and how.
    pub flags: AttrFlags,
    /// The number of samples before the recorder is woken, or of bytes with the flag WATERMARK.
    pub wakeup: u32,
    /// The type of breakpoint: 1 read, 2 write, 3 both, 4 execute.
    pub bp_type: u32,
    /// The second configuration number of the event; the address of a breakpoint.
    pub config1: u64,
    /// The third configuration number of the event; the length of a breakpoint in bytes.
    pub config2: u64,
    /// The branches that a branch stack contains, as bits.
    pub branch_sample_type: u64,
    /// The user registers that a sample contains, as bits.
    pub sample_regs_user: u64,
    /// The number of bytes of the user stack that a sample contains.
    pub sample_stack_user: u32,
    /// The clock of the times, if the flag USE_CLOCKID is set.
    pub clockid: i32,
    /// The registers at the interrupt that a sample contains, as bits.
    pub sample_regs_intr: u64,
    /// The number of bytes of aux data before the recorder is woken.
    pub aux_watermark: u32,
    /// The maximum number of frames of a call chain.
    pub sample_max_stack: u16,
    /// The number of bytes of aux data that a sample contains.
    pub aux_sample_size: u32,
    /// The data that a signal of the event carries.
    pub sig_data: u64,
    /// The fourth configuration number of the event.
    pub config3: u64,
}

/// The number of bytes of an attribute that are parsed. Later bytes are skipped.
pub const KNOWN_SIZE: usize = 136;

// The minimum size of an attribute in bytes, that of its first version.
const MIN_SIZE: u32 = 64;

#[tactic(auto, unfolding(crate::specs::Attr::field))]
fn u64_field<T: FileOrder>(bytes: &[u8], own_size: u32, at: usize) -> u64
    requires { at + 8 ≤ length bytes.now }
    ensures { result ≡ field T.number_of own_size 8 at bytes.now }
{
    if at + 8 <= own_size as usize {
        T::read_u64(&bytes[at..])
    } else {
        0
    }
}

#[tactic(auto, unfolding(crate::specs::Attr::field))]
fn u32_field<T: FileOrder>(bytes: &[u8], own_size: u32, at: usize) -> u32
    requires { at + 4 ≤ length bytes.now }
    ensures { result ≡ field T.number_of own_size 4 at bytes.now }
{
    if at + 4 <= own_size as usize {
        T::read_u32(&bytes[at..])
    } else {
        0
    }
}

#[tactic(auto, unfolding(crate::specs::Attr::field))]
fn u16_field<T: FileOrder>(bytes: &[u8], own_size: u32, at: usize) -> u16
    requires { at + 2 ≤ length bytes.now }
    ensures { result ≡ field T.number_of own_size 2 at bytes.now }
{
    if at + 2 <= own_size as usize {
        T::read_u16(&bytes[at..])
    } else {
        0
    }
}

fn i32_field<T: FileOrder>(bytes: &[u8], own_size: u32, at: usize) -> i32
    requires { at + 4 ≤ length bytes.now }
    ensures { result ≡ cast_signed w32 (field T.number_of own_size 4 at bytes.now) }
{
    u32_field::<T>(bytes, own_size, at).cast_signed()
}

// Parses an attribute of `own_size` bytes. A field that isn't completely within them is 0.
#[tactic(auto, unfolding(crate::specs::Attr::attr_of_size))]
fn parse_fields<T: FileOrder>(bytes: &[u8], own_size: u32) -> PerfEventAttr
    requires { length bytes.now ≡ 136 }
    ensures { result ≡ attr_of_size T.number_of own_size bytes.now }
{
    PerfEventAttr {
        type_: u32_field::<T>(bytes, own_size, 0),
        size: own_size,
        config: u64_field::<T>(bytes, own_size, 8),
        period_or_freq: u64_field::<T>(bytes, own_size, 16),
        sample_format: SampleFormat(u64_field::<T>(bytes, own_size, 24)),
        read_format: u64_field::<T>(bytes, own_size, 32),
        flags: AttrFlags(u64_field::<T>(bytes, own_size, 40)),
        wakeup: u32_field::<T>(bytes, own_size, 48),
        bp_type: u32_field::<T>(bytes, own_size, 52),
        config1: u64_field::<T>(bytes, own_size, 56),
        config2: u64_field::<T>(bytes, own_size, 64),
        branch_sample_type: u64_field::<T>(bytes, own_size, 72),
        sample_regs_user: u64_field::<T>(bytes, own_size, 80),
        sample_stack_user: u32_field::<T>(bytes, own_size, 88),
        clockid: i32_field::<T>(bytes, own_size, 92),
        sample_regs_intr: u64_field::<T>(bytes, own_size, 96),
        aux_watermark: u32_field::<T>(bytes, own_size, 104),
        sample_max_stack: u16_field::<T>(bytes, own_size, 108),
        aux_sample_size: u32_field::<T>(bytes, own_size, 112),
        sig_data: u64_field::<T>(bytes, own_size, 120),
        config3: u64_field::<T>(bytes, own_size, 128),
    }
}

fn invalid_size() -> Error
    ensures { error_kind result ≡ InvalidData }
{
    Error::from(ErrorKind::InvalidData)
}

/// Reads the first 8 bytes of an attribute into `bytes`, and returns its own size in bytes.
///
/// It fails with `UnexpectedEof` if fewer bytes are read, and with `InvalidData` if the own size is 1 to 63.
pub fn read_own_size<R: Source, T: FileOrder>(source: &mut R, bytes: &mut [u8]) -> Result<u32>
    requires { length bytes.old ≡ 8 }
    ensures reads { ReadsOwnSize T.number_of (R.state source.old) bytes.new result (R.state source.new) }
    ensures pauses { PausesOnlyOnError (R.state source.old) result (R.state source.new) }
    ensures same_loan { R.loan source.new ≡ R.loan source.old }
{
    read_exact(source, bytes)?;
    let size = T::read_u32(&bytes[4..]);
    if size == 0 {
        return Ok(MIN_SIZE);
    }
    if size < MIN_SIZE {
        return Err(invalid_size());
    }
    Ok(size)
}

/// Reads the rest of an attribute whose first 8 bytes are at the start of `bytes`.
///
/// `own_size` is the attribute's own size in bytes. Own bytes after the first 136 are skipped. It fails with
/// `UnexpectedEof` if fewer bytes are read than the own size requires.
pub fn read_after_own_size<R: Source, T: FileOrder>(
    source: &mut R,
    bytes: &mut [u8],
    own_size: u32,
) -> Result<PerfEventAttr>
    requires exact_len { length bytes.old ≡ 136 }
    requires min_size { 64 ≤ own_size }
    ensures reads { ReadsAttrRest T.number_of (R.state source.old) (take 8 bytes.old) own_size result
        (R.state source.new) }
    ensures pauses { PausesOnlyOnError (R.state source.old) result (R.state source.new) }
    ensures same_loan { R.loan source.new ≡ R.loan source.old }
{
    let known_size = (own_size as usize).min(KNOWN_SIZE);
    read_exact(source, &mut bytes[8..known_size])?;
    skip_exact(source, (own_size as usize - known_size) as u64)?;
    Ok(parse_fields::<T>(bytes, own_size))
}

impl PerfEventAttr {
    /// Parses an attribute from a borrowed source, and returns it with its own size, the number of bytes
    /// consumed.
    ///
    /// The own size is the second u32 field, where 0 means 64. A field that isn't completely within the own
    /// bytes is 0. Own bytes after the last field are skipped. It fails with `UnexpectedEof` if fewer bytes
    /// are read, and with `InvalidData` if the own size is 1 to 63.
    pub fn parse_from<R: Source, T: FileOrder>(source: &mut R) -> Result<(PerfEventAttr, u64)>
        ensures parses { ParsesAttr T.number_of (R.state source.old) result (R.state source.new) }
        ensures pauses { PausesOnlyOnError (R.state source.old) result (R.state source.new) }
        ensures same_loan { R.loan source.new ≡ R.loan source.old }
    {
        let mut bytes = [0u8; KNOWN_SIZE];
        let own_size = read_own_size::<R, T>(source, &mut bytes[..8])?;
        let attr = read_after_own_size::<R, T>(source, &mut bytes, own_size)?;
        Ok((attr, own_size as u64))
    }

    /// Parses an attribute from a source as `parse_from` does, and returns it with its own size.
    pub fn parse<R: Source + Drop, T: FileOrder>(mut r: R) -> Result<(PerfEventAttr, u64)>
        ensures { (left : State) × ParsesAttr T.number_of (R.state r) result left }
    {
        PerfEventAttr::parse_from::<R, T>(&mut r)
    }
}
