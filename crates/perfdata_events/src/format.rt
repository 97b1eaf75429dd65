//! What the bodies of one attribute's records hold.
ghost use Rattle.std.specs.Prelude.{◌≡◌, [], ◌∷◌, IfOk};
ghost use Rattle.perfdata_sources.specs.Raw.{bytes_of, IsSingle};
ghost use Rattle.perfdata_events.specs.Words.{word_size, words_size};
ghost use Rattle.perfdata_events.specs.SampleFormat.{TID, TIME, ID, STREAM_ID, CPU, IDENTIFIER};

use crate::fields::registers::RegisterMasks;
use crate::sample_bits::{BranchFields, EventFlags, ReadFields, SampleFields};
use bitflags::Flags;
use perfdata_base::attr::PerfEventAttr;
use perfdata_base::raw::{Endianness, RawData};
use perfdata_base::source::unexpected_eof;
use std::io::Result;

/// What the bodies of one attribute's records hold.
///
/// ```
/// use linux_perf_data::source::PlacedSource;
/// use linux_perf_data::{Error, PerfFileReader, PerfFileRecord};
/// use perfdata_events::event::EventRecord;
/// use perfdata_events::format::EventFormat;
/// use std::alloc::Global;
///
/// fn period_sum<C: PlacedSource + Drop>(alloc: Global, file: C) -> Result<u64, Error> {
///     let reader = PerfFileReader::parse_file(alloc, file)?;
///     let (mut perf_file, mut records) = (reader.perf_file, reader.record_iter);
///     let mut sum = 0u64;
///     for _ in 0..u64::MAX {
///         let Some((_, record)) = records.next_record(&mut perf_file)? else {
///             break;
///         };
///         if let PerfFileRecord::EventRecord { attr_index, event } = record
///             && let Some(description) = perf_file.event_attributes().get(attr_index)
///         {
///             let format = EventFormat::with_little_endian_flags(
///                 description.attributes(),
///                 perf_file.endian(),
///             );
///             if let EventRecord::Sample(sample) = format.parse(&event)? {
///                 sum = sum.saturating_add(sample.period.unwrap_or(0));
///             }
///         }
///     }
///     Ok(sum)
/// }
/// ```
#[derive(Clone, Copy, Debug)]
pub struct EventFormat {
    /// The byte order of numbers.
    pub endian: Endianness,
    /// The fields of a sample.
    pub sample_format: SampleFields,
    /// The fields of counter values.
    pub read_format: ReadFields,
    /// The fields of a branch stack.
    pub branch_sample_type: BranchFields,
    /// The user registers of a sample, as bits.
    pub sample_regs_user: u64,
    /// The registers at the interrupt of a sample, as bits.
    pub sample_regs_intr: u64,
    /// Whether records that aren't samples end with sample_id fields.
    pub sample_id_all: bool,
}

// SAMPLE_ID_ALL, bit 18 of the flags, as a big-endian compiler lays it out.
const BIG_ENDIAN_SAMPLE_ID_ALL: u64 = 1 << (63 - 18);

// The size of an optional word in bytes.
fn word_size(present: bool) -> usize
    ensures { result ≡ word_size present }
{
    if present { 8 } else { 0 }
}

// The size of the sample_id fields of a sample format in bytes.
fn sample_id_size(format: SampleFields) -> usize
    ensures { result ≡ words_size format.0 (TID ∷ TIME ∷ ID ∷ STREAM_ID ∷ CPU ∷ IDENTIFIER ∷ []) }
{
    let task = word_size(format.contains(SampleFields::TID));
    let time = word_size(format.contains(SampleFields::TIME));
    let id = word_size(format.contains(SampleFields::ID));
    let stream_id = word_size(format.contains(SampleFields::STREAM_ID));
    let cpu = word_size(format.contains(SampleFields::CPU));
    let identifier = word_size(format.contains(SampleFields::IDENTIFIER));
    task + time + id + stream_id + cpu + identifier
}

impl EventFormat {
    ghost use Rattle.perfdata_events.specs.EventFormat.{event_format_of, big_endian_format_of};
    ghost use Rattle.perfdata_events.specs.EventFormat.{native_format_of, register_masks_of};
    ghost use Rattle.perfdata_events.specs.EventFormat.{trailing_size};
    ghost use Rattle.perfdata_events.specs.steps.EventFormat.{SplitsTrailing};

    /// Returns the format of the records of an attribute whose flags a little-endian compiler laid out, with
    /// numbers in the byte order `endian`.
    pub fn with_little_endian_flags(attr: &PerfEventAttr, endian: Endianness) -> EventFormat
        ensures { result ≡ event_format_of attr.now endian }
    {
        EventFormat {
            endian,
            sample_format: SampleFields::from_bits_retain(attr.sample_format.0),
            read_format: ReadFields::from_bits_retain(attr.read_format),
            branch_sample_type: BranchFields::from_bits_retain(attr.branch_sample_type),
            sample_regs_user: attr.sample_regs_user,
            sample_regs_intr: attr.sample_regs_intr,
            sample_id_all: EventFlags::from_bits_retain(attr.flags.0).contains(
                EventFlags::SAMPLE_ID_ALL,
            ),
        }
    }

    /// Returns the format of the records of an attribute whose flags a big-endian compiler laid out, as in a
    /// recording of s390x: bit n of the kernel's list of flags is bit 63 - n of the word. With
    /// [`EventFormat::with_little_endian_flags`] the sample_id fields of such a recording are taken for
    /// padding.
    pub fn with_big_endian_flags(attr: &PerfEventAttr, endian: Endianness) -> EventFormat
        ensures { result ≡ big_endian_format_of attr.now endian }
    {
        EventFormat {
            sample_id_all: EventFlags::from_bits_retain(attr.flags.0).contains(
                EventFlags::from_bits_retain(BIG_ENDIAN_SAMPLE_ID_ALL),
            ),
            ..EventFormat::with_little_endian_flags(attr, endian)
        }
    }

    /// Returns the format of the records of an attribute of a recording in the byte order `endian`. Its flags
    /// are those of [`EventFlags::from_attribute`].
    pub fn new(attr: &PerfEventAttr, endian: Endianness) -> EventFormat
        ensures { result ≡ native_format_of attr.now endian }
    {
        let flags = EventFlags::from_attribute(attr, endian);
        EventFormat {
            sample_id_all: flags.contains(EventFlags::SAMPLE_ID_ALL),
            ..EventFormat::with_little_endian_flags(attr, endian)
        }
    }

    /// Returns the masks of the registers in a sample.
    #[inline(always)]
    pub fn register_masks(&self) -> RegisterMasks
        ensures { result ≡ register_masks_of self.now }
    {
        RegisterMasks {
            user: self.sample_regs_user,
            interrupt: self.sample_regs_intr,
        }
    }

    // The size of the sample_id fields at the end of a record that isn't a sample, in bytes.
    fn trailing_size(&self) -> usize
        ensures { result ≡ trailing_size self.now }
    {
        if self.sample_id_all {
            sample_id_size(self.sample_format)
        } else {
            0
        }
    }

    // Splits the body of a record that isn't a sample into its fields with their padding, and its sample_id
    // fields.
    pub(crate) fn split_trailing<'a>(&self, body: RawData<'a>) -> Result<(RawData<'a>, RawData<'a>)>
        ensures splits { SplitsTrailing self.now (bytes_of body.entry) result }
        ensures single { IfOk result (λ parts. IsSingle body.entry → IsSingle parts.0 × IsSingle parts.1) }
    {
        let Some(len) = body.len().checked_sub(self.trailing_size()) else {
            return Err(unexpected_eof());
        };
        let mut trailing = body;
        let fields = trailing.split_off_prefix(len)?;
        Ok((fields, trailing))
    }
}
