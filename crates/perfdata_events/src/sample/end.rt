//! The fields of a sample from its weight on.
ghost use Rattle.std.specs.Prelude.{◌≡◌, ◌||◌, IfSome};
ghost use Rattle.std.specs.Option.{option_map};
ghost use Rattle.perfdata_sources.specs.Raw.{bytes_of, IsSingle};
ghost use Rattle.perfdata_events.specs.Single.{KeepsSingle, NoParts};
ghost use Rattle.perfdata_events.specs.SingleParts.{SingleEnd};
ghost use Rattle.perfdata_sources.specs.Endian.{number_in};
ghost use Rattle.perfdata_identifiers.specs.ParseInfo.{is_set};
ghost use Rattle.perfdata_events.specs.Format.{Decodes, optional};
ghost use Rattle.perfdata_events.specs.SampleEnd.{aux_data};
ghost use Rattle.perfdata_events.specs.SampleFormat.{WEIGHT, WEIGHT_STRUCT};

use crate::fields::registers::{RegisterMasks, SampleRegisters};
use crate::fields::u64s::read_block;
use crate::fields::words::{read_u64, read_u64_if};
use crate::sample_bits::SampleFields;
use bitflags::Flags;
use perfdata_base::raw::{Endianness, RawData};
use std::io::Result;

/// A weight in three numbers (`PERF_SAMPLE_WEIGHT_STRUCT`), by their names in `union perf_sample_weight`.
/// What they count depends on the processor.
#[derive(Clone, Copy, Debug, PartialEq, Eq)]
pub struct WeightStruct {
    /// The low 32 bits.
    pub var1_dw: u32,
    /// Bits 32 to 47.
    pub var2_w: u16,
    /// Bits 48 to 63.
    pub var3_w: u16,
}

/// The words of a sample on its data. A field is `None` if the attribute doesn't select it.
#[derive(Clone, Copy, Debug, PartialEq, Eq)]
pub struct DataWords {
    /// Where the data came from, as bits (`union perf_mem_data_src`).
    pub data_source: Option<u64>,
    /// Why a transaction was aborted, as bits.
    pub transaction: Option<u64>,
}

/// The words of a sample on its pages. A field is `None` if the attribute doesn't select it.
#[derive(Clone, Copy, Debug, PartialEq, Eq)]
pub struct PageFields {
    /// The physical address of the data.
    pub physical_address: Option<u64>,
    /// The id of the control group.
    pub cgroup: Option<u64>,
    /// The size of the page of the data, in bytes.
    pub data_page_size: Option<u64>,
    /// The size of the page of the instruction, in bytes.
    pub code_page_size: Option<u64>,
}

/// The fields of a sample from its weight on. A field is `None` if the attribute doesn't select it.
#[derive(Clone, Copy)]
pub struct SampleEnd<'a> {
    /// The weight: the cost of the access, in the unit of the hardware. With [`SampleFields::WEIGHT_STRUCT`]
    /// it is three numbers, see [`WeightStruct`].
    pub weight: Option<u64>,
    /// The words on its data.
    pub data: DataWords,
    /// The registers at the interrupt.
    pub interrupt_registers: Option<SampleRegisters<'a>>,
    /// The words on its pages.
    pub pages: PageFields,
    /// Aux data.
    pub aux_data: Option<RawData<'a>>,
}

impl WeightStruct {
    ghost use Rattle.perfdata_events.specs.SampleEnd.{weight_struct_of};

    /// Splits a weight, in either byte order: the numbers are at the same bits of the word.
    pub fn new(weight: u64) -> WeightStruct
        ensures { result ≡ weight_struct_of weight }
    {
        WeightStruct {
            var1_dw: (weight % 0x1_0000_0000) as u32,
            var2_w: ((weight >> 32) % 0x1_0000) as u16,
            var3_w: (weight >> 48) as u16,
        }
    }
}

impl DataWords {
    ghost use Rattle.perfdata_events.specs.SampleEnd.{data_words};

    // Removes the words that a sample format selects.
    #[inline(always)]
    fn parse(
        endian: Endianness,
        format: SampleFields,
        fields: &mut RawData<'_>,
    ) -> Result<DataWords>
        ensures decodes { Decodes (data_words (number_in endian) format.0) (λ v. v) (bytes_of fields.old)
            result (bytes_of fields.new) }
        ensures single { KeepsSingle NoParts fields.old result fields.new }
    {
        let data_source = read_u64_if(endian, fields, format.contains(SampleFields::DATA_SRC))?;
        let transaction = read_u64_if(endian, fields, format.contains(SampleFields::TRANSACTION))?;
        Ok(DataWords {
            data_source,
            transaction,
        })
    }
}

impl PageFields {
    ghost use Rattle.perfdata_events.specs.SampleEnd.{page_words};

    // Removes the words that a sample format selects.
    #[inline(always)]
    fn parse(
        endian: Endianness,
        format: SampleFields,
        fields: &mut RawData<'_>,
    ) -> Result<PageFields>
        ensures decodes { Decodes (page_words (number_in endian) format.0) (λ v. v) (bytes_of fields.old)
            result (bytes_of fields.new) }
        ensures single { KeepsSingle NoParts fields.old result fields.new }
    {
        let physical_address = read_u64_if(
            endian,
            fields,
            format.contains(SampleFields::PHYS_ADDR),
        )?;
        let cgroup = read_u64_if(endian, fields, format.contains(SampleFields::CGROUP))?;
        let data_page_size = read_u64_if(
            endian,
            fields,
            format.contains(SampleFields::DATA_PAGE_SIZE),
        )?;
        let code_page_size = read_u64_if(
            endian,
            fields,
            format.contains(SampleFields::CODE_PAGE_SIZE),
        )?;
        Ok(PageFields {
            physical_address,
            cgroup,
            data_page_size,
            code_page_size,
        })
    }
}

/// Returns whether a sample has a weight, in one of its two forms.
pub fn has_weight(bits: SampleFields) -> bool
    ensures { result ≡ (is_set bits.0 WEIGHT || is_set bits.0 WEIGHT_STRUCT) }
{
    bits.contains(SampleFields::WEIGHT) || bits.contains(SampleFields::WEIGHT_STRUCT)
}

// Removes aux data, whose size is eight bytes before it.
fn read_aux_data<'a>(endian: Endianness, fields: &mut RawData<'a>) -> Result<RawData<'a>>
    ensures decodes { Decodes (aux_data (number_in endian)) bytes_of (bytes_of fields.old) result
        (bytes_of fields.new) }
    ensures single { KeepsSingle IsSingle fields.old result fields.new }
{
    let size = read_u64(endian, fields)?;
    read_block(fields, size as usize)
}

// Removes aux data if it is there.
#[inline(always)]
fn read_aux_data_if<'a>(
    endian: Endianness,
    present: bool,
    fields: &mut RawData<'a>,
) -> Result<Option<RawData<'a>>>
    ensures decodes { Decodes (optional present (aux_data (number_in endian))) (option_map bytes_of)
        (bytes_of fields.old) result (bytes_of fields.new) }
    ensures single { KeepsSingle (λ v. IfSome v IsSingle) fields.old result fields.new }
{
    if !present {
        return Ok(None);
    }
    read_aux_data(endian, fields).map(Some)
}

impl<'a> SampleEnd<'a> {
    ghost use Rattle.perfdata_events.specs.SampleEnd.{sample_end, end_of};

    /// Parses the fields that a sample format selects at the start of `fields`, and removes them. Aux data is
    /// the last one, as the kernel writes it; a comment in `perf_event.h` puts it before the sizes of the
    /// pages.
    ///
    /// Fails with an `UnexpectedEof` error if they are truncated.
    #[inline(always)]
    pub fn parse(
        endian: Endianness,
        sample_format: SampleFields,
        masks: RegisterMasks,
        fields: &mut RawData<'a>,
    ) -> Result<SampleEnd<'a>>
        ensures decodes { Decodes (sample_end (number_in endian) sample_format.0 masks) end_of
            (bytes_of fields.old) result (bytes_of fields.new) }
        ensures single { KeepsSingle SingleEnd fields.old result fields.new }
    {
        let weight = read_u64_if(endian, fields, has_weight(sample_format))?;
        let data = DataWords::parse(endian, sample_format, fields)?;
        let interrupt_registers = SampleRegisters::parse_interrupt(
            endian,
            sample_format,
            masks,
            fields,
        )?;
        let pages = PageFields::parse(endian, sample_format, fields)?;
        let aux_data = read_aux_data_if(endian, sample_format.contains(SampleFields::AUX), fields)?;
        Ok(SampleEnd {
            weight,
            data,
            interrupt_registers,
            pages,
            aux_data,
        })
    }
}
