//! The registers in samples.
ghost use Rattle.std.specs.Prelude.{◌≡◌, IfSome};
ghost use Rattle.std.specs.Option.{option_map};
ghost use Rattle.perfdata_sources.specs.Raw.{bytes_of};
ghost use Rattle.perfdata_events.specs.Single.{KeepsSingle};
ghost use Rattle.perfdata_events.specs.SingleParts.{SingleRegisters};
ghost use Rattle.perfdata_sources.specs.Endian.{number_in};
ghost use Rattle.perfdata_identifiers.specs.ParseInfo.{is_set};
ghost use Rattle.perfdata_events.specs.Format.{Decodes, optional};
ghost use Rattle.perfdata_events.specs.SampleFormat.{REGS_USER, REGS_INTR};

use crate::fields::u64s::RawDataU64;
use crate::fields::words::{read_u64, read_u64_list};
use crate::sample_bits::SampleFields;
use bitflags::Flags;
use perfdata_base::raw::{Endianness, RawData};
use std::io::Result;

/// The masks of the registers that an attribute selects.
#[derive(Clone, Copy, Debug, PartialEq, Eq)]
pub struct RegisterMasks {
    /// The registers of the program, as bits (`sample_regs_user`).
    pub user: u64,
    /// The registers at the interrupt, as bits (`sample_regs_intr`).
    pub interrupt: u64,
}

/// The registers of a program or at an interrupt.
#[derive(Clone, Copy, Debug)]
pub struct SampleRegisters<'a> {
    /// The kind of the program: 0 none, 1 of 32 bits, 2 of 64 bits.
    pub abi: u64,
    /// The registers of the attribute's mask, by ascending bit; none if `abi` is 0.
    pub values: RawDataU64<'a>,
}

impl<'a> SampleRegisters<'a> {
    ghost use Rattle.perfdata_events.specs.SampleRegisters.{registers, registers_of, register_count};

    // The number of registers.
    fn count(abi: u64, mask: u64) -> u64
        ensures { result ≡ register_count abi mask }
    {
        if abi == 0 {
            0
        } else {
            mask.count_ones() as u64
        }
    }

    // Removes the registers of a mask.
    fn parse(endian: Endianness, mask: u64, fields: &mut RawData<'a>) -> Result<SampleRegisters<'a>>
        ensures decodes { Decodes (registers (number_in endian) mask) registers_of (bytes_of fields.old)
            result (bytes_of fields.new) }
        ensures single { KeepsSingle SingleRegisters fields.old result fields.new }
    {
        let abi = read_u64(endian, fields)?;
        let count = SampleRegisters::count(abi, mask);
        let values = read_u64_list(endian, fields, count)?;
        Ok(SampleRegisters { abi, values })
    }

    /// Parses the registers of the program at the start of `fields` if the sample format selects them, and
    /// removes them.
    ///
    /// Fails with an `UnexpectedEof` error if they are truncated.
    #[inline(always)]
    pub fn parse_user(
        endian: Endianness,
        sample_format: SampleFields,
        masks: RegisterMasks,
        fields: &mut RawData<'a>,
    ) -> Result<Option<SampleRegisters<'a>>>
        ensures decodes { Decodes (optional (is_set sample_format.0 REGS_USER)
            (registers (number_in endian) masks.user)) (option_map registers_of) (bytes_of fields.old) result
            (bytes_of fields.new) }
        ensures single { KeepsSingle (λ v. IfSome v SingleRegisters) fields.old result fields.new }
    {
        if !sample_format.contains(SampleFields::REGS_USER) {
            return Ok(None);
        }
        SampleRegisters::parse(endian, masks.user, fields).map(Some)
    }

    /// Parses the registers at the interrupt at the start of `fields` if the sample format selects them, and
    /// removes them.
    ///
    /// Fails with an `UnexpectedEof` error if they are truncated.
    #[inline(always)]
    pub fn parse_interrupt(
        endian: Endianness,
        sample_format: SampleFields,
        masks: RegisterMasks,
        fields: &mut RawData<'a>,
    ) -> Result<Option<SampleRegisters<'a>>>
        ensures decodes { Decodes (optional (is_set sample_format.0 REGS_INTR)
            (registers (number_in endian) masks.interrupt)) (option_map registers_of)
            (bytes_of fields.old) result (bytes_of fields.new) }
        ensures single { KeepsSingle (λ v. IfSome v SingleRegisters) fields.old result fields.new }
    {
        if !sample_format.contains(SampleFields::REGS_INTR) {
            return Ok(None);
        }
        SampleRegisters::parse(endian, masks.interrupt, fields).map(Some)
    }
}
