//! Records on the aux area and its traces.
ghost use Rattle.std.specs.Prelude.{◌≡◌};
ghost use Rattle.perfdata_sources.specs.Raw.{bytes_of};
ghost use Rattle.perfdata_events.specs.Single.{KeepsSingle, NoParts};
ghost use Rattle.perfdata_sources.specs.Endian.{number_in};
ghost use Rattle.perfdata_events.specs.Format.{Decodes};
ghost use Rattle.perfdata_events.specs.Aux.{aux};
ghost use Rattle.perfdata_events.specs.ItraceStart.{itrace_start};
ghost use Rattle.perfdata_events.specs.AuxOutputHwId.{aux_output_hw_id};

use crate::fields::numbers::{field_i32, field_u64};
use crate::record_masks::AuxFlags;
use perfdata_base::raw::{Endianness, RawData};
use std::io::Result;

/// New data in the aux area (`PERF_RECORD_AUX`).
#[derive(Clone, Copy, Debug, PartialEq, Eq)]
pub struct AuxRecord {
    /// The offset of the data in the aux area, in bytes.
    pub offset: u64,
    /// The size of the data in bytes.
    pub size: u64,
    /// The flags of the data, as bits, see [`AuxRecord::named_flags`].
    pub flags: u64,
}

/// The start of an instruction trace (`PERF_RECORD_ITRACE_START`).
#[derive(Clone, Copy, Debug, PartialEq, Eq)]
pub struct ItraceStartRecord {
    /// The process id.
    pub pid: i32,
    /// The thread id.
    pub tid: i32,
}

/// The hardware id of an event whose data is in the aux area (`PERF_RECORD_AUX_OUTPUT_HW_ID`).
#[derive(Clone, Copy, Debug, PartialEq, Eq)]
pub struct AuxOutputHwIdRecord {
    /// The hardware id.
    pub hw_id: u64,
}

impl AuxRecord {
    /// Returns the flags of the data by their names.
    pub fn named_flags(&self) -> AuxFlags
        ensures { result.0 ≡ self.now.flags }
    {
        AuxFlags(self.flags)
    }

    /// Parses the fields at the start of `fields`, and removes them.
    ///
    /// Fails with an `UnexpectedEof` error if they are truncated.
    pub fn parse(endian: Endianness, fields: &mut RawData<'_>) -> Result<AuxRecord>
        ensures decodes { Decodes (aux (number_in endian)) (λ v. v) (bytes_of fields.old) result
            (bytes_of fields.new) }
        ensures single { KeepsSingle NoParts fields.old result fields.new }
    {
        let mut bytes = [0u8; 24];
        fields.read_exact(&mut bytes)?;
        Ok(AuxRecord {
            offset: field_u64(endian, &bytes, 0),
            size: field_u64(endian, &bytes, 8),
            flags: field_u64(endian, &bytes, 16),
        })
    }
}

impl ItraceStartRecord {
    /// Parses the fields at the start of `fields`, and removes them.
    ///
    /// Fails with an `UnexpectedEof` error if they are truncated.
    pub fn parse(endian: Endianness, fields: &mut RawData<'_>) -> Result<ItraceStartRecord>
        ensures decodes { Decodes (itrace_start (number_in endian)) (λ v. v) (bytes_of fields.old) result
            (bytes_of fields.new) }
        ensures single { KeepsSingle NoParts fields.old result fields.new }
    {
        let mut bytes = [0u8; 8];
        fields.read_exact(&mut bytes)?;
        Ok(ItraceStartRecord {
            pid: field_i32(endian, &bytes, 0),
            tid: field_i32(endian, &bytes, 4),
        })
    }
}

impl AuxOutputHwIdRecord {
    /// Parses the fields at the start of `fields`, and removes them.
    ///
    /// Fails with an `UnexpectedEof` error if they are truncated.
    pub fn parse(endian: Endianness, fields: &mut RawData<'_>) -> Result<AuxOutputHwIdRecord>
        ensures decodes { Decodes (aux_output_hw_id (number_in endian)) (λ v. v) (bytes_of fields.old) result
            (bytes_of fields.new) }
        ensures single { KeepsSingle NoParts fields.old result fields.new }
    {
        let mut bytes = [0u8; 8];
        fields.read_exact(&mut bytes)?;
        Ok(AuxOutputHwIdRecord {
            hw_id: field_u64(endian, &bytes, 0),
        })
    }
}
