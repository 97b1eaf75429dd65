//! The identifier and the time of a record.
ghost use Rattle.std.specs.Prelude.{◌≡◌};
ghost use Rattle.perfdata_identifiers.specs.RecordFields.{read_identifier, leading_identifier_of, time_in};
ghost use Rattle.perfdata_sources.specs.Raw.{bytes_of};

use crate::place::body_fields::field_in_body;
use crate::place::parse_info::{RecordIdParseInfo, RecordParseInfo};
use perfdata_sources::endian::FileOrder;
use perfdata_sources::event::RecordType;
use perfdata_sources::raw::RawData;

/// Returns the identifier of a record, at the offset from its attribute.
///
/// It is `None` if the record has no such offset, or if the number at the offset isn't completely in the
/// body. A user record has none.
pub fn get_record_id<T: FileOrder>(
    record_type: RecordType,
    body: RawData<'_>,
    parse_info: &RecordIdParseInfo,
) -> Option<u64>
    ensures { result ≡ read_identifier T.ENDIAN parse_info.now record_type.0 (bytes_of body.entry) }
{
    field_in_body::<T>(
        record_type,
        body,
        parse_info.sample_id_from_start,
        parse_info.other_id_from_end,
    )
}

/// Returns the identifier of a record in an input whose records all have the field IDENTIFIER.
///
/// The identifier is the first eight bytes of a sample. It is the last eight bytes of another kernel record
/// if `sample_id_all` is true, which means that such records end with sample_id fields. It is `None` if the
/// body is shorter. A user record has none.
pub fn get_record_identifier<T: FileOrder>(
    record_type: RecordType,
    body: RawData<'_>,
    sample_id_all: bool,
) -> Option<u64>
    ensures { result ≡ leading_identifier_of T.ENDIAN sample_id_all record_type.0 (bytes_of body.entry) }
{
    let from_end = if sample_id_all { Some(8) } else { None };
    field_in_body::<T>(record_type, body, Some(0), from_end)
}

/// Returns the time of a record, at the offset from its attribute.
///
/// It is `None` if the record has no such offset, or if the number at the offset isn't completely in the
/// body. A user record has none.
pub fn get_record_timestamp<T: FileOrder>(
    record_type: RecordType,
    body: RawData<'_>,
    parse_info: &RecordParseInfo,
) -> Option<u64>
    ensures { result ≡ time_in T.ENDIAN parse_info.now record_type.0 (bytes_of body.entry) }
{
    field_in_body::<T>(
        record_type,
        body,
        parse_info.sample_time_from_start,
        parse_info.other_time_from_end,
    )
}
