//! The offsets of the identifier and the time in the records of an attribute.
ghost use Rattle.std.specs.Prelude.{◌≡◌, ℕ, ◌^◌, ◌==◌, filter, length, position};
ghost use Rattle.std.specs.Int.RustNames.{bit_and};
ghost use Rattle.perfdata_identifiers.specs.ParseInfo.{offset_from_start, offset_from_end, sample_words};
ghost use Rattle.perfdata_identifiers.specs.ParseInfo.{trailing_words, identifier_word, id_parse_info_of};
ghost use Rattle.perfdata_identifiers.specs.ParseInfo.{parse_info_of};
ghost use Rattle.perfdata_identifiers.specs.RecordFields.{read_time, read_identifier};

use crate::place::body_fields::field_in_slice;
use bitflags::Flags;
use perfdata_sources::attr::{AttrFlags, PerfEventAttr, SampleFormat};
use perfdata_sources::endian::Endianness;
use perfdata_sources::event::RecordType;

/// The offset of the identifier in a record's body.
#[derive(Clone, Copy, Debug, PartialEq, Eq)]
pub struct RecordIdParseInfo {
    /// In a sample, in bytes from the start of the body.
    pub sample_id_from_start: Option<u64>,
    /// In another record, in bytes from the end of the body.
    pub other_id_from_end: Option<u64>,
}

/// The offsets of the identifier and the time in a record's body, and the byte order of its numbers.
#[derive(Clone, Copy, Debug)]
pub struct RecordParseInfo {
    /// The byte order of the numbers.
    pub endian: Endianness,
    /// The fields of a sample.
    pub sample_format: SampleFormat,
    /// The offset of the identifier.
    pub id_parse_info: RecordIdParseInfo,
    /// The offset of the time in a sample, in bytes from the start of the body.
    pub sample_time_from_start: Option<u64>,
    /// The offset of the time in another record, in bytes from the end of the body.
    pub other_time_from_end: Option<u64>,
}

// The optional u64 fields at the start of a sample, in order, each as the format bit that selects it.
const SAMPLE_WORDS: [SampleFormat; 6] = [
    SampleFormat::IDENTIFIER,
    SampleFormat::IP,
    SampleFormat::TID,
    SampleFormat::TIME,
    SampleFormat::ADDR,
    SampleFormat::ID,
];

// The optional u64 fields at the end of another record, in order, each as the format bit that selects it.
const TRAILING_WORDS: [SampleFormat; 6] = [
    SampleFormat::TID,
    SampleFormat::TIME,
    SampleFormat::ID,
    SampleFormat::STREAM_ID,
    SampleFormat::CPU,
    SampleFormat::IDENTIFIER,
];

// The number of these fields that a format selects.
fn word_count(words: &[SampleFormat], format: SampleFormat) -> usize
    ensures { result ≡ length (filter (λ w. bit_and format.0 w.0 == w.0) words.now) }
{
    words.iter().filter(|w| format.contains(**w)).count()
}

// The index of a field among those of these fields that a format selects.
fn word_index(words: &[SampleFormat], format: SampleFormat, word: SampleFormat) -> Option<usize>
    ensures { result ≡ position (λ w. w.0 == word.0) (filter (λ w. bit_and format.0 w.0 == w.0) words.now) }
{
    words
        .iter()
        .filter(|w| format.contains(**w))
        .position(|w| *w == word)
}

// The offset of a field in a sample, in bytes from the start of the body. Each field has eight bytes.
fn offset_from_start(format: SampleFormat, word: SampleFormat) -> Option<u64>
    ensures { (k : ℕ) → word.0 ≡ 2 ^ k → result ≡ offset_from_start (sample_words format.0) k }
{
    match word_index(&SAMPLE_WORDS, format, word) {
        Some(index) => Some(8 * index as u64),
        None => None,
    }
}

// The offset of a field in another record, in bytes from the end of the body.
fn offset_from_end(format: SampleFormat, flags: AttrFlags, word: SampleFormat) -> Option<u64>
    ensures { (k : ℕ) → word.0 ≡ 2 ^ k → result ≡ offset_from_end (trailing_words format.0 flags.0) k }
{
    if !flags.contains(AttrFlags::SAMPLE_ID_ALL) {
        return None;
    }
    let count = word_count(&TRAILING_WORDS, format);
    match word_index(&TRAILING_WORDS, format, word) {
        Some(index) => Some(8 * (count - index) as u64),
        None => None,
    }
}

// The field that contains a record's identifier.
fn identifier_field(format: SampleFormat) -> SampleFormat
    ensures { result.0 ≡ 2 ^ identifier_word format.0 }
{
    if format.contains(SampleFormat::IDENTIFIER) {
        SampleFormat::IDENTIFIER
    } else {
        SampleFormat::ID
    }
}

impl RecordIdParseInfo {
    /// Returns the offsets of the identifier in the records of an attribute. They are those of the field
    /// IDENTIFIER if the format selects it, else of ID, and `None` if it selects neither.
    pub fn new(attr: &PerfEventAttr) -> RecordIdParseInfo
        ensures { result ≡ id_parse_info_of attr.now }
    {
        let word = identifier_field(attr.sample_format);
        RecordIdParseInfo {
            sample_id_from_start: offset_from_start(attr.sample_format, word),
            other_id_from_end: offset_from_end(attr.sample_format, attr.flags, word),
        }
    }

    /// Returns the identifier of a record whose body is contiguous.
    ///
    /// It is `None` if the record has no such offset, or if the number at the offset isn't completely in the
    /// body. A user record has none.
    pub fn read_identifier(
        &self,
        endian: Endianness,
        record_type: RecordType,
        body: &[u8],
    ) -> Option<u64>
        ensures { result ≡ read_identifier endian self.now record_type.0 body.now }
    {
        field_in_slice(
            endian,
            record_type,
            body,
            self.sample_id_from_start,
            self.other_id_from_end,
        )
    }
}

impl RecordParseInfo {
    /// Returns the offsets of the identifier and the time in the records of an attribute, with the byte order
    /// `endian`.
    pub fn new(attr: &PerfEventAttr, endian: Endianness) -> RecordParseInfo
        ensures { result ≡ parse_info_of attr.now endian }
    {
        RecordParseInfo {
            endian,
            sample_format: attr.sample_format,
            id_parse_info: RecordIdParseInfo::new(attr),
            sample_time_from_start: offset_from_start(attr.sample_format, SampleFormat::TIME),
            other_time_from_end: offset_from_end(
                attr.sample_format,
                attr.flags,
                SampleFormat::TIME,
            ),
        }
    }

    /// Returns the time of a record whose body is contiguous.
    ///
    /// It is `None` if the record has no such offset, or if the number at the offset isn't completely in the
    /// body. A user record has none.
    pub fn read_time(&self, record_type: RecordType, body: &[u8]) -> Option<u64>
        ensures { result ≡ read_time self.now record_type.0 body.now }
    {
        field_in_slice(
            self.endian,
            record_type,
            body,
            self.sample_time_from_start,
            self.other_time_from_end,
        )
    }
}
