//! Parsed records of tools.
ghost use Rattle.std.specs.Prelude.{◌≡◌, ◌/◌, ◌%◌, IfOk, IfErr, length};
ghost use Rattle.perfdata_sources.specs.Endian.{number_in};
ghost use Rattle.perfdata_sources.specs.Raw.{bytes_of};
ghost use Rattle.perfdata_records.specs.HeaderAttr.{HoldsAttributeWith, IsHeaderAttrError};
ghost use Rattle.perfdata_records.specs.steps.HeaderAttr.{IsIdsError};
ghost use Rattle.perfdata_records.specs.HeaderAttr.{attribute_with, attribute_of, u64s_of};
ghost use Rattle.perfdata_records.specs.HeaderFeature.{IsHeaderFeature, IsHeaderFeatureError};
ghost use Rattle.perfdata_records.specs.UserRecord.{IsUserRecord, IsUserRecordError};

use crate::auxtrace::Auxtrace;
use crate::record::UserRecordType;
use crate::thread_map::ThreadMap;
use byteorder::{BigEndian, LittleEndian};
use perfdata_base::attr::PerfEventAttr;
use perfdata_base::features::Feature;
use perfdata_base::raw::{Endianness, FileOrder, RawData};
use perfdata_base::source::unexpected_eof;
use perfdata_sections::constants::{
    PERF_RECORD_AUXTRACE, PERF_RECORD_HEADER_ATTR, PERF_RECORD_HEADER_FEATURE,
    PERF_RECORD_THREAD_MAP,
};
use std::alloc::Global;
use std::io::Result;

/// An event's attribute from a record (`PERF_RECORD_HEADER_ATTR` of Linux's perf).
#[derive(Debug, Drop)]
pub struct HeaderAttr {
    /// The attribute.
    pub attr: PerfEventAttr,
    /// The ids of the event's records.
    pub ids: Vec<u64>,
}

/// A feature's data from a record (`PERF_RECORD_HEADER_FEATURE` of Linux's perf).
#[derive(Debug, Drop)]
pub struct HeaderFeature {
    /// The feature.
    pub feature: Feature,
    /// The feature's data, in the format of the feature section of a file.
    pub bytes: Vec<u8>,
}

/// A record that a tool such as perf or simpleperf wrote, with a borrowed body.
#[derive(Clone, Copy, Debug)]
pub struct RawUserRecord<'a> {
    /// The record's type, which is 64 or above.
    pub record_type: UserRecordType,
    /// The byte order of its numbers.
    pub endian: Endianness,
    /// The `misc` field of its record header.
    pub misc: u16,
    /// All bytes after the record header, including aux data.
    pub body: RawData<'a>,
}

/// A record that a tool wrote, parsed by its type.
#[derive(Debug, Drop)]
pub enum UserRecord<'a> {
    /// The recorded threads.
    ThreadMap(ThreadMap<'a>),
    /// An event's attribute.
    HeaderAttr(HeaderAttr),
    /// A feature's data.
    HeaderFeature(HeaderFeature),
    /// An auxtrace record with its aux data.
    Auxtrace(Auxtrace<'a>),
    /// A record of any other type.
    Raw(RawUserRecord<'a>),
}

// Parses ids of eight bytes each, to the end of the bytes.
fn parse_ids<T: FileOrder>(alloc: Global, bytes: RawData<'_>) -> Result<Vec<u64>>
    ensures whole { IfOk result (λ _. length (bytes_of bytes.entry) % 8 ≡ 0) }
    ensures ids { IfOk result (λ ids. ids.items
        ≡ u64s_of T.number_of (length (bytes_of bytes.entry) / 8) (bytes_of bytes.entry)) }
    ensures error { IfErr result (λ error. IsIdsError (bytes_of bytes.entry) error) }
{
    if bytes.len() % 8 != 0 {
        return Err(unexpected_eof());
    }
    let mut ids = Vec::new(alloc);
    let mut rest = bytes;
    'ids: while rest.len() >= 8 {
        let id = rest.read_u64::<T>()?;
        ids.push(id)?;
    }
    Ok(ids)
}

impl HeaderAttr {
    /// Parses the body of a record: an attribute, and ids of eight bytes each to the end of the body.
    ///
    /// Fails with an `UnexpectedEof` error if the attribute or the last id is truncated, with an
    /// `InvalidData` error if the attribute's own size is 1 to 63, and with an `OutOfMemory` error if there
    /// are ids and memory runs out for them.
    pub fn parse<T: FileOrder>(alloc: Global, body: RawData<'_>) -> Result<HeaderAttr>
        ensures valid { IfOk result (λ _. HoldsAttributeWith T.number_of (bytes_of body.entry)) }
        ensures value { IfOk result (λ header. attribute_of header
            ≡ attribute_with T.number_of (bytes_of body.entry)) }
        ensures error { IfErr result (λ error. IsHeaderAttrError T.number_of (bytes_of body.entry) error) }
    {
        let mut rest = body;
        let (attr, _) = PerfEventAttr::parse_from::<_, T>(&mut rest)?;
        let ids = parse_ids::<T>(alloc, rest)?;
        Ok(HeaderAttr { attr, ids })
    }
}

impl HeaderFeature {
    /// Parses the body of a record: a number of eight bytes, and the feature's data. The low 32 bits of the
    /// number are the feature.
    ///
    /// Fails with an `UnexpectedEof` error if the number is truncated, and with an `OutOfMemory` error if
    /// there is data and memory runs out for it.
    pub fn parse<T: FileOrder>(alloc: Global, body: RawData<'_>) -> Result<HeaderFeature>
        ensures value { IfOk result (λ header. IsHeaderFeature T.number_of (bytes_of body.entry) header) }
        ensures error { IfErr result (λ error. IsHeaderFeatureError (bytes_of body.entry) error) }
    {
        let mut rest = body;
        let number = rest.read_u64::<T>()?;
        let feature = Feature((number % (1 << 32)) as u32);
        if rest.is_empty() {
            return Ok(HeaderFeature {
                feature,
                bytes: Vec::new(alloc),
            });
        }
        let slice = rest.as_slice(alloc)?;
        let bytes = slice.into_owned(alloc)?;
        Ok(HeaderFeature { feature, bytes })
    }
}

impl<'a> RawUserRecord<'a> {
    /// Parses the body by the record's type. Types 64, 71, 73 and 80 are parsed, and records of other types
    /// remain raw.
    ///
    /// Fails with the error of `HeaderAttr::parse`, `Auxtrace::parse`, `ThreadMap::parse` or
    /// `HeaderFeature::parse` if the body is invalid for its type.
    pub fn parse(&self, alloc: Global) -> Result<UserRecord<'a>>
        ensures value { IfOk result (λ parsed. IsUserRecord (number_in self.now.endian) self.now parsed) }
        ensures error { IfErr result (λ error. IsUserRecordError (number_in self.now.endian) self.now error) }
    {
        match self.endian {
            Endianness::LittleEndian => self.parse_impl::<LittleEndian>(alloc),
            Endianness::BigEndian => self.parse_impl::<BigEndian>(alloc),
        }
    }

    /// Parses the body by the record's type, like `parse`, with numbers in the byte order `T`.
    pub fn parse_impl<T: FileOrder>(&self, alloc: Global) -> Result<UserRecord<'a>>
        ensures value { IfOk result (λ parsed. IsUserRecord T.number_of self.now parsed) }
        ensures error { IfErr result (λ error. IsUserRecordError T.number_of self.now error) }
    {
        match self.record_type.record_type().0 {
            PERF_RECORD_HEADER_ATTR => {
                let attr = HeaderAttr::parse::<T>(alloc, self.body)?;
                Ok(UserRecord::HeaderAttr(attr))
            }
            PERF_RECORD_AUXTRACE => {
                let auxtrace = Auxtrace::parse::<T>(self.body)?;
                Ok(UserRecord::Auxtrace(auxtrace))
            }
            PERF_RECORD_THREAD_MAP => {
                let map = ThreadMap::parse::<T>(self.body)?;
                Ok(UserRecord::ThreadMap(map))
            }
            PERF_RECORD_HEADER_FEATURE => {
                let feature = HeaderFeature::parse::<T>(alloc, self.body)?;
                Ok(UserRecord::HeaderFeature(feature))
            }
            _ => Ok(UserRecord::Raw(RawUserRecord {
                record_type: self.record_type,
                endian: self.endian,
                misc: self.misc,
                body: self.body,
            })),
        }
    }
}
