//! The attribute of each record, and the parse info of its records, for an iterator.
ghost use Rattle.std.specs.Prelude.{◌≡◌, ◌<◌, IfOk, IfSome, length, vec_len};
ghost use Rattle.linux_perf_data.specs.Attribute.{AreConsistent};
ghost use Rattle.linux_perf_data.specs.Descriptions.{described_attributes};
ghost use Rattle.linux_perf_data.specs.steps.Descriptions.{CollectsParseInfos};
ghost use Rattle.linux_perf_data.specs.IdBounds.{CacheIndicesBelow, TableIndicesBelow};
ghost use Rattle.linux_perf_data.specs.steps.IdBounds.{ResolvesIds};

use crate::attributes::consistency::{
    first_without_identifier, has_identifier, next_without_identifier,
};
use crate::attributes::id_table::IdTable;
use perfdata_base::attr::PerfEventAttr;
use perfdata_base::event::RecordType;
use perfdata_base::place::{IdCache, RecordIdParseInfo, RecordParseInfo};
use perfdata_base::raw::Endianness;
use perfdata_sections::error::Error;
use perfdata_sections::feature_sections::AttributeDescription;
use std::alloc::{AllocError, Global};

// The data on attributes that an iterator needs: the parse infos of their records, the lookup of an attribute
// by an identifier, and what the consistency check of a late attribute uses.
#[derive(Drop)]
pub(crate) struct AttributeLookup {
    // The parse info of attribute 0. Identifiers are read with it.
    first_parse_info: RecordParseInfo,
    parse_infos: Vec<RecordParseInfo>,
    // The first attribute whose records lack IDENTIFIER.
    first_without_identifier: Option<usize>,
    table: IdTable,
    cache: IdCache,
    ghost nonempty: { 0 < vec_len parse_infos },
    ghost table_indices_below: { TableIndicesBelow table (vec_len parse_infos) },
    ghost cache_indices_below: { CacheIndicesBelow cache (vec_len parse_infos) },
}

// The parse info of the records of each attribute.
fn collect_parse_infos(
    alloc: Global,
    attributes: &[AttributeDescription],
    endian: Endianness,
) -> Result<Vec<RecordParseInfo>, Error>
    ensures { CollectsParseInfos endian (described_attributes attributes.now) result }
{
    let mut parse_infos = Vec::new(alloc);
    'attributes: for attribute in attributes {
        parse_infos.push(RecordParseInfo::new(attribute.attributes(), endian))?;
    }
    Ok(parse_infos)
}

// Builds the table of identifiers. A single attribute is that of each record, and its table is empty.
fn build_table(alloc: Global, attributes: &[AttributeDescription]) -> Result<IdTable, AllocError>
    ensures { IfOk result (λ t. ResolvesIds t (described_attributes attributes.now)) }
{
    if attributes.len() == 1 {
        return Ok(IdTable::empty(alloc));
    }
    IdTable::new(alloc, attributes)
}

impl AttributeLookup {
    ghost use Rattle.linux_perf_data.specs.steps.AttributeLookup.{AddsAttribute, ChecksNextAttribute};
    ghost use Rattle.linux_perf_data.specs.steps.AttributeLookup.{BuildsLookup};
    ghost use Rattle.linux_perf_data.specs.steps.AttributeLookup.{HasOnly, KeepsAttributes, ResolvesEvent};
    ghost use Rattle.linux_perf_data.specs.AttributeLookup.{parse_info_at};
    ghost use Rattle.linux_perf_data.specs.steps.AttributeLookup.{ResolvesId};

    // Builds the lookup of consistent attributes.
    pub(crate) fn new(
        alloc: Global,
        attributes: &[AttributeDescription],
        endian: Endianness,
    ) -> Result<AttributeLookup, Error>
        requires nonempty { 0 < length attributes.now }
        requires consistent { AreConsistent (described_attributes attributes.now) }
        ensures { BuildsLookup endian (described_attributes attributes.now) result }
    {
        let parse_infos = collect_parse_infos(alloc, attributes, endian)?;
        let table = build_table(alloc, attributes)?;
        Ok(AttributeLookup {
            first_parse_info: RecordParseInfo::new(attributes[0].attributes(), endian),
            parse_infos,
            first_without_identifier: first_without_identifier(attributes),
            table,
            cache: IdCache::new(),
        })
    }

    // Checks one more attribute for consistency, in constant time. It is consistent if its identifiers are at
    // the offsets of those of the earlier attributes. Otherwise the error names the first earlier attribute
    // without IDENTIFIER. If all of them have it, the error names the new attribute: it lacks IDENTIFIER or,
    // as the offsets differ, its SAMPLE_ID_ALL differs.
    fn check_next(&self, attr: &PerfEventAttr) -> Result<(), Error>
        ensures { ChecksNextAttribute self.now attr.now result }
    {
        if RecordIdParseInfo::new(attr) == self.first_parse_info.id_parse_info {
            return Ok(());
        }
        match self.first_without_identifier {
            Some(index) => Err(Error::NoIdentifierDespiteMultiEvent(index)),
            None => {
                if has_identifier(attr) {
                    Err(Error::InconsistentSampleIdAllWithMultiEvent(self.parse_infos.len()))
                } else {
                    Err(Error::NoIdentifierDespiteMultiEvent(self.parse_infos.len()))
                }
            }
        }
    }

    // Adds one more attribute, with the identifiers of its records. The lookup must not be used after an
    // error.
    pub(crate) fn add(
        &mut self,
        attr: &PerfEventAttr,
        ids: &[u64],
        endian: Endianness,
    ) -> Result<(), Error>
        ensures { AddsAttribute endian self.old (record { attr = attr.now; ids = ids.now }) result self.new }
    {
        self.check_next(attr)?;
        let index = self.parse_infos.len();
        self.parse_infos.push(RecordParseInfo::new(attr, endian))?;
        self.table.insert_all(ids, index)?;
        self.first_without_identifier = next_without_identifier(
            self.first_without_identifier,
            attr,
            index,
        );
        self.cache.clear();
        Ok(())
    }

    // The index of the attribute that lists an identifier, or 0 if none does. The cache is searched before
    // the table.
    fn attr_index_by_id(&mut self, id: u64) -> usize
        ensures index_in_bounds { result < vec_len self.old.parse_infos }
        ensures same_parse_infos { (self.new.parse_infos ≡ self.old.parse_infos)
            × (self.new.first_parse_info ≡ self.old.first_parse_info) }
        ensures resolves { ResolvesId self.old id result }
        ensures keeps_attributes { KeepsAttributes self.old self.new }
    {
        match self.cache.get(id) {
            Some(index) => index,
            None => {
                let index = self.table.get(id).unwrap_or(0);
                self.cache.put(id, index);
                index
            }
        }
    }

    // The index of the attribute of a kernel record with this body.
    #[inline(always)]
    pub(crate) fn find_attr_index(&mut self, record_type: RecordType, body: &[u8]) -> usize
        ensures resolves { ResolvesEvent self.old record_type.0 body.now result self.new }
        ensures keeps_attributes { KeepsAttributes self.old self.new }
    {
        if self.parse_infos.len() == 1 {
            return 0;
        }
        let ids = self.first_parse_info.id_parse_info;
        match ids.read_identifier(self.first_parse_info.endian, record_type, body) {
            Some(id) => self.attr_index_by_id(id),
            None => 0,
        }
    }

    // The parse info of the records of the attribute with this index, or that of attribute 0 if the index is
    // out of range.
    #[inline(always)]
    pub(crate) fn parse_info(&self, index: usize) -> &RecordParseInfo
        ensures { result.now ≡ parse_info_at self.now index }
    {
        match self.parse_infos.as_slice().get(index) {
            Some(parse_info) => parse_info,
            None => &self.first_parse_info,
        }
    }

    // The parse info of the records, if there is one attribute.
    pub(crate) fn only_parse_info(&self) -> Option<RecordParseInfo>
        ensures { IfSome result (HasOnly self.now) }
    {
        if self.parse_infos.len() == 1 {
            Some(self.parse_infos[0])
        } else {
            None
        }
    }

    // The number of attributes in the lookup.
    pub(crate) fn attribute_count(&self) -> usize
        ensures { result ≡ vec_len self.now.parse_infos }
    {
        self.parse_infos.len()
    }
}
