//! The parse infos of held records.
ghost use Rattle.std.specs.Prelude.{◌≡◌, Some, IsTrue};
ghost use Rattle.std.proofs.Props.{props};
ghost use Rattle.perfdata_order.specs.ParseInfoKeys.{parse_info_key, AreIndexed, AreDistinct};

use linux_perf_data::Endianness;
use linux_perf_data::place::RecordParseInfo;
use std::alloc::{AllocError, Global};
use std::collections::BTreeMap;

// The numbers that determine a parse info, in an order of their own.
type ParseInfoKey = (u64, u64, Option<u64>, Option<u64>, Option<u64>, Option<u64>);

// The parse infos of the records so far, each once. An attribute has one for all of its records, and most
// attributes have the same.
#[derive(Drop)]
pub(crate) struct ParseInfos {
    found: Vec<RecordParseInfo>,
    // The index of each parse info in `found`. A hostile recording has as many as attributes.
    indices: BTreeMap<ParseInfoKey, usize>,
    // The index of each attribute's parse info in `found`, or 0 if it isn't known.
    by_attribute: Vec<usize>,
    ghost indexed: { AreIndexed indices found.items } by { Prim.hlevel props },
    ghost distinct: { AreDistinct found.items } by { Prim.hlevel props },
}

// Whether all fields are equal.
fn is_same(first: &RecordParseInfo, second: &RecordParseInfo) -> bool
    ensures { IsTrue result → first.now ≡ second.now }
{
    first.sample_format == second.sample_format
        && first.id_parse_info == second.id_parse_info
        && first.sample_time_from_start == second.sample_time_from_start
        && first.other_time_from_end == second.other_time_from_end
        && first.endian == second.endian
}

fn parse_info_key(parse_info: &RecordParseInfo) -> ParseInfoKey
    ensures { result ≡ parse_info_key parse_info.now }
{
    let order = match parse_info.endian {
        Endianness::LittleEndian => 0,
        Endianness::BigEndian => 1,
    };
    (
        order,
        parse_info.sample_format.0,
        parse_info.id_parse_info.sample_id_from_start,
        parse_info.id_parse_info.other_id_from_end,
        parse_info.sample_time_from_start,
        parse_info.other_time_from_end,
    )
}

impl ParseInfos {
    ghost use Rattle.perfdata_order.specs.ParseInfos.{found_at};
    ghost use Rattle.perfdata_order.specs.steps.ParseInfos.{FindsIndex, IsUnchanged};

    pub(crate) fn new(alloc: Global) -> ParseInfos {
        ParseInfos {
            found: Vec::new(alloc),
            indices: BTreeMap::new(alloc),
            by_attribute: Vec::new(alloc),
        }
    }

    // The parse info with this index.
    pub(crate) fn get(&self, index: usize) -> Option<RecordParseInfo>
        ensures { result ≡ found_at self.now index }
    {
        self.found.get(index).copied()
    }

    // Whether the parse info has this index.
    fn has(&self, index: usize, parse_info: &RecordParseInfo) -> bool
        ensures { IsTrue result → found_at self.now index ≡ Some parse_info.now }
    {
        match self.found.get(index) {
            Some(found) => is_same(found, parse_info),
            None => false,
        }
    }

    // Makes the table of attributes long enough for this one.
    fn reserve_attribute(&mut self, attr_index: usize) -> Result<(), AllocError>
        ensures { IsUnchanged self.old self.new }
    {
        if attr_index >= self.by_attribute.len() {
            self.by_attribute.resize(attr_index.saturating_add(1), 0)?;
        }
        Ok(())
    }

    // Sets the index of an attribute's parse info.
    fn set_attribute(&mut self, attr_index: usize, index: usize)
        ensures { IsUnchanged self.old self.new }
    {
        if attr_index < self.by_attribute.len() {
            self.by_attribute[attr_index] = index;
        }
    }

    // Returns the index of a parse info, which is added if it isn't found.
    fn find_or_add(&mut self, parse_info: &RecordParseInfo) -> Result<usize, AllocError>
        ensures { FindsIndex self.old parse_info.now result self.new }
    {
        let key = parse_info_key(parse_info);
        match self.indices.get(&key) {
            Some(index) => return Ok(*index),
            None => {}
        }
        let index = self.found.len();
        self.found.reserve(1)?;
        match self.indices.insert(key, index) {
            Ok(_) => {}
            Err(_) => return Err(AllocError),
        }
        self.found.push_reserved(*parse_info);
        Ok(index)
    }

    // The same for an attribute whose index isn't known.
    fn find_for_attribute(
        &mut self,
        attr_index: usize,
        parse_info: &RecordParseInfo,
    ) -> Result<usize, AllocError>
        ensures { FindsIndex self.old parse_info.now result self.new }
    {
        self.reserve_attribute(attr_index)?;
        let index = self.find_or_add(parse_info)?;
        self.set_attribute(attr_index, index);
        Ok(index)
    }

    // Returns the index of the parse info of an attribute, which is added if it isn't found.
    #[inline(always)]
    pub(crate) fn find_index(
        &mut self,
        attr_index: usize,
        parse_info: &RecordParseInfo,
    ) -> Result<usize, AllocError>
        ensures { FindsIndex self.old parse_info.now result self.new }
    {
        let index = match self.by_attribute.get(attr_index) {
            Some(index) => *index,
            None => 0,
        };
        if self.has(index, parse_info) {
            return Ok(index);
        }
        self.find_for_attribute(attr_index, parse_info)
    }
}
