//! The names that the section EVENT_DESC gives attributes, and their table.
ghost use Rattle.std.specs.Prelude.{◌≡◌, vec_len, length, IfOk, OnOk};
ghost use Rattle.std.specs.Option.{option_map};
ghost use Rattle.linux_perf_data.specs.steps.AttributeSources.{ParsesEventDesc};
ghost use Rattle.linux_perf_data.specs.Descriptions.{described_attributes};
ghost use Rattle.linux_perf_data.specs.FirstIds.{IndexesFirstIds};
ghost use Rattle.linux_perf_data.specs.steps.FirstIds.{InsertsFirstId};
ghost use Rattle.linux_perf_data.specs.steps.Names.{CopiesName, names_in, name_bytes_of};

use byteorder::{BigEndian, LittleEndian};
use perfdata_base::raw::Endianness;
use perfdata_sections::error::Error;
use perfdata_sections::feature_sections::AttributeDescription;
use std::alloc::{AllocError, Global};
use std::collections::BTreeMap;
use std::io::Cursor;

// Parses the attributes of the section EVENT_DESC.
pub(crate) fn read_event_desc(
    alloc: Global,
    endian: Endianness,
    bytes: &[u8],
) -> Result<Vec<AttributeDescription>, Error>
    ensures { ParsesEventDesc endian bytes.now result }
{
    let mut cursor = Cursor::new(bytes);
    match endian {
        Endianness::LittleEndian => {
            AttributeDescription::parse_event_desc_section_from::<_, LittleEndian>(
                alloc,
                &mut cursor,
            )
        }
        Endianness::BigEndian => {
            AttributeDescription::parse_event_desc_section_from::<_, BigEndian>(alloc, &mut cursor)
        }
    }
}

// Sets the name of each attribute to the one at its index.
pub(crate) fn set_names(attributes: &mut [AttributeDescription], names: Vec<Option<String>>)
    requires { vec_len names ≡ length attributes.old }
    ensures names { names_in attributes.new ≡ name_bytes_of names.items }
    ensures same { described_attributes attributes.new ≡ described_attributes attributes.old }
{
    let mut names = names;
    'attributes: for (index, attribute) in attributes.iter_mut().enumerate() {
        attribute.set_name(names[index].take());
    }
}

// The events of the section EVENT_DESC, parsed in the byte order `endian`. `index_by_first_id` maps each id
// that is the first one of an event to the index of the first such event.
#[derive(Drop)]
pub(crate) struct NameTable {
    endian: Endianness,
    events: Vec<AttributeDescription>,
    pub(crate) index_by_first_id: BTreeMap<u64, usize>,
    ghost indexes_first_ids: { IndexesFirstIds index_by_first_id events.items },
}

// Maps the first of these ids to an index, which replaces its previous one.
fn insert_first(
    first: &mut BTreeMap<u64, usize>,
    ids: &[u64],
    index: usize,
) -> Result<(), AllocError>
    ensures { OnOk result (InsertsFirstId first.old ids.now index first.new) }
{
    if ids.is_empty() {
        return Ok(());
    }
    first.insert(ids[0], index)?;
    Ok(())
}

// Maps each first id to the index of the first of these events with it.
fn index_first_ids(
    alloc: Global,
    events: &[AttributeDescription],
) -> Result<BTreeMap<u64, usize>, AllocError>
    ensures { IfOk result (λ first. IndexesFirstIds first events.now) }
{
    let mut first = BTreeMap::new(alloc);
    let mut index = events.len();
    'events: while index > 0 {
        index -= 1;
        insert_first(&mut first, events[index].ids(), index)?;
    }
    Ok(first)
}

impl NameTable {
    ghost use Rattle.linux_perf_data.specs.steps.NameTable.{name_from_table, ClonesNames, ReadsNameTable};
    ghost use Rattle.linux_perf_data.specs.steps.NameTable.{NamesAttributes, TestsEndian};

    // Parses the section EVENT_DESC. Without the section, the table is empty and no attribute has a name.
    pub(crate) fn read(
        alloc: Global,
        endian: Endianness,
        event_desc: Option<&[u8]>,
    ) -> Result<NameTable, Error>
        ensures { ReadsNameTable endian (option_map (λ s. s.now) event_desc.entry) result }
    {
        let bytes = match event_desc {
            Some(bytes) => bytes,
            None => {
                return Ok(NameTable {
                    endian,
                    events: Vec::new(alloc),
                    index_by_first_id: BTreeMap::new(alloc),
                });
            }
        };
        let events = read_event_desc(alloc, endian, bytes)?;
        let first = index_first_ids(alloc, &events)?;
        Ok(NameTable {
            endian,
            events,
            index_by_first_id: first,
        })
    }

    // Whether EVENT_DESC was parsed in this byte order.
    pub(crate) fn has_endian(&self, endian: Endianness) -> bool
        ensures { TestsEndian self.now endian result }
    {
        self.endian == endian
    }

    // The name of an attribute with these ids.
    pub(crate) fn get(&self, ids: &[u64]) -> Option<&str>
        ensures { option_map (λ s. s.now) result ≡ name_from_table self.now ids.now }
    {
        if ids.is_empty() {
            return None;
        }
        match self.index_by_first_id.get(&ids[0]) {
            Some(index) => self.events[*index].name(),
            None => None,
        }
    }

    // Clones the name of an attribute with these ids.
    pub(crate) fn clone_name(&self, alloc: Global, ids: &[u64]) -> Result<Option<String>, Error>
        ensures { CopiesName (name_from_table self.now ids.now) result }
    {
        match self.get(ids) {
            Some(name) => Ok(Some(String::from_str(alloc, name)?)),
            None => Ok(None),
        }
    }

    // Clones the names of attributes, in order.
    pub(crate) fn clone_names(
        &self,
        alloc: Global,
        attributes: &[AttributeDescription],
    ) -> Result<Vec<Option<String>>, Error>
        ensures { ClonesNames self.now attributes.now result }
    {
        let mut names = Vec::new(alloc);
        'attributes: for attribute in attributes {
            let name = self.clone_name(alloc, attribute.ids())?;
            names.push(name)?;
        }
        Ok(names)
    }

    // Sets the name of each attribute by the section EVENT_DESC, and to `None` without that section. Returns
    // the table of those names.
    pub(crate) fn name_attributes(
        alloc: Global,
        endian: Endianness,
        event_desc: Option<&[u8]>,
        attributes: &mut [AttributeDescription],
    ) -> Result<NameTable, Error>
        ensures { NamesAttributes endian (option_map (λ s. s.now) event_desc.entry) attributes.old result
            attributes.new }
    {
        let table = NameTable::read(alloc, endian, event_desc)?;
        let names = table.clone_names(alloc, attributes)?;
        set_names(attributes, names);
        Ok(table)
    }
}
