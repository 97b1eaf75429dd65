//! One more attribute of a pipe, and the names that all attributes have with it.
ghost use Rattle.std.specs.Prelude.{Some};
ghost use Rattle.perfdata_sections.specs.AttributeDescription.{ids_in};
ghost use Rattle.linux_perf_data.specs.Descriptions.{described_attribute};

use crate::attributes::names::{NameTable, set_names};
use crate::perf_file::PerfFile;
use perfdata_base::features::Feature;
use perfdata_base::raw::Endianness;
use perfdata_sections::error::Error;
use perfdata_sections::feature_sections::AttributeDescription;
use std::alloc::Global;

// The names to set for a late attribute.
#[derive(Drop)]
pub(crate) enum LateNames {
    // Only the name of the late attribute. The other attributes keep their names.
    Single(Option<String>),
    // A new table, the names of the other attributes by it, and the name of the late attribute.
    All(NameTable, Vec<Option<String>>, Option<String>),
}

impl PerfFile {
    ghost use Rattle.linux_perf_data.specs.steps.LateSteps.{FindsLateNames, AreNamesForAll, AreLateNamesFor};
    ghost use Rattle.linux_perf_data.specs.steps.LateSteps.{IsNameFor, HasSpareCapacity, ReservesOne};
    ghost use Rattle.linux_perf_data.specs.steps.LateSteps.{PushesAttribute, PushesNamed};

    // Reserves capacity for one more attribute.
    pub(crate) fn reserve_one(&mut self) -> Result<(), Error>
        ensures { ReservesOne self.old result self.new }
    {
        let count = self.attributes.len();
        if count < self.attributes.capacity() {
            return Ok(());
        }
        self.attributes.try_reserve_exact(count + 4)?;
        Ok(())
    }

    // Parses EVENT_DESC again, and clones the names of all attributes and of one more, which has these ids.
    fn read_all_names(
        &self,
        alloc: Global,
        endian: Endianness,
        ids: &[u64],
    ) -> Result<LateNames, Error>
        ensures { FindsLateNames endian self.now ids.now result }
    {
        let section = self.feature_section_data(Feature::EVENT_DESC);
        let table = NameTable::read(alloc, endian, section)?;
        let names = table.clone_names(alloc, &self.attributes)?;
        let own = table.clone_name(alloc, ids)?;
        Ok(LateNames::All(table, names, own))
    }

    // The names to set for a late attribute with these ids: only its own if `name_table` is present in this
    // byte order.
    pub(crate) fn find_names(
        &self,
        alloc: Global,
        endian: Endianness,
        ids: &[u64],
    ) -> Result<LateNames, Error>
        ensures { FindsLateNames endian self.now ids.now result }
    {
        let table = match &self.name_table {
            Some(table) => table,
            None => return self.read_all_names(alloc, endian, ids),
        };
        if !table.has_endian(endian) {
            return self.read_all_names(alloc, endian, ids);
        }
        Ok(LateNames::Single(table.clone_name(alloc, ids)?))
    }

    // Appends an attribute, within the capacity, with its name by `name_table`.
    fn push_named(&mut self, attribute: AttributeDescription, name: Option<String>)
        requires capacity { HasSpareCapacity self.old }
        requires fits { IsNameFor self.old (ids_in attribute) name }
        ensures { PushesNamed self.old (described_attribute attribute) self.old.name_table self.new }
    {
        let mut attribute = attribute;
        attribute.set_name(name);
        match self.attributes.push(attribute) {
            Ok(()) => {}
            Err(_) => {}
        }
    }

    // Appends an attribute, within the capacity, sets all names by `table`, and keeps the table.
    fn push_and_rename(
        &mut self,
        attribute: AttributeDescription,
        table: NameTable,
        names: Vec<Option<String>>,
        own: Option<String>,
    )
        requires capacity { HasSpareCapacity self.old }
        requires fits { AreNamesForAll self.old (ids_in attribute) table names own }
        ensures { PushesNamed self.old (described_attribute attribute) (Some table) self.new }
    {
        let mut attribute = attribute;
        attribute.set_name(own);
        self.name_table = None;
        set_names(&mut self.attributes, names);
        match self.attributes.push(attribute) {
            Ok(()) => {}
            Err(_) => {}
        }
        self.name_table = Some(table);
    }

    // Appends an attribute, within the capacity, and sets the names in `naming`.
    pub(crate) fn push_attribute(&mut self, attribute: AttributeDescription, naming: LateNames)
        requires capacity { HasSpareCapacity self.old }
        requires fits { AreLateNamesFor self.old (ids_in attribute) naming }
        ensures { PushesAttribute self.old (described_attribute attribute) naming self.new }
    {
        match naming {
            LateNames::Single(name) => self.push_named(attribute, name),
            LateNames::All(table, names, own) => self.push_and_rename(attribute, table, names, own),
        }
    }
}
