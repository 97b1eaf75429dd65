//! New data of a feature of a pipe. Those of EVENT_DESC name the attributes again.
ghost use Rattle.std.specs.Prelude.{◌≡◌, None};
ghost use Rattle.linux_perf_data.specs.FeatureNumbers.{event_desc};

use crate::attributes::names::NameTable;
use crate::attributes::renames::{all_names, apply_renames, changed_names};
use crate::perf_file::PerfFile;
use perfdata_base::features::Feature;
use perfdata_base::raw::Endianness;
use perfdata_sections::error::Error;
use std::alloc::Global;

impl PerfFile {
    ghost use Rattle.linux_perf_data.specs.steps.LateSteps.{FindsFileRenames, IndexesFile, ReplacesEventDesc};
    ghost use Rattle.linux_perf_data.specs.steps.LateSteps.{ReplacesFeature};
    ghost use Rattle.linux_perf_data.specs.steps.FirstIdIndex.{IndexesAll};
    ghost use Rattle.linux_perf_data.specs.PerfFile.{descriptions_of_file};

    // Replaces the data of a feature. If the feature is EVENT_DESC, `name_table` must be `None`.
    pub(crate) fn replace_feature(&mut self, feature: Feature, bytes: Vec<u8>) -> Result<(), Error>
        requires { feature.0 ≡ event_desc → self.old.name_table ≡ None }
        ensures { ReplacesFeature self.old feature.0 bytes.items result self.new }
    {
        self.sections.insert(feature, bytes)?;
        self.features.insert(feature);
        Ok(())
    }

    // Adds the attributes that `first_id_index` doesn't contain.
    fn index_attributes(&mut self) -> Result<(), Error>
        ensures { IndexesFile self.old result self.new }
    {
        self.first_id_index.extend(&self.attributes)?;
        Ok(())
    }

    // The names of the attributes whose names change by `table`.
    fn find_renames(
        &self,
        alloc: Global,
        table: &NameTable,
    ) -> Result<Vec<(usize, Option<String>)>, Error>
        requires { IndexesAll self.now.first_id_index (descriptions_of_file self.now) }
        ensures { FindsFileRenames self.now table.now result }
    {
        let old = match &self.name_table {
            Some(old) => old,
            None => return all_names(alloc, &self.attributes, table),
        };
        changed_names(alloc, &self.attributes, &self.first_id_index, old, table)
    }

    // Replaces EVENT_DESC, and sets the names of the attributes that it names otherwise.
    pub(crate) fn replace_event_desc(
        &mut self,
        alloc: Global,
        endian: Endianness,
        bytes: Vec<u8>,
    ) -> Result<(), Error>
        ensures { ReplacesEventDesc endian self.old bytes.items result self.new }
    {
        let table = NameTable::read(alloc, endian, Some(bytes.as_slice()))?;
        self.index_attributes()?;
        let renames = self.find_renames(alloc, &table)?;
        self.name_table = None;
        self.replace_feature(Feature::EVENT_DESC, bytes)?;
        apply_renames(&mut self.attributes, renames);
        self.name_table = Some(table);
        Ok(())
    }
}
