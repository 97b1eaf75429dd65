//! The metadata of a file or pipe, with accessors that parse the bytes of its sections.
ghost use Rattle.std.specs.Prelude.{◌≡◌, ◌<◌, ◌↔◌, IsTrue, length, vec_len};
ghost use Rattle.std.specs.Option.{option_map};
ghost use Rattle.perfdata_identifiers.specs.Features.{HasFeature};
ghost use Rattle.perfdata_simpleperf.specs.MetaInfo.{ParsesMetaInfo};
ghost use Rattle.linux_perf_data.specs.FirstIdIndex.{IndexesAttributes, id_lists_of};
ghost use Rattle.linux_perf_data.specs.FeatureNumbers.{arch, build_id, clock_data, clock_id, cmd_line};
ghost use Rattle.linux_perf_data.specs.FeatureNumbers.{compressed, cpu_desc, cpuid, event_desc, hostname};
ghost use Rattle.linux_perf_data.specs.FeatureNumbers.{nr_cpus, os_release, pmu_mappings, sample_time};
ghost use Rattle.linux_perf_data.specs.FeatureNumbers.{simpleperf_file, simpleperf_file2};
ghost use Rattle.linux_perf_data.specs.FeatureNumbers.{simpleperf_meta_info, total_mem, version};
ghost use Rattle.linux_perf_data.specs.NameTable.{TableHasEvents, TableNamesAll, TableEmptyWithoutEventDesc};
ghost use Rattle.linux_perf_data.specs.NameTable.{TableIsReadable};
ghost use Rattle.linux_perf_data.specs.FeatureData.{feature_data_of};
ghost use Rattle.linux_perf_data.specs.Simpleperf.{AnswersSymbolTables};
ghost use Rattle.linux_perf_data.specs.Values.{AnswersOf, ParsesStringSection, ParsesStringList, ParsesU64};
ghost use Rattle.linux_perf_data.specs.Values.{ParsesNrCpus, ParsesSampleTimes, ParsesCompression};
ghost use Rattle.linux_perf_data.specs.Values.{ParsesClockData, ParsesPmuMappings};
ghost use Rattle.linux_perf_data.specs.BuildIds.{AnswersBuildIds};

mod build_ids;
mod late_attribute;
mod late_feature;
pub(crate) mod parse;

use crate::attributes::first_id_index::FirstIdIndex;
use crate::attributes::names::NameTable;
use indexmap::IndexMap;
use perfdata_base::features::{Feature, FeatureSet};
use perfdata_base::raw::Endianness;
use perfdata_records::dso_info::DsoInfo;
use perfdata_records::dso_key::DsoKey;
use perfdata_sections::error::Error;
use perfdata_sections::feature_sections::{
    AttributeDescription, ClockData, CompressionInfo, NrCpus, PmuMappings, SampleTimeRange,
};
use perfdata_simpleperf::simpleperf::{
    SimpleperfFileRecord, parse_file_section, parse_file2_section, parse_meta_info_map,
};
use std::alloc::Global;
use std::collections::HashMap;

/// The metadata of a perf.data file or pipe: everything but its records. It has at least one attribute.
#[derive(Drop)]
pub struct PerfFile {
    pub(crate) endian: Endianness,
    pub(crate) features: FeatureSet,
    pub(crate) sections: IndexMap<Feature, Vec<u8>>,
    pub(crate) attributes: Vec<AttributeDescription>,
    // The table that contains the names of all attributes, if it is kept. The table of a file isn't kept.
    pub(crate) name_table: Option<NameTable>,
    // The attributes by their first ids. Attributes that were added since the last late EVENT_DESC are
    // missing.
    pub(crate) first_id_index: FirstIdIndex,
    ghost nonempty: { 0 < vec_len attributes },
    ghost names_match_table: { TableNamesAll name_table attributes.items },
    ghost empty_without_event_desc: { TableEmptyWithoutEventDesc name_table (feature_data_of sections event_desc) },
    ghost table_readable: { TableIsReadable name_table (feature_data_of sections event_desc) },
    ghost table_events_match: { TableHasEvents name_table (feature_data_of sections event_desc) },
    ghost first_ids_indexed: { IndexesAttributes first_id_index (id_lists_of attributes.items) },
}

impl PerfFile {
    ghost use Rattle.linux_perf_data.specs.PerfFile.{descriptions_of_file, features_of_file, endian_of_file};
    ghost use Rattle.linux_perf_data.specs.PerfFile.{feature_data_in_file};

    /// Returns the attributes of the recorded events. There is at least one.
    pub fn event_attributes(&self) -> &[AttributeDescription]
        ensures are { result.now ≡ descriptions_of_file self.now }
        ensures some { 0 < length result.now }
    {
        self.attributes.as_slice()
    }

    /// Returns the features that the file declares, or that were read from the pipe so far. All are below
    /// 256.
    pub fn features(&self) -> FeatureSet
        ensures { result ≡ features_of_file self.now }
    {
        self.features
    }

    /// Returns the byte order of the file.
    pub fn endian(&self) -> Endianness
        ensures { result ≡ endian_of_file self.now }
    {
        self.endian
    }

    /// Returns the bytes of a feature's section, or `None` if the feature isn't present.
    ///
    /// In a pipe they are the bytes of the last record with this feature so far.
    pub fn feature_section_data(&self, feature: Feature) -> Option<&[u8]>
        ensures { option_map (λ s. s.now) result ≡ feature_data_in_file self.now feature.0 }
    {
        parse::feature_bytes(&self.sections, feature)
    }

    /// Returns whether `perf stat` wrote the file, which is whether the file has the feature STAT.
    pub fn is_stats(&self) -> bool
        ensures { IsTrue result ↔ HasFeature (features_of_file self.now) 19 }
    {
        FeatureSet::has_feature(&self.features, Feature::STAT)
    }

    // The text of a section that contains one string.
    fn feature_string(&self, feature: Feature) -> Result<Option<&str>, Error>
        ensures { AnswersOf (ParsesStringSection (endian_of_file self.now))
            (feature_data_in_file self.now feature.0) result }
    {
        match self.feature_section_data(feature) {
            Some(bytes) => Ok(Some(parse::parse_string(self.endian, bytes)?)),
            None => Ok(None),
        }
    }

    // The number of a section that contains one u64.
    fn number_of_feature(&self, feature: Feature) -> Result<Option<u64>, Error>
        ensures { AnswersOf (ParsesU64 (endian_of_file self.now))
            (feature_data_in_file self.now feature.0) result }
    {
        match self.feature_section_data(feature) {
            Some(bytes) => Ok(Some(parse::parse_u64(self.endian, bytes)?)),
            None => Ok(None),
        }
    }

    /// Returns the name of the machine (section HOSTNAME), as `uname -n` prints it.
    ///
    /// A section with a string contains a length of four bytes, and then that many bytes. The text is the
    /// bytes before the first NUL.
    ///
    /// Fails with `NotEnoughSpaceForStringLen` if there are fewer than four bytes, with `StringLengthTooLong`
    /// if fewer bytes than the length follow, and with `StringUtf8` if the text isn't UTF-8.
    pub fn hostname(&self) -> Result<Option<&str>, Error>
        ensures { AnswersOf (ParsesStringSection (endian_of_file self.now))
            (feature_data_in_file self.now hostname) result }
    {
        self.feature_string(Feature::HOSTNAME)
    }

    /// Returns the release of the system (section OSRELEASE), as `uname -r` prints it.
    ///
    /// The errors are those of `hostname`.
    pub fn os_release(&self) -> Result<Option<&str>, Error>
        ensures { AnswersOf (ParsesStringSection (endian_of_file self.now))
            (feature_data_in_file self.now os_release) result }
    {
        self.feature_string(Feature::OSRELEASE)
    }

    /// Returns the version of the recording tool (section VERSION).
    ///
    /// The errors are those of `hostname`.
    pub fn perf_version(&self) -> Result<Option<&str>, Error>
        ensures { AnswersOf (ParsesStringSection (endian_of_file self.now))
            (feature_data_in_file self.now version) result }
    {
        self.feature_string(Feature::VERSION)
    }

    /// Returns the architecture of the processor (section ARCH), as `uname -m` prints it.
    ///
    /// The errors are those of `hostname`.
    pub fn arch(&self) -> Result<Option<&str>, Error>
        ensures { AnswersOf (ParsesStringSection (endian_of_file self.now))
            (feature_data_in_file self.now arch) result }
    {
        self.feature_string(Feature::ARCH)
    }

    /// Returns the description of the processor (section CPUDESC).
    ///
    /// The errors are those of `hostname`.
    pub fn cpu_desc(&self) -> Result<Option<&str>, Error>
        ensures { AnswersOf (ParsesStringSection (endian_of_file self.now))
            (feature_data_in_file self.now cpu_desc) result }
    {
        self.feature_string(Feature::CPUDESC)
    }

    /// Returns the identifier of the processor (section CPUID).
    ///
    /// The errors are those of `hostname`.
    pub fn cpu_id(&self) -> Result<Option<&str>, Error>
        ensures { AnswersOf (ParsesStringSection (endian_of_file self.now))
            (feature_data_in_file self.now cpuid) result }
    {
        self.feature_string(Feature::CPUID)
    }

    /// Returns the command-line arguments of the recording tool (section CMDLINE).
    ///
    /// The section contains the number of arguments in four bytes, and a string for each.
    ///
    /// Fails with `NotEnoughSpaceForStringListLen` if there are fewer than four bytes, with the errors of
    /// `hostname` for a string, and with `Memory` if memory runs out.
    pub fn cmdline(&self, alloc: Global) -> Result<Option<Vec<&str>>, Error>
        ensures { AnswersOf (ParsesStringList (endian_of_file self.now))
            (feature_data_in_file self.now cmd_line) result }
    {
        match self.feature_section_data(Feature::CMDLINE) {
            Some(bytes) => Ok(Some(parse::parse_string_list(alloc, self.endian, bytes)?)),
            None => Ok(None),
        }
    }

    /// Returns the memory size of the machine in units of 1,024 bytes (section TOTAL_MEM, of eight bytes).
    ///
    /// Fails with `FeatureSectionTooSmall` if there are fewer bytes.
    pub fn total_mem(&self) -> Result<Option<u64>, Error>
        ensures { AnswersOf (ParsesU64 (endian_of_file self.now))
            (feature_data_in_file self.now total_mem) result }
    {
        self.number_of_feature(Feature::TOTAL_MEM)
    }

    /// Returns the duration of a tick of the timestamps' clock in nanoseconds (section CLOCKID, of eight
    /// bytes).
    ///
    /// Fails with `FeatureSectionTooSmall` if there are fewer bytes.
    pub fn clock_frequency(&self) -> Result<Option<u64>, Error>
        ensures { AnswersOf (ParsesU64 (endian_of_file self.now))
            (feature_data_in_file self.now clock_id) result }
    {
        self.number_of_feature(Feature::CLOCKID)
    }

    /// Returns the number of processors of the machine (section NRCPUS).
    ///
    /// Fails with an `IoError` of kind `UnexpectedEof` if there are fewer than 8 bytes.
    pub fn nr_cpus(&self) -> Result<Option<NrCpus>, Error>
        ensures { AnswersOf (ParsesNrCpus (endian_of_file self.now))
            (feature_data_in_file self.now nr_cpus) result }
    {
        match self.feature_section_data(Feature::NRCPUS) {
            Some(bytes) => Ok(Some(parse::parse_nr_cpus(self.endian, bytes)?)),
            None => Ok(None),
        }
    }

    /// Returns the times of the first and of the last sample (section SAMPLE_TIME).
    ///
    /// Fails with an `IoError` of kind `UnexpectedEof` if there are fewer than 16 bytes.
    pub fn sample_time_range(&self) -> Result<Option<SampleTimeRange>, Error>
        ensures { AnswersOf (ParsesSampleTimes (endian_of_file self.now))
            (feature_data_in_file self.now sample_time) result }
    {
        match self.feature_section_data(Feature::SAMPLE_TIME) {
            Some(bytes) => Ok(Some(parse::parse_sample_times(self.endian, bytes)?)),
            None => Ok(None),
        }
    }

    /// Returns the clock of the timestamps, and its time at a time of the wall clock (section CLOCK_DATA).
    ///
    /// Fails with an `IoError` of kind `InvalidData` if the version isn't 1, and of kind `UnexpectedEof` if
    /// there are fewer than 24 bytes.
    pub fn clock_data(&self) -> Result<Option<ClockData>, Error>
        ensures { AnswersOf (ParsesClockData (endian_of_file self.now))
            (feature_data_in_file self.now clock_data) result }
    {
        match self.feature_section_data(Feature::CLOCK_DATA) {
            Some(bytes) => Ok(Some(parse::parse_clock_data(self.endian, bytes)?)),
            None => Ok(None),
        }
    }

    /// Returns how records are compressed (section COMPRESSED).
    ///
    /// Fails with an `IoError` of kind `UnexpectedEof` if there are fewer than 20 bytes.
    pub fn compression_info(&self) -> Result<Option<CompressionInfo>, Error>
        ensures { AnswersOf (ParsesCompression (endian_of_file self.now))
            (feature_data_in_file self.now compressed) result }
    {
        match self.feature_section_data(Feature::COMPRESSED) {
            Some(bytes) => Ok(Some(parse::parse_compression(self.endian, bytes)?)),
            None => Ok(None),
        }
    }

    /// Returns the names of the performance monitoring units (section PMU_MAPPINGS).
    ///
    /// Fails with an `IoError` of kind `UnexpectedEof` if the section is truncated, and with `Memory` if
    /// memory runs out.
    pub fn pmu_mappings(&self, alloc: Global) -> Result<Option<PmuMappings>, Error>
        ensures { AnswersOf (ParsesPmuMappings (endian_of_file self.now))
            (feature_data_in_file self.now pmu_mappings) result }
    {
        match self.feature_section_data(Feature::PMU_MAPPINGS) {
            Some(bytes) => Ok(Some(parse::parse_pmu_mappings(alloc, self.endian, bytes)?)),
            None => Ok(None),
        }
    }

    /// Returns the build ids of mapped objects by their keys (section BUILD_ID).
    ///
    /// Each key maps to the path and the build id of the last entry with that key. The map is empty if the
    /// file doesn't have the section. The section is read up to the first truncated entry. An entry whose
    /// path has no key is skipped.
    ///
    /// Fails with `Memory` if memory runs out.
    pub fn build_ids(&self, alloc: Global) -> Result<HashMap<DsoKey, DsoInfo>, Error>
        ensures { AnswersBuildIds (endian_of_file self.now) (feature_data_in_file self.now build_id) result }
    {
        match self.feature_section_data(Feature::BUILD_ID) {
            Some(bytes) => build_ids::parse_build_ids(alloc, self.endian, bytes),
            None => Ok(HashMap::new(alloc)),
        }
    }

    /// Returns simpleperf's meta info on the recording by key (section SIMPLEPERF_META_INFO), as
    /// `parse_meta_info_map` parses it.
    ///
    /// Fails with `StringUtf8` if a key or a value isn't UTF-8, and with `Memory` if memory runs out.
    pub fn simpleperf_meta_info(&self, alloc: Global) -> Result<Option<HashMap<&str, &str>>, Error>
        ensures { AnswersOf ParsesMetaInfo (feature_data_in_file self.now simpleperf_meta_info) result }
    {
        match self.feature_section_data(Feature::SIMPLEPERF_META_INFO) {
            Some(bytes) => Ok(Some(parse_meta_info_map(alloc, bytes)?)),
            None => Ok(None),
        }
    }

    /// Returns the files that simpleperf recorded, with their symbols.
    ///
    /// They are in the section SIMPLEPERF_FILE2, or in SIMPLEPERF_FILE if SIMPLEPERF_FILE2 isn't present. The
    /// errors are those of `parse_file2_section` and `parse_file_section`.
    pub fn simpleperf_symbol_tables(
        &self,
        alloc: Global,
    ) -> Result<Option<Vec<SimpleperfFileRecord>>, Error>
        ensures { AnswersSymbolTables (endian_of_file self.now)
            (feature_data_in_file self.now simpleperf_file2)
            (feature_data_in_file self.now simpleperf_file) result }
    {
        if let Some(bytes) = self.feature_section_data(Feature::SIMPLEPERF_FILE2) {
            return match parse_file2_section(alloc, bytes, self.endian) {
                Ok(records) => Ok(Some(records)),
                Err(error) => Err(error),
            };
        }
        match self.feature_section_data(Feature::SIMPLEPERF_FILE) {
            Some(bytes) => match parse_file_section(alloc, bytes, self.endian) {
                Ok(records) => Ok(Some(records)),
                Err(error) => Err(error),
            },
            None => Ok(None),
        }
    }
}
