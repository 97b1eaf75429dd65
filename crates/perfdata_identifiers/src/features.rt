//! The features of perf.data files, and sets of features.
ghost use Rattle.std.specs.Prelude.{◌≡◌, ◌↔◌, IsTrue, [], Contains, Some, length};
ghost use Rattle.std.specs.Iterator.{YieldsFirstBy, item_count};
ghost use Rattle.std.specs.Option.{option_map};
ghost use Rattle.perfdata_identifiers.specs.Features.{HasFeature, InsertsFeature, feature_name, feature_text};
ghost use Rattle.perfdata_identifiers.specs.Features.{features_of, remaining_features};

use std::fmt;

/// The number of [`Feature::TRACING_DATA`].
pub const HEADER_TRACING_DATA: u32 = 1;

/// The number of [`Feature::BUILD_ID`].
pub const HEADER_BUILD_ID: u32 = 2;

/// The number of [`Feature::HOSTNAME`].
pub const HEADER_HOSTNAME: u32 = 3;

/// The number of [`Feature::OSRELEASE`].
pub const HEADER_OSRELEASE: u32 = 4;

/// The number of [`Feature::VERSION`].
pub const HEADER_VERSION: u32 = 5;

/// The number of [`Feature::ARCH`].
pub const HEADER_ARCH: u32 = 6;

/// The number of [`Feature::NRCPUS`].
pub const HEADER_NRCPUS: u32 = 7;

/// The number of [`Feature::CPUDESC`].
pub const HEADER_CPUDESC: u32 = 8;

/// The number of [`Feature::CPUID`].
pub const HEADER_CPUID: u32 = 9;

/// The number of [`Feature::TOTAL_MEM`].
pub const HEADER_TOTAL_MEM: u32 = 10;

/// The number of [`Feature::CMDLINE`].
pub const HEADER_CMDLINE: u32 = 11;

/// The number of [`Feature::EVENT_DESC`].
pub const HEADER_EVENT_DESC: u32 = 12;

/// The number of [`Feature::CPU_TOPOLOGY`].
pub const HEADER_CPU_TOPOLOGY: u32 = 13;

/// The number of [`Feature::NUMA_TOPOLOGY`].
pub const HEADER_NUMA_TOPOLOGY: u32 = 14;

/// The number of [`Feature::BRANCH_STACK`].
pub const HEADER_BRANCH_STACK: u32 = 15;

/// The number of [`Feature::PMU_MAPPINGS`].
pub const HEADER_PMU_MAPPINGS: u32 = 16;

/// The number of [`Feature::GROUP_DESC`].
pub const HEADER_GROUP_DESC: u32 = 17;

/// The number of [`Feature::AUXTRACE`].
pub const HEADER_AUXTRACE: u32 = 18;

/// The number of [`Feature::STAT`].
pub const HEADER_STAT: u32 = 19;

/// The number of [`Feature::CACHE`].
pub const HEADER_CACHE: u32 = 20;

/// The number of [`Feature::SAMPLE_TIME`].
pub const HEADER_SAMPLE_TIME: u32 = 21;

/// The number of [`Feature::SAMPLE_TOPOLOGY`].
pub const HEADER_SAMPLE_TOPOLOGY: u32 = 22;

/// The number of [`Feature::CLOCKID`].
pub const HEADER_CLOCKID: u32 = 23;

/// The number of [`Feature::DIR_FORMAT`].
pub const HEADER_DIR_FORMAT: u32 = 24;

/// The number of [`Feature::BPF_PROG_INFO`].
pub const HEADER_BPF_PROG_INFO: u32 = 25;

/// The number of [`Feature::BPF_BTF`].
pub const HEADER_BPF_BTF: u32 = 26;

/// The number of [`Feature::COMPRESSED`].
pub const HEADER_COMPRESSED: u32 = 27;

/// The number of [`Feature::CPU_PMU_CAPS`].
pub const HEADER_CPU_PMU_CAPS: u32 = 28;

/// The number of [`Feature::CLOCK_DATA`].
pub const HEADER_CLOCK_DATA: u32 = 29;

/// The number of [`Feature::HYBRID_TOPOLOGY`].
pub const HEADER_HYBRID_TOPOLOGY: u32 = 30;

/// The number of [`Feature::HYBRID_CPU_PMU_CAPS`].
pub const HEADER_HYBRID_CPU_PMU_CAPS: u32 = 31;

/// The number of [`Feature::SIMPLEPERF_FILE`].
pub const HEADER_SIMPLEPERF_FILE: u32 = 128;

/// The number of [`Feature::SIMPLEPERF_META_INFO`].
pub const HEADER_SIMPLEPERF_META_INFO: u32 = 129;

/// The number of [`Feature::SIMPLEPERF_DEBUG_UNWIND`].
pub const HEADER_SIMPLEPERF_DEBUG_UNWIND: u32 = 130;

/// The number of [`Feature::SIMPLEPERF_DEBUG_UNWIND_FILE`].
pub const HEADER_SIMPLEPERF_DEBUG_UNWIND_FILE: u32 = 131;

/// The number of [`Feature::SIMPLEPERF_FILE2`].
pub const HEADER_SIMPLEPERF_FILE2: u32 = 132;

/// The number of a kind of data that has a section of its own in a perf.data file (`perf_header` features of
/// Linux's perf, and those of simpleperf from 128 on).
#[derive(Clone, Copy, PartialEq, Eq, Hash, PartialOrd, Ord)]
pub struct Feature(pub u32);

impl Feature {
    /// The formats of tracepoints, as ftrace describes them.
    pub const TRACING_DATA: Feature = Feature(HEADER_TRACING_DATA);

    /// The build ids of mapped objects.
    pub const BUILD_ID: Feature = Feature(HEADER_BUILD_ID);

    /// The machine's name.
    pub const HOSTNAME: Feature = Feature(HEADER_HOSTNAME);

    /// The kernel's release.
    pub const OSRELEASE: Feature = Feature(HEADER_OSRELEASE);

    /// The version of the recording tool.
    pub const VERSION: Feature = Feature(HEADER_VERSION);

    /// The processor's architecture.
    pub const ARCH: Feature = Feature(HEADER_ARCH);

    /// The numbers of available and of online processors of the machine.
    pub const NRCPUS: Feature = Feature(HEADER_NRCPUS);

    /// The processor's description.
    pub const CPUDESC: Feature = Feature(HEADER_CPUDESC);

    /// The processor's id.
    pub const CPUID: Feature = Feature(HEADER_CPUID);

    /// The memory of the machine, in kB.
    pub const TOTAL_MEM: Feature = Feature(HEADER_TOTAL_MEM);

    /// The command-line arguments of the recording.
    pub const CMDLINE: Feature = Feature(HEADER_CMDLINE);

    /// The attributes with their names and ids.
    pub const EVENT_DESC: Feature = Feature(HEADER_EVENT_DESC);

    /// The processors that are cores of one package, and those that are threads of one core.
    pub const CPU_TOPOLOGY: Feature = Feature(HEADER_CPU_TOPOLOGY);

    /// The memory nodes and their processors.
    pub const NUMA_TOPOLOGY: Feature = Feature(HEADER_NUMA_TOPOLOGY);

    /// Samples have branch stacks; the section is empty.
    pub const BRANCH_STACK: Feature = Feature(HEADER_BRANCH_STACK);

    /// The names of the performance monitoring units by their numbers.
    pub const PMU_MAPPINGS: Feature = Feature(HEADER_PMU_MAPPINGS);

    /// The groups of events.
    pub const GROUP_DESC: Feature = Feature(HEADER_GROUP_DESC);

    /// The offsets of the auxtrace records.
    pub const AUXTRACE: Feature = Feature(HEADER_AUXTRACE);

    /// Marks a recording that `perf stat` wrote.
    pub const STAT: Feature = Feature(HEADER_STAT);

    /// The caches of the processors.
    pub const CACHE: Feature = Feature(HEADER_CACHE);

    /// The times of the first and of the last sample.
    pub const SAMPLE_TIME: Feature = Feature(HEADER_SAMPLE_TIME);

    /// The blocks of memory of each node (`MEM_TOPOLOGY` in perf).
    pub const SAMPLE_TOPOLOGY: Feature = Feature(HEADER_SAMPLE_TOPOLOGY);

    /// The frequency of the clock of the records' times.
    pub const CLOCKID: Feature = Feature(HEADER_CLOCKID);

    /// The recording is a directory; the section contains the version of its format.
    pub const DIR_FORMAT: Feature = Feature(HEADER_DIR_FORMAT);

    /// The BPF programs that were loaded.
    pub const BPF_PROG_INFO: Feature = Feature(HEADER_BPF_PROG_INFO);

    /// The types of the BPF programs.
    pub const BPF_BTF: Feature = Feature(HEADER_BPF_BTF);

    /// The compression of the records.
    pub const COMPRESSED: Feature = Feature(HEADER_COMPRESSED);

    /// The capabilities of the processor's monitoring unit.
    pub const CPU_PMU_CAPS: Feature = Feature(HEADER_CPU_PMU_CAPS);

    /// The clock of the records' times, and the time of day at one of its times.
    pub const CLOCK_DATA: Feature = Feature(HEADER_CLOCK_DATA);

    /// The processors of each type.
    pub const HYBRID_TOPOLOGY: Feature = Feature(HEADER_HYBRID_TOPOLOGY);

    /// The capabilities of the monitoring unit of each type of processor.
    pub const HYBRID_CPU_PMU_CAPS: Feature = Feature(HEADER_HYBRID_CPU_PMU_CAPS);

    /// The symbols of files, as older simpleperf writes them.
    pub const SIMPLEPERF_FILE: Feature = Feature(HEADER_SIMPLEPERF_FILE);

    /// Pairs of strings from simpleperf.
    pub const SIMPLEPERF_META_INFO: Feature = Feature(HEADER_SIMPLEPERF_META_INFO);

    /// The data for debugging simpleperf's unwinding.
    pub const SIMPLEPERF_DEBUG_UNWIND: Feature = Feature(HEADER_SIMPLEPERF_DEBUG_UNWIND);

    /// The files for debugging simpleperf's unwinding.
    pub const SIMPLEPERF_DEBUG_UNWIND_FILE: Feature = Feature(HEADER_SIMPLEPERF_DEBUG_UNWIND_FILE);

    /// The symbols of files, as protobuf messages of simpleperf.
    pub const SIMPLEPERF_FILE2: Feature = Feature(HEADER_SIMPLEPERF_FILE2);
}

// The name of a feature's constant.
#[tactic(auto, unfolding(crate::specs::Features::feature_name))]
fn feature_name(number: u32) -> Option<&'static str>
    ensures { option_map (λ s. s.now) result ≡ feature_name number }
{
    match number {
        HEADER_TRACING_DATA => Some("TRACING_DATA"),
        HEADER_BUILD_ID => Some("BUILD_ID"),
        HEADER_HOSTNAME => Some("HOSTNAME"),
        HEADER_OSRELEASE => Some("OSRELEASE"),
        HEADER_VERSION => Some("VERSION"),
        HEADER_ARCH => Some("ARCH"),
        HEADER_NRCPUS => Some("NRCPUS"),
        HEADER_CPUDESC => Some("CPUDESC"),
        HEADER_CPUID => Some("CPUID"),
        HEADER_TOTAL_MEM => Some("TOTAL_MEM"),
        HEADER_CMDLINE => Some("CMDLINE"),
        HEADER_EVENT_DESC => Some("EVENT_DESC"),
        HEADER_CPU_TOPOLOGY => Some("CPU_TOPOLOGY"),
        HEADER_NUMA_TOPOLOGY => Some("NUMA_TOPOLOGY"),
        HEADER_BRANCH_STACK => Some("BRANCH_STACK"),
        HEADER_PMU_MAPPINGS => Some("PMU_MAPPINGS"),
        HEADER_GROUP_DESC => Some("GROUP_DESC"),
        HEADER_AUXTRACE => Some("AUXTRACE"),
        HEADER_STAT => Some("STAT"),
        HEADER_CACHE => Some("CACHE"),
        HEADER_SAMPLE_TIME => Some("SAMPLE_TIME"),
        HEADER_SAMPLE_TOPOLOGY => Some("SAMPLE_TOPOLOGY"),
        HEADER_CLOCKID => Some("CLOCKID"),
        HEADER_DIR_FORMAT => Some("DIR_FORMAT"),
        HEADER_BPF_PROG_INFO => Some("BPF_PROG_INFO"),
        HEADER_BPF_BTF => Some("BPF_BTF"),
        HEADER_COMPRESSED => Some("COMPRESSED"),
        HEADER_CPU_PMU_CAPS => Some("CPU_PMU_CAPS"),
        HEADER_CLOCK_DATA => Some("CLOCK_DATA"),
        HEADER_HYBRID_TOPOLOGY => Some("HYBRID_TOPOLOGY"),
        HEADER_HYBRID_CPU_PMU_CAPS => Some("HYBRID_CPU_PMU_CAPS"),
        HEADER_SIMPLEPERF_FILE => Some("SIMPLEPERF_FILE"),
        HEADER_SIMPLEPERF_META_INFO => Some("SIMPLEPERF_META_INFO"),
        HEADER_SIMPLEPERF_DEBUG_UNWIND => Some("SIMPLEPERF_DEBUG_UNWIND"),
        HEADER_SIMPLEPERF_DEBUG_UNWIND_FILE => Some("SIMPLEPERF_DEBUG_UNWIND_FILE"),
        HEADER_SIMPLEPERF_FILE2 => Some("SIMPLEPERF_FILE2"),
        _ => None,
    }
}

/// Writes the name of the feature's constant, or `Unknown Feature N`.
impl fmt::Display for Feature {
    ghost output = { λ f. Some (feature_text f.0) };

    fn fmt<W: fmt::Write>(&self, f: &mut fmt::Formatter<W>) -> fmt::Result {
        match feature_name(self.0) {
            Some(name) => write!(f, "{name}"),
            None => write!(f, "Unknown Feature {}", self.0),
        }
    }
}

impl fmt::Debug for Feature {
    ghost debug_output = { λ f. Some (feature_text f.0) };

    fn fmt<W: fmt::Write>(&self, f: &mut fmt::Formatter<W>) -> fmt::Result {
        fmt::Display::fmt(self, f)
    }
}

/// The features of a perf.data file. Feature n is bit n mod 64 of element n div 64.
#[derive(Clone, Copy, PartialEq, Eq, Hash)]
pub struct FeatureSet(pub [u64; 4]);

impl FeatureSet {
    /// The number of features that fit in a set, from 0 on.
    pub const MAX_BITS: u32 = 256;

    /// Returns the number of features.
    pub fn len(&self) -> usize
        ensures { result ≡ length (features_of self.now) }
    {
        self.iter().count()
    }

    /// Returns whether the set is empty.
    pub fn is_empty(&self) -> bool
        ensures { IsTrue result ↔ (features_of self.now ≡ []) }
    {
        self.iter().next().is_none()
    }

    /// Returns the features in ascending order.
    pub fn iter(&self) -> FeatureSetIter
        ensures { remaining_features result ≡ features_of self.now }
    {
        FeatureSetIter {
            set: *self,
            next: 0,
        }
    }

    /// Returns whether the set contains a feature. It contains none from 256 on.
    pub fn has_feature(&self, feature: Feature) -> bool
        ensures bit { IsTrue result ↔ HasFeature self.now feature.0 }
        ensures member { IsTrue result ↔ Contains (features_of self.now) feature.0 }
    {
        if feature.0 >= FeatureSet::MAX_BITS {
            return false;
        }
        let word = self.0[(feature.0 / 64) as usize];
        word & (1 << (feature.0 % 64)) != 0
    }

    /// Inserts a feature. If it is 256 or more, the set is unchanged.
    pub fn insert(&mut self, feature: Feature)
        ensures { InsertsFeature self.old feature.0 self.new }
    {
        if feature.0 >= FeatureSet::MAX_BITS {
            return;
        }
        let index = (feature.0 / 64) as usize;
        self.0[index] |= 1 << (feature.0 % 64);
    }
}

/// Writes the names of the features between braces.
impl fmt::Debug for FeatureSet {
    fn fmt<W: fmt::Write>(&self, f: &mut fmt::Formatter<W>) -> fmt::Result {
        f.write_str("{")?;
        let mut separator = "";
        for feature in self.iter() {
            write!(f, "{separator}{feature}")?;
            separator = ", ";
        }
        f.write_str("}")
    }
}

/// An iterator over the features of a set in ascending order, from [`FeatureSet::iter`].
#[derive(Drop)]
pub struct FeatureSetIter {
    set: FeatureSet,
    next: u32,
}

impl Iterator for FeatureSetIter {
    type Item = Feature;

    ghost next_gives = { YieldsFirstBy (λ f. f.0) remaining_features };

    ghost remaining = { item_count remaining_features };

    fn next(&mut self) -> Option<Feature> {
        'members: while self.next < FeatureSet::MAX_BITS {
            let feature = Feature(self.next);
            self.next += 1;
            if self.set.has_feature(feature) {
                return Some(feature);
            }
        }
        None
    }
}
