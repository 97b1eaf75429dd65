//! Laws about the constants, the numbers that the formats assign, and about how features compare.
ghost use Rattle.std.specs.Prelude.{◌≡◌};
ghost use Rattle.perfdata_base.specs.Comparisons.{FeaturesEqualByNumber, FeaturesHashByNumber};
ghost use Rattle.perfdata_base.specs.Comparisons.{FeaturesOrderedByNumber};

use perfdata_identifiers::features::*;
use perfdata_sources::event::RecordType;

/// The numbers of perf's features, and of simpleperf's from 128 on.
pub fn header_numbers()
    ensures tracing_data { HEADER_TRACING_DATA ≡ 1 }
    ensures build_id { HEADER_BUILD_ID ≡ 2 }
    ensures hostname { HEADER_HOSTNAME ≡ 3 }
    ensures osrelease { HEADER_OSRELEASE ≡ 4 }
    ensures version { HEADER_VERSION ≡ 5 }
    ensures arch { HEADER_ARCH ≡ 6 }
    ensures nrcpus { HEADER_NRCPUS ≡ 7 }
    ensures cpudesc { HEADER_CPUDESC ≡ 8 }
    ensures cpuid { HEADER_CPUID ≡ 9 }
    ensures total_mem { HEADER_TOTAL_MEM ≡ 10 }
    ensures cmdline { HEADER_CMDLINE ≡ 11 }
    ensures event_desc { HEADER_EVENT_DESC ≡ 12 }
    ensures cpu_topology { HEADER_CPU_TOPOLOGY ≡ 13 }
    ensures numa_topology { HEADER_NUMA_TOPOLOGY ≡ 14 }
    ensures branch_stack { HEADER_BRANCH_STACK ≡ 15 }
    ensures pmu_mappings { HEADER_PMU_MAPPINGS ≡ 16 }
    ensures group_desc { HEADER_GROUP_DESC ≡ 17 }
    ensures auxtrace { HEADER_AUXTRACE ≡ 18 }
    ensures stat { HEADER_STAT ≡ 19 }
    ensures cache { HEADER_CACHE ≡ 20 }
    ensures sample_time { HEADER_SAMPLE_TIME ≡ 21 }
    ensures sample_topology { HEADER_SAMPLE_TOPOLOGY ≡ 22 }
    ensures clockid { HEADER_CLOCKID ≡ 23 }
    ensures dir_format { HEADER_DIR_FORMAT ≡ 24 }
    ensures bpf_prog_info { HEADER_BPF_PROG_INFO ≡ 25 }
    ensures bpf_btf { HEADER_BPF_BTF ≡ 26 }
    ensures compressed { HEADER_COMPRESSED ≡ 27 }
    ensures cpu_pmu_caps { HEADER_CPU_PMU_CAPS ≡ 28 }
    ensures clock_data { HEADER_CLOCK_DATA ≡ 29 }
    ensures hybrid_topology { HEADER_HYBRID_TOPOLOGY ≡ 30 }
    ensures hybrid_cpu_pmu_caps { HEADER_HYBRID_CPU_PMU_CAPS ≡ 31 }
    ensures simpleperf_file { HEADER_SIMPLEPERF_FILE ≡ 128 }
    ensures simpleperf_meta_info { HEADER_SIMPLEPERF_META_INFO ≡ 129 }
    ensures simpleperf_debug_unwind { HEADER_SIMPLEPERF_DEBUG_UNWIND ≡ 130 }
    ensures simpleperf_debug_unwind_file { HEADER_SIMPLEPERF_DEBUG_UNWIND_FILE ≡ 131 }
    ensures simpleperf_file2 { HEADER_SIMPLEPERF_FILE2 ≡ 132 }
{}

/// The numbers of the features, as constants of type `Feature`.
pub fn feature_numbers()
    ensures tracing_data { Feature.TRACING_DATA.0 ≡ 1 }
    ensures build_id { Feature.BUILD_ID.0 ≡ 2 }
    ensures hostname { Feature.HOSTNAME.0 ≡ 3 }
    ensures osrelease { Feature.OSRELEASE.0 ≡ 4 }
    ensures version { Feature.VERSION.0 ≡ 5 }
    ensures arch { Feature.ARCH.0 ≡ 6 }
    ensures nrcpus { Feature.NRCPUS.0 ≡ 7 }
    ensures cpudesc { Feature.CPUDESC.0 ≡ 8 }
    ensures cpuid { Feature.CPUID.0 ≡ 9 }
    ensures total_mem { Feature.TOTAL_MEM.0 ≡ 10 }
    ensures cmdline { Feature.CMDLINE.0 ≡ 11 }
    ensures event_desc { Feature.EVENT_DESC.0 ≡ 12 }
    ensures cpu_topology { Feature.CPU_TOPOLOGY.0 ≡ 13 }
    ensures numa_topology { Feature.NUMA_TOPOLOGY.0 ≡ 14 }
    ensures branch_stack { Feature.BRANCH_STACK.0 ≡ 15 }
    ensures pmu_mappings { Feature.PMU_MAPPINGS.0 ≡ 16 }
    ensures group_desc { Feature.GROUP_DESC.0 ≡ 17 }
    ensures auxtrace { Feature.AUXTRACE.0 ≡ 18 }
    ensures stat { Feature.STAT.0 ≡ 19 }
    ensures cache { Feature.CACHE.0 ≡ 20 }
    ensures sample_time { Feature.SAMPLE_TIME.0 ≡ 21 }
    ensures sample_topology { Feature.SAMPLE_TOPOLOGY.0 ≡ 22 }
    ensures clockid { Feature.CLOCKID.0 ≡ 23 }
    ensures dir_format { Feature.DIR_FORMAT.0 ≡ 24 }
    ensures bpf_prog_info { Feature.BPF_PROG_INFO.0 ≡ 25 }
    ensures bpf_btf { Feature.BPF_BTF.0 ≡ 26 }
    ensures compressed { Feature.COMPRESSED.0 ≡ 27 }
    ensures cpu_pmu_caps { Feature.CPU_PMU_CAPS.0 ≡ 28 }
    ensures clock_data { Feature.CLOCK_DATA.0 ≡ 29 }
    ensures hybrid_topology { Feature.HYBRID_TOPOLOGY.0 ≡ 30 }
    ensures hybrid_cpu_pmu_caps { Feature.HYBRID_CPU_PMU_CAPS.0 ≡ 31 }
    ensures simpleperf_file { Feature.SIMPLEPERF_FILE.0 ≡ 128 }
    ensures simpleperf_meta_info { Feature.SIMPLEPERF_META_INFO.0 ≡ 129 }
    ensures simpleperf_debug_unwind { Feature.SIMPLEPERF_DEBUG_UNWIND.0 ≡ 130 }
    ensures simpleperf_debug_unwind_file { Feature.SIMPLEPERF_DEBUG_UNWIND_FILE.0 ≡ 131 }
    ensures simpleperf_file2 { Feature.SIMPLEPERF_FILE2.0 ≡ 132 }
{}

/// The numbers of the types of the kernel's records.
pub fn record_type_numbers()
    ensures mmap { RecordType.MMAP.0 ≡ 1 }
    ensures lost { RecordType.LOST.0 ≡ 2 }
    ensures comm { RecordType.COMM.0 ≡ 3 }
    ensures exit { RecordType.EXIT.0 ≡ 4 }
    ensures throttle { RecordType.THROTTLE.0 ≡ 5 }
    ensures unthrottle { RecordType.UNTHROTTLE.0 ≡ 6 }
    ensures fork { RecordType.FORK.0 ≡ 7 }
    ensures read { RecordType.READ.0 ≡ 8 }
    ensures sample { RecordType.SAMPLE.0 ≡ 9 }
    ensures mmap2 { RecordType.MMAP2.0 ≡ 10 }
    ensures aux { RecordType.AUX.0 ≡ 11 }
    ensures itrace_start { RecordType.ITRACE_START.0 ≡ 12 }
    ensures lost_samples { RecordType.LOST_SAMPLES.0 ≡ 13 }
    ensures switch { RecordType.SWITCH.0 ≡ 14 }
    ensures switch_cpu_wide { RecordType.SWITCH_CPU_WIDE.0 ≡ 15 }
    ensures namespaces { RecordType.NAMESPACES.0 ≡ 16 }
    ensures ksymbol { RecordType.KSYMBOL.0 ≡ 17 }
    ensures bpf_event { RecordType.BPF_EVENT.0 ≡ 18 }
    ensures cgroup { RecordType.CGROUP.0 ≡ 19 }
    ensures text_poke { RecordType.TEXT_POKE.0 ≡ 20 }
    ensures aux_output_hw_id { RecordType.AUX_OUTPUT_HW_ID.0 ≡ 21 }
{}

/// Features are equal if and only if their numbers are. Equal features have the same hash, and the order of
/// features is that of their numbers.
pub fn features_compare_by_number()
    ensures equality { FeaturesEqualByNumber }
    ensures hash { FeaturesHashByNumber }
    ensures order { FeaturesOrderedByNumber }
{}
