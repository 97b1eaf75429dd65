//! Laws about the types of user records: the numbers of the constants, and how types compare.
ghost use Rattle.std.specs.Prelude.{◌≡◌, [], ◌∷◌, map};
ghost use Rattle.perfdata_records.specs.UserRecordType.{user_type_number};
ghost use Rattle.perfdata_records.specs.Comparisons.{UserTypesEqualByNumber, UserTypesHashByNumber};
ghost use Rattle.perfdata_records.specs.Comparisons.{UserTypesOrderedByNumber};

use crate::record::UserRecordType;

/// Returns the types of the records that perf writes, with their numbers.
pub fn perf_record_types() -> [UserRecordType; 19]
    ensures { map user_type_number result ≡ 64 ∷ 65 ∷ 66 ∷ 67 ∷ 68 ∷ 69 ∷ 70 ∷ 71 ∷ 72 ∷ 73 ∷ 74 ∷ 75 ∷ 76
        ∷ 77 ∷ 78 ∷ 79 ∷ 80 ∷ 81 ∷ 83 ∷ [] }
{
    [
        UserRecordType::PERF_HEADER_ATTR,
        UserRecordType::PERF_HEADER_EVENT_TYPE,
        UserRecordType::PERF_HEADER_TRACING_DATA,
        UserRecordType::PERF_HEADER_BUILD_ID,
        UserRecordType::PERF_FINISHED_ROUND,
        UserRecordType::PERF_ID_INDEX,
        UserRecordType::PERF_AUXTRACE_INFO,
        UserRecordType::PERF_AUXTRACE,
        UserRecordType::PERF_AUXTRACE_ERROR,
        UserRecordType::PERF_THREAD_MAP,
        UserRecordType::PERF_CPU_MAP,
        UserRecordType::PERF_STAT_CONFIG,
        UserRecordType::PERF_STAT,
        UserRecordType::PERF_STAT_ROUND,
        UserRecordType::PERF_EVENT_UPDATE,
        UserRecordType::PERF_TIME_CONV,
        UserRecordType::PERF_HEADER_FEATURE,
        UserRecordType::PERF_COMPRESSED,
        UserRecordType::PERF_COMPRESSED2,
    ]
}

/// Returns the types of the records that simpleperf writes, with their numbers.
pub fn simpleperf_record_types() -> [UserRecordType; 9]
    ensures { map user_type_number result ≡ 32769 ∷ 32770 ∷ 32771 ∷ 32772 ∷ 32773 ∷ 32774 ∷ 32775 ∷ 32776
        ∷ 32777 ∷ [] }
{
    [
        UserRecordType::SIMPLEPERF_KERNEL_SYMBOL,
        UserRecordType::SIMPLEPERF_DSO,
        UserRecordType::SIMPLEPERF_SYMBOL,
        UserRecordType::SIMPLEPERF_SPLIT,
        UserRecordType::SIMPLEPERF_SPLIT_END,
        UserRecordType::SIMPLEPERF_EVENT_ID,
        UserRecordType::SIMPLEPERF_CALLCHAIN,
        UserRecordType::SIMPLEPERF_UNWINDING_RESULT,
        UserRecordType::SIMPLEPERF_TRACING_DATA,
    ]
}

/// Types of user records are equal if and only if their numbers are. Equal types have the same hash, and the
/// order of types is that of their numbers.
pub fn user_record_types_compare_by_number()
    ensures equality { UserTypesEqualByNumber }
    ensures hash { UserTypesHashByNumber }
    ensures order { UserTypesOrderedByNumber }
{}
