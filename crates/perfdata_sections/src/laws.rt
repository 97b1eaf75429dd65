//! Laws about the definitions of the sections that describe a file, and about the constants.
ghost use Rattle.std.specs.Prelude.{◌≡◌, ◌⊎◌, ℕ, List};
ghost use Rattle.perfdata_sources.specs.Endian.{number_in};
ghost use Rattle.perfdata_sources.specs.declared.endian.Endianness.{Endianness};
ghost use Rattle.perfdata_sections.specs.AttributeDescription.{DescribedEvent};
ghost use Rattle.perfdata_sections.specs.Error.{IsUnexpectedEof};
ghost use Rattle.perfdata_sections.specs.EventDesc.{BeginsWithEventDesc, IsEventDescError};
ghost use Rattle.perfdata_sections.specs.declared.error.Error.{Error};
ghost use Rattle.perfdata_sections.specs.declared.error.Error.TheVariants.{Read, InconsistentAttributeSizes};
ghost use Rattle.perfdata_sections.specs.declared.error.ReadError.TheVariants.{PerfEventAttr};

use crate::constants::*;
use crate::feature_sections::CompressionInfo;

/// An EVENT_DESC determines its events, and its error.
///
/// Bytes start with an EVENT_DESC of at most one list of events, and then no error applies to them. Two
/// errors that apply to the same bytes are equal, or both are an unexpected end of file.
pub fn event_desc_is_unique()
    ensures value { (endian : Endianness) (xs : List ℕ) (ds es : List DescribedEvent)
        → BeginsWithEventDesc (number_in endian) xs ds → BeginsWithEventDesc (number_in endian) xs es → ds
        ≡ es }
    ensures whole { (endian : Endianness) (e : Error) (xs : List ℕ) (ds : List DescribedEvent)
        → IsEventDescError (number_in endian) e xs → BeginsWithEventDesc (number_in endian) xs ds → ⊥ }
    ensures same_cause { (endian : Endianness) (e f : Error) (xs : List ℕ)
        → IsEventDescError (number_in endian) e xs → IsEventDescError (number_in endian) f xs → (e ≡ f)
        ⊎ (IsUnexpectedEof e × IsUnexpectedEof f) }
{}

/// It is decidable whether bytes start with an EVENT_DESC.
///
/// If they don't, at least one of these errors applies to them: an unexpected end of file,
/// `Read(PerfEventAttr)`, or `InconsistentAttributeSizes`.
pub fn event_desc_is_decidable()
    ensures if_error { (endian : Endianness) (eof : Error) (xs : List ℕ) → IsUnexpectedEof eof →
        ((ds : List DescribedEvent) × BeginsWithEventDesc (number_in endian) xs ds)
        ⊎ (IsEventDescError (number_in endian) eof xs
        ⊎ (IsEventDescError (number_in endian) (Read PerfEventAttr) xs
        ⊎ ((own_size : ℕ) × (frame_size : ℕ)
        × IsEventDescError (number_in endian) (InconsistentAttributeSizes own_size frame_size) xs))) }
    ensures decided { (endian : Endianness) (xs : List ℕ)
        → ((ds : List DescribedEvent) × BeginsWithEventDesc (number_in endian) xs ds)
        ⊎ ¬ ((ds : List DescribedEvent) × BeginsWithEventDesc (number_in endian) xs ds) }
{}

/// The numbers of the record types that perf writes.
pub fn perf_record_numbers()
    ensures header_attr { PERF_RECORD_HEADER_ATTR ≡ 64 }
    ensures header_event_type { PERF_RECORD_HEADER_EVENT_TYPE ≡ 65 }
    ensures header_tracing_data { PERF_RECORD_HEADER_TRACING_DATA ≡ 66 }
    ensures header_build_id { PERF_RECORD_HEADER_BUILD_ID ≡ 67 }
    ensures finished_round { PERF_RECORD_FINISHED_ROUND ≡ 68 }
    ensures id_index { PERF_RECORD_ID_INDEX ≡ 69 }
    ensures auxtrace_info { PERF_RECORD_AUXTRACE_INFO ≡ 70 }
    ensures auxtrace { PERF_RECORD_AUXTRACE ≡ 71 }
    ensures auxtrace_error { PERF_RECORD_AUXTRACE_ERROR ≡ 72 }
    ensures thread_map { PERF_RECORD_THREAD_MAP ≡ 73 }
    ensures cpu_map { PERF_RECORD_CPU_MAP ≡ 74 }
    ensures stat_config { PERF_RECORD_STAT_CONFIG ≡ 75 }
    ensures stat { PERF_RECORD_STAT ≡ 76 }
    ensures stat_round { PERF_RECORD_STAT_ROUND ≡ 77 }
    ensures event_update { PERF_RECORD_EVENT_UPDATE ≡ 78 }
    ensures time_conv { PERF_RECORD_TIME_CONV ≡ 79 }
    ensures header_feature { PERF_RECORD_HEADER_FEATURE ≡ 80 }
    ensures compressed { PERF_RECORD_COMPRESSED ≡ 81 }
    ensures finished_init { PERF_RECORD_FINISHED_INIT ≡ 82 }
    ensures compressed2 { PERF_RECORD_COMPRESSED2 ≡ 83 }
{}

/// The numbers of the record types that simpleperf writes.
pub fn simple_perf_record_numbers()
    ensures kernel_symbol { SIMPLE_PERF_RECORD_KERNEL_SYMBOL ≡ 32769 }
    ensures dso { SIMPLE_PERF_RECORD_DSO ≡ 32770 }
    ensures symbol { SIMPLE_PERF_RECORD_SYMBOL ≡ 32771 }
    ensures split { SIMPLE_PERF_RECORD_SPLIT ≡ 32772 }
    ensures split_end { SIMPLE_PERF_RECORD_SPLIT_END ≡ 32773 }
    ensures event_id { SIMPLE_PERF_RECORD_EVENT_ID ≡ 32774 }
    ensures callchain { SIMPLE_PERF_RECORD_CALLCHAIN ≡ 32775 }
    ensures unwinding_result { SIMPLE_PERF_RECORD_UNWINDING_RESULT ≡ 32776 }
    ensures tracing_data { SIMPLE_PERF_RECORD_TRACING_DATA ≡ 32777 }
{}

/// The number of the compression algorithm Zstd.
pub fn zstd_number()
    ensures { CompressionInfo.ZSTD_TYPE ≡ 1 }
{}
