//! C exports of the calls of `perfdata_arrays`, `perfdata_chunks`, `perfdata_stack_arrays`, `code_symbols`
//! and `demangle`; `bindings/c/include/dewikura.h` declares them.
//!
//! No pointer may be NULL, also where an array has no elements.
#![tactic(auto)]

ghost use Rattle.std.specs.Prelude.{◌≡◌, ◌≢◌, ◌⊎◌, ℕ, ◌<◌, ◌-◌, ◌++◌, ◌∷◌, [], length, take};
ghost use Rattle.std.specs.Bool.{nat_eq};
ghost use Rattle.std.specs.List.{starts_with};
ghost use Rattle.perfdata_sources.specs.declared.endian.Endianness.TheVariants.{BigEndian};
ghost use Rattle.perfdata_base.specs.Header.{magic_of};
ghost use Rattle.perfdata_arrays.specs.Attrs.{ReadsFileAttrs, ReadsPipeAttrs};
ghost use Rattle.perfdata_arrays.specs.BuildIds.{FindsDsoKind, ReadsBuildId};
ghost use Rattle.perfdata_arrays.specs.Counters.{ReadsCounterPage, ReadsPipeCounters};
ghost use Rattle.perfdata_arrays.specs.Decompressing.{WritesPlainInput};
ghost use Rattle.perfdata_arrays.specs.Details.{ReadsDetails, format_of_attr};
ghost use Rattle.perfdata_arrays.specs.FeatureSets.{ReadsFileFeatures, ReadsPipeFeatures};
ghost use Rattle.perfdata_arrays.specs.Features.{ReadsFileFeature, ReadsPipeFeature};
ghost use Rattle.perfdata_arrays.specs.Jit.{ReadsJitHeader, ReadsJitRecords, ReadsJitLoad};
ghost use Rattle.perfdata_arrays.specs.JitBodies.{ReadsJitMove, ReadsJitUnwinding};
ghost use Rattle.perfdata_arrays.specs.JitDebug.{ReadsJitDebugInfo};
ghost use Rattle.perfdata_arrays.specs.Mappings.{ReadsMappingPage, ReadsPipeMappings};
ghost use Rattle.perfdata_arrays.specs.MetaPairs.{ReadsMetaInfo};
ghost use Rattle.linux_perf_data.specs.RecordEntries.{with_prefix};
ghost use Rattle.perfdata_arrays.specs.Overwrites.{WritesBytes};
ghost use Rattle.perfdata_arrays.specs.Pages.{ReadsFilePage};
ghost use Rattle.perfdata_arrays.specs.Records.{ReadsPipeRecords};
ghost use Rattle.perfdata_arrays.specs.SampleRecords.{ReadsPipeSamples, ReadsSamplePage};
ghost use Rattle.perfdata_arrays.specs.Sorting.{SortsByTime};
ghost use Rattle.perfdata_arrays.specs.Status.{IsCodeOf, code_text};
ghost use Rattle.perfdata_arrays.specs.Strings.{ReadsString};
ghost use Rattle.perfdata_arrays.specs.SymbolTables.{ReadsSymbolTables};
ghost use Rattle.perfdata_arrays.specs.Tasks.{ReadsPipeTasks, ReadsTaskPage};
ghost use Rattle.perfdata_chunks.specs.Chunks.{more_text};
ghost use Rattle.demangle.specs.Prefix.{IsMangled};
ghost use Rattle.perfdata_stack_arrays.specs.Reading.{ReadsFileStacks, ReadsPipeStacks};
ghost use Rattle.dewikura.specs.Demangling.{Demangles};
ghost use Rattle.dewikura.specs.Numbers.{endian_from, style_from, number_of_bool, IsNumberOfKind};

mod chunks;
mod demangling;
mod elf_files;

use demangle::Style;
use elf_files::ElfSymbol;
use linux_perf_data::Endianness;
use linux_perf_data::in_memory::entries::RecordEntry;
use linux_perf_data::in_memory::position::RecordPosition;
use linux_perf_data::input_kind::InputKind;
use perfdata_arrays::attrs::{Attr, AttrTotals};
use perfdata_arrays::build_ids::BuildId;
use perfdata_arrays::counters::CounterEntry;
use perfdata_arrays::feature_set::FeatureBits;
use perfdata_arrays::jit::{JitHeader, JitLoad, JitRecord};
use perfdata_arrays::jit_bodies::{JitMove, JitUnwinding};
use perfdata_arrays::jit_debug::JitDebugEntry;
use perfdata_arrays::mappings::MappingEntry;
use perfdata_arrays::meta_info::MetaPair;
use perfdata_arrays::samples::details;
use perfdata_arrays::samples::details::SampleDetails;
use perfdata_arrays::samples::frame::FrameEntry;
use perfdata_arrays::samples::sample::Sample;
use perfdata_arrays::strings::StringEntry;
use perfdata_arrays::symbol_tables::{Symbol, SymbolFile, SymbolTotals};
use perfdata_arrays::tasks::TaskEntry;
use perfdata_arrays::{
    attrs, build_ids, byte_order, counters, decompressing, feature_set, features, finishing, jit,
    jit_bodies, jit_debug, mappings, meta_info, records, samples, sort, status, strings,
    symbol_tables, tasks, tracing_data,
};
use perfdata_stack_arrays::frame::StackFrame;
use perfdata_stack_arrays::mapping::StackMapping;
use perfdata_stack_arrays::stack::Stack;
use perfdata_stack_arrays::stacks as stack_arrays;
use perfdata_stack_arrays::totals::StackTotals;
use std::alloc::Global;

// The version of the library: 10,000 times the major number, 100 times the minor number, and the patch
// number.
const VERSION: u32 = 100;

// The byte order is little-endian for 0 and big-endian for all other values.
fn endian_from_flag(is_big_endian: u32) -> Endianness
    ensures { result ≡ endian_from is_big_endian }
{
    if is_big_endian == 0 {
        Endianness::LittleEndian
    } else {
        Endianness::BigEndian
    }
}

// The style of texts is that of names for 0, and that of signatures for all other values.
fn style_from_number(style: u32) -> Style
    ensures { result ≡ style_from style }
{
    if style == 0 {
        Style::Name
    } else {
        Style::Signature
    }
}

/// Returns the version of the library, as `DEWIKURA_VERSION` of the header.
#[unsafe(no_mangle)]
pub extern "C" fn dewikura_version() -> u32
    ensures { result ≡ 100 }
{
    VERSION
}

/// Writes the text of a status code, as `perfdata_chunks::status::status_text` does.
#[unsafe(no_mangle)]
pub extern "C" fn dewikura_status_text(code: u32, buf: &mut [u8]) -> usize
    ensures size { code ≢ 29 → result ≡ length (code_text code) }
    ensures written { code ≢ 29 → buf.new
        ≡ with_prefix (take (length buf.old - 1) (code_text code) ++ 0 ∷ []) buf.old }
    ensures size_of_more { code ≡ 29 → result ≡ length more_text }
    ensures more { code ≡ 29 → buf.new
        ≡ with_prefix (take (length buf.old - 1) more_text ++ 0 ∷ []) buf.old }
{
    perfdata_chunks::status::status_text(code, buf)
}

/// Returns 1 if the numbers of a perf.data file or pipe are big-endian, otherwise 0, as
/// `byte_order::is_big_endian` does.
#[unsafe(no_mangle)]
pub extern "C" fn dewikura_is_big_endian(input: &[u8]) -> u32
    ensures { result ≡ number_of_bool (starts_with nat_eq input.now (magic_of BigEndian)) }
{
    byte_order::is_big_endian(input) as u32
}

/// Returns the kind of an input by its first bytes, as `InputKind::of_start` does: 1 for a perf.data file, 2
/// for a pipe, 3 for a jitdump, and 0 for none of them.
#[unsafe(no_mangle)]
pub extern "C" fn dewikura_input_kind(input: &[u8]) -> u32
    ensures { IsNumberOfKind input.now result }
{
    match InputKind::of_start(input) {
        None => 0,
        Some(InputKind::File) => 1,
        Some(InputKind::Pipe) => 2,
        Some(InputKind::JitDump) => 3,
    }
}

/// Reads the records of a perf.data file from a cursor on, as `records::file_records` does.
#[unsafe(no_mangle)]
pub extern "C" fn dewikura_read_file_records(
    alloc: Global,
    input: &[u8],
    cursor: &mut RecordPosition,
    entries: &mut [RecordEntry],
    count: &mut u64,
) -> u32
    ensures { IsCodeOf result (λ s. ReadsFilePage input.now cursor.old entries.old
        (record { count = count.new; status = s }) cursor.new entries.new) }
{
    let outcome = records::file_records(alloc, input, cursor, entries);
    *count = outcome.count;
    outcome.status.code()
}

/// Reads the records of a perf.data pipe, as `records::pipe_records` does.
#[unsafe(no_mangle)]
pub extern "C" fn dewikura_read_pipe_records(
    alloc: Global,
    input: &[u8],
    start: u64,
    entries: &mut [RecordEntry],
    count: &mut u64,
) -> u32
    ensures { IsCodeOf result (λ s. ReadsPipeRecords input.now start entries.old
        (record { count = count.new; status = s }) entries.new) }
{
    let outcome = records::pipe_records(alloc, input, start, entries);
    *count = outcome.count;
    outcome.status.code()
}

/// Reads the samples of a perf.data file from a cursor on, as `samples::file_samples` does.
#[unsafe(no_mangle)]
pub extern "C" fn dewikura_read_file_samples(
    alloc: Global,
    input: &[u8],
    cursor: &mut RecordPosition,
    samples: &mut [Sample],
    count: &mut u64,
    frames: &mut [FrameEntry],
    frames_count: &mut u64,
) -> u32
    ensures { IsCodeOf result (λ s. ReadsSamplePage input.now cursor.old samples.old frames.old
        (record { count = count.new; frames_count = frames_count.new; status = s }) cursor.new samples.new
        frames.new) }
{
    let outcome = samples::file_samples(alloc, input, cursor, samples, frames);
    *count = outcome.count;
    *frames_count = outcome.frames_count;
    outcome.status.code()
}

/// Reads the samples of a perf.data pipe, as `samples::pipe_samples` does.
#[unsafe(no_mangle)]
pub extern "C" fn dewikura_read_pipe_samples(
    alloc: Global,
    input: &[u8],
    samples: &mut [Sample],
    total: &mut u64,
    frames: &mut [FrameEntry],
    frames_total: &mut u64,
) -> u32
    ensures { IsCodeOf result (λ s. ReadsPipeSamples input.now samples.old frames.old
        (record { count = total.new; frames_count = frames_total.new; status = s }) samples.new frames.new) }
{
    let outcome = samples::pipe_samples(alloc, input, samples, frames);
    *total = outcome.count;
    *frames_total = outcome.frames_count;
    outcome.status.code()
}

/// Decodes what else a sample has, as `details::read_details` does.
#[unsafe(no_mangle)]
pub extern "C" fn dewikura_read_sample_details(
    body: &[u8],
    is_big_endian: u32,
    attr: &Attr,
    details: &mut SampleDetails,
) -> u32
    ensures { IsCodeOf result (λ s. ReadsDetails (format_of_attr (endian_from is_big_endian) attr.now)
        body.now details.old s details.new) }
{
    details::read_details(endian_from_flag(is_big_endian), attr, body, details).code()
}

/// Reads the records on tasks of a perf.data file from a cursor on, as `tasks::file_tasks` does.
#[unsafe(no_mangle)]
pub extern "C" fn dewikura_read_file_tasks(
    alloc: Global,
    input: &[u8],
    cursor: &mut RecordPosition,
    entries: &mut [TaskEntry],
    count: &mut u64,
) -> u32
    ensures { IsCodeOf result (λ s. (frames_count : ℕ) × ReadsTaskPage input.now cursor.old
        entries.old (record { count = count.new; frames_count = frames_count; status = s }) cursor.new
        entries.new) }
{
    let outcome = tasks::file_tasks(alloc, input, cursor, entries);
    *count = outcome.count;
    outcome.status.code()
}

/// Reads the records on tasks of a perf.data pipe, as `tasks::pipe_tasks` does.
#[unsafe(no_mangle)]
pub extern "C" fn dewikura_read_pipe_tasks(
    alloc: Global,
    input: &[u8],
    entries: &mut [TaskEntry],
    total: &mut u64,
) -> u32
    ensures { IsCodeOf result (λ s. (frames_count : ℕ) × ReadsPipeTasks input.now entries.old
        (record { count = total.new; frames_count = frames_count; status = s }) entries.new) }
{
    let outcome = tasks::pipe_tasks(alloc, input, entries);
    *total = outcome.count;
    outcome.status.code()
}

/// Reads the mappings of a perf.data file from a cursor on, as `mappings::file_mappings` does.
#[unsafe(no_mangle)]
pub extern "C" fn dewikura_read_file_mappings(
    alloc: Global,
    input: &[u8],
    cursor: &mut RecordPosition,
    entries: &mut [MappingEntry],
    count: &mut u64,
) -> u32
    ensures { IsCodeOf result (λ s. (frames_count : ℕ) × ReadsMappingPage input.now cursor.old
        entries.old (record { count = count.new; frames_count = frames_count; status = s }) cursor.new
        entries.new) }
{
    let outcome = mappings::file_mappings(alloc, input, cursor, entries);
    *count = outcome.count;
    outcome.status.code()
}

/// Reads the mappings of a perf.data pipe, as `mappings::pipe_mappings` does.
#[unsafe(no_mangle)]
pub extern "C" fn dewikura_read_pipe_mappings(
    alloc: Global,
    input: &[u8],
    entries: &mut [MappingEntry],
    total: &mut u64,
) -> u32
    ensures { IsCodeOf result (λ s. (frames_count : ℕ) × ReadsPipeMappings input.now entries.old
        (record { count = total.new; frames_count = frames_count; status = s }) entries.new) }
{
    let outcome = mappings::pipe_mappings(alloc, input, entries);
    *total = outcome.count;
    outcome.status.code()
}

/// Reads the counter values of a perf.data file from a cursor on, as `counters::file_counters` does.
#[unsafe(no_mangle)]
pub extern "C" fn dewikura_read_file_counters(
    alloc: Global,
    input: &[u8],
    cursor: &mut RecordPosition,
    entries: &mut [CounterEntry],
    count: &mut u64,
) -> u32
    ensures { IsCodeOf result (λ s. (frames_count : ℕ) × ReadsCounterPage input.now cursor.old
        entries.old (record { count = count.new; frames_count = frames_count; status = s }) cursor.new
        entries.new) }
{
    let outcome = counters::file_counters(alloc, input, cursor, entries);
    *count = outcome.count;
    outcome.status.code()
}

/// Reads the counter values of a perf.data pipe, as `counters::pipe_counters` does.
#[unsafe(no_mangle)]
pub extern "C" fn dewikura_read_pipe_counters(
    alloc: Global,
    input: &[u8],
    entries: &mut [CounterEntry],
    total: &mut u64,
) -> u32
    ensures { IsCodeOf result (λ s. (frames_count : ℕ) × ReadsPipeCounters input.now entries.old
        (record { count = total.new; frames_count = frames_count; status = s }) entries.new) }
{
    let outcome = counters::pipe_counters(alloc, input, entries);
    *total = outcome.count;
    outcome.status.code()
}

/// Reads the stacks of a perf.data file, as `stacks::file_stacks` does.
#[unsafe(no_mangle)]
pub extern "C" fn dewikura_read_file_stacks(
    alloc: Global,
    input: &[u8],
    stacks: &mut [Stack],
    frames: &mut [StackFrame],
    mappings: &mut [StackMapping],
    text: &mut [u8],
    totals: &mut StackTotals,
) -> u32
    ensures { IsCodeOf result (λ s. ReadsFileStacks input.now
        (record { stacks = stacks.old; frames = frames.old; mappings = mappings.old; text = text.old })
        (record { totals = totals.new; status = s })
        (record { stacks = stacks.new; frames = frames.new; mappings = mappings.new; text = text.new })) }
{
    let outcome = stack_arrays::file_stacks(alloc, input, stacks, frames, mappings, text);
    *totals = outcome.totals;
    outcome.status.code()
}

/// Reads the stacks of a perf.data pipe, as `stacks::pipe_stacks` does.
#[unsafe(no_mangle)]
pub extern "C" fn dewikura_read_pipe_stacks(
    alloc: Global,
    input: &[u8],
    stacks: &mut [Stack],
    frames: &mut [StackFrame],
    mappings: &mut [StackMapping],
    text: &mut [u8],
    totals: &mut StackTotals,
) -> u32
    ensures { IsCodeOf result (λ s. ReadsPipeStacks input.now
        (record { stacks = stacks.old; frames = frames.old; mappings = mappings.old; text = text.old })
        (record { totals = totals.new; status = s })
        (record { stacks = stacks.new; frames = frames.new; mappings = mappings.new; text = text.new })) }
{
    let outcome = stack_arrays::pipe_stacks(alloc, input, stacks, frames, mappings, text);
    *totals = outcome.totals;
    outcome.status.code()
}

/// Sorts records by time, as `sort::sort_records` does.
#[unsafe(no_mangle)]
pub extern "C" fn dewikura_sort_records(alloc: Global, entries: &mut [RecordEntry]) -> u32
    ensures { IsCodeOf result (λ s. SortsByTime entries.old s entries.new) }
{
    sort::sort_records(alloc, entries).code()
}

/// Reads the attributes of a perf.data file, as `attrs::file_attrs` does.
#[unsafe(no_mangle)]
pub extern "C" fn dewikura_read_file_attrs(
    alloc: Global,
    input: &[u8],
    entries: &mut [Attr],
    names: &mut [u8],
    ids: &mut [u64],
    totals: &mut AttrTotals,
) -> u32
    ensures { IsCodeOf result (λ s. ReadsFileAttrs input.now entries.old names.old ids.old
        (record { totals = totals.new; status = s }) entries.new names.new ids.new) }
{
    let outcome = attrs::file_attrs(alloc, input, entries, names, ids);
    *totals = outcome.totals;
    outcome.status.code()
}

/// Reads the attributes of a perf.data pipe, as `attrs::pipe_attrs` does.
#[unsafe(no_mangle)]
pub extern "C" fn dewikura_read_pipe_attrs(
    alloc: Global,
    input: &[u8],
    entries: &mut [Attr],
    names: &mut [u8],
    ids: &mut [u64],
    totals: &mut AttrTotals,
) -> u32
    ensures { IsCodeOf result (λ s. ReadsPipeAttrs input.now entries.old names.old ids.old
        (record { totals = totals.new; status = s }) entries.new names.new ids.new) }
{
    let outcome = attrs::pipe_attrs(alloc, input, entries, names, ids);
    *totals = outcome.totals;
    outcome.status.code()
}

/// Reads the set of features of a perf.data file, as `feature_set::file_features` does.
#[unsafe(no_mangle)]
pub extern "C" fn dewikura_read_file_feature_set(
    alloc: Global,
    input: &[u8],
    set: &mut FeatureBits,
) -> u32
    ensures { IsCodeOf result (λ s. ReadsFileFeatures input.now (record { features = set.new; status = s })) }
{
    let outcome = feature_set::file_features(alloc, input);
    *set = outcome.features;
    outcome.status.code()
}

/// Reads the set of features of a perf.data pipe, as `feature_set::pipe_features` does.
#[unsafe(no_mangle)]
pub extern "C" fn dewikura_read_pipe_feature_set(
    alloc: Global,
    input: &[u8],
    set: &mut FeatureBits,
) -> u32
    ensures { IsCodeOf result (λ s. ReadsPipeFeatures input.now (record { features = set.new; status = s })) }
{
    let outcome = feature_set::pipe_features(alloc, input);
    *set = outcome.features;
    outcome.status.code()
}

/// Reads the bytes of a feature of a perf.data file, as `features::file_feature` does.
#[unsafe(no_mangle)]
pub extern "C" fn dewikura_read_file_feature(
    alloc: Global,
    input: &[u8],
    feature: u32,
    buf: &mut [u8],
    is_present: &mut u8,
    feature_size: &mut u64,
) -> u32
    ensures { IsCodeOf result (λ s. ReadsFileFeature input.now feature buf.old
        (record { size = feature_size.new; is_present = is_present.new; status = s }) buf.new) }
{
    let outcome = features::file_feature(alloc, input, feature, buf);
    *is_present = outcome.is_present;
    *feature_size = outcome.size;
    outcome.status.code()
}

/// Reads the bytes of a feature of a perf.data pipe, as `features::pipe_feature` does.
#[unsafe(no_mangle)]
pub extern "C" fn dewikura_read_pipe_feature(
    alloc: Global,
    input: &[u8],
    feature: u32,
    buf: &mut [u8],
    is_present: &mut u8,
    feature_size: &mut u64,
) -> u32
    ensures { IsCodeOf result (λ s. ReadsPipeFeature input.now feature buf.old
        (record { size = feature_size.new; is_present = is_present.new; status = s }) buf.new) }
{
    let outcome = features::pipe_feature(alloc, input, feature, buf);
    *is_present = outcome.is_present;
    *feature_size = outcome.size;
    outcome.status.code()
}

/// Writes the finished recording of a perf.data file, as `finishing::finish_recording` does.
#[unsafe(no_mangle)]
pub extern "C" fn dewikura_finish_recording(
    alloc: Global,
    input: &[u8],
    buf: &mut [u8],
    needed: &mut u64,
) -> u32
    ensures written { WritesBytes needed.new buf.old buf.new }
    ensures failed { result ≢ 0 → (needed.new ≡ 0) × (buf.new ≡ buf.old) }
{
    let finished = finishing::finish_recording(alloc, input, buf);
    *needed = finished.size;
    finished.status.code()
}

/// Writes a recording without compression, as `decompressing::decompress_recording` does.
#[unsafe(no_mangle)]
pub extern "C" fn dewikura_decompress(
    alloc: Global,
    input: &[u8],
    buf: &mut [u8],
    needed: &mut u64,
) -> u32
    ensures plain { IsCodeOf result (λ s. WritesPlainInput input.now buf.old
        (record { size = needed.new; status = s }) buf.new) }
    ensures written { WritesBytes needed.new buf.old buf.new }
{
    let decompressed = decompressing::decompress_recording(alloc, input, buf);
    *needed = decompressed.size;
    decompressed.status.code()
}

/// Reads an entry of a BUILD_ID section, as `build_ids::read_build_id` does.
#[unsafe(no_mangle)]
pub extern "C" fn dewikura_read_build_id(
    alloc: Global,
    section: &[u8],
    is_big_endian: u32,
    offset: u64,
    entry: &mut BuildId,
) -> u32
    ensures { IsCodeOf result (λ s. ReadsBuildId
        (endian_from is_big_endian) section.now offset entry.old s entry.new) }
{
    build_ids::read_build_id(
        alloc,
        endian_from_flag(is_big_endian),
        section,
        offset,
        entry,
    )
    .code()
}

/// Finds the DSO kind of a path, as `build_ids::find_dso_kind` does.
#[unsafe(no_mangle)]
pub extern "C" fn dewikura_dso_kind(alloc: Global, path: &[u8], misc: u16, kind: &mut u32) -> u32
    ensures { IsCodeOf result (λ s. FindsDsoKind path.now misc kind.old s kind.new) }
{
    build_ids::find_dso_kind(alloc, path, misc, kind).code()
}

/// Reads a string of a feature section, as `strings::find_string` does.
#[unsafe(no_mangle)]
pub extern "C" fn dewikura_read_string(
    section: &[u8],
    is_big_endian: u32,
    offset: u64,
    entry: &mut StringEntry,
) -> u32
    ensures { IsCodeOf result (λ s. ReadsString
        (endian_from is_big_endian) section.now offset entry.old s entry.new) }
{
    strings::find_string(endian_from_flag(is_big_endian), section, offset, entry).code()
}

/// Reads the pairs of simpleperf's meta info, as `meta_info::meta_info` does.
#[unsafe(no_mangle)]
pub extern "C" fn dewikura_read_meta_info(
    section: &[u8],
    entries: &mut [MetaPair],
    count: &mut u64,
) -> u32
    ensures { IsCodeOf result (λ s. ReadsMetaInfo section.now entries.old
        (record { count = count.new; status = s }) entries.new) }
{
    let outcome = meta_info::meta_info(section, entries);
    *count = outcome.count;
    outcome.status.code()
}

/// Reads the files of a symbol table section of simpleperf, as `symbol_tables::symbol_tables` does.
#[unsafe(no_mangle)]
pub extern "C" fn dewikura_read_symbol_tables(
    alloc: Global,
    section: &[u8],
    feature: u32,
    is_big_endian: u32,
    files: &mut [SymbolFile],
    symbols: &mut [Symbol],
    names: &mut [u8],
    offsets: &mut [u64],
    totals: &mut SymbolTotals,
) -> u32
    ensures { IsCodeOf result (λ s. ReadsSymbolTables feature (endian_from is_big_endian) section.now
        (record { files = files.old; symbols = symbols.old; names = names.old; offsets = offsets.old })
        (record { totals = totals.new; status = s })
        (record { files = files.new; symbols = symbols.new; names = names.new; offsets = offsets.new })) }
{
    let endian = endian_from_flag(is_big_endian);
    let outcome = symbol_tables::symbol_tables(
        alloc, feature, endian, section, files, symbols, names, offsets,
    );
    *totals = outcome.totals;
    outcome.status.code()
}

/// Reads the header of a jitdump, as `jit::jit_header` does.
#[unsafe(no_mangle)]
pub extern "C" fn dewikura_read_jit_header(input: &[u8], header: &mut JitHeader) -> u32
    ensures { IsCodeOf result (λ s. ReadsJitHeader input.now header.old s header.new) }
{
    jit::jit_header(input, header).code()
}

/// Reads the records of a jitdump, as `jit::jit_records` does.
#[unsafe(no_mangle)]
pub extern "C" fn dewikura_read_jit_records(
    input: &[u8],
    start_offset: u64,
    entries: &mut [JitRecord],
    count: &mut u64,
    next_offset: &mut u64,
) -> u32
    ensures { IsCodeOf result (λ s. ReadsJitRecords input.now start_offset entries.old
        (record { count = count.new; next_offset = next_offset.new; status = s }) entries.new) }
{
    let outcome = jit::jit_records(input, start_offset, entries);
    *count = outcome.count;
    *next_offset = outcome.next_offset;
    outcome.status.code()
}

/// Reads a load record of a jitdump, as `jit::jit_load` does.
#[unsafe(no_mangle)]
pub extern "C" fn dewikura_read_jit_load(input: &[u8], offset: u64, load: &mut JitLoad) -> u32
    ensures { IsCodeOf result (λ s. ReadsJitLoad input.now offset load.old s load.new) }
{
    jit::jit_load(input, offset, load).code()
}

/// Reads a move record of a jitdump, as `jit_bodies::jit_move` does.
#[unsafe(no_mangle)]
pub extern "C" fn dewikura_read_jit_move(input: &[u8], offset: u64, moved: &mut JitMove) -> u32
    ensures { IsCodeOf result (λ s. ReadsJitMove input.now offset moved.old s moved.new) }
{
    jit_bodies::jit_move(input, offset, moved).code()
}

/// Reads an unwinding info record of a jitdump, as `jit_bodies::jit_unwinding` does.
#[unsafe(no_mangle)]
pub extern "C" fn dewikura_read_jit_unwinding(
    input: &[u8],
    offset: u64,
    unwinding: &mut JitUnwinding,
) -> u32
    ensures { IsCodeOf result (λ s. ReadsJitUnwinding input.now offset unwinding.old s unwinding.new) }
{
    jit_bodies::jit_unwinding(input, offset, unwinding).code()
}

/// Reads the source locations in a debug info record of a jitdump, as `jit_debug::jit_debug_info` does.
#[unsafe(no_mangle)]
pub extern "C" fn dewikura_read_jit_debug_info(
    alloc: Global,
    input: &[u8],
    offset: u64,
    code_address: &mut u64,
    entries: &mut [JitDebugEntry],
    count: &mut u64,
) -> u32
    ensures { IsCodeOf result (λ s. ReadsJitDebugInfo input.now offset entries.old
        (record { code_address = code_address.new; count = count.new; status = s }) entries.new) }
{
    let outcome = jit_debug::jit_debug_info(alloc, input, offset, entries);
    *code_address = outcome.code_address;
    *count = outcome.count;
    outcome.status.code()
}

/// Writes the text of a mangled name, as `Demangler::demangle` makes it: without parameters for style 0, with
/// them for all other numbers. `size` is that of the whole text, and 0 for a name without a text.
#[unsafe(no_mangle)]
pub extern "C" fn dewikura_demangle(
    alloc: Global,
    name: &[u8],
    style: u32,
    text: &mut [u8],
    size: &mut u64,
) -> u32
    ensures written { IsCodeOf result (λ s. Demangles name.now text.old size.new s text.new) }
    ensures mangled { (¬ IsMangled name.now) → (size.new ≡ 0) × (result ≡ 0) }
    ensures long { 16384 < length name.now → (size.new ≡ 0) × (result ≡ 0) }
{
    let outcome = demangling::demangle(alloc, name, style_from_number(style), text);
    *size = outcome.size;
    outcome.status.code()
}

/// Returns whether a pipe has tracing data, as `tracing_data::check_tracing_data` does.
#[unsafe(no_mangle)]
pub extern "C" fn dewikura_check_tracing_data(alloc: Global, input: &[u8]) -> u32
    ensures { (result ≡ 0) ⊎ (result ≡ 28) }
{
    tracing_data::check_tracing_data(alloc, input).code()
}

/// Writes the symbols of an ELF file, as `ElfFile::symbols` reads them. `count` is the number of all of them.
/// Of the symbols that contain an offset the last one is preferred.
#[unsafe(no_mangle)]
pub extern "C" fn dewikura_read_elf_symbols(
    alloc: Global,
    file: &[u8],
    symbols: &mut [ElfSymbol],
    count: &mut u64,
) -> u32
    ensures failed { result ≢ 0 → count.new ≡ 0 }
{
    let outcome = elf_files::elf_symbols(alloc, file, symbols);
    *count = outcome.count;
    outcome.status.code()
}

/// Writes the build id of an ELF file, as `ElfFile::build_id` reads it. `id_size` is its size in bytes, and 0
/// for a file without one.
#[unsafe(no_mangle)]
pub extern "C" fn dewikura_elf_build_id(
    alloc: Global,
    file: &[u8],
    id: &mut [u8],
    id_size: &mut u64,
) -> u32
    ensures failed { result ≢ 0 → id_size.new ≡ 0 }
{
    let outcome = elf_files::elf_build_id(alloc, file, id);
    *id_size = outcome.count;
    outcome.status.code()
}
