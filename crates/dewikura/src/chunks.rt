//! C exports of the calls of `perfdata_chunks`.
ghost use Rattle.std.specs.Prelude.{◌≡◌, ◌≢◌, ◌≤◌, Option, length};
ghost use Rattle.std.specs.Option.{unwrap_or};
ghost use Rattle.dewikura.specs.Numbers.{endian_from};
ghost use Rattle.perfdata_arrays.specs.Status.{IsCodeOf};
ghost use Rattle.perfdata_arrays.specs.declared.status.Status.TheVariants.{Success};
ghost use Rattle.perfdata_chunks.specs.Chunks.{ReadsChunk, start_status_code};
ghost use Rattle.perfdata_chunks.specs.Common.{ReadsCommon};
ghost use Rattle.perfdata_chunks.specs.Events.{ReadsEvent};
ghost use Rattle.perfdata_chunks.specs.InputErrors.{FindsError, no_error};
ghost use Rattle.perfdata_chunks.specs.Numbers.{ReadsNumbers, ReadsPmu};
ghost use Rattle.perfdata_chunks.specs.declared.input_errors.InputError.{InputError};
ghost use Rattle.perfdata_chunks.specs.declared.status.StartStatus.{StartStatus};
ghost use Rattle.perfdata_chunks.specs.declared.status.StartStatus.TheVariants.{Known};

use crate::endian_from_flag;
use linux_perf_data::in_memory::entries::RecordEntry;
use linux_perf_data::in_memory::position::RecordPosition;
use perfdata_arrays::attrs::Attr;
use perfdata_arrays::counters::CounterEntry;
use perfdata_arrays::jit::JitRecord;
use perfdata_arrays::mappings::MappingEntry;
use perfdata_arrays::samples::frame::FrameEntry;
use perfdata_arrays::samples::sample::Sample;
use perfdata_arrays::tasks::TaskEntry;
use perfdata_chunks::common::Common;
use perfdata_chunks::input_errors::InputError;
use perfdata_chunks::numbers::Pmu;
use perfdata_chunks::opening::Opening;
use perfdata_chunks::{
    common, events, input_errors, jit_records, late_attr, numbers, opening, records,
};
use std::alloc::Global;

/// Reads the records of a chunk, as `records::chunk_records` does.
#[unsafe(no_mangle)]
pub extern "C" fn dewikura_read_chunk_records(
    alloc: Global,
    chunk: &[u8],
    is_big_endian: u32,
    attrs: &[Attr],
    ids: &[u64],
    cursor: &mut RecordPosition,
    entries: &mut [RecordEntry],
    count: &mut u64,
    consumed: &mut u64,
) -> u32
    ensures { IsCodeOf result (λ s. ReadsChunk (endian_from is_big_endian) chunk.now attrs.now cursor.old
        entries.old (record { count = count.new; consumed = consumed.new; status = s }) cursor.new
        entries.new) }
{
    let endian = endian_from_flag(is_big_endian);
    let outcome = records::chunk_records(alloc, endian, chunk, attrs, ids, cursor, entries);
    *count = outcome.count;
    *consumed = outcome.consumed;
    outcome.status.code()
}

/// Reads the body of a record, as `events::read_event` does.
#[unsafe(no_mangle)]
pub extern "C" fn dewikura_read_event(
    chunk: &[u8],
    is_big_endian: u32,
    attrs: &[Attr],
    entry: &RecordEntry,
    sample: &mut Sample,
    frames: &mut [FrameEntry],
    frames_count: &mut u64,
    task: &mut TaskEntry,
    mapping: &mut MappingEntry,
    counters: &mut [CounterEntry],
    counters_count: &mut u64,
) -> u32
    ensures { IsCodeOf result (λ s. ReadsEvent (endian_from is_big_endian) chunk.now attrs.now entry.now
        (record {
          sample = sample.old;
          frames = frames.old;
          task = task.old;
          mapping = mapping.old;
          counters = counters.old;
        })
        (record { frames_count = frames_count.new; counters_count = counters_count.new; status = s })
        (record {
          sample = sample.new;
          frames = frames.new;
          task = task.new;
          mapping = mapping.new;
          counters = counters.new;
        })) }
{
    let endian = endian_from_flag(is_big_endian);
    let outcome = events::read_event(
        endian, chunk, attrs, entry, sample, frames, task, mapping, counters,
    );
    *frames_count = outcome.frames_count;
    *counters_count = outcome.counters_count;
    outcome.status.code()
}

/// Reads who wrote a record, when and where, as `common::read_common` does.
#[unsafe(no_mangle)]
pub extern "C" fn dewikura_read_common(
    chunk: &[u8],
    is_big_endian: u32,
    attrs: &[Attr],
    entry: &RecordEntry,
    common: &mut Common,
) -> u32
    ensures { IsCodeOf result (λ s. ReadsCommon (endian_from is_big_endian) chunk.now attrs.now entry.now
        common.old s common.new) }
{
    common::read_common(endian_from_flag(is_big_endian), chunk, attrs, entry, common).code()
}

/// Reads the attribute in a record of a pipe, as `late_attr::late_attr` does.
#[unsafe(no_mangle)]
pub extern "C" fn dewikura_read_late_attr(
    alloc: Global,
    body: &[u8],
    is_big_endian: u32,
    ids_start: u64,
    attr: &mut Attr,
    ids: &mut [u64],
    ids_count: &mut u64,
) -> u32
    ensures failed { IsCodeOf result (λ s. s ≢ Success → ids_count.new ≡ 0) }
    ensures unchanged { IsCodeOf result (λ s. s ≢ Success → attr.new ≡ attr.old) }
{
    let endian = endian_from_flag(is_big_endian);
    let outcome = late_attr::late_attr(alloc, endian, body, ids_start, attr, ids);
    *ids_count = outcome.ids_count;
    outcome.status.code()
}

/// Finds the records of an input, as `opening::read_opening` does.
#[unsafe(no_mangle)]
pub extern "C" fn dewikura_read_opening(start: &[u8], opening: &mut Opening) -> u32
    ensures { (s : StartStatus) × (result ≡ start_status_code s) × (s ≢ Known Success → opening.new
        ≡ opening.old) }
{
    opening::read_opening(start, opening).code()
}

/// Reads the records of a chunk of a jitdump, as `jit_records::jit_chunk_records` does.
#[unsafe(no_mangle)]
pub extern "C" fn dewikura_read_jit_chunk(
    chunk: &[u8],
    is_big_endian: u32,
    offset: u64,
    entries: &mut [JitRecord],
    count: &mut u64,
    consumed: &mut u64,
    has_next: &mut u8,
    next: &mut JitRecord,
) -> u32
    ensures counted { count.new ≤ length entries.old }
    ensures within { consumed.new ≤ length chunk.now }
{
    let endian = endian_from_flag(is_big_endian);
    let outcome = jit_records::jit_chunk_records(endian, chunk, offset, entries, next);
    *count = outcome.count;
    *consumed = outcome.consumed;
    *has_next = outcome.has_next;
    outcome.status.code()
}

/// Reads the numbers of a feature section, as `numbers::read_numbers` does.
#[unsafe(no_mangle)]
pub extern "C" fn dewikura_read_numbers(
    section: &[u8],
    feature: u32,
    is_big_endian: u32,
    numbers: &mut [u64],
    count: &mut u64,
) -> u32
    ensures { IsCodeOf result (λ s. ReadsNumbers (endian_from is_big_endian) feature section.now numbers.old
        (record { count = count.new; status = s }) numbers.new) }
{
    let endian = endian_from_flag(is_big_endian);
    let outcome = numbers::read_numbers(endian, section, feature, numbers);
    *count = outcome.count;
    outcome.status.code()
}

/// Reads a unit of the section PMU_MAPPINGS, as `numbers::read_pmu` does.
#[unsafe(no_mangle)]
pub extern "C" fn dewikura_read_pmu(
    section: &[u8],
    is_big_endian: u32,
    offset: u64,
    pmu: &mut Pmu,
) -> u32
    ensures { IsCodeOf result (λ s. ReadsPmu (endian_from is_big_endian) section.now offset pmu.old s
        pmu.new) }
{
    numbers::read_pmu(endian_from_flag(is_big_endian), section, offset, pmu).code()
}

/// Reads the first error of an input in numbers, as `input_errors::read_error` does.
#[unsafe(no_mangle)]
pub extern "C" fn dewikura_read_error(alloc: Global, input: &[u8], error: &mut InputError) -> u32
    ensures found { (found : Option InputError) × FindsError input.now found × (error.new
        ≡ unwrap_or found no_error) }
    ensures status { result ≡ error.new.status }
{
    input_errors::read_error(alloc, input, error)
}
