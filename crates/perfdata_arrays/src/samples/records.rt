//! A decoder of samples.
ghost use Rattle.std.specs.Prelude.{◌≡◌, ◌<◌, ◌≤◌, ◌^◌, ◌-◌, false, length, min};
ghost use Rattle.linux_perf_data.specs.PerfFile.{attributes_of_file, endian_of_file};
ghost use Rattle.linux_perf_data.specs.RecordViews.{record_view_of};
ghost use Rattle.linux_perf_data.specs.declared.records.iter.RecordPlace.{RecordPlace};
ghost use Rattle.perfdata_arrays.specs.steps.Decoding.{wants};
ghost use Rattle.perfdata_arrays.specs.SampleRecords.{ArePartsOf, frames_of_body, sample_kind};
ghost use Rattle.perfdata_arrays.specs.steps.SampleRecords.{AddsFrames};
ghost use Rattle.perfdata_arrays.specs.steps.SampleRecords.{ExceedsFrames};
ghost use Rattle.perfdata_events.specs.CallChain.{chain_values_of};
ghost use Rattle.perfdata_arrays.specs.Samples.{chain_entries};
ghost use Rattle.perfdata_arrays.specs.Overwrites.{with_entries_at};

use crate::array::write_entry;
use crate::decoder::{EntryCounts, NO_ENTRIES, RecordDecoder};
use crate::formats::format_of_attribute;
use crate::samples::body::SampleBody;
use crate::samples::frame::{FrameEntry, frames_above, write_frames};
use crate::samples::sample::{Sample, SampleEnvelope};
use linux_perf_data::event::RecordType;
use linux_perf_data::raw::RawData;
use linux_perf_data::{PerfFile, PerfFileRecord, RecordPlace};
use perfdata_events::call_chain::CallChain;
use perfdata_events::format::EventFormat;

// The parts of a sample's record.
#[derive(Clone, Copy)]
struct SampleParts<'a> {
    format: EventFormat,
    body: RawData<'a>,
    attr_index: u32,
    misc: u16,
}

// A number, or the greatest of 32 bits if it is greater.
fn saturate(number: usize) -> u32
    ensures { result ≡ min number (2 ^ 32 - 1) }
{
    number.min(u32::MAX as usize) as u32
}

// The parts of a sample's record. `None` for another record.
#[inline(always)]
fn sample_parts<'a>(perf_file: &PerfFile, record: &PerfFileRecord<'a>) -> Option<SampleParts<'a>>
    ensures { (place : RecordPlace) → ArePartsOf (endian_of_file perf_file.now)
        (attributes_of_file perf_file.now) (record_view_of place «record».now) result }
{
    let PerfFileRecord::EventRecord { attr_index, event } = record else {
        return None;
    };
    if event.record_type.0 != RecordType::SAMPLE.0 {
        return None;
    }
    let format = format_of_attribute(perf_file, *attr_index)?;
    Some(SampleParts {
        format,
        body: event.body,
        attr_index: saturate(*attr_index),
        misc: event.misc,
    })
}

// The number of a call chain's frames if they don't fit after `used` elements of an array with this capacity
// and not all are counted, otherwise `None`.
#[inline(always)]
fn exceeding_frames(
    chain: &CallChain<'_>,
    counts_all: bool,
    capacity: usize,
    used: usize,
) -> Option<usize>
    requires { counts_all ≡ false → used ≤ capacity }
    ensures { ExceedsFrames (chain_entries (chain_values_of chain.now)) counts_all capacity used result }
{
    if counts_all {
        return None;
    }
    frames_above(chain, capacity - used)
}

// Writes the frames of a call chain after the first `used` elements of `frames`, up to the capacity, and
// returns their number.
#[inline(always)]
fn append_frames(chain: &CallChain<'_>, frames: &mut [FrameEntry], used: usize) -> usize
    ensures count { result ≡ length (chain_entries (chain_values_of chain.now)) }
    ensures written { frames.new ≡ with_entries_at used (chain_entries (chain_values_of chain.now))
        frames.old }
{
    if used < frames.len() {
        write_frames(chain, &mut frames[used..])
    } else {
        write_frames(chain, &mut [])
    }
}

// Writes the frames of a sample after the first `used` elements of `frames`, and returns their number. If
// they don't fit, and not all are counted, writes none and returns their number as the error.
#[inline(always)]
fn add_frames(
    body: &SampleBody<'_>,
    counts_all: bool,
    frames: &mut [FrameEntry],
    used: usize,
) -> Result<usize, usize>
    requires { counts_all ≡ false → used ≤ length frames.old }
    ensures { AddsFrames (frames_of_body (wants counts_all (length frames.old)) body.now) counts_all used
        frames.old result frames.new }
{
    if !counts_all && frames.is_empty() {
        return Ok(0);
    }
    let SampleBody::Complete(_, Some(chain)) = body else {
        return Ok(0);
    };
    match exceeding_frames(chain, counts_all, frames.len(), used) {
        Some(count) => Err(count),
        None => Ok(append_frames(chain, frames, used)),
    }
}

impl RecordDecoder for Sample {
    type Entry = Sample;

    type Frame = FrameEntry;

    ghost kind = { sample_kind };

    #[inline(always)]
    fn decode(
        perf_file: &PerfFile,
        _base: u64,
        place: RecordPlace,
        record: &PerfFileRecord<'_>,
        counts_all: bool,
        samples: &mut [Sample],
        count: usize,
        frames: &mut [FrameEntry],
        used: usize,
    ) -> Result<EntryCounts, EntryCounts> {
        let Some(parts) = sample_parts(perf_file, record) else {
            return Ok(NO_ENTRIES);
        };
        let body = SampleBody::parse(&parts.format, parts.body);
        match add_frames(&body, counts_all, frames, used) {
            Ok(frames_count) => {
                let envelope = SampleEnvelope {
                    offset: place.offset,
                    attr_index: parts.attr_index,
                    misc: parts.misc,
                    frames_start: used as u64,
                    frames_count: saturate(frames_count),
                };
                write_entry(samples, count, Sample::new(envelope, &parts.format, &body));
                Ok(EntryCounts {
                    entries: 1,
                    frames: frames_count,
                })
            }
            Err(needed) => Err(EntryCounts {
                entries: 0,
                frames: needed,
            }),
        }
    }
}
