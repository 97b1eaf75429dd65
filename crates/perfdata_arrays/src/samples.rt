//! The samples of a perf.data file in pages, and those of a pipe.
ghost use Rattle.std.specs.Prelude.{◌≡◌};
ghost use Rattle.perfdata_arrays.specs.SampleRecords.{ReadsPipeSamples, ReadsSamplePage};

pub mod body;
pub mod details;
pub mod frame;
mod records;
pub mod sample;

use crate::pages::{PageResult, file_page, pipe_page};
use crate::samples::frame::FrameEntry;
use crate::samples::sample::Sample;
use linux_perf_data::in_memory::position::RecordPosition;
use std::alloc::Global;

/// Writes the samples of a perf.data file from a position on and the frames of their call chains, and moves
/// the position past them.
///
/// Writes as many samples as both arrays have capacity for, and reads no record after them. The elements
/// after the last written ones are unchanged. Without elements in `frames`, call chains are left out.
///
/// A call with the moved position writes the samples that follow. If `count` is 0 and the status is
/// `Success`, the file has no more samples, or `samples` has no elements.
///
/// If the call chain of the next sample has more frames than `frames` has elements, the status is `NoSpace`,
/// `frames_count` is their number and the position is that of the sample or of the markers before it.
///
/// The other errors are those of `InMemoryReader::parse_file` and of `InMemoryRecords::next_record`. If the
/// file doesn't open, `count` and `frames_count` are 0 and the position is unchanged. At an error, the
/// position is that of the record in error or of the markers before it: the next call returns the same
/// status, and `count` is 0.
///
/// ```
/// use linux_perf_data::in_memory::position::RecordPosition;
/// use perfdata_arrays::samples::file_samples;
/// use perfdata_arrays::samples::frame::FrameEntry;
/// use perfdata_arrays::samples::sample::Sample;
/// use perfdata_arrays::status::Status;
/// use std::alloc::Global;
///
/// fn samples_through(alloc: Global, bytes: &[u8], start: u64, end: u64) -> Result<u64, Status> {
///     let mut position = RecordPosition {
///         offset: 0,
///         round: 0,
///     };
///     let mut samples = [Sample::default(); 64];
///     let mut frames = [FrameEntry::default(); 1024];
///     let mut found = 0u64;
///     for _ in 0..u64::MAX {
///         let page = file_samples(alloc, bytes, &mut position, &mut samples, &mut frames);
///         if page.status != Status::Success {
///             return Err(page.status);
///         }
///         if page.count == 0 {
///             break;
///         }
///         for sample in samples.iter().take(page.count as usize) {
///             let chain = frames.iter().skip(sample.frames_start as usize);
///             let mut chain = chain.take(sample.frames_count as usize);
///             if chain.any(|frame| frame.address >= start && frame.address < end) {
///                 found = found.saturating_add(1);
///             }
///         }
///     }
///     Ok(found)
/// }
/// ```
pub fn file_samples(
    alloc: Global,
    bytes: &[u8],
    position: &mut RecordPosition,
    samples: &mut [Sample],
    frames: &mut [FrameEntry],
) -> PageResult
    ensures { ReadsSamplePage bytes.now position.old samples.old frames.old result position.new samples.new
        frames.new }
{
    file_page::<Sample>(alloc, bytes, position, samples, frames)
}

/// Writes the samples of a perf.data pipe and the frames of their call chains, each up to the capacity of its
/// array.
///
/// The samples are those of the records after the metadata records that open the pipe. `count` and
/// `frames_count` count all of them. The elements after the last written ones are unchanged. If the pipe
/// doesn't open, both are 0. At an error, they count those of the records before it.
///
/// A pipe is read in one call, because late metadata determine what the records after them belong to.
///
/// The errors are those of `records::pipe_records`.
pub fn pipe_samples(
    alloc: Global,
    bytes: &[u8],
    samples: &mut [Sample],
    frames: &mut [FrameEntry],
) -> PageResult
    ensures { ReadsPipeSamples bytes.now samples.old frames.old result samples.new frames.new }
{
    pipe_page::<Sample>(alloc, bytes, samples, frames)
}
