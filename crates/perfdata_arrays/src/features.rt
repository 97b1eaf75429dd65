//! The bytes of a feature of a perf.data file or pipe.
ghost use Rattle.std.specs.Prelude.{◌≡◌};
ghost use Rattle.linux_perf_data.specs.PerfFile.{feature_data_in_file};
ghost use Rattle.perfdata_arrays.specs.Features.{CopiesFeature, ReadsFileFeature};
ghost use Rattle.perfdata_arrays.specs.steps.Features.{ReadsFeature};
ghost use Rattle.perfdata_arrays.specs.Features.{ReadsPipeFeature};

use crate::array::copy_prefix;
use crate::metadata::{Metadata, file_metadata, pipe_metadata};
use crate::status::Status;
use linux_perf_data::{Feature, PerfFile};
use std::alloc::Global;

/// The size of a feature and the status of the call.
#[derive(Clone, Copy, Debug, PartialEq, Eq)]
pub struct FeatureResult {
    /// The size of the feature in bytes; 0 if the input doesn't have it.
    pub size: u64,
    /// 1 if the input has the feature, otherwise 0.
    pub is_present: u8,
    /// Success if the input is complete, otherwise the status of the first error.
    pub status: Status,
}

// Copies the bytes of a feature into `buf`, up to its capacity.
fn copy_feature(perf_file: &PerfFile, feature: u32, buf: &mut [u8], status: Status) -> FeatureResult
    ensures status { result.status ≡ status }
    ensures copied { CopiesFeature (feature_data_in_file perf_file.now feature) buf.old result buf.new }
{
    match perf_file.feature_section_data(Feature(feature)) {
        Some(bytes) => {
            copy_prefix(buf, bytes);
            FeatureResult {
                size: bytes.len() as u64,
                is_present: 1,
                status,
            }
        }
        None => FeatureResult {
            size: 0,
            is_present: 0,
            status,
        },
    }
}

// Copies the bytes of a feature of a recording that was read into `buf`, up to its capacity.
fn feature_result(read: Result<Metadata, Status>, feature: u32, buf: &mut [u8]) -> FeatureResult
    ensures { ReadsFeature read feature buf.old result buf.new }
{
    match read {
        Ok(metadata) => copy_feature(&metadata.perf_file, feature, buf, metadata.status),
        Err(status) => FeatureResult {
            size: 0,
            is_present: 0,
            status,
        },
    }
}

/// Copies the bytes of a feature of a perf.data file into `buf`, up to its capacity.
///
/// The status is `Success` if the file opens. If it doesn't open, the status is that of the error, `size` is
/// 0 and `buf` is unchanged.
pub fn file_feature(alloc: Global, bytes: &[u8], feature: u32, buf: &mut [u8]) -> FeatureResult
    ensures { ReadsFileFeature bytes.now feature buf.old result buf.new }
{
    feature_result(file_metadata(alloc, bytes), feature, buf)
}

/// Copies the bytes of a feature of a perf.data pipe into `buf`, up to its capacity.
///
/// Reads the pipe to its end or to its first error, and uses the last bytes of the feature up to there. If
/// the pipe doesn't open, the status is that of the error, `size` is 0 and `buf` is unchanged.
pub fn pipe_feature(alloc: Global, bytes: &[u8], feature: u32, buf: &mut [u8]) -> FeatureResult
    ensures { ReadsPipeFeature bytes.now feature buf.old result buf.new }
{
    feature_result(pipe_metadata(alloc, bytes), feature, buf)
}
