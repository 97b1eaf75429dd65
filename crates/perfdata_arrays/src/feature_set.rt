//! The set of features of a perf.data file or pipe.
ghost use Rattle.std.specs.Prelude.{◌≡◌};
ghost use Rattle.perfdata_arrays.specs.FeatureSets.{AreBitsOf, ReadsFileFeatures, ReadsPipeFeatures};
ghost use Rattle.perfdata_arrays.specs.FeatureSets.{no_features_with};
ghost use Rattle.perfdata_arrays.specs.steps.FeatureSets.{ReadsFeatures};

use crate::metadata::{Metadata, file_metadata, pipe_metadata};
use crate::status::Status;
use perfdata_base::features::FeatureSet;
use std::alloc::Global;

/// A set of features. Feature n is bit n mod 64 of the number with index n div 64.
#[repr(C)]
#[derive(Clone, Copy, Debug, Default, PartialEq, Eq)]
pub struct FeatureBits {
    /// The features 0 to 63.
    pub bits0: u64,
    /// The features 64 to 127.
    pub bits1: u64,
    /// The features 128 to 191.
    pub bits2: u64,
    /// The features 192 to 255.
    pub bits3: u64,
}

const _: () = prove!(size_of::<FeatureBits>() == 32);

/// A set of features and the status of the call.
#[derive(Clone, Copy, Debug, PartialEq, Eq)]
pub struct FeaturesResult {
    /// The features; none if the input doesn't open.
    pub features: FeatureBits,
    /// Success if the input is complete, otherwise the status of the first error.
    pub status: Status,
}

// The numbers of a set.
fn feature_bits(features: FeatureSet) -> FeatureBits
    ensures { AreBitsOf features result }
{
    FeatureBits {
        bits0: features.0[0],
        bits1: features.0[1],
        bits2: features.0[2],
        bits3: features.0[3],
    }
}

// The result of a call that reads no features.
fn no_features(status: Status) -> FeaturesResult
    ensures { result ≡ no_features_with status }
{
    let features = FeatureBits {
        bits0: 0,
        bits1: 0,
        bits2: 0,
        bits3: 0,
    };
    FeaturesResult { features, status }
}

// The features of a recording that was read.
fn features_result(read: Result<Metadata, Status>) -> FeaturesResult
    ensures { ReadsFeatures read result }
{
    match read {
        Ok(metadata) => FeaturesResult {
            features: feature_bits(metadata.perf_file.features()),
            status: metadata.status,
        },
        Err(status) => no_features(status),
    }
}

/// Returns the features of a perf.data file.
///
/// The status is `Success` if the file opens. If it doesn't open, the status is that of the error, and the
/// set is empty.
pub fn file_features(alloc: Global, bytes: &[u8]) -> FeaturesResult
    ensures { ReadsFileFeatures bytes.now result }
{
    features_result(file_metadata(alloc, bytes))
}

/// Returns the features of a perf.data pipe, up to its end or to its first error.
///
/// If the pipe doesn't open, the status is that of the error, and the set is empty.
pub fn pipe_features(alloc: Global, bytes: &[u8]) -> FeaturesResult
    ensures { ReadsPipeFeatures bytes.now result }
{
    features_result(pipe_metadata(alloc, bytes))
}
