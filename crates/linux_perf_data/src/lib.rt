//! Reads `perf.data` files and pipes of Linux perf and Android simpleperf, and jitdump files.
//!
//! [`PerfFileReader`] consists of the metadata of the input ([`PerfFile`]) and an iterator over its records
//! ([`PerfRecordIter`]). The iterator returns each record with its [`RecordPlace`], and a kernel record also
//! with the index of its event's attribute:
//!
//! ```
//! use linux_perf_data::source::Counted;
//! use linux_perf_data::{PerfFileReader, PerfFileRecord};
//! use std::fs::File;
//! use std::io::BufReader;
//!
//! fn print_types(rt: &HostRuntime, path: &str) -> anyhow::Result<()> {
//!     let file = BufReader::new(rt.alloc(), File::open(rt, path)?)?;
//!     let reader = PerfFileReader::parse_file(rt.alloc(), Counted::new(file))?;
//!     let mut perf_file = reader.perf_file;
//!     let mut records = reader.record_iter;
//!     for _ in 0..u64::MAX {
//!         let Some((place, record)) = records.next_record(&mut perf_file)? else {
//!             break;
//!         };
//!         if let PerfFileRecord::EventRecord { event, .. } = record {
//!             println!(rt; "{}: type {}", place.offset, event.record_type.0)?;
//!         }
//!     }
//!     Ok(())
//! }
//! ```
//!
//! [`PerfFileReader::parse_pipe`] opens a pipe. The module [`jitdump`] contains the reader of jitdump files.
#![tactic(auto)]

pub mod attr;
mod attributes;
mod file;
pub mod file_reader;
pub mod in_memory;
pub mod input_kind;
pub mod jitdump;
pub mod laws;
mod metadata_records;
pub mod perf_file;
mod pipe;
mod records;
pub mod truncation;

pub use file_reader::{PerfFileReader, PerfItem, PerfRecordIter, RecordPlace};
pub use input_kind::InputKind;
pub use perf_file::PerfFile;
pub use perfdata_base::features::{Feature, FeatureSet, FeatureSetIter};
pub use perfdata_base::raw::Endianness;
pub use perfdata_base::{event, features, header, place, raw, section, source};
pub use perfdata_records::auxtrace::Auxtrace;
pub use perfdata_records::dso_info::DsoInfo;
pub use perfdata_records::dso_key::DsoKey;
pub use perfdata_records::record::{
    HeaderAttr, HeaderFeature, PerfFileRecord, RawUserRecord, UserRecord, UserRecordType,
};
pub use perfdata_records::thread_map::ThreadMap;
pub use perfdata_records::{auxtrace, build_id_event, dso_info, dso_key, record, thread_map};
pub use perfdata_sections::error::{Error, ReadError};
pub use perfdata_sections::feature_sections::{
    AttributeDescription, CompressionInfo, NrCpus, SampleTimeRange,
};
pub use perfdata_sections::{constants, error, feature_sections};
pub use perfdata_simpleperf::simpleperf::{
    SimpleperfDexFileInfo, SimpleperfElfFileInfo, SimpleperfFileRecord, SimpleperfKernelModuleInfo,
    SimpleperfSymbol, SimpleperfTypeSpecificInfo, simpleperf_dso_type,
};
pub use perfdata_simpleperf::{protobuf, simpleperf};
