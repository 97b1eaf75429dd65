//! The bytes of recordings that `perf record -z` made, as they were without `-z`.
//!
//! Such a recording has compressed records (types 81 and 83), which are pieces of one zstd stream, whose
//! content is kernel records. A reader over the bytes of a recording returns the bytes of a recording without
//! compressed records, which each reader of recordings reads.
#![tactic(auto)]

mod content;
mod data_section;
mod error;
mod file;
mod file_layout;
mod kept_records;
mod pipe;
mod plain_records;
mod record_step;

pub use content::ContentEnd;
pub use error::CompressedError;
pub use file::{DecompressedFile, is_compressed_file};
pub use pipe::DecompressedPipe;
