//! Jitdump files, which runtimes with just-in-time compilers write beside a profile: their records, and a
//! reader that works while a file grows and loses no bytes.
#![tactic(auto)]

pub mod buffered_reader;
pub mod error;
pub mod header;
pub mod jitdump_reader;
pub mod laws;
mod read_buffer;
pub mod read_until_eof;
pub mod record;
pub mod records;
mod ring;

pub use buffered_reader::BufferedReader;
pub use error::JitDumpError;
pub use header::JitDumpHeader;
pub use jitdump_reader::{DEFAULT_BUFFER_SIZE, JitDumpReader};
pub use read_until_eof::ReadExactOrUntilEof;
pub use record::{JitDumpRawRecord, JitDumpRecord, JitDumpRecordHeader, JitDumpRecordType};
pub use records::{
    JitCodeDebugInfoEntry, JitCodeDebugInfoRecord, JitCodeLoadRecord, JitCodeMoveRecord,
    JitCodeUnwindingInfoRecord,
};
