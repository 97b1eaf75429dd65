//! Jitdump files, which the runtimes of just-in-time compilers write beside a profile, usually as
//! `jit-PID.dump`.
//!
//! A jitdump file has a header and records. The records describe code that is generated or moved, the source
//! locations of the code, and its unwinding information.
pub use perfdata_jit::buffered_reader::BufferedReader;
pub use perfdata_jit::error::JitDumpError;
pub use perfdata_jit::header::JitDumpHeader;
pub use perfdata_jit::jitdump_reader::{DEFAULT_BUFFER_SIZE, JitDumpReader};
pub use perfdata_jit::read_until_eof::ReadExactOrUntilEof;
pub use perfdata_jit::record::{
    JitDumpRawRecord, JitDumpRecord, JitDumpRecordHeader, JitDumpRecordType,
};
pub use perfdata_jit::records::{
    JitCodeDebugInfoEntry, JitCodeDebugInfoRecord, JitCodeLoadRecord, JitCodeMoveRecord,
    JitCodeUnwindingInfoRecord,
};
