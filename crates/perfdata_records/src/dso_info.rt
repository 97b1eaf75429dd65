//! Path and build id of a mapped object.

/// The path of a mapped object and its build id, as in the section BUILD_ID of a perf.data file.
#[derive(Debug, PartialEq, Eq, Hash, Drop)]
pub struct DsoInfo {
    /// The path, or a name such as `[vdso]` for an object without a file.
    pub path: Vec<u8>,
    /// The build id, of at most 20 bytes.
    pub build_id: Vec<u8>,
}
