//! What the paths of mappings say: their names, and which memory has no file.

use perfdata_spaces::mapping::{Mapping, PROTECTION_EXEC};

/// The path of the kernel's own mapping, which the name of a symbol follows.
pub const KERNEL_PATH: &[u8] = b"[kernel.kallsyms]";

/// The path of the mapping of the code that the kernel gives to each process.
pub const VDSO_PATH: &[u8] = b"[vdso]";

// The flag of a mapping of huge pages (`MAP_HUGETLB`).
const MAP_HUGETLB: u32 = 0x40000;

// The paths of memory without a file, or their starts.
const MEMORY_PATHS: [&[u8]; 6] = [
    b"//anon",
    b"/dev/zero",
    b"/anon_hugepage",
    b"[stack",
    b"/SYSV",
    b"[heap]",
];

/// Returns the part of a path after its last slash.
pub fn base_name(path: &[u8]) -> &[u8] {
    match path.iter().rposition(|byte| *byte == b'/') {
        Some(at) => path.get(at.saturating_add(1)..).unwrap_or(path),
        None => path,
    }
}

/// Returns whether a mapping is memory without a file.
pub fn is_anonymous(mapping: &Mapping) -> bool {
    let path = mapping.path.as_slice();
    mapping.flags & MAP_HUGETLB != 0 || MEMORY_PATHS.iter().any(|start| path.starts_with(*start))
}

/// Returns whether a mapping is executable memory without a file.
pub fn is_generated(mapping: &Mapping) -> bool {
    mapping.protection & PROTECTION_EXEC != 0 && is_anonymous(mapping)
}

/// Returns the path of a mapping. That of the kernel loses the symbol that follows it.
pub fn path_without_symbol(mapping: &Mapping) -> &[u8] {
    let path = mapping.path.as_slice();
    if path.starts_with(KERNEL_PATH) {
        KERNEL_PATH
    } else {
        path
    }
}
