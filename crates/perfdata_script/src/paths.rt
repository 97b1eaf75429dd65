//! The files of frames as perf names them, and addresses in them.

use crate::layout::UNKNOWN;
use code_files::mapping_names::{base_name, is_anonymous, is_generated, path_without_symbol};
use perfdata_events::call_chain::CallContext;
use perfdata_spaces::mapping::Mapping;
use std::alloc::AllocError;
use std::io::Write;

// What the name of a kernel module's file ends with, before that of its compression.
const MODULE_SUFFIX: &[u8] = b".ko";

// What the names of compressed modules end with.
const COMPRESSIONS: [&[u8]; 4] = [b".gz", b".xz", b".zst", b".lzma"];

// Returns the name of a kernel module by the path of its file.
fn module_name(path: &[u8]) -> Option<&[u8]> {
    let name = base_name(path);
    let mut suffixes = COMPRESSIONS.iter();
    let plain = suffixes.find_map(|suffix| name.strip_suffix(*suffix));
    plain.unwrap_or(name).strip_suffix(MODULE_SUFFIX)
}

// Appends the name of a kernel module in brackets, with underscores for its dashes.
fn push_module(text: &mut Vec<u8>, name: &[u8]) -> Result<(), AllocError> {
    text.push(b'[')?;
    for byte in name {
        text.push(if *byte == b'-' { b'_' } else { *byte })?;
    }
    Ok(text.push(b']')?)
}

/// Appends the path of what is mapped at a frame as perf names it: that of executable memory without a file
/// is that of the process's map file, and a kernel module has its name in brackets.
///
/// Fails if memory runs out.
pub fn push_path(
    text: &mut Vec<u8>,
    mapping: Option<&Mapping>,
    context: CallContext,
) -> Result<(), AllocError> {
    let Some(mapping) = mapping else {
        return text.extend_from_slice(UNKNOWN);
    };
    let path = path_without_symbol(mapping);
    if context != CallContext::User {
        match module_name(path) {
            Some(name) => push_module(text, name),
            None => text.extend_from_slice(path),
        }
    } else if is_generated(mapping) {
        write!(text, "/tmp/perf-{}.map", mapping.pid).map_err(|_| AllocError)
    } else {
        text.extend_from_slice(path)
    }
}

/// Returns the address that the text of a frame in a chain has: of user code the offset in the file, modulo
/// 2^64, of memory without a file and of the kernel the address itself.
pub fn file_address(address: u64, mapping: Option<&Mapping>, context: CallContext) -> u64 {
    match mapping {
        Some(mapping) if context == CallContext::User && !is_anonymous(mapping) => {
            mapping.file_offset(address)
        }
        _ => address,
    }
}
