//! The texts of names.

use code_files::mapping_names::{
    KERNEL_PATH, base_name, is_anonymous, is_generated, path_without_symbol,
};
use perfdata_spaces::mapping::Mapping;
use perfdata_stacks::line::push_name;
use std::alloc::AllocError;
use std::io::Write;

// The name of the kernel without symbols.
const KERNEL_NAME: &[u8] = b"[kernel]";

// Appends the path of a mapping's file, or in brackets what is no file.
pub(crate) fn push_path(text: &mut Vec<u8>, mapping: &Mapping) -> Result<(), AllocError> {
    let path = path_without_symbol(mapping);
    let is_path = path.starts_with(b"/") && !is_anonymous(mapping);
    if is_path || path.starts_with(b"[") {
        text.extend_from_slice(path)
    } else {
        push_file_name(text, mapping)
    }
}

// Appends the name of a mapping's file in brackets, a recorded name in brackets, or that of the process's map
// file for executable memory without a file and without such a name.
pub(crate) fn push_file_name(text: &mut Vec<u8>, mapping: &Mapping) -> Result<(), AllocError> {
    let path = path_without_symbol(mapping);
    if path == KERNEL_PATH {
        return text.extend_from_slice(KERNEL_NAME);
    }
    if path.starts_with(b"[") {
        return push_name(text, path);
    }
    if is_generated(mapping) {
        return write!(text, "[perf-{}.map]", mapping.pid).map_err(|_| AllocError);
    }
    text.push(b'[')?;
    push_name(text, base_name(path))?;
    text.push(b']')?;
    Ok(())
}

// Appends the path of a mapping's file as perf names it: for executable memory without a file it is that of
// the process's map file.
pub(crate) fn push_mapped_path(text: &mut Vec<u8>, mapping: &Mapping) -> Result<(), AllocError> {
    if is_generated(mapping) {
        write!(text, "/tmp/perf-{}.map", mapping.pid).map_err(|_| AllocError)
    } else {
        push_name(text, path_without_symbol(mapping))
    }
}

// Appends the name of a mapping's file, without its directories. That of the kernel is `[kernel]`.
pub(crate) fn push_base_name(text: &mut Vec<u8>, mapping: &Mapping) -> Result<(), AllocError> {
    if is_generated(mapping) {
        return write!(text, "[perf-{}.map]", mapping.pid).map_err(|_| AllocError);
    }
    let name = base_name(path_without_symbol(mapping));
    if name.starts_with(b"[kernel.kallsyms]") {
        return text.extend_from_slice(b"[kernel]");
    }
    push_name(text, name)
}
