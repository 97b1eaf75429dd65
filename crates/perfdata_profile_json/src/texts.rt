//! The texts and numbers of a profile as JSON.

use json::Writer;
use perfdata_profile::interned::Interned;
use perfdata_profile::names::NameId;
use std::alloc::{AllocError, Global};
use std::fmt::Write;

/// Writes a text. Bytes that aren't UTF-8 are U+FFFD.
pub(crate) fn write_text(alloc: Global, json: &mut Writer, text: &[u8]) -> Result<(), AllocError> {
    let text = String::from_utf8_lossy(alloc, text)?;
    json.string(text.as_str())
}

/// Writes a name.
pub(crate) fn write_name(
    alloc: Global,
    json: &mut Writer,
    tables: &Interned,
    id: NameId,
) -> Result<(), AllocError> {
    write_text(alloc, json, tables.names.get(id).unwrap_or(&[]))
}

/// Writes the bytes with an id as hexadecimal digits.
pub(crate) fn write_digits(
    alloc: Global,
    json: &mut Writer,
    tables: &Interned,
    id: NameId,
) -> Result<(), AllocError> {
    let digits = hex::encode(alloc, tables.names.get(id).unwrap_or(&[]))?;
    json.string(digits.as_str())
}

/// Writes an address or an offset: a text such as `"0x1f"`, of which every reader of JSON keeps all digits.
pub(crate) fn write_address(
    alloc: Global,
    json: &mut Writer,
    address: u64,
) -> Result<(), AllocError> {
    let mut text = String::new(alloc);
    write!(text, "{address:#x}").map_err(|_| AllocError)?;
    json.string(text.as_str())
}

/// Writes an index, or `null`.
pub(crate) fn write_index(json: &mut Writer, index: Option<usize>) -> Result<(), AllocError> {
    match index {
        Some(index) => json.u64(index as u64),
        None => json.null(),
    }
}

/// Writes the id of a process or thread, or `null`.
pub(crate) fn write_id(json: &mut Writer, id: Option<i32>) -> Result<(), AllocError> {
    match id {
        Some(id) => json.i64(id as i64),
        None => json.null(),
    }
}
