//! The text of a mangled name, in an array.
ghost use Rattle.std.specs.Prelude.{◌≡◌, ◌<◌, length};
ghost use Rattle.linux_perf_data.specs.RecordEntries.{with_prefix};
ghost use Rattle.perfdata_arrays.specs.declared.status.Status.TheVariants.{Success};
ghost use Rattle.demangle.specs.Prefix.{IsMangled};
ghost use Rattle.dewikura.specs.Demangling.{Demangles};

use demangle::{Demangler, Style};
use perfdata_arrays::status::Status;
use std::alloc::Global;

// The size of the text of a name and the status of the call.
#[derive(Clone, Copy, Debug, PartialEq, Eq)]
pub(crate) struct TextResult {
    // The size of the whole text in bytes; 0 if the name has none.
    pub(crate) size: u64,
    // Success, or out of memory.
    pub(crate) status: Status,
}

// Copies bytes over the start of an array, up to its capacity.
fn copy_prefix(array: &mut [u8], bytes: &[u8])
    ensures { array.new ≡ with_prefix bytes.now array.old }
{
    let count = array.len().min(bytes.len());
    array[..count].copy_from_slice(&bytes[..count]);
}

// Demangles a name, and writes its text over the start of an array, up to its capacity.
pub(crate) fn demangle(alloc: Global, name: &[u8], style: Style, text: &mut [u8]) -> TextResult
    ensures written { Demangles name.now text.old result.size result.status text.new }
    ensures mangled { (¬ IsMangled name.now) → (result.size ≡ 0) × (result.status ≡ Success) }
    ensures long { 16384 < length name.now → (result.size ≡ 0) × (result.status ≡ Success) }
{
    let mut demangler = Demangler::new(alloc);
    if demangler.demangle(name, style).is_err() {
        return TextResult {
            size: 0,
            status: Status::OutOfMemory,
        };
    }
    let found = demangler.text();
    copy_prefix(text, found);
    TextResult {
        size: found.len() as u64,
        status: Status::Success,
    }
}
