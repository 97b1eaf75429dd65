//! The statuses of calls on the start of an input, and the texts of all statuses.
ghost use Rattle.std.specs.Prelude.{◌≡◌, ◌≢◌, ◌-◌, ◌++◌, ◌∷◌, [], length, take};
ghost use Rattle.linux_perf_data.specs.RecordEntries.{with_prefix};
ghost use Rattle.perfdata_arrays.specs.Status.{code_text};
ghost use Rattle.perfdata_chunks.specs.Chunks.{more_text, start_status_code};

use perfdata_arrays::array::{copy_prefix, write_entry};
use perfdata_arrays::status;
use perfdata_arrays::status::Status;

/// The status of a call on the start of an input.
#[derive(Clone, Copy, Debug, PartialEq, Eq)]
pub enum StartStatus {
    /// Success, or the first error.
    Known(Status),

    /// The bytes so far don't say it yet.
    More,
}

// The code of `StartStatus::More`.
const MORE: u32 = 29;

impl StartStatus {
    /// Returns the code of the status.
    pub fn code(self) -> u32
        ensures { result ≡ start_status_code self }
    {
        match self {
            StartStatus::Known(status) => status.code(),
            StartStatus::More => MORE,
        }
    }
}

// The text of `StartStatus::More`.
#[tactic(auto, unfolding(crate::specs::Chunks::more_text))]
fn text_of_more() -> &'static str
    ensures { result.now ≡ more_text }
{
    "more bytes of the input are needed"
}

// Writes a text and a NUL over the start of a buffer. The text is truncated to the buffer's capacity.
fn write_c_text(buf: &mut [u8], text: &[u8])
    ensures { buf.new ≡ with_prefix (take (length buf.old - 1) text.now ++ 0 ∷ []) buf.old }
{
    let count = text.len().min(buf.len().saturating_sub(1));
    copy_prefix(buf, &text[..count]);
    write_entry(buf, count, 0);
}

/// Writes the text of a status code into `buf`, with a NUL after it, as
/// `perfdata_arrays::status::status_text` does. Returns the size of the text in bytes.
pub fn status_text(code: u32, buf: &mut [u8]) -> usize
    ensures size { code ≢ 29 → result ≡ length (code_text code) }
    ensures written { code ≢ 29 → buf.new
        ≡ with_prefix (take (length buf.old - 1) (code_text code) ++ 0 ∷ []) buf.old }
    ensures size_of_more { code ≡ 29 → result ≡ length more_text }
    ensures more { code ≡ 29 → buf.new
        ≡ with_prefix (take (length buf.old - 1) more_text ++ 0 ∷ []) buf.old }
{
    if code != MORE {
        return status::status_text(code, buf);
    }
    let text = text_of_more().as_bytes();
    write_c_text(buf, text);
    text.len()
}
