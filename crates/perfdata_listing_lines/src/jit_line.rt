//! The line of a record of a jitdump file.
ghost use Rattle.std.specs.Prelude.{◌≡◌};
ghost use Rattle.perfdata_listing_lines.specs.LineText.{text_of};
ghost use Rattle.perfdata_listing_lines.specs.ListingLine.{raw_record_text};

use crate::line::ListingLine;
use linux_perf_data::jitdump::JitDumpRawRecord;

/// Sets the line to that of a record.
pub fn format_line(line: &mut ListingLine, raw: &JitDumpRawRecord<'_>)
    ensures { text_of line.new ≡ raw_record_text raw.now }
{
    line.set_jit_record(
        raw.start_offset,
        raw.timestamp,
        raw.record_type.0,
        raw.record_size as u64,
    );
}
