//! The line of a record, in any format.
ghost use Rattle.std.specs.Prelude.{◌≡◌, ℕ, List, Bool, IfErr, IsTrue, OnOk, false};
ghost use Rattle.linux_perf_data.specs.Layout.{RecordView};
ghost use Rattle.linux_perf_data.specs.RecordViews.{record_view_of};
ghost use Rattle.perfdata_sections.specs.declared.error.Error.TheVariants.{Memory};
ghost use Rattle.perfdata_listing_lines.specs.ListingLine.{record_line};
ghost use Rattle.perfdata_listing_lines.specs.LineText.{text_of};
ghost use Rattle.perfdata_listing_lines.specs.ListingLine.{IsPlainLine};
ghost use Rattle.perfdata_listing_lines.specs.steps.ListingLine.{fields_text};

use crate::line::{ListingLine, RecordFields};
use linux_perf_data::{Error, PerfFile, PerfFileRecord, RecordPlace};

/// A line of text that can be set to the line of one record after another.
pub trait LineFormat {
    // What the line of a record may be.
    ghost is_line: { RecordView → List ℕ → Type 0 };

    // Whether setting it needs memory.
    ghost allocates: { Bool };

    // The text of the line, including its newline.
    ghost text: { Self → List ℕ };

    /// Sets it to the line of a record. `perf_file` contains the record's attribute. Fails if memory
    /// runs out.
    fn set(
        &mut self,
        place: RecordPlace,
        record: &PerfFileRecord<'_>,
        perf_file: &PerfFile,
    ) -> Result<(), Error>
        ensures on_ok { OnOk result (is_line (record_view_of place «record».now) (text self.new)) }
        ensures on_error { IfErr result (λ error. IsTrue allocates × (error ≡ Memory)) };

    /// The bytes of the line, including its newline.
    fn as_bytes(&self) -> &[u8]
        ensures { result.now ≡ text self.now };
}

// The fields of a record's line.
#[inline(always)]
fn record_fields(place: RecordPlace, record: &PerfFileRecord<'_>) -> RecordFields
    ensures { fields_text result ≡ record_line (record_view_of place «record».now) }
{
    RecordFields {
        offset: place.offset,
        round: place.round,
        timestamp: place.timestamp,
        attr_index: record.attr_index().map(|index| index as u64),
        record_type: record.record_type().0,
        misc: record.misc(),
        body_length: record.body().len() as u64,
    }
}

impl LineFormat for ListingLine {
    ghost is_line = { IsPlainLine };

    ghost allocates = { false };

    ghost text = { text_of };

    #[inline(always)]
    fn set(
        &mut self,
        place: RecordPlace,
        record: &PerfFileRecord<'_>,
        _file: &PerfFile,
    ) -> Result<(), Error> {
        self.set_record(record_fields(place, record));
        Ok(())
    }

    fn as_bytes(&self) -> &[u8] {
        ListingLine::as_bytes(self)
    }
}
