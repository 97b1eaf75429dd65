//! Lists the records of an input in memory in order of time.
ghost use Rattle.perfdata_listing.specs.ByTime.{ListsByTime};
ghost use Rattle.perfdata_listing.specs.steps.ByTime.{ListsNextByTime};

use crate::list::{ListCause, ListFault, write_record};
use linux_perf_data::PerfFile;
use linux_perf_data::in_memory::InMemoryReader;
use perfdata_listing_lines::line_format::LineFormat;
use perfdata_order::in_memory::InMemoryOrderedRecords;
use std::alloc::Global;
use std::io::Write;

// Writes the line of the next record in order of time. Returns whether there is one.
fn list_next<L: LineFormat, W: Write>(
    records: &mut InMemoryOrderedRecords<'_>,
    perf_file: &mut PerfFile,
    line: &mut L,
    out: &mut W,
) -> Result<bool, ListCause>
    ensures { ListsNextByTime L.is_line L.allocates records.old perf_file.old (W.contents out.old) result
        (W.contents out.new) records.new perf_file.new }
{
    match records.next_record(perf_file) {
        Ok(Some((place, record))) => {
            write_record(place, &record, perf_file, line, out)?;
            Ok(true)
        }
        Ok(None) => Ok(false),
        Err(error) => Err(ListCause::Perf(error)),
    }
}

/// Writes the lines of all records in order of time, in the format of `line`. Returns their number.
///
/// On an error `lines` is the number of complete lines that are written. If the input has an error, the lines
/// of all records before it are written.
pub fn list_by_time<L: LineFormat, W: Write>(
    alloc: Global,
    reader: InMemoryReader<'_>,
    line: &mut L,
    out: &mut W,
) -> Result<u64, ListFault>
    ensures { ListsByTime L.is_line L.allocates reader.entry.records reader.entry.perf_file
        (W.contents out.old) result (W.contents out.new) }
{
    let mut perf_file = reader.perf_file;
    let mut records = InMemoryOrderedRecords::new(alloc, reader.records);
    let mut lines = 0u64;
    'records: loop {
        match list_next(&mut records, &mut perf_file, line, out) {
            Ok(true) => lines += 1,
            Ok(false) => return Ok(lines),
            Err(cause) => return Err(ListFault { lines, cause }),
        }
    }
}
