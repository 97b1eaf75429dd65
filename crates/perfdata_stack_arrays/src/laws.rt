//! Laws of the stacks of recordings.
ghost use Rattle.perfdata_stack_arrays.specs.Laws.{NamesTextOf, ReturnsRecordsOnce};

/// Among the records in order of time each record that the iterator over the input returns comes once, or is
/// still held.
pub fn records()
    ensures { ReturnsRecordsOnce }
{}

/// A name or a path that is in the text of records is at the same offset in the text of these and more.
pub fn text()
    ensures { NamesTextOf }
{}
