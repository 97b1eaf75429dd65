//! Laws of the pages of a file: a chain of calls writes what one call with arrays for all of it writes.
ghost use Rattle.perfdata_arrays.specs.Counters.{counter_kind};
ghost use Rattle.perfdata_arrays.specs.DecodedChains.{ChainIsOneDecodedPage, DecodedCallIsUnique};
ghost use Rattle.perfdata_arrays.specs.DecodedChains.{EntriesAreUnique, EntriesJoin};
ghost use Rattle.perfdata_arrays.specs.Mappings.{mapping_kind};
ghost use Rattle.perfdata_arrays.specs.PageChains.{ChainIsOnePage};
ghost use Rattle.perfdata_arrays.specs.Pages.{PageIsUnique, PagesJoin};
ghost use Rattle.perfdata_arrays.specs.SampleRecords.{sample_kind};
ghost use Rattle.perfdata_arrays.specs.Tasks.{task_kind};

/// A full page and the page from its end on are one page of an array for both.
pub fn pages_join()
    ensures { PagesJoin }
{}

/// The records of a page, its status and its next position are determined by its position and its capacity.
/// Pages with fewer records than their capacities are the same whatever the capacities are.
pub fn page_is_unique()
    ensures { PageIsUnique }
{}

/// A chain of calls of `file_records` writes the same entries as one call with capacity for them, and ends at
/// the same position.
///
/// Each call begins at the position that the call before it moved. All but the last succeed and fill their
/// arrays, and the last writes fewer entries than its array has elements. If the one call has capacity for
/// more, it has the status of the last call. Memory doesn't run out in the last call or in the one call.
pub fn chain_is_one_page()
    ensures { ChainIsOnePage }
{}

/// The samples up to a position and the samples from there on are the samples of the records of both. The
/// frames of the later samples follow those of the first.
pub fn samples_join()
    ensures { EntriesJoin sample_kind }
{}

/// The samples from a position on and their frames are determined by the number of samples.
pub fn samples_are_unique()
    ensures { EntriesAreUnique sample_kind }
{}

/// What a call of `file_samples` returns and writes is determined by its position and the capacities of its
/// arrays, unless memory runs out.
pub fn sample_page_is_unique()
    ensures { DecodedCallIsUnique sample_kind }
{}

/// A chain of calls of `file_samples` writes the same samples and frames as one call with capacity for them.
///
/// Each call begins at the position that the call before it moved, with arrays of any capacities; all have
/// elements for frames, or none has. `frames_start` of a sample counts the frames of the calls before it. The
/// array of the one call has as many elements as the chain writes samples, or more if the last call finds the
/// end of the records: then the one call has its status. Memory doesn't run out in the one call, nor in a
/// last call that finds the end.
pub fn chain_is_one_sample_page()
    ensures { ChainIsOneDecodedPage sample_kind }
{}

/// A chain of calls of `file_tasks` writes the same entries as one call with capacity for them.
///
/// Each call begins at the position that the call before it moved, with an array of any capacity. The array
/// of the one call has as many elements as the chain writes entries, or more if the last call finds the end
/// of the records: then the one call has its status. Memory doesn't run out in the one call, nor in a last
/// call that finds the end.
pub fn chain_is_one_task_page()
    ensures { ChainIsOneDecodedPage task_kind }
{}

/// A chain of calls of `file_mappings` writes the same entries as one call with capacity for them, as for
/// `file_tasks`.
pub fn chain_is_one_mapping_page()
    ensures { ChainIsOneDecodedPage mapping_kind }
{}

/// A chain of calls of `file_counters` writes the same counters as one call with capacity for them, as for
/// `file_tasks`. A call that finds the end has the status of an error, or writes no counter although its
/// array has elements.
pub fn chain_is_one_counter_page()
    ensures { ChainIsOneDecodedPage counter_kind }
{}
