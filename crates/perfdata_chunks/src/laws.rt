//! Laws of chunks: the records of an input don't depend on how it is cut, and their bodies are decoded by the
//! formats of its attributes.
ghost use Rattle.perfdata_chunks.specs.Chunks.{ChunksJoin, FramesAreUnique};
ghost use Rattle.perfdata_chunks.specs.SingleRecords.{EntriesKeepFormats};

/// The records and round markers of a chunk, and those of what was left of it with more bytes behind it, are
/// those of all of these bytes.
pub fn chunks_join()
    ensures { ChunksJoin }
{}

/// The records and round markers at the start of some bytes are determined by their number. With
/// `chunks_join`, those of all calls are therefore those of one call with all bytes.
pub fn frames_are_unique()
    ensures { FramesAreUnique }
{}

/// The format of records by the entry of their attribute is that by the attribute itself, which the calls on
/// whole inputs use.
pub fn entries_keep_formats()
    ensures { EntriesKeepFormats }
{}
