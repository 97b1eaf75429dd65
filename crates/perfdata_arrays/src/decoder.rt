//! Decoders of records.
ghost use Rattle.std.specs.Prelude.{◌≡◌, ◌+◌, ◌<◌, ◌≤◌, ◌^◌, false, length};
ghost use Rattle.linux_perf_data.specs.PerfFile.{attributes_of_file, endian_of_file};
ghost use Rattle.linux_perf_data.specs.RecordViews.{record_view_of};
ghost use Rattle.perfdata_arrays.specs.Decoding.{EntryKind};
ghost use Rattle.perfdata_arrays.specs.steps.Decoding.{DecodesRecord};

use linux_perf_data::{PerfFile, PerfFileRecord, RecordPlace};

/// The numbers of entries and of frames of a record.
#[derive(Clone, Copy, Debug)]
pub(crate) struct EntryCounts {
    pub(crate) entries: usize,
    pub(crate) frames: usize,
}

// Of a record without entries.
pub(crate) const NO_ENTRIES: EntryCounts = EntryCounts {
    entries: 0,
    frames: 0,
};

/// A decoder of records into entries, and of their call chains into frames.
pub(crate) trait RecordDecoder {
    // An entry.
    type Entry: Copy;

    // A frame, or `()` if entries have none.
    type Frame: Copy;

    // The entries of records.
    ghost kind: { EntryKind Self.Entry Self.Frame };

    // Writes the entries of a record from index `count` of `entries` on, and its frames from index `used` of
    // `frames` on. Returns their numbers.
    //
    // With `counts_all`, writes as many as the arrays have capacity for. Otherwise an array without elements
    // is for no frames. If the entries or frames don't fit, writes nothing, and the error is the numbers to
    // report. The first record of the input is at offset `base`.
    fn decode(
        perf_file: &PerfFile,
        base: u64,
        place: RecordPlace,
        record: &PerfFileRecord<'_>,
        counts_all: bool,
        entries: &mut [Self::Entry],
        count: usize,
        frames: &mut [Self::Frame],
        used: usize,
    ) -> Result<EntryCounts, EntryCounts>
        requires in_range { base + place.offset + 72 < 2 ^ 64 }
        requires free { counts_all ≡ false → count < length entries.old }
        requires within { counts_all ≡ false → used ≤ length frames.old }
        ensures { DecodesRecord kind counts_all (endian_of_file perf_file.now)
            (attributes_of_file perf_file.now) base (record_view_of place «record».now) count used entries.old
            frames.old result entries.new frames.new };
}
