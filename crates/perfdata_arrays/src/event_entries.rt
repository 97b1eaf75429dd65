//! Entries of parsed records.
ghost use Rattle.std.specs.Prelude.{◌≡◌, ℕ, ◌+◌, ◌≤◌, ◌<◌, ◌^◌, Bool, List, false, length};
ghost use Rattle.linux_perf_data.specs.RecordEntries.{with_prefix};
ghost use Rattle.perfdata_sources.specs.Raw.{bytes_of};
ghost use Rattle.perfdata_base.specs.declared.event.raw_event_record.RawEventRecord.{RawEventRecord};
ghost use Rattle.perfdata_events.specs.Event.{IsParsed};
ghost use Rattle.perfdata_events.specs.declared.event.EventRecord.{EventRecord};
ghost use Rattle.perfdata_events.specs.declared.format.EventFormat.{EventFormat};
ghost use Rattle.perfdata_arrays.specs.Entries.{event_kind, list_of};
ghost use Rattle.perfdata_arrays.specs.steps.Entries.{AddsEntries};
ghost use Rattle.perfdata_arrays.specs.declared.envelope.EntryEnvelope.{EntryEnvelope};

use crate::array::write_entry;
use crate::decoder::{EntryCounts, NO_ENTRIES, RecordDecoder};
use crate::envelope::EntryEnvelope;
use crate::formats::format_of_attribute;
use linux_perf_data::{PerfFile, PerfFileRecord, RecordPlace};
use perfdata_events::event::EventRecord;
use std::marker::PhantomData;

/// An entry of a parsed record of some types.
pub(crate) trait EventEntry: Copy {
    // Whether records of a type have entries.
    ghost has_type: { ℕ → Bool };

    // The entries of a parsed record.
    ghost entries_of: { EntryEnvelope → EventRecord → List Self };

    // Whether no record has more than one entry.
    ghost is_single: { Bool };

    // Returns whether records of a type have entries.
    fn is_of_type(record_type: u32) -> bool
        ensures { result ≡ has_type record_type };

    // Returns the number of a parsed record's entries.
    fn entry_count(event: &EventRecord<'_>) -> usize
        ensures value { (envelope : EntryEnvelope) → result ≡ length (entries_of envelope event.now) }
        ensures few { (format : EventFormat) (raw : RawEventRecord) → IsParsed format raw event.now
            → result ≤ 8 + length (bytes_of raw.body) };

    // Writes the entries of a parsed record over the start of an array, up to its capacity.
    fn write(envelope: EntryEnvelope, event: &EventRecord<'_>, entries: &mut [Self])
        requires { envelope.body_offset + 64 < 2 ^ 64 }
        ensures { entries.new ≡ with_prefix (entries_of envelope event.now) entries.old };
}

// Writes an entry, if there is one, over the start of an array, up to its capacity.
pub(crate) fn write_option<E: Copy>(entry: Option<E>, entries: &mut [E])
    ensures { entries.new ≡ with_prefix (list_of entry) entries.old }
{
    if let Some(entry) = entry {
        write_entry(entries, 0, entry);
    }
}

// Writes the entries of a parsed record after the first `count` elements of `entries`, and returns their
// number. If they don't fit, and not all is counted, writes none and returns their number as the error.
fn add_entries<E: EventEntry>(
    envelope: EntryEnvelope,
    event: &EventRecord<'_>,
    counts_all: bool,
    entries: &mut [E],
    count: usize,
) -> Result<EntryCounts, EntryCounts>
    requires in_range { envelope.body_offset + 64 < 2 ^ 64 }
    requires free { counts_all ≡ false → count < length entries.old }
    ensures adds { AddsEntries (E.entries_of envelope event.now) counts_all count entries.old result
        entries.new }
    ensures few { (format : EventFormat) (raw : RawEventRecord) → IsParsed format raw event.now
        → length (E.entries_of envelope event.now) ≤ 8 + length (bytes_of raw.body) }
{
    let counts = EntryCounts {
        entries: E::entry_count(event),
        frames: 0,
    };
    if count < entries.len() {
        if !counts_all && counts.entries > entries.len() - count {
            return Err(counts);
        }
        E::write(envelope, event, &mut entries[count..]);
    }
    Ok(counts)
}

/// A decoder of records into entries of parsed records.
pub(crate) struct EventEntries<E: EventEntry> {
    marker: PhantomData<E>,
}

impl<E: EventEntry> RecordDecoder for EventEntries<E> {
    type Entry = E;

    type Frame = ();

    ghost kind = { event_kind E.has_type E.entries_of E.is_single };

    fn decode(
        perf_file: &PerfFile,
        base: u64,
        place: RecordPlace,
        record: &PerfFileRecord<'_>,
        counts_all: bool,
        entries: &mut [E],
        count: usize,
        _frames: &mut [()],
        _used: usize,
    ) -> Result<EntryCounts, EntryCounts> {
        let PerfFileRecord::EventRecord { attr_index, event } = record else {
            return Ok(NO_ENTRIES);
        };
        if !E::is_of_type(event.record_type.0) {
            return Ok(NO_ENTRIES);
        }
        let Some(format) = format_of_attribute(perf_file, *attr_index) else {
            return Ok(NO_ENTRIES);
        };
        match format.parse(event) {
            Ok(parsed) => add_entries(
                EntryEnvelope {
                    offset: place.offset,
                    timestamp: place.timestamp.unwrap_or(0),
                    body_offset: base + place.offset + 8,
                    misc: event.misc,
                },
                &parsed,
                counts_all,
                entries,
                count,
            ),
            Err(_) => Ok(NO_ENTRIES),
        }
    }
}
