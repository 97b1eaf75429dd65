//! Counts the samples of a recording.

use linux_perf_data::event::{RawEventRecord, RecordType};
use linux_perf_data::{Error, PerfFile, PerfFileRecord, UserRecordType};
use perfdata_cli::arguments::missing_cpu_error;
use perfdata_cli::error::InputError;
use perfdata_cli::position::Position;
use perfdata_cli::progress::Progress;
use perfdata_cli::recording::RecordingRecords;
use perfdata_events::call_chain::CallContext;
use perfdata_events::event::EventRecord;
use perfdata_events::formats::EventFormats;
use perfdata_events::sample::SampleRecord;
use perfdata_focus::{Focus, FocusPatterns, marked_entries};
use perfdata_order::records::find_format;
use perfdata_overview::events::{EventSelection, EventTable};
use perfdata_overview::notes::{MainFile, RecordNotes};
use perfdata_overview::overview::CountedEvents;
use perfdata_overview::program::has_own_command;
use perfdata_overview::sample_summary::SampleSummary;
use perfdata_overview::weight::WeightKind;
use perfdata_profile::builder::ProfileBuilder;
use perfdata_profile::error::ProfileError;
use perfdata_profile::options::ProfileOptions;
use perfdata_profile::profile::Profile;
use perfdata_profile::sums::SampleWeight;
use perfdata_resolver::{FormatData, FrameResolver};
use perfdata_selection::filter::SampleFilter;
use std::alloc::{AllocError, Global};
use std::io;

/// Which samples are counted, and what each counts.
#[derive(Clone, Copy)]
pub struct CountOptions<'a> {
    /// The selected events.
    pub events: EventSelection<'a>,
    /// What a sample counts.
    pub weight: WeightKind,
}

/// Counts the samples of a recording.
#[derive(Drop)]
pub struct SampleCounter<'a> {
    alloc: Global,
    builder: ProfileBuilder<FrameResolver<'a>>,
    formats: EventFormats,
    events: EventTable<'a>,
    filter: SampleFilter<'a>,
    focus: Option<Focus<'a>>,
    weight: WeightKind,
    /// Whether a text of samples is written before the end.
    is_streamed: bool,
    /// Whether the metadata of the recording was read for its symbols.
    has_metadata: bool,
    /// The number of records that were added.
    pub records: u64,
    /// The greatest offset of a record.
    read: u64,
    notes: RecordNotes,
    /// The index of the first executable mapping of the program that was executed.
    main_mapping: Option<usize>,
}

/// What was counted.
#[derive(Drop)]
pub struct CountedSamples<'a> {
    pub profile: Profile,
    /// Which events were counted.
    pub events: EventTable<'a>,
    pub notes: RecordNotes,
    /// The file of the program that was executed.
    pub main_file: Option<MainFile>,
}

/// What was read of a recording that another one is compared with.
#[derive(Clone, Copy)]
pub struct OldSamples<'a> {
    pub perf_file: &'a PerfFile,
    pub counted: &'a CountedSamples<'a>,
    /// What the format needs beside names.
    pub data: &'a FormatData,
}

impl<'a> CountedSamples<'a> {
    /// Returns what was counted, beside the profile.
    pub fn counted_events(&'a self, perf_file: &'a PerfFile) -> CountedEvents<'a> {
        CountedEvents {
            perf_file,
            events: &self.events,
            notes: &self.notes,
            main_file: self.main_file.as_ref(),
        }
    }
}

// Returns the error of a sample that can't be counted.
fn count_error(error: ProfileError) -> Error {
    match error {
        ProfileError::Memory => Error::Memory,
        ProfileError::Overflow => io::Error::other("the sum of all weights is 2^63 or more").into(),
    }
}

impl<'a> SampleCounter<'a> {
    /// Creates a counter of no samples. A text of samples is written before the end if it is known by then
    /// which events are selected, and that each part of the selection names one.
    pub fn new(
        alloc: Global,
        perf_file: &PerfFile,
        options: CountOptions<'a>,
        profile_options: ProfileOptions,
        resolver: FrameResolver<'a>,
        filter: SampleFilter<'a>,
        patterns: &'a FocusPatterns,
    ) -> Result<SampleCounter<'a>, AllocError> {
        let mut events = EventTable::new(alloc, options.events);
        events.add_events(perf_file)?;
        let has_all = events.part_without_event(perf_file).is_none();
        let focus = if patterns.is_given() {
            Some(Focus::new(alloc, patterns)?)
        } else {
            None
        };
        Ok(SampleCounter {
            alloc,
            builder: ProfileBuilder::new(alloc, resolver, profile_options),
            formats: EventFormats::new(alloc),
            events,
            filter,
            focus,
            weight: options.weight,
            is_streamed: has_all && options.events != EventSelection::First,
            has_metadata: false,
            records: 0,
            read: 0,
            notes: RecordNotes::new(alloc),
            main_mapping: None,
        })
    }

    // Reads the metadata of the recording for its symbols, before the first sample.
    fn read_metadata(&mut self, perf_file: &PerfFile) -> Result<(), Error> {
        if self.has_metadata {
            return Ok(());
        }
        self.has_metadata = true;
        self.builder.resolver.read_metadata(perf_file)
    }

    // Adds a sample that was counted to what is known of its event. If its stack is left out, the text of
    // samples gets its former length.
    fn note_sample(
        &mut self,
        sample: &SampleRecord<'_>,
        weight: SampleWeight,
        start: usize,
    ) -> Result<(), AllocError> {
        let is_kept = match &mut self.focus {
            Some(focus) => focus.selects(self.builder.tables(), self.builder.last_stack())?,
            None => true,
        };
        if is_kept {
            let summary = SampleSummary::of_sample(sample.timestamp, weight.weight);
            self.events.count(weight.column, summary);
        }
        let data = &mut self.builder.resolver.data;
        match (data.text(), is_kept) {
            (Some(text), false) => text.truncate(start),
            _ => {}
        }
        match data {
            FormatData::Listing(listing) if !self.is_streamed => listing.end_sample(weight.column),
            _ => Ok(()),
        }
    }

    // Adds a sample of the event with an index.
    fn add_sample(
        &mut self,
        perf_file: &PerfFile,
        index: usize,
        misc: u16,
        sample: &SampleRecord<'_>,
    ) -> Result<(), Error> {
        let Some(event) = perf_file.event_attributes().get(index) else {
            return Ok(());
        };
        if !self.events.add_sample(perf_file, index)? {
            return Ok(());
        }
        if sample.cpu.is_none() && !self.filter.cpus.is_empty() {
            self.notes.lacks_cpu = true;
            return Ok(());
        }
        self.read_metadata(perf_file)?;
        self.builder.resolver.select_event(perf_file, index)?;
        let start = self
            .builder
            .resolver
            .data
            .text()
            .map_or(0, |text| text.len());
        let weight = SampleWeight {
            column: index,
            weight: self
                .weight
                .of_sample(event.attributes(), perf_file.endian(), sample),
        };
        let record = EventRecord::Sample(*sample);
        let is_counted = self
            .builder
            .add_selected(&self.filter, misc, &record, Some(weight))
            .map_err(count_error)?;
        if is_counted {
            self.note_sample(sample, weight, start)?;
        }
        Ok(())
    }

    // Adds a record that isn't a sample.
    fn add_other(&mut self, misc: u16, record: &EventRecord<'_>) -> Result<(), Error> {
        self.builder
            .add_selected(&self.filter, misc, record, None)
            .map_err(count_error)?;
        if let Some((pid, address)) = self.notes.apply(record)? {
            let spaces = self.builder.spaces();
            self.main_mapping = spaces.find_index(pid, address, CallContext::User);
        }
        Ok(())
    }

    // Adds a record of an event.
    fn add_event(
        &mut self,
        perf_file: &PerfFile,
        index: usize,
        raw: &RawEventRecord<'_>,
    ) -> Result<(), Error> {
        let Some(format) = find_format(&mut self.formats, perf_file, index)? else {
            return Ok(());
        };
        match format.parse(raw)? {
            EventRecord::Sample(sample) => self.add_sample(perf_file, index, raw.misc, &sample),
            EventRecord::Raw(other) if other.record_type == RecordType::SAMPLE => {
                self.events.add_sample(perf_file, index)?;
                self.notes.undecoded = self.notes.undecoded.saturating_add(1);
                Ok(())
            }
            record => self.add_other(raw.misc, &record),
        }
    }

    // Returns what was read of the records, and where the next one is, if that is known.
    fn position(&self, offset: Option<u64>) -> Position {
        Position {
            records: self.records,
            offset,
        }
    }

    // Adds a record.
    fn add_record(
        &mut self,
        perf_file: &PerfFile,
        record: &PerfFileRecord<'_>,
    ) -> Result<(), Error> {
        match record {
            PerfFileRecord::EventRecord { attr_index, event } => {
                self.add_event(perf_file, *attr_index, event)
            }
            PerfFileRecord::UserRecord(user) => {
                self.notes.apply_user(user.record_type);
                if user.record_type == UserRecordType::PERF_HEADER_BUILD_ID {
                    return self.builder.resolver.add_build_id(user);
                }
                Ok(())
            }
        }
    }

    /// Adds the next record. Returns whether there is one.
    pub fn add_next(
        &mut self,
        records: &mut RecordingRecords,
        perf_file: &mut PerfFile,
        progress: &mut Progress<'_>,
    ) -> Result<bool, InputError> {
        match records.next_record(perf_file) {
            Ok(Some((place, record))) => {
                self.read = self.read.max(place.offset);
                progress.add_record(self.read);
                if let Err(cause) = self.add_record(perf_file, &record) {
                    let position = self.position(Some(place.offset));
                    return Err(InputError::Record { position, cause });
                }
                self.records = self.records.saturating_add(1);
                if self.notes.lacks_cpu {
                    return Err(InputError::Io(missing_cpu_error()));
                }
                Ok(true)
            }
            Ok(None) => Ok(false),
            Err(cause) => Err(InputError::with_position(self.position(None), cause)),
        }
    }

    /// Returns the text of the samples so far, if it is written before the end: the events are known that are
    /// selected.
    pub fn text(&mut self) -> Option<&mut Vec<u8>> {
        if self.is_streamed {
            self.builder.resolver.data.text()
        } else {
            None
        }
    }

    /// Returns what was counted, of the profile the selected events and the stacks that options leave, and
    /// what named the frames.
    pub fn finish(
        self,
        perf_file: &PerfFile,
    ) -> Result<(CountedSamples<'a>, FrameResolver<'a>), ProfileError> {
        let SampleCounter {
            alloc,
            builder,
            mut events,
            mut focus,
            notes,
            main_mapping,
            ..
        } = self;
        let main_mapping = main_mapping.filter(|_| has_own_command(perf_file));
        let main_file = main_file(&builder, main_mapping);
        let (mut profile, mut resolver) = builder.finish();
        let main_file = main_file.map_err(|_| ProfileError::Memory)?;
        events
            .add_events(perf_file)
            .map_err(|_| ProfileError::Memory)?;
        let marks = marked_entries(
            alloc,
            &profile,
            &mut focus,
            |column| events.is_selected(column),
        );
        let marks = marks.map_err(|_| ProfileError::Memory)?;
        if let FormatData::Listing(listing) = &mut resolver.data {
            let kept = listing.keep(|column| events.is_selected(column));
            kept.map_err(|_| ProfileError::Memory)?;
        }
        if marks.contains(&false) {
            profile.keep_marked(alloc, marks.as_slice())?;
        }
        let counted = CountedSamples {
            profile,
            events,
            notes,
            main_file,
        };
        Ok((counted, resolver))
    }
}

// Returns the file of the mapping with an index.
fn main_file(
    builder: &ProfileBuilder<FrameResolver<'_>>,
    index: Option<usize>,
) -> Result<Option<MainFile>, AllocError> {
    let Some(mapping) = index.and_then(|index| builder.spaces().mapping(index)) else {
        return Ok(None);
    };
    let (path, build_id) = builder.resolver.mapped_file(mapping)?;
    Ok(Some(MainFile {
        start: mapping.start,
        end: mapping.start.saturating_add(mapping.length),
        page_offset: mapping.page_offset,
        path,
        build_id,
    }))
}
