//! Lists the samples that the options select, in order of time.
use crate::listing::{Output, finish, output, show_content_end};
use crate::options::Options;
use linux_perf_data::event::{RawEventRecord, RecordType};
use linux_perf_data::{Error, PerfFile, PerfFileReader, PerfFileRecord};
use perfdata_cli::arguments::recording_filter;
use perfdata_cli::error::{InputError, ProgramError};
use perfdata_cli::input::OpenInput;
use perfdata_cli::position::Position;
use perfdata_cli::progress::Progress;
use perfdata_cli::recording::{Recording, RecordingRecords};
use perfdata_cli::selected::{is_selected, is_undecoded_selected};
use perfdata_events::event::EventRecord;
use perfdata_events::formats::EventFormats;
use perfdata_json::JsonLine;
use perfdata_listing::{ListCause, ListFault, write_record};
use perfdata_order::records::find_format;
use perfdata_selection::filter::SampleFilter;
use perfdata_selection::options::FilterOptions;
use perfdata_spaces::address_spaces::AddressSpaces;
use std::alloc::{AllocError, Global};

// Says which records are selected samples.
#[derive(Drop)]
struct SampleSelection<'a> {
    filter: SampleFilter<'a>,
    formats: EventFormats,
    /// The names of threads. Nothing is mapped.
    spaces: AddressSpaces,
}

impl<'a> SampleSelection<'a> {
    fn new(alloc: Global, filter: SampleFilter<'a>) -> SampleSelection<'a> {
        SampleSelection {
            filter,
            formats: EventFormats::new(alloc),
            spaces: AddressSpaces::new(alloc),
        }
    }

    // Returns whether a record whose body isn't decoded is a selected sample.
    fn selects_undecoded(&self, record_type: RecordType) -> bool {
        record_type == RecordType::SAMPLE && is_undecoded_selected(&self.filter)
    }

    // Applies a record that names a thread.
    fn apply(&mut self, misc: u16, record: &EventRecord<'_>) -> Result<bool, AllocError> {
        self.spaces.apply(misc, record)?;
        Ok(false)
    }

    // Returns whether the record of an event is a selected sample. One that names a thread is applied.
    fn selects_event(
        &mut self,
        perf_file: &PerfFile,
        index: usize,
        raw: &RawEventRecord<'_>,
    ) -> Result<bool, ListCause> {
        let format = find_format(&mut self.formats, perf_file, index).map_err(memory_cause)?;
        let Some(Ok(record)) = format.map(|format| format.parse(raw)) else {
            return Ok(self.selects_undecoded(raw.record_type));
        };
        match &record {
            EventRecord::Sample(sample) => {
                is_selected(&self.filter, &self.spaces, sample).map_err(ListCause::Read)
            }
            EventRecord::Comm(_) | EventRecord::Fork(_) => {
                self.apply(raw.misc, &record).map_err(memory_cause)
            }
            EventRecord::Raw(raw) => Ok(self.selects_undecoded(raw.record_type)),
            _ => Ok(false),
        }
    }

    // Returns whether a record is a selected sample.
    fn selects(
        &mut self,
        perf_file: &PerfFile,
        record: &PerfFileRecord<'_>,
    ) -> Result<bool, ListCause> {
        match record {
            PerfFileRecord::EventRecord { attr_index, event } => {
                self.selects_event(perf_file, *attr_index, event)
            }
            PerfFileRecord::UserRecord(_) => Ok(false),
        }
    }
}

// Returns the cause of a listing's error when memory runs out.
fn memory_cause(_: AllocError) -> ListCause {
    ListCause::Perf(Error::Memory)
}

// The lines of selected samples, how far the input was read, and its progress.
#[derive(Drop)]
struct SelectedLines<'a> {
    selection: SampleSelection<'a>,
    line: JsonLine,
    lines: u64,
    position: Position,
    progress: Progress<'a>,
}

impl SelectedLines<'_> {
    // Writes the line of the next record, if it is a selected sample. Returns whether there is a record.
    fn list_next(
        &mut self,
        records: &mut RecordingRecords,
        perf_file: &mut PerfFile,
        out: &mut Output,
    ) -> Result<bool, ListCause> {
        let next = records.next_record(perf_file).map_err(ListCause::Perf)?;
        let Some((place, record)) = next else {
            return Ok(false);
        };
        let is_selected = self.selection.selects(perf_file, &record)?;
        self.position.add(&place, &record);
        self.progress.add_record(self.position.offset.unwrap_or(0));
        if is_selected {
            write_record(place, &record, perf_file, &mut self.line, out)?;
            self.lines = self.lines.saturating_add(1);
        }
        Ok(true)
    }

    // Writes the lines of all selected samples. Returns their number.
    fn list(
        &mut self,
        records: &mut RecordingRecords,
        perf_file: &mut PerfFile,
        out: &mut Output,
    ) -> Result<u64, ListFault> {
        for _ in 0..u64::MAX {
            match self.list_next(records, perf_file, out) {
                Ok(true) => {}
                Ok(false) => break,
                Err(cause) => {
                    let lines = self.lines;
                    return Err(ListFault { lines, cause });
                }
            }
        }
        Ok(self.lines)
    }
}

/// Lists the samples of an input that the options select.
pub(crate) fn list_selected(
    rt: &HostRuntime,
    options: &Options<'_>,
    filter: FilterOptions<'_>,
    input: OpenInput,
    path: &str,
) -> Result<(), ProgramError> {
    let progress = Progress::beside_output(rt, input.size).unless_quiet(options.is_quiet);
    let Recording { reader, kind } = Recording::open(rt.alloc(), input)?;
    show_content_end(rt, options, path, kind);
    let mut perf_file = reader.perf_file;
    let filter = recording_filter(filter, &perf_file)?;
    let mut records = RecordingRecords::new(rt.alloc(), kind, &perf_file, reader.record_iter);
    let mut lines = SelectedLines {
        selection: SampleSelection::new(rt.alloc(), filter),
        line: JsonLine::new(rt.alloc(), options.byte_limit),
        lines: 0,
        position: Position::START,
        progress,
    };
    let mut out = output(rt)?;
    let listed = lines.list(&mut records, &mut perf_file, &mut out);
    lines.progress.finish();
    finish(listed, lines.position, None, &mut out)?;
    Ok(kind.check_end(lines.position.records)?)
}
