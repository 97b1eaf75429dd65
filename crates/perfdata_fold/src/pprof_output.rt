//! The profile that pprof reads, and the page that shows it.

use crate::counter::{CountedSamples, OldSamples};
use linux_perf_data::PerfFile;
use perfdata_overview::events::{counts_time, push_event_name};
use perfdata_resolver::FormatData;
use perfdata_views::differences::OldCounts;
use perfdata_views::pprof_profile;
use perfdata_views::pprof_profile::{
    COUNT, Column, DescribedProfile, Description, PageCaption, ProgramFile, SAMPLES,
};
use std::alloc::{AllocError, Global};
use std::io;
use std::io::Write;

/// What is written: what was counted, and what the recording says of itself.
#[derive(Clone, Copy)]
pub(crate) struct ProfileInput<'a> {
    pub(crate) perf_file: &'a PerfFile,
    pub(crate) counted: &'a CountedSamples<'a>,
    /// What the format needs beside names.
    pub(crate) data: &'a FormatData,
    /// The recorded command line.
    pub(crate) command_line: &'a [u8],
    /// Whether the weights of samples are shown first, and not their number.
    pub(crate) shows_weights: bool,
}

// Returns the column of each event. The name of one is another than that of the number of samples.
fn event_columns(alloc: Global, perf_file: &PerfFile) -> Result<Vec<Column>, AllocError> {
    let mut columns = Vec::new(alloc);
    for (index, event) in perf_file.event_attributes().iter().enumerate() {
        let mut name = Vec::new(alloc);
        push_event_name(&mut name, perf_file, index)?;
        if name.as_slice() == SAMPLES.as_bytes() {
            name.clear();
            write!(name, "event {index}").map_err(|_| AllocError)?;
        }
        let unit = match counts_time(event.attributes()) {
            true => "nanoseconds",
            false => COUNT,
        };
        columns.push(Column { name, unit })?;
    }
    Ok(columns)
}

impl<'a> ProfileInput<'a> {
    // Returns the file of the program that was executed, if it is known.
    fn program(&self) -> Option<ProgramFile<'a>> {
        let file = self.counted.main_file.as_ref()?;
        Some(ProgramFile {
            start: file.start,
            end: file.end,
            page_offset: file.page_offset,
            path: file.path.as_slice(),
            build_id: file.build_id.as_slice(),
        })
    }

    // Returns what the tables of the profile don't say.
    fn description(&self, columns: &'a [Column]) -> Description<'a> {
        let summary = self.counted.events.counted(false);
        Description {
            columns,
            files: match self.data {
                FormatData::Mappings(order) => Some(order),
                _ => None,
            },
            shows_weights: self.shows_weights,
            duration: summary.duration(),
            period: summary.weight(),
            first_column: self.counted.events.first_counted(),
            program: self.program(),
            command_line: self.command_line,
        }
    }

    // Returns the profile, and what its tables don't say.
    fn described(&self, columns: &'a [Column]) -> DescribedProfile<'a> {
        DescribedProfile {
            profile: &self.counted.profile,
            description: self.description(columns),
        }
    }
}

/// Writes a profile that pprof reads.
pub(crate) fn write_pprof<W: Write>(
    alloc: Global,
    recorded: ProfileInput<'_>,
    out: &mut W,
) -> io::Result<()> {
    let columns = event_columns(alloc, recorded.perf_file)?;
    let description = recorded.description(columns.as_slice());
    pprof_profile::write_pprof(alloc, &recorded.counted.profile, description, out)
}

/// Writes a page that shows a profile.
pub(crate) fn write_page<W: Write>(
    alloc: Global,
    recorded: ProfileInput<'_>,
    caption: PageCaption<'_>,
    out: &mut W,
) -> io::Result<()> {
    let columns = event_columns(alloc, recorded.perf_file)?;
    let shown = recorded.described(columns.as_slice());
    pprof_profile::write_page(alloc, shown, caption, out)
}

/// Writes a page that shows a profile, and how it differs from that of an old recording.
pub(crate) fn write_changed_page<W: Write>(
    alloc: Global,
    recorded: ProfileInput<'_>,
    old: OldSamples<'_>,
    counts: OldCounts,
    caption: PageCaption<'_>,
    out: &mut W,
) -> io::Result<()> {
    let columns = event_columns(alloc, recorded.perf_file)?;
    let new = recorded.described(columns.as_slice());
    let before = ProfileInput {
        perf_file: old.perf_file,
        counted: old.counted,
        data: old.data,
        command_line: &[],
        shows_weights: recorded.shows_weights,
    };
    let columns = event_columns(alloc, before.perf_file)?;
    let before = before.described(columns.as_slice());
    pprof_profile::write_changed_page(alloc, before, counts, new, caption, out)
}
