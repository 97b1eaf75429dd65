//! Writes what was counted.

use crate::counter::{CountedSamples, OldSamples};
use crate::format::OutputFormat;
use crate::json_output::write_json;
use crate::pprof_output::{ProfileInput, write_changed_page, write_page, write_pprof};
use linux_perf_data::PerfFile;
use perfdata_overview::events::EventSelection;
use perfdata_overview::overview::{Overview, missing_samples};
use perfdata_overview::weight::WeightKind;
use perfdata_resolver::FormatData;
use perfdata_views::call_tree::{MinShare, TreeOptions, write_call_tree};
use perfdata_views::differences::{Comparison, OldCounts, write_differences, write_paired_lines};
use perfdata_views::flame::svg::{Caption, write_changes, write_svg};
use perfdata_views::lines::write_lines;
use perfdata_views::pprof_profile::PageCaption;
use perfdata_views::top::{TableOptions, write_top};
use std::alloc::Global;
use std::io;
use std::io::Write;

/// What is written of the counted samples.
#[derive(Clone, Copy)]
pub struct OutputOptions<'a> {
    pub format: OutputFormat,
    /// What a sample counts.
    pub weight: WeightKind,
    /// The number of rows of a table, if not all are written.
    pub rows: Option<usize>,
    /// The number of characters that lines for a terminal are cut to.
    pub width: Option<usize>,
    /// The least share of what a call tree has.
    pub min_share: MinShare,
    /// How the counts of an old recording are written.
    pub old_counts: OldCounts,
    /// The names of the options that selected samples.
    pub filters: &'a [Option<&'static str>],
}

// A profile in a format, and what it says of its recording.
#[derive(Clone, Copy)]
struct FoldResult<'a> {
    options: OutputOptions<'a>,
    recorded: ProfileInput<'a>,
    overview: &'a Overview,
}

impl<'a> OutputOptions<'a> {
    // Returns what a table has, with a heading.
    fn table<'b>(self, heading: &'b [u8]) -> TableOptions<'b> {
        TableOptions {
            heading,
            unit: self.weight.unit(),
            rows: self.rows,
            width: self.width,
        }
    }

    // Returns what a call tree has, with a heading.
    fn tree<'b>(self, heading: &'b [u8]) -> TreeOptions<'b> {
        TreeOptions {
            heading,
            min_share: self.min_share,
            width: self.width,
        }
    }
}

// Writes a profile.
fn write_profile<W: Write>(alloc: Global, folded: FoldResult<'_>, out: &mut W) -> io::Result<()> {
    let FoldResult {
        options,
        recorded,
        overview,
    } = folded;
    let profile = &recorded.counted.profile;
    let heading = overview.heading.as_slice();
    let caption = Caption {
        title: heading,
        unit: options.weight.unit(),
    };
    let page_caption = PageCaption {
        title: overview.title.as_slice(),
        heading,
    };
    match (options.format, recorded.data) {
        (OutputFormat::Svg, FormatData::Kinds(kinds)) => {
            write_svg(alloc, profile, Some(kinds), caption, out)?
        }
        (OutputFormat::Svg, _) => write_svg(alloc, profile, None, caption, out)?,
        (OutputFormat::Frames | OutputFormat::Script, _) => {}
        (OutputFormat::Tree, _) => write_call_tree(alloc, profile, options.tree(heading), out)?,
        (OutputFormat::Lines, _) => write_lines(alloc, profile, out)?,
        (OutputFormat::Pprof, _) => write_pprof(alloc, recorded, out)?,
        (OutputFormat::Html, _) => write_page(alloc, recorded, page_caption, out)?,
        (OutputFormat::Json, _) => write_json(alloc, recorded, overview, options.weight, out)?,
        (OutputFormat::Top, _) => write_top(alloc, profile, options.table(heading), out)?,
    }
    Ok(())
}

// Writes how a profile differs from that of an old recording.
fn write_comparison<W: Write>(
    alloc: Global,
    folded: FoldResult<'_>,
    old: OldSamples<'_>,
    out: &mut W,
) -> io::Result<()> {
    let options = folded.options;
    let before = Overview::new(alloc, old.counted.counted_events(old.perf_file), false)?;
    let mut heading = before.heading;
    heading.extend_from_slice(b" -> ")?;
    heading.extend_from_slice(folded.overview.heading.as_slice())?;
    let compared = Comparison {
        old: &old.counted.profile,
        new: &folded.recorded.counted.profile,
        counts: options.old_counts,
    };
    let page_caption = PageCaption {
        title: folded.overview.title.as_slice(),
        heading: heading.as_slice(),
    };
    let caption = Caption {
        title: heading.as_slice(),
        unit: options.weight.unit(),
    };
    match (options.format, folded.recorded.data) {
        (OutputFormat::Svg, FormatData::Kinds(kinds)) => {
            write_changes(alloc, compared, Some(kinds), caption, out)
        }
        (OutputFormat::Html, _) => {
            let counts = compared.counts;
            write_changed_page(alloc, folded.recorded, old, counts, page_caption, out)
        }
        (OutputFormat::Top, _) => {
            write_differences(alloc, compared, options.table(heading.as_slice()), out)
        }
        _ => write_paired_lines(alloc, compared, out),
    }
}

/// Returns why nothing is written: an event isn't there, no sample was counted, or weights have no sum.
pub fn no_output_reason(
    alloc: Global,
    options: OutputOptions<'_>,
    perf_file: &PerfFile,
    counted: &CountedSamples<'_>,
) -> io::Result<Option<Vec<u8>>> {
    let events = counted.counted_events(perf_file);
    let missing = missing_samples(alloc, events, options.filters)?;
    let has_sum = !matches!(options.format, OutputFormat::Top | OutputFormat::Tree)
        || options.weight == WeightKind::Samples
        || !counted.events.has_several_names();
    if missing.is_some() || has_sum {
        return Ok(missing);
    }
    let reason = b"the periods of several events have no sum: choose one with --event";
    Ok(Some(reason.to_vec(alloc)?))
}

/// Returns the bytes of what was counted in a format, or of how it differs from an old recording.
pub fn profile_bytes(
    alloc: Global,
    options: OutputOptions<'_>,
    perf_file: &PerfFile,
    counted: &CountedSamples<'_>,
    data: &FormatData,
    old: Option<OldSamples<'_>>,
) -> io::Result<Vec<u8>> {
    let shows_first = options.format == OutputFormat::Html
        && counted.events.selection() == EventSelection::All
        && counted.events.counted(true).samples != 0;
    let overview = Overview::new(alloc, counted.counted_events(perf_file), shows_first)?;
    let recorded = ProfileInput {
        perf_file,
        counted,
        data,
        command_line: overview.command_line.as_slice(),
        shows_weights: options.weight == WeightKind::Period,
    };
    let folded = FoldResult {
        options,
        recorded,
        overview: &overview,
    };
    let mut bytes = Vec::new(alloc);
    match old {
        Some(old) => write_comparison(alloc, folded, old, &mut bytes)?,
        None => write_profile(alloc, folded, &mut bytes)?,
    }
    Ok(bytes)
}
