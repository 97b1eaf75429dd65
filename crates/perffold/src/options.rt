//! The program's command line.

use clap::{Arg, ArgMatches, Command, value_parser};
use code_files::FileOptions;
use demangle::Style;
use perfdata_cli::arguments::{FILTERS, OptionText, input_argument, is_quiet};
use perfdata_cli::command_line::{RECORDING_HELP, command};
use perfdata_fold::counter::CountOptions;
use perfdata_fold::format::OutputFormat;
use perfdata_names::KernelList;
use perfdata_overview::events::EventSelection;
use perfdata_overview::weight::WeightKind;
use perfdata_profile::options::{ProfileOptions, ThreadIds};
use perfdata_resolver::{NameKind, ResolverOptions, SourceOptions};
use perfdata_views::call_tree::MinShare;
use perfdata_views::differences::OldCounts;
use std::alloc::{AllocError, Global};

// What the program does.
const ABOUT: &str = concat!(
    "Writes the stacks of a recording's samples as folded lines: names of frames with ';' between them, ",
    "and a count. Or draws their flame graph, or writes them as a profile for pprof."
);

// The ids of the options, which are their long names.
const EVENT: &str = "event";

const ALL_EVENTS: &str = "all-events";

const WEIGHT: &str = "weight";

/// The option that leaves stacks with a frame that matches.
pub(crate) const FOCUS: &str = "focus";

/// The option that leaves stacks without a frame that matches.
pub(crate) const IGNORE: &str = "ignore";

const ROWS: &str = "rows";

// The options of patterns.
const PATTERNS: [&str; 2] = [FOCUS, IGNORE];

// The number of rows without the option.
const DEFAULT_ROWS: usize = 30;

const BY_PID: &str = "by-pid";

const BY_TID: &str = "by-tid";

const NO_SYMBOLS: &str = "no-symbols";

const RAW: &str = "raw";

const NO_DEMANGLE: &str = "no-demangle";

const PARAMETERS: &str = "parameters";

const SYMFS: &str = "symfs";

const DEBUG_DIR: &str = "debug-dir";

const KALLSYMS: &str = "kallsyms";

const MAPS: &str = "maps";

const NO_UNWIND: &str = "no-unwind";

const NO_INLINE: &str = "no-inline";

/// The option of source lines in names.
const LINES: &str = "lines";

const VDSO: &str = "vdso";

const SVG: &str = "svg";

const FORMAT: &str = "format";

const OUTPUT: &str = "output";

const MIN_PERCENT: &str = "min-percent";

/// The option of the recording that another one is compared with.
const DIFF: &str = "diff";

// The option that scales what the old recording counts.
const NORMALIZE: &str = "normalize";

// The values of the option of the weight.
const PERIOD: &str = "period";

const WEIGHTS: &[&str] = &["samples", PERIOD];

// The value of the option of the kernel's list of symbols for none.
const NO_LIST: &str = "none";

// The values of the option of the format.
const TOP: &str = "top";

const PPROF: &str = "pprof";

const HTML: &str = "html";

const TREE: &str = "tree";

const FRAMES: &str = "frames";

const SCRIPT: &str = "script";

const JSON: &str = "json";

const FORMATS: &[&str] = &["folded", SVG, PPROF, HTML, TOP, TREE, FRAMES, SCRIPT, JSON];

// The options: of the output, of what is counted, of where symbols are, and of the names in lines.
const OPTIONS: &[OptionText] = &[
    OptionText {
        name: SVG,
        value: None,
        conflicts: &[FORMAT],
        help: "Write a flame graph, an SVG file for a browser",
    },
    OptionText {
        name: FORMAT,
        value: Some("FORMAT"),
        conflicts: &[],
        help: concat!(
            "Write lines, a flame graph, a profile for pprof, a page that shows it, the functions ",
            "with the most samples, the call tree, the frames of each sample, the text of perf script ",
            "or the tables of the profile as JSON [default: top on a terminal, that of a FILE.svg, ",
            "FILE.pb, FILE.html or FILE.json, else folded]"
        ),
    },
    OptionText {
        name: OUTPUT,
        value: Some("FILE"),
        conflicts: &[],
        help: "Write FILE in place of standard output",
    },
    OptionText {
        name: DIFF,
        value: Some("OLD"),
        conflicts: &[],
        help: concat!(
            "Compare FILE with the recording OLD: the functions whose shares differ, lines with two ",
            "counts, or a flame graph or a page of FILE with the differences"
        ),
    },
    OptionText {
        name: NORMALIZE,
        value: None,
        conflicts: &[],
        help: "Scale the counts of OLD, so that their sum is that of FILE",
    },
    OptionText {
        name: MIN_PERCENT,
        value: Some("PERCENT"),
        conflicts: &[],
        help: concat!(
            "Leave out of the call tree what has a smaller share of the samples ",
            "[default: 0.5]"
        ),
    },
    OptionText {
        name: EVENT,
        value: Some("EVENT"),
        conflicts: &[],
        help: concat!(
            "Count the samples of the events with these names or indices, or of which these are ",
            "patterns with * and ?, with commas between them [default: the first one that has samples]"
        ),
    },
    OptionText {
        name: ALL_EVENTS,
        value: None,
        conflicts: &[EVENT],
        help: "Count the samples of all events",
    },
    OptionText {
        name: WEIGHT,
        value: Some("WEIGHT"),
        conflicts: &[],
        help: "What a sample counts: one, or its period",
    },
    OptionText {
        name: FOCUS,
        value: Some("REGEX"),
        conflicts: &[],
        help: "Select the samples with a frame whose function or file matches",
    },
    OptionText {
        name: IGNORE,
        value: Some("REGEX"),
        conflicts: &[],
        help: "Select the samples without a frame whose function or file matches",
    },
    OptionText {
        name: ROWS,
        value: Some("N"),
        conflicts: &[],
        help: "Write the first N rows of the table, or all if N is 0 [default: 30]",
    },
    OptionText {
        name: SYMFS,
        value: Some("DIR"),
        conflicts: &[],
        help: concat!(
            "Look for mapped files, debug files and perf-PID.map files below DIR, ",
            "which no link may leave, and in no cache"
        ),
    },
    OptionText {
        name: DEBUG_DIR,
        value: Some("DIR"),
        conflicts: &[],
        help: "Look for debug files in DIR [default: /usr/lib/debug]",
    },
    OptionText {
        name: KALLSYMS,
        value: Some("FILE"),
        conflicts: &[],
        help: concat!(
            "Name the kernel's functions by FILE, a copy of /proc/kallsyms, or by nothing if it is ",
            "none [default: that in perf's cache, or /proc/kallsyms if the running kernel is the ",
            "recorded one]"
        ),
    },
    OptionText {
        name: MAPS,
        value: Some("DIR"),
        conflicts: &[],
        help: "Look for perf-PID.map files in DIR [default: /tmp]",
    },
    OptionText {
        name: VDSO,
        value: Some("FILE"),
        conflicts: &[],
        help: "Name and unwind the code that the kernel maps as [vdso] by FILE, a copy of it",
    },
    OptionText {
        name: NO_UNWIND,
        value: None,
        conflicts: &[],
        help: "Don't unwind the stacks that samples have a copy of",
    },
    OptionText {
        name: NO_INLINE,
        value: None,
        conflicts: &[],
        help: "Don't show the functions that the compiler inlined into others as frames of their own",
    },
    OptionText {
        name: LINES,
        value: None,
        conflicts: &[NO_SYMBOLS, RAW, NO_INLINE],
        help: "Add the source lines of functions to their names in lines and in the table",
    },
    OptionText {
        name: BY_PID,
        value: None,
        conflicts: &[],
        help: "Add the process id to the name of the thread",
    },
    OptionText {
        name: BY_TID,
        value: None,
        conflicts: &[],
        help: "Add the process id and the thread id to the name of the thread",
    },
    OptionText {
        name: NO_SYMBOLS,
        value: None,
        conflicts: &[],
        help: "Name frames by their files",
    },
    OptionText {
        name: RAW,
        value: None,
        conflicts: &[NO_SYMBOLS, SYMFS],
        help: "Name frames by their addresses",
    },
    OptionText {
        name: NO_DEMANGLE,
        value: None,
        conflicts: &[],
        help: "Leave the mangled names of symbols as they are",
    },
    OptionText {
        name: PARAMETERS,
        value: None,
        conflicts: &[NO_DEMANGLE],
        help: "Add the parameters of C++ functions to their names",
    },
];

/// What the arguments select.
#[derive(Clone, Copy)]
pub(crate) struct Options<'a> {
    /// The input, if one is named.
    pub(crate) file: Option<&'a str>,
    pub(crate) events: EventSelection<'a>,
    pub(crate) weight: WeightKind,
    /// Which ids follow the name of a thread.
    pub(crate) thread_ids: ThreadIds,
    /// How frames are named.
    pub(crate) names: ResolverOptions<'a>,
}

/// The arguments.
#[derive(Clone, Copy)]
pub(crate) struct Arguments<'a> {
    pub(crate) options: Options<'a>,
    /// What is written, if an argument says so.
    pub(crate) format: Option<OutputFormat>,
    /// The file that is written instead of standard output.
    pub(crate) output: Option<&'a str>,
    /// The recording that the input is compared with, if there is one.
    pub(crate) diff: Option<&'a str>,
    /// How the counts of that recording are written.
    pub(crate) old_counts: OldCounts,
    /// The number of rows of the table, if an argument says it.
    pub(crate) rows: Option<usize>,
    /// The options that select samples, if they are given.
    pub(crate) filters: [Option<&'static str>; 7],
    /// Whether no messages but errors are printed.
    pub(crate) is_quiet: bool,
    /// The least share of what a call tree has, unless the argument isn't one.
    pub(crate) min_share: Option<MinShare>,
}

// Returns an option with the values that it can have, or with its short name.
fn with_values<'a>(name: &str, arg: Arg<'a>) -> Arg<'a> {
    match name {
        WEIGHT => arg.value_parser(WEIGHTS),
        FORMAT => arg.value_parser(FORMATS),
        ROWS => arg.value_parser(value_parser!(usize)),
        OUTPUT => arg.short('o'),
        _ => arg,
    }
}

/// Returns the command with its options.
pub(crate) fn command_with_options<'a>(
    alloc: Global,
    name: &'a str,
) -> Result<Command<'a>, AllocError> {
    let mut command = command(alloc, name, ABOUT, RECORDING_HELP)?;
    for option in OPTIONS {
        let arg = option.argument(alloc)?;
        command = command.arg(with_values(option.name, arg))?;
    }
    Ok(command)
}

// Parses which events are counted.
fn parse_events<'a>(matches: &ArgMatches<'a>) -> EventSelection<'a> {
    if matches.get_flag(ALL_EVENTS) {
        return EventSelection::All;
    }
    match matches.get_str(EVENT) {
        Some(text) => EventSelection::Listed(text),
        None => EventSelection::First,
    }
}

// Returns the options that select samples, if they are given.
fn given_filters(matches: &ArgMatches<'_>) -> [Option<&'static str>; 7] {
    let mut given = [None; 7];
    let names = FILTERS.iter().chain(PATTERNS.iter());
    for (slot, name) in given.iter_mut().zip(names) {
        if matches.get_str(*name).is_some() {
            *slot = Some(*name);
        }
    }
    given
}

// Parses what a sample counts.
fn parse_weight(matches: &ArgMatches<'_>) -> WeightKind {
    match matches.get_str(WEIGHT) {
        Some(PERIOD) => WeightKind::Period,
        _ => WeightKind::Samples,
    }
}

// Parses which ids follow the name of a thread.
fn parse_thread_ids(matches: &ArgMatches<'_>) -> ThreadIds {
    if matches.get_flag(BY_TID) {
        ThreadIds::Thread
    } else if matches.get_flag(BY_PID) {
        ThreadIds::Process
    } else {
        ThreadIds::Nothing
    }
}

// Parses which name a frame has.
fn parse_name_kind(matches: &ArgMatches<'_>) -> NameKind {
    if matches.get_flag(RAW) {
        NameKind::Address
    } else if matches.get_flag(NO_SYMBOLS) {
        NameKind::File
    } else {
        NameKind::Symbol
    }
}

// Parses the style of the texts of mangled names, unless these stay.
fn parse_demangling(matches: &ArgMatches<'_>) -> Option<Style> {
    if matches.get_flag(NO_DEMANGLE) {
        None
    } else if matches.get_flag(PARAMETERS) {
        Some(Style::Signature)
    } else {
        Some(Style::Name)
    }
}

// Parses which list names the kernel's functions.
fn parse_kernel_list<'a>(matches: &ArgMatches<'a>) -> KernelList<'a> {
    match (matches.get_str(KALLSYMS), matches.get_str(SYMFS)) {
        (Some(NO_LIST), _) => KernelList::Nothing,
        (Some(path), _) => KernelList::File(path),
        (None, Some(_)) => KernelList::OtherMachine,
        (None, None) => KernelList::Running,
    }
}

// Parses how frames are named.
fn parse_names<'a>(matches: &ArgMatches<'a>) -> ResolverOptions<'a> {
    ResolverOptions {
        name_kind: parse_name_kind(matches),
        demangling: parse_demangling(matches),
        source: SourceOptions {
            has_inlined: !matches.get_flag(NO_INLINE),
            has_lines: matches.get_flag(LINES),
        },
        unwinds: !matches.get_flag(NO_UNWIND),
        files: FileOptions {
            symfs: matches.get_str(SYMFS),
            debug_dir: matches.get_str(DEBUG_DIR),
            maps: matches.get_str(MAPS),
            vdso: matches.get_str(VDSO),
        },
        kernel_list: parse_kernel_list(matches),
    }
}

// Parses what is written, if an argument says so.
fn parse_format(matches: &ArgMatches<'_>) -> Option<OutputFormat> {
    if matches.get_flag(SVG) {
        return Some(OutputFormat::Svg);
    }
    match matches.get_str(FORMAT)? {
        SVG => Some(OutputFormat::Svg),
        PPROF => Some(OutputFormat::Pprof),
        HTML => Some(OutputFormat::Html),
        TOP => Some(OutputFormat::Top),
        TREE => Some(OutputFormat::Tree),
        FRAMES => Some(OutputFormat::Frames),
        SCRIPT => Some(OutputFormat::Script),
        JSON => Some(OutputFormat::Json),
        _ => Some(OutputFormat::Lines),
    }
}

/// Returns the option that has no meaning for a format, if such an option is given.
pub(crate) fn meaningless_option(
    matches: &ArgMatches<'_>,
    format: OutputFormat,
) -> Option<&'static str> {
    if format != OutputFormat::Tree && matches.get_str(MIN_PERCENT).is_some() {
        return Some(MIN_PERCENT);
    }
    if format != OutputFormat::Top && matches.get_one::<usize>(ROWS).is_some() {
        return Some(ROWS);
    }
    let compares = matches!(
        format,
        OutputFormat::Lines | OutputFormat::Top | OutputFormat::Svg | OutputFormat::Html
    );
    if !compares && matches.get_str(DIFF).is_some() {
        return Some(DIFF);
    }
    let names_lines = matches!(format, OutputFormat::Lines | OutputFormat::Top);
    if !names_lines && matches.get_flag(LINES) {
        return Some(LINES);
    }
    if format != OutputFormat::Script {
        return None;
    }
    if matches.get_str(WEIGHT).is_some() {
        return Some(WEIGHT);
    }
    let mut flags = [RAW, NO_SYMBOLS, BY_PID, BY_TID].iter().copied();
    flags.find(|name| matches.get_flag(*name))
}

// Parses how the counts of an old recording are written.
fn parse_old_counts(matches: &ArgMatches<'_>) -> OldCounts {
    if matches.get_flag(NORMALIZE) {
        OldCounts::Scaled
    } else {
        OldCounts::Recorded
    }
}

// Parses the least share of what a call tree has.
fn parse_min_share(matches: &ArgMatches<'_>) -> Option<MinShare> {
    match matches.get_str(MIN_PERCENT) {
        Some(text) => MinShare::parse(text),
        None => Some(MinShare::DEFAULT),
    }
}

impl<'a> Arguments<'a> {
    /// Returns what parsed arguments select.
    pub(crate) fn new(matches: &ArgMatches<'a>) -> Arguments<'a> {
        Arguments {
            options: Options {
                file: input_argument(matches),
                events: parse_events(matches),
                weight: parse_weight(matches),
                thread_ids: parse_thread_ids(matches),
                names: parse_names(matches),
            },
            format: parse_format(matches),
            output: matches.get_str(OUTPUT),
            diff: matches.get_str(DIFF),
            old_counts: parse_old_counts(matches),
            rows: matches.get_one::<usize>(ROWS),
            filters: given_filters(matches),
            is_quiet: is_quiet(matches),
            min_share: parse_min_share(matches),
        }
    }

    /// Returns which samples are counted for a format.
    pub(crate) fn count_options(&self, format: OutputFormat) -> CountOptions<'a> {
        CountOptions {
            events: format.events(self.options.events),
            weight: format.weight(self.options.weight),
        }
    }

    /// Returns what the profile has for a format.
    pub(crate) fn profile_options(
        &self,
        format: OutputFormat,
        selects_stacks: bool,
    ) -> ProfileOptions {
        ProfileOptions {
            detail: format.detail(selects_stacks),
            thread_ids: self.options.thread_ids,
            times: format.has_times(),
        }
    }

    /// Returns how frames are named for a format.
    pub(crate) fn resolver_options(&self, format: OutputFormat) -> ResolverOptions<'a> {
        let names = self.options.names;
        ResolverOptions {
            source: format.source(names.source),
            ..names
        }
    }

    /// Returns the number of rows of the table, if not all are shown.
    pub(crate) fn shown_rows(&self) -> Option<usize> {
        match self.rows {
            Some(0) => None,
            Some(rows) => Some(rows),
            None => Some(DEFAULT_ROWS),
        }
    }
}
