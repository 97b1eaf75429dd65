//! The formats of a profile, and what each needs.
ghost use Rattle.std.specs.Prelude.{◌≡◌, ◌≢◌, ◌↔◌, ◌⊎◌, IsTrue, true, false};
ghost use Rattle.perfdata_fold.specs.Formats.{HasTables, HasNamesAlone};

use perfdata_overview::events::EventSelection;
use perfdata_overview::weight::WeightKind;
use perfdata_profile::function_kinds::FunctionKinds;
use perfdata_profile::mapping_order::MappingOrder;
use perfdata_profile::options::Detail;
use perfdata_resolver::{FormatData, FrameListing, ScriptListing, SourceOptions};
use std::alloc::Global;

/// What is written.
#[derive(Clone, Copy, PartialEq, Eq)]
pub enum OutputFormat {
    /// Folded lines.
    Lines,
    /// A flame graph.
    Svg,
    /// A profile that pprof reads.
    Pprof,
    /// A page that shows such a profile.
    Html,
    /// The table of the functions with the most samples.
    Top,
    /// The call tree.
    Tree,
    /// The frames of each sample.
    Frames,
    /// The text of `perf script`.
    Script,
    /// The tables of a profile, as JSON.
    Json,
}

impl OutputFormat {
    ghost use Rattle.perfdata_fold.specs.declared.format.OutputFormat.TheVariants as formats;
    ghost use Rattle.perfdata_overview.specs.declared.weight.WeightKind.TheVariants as weights;
    ghost use Rattle.perfdata_overview.specs.declared.events.EventSelection.TheVariants as selections;
    ghost use Rattle.perfdata_profile.specs.declared.options.Detail.TheVariants as details;

    // Returns whether the format has the tables of a profile: both the number of samples and their weights.
    fn is_profile(self) -> bool
        ensures { IsTrue result ↔ HasTables self }
    {
        matches!(
            self,
            OutputFormat::Pprof | OutputFormat::Html | OutputFormat::Json
        )
    }

    /// Returns what a sample counts.
    pub fn weight(self, weight: WeightKind) -> WeightKind
        ensures tables { HasTables self → result ≡ weights.Period }
        ensures others { ¬ HasTables self → result ≡ weight }
    {
        if self.is_profile() {
            WeightKind::Period
        } else {
            weight
        }
    }

    /// Returns which events are selected. The text of `perf script` has the samples of all by default.
    pub fn events<'a>(self, events: EventSelection<'a>) -> EventSelection<'a>
        ensures script { self ≡ formats.Script → events.entry ≡ selections.First → result ≡ selections.All }
        ensures selected { events.entry ≢ selections.First → result ≡ events.entry }
        ensures others { self ≢ formats.Script → result ≡ events.entry }
    {
        match (self, events) {
            (OutputFormat::Script, EventSelection::First) => EventSelection::All,
            _ => events,
        }
    }

    /// Returns what the locations of the profile have. Stacks are selected by the files of their frames too.
    pub fn detail(self, selects_stacks: bool) -> Detail
        ensures tables { HasTables self → result ≡ details.Locations }
        ensures selects { selects_stacks ≡ true → result ≡ details.Locations }
        ensures others { ¬ HasTables self → selects_stacks ≡ false → result ≡ details.Functions }
    {
        if self.is_profile() || selects_stacks {
            Detail::Locations
        } else {
            Detail::Functions
        }
    }

    /// Returns whether the profile has the list of its samples.
    pub fn has_times(self) -> bool
        ensures { IsTrue result ↔ ((self ≡ formats.Json) ⊎ (self ≡ formats.Html)) }
    {
        matches!(self, OutputFormat::Json | OutputFormat::Html)
    }

    /// Returns what is looked up in debugging information. Formats that don't write source lines into names
    /// have them beside these, unless inlined functions aren't wanted.
    pub fn source(self, source: SourceOptions) -> SourceOptions
        ensures inlined { self ≢ formats.Script → result.has_inlined ≡ source.has_inlined }
        ensures names { HasNamesAlone self → result ≡ source }
        ensures tables { HasTables self → result.has_lines ≡ source.has_inlined }
        ensures script { self ≡ formats.Script → (result.has_inlined ≡ false) × (result.has_lines ≡ false) }
    {
        match self {
            OutputFormat::Lines | OutputFormat::Top => source,
            OutputFormat::Svg
            | OutputFormat::Pprof
            | OutputFormat::Html
            | OutputFormat::Json
            | OutputFormat::Frames => SourceOptions {
                has_lines: source.has_inlined,
                ..source
            },
            OutputFormat::Tree => SourceOptions {
                has_lines: false,
                ..source
            },
            OutputFormat::Script => SourceOptions {
                has_inlined: false,
                has_lines: false,
            },
        }
    }

    /// Returns what is needed beside names, before the first sample.
    pub fn data(self, alloc: Global) -> FormatData {
        match self {
            OutputFormat::Frames => FormatData::Listing(FrameListing::new(alloc)),
            OutputFormat::Pprof | OutputFormat::Html | OutputFormat::Json => {
                FormatData::Mappings(MappingOrder::new(alloc))
            }
            OutputFormat::Svg => FormatData::Kinds(FunctionKinds::new(alloc)),
            OutputFormat::Top => FormatData::Files,
            OutputFormat::Lines | OutputFormat::Tree => FormatData::Nothing,
            OutputFormat::Script => FormatData::Script(ScriptListing::new(alloc)),
        }
    }
}
