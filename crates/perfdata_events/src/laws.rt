//! Laws on the definitions of formats.
ghost use Rattle.std.specs.Prelude.{ℕ, List, ◌≡◌, ◌<◌, ◌++◌, not, map, filter};
ghost use Rattle.std.specs.Option.{option_or};
ghost use Rattle.perfdata_sources.specs.Raw.{bytes_of};
ghost use Rattle.perfdata_identifiers.specs.ParseInfo.{parse_info_of, id_parse_info_of};
ghost use Rattle.perfdata_identifiers.specs.RecordFields.{read_time, read_identifier};
ghost use Rattle.perfdata_sources.specs.declared.attr.PerfEventAttr.{PerfEventAttr};
ghost use Rattle.perfdata_base.specs.declared.event.raw_event_record.RawEventRecord.{RawEventRecord};
ghost use Rattle.perfdata_sources.specs.declared.endian.Endianness.{Endianness};
ghost use Rattle.perfdata_events.specs.EventFormat.{event_format_of};
ghost use Rattle.perfdata_events.specs.RecordId.{IsSampleIdOf};
ghost use Rattle.perfdata_events.specs.declared.sample_id.SampleId.{SampleId};
ghost use Rattle.perfdata_events.specs.CallChain.{is_context_change, frames_of, last_context};
ghost use Rattle.perfdata_events.specs.declared.fields.call_chain.CallContext.{CallContext};
ghost use Rattle.perfdata_events.specs.declared.fields.call_chain.ChainFrame.{ChainFrame};
ghost use Rattle.perfdata_events.specs.OneOutcome.{HasOneOutcome};
ghost use Rattle.perfdata_events.specs.Prefix.{ConsumesPrefix};
ghost use Rattle.perfdata_events.specs.Mmap.{mmap};
ghost use Rattle.perfdata_events.specs.Lost.{lost};
ghost use Rattle.perfdata_events.specs.Comm.{comm};
ghost use Rattle.perfdata_events.specs.ForkOrExit.{fork_or_exit};
ghost use Rattle.perfdata_events.specs.Throttle.{throttle};
ghost use Rattle.perfdata_events.specs.Read.{read};
ghost use Rattle.perfdata_events.specs.Mmap2.{mmap2};
ghost use Rattle.perfdata_events.specs.Aux.{aux};
ghost use Rattle.perfdata_events.specs.ItraceStart.{itrace_start};
ghost use Rattle.perfdata_events.specs.LostSamples.{lost_samples};
ghost use Rattle.perfdata_events.specs.ContextSwitch.{switch, switch_cpu_wide};
ghost use Rattle.perfdata_events.specs.Namespaces.{namespaces};
ghost use Rattle.perfdata_events.specs.Ksymbol.{ksymbol};
ghost use Rattle.perfdata_events.specs.BpfEvent.{bpf_event};
ghost use Rattle.perfdata_events.specs.Cgroup.{cgroup};
ghost use Rattle.perfdata_events.specs.TextPoke.{text_poke};
ghost use Rattle.perfdata_events.specs.AuxOutputHwId.{aux_output_hw_id};
ghost use Rattle.perfdata_events.specs.Sample.{sample};
ghost use Rattle.perfdata_events.specs.SampleId.{sample_id};
ghost use Rattle.perfdata_events.specs.Event.{IsParsed, ParseFails};
ghost use Rattle.perfdata_events.specs.EventView.{event_view};
ghost use Rattle.perfdata_events.specs.WholeBody.{IsWholeBody};
ghost use Rattle.perfdata_events.specs.declared.event.EventRecord.{EventRecord};
ghost use Rattle.std.specs.declared.io.ErrorKind.{ErrorKind};
ghost use Rattle.perfdata_events.specs.declared.format.EventFormat.{EventFormat};

/// Bytes either start with exactly one value of a record's fields, which are followed by exactly one rest, or
/// have exactly one first error. `number` parses a number of a given size, in either byte order.
pub fn fields_have_one_outcome()
    ensures mmap { (number : ℕ → List ℕ → ℕ) (misc : ℕ) → HasOneOutcome (mmap number misc) }
    ensures lost { (number : ℕ → List ℕ → ℕ) → HasOneOutcome (lost number) }
    ensures comm { (number : ℕ → List ℕ → ℕ) (misc : ℕ) → HasOneOutcome (comm number misc) }
    ensures fork_or_exit { (number : ℕ → List ℕ → ℕ) → HasOneOutcome (fork_or_exit number) }
    ensures throttle { (number : ℕ → List ℕ → ℕ) → HasOneOutcome (throttle number) }
    ensures read { (number : ℕ → List ℕ → ℕ) (read_format : ℕ) → HasOneOutcome (read number read_format) }
    ensures mmap2 { (number : ℕ → List ℕ → ℕ) (misc : ℕ) → HasOneOutcome (mmap2 number misc) }
    ensures aux { (number : ℕ → List ℕ → ℕ) → HasOneOutcome (aux number) }
    ensures itrace_start { (number : ℕ → List ℕ → ℕ) → HasOneOutcome (itrace_start number) }
    ensures lost_samples { (number : ℕ → List ℕ → ℕ) → HasOneOutcome (lost_samples number) }
    ensures switch { (misc : ℕ) → HasOneOutcome (switch misc) }
    ensures switch_cpu_wide { (number : ℕ → List ℕ → ℕ) (misc : ℕ)
        → HasOneOutcome (switch_cpu_wide misc number) }
    ensures namespaces { (number : ℕ → List ℕ → ℕ) → HasOneOutcome (namespaces number) }
    ensures ksymbol { (number : ℕ → List ℕ → ℕ) → HasOneOutcome (ksymbol number) }
    ensures bpf_event { (number : ℕ → List ℕ → ℕ) → HasOneOutcome (bpf_event number) }
    ensures cgroup { (number : ℕ → List ℕ → ℕ) → HasOneOutcome (cgroup number) }
    ensures text_poke { (number : ℕ → List ℕ → ℕ) → HasOneOutcome (text_poke number) }
    ensures aux_output_hw_id { (number : ℕ → List ℕ → ℕ) → HasOneOutcome (aux_output_hw_id number) }
    ensures sample { (number : ℕ → List ℕ → ℕ) (format : EventFormat) → HasOneOutcome (sample number format) }
    ensures sample_id { (number : ℕ → List ℕ → ℕ) (sample_format : ℕ)
        → HasOneOutcome (sample_id number sample_format) }
{}

/// The bytes of a record's fields and the bytes after them are all the bytes, in order.
pub fn fields_are_a_prefix()
    ensures mmap { (number : ℕ → List ℕ → ℕ) (misc : ℕ) → ConsumesPrefix (mmap number misc) }
    ensures lost { (number : ℕ → List ℕ → ℕ) → ConsumesPrefix (lost number) }
    ensures comm { (number : ℕ → List ℕ → ℕ) (misc : ℕ) → ConsumesPrefix (comm number misc) }
    ensures fork_or_exit { (number : ℕ → List ℕ → ℕ) → ConsumesPrefix (fork_or_exit number) }
    ensures throttle { (number : ℕ → List ℕ → ℕ) → ConsumesPrefix (throttle number) }
    ensures read { (number : ℕ → List ℕ → ℕ) (read_format : ℕ) → ConsumesPrefix (read number read_format) }
    ensures mmap2 { (number : ℕ → List ℕ → ℕ) (misc : ℕ) → ConsumesPrefix (mmap2 number misc) }
    ensures aux { (number : ℕ → List ℕ → ℕ) → ConsumesPrefix (aux number) }
    ensures itrace_start { (number : ℕ → List ℕ → ℕ) → ConsumesPrefix (itrace_start number) }
    ensures lost_samples { (number : ℕ → List ℕ → ℕ) → ConsumesPrefix (lost_samples number) }
    ensures switch { (misc : ℕ) → ConsumesPrefix (switch misc) }
    ensures switch_cpu_wide { (number : ℕ → List ℕ → ℕ) (misc : ℕ)
        → ConsumesPrefix (switch_cpu_wide misc number) }
    ensures namespaces { (number : ℕ → List ℕ → ℕ) → ConsumesPrefix (namespaces number) }
    ensures ksymbol { (number : ℕ → List ℕ → ℕ) → ConsumesPrefix (ksymbol number) }
    ensures bpf_event { (number : ℕ → List ℕ → ℕ) → ConsumesPrefix (bpf_event number) }
    ensures cgroup { (number : ℕ → List ℕ → ℕ) → ConsumesPrefix (cgroup number) }
    ensures text_poke { (number : ℕ → List ℕ → ℕ) → ConsumesPrefix (text_poke number) }
    ensures aux_output_hw_id { (number : ℕ → List ℕ → ℕ) → ConsumesPrefix (aux_output_hw_id number) }
    ensures sample { (number : ℕ → List ℕ → ℕ) (format : EventFormat)
        → ConsumesPrefix (sample number format) }
    ensures sample_id { (number : ℕ → List ℕ → ℕ) (sample_format : ℕ)
        → ConsumesPrefix (sample_id number sample_format) }
{}

/// A body has at most one parsed form, and none if it has an error. In a parsed body the fields come first,
/// in order, then padding, then the sample_id fields; together they are all of its bytes.
pub fn a_body_has_one_form()
    ensures unique { (format : EventFormat) (raw : RawEventRecord) (a b : EventRecord)
        → IsParsed format raw a → IsParsed format raw b → event_view a ≡ event_view b }
    ensures parsed_or_failed { (format : EventFormat) (raw : RawEventRecord) (event : EventRecord)
        (kind : ErrorKind) → IsParsed format raw event → ¬ ParseFails format raw kind }
    ensures whole { (format : EventFormat) (raw : RawEventRecord) (event : EventRecord)
        → IsParsed format raw event → IsWholeBody format raw event }
{}

/// The time and the identifier that `sample_id` returns are those that the reader finds at their offsets in
/// the record: the identifier is IDENTIFIER if the attribute selects it, else ID. The type of a kernel record
/// is below 64.
pub fn sample_id_is_what_the_reader_finds()
    ensures timestamp { (attr : PerfEventAttr) (order : Endianness) (raw : RawEventRecord) (id : SampleId)
        → raw.record_type.0 < 64 → IsSampleIdOf (event_format_of attr order) raw id → id.timestamp
        ≡ read_time (parse_info_of attr order) raw.record_type.0 (bytes_of raw.body) }
    ensures identifier { (attr : PerfEventAttr) (order : Endianness) (raw : RawEventRecord) (id : SampleId)
        → raw.record_type.0 < 64 → IsSampleIdOf (event_format_of attr order) raw id
        → option_or id.identifier id.id ≡ read_identifier order (id_parse_info_of attr) raw.record_type.0
        (bytes_of raw.body) }
{}

/// The frames of a call chain are its values that change no context, in order, each with the last context
/// before it.
pub fn frames_are_values_in_context()
    ensures addresses { (context : CallContext) (values : List ℕ)
        → map (λ (f : ChainFrame). f.address) (frames_of context values)
        ≡ filter (λ v. not (is_context_change v)) values }
    ensures contexts { (context : CallContext) (before later : List ℕ) → frames_of context (before ++ later)
        ≡ frames_of context before ++ frames_of (last_context context before) later }
{}
