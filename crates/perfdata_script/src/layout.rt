//! Which fields the texts of samples have.

use bitflags::Flags;
use linux_perf_data::PerfFile;
use linux_perf_data::attr::PerfEventAttr;
use perfdata_events::sample_bits::SampleFields;
use perfdata_overview::events::push_event_name;
use std::alloc::{AllocError, Global};

// The type of tracepoints (`PERF_TYPE_TRACEPOINT`).
const TRACEPOINT: u32 = 2;

// The number of types that the kernel defines (`PERF_TYPE_MAX`). All other events are of one further type.
const OTHER_TYPES: u32 = 6;

// The number of types.
const TYPES: usize = 7;

/// The name of what isn't known.
pub const UNKNOWN: &[u8] = b"[unknown]";

/// Which fields the text of a sample has. The name of the thread and that of the event are always there.
#[derive(Clone, Copy, Debug, PartialEq, Eq)]
pub struct TextFields {
    /// The id of the thread.
    pub tid: bool,
    /// The processor.
    pub cpu: bool,
    /// The time.
    pub time: bool,
    /// The period.
    pub period: bool,
    /// The frames, or the instruction of a sample without a chain.
    pub frames: bool,
    /// Whether the sample has a chain of frames.
    pub chain: bool,
}

/// What the texts of the samples of a recording have in common.
#[derive(Clone, Copy, Debug)]
pub struct ScriptLayout {
    /// The number of bytes of the longest name of an event.
    pub event_width: usize,
    /// Whether the samples of a tracepoint have chains.
    has_traced_chains: bool,
    /// The fields of the samples of the first event of each type.
    by_type: [Option<SampleFields>; TYPES],
}

impl TextFields {
    /// No fields.
    pub const NONE: TextFields = TextFields {
        tid: false,
        cpu: false,
        time: false,
        period: false,
        frames: false,
        chain: false,
    };
}

// Returns the fields of the samples of an event.
fn sample_fields(attr: &PerfEventAttr) -> SampleFields {
    SampleFields::from_bits_retain(attr.sample_format.0)
}

// Returns whether samples have chains: call chains, or frames that are unwound.
fn has_chain(fields: SampleFields) -> bool {
    let has_copies = fields.contains(SampleFields::REGS_USER)
        && fields.contains(SampleFields::STACK_USER);
    fields.contains(SampleFields::CALLCHAIN) || has_copies
}

// Returns the number of the type of an event.
fn type_index(attr: &PerfEventAttr) -> usize {
    attr.type_.min(OTHER_TYPES) as usize
}

impl ScriptLayout {
    /// The layout without events.
    pub const NONE: ScriptLayout = ScriptLayout {
        event_width: 0,
        has_traced_chains: false,
        by_type: [None; TYPES],
    };

    /// Returns the layout of a recording.
    ///
    /// Fails if memory runs out.
    pub fn new(alloc: Global, perf_file: &PerfFile) -> Result<ScriptLayout, AllocError> {
        let mut layout = ScriptLayout::NONE;
        let mut name = Vec::new(alloc);
        for (index, event) in perf_file.event_attributes().iter().enumerate() {
            name.clear();
            push_event_name(&mut name, perf_file, index)?;
            layout.event_width = layout.event_width.max(name.len());
            layout.add(event.attributes());
        }
        Ok(layout)
    }

    // Adds an event.
    fn add(&mut self, attr: &PerfEventAttr) {
        let fields = sample_fields(attr);
        if attr.type_ == TRACEPOINT && has_chain(fields) {
            self.has_traced_chains = true;
        }
        if let Some(first) = self.by_type.get_mut(type_index(attr)) {
            *first = first.or(Some(fields));
        }
    }

    /// Returns the fields in the text of a sample of an event. As in `perf script`, the first event of each
    /// type says which fields those of its type have. Tracepoints have no period, and no frames if no sample
    /// of a tracepoint has a chain.
    pub fn fields(&self, attr: &PerfEventAttr) -> TextFields {
        let own = sample_fields(attr);
        let first = self.by_type.get(type_index(attr)).copied().flatten();
        let fields = first.unwrap_or(own);
        let is_tracepoint = attr.type_ == TRACEPOINT;
        let frames = if is_tracepoint {
            self.has_traced_chains
        } else {
            fields.contains(SampleFields::IP)
        };
        TextFields {
            tid: fields.contains(SampleFields::TID),
            cpu: fields.contains(SampleFields::CPU),
            time: fields.contains(SampleFields::TIME),
            period: !is_tracepoint,
            frames,
            chain: frames && has_chain(own),
        }
    }
}
