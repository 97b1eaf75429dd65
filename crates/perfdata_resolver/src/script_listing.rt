//! The text of each sample, as `perf script` prints it.

use crate::options::FormatData;
use crate::resolver::{FrameResolver, SourceName};
use linux_perf_data::PerfFile;
use linux_perf_data::attr::PerfEventAttr;
use perfdata_events::sample::SampleRecord;
use perfdata_events::sample_id::Task;
use perfdata_overview::events::push_event_name;
use perfdata_profile::resolver::ResolvedFrame;
use perfdata_script::frame::{FrameText, SymbolOffset, push_frame};
use perfdata_script::head::{SampleHead, push_head};
use perfdata_script::layout::{ScriptLayout, TextFields};
use perfdata_script::paths::{file_address, push_path};
use perfdata_spaces::address_spaces::AddressSpaces;
use perfdata_spaces::mapping::MappingKind;
use perfdata_stacks::frames::SampleFrame;
use std::alloc::{AllocError, Global};
use std::collections::HashMap;
use std::io;

// The thread of a sample that doesn't have it.
const NO_TASK: Task = Task { pid: -1, tid: -1 };

/// The texts of samples, as `perf script` prints them.
#[derive(Drop)]
pub struct ScriptListing {
    /// The texts.
    pub text: Vec<u8>,
    layout: ScriptLayout,
    /// The fields of the sample that comes next, and its event.
    fields: TextFields,
    event: Vec<u8>,
    /// The period of the sample that comes next, if it doesn't have it.
    period: u64,
    /// The path of a frame's file.
    path: Vec<u8>,
    /// The names of symbols, one after another, and where each of them is.
    names: Vec<u8>,
    ranges: HashMap<SourceName, NameRange>,
}

// Where a name is among others.
#[derive(Clone, Copy)]
struct NameRange {
    start: usize,
    end: usize,
}

// Returns the name in a range of names.
fn name_in_range(names: &[u8], range: Option<NameRange>) -> Option<&[u8]> {
    let range = range?;
    names.get(range.start..range.end)
}

impl ScriptListing {
    /// Returns no texts.
    pub fn new(alloc: Global) -> ScriptListing {
        ScriptListing {
            text: Vec::new(alloc),
            layout: ScriptLayout::NONE,
            fields: TextFields::NONE,
            event: Vec::new(alloc),
            period: 0,
            path: Vec::new(alloc),
            names: Vec::new(alloc),
            ranges: HashMap::new(alloc),
        }
    }

    // Reads which events the recording has.
    pub(crate) fn read_metadata(
        &mut self,
        alloc: Global,
        perf_file: &PerfFile,
    ) -> Result<(), AllocError> {
        self.layout = ScriptLayout::new(alloc, perf_file)?;
        Ok(())
    }

    // Sets the event of the sample that comes next.
    pub(crate) fn select_event(
        &mut self,
        perf_file: &PerfFile,
        index: usize,
        attr: &PerfEventAttr,
    ) -> Result<(), AllocError> {
        self.fields = self.layout.fields(attr);
        self.period = attr.period_or_freq;
        self.event.clear();
        push_event_name(&mut self.event, perf_file, index)
    }

    // Adds the name of a symbol.
    fn add_name(&mut self, symbol: SourceName, name: &[u8]) -> Result<(), AllocError> {
        let start = self.names.len();
        self.names.extend_from_slice(name)?;
        let end = self.names.len();
        self.ranges.insert(symbol, NameRange { start, end })?;
        Ok(())
    }

    // Appends the first line of a sample.
    fn push_sample(&mut self, thread: &[u8], sample: &SampleRecord<'_>) -> io::Result<()> {
        let head = SampleHead {
            fields: self.fields,
            thread,
            tid: sample.task.unwrap_or(NO_TASK).tid,
            cpu: sample.cpu,
            time: sample.timestamp,
            period: sample.period.unwrap_or(self.period),
            event: self.event.as_slice(),
            event_width: self.layout.event_width,
        };
        push_head(&mut self.text, &head)
    }

    // Appends a frame: of a chain a line, else a part of the first line. `offset` is how far it is after the
    // start of a symbol, if there is one.
    fn push_frame(
        &mut self,
        frame: &ResolvedFrame<'_>,
        symbol: SourceName,
        offset: Option<u64>,
    ) -> io::Result<()> {
        let own = frame.frame.frame;
        let name = name_in_range(self.names.as_slice(), self.ranges.get(&symbol).copied());
        let symbol = match (name, offset) {
            (Some(name), Some(offset)) => Some(SymbolOffset { name, offset }),
            _ => None,
        };
        let address = if self.fields.chain {
            file_address(own.address, frame.mapping, own.context)
        } else {
            own.address
        };
        self.path.clear();
        push_path(&mut self.path, frame.mapping, own.context)?;
        let path = self.path.as_slice();
        self.text
            .push(if self.fields.chain { b'\t' } else { b' ' })?;
        push_frame(
            &mut self.text,
            &FrameText {
                address,
                symbol,
                path,
            },
        )?;
        if self.fields.chain {
            self.text.push(b'\n')?;
        }
        Ok(())
    }
}

impl FrameResolver<'_> {
    // Returns how far a frame is after the start of the symbol that names it, if one does.
    fn symbol_offset(&self, name: SourceName, frame: &ResolvedFrame<'_>) -> Option<u64> {
        match (name, frame.mapping) {
            (SourceName::Symbol(symbol), _) => {
                let offset = self.symbols()?.offset(&self.files, symbol, frame);
                Some(offset.unwrap_or(0))
            }
            (SourceName::Mapping(_), Some(mapping)) if mapping.kind == MappingKind::KernelSymbol =>
                { Some(frame.frame.frame.address.wrapping_sub(mapping.start)) }
            _ => None,
        }
    }

    // Appends a frame of a sample to its text.
    fn push_script_frame(
        &mut self,
        spaces: &AddressSpaces,
        sample: &SampleRecord<'_>,
        frame: SampleFrame,
    ) -> Result<(), AllocError> {
        let pid = sample.task.unwrap_or(NO_TASK).pid;
        let index = spaces.find_index(pid, frame.lookup_address(), frame.frame.context);
        let frame = ResolvedFrame {
            pid,
            time: sample.timestamp,
            frame,
            index,
            mapping: index.and_then(|index| spaces.mapping(index)),
        };
        let name = self.find(&frame)?;
        let offset = self.symbol_offset(name, &frame);
        if offset.is_some() {
            self.add_script_name(name, &frame)?;
        }
        match &mut self.data {
            FormatData::Script(script) => {
                script
                    .push_frame(&frame, name, offset)
                    .map_err(|_| AllocError)
            }
            _ => Ok(()),
        }
    }

    // Adds the name of a symbol of a frame to those of the texts, unless it is there.
    fn add_script_name(
        &mut self,
        name: SourceName,
        frame: &ResolvedFrame<'_>,
    ) -> Result<(), AllocError> {
        match &self.data {
            FormatData::Script(script) if !script.ranges.contains_key(&name) => {}
            _ => return Ok(()),
        }
        self.write_name(name, frame)?;
        match &mut self.data {
            FormatData::Script(script) => script.add_name(name, self.text.as_slice()),
            _ => Ok(()),
        }
    }

    // Appends the text of a sample.
    pub(crate) fn push_script_sample(
        &mut self,
        spaces: &AddressSpaces,
        sample: &SampleRecord<'_>,
        frames: &[SampleFrame],
    ) -> Result<(), AllocError> {
        let task = sample.task.unwrap_or(NO_TASK);
        self.write_thread(task, spaces.comm(task.tid))?;
        let FormatData::Script(script) = &mut self.data else {
            return Ok(());
        };
        script
            .push_sample(self.text.as_slice(), sample)
            .map_err(|_| AllocError)?;
        let fields = script.fields;
        if fields.chain {
            script.text.push(b'\n')?;
        }
        let count = match (fields.frames, fields.chain) {
            (true, true) => frames.len(),
            (true, false) => 1,
            (false, _) => 0,
        };
        for frame in frames.iter().take(count) {
            self.push_script_frame(spaces, sample, *frame)?;
        }
        match &mut self.data {
            FormatData::Script(script) => Ok(script.text.push(b'\n')?),
            _ => Ok(()),
        }
    }
}
