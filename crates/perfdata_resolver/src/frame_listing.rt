//! The frames of each sample as lines.

use crate::name_texts::push_mapped_path;
use crate::options::FormatData;
use crate::resolver::{FrameResolver, SourceName, UNKNOWN};
use crate::source_lines::{SourceLine, SourceLines};
use crate::unwinding::CopiedChain;
use code_unwind::{ChainEnd, FrameOrigin};
use perfdata_events::call_chain::CallContext;
use perfdata_events::sample::SampleRecord;
use perfdata_events::sample_id::Task;
use perfdata_profile::resolver::ResolvedFrame;
use perfdata_spaces::address_spaces::AddressSpaces;
use perfdata_spaces::mapping::{Mapping, MappingKind};
use perfdata_stacks::frames::SampleFrame;
use perfdata_stacks::line::push_name;
use std::alloc::{AllocError, Global};
use std::io;
use std::io::Write;

// The number of nanoseconds of a second.
const SECOND: u64 = 1_000_000_000;

// The end of the lines of a sample.
#[derive(Clone, Copy)]
struct ListedSample {
    /// The column of its event.
    column: usize,
    /// The number of bytes of lines up to its end.
    end: usize,
}

/// The lines of the frames of each sample.
#[derive(Drop)]
pub struct FrameListing {
    alloc: Global,
    /// The lines.
    pub lines: Vec<u8>,
    samples: Vec<ListedSample>,
    /// The name of the event of the sample that comes next.
    event: Vec<u8>,
}

// The text of a frame's name, which is listed if it is that of a symbol, with the offset in the symbol and
// how the frame was found, if these are known.
#[derive(Clone, Copy)]
struct ListedName<'a> {
    name: &'a [u8],
    is_symbol: bool,
    offset: Option<u64>,
    origin: Option<FrameOrigin>,
}

// Returns the letter of how a frame was found: in the call chain, unless the stack was unwound.
fn origin_letter(context: CallContext, origin: Option<FrameOrigin>) -> char {
    match (origin, context) {
        (Some(FrameOrigin::Registers), _) => 'r',
        (Some(FrameOrigin::Cfi), _) => 'c',
        (Some(FrameOrigin::SignalFrame), _) => 's',
        (Some(FrameOrigin::Plt), _) => 'p',
        (Some(FrameOrigin::FramePointer), _) => 'f',
        (None, CallContext::User) => 'u',
        (None, _) => 'k',
    }
}

// Returns whether what names a frame in a mapping is a symbol.
fn is_symbol(name: SourceName, mapping: Option<&Mapping>) -> bool {
    match (name, mapping) {
        (SourceName::Symbol(_), _) => true,
        (SourceName::Mapping(_), Some(mapping)) => mapping.kind == MappingKind::KernelSymbol,
        _ => false,
    }
}

impl FrameListing {
    /// Returns no lines.
    pub fn new(alloc: Global) -> FrameListing {
        FrameListing {
            alloc,
            lines: Vec::new(alloc),
            samples: Vec::new(alloc),
            event: Vec::new(alloc),
        }
    }

    /// Ends the lines of a sample, whose event has a column.
    ///
    /// Fails if memory runs out.
    pub fn end_sample(&mut self, column: usize) -> Result<(), AllocError> {
        let end = self.lines.len();
        Ok(self.samples.push(ListedSample { column, end })?)
    }

    /// Keeps the lines of the samples whose columns are selected, of those that were ended.
    ///
    /// Fails if memory runs out.
    pub fn keep<F: Fn(usize) -> bool>(&mut self, is_selected: F) -> Result<(), AllocError>
        requires { F.IsAlwaysCallable is_selected }
    {
        let mut kept = Vec::new(self.alloc);
        let mut start = 0usize;
        for sample in self.samples.iter() {
            if is_selected(sample.column) {
                kept.extend_from_slice(self.lines.get(start..sample.end).unwrap_or(&[]))?;
            }
            start = sample.end;
        }
        if !self.samples.is_empty() {
            self.lines = kept;
        }
        Ok(())
    }

    // Sets the event of the sample that comes next.
    pub(crate) fn select_event(&mut self, name: Option<&[u8]>) -> Result<(), AllocError> {
        self.event.clear();
        self.event.extend_from_slice(name.unwrap_or(UNKNOWN))
    }

    // Adds the line of a sample.
    fn begin_sample(
        &mut self,
        thread: &[u8],
        task: Task,
        time: Option<u64>,
        end: ChainEnd,
    ) -> io::Result<()> {
        let lines = &mut self.lines;
        lines.extend_from_slice(thread)?;
        write!(lines, " {}/{} ", task.pid, task.tid)?;
        match time {
            Some(time) => write!(lines, "{}.{:09}", time / SECOND, time % SECOND)?,
            None => lines.extend_from_slice(UNKNOWN)?,
        }
        lines.push(b' ')?;
        push_name(lines, self.event.as_slice())?;
        writeln!(lines, " {}", end.name())
    }

    // Adds the line of a function that is inlined at the address of a frame.
    fn push_inlined(&mut self, address: u64, line: &SourceLine<'_>) -> io::Result<()> {
        let lines = &mut self.lines;
        write!(lines, "\t{address:x} ")?;
        lines.extend_from_slice(line.name)?;
        line.push_whole(lines)?;
        lines.extend_from_slice(b" inlined\n")?;
        Ok(())
    }

    // Adds the lines of a frame: of the functions that are inlined at its address, and its own.
    fn push_frames(
        &mut self,
        frame: &ResolvedFrame<'_>,
        listed: ListedName<'_>,
        functions: &SourceLines,
    ) -> io::Result<()> {
        let count = functions.inlined_count();
        for index in 0..count {
            self.push_inlined(frame.frame.frame.address, &functions.get(index))?;
        }
        self.push_frame(frame, listed, &functions.get(count))
    }

    // Adds the line of a frame, whose function has a source line.
    fn push_frame(
        &mut self,
        frame: &ResolvedFrame<'_>,
        listed: ListedName<'_>,
        line: &SourceLine<'_>,
    ) -> io::Result<()> {
        let lines = &mut self.lines;
        let own = frame.frame.frame;
        write!(lines, "\t{:x} ", own.address)?;
        if !line.name.is_empty() {
            lines.extend_from_slice(line.name)?;
        } else if listed.is_symbol {
            lines.extend_from_slice(listed.name)?;
        } else {
            lines.extend_from_slice(UNKNOWN)?;
        }
        if let Some(offset) = listed.offset {
            write!(lines, "+{offset:#x}")?;
        }
        lines.extend_from_slice(b" (")?;
        match frame.mapping {
            Some(mapping) => push_mapped_path(lines, mapping)?,
            None => lines.extend_from_slice(UNKNOWN)?,
        }
        write!(lines, ") {}", origin_letter(own.context, listed.origin))?;
        line.push_whole(lines)?;
        lines.push(b'\n')?;
        Ok(())
    }
}

impl FrameResolver<'_> {
    // Returns how far a frame is after the start of the symbol of a file that names it, if that is known.
    fn listed_offset(&self, name: SourceName, frame: &ResolvedFrame<'_>) -> Option<u64> {
        match name {
            SourceName::Symbol(symbol) => self.symbols()?.offset(&self.files, symbol, frame),
            _ => None,
        }
    }

    // Lists a frame.
    fn list_frame(
        &mut self,
        spaces: &AddressSpaces,
        sample: &SampleRecord<'_>,
        frame: SampleFrame,
        origin: Option<FrameOrigin>,
    ) -> Result<(), AllocError> {
        let pid = sample.task.map_or(-1, |task| task.pid);
        let index = spaces.find_index(pid, frame.lookup_address(), frame.frame.context);
        let frame = ResolvedFrame {
            pid,
            time: sample.timestamp,
            frame,
            index,
            mapping: index.and_then(|index| spaces.mapping(index)),
        };
        let found = self.find_name(&frame)?;
        let name = found.name;
        self.write_name(name, &frame)?;
        self.read_source(found, &frame)?;
        let offset = self.listed_offset(name, &frame);
        let FormatData::Listing(listing) = &mut self.data else {
            return Ok(());
        };
        let listed = ListedName {
            name: self.text.as_slice(),
            is_symbol: is_symbol(name, frame.mapping),
            offset,
            origin,
        };
        listing
            .push_frames(&frame, listed, &self.source_lines)
            .map_err(|_| AllocError)
    }

    // Lists a sample and its frames, and an empty line.
    pub(crate) fn list_sample(
        &mut self,
        spaces: &AddressSpaces,
        sample: &SampleRecord<'_>,
        frames: &[SampleFrame],
    ) -> Result<(), AllocError> {
        let chain = match &self.unwinding {
            Some(unwinding) => unwinding.chain,
            None => CopiedChain::NONE,
        };
        let task = sample.task.unwrap_or(Task { pid: -1, tid: -1 });
        self.write_thread(task, spaces.comm(task.tid))?;
        if let FormatData::Listing(listing) = &mut self.data {
            listing
                .begin_sample(self.text.as_slice(), task, sample.timestamp, chain.end)
                .map_err(|_| AllocError)?;
        }
        let kernel_frames = frames.len().saturating_sub(chain.size);
        for (index, frame) in frames.iter().enumerate() {
            let origin = match (&self.unwinding, index.checked_sub(kernel_frames)) {
                (Some(unwinding), Some(index)) => unwinding.origin(index),
                _ => None,
            };
            self.list_frame(spaces, sample, *frame, origin)?;
        }
        match &mut self.data {
            FormatData::Listing(listing) => Ok(listing.lines.push(b'\n')?),
            _ => Ok(()),
        }
    }
}
