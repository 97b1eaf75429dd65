//! The frames of samples, and the names of threads, functions and files.

ghost use Rattle.std.specs.Prelude.{Bool, IfOk, IfSome, OnOk};
ghost use Rattle.perfdata_profile.specs.Interning.{Grows};
ghost use Rattle.perfdata_profile.specs.Names.{names_of};
ghost use Rattle.perfdata_profile.specs.Resolving.{AreFrameLines, IsIdOf, Meaning, frame_value};
ghost use Rattle.perfdata_profile.specs.Values.{AreNamedIn, HasNames};

use crate::chain_shape::ChainShapes;
use crate::function_kinds::add_frame;
use crate::name_texts::{push_base_name, push_file_name, push_path};
use crate::options::{FormatData, INLINED_END, NameKind, ResolverOptions};
use crate::recorded_ids::{add_recorded_id, add_recorded_ids};
use crate::return_addresses::find_begun;
use crate::source_lines::{NameReader, SourceLines};
use crate::unwinding::{EndCounts, Unwinding};
use code_files::{FileOptions, MappedFiles, PathError, ProblemFile};
use demangle::{Demangler, Style};
use linux_perf_data::{Error, PerfFile, RawUserRecord};
use perfdata_events::event::EventRecord;
use perfdata_events::sample::SampleRecord;
use perfdata_events::sample_id::Task;
use perfdata_names::{MissingKernelSymbols, SymbolId, SymbolName, Symbols, TableId};
use perfdata_profile::lines::Line;
use perfdata_profile::names::{NameId, Names};
use perfdata_profile::resolver::{FileNames, ResolvedFrame, Resolver, resolve_frames};
use perfdata_spaces::address_spaces::AddressSpaces;
use perfdata_spaces::mapping::{Mapping, MappingKind};
use perfdata_stacks::frames::SampleFrame;
use perfdata_stacks::line::push_name;
use std::alloc::{AllocError, Global};
use std::collections::HashMap;
use std::io::Write;

// The name of the idle task, whose thread id is 0.
const IDLE_TASK: &[u8] = b"swapper";

// The name of what isn't known.
pub(crate) const UNKNOWN: &[u8] = b"[unknown]";

// Which names frames have.
#[derive(Drop)]
enum NameSource<'a> {
    /// Symbols, and files where there are none.
    Symbols(Symbols<'a>),
    /// Files.
    Files,
    /// Addresses.
    Addresses,
}

// What names a frame.
#[derive(Clone, Copy, PartialEq, Eq, Hash)]
pub(crate) enum SourceName {
    /// A symbol.
    Symbol(SymbolId),
    /// The mapping with an index.
    Mapping(usize),
    /// Its address.
    Address,
    /// Nothing.
    Unknown,
}

// What names a frame.
#[derive(Clone, Copy)]
pub(crate) struct FoundName {
    pub(crate) name: SourceName,
    /// Whether callers that are looked up at its address have another name than other frames there.
    is_divided: bool,
}

/// Says which frames samples have, and names threads, functions and files.
#[derive(Drop)]
pub struct FrameResolver<'a> {
    alloc: Global,
    pub(crate) files: MappedFiles<'a>,
    source: NameSource<'a>,
    demangler: Demangler,
    /// The style of the texts of mangled names, unless these stay.
    style: Option<Style>,
    /// The ids of the names of frames.
    ids: HashMap<SourceName, NameId>,
    pub(crate) text: Vec<u8>,
    /// The functions and source lines of the frame that was looked up last.
    pub(crate) source_lines: SourceLines,
    /// What unwinds samples, unless an option says that none is unwound.
    pub(crate) unwinding: Option<Unwinding>,
    /// The number of samples so far.
    samples: u64,
    shapes: ChainShapes,
    /// What a format needs beside names.
    pub data: FormatData,
}

// Interns a name. Returns its id.
fn intern(names: &mut Names, name: &[u8]) -> Result<NameId, AllocError>
    ensures grows { Grows (names_of names.old) (names_of names.new) }
    ensures named { IfOk result (λ id. IsIdOf (λ text. Unit {0}) (names_of names.new) id) }
{
    names.intern(name)
}

// Appends the name of a symbol: a script has it as it is.
fn push_symbol_text(data: &FormatData, text: &mut Vec<u8>, name: &[u8]) -> Result<(), AllocError> {
    match data {
        FormatData::Script(_) => text.extend_from_slice(name),
        _ => push_name(text, name),
    }
}

// Opens the files that options need.
fn open_files<'a>(
    rt: &'a HostRuntime,
    options: &ResolverOptions<'a>,
) -> Result<MappedFiles<'a>, PathError<'a>> {
    let files = FileOptions {
        vdso: options.files.vdso.filter(|_| options.unwinds),
        ..options.files
    };
    if options.unwinds || options.name_kind == NameKind::Symbol {
        MappedFiles::open(rt, Some(&files))
    } else {
        MappedFiles::open(rt, None)
    }
}

impl<'a> FrameResolver<'a> {
    /// Opens what the options name frames by. `data` is filled with what a format needs beside names.
    ///
    /// Fails with the first path of the options that can't be opened.
    pub fn open(
        rt: &'a HostRuntime,
        options: &ResolverOptions<'a>,
        data: FormatData,
    ) -> Result<FrameResolver<'a>, PathError<'a>> {
        let alloc = rt.alloc();
        let mut files = open_files(rt, options)?;
        if !options.source.has_lines {
            files.leave_out_lines();
        } else if data.names_lines() {
            files.want_lines();
        }
        Ok(FrameResolver {
            alloc,
            files,
            source: match options.name_kind {
                NameKind::Symbol => NameSource::Symbols(Symbols::new(rt, options.kernel_list)),
                NameKind::File => NameSource::Files,
                NameKind::Address => NameSource::Addresses,
            },
            demangler: Demangler::new(alloc),
            style: options.demangling,
            ids: HashMap::new(alloc),
            text: Vec::new(alloc),
            source_lines: SourceLines::new(alloc, options.source),
            unwinding: if options.unwinds {
                Some(Unwinding::new(alloc))
            } else {
                None
            },
            samples: 0,
            shapes: ChainShapes::NONE,
            data,
        })
    }

    /// Returns how the chains of samples end, if samples are unwound.
    pub fn end_counts(&self) -> Option<EndCounts> {
        Some(self.unwinding.as_ref()?.counts)
    }

    /// Sets the event of the sample that comes next, by its index.
    ///
    /// Fails if memory runs out.
    pub fn select_event(&mut self, perf_file: &PerfFile, index: usize) -> Result<(), AllocError> {
        let Some(event) = perf_file.event_attributes().get(index) else {
            return Ok(());
        };
        if let Some(unwinding) = &mut self.unwinding {
            unwinding.select_event(event.attributes());
        }
        match &mut self.data {
            FormatData::Listing(listing) => {
                listing.select_event(event.name().map(|name| name.as_bytes()))
            }
            FormatData::Script(script) => {
                script.select_event(perf_file, index, event.attributes())
            }
            _ => Ok(()),
        }
    }

    // Returns the symbols, if frames have their names.
    pub(crate) fn symbols(&self) -> Option<&Symbols<'a>> {
        match &self.source {
            NameSource::Symbols(symbols) => Some(symbols),
            _ => None,
        }
    }

    // Returns the symbols and the files, if frames have the names of symbols.
    pub(crate) fn symbols_and_files(&mut self) -> Option<(&mut Symbols<'a>, &mut MappedFiles<'a>)> {
        match &mut self.source {
            NameSource::Symbols(symbols) => Some((symbols, &mut self.files)),
            _ => None,
        }
    }

    /// Returns the files of mappings that aren't used or not completely.
    pub fn problem_files(&self) -> &[ProblemFile] {
        self.files.problems()
    }

    /// Returns the number of compilation units whose debugging information is in other files (`.dwo`), which
    /// aren't read.
    pub fn split_units(&self) -> u64 {
        self.files.split_units()
    }

    /// Returns the number of errors of other compilation units.
    pub fn unreadable_units(&self) -> u64 {
        self.files.unreadable_units()
    }

    /// Returns what call chains without a copy of the stack look like.
    pub fn chain_shapes(&self) -> ChainShapes {
        self.shapes
    }

    /// Returns the error of the kernel's list of symbols that the options name, if an address of the kernel
    /// was looked up and the list can't be read. It is returned once.
    pub fn take_kernel_list_error(&mut self) -> Option<PathError<'a>> {
        match &mut self.source {
            NameSource::Symbols(symbols) => symbols.take_kernel_list_error(),
            _ => None,
        }
    }

    /// Returns why frames of the kernel have no names of symbols, if there are such frames and no option asks
    /// for it.
    pub fn missing_kernel_symbols(&self) -> Option<&MissingKernelSymbols> {
        self.symbols()?.missing_kernel_symbols()
    }

    // Returns whether build ids are needed: to compare files with them, or in the output.
    fn needs_build_ids(&self) -> bool {
        self.symbols().is_some()
            || self.unwinding.is_some()
            || matches!(self.data, FormatData::Mappings(_))
    }

    /// Reads the metadata of the recording.
    ///
    /// Fails with the error of a section that names need, or if memory runs out.
    pub fn read_metadata(&mut self, perf_file: &PerfFile) -> Result<(), Error> {
        if let Some(unwinding) = &mut self.unwinding {
            unwinding.read_metadata(perf_file)?;
        }
        if let FormatData::Script(script) = &mut self.data {
            script.read_metadata(self.alloc, perf_file)?;
        }
        if self.needs_build_ids() {
            add_recorded_ids(self.alloc, perf_file, &mut self.files.build_ids)?;
        }
        if let NameSource::Symbols(symbols) = &mut self.source {
            if let Some(release) = perf_file.os_release()? {
                symbols.set_release(release)?;
            }
            if let Some(records) = perf_file.simpleperf_symbol_tables(self.alloc)? {
                symbols.add_recorded(records.as_slice())?;
            }
        }
        Ok(())
    }

    /// Adds the build id that a HEADER_BUILD_ID record has.
    ///
    /// Fails if the record is truncated, or if memory runs out.
    pub fn add_build_id(&mut self, record: &RawUserRecord<'_>) -> Result<(), Error> {
        if self.needs_build_ids() {
            add_recorded_id(self.alloc, record, &mut self.files.build_ids)?;
        }
        Ok(())
    }

    // Returns what names a frame.
    pub(crate) fn find(&mut self, frame: &ResolvedFrame<'_>) -> Result<SourceName, AllocError> {
        Ok(self.find_name(frame)?.name)
    }

    // Returns whether a frame is in the code of a file whose symbols are used. A caller that returns to the
    // start of a function isn't at the address at which it is looked up.
    fn is_in_file(&self, found: FoundName, frame: &ResolvedFrame<'_>, index: usize) -> bool {
        let is_listed = match found.name {
            SourceName::Symbol(symbol) => !matches!(symbol.table, TableId::File(_)),
            _ => false,
        };
        let has_begun = found.is_divided && frame.frame.is_caller;
        match self.symbols() {
            Some(symbols) => !is_listed && !has_begun && symbols.are_of_file(index),
            None => false,
        }
    }

    // Looks up the functions and source lines of a frame whose name was found.
    pub(crate) fn read_source(
        &mut self,
        found: FoundName,
        frame: &ResolvedFrame<'_>,
    ) -> Result<(), AllocError> {
        self.source_lines.clear();
        if !self.source_lines.options.is_given() {
            return Ok(());
        }
        let (Some(index), Some(mapping)) = (frame.index, frame.mapping) else {
            return Ok(());
        };
        if !self.is_in_file(found, frame, index) {
            return Ok(());
        }
        let address = frame.frame.lookup_address();
        let Some(frames) = self.files.find_source(index, mapping, address)? else {
            return Ok(());
        };
        let reader = NameReader {
            demangler: &mut self.demangler,
            style: self.style,
        };
        let has_symbol = matches!(found.name, SourceName::Symbol(_));
        self.source_lines.read(reader, &frames, !has_symbol)
    }

    // Returns what names a frame, and whether callers at its address have another name.
    pub(crate) fn find_name(&mut self, frame: &ResolvedFrame<'_>) -> Result<FoundName, AllocError> {
        let (mut symbol, mut is_divided) = (None, false);
        match &mut self.source {
            NameSource::Symbols(symbols) => {
                symbol = symbols.find(&mut self.files, frame)?;
                if frame.frame.is_caller || symbols.is_fixed(frame) {
                    let begun = find_begun(symbols, &mut self.files, frame, symbol)?;
                    is_divided = begun.is_some();
                    symbol = begun.filter(|_| frame.frame.is_caller).or(symbol);
                }
            }
            NameSource::Files => {}
            NameSource::Addresses => {
                return Ok(FoundName {
                    name: SourceName::Address,
                    is_divided,
                });
            }
        }
        let name = match (symbol, frame.index) {
            (Some(symbol), _) => SourceName::Symbol(symbol),
            (None, Some(index)) => SourceName::Mapping(index),
            (None, None) => SourceName::Unknown,
        };
        Ok(FoundName { name, is_divided })
    }

    // Returns whether the file of a frame has a problem, so that each sample with such a frame is counted.
    fn has_problem(&self, frame: &ResolvedFrame<'_>) -> bool {
        frame
            .index
            .is_some_and(|index| self.files.has_problem(index))
    }

    // Returns whether all frames at an address of a mapping have one name. Generated code isn't there at all
    // times.
    fn is_fixed(&self, frame: &ResolvedFrame<'_>) -> bool {
        match &self.source {
            NameSource::Symbols(symbols) => symbols.is_fixed(frame) && !self.has_problem(frame),
            NameSource::Files => true,
            NameSource::Addresses => false,
        }
    }

    // Appends the name of a symbol to the text, demangled if it is mangled and has such a text.
    fn push_symbol(&mut self, id: SymbolId) -> Result<(), AllocError> {
        let NameSource::Symbols(symbols) = &self.source else {
            return Ok(());
        };
        let SymbolName { name, is_mangled } = symbols.name(&self.files, id);
        let has_text = match self.style {
            Some(style) if is_mangled => self.demangler.demangle(name, style)?,
            _ => false,
        };
        if has_text {
            push_symbol_text(&self.data, &mut self.text, self.demangler.text())
        } else {
            push_symbol_text(&self.data, &mut self.text, name)
        }
    }

    // Appends the name of a mapping to the text: that of its file, or of a symbol of the kernel.
    fn push_mapping(&mut self, mapping: &Mapping) -> Result<(), AllocError> {
        if mapping.kind == MappingKind::KernelSymbol && self.symbols().is_some() {
            push_name(&mut self.text, mapping.path.as_slice())
        } else {
            push_file_name(&mut self.text, mapping)
        }
    }

    // Sets the text to the name of a frame.
    pub(crate) fn write_name(
        &mut self,
        name: SourceName,
        frame: &ResolvedFrame<'_>,
    ) -> Result<(), AllocError> {
        self.text.clear();
        match (name, frame.mapping) {
            (SourceName::Symbol(symbol), _) => self.push_symbol(symbol),
            (SourceName::Mapping(_), Some(mapping)) => self.push_mapping(mapping),
            (SourceName::Address, _) => {
                write!(self.text, "{:#x}", frame.frame.frame.address).map_err(|_| AllocError)
            }
            _ => self.text.extend_from_slice(UNKNOWN),
        }
    }

    // Appends the name of a frame's file after a mark, if the format needs it.
    fn push_file(&mut self, frame: &ResolvedFrame<'_>) -> Result<(), AllocError> {
        if !matches!(self.data, FormatData::Files) {
            return Ok(());
        }
        self.text.push(0)?;
        match frame.mapping {
            Some(mapping) => push_base_name(&mut self.text, mapping),
            None => self.text.extend_from_slice(UNKNOWN),
        }
    }

    /// Returns the path and the build id of a mapped file. The build id is empty if it isn't known.
    ///
    /// Fails if memory runs out.
    pub fn mapped_file(&self, mapping: &Mapping) -> Result<(Vec<u8>, Vec<u8>), AllocError> {
        let mut path = Vec::new(self.alloc);
        push_path(&mut path, mapping)?;
        let build_id = self.files.build_ids.find(mapping).to_vec(self.alloc)?;
        Ok((path, build_id))
    }

    // Sets the text to the name of a thread.
    pub(crate) fn write_thread(
        &mut self,
        task: Task,
        comm: Option<&[u8]>,
    ) -> Result<(), AllocError> {
        self.text.clear();
        match comm {
            Some(comm) if matches!(self.data, FormatData::Script(_)) => {
                self.text.extend_from_slice(comm)
            }
            Some(comm) => push_name(&mut self.text, comm),
            None if task.tid == 0 => self.text.extend_from_slice(IDLE_TASK),
            None => write!(self.text, ":{}", task.tid).map_err(|_| AllocError),
        }
    }

    // Returns the id of a name that was interned.
    fn cached_name(&self, name: SourceName, names: &Names) -> Option<NameId>
        ensures { IfSome result (λ id. IsIdOf (λ text. Unit {0}) (names_of names.now) id) }
    {
        let id = *self.ids.get(&name)?;
        match names.get(id) {
            Some(_) => Some(id),
            None => None,
        }
    }

    // Interns the text as the name of a function of a frame. Returns its id.
    fn intern_text(
        &mut self,
        frame: &ResolvedFrame<'_>,
        names: &mut Names,
    ) -> Result<NameId, AllocError>
        ensures grows { Grows (names_of names.old) (names_of names.new) }
        ensures named { IfOk result (λ id. IsIdOf (λ text. Unit {0}) (names_of names.new) id) }
    {
        self.push_file(frame)?;
        let id = intern(names, self.text.as_slice())?;
        if let FormatData::Kinds(kinds) = &mut self.data {
            add_frame(kinds, id, frame)?;
        }
        Ok(id)
    }

    // Interns the name of a frame. Returns its id.
    fn intern_name(
        &mut self,
        name: SourceName,
        frame: &ResolvedFrame<'_>,
        names: &mut Names,
    ) -> Result<NameId, AllocError>
        ensures grows { Grows (names_of names.old) (names_of names.new) }
        ensures named { IfOk result (λ id. IsIdOf (λ text. Unit {0}) (names_of names.new) id) }
    {
        self.write_name(name, frame)?;
        let id = self.intern_text(frame, names)?;
        if name != SourceName::Address {
            self.ids.insert(name, id)?;
        }
        Ok(id)
    }

    // Returns the id of the name of a frame that nothing else is written to.
    fn plain_name(
        &mut self,
        name: SourceName,
        frame: &ResolvedFrame<'_>,
        names: &mut Names,
    ) -> Result<NameId, AllocError>
        ensures grows { Grows (names_of names.old) (names_of names.new) }
        ensures named { IfOk result (λ id. IsIdOf (λ text. Unit {0}) (names_of names.new) id) }
    {
        match self.cached_name(name, names) {
            Some(id) => Ok(id),
            None => self.intern_name(name, frame, names),
        }
    }

    // Returns whether a function, by its index, has its name from debugging information, or has a source line
    // in its name.
    fn has_source_name(&self, index: usize) -> bool {
        let line = self.source_lines.get(index);
        !line.name.is_empty() || self.data.names_lines() && line.has_file()
    }

    // Sets the text to the name of a function of a frame, by its index, with its source line if names contain
    // it. `name` is what names the frame.
    fn write_source_name(
        &mut self,
        index: usize,
        name: SourceName,
        frame: &ResolvedFrame<'_>,
    ) -> Result<(), AllocError> {
        let line = self.source_lines.get(index);
        if line.name.is_empty() {
            self.write_name(name, frame)?;
        } else {
            self.text.clear();
            self.text.extend_from_slice(line.name)?;
        }
        if index < self.source_lines.inlined_count() && matches!(self.data, FormatData::Kinds(_)) {
            self.text.extend_from_slice(INLINED_END)?;
        }
        if self.data.names_lines() {
            let line = self.source_lines.get(index);
            line.push_short(&mut self.text).map_err(|_| AllocError)?;
        }
        Ok(())
    }

    // Returns the id of the name of a function of a frame, by its index. `name` is what names the frame.
    fn function(
        &mut self,
        index: usize,
        name: SourceName,
        frame: &ResolvedFrame<'_>,
        names: &mut Names,
    ) -> Result<NameId, AllocError>
        ensures grows { Grows (names_of names.old) (names_of names.new) }
        ensures named { IfOk result (λ id. IsIdOf (λ text. Unit {0}) (names_of names.new) id) }
    {
        if !self.has_source_name(index) {
            return self.plain_name(name, frame, names);
        }
        self.write_source_name(index, name, frame)?;
        self.intern_text(frame, names)
    }

    // Adds the source line of a function, by its index, to what is known of the functions with its name, if
    // the format needs it.
    fn add_line(&mut self, index: usize, function: NameId) -> Result<(), AllocError> {
        let FormatData::Kinds(kinds) = &mut self.data else {
            return Ok(());
        };
        let line = self.source_lines.get(index);
        let is_inlined = index < self.source_lines.inlined_count();
        kinds.add_line(function, is_inlined, line.path, line.line)
    }

    // Returns whether lines have files and numbers.
    fn keeps_lines(&self) -> bool {
        matches!(self.data, FormatData::Mappings(_))
    }

    // Returns the id of the path of a function's source file, by the function's index.
    fn source_file(&self, index: usize, names: &mut Names) -> Result<NameId, AllocError>
        ensures grows { Grows (names_of names.old) (names_of names.new) }
        ensures named { IfOk result (λ id. IsIdOf (λ text. Unit {0}) (names_of names.new) id) }
    {
        if self.keeps_lines() {
            intern(names, self.source_lines.get(index).path)
        } else {
            intern(names, b"")
        }
    }

    // Returns the line of a function, by its index, or 0.
    fn line_number(&self, index: usize) -> u32 {
        let line = self.source_lines.get(index);
        if self.keeps_lines() && line.has_file() {
            line.line
        } else {
            0
        }
    }

    // Returns a function of a frame, by its index, with its source line. `name` is what names the frame.
    fn line(
        &mut self,
        index: usize,
        name: SourceName,
        frame: &ResolvedFrame<'_>,
        names: &mut Names,
    ) -> Result<Line, AllocError>
        ensures grows { Grows (names_of names.old) (names_of names.new) }
        ensures named { IfOk result (λ line. HasNames (names_of names.new) line) }
    {
        let function = self.function(index, name, frame, names)?;
        self.add_line(index, function)?;
        let file = self.source_file(index, names)?;
        let line = self.line_number(index);
        Ok(Line {
            function,
            file,
            line,
        })
    }

    // Appends the inlined functions of a frame, the innermost first.
    fn push_inlined(
        &mut self,
        name: SourceName,
        frame: &ResolvedFrame<'_>,
        names: &mut Names,
        lines: &mut Vec<Line>,
    ) -> Result<(), AllocError>
        ensures grows { Grows (names_of names.old) (names_of names.new) }
        ensures named { OnOk result (AreNamedIn (names_of names.old) lines.old.items →
            AreNamedIn (names_of names.new) lines.new.items) }
    {
        let count = self.source_lines.inlined_count();
        'inlined: for index in 0..count {
            let line = self.line(index, name, frame, names)?;
            lines.push(line)?;
        }
        Ok(())
    }

    // Finds what names a frame, and looks up its functions and source lines.
    fn find_frame(&mut self, frame: &ResolvedFrame<'_>) -> Result<FoundName, AllocError> {
        let found = self.find_name(frame)?;
        self.shapes.add_frame(frame);
        self.read_source(found, frame)?;
        if let Some(index) = frame.index {
            self.files.add_sample(index, self.samples);
        }
        Ok(found)
    }

    // Sets the lines of a frame whose functions were looked up, the innermost first.
    fn push_lines(
        &mut self,
        name: SourceName,
        frame: &ResolvedFrame<'_>,
        names: &mut Names,
        lines: &mut Vec<Line>,
    ) -> Result<(), AllocError>
        ensures grows { Grows (names_of names.old) (names_of names.new) }
        ensures lines { OnOk result ((is_fixed : Bool) → AreFrameLines (λ value named. Unit {0})
            (frame_value frame.now) (names_of names.new) lines.new.items is_fixed) }
    {
        lines.clear();
        self.push_inlined(name, frame, names, lines)?;
        let own = self.source_lines.inlined_count();
        let line = self.line(own, name, frame, names)?;
        lines.push(line)?;
        Ok(())
    }
}

impl Resolver for FrameResolver<'_> {
    // What files contain is described by no contract.
    ghost meaning = { record {
      names_thread = λ thread name. Unit {0};
      has_lines = λ frame lines. Unit {0};
      names_file = λ mapping path build_id. Unit {0};
      has_frames = λ before misc sample frames. Unit {0};
    } };

    fn record_applied(
        &mut self,
        misc: u16,
        record: &EventRecord<'_>,
        mapping: Option<&Mapping>,
    ) -> Result<(), AllocError> {
        if let (FormatData::Mappings(order), Some(mapping)) = (&mut self.data, mapping) {
            order.add(mapping)?;
        }
        match &mut self.source {
            NameSource::Symbols(symbols) => symbols.apply(misc, record, mapping),
            _ => Ok(()),
        }
    }

    fn frames(
        &mut self,
        spaces: &AddressSpaces,
        misc: u16,
        sample: &SampleRecord<'_>,
        frames: &mut Vec<SampleFrame>,
    ) -> Result<(), AllocError> {
        match &mut self.unwinding {
            Some(unwinding) => {
                unwinding.unwind_frames(&mut self.files, spaces, misc, sample, frames)?
            }
            None => resolve_frames(misc, sample, frames)?,
        }
        self.samples = self.samples.saturating_add(1);
        self.shapes.add(sample, frames.as_slice());
        self.settle_callers(spaces, sample, frames)?;
        match self.data {
            FormatData::Listing(_) => self.list_sample(spaces, sample, frames.as_slice()),
            FormatData::Script(_) => self.push_script_sample(spaces, sample, frames.as_slice()),
            _ => Ok(()),
        }
    }

    fn thread(
        &mut self,
        task: Task,
        comm: Option<&[u8]>,
        names: &mut Names,
    ) -> Result<NameId, AllocError> {
        self.write_thread(task, comm)?;
        intern(names, self.text.as_slice())
    }

    fn frame_lines(
        &mut self,
        frame: &ResolvedFrame<'_>,
        names: &mut Names,
        lines: &mut Vec<Line>,
    ) -> Result<bool, AllocError> {
        let found = self.find_frame(frame)?;
        self.push_lines(found.name, frame, names, lines)?;
        Ok(!found.is_divided && self.is_fixed(frame))
    }

    fn file(&mut self, mapping: &Mapping, names: &mut Names) -> Result<FileNames, AllocError> {
        self.text.clear();
        push_path(&mut self.text, mapping)?;
        let path = intern(names, self.text.as_slice())?;
        let build_id = intern(names, self.files.build_ids.find(mapping))?;
        Ok(FileNames { path, build_id })
    }
}
