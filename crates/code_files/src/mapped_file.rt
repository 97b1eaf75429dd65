//! A mapped file: its symbols, its call frame information, its debugging information and its code, each read
//! when it is first looked up.

ghost use Rattle.std.specs.Prelude.{◌≡◌, IfOk, IfSome};
ghost use Rattle.std.specs.Option.{option_map};
ghost use Rattle.code_files.specs.BuildIds.{IsAccepted};

use crate::build_ids::is_accepted;
use crate::debug_files::{DebugFile, DebugFileReader};
use crate::elf_opener::{Elf, ElfOpener};
use crate::file_bytes::FileBytes;
use crate::file_problems::{FileProblem, ReadCause, read_or_keep, value_or_keep};
use crate::file_sources::{FileSource, MappedPath};
use crate::running_vdso::read_vdso;
use crate::section_contents::{SectionContents, SectionError};
use code_cfi::{FrameSection, FrameTable, Machine};
use code_dwarf::{DebugInfo, DwarfError, SourceFrames};
use code_symbols::{
    ElfError, PltRange, RankedSymbols, SectionBytes, Segment, SymbolSection, SymbolTable,
};
use code_unwind::{FileTables, Plt};
use std::alloc::{AllocError, Global};
use std::collections::HashMap;
use std::io::Cursor;

// The size of a page of memory in bytes.
const PAGE_SIZE: u64 = 4096;

/// The number of bytes of code that show the return from a signal handler.
pub(crate) const CODE_SIZE: usize = 9;

// The machines of ELF files (`e_machine`).
const EM_X86_64: u16 = 62;

const EM_AARCH64: u16 = 183;

// The code at an address.
#[derive(Clone, Copy)]
pub(crate) struct FileCode {
    bytes: [u8; CODE_SIZE],
    size: usize,
}

// What unwinding reads of a file.
#[derive(Drop)]
struct FrameSections {
    tables: FileTables,
    linkage_tables: Vec<PltRange>,
}

// How many units of debugging information can't be read, or not completely.
#[derive(Clone, Copy)]
pub(crate) struct UnitErrors {
    /// Those whose entries are in other files.
    pub(crate) split: u64,
    /// Others.
    pub(crate) other: u64,
}

/// A mapped file that is open, and what was read of it so far.
#[derive(Drop)]
pub struct MappedFile {
    elf: Elf,
    /// Where the code is, unless it is a vDSO that the command line names or that of this machine.
    source: Option<FileSource>,
    /// The build id, which is empty if the file has none.
    build_id: Vec<u8>,
    /// The recorded build id, which is empty if it isn't known.
    recorded: Vec<u8>,
    /// The symbols, once they are read.
    symbols: Option<SymbolTable>,
    /// What unwinding reads, once it is read.
    frames: Option<FrameSections>,
    /// The debugging information, if there is some, once it was looked for.
    debug_info: Option<DebugInfo>,
    is_debug_info_read: bool,
    /// The code at addresses without call frame information.
    codes: HashMap<u64, FileCode>,
    /// The error of the first part that can't be read.
    failure: Option<ReadCause>,
    /// The index of the file's problem, if it has one.
    pub(crate) problem: Option<usize>,
    /// The index of the problem that the file has no lines, if that is one.
    pub(crate) line_problem: Option<usize>,
    ghost accepted: { ∥ IsAccepted build_id.items recorded.items ∥₁ },
}

// Returns whether the pages of a segment contain an offset in the file.
fn contains(segment: &Segment, offset: u64) -> bool {
    let page = offset / PAGE_SIZE;
    let end = segment.offset.saturating_add(segment.file_size);
    segment.is_executable && segment.offset / PAGE_SIZE <= page && page < end.div_ceil(PAGE_SIZE)
}

// Returns the symbols of a mapped file, which are those in another file if there is one.
fn file_symbols(
    alloc: Global,
    mapped: &mut Elf,
    other: Option<Elf>,
) -> Result<RankedSymbols, ElfError> {
    match other {
        Some(mut other) => other.symbols(alloc, mapped.segments()),
        None => {
            let segments = Vec::from_slice(alloc, mapped.segments())?;
            mapped.symbols(alloc, &segments)
        }
    }
}

// Returns the call frame information of a section, if there is one.
fn frame_table(
    alloc: Global,
    machine: Machine,
    kind: FrameSection,
    section: Option<SectionContents>,
) -> Result<Option<FrameTable>, AllocError> {
    match section {
        Some(SectionContents { address, bytes }) => {
            Ok(Some(FrameTable::new(alloc, machine, kind, address, bytes)?))
        }
        None => Ok(None),
    }
}

// Returns the contents of a section that was read, if there is one.
fn section_contents(
    alloc: Global,
    section: Option<SectionBytes>,
) -> Result<Option<SectionContents>, SectionError> {
    match section {
        Some(section) => Ok(Some(SectionContents::new(alloc, section)?)),
        None => Ok(None),
    }
}

impl UnitErrors {
    // Counts an error.
    fn add(&mut self, error: DwarfError) {
        match error {
            DwarfError::SplitUnit => self.split = self.split.saturating_add(1),
            _ => self.other = self.other.saturating_add(1),
        }
    }
}

impl FileCode {
    // No code.
    const NONE: FileCode = FileCode {
        bytes: [0; CODE_SIZE],
        size: 0,
    };

    // Returns the bytes.
    pub(crate) fn as_slice(&self) -> &[u8] {
        self.bytes.get(..self.size).unwrap_or(&[])
    }
}

impl MappedFile {
    ghost use Rattle.code_files.specs.MappedFile.{IsNameBy, table_of};
    ghost use Rattle.code_files.specs.steps.MappedFile.{id_of, recorded_id_of};

    // Returns the mapped file whose code is in a file, or `None` if another build id is recorded.
    fn accept(
        opener: &ElfOpener<'_>,
        mut elf: Elf,
        source: Option<FileSource>,
        recorded: &[u8],
    ) -> Result<Option<MappedFile>, AllocError>
        ensures { IfOk result (λ found. IfSome found (λ file. (recorded_id_of file ≡ recorded.now)
            × IsAccepted (id_of file) recorded.now)) }
    {
        let alloc = opener.rt.alloc();
        let build_id = opener.build_id(&mut elf)?;
        if !is_accepted(&build_id, recorded) {
            return Ok(None);
        }
        Ok(Some(MappedFile {
            elf,
            source,
            build_id,
            recorded: recorded.to_vec(alloc)?,
            symbols: None,
            frames: None,
            debug_info: None,
            is_debug_info_read: false,
            codes: HashMap::new(alloc),
            failure: None,
            problem: None,
            line_problem: None,
        }))
    }

    // Opens the first source with the recorded build id, or returns `None` if there is none.
    fn open_first(
        opener: &ElfOpener<'_>,
        sources: Vec<FileSource>,
        recorded: &[u8],
    ) -> Result<Option<MappedFile>, AllocError>
        ensures { IfOk result (λ found. IfSome found (λ file. (recorded_id_of file ≡ recorded.now)
            × IsAccepted (id_of file) recorded.now)) }
    {
        for source in sources {
            if let Some(elf) = opener.open_source(&source, recorded)? {
                return MappedFile::accept(opener, elf, Some(source), recorded);
            }
        }
        Ok(None)
    }

    // Returns the file with these bytes, or `None` if they can't be read or another build id is recorded.
    fn from_bytes(
        opener: &ElfOpener<'_>,
        bytes: FileBytes,
        recorded: &[u8],
    ) -> Result<Option<MappedFile>, AllocError>
        ensures { IfOk result (λ found. IfSome found (λ file. (recorded_id_of file ≡ recorded.now)
            × IsAccepted (id_of file) recorded.now)) }
    {
        match opener.read_headers(bytes)? {
            Ok(elf) => MappedFile::accept(opener, elf, None, recorded),
            Err(_) => Ok(None),
        }
    }

    // Opens the vDSO that the command line names, or that is below its directory of files.
    fn open_named_vdso(
        opener: &ElfOpener<'_>,
        recorded: &[u8],
    ) -> Result<Option<MappedFile>, AllocError>
        ensures { IfOk result (λ found. IfSome found (λ file. (recorded_id_of file ≡ recorded.now)
            × IsAccepted (id_of file) recorded.now)) }
    {
        let Some(directories) = &opener.directories else {
            return Ok(None);
        };
        match directories.open_vdso(opener.rt)? {
            Some(file) => MappedFile::from_bytes(opener, FileBytes::File(file), recorded),
            None => Ok(None),
        }
    }

    // Reads the vDSO of this machine, if its build id is recorded.
    fn read_running_vdso(
        opener: &ElfOpener<'_>,
        recorded: &[u8],
    ) -> Result<Option<MappedFile>, AllocError>
        ensures { IfOk result (λ found. IfSome found (λ file. (recorded_id_of file ≡ recorded.now)
            × IsAccepted (id_of file) recorded.now)) }
    {
        match &opener.directories {
            Some(directories) if !directories.has_symfs && !recorded.is_empty() => {}
            _ => return Ok(None),
        }
        match read_vdso(opener.rt)? {
            Some(bytes) => {
                MappedFile::from_bytes(opener, FileBytes::Memory(Cursor::new(bytes)), recorded)
            }
            None => Ok(None),
        }
    }

    // Opens the vDSO: that of the command line, that of a cache, or that of this machine.
    pub(crate) fn open_vdso(
        opener: &ElfOpener<'_>,
        mapped: MappedPath<'_>,
        recorded: &[u8],
    ) -> Result<Option<MappedFile>, AllocError>
        ensures { IfOk result (λ found. IfSome found (λ file. (recorded_id_of file ≡ recorded.now)
            × IsAccepted (id_of file) recorded.now)) }
    {
        let Some(directories) = &opener.directories else {
            return Ok(None);
        };
        if let Some(file) = MappedFile::open_named_vdso(opener, recorded)? {
            return Ok(Some(file));
        }
        let cached = mapped.code_sources(opener.rt.alloc(), directories, recorded)?;
        if let Some(file) = MappedFile::open_first(opener, cached, recorded)? {
            return Ok(Some(file));
        }
        MappedFile::read_running_vdso(opener, recorded)
    }

    // Opens the file at a path, or returns why it isn't used.
    fn open_path(
        opener: &ElfOpener<'_>,
        mapped: MappedPath<'_>,
        recorded: &[u8],
    ) -> Result<Result<MappedFile, FileProblem>, AllocError>
        ensures { IfOk result (λ opened. IfOk opened (λ file. (recorded_id_of file ≡ recorded.now)
            × IsAccepted (id_of file) recorded.now)) }
    {
        let elf = match opener.open_path(mapped.path)? {
            Ok(elf) => elf,
            Err(problem) => return Ok(Err(problem)),
        };
        let source = mapped.own_source(opener.rt.alloc())?;
        match MappedFile::accept(opener, elf, Some(source), recorded)? {
            Some(file) => Ok(Ok(file)),
            None => Ok(Err(FileProblem::Different)),
        }
    }

    // Opens the code of the file at a path: that of a cache, or at the path. Debug files with the recorded
    // build id take its place if it isn't used. Returns why it isn't used if there are none.
    pub(crate) fn open(
        opener: &ElfOpener<'_>,
        mapped: MappedPath<'_>,
        recorded: &[u8],
    ) -> Result<Result<MappedFile, FileProblem>, AllocError>
        ensures { IfOk result (λ opened. IfOk opened (λ file. (recorded_id_of file ≡ recorded.now)
            × IsAccepted (id_of file) recorded.now)) }
    {
        let alloc = opener.rt.alloc();
        let Some(directories) = &opener.directories else {
            return Ok(Err(FileProblem::NotFound));
        };
        let cached = mapped.code_sources(alloc, directories, recorded)?;
        if let Some(file) = MappedFile::open_first(opener, cached, recorded)? {
            return Ok(Ok(file));
        }
        let problem = match MappedFile::open_path(opener, mapped, recorded)? {
            Ok(file) => return Ok(Ok(file)),
            Err(problem) => problem,
        };
        if recorded.is_empty() {
            return Ok(Err(problem));
        }
        let debug = mapped.symbol_sources(alloc, directories, None, recorded)?;
        match MappedFile::open_first(opener, debug, recorded)? {
            Some(file) => Ok(Ok(file)),
            None => Ok(Err(problem)),
        }
    }

    // Returns whether a source is where the code is.
    fn is_own(&self, source: &FileSource) -> bool {
        match &self.source {
            Some(own) => own == source,
            None => false,
        }
    }

    // Opens the first of the sources with all symbols, or else the first with those for the dynamic linker.
    // Returns `None` if that is where the code is, or if there is none.
    fn open_symbols(
        &self,
        opener: &ElfOpener<'_>,
        sources: &[FileSource],
        id: &[u8],
    ) -> Result<Option<Elf>, AllocError> {
        let own = self.elf.symbol_section();
        let mut dynamic = None;
        if self.source.is_none() {
            match own {
                Some(SymbolSection::Full) => return Ok(None),
                Some(SymbolSection::Dynamic) => dynamic = Some(None),
                None => {}
            }
        }
        for source in sources {
            let is_own = self.is_own(source);
            let opened = if is_own {
                None
            } else {
                opener.open_source(source, id)?
            };
            let section = match &opened {
                Some(elf) => elf.symbol_section(),
                None => own.filter(|_| is_own),
            };
            match section {
                Some(SymbolSection::Full) => return Ok(opened),
                Some(SymbolSection::Dynamic) if dynamic.is_none() => dynamic = Some(opened),
                _ => {}
            }
        }
        Ok(dynamic.and_then(|opened| opened))
    }

    // Returns the sources of the symbols and of the debugging information of the file at a path.
    fn debug_sources(
        &mut self,
        opener: &ElfOpener<'_>,
        mapped: MappedPath<'_>,
    ) -> Result<Vec<FileSource>, AllocError> {
        let alloc = opener.rt.alloc();
        let Some(directories) = &opener.directories else {
            return Ok(Vec::new(alloc));
        };
        let link = read_or_keep(self.elf.debug_link(alloc), &mut self.failure)?;
        let link = link.and_then(|link| link);
        mapped.symbol_sources(alloc, directories, link.as_ref(), &self.build_id)
    }

    // Opens the file with the symbols of the file at a path, unless it is where the code is.
    fn open_symbol_file(
        &mut self,
        opener: &ElfOpener<'_>,
        mapped: MappedPath<'_>,
    ) -> Result<Option<Elf>, AllocError> {
        if opener.directories.is_none() {
            return Ok(None);
        }
        let sources = self.debug_sources(opener, mapped)?;
        self.open_symbols(opener, &sources, &self.build_id)
    }

    // Returns the table of the symbols of the file, which has none if they can't be read. A procedure linkage
    // table that can't be read loses its own names only.
    fn new_table(&mut self, alloc: Global, other: Option<Elf>) -> Result<SymbolTable, AllocError> {
        let read = file_symbols(alloc, &mut self.elf, other);
        let Some(mut symbols) = read_or_keep(read, &mut self.failure)? else {
            return Ok(SymbolTable::new(alloc, Vec::new(alloc)));
        };
        let added = self.elf.add_plt_symbols(alloc, &mut symbols);
        let _ = read_or_keep(added, &mut self.failure)?;
        symbols.into_table(alloc)
    }

    // Reads the symbols of the file at a path, if they aren't read yet.
    pub(crate) fn read_symbols(
        &mut self,
        opener: &ElfOpener<'_>,
        mapped: MappedPath<'_>,
    ) -> Result<(), AllocError> {
        if self.symbols.is_some() {
            return Ok(());
        }
        let other = self.open_symbol_file(opener, mapped)?;
        self.symbols = Some(self.new_table(opener.rt.alloc(), other)?);
        Ok(())
    }

    // Takes the error of the first part that can't be read, unless the file has a problem already.
    pub(crate) fn take_failure(&mut self) -> Option<ReadCause> {
        if self.problem.is_some() {
            return None;
        }
        self.failure.take()
    }

    // Sets the index of the file's problem.
    pub(crate) fn set_problem(&mut self, problem: usize) {
        self.problem = Some(problem);
    }

    /// Returns the symbols, if they are read. Their starts are offsets in the file.
    pub fn symbols(&self) -> Option<&SymbolTable>
        ensures { option_map (λ table. table.now) result ≡ table_of self.now }
    {
        self.symbols.as_ref()
    }

    /// Returns the name of the symbol at an offset in the file, or `None` if there is none, or if the symbols
    /// aren't read.
    pub fn name(&self, offset: u64) -> Option<&[u8]>
        ensures { IsNameBy (table_of self.now) offset (option_map (λ name. name.now) result) }
    {
        match &self.symbols {
            Some(symbols) => symbols.find_name(offset),
            None => None,
        }
    }

    // Reads `.eh_frame`, if there is one that can be used.
    fn read_eh_frame(&mut self, alloc: Global) -> Result<Option<SectionContents>, AllocError> {
        let read = self.elf.read_eh_frame(alloc);
        let section = read_or_keep(read, &mut self.failure)?.and_then(|section| section);
        let read = section_contents(alloc, section);
        let read = read.map_err(|error| ReadCause::Section(".eh_frame", error));
        Ok(value_or_keep(read, &mut self.failure)?.and_then(|contents| contents))
    }

    // Reads `.debug_frame`, if there is one that can be used.
    fn read_debug_frame(&mut self, alloc: Global) -> Result<Option<SectionContents>, AllocError> {
        let name = ".debug_frame";
        let read = SectionContents::read(alloc, &mut self.elf, name.as_bytes());
        let read = read.map_err(|error| ReadCause::Section(name, error));
        Ok(value_or_keep(read, &mut self.failure)?.and_then(|contents| contents))
    }

    // Reads the call frame information and the ranges of linkage tables, if they aren't read yet.
    pub(crate) fn read_frames(
        &mut self,
        alloc: Global,
        machine: Machine,
    ) -> Result<(), AllocError> {
        if self.frames.is_some() {
            return Ok(());
        }
        let eh_frame = self.read_eh_frame(alloc)?;
        let debug_frame = self.read_debug_frame(alloc)?;
        self.frames = Some(FrameSections {
            tables: FileTables::new(
                frame_table(alloc, machine, FrameSection::EhFrame, eh_frame)?,
                frame_table(alloc, machine, FrameSection::DebugFrame, debug_frame)?,
            ),
            linkage_tables: self.elf.plt_ranges(alloc)?,
        });
        Ok(())
    }

    // Returns the call frame information, if it is read.
    pub(crate) fn frame_tables(&self) -> Option<&FileTables> {
        Some(&self.frames.as_ref()?.tables)
    }

    // Returns whether the call frame information at an address is that of a signal frame, if it is read.
    pub(crate) fn is_signal_frame(&self, address: u64) -> bool {
        let Some(frames) = &self.frames else {
            return false;
        };
        let Some((table, index)) = frames.tables.find(address) else {
            return false;
        };
        match table
            .fdes()
            .get(index)
            .and_then(|fde| table.cies().get(fde.cie))
        {
            Some(cie) => cie.augmentation.is_signal,
            None => false,
        }
    }

    // Keeps the row of call frame information at an address for faster steps from there.
    pub(crate) fn cache_row(&mut self, alloc: Global, address: u64) -> Result<(), AllocError> {
        match &mut self.frames {
            Some(frames) => frames.tables.cache(alloc, address),
            None => Ok(()),
        }
    }

    // Returns the address in the file of an offset in it, by the segments with code.
    pub(crate) fn address(&self, offset: u64) -> Option<u64> {
        let mut segments = self.elf.segments().iter();
        let segment = segments.find(|segment| contains(segment, offset))?;
        Some(
            offset
                .wrapping_sub(segment.offset)
                .wrapping_add(segment.address),
        )
    }

    // Returns where an address is in a procedure linkage table.
    pub(crate) fn plt(&self, address: u64) -> Option<Plt> {
        for range in &self.frames.as_ref()?.linkage_tables {
            let offset = address.wrapping_sub(range.address);
            if offset < range.size {
                return Some(if range.is_plt {
                    Plt::Lazy(offset)
                } else {
                    Plt::Direct
                });
            }
        }
        None
    }

    // Returns the code at an address, which is read at most once. Where there is call frame information for
    // the address and the one before, none is read.
    pub(crate) fn code(&mut self, address: u64) -> Result<FileCode, AllocError> {
        if let Some(frames) = &self.frames {
            let before = frames.tables.find(address.wrapping_sub(1));
            if before.is_some() && frames.tables.find(address).is_some() {
                return Ok(FileCode::NONE);
            }
        }
        if let Some(code) = self.codes.get(&address) {
            return Ok(*code);
        }
        let mut bytes = [0; CODE_SIZE];
        let size = match self.elf.read_code(address, &mut bytes) {
            Ok(size) => size.min(CODE_SIZE),
            Err(_) => 0,
        };
        let code = FileCode { bytes, size };
        self.codes.insert(address, code)?;
        Ok(code)
    }

    // Reads the debugging information of the file at a path: its own, or that of the first debug file with
    // units. If none has units, it is that of the first of these files with line programs.
    fn find_debug_info(
        &mut self,
        opener: &ElfOpener<'_>,
        mapped: MappedPath<'_>,
        reader: &mut DebugFileReader<'_, '_>,
    ) -> Result<Option<DebugInfo>, AllocError> {
        let own = reader.read_main(&mut self.elf)?;
        if own.info.is_empty() {
            let mut sources = self.debug_sources(opener, mapped)?;
            sources.retain(|source| !self.is_own(source));
            match reader.find(sources, &self.build_id)? {
                Some(file) if own.line.is_empty() || !file.main.info.is_empty() => {
                    let DebugFile {
                        mut elf,
                        source,
                        main,
                    } = file;
                    return Ok(Some(reader.read(&mut elf, Some(&source), main)?));
                }
                _ if own.line.is_empty() => return Ok(None),
                _ => {}
            }
        }
        Ok(Some(reader.read(&mut self.elf, self.source.as_ref(), own)?))
    }

    // Returns whether the debugging information was looked for.
    pub(crate) fn is_debug_info_read(&self) -> bool {
        self.is_debug_info_read
    }

    // Reads the debugging information of the file at a path, without line programs unless lines are wanted.
    pub(crate) fn read_debug_info(
        &mut self,
        opener: &ElfOpener<'_>,
        mapped: MappedPath<'_>,
        has_lines: bool,
    ) -> Result<(), AllocError> {
        let mut reader = DebugFileReader::new(opener, has_lines);
        self.debug_info = self.find_debug_info(opener, mapped, &mut reader)?;
        self.is_debug_info_read = true;
        if self.failure.is_none() {
            self.failure = reader.take_failure();
        }
        Ok(())
    }

    // Returns whether the file has debugging information that is read.
    pub(crate) fn has_debug_info(&self) -> bool {
        self.debug_info.is_some()
    }

    // Returns the functions at an address of the file, and the lines if they are wanted, if its debugging
    // information is read and has some there.
    pub(crate) fn find_source(
        &mut self,
        address: u64,
        has_lines: bool,
    ) -> Result<Option<SourceFrames<'_>>, AllocError> {
        let Some(info) = &mut self.debug_info else {
            return Ok(None);
        };
        let frames = if has_lines {
            info.find(address)?
        } else {
            info.find_functions(address)?
        };
        Ok(Some(frames).filter(|frames| !frames.is_empty()))
    }

    // Returns the numbers of units whose entries are in other files, and of errors of other units.
    pub(crate) fn unit_errors(&self) -> UnitErrors {
        let mut errors = UnitErrors { split: 0, other: 0 };
        if let Some(info) = &self.debug_info {
            for error in info.errors() {
                errors.add(error.error);
            }
        }
        errors
    }

    // Returns the machine that the file is for.
    pub(crate) fn machine(&self) -> Option<Machine> {
        match self.elf.machine() {
            EM_X86_64 => Some(Machine::X86_64),
            EM_AARCH64 => Some(Machine::AArch64),
            _ => None,
        }
    }
}
