//! The files of mappings, each opened once.

ghost use Rattle.std.specs.Prelude.{◌≡◌, slice_get};
ghost use Rattle.std.specs.Option.{option_map};

use crate::build_ids::BuildIds;
use crate::directories::{Directories, FileOptions, PathError, none_if_missing};
use crate::elf_opener::{ElfOpener, buffered};
use crate::file_problems::{FileProblem, ProblemFile, ReadCause};
use crate::file_sources::{MappedPath, PERF_KERNEL_LIST};
use crate::mapped_file::{FileCode, MappedFile};
use crate::mapping_names::{VDSO_PATH, is_anonymous};
use code_cfi::Machine;
use code_dwarf::SourceFrames;
use code_symbols::{JitSymbols, JitSymbolsError};
use code_unwind::{MappedCode, Plt};
use perfdata_spaces::mapping::{Mapping, MappingKind};
use std::alloc::AllocError;
use std::collections::HashMap;
use std::fs::File;
use std::io;
use std::io::{ErrorKind, Read};

// The number of addresses that are kept at most, and the shift that leaves as many bits of a mixed address.
const SLOTS: usize = 4096;

const SLOT_SHIFT: u32 = 52;

// A factor that mixes the bits of addresses: 2^64 divided by the golden ratio.
const MIXER: u64 = 0x9e37_79b9_7f4a_7c15;

/// An address in the code of a file.
#[derive(Clone, Copy)]
pub struct CodeAddress {
    file: usize,
    address: u64,
    plt: Option<Plt>,
    code: FileCode,
}

// What the last look-up of an address in the mapping with an index found.
#[derive(Clone, Copy)]
struct CachedAddress {
    index: usize,
    address: u64,
    found: Option<CodeAddress>,
}

// The file of a mapping.
#[derive(Clone, Copy)]
enum FoundFile {
    /// The open one with an index.
    File(usize),
    /// One with a problem, by the index of the problem.
    Problem(usize),
    /// None: memory without a file, or no file is read.
    Nothing,
}

/// The files of mappings. A file is found by the path of its mapping and by its recorded build id, and opened
/// when it is first looked up.
///
/// ```
/// use code_files::MappedFiles;
/// use perfdata_spaces::mapping::Mapping;
/// use std::alloc::AllocError;
///
/// fn function_name<'a>(
///     files: &'a mut MappedFiles<'_>,
///     index: usize,
///     mapping: &Mapping,
///     address: u64,
/// ) -> Result<Option<&'a [u8]>, AllocError> {
///     let Some(number) = files.read_symbols(index, mapping)? else {
///         return Ok(None);
///     };
///     match files.get(number) {
///         Some(file) => Ok(file.name(mapping.file_offset(address))),
///         None => Ok(None),
///     }
/// }
/// ```
#[derive(Drop)]
pub struct MappedFiles<'a> {
    opener: ElfOpener<'a>,
    /// The recorded build ids.
    pub build_ids: BuildIds,
    files: Vec<MappedFile>,
    /// The files of mappings, by the indices of these.
    by_mapping: HashMap<usize, FoundFile>,
    /// The files by path and build id, with a NUL between them.
    by_key: HashMap<Vec<u8>, FoundFile>,
    problems: Vec<ProblemFile>,
    /// The indices of the problems, by path.
    problems_by_path: HashMap<Vec<u8>, usize>,
    /// The addresses that were looked up last, each in its slot. There is no slot before the first one.
    addresses: Vec<Option<CachedAddress>>,
    /// Whether files without lines have a problem.
    is_line_wanted: bool,
    /// Whether line programs are read.
    has_lines: bool,
}

// Returns the path of a mapped file, as its sources are looked for.
fn mapped_path(path: &[u8]) -> MappedPath<'_> {
    MappedPath {
        path: str::from_utf8(path).unwrap_or(""),
        is_vdso: path == VDSO_PATH,
    }
}

// Reads a file into memory.
fn read_all(rt: &HostRuntime, mut file: File) -> io::Result<Option<Vec<u8>>> {
    let mut bytes = Vec::new(rt.alloc());
    file.read_to_end(&mut bytes)?;
    Ok(Some(bytes))
}

// Returns the slot of an address.
fn slot(address: u64) -> usize {
    (address.wrapping_mul(MIXER) >> SLOT_SHIFT) as usize
}

impl<'a> MappedFiles<'a> {
    ghost use Rattle.code_files.specs.MappedFile.{files_of};

    /// Returns the files in the directories that options name, none of which is read yet. No file is read at
    /// all without options.
    ///
    /// Fails with the first path of the options that can't be opened.
    pub fn open(
        rt: &'a HostRuntime,
        options: Option<&FileOptions<'a>>,
    ) -> Result<MappedFiles<'a>, PathError<'a>> {
        let alloc = rt.alloc();
        let directories = match options {
            Some(options) => Some(Directories::open(rt, options)?),
            None => None,
        };
        let opener = ElfOpener { rt, directories };
        Ok(MappedFiles {
            opener,
            build_ids: BuildIds::new(alloc),
            files: Vec::new(alloc),
            by_mapping: HashMap::new(alloc),
            by_key: HashMap::new(alloc),
            problems: Vec::new(alloc),
            problems_by_path: HashMap::new(alloc),
            addresses: Vec::new(alloc),
            is_line_wanted: false,
            has_lines: true,
        })
    }

    /// Returns the files of mappings that aren't used or not completely, each path once. A file without lines
    /// is there once more, if that is a problem.
    pub fn problems(&self) -> &[ProblemFile] {
        self.problems.as_slice()
    }

    /// Makes it a problem that a file whose debugging information is looked for has none.
    pub fn want_lines(&mut self) {
        self.is_line_wanted = true;
    }

    /// Leaves source lines out of what is looked up in files: no line program is read.
    pub fn leave_out_lines(&mut self)
        ensures { files_of self.new ≡ files_of self.old }
    {
        self.has_lines = false;
    }

    /// Returns the number of units whose debugging information is in other files (`.dwo`), which aren't read,
    /// in the files whose debugging information was read.
    pub fn split_units(&self) -> u64 {
        let mut count: u64 = 0;
        for file in &self.files {
            count = count.saturating_add(file.unit_errors().split);
        }
        count
    }

    /// Returns the number of errors of other units of the debugging information that was read.
    pub fn unreadable_units(&self) -> u64 {
        let mut count: u64 = 0;
        for file in &self.files {
            count = count.saturating_add(file.unit_errors().other);
        }
        count
    }

    // Adds a problem of the file at a path. Returns the index of the problem.
    fn push_problem(&mut self, path: &[u8], problem: FileProblem) -> Result<usize, AllocError> {
        let index = self.problems.len();
        self.problems.push(ProblemFile {
            path: path.to_vec(self.opener.rt.alloc())?,
            problem,
            samples: 0,
            last_sample: 0,
        })?;
        Ok(index)
    }

    // Adds a problem of the file at a path, unless it has one already. Returns the index of the problem.
    fn add_problem(&mut self, path: &[u8], problem: FileProblem) -> Result<usize, AllocError> {
        if let Some(index) = self.problems_by_path.get(path) {
            return Ok(*index);
        }
        let index = self.push_problem(path, problem)?;
        let key = path.to_vec(self.opener.rt.alloc())?;
        self.problems_by_path.insert(key, index)?;
        Ok(index)
    }

    // Returns the index of the problem of the file of the mapping with an index, if it has one.
    fn problem(&self, index: usize) -> Option<usize> {
        match *self.by_mapping.get(&index)? {
            FoundFile::File(file) => self.files.get(file)?.problem,
            FoundFile::Problem(problem) => Some(problem),
            FoundFile::Nothing => None,
        }
    }

    // Returns the index of the problem that the file of the mapping with an index has no lines, if that is
    // one.
    fn line_problem(&self, index: usize) -> Option<usize> {
        match *self.by_mapping.get(&index)? {
            FoundFile::File(file) => self.files.get(file)?.line_problem,
            FoundFile::Problem(_) | FoundFile::Nothing => None,
        }
    }

    /// Returns whether the file of the mapping with an index was looked up and has a problem.
    pub fn has_problem(&self, index: usize) -> bool {
        self.problem(index).is_some() || self.line_problem(index).is_some()
    }

    // Counts a sample of the problem with an index.
    fn count_sample(&mut self, problem: Option<usize>, sample: u64) {
        let Some(problem) = problem else {
            return;
        };
        if let Some(file) = self.problems.get_mut(problem) {
            if file.last_sample != sample {
                file.last_sample = sample;
                file.samples = file.samples.saturating_add(1);
            }
        }
    }

    /// Counts a sample with a frame in the mapping with an index, if the file has a problem. Samples have
    /// numbers greater than 0, and each is counted once.
    pub fn add_sample(&mut self, index: usize, sample: u64) {
        self.count_sample(self.problem(index), sample);
        self.count_sample(self.line_problem(index), sample);
    }

    /// Counts a chain that ends in the mapping with an index for lack of call frame information. Returns
    /// whether the cause is that no file of the mapping is used.
    ///
    /// Fails if memory runs out.
    pub fn add_lacking_chain(
        &mut self,
        index: usize,
        mapping: &Mapping,
    ) -> Result<bool, AllocError> {
        match self.find_file(index, mapping)? {
            FoundFile::Problem(_) => Ok(true),
            FoundFile::File(_) if mapping.path.starts_with(b"/") => {
                let path = mapping.path.as_slice();
                let problem = self.add_problem(path, FileProblem::NoFrameInformation)?;
                match self.problems.get_mut(problem) {
                    Some(file) if matches!(file.problem, FileProblem::NoFrameInformation) => {
                        file.samples = file.samples.saturating_add(1)
                    }
                    _ => {}
                }
                Ok(false)
            }
            _ => Ok(false),
        }
    }

    /// Reads the list of symbols of the kernel with a build id in perf's cache, or returns `None` if it can't
    /// be read.
    ///
    /// Fails if memory runs out.
    pub fn read_kernel_list(&self, build_id: &[u8]) -> Result<Option<Vec<u8>>, AllocError> {
        let (rt, Some(directories)) = (self.opener.rt, &self.opener.directories) else {
            return Ok(None);
        };
        let caches = &directories.caches;
        let Some(path) = caches.perf_path(rt.alloc(), build_id, PERF_KERNEL_LIST)? else {
            return Ok(None);
        };
        match directories.machine.open_file(rt, path.as_str())? {
            Some(file) => none_if_missing(read_all(rt, file)),
            None => Ok(None),
        }
    }

    /// Reads the jitdump at a path, or returns `None` if it can't be read.
    ///
    /// Fails if memory runs out.
    pub fn read_jitdump(&mut self, path: &[u8]) -> Result<Option<JitSymbols>, AllocError> {
        let (rt, Some(directories)) = (self.opener.rt, &self.opener.directories) else {
            return Ok(None);
        };
        let Ok(file_path) = str::from_utf8(path) else {
            return Ok(None);
        };
        let Some(file) = directories.files.open_file(rt, file_path)? else {
            return Ok(None);
        };
        match JitSymbols::read(rt.alloc(), buffered(rt.alloc(), file)?) {
            Ok(code) => Ok(Some(code)),
            Err(JitSymbolsError::Memory) => Err(AllocError),
            Err(error) => {
                let problem = FileProblem::Unreadable(ReadCause::JitDump(error));
                let _ = self.add_problem(path, problem)?;
                Ok(None)
            }
        }
    }

    /// Reads the file that lists the generated code of a process, or returns `None` if it can't be read.
    ///
    /// Fails if memory runs out.
    pub fn read_map(&self, pid: i32) -> Result<Option<Vec<u8>>, AllocError> {
        let (rt, Some(directories)) = (self.opener.rt, &self.opener.directories) else {
            return Ok(None);
        };
        let path = format!(in rt.alloc(); "/perf-{pid}.map")?;
        match directories.maps.open_file(rt, path.as_str())? {
            Some(file) => none_if_missing(read_all(rt, file)),
            None => Ok(None),
        }
    }

    // Returns the key of a mapping's file: its path and its build id.
    fn file_key(&self, mapping: &Mapping) -> Result<Vec<u8>, AllocError> {
        let mut key = mapping.path.to_vec(self.opener.rt.alloc())?;
        key.push(0)?;
        key.extend_from_slice(self.build_ids.find(mapping))?;
        Ok(key)
    }

    // Adds an open file.
    fn add_file(&mut self, file: MappedFile) -> Result<FoundFile, AllocError> {
        let index = self.files.len();
        self.files.push(file)?;
        Ok(FoundFile::File(index))
    }

    // Opens the vDSO of a mapping.
    fn open_vdso(&mut self, mapping: &Mapping) -> Result<FoundFile, AllocError> {
        let mapped = MappedPath {
            path: "",
            is_vdso: true,
        };
        let recorded = self.build_ids.find(mapping);
        match MappedFile::open_vdso(&self.opener, mapped, recorded)? {
            Some(file) => self.add_file(file),
            None => Ok(FoundFile::Nothing),
        }
    }

    // Opens the file of a mapping.
    fn open_file(&mut self, mapping: &Mapping) -> Result<FoundFile, AllocError> {
        let path = mapping.path.as_slice();
        let opened = match str::from_utf8(path) {
            Ok(path) => {
                let mapped = MappedPath {
                    path,
                    is_vdso: false,
                };
                MappedFile::open(&self.opener, mapped, self.build_ids.find(mapping))?
            }
            Err(_) => {
                let error = ErrorKind::InvalidData.into();
                Err(FileProblem::Unreadable(ReadCause::Io(error)))
            }
        };
        match opened {
            Ok(file) => self.add_file(file),
            Err(problem) => Ok(FoundFile::Problem(self.add_problem(path, problem)?)),
        }
    }

    // Returns the file of a mapping whose file isn't known.
    fn find_uncached(&mut self, mapping: &Mapping) -> Result<FoundFile, AllocError> {
        let path = mapping.path.as_slice();
        let is_vdso = path == VDSO_PATH;
        if self.opener.directories.is_none()
            || mapping.kind == MappingKind::KernelSymbol
            || is_anonymous(mapping)
            || !(is_vdso || path.starts_with(b"/"))
        {
            return Ok(FoundFile::Nothing);
        }
        let key = self.file_key(mapping)?;
        if let Some(file) = self.by_key.get(key.as_slice()) {
            return Ok(*file);
        }
        let file = if is_vdso {
            self.open_vdso(mapping)?
        } else {
            self.open_file(mapping)?
        };
        self.by_key.insert(key, file)?;
        Ok(file)
    }

    // Returns the file of the mapping with an index.
    fn find_file(&mut self, index: usize, mapping: &Mapping) -> Result<FoundFile, AllocError> {
        if let Some(file) = self.by_mapping.get(&index) {
            return Ok(*file);
        }
        let file = self.find_uncached(mapping)?;
        self.by_mapping.insert(index, file)?;
        Ok(file)
    }

    // Returns the index of the open file of the mapping with an index, if it is used.
    fn find_open(&mut self, index: usize, mapping: &Mapping) -> Result<Option<usize>, AllocError> {
        match self.find_file(index, mapping)? {
            FoundFile::File(file) => Ok(Some(file)),
            FoundFile::Problem(_) | FoundFile::Nothing => Ok(None),
        }
    }

    // Makes the error of a part of an open file that can't be read a problem of the file at a path.
    fn note_failure(&mut self, number: usize, path: &[u8]) -> Result<(), AllocError> {
        let Some(file) = self.files.get_mut(number) else {
            return Ok(());
        };
        let Some(error) = file.take_failure() else {
            return Ok(());
        };
        let problem = self.add_problem(path, FileProblem::Unreadable(error))?;
        if let Some(file) = self.files.get_mut(number) {
            file.set_problem(problem);
        }
        Ok(())
    }

    /// Reads the symbols of the file of the mapping with an index. Returns the index of the file, or `None`
    /// if it can't be opened.
    ///
    /// Fails if memory runs out.
    pub fn read_symbols(
        &mut self,
        index: usize,
        mapping: &Mapping,
    ) -> Result<Option<usize>, AllocError> {
        let path = mapping.path.as_slice();
        let Some(number) = self.find_open(index, mapping)? else {
            return Ok(None);
        };
        if let Some(file) = self.files.get_mut(number) {
            file.read_symbols(&self.opener, mapped_path(path))?;
        }
        self.note_failure(number, path)?;
        Ok(Some(number))
    }

    // Makes it a problem that an open file at a path has no lines, if they are wanted.
    fn note_missing_lines(&mut self, number: usize, path: &[u8]) -> Result<(), AllocError> {
        match self.files.get(number) {
            Some(file)
                if self.is_line_wanted && !file.has_debug_info() && file.line_problem.is_none() =>
                {}
            _ => return Ok(()),
        }
        let problem = self.push_problem(path, FileProblem::NoLineInformation)?;
        if let Some(file) = self.files.get_mut(number) {
            file.line_problem = Some(problem);
        }
        Ok(())
    }

    // Reads the debugging information of an open file at a path.
    fn read_debug_info(&mut self, number: usize, path: &[u8]) -> Result<(), AllocError> {
        match self.files.get_mut(number) {
            Some(file) if !file.is_debug_info_read() => {
                file.read_debug_info(&self.opener, mapped_path(path), self.has_lines)?;
            }
            _ => return Ok(()),
        }
        self.note_failure(number, path)?;
        self.note_missing_lines(number, path)
    }

    /// Returns the functions and lines at an address in the mapping with an index, innermost first, if its
    /// file has some there. The debugging information of the file is then read, without line programs if
    /// lines are left out.
    ///
    /// Fails if memory runs out.
    pub fn find_source(
        &mut self,
        index: usize,
        mapping: &Mapping,
        address: u64,
    ) -> Result<Option<SourceFrames<'_>>, AllocError> {
        let Some(number) = self.find_open(index, mapping)? else {
            return Ok(None);
        };
        self.read_debug_info(number, mapping.path.as_slice())?;
        let Some(file) = self.files.get_mut(number) else {
            return Ok(None);
        };
        match file.address(mapping.file_offset(address)) {
            Some(address) => file.find_source(address, self.has_lines),
            None => Ok(None),
        }
    }

    /// Returns the file with an index.
    pub fn get(&self, file: usize) -> Option<&MappedFile>
        ensures { option_map (λ file. file.now) result ≡ slice_get (files_of self.now) file }
    {
        self.files.get(file)
    }

    /// Returns the machine of the file at an address in the mapping with an index, if it has code there.
    ///
    /// Fails if memory runs out.
    pub fn find_machine(
        &mut self,
        index: usize,
        mapping: &Mapping,
        address: u64,
    ) -> Result<Option<Machine>, AllocError> {
        let Some(file) = self.find_open(index, mapping)? else {
            return Ok(None);
        };
        match self.files.get(file) {
            Some(file) if file.address(mapping.file_offset(address)).is_some() => Ok(
                file.machine(),
            ),
            _ => Ok(None),
        }
    }

    /// Returns whether the call frame information at an address in the mapping with an index is that of a
    /// signal frame.
    ///
    /// Fails if memory runs out.
    pub fn is_signal_frame(
        &mut self,
        index: usize,
        mapping: &Mapping,
        address: u64,
    ) -> Result<bool, AllocError> {
        let Some(number) = self.find_open(index, mapping)? else {
            return Ok(false);
        };
        let Some(file) = self.files.get_mut(number) else {
            return Ok(false);
        };
        let Some(machine) = file.machine() else {
            return Ok(false);
        };
        file.read_frames(self.opener.rt.alloc(), machine)?;
        match file.address(mapping.file_offset(address)) {
            Some(address) => Ok(file.is_signal_frame(address)),
            None => Ok(false),
        }
    }

    // Returns the address in a file's code of an address in the mapping with an index.
    fn find_uncached_address(
        &mut self,
        machine: Machine,
        index: usize,
        mapping: &Mapping,
        address: u64,
    ) -> Result<Option<CodeAddress>, AllocError> {
        let Some(number) = self.find_open(index, mapping)? else {
            return Ok(None);
        };
        let Some(file) = self.files.get_mut(number) else {
            return Ok(None);
        };
        file.read_frames(self.opener.rt.alloc(), machine)?;
        let Some(address) = file.address(mapping.file_offset(address)) else {
            return Ok(None);
        };
        Ok(Some(CodeAddress {
            file: number,
            address,
            plt: file.plt(address),
            code: file.code(address)?,
        }))
    }

    // Returns what the last look-up of an address in the mapping with an index found, if it is cached.
    fn cached(&self, index: usize, address: u64) -> Option<Option<CodeAddress>> {
        match self.addresses.get(slot(address)) {
            Some(Some(cached)) if cached.index == index && cached.address == address => {
                Some(cached.found)
            }
            _ => None,
        }
    }

    // Keeps what a look-up found.
    fn cache(&mut self, cached: CachedAddress) -> Result<(), AllocError> {
        if self.addresses.is_empty() {
            self.addresses.resize(SLOTS, None)?;
        }
        if let Some(slot) = self.addresses.get_mut(slot(cached.address)) {
            *slot = Some(cached);
        }
        Ok(())
    }

    /// Returns the address in a file's code of an address in the mapping with an index, if there is code. The
    /// call frame information of the file is then read, for samples of a machine.
    ///
    /// Fails if memory runs out.
    pub fn find_code_address(
        &mut self,
        machine: Machine,
        index: usize,
        mapping: &Mapping,
        address: u64,
    ) -> Result<Option<CodeAddress>, AllocError> {
        let found = match self.cached(index, address) {
            Some(found) => found,
            None => {
                let found = self.find_uncached_address(machine, index, mapping, address)?;
                self.cache(CachedAddress {
                    index,
                    address,
                    found,
                })?;
                found
            }
        };
        if let Some(found) = found {
            if let Some(file) = self.files.get_mut(found.file) {
                file.cache_row(self.opener.rt.alloc(), found.address)?;
            }
        }
        Ok(found)
    }

    /// Returns what is at an address in a file's code.
    pub fn code<'b>(&'b self, at: &'b CodeAddress) -> MappedCode<'b> {
        let file = self.files.get(at.file);
        match file.and_then(|file| file.frame_tables()) {
            Some(tables) => MappedCode::File {
                tables,
                address: at.address,
                plt: at.plt,
                code: at.code.as_slice(),
            },
            None => MappedCode::Nothing,
        }
    }
}
