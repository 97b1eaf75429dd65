//! The sections with the debugging information of a file.

ghost use Rattle.std.specs.Prelude.{◌≡◌, [], IfOk, false};

use crate::file_problems::{ReadCause, value_or_keep};
use crate::section_contents::{SectionContents, SectionError};
use code_dwarf::{AddressRange, AlternateInfo, DebugInfo, Endianness, Sections};
use code_symbols::{AlternateLink, ElfFile, Segment};
use perfdata_base::raw;
use perfdata_base::source::PlacedSource;
use std::alloc::{AllocError, Global};

// The sections that decide whether a file's debugging information is used.
#[derive(Drop)]
pub(crate) struct MainSections {
    /// `.debug_info`.
    pub(crate) info: Vec<u8>,
    /// `.debug_line`.
    pub(crate) line: Vec<u8>,
}

/// Reads the sections of files. A section that can't be used counts as absent; the first error is kept.
#[derive(Drop)]
pub struct DebugSectionReader {
    alloc: Global,
    /// Whether line programs are read. Otherwise they count as absent.
    has_lines: bool,
    failure: Option<ReadCause>,
}

// Returns where the code of a file with these segments is.
fn code_ranges(alloc: Global, segments: &[Segment]) -> Result<Vec<AddressRange>, AllocError> {
    let mut ranges = Vec::new(alloc);
    for segment in segments {
        if segment.is_executable {
            ranges.push(AddressRange {
                start: segment.address,
                end: segment.address.saturating_add(segment.memory_size),
            })?;
        }
    }
    Ok(ranges)
}

// Returns the byte order of a file's numbers.
fn endianness<R: PlacedSource + Drop>(elf: &ElfFile<R>) -> Endianness {
    match elf.endian() {
        raw::Endianness::LittleEndian => Endianness::Little,
        raw::Endianness::BigEndian => Endianness::Big,
    }
}

impl DebugSectionReader {
    /// Returns a reader without an error.
    pub fn new(alloc: Global) -> DebugSectionReader {
        DebugSectionReader::with_lines(alloc, true)
    }

    // Returns a reader without an error, for which line programs are absent unless lines are wanted.
    pub(crate) fn with_lines(alloc: Global, has_lines: bool) -> DebugSectionReader
        ensures { result.has_lines ≡ has_lines }
    {
        DebugSectionReader {
            alloc,
            has_lines,
            failure: None,
        }
    }

    /// Takes the error of the first section that can't be used.
    pub fn take_failure(&mut self) -> Option<ReadCause> {
        self.failure.take()
    }

    // Reads a section. One that isn't there is empty.
    fn read_section<R: PlacedSource + Drop>(
        &mut self,
        elf: &mut ElfFile<R>,
        name: &'static str,
    ) -> Result<Vec<u8>, AllocError> {
        let read = SectionContents::read(self.alloc, elf, name.as_bytes());
        let read = read.map_err(|error| ReadCause::Section(name, error));
        match value_or_keep(read, &mut self.failure)? {
            Some(Some(SectionContents { bytes, .. })) => Ok(bytes),
            _ => Ok(Vec::new(self.alloc)),
        }
    }

    // Reads the section of line programs, if lines are wanted. One that isn't there is empty.
    fn read_lines<R: PlacedSource + Drop>(
        &mut self,
        elf: &mut ElfFile<R>,
    ) -> Result<Vec<u8>, AllocError>
        ensures { self.old.has_lines ≡ false → IfOk result (λ bytes. bytes.items ≡ []) }
    {
        if self.has_lines {
            self.read_section(elf, ".debug_line")
        } else {
            Ok(Vec::new(self.alloc))
        }
    }

    // Reads the main sections.
    fn read_main<R: PlacedSource + Drop>(
        &mut self,
        elf: &mut ElfFile<R>,
    ) -> Result<MainSections, AllocError> {
        Ok(MainSections {
            info: self.read_section(elf, ".debug_info")?,
            line: self.read_lines(elf)?,
        })
    }

    // Reads the main sections, unless the file is relocatable: its code has no addresses yet.
    pub(crate) fn read_placed<R: PlacedSource + Drop>(
        &mut self,
        elf: &mut ElfFile<R>,
    ) -> Result<MainSections, AllocError> {
        if elf.is_relocatable() {
            return Ok(MainSections {
                info: Vec::new(self.alloc),
                line: Vec::new(self.alloc),
            });
        }
        self.read_main(elf)
    }

    // Reads the sections beside the main ones.
    fn read_others<R: PlacedSource + Drop>(
        &mut self,
        elf: &mut ElfFile<R>,
        main: MainSections,
    ) -> Result<Sections, AllocError> {
        let MainSections { info, line } = main;
        Ok(Sections {
            info,
            line,
            abbrev: self.read_section(elf, ".debug_abbrev")?,
            line_str: self.read_section(elf, ".debug_line_str")?,
            str: self.read_section(elf, ".debug_str")?,
            str_offsets: self.read_section(elf, ".debug_str_offsets")?,
            addr: self.read_section(elf, ".debug_addr")?,
            ranges: self.read_section(elf, ".debug_ranges")?,
            rnglists: self.read_section(elf, ".debug_rnglists")?,
        })
    }

    // Reads the debugging information of a file with these main sections.
    pub(crate) fn read_rest<R: PlacedSource + Drop>(
        &mut self,
        elf: &mut ElfFile<R>,
        main: MainSections,
        alternate: Option<AlternateInfo>,
    ) -> Result<DebugInfo, AllocError> {
        let sections = self.read_others(elf, main)?;
        let code = code_ranges(self.alloc, elf.segments())?;
        DebugInfo::new(self.alloc, endianness(elf), sections, &code, alternate)
    }

    /// Reads the debugging information of a file and of nothing else but its alternate file. That of a
    /// relocatable file has nothing.
    ///
    /// Fails if memory runs out.
    pub fn read<R: PlacedSource + Drop>(
        &mut self,
        elf: &mut ElfFile<R>,
        alternate: Option<AlternateInfo>,
    ) -> Result<DebugInfo, AllocError> {
        let main = self.read_placed(elf)?;
        self.read_rest(elf, main, alternate)
    }

    /// Reads an alternate file, which is relocatable as `dwz` writes it.
    ///
    /// Fails if memory runs out.
    pub fn read_alternate<R: PlacedSource + Drop>(
        &mut self,
        elf: &mut ElfFile<R>,
    ) -> Result<AlternateInfo, AllocError> {
        let main = self.read_main(elf)?;
        let sections = self.read_others(elf, main)?;
        AlternateInfo::new(self.alloc, endianness(elf), sections)
    }

    /// Reads which alternate file a file names, or returns `None` if it names none.
    ///
    /// Fails if memory runs out.
    pub fn read_alternate_link<R: PlacedSource + Drop>(
        &mut self,
        elf: &mut ElfFile<R>,
    ) -> Result<Option<AlternateLink>, AllocError> {
        let name = ".gnu_debugaltlink";
        let read = elf.alternate_link(self.alloc);
        let read = read.map_err(|error| ReadCause::Section(name, SectionError::Elf(error)));
        Ok(value_or_keep(read, &mut self.failure)?.and_then(|link| link))
    }
}
