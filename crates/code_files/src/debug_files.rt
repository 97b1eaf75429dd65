//! The debugging information of mapped files: which file has it, and its alternate file.

use crate::debug_sections::{DebugSectionReader, MainSections};
use crate::elf_opener::{Elf, ElfOpener};
use crate::file_problems::ReadCause;
use crate::file_sources::{FileSource, alternate_sources};
use code_dwarf::{AlternateInfo, DebugInfo};
use std::alloc::AllocError;

// A debug file with debugging information.
#[derive(Drop)]
pub(crate) struct DebugFile {
    pub(crate) elf: Elf,
    pub(crate) source: FileSource,
    pub(crate) main: MainSections,
}

// Reads the debugging information of a mapped file.
#[derive(Drop)]
pub(crate) struct DebugFileReader<'b, 'a> {
    opener: &'b ElfOpener<'a>,
    sections: DebugSectionReader,
}

impl<'b, 'a> DebugFileReader<'b, 'a> {
    // Returns a reader without an error, which reads line programs if lines are wanted.
    pub(crate) fn new(opener: &'b ElfOpener<'a>, has_lines: bool) -> DebugFileReader<'b, 'a> {
        DebugFileReader {
            opener,
            sections: DebugSectionReader::with_lines(opener.rt.alloc(), has_lines),
        }
    }

    // Takes the error of the first section that can't be used.
    pub(crate) fn take_failure(&mut self) -> Option<ReadCause> {
        self.sections.take_failure()
    }

    // Reads the sections that decide whether a file's debugging information is used.
    pub(crate) fn read_main(&mut self, elf: &mut Elf) -> Result<MainSections, AllocError> {
        self.sections.read_placed(elf)
    }

    // Opens the debug file of a source, if it has the build id.
    fn open(&mut self, source: FileSource, id: &[u8]) -> Result<Option<DebugFile>, AllocError> {
        match self.opener.open_source(&source, id)? {
            Some(mut elf) => {
                let main = self.sections.read_placed(&mut elf)?;
                Ok(Some(DebugFile { elf, source, main }))
            }
            None => Ok(None),
        }
    }

    // Opens the first of the debug files with units or, if none has units, the first with line programs.
    pub(crate) fn find(
        &mut self,
        sources: Vec<FileSource>,
        id: &[u8],
    ) -> Result<Option<DebugFile>, AllocError> {
        let mut with_lines = None;
        for source in sources {
            match self.open(source, id)? {
                Some(file) if !file.main.info.is_empty() => return Ok(Some(file)),
                Some(file) if with_lines.is_none() && !file.main.line.is_empty() => {
                    with_lines = Some(file);
                }
                _ => {}
            }
        }
        Ok(with_lines)
    }

    // Reads the alternate file of the file at a source, if it has one.
    fn read_alternate(
        &mut self,
        elf: &mut Elf,
        source: Option<&FileSource>,
    ) -> Result<Option<AlternateInfo>, AllocError> {
        let (rt, Some(directories)) = (self.opener.rt, &self.opener.directories) else {
            return Ok(None);
        };
        let Some(link) = self.sections.read_alternate_link(elf)? else {
            return Ok(None);
        };
        for source in alternate_sources(rt.alloc(), directories, source, &link)? {
            if let Some(mut elf) = self.opener.open_source(&source, &link.build_id)? {
                return Ok(Some(self.sections.read_alternate(&mut elf)?));
            }
        }
        Ok(None)
    }

    // Reads the debugging information of the file at a source with these main sections.
    pub(crate) fn read(
        &mut self,
        elf: &mut Elf,
        source: Option<&FileSource>,
        main: MainSections,
    ) -> Result<DebugInfo, AllocError> {
        let alternate = self.read_alternate(elf, source)?;
        self.sections.read_rest(elf, main, alternate)
    }
}
