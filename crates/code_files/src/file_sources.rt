//! Where the code and the symbols of a mapped file are looked for.

use crate::caches::push_id_path;
use crate::directories::Directories;
use code_symbols::{AlternateLink, DebugLink};
use std::alloc::{AllocError, Global};

// The kinds of files of perf's cache.
const PERF_CODE: &str = "elf";

const PERF_SYMBOLS: &str = "debug";

const PERF_VDSO: &str = "vdso";

/// That of the kernel's list of symbols.
pub(crate) const PERF_KERNEL_LIST: &str = "kallsyms";

// The kinds of files of debuginfod's cache.
const DEBUGINFOD_CODE: &str = "executable";

const DEBUGINFOD_SYMBOLS: &str = "debuginfo";

// The directory before the path of a file.
#[derive(Clone, Copy, PartialEq, Eq)]
pub(crate) enum PathRoot {
    /// That of mapped files.
    Files,
    /// That of debug files.
    DebugFiles,
    /// None: a cache of this machine.
    Machine,
}

// A file that may have what a mapped file contains.
#[derive(Drop, PartialEq, Eq)]
pub(crate) struct FileSource {
    pub(crate) root: PathRoot,
    /// The path below the directory.
    pub(crate) path: String,
    /// The CRC-32 of the file, if the mapped file's debug link has this path.
    pub(crate) crc: Option<u32>,
}

// A mapped file whose sources are looked for.
#[derive(Clone, Copy)]
pub(crate) struct MappedPath<'a> {
    /// The path.
    pub(crate) path: &'a str,
    /// Whether it is that of the code that the kernel gives to each process.
    pub(crate) is_vdso: bool,
}

// Returns the part of a path up to its last slash, which is at least one slash.
fn parent_directory(path: &str) -> &str {
    match path.rsplit_once('/') {
        Some((directory, _name)) => path.get(..directory.len().saturating_add(1)).unwrap_or("/"),
        None => "/",
    }
}

// The sources that are found so far, the first one first.
#[derive(Drop)]
struct SourceList {
    alloc: Global,
    sources: Vec<FileSource>,
}

impl SourceList {
    fn new(alloc: Global) -> SourceList {
        SourceList {
            alloc,
            sources: Vec::new(alloc),
        }
    }

    // Adds a file at a path.
    fn add(&mut self, root: PathRoot, path: String, crc: Option<u32>) -> Result<(), AllocError> {
        self.sources.push(FileSource { root, path, crc })?;
        Ok(())
    }

    // Adds a file of a cache, if there is a cache.
    fn add_cached(&mut self, path: Option<String>) -> Result<(), AllocError> {
        match path {
            Some(path) => self.add(PathRoot::Machine, path, None),
            None => Ok(()),
        }
    }

    // Adds the debug file with a build id, if that is known.
    fn add_debug_id(&mut self, id: &[u8]) -> Result<(), AllocError> {
        if id.is_empty() {
            return Ok(());
        }
        let mut path = String::from_str(self.alloc, "/.build-id/")?;
        push_id_path(&mut path, id)?;
        path.push_str(".debug")?;
        self.add(PathRoot::DebugFiles, path, None)
    }

    // Adds the debug files with a build id: that in the directory of debug files if the command line names
    // it, perf's cache, that in the default directory of debug files, and the cache of debuginfod.
    fn add_with_id(
        &mut self,
        directories: &Directories<'_>,
        id: &[u8],
        perf_code: &str,
    ) -> Result<(), AllocError> {
        let (alloc, caches) = (self.alloc, &directories.caches);
        if directories.has_debug_dir {
            self.add_debug_id(id)?;
        }
        self.add_cached(caches.perf_path(alloc, id, perf_code)?)?;
        self.add_cached(caches.perf_path(alloc, id, PERF_SYMBOLS)?)?;
        if !directories.has_debug_dir {
            self.add_debug_id(id)?;
        }
        self.add_cached(caches.debuginfod_path(alloc, id, DEBUGINFOD_SYMBOLS)?)?;
        self.add_cached(caches.debuginfod_path(alloc, id, DEBUGINFOD_CODE)?)
    }

    // Adds the path that the alternate link of a file names. A relative one is for the file of a source.
    fn add_alternate(&mut self, source: Option<&FileSource>, path: &str) -> Result<(), AllocError> {
        let alloc = self.alloc;
        if path.starts_with('/') {
            return self.add(PathRoot::Files, String::from_str(alloc, path)?, None);
        }
        let Some(source) = source else {
            return Ok(());
        };
        let directory = parent_directory(source.path.as_str());
        self.add(source.root, format!(in alloc; "{directory}{path}")?, None)
    }

    // Adds the paths of the debug file that the debug link of the mapped file at a path names.
    fn add_linked(&mut self, path: &str, name: &str, crc: u32) -> Result<(), AllocError> {
        let alloc = self.alloc;
        let directory = parent_directory(path);
        let crc = Some(crc);
        self.add(
            PathRoot::Files,
            format!(in alloc; "{directory}{name}")?,
            crc,
        )?;
        self.add(
            PathRoot::Files,
            format!(in alloc; "{directory}.debug/{name}")?,
            crc,
        )?;
        self.add(
            PathRoot::DebugFiles,
            format!(in alloc; "{directory}{name}")?,
            crc,
        )
    }
}

impl MappedPath<'_> {
    // Returns the kind of file of perf's cache that has the code.
    fn perf_code(self) -> &'static str {
        if self.is_vdso { PERF_VDSO } else { PERF_CODE }
    }

    // Returns the source at the path itself, if it is that of a file.
    pub(crate) fn own_source(self, alloc: Global) -> Result<FileSource, AllocError> {
        Ok(FileSource {
            root: PathRoot::Files,
            path: String::from_str(alloc, self.path)?,
            crc: None,
        })
    }

    // Returns the sources of the code before the path itself, by the recorded build id.
    pub(crate) fn code_sources(
        self,
        alloc: Global,
        directories: &Directories<'_>,
        id: &[u8],
    ) -> Result<Vec<FileSource>, AllocError> {
        let caches = &directories.caches;
        let mut list = SourceList::new(alloc);
        list.add_cached(caches.perf_path(alloc, id, self.perf_code())?)?;
        list.add_cached(caches.debuginfod_path(alloc, id, DEBUGINFOD_CODE)?)?;
        Ok(list.sources)
    }

    // Returns the sources of the symbols, by the build id and by the debug link of the code: the directory of
    // debug files if the command line names it, perf's cache, the default directory of debug files, the cache
    // of debuginfod, the debug link, the file below the directory of debug files with the path, and the path.
    pub(crate) fn symbol_sources(
        self,
        alloc: Global,
        directories: &Directories<'_>,
        link: Option<&DebugLink>,
        id: &[u8],
    ) -> Result<Vec<FileSource>, AllocError> {
        let mut list = SourceList::new(alloc);
        list.add_with_id(directories, id, self.perf_code())?;
        if let Some(link) = link {
            if let Ok(name) = str::from_utf8(&link.file_name) {
                list.add_linked(self.path, name, link.crc)?;
            }
        }
        if !self.is_vdso {
            let path = String::from_str(alloc, self.path)?;
            list.add(PathRoot::DebugFiles, path, None)?;
            list.sources.push(self.own_source(alloc)?)?;
        }
        Ok(list.sources)
    }
}

// Returns the sources of the alternate file that a link names, in the file of a source, or in memory if there
// is no source: the path, and the files with the build id.
pub(crate) fn alternate_sources(
    alloc: Global,
    directories: &Directories<'_>,
    source: Option<&FileSource>,
    link: &AlternateLink,
) -> Result<Vec<FileSource>, AllocError> {
    let mut list = SourceList::new(alloc);
    if let Ok(path) = str::from_utf8(&link.path) {
        list.add_alternate(source, path)?;
    }
    list.add_with_id(directories, &link.build_id, PERF_CODE)?;
    Ok(list.sources)
}
