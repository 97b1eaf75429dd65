//! The directories in which files are looked for.

use crate::caches::Caches;
use crate::file_problems::{FileProblem, ReadCause, value_or_none};
use std::alloc::AllocError;
use std::fs::File;
use std::io::ErrorKind;
use std::path::{Path, PathBuf};
use std::{fs, io};

// The directories of the kernel, in which no file is opened.
const KERNEL_DIRECTORIES: [&str; 3] = ["/proc", "/sys", "/dev"];

// The directory of debug files.
const DEBUG_DIRECTORY: &str = "/usr/lib/debug";

// The directory of perf-PID.map files.
const MAP_DIRECTORY: &str = "/tmp";

// The path, below the directory of the mapped files, of the code that the kernel gives to each process.
const VDSO_FILE: &str = "/[vdso]";

/// Where files are looked for.
#[derive(Clone, Copy)]
pub struct FileOptions<'a> {
    /// The directory that precedes the paths of files, which no link leaves. No cache is read then.
    pub symfs: Option<&'a str>,
    /// The directory of debug files, which `symfs` precedes too.
    pub debug_dir: Option<&'a str>,
    /// The directory of perf-PID.map files.
    pub maps: Option<&'a str>,
    /// The file of the code that the kernel gives to each process.
    pub vdso: Option<&'a str>,
}

/// An error of a path of the command line.
#[derive(Drop)]
pub struct PathError<'a> {
    /// The path.
    pub path: &'a str,
    /// The error.
    pub error: io::Error,
}

// A directory in which files are looked for.
#[derive(Drop)]
pub(crate) struct Directory {
    /// What precedes the path of a file, which starts with a slash.
    prefix: String,
    /// The directory, without links, in which files have to be, if they can't be anywhere.
    limit: Option<PathBuf>,
}

// Returns whether a path is in a directory of the kernel.
fn is_kernel_path(path: Path<'_>) -> bool {
    KERNEL_DIRECTORIES
        .iter()
        .any(|directory| path.starts_with(*directory))
}

/// Returns what was opened, or `None` if there is nothing to open.
///
/// Fails if memory runs out.
pub fn none_if_missing<T: Drop>(opened: io::Result<Option<T>>) -> Result<Option<T>, AllocError> {
    match opened {
        Ok(found) => Ok(found),
        Err(error) if error.kind() == ErrorKind::OutOfMemory => Err(AllocError),
        Err(_) => Ok(None),
    }
}

impl Directory {
    // Opens the directory at a path, or at this path below another directory, which no link leaves.
    fn open_below(rt: &HostRuntime, root: Option<&str>, path: &str) -> io::Result<Directory> {
        let limit = match root {
            Some(root) => Some(fs::canonicalize(rt, root)?),
            None => None,
        };
        let root = root.unwrap_or("");
        let slash = if path.is_empty() || path.starts_with('/') {
            ""
        } else {
            "/"
        };
        Ok(Directory {
            prefix: format!(in rt.alloc(); "{root}{slash}{path}")?,
            limit,
        })
    }

    // Opens a directory of the command line.
    fn open(rt: &HostRuntime, path: &str, is_limited: bool) -> io::Result<Directory> {
        let canonical = fs::canonicalize(rt, path)?;
        Ok(Directory {
            prefix: String::from_str(rt.alloc(), path)?,
            limit: if is_limited { Some(canonical) } else { None },
        })
    }

    // Opens a directory of the command line, or the default one.
    fn open_or_default<'a>(
        rt: &HostRuntime,
        symfs: Option<&'a str>,
        path: Option<&'a str>,
        default: &str,
    ) -> Result<Directory, PathError<'a>> {
        let opened = match path {
            Some(path) => Directory::open(rt, path, symfs.is_some()),
            None => Directory::open_below(rt, symfs, default),
        };
        let named = path.or(symfs).unwrap_or("");
        opened.map_err(|error| PathError { path: named, error })
    }

    // Opens the directory of debug files, which is below that of mapped files, if the command line names one.
    fn open_debug_files<'a>(
        rt: &HostRuntime,
        symfs: Option<&'a str>,
        path: Option<&'a str>,
    ) -> Result<Directory, PathError<'a>> {
        match symfs {
            Some(_) => {
                let below = path.unwrap_or(DEBUG_DIRECTORY);
                Directory::open_or_default(rt, symfs, None, below)
            }
            None => Directory::open_or_default(rt, None, path, DEBUG_DIRECTORY),
        }
    }

    // Opens the regular file at a path, which starts with a slash, with all links of the path followed.
    pub(crate) fn find_file(&self, rt: &HostRuntime, path: &str) -> Result<File, FileProblem> {
        let prefix = self.prefix.as_str();
        let linked = format!(in rt.alloc(); "{prefix}{path}").map_err(io::Error::from)?;
        if is_kernel_path(Path::new(linked.as_str())) {
            return Err(FileProblem::Unreadable(ReadCause::NotRegular));
        }
        let path = fs::canonicalize(rt, linked)?;
        let is_within = match &self.limit {
            Some(limit) => path.as_path().starts_with(limit),
            None => true,
        };
        if !is_within {
            return Err(FileProblem::Unreadable(ReadCause::OutsideDirectory));
        }
        if is_kernel_path(path.as_path()) || !fs::metadata(rt, &path)?.is_file() {
            return Err(FileProblem::Unreadable(ReadCause::NotRegular));
        }
        Ok(File::open(rt, &path)?)
    }

    // Opens the file at a path, which starts with a slash. Returns `None` if it can't be opened.
    pub(crate) fn open_file(
        &self,
        rt: &HostRuntime,
        path: &str,
    ) -> Result<Option<File>, AllocError> {
        value_or_none(self.find_file(rt, path))
    }
}

// The directories in which files are looked for.
#[derive(Drop)]
pub(crate) struct Directories<'a> {
    /// That of the paths of mapped files.
    pub(crate) files: Directory,
    /// That of debug files.
    pub(crate) debug_files: Directory,
    /// That of perf-PID.map files.
    pub(crate) maps: Directory,
    /// That of the paths of caches, which are paths of this machine.
    pub(crate) machine: Directory,
    pub(crate) caches: Caches,
    /// Whether the command line names the directory of debug files.
    pub(crate) has_debug_dir: bool,
    /// The file of the code that the kernel gives to each process.
    vdso: Option<&'a str>,
    /// Whether mapped files are below a directory of the command line.
    pub(crate) has_symfs: bool,
}

impl<'a> Directories<'a> {
    // Opens the directories of the command line. Its file of the vDSO exists.
    pub(crate) fn open(
        rt: &HostRuntime,
        options: &FileOptions<'a>,
    ) -> Result<Directories<'a>, PathError<'a>> {
        let FileOptions {
            symfs,
            debug_dir,
            maps,
            vdso,
        } = *options;
        let caches = match Caches::open(rt, symfs.is_some()) {
            Ok(caches) => caches,
            Err(AllocError) => {
                let path = symfs.unwrap_or("");
                let error = io::Error::from(ErrorKind::OutOfMemory);
                return Err(PathError { path, error });
            }
        };
        let directories = Directories {
            files: Directory::open_or_default(rt, symfs, None, "")?,
            debug_files: Directory::open_debug_files(rt, symfs, debug_dir)?,
            maps: Directory::open_or_default(rt, symfs, maps, MAP_DIRECTORY)?,
            machine: Directory::open_or_default(rt, None, None, "")?,
            caches,
            has_debug_dir: debug_dir.is_some(),
            vdso,
            has_symfs: symfs.is_some(),
        };
        if let Some(path) = vdso {
            let _file = File::open(rt, path).map_err(|error| PathError { path, error })?;
        }
        Ok(directories)
    }

    // Opens the file of the vDSO that the command line names, or that is below its directory of files.
    pub(crate) fn open_vdso(&self, rt: &HostRuntime) -> Result<Option<File>, AllocError> {
        match self.vdso {
            Some(path) => none_if_missing(File::open(rt, path).map(Some)),
            None if self.has_symfs => self.files.open_file(rt, VDSO_FILE),
            None => Ok(None),
        }
    }
}
