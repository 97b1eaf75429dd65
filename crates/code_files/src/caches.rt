//! The caches of files by their build ids: perf's, and that of debuginfod's clients.

use std::alloc::{AllocError, Global};
use std::env;
use std::env::VarError;

// The variable with the directory of perf's cache, and the default below the home directory.
const PERF_VARIABLE: &str = "PERF_BUILDID_DIR";

const PERF_DIRECTORY: &str = ".debug";

// The variable with the directory of debuginfod's cache, that with the directory of all caches, the default
// of this one below the home directory, and the default below it.
const DEBUGINFOD_VARIABLE: &str = "DEBUGINFOD_CACHE_PATH";

const CACHE_VARIABLE: &str = "XDG_CACHE_HOME";

const CACHE_DIRECTORY: &str = ".cache";

const DEBUGINFOD_DIRECTORY: &str = "debuginfod_client";

// The variable with the home directory.
const HOME_VARIABLE: &str = "HOME";

// The directories of the caches, unless no cache is read.
#[derive(Drop)]
pub(crate) struct Caches {
    perf: Option<String>,
    debuginfod: Option<String>,
}

// Returns the value of a variable of the environment, unless it is empty.
fn variable(rt: &HostRuntime, name: &str) -> Result<Option<String>, AllocError> {
    match env::var(rt, name) {
        Ok(value) if !value.is_empty() => Ok(Some(value)),
        Err(VarError::OutOfMemory) => Err(AllocError),
        _ => Ok(None),
    }
}

// Returns a directory below another one, if there is one.
fn below(
    alloc: Global,
    directory: Option<&String>,
    name: &str,
) -> Result<Option<String>, AllocError> {
    match directory {
        Some(directory) => Ok(Some(format!(in alloc; "{directory}/{name}")?)),
        None => Ok(None),
    }
}

// Returns the directory of debuginfod's cache.
fn debuginfod_directory(
    rt: &HostRuntime,
    home: Option<&String>,
) -> Result<Option<String>, AllocError> {
    if let Some(directory) = variable(rt, DEBUGINFOD_VARIABLE)? {
        return Ok(Some(directory));
    }
    let caches = match variable(rt, CACHE_VARIABLE)? {
        Some(directory) => Some(directory),
        None => below(rt.alloc(), home, CACHE_DIRECTORY)?,
    };
    below(rt.alloc(), caches.as_ref(), DEBUGINFOD_DIRECTORY)
}

/// Appends the two parts of a path that perf has for a build id: two digits, `/` and the other digits.
pub(crate) fn push_id_path(path: &mut String, id: &[u8]) -> Result<(), AllocError> {
    for (index, byte) in id.iter().enumerate() {
        if index == 1 {
            path.push('/')?;
        }
        write!(path, "{byte:02x}")?;
    }
    Ok(())
}

impl Caches {
    // Returns the caches that the environment names. None is read if files are those of another machine.
    pub(crate) fn open(rt: &HostRuntime, is_other_machine: bool) -> Result<Caches, AllocError> {
        if is_other_machine {
            return Ok(Caches {
                perf: None,
                debuginfod: None,
            });
        }
        let home = variable(rt, HOME_VARIABLE)?;
        let perf = match variable(rt, PERF_VARIABLE)? {
            Some(directory) => Some(directory),
            None => below(rt.alloc(), home.as_ref(), PERF_DIRECTORY)?,
        };
        Ok(Caches {
            perf,
            debuginfod: debuginfod_directory(rt, home.as_ref())?,
        })
    }

    // Returns the path of a file of perf's cache: `.build-id/`, the digits of the build id in two parts, and
    // the kind of the file.
    pub(crate) fn perf_path(
        &self,
        alloc: Global,
        id: &[u8],
        kind: &str,
    ) -> Result<Option<String>, AllocError> {
        let Some(directory) = self.perf.as_ref().filter(|_| !id.is_empty()) else {
            return Ok(None);
        };
        let mut path = format!(in alloc; "{directory}/.build-id/")?;
        push_id_path(&mut path, id)?;
        write!(path, "/{kind}")?;
        Ok(Some(path))
    }

    // Returns the path of a file of debuginfod's cache: the digits of the build id, and the kind of the file.
    pub(crate) fn debuginfod_path(
        &self,
        alloc: Global,
        id: &[u8],
        kind: &str,
    ) -> Result<Option<String>, AllocError> {
        let Some(directory) = self.debuginfod.as_ref().filter(|_| !id.is_empty()) else {
            return Ok(None);
        };
        let mut path = format!(in alloc; "{directory}/")?;
        for byte in id {
            write!(path, "{byte:02x}")?;
        }
        write!(path, "/{kind}")?;
        Ok(Some(path))
    }
}
