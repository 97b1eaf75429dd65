//! The build ids of a recording, and which file has one.

ghost use Rattle.std.specs.Prelude.{◌≡◌, ◌↔◌, All, IsTrue};
ghost use Rattle.code_files.specs.BuildIds.{IsAccepted, IsExtended, IsRecorded};

use crate::mapping_names::KERNEL_PATH;
use perfdata_spaces::mapping::Mapping;
use std::alloc::{AllocError, Global};
use std::collections::HashMap;

/// The recorded build ids, by path.
#[derive(Drop)]
pub struct BuildIds {
    by_path: HashMap<Vec<u8>, Vec<u8>>,
}

// Returns whether all bytes are 0.
fn are_zeros(bytes: &[u8]) -> bool
    ensures { IsTrue result ↔ All (λ byte. byte ≡ 0) bytes.now }
{
    bytes.iter().all(|byte| *byte == 0)
}

// Returns whether a build id is another one with zeros after it.
fn is_extended(long: &[u8], short: &[u8]) -> bool
    ensures { IsTrue result ↔ IsExtended long.now short.now }
{
    match long.strip_prefix(short) {
        Some(rest) => are_zeros(rest),
        None => false,
    }
}

/// Returns whether a file with a build id is the one with the recorded build id: the file has one, and they
/// differ at most by zeros at the end of one.
pub fn is_recorded(id: &[u8], recorded: &[u8]) -> bool
    ensures { IsTrue result ↔ IsRecorded id.now recorded.now }
{
    !id.is_empty() && (is_extended(id, recorded) || is_extended(recorded, id))
}

// Returns whether a file with a build id is used: no build id is recorded, or it is the recorded one.
pub(crate) fn is_accepted(id: &[u8], recorded: &[u8]) -> bool
    ensures { IsTrue result ↔ IsAccepted id.now recorded.now }
{
    recorded.is_empty() || is_recorded(id, recorded)
}

impl BuildIds {
    /// Returns no build ids.
    pub fn new(alloc: Global) -> BuildIds {
        BuildIds {
            by_path: HashMap::new(alloc),
        }
    }

    /// Adds the build id of the file at a path.
    ///
    /// Fails if memory runs out.
    pub fn insert(&mut self, path: Vec<u8>, build_id: Vec<u8>) -> Result<(), AllocError> {
        self.by_path.insert(path, build_id)?;
        Ok(())
    }

    /// Returns the build id of the file at a path, which is empty if it isn't known.
    pub fn get(&self, path: &[u8]) -> &[u8] {
        match self.by_path.get(path) {
            Some(id) => id.as_slice(),
            None => &[],
        }
    }

    /// Returns the build id of a mapping's file, which is empty if it isn't known. That of the kernel was
    /// recorded without the symbol after its path.
    pub fn find<'a>(&'a self, mapping: &'a Mapping) -> &'a [u8] {
        let path = mapping.path.as_slice();
        if !mapping.build_id.is_empty() {
            mapping.build_id.as_slice()
        } else if path.starts_with(KERNEL_PATH) {
            self.get(KERNEL_PATH)
        } else {
            self.get(path)
        }
    }
}
