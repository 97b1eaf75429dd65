//! The symbols of the kernel, and which list has them.

use crate::kernel_table::KernelTable;
use code_files::mapping_names::KERNEL_PATH;
use code_files::{MappedFiles, PathError, is_recorded, none_if_missing};
use code_symbols::build_id_of_notes;
use perfdata_base::raw::Endianness;
use perfdata_spaces::mapping::Mapping;
use std::alloc::AllocError;
use std::io::ErrorKind;
use std::{fs, io, mem};

// The ELF notes of the running kernel.
const NOTES_PATH: &str = "/sys/kernel/notes";

// The release of the running kernel.
const RELEASE_PATH: &str = "/proc/sys/kernel/osrelease";

/// The path of the running kernel's list of symbols.
pub const KERNEL_LIST_PATH: &str = "/proc/kallsyms";

// The byte order of the processors that programs run on.
const NATIVE: Endianness = Endianness::LittleEndian;

/// Which list names the kernel's functions.
#[derive(Clone, Copy, Debug, PartialEq, Eq)]
pub enum KernelList<'a> {
    /// That of a file.
    File(&'a str),
    /// That of the recorded kernel in perf's cache, or that of the running kernel if it is the recorded one.
    Running,
    /// None, as the user says.
    Nothing,
    /// None, since files are those of another machine.
    OtherMachine,
}

/// Why there is no list of the kernel's symbols.
#[derive(Drop)]
pub enum MissingKernelSymbols {
    /// [`KernelList::Nothing`].
    SwitchedOff,
    /// [`KernelList::OtherMachine`].
    OtherMachine,
    /// The recording has neither the build id nor the release of its kernel.
    NoRecordedId,
    /// The build id of the running kernel can't be read.
    NoRunningId,
    /// The running kernel isn't the recorded one.
    OtherKernel,
    /// The list of the running kernel can't be read, or has no addresses.
    Unreadable(io::Error),
    /// The list of [`KernelList::File`] can't be read, or has no addresses.
    UnreadableFile(io::Error),
}

// The list, or why there is none.
#[derive(Drop)]
enum KernelListState {
    /// No address of the kernel was looked up yet.
    Unread,
    /// It was read.
    Read(KernelTable),
    /// There is none.
    Missing(MissingKernelSymbols),
}

// The address of a symbol in the recording, as the kernel's own mapping has it.
#[derive(Drop)]
struct RecordedSymbol {
    name: Vec<u8>,
    address: u64,
}

// The symbols of the kernel, from a list that is read once they are looked up.
#[derive(Drop)]
pub(crate) struct KernelSymbols<'a> {
    rt: &'a HostRuntime,
    list: KernelList<'a>,
    /// The release of the recorded kernel, which is empty if it isn't known.
    release: Vec<u8>,
    state: KernelListState,
    /// The symbol of the first of the kernel's own mappings with a page offset.
    recorded: Option<RecordedSymbol>,
    /// Whether a frame was looked up without a list.
    lacks_names: bool,
}

// Returns why the running kernel isn't the recorded one by their build ids, if so.
fn find_difference(
    rt: &HostRuntime,
    recorded: &[u8],
) -> Result<Option<MissingKernelSymbols>, AllocError> {
    let Some(notes) = none_if_missing(fs::read(rt, NOTES_PATH).map(Some))? else {
        return Ok(Some(MissingKernelSymbols::NoRunningId));
    };
    Ok(match build_id_of_notes(NATIVE, &notes) {
        Some(id) if is_recorded(id, recorded) => None,
        Some(_) => Some(MissingKernelSymbols::OtherKernel),
        None => Some(MissingKernelSymbols::NoRunningId),
    })
}

// Returns whether the running kernel has a release.
fn is_running(rt: &HostRuntime, release: &[u8]) -> Result<bool, AllocError> {
    match none_if_missing(fs::read(rt, RELEASE_PATH).map(Some))? {
        Some(running) => Ok(running.strip_suffix(b"\n").unwrap_or(&running) == release),
        None => Ok(false),
    }
}

// Reads the list at a path. `missing` makes the error of a list that can't be read.
fn read_list<F: FnOnce(io::Error) -> MissingKernelSymbols>(
    rt: &HostRuntime,
    path: &str,
    missing: F,
) -> Result<KernelListState, AllocError>
    requires { F.IsAlwaysCallable missing }
{
    match KernelTable::read(rt, path) {
        Ok(table) => Ok(KernelListState::Read(table)),
        Err(error) if error.kind() == ErrorKind::OutOfMemory => Err(AllocError),
        Err(error) => Ok(KernelListState::Missing(missing(error))),
    }
}

impl<'a> KernelSymbols<'a> {
    // Returns the symbols of a list.
    pub(crate) fn new(rt: &'a HostRuntime, list: KernelList<'a>) -> KernelSymbols<'a> {
        KernelSymbols {
            rt,
            list,
            release: Vec::new(rt.alloc()),
            state: KernelListState::Unread,
            recorded: None,
            lacks_names: false,
        }
    }

    // Sets the release of the recorded kernel.
    pub(crate) fn set_release(&mut self, release: &str) -> Result<(), AllocError> {
        self.release = release.as_bytes().to_vec(self.rt.alloc())?;
        Ok(())
    }

    // Reads the list of the running kernel.
    fn read_running(&self) -> Result<KernelListState, AllocError> {
        read_list(self.rt, KERNEL_LIST_PATH, MissingKernelSymbols::Unreadable)
    }

    // Reads the list of the running kernel, if its release and the address of the recorded symbol are those
    // of the recorded kernel, whose build id isn't known.
    fn read_by_release(&self) -> Result<KernelListState, AllocError> {
        let Some(symbol) = self.recorded.as_ref().filter(|_| !self.release.is_empty()) else {
            return Ok(KernelListState::Missing(MissingKernelSymbols::NoRecordedId));
        };
        if !is_running(self.rt, &self.release)? {
            return Ok(KernelListState::Missing(MissingKernelSymbols::OtherKernel));
        }
        Ok(match self.read_running()? {
            KernelListState::Read(table) if !table.has_symbol(&symbol.name, symbol.address) => {
                KernelListState::Missing(MissingKernelSymbols::OtherKernel)
            }
            state => state,
        })
    }

    // Reads the list of the kernel with a build id, which is empty if it isn't known: that in perf's cache,
    // or that of the running kernel if it is the recorded one.
    fn read_recorded(
        &self,
        files: &MappedFiles<'_>,
        build_id: &[u8],
    ) -> Result<KernelListState, AllocError> {
        if build_id.is_empty() {
            return self.read_by_release();
        }
        if let Some(text) = files.read_kernel_list(build_id)? {
            if let Some(table) = none_if_missing(KernelTable::parse(self.rt.alloc(), text).map(
                Some,
            ))? {
                return Ok(KernelListState::Read(table));
            }
        }
        match find_difference(self.rt, build_id)? {
            Some(why) => Ok(KernelListState::Missing(why)),
            None => self.read_running(),
        }
    }

    // Reads the list.
    fn read(
        &self,
        files: &MappedFiles<'_>,
        build_id: &[u8],
    ) -> Result<KernelListState, AllocError> {
        match self.list {
            KernelList::File(path) => {
                read_list(self.rt, path, MissingKernelSymbols::UnreadableFile)
            }
            KernelList::Running => self.read_recorded(files, build_id),
            KernelList::Nothing => Ok(KernelListState::Missing(MissingKernelSymbols::SwitchedOff)),
            KernelList::OtherMachine => Ok(KernelListState::Missing(
                MissingKernelSymbols::OtherMachine,
            )),
        }
    }

    // Returns the error of the list that the command line names, if an address of the kernel was looked up
    // and the list can't be read. It is returned once.
    pub(crate) fn take_error(&mut self) -> Option<PathError<'a>> {
        let (KernelList::File(path), KernelListState::Missing(_)) = (self.list, &self.state) else {
            return None;
        };
        let switched_off = KernelListState::Missing(MissingKernelSymbols::SwitchedOff);
        match mem::replace(&mut self.state, switched_off) {
            KernelListState::Missing(MissingKernelSymbols::UnreadableFile(error)) => {
                Some(PathError { path, error })
            }
            _ => None,
        }
    }

    // Returns why frames of the kernel have no names, if there are such frames and no option asks for it.
    pub(crate) fn missing(&self) -> Option<&MissingKernelSymbols> {
        match &self.state {
            KernelListState::Missing(MissingKernelSymbols::SwitchedOff) => None,
            KernelListState::Missing(why) if self.lacks_names => Some(why),
            _ => None,
        }
    }

    // Adds a mapping of the kernel.
    pub(crate) fn add_mapping(&mut self, path: &[u8], page_offset: u64) -> Result<(), AllocError> {
        let Some(name) = path.strip_prefix(KERNEL_PATH) else {
            return Ok(());
        };
        if self.recorded.is_none() && page_offset != 0 {
            self.recorded = Some(RecordedSymbol {
                name: name.to_vec(self.rt.alloc())?,
                address: page_offset,
            });
        }
        Ok(())
    }

    // Returns the index of the symbol at an address of a mapping, or `None` if there is none.
    pub(crate) fn find_index(
        &mut self,
        files: &MappedFiles<'_>,
        mapping: &Mapping,
        address: u64,
    ) -> Result<Option<usize>, AllocError> {
        if matches!(self.state, KernelListState::Unread) {
            self.state = self.read(files, files.build_ids.get(KERNEL_PATH))?;
        }
        let KernelListState::Read(table) = &mut self.state else {
            self.lacks_names = true;
            return Ok(None);
        };
        if let Some(symbol) = &self.recorded {
            table.set_shift(symbol.name.as_slice(), symbol.address);
        }
        Ok(table.find_index(mapping, address))
    }

    // Returns the list, if it was read.
    pub(crate) fn table(&self) -> Option<&KernelTable> {
        match &self.state {
            KernelListState::Read(table) => Some(table),
            _ => None,
        }
    }
}
