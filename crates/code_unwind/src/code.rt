//! What a process has mapped at an address.
ghost use Rattle.std.specs.Prelude.{◌≡◌, Some, None, MatchOption};
ghost use Rattle.code_cfi.specs.Tables.{IsFdeAt};
ghost use Rattle.code_cfi.specs.FrameTables.{fdes_of};
ghost use Rattle.code_unwind.specs.FrameSteps.{file_tables, HasFde, HasNoFde, IsFdeIn};
ghost use Rattle.code_unwind.specs.FrameSteps.{HasSameEntries, entries_of};

use code_cfi::FrameTable;
use std::alloc::{AllocError, Global};

/// The call frame information of a file.
#[derive(Drop)]
pub struct FileTables {
    eh_frame: Option<FrameTable>,
    debug_frame: Option<FrameTable>,
}

impl FileTables {
    /// Returns the tables of a file's sections.
    pub fn new(eh_frame: Option<FrameTable>, debug_frame: Option<FrameTable>) -> FileTables
        ensures { result ≡ file_tables eh_frame debug_frame }
    {
        FileTables {
            eh_frame,
            debug_frame,
        }
    }

    /// Keeps the row of each table at an address in the file, if there is one, for faster steps from there.
    ///
    /// # Errors
    ///
    /// Returns `AllocError` if an allocation fails.
    pub fn cache(&mut self, alloc: Global, address: u64) -> Result<(), AllocError>
        ensures { HasSameEntries self.old self.new }
    {
        cache_row(alloc, &mut self.eh_frame, address)?;
        cache_row(alloc, &mut self.debug_frame, address)
    }

    /// Returns the first table that has an FDE at an address in the file, and the FDE's index.
    pub fn find(&self, address: u64) -> Option<(&FrameTable, usize)>
        ensures { MatchOption result (HasNoFde self.now address)
            (λ x. HasFde self.now address x.0.now x.1) }
    {
        match find_entry(&self.eh_frame, address) {
            Some(found) => Some(found),
            None => find_entry(&self.debug_frame, address),
        }
    }
}

// Keeps the row at an address, if there is one.
fn cache_row(alloc: Global, table: &mut Option<FrameTable>, address: u64) -> Result<(), AllocError>
    ensures { entries_of table.new ≡ entries_of table.old }
{
    match table {
        Some(table) => table.cache(alloc, address),
        None => Ok(()),
    }
}

// The table, if it has an FDE at an address, and the FDE's index.
fn find_entry(table: &Option<FrameTable>, address: u64) -> Option<(&FrameTable, usize)>
    ensures { MatchOption result (IsFdeIn table.now address None)
        (λ x. (table.now ≡ Some x.0.now) × IsFdeAt (fdes_of x.0.now) address (Some x.1)) }
{
    match table {
        Some(table) => match table.find(address) {
            Some(index) => Some((table, index)),
            None => None,
        },
        None => None,
    }
}

/// Where an address is in a procedure linkage table.
#[derive(Clone, Copy, Debug, PartialEq, Eq)]
pub enum Plt {
    /// In `.plt`, at this offset from its start.
    Lazy(u64),
    /// In `.plt.sec`, `.plt.got` or `.iplt`.
    Direct,
}

/// What a process has mapped at an address.
#[derive(Clone, Copy)]
pub enum MappedCode<'a> {
    /// No file, or one that can't be used.
    Nothing,
    /// A file.
    File {
        /// The file's call frame information.
        tables: &'a FileTables,
        /// The address in the file.
        address: u64,
        /// Where the address is in a procedure linkage table, if it is in one.
        plt: Option<Plt>,
        /// The file's bytes from this address on, at least 9 unless the file has fewer.
        code: &'a [u8],
    },
}

/// What a process has mapped at the time of a sample.
pub trait CodeMap {
    ghost use Rattle.std.specs.Prelude.{ℕ, Bool};
    ghost use Rattle.code_unwind.specs.declared.code.MappedCode.{MappedCode};

    // whether an address is in an executable mapping
    ghost executable: { Self → ℕ → Bool → Type 0 } = { λ _ _ _. Unit {0} };

    // what is mapped at an address
    ghost places: { Self → ℕ → MappedCode → Type 0 } = { λ _ _ _. Unit {0} };

    /// Returns whether an address is in an executable mapping.
    fn is_executable(&self, address: u64) -> bool
        ensures { executable self.now address result };

    /// Reads what [`CodeMap::place`] returns at an address, such as the tables of the file that is there.
    ///
    /// # Errors
    ///
    /// Returns `AllocError` if an allocation fails. A file that can't be read is no error.
    fn load(&mut self, address: u64) -> Result<(), AllocError>
        ensures executable { (a : ℕ) → (b : Bool) → executable self.new a b → executable self.old a b }
        ensures places { (a : ℕ) → (p : MappedCode) → places self.new a p → places self.old a p };

    /// Returns what is mapped at an address that was loaded last.
    fn place(&self, address: u64) -> MappedCode<'_>
        ensures { places self.now address result };
}
