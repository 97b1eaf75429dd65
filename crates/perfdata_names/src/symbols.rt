//! The symbols of frames.

ghost use Rattle.std.specs.Prelude.{◌≡◌, IfNone, IfOk, IfSome};
ghost use Rattle.code_files.specs.MappedFile.{files_of};
ghost use Rattle.code_symbols.specs.SymbolTable.{symbols_of};
ghost use Rattle.code_symbols.specs.Symbols.{IsLastIndex};
ghost use Rattle.perfdata_spaces.specs.Mappings.{mapping_value};

use crate::address_base::AddressBase;
use crate::jitdumps::{JitDumps, LoadedCode};
use crate::kernel_symbols::{KernelList, KernelSymbols, MissingKernelSymbols};
use code_files::mapping_names::{is_anonymous, is_generated};
use code_files::{MappedFiles, PathError};
use code_symbols::{SymbolTable, parse_perf_map, table_of_record};
use perfdata_events::call_chain::CallContext;
use perfdata_events::event::EventRecord;
use perfdata_profile::resolver::ResolvedFrame;
use perfdata_simpleperf::simpleperf::SimpleperfFileRecord;
use perfdata_spaces::address_spaces::context_of_mode;
use perfdata_spaces::mapping::{Mapping, MappingKind};
use std::alloc::{AllocError, Global};
use std::collections::{BTreeMap, HashMap};

/// A table of symbols.
#[derive(Clone, Copy, Debug, PartialEq, Eq, Hash)]
pub enum TableId {
    /// The kernel's list.
    Kernel,
    /// That of the code of a process: the jitdump with a number.
    Code {
        /// The process.
        pid: i32,
        /// The number of jitdumps that were mapped before it.
        number: u64,
    },
    /// That of a mapped file, by its index.
    File(usize),
    /// That of a file of the recording or of the map of a process, by its index.
    Listed(usize),
}

/// A symbol, by its index in a table.
#[derive(Clone, Copy, Debug, PartialEq, Eq, Hash)]
pub struct SymbolId {
    /// The table.
    pub table: TableId,
    /// The index.
    pub index: usize,
}

/// The name of a symbol.
#[derive(Clone, Copy, Debug)]
pub struct SymbolName<'a> {
    /// The name.
    pub name: &'a [u8],
    /// Whether it may be mangled.
    pub is_mangled: bool,
}

// The symbols of a file of the recording, or of the map of a process.
#[derive(Drop)]
struct ListedTable {
    symbols: SymbolTable,
    base: AddressBase,
    /// Whether names may be mangled.
    are_mangled: bool,
}

// A table of symbols.
#[derive(Clone, Copy)]
struct TableView<'a> {
    symbols: &'a SymbolTable,
    base: AddressBase,
    /// Whether names may be mangled.
    are_mangled: bool,
}

/// The symbols that frames can have.
#[derive(Drop)]
pub struct Symbols<'a> {
    alloc: Global,
    kernel: KernelSymbols<'a>,
    jitdumps: JitDumps,
    listed: Vec<ListedTable>,
    /// The tables of mappings, by their indices.
    by_mapping: HashMap<usize, Option<TableId>>,
    /// The indices of the tables of the recording, by path.
    recorded: HashMap<Vec<u8>, usize>,
    /// The indices of the tables of processes.
    by_process: BTreeMap<i32, Option<usize>>,
}

impl TableView<'_> {
    ghost use Rattle.perfdata_names.specs.steps.Tables.{table_address};

    // Returns the index of the symbol at an address of a mapping, or `None` if there is none.
    fn find_index(&self, address: u64, mapping: &Mapping) -> Option<usize>
        ensures { IsLastIndex (symbols_of self.now.symbols.now)
            (table_address self.now.base (mapping_value mapping.now) address) result }
    {
        self.symbols
            .find_index(self.base.table_address(address, mapping))
    }
}

impl<'a> Symbols<'a> {
    ghost use Rattle.perfdata_names.specs.FileSymbols.{IsNameOfSymbol, IsSymbolOfFrame};
    ghost use Rattle.perfdata_names.specs.steps.Tables.{IsMissing, IsTable};

    /// Returns the symbols of a list of the kernel, which is read when the first address of the kernel is
    /// looked up, and of the files, maps and jitdumps that are looked up.
    pub fn new(rt: &'a HostRuntime, list: KernelList<'a>) -> Symbols<'a> {
        let alloc = rt.alloc();
        Symbols {
            alloc,
            kernel: KernelSymbols::new(rt, list),
            jitdumps: JitDumps::new(alloc),
            listed: Vec::new(alloc),
            by_mapping: HashMap::new(alloc),
            recorded: HashMap::new(alloc),
            by_process: BTreeMap::new(alloc),
        }
    }

    /// Sets the release of the recorded kernel, by which it is compared if its build id isn't known.
    ///
    /// Fails if memory runs out.
    pub fn set_release(&mut self, release: &str) -> Result<(), AllocError> {
        self.kernel.set_release(release)
    }

    /// Returns the error of [`KernelList::File`], if an address of the kernel was looked up and the list
    /// can't be read. It is returned once.
    pub fn take_kernel_list_error(&mut self) -> Option<PathError<'a>> {
        self.kernel.take_error()
    }

    /// Returns why frames of the kernel have no names, if there are such frames and no option asks for it.
    pub fn missing_kernel_symbols(&self) -> Option<&MissingKernelSymbols> {
        self.kernel.missing()
    }

    // Adds a table. Returns its index.
    fn add_table(&mut self, table: ListedTable) -> Result<usize, AllocError> {
        let index = self.listed.len();
        self.listed.push(table)?;
        Ok(index)
    }

    /// Adds the symbols of files that a recording has.
    ///
    /// Fails if memory runs out.
    pub fn add_recorded(&mut self, records: &[SimpleperfFileRecord]) -> Result<(), AllocError> {
        for record in records {
            let index = self.add_table(ListedTable {
                symbols: table_of_record(self.alloc, record)?,
                base: AddressBase::new(record),
                are_mangled: true,
            })?;
            let path = record.path.as_bytes().to_vec(self.alloc)?;
            self.recorded.insert(path, index)?;
        }
        Ok(())
    }

    /// Applies a record that isn't a sample, and the mapping that it adds, if it adds one. `misc` is that of
    /// its header.
    ///
    /// Fails if memory runs out.
    pub fn apply(
        &mut self,
        misc: u16,
        record: &EventRecord<'_>,
        mapping: Option<&Mapping>,
    ) -> Result<(), AllocError> {
        match record {
            EventRecord::Comm(comm) if comm.is_execve => self.jitdumps.remove(comm.pid),
            _ => {}
        }
        let Some(mapping) = mapping else {
            return Ok(());
        };
        let path = mapping.path.as_slice();
        match context_of_mode(misc) {
            CallContext::User => self.jitdumps.add_mapping(mapping.pid, path),
            CallContext::Kernel => self.kernel.add_mapping(path, mapping.page_offset),
            _ => Ok(()),
        }
    }

    // Returns the index of the table of a process, whose map is read if it wasn't yet.
    fn process_table(
        &mut self,
        files: &MappedFiles<'_>,
        pid: i32,
    ) -> Result<Option<usize>, AllocError> {
        if let Some(index) = self.by_process.get(&pid) {
            return Ok(*index);
        }
        let index = match files.read_map(pid)? {
            Some(text) => Some(self.add_table(ListedTable {
                symbols: parse_perf_map(self.alloc, text)?,
                base: AddressBase::Process,
                are_mangled: false,
            })?),
            None => None,
        };
        self.by_process.insert(pid, index)?;
        Ok(index)
    }

    // Returns the table of the mapping with an index that wasn't looked up before.
    fn find_uncached_table(
        &mut self,
        files: &mut MappedFiles<'_>,
        index: usize,
        mapping: &Mapping,
        context: CallContext,
    ) -> Result<Option<TableId>, AllocError> {
        if mapping.kind == MappingKind::KernelSymbol {
            Ok(None)
        } else if let Some(table) = self.recorded.get(mapping.path.as_slice()) {
            Ok(Some(TableId::Listed(*table)))
        } else if context != CallContext::User {
            Ok(Some(TableId::Kernel))
        } else if is_generated(mapping) {
            Ok(self.process_table(files, mapping.pid)?.map(TableId::Listed))
        } else if is_anonymous(mapping) {
            Ok(None)
        } else {
            Ok(files.read_symbols(index, mapping)?.map(TableId::File))
        }
    }

    // Returns the table of the mapping with an index.
    fn find_table(
        &mut self,
        files: &mut MappedFiles<'_>,
        index: usize,
        mapping: &Mapping,
        context: CallContext,
    ) -> Result<Option<TableId>, AllocError> {
        if let Some(table) = self.by_mapping.get(&index) {
            return Ok(*table);
        }
        let table = self.find_uncached_table(files, index, mapping, context)?;
        self.by_mapping.insert(index, table)?;
        Ok(table)
    }

    // Returns the table with an id, if there is one.
    fn table<'b>(&'b self, files: &'b MappedFiles<'_>, id: TableId) -> Option<TableView<'b>>
        ensures some { IfSome result (λ view. IsTable (files_of files.now) id view) }
        ensures none { IfNone result (IsMissing (files_of files.now) id) }
    {
        let (symbols, base, are_mangled) = match id {
            TableId::Kernel => (&self.kernel.table()?.symbols, AddressBase::Process, false),
            TableId::Code { pid, .. } => (self.jitdumps.table(pid)?, AddressBase::Process, true),
            TableId::File(index) => (files.get(index)?.symbols()?, AddressBase::File, true),
            TableId::Listed(index) => {
                let listed = self.listed.get(index)?;
                (&listed.symbols, listed.base, listed.are_mangled)
            }
        };
        Some(TableView {
            symbols,
            base,
            are_mangled,
        })
    }

    // Returns a symbol, if it has a name.
    fn with_name(&self, files: &MappedFiles<'_>, id: SymbolId) -> Option<SymbolId>
        ensures { IfSome result (λ found. found ≡ id) }
    {
        if self.name(files, id).name.is_empty() {
            None
        } else {
            Some(id)
        }
    }

    // Returns the symbol of a frame in a table, or `None` if there is none with a name.
    fn find_in_table(
        &self,
        files: &MappedFiles<'_>,
        frame: &ResolvedFrame<'_>,
        table: TableId,
    ) -> Option<SymbolId>
        ensures { IfSome result (λ id. IsSymbolOfFrame (files_of files.now) frame.now id) }
    {
        let mapping = frame.mapping?;
        let view = self.table(files, table)?;
        let index = view.find_index(frame.frame.lookup_address(), mapping)?;
        self.with_name(files, SymbolId { table, index })
    }

    // Returns the symbol of a frame in the kernel's list, or `None` if there is none with a name.
    fn find_in_kernel(
        &mut self,
        files: &MappedFiles<'_>,
        frame: &ResolvedFrame<'_>,
    ) -> Result<Option<SymbolId>, AllocError>
        ensures { IfOk result (λ found.
            IfSome found (λ id. IsSymbolOfFrame (files_of files.now) frame.now id)) }
    {
        let Some(mapping) = frame.mapping else {
            return Ok(None);
        };
        let address = frame.frame.lookup_address();
        let Some(index) = self.kernel.find_index(files, mapping, address)? else {
            return Ok(None);
        };
        let table = TableId::Kernel;
        Ok(self.with_name(files, SymbolId { table, index }))
    }

    // Returns the symbol of a frame in what is mapped there, or `None` if there is none with a name.
    fn find_mapped(
        &mut self,
        files: &mut MappedFiles<'_>,
        frame: &ResolvedFrame<'_>,
    ) -> Result<Option<SymbolId>, AllocError>
        ensures { IfOk result (λ found.
            IfSome found (λ id. IsSymbolOfFrame (files_of files.new) frame.now id)) }
    {
        let (Some(index), Some(mapping)) = (frame.index, frame.mapping) else {
            return Ok(None);
        };
        match self.find_table(files, index, mapping, frame.frame.frame.context)? {
            None => Ok(None),
            Some(TableId::Kernel) => self.find_in_kernel(files, frame),
            Some(table) => Ok(self.find_in_table(files, frame, table)),
        }
    }

    // Returns the code that a process loaded at the address of a frame up to its time, or `None` if there is
    // none with a name. It is the process that made the mapping.
    fn find_code(
        &mut self,
        files: &mut MappedFiles<'_>,
        frame: &ResolvedFrame<'_>,
    ) -> Result<Option<SymbolId>, AllocError>
        ensures { IfOk result (λ found.
            IfSome found (λ id. IsSymbolOfFrame (files_of files.new) frame.now id)) }
    {
        let address = frame.frame.lookup_address();
        let time = frame.time.unwrap_or(u64::MAX);
        let pid = frame.mapping.map_or(frame.pid, |mapping| mapping.pid);
        let Some(LoadedCode { number, index }) = self.jitdumps.find(files, pid, address, time)?
        else {
            return Ok(None);
        };
        let table = TableId::Code { pid, number };
        Ok(self.with_name(files, SymbolId { table, index }))
    }

    /// Returns the symbol of a frame, or `None` if there is none with a name.
    ///
    /// Fails if memory runs out.
    pub fn find(
        &mut self,
        files: &mut MappedFiles<'_>,
        frame: &ResolvedFrame<'_>,
    ) -> Result<Option<SymbolId>, AllocError>
        ensures { IfOk result (λ found.
            IfSome found (λ id. IsSymbolOfFrame (files_of files.new) frame.now id)) }
    {
        if frame.frame.frame.context == CallContext::User {
            if let Some(symbol) = self.find_code(files, frame)? {
                return Ok(Some(symbol));
            }
        }
        self.find_mapped(files, frame)
    }

    /// Returns whether all frames at the address of a frame in its mapping have one symbol: it is code of the
    /// kernel, or of a file with symbols in a process without a jitdump.
    pub fn is_fixed(&self, frame: &ResolvedFrame<'_>) -> bool {
        let (Some(index), Some(mapping)) = (frame.index, frame.mapping) else {
            return false;
        };
        frame.frame.frame.context != CallContext::User
            || matches!(self.by_mapping.get(&index), Some(Some(_)))
                && !is_anonymous(mapping)
                && !self.jitdumps.contains(mapping.pid)
    }

    /// Returns whether the symbols of frames in the mapping with an index are those of its file.
    pub fn are_of_file(&self, index: usize) -> bool {
        matches!(self.by_mapping.get(&index), Some(Some(TableId::File(_))))
    }

    /// Returns the name of a symbol, which is empty if there is none.
    pub fn name<'b>(&'b self, files: &'b MappedFiles<'_>, id: SymbolId) -> SymbolName<'b>
        ensures { IsNameOfSymbol (files_of files.now) id result.name.now }
    {
        let Some(view) = self.table(files, id.table) else {
            return SymbolName {
                name: b"",
                is_mangled: false,
            };
        };
        let symbol = view.symbols.symbols().get(id.index);
        SymbolName {
            name: symbol.map_or(b"".as_slice(), |symbol| view.symbols.name(symbol)),
            is_mangled: view.are_mangled,
        }
    }

    /// Returns how far the address of a frame is after the start of its symbol, modulo 2^64, if that is
    /// known.
    pub fn offset(
        &self,
        files: &MappedFiles<'_>,
        id: SymbolId,
        frame: &ResolvedFrame<'_>,
    ) -> Option<u64> {
        let address = frame.frame.frame.address;
        if id.table == TableId::Kernel {
            return self.kernel.table()?.offset(id.index, address);
        }
        let view = self.table(files, id.table)?;
        let address = match frame.mapping {
            Some(mapping) => view.base.table_address(address, mapping),
            None => address,
        };
        Some(address.wrapping_sub(view.symbols.symbols().get(id.index)?.start))
    }

    /// Returns whether a symbol contains the address of a frame, which for a caller is its return address.
    pub fn contains(
        &self,
        files: &MappedFiles<'_>,
        id: SymbolId,
        frame: &ResolvedFrame<'_>,
    ) -> bool {
        let view = self.table(files, id.table);
        let symbol = view.and_then(|view| view.symbols.symbols().get(id.index));
        match (symbol, self.offset(files, id, frame)) {
            (Some(symbol), Some(offset)) => offset < symbol.size,
            _ => false,
        }
    }
}
