//! Builds a profile of mappings, functions, locations and samples.
ghost use Rattle.std.specs.Prelude.{◌≡◌, ◌≢◌, ◌<◌, ◌||◌, [], ◌∷◌, ◌++◌, List, length, map, replicate};
ghost use Rattle.std.specs.Prelude.{slice_get, slice_index_or, false, Some, IfOk, IfSome, IsOk, OnErr};
ghost use Rattle.std.specs.Prelude.{OnOk};
ghost use Rattle.std.specs.List.{list_any};
ghost use Rattle.std.specs.Str.Lossy.{utf8_lossy};
ghost use Rattle.std.specs.Str.{IsUtf8};
ghost use Rattle.std.specs.String.{string_bytes};
ghost use Rattle.indexmap.specs.IndexMap.{index_map_len};
ghost use Rattle.indexmap.specs.IndexSet.{IsUnique, contains, spare};
ghost use Rattle.pprof.specs.Builders.{place_of, rows_of};
ghost use Rattle.pprof.specs.Labels.{HasLabels, IsKeyOf, number_labels, thread_labels};
ghost use Rattle.pprof.specs.Messages.{location_value, profile_value, sample_value};
ghost use Rattle.pprof.specs.Rows.{AreDistinct, Grows, Identifies, Interns, IsAbsent, numbered};
ghost use Rattle.pprof.specs.steps.Rows.{IdentifiesBy};
ghost use Rattle.pprof.specs.Samples.{AddsSamples, NeedMemory, Row, padded};
ghost use Rattle.pprof.specs.Samples.{raised, sample_row, weighted};
ghost use Rattle.pprof.specs.steps.Samples.{RaisesRow};
ghost use Rattle.pprof.specs.Strings.{texts_of};
ghost use Rattle.pprof.specs.Tables.{Builds, Place, function_row, has_filename, has_number, known_id};
ghost use Rattle.pprof.specs.Tables.{known_line, location_row, mapping_row, no_rows};
ghost use Rattle.pprof.specs.steps.Flags.{AreFlags, flagged_row, no_flags};
ghost use Rattle.pprof.specs.Texts.{AreStrings};

use crate::profile::{Function, Label, Line, Location, Mapping, Profile, Sample, ValueType};
use crate::strings::StringTable;
use indexmap::{IndexMap, IndexSet};
use std::alloc::{AllocError, Global};
use std::hash::Hash;

/// A file that is mapped into memory. Its texts are indices of the table of strings.
#[derive(Clone, Copy, PartialEq, Eq, Hash)]
pub struct MappedFile {
    /// The first address.
    pub memory_start: u64,
    /// The address after the last.
    pub memory_limit: u64,
    /// The offset in the file of the first address.
    pub file_offset: u64,
    /// The path of the file.
    pub filename: u64,
    /// The build id of the file in hexadecimal digits, or 0.
    pub build_id: u64,
}

/// The names of a function, which are indices of the table of strings.
#[derive(Clone, Copy, PartialEq, Eq, Hash)]
pub struct FunctionNames {
    /// The name.
    pub name: u64,
    /// The name as the file has it.
    pub system_name: u64,
    /// The path of the source file, or 0.
    pub filename: u64,
}

/// Where a frame of a stack is.
#[derive(PartialEq, Eq, Hash, Drop)]
pub struct LocationRow {
    /// The id of the mapping that contains the address, or 0.
    pub mapping_id: u64,
    /// The address.
    pub address: u64,
    /// The functions at the address, the innermost first. All but the last one are inlined into the next one.
    pub lines: Vec<Line>,
}

// What the locations in a mapping have.
#[derive(Clone, Copy)]
struct SourceFlags {
    has_filenames: bool,
    has_line_numbers: bool,
    has_inline_frames: bool,
}

// The parts of a profile that say where frames are.
#[derive(Drop)]
struct CodeParts {
    mappings: Vec<Mapping>,
    locations: Vec<Location>,
    functions: Vec<Function>,
}

// The samples of a profile, their types, and all texts.
#[derive(Drop)]
struct SampleParts {
    sample_types: Vec<ValueType>,
    samples: Vec<Sample>,
    strings: Vec<String>,
}

/// The thread of samples. Its name is an index of the table of strings.
#[derive(Clone, Copy, PartialEq, Eq, Hash)]
pub struct SampleThread {
    /// The name.
    pub name: u64,
    /// The process, if processes are distinguished.
    pub pid: Option<i32>,
    /// The thread, if threads are distinguished.
    pub tid: Option<i32>,
}

// What the samples of a row have in common.
#[derive(PartialEq, Eq, Hash, Drop)]
struct RowKey {
    location_ids: Vec<u64>,
    labels: Vec<Label>,
}

/// How samples of a profile are added up.
#[derive(Clone, Copy)]
pub struct WeightedSamples {
    /// The number of samples.
    pub samples: u64,
    /// The index of the value to which the weight is added.
    pub column: usize,
    /// The sum of the weights.
    pub weight: u64,
}

/// What a profile says of all its samples.
#[derive(Clone, Copy)]
pub struct Summary {
    /// The duration in nanoseconds, or 0.
    pub duration: u64,
    /// What counts the events between two samples.
    pub period_type: Option<ValueType>,
    /// The number of events between two samples, or 0.
    pub period: u64,
    /// A comment, or 0.
    pub comment: u64,
    /// The name of the sample type that is shown first.
    pub default_sample_type: u64,
}

/// Builds a profile: texts, mappings, functions, locations and samples. A row that was added before gets the
/// id that it has.
#[derive(Drop)]
pub struct Builder {
    alloc: Global,
    strings: StringTable,
    sample_types: IndexSet<ValueType>,
    mappings: IndexSet<MappedFile>,
    functions: IndexSet<FunctionNames>,
    places: IndexSet<LocationRow>,
    rows: IndexMap<RowKey, Vec<u64>>,
}

impl Builder {
    ghost use Rattle.pprof.specs.Builders.{room_of, tables_of};

    /// Creates a profile without samples and without sample types.
    ///
    /// Fails if memory runs out.
    pub fn new(alloc: Global) -> Result<Builder, AllocError>
        ensures { IfOk result (λ builder. tables_of builder ≡ no_rows) }
    {
        Ok(Builder {
            alloc,
            strings: StringTable::new(alloc)?,
            sample_types: IndexSet::new(alloc),
            mappings: IndexSet::new(alloc),
            functions: IndexSet::new(alloc),
            places: IndexSet::new(alloc),
            rows: IndexMap::new(alloc),
        })
    }

    /// Returns the index of a text. Bytes that aren't UTF-8 become U+FFFD.
    ///
    /// Fails if memory runs out.
    pub fn text(&mut self, text: &[u8]) -> Result<u64, AllocError>
        ensures ok { IfOk result (λ index.
            Interns (tables_of self.old).strings (utf8_lossy text.now) index (tables_of self.new).strings) }
        ensures once { AreStrings (tables_of self.new).strings }
        ensures new { OnErr result (IsUtf8 text.now → IsAbsent (tables_of self.old).strings text.now) }
        ensures err { OnErr result (tables_of self.new ≡ tables_of self.old) }
        ensures rest { tables_of self.new
            ≡ record (tables_of self.old) { strings = (tables_of self.new).strings } }
    {
        self.strings.intern(text)
    }

    /// Returns the index of the values of a sample type, which is appended if it is new. Samples that are
    /// there have 0 of it.
    ///
    /// Fails if memory runs out.
    pub fn add_type(&mut self, value_type: ValueType) -> Result<usize, AllocError>
        ensures ok { IfOk result (λ index.
            Interns (tables_of self.old).types value_type index (tables_of self.new).types) }
        ensures once { AreDistinct (tables_of self.new).types }
        ensures new { OnErr result (IsAbsent (tables_of self.old).types value_type) }
        ensures room { 0 < (room_of self.old).types → IsOk result }
        ensures err { OnErr result (tables_of self.new ≡ tables_of self.old) }
        ensures rest { tables_of self.new
            ≡ record (tables_of self.old) { types = (tables_of self.new).types } }
    {
        let (index, _is_new) = self.sample_types.insert_full(value_type)?;
        Ok(index)
    }

    /// Returns the number of sample types.
    pub fn type_count(&self) -> usize
        ensures { result ≡ length (tables_of self.now).types }
    {
        self.sample_types.len()
    }

    /// Returns the sample type with an index.
    pub fn sample_type(&self, index: usize) -> Option<ValueType>
        ensures { result ≡ slice_get (tables_of self.now).types index }
    {
        self.sample_types.get_index(index).copied()
    }

    /// Returns the id of a mapping.
    ///
    /// Fails if memory runs out.
    pub fn mapping(&mut self, file: MappedFile) -> Result<u64, AllocError>
        ensures ok { IfOk result (λ id.
            Identifies (tables_of self.old).mappings file id (tables_of self.new).mappings) }
        ensures once { AreDistinct (tables_of self.new).mappings }
        ensures new { OnErr result (IsAbsent (tables_of self.old).mappings file) }
        ensures room { 0 < (room_of self.old).mappings → IsOk result }
        ensures err { OnErr result (tables_of self.new ≡ tables_of self.old) }
        ensures rest { tables_of self.new
            ≡ record (tables_of self.old) { mappings = (tables_of self.new).mappings } }
    {
        row_id(&mut self.mappings, file)
    }

    /// Returns the id of a function.
    ///
    /// Fails if memory runs out.
    pub fn function(&mut self, names: FunctionNames) -> Result<u64, AllocError>
        ensures ok { IfOk result (λ id.
            Identifies (tables_of self.old).functions names id (tables_of self.new).functions) }
        ensures once { AreDistinct (tables_of self.new).functions }
        ensures new { OnErr result (IsAbsent (tables_of self.old).functions names) }
        ensures room { 0 < (room_of self.old).functions → IsOk result }
        ensures err { OnErr result (tables_of self.new ≡ tables_of self.old) }
        ensures rest { tables_of self.new
            ≡ record (tables_of self.old) { functions = (tables_of self.new).functions } }
    {
        row_id(&mut self.functions, names)
    }

    /// Returns the id of a location. The ids in it that no mapping or function has are 0 in the profile.
    ///
    /// Fails if memory runs out.
    pub fn location(&mut self, place: LocationRow) -> Result<u64, AllocError>
        ensures ok { IfOk result (λ id.
            Identifies (tables_of self.old).locations (place_of place) id (tables_of self.new).locations) }
        ensures once { AreDistinct (tables_of self.new).locations }
        ensures new { OnErr result (IsAbsent (tables_of self.old).locations (place_of place)) }
        ensures room { 0 < (room_of self.old).locations → IsOk result }
        ensures err { OnErr result (tables_of self.new ≡ tables_of self.old) }
        ensures rest { tables_of self.new
            ≡ record (tables_of self.old) { locations = (tables_of self.new).locations } }
    {
        row_id(&mut self.places, place)
    }

    /// Returns the labels of a thread: its name and, where they are distinguished, the ids of the process and
    /// of the thread.
    ///
    /// Fails if memory runs out.
    pub fn labels(&mut self, thread: SampleThread) -> Result<Vec<Label>, AllocError>
        ensures ok { IfOk result (λ labels. HasLabels (tables_of self.new).strings thread labels.items) }
        ensures once { AreStrings (tables_of self.new).strings }
        ensures texts { Grows (tables_of self.old).strings (tables_of self.new).strings }
        ensures rest { tables_of self.new
            ≡ record (tables_of self.old) { strings = (tables_of self.new).strings } }
    {
        let comm = self.strings.intern_text("comm")?;
        let pid = label_key(&mut self.strings, "pid", thread.pid)?;
        let tid = label_key(&mut self.strings, "tid", thread.tid)?;
        take_labels(self.alloc, comm, pid, tid, thread)
    }

    /// Adds samples with labels and a stack of locations, leaf first.
    ///
    /// Fails if memory runs out.
    pub fn add(
        &mut self,
        labels: Vec<Label>,
        location_ids: Vec<u64>,
        weight: WeightedSamples,
    ) -> Result<(), AllocError>
        ensures ok { OnOk result (AddsSamples (length (tables_of self.old).types) (tables_of self.old).samples
            labels.items location_ids.items weight (tables_of self.new).samples) }
        ensures memory { OnErr result (NeedMemory (length (tables_of self.old).types)
            (tables_of self.old).samples labels.items location_ids.items) }
        ensures err { OnErr result (tables_of self.new ≡ tables_of self.old) }
        ensures rest { tables_of self.new
            ≡ record (tables_of self.old) { samples = (tables_of self.new).samples } }
    {
        let type_count = self.sample_types.len();
        let key = RowKey {
            location_ids,
            labels,
        };
        if let Some(index) = self.rows.get_index_of(&key) {
            return raise(&mut self.rows, index, type_count, weight);
        }
        let values = take_values(self.alloc, type_count, weight)?;
        self.rows.insert(key, values)?;
        Ok(())
    }

    /// Returns the index of the sample with labels and a stack of locations, if such samples were added.
    pub fn sample_index(&self, labels: Vec<Label>, location_ids: Vec<u64>) -> Option<usize>
        ensures { IfSome result (λ index. index < length (tables_of self.now).samples) }
    {
        self.rows.get_index_of(&RowKey {
            location_ids,
            labels,
        })
    }

    /// Returns the profile.
    ///
    /// Fails if memory runs out.
    pub fn finish(self, summary: Summary) -> Result<Profile, AllocError>
        ensures { IfOk result (λ profile. Builds (tables_of self) summary (profile_value profile)) }
    {
        let Builder {
            alloc,
            strings,
            sample_types,
            mappings,
            functions,
            places,
            rows,
        } = self;
        let SampleParts {
            sample_types,
            samples,
            strings,
        } = take_sample_parts(alloc, strings, sample_types, rows)?;
        let CodeParts {
            mappings,
            locations,
            functions,
        } = take_code_parts(alloc, &mappings, &functions, &places)?;
        Ok(Profile {
            sample_types,
            samples,
            mappings,
            locations,
            functions,
            strings,
            duration: summary.duration,
            period_type: summary.period_type,
            period: summary.period,
            comment: summary.comment,
            default_sample_type: summary.default_sample_type,
        })
    }
}

// Returns the id of a row, which is added if it is new. Ids count from 1.
fn row_id<T: Eq + Hash + Drop>(rows: &mut IndexSet<T>, row: T) -> Result<u64, AllocError>
    ensures ok { IfOk result (λ id.
        IdentifiesBy T.eq rows.old.keys row id rows.new.keys) }
    ensures err { OnErr result (rows.new.keys ≡ rows.old.keys) }
    ensures new { OnErr result (contains T.eq rows.old row ≡ false) }
    ensures room { 0 < spare rows.old → IsOk result }
    ensures once { IsUnique T.eq rows.new }
{
    let (index, _is_new) = rows.insert_full(row)?;
    let _count = rows.len(); // for the prover
    Ok(index as u64 + 1)
}

// Adds a number to the value with an index, if there is one.
fn add_to(values: &mut Vec<u64>, index: usize, number: u64)
    ensures { values.new.items ≡ raised index number values.old.items }
{
    if let Some(value) = values.get_mut(index) {
        *value = value.saturating_add(number);
    }
}

// Adds a weight to values.
fn add_weight(values: &mut Vec<u64>, weight: WeightedSamples)
    ensures { values.new.items ≡ weighted weight values.old.items }
{
    add_to(values, 0, weight.samples);
    add_to(values, weight.column, weight.weight);
}

// Returns the values of the first samples of a row.
fn take_values(
    alloc: Global,
    type_count: usize,
    weight: WeightedSamples,
) -> Result<Vec<u64>, AllocError>
    ensures { IfOk result (λ values. values.items ≡ weighted weight (replicate type_count 0)) }
{
    let mut values = vec![in alloc; 0; type_count]?;
    add_weight(&mut values, weight);
    Ok(values)
}

// Makes a value for each sample type. Those that are missing are 0.
fn pad(values: &mut Vec<u64>, type_count: usize) -> Result<(), AllocError>
    ensures ok { OnOk result (values.new.items ≡ padded type_count values.old.items) }
    ensures err { OnErr result (values.new.items ≡ values.old.items) }
    ensures lacks { OnErr result (length values.old.items ≢ type_count) }
{
    if values.len() == type_count {
        return Ok(());
    }
    values.resize(type_count, 0)
}

// Adds a weight to the values of the row with an index.
fn raise(
    rows: &mut IndexMap<RowKey, Vec<u64>>,
    index: usize,
    type_count: usize,
    weight: WeightedSamples,
) -> Result<(), AllocError>
    requires { index < index_map_len rows.old }
    ensures ok { OnOk result (RaisesRow (rows_of rows.old.entries) index type_count weight
        (rows_of rows.new.entries)) }
    ensures err { OnErr result (rows_of rows.new.entries ≡ rows_of rows.old.entries) }
    ensures lacks { OnErr result ((row : Row) → slice_get (rows_of rows.old.entries) index ≡ Some row →
        length row.values ≢ type_count) }
{
    let Some(values) = rows.get_index_mut(index) else {
        return Ok(());
    };
    pad(values, type_count)?;
    add_weight(values, weight);
    Ok(())
}

// Returns the sample types.
fn take_types(alloc: Global, rows: IndexSet<ValueType>) -> Result<Vec<ValueType>, AllocError>
    ensures { IfOk result (λ types. types.items ≡ rows.keys) }
{
    rows.into_iter().collect(alloc)
}

// Returns whether the function of a line has a source file.
fn has_filename(functions: &IndexSet<FunctionNames>, line: Line) -> bool
    ensures { result ≡ has_filename functions.now.keys line }
{
    if line.function_id == 0 {
        return false;
    }
    match functions.get_index((line.function_id - 1) as usize) {
        Some(names) => names.filename != 0,
        None => false,
    }
}

// Returns whether a line of a location has a function with a source file.
fn has_filenames(functions: &IndexSet<FunctionNames>, lines: &[Line]) -> bool
    ensures { result ≡ list_any (has_filename functions.now.keys) lines.now }
{
    'lines: for line in lines {
        if has_filename(functions, *line) {
            return true;
        }
    }
    false
}

// Returns whether a line of a location has a number.
fn has_numbers(lines: &[Line]) -> bool
    ensures { result ≡ list_any has_number lines.now }
{
    'lines: for line in lines {
        if line.line != 0 {
            return true;
        }
    }
    false
}

// Returns whether one of two things is so.
fn either(first: bool, second: bool) -> bool
    ensures { result ≡ (first || second) }
{
    first || second
}

// Adds what a location has to what its mapping has, if it has one.
fn add_place(flags: &mut Vec<SourceFlags>, functions: &IndexSet<FunctionNames>, place: &LocationRow)
    ensures count { length flags.new.items ≡ length flags.old.items }
    ensures are { (places : List Place) → AreFlags functions.now.keys places flags.old.items →
        AreFlags functions.now.keys (places ++ place_of place.now ∷ []) flags.new.items }
{
    if place.mapping_id == 0 {
        return;
    }
    let index = (place.mapping_id - 1) as usize;
    if index >= flags.len() {
        return;
    }
    let old = flags[index];
    let lines = place.lines.as_slice();
    let has_filename = has_filenames(functions, lines);
    let has_number = has_numbers(lines);
    flags[index] = SourceFlags {
        has_filenames: either(old.has_filenames, has_filename),
        has_line_numbers: either(old.has_line_numbers, has_number),
        has_inline_frames: either(old.has_inline_frames, lines.len() > 1),
    };
}

// What the locations in a mapping have without any.
const NO_FLAGS: SourceFlags = SourceFlags {
    has_filenames: false,
    has_line_numbers: false,
    has_inline_frames: false,
};

// Returns what the locations in each mapping have.
fn source_flags(
    alloc: Global,
    places: &IndexSet<LocationRow>,
    functions: &IndexSet<FunctionNames>,
    mapping_count: usize,
) -> Result<Vec<SourceFlags>, AllocError>
    ensures count { IfOk result (λ flags. length flags.items ≡ mapping_count) }
    ensures are { IfOk result (λ flags.
        AreFlags functions.now.keys (map place_of places.now.keys) flags.items) }
{
    let mut flags = vec![in alloc; NO_FLAGS; mapping_count]?;
    'places: for place in places {
        add_place(&mut flags, functions, place);
    }
    Ok(flags)
}

// Returns what the locations in the mapping with an index have.
fn mapping_flags(flags: &[SourceFlags], index: usize) -> SourceFlags
    ensures { result ≡ slice_index_or flags.now index no_flags }
{
    if index < flags.len() {
        flags[index]
    } else {
        NO_FLAGS
    }
}

// Returns the mappings with their ids and flags.
fn flagged_mappings(
    alloc: Global,
    files: &IndexSet<MappedFile>,
    flags: &[SourceFlags],
) -> Result<Vec<Mapping>, AllocError>
    ensures { IfOk result (λ mappings. mappings.items ≡ numbered (flagged_row flags.now) 1 files.now.keys) }
{
    let mut mappings = Vec::new(alloc);
    'rows: for file in files {
        let flags = mapping_flags(flags, mappings.len());
        mappings.push(Mapping {
            id: mappings.len() as u64 + 1,
            memory_start: file.memory_start,
            memory_limit: file.memory_limit,
            file_offset: file.file_offset,
            filename: file.filename,
            build_id: file.build_id,
            has_functions: true,
            has_filenames: flags.has_filenames,
            has_line_numbers: flags.has_line_numbers,
            has_inline_frames: flags.has_inline_frames,
        })?;
    }
    Ok(mappings)
}

// Returns the mappings with their ids, and with what their locations have.
fn take_mappings(
    alloc: Global,
    files: &IndexSet<MappedFile>,
    functions: &IndexSet<FunctionNames>,
    places: &IndexSet<LocationRow>,
) -> Result<Vec<Mapping>, AllocError>
    ensures { IfOk result (λ mappings. mappings.items
        ≡ numbered (mapping_row functions.now.keys (map place_of places.now.keys)) 1 files.now.keys) }
{
    let flags = source_flags(alloc, places, functions, files.len())?;
    flagged_mappings(alloc, files, flags.as_slice())
}

// Returns the functions with their ids.
fn take_functions(
    alloc: Global,
    rows: &IndexSet<FunctionNames>,
) -> Result<Vec<Function>, AllocError>
    ensures { IfOk result (λ functions. functions.items ≡ numbered function_row 1 rows.now.keys) }
{
    let mut functions = Vec::new(alloc);
    'rows: for names in rows {
        functions.push(Function {
            id: functions.len() as u64 + 1,
            name: names.name,
            system_name: names.system_name,
            filename: names.filename,
        })?;
    }
    Ok(functions)
}

// Returns an id, or 0 if none of some rows has it.
fn known(id: u64, count: usize) -> u64
    ensures { result ≡ known_id count id }
{
    if (count as u64) < id { 0 } else { id }
}

// Returns lines, in which ids of functions that none of some rows has are 0.
fn known_lines(
    alloc: Global,
    lines: &[Line],
    function_count: usize,
) -> Result<Vec<Line>, AllocError>
    ensures { IfOk result (λ known. known.items ≡ map (known_line function_count) lines.now) }
{
    let mut known_lines = Vec::new(alloc);
    'lines: for line in lines {
        known_lines.push(Line {
            function_id: known(line.function_id, function_count),
            line: line.line,
        })?;
    }
    Ok(known_lines)
}

// Returns the locations with their ids.
fn take_locations(
    alloc: Global,
    places: &IndexSet<LocationRow>,
    mapping_count: usize,
    function_count: usize,
) -> Result<Vec<Location>, AllocError>
    ensures { IfOk result (λ locations. map location_value locations.items
        ≡ numbered (location_row mapping_count function_count) 1 (map place_of places.now.keys)) }
{
    let mut locations = Vec::new(alloc);
    'rows: for place in places {
        let lines = known_lines(alloc, place.lines.as_slice(), function_count)?;
        locations.push(Location {
            id: locations.len() as u64 + 1,
            mapping_id: known(place.mapping_id, mapping_count),
            address: place.address,
            lines,
        })?;
    }
    Ok(locations)
}

// Returns the mappings, locations and functions with their ids.
fn take_code_parts(
    alloc: Global,
    files: &IndexSet<MappedFile>,
    names: &IndexSet<FunctionNames>,
    places: &IndexSet<LocationRow>,
) -> Result<CodeParts, AllocError>
    ensures mappings { IfOk result (λ parts. parts.mappings.items
        ≡ numbered (mapping_row names.now.keys (map place_of places.now.keys)) 1 files.now.keys) }
    ensures locations { IfOk result (λ parts. map location_value parts.locations.items
        ≡ numbered (location_row (length files.now.keys) (length names.now.keys)) 1
        (map place_of places.now.keys)) }
    ensures functions { IfOk result (λ parts.
        parts.functions.items ≡ numbered function_row 1 names.now.keys) }
{
    Ok(CodeParts {
        mappings: take_mappings(alloc, files, names, places)?,
        locations: take_locations(alloc, places, files.len(), names.len())?,
        functions: take_functions(alloc, names)?,
    })
}

// Returns the index of the key of a label with a number, or 0 if there is none.
fn label_key(strings: &mut StringTable, key: &str, number: Option<i32>) -> Result<u64, AllocError>
    ensures ok { IfOk result (λ index. IsKeyOf (texts_of strings.new) key.now number index) }
    ensures texts { Grows (texts_of strings.old) (texts_of strings.new) }
{
    match number {
        Some(_) => strings.intern_text(key),
        None => Ok(0),
    }
}

// Appends a label with a number, if there is one.
fn push_number(labels: &mut Vec<Label>, key: u64, number: Option<i32>) -> Result<(), AllocError>
    ensures { OnOk result (labels.new.items ≡ labels.old.items ++ number_labels key number) }
{
    if let Some(number) = number {
        labels.push(Label {
            key,
            text: 0,
            number: i64::from(number).cast_unsigned(),
        })?;
    }
    Ok(())
}

// Returns the labels of a thread.
fn take_labels(
    alloc: Global,
    comm: u64,
    pid: u64,
    tid: u64,
    thread: SampleThread,
) -> Result<Vec<Label>, AllocError>
    ensures { IfOk result (λ labels. labels.items ≡ thread_labels comm pid tid thread) }
{
    let mut labels = Vec::new(alloc);
    labels.push(Label {
        key: comm,
        text: thread.name,
        number: 0,
    })?;
    push_number(&mut labels, pid, thread.pid)?;
    push_number(&mut labels, tid, thread.tid)?;
    Ok(labels)
}

// Returns the samples. Those that were added before a sample type have 0 of it.
fn take_samples(
    alloc: Global,
    rows: IndexMap<RowKey, Vec<u64>>,
    type_count: usize,
) -> Result<Vec<Sample>, AllocError>
    ensures { IfOk result (λ samples.
        map sample_value samples.items ≡ map (sample_row type_count) (rows_of rows.entries)) }
{
    let mut samples = Vec::new(alloc);
    'rows: for (key, mut values) in rows {
        values.resize(type_count, 0)?;
        samples.push(Sample {
            location_ids: key.location_ids,
            values,
            labels: key.labels,
        })?;
    }
    Ok(samples)
}

// Returns the samples, their types, and all texts.
fn take_sample_parts(
    alloc: Global,
    strings: StringTable,
    sample_types: IndexSet<ValueType>,
    rows: IndexMap<RowKey, Vec<u64>>,
) -> Result<SampleParts, AllocError>
    ensures sample_types { IfOk result (λ parts. parts.sample_types.items ≡ sample_types.keys) }
    ensures samples { IfOk result (λ parts. map sample_value parts.samples.items
        ≡ map (sample_row (length sample_types.keys)) (rows_of rows.entries)) }
    ensures texts { IfOk result (λ parts. map string_bytes parts.strings.items ≡ texts_of strings) }
    ensures once { IfOk result (λ parts. AreStrings (map string_bytes parts.strings.items)) }
{
    let samples = take_samples(alloc, rows, sample_types.len())?;
    Ok(SampleParts {
        sample_types: take_types(alloc, sample_types)?,
        samples,
        strings: strings.finish()?,
    })
}
