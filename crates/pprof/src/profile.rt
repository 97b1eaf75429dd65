//! The messages of a profile. Their fields and those of profile.proto have the same names.
//!
//! Texts are indices in the table of strings, which begins with the empty text. Ids count from 1, and 0 is
//! none.

/// What a value of a sample counts.
#[derive(Clone, Copy, PartialEq, Eq, Hash)]
pub struct ValueType {
    /// The name.
    pub kind: u64,
    /// The unit.
    pub unit: u64,
}

/// A key of a sample with its value: a text or a number.
#[derive(Clone, Copy, PartialEq, Eq, Hash)]
pub struct Label {
    /// The name of the key.
    pub key: u64,
    /// The text, or 0.
    pub text: u64,
    /// The number in two's complement, or 0.
    pub number: u64,
}

/// Samples that have the same stack and labels.
#[derive(Drop)]
pub struct Sample {
    /// The locations of the stack, leaf first.
    pub location_ids: Vec<u64>,
    /// A value for each sample type.
    pub values: Vec<u64>,
    /// What else is known of the samples.
    pub labels: Vec<Label>,
}

/// A file that is mapped into memory.
#[derive(Clone, Copy)]
pub struct Mapping {
    /// The id.
    pub id: u64,
    /// The first address.
    pub memory_start: u64,
    /// The address after the last.
    pub memory_limit: u64,
    /// The offset in the file of the first address.
    pub file_offset: u64,
    /// The path of the file.
    pub filename: u64,
    /// The build id of the file, in lower-case hexadecimal digits.
    pub build_id: u64,
    /// Whether the locations in it have functions.
    pub has_functions: bool,
    /// Whether a location in it has a function with a source file.
    pub has_filenames: bool,
    /// Whether a location in it has a source line.
    pub has_line_numbers: bool,
    /// Whether a location in it has an inlined function.
    pub has_inline_frames: bool,
}

/// A function at an address, and its source line there.
#[derive(Clone, Copy, PartialEq, Eq, Hash)]
pub struct Line {
    /// The function.
    pub function_id: u64,
    /// The line in the function's file, or 0.
    pub line: u64,
}

/// An address of a stack.
#[derive(Drop)]
pub struct Location {
    /// The id.
    pub id: u64,
    /// The mapping that contains the address.
    pub mapping_id: u64,
    /// The address.
    pub address: u64,
    /// The functions at the address, the innermost first. All but the last one are inlined into the next one.
    pub lines: Vec<Line>,
}

/// A function.
#[derive(Clone, Copy)]
pub struct Function {
    /// The id.
    pub id: u64,
    /// The name.
    pub name: u64,
    /// The name as the file has it.
    pub system_name: u64,
    /// The path of the source file, or 0.
    pub filename: u64,
}

/// A profile.
#[derive(Drop)]
pub struct Profile {
    /// What the values of each sample count.
    pub sample_types: Vec<ValueType>,
    /// The samples.
    pub samples: Vec<Sample>,
    /// The mappings.
    pub mappings: Vec<Mapping>,
    /// The locations.
    pub locations: Vec<Location>,
    /// The functions.
    pub functions: Vec<Function>,
    /// All texts.
    pub strings: Vec<String>,
    /// The duration in nanoseconds.
    pub duration: u64,
    /// What counts the events between two samples.
    pub period_type: Option<ValueType>,
    /// The number of events between two samples.
    pub period: u64,
    /// A comment, or 0.
    pub comment: u64,
    /// The name of the sample type that is shown first.
    pub default_sample_type: u64,
}
