//! What a resolver does, and what it keeps.

use crate::frame_listing::FrameListing;
use crate::script_listing::ScriptListing;
use code_files::FileOptions;
use demangle::Style;
use perfdata_names::KernelList;
use perfdata_profile::function_kinds::FunctionKinds;
use perfdata_profile::mapping_order::MappingOrder;

/// Which name a frame has.
#[derive(Clone, Copy, Debug, PartialEq, Eq)]
pub enum NameKind {
    /// The symbol, or the file where there is none.
    Symbol,
    /// The file.
    File,
    /// The address.
    Address,
}

/// What is looked up in the debugging information of files.
#[derive(Clone, Copy, Debug, PartialEq, Eq)]
pub struct SourceOptions {
    /// Whether inlined functions are frames.
    pub has_inlined: bool,
    /// Whether functions have their source lines.
    pub has_lines: bool,
}

/// How a resolver names frames.
#[derive(Clone, Copy)]
pub struct ResolverOptions<'a> {
    /// Which name a frame has.
    pub name_kind: NameKind,
    /// The style of the texts of mangled names, unless these stay.
    pub demangling: Option<Style>,
    /// What frames have of the debugging information of files, if they have the names of symbols.
    pub source: SourceOptions,
    /// Whether samples with a copy of their stack are unwound.
    pub unwinds: bool,
    /// Where files are.
    pub files: FileOptions<'a>,
    /// The kernel's list of symbols.
    pub kernel_list: KernelList<'a>,
}

/// What a format needs beside the names of frames.
#[derive(Drop)]
pub enum FormatData {
    /// Nothing.
    Nothing,
    /// The order in which files were mapped. The build ids of the recording are then read in any case.
    Mappings(MappingOrder),
    /// What code functions are. The names of inlined functions end with [`INLINED_END`].
    Kinds(FunctionKinds),
    /// The lines of the frames of each sample.
    Listing(FrameListing),
    /// The name of each function's file, which follows that of the function after a mark, a byte 0.
    Files,
    /// The text of each sample, as `perf script` prints it.
    Script(ScriptListing),
}

/// The end of the names of inlined functions, if these differ from those of others.
pub const INLINED_END: &[u8] = b" (inlined)";

impl SourceOptions {
    // Returns whether debugging information is looked up.
    pub(crate) fn is_given(self) -> bool {
        self.has_inlined || self.has_lines
    }
}

impl FormatData {
    // Returns whether the names of functions contain their source lines, if these are known.
    pub(crate) fn names_lines(&self) -> bool {
        matches!(self, FormatData::Nothing | FormatData::Files)
    }

    /// Returns the text of the samples so far, if the format is a text of samples. What was written of it can
    /// be removed between two samples.
    pub fn text(&mut self) -> Option<&mut Vec<u8>> {
        match self {
            FormatData::Listing(listing) => Some(&mut listing.lines),
            FormatData::Script(script) => Some(&mut script.text),
            _ => None,
        }
    }
}
