//! The files of mappings: which file a mapping's code is, and what it contains. Each file is opened once; its
//! symbols, its call frame information and its debugging information are read when they are first looked up.
#![tactic(auto)]

pub mod build_ids;
mod caches;
mod debug_files;
pub mod debug_sections;
pub mod directories;
mod elf_opener;
mod file_bytes;
pub mod file_problems;
mod file_sources;
pub mod mapped_file;
pub mod mapped_files;
pub mod mapping_names;
pub mod process_code;
mod running_vdso;
pub mod section_contents;

pub use build_ids::{BuildIds, is_recorded};
pub use code_dwarf::{SourceFrame, SourceFrames, SourcePath};
pub use debug_sections::DebugSectionReader;
pub use directories::{FileOptions, PathError, none_if_missing};
pub use file_problems::{FileProblem, ProblemFile, ReadCause};
pub use mapped_files::{CodeAddress, MappedFiles};
pub use process_code::ProcessCode;
pub use section_contents::{SectionContents, SectionError};
