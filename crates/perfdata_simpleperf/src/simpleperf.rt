//! Parsers for what Android's simpleperf adds to a file: meta info, event names, and symbol tables of the
//! sampled files.

pub(crate) mod chunks;
mod event_types;
mod file2;
mod file_record;
mod file_section;
mod file_v1;
mod meta_info;
mod nul_text;
pub mod simpleperf_dso_type;

pub use event_types::get_event_types;
pub use file_record::{
    SimpleperfDexFileInfo, SimpleperfElfFileInfo, SimpleperfFileRecord, SimpleperfKernelModuleInfo,
    SimpleperfSymbol, SimpleperfTypeSpecificInfo,
};
pub use file_section::parse_file_section;
pub use file2::parse_file2_section;
pub use meta_info::parse_meta_info_map;
pub use nul_text::SliceReadStringExt;
pub use perfdata_sections::event_type::SimplePerfEventType;
