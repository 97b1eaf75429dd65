//! Record headers, record types and CPU modes.

mod cpu_mode;
mod record_header;
mod record_type;
pub mod user_types;

pub use cpu_mode::CpuMode;
pub use record_header::PerfEventHeader;
pub use record_type::RecordType;
