//! Offsets of the time and the identifier in a record's body, and the numbers at these offsets.

mod body_fields;
mod id_cache;
mod parse_info;
mod record_fields;

pub use id_cache::IdCache;
pub use parse_info::{RecordIdParseInfo, RecordParseInfo};
pub use record_fields::{get_record_id, get_record_identifier, get_record_timestamp};
