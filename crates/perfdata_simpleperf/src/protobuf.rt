//! Decodes the protobuf messages in which simpleperf stores the symbol tables of files.

mod field;
mod groups;
mod laws;
pub(crate) mod messages;
mod wire;

pub use laws::{groups_nest, message_is_unique, value_is_unique, varint_is_unique};
pub use perfdata_sections::decode_error::DecodeError;
