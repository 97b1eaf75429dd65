//! The attribute of an event: what is recorded, how often, and what a sample of the event contains.
pub use perfdata_base::attr::{AttrFlags, PerfEventAttr, SampleFormat};
