//! The [`Resolver`](perfdata_profile::resolver::Resolver) of recordings: which frames samples have, from
//! their call chains and their copies of stacks, and the names of threads, frames and files.
#![tactic(auto)]

pub mod chain_shape;
pub mod frame_listing;
mod function_kinds;
mod name_texts;
pub mod options;
mod recorded_ids;
pub mod resolver;
mod return_addresses;
pub mod script_listing;
mod source_lines;
pub mod unwinding;

pub use chain_shape::ChainShapes;
pub use frame_listing::FrameListing;
pub use options::{FormatData, NameKind, ResolverOptions, SourceOptions};
pub use resolver::FrameResolver;
pub use script_listing::ScriptListing;
pub use unwinding::EndCounts;
