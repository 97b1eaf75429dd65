//! The profiles that pprof reads.
//!
//! [`builder::Builder`] makes a [`profile::Profile`], which has the fields of profile.proto.
//! [`encode::encode`] returns its bytes, and [`html::profile_page`] a page that shows it in a browser.
#![tactic(auto)]

pub mod builder;
pub mod encode;
pub mod html;
pub mod laws;
pub mod profile;
pub mod strings;
mod wire;
