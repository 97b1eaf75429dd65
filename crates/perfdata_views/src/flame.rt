//! Flame graphs, as SVG.
//!
//! [`svg::write_svg`] writes one file without references to others: a box for each node of the tree of a
//! profile ([`boxes::boxes`]) that is wide enough to be seen ([`boxes::drawn_boxes`]), as wide as its share
//! of the samples, below that of its caller, in a hue that says what code it is.
pub mod boxes;
mod changes;
mod colors;
mod script;
pub mod span;
pub mod svg;
pub(crate) mod xml_text;
