//! Attributes, their names, and the lookup of an attribute by an identifier.
pub(crate) mod consistency;
pub(crate) mod first_id_index;
pub(crate) mod id_table;
pub(crate) mod lookup;
pub(crate) mod names;
pub(crate) mod renames;
