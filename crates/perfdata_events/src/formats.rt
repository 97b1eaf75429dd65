//! The formats of a recording's attributes.
ghost use Rattle.std.specs.Option.{option_copied};
ghost use Rattle.std.specs.Prelude.{◌≡◌, ◌++◌, ◌∷◌, [], length, OnErr, OnOk, slice_get};

use crate::format::EventFormat;
use perfdata_base::attr::PerfEventAttr;
use perfdata_base::raw::Endianness;
use std::alloc::{AllocError, Global};

/// The formats of a recording's attributes, each made once. A format is found by the index of its attribute.
///
/// A pipe adds attributes between its records, so a reader adds those from [`EventFormats::len`] on when a
/// record has an index that isn't found.
#[derive(Drop)]
pub struct EventFormats {
    formats: Vec<EventFormat>,
}

impl EventFormats {
    ghost use Rattle.perfdata_events.specs.EventFormat.{event_format_of, native_format_of};
    ghost use Rattle.perfdata_events.specs.EventFormats.{formats_in};

    /// Creates the formats of no attributes.
    pub fn new(alloc: Global) -> EventFormats
        ensures { formats_in result ≡ [] }
    {
        EventFormats {
            formats: Vec::new(alloc),
        }
    }

    /// Returns the number of attributes.
    pub fn len(&self) -> usize
        ensures { result ≡ length (formats_in self.now) }
    {
        self.formats.len()
    }

    /// Returns the format of the records of the attribute with an index, or `None` if there are no more
    /// attributes than `index`.
    pub fn get(&self, index: usize) -> Option<&EventFormat>
        ensures { option_copied result ≡ slice_get (formats_in self.now) index }
    {
        self.formats.get(index)
    }

    /// Adds the format that [`EventFormat::with_little_endian_flags`] makes of the next attribute.
    ///
    /// If it fails with `AllocError`, nothing is added.
    pub fn push_with_little_endian_flags(
        &mut self,
        attr: &PerfEventAttr,
        endian: Endianness,
    ) -> Result<(), AllocError>
        ensures added { OnOk result (formats_in self.new ≡ formats_in self.old
            ++ event_format_of attr.now endian ∷ []) }
        ensures unchanged { OnErr result (formats_in self.new ≡ formats_in self.old) }
    {
        self.formats
            .push(EventFormat::with_little_endian_flags(attr, endian))?;
        Ok(())
    }

    /// Adds the format that [`EventFormat::new`] makes of the next attribute.
    ///
    /// If it fails with `AllocError`, nothing is added.
    pub fn push(&mut self, attr: &PerfEventAttr, endian: Endianness) -> Result<(), AllocError>
        ensures added { OnOk result (formats_in self.new ≡ formats_in self.old
            ++ native_format_of attr.now endian ∷ []) }
        ensures unchanged { OnErr result (formats_in self.new ≡ formats_in self.old) }
    {
        self.formats.push(EventFormat::new(attr, endian))?;
        Ok(())
    }
}
