//! Texts that end with a NUL.
ghost use Rattle.std.specs.Prelude.{◌≡◌};
ghost use Rattle.std.specs.IoError.{error_kind};
ghost use Rattle.std.specs.declared.io.ErrorKind.TheVariants.{InvalidData};
ghost use Rattle.perfdata_sources.specs.Raw.{bytes_of, IsSingle};
ghost use Rattle.perfdata_events.specs.Single.{KeepsSingle};
ghost use Rattle.perfdata_events.specs.Format.{Decodes, text};

use perfdata_base::raw::RawData;
use std::io::{Error, ErrorKind, Result};

pub(crate) fn invalid_data() -> Error
    ensures { error_kind result ≡ InvalidData }
{
    Error::from(ErrorKind::InvalidData)
}

/// Removes a text and its NUL, and returns the text.
///
/// Fails with an `InvalidData` error if there is no NUL.
pub fn read_text<'a>(fields: &mut RawData<'a>) -> Result<RawData<'a>>
    ensures decodes { Decodes text bytes_of (bytes_of fields.old) result (bytes_of fields.new) }
    ensures single { KeepsSingle IsSingle fields.old result fields.new }
{
    fields.read_string().ok_or(invalid_data())
}
