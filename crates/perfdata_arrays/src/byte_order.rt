//! The byte order of a recording.
ghost use Rattle.std.specs.Prelude.{◌≡◌};
ghost use Rattle.std.specs.Bool.{nat_eq};
ghost use Rattle.std.specs.List.{starts_with};
ghost use Rattle.perfdata_sources.specs.declared.endian.Endianness.TheVariants.{BigEndian};
ghost use Rattle.perfdata_base.specs.Header.{magic_of};

use perfdata_base::header::endian_of_magic;
use perfdata_base::raw::Endianness;

/// Returns whether the numbers of a perf.data file or pipe are big-endian, by its magic.
pub fn is_big_endian(bytes: &[u8]) -> bool
    ensures { result ≡ starts_with nat_eq bytes.now (magic_of BigEndian) }
{
    match bytes.first_chunk::<8>() {
        Some(magic) => matches!(endian_of_magic(magic), Some(Endianness::BigEndian)),
        None => false,
    }
}
