//! The prefixes and suffixes of mangled names.
ghost use Rattle.std.specs.Prelude.{◌↔◌, IsTrue};
ghost use Rattle.demangle.specs.Prefix.{IsMangled};

// Returns whether a name starts as mangled names do.
pub(crate) fn is_mangled(name: &[u8]) -> bool
    ensures { IsTrue result ↔ IsMangled name.now }
{
    name.len() >= 2 && name[0] == b'_' && (name[1] == b'R' || name[1] == b'Z')
}

// Returns whether a byte starts a suffix.
fn starts_suffix(byte: u8) -> bool {
    byte == b'.' || byte == b'@'
}

// Returns whether there are no bytes or those of a suffix.
pub(crate) fn is_suffix(bytes: &[u8]) -> bool {
    bytes.is_empty() || starts_suffix(bytes[0])
}

// Returns the bytes before a suffix.
pub(crate) fn without_suffix(name: &[u8]) -> &[u8] {
    match name.iter().position(|byte| starts_suffix(*byte)) {
        Some(end) => &name[..end],
        None => name,
    }
}
