//! Names as text of an XML document.

use bstr::ByteSlice;
use std::fmt;
use std::fmt::{Display, Formatter, Write};

/// Displays bytes as text of an element, on one line: what isn't UTF-8 as U+FFFD, and control characters and
/// others that XML forbids as blanks.
#[derive(Clone, Copy)]
pub(crate) struct XmlText<'a> {
    pub(crate) bytes: &'a [u8],
    /// The number of characters after which the text ends.
    pub(crate) limit: usize,
}

impl<'a> XmlText<'a> {
    /// Returns the text of all characters.
    pub(crate) fn whole(bytes: &'a [u8]) -> XmlText<'a> {
        XmlText {
            bytes,
            limit: usize::MAX,
        }
    }
}

// Returns whether a character isn't written: one that no XML document may contain, or that ends a line.
fn is_forbidden(character: char) -> bool {
    character.is_control() || matches!(character, '\u{fffe}' | '\u{ffff}')
}

// Writes a character.
fn write_character<W: Write>(character: char, f: &mut Formatter<W>) -> fmt::Result {
    match character {
        '&' => f.write_str("&amp;"),
        '<' => f.write_str("&lt;"),
        '>' => f.write_str("&gt;"),
        '"' => f.write_str("&quot;"),
        '\'' => f.write_str("&#39;"),
        character if is_forbidden(character) => f.write_char(' '),
        character => f.write_char(character),
    }
}

impl Display for XmlText<'_> {
    fn fmt<W: Write>(&self, f: &mut Formatter<W>) -> fmt::Result {
        for character in self.bytes.chars().take(self.limit) {
            write_character(character, f)?;
        }
        Ok(())
    }
}
