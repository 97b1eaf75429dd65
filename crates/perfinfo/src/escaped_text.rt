//! Displays arbitrary bytes on one line.
use std::fmt::{Display, Write};
use std::{fmt, str};

/// Displays bytes on one line. In UTF-8 text, control characters and backslashes are escaped. Other bytes are
/// displayed as ASCII with escapes.
#[derive(Clone, Copy)]
pub struct Escaped<'a>(pub &'a [u8]);

impl Display for Escaped<'_> {
    fn fmt<W: fmt::Write>(&self, f: &mut fmt::Formatter<W>) -> fmt::Result {
        match str::from_utf8(self.0) {
            Ok(text) => write_escaped_text(text, f),
            Err(_) => Display::fmt(&self.0.escape_ascii(), f),
        }
    }
}

fn write_escaped_text<W: fmt::Write>(text: &str, f: &mut fmt::Formatter<W>) -> fmt::Result {
    for character in text.chars() {
        if character.is_control() || character == '\\' {
            Display::fmt(&character.escape_default(), f)?;
        } else {
            f.write_char(character)?;
        }
    }
    Ok(())
}

/// Displays bytes as hexadecimal digits.
#[derive(Clone, Copy)]
pub struct Hex<'a>(pub &'a [u8]);

impl Display for Hex<'_> {
    fn fmt<W: fmt::Write>(&self, f: &mut fmt::Formatter<W>) -> fmt::Result {
        for byte in self.0 {
            write!(f, "{:02x}", *byte)?;
        }
        Ok(())
    }
}
