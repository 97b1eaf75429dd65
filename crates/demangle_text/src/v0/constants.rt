//! Constants.
ghost use Rattle.std.specs.Prelude.{◌≡◌};
ghost use Rattle.demangle_text.specs.Text.{limit_of};

use crate::cursor::Cursor;
use crate::failure::Failure;
use crate::hex::hex_number;
use crate::text::Text;
use crate::v0::RustNames;
use crate::v0::numbers::{disambiguator, hex_digits, read_identifier};
use crate::v0::task::{List, Task};

impl RustNames {
    // Reads a constant. Outside a value, braces are around what isn't a literal.
    pub(super) fn constant(
        &mut self,
        in_value: bool,
        cursor: &mut Cursor<'_>,
        text: &mut Text,
    ) -> Result<(), Failure>
        ensures { limit_of text.new ≡ limit_of text.old }
    {
        let tag = cursor.next_byte()?;
        match tag {
            b'p' => self.write(text, b"_"),
            b'h' | b't' | b'm' | b'y' | b'o' | b'j' => self.integer(cursor, text),
            b'a' | b's' | b'l' | b'x' | b'n' | b'i' => self.signed_integer(cursor, text),
            b'b' => self.boolean(cursor, text),
            b'c' => self.character(cursor, text),
            b'B' => self.refer(Task::Constant { in_value }, cursor),
            b'R' if cursor.eat(b'e') => self.string(cursor, text),
            _ if in_value => self.expression(tag, cursor, text),
            _ => {
                self.write(text, b"{")?;
                self.push(Task::Write(b'}'))?;
                self.expression(tag, cursor, text)
            }
        }
    }

    // Reads the rest of an integer without a sign.
    fn integer(&mut self, cursor: &mut Cursor<'_>, text: &mut Text) -> Result<(), Failure>
        ensures { limit_of text.new ≡ limit_of text.old }
    {
        let digits = hex_digits(cursor)?;
        match hex_number(digits) {
            Some(number) => self.write_number(text, number),
            None => {
                self.write(text, b"0x")?;
                self.write(text, digits)
            }
        }
    }

    // Reads the rest of an integer that may be negative.
    fn signed_integer(&mut self, cursor: &mut Cursor<'_>, text: &mut Text) -> Result<(), Failure>
        ensures { limit_of text.new ≡ limit_of text.old }
    {
        if cursor.eat(b'n') {
            self.write(text, b"-")?;
        }
        self.integer(cursor, text)
    }

    // Reads the rest of a truth value.
    fn boolean(&mut self, cursor: &mut Cursor<'_>, text: &mut Text) -> Result<(), Failure>
        ensures { limit_of text.new ≡ limit_of text.old }
    {
        match hex_number(hex_digits(cursor)?) {
            Some(0) => self.write(text, b"false"),
            Some(1) => self.write(text, b"true"),
            _ => Err(Failure::Grammar),
        }
    }

    // Reads the rest of a character.
    fn character(&mut self, cursor: &mut Cursor<'_>, text: &mut Text) -> Result<(), Failure>
        ensures { limit_of text.new ≡ limit_of text.old }
    {
        let number = hex_number(hex_digits(cursor)?).ok_or(Failure::Grammar)?;
        let code = u32::try_from(number).map_err(|_| Failure::Grammar)?;
        let character = char::from_u32(code).ok_or(Failure::Grammar)?;
        self.write(text, b"'")?;
        self.write_escaped(character, '\'', text)?;
        self.write(text, b"'")
    }

    // Reads the rest of a string: pairs of hexadecimal digits, the bytes of UTF-8.
    fn string(&mut self, cursor: &mut Cursor<'_>, text: &mut Text) -> Result<(), Failure>
        ensures { limit_of text.new ≡ limit_of text.old }
    {
        let digits = hex_digits(cursor)?;
        self.string.clear();
        set_bytes(&mut self.string, digits)?;
        let Ok(string) = str::from_utf8(&self.string) else {
            return Err(Failure::Grammar);
        };
        if self.is_skipping {
            return Ok(());
        }
        put_string(text, string)
    }

    // Reads the rest of an expression.
    fn expression(
        &mut self,
        tag: u8,
        cursor: &mut Cursor<'_>,
        text: &mut Text,
    ) -> Result<(), Failure>
        ensures { limit_of text.new ≡ limit_of text.old }
    {
        match tag {
            b'e' => {
                self.write(text, b"*")?;
                self.string(cursor, text)
            }
            b'R' => self.start_expression(b"&", Task::Constant { in_value: true }, text),
            b'Q' => self.start_expression(b"&mut ", Task::Constant { in_value: true }, text),
            b'A' => self.start_expression(b"[", start_task(List::Elements), text),
            b'T' => self.start_expression(b"(", start_task(List::Values), text),
            b'V' => self.push_two(Task::Variant, Task::Path { in_value: true }),
            _ => Err(Failure::Grammar),
        }
    }

    // Writes the beginning of an expression, of which a task reads the rest.
    fn start_expression(&mut self, start: &[u8], rest: Task, text: &mut Text) -> Result<(), Failure>
        ensures { limit_of text.new ≡ limit_of text.old }
    {
        self.write(text, start)?;
        self.push(rest)
    }

    // Reads which fields a struct or a variant has.
    pub(super) fn variant(
        &mut self,
        cursor: &mut Cursor<'_>,
        text: &mut Text,
    ) -> Result<(), Failure>
        ensures { limit_of text.new ≡ limit_of text.old }
    {
        match cursor.next_byte()? {
            b'U' => Ok(()),
            b'T' => self.start_expression(b"(", start_task(List::Fields), text),
            b'S' => self.start_expression(b" { ", start_task(List::NamedFields), text),
            _ => Err(Failure::Grammar),
        }
    }

    // Reads the name of a field, whose value follows.
    pub(super) fn field(&mut self, cursor: &mut Cursor<'_>, text: &mut Text) -> Result<(), Failure>
        ensures { limit_of text.new ≡ limit_of text.old }
    {
        disambiguator(cursor)?;
        let identifier = read_identifier(cursor)?;
        self.write_identifier(text, identifier)?;
        self.start_expression(b": ", Task::Constant { in_value: true }, text)
    }

    // Writes a character of a literal, unless texts are skipped.
    fn write_escaped(&self, character: char, quote: char, text: &mut Text) -> Result<(), Failure>
        ensures { limit_of text.new ≡ limit_of text.old }
    {
        if self.is_skipping {
            return Ok(());
        }
        put_escaped(text, character, quote)
    }
}

// Returns the task that reads a list from its start.
fn start_task(list: List) -> Task {
    Task::Items { list, count: 0 }
}

// Appends the bytes that pairs of hexadecimal digits write.
fn set_bytes(bytes: &mut Vec<u8>, digits: &[u8]) -> Result<(), Failure> {
    if digits.len() % 2 != 0 {
        return Err(Failure::Grammar);
    }
    'pairs: for index in 0..digits.len() / 2 {
        let pair = &digits[2 * index..2 * index + 2];
        let byte = hex_number(pair).and_then(|number| u8::try_from(number).ok());
        bytes.push(byte.ok_or(Failure::Grammar)?)?;
    }
    Ok(())
}

// Appends a string in quotes.
fn put_string(text: &mut Text, string: &str) -> Result<(), Failure>
    ensures { limit_of text.new ≡ limit_of text.old }
{
    text.put(b"\"")?;
    'characters: for character in string.chars() {
        put_escaped(text, character, '"')?;
    }
    text.put(b"\"")
}

// Appends a character of a literal in quotes, as Rust's `Debug` does for those of ASCII.
fn put_escaped(text: &mut Text, character: char, quote: char) -> Result<(), Failure>
    ensures { limit_of text.new ≡ limit_of text.old }
{
    match character {
        '\0' => text.put(b"\\0"),
        '\t' => text.put(b"\\t"),
        '\n' => text.put(b"\\n"),
        '\r' => text.put(b"\\r"),
        '\\' => text.put(b"\\\\"),
        '\u{1}'..='\u{f}' => put_code(text, b"\\u{", character as u32 as u8),
        '\u{10}'..='\u{1f}' => put_code(text, b"\\u{1", character as u32 as u8 - 16),
        _ if character == quote => {
            text.put(b"\\")?;
            text.put_char(character)
        }
        _ => text.put_char(character),
    }
}

// Appends the end of an escape: a hexadecimal digit and a brace.
fn put_code(text: &mut Text, start: &[u8], digit: u8) -> Result<(), Failure>
    ensures { limit_of text.new ≡ limit_of text.old }
{
    const DIGITS: &[u8; 16] = b"0123456789abcdef";
    text.put(start)?;
    text.put(&[DIGITS[(digit % 16) as usize], b'}'])
}
