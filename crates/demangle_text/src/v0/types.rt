//! Types.
ghost use Rattle.std.specs.Prelude.{◌≡◌};
ghost use Rattle.demangle_text.specs.Text.{limit_of};

use crate::cursor::Cursor;
use crate::failure::Failure;
use crate::text::Text;
use crate::v0::RustNames;
use crate::v0::numbers::{base_62, read_identifier};
use crate::v0::task::{List, Task};

// Returns the name of a basic type.
fn basic_type(tag: u8) -> Option<&'static [u8]> {
    Some(match tag {
        b'a' => b"i8",
        b'b' => b"bool",
        b'c' => b"char",
        b'd' => b"f64",
        b'e' => b"str",
        b'f' => b"f32",
        b'h' => b"u8",
        b'i' => b"isize",
        b'j' => b"usize",
        b'l' => b"i32",
        b'm' => b"u32",
        b'n' => b"i128",
        b'o' => b"u128",
        b'p' => b"_",
        b's' => b"i16",
        b't' => b"u16",
        b'u' => b"()",
        b'v' => b"...",
        b'x' => b"i64",
        b'y' => b"u64",
        b'z' => b"!",
        _ => return None,
    })
}

impl RustNames {
    // Reads a type.
    pub(super) fn read_type(
        &mut self,
        cursor: &mut Cursor<'_>,
        text: &mut Text,
    ) -> Result<(), Failure>
        ensures { limit_of text.new ≡ limit_of text.old }
    {
        let start = cursor.position();
        let tag = cursor.next_byte()?;
        if let Some(name) = basic_type(tag) {
            return self.write(text, name);
        }
        match tag {
            b'R' => self.reference(b"", cursor, text),
            b'Q' => self.reference(b"mut ", cursor, text),
            b'P' => self.pointer(b"*const ", text),
            b'O' => self.pointer(b"*mut ", text),
            b'A' => self.slice(true, text),
            b'S' => self.slice(false, text),
            b'T' => self.tuple(text),
            b'F' => self.function(cursor, text),
            b'D' => self.object(cursor, text),
            b'B' => self.refer(Task::Type, cursor),
            _ => {
                // The byte is the first one of a path.
                cursor.set_position(start);
                self.push(Task::Path { in_value: false })
            }
        }
    }

    // Reads the lifetime of a reference, whose type follows.
    fn reference(
        &mut self,
        mutability: &[u8],
        cursor: &mut Cursor<'_>,
        text: &mut Text,
    ) -> Result<(), Failure>
        ensures { limit_of text.new ≡ limit_of text.old }
    {
        self.write(text, b"&")?;
        if cursor.eat(b'L') {
            let index = base_62(cursor)?;
            if index > 0 {
                self.lifetime(index, text)?;
                self.write(text, b" ")?;
            }
        }
        self.write(text, mutability)?;
        self.push(Task::Type)
    }

    // Starts a pointer.
    fn pointer(&mut self, start: &[u8], text: &mut Text) -> Result<(), Failure>
        ensures { limit_of text.new ≡ limit_of text.old }
    {
        self.write(text, start)?;
        self.push(Task::Type)
    }

    // Starts an array or a slice.
    fn slice(&mut self, has_length: bool, text: &mut Text) -> Result<(), Failure>
        ensures { limit_of text.new ≡ limit_of text.old }
    {
        self.write(text, b"[")?;
        self.push(Task::Write(b']'))?;
        if has_length {
            self.push(Task::ArrayLength)?;
        }
        self.push(Task::Type)
    }

    // Starts the length of an array.
    pub(super) fn array_length(&mut self, text: &mut Text) -> Result<(), Failure>
        ensures { limit_of text.new ≡ limit_of text.old }
    {
        self.write(text, b"; ")?;
        self.push(Task::Constant { in_value: true })
    }

    // Starts a tuple.
    fn tuple(&mut self, text: &mut Text) -> Result<(), Failure>
        ensures { limit_of text.new ≡ limit_of text.old }
    {
        self.write(text, b"(")?;
        self.push_list(List::Types)
    }

    // Reads the beginning of a function pointer, up to its parameters.
    fn function(&mut self, cursor: &mut Cursor<'_>, text: &mut Text) -> Result<(), Failure>
        ensures { limit_of text.new ≡ limit_of text.old }
    {
        self.push(Task::Unbind {
            lifetimes: self.lifetimes,
        })?;
        self.binder(cursor, text)?;
        if cursor.eat(b'U') {
            self.write(text, b"unsafe ")?;
        }
        if cursor.eat(b'K') {
            self.write(text, b"extern \"")?;
            self.calling_convention(cursor, text)?;
            self.write(text, b"\" ")?;
        }
        self.write(text, b"fn(")?;
        self.push_list(List::Parameters)
    }

    // Reads the name of a calling convention, in which `_` is `-`.
    fn calling_convention(
        &mut self,
        cursor: &mut Cursor<'_>,
        text: &mut Text,
    ) -> Result<(), Failure>
        ensures { limit_of text.new ≡ limit_of text.old }
    {
        if cursor.eat(b'C') {
            return self.write(text, b"C");
        }
        let identifier = read_identifier(cursor)?;
        if identifier.ascii.is_empty() || !identifier.punycode.is_empty() {
            return Err(Failure::Grammar);
        }
        'bytes: for byte in identifier.ascii {
            let byte = if *byte == b'_' { b'-' } else { *byte };
            self.write(text, &[byte])?;
        }
        Ok(())
    }

    // Reads the result of a function pointer. `()` isn't written.
    pub(super) fn result_type(
        &mut self,
        cursor: &mut Cursor<'_>,
        text: &mut Text,
    ) -> Result<(), Failure>
        ensures { limit_of text.new ≡ limit_of text.old }
    {
        self.write(text, b")")?;
        if cursor.eat(b'u') {
            return Ok(());
        }
        self.write(text, b" -> ")?;
        self.push(Task::Type)
    }
}
