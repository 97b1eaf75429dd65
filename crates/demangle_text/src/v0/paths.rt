//! Paths.
ghost use Rattle.std.specs.Prelude.{◌≡◌};
ghost use Rattle.demangle_text.specs.Text.{limit_of};

use crate::cursor::Cursor;
use crate::failure::Failure;
use crate::text::Text;
use crate::v0::RustNames;
use crate::v0::numbers::{base_62, disambiguator, read_identifier};
use crate::v0::task::{List, Task};

impl RustNames {
    // Reads a path.
    pub(super) fn path(
        &mut self,
        in_value: bool,
        cursor: &mut Cursor<'_>,
        text: &mut Text,
    ) -> Result<(), Failure>
        ensures { limit_of text.new ≡ limit_of text.old }
    {
        match cursor.next_byte()? {
            b'C' => self.crate_name(cursor, text),
            b'N' => self.item(in_value, cursor),
            b'M' => self.impl_path(false, cursor),
            b'X' => self.impl_path(true, cursor),
            b'Y' => self.self_type(true, text),
            b'I' => self.push_two(Task::Arguments { in_value }, Task::Path { in_value }),
            b'B' => self.refer(Task::Path { in_value }, cursor),
            _ => Err(Failure::Grammar),
        }
    }

    // Reads the name of a crate.
    fn crate_name(&mut self, cursor: &mut Cursor<'_>, text: &mut Text) -> Result<(), Failure>
        ensures { limit_of text.new ≡ limit_of text.old }
    {
        disambiguator(cursor)?;
        let identifier = read_identifier(cursor)?;
        self.write_identifier(text, identifier)
    }

    // Reads the namespace of an item. Its path and its name follow.
    fn item(&mut self, in_value: bool, cursor: &mut Cursor<'_>) -> Result<(), Failure> {
        let namespace = cursor.next_byte()?;
        if !namespace.is_ascii_alphabetic() {
            return Err(Failure::Grammar);
        }
        self.push_two(Task::Name { namespace }, Task::Path { in_value })
    }

    // Reads the name of an item in a namespace. Those of closures and of what the compiler makes are
    // uppercase.
    pub(super) fn name(
        &mut self,
        namespace: u8,
        cursor: &mut Cursor<'_>,
        text: &mut Text,
    ) -> Result<(), Failure>
        ensures { limit_of text.new ≡ limit_of text.old }
    {
        let number = disambiguator(cursor)?;
        let identifier = read_identifier(cursor)?;
        if namespace.is_ascii_lowercase() {
            if identifier.is_empty() {
                return Ok(());
            }
            self.write(text, b"::")?;
            return self.write_identifier(text, identifier);
        }
        self.write(text, b"::{")?;
        match namespace {
            b'C' => self.write(text, b"closure")?,
            b'S' => self.write(text, b"shim")?,
            _ => self.write(text, &[namespace])?,
        }
        if !identifier.is_empty() {
            self.write(text, b":")?;
            self.write_identifier(text, identifier)?;
        }
        self.write(text, b"#")?;
        self.write_number(text, number)?;
        self.write(text, b"}")
    }

    // Starts an `impl`, whose own path isn't written.
    fn impl_path(&mut self, has_trait: bool, cursor: &mut Cursor<'_>) -> Result<(), Failure> {
        disambiguator(cursor)?;
        self.push_two(
            Task::SelfType { has_trait },
            Task::Skip {
                is_skipping: self.is_skipping,
            },
        )?;
        self.is_skipping = true;
        self.push(Task::Path { in_value: false })
    }

    // Starts the type of an `impl`, and its trait.
    pub(super) fn self_type(&mut self, has_trait: bool, text: &mut Text) -> Result<(), Failure>
        ensures { limit_of text.new ≡ limit_of text.old }
    {
        self.write(text, b"<")?;
        self.push(Task::Write(b'>'))?;
        if has_trait {
            self.push(Task::ImplTrait)?;
        }
        self.push(Task::Type)
    }

    // Starts the trait of an `impl`.
    pub(super) fn impl_trait(&mut self, text: &mut Text) -> Result<(), Failure>
        ensures { limit_of text.new ≡ limit_of text.old }
    {
        self.write(text, b" as ")?;
        self.push(Task::Path { in_value: false })
    }

    // Starts the generic arguments of a path.
    pub(super) fn arguments(&mut self, in_value: bool, text: &mut Text) -> Result<(), Failure>
        ensures { limit_of text.new ≡ limit_of text.old }
    {
        if in_value {
            self.write(text, b"::")?;
        }
        self.write(text, b"<")?;
        self.push_list(List::Arguments)
    }

    // Reads a generic argument: a lifetime, a constant or a type.
    pub(super) fn argument(
        &mut self,
        cursor: &mut Cursor<'_>,
        text: &mut Text,
    ) -> Result<(), Failure>
        ensures { limit_of text.new ≡ limit_of text.old }
    {
        if cursor.eat(b'L') {
            let index = base_62(cursor)?;
            return self.lifetime(index, text);
        }
        if cursor.eat(b'K') {
            return self.push(Task::Constant { in_value: false });
        }
        self.push(Task::Type)
    }
}
