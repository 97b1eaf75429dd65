//! Trait objects.
ghost use Rattle.std.specs.Prelude.{◌≡◌};
ghost use Rattle.demangle_text.specs.Text.{limit_of};

use crate::cursor::Cursor;
use crate::failure::Failure;
use crate::text::Text;
use crate::v0::RustNames;
use crate::v0::numbers::{base_62, read_identifier};
use crate::v0::task::{List, Task};

impl RustNames {
    // Reads the beginning of a trait object, up to its traits.
    pub(super) fn object(&mut self, cursor: &mut Cursor<'_>, text: &mut Text) -> Result<(), Failure>
        ensures { limit_of text.new ≡ limit_of text.old }
    {
        self.write(text, b"dyn ")?;
        self.push(Task::ObjectLifetime {
            lifetimes: self.lifetimes,
        })?;
        self.binder(cursor, text)?;
        self.push_list(List::Traits)
    }

    // Reads the lifetime of a trait object. The lifetimes that the object binds aren't bound there.
    pub(super) fn object_lifetime(
        &mut self,
        lifetimes: u64,
        cursor: &mut Cursor<'_>,
        text: &mut Text,
    ) -> Result<(), Failure>
        ensures { limit_of text.new ≡ limit_of text.old }
    {
        self.lifetimes = lifetimes;
        if !cursor.eat(b'L') {
            return Err(Failure::Grammar);
        }
        let index = base_62(cursor)?;
        if index == 0 {
            return Ok(());
        }
        self.write(text, b" + ")?;
        self.lifetime(index, text)
    }

    // Starts a trait of an object.
    pub(super) fn read_trait(&mut self) -> Result<(), Failure> {
        self.push_two(Task::FirstBinding, Task::TraitPath)
    }

    // Reads the beginning of the path of a trait. Its generic arguments stay open for bindings.
    pub(super) fn trait_path(&mut self, cursor: &mut Cursor<'_>) -> Result<(), Failure> {
        if cursor.eat(b'B') {
            return self.refer(Task::TraitPath, cursor);
        }
        if cursor.eat(b'I') {
            return self.push_two(Task::TraitArguments, Task::Path { in_value: false });
        }
        self.push_two(Task::CloseArguments, Task::Path { in_value: false })
    }

    // Starts the generic arguments of a trait.
    pub(super) fn trait_arguments(&mut self, text: &mut Text) -> Result<(), Failure>
        ensures { limit_of text.new ≡ limit_of text.old }
    {
        self.write(text, b"<")?;
        self.push_list(List::TraitArguments)
    }

    // Reads the first binding of a trait, if there is one.
    pub(super) fn first_binding(
        &mut self,
        cursor: &mut Cursor<'_>,
        text: &mut Text,
    ) -> Result<(), Failure>
        ensures { limit_of text.new ≡ limit_of text.old }
    {
        if cursor.eat(b'p') {
            let start: &[u8] = if self.is_open { b", " } else { b"<" };
            return self.binding(start, cursor, text);
        }
        if self.is_open {
            self.write(text, b">")?;
        }
        Ok(())
    }

    // Reads another binding, or ends the arguments.
    pub(super) fn next_binding(
        &mut self,
        cursor: &mut Cursor<'_>,
        text: &mut Text,
    ) -> Result<(), Failure>
        ensures { limit_of text.new ≡ limit_of text.old }
    {
        if cursor.eat(b'p') {
            return self.binding(b", ", cursor, text);
        }
        self.write(text, b">")
    }

    // Reads the name of a binding, whose type follows.
    fn binding(
        &mut self,
        start: &[u8],
        cursor: &mut Cursor<'_>,
        text: &mut Text,
    ) -> Result<(), Failure>
        ensures { limit_of text.new ≡ limit_of text.old }
    {
        self.write(text, start)?;
        let identifier = read_identifier(cursor)?;
        self.write_identifier(text, identifier)?;
        self.write(text, b" = ")?;
        self.push_two(Task::NextBinding, Task::Type)
    }
}
