//! Rust's names of today, v0.
//!
//! A name is written while it is read. What is still to be read is a stack of tasks, so the depth of a name
//! needs no recursion.
ghost use Rattle.std.specs.Prelude.{◌≡◌};
ghost use Rattle.demangle_text.specs.Text.{limit_of};

mod constants;
mod numbers;
mod paths;
mod punycode;
mod task;
mod traits;
mod types;

use crate::cursor::Cursor;
use crate::failure::Failure;
use crate::text::Text;
use crate::v0::numbers::{Identifier, base_62, tagged_62};
use crate::v0::task::{List, Task};
use std::alloc::Global;

// The greatest number of open tasks.
const MAX_TASKS: usize = 1024;

// The greatest number of steps, for each byte that the text may have.
const STEPS_PER_BYTE: usize = 16;

/// Demangles Rust's names of today. It keeps its memory from one name to the next.
#[derive(Drop)]
pub struct RustNames {
    tasks: Vec<Task>,
    // The characters of an identifier.
    characters: Vec<char>,
    // The bytes of a string constant.
    string: Vec<u8>,
    // The number of steps that are left.
    steps: usize,
    // Whether texts are not written.
    is_skipping: bool,
    // The number of lifetimes that are bound.
    lifetimes: u64,
    // Whether the generic arguments of the last trait of an object are still open.
    is_open: bool,
}

impl RustNames {
    ghost use Rattle.demangle_text.specs.RustNames.{IsUnused};

    /// Creates a demangler of Rust's names.
    pub fn new(alloc: Global) -> RustNames
        ensures { IsUnused result }
    {
        RustNames {
            tasks: Vec::new(alloc),
            characters: Vec::new(alloc),
            string: Vec::new(alloc),
            steps: 0,
            is_skipping: false,
            lifetimes: 0,
            is_open: false,
        }
    }

    /// Appends the text of a name to a text. `name` is what follows `_R`, without a suffix.
    ///
    /// Fails with [`Failure::Grammar`] if the name isn't in the grammar of RFC 2603 with the constants of
    /// later compilers, with [`Failure::Limit`] if it exceeds a limit, and with [`Failure::Memory`] if memory
    /// runs out. Then the text may have a part of the name's text.
    pub fn demangle(&mut self, name: &[u8], text: &mut Text) -> Result<(), Failure>
        ensures { limit_of text.new ≡ limit_of text.old }
    {
        if !name.iter().all(|byte| is_name_byte(*byte)) {
            return Err(Failure::Grammar);
        }
        self.start(text.limit());
        let mut cursor = Cursor::new(name);
        self.read(Task::Path { in_value: true }, &mut cursor, text)?;
        if !cursor.is_at_end() {
            // The crate that instantiates the item.
            self.is_skipping = true;
            self.read(Task::Path { in_value: false }, &mut cursor, text)?;
        }
        if cursor.is_at_end() {
            Ok(())
        } else {
            Err(Failure::Grammar)
        }
    }

    // Starts a name.
    fn start(&mut self, limit: usize) {
        self.tasks.clear();
        self.steps = limit.saturating_mul(STEPS_PER_BYTE);
        self.is_skipping = false;
        self.lifetimes = 0;
        self.is_open = false;
    }

    // Does a task and all that it leads to.
    fn read(&mut self, task: Task, cursor: &mut Cursor<'_>, text: &mut Text) -> Result<(), Failure>
        ensures { limit_of text.new ≡ limit_of text.old }
    {
        self.push(task)?;
        'tasks: for _ in 0..u64::MAX {
            let Some(task) = self.tasks.pop() else {
                return Ok(());
            };
            self.steps = self.steps.checked_sub(1).ok_or(Failure::Limit)?;
            self.step(task, cursor, text)?;
        }
        Err(Failure::Limit)
    }

    // Does a task, up to those that it adds.
    fn step(&mut self, task: Task, cursor: &mut Cursor<'_>, text: &mut Text) -> Result<(), Failure>
        ensures { limit_of text.new ≡ limit_of text.old }
    {
        match task {
            Task::Path { in_value } => self.path(in_value, cursor, text),
            Task::Name { namespace } => self.name(namespace, cursor, text),
            Task::Arguments { in_value } => self.arguments(in_value, text),
            Task::TraitArguments => self.trait_arguments(text),
            Task::SelfType { has_trait } => self.self_type(has_trait, text),
            Task::ImplTrait => self.impl_trait(text),
            Task::Argument => self.argument(cursor, text),
            Task::Type => self.read_type(cursor, text),
            Task::ArrayLength => self.array_length(text),
            Task::Trait => self.read_trait(),
            Task::TraitPath => self.trait_path(cursor),
            Task::FirstBinding => self.first_binding(cursor, text),
            Task::NextBinding => self.next_binding(cursor, text),
            Task::ObjectLifetime { lifetimes } => self.object_lifetime(lifetimes, cursor, text),
            Task::Constant { in_value } => self.constant(in_value, cursor, text),
            Task::Variant => self.variant(cursor, text),
            Task::Field => self.field(cursor, text),
            Task::Items { list, count } => self.items(list, count, cursor, text),
            Task::Write(byte) => self.write(text, &[byte]),
            Task::CloseArguments | Task::Return { .. } | Task::Skip { .. } | Task::Unbind { .. } =>
                {
                    self.restore(task, cursor);
                    Ok(())
                }
        }
    }

    // Restores what a task says.
    fn restore(&mut self, task: Task, cursor: &mut Cursor<'_>) {
        match task {
            Task::CloseArguments => self.is_open = false,
            Task::Return { position } => cursor.set_position(position),
            Task::Skip { is_skipping } => self.is_skipping = is_skipping,
            Task::Unbind { lifetimes } => self.lifetimes = lifetimes,
            _ => {}
        }
    }

    // Adds a task, which is done next.
    fn push(&mut self, task: Task) -> Result<(), Failure> {
        if self.tasks.len() >= MAX_TASKS {
            return Err(Failure::Limit);
        }
        self.tasks.push(task)?;
        Ok(())
    }

    // Adds two tasks. The second one is done next.
    fn push_two(&mut self, later: Task, next: Task) -> Result<(), Failure> {
        self.push(later)?;
        self.push(next)
    }

    // Writes bytes, unless texts are skipped.
    fn write(&self, text: &mut Text, bytes: &[u8]) -> Result<(), Failure>
        ensures { limit_of text.new ≡ limit_of text.old }
    {
        if self.is_skipping {
            return Ok(());
        }
        text.put(bytes)
    }

    // Writes a number, unless texts are skipped.
    fn write_number(&self, text: &mut Text, number: u64) -> Result<(), Failure>
        ensures { limit_of text.new ≡ limit_of text.old }
    {
        if self.is_skipping {
            return Ok(());
        }
        text.put_number(number)
    }

    // Writes an identifier, unless texts are skipped.
    fn write_identifier(
        &mut self,
        text: &mut Text,
        identifier: Identifier<'_>,
    ) -> Result<(), Failure>
        ensures { limit_of text.new ≡ limit_of text.old }
    {
        if self.is_skipping || identifier.punycode.is_empty() {
            return self.write(text, identifier.ascii);
        }
        punycode::decode(identifier, &mut self.characters, &mut self.steps)?;
        put_characters(text, &self.characters)
    }

    // Reads a back reference, and continues with a task at its position. Where texts are skipped, it is not
    // followed.
    fn refer(&mut self, task: Task, cursor: &mut Cursor<'_>) -> Result<(), Failure> {
        let tag = cursor.position().saturating_sub(1) as u64;
        let position = base_62(cursor)?;
        if position >= tag {
            return Err(Failure::Grammar);
        }
        if self.is_skipping {
            self.is_open = false;
            return Ok(());
        }
        self.push_two(
            Task::Return {
                position: cursor.position(),
            },
            task,
        )?;
        cursor.set_position(position as usize);
        Ok(())
    }

    // Reads the end of a list, or the next item.
    fn items(
        &mut self,
        list: List,
        count: u8,
        cursor: &mut Cursor<'_>,
        text: &mut Text,
    ) -> Result<(), Failure>
        ensures { limit_of text.new ≡ limit_of text.old }
    {
        if cursor.eat(b'E') {
            return self.end_of_list(list, count, cursor, text);
        }
        if count > 0 {
            self.write(text, list.separator())?;
        }
        let count = if count < 2 { count + 1 } else { 2 };
        self.push_two(Task::Items { list, count }, list.item())
    }

    // Adds the task that reads the items of a list.
    fn push_list(&mut self, list: List) -> Result<(), Failure> {
        self.push(Task::Items { list, count: 0 })
    }

    // Writes what is after the last item of a list.
    fn end_of_list(
        &mut self,
        list: List,
        count: u8,
        cursor: &mut Cursor<'_>,
        text: &mut Text,
    ) -> Result<(), Failure>
        ensures { limit_of text.new ≡ limit_of text.old }
    {
        match list {
            List::Arguments => self.write(text, b">"),
            List::TraitArguments => {
                self.is_open = true;
                Ok(())
            }
            List::Types | List::Values if count == 1 => self.write(text, b",)"),
            List::Types | List::Values | List::Fields => self.write(text, b")"),
            List::Parameters => self.result_type(cursor, text),
            List::Traits => Ok(()),
            List::Elements => self.write(text, b"]"),
            List::NamedFields => self.write(text, b" }"),
        }
    }

    // Reads the lifetimes that a function pointer or a trait object binds.
    fn binder(&mut self, cursor: &mut Cursor<'_>, text: &mut Text) -> Result<(), Failure>
        ensures { limit_of text.new ≡ limit_of text.old }
    {
        let count = tagged_62(cursor, b'G')?;
        if count == 0 || self.is_skipping {
            return Ok(());
        }
        text.put(b"for<")?;
        self.bind(count, text)?;
        text.put(b"> ")
    }

    // Binds lifetimes and writes them.
    fn bind(&mut self, count: u64, text: &mut Text) -> Result<(), Failure>
        ensures { limit_of text.new ≡ limit_of text.old }
    {
        'bound: for index in 0..count {
            if index > 0 {
                text.put(b", ")?;
            }
            self.lifetimes = self.lifetimes.saturating_add(1);
            self.lifetime(1, text)?;
        }
        Ok(())
    }

    // Writes a lifetime: 0 is none, 1 the one that was bound last.
    fn lifetime(&mut self, index: u64, text: &mut Text) -> Result<(), Failure>
        ensures { limit_of text.new ≡ limit_of text.old }
    {
        if self.is_skipping {
            return Ok(());
        }
        if index == 0 {
            return text.put(b"'_");
        }
        let depth = self.lifetimes.checked_sub(index).ok_or(Failure::Grammar)?;
        if depth < 26 {
            return text.put(&[b'\'', b'a' + depth as u8]);
        }
        text.put(b"'_")?;
        text.put_number(depth)
    }
}

// Returns whether a v0 name may contain a byte.
fn is_name_byte(byte: u8) -> bool {
    byte.is_ascii_alphanumeric() || byte == b'_'
}

// Appends characters to a text.
fn put_characters(text: &mut Text, characters: &[char]) -> Result<(), Failure>
    ensures { limit_of text.new ≡ limit_of text.old }
{
    'characters: for character in characters {
        text.put_char(*character)?;
    }
    Ok(())
}
