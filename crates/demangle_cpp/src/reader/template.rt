//! Template arguments, and the types of functions.

use crate::node::{ByteRange, Node, NodeId};
use crate::reader::{ListUse, Reader, Task, is_list_end, peek_second};
use demangle_text::{Cursor, Failure};

impl Reader {
    // Reads the arguments of the template that is the last value.
    pub(super) fn read_template_arguments(
        &mut self,
        cursor: &mut Cursor<'_>,
    ) -> Result<(), Failure> {
        self.expect(b'I', cursor)?;
        let mark = self.values.len();
        self.then(Task::Arguments {
            mark,
            list_use: ListUse::Template,
        })
    }

    pub(super) fn read_arguments(
        &mut self,
        mark: usize,
        list_use: ListUse,
        cursor: &mut Cursor<'_>,
    ) -> Result<(), Failure> {
        if !cursor.eat(b'E') {
            self.then(Task::Arguments { mark, list_use })?;
            return self.then(Task::Argument);
        }
        let list = self.take_list(mark)?;
        match list_use {
            ListUse::Pack => self.give(Node::Pack(list)),
            ListUse::Count => self.give(Node::SizeOfArguments(list)),
            ListUse::VendorCall => {
                let name = self.take()?;
                self.give(Node::VendorCall(name, list))
            }
            ListUse::Template => {
                let template = self.take()?;
                self.give(Node::Template(template, list))
            }
        }
    }

    pub(super) fn read_argument(&mut self, cursor: &mut Cursor<'_>) -> Result<(), Failure> {
        match cursor.peek() {
            Some(b'L') => self.read_literal(cursor),
            Some(b'T') if peek_second(cursor) == Some(b'n') => {
                cursor.take(2)?;
                self.then(Task::Argument)?;
                self.then(Task::DropValue)?;
                self.then_type()
            }
            Some(b'X') => {
                self.expect(b'X', cursor)?;
                self.then(Task::End)?;
                self.then(Task::Expression)
            }
            Some(b'J') => {
                self.expect(b'J', cursor)?;
                let mark = self.values.len();
                self.then(Task::Arguments {
                    mark,
                    list_use: ListUse::Pack,
                })
            }
            _ => self.then(Task::Type {
                is_conversion: false,
            }),
        }
    }

    // Reads a literal: the name of an entity, or a type and a value.
    pub(super) fn read_literal(&mut self, cursor: &mut Cursor<'_>) -> Result<(), Failure> {
        self.expect(b'L', cursor)?;
        if !matches!(cursor.peek(), Some(b'_' | b'Z')) {
            self.then(Task::LiteralValue)?;
            return self.then(Task::Type {
                is_conversion: false,
            });
        }
        cursor.eat(b'_');
        self.expect(b'Z', cursor)?;
        self.then(Task::End)?;
        self.then(Task::Encoding)
    }

    pub(super) fn read_literal_value(&mut self, cursor: &mut Cursor<'_>) -> Result<(), Failure> {
        let of_type = self.take()?;
        if self.is_null_pointer(of_type)? && cursor.eat(b'E') {
            return self.give_id(of_type);
        }
        let is_negative = cursor.eat(b'n');
        let start = cursor.position();
        let mut end = start;
        for _ in 0..u64::MAX {
            if cursor.eat(b'E') {
                break;
            }
            let byte = cursor.next_byte()?;
            if !byte.is_ascii_alphanumeric() && byte != b'_' {
                return Err(Failure::Grammar);
            }
            end = cursor.position();
        }
        if start == end {
            return Err(Failure::Grammar);
        }
        self.give(Node::Literal(of_type, ByteRange { start, end }, is_negative))
    }

    fn is_null_pointer(&self, id: NodeId) -> Result<bool, Failure> {
        match self.arena.node(id)? {
            Node::Builtin(text, _) => Ok(text == "decltype(nullptr)"),
            _ => Ok(false),
        }
    }

    // Reads the type of a function after its name: none, parameters, or a result and parameters.
    pub(super) fn read_encoding_type(&mut self, cursor: &mut Cursor<'_>) -> Result<(), Failure> {
        if is_list_end(cursor) {
            return Ok(());
        }
        if cursor.peek() == Some(b'U') && peek_second(cursor) == Some(b'a') {
            return self.read_attribute(cursor);
        }
        let name = self.last()?;
        let has_result = self.has_result(name)?;
        let mark = self.values.len();
        self.then(Task::MakeEncoding { mark, has_result })?;
        let first = mark.saturating_add(has_result as usize);
        self.then(Task::Types { mark: first })?;
        if has_result {
            self.then(Task::Type {
                is_conversion: false,
            })?;
        }
        Ok(())
    }

    // Reads an attribute of a function, which isn't written.
    fn read_attribute(&mut self, cursor: &mut Cursor<'_>) -> Result<(), Failure> {
        cursor.take(2)?;
        self.then(Task::EncodingType)?;
        self.then(Task::DropValue)?;
        self.read_source_name(cursor)?;
        self.read_template_arguments(cursor)
    }

    pub(super) fn make_encoding(&mut self, mark: usize, has_result: bool) -> Result<(), Failure> {
        let first = mark.saturating_add(has_result as usize);
        let parameters = self.take_list(first)?;
        if parameters.start >= parameters.end {
            return Err(Failure::Grammar);
        }
        let mut result = None;
        if has_result {
            result = Some(self.take()?);
        }
        let name = self.take()?;
        self.give(Node::Encoding(name, result, parameters))
    }

    // Returns whether the type of a function with this name starts with its result.
    fn has_result(&self, name: NodeId) -> Result<bool, Failure> {
        let mut id = name;
        for _ in 0..u64::MAX {
            id = match self.arena.node(id)? {
                Node::FunctionQualifier(inner, _) => inner,
                Node::Local(_, entity) => entity,
                Node::DefaultArgument(_, entity) => entity,
                Node::Template(template, _) => return self.is_plain_function(template),
                _ => return Ok(false),
            };
        }
        Ok(false)
    }

    // Returns whether a template is no constructor, destructor or conversion operator.
    fn is_plain_function(&self, template: NodeId) -> Result<bool, Failure> {
        let mut id = template;
        for _ in 0..u64::MAX {
            id = match self.arena.node(id)? {
                Node::Qualified(_, name) => name,
                Node::Local(_, entity) => entity,
                Node::Tagged(name, _) => name,
                Node::Constructor(_) | Node::Destructor(_) | Node::Conversion(_) => return Ok(
                    false,
                ),
                _ => return Ok(true),
            };
        }
        Ok(true)
    }
}
