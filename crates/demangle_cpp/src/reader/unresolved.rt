//! Names in scopes that depend on template parameters.

use crate::reader::{Reader, Task};
use demangle_text::{Cursor, Failure};

impl Reader {
    // Reads a scope and a name in it. Whether the scope is a type depends on the compiler.
    pub(super) fn read_unresolved_name(&mut self, cursor: &mut Cursor<'_>) -> Result<(), Failure> {
        match cursor.peek() {
            Some(b'N') => {
                self.is_ambiguous = true;
                if !self.scope_types.is_nested_a_type {
                    return self.read_nested_scope(cursor);
                }
            }
            Some(b'0'..=b'9') => {
                self.is_ambiguous = true;
                if !self.scope_types.is_simple_a_type {
                    self.then(Task::ScopeParts { is_nested: false })?;
                    return self.read_simple_name(cursor);
                }
            }
            _ => (),
        }
        self.then(Task::ScopedName)?;
        self.then_type()
    }

    // Reads a nested scope that is no type.
    fn read_nested_scope(&mut self, cursor: &mut Cursor<'_>) -> Result<(), Failure> {
        self.expect(b'N', cursor)?;
        self.then(Task::ScopeParts { is_nested: true })?;
        if matches!(cursor.peek(), Some(b'0'..=b'9')) {
            return self.read_simple_name(cursor);
        }
        self.then_type()
    }

    // Reads a part of a scope, or its end and a name in it.
    pub(super) fn read_scope_parts(
        &mut self,
        is_nested: bool,
        cursor: &mut Cursor<'_>,
    ) -> Result<(), Failure> {
        if cursor.eat(b'E') {
            self.then(Task::NameArguments {
                is_substitution: true,
            })?;
            self.then(Task::Qualify)?;
            self.read_operator_mark(cursor)?;
            return self.then(Task::Unqualified);
        }
        self.then(Task::ScopeParts { is_nested })?;
        self.then(Task::Qualify)?;
        self.read_simple_name(cursor)
    }

    // Reads a name, in the scope that is the last value.
    pub(super) fn read_scoped_name(&mut self, cursor: &mut Cursor<'_>) -> Result<(), Failure> {
        self.then(Task::Qualify)?;
        self.read_operator_mark(cursor)?;
        self.read_simple_name(cursor)
    }

    // Moves over the letters before the name of an operator.
    fn read_operator_mark(&mut self, cursor: &mut Cursor<'_>) -> Result<(), Failure> {
        if cursor.eat(b'o') {
            return self.expect(b'n', cursor);
        }
        Ok(())
    }
}
