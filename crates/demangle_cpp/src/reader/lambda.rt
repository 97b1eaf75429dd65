//! Lambdas with their template parameters.

use crate::node::Node;
use crate::reader::{Reader, Task, peek_second, read_compact_number};
use demangle_text::{Cursor, Failure};

// Returns whether a template parameter is declared here.
fn is_declaration(cursor: &Cursor<'_>) -> bool {
    cursor.peek() == Some(b'T') && matches!(peek_second(cursor), Some(b'y' | b'n' | b't' | b'p'))
}

impl Reader {
    // Reads a template parameter of a lambda, or makes a list of them and reads the parameters.
    pub(super) fn read_lambda_parameters(
        &mut self,
        mark: usize,
        cursor: &mut Cursor<'_>,
    ) -> Result<(), Failure> {
        if is_declaration(cursor) {
            self.then(Task::LambdaParameters { mark })?;
            return self.then(Task::TemplateParameter);
        }
        let list = self.take_list(mark)?;
        self.give(Node::Pack(list))?;
        let mark = self.values.len();
        self.then(Task::MakeLambda { mark })?;
        self.then(Task::Types { mark })
    }

    pub(super) fn make_lambda(
        &mut self,
        mark: usize,
        cursor: &mut Cursor<'_>,
    ) -> Result<(), Failure> {
        self.expect(b'E', cursor)?;
        let list = self.take_list(mark)?;
        let number = read_compact_number(cursor)?;
        let declared = self.take()?;
        let Node::Pack(declared) = self.arena.node(declared)? else {
            return Err(Failure::Grammar);
        };
        self.give(Node::Lambda(declared, list, number))
    }

    pub(super) fn read_template_parameter(
        &mut self,
        cursor: &mut Cursor<'_>,
    ) -> Result<(), Failure> {
        self.expect(b'T', cursor)?;
        match cursor.next_byte()? {
            b'y' => self.give(Node::TypeParameter),
            b'n' => {
                self.then(Task::MakeValueParameter)?;
                self.then_type()
            }
            b'p' => {
                self.then(Task::MakePackParameter)?;
                self.then(Task::TemplateParameter)
            }
            b't' => {
                let mark = self.values.len();
                self.then(Task::TemplateParameters { mark })
            }
            _ => Err(Failure::Grammar),
        }
    }

    pub(super) fn read_template_parameters(
        &mut self,
        mark: usize,
        cursor: &mut Cursor<'_>,
    ) -> Result<(), Failure> {
        if cursor.eat(b'E') {
            let list = self.take_list(mark)?;
            return self.give(Node::TemplateParameter(list));
        }
        self.then(Task::TemplateParameters { mark })?;
        self.then(Task::TemplateParameter)
    }
}
