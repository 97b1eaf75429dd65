//! Names: nested, local and unqualified ones.

use crate::node::{ByteRange, Node, NodeId, Qualifier};
use crate::reader::{
    Reader, Task, peek_second, read_compact_number, read_discriminator, read_sequence,
};
use crate::tables::{operator_text, standard_class};
use demangle_text::{Cursor, Failure};

// Returns whether an identifier is that of an anonymous namespace.
fn is_anonymous(bytes: &[u8]) -> bool {
    bytes.starts_with(b"_GLOBAL_")
        && matches!(bytes.get(8), Some(b'.' | b'_' | b'$'))
        && bytes.get(9) == Some(&b'N')
}

// Reads the length of an identifier, and its bytes.
fn read_identifier(cursor: &mut Cursor<'_>) -> Result<ByteRange, Failure> {
    let length = cursor.number()?;
    let start = cursor.position();
    if length == 0 {
        return Err(Failure::Grammar);
    }
    cursor.take(length)?;
    let end = cursor.position();
    Ok(ByteRange { start, end })
}

impl Reader {
    // Reads the name of a function or object, and then its type.
    pub(super) fn read_encoding(&mut self, cursor: &mut Cursor<'_>) -> Result<(), Failure> {
        if matches!(cursor.peek(), Some(b'T' | b'G')) {
            return self.read_special(cursor);
        }
        self.then(Task::EncodingType)?;
        self.then(Task::Name)
    }

    pub(super) fn read_name(&mut self, cursor: &mut Cursor<'_>) -> Result<(), Failure> {
        match cursor.peek() {
            Some(b'N') => self.read_nested_name(cursor),
            Some(b'Z') => {
                self.expect(b'Z', cursor)?;
                self.then(Task::LocalEntity)?;
                self.then(Task::Encoding)
            }
            Some(b'S') => self.read_standard_name(cursor),
            _ => {
                self.then(Task::NameArguments {
                    is_substitution: false,
                })?;
                self.then(Task::Unqualified)
            }
        }
    }

    // Reads a name of the namespace `std`, or a substitution.
    fn read_standard_name(&mut self, cursor: &mut Cursor<'_>) -> Result<(), Failure> {
        if peek_second(cursor) != Some(b't') {
            self.then(Task::NameArguments {
                is_substitution: true,
            })?;
            self.read_substitution(false, cursor)?;
            if !matches!(cursor.peek(), Some(b'I' | b'B')) {
                return Err(Failure::Grammar);
            }
            return Ok(());
        }
        cursor.take(2)?;
        self.give(Node::Word("std"))?;
        self.then(Task::NameArguments {
            is_substitution: false,
        })?;
        self.then(Task::Qualify)?;
        self.then(Task::Unqualified)
    }

    pub(super) fn read_name_arguments(
        &mut self,
        is_substitution: bool,
        cursor: &mut Cursor<'_>,
    ) -> Result<(), Failure> {
        if cursor.peek() != Some(b'I') {
            return Ok(());
        }
        if !is_substitution {
            self.substitute()?;
        }
        self.read_template_arguments(cursor)
    }

    // Reads a substitution, or the abbreviation of a class of the standard library.
    pub(super) fn read_substitution(
        &mut self,
        is_prefix: bool,
        cursor: &mut Cursor<'_>,
    ) -> Result<(), Failure> {
        self.expect(b'S', cursor)?;
        let Some(b'a'..=b'z') = cursor.peek() else {
            let index = read_sequence(cursor)?;
            let id = self.substitutions.get(index).copied();
            return self.give_id(id.ok_or(Failure::Grammar)?);
        };
        let letter = cursor.next_byte()?;
        if letter == b't' && is_prefix {
            return self.give(Node::Word("std"));
        }
        let is_full = is_prefix && matches!(cursor.peek(), Some(b'C' | b'D'));
        let class = standard_class(letter, is_full).ok_or(Failure::Grammar)?;
        self.give(class)?;
        if cursor.peek() == Some(b'B') {
            self.then(Task::Substitute)?;
            self.then(Task::Tags)?;
        }
        Ok(())
    }

    // Reads the qualifiers of a member function, which precede its nested name.
    fn read_nested_name(&mut self, cursor: &mut Cursor<'_>) -> Result<(), Failure> {
        self.expect(b'N', cursor)?;
        let is_restrict = cursor.eat(b'r');
        let is_volatile = cursor.eat(b'V');
        let is_const = cursor.eat(b'K');
        if cursor.eat(b'R') {
            self.then(Task::QualifyFunction(Qualifier::Reference))?;
        } else if cursor.eat(b'O') {
            self.then(Task::QualifyFunction(Qualifier::RvalueReference))?;
        }
        if is_restrict {
            self.then(Task::QualifyFunction(Qualifier::Restrict))?;
        }
        if is_volatile {
            self.then(Task::QualifyFunction(Qualifier::Volatile))?;
        }
        if is_const {
            self.then(Task::QualifyFunction(Qualifier::Const))?;
        }
        self.then(Task::Prefix {
            has_start: false,
            is_new: false,
        })
    }

    pub(super) fn qualify_function(&mut self, qualifier: Qualifier) -> Result<(), Failure> {
        let name = self.take()?;
        self.give(Node::FunctionQualifier(name, qualifier))
    }

    pub(super) fn read_prefix(
        &mut self,
        has_start: bool,
        is_new: bool,
        cursor: &mut Cursor<'_>,
    ) -> Result<(), Failure> {
        let next = cursor.peek();
        if next == Some(b'E') && is_new {
            return self.expect(b'E', cursor);
        }
        if is_new {
            self.substitute()?;
        }
        match (next, has_start) {
            (Some(b'S'), false) => self.start_with_substitution(cursor),
            (Some(b'T'), false) => {
                self.then_prefix(true)?;
                self.read_parameter(cursor)
            }
            (Some(b'D'), false) if matches!(peek_second(cursor), Some(b't' | b'T')) => {
                cursor.take(2)?;
                self.then_prefix(true)?;
                self.then_decltype()
            }
            (Some(b'I'), true) => self.read_prefix_arguments(cursor),
            (Some(b'M'), true) => {
                self.expect(b'M', cursor)?;
                self.then_prefix(false)
            }
            (_, true) => {
                self.then_prefix(true)?;
                self.then(Task::Qualify)?;
                self.then(Task::Unqualified)
            }
            (_, false) => {
                self.then_prefix(true)?;
                self.then(Task::Unqualified)
            }
        }
    }

    // Reads the template arguments of a part of a nested name.
    fn read_prefix_arguments(&mut self, cursor: &mut Cursor<'_>) -> Result<(), Failure> {
        let template = self.last()?;
        if matches!(self.arena.node(template)?, Node::Template(..)) {
            return Err(Failure::Grammar);
        }
        self.then_prefix(true)?;
        self.read_template_arguments(cursor)
    }

    fn start_with_substitution(&mut self, cursor: &mut Cursor<'_>) -> Result<(), Failure> {
        self.then_prefix(false)?;
        self.read_substitution(true, cursor)
    }

    fn then_prefix(&mut self, is_new: bool) -> Result<(), Failure> {
        self.then(Task::Prefix {
            has_start: true,
            is_new,
        })
    }

    pub(super) fn qualify(&mut self) -> Result<(), Failure> {
        let name = self.take()?;
        let scope = self.take()?;
        self.give(Node::Qualified(scope, name))
    }

    pub(super) fn read_unqualified(&mut self, cursor: &mut Cursor<'_>) -> Result<(), Failure> {
        self.then(Task::Tags)?;
        match cursor.peek() {
            Some(b'0'..=b'9') => self.read_source_name(cursor),
            Some(b'a'..=b'z') => self.read_operator_name(cursor),
            Some(b'C') => self.read_constructor(cursor),
            Some(b'D') => self.read_destructor(cursor),
            Some(b'U') => self.read_unnamed(cursor),
            Some(b'L') => {
                self.expect(b'L', cursor)?;
                self.read_source_name(cursor)?;
                read_discriminator(cursor)
            }
            _ => Err(Failure::Grammar),
        }
    }

    pub(super) fn read_source_name(&mut self, cursor: &mut Cursor<'_>) -> Result<(), Failure> {
        let range = read_identifier(cursor)?;
        if is_anonymous(self.arena.bytes(range)) {
            return self.give(Node::Word("(anonymous namespace)"));
        }
        self.give(Node::Name(range))
    }

    pub(super) fn read_tags(&mut self, cursor: &mut Cursor<'_>) -> Result<(), Failure> {
        for _ in 0..u64::MAX {
            if !cursor.eat(b'B') {
                break;
            }
            let tag = read_identifier(cursor)?;
            let name = self.take()?;
            self.give(Node::Tagged(name, tag))?;
        }
        Ok(())
    }

    fn read_operator_name(&mut self, cursor: &mut Cursor<'_>) -> Result<(), Failure> {
        let first = cursor.next_byte()?;
        let second = cursor.next_byte()?;
        match (first, second) {
            (b'c', b'v') => {
                self.then(Task::MakeConversion)?;
                self.then(Task::Type {
                    is_conversion: true,
                })
            }
            (b'l', b'i') => {
                self.read_source_name(cursor)?;
                let name = self.take()?;
                self.give(Node::LiteralOperator(name))
            }
            (b'v', b'0'..=b'9') => {
                self.read_source_name(cursor)?;
                let name = self.take()?;
                self.give(Node::VendorOperator(name))
            }
            _ => {
                let text = operator_text(first, second).ok_or(Failure::Grammar)?;
                self.give(Node::Operator(text))
            }
        }
    }

    // Returns the class of a constructor or destructor.
    fn class(&self) -> Result<NodeId, Failure> {
        let class = self.last()?;
        match self.arena.node(class)? {
            Node::Word(_) => Err(Failure::Grammar),
            _ => Ok(class),
        }
    }

    fn read_constructor(&mut self, cursor: &mut Cursor<'_>) -> Result<(), Failure> {
        let class = self.class()?;
        self.expect(b'C', cursor)?;
        let is_inherited = cursor.eat(b'I');
        let b'1'..=b'5' = cursor.next_byte()? else {
            return Err(Failure::Grammar);
        };
        if is_inherited {
            return self.then_inherited();
        }
        self.give(Node::Constructor(class))
    }

    // Reads the class that a constructor is inherited from.
    fn then_inherited(&mut self) -> Result<(), Failure> {
        self.then(Task::MakeInherited)?;
        self.then(Task::Type {
            is_conversion: false,
        })
    }

    // Reads a destructor, or a structured binding.
    fn read_destructor(&mut self, cursor: &mut Cursor<'_>) -> Result<(), Failure> {
        self.expect(b'D', cursor)?;
        match cursor.next_byte()? {
            b'0'..=b'5' => {
                let class = self.class()?;
                self.give(Node::Destructor(class))
            }
            b'C' => self.read_binding(cursor),
            _ => Err(Failure::Grammar),
        }
    }

    fn read_binding(&mut self, cursor: &mut Cursor<'_>) -> Result<(), Failure> {
        let mark = self.values.len();
        for _ in 0..u64::MAX {
            if cursor.eat(b'E') {
                break;
            }
            self.read_source_name(cursor)?;
        }
        let list = self.take_list(mark)?;
        self.give(Node::Binding(list))
    }

    // Reads a lambda or an unnamed type.
    fn read_unnamed(&mut self, cursor: &mut Cursor<'_>) -> Result<(), Failure> {
        self.expect(b'U', cursor)?;
        match cursor.next_byte()? {
            b't' => {
                let number = read_compact_number(cursor)?;
                self.give(Node::Unnamed(number))
            }
            b'l' => {
                let mark = self.values.len();
                self.then(Task::LambdaParameters { mark })
            }
            _ => Err(Failure::Grammar),
        }
    }

    pub(super) fn read_local_entity(&mut self, cursor: &mut Cursor<'_>) -> Result<(), Failure> {
        self.expect(b'E', cursor)?;
        if cursor.eat(b's') {
            read_discriminator(cursor)?;
            self.give(Node::Word("string literal"))?;
            return self.make_local(None);
        }
        let mut default_argument = None;
        if cursor.eat(b'd') {
            default_argument = Some(read_compact_number(cursor)?);
        }
        self.then(Task::LocalEnd { default_argument })?;
        self.then(Task::Name)
    }

    pub(super) fn end_local(
        &mut self,
        default_argument: Option<usize>,
        cursor: &mut Cursor<'_>,
    ) -> Result<(), Failure> {
        let entity = self.last()?;
        let node = self.arena.node(entity)?;
        if !matches!(node, Node::Lambda(..) | Node::Unnamed(..)) {
            read_discriminator(cursor)?;
        }
        self.make_local(default_argument)
    }

    // Makes a local name of a function, whose result isn't written, and of an entity.
    fn make_local(&mut self, default_argument: Option<usize>) -> Result<(), Failure> {
        let mut entity = self.take()?;
        let mut function = self.take()?;
        if let Some(number) = default_argument {
            entity = self.arena.add(Node::DefaultArgument(number, entity))?;
        }
        if let Node::Encoding(name, Some(_), parameters) = self.arena.node(function)? {
            function = self.arena.add(Node::Encoding(name, None, parameters))?;
        }
        self.give(Node::Local(function, entity))
    }
}
