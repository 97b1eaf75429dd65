//! Types: what they have to the left and to the right of a declarator.
ghost use Rattle.std.specs.Prelude.{◌≡◌};
ghost use Rattle.demangle_text.specs.Text.{limit_of};

use crate::node::{Arena, ByteRange, LiteralForm, Node, NodeId, Qualifier, Wrapper};
use crate::printer::{Printer, ScopedNode, Shape, Task};
use crate::tables::{qualifier_text, wrapper_text};
use demangle_text::{Failure, Text};

// The qualifiers that a type has so far.
#[derive(Clone, Copy)]
struct Written {
    is_const: bool,
    is_volatile: bool,
    is_restrict: bool,
}

impl Written {
    // Adds a qualifier, and returns whether it is new.
    fn insert(&mut self, qualifier: Qualifier) -> bool {
        match qualifier {
            Qualifier::Const => !std::mem::replace(&mut self.is_const, true),
            Qualifier::Volatile => !std::mem::replace(&mut self.is_volatile, true),
            Qualifier::Restrict => !std::mem::replace(&mut self.is_restrict, true),
            _ => true,
        }
    }
}

impl Printer {
    pub(super) fn left(
        &mut self,
        place: ScopedNode,
        arena: &Arena,
        text: &mut Text,
    ) -> Result<(), Failure>
        ensures limit { limit_of text.new ≡ limit_of text.old }
    {
        let found = self.resolve(place, arena)?;
        let scope = found.place.scope;
        match found.node {
            Node::Wrapped(wrapper, node) => self.wrapped_left(
                wrapper,
                ScopedNode { node, scope },
                arena,
            ),
            Node::TypeQualifier(..) => self.qualified_left(found.place, arena),
            Node::Function(result, _) => {
                let node = result;
                self.then_result(ScopedNode { node, scope }, arena)
            }
            Node::FunctionQualifier(node, qualifier) => {
                self.function_qualifier_left(ScopedNode { node, scope }, qualifier, arena)
            }
            Node::Array(_, node) => self.then(Task::Left(ScopedNode { node, scope })),
            Node::MemberPointer(class, node) => {
                self.member_left(class, ScopedNode { node, scope }, arena)
            }
            Node::VendorQualifier(node, name) => {
                self.then(Task::Left(ScopedNode { node: name, scope }))?;
                self.then_word(" ")?;
                self.then(Task::Left(ScopedNode { node, scope }))
            }
            Node::Vector(length, node) => {
                self.then_word(")")?;
                self.then(Task::Left(ScopedNode {
                    node: length,
                    scope,
                }))?;
                self.then_word(" __vector(")?;
                self.then(Task::Left(ScopedNode { node, scope }))
            }
            node => self.name(node, scope, arena, text),
        }
    }

    pub(super) fn right(
        &mut self,
        place: ScopedNode,
        arena: &Arena,
        text: &mut Text,
    ) -> Result<(), Failure>
        ensures limit { limit_of text.new ≡ limit_of text.old }
    {
        let found = self.resolve(place, arena)?;
        let scope = found.place.scope;
        match found.node {
            Node::Wrapped(wrapper, node) => {
                let (_, inner) = self.collapse(wrapper, ScopedNode { node, scope }, arena)?;
                self.declarator_right(inner, arena, text)
            }
            Node::TypeQualifier(..) => self.qualified_right(found.place, arena, text),
            Node::Function(..) => self.function_right(found.place, arena),
            Node::FunctionQualifier(..) => self.function_right(found.place, arena),
            Node::Array(length, node) => self.array_right(length, ScopedNode { node, scope }, text),
            Node::MemberPointer(_, node) => self.declarator_right(
                ScopedNode { node, scope },
                arena,
                text,
            ),
            Node::VendorQualifier(node, _) => self.then(Task::Right(ScopedNode { node, scope })),
            Node::Vector(_, node) => self.then(Task::Right(ScopedNode { node, scope })),
            _ => Ok(()),
        }
    }

    // Writes the end of a declarator, and what the type has to the right of it.
    fn declarator_right(
        &mut self,
        inner: ScopedNode,
        arena: &Arena,
        text: &mut Text,
    ) -> Result<(), Failure>
        ensures limit { limit_of text.new ≡ limit_of text.old }
    {
        if self.shape(inner, arena)? != Shape::Plain {
            text.put(b")")?;
        }
        self.then(Task::Right(inner))
    }

    fn wrapped_left(
        &mut self,
        wrapper: Wrapper,
        place: ScopedNode,
        arena: &Arena,
    ) -> Result<(), Failure> {
        let (wrapper, inner) = self.collapse(wrapper, place, arena)?;
        self.then_word(wrapper_text(wrapper))?;
        let is_pointer = !matches!(wrapper, Wrapper::Complex | Wrapper::Imaginary);
        self.then_opening(inner, is_pointer, arena)?;
        self.then(Task::Left(inner))
    }

    // Puts the parenthesis before a declarator on the tasks, if the type requires it.
    fn then_opening(
        &mut self,
        inner: ScopedNode,
        is_pointer: bool,
        arena: &Arena,
    ) -> Result<(), Failure> {
        match self.shape(inner, arena)? {
            Shape::Plain => Ok(()),
            Shape::Array => self.then_word(" ("),
            Shape::Function => self.then(Task::OpenDeclarator { is_pointer }),
        }
    }

    pub(super) fn open_declarator(
        &mut self,
        is_pointer: bool,
        text: &mut Text,
    ) -> Result<(), Failure>
        ensures limit { limit_of text.new ≡ limit_of text.old }
    {
        let last = self.last_byte(text);
        let is_tight = is_pointer && matches!(last, Some(b'(' | b'*'));
        if !is_tight && last != Some(b' ') {
            return text.put(b" (");
        }
        text.put(b"(")
    }

    // Writes qualifiers after their type, each of them once.
    fn qualified_left(&mut self, place: ScopedNode, arena: &Arena) -> Result<(), Failure> {
        let mut written = Written {
            is_const: false,
            is_volatile: false,
            is_restrict: false,
        };
        let mut found = self.resolve(place, arena)?;
        for _ in 0..u64::MAX {
            let Node::TypeQualifier(node, qualifier) = found.node else {
                break;
            };
            self.count_step()?;
            if written.insert(qualifier) {
                self.then_word(qualifier_text(qualifier))?;
            }
            let scope = found.place.scope;
            found = self.resolve(ScopedNode { node, scope }, arena)?;
        }
        if self.shape(found.place, arena)? == Shape::Function {
            self.then(Task::OpenDeclarator { is_pointer: false })?;
        }
        self.then(Task::Left(found.place))
    }

    fn qualified_right(
        &mut self,
        place: ScopedNode,
        arena: &Arena,
        text: &mut Text,
    ) -> Result<(), Failure>
        ensures limit { limit_of text.new ≡ limit_of text.old }
    {
        let (found, _) = self.unqualified(place, arena)?;
        if self.shape(found.place, arena)? == Shape::Function {
            text.put(b")")?;
        }
        self.then(Task::Right(found.place))
    }

    // Writes the result of a function type, or a name with a qualifier of its function.
    fn function_qualifier_left(
        &mut self,
        place: ScopedNode,
        qualifier: Qualifier,
        arena: &Arena,
    ) -> Result<(), Failure> {
        if !self.has_right(place, arena)? {
            self.then_qualifier(qualifier, place.scope)?;
        }
        self.then(Task::Left(place))
    }

    fn member_left(
        &mut self,
        class: NodeId,
        member: ScopedNode,
        arena: &Arena,
    ) -> Result<(), Failure> {
        self.then_word("::*")?;
        let (node, scope) = (class, member.scope);
        self.then_place(ScopedNode { node, scope })?;
        self.then(Task::BeforeMember)?;
        self.then_opening(member, false, arena)?;
        self.then(Task::Left(member))
    }

    pub(super) fn before_member(&mut self, text: &mut Text) -> Result<(), Failure>
        ensures limit { limit_of text.new ≡ limit_of text.old }
    {
        if self.last_byte(text) == Some(b'(') {
            return Ok(());
        }
        text.put(b" ")
    }

    // Writes the bounds of an array, next to those of the array that it is an element of.
    fn array_right(
        &mut self,
        length: Option<NodeId>,
        element: ScopedNode,
        text: &mut Text,
    ) -> Result<(), Failure>
        ensures limit { limit_of text.new ≡ limit_of text.old }
    {
        let is_element = self.bounds_at == text.len();
        text.put(if is_element { "[" } else { " [" }.as_bytes())?;
        self.then(Task::Right(element))?;
        self.then(Task::EndBounds)?;
        let scope = element.scope;
        if let Some(node) = length {
            self.then_place(ScopedNode { node, scope })?;
        }
        Ok(())
    }

    pub(super) fn end_bounds(&mut self, text: &mut Text) -> Result<(), Failure>
        ensures limit { limit_of text.new ≡ limit_of text.old }
    {
        text.put(b"]")?;
        self.bounds_at = text.len();
        Ok(())
    }

    // Writes a literal as its type has it.
    pub(super) fn literal(
        &mut self,
        of_type: ScopedNode,
        range: ByteRange,
        is_negative: bool,
        arena: &Arena,
        text: &mut Text,
    ) -> Result<(), Failure>
        ensures limit { limit_of text.new ≡ limit_of text.old }
    {
        let form = match arena.node(of_type.node)? {
            Node::Builtin(_, form) => form,
            _ => LiteralForm::Cast,
        };
        let digits = arena.bytes(range);
        match (form, is_negative, digits) {
            (LiteralForm::Bool, false, b"0") => text.put(b"false"),
            (LiteralForm::Bool, false, b"1") => text.put(b"true"),
            (LiteralForm::Number(suffix), ..) => {
                self.then_word(suffix)?;
                self.then(Task::Bytes(range))?;
                self.then_word(if is_negative { "-" } else { "" })
            }
            _ => {
                let is_float = form == LiteralForm::Float;
                self.then_word(if is_float { "]" } else { "" })?;
                self.then(Task::Bytes(range))?;
                self.then_word(if is_float { "[" } else { "" })?;
                self.then_word(if is_negative { "-" } else { "" })?;
                self.then_word(")")?;
                self.then_place(of_type)?;
                self.then_word("(")
            }
        }
    }
}
