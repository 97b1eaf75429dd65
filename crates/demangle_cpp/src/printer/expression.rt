//! Expressions.
ghost use Rattle.std.specs.Prelude.{◌≡◌};
ghost use Rattle.demangle_text.specs.Text.{limit_of};

use crate::node::{Arena, Node, NodeId};
use crate::printer::{Printer, ScopeId, ScopedNode, Task};
use demangle_text::{Failure, Text};

impl Printer {
    // Puts an operand on the tasks, in parentheses unless it is a name or a list in braces.
    pub(super) fn then_operand(
        &mut self,
        operand: ScopedNode,
        arena: &Arena,
    ) -> Result<(), Failure> {
        let is_simple = matches!(
            arena.node(operand.node)?,
            Node::Name(..)
                | Node::Word(..)
                | Node::Qualified(..)
                | Node::Braces(..)
                | Node::FunctionParameter(..)
        );
        if is_simple {
            return self.then_place(operand);
        }
        self.then_word(")")?;
        self.then_place(operand)?;
        self.then_word("(")
    }

    pub(super) fn expression(
        &mut self,
        node: Node,
        scope: ScopeId,
        arena: &Arena,
        text: &mut Text,
    ) -> Result<(), Failure>
        ensures limit { limit_of text.new ≡ limit_of text.old }
    {
        match node {
            Node::Enclosed(word, node) => {
                self.then_word(")")?;
                self.after(word, ScopedNode { node, scope }, text)
            }
            Node::FunctionParameter(0) => text.put(b"this"),
            Node::FunctionParameter(number) => {
                text.put(b"{parm#")?;
                text.put_number(number as u64)?;
                text.put(b"}")
            }
            Node::Expressions(list) => self.then(Task::List(list, scope)),
            Node::Prefix(word, node) => self.prefix(word, ScopedNode { node, scope }, arena, text),
            Node::Postfix(word, node) => {
                self.then_word(word)?;
                self.then_operand(ScopedNode { node, scope }, arena)
            }
            Node::Binary(word, first, last) => self.binary(word, first, last, scope, arena),
            Node::Call(function, list) => self.call(function, list, scope, arena),
            Node::SizeOfPack(node) => self.pack_size(ScopedNode { node, scope }, arena, text),
            _ => self.other_expression(node, scope, arena, text),
        }
    }

    fn other_expression(
        &mut self,
        node: Node,
        scope: ScopeId,
        arena: &Arena,
        text: &mut Text,
    ) -> Result<(), Failure>
        ensures limit { limit_of text.new ≡ limit_of text.old }
    {
        match node {
            Node::Braces(of_type, list) => self.braces(of_type, list, scope),
            Node::Index(node, last) => {
                self.then_word("]")?;
                self.then_place(ScopedNode { node: last, scope })?;
                self.then_word("[")?;
                self.then_operand(ScopedNode { node, scope }, arena)
            }
            Node::Condition(first, middle, last) => {
                self.then_operand(ScopedNode { node: last, scope }, arena)?;
                self.then_word(" : ")?;
                self.then_operand(
                    ScopedNode {
                        node: middle,
                        scope,
                    },
                    arena,
                )?;
                self.then_word("?")?;
                self.then_operand(ScopedNode { node: first, scope }, arena)
            }
            Node::Cast(node, value) => {
                self.then_operand(ScopedNode { node: value, scope }, arena)?;
                self.then_word(")")?;
                self.after("(", ScopedNode { node, scope }, text)
            }
            Node::NamedCast(word, node, value) => {
                self.then_word(")")?;
                self.then_place(ScopedNode { node: value, scope })?;
                self.then_word(">(")?;
                self.then_place(ScopedNode { node, scope })?;
                self.then_word("<")?;
                text.put(word.as_bytes())
            }
            Node::New(before, of_type, value) => self.new_value(
                before, of_type, value, scope, arena,
            ),
            _ => self.rare_expression(node, scope, arena, text),
        }
    }

    fn rare_expression(
        &mut self,
        node: Node,
        scope: ScopeId,
        arena: &Arena,
        text: &mut Text,
    ) -> Result<(), Failure>
        ensures limit { limit_of text.new ≡ limit_of text.old }
    {
        match node {
            Node::SizeOfArguments(list) => {
                let count = self.count_arguments(list, scope, arena)?;
                text.put_number(count as u64)
            }
            Node::LeftFold(word, node) => {
                self.then_end_of_fold()?;
                self.then_operand(ScopedNode { node, scope }, arena)?;
                self.then_word(word)?;
                text.put(b"(...")
            }
            Node::RightFold(word, node) => {
                self.then_end_of_fold()?;
                self.then_word("...")?;
                self.then_word(word)?;
                self.then_operand(ScopedNode { node, scope }, arena)?;
                text.put(b"(")
            }
            Node::BinaryFold(word, node, last) => {
                self.then_end_of_fold()?;
                self.then_operand(ScopedNode { node: last, scope }, arena)?;
                self.then_word(word)?;
                self.then_word("...")?;
                self.then_word(word)?;
                self.then_operand(ScopedNode { node, scope }, arena)?;
                text.put(b"(")
            }
            Node::VendorCall(node, list) => {
                self.then_word(")")?;
                self.then(Task::List(list, scope))?;
                self.then_word("(")?;
                self.then_place(ScopedNode { node, scope })
            }
            _ => self.designated(node, scope, arena, text),
        }
    }

    // Writes a value for a member, for an element, or for a range of elements.
    fn designated(
        &mut self,
        node: Node,
        scope: ScopeId,
        arena: &Arena,
        text: &mut Text,
    ) -> Result<(), Failure>
        ensures limit { limit_of text.new ≡ limit_of text.old }
    {
        match node {
            Node::MemberValue(node, value) => {
                self.then_value(ScopedNode { node: value, scope }, arena)?;
                self.after(".", ScopedNode { node, scope }, text)
            }
            Node::ElementValue(node, value) => {
                self.then_value(ScopedNode { node: value, scope }, arena)?;
                self.then_word("]")?;
                self.after("[", ScopedNode { node, scope }, text)
            }
            Node::RangeValue(node, last, value) => {
                self.then_value(ScopedNode { node: value, scope }, arena)?;
                self.then_word("]")?;
                self.then_place(ScopedNode { node: last, scope })?;
                self.then_word(" ... ")?;
                self.after("[", ScopedNode { node, scope }, text)
            }
            _ => self.declaration(node, scope, text),
        }
    }

    // Puts the value of a member or an element on the tasks, which may be that of a part of it.
    fn then_value(&mut self, value: ScopedNode, arena: &Arena) -> Result<(), Failure> {
        match arena.node(value.node)? {
            Node::MemberValue(..) | Node::ElementValue(..) | Node::RangeValue(..) => {
                self.then_place(value)
            }
            _ => {
                self.then_operand(value, arena)?;
                self.then_word("=")
            }
        }
    }

    // Puts the end of a fold on the tasks. Within a fold a parameter pack is written as a whole.
    fn then_end_of_fold(&mut self) -> Result<(), Failure> {
        let was = self.pack_index;
        self.then(Task::PackIndex(was))?;
        self.pack_index = None;
        self.then_word(")")
    }

    // Writes an operator before its operand. The address of a member function is its name alone.
    fn prefix(
        &mut self,
        word: &str,
        operand: ScopedNode,
        arena: &Arena,
        text: &mut Text,
    ) -> Result<(), Failure>
        ensures limit { limit_of text.new ≡ limit_of text.old }
    {
        text.put(word.as_bytes())?;
        let mut operand = operand;
        if let Node::Encoding(name, _, _) = arena.node(operand.node)? {
            let is_member = matches!(arena.node(name)?, Node::Qualified(..));
            if word == "&" && is_member {
                operand.node = name;
            }
        }
        self.then_operand(operand, arena)
    }

    // Writes an operator between its operands, in parentheses if it could end template arguments.
    fn binary(
        &mut self,
        word: &'static str,
        first: NodeId,
        last: NodeId,
        scope: ScopeId,
        arena: &Arena,
    ) -> Result<(), Failure> {
        let is_greater = word == ">";
        if is_greater {
            self.then_word(")")?;
        }
        self.then_operand(ScopedNode { node: last, scope }, arena)?;
        self.then_word(word)?;
        self.then_operand(ScopedNode { node: first, scope }, arena)?;
        if is_greater {
            self.then_word("(")?;
        }
        Ok(())
    }

    // Writes a call. Of a function that is known the parameters aren't written.
    fn call(
        &mut self,
        function: NodeId,
        list: NodeId,
        scope: ScopeId,
        arena: &Arena,
    ) -> Result<(), Failure> {
        self.then_operand(ScopedNode { node: list, scope }, arena)?;
        let mut node = function;
        if let Node::Encoding(name, _, _) = arena.node(function)? {
            node = name;
        }
        self.then_operand(ScopedNode { node, scope }, arena)
    }

    fn braces(
        &mut self,
        of_type: Option<NodeId>,
        list: NodeId,
        scope: ScopeId,
    ) -> Result<(), Failure> {
        self.then_word("}")?;
        self.then_place(ScopedNode { node: list, scope })?;
        self.then_word("{")?;
        if let Some(node) = of_type {
            self.then_place(ScopedNode { node, scope })?;
        }
        Ok(())
    }

    fn new_value(
        &mut self,
        before: NodeId,
        of_type: NodeId,
        value: Option<NodeId>,
        scope: ScopeId,
        arena: &Arena,
    ) -> Result<(), Failure> {
        if let Some(node) = value {
            self.then_operand(ScopedNode { node, scope }, arena)?;
        }
        self.then_place(ScopedNode {
            node: of_type,
            scope,
        })?;
        if let Node::Expressions(list) = arena.node(before)? {
            if list.start < list.end {
                self.then_word(" ")?;
                let node = before;
                self.then_operand(ScopedNode { node, scope }, arena)?;
            }
        }
        self.then_word("new ")
    }

    // Writes the number of arguments of a parameter pack.
    fn pack_size(&mut self, pack: ScopedNode, arena: &Arena, text: &mut Text) -> Result<(), Failure>
        ensures limit { limit_of text.new ≡ limit_of text.old }
    {
        let count = self.pack_length(pack, arena)?.unwrap_or(0);
        text.put_number(count as u64)
    }
}
