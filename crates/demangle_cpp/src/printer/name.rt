//! Names.
ghost use Rattle.std.specs.Prelude.{◌≡◌};
ghost use Rattle.demangle_text.specs.Text.{limit_of};

use crate::node::{Arena, ByteRange, Node, NodeId, NodeList};
use crate::printer::{Expansion, Printer, ScopeId, ScopedNode, Task, without_function_qualifiers};
use demangle_text::{Failure, Text};

impl Printer {
    // Writes a name, or something that isn't a type.
    pub(super) fn name(
        &mut self,
        node: Node,
        scope: ScopeId,
        arena: &Arena,
        text: &mut Text,
    ) -> Result<(), Failure>
        ensures limit { limit_of text.new ≡ limit_of text.old }
    {
        match node {
            Node::Word(word) | Node::Standard(word, _) | Node::Builtin(word, _) => {
                text.put(word.as_bytes())
            }
            Node::Name(range) => text.put(arena.bytes(range)),
            Node::Tagged(name, tag) => self.tagged(name, tag, scope),
            Node::Qualified(node, name) => self.qualified(node, name, scope),
            Node::Local(function, entity) => self.local(function, entity, scope, arena),
            Node::Template(node, arguments) => self.template(node, arguments, scope, arena),
            Node::Constructor(class) => self.class_name(class, scope, arena),
            Node::Destructor(class) => {
                text.put(b"~")?;
                self.class_name(class, scope, arena)
            }
            Node::Lambda(declared, list, number) => {
                self.lambda(declared, list, number, scope, arena)
            }
            Node::Encoding(name, result, list) => self.encoding(name, result, list, scope, arena),
            _ => self.other_name(node, scope, arena, text),
        }
    }

    // Writes a name that has nothing but a text around what it consists of.
    fn other_name(
        &mut self,
        node: Node,
        scope: ScopeId,
        arena: &Arena,
        text: &mut Text,
    ) -> Result<(), Failure>
        ensures limit { limit_of text.new ≡ limit_of text.old }
    {
        match node {
            Node::Operator(word) => self.operator(word, text),
            Node::VendorOperator(node) => self.after("operator ", ScopedNode { node, scope }, text),
            Node::LiteralOperator(node) => self.after(
                "operator\"\" ",
                ScopedNode { node, scope },
                text,
            ),
            Node::Conversion(node) => self.after("operator ", ScopedNode { node, scope }, text),
            Node::Special(word, node) => self.after(word, ScopedNode { node, scope }, text),
            Node::Pack(list) => self.then(Task::List(list, scope)),
            Node::Unnamed(number) => {
                text.put(b"{unnamed type#")?;
                text.put_number(number.saturating_add(1) as u64)?;
                text.put(b"}")
            }
            Node::Binding(list) => {
                text.put(b"[")?;
                self.then_word("]")?;
                self.then(Task::List(list, scope))
            }
            Node::DefaultArgument(number, node) => {
                text.put(b"{default arg#")?;
                text.put_number(number.saturating_add(1) as u64)?;
                let node = without_function_qualifiers(node, arena)?;
                self.after("}::", ScopedNode { node, scope }, text)
            }
            Node::Parameter(number) => self.lambda_parameter(number, arena, text),
            _ => self.rare_name(node, scope, arena, text),
        }
    }

    fn rare_name(
        &mut self,
        node: Node,
        scope: ScopeId,
        arena: &Arena,
        text: &mut Text,
    ) -> Result<(), Failure>
        ensures limit { limit_of text.new ≡ limit_of text.old }
    {
        match node {
            Node::Literal(node, range, is_negative) => {
                self.literal(ScopedNode { node, scope }, range, is_negative, arena, text)
            }
            Node::Expansion(node) => self.expansion(ScopedNode { node, scope }, arena),
            Node::ConstructionTable(node, inner) => {
                self.then_place(ScopedNode { node: inner, scope })?;
                self.then_word("-in-")?;
                self.after("construction vtable for ", ScopedNode { node, scope }, text)
            }
            Node::Temporary(node, number) => {
                text.put(b"reference temporary #")?;
                text.put_number(number as u64)?;
                self.after(" for ", ScopedNode { node, scope }, text)
            }
            _ => self.expression(node, scope, arena, text),
        }
    }

    // Writes a fixed text, and then what is at a place.
    pub(super) fn after(
        &mut self,
        word: &str,
        place: ScopedNode,
        text: &mut Text,
    ) -> Result<(), Failure>
        ensures limit { limit_of text.new ≡ limit_of text.old }
    {
        text.put(word.as_bytes())?;
        self.then_place(place)
    }

    fn tagged(&mut self, node: NodeId, tag: ByteRange, scope: ScopeId) -> Result<(), Failure> {
        self.then_word("]")?;
        self.then(Task::Bytes(tag))?;
        self.then_word("[abi:")?;
        self.then(Task::Left(ScopedNode { node, scope }))
    }

    fn qualified(&mut self, outer: NodeId, name: NodeId, scope: ScopeId) -> Result<(), Failure> {
        self.then(Task::Left(ScopedNode { node: name, scope }))?;
        self.then_word("::")?;
        self.then(Task::ScopeName(ScopedNode { node: outer, scope }))
    }

    // Writes the scope of a name, without the qualifiers of a type that a template parameter stands for.
    pub(super) fn scope_name(&mut self, place: ScopedNode, arena: &Arena) -> Result<(), Failure> {
        let (found, _) = self.unqualified(place, arena)?;
        self.then_place(found.place)
    }

    fn local(
        &mut self,
        function: NodeId,
        entity: NodeId,
        scope: ScopeId,
        arena: &Arena,
    ) -> Result<(), Failure> {
        let node = without_function_qualifiers(entity, arena)?;
        self.then_place(ScopedNode { node, scope })?;
        self.then_word("::")?;
        let node = function;
        self.then(Task::Left(ScopedNode { node, scope }))
    }

    // Writes a template and its arguments, in whose scope the type of a conversion operator is.
    fn template(
        &mut self,
        node: NodeId,
        arguments: NodeList,
        scope: ScopeId,
        arena: &Arena,
    ) -> Result<(), Failure> {
        self.then(Task::CloseArguments)?;
        self.then(Task::List(arguments, scope))?;
        self.then(Task::OpenArguments)?;
        let (outer, name) = match arena.node(node)? {
            Node::Qualified(outer, name) => (Some(outer), name),
            _ => (None, node),
        };
        let Node::Conversion(of_type) = arena.node(name)? else {
            return self.then(Task::Left(ScopedNode { node, scope }));
        };
        let inner = self.open_scope(arguments, scope)?;
        self.then_place(ScopedNode {
            node: of_type,
            scope: inner,
        })?;
        self.then_word("operator ")?;
        if let Some(node) = outer {
            self.then_word("::")?;
            self.then(Task::ScopeName(ScopedNode { node, scope }))?;
        }
        Ok(())
    }

    // Writes the name of a class without its scope and arguments.
    fn class_name(&mut self, class: NodeId, scope: ScopeId, arena: &Arena) -> Result<(), Failure> {
        let mut place = ScopedNode { node: class, scope };
        for _ in 0..u64::MAX {
            self.count_step()?;
            let found = self.resolve(place, arena)?;
            let scope = found.place.scope;
            let node = match found.node {
                Node::Qualified(_, name) => name,
                Node::Local(_, entity) => entity,
                Node::DefaultArgument(_, entity) => entity,
                Node::Template(name, _) => name,
                Node::Tagged(name, _) => name,
                Node::TypeQualifier(inner, _) => inner,
                Node::Standard(_, name) => return self.then_word(name),
                _ => {
                    place = found.place;
                    break;
                }
            };
            place = ScopedNode { node, scope };
        }
        self.then(Task::Left(place))
    }

    fn operator(&mut self, word: &'static str, text: &mut Text) -> Result<(), Failure>
        ensures limit { limit_of text.new ≡ limit_of text.old }
    {
        text.put(b"operator")?;
        let bytes = word.as_bytes();
        if matches!(bytes.first(), Some(b'a'..=b'z')) {
            text.put(b" ")?;
        }
        text.put(bytes.strip_suffix(b" ").unwrap_or(bytes))
    }

    // Writes the expansion of a pattern: an item for each argument of its parameter pack.
    fn expansion(&mut self, pattern: ScopedNode, arena: &Arena) -> Result<(), Failure> {
        let Some(count) = self.pack_length(pattern, arena)? else {
            return self.unexpanded(pattern, arena);
        };
        let outer = self.pack_index;
        self.then(Task::Expand(Expansion {
            pattern,
            index: 0,
            count,
            outer,
        }))
    }

    // Writes a pattern that has no parameter pack.
    fn unexpanded(&mut self, pattern: ScopedNode, arena: &Arena) -> Result<(), Failure> {
        self.then_word("...")?;
        self.then_operand(pattern, arena)
    }
}
