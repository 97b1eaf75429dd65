//! The parts of a name as a tree.

use demangle_text::Failure;
use std::alloc::Global;

/// The index of a node in its arena.
pub(crate) type NodeId = usize;

/// A range of the items of an arena.
#[derive(Clone, Copy)]
pub(crate) struct NodeList {
    pub(crate) start: usize,
    pub(crate) end: usize,
}

/// A range of the bytes of a name.
#[derive(Clone, Copy)]
pub(crate) struct ByteRange {
    pub(crate) start: usize,
    pub(crate) end: usize,
}

/// A qualifier of a type, or of the object that a function is called for.
#[derive(Clone, Copy)]
pub(crate) enum Qualifier {
    Const,
    Volatile,
    Restrict,
    Reference,
    RvalueReference,
    TransactionSafe,
    Noexcept,
    /// Under a condition.
    NoexceptIf(NodeId),
    /// With the types of exceptions.
    Throw(NodeList),
}

/// What precedes a type as a letter, and is written after it.
#[derive(Clone, Copy, PartialEq, Eq)]
pub(crate) enum Wrapper {
    Pointer,
    Reference,
    RvalueReference,
    Complex,
    Imaginary,
}

/// How a literal of a builtin type is written.
#[derive(Clone, Copy, PartialEq, Eq)]
pub(crate) enum LiteralForm {
    /// With its type in parentheses before it.
    Cast,
    /// As a floating point number in brackets, after its type.
    Float,
    /// As `false` or `true`.
    Bool,
    /// As a number, with this suffix.
    Number(&'static str),
}

/// A part of a name.
#[derive(Clone, Copy)]
pub(crate) enum Node {
    /// A fixed text.
    Word(&'static str),
    /// A class of the standard library that has an abbreviation, and its name without scope and arguments.
    Standard(&'static str, &'static str),
    /// A builtin type.
    Builtin(&'static str, LiteralForm),
    /// An identifier, or a number as the name has it.
    Name(ByteRange),
    Tagged(NodeId, ByteRange),
    Qualified(NodeId, NodeId),
    /// An entity in a function.
    Local(NodeId, NodeId),
    /// An entity in the default argument with a number.
    DefaultArgument(usize, NodeId),
    Template(NodeId, NodeList),
    /// The arguments of a parameter pack.
    Pack(NodeList),
    /// A template parameter.
    Parameter(usize),
    Constructor(NodeId),
    Destructor(NodeId),
    Operator(&'static str),
    /// An operator that is an identifier.
    VendorOperator(NodeId),
    LiteralOperator(NodeId),
    Conversion(NodeId),
    /// A lambda: its template parameters, its parameters, and its number.
    Lambda(NodeList, NodeList, usize),
    /// A template parameter that is a type.
    TypeParameter,
    /// A template parameter that is a value of a type.
    ValueParameter(NodeId),
    /// A template parameter that is a template with these parameters.
    TemplateParameter(NodeList),
    /// A template parameter that is a pack of another one.
    PackParameter(NodeId),
    Unnamed(usize),
    Binding(NodeList),
    /// A function: its name, its result if it is known, and its parameters.
    Encoding(NodeId, Option<NodeId>, NodeList),
    /// The type of a function: its result, and its parameters.
    Function(NodeId, NodeList),
    FunctionQualifier(NodeId, Qualifier),
    TypeQualifier(NodeId, Qualifier),
    VendorQualifier(NodeId, NodeId),
    Wrapped(Wrapper, NodeId),
    Array(Option<NodeId>, NodeId),
    /// A pointer to a member: the class, and the member's type.
    MemberPointer(NodeId, NodeId),
    /// A vector: the number of its elements, and their type.
    Vector(NodeId, NodeId),
    /// The expansion of a pattern with a parameter pack.
    Expansion(NodeId),
    /// A literal of a type, and whether it is negative.
    Literal(NodeId, ByteRange, bool),
    /// An entity after a fixed text.
    Special(&'static str, NodeId),
    /// A virtual table of the first type within the second one.
    ConstructionTable(NodeId, NodeId),
    /// A temporary that a reference is bound to.
    Temporary(NodeId, usize),
    /// A fixed text, an expression or type, and a closing parenthesis.
    Enclosed(&'static str, NodeId),
    /// A parameter of a function in an expression; 0 is `this`.
    FunctionParameter(usize),
    /// The arguments of a call, or other expressions with commas between them.
    Expressions(NodeList),
    /// A list in braces, after its type if it has one.
    Braces(Option<NodeId>, NodeId),
    /// An operator before its operand.
    Prefix(&'static str, NodeId),
    /// An operator after its operand.
    Postfix(&'static str, NodeId),
    Binary(&'static str, NodeId, NodeId),
    /// A call of a function with expressions.
    Call(NodeId, NodeId),
    Index(NodeId, NodeId),
    Condition(NodeId, NodeId, NodeId),
    /// The type that a value is converted to, and the value.
    Cast(NodeId, NodeId),
    NamedCast(&'static str, NodeId, NodeId),
    /// The expressions before a type that is allocated, and the initial value.
    New(NodeId, NodeId, Option<NodeId>),
    /// The number of arguments of a parameter pack.
    SizeOfPack(NodeId),
    /// The number of arguments of a list.
    SizeOfArguments(NodeList),
    /// A fold from the left or from the right, without an initial value.
    LeftFold(&'static str, NodeId),
    RightFold(&'static str, NodeId),
    /// A fold with an initial value.
    BinaryFold(&'static str, NodeId, NodeId),
    /// A value for a member, for an element, or for a range of elements.
    MemberValue(NodeId, NodeId),
    ElementValue(NodeId, NodeId),
    RangeValue(NodeId, NodeId, NodeId),
    /// A function of the vendor, and its arguments.
    VendorCall(NodeId, NodeList),
}

/// The nodes of a name, with its bytes.
#[derive(Drop)]
pub(crate) struct Arena {
    pub(crate) name: Vec<u8>,
    nodes: Vec<Node>,
    items: Vec<NodeId>,
}

impl Arena {
    ghost use Rattle.demangle_cpp.specs.Unused.{IsEmptyArena};

    /// Creates an empty arena.
    pub(crate) fn new(alloc: Global) -> Arena
        ensures { IsEmptyArena result }
    {
        Arena {
            name: Vec::new(alloc),
            nodes: Vec::new(alloc),
            items: Vec::new(alloc),
        }
    }

    /// Removes all nodes, and takes the bytes of a name.
    pub(crate) fn start(&mut self, name: &[u8]) -> Result<(), Failure> {
        self.nodes.clear();
        self.items.clear();
        self.name.clear();
        self.name.extend_from_slice(name)?;
        Ok(())
    }

    /// Adds a node.
    pub(crate) fn add(&mut self, node: Node) -> Result<NodeId, Failure> {
        let id = self.nodes.len();
        self.nodes.push(node)?;
        Ok(id)
    }

    /// Returns the number of items of all lists.
    pub(crate) fn item_count(&self) -> usize {
        self.items.len()
    }

    /// Adds an item of a list.
    pub(crate) fn add_item(&mut self, id: NodeId) -> Result<(), Failure> {
        self.items.push(id)?;
        Ok(())
    }

    /// Returns a node.
    pub(crate) fn node(&self, id: NodeId) -> Result<Node, Failure> {
        self.nodes.get(id).copied().ok_or(Failure::Grammar)
    }

    /// Returns the node of a list with an index, or `None` after its end.
    pub(crate) fn item(&self, list: NodeList, index: usize) -> Option<NodeId> {
        let position = list.start.checked_add(index)?;
        if position < list.end {
            self.items.get(position).copied()
        } else {
            None
        }
    }

    /// Returns whether a list is a single `void`.
    pub(crate) fn is_void(&self, list: NodeList) -> bool {
        if list.end.saturating_sub(list.start) != 1 {
            return false;
        }
        match self
            .item(list, 0)
            .and_then(|id| self.nodes.get(id).copied())
        {
            Some(Node::Builtin(text, _)) => text == "void",
            _ => false,
        }
    }

    /// Returns bytes of the name.
    pub(crate) fn bytes(&self, range: ByteRange) -> &[u8] {
        self.name.get(range.start..range.end).unwrap_or(&[])
    }
}
