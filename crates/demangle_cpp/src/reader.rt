//! Reading a name into a tree.
//!
//! Productions are tasks on a stack, and what they have read are values on a second one. No call is
//! recursive.

mod expression;
mod lambda;
mod names;
mod special;
mod template;
mod types;
mod unresolved;

use crate::node::{Arena, Node, NodeId, NodeList, Qualifier, Wrapper};
use demangle_text::{Cursor, Failure};
use std::alloc::Global;

// The greatest number of open tasks.
const MAX_TASKS: usize = 4096;

/// What becomes of the items of a list.
#[derive(Clone, Copy)]
enum ListUse {
    Template,
    Pack,
    VendorCall,
    Count,
}

/// A production that is to be read, or what is to be done with values.
#[derive(Clone, Copy)]
enum Task {
    /// A function or object; what follows its name at the end of the whole name isn't a parameter.
    Encoding,
    /// The type of a function, after its name.
    EncodingType,
    /// Makes a function of a name and the values above a mark: its result, if it has one, and its parameters.
    MakeEncoding {
        mark: usize,
        has_result: bool,
    },
    Name,
    /// The template arguments of a name, if there are any.
    NameArguments {
        is_substitution: bool,
    },
    /// The rest of a nested name. Its start is a value, if there is one.
    Prefix {
        has_start: bool,
        is_new: bool,
    },
    /// Wraps a name with a qualifier of the function.
    QualifyFunction(Qualifier),
    Unqualified,
    /// The ABI tags of a name.
    Tags,
    /// Makes a qualified name of two values.
    Qualify,
    /// The rest of a local name, after its function.
    LocalEntity,
    /// The end of a local name, after its entity.
    LocalEnd {
        default_argument: Option<usize>,
    },
    /// A type. That of a conversion operator has no template arguments after a parameter or substitution.
    Type {
        is_conversion: bool,
    },
    /// Types up to the end of a list.
    Types {
        mark: usize,
    },
    /// Adds the last value to the substitutions.
    Substitute,
    Wrap(Wrapper),
    QualifyType(Qualifier),
    QualifyFunctionType(Qualifier),
    /// The template arguments of a type, if there are any.
    TypeArguments {
        is_conversion: bool,
        is_substitution: bool,
    },
    /// Makes the constructor that a class has from another one, which was read.
    MakeInherited,
    VendorQualify,
    MakeFunction {
        mark: usize,
    },
    MakeArray {
        has_length: bool,
    },
    MakeVector,
    MakeMemberPointer,
    MakeExpansion,
    MakeConversion,
    /// The template parameters of a lambda, above a mark, or its parameters.
    LambdaParameters {
        mark: usize,
    },
    /// The end of a lambda, after its parameters.
    MakeLambda {
        mark: usize,
    },
    /// A template parameter of a lambda.
    TemplateParameter,
    /// Template parameters of a template that is a template parameter.
    TemplateParameters {
        mark: usize,
    },
    MakeValueParameter,
    MakePackParameter,
    /// The end of the condition or of the types of exceptions of a function, whose type follows.
    EndNoexcept,
    EndThrow {
        mark: usize,
    },
    MakeRangeValue,
    /// Template arguments up to the end of a list.
    Arguments {
        mark: usize,
        list_use: ListUse,
    },
    Argument,
    /// The value of a literal, after its type.
    LiteralValue,
    /// The end of an argument.
    End,
    MakeSpecial(&'static str),
    /// The offset and the second type of a construction table.
    ConstructionOffset,
    MakeConstructionTable,
    MakeTemporary,
    /// Removes the last value.
    DropValue,
    Expression,
    /// Expressions up to a byte, above a mark.
    Expressions {
        mark: usize,
        end: u8,
    },
    /// The bounds of an array or vector are read, and an underscore follows.
    Bounds {
        is_vector: bool,
        is_conversion: bool,
    },
    /// Makes a node of the last value and a fixed text.
    MakeUnary(Unary),
    /// Makes a node of the last two values and a fixed text.
    MakeBinary(Binary),
    MakeCondition,
    /// The operand of a conversion, after its type.
    CastOperand,
    /// The initial value of what is allocated, after its type.
    NewInitializer,
    MakeNew {
        has_value: bool,
    },
    /// The name of a member, after the object.
    MemberName,
    /// The name in a scope, after the scope.
    ScopedName,
    /// The parts of a scope that is no type, of which the first is a value.
    ScopeParts {
        is_nested: bool,
    },
}

/// What is made of one value.
#[derive(Clone, Copy)]
enum Unary {
    Prefix(&'static str),
    Postfix(&'static str),
    /// After `::`.
    Global,
    /// After a text, and before a closing parenthesis.
    Enclosed(&'static str),
    SizeOfPack,
    Braces,
    LeftFold(&'static str),
    RightFold(&'static str),
}

/// What is made of two values.
#[derive(Clone, Copy)]
enum Binary {
    Operator(&'static str),
    Call,
    Index,
    Cast,
    NamedCast(&'static str),
    TypedBraces,
    MemberValue,
    ElementValue,
    Fold(&'static str),
}

/// Which scopes in expressions are types, whose parts are substitutions.
#[derive(Clone, Copy, PartialEq, Eq)]
pub(crate) struct ScopeTypes {
    pub(crate) is_nested_a_type: bool,
    pub(crate) is_simple_a_type: bool,
}

/// Reads names. It keeps its buffers between names.
#[derive(Drop)]
pub(crate) struct Reader {
    pub(crate) arena: Arena,
    tasks: Vec<Task>,
    values: Vec<NodeId>,
    substitutions: Vec<NodeId>,
    scope_types: ScopeTypes,
    /// Whether the name depends on which scopes are types.
    pub(crate) is_ambiguous: bool,
}

impl Reader {
    ghost use Rattle.demangle_cpp.specs.Unused.{IsUnusedReader};

    /// Creates a reader.
    pub(crate) fn new(alloc: Global) -> Reader
        ensures { IsUnusedReader result }
    {
        Reader {
            arena: Arena::new(alloc),
            tasks: Vec::new(alloc),
            values: Vec::new(alloc),
            substitutions: Vec::new(alloc),
            scope_types: ScopeTypes {
                is_nested_a_type: true,
                is_simple_a_type: false,
            },
            is_ambiguous: false,
        }
    }

    /// Reads a name after its prefix. Returns its node, and leaves the cursor after it.
    pub(crate) fn read(
        &mut self,
        cursor: &mut Cursor<'_>,
        name: &[u8],
        scope_types: ScopeTypes,
    ) -> Result<NodeId, Failure> {
        self.arena.start(name)?;
        self.scope_types = scope_types;
        self.is_ambiguous = false;
        self.tasks.clear();
        self.values.clear();
        self.substitutions.clear();
        self.then(Task::Encoding)?;
        for _ in 0..u64::MAX {
            let Some(task) = self.tasks.pop() else {
                break;
            };
            self.step(task, cursor)?;
        }
        if !matches!(cursor.peek(), None | Some(b'.' | b'@')) {
            return Err(Failure::Grammar);
        }
        self.take()
    }

    // Does a task.
    fn step(&mut self, task: Task, cursor: &mut Cursor<'_>) -> Result<(), Failure> {
        match task {
            Task::Encoding => self.read_encoding(cursor),
            Task::EncodingType => self.read_encoding_type(cursor),
            Task::MakeEncoding { mark, has_result } => self.make_encoding(mark, has_result),
            Task::Name => self.read_name(cursor),
            Task::NameArguments { is_substitution } => {
                self.read_name_arguments(is_substitution, cursor)
            }
            Task::Prefix { has_start, is_new } => self.read_prefix(has_start, is_new, cursor),
            Task::QualifyFunction(qualifier) => self.qualify_function(qualifier),
            Task::Unqualified => self.read_unqualified(cursor),
            Task::Tags => self.read_tags(cursor),
            Task::Qualify => self.qualify(),
            Task::LocalEntity => self.read_local_entity(cursor),
            Task::LocalEnd { default_argument } => self.end_local(default_argument, cursor),
            _ => self.step_in_type(task, cursor),
        }
    }

    // Does a task of a type or of template arguments.
    fn step_in_type(&mut self, task: Task, cursor: &mut Cursor<'_>) -> Result<(), Failure> {
        match task {
            Task::Type { is_conversion } => self.read_type(is_conversion, cursor),
            Task::Types { mark } => self.read_types(mark, cursor),
            Task::Substitute => self.substitute(),
            Task::QualifyType(qualifier) => self.qualify_type(qualifier),
            Task::QualifyFunctionType(qualifier) => self.qualify_function_type(qualifier),
            Task::TypeArguments {
                is_conversion,
                is_substitution,
            } => self.read_type_arguments(is_conversion, is_substitution, cursor),
            Task::MakeFunction { mark } => self.make_function(mark, cursor),
            Task::Arguments { mark, list_use } => self.read_arguments(mark, list_use, cursor),
            Task::Argument => self.read_argument(cursor),
            Task::LiteralValue => self.read_literal_value(cursor),
            Task::End => self.expect(b'E', cursor),
            Task::ConstructionOffset => self.read_construction_offset(cursor),
            Task::MakeTemporary => self.make_temporary(cursor),
            Task::LambdaParameters { mark } => self.read_lambda_parameters(mark, cursor),
            Task::MakeLambda { mark } => self.make_lambda(mark, cursor),
            Task::TemplateParameter => self.read_template_parameter(cursor),
            Task::TemplateParameters { mark } => self.read_template_parameters(mark, cursor),
            Task::EndNoexcept => self.end_noexcept(cursor),
            Task::EndThrow { mark } => self.end_throw(mark, cursor),
            _ => self.step_in_expression(task, cursor),
        }
    }

    // Does a task of an expression.
    fn step_in_expression(&mut self, task: Task, cursor: &mut Cursor<'_>) -> Result<(), Failure> {
        match task {
            Task::Expression => self.read_expression(cursor),
            Task::Expressions { mark, end } => self.read_expressions(mark, end, cursor),
            Task::Bounds {
                is_vector,
                is_conversion,
            } => self.end_bounds(is_vector, is_conversion, cursor),
            Task::DropValue => self.drop_value(),
            Task::MakeCondition => self.make_condition(),
            Task::MakeRangeValue => self.make_range_value(),
            Task::CastOperand => self.read_cast_operand(cursor),
            Task::NewInitializer => self.read_new_initializer(cursor),
            Task::MakeNew { has_value } => self.make_new(has_value),
            Task::MemberName => self.read_member_name(cursor),
            Task::ScopedName => self.read_scoped_name(cursor),
            Task::ScopeParts { is_nested } => self.read_scope_parts(is_nested, cursor),
            _ => self.make(task),
        }
    }

    // Makes a node of values.
    fn make(&mut self, task: Task) -> Result<(), Failure> {
        let last = self.take()?;
        match task {
            Task::MakeUnary(unary) => self.make_unary(unary, last),
            Task::Wrap(wrapper) => self.give(Node::Wrapped(wrapper, last)),
            Task::MakeInherited => self.give(Node::Constructor(last)),
            Task::MakeExpansion => self.give(Node::Expansion(last)),
            Task::MakeValueParameter => self.give(Node::ValueParameter(last)),
            Task::MakePackParameter => self.give(Node::PackParameter(last)),
            Task::MakeConversion => self.give(Node::Conversion(last)),
            Task::MakeSpecial(text) => self.give(Node::Special(text, last)),
            Task::MakeArray { has_length: false } => self.give(Node::Array(None, last)),
            _ => self.make_of_two(task, last),
        }
    }

    // Makes a node of two values, of which `last` is the second.
    fn make_of_two(&mut self, task: Task, last: NodeId) -> Result<(), Failure> {
        let first = self.take()?;
        match task {
            Task::MakeArray { .. } => self.give(Node::Array(Some(first), last)),
            Task::MakeBinary(binary) => self.make_binary(binary, first, last),
            Task::MakeVector => self.give(Node::Vector(first, last)),
            Task::MakeMemberPointer => self.give(Node::MemberPointer(first, last)),
            Task::VendorQualify => self.give(Node::VendorQualifier(last, first)),
            Task::MakeConstructionTable => self.give(Node::ConstructionTable(last, first)),
            _ => Err(Failure::Grammar),
        }
    }

    // Puts a task on the stack: it is the next one, unless another follows.
    fn then(&mut self, task: Task) -> Result<(), Failure> {
        if self.tasks.len() >= MAX_TASKS {
            return Err(Failure::Limit);
        }
        self.tasks.push(task)?;
        Ok(())
    }

    // Adds a node, which is the last value.
    fn give(&mut self, node: Node) -> Result<(), Failure> {
        let id = self.arena.add(node)?;
        self.values.push(id)?;
        Ok(())
    }

    // Puts a node on the values.
    fn give_id(&mut self, id: NodeId) -> Result<(), Failure> {
        self.values.push(id)?;
        Ok(())
    }

    // Removes the last value.
    fn take(&mut self) -> Result<NodeId, Failure> {
        self.values.pop().ok_or(Failure::Grammar)
    }

    fn drop_value(&mut self) -> Result<(), Failure> {
        self.take()?;
        Ok(())
    }

    // Returns the last value.
    fn last(&self) -> Result<NodeId, Failure> {
        self.values.last().copied().ok_or(Failure::Grammar)
    }

    // Removes the values above a mark, and makes a list of them.
    fn take_list(&mut self, mark: usize) -> Result<NodeList, Failure> {
        let start = self.arena.item_count();
        for index in mark..self.values.len() {
            let id = self.values.get(index).copied();
            self.arena.add_item(id.ok_or(Failure::Grammar)?)?;
        }
        let end = self.arena.item_count();
        self.values.truncate(mark);
        Ok(NodeList { start, end })
    }

    // Adds the last value to the substitutions.
    fn substitute(&mut self) -> Result<(), Failure> {
        let id = self.last()?;
        self.substitutions.push(id)?;
        Ok(())
    }

    // Moves over a byte.
    fn expect(&mut self, byte: u8, cursor: &mut Cursor<'_>) -> Result<(), Failure> {
        if cursor.eat(byte) {
            Ok(())
        } else {
            Err(Failure::Grammar)
        }
    }
}

// Returns the byte after the next one.
fn peek_second(cursor: &Cursor<'_>) -> Option<u8> {
    let mut next = *cursor;
    next.set_position(cursor.position().saturating_add(1));
    next.peek()
}

// Returns whether a list of types ends.
fn is_list_end(cursor: &Cursor<'_>) -> bool {
    match cursor.peek() {
        None | Some(b'E' | b'.' | b'@') => true,
        Some(b'R' | b'O') => peek_second(cursor) == Some(b'E'),
        _ => false,
    }
}

// Reads digits to the base 36 and an underscore: 0 if there is none, or their number and 1.
fn read_sequence(cursor: &mut Cursor<'_>) -> Result<usize, Failure> {
    if cursor.eat(b'_') {
        return Ok(0);
    }
    let mut number = 0usize;
    for _ in 0..u64::MAX {
        let byte = cursor.next_byte()?;
        let digit = match byte {
            b'0'..=b'9' => byte - b'0',
            b'A'..=b'Z' => byte - b'A' + 10,
            b'_' => break,
            _ => return Err(Failure::Grammar),
        };
        number = number.checked_mul(36).ok_or(Failure::Limit)?;
        number = number.checked_add(digit as usize).ok_or(Failure::Limit)?;
    }
    number.checked_add(1).ok_or(Failure::Limit)
}

// Reads decimal digits and an underscore: 0 if there is none, or their number and 1.
fn read_compact_number(cursor: &mut Cursor<'_>) -> Result<usize, Failure> {
    if cursor.eat(b'_') {
        return Ok(0);
    }
    let number = cursor.number()?;
    if !cursor.eat(b'_') {
        return Err(Failure::Grammar);
    }
    number.checked_add(1).ok_or(Failure::Limit)
}

// Reads the number of an entity among those of one name in a function, if there is one.
fn read_discriminator(cursor: &mut Cursor<'_>) -> Result<(), Failure> {
    let is_long = peek_second(cursor) == Some(b'_');
    let is_short = matches!(peek_second(cursor), Some(b'0'..=b'9'));
    if cursor.peek() != Some(b'_') || !(is_long || is_short) {
        return Ok(());
    }
    cursor.take(if is_long { 2 } else { 1 })?;
    let number = cursor.number()?;
    if is_long && number >= 10 && !cursor.eat(b'_') {
        return Err(Failure::Grammar);
    }
    Ok(())
}
