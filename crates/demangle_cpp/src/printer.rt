//! Writing the tree of a name as text.
//!
//! What is to be written are tasks on a stack: no call is recursive.
ghost use Rattle.std.specs.Prelude.{◌≡◌};
ghost use Rattle.demangle_text.specs.Text.{limit_of};

mod expression;
mod function;
mod lambda;
mod list;
mod name;
mod scopes;
mod types;

use crate::node::{Arena, ByteRange, Node, NodeId, NodeList};
use demangle_text::{Failure, Text};
use std::alloc::Global;

// The greatest number of open tasks.
const MAX_TASKS: usize = 4096;

// The greatest number of steps for each byte that the text may have.
const STEPS_PER_BYTE: usize = 16;

/// The index of a scope.
type ScopeId = usize;

// The scope without template arguments.
const NO_SCOPE: ScopeId = 0;

/// The template arguments that parameters stand for, and the scope around them.
#[derive(Clone, Copy)]
struct Scope {
    arguments: NodeList,
    outer: ScopeId,
}

/// A node, and the scope of the template parameters in it.
#[derive(Clone, Copy)]
struct ScopedNode {
    node: NodeId,
    scope: ScopeId,
}

/// What is at a place, once template parameters are replaced.
#[derive(Clone, Copy)]
struct ResolvedNode {
    node: Node,
    place: ScopedNode,
}

/// What a type writes around a declarator.
#[derive(Clone, Copy, PartialEq, Eq)]
enum Shape {
    Plain,
    Array,
    Function,
}

/// The items of a list that are still to be written.
#[derive(Clone, Copy)]
struct Rest {
    items: NodeList,
    scope: ScopeId,
    is_first: bool,
    /// The length of the text up to the last item that wrote something.
    kept: usize,
    /// The length of the text before the current item.
    before: usize,
}

/// The items of a pattern with a parameter pack that are still to be written.
#[derive(Clone, Copy)]
struct Expansion {
    pattern: ScopedNode,
    index: usize,
    count: usize,
    /// The index in the expansion around it.
    outer: Option<usize>,
}

/// What is to be written, or what is to be done then.
#[derive(Clone, Copy)]
enum Task {
    /// A name, or what a type has to the left of a declarator.
    Left(ScopedNode),
    /// What a type has to the right of a declarator.
    Right(ScopedNode),
    Word(&'static str),
    Bytes(ByteRange),
    Number(usize),
    /// The scope of a name.
    ScopeName(ScopedNode),
    List(NodeList, ScopeId),
    Items(Rest),
    AfterItem(Rest),
    Expand(Expansion),
    /// The parenthesis before a declarator, after a blank unless another one is there.
    OpenDeclarator { is_pointer: bool },
    /// The class of a pointer to a member is next.
    BeforeMember,
    OpenArguments,
    CloseArguments,
    /// The end of the bounds of an array.
    EndBounds,
    /// The template parameters of the lambda whose parameters are written.
    Lambda(Option<NodeList>),
    /// The index in an expansion.
    PackIndex(Option<usize>),
}

/// Writes names. It keeps its buffers between names.
#[derive(Drop)]
pub(crate) struct Printer {
    tasks: Vec<Task>,
    scopes: Vec<Scope>,
    search: Vec<NodeId>,
    /// The template parameters of the lambda whose parameters are written.
    lambda: Option<NodeList>,
    pack_index: Option<usize>,
    steps: usize,
    /// The length of the text when items of a list were removed from its end.
    dropped_at: usize,
    /// The length of the text after the bounds of an array.
    bounds_at: usize,
}

impl Printer {
    ghost use Rattle.demangle_cpp.specs.Unused.{IsUnusedPrinter};

    /// Creates a printer.
    pub(crate) fn new(alloc: Global) -> Printer
        ensures { IsUnusedPrinter result }
    {
        Printer {
            tasks: Vec::new(alloc),
            scopes: Vec::new(alloc),
            search: Vec::new(alloc),
            lambda: None,
            pack_index: None,
            steps: 0,
            dropped_at: 0,
            bounds_at: 0,
        }
    }

    /// Writes a name.
    pub(crate) fn print(
        &mut self,
        root: NodeId,
        arena: &Arena,
        text: &mut Text,
    ) -> Result<(), Failure>
        ensures limit { limit_of text.new ≡ limit_of text.old }
    {
        self.start(text.limit())?;
        self.then_place(ScopedNode {
            node: root,
            scope: NO_SCOPE,
        })?;
        'tasks: for _ in 0..u64::MAX {
            let Some(task) = self.tasks.pop() else {
                break;
            };
            self.count_step()?;
            self.step(task, arena, text)?;
        }
        Ok(())
    }

    /// Writes the name of a function without its type, or another name.
    pub(crate) fn print_name(
        &mut self,
        root: NodeId,
        arena: &Arena,
        text: &mut Text,
    ) -> Result<(), Failure>
        ensures limit { limit_of text.new ≡ limit_of text.old }
    {
        let mut name = root;
        if let Node::Encoding(inner, _, _) = arena.node(root)? {
            name = inner;
        }
        let name = without_function_qualifiers(name, arena)?;
        self.print(name, arena, text)
    }

    fn start(&mut self, limit: usize) -> Result<(), Failure> {
        self.tasks.clear();
        self.scopes.clear();
        self.lambda = None;
        self.pack_index = Some(0);
        self.steps = limit.saturating_mul(STEPS_PER_BYTE);
        self.dropped_at = usize::MAX;
        self.bounds_at = usize::MAX;
        let arguments = NodeList { start: 0, end: 0 };
        let outer = NO_SCOPE;
        self.scopes.push(Scope { arguments, outer })?;
        Ok(())
    }

    // Takes a step of those that are left.
    fn count_step(&mut self) -> Result<(), Failure> {
        self.steps = self.steps.checked_sub(1).ok_or(Failure::Limit)?;
        Ok(())
    }

    // Does a task.
    fn step(&mut self, task: Task, arena: &Arena, text: &mut Text) -> Result<(), Failure>
        ensures limit { limit_of text.new ≡ limit_of text.old }
    {
        match task {
            Task::Left(place) => self.left(place, arena, text),
            Task::Right(place) => self.right(place, arena, text),
            Task::Word(word) => text.put(word.as_bytes()),
            Task::Bytes(range) => text.put(arena.bytes(range)),
            Task::ScopeName(place) => self.scope_name(place, arena),
            Task::List(items, scope) => self.list(items, scope, arena, text),
            Task::EndBounds => self.end_bounds(text),
            Task::Number(number) => text.put_number(number as u64),
            Task::Items(rest) => self.items(rest, arena, text),
            Task::AfterItem(rest) => self.after_item(rest, text),
            Task::Expand(expansion) => self.expand(expansion, text),
            Task::OpenDeclarator { is_pointer } => self.open_declarator(is_pointer, text),
            Task::BeforeMember => self.before_member(text),
            Task::OpenArguments => self.open_arguments(text),
            Task::CloseArguments => self.close_arguments(text),
            Task::PackIndex(index) => {
                self.pack_index = index;
                Ok(())
            }
            Task::Lambda(declared) => {
                self.lambda = declared;
                Ok(())
            }
        }
    }

    // Puts a task on the stack: it is the next one, unless another follows.
    fn then(&mut self, task: Task) -> Result<(), Failure> {
        if self.tasks.len() >= MAX_TASKS {
            return Err(Failure::Limit);
        }
        self.tasks.push(task)?;
        Ok(())
    }

    // Puts a fixed text on the tasks.
    fn then_word(&mut self, word: &'static str) -> Result<(), Failure> {
        self.then(Task::Word(word))
    }

    // Puts a name or a whole type on the tasks.
    fn then_place(&mut self, place: ScopedNode) -> Result<(), Failure> {
        self.then(Task::Right(place))?;
        self.then(Task::Left(place))
    }

    // Returns the last byte of the text: a blank if items of a list were removed.
    fn last_byte(&self, text: &Text) -> Option<u8> {
        if self.dropped_at == text.len() {
            Some(b' ')
        } else {
            text.last()
        }
    }
}

// Returns a name without the qualifiers of a function.
fn without_function_qualifiers(name: NodeId, arena: &Arena) -> Result<NodeId, Failure> {
    let mut id = name;
    for _ in 0..u64::MAX {
        let Node::FunctionQualifier(inner, _) = arena.node(id)? else {
            break;
        };
        id = inner;
    }
    Ok(id)
}
