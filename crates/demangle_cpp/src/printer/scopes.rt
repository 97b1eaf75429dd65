//! What template parameters stand for, and the shapes of types.

use crate::node::{Arena, Node, NodeList, Wrapper};
use crate::printer::{Printer, ResolvedNode, Scope, ScopeId, ScopedNode, Shape};
use demangle_text::Failure;

// Returns what a wrapper around a wrapper is written as, or `None` if both are written.
fn collapsed(outer: Wrapper, inner: Wrapper) -> Option<Wrapper> {
    match (outer, inner) {
        (Wrapper::RvalueReference, Wrapper::Reference) => Some(inner),
        (Wrapper::Reference, Wrapper::RvalueReference) => Some(outer),
        _ if outer == inner => Some(outer),
        _ => None,
    }
}

impl Printer {
    // Adds a scope with these template arguments.
    pub(super) fn open_scope(
        &mut self,
        arguments: NodeList,
        outer: ScopeId,
    ) -> Result<ScopeId, Failure> {
        let id = self.scopes.len();
        self.scopes.push(Scope { arguments, outer })?;
        Ok(id)
    }

    // Returns the argument of a parameter in a scope, which may be a whole pack.
    fn whole_argument(
        &self,
        index: usize,
        scope: ScopeId,
        arena: &Arena,
    ) -> Result<ScopedNode, Failure> {
        let found = self.scopes.get(scope).copied().ok_or(Failure::Grammar)?;
        let node = arena.item(found.arguments, index).ok_or(Failure::Grammar)?;
        Ok(ScopedNode {
            node,
            scope: found.outer,
        })
    }

    // Returns the argument of a parameter in a scope: of a pack, the one whose turn it is.
    fn argument(&self, index: usize, scope: ScopeId, arena: &Arena) -> Result<ScopedNode, Failure> {
        let whole = self.whole_argument(index, scope, arena)?;
        match (arena.node(whole.node)?, self.pack_index) {
            (Node::Pack(list), Some(turn)) => {
                let node = arena.item(list, turn).ok_or(Failure::Grammar)?;
                Ok(ScopedNode {
                    node,
                    scope: whole.scope,
                })
            }
            _ => Ok(whole),
        }
    }

    // Replaces template parameters by their arguments, unless they are those of a lambda.
    pub(super) fn resolve(
        &mut self,
        place: ScopedNode,
        arena: &Arena,
    ) -> Result<ResolvedNode, Failure> {
        let mut place = place;
        for _ in 0..u64::MAX {
            let node = arena.node(place.node)?;
            match node {
                Node::Parameter(index) if self.lambda.is_none() => {
                    self.count_step()?;
                    place = self.argument(index, place.scope, arena)?;
                }
                _ => return Ok(ResolvedNode { node, place }),
            }
        }
        Err(Failure::Limit)
    }

    // Returns what is inside qualifiers of a type, and whether there are any.
    pub(super) fn unqualified(
        &mut self,
        place: ScopedNode,
        arena: &Arena,
    ) -> Result<(ResolvedNode, bool), Failure> {
        let mut found = self.resolve(place, arena)?;
        let mut is_qualified = false;
        for _ in 0..u64::MAX {
            let Node::TypeQualifier(node, _) = found.node else {
                break;
            };
            self.count_step()?;
            is_qualified = true;
            let scope = found.place.scope;
            found = self.resolve(ScopedNode { node, scope }, arena)?;
        }
        Ok((found, is_qualified))
    }

    // Returns what a type writes around a declarator that follows it.
    pub(super) fn shape(&mut self, place: ScopedNode, arena: &Arena) -> Result<Shape, Failure> {
        let (found, is_qualified) = self.unqualified(place, arena)?;
        Ok(match found.node {
            Node::Array(..) => Shape::Array,
            Node::Function(..) | Node::FunctionQualifier(..) if !is_qualified => Shape::Function,
            _ => Shape::Plain,
        })
    }

    // Returns whether a type writes something to the right of a declarator.
    pub(super) fn has_right(&mut self, place: ScopedNode, arena: &Arena) -> Result<bool, Failure> {
        let mut place = place;
        for _ in 0..u64::MAX {
            self.count_step()?;
            let found = self.resolve(place, arena)?;
            let scope = found.place.scope;
            let node = match found.node {
                Node::Function(..) | Node::FunctionQualifier(..) | Node::Array(..) => {
                    return Ok(true);
                }
                Node::Wrapped(_, inner) => inner,
                Node::TypeQualifier(inner, _) => inner,
                Node::VendorQualifier(inner, _) => inner,
                Node::MemberPointer(_, inner) => inner,
                Node::Vector(_, inner) => inner,
                _ => return Ok(false),
            };
            place = ScopedNode { node, scope };
        }
        Ok(false)
    }

    // Returns a reference as which one to a reference is written, and what it refers to.
    pub(super) fn collapse(
        &mut self,
        wrapper: Wrapper,
        place: ScopedNode,
        arena: &Arena,
    ) -> Result<(Wrapper, ScopedNode), Failure> {
        let mut wrapper = wrapper;
        let mut place = place;
        if wrapper == Wrapper::Pointer {
            return Ok((wrapper, place));
        }
        for _ in 0..u64::MAX {
            self.count_step()?;
            let found = self.resolve(place, arena)?;
            let Node::Wrapped(inner, node) = found.node else {
                break;
            };
            let Some(both) = collapsed(wrapper, inner) else {
                break;
            };
            wrapper = both;
            let scope = found.place.scope;
            place = ScopedNode { node, scope };
        }
        Ok((wrapper, place))
    }

    // Returns the number of items that an expansion of a pattern has, or `None` without a parameter pack.
    pub(super) fn pack_length(
        &mut self,
        pattern: ScopedNode,
        arena: &Arena,
    ) -> Result<Option<usize>, Failure> {
        if self.lambda.is_some() {
            return Ok(None);
        }
        self.search.clear();
        self.search.push(pattern.node)?;
        for _ in 0..u64::MAX {
            let Some(id) = self.search.pop() else {
                break;
            };
            self.count_step()?;
            let node = arena.node(id)?;
            if let Some(count) = self.length_of_pack(node, pattern.scope, arena) {
                return Ok(Some(count));
            }
            self.search_node(node, arena)?;
        }
        Ok(None)
    }

    // Returns the number of arguments of a node that is a parameter pack.
    fn length_of_pack(&self, node: Node, scope: ScopeId, arena: &Arena) -> Option<usize> {
        let Node::Parameter(index) = node else {
            return None;
        };
        let whole = self.whole_argument(index, scope, arena).ok()?;
        match arena.node(whole.node) {
            Ok(Node::Pack(list)) => Some(list.end.saturating_sub(list.start)),
            _ => None,
        }
    }

    // Adds what a node consists of to what is searched for parameter packs.
    fn search_node(&mut self, node: Node, arena: &Arena) -> Result<(), Failure> {
        match node {
            Node::FunctionQualifier(inner, _)
            | Node::TypeQualifier(inner, _)
            | Node::Wrapped(_, inner)
            | Node::Enclosed(_, inner)
            | Node::Braces(None, inner)
            | Node::Prefix(_, inner)
            | Node::Postfix(_, inner)
            | Node::SizeOfPack(inner)
            | Node::LeftFold(_, inner)
            | Node::RightFold(_, inner)
            | Node::Special(_, inner)
            | Node::Expansion(inner)
            | Node::Array(None, inner)
            | Node::Conversion(inner)
            | Node::DefaultArgument(_, inner) => self.search.push(inner)?,
            Node::Template(inner, list)
            | Node::Function(inner, list)
            | Node::Encoding(inner, None, list) => {
                self.search_in_list(list, arena)?;
                self.search.push(inner)?;
            }
            Node::Pack(list) | Node::Expressions(list) => self.search_in_list(list, arena)?,
            _ => self.search_in_each(node)?,
        }
        Ok(())
    }

    // Adds the two or three nodes that a node consists of.
    fn search_in_each(&mut self, node: Node) -> Result<(), Failure> {
        match node {
            Node::Qualified(first, second)
            | Node::Local(first, second)
            | Node::Binary(_, first, second)
            | Node::Call(first, second)
            | Node::Index(first, second)
            | Node::Cast(first, second)
            | Node::NamedCast(_, first, second)
            | Node::Braces(Some(first), second)
            | Node::BinaryFold(_, first, second)
            | Node::MemberPointer(first, second)
            | Node::Vector(first, second)
            | Node::VendorQualifier(first, second)
            | Node::Array(Some(first), second) => {
                self.search.push(second)?;
                self.search.push(first)?;
            }
            Node::Condition(first, second, third) => {
                self.search.push(third)?;
                self.search.push(second)?;
                self.search.push(first)?;
            }
            _ => (),
        }
        Ok(())
    }

    // Adds the items of a list.
    fn search_in_list(&mut self, list: NodeList, arena: &Arena) -> Result<(), Failure> {
        let count = list.end.saturating_sub(list.start);
        for index in 0..count {
            let last = count.saturating_sub(index).saturating_sub(1);
            self.count_step()?;
            if let Some(id) = arena.item(list, last) {
                self.search.push(id)?;
            }
        }
        Ok(())
    }

    // Returns the number of arguments of a list, in which the parameter packs are expanded.
    pub(super) fn count_arguments(
        &mut self,
        list: NodeList,
        scope: ScopeId,
        arena: &Arena,
    ) -> Result<usize, Failure> {
        let mut total = 0usize;
        for index in 0..list.end.saturating_sub(list.start) {
            self.count_step()?;
            let node = arena.item(list, index).ok_or(Failure::Grammar)?;
            let mut count = 1;
            if let Node::Expansion(node) = arena.node(node)? {
                count = self
                    .pack_length(ScopedNode { node, scope }, arena)?
                    .unwrap_or(1);
            }
            total = total.checked_add(count).ok_or(Failure::Limit)?;
        }
        Ok(total)
    }
}
