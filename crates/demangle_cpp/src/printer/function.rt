//! Functions with their results and parameters.

use crate::node::{Arena, Node, NodeId, NodeList, Qualifier};
use crate::printer::{Printer, ScopeId, ScopedNode, Task, without_function_qualifiers};
use crate::tables::qualifier_text;
use demangle_text::Failure;

impl Printer {
    // Writes a function: its result, its name, and its parameters.
    pub(super) fn encoding(
        &mut self,
        name: NodeId,
        output: Option<NodeId>,
        parameters: NodeList,
        scope: ScopeId,
        arena: &Arena,
    ) -> Result<(), Failure> {
        let inner = self.scope_of_function(name, scope, arena)?;
        if let Some(node) = output {
            let place = ScopedNode { node, scope: inner };
            self.then(Task::Right(place))?;
        }
        self.then_qualifiers(name, inner, arena)?;
        self.then_parameters(parameters, inner, arena)?;
        let node = without_function_qualifiers(name, arena)?;
        self.then_place(ScopedNode { node, scope })?;
        if let Some(node) = output {
            let place = ScopedNode { node, scope: inner };
            self.then_result(place, arena)?;
        }
        Ok(())
    }

    // Writes what a result has to the left of a function, and a blank unless the result goes around it.
    pub(super) fn then_result(&mut self, output: ScopedNode, arena: &Arena) -> Result<(), Failure> {
        if !self.has_right(output, arena)? {
            self.then_word(" ")?;
        }
        self.then(Task::Left(output))
    }

    // Returns the scope of the result and the parameters of a function.
    fn scope_of_function(
        &mut self,
        name: NodeId,
        scope: ScopeId,
        arena: &Arena,
    ) -> Result<ScopeId, Failure> {
        let mut id = name;
        for _ in 0..u64::MAX {
            id = match arena.node(id)? {
                Node::FunctionQualifier(inner, _) => inner,
                Node::Local(_, entity) => entity,
                Node::DefaultArgument(_, entity) => entity,
                Node::Template(_, arguments) => return self.open_scope(arguments, scope),
                _ => return Ok(scope),
            };
        }
        Ok(scope)
    }

    // Puts the qualifiers of a function on the tasks, from a name that has them around it.
    fn then_qualifiers(
        &mut self,
        name: NodeId,
        scope: ScopeId,
        arena: &Arena,
    ) -> Result<(), Failure> {
        let mut id = name;
        for _ in 0..u64::MAX {
            id = match arena.node(id)? {
                Node::FunctionQualifier(inner, qualifier) => {
                    self.then_qualifier(qualifier, scope)?;
                    inner
                }
                Node::Local(_, entity) => entity,
                Node::DefaultArgument(_, entity) => entity,
                _ => break,
            };
        }
        Ok(())
    }

    // Puts a qualifier of a function on the tasks.
    pub(super) fn then_qualifier(
        &mut self,
        qualifier: Qualifier,
        scope: ScopeId,
    ) -> Result<(), Failure> {
        match qualifier {
            Qualifier::NoexceptIf(node) => {
                self.then_word(")")?;
                self.then_place(ScopedNode { node, scope })?;
            }
            Qualifier::Throw(list) => {
                self.then_word(")")?;
                self.then(Task::List(list, scope))?;
            }
            _ => (),
        }
        self.then_word(qualifier_text(qualifier))
    }

    // Puts the parameters of a function on the tasks.
    pub(super) fn then_parameters(
        &mut self,
        parameters: NodeList,
        scope: ScopeId,
        arena: &Arena,
    ) -> Result<(), Failure> {
        self.then_word(")")?;
        if !arena.is_void(parameters) {
            self.then(Task::List(parameters, scope))?;
        }
        self.then_word("(")
    }

    // Writes what a function type has to the right of a declarator.
    pub(super) fn function_right(
        &mut self,
        place: ScopedNode,
        arena: &Arena,
    ) -> Result<(), Failure> {
        let scope = place.scope;
        let id = without_function_qualifiers(place.node, arena)?;
        let Node::Function(node, parameters) = arena.node(id)? else {
            return Ok(());
        };
        self.then(Task::Right(ScopedNode { node, scope }))?;
        self.then_qualifiers(place.node, scope, arena)?;
        self.then_parameters(parameters, scope, arena)
    }
}
