//! Lambdas with their template parameters.
ghost use Rattle.std.specs.Prelude.{◌≡◌};
ghost use Rattle.demangle_text.specs.Text.{limit_of};

use crate::node::{Arena, Node, NodeId, NodeList};
use crate::printer::{Printer, ScopeId, ScopedNode, Task};
use demangle_text::{Failure, Text};

impl Printer {
    // Writes a lambda with its parameters.
    pub(super) fn lambda(
        &mut self,
        declared: NodeList,
        parameters: NodeList,
        number: usize,
        scope: ScopeId,
        arena: &Arena,
    ) -> Result<(), Failure> {
        self.then_word("}")?;
        self.then(Task::Number(number.saturating_add(1)))?;
        self.then_word("#")?;
        let was = self.lambda;
        self.then(Task::Lambda(was))?;
        self.then_parameters(parameters, scope, arena)?;
        self.then_declared(declared, scope, arena)?;
        self.then(Task::Lambda(Some(declared)))?;
        self.then_word("{lambda")
    }

    // Puts the template parameters of a lambda on the tasks, with their names.
    fn then_declared(
        &mut self,
        declared: NodeList,
        scope: ScopeId,
        arena: &Arena,
    ) -> Result<(), Failure> {
        let count = declared.end.saturating_sub(declared.start);
        if count == 0 {
            return Ok(());
        }
        self.then(Task::CloseArguments)?;
        for index in 0..count {
            let last = count.saturating_sub(index).saturating_sub(1);
            let node = arena.item(declared, last).ok_or(Failure::Grammar)?;
            self.then(Task::Number(last))?;
            self.then_word(name_of_parameter(node, arena)?)?;
            self.then_word(" ")?;
            self.then_place(ScopedNode { node, scope })?;
            self.then_word(if last == 0 { "<" } else { ", " })?;
        }
        Ok(())
    }

    // Writes a template parameter of a lambda, which has a name if it is declared.
    pub(super) fn lambda_parameter(
        &mut self,
        number: usize,
        arena: &Arena,
        text: &mut Text,
    ) -> Result<(), Failure>
        ensures limit { limit_of text.new ≡ limit_of text.old }
    {
        let declared = self.lambda.and_then(|list| arena.item(list, number));
        let Some(node) = declared else {
            text.put(b"auto:")?;
            return text.put_number(number.saturating_add(1) as u64);
        };
        text.put(name_of_parameter(node, arena)?.as_bytes())?;
        text.put_number(number as u64)
    }

    // Writes the declaration of a template parameter of a lambda, without its name.
    pub(super) fn declaration(
        &mut self,
        node: Node,
        scope: ScopeId,
        text: &mut Text,
    ) -> Result<(), Failure>
        ensures limit { limit_of text.new ≡ limit_of text.old }
    {
        match node {
            Node::TypeParameter => text.put(b"typename"),
            Node::ValueParameter(node) => self.then_place(ScopedNode { node, scope }),
            Node::PackParameter(node) => {
                self.then_word("...")?;
                self.then_place(ScopedNode { node, scope })
            }
            Node::TemplateParameter(list) => {
                self.then_word("> class")?;
                self.then(Task::List(list, scope))?;
                text.put(b"template<")
            }
            _ => Err(Failure::Grammar),
        }
    }
}

// Returns how the name of a template parameter of a lambda starts.
fn name_of_parameter(declared: NodeId, arena: &Arena) -> Result<&'static str, Failure> {
    let mut id = declared;
    for _ in 0..u64::MAX {
        match arena.node(id)? {
            Node::PackParameter(inner) => id = inner,
            Node::ValueParameter(_) => return Ok("$N"),
            Node::TemplateParameter(_) => return Ok("$TT"),
            _ => break,
        }
    }
    Ok("$T")
}
