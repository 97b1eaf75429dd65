//! Lists, template arguments, and expansions of parameter packs.
ghost use Rattle.std.specs.Prelude.{◌≡◌};
ghost use Rattle.demangle_text.specs.Text.{limit_of};

use crate::node::{Arena, NodeList};
use crate::printer::{Expansion, Printer, Rest, ScopeId, ScopedNode, Task};
use demangle_text::{Failure, Text};

impl Printer {
    // Writes a list.
    pub(super) fn list(
        &mut self,
        items: NodeList,
        scope: ScopeId,
        arena: &Arena,
        text: &mut Text,
    ) -> Result<(), Failure>
        ensures limit { limit_of text.new ≡ limit_of text.old }
    {
        let kept = text.len();
        let rest = Rest {
            items,
            scope,
            is_first: true,
            kept,
            before: kept,
        };
        self.items(rest, arena, text)
    }

    // Writes the first of the items that are left, or removes what follows the last one that wrote something.
    pub(super) fn items(
        &mut self,
        rest: Rest,
        arena: &Arena,
        text: &mut Text,
    ) -> Result<(), Failure>
        ensures limit { limit_of text.new ≡ limit_of text.old }
    {
        let Some(node) = arena.item(rest.items, 0) else {
            if rest.kept < text.len() {
                text.truncate(rest.kept);
                self.dropped_at = text.len();
            }
            return Ok(());
        };
        if !rest.is_first {
            text.put(b", ")?;
        }
        let items = NodeList {
            start: rest.items.start.saturating_add(1),
            end: rest.items.end,
        };
        let before = text.len();
        let scope = rest.scope;
        self.then(Task::AfterItem(Rest {
            items,
            scope,
            is_first: false,
            kept: rest.kept,
            before,
        }))?;
        self.then_place(ScopedNode { node, scope })
    }

    pub(super) fn after_item(&mut self, rest: Rest, text: &mut Text) -> Result<(), Failure>
        ensures limit { limit_of text.new ≡ limit_of text.old }
    {
        let length = text.len();
        let kept = if rest.before < length {
            length
        } else {
            rest.kept
        };
        self.then(Task::Items(Rest {
            items: rest.items,
            scope: rest.scope,
            is_first: rest.is_first,
            kept,
            before: length,
        }))
    }

    // Writes the next item of an expansion.
    pub(super) fn expand(&mut self, expansion: Expansion, text: &mut Text) -> Result<(), Failure>
        ensures limit { limit_of text.new ≡ limit_of text.old }
    {
        if expansion.index >= expansion.count {
            self.pack_index = expansion.outer;
            return Ok(());
        }
        if expansion.index > 0 {
            text.put(b", ")?;
        }
        self.pack_index = Some(expansion.index);
        self.then(Task::Expand(Expansion {
            pattern: expansion.pattern,
            index: expansion.index.saturating_add(1),
            count: expansion.count,
            outer: expansion.outer,
        }))?;
        self.then_place(expansion.pattern)
    }

    pub(super) fn open_arguments(&mut self, text: &mut Text) -> Result<(), Failure>
        ensures limit { limit_of text.new ≡ limit_of text.old }
    {
        if self.last_byte(text) == Some(b'<') {
            return text.put(b" <");
        }
        text.put(b"<")
    }

    pub(super) fn close_arguments(&mut self, text: &mut Text) -> Result<(), Failure>
        ensures limit { limit_of text.new ≡ limit_of text.old }
    {
        if self.last_byte(text) == Some(b'>') {
            return text.put(b" >");
        }
        text.put(b">")
    }
}
