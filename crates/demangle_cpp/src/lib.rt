//! Demangles names of C++ (Itanium C++ ABI).
#![tactic(auto)]

ghost use Rattle.std.specs.Prelude.{◌≡◌};
ghost use Rattle.demangle_text.specs.Text.{limit_of};

mod clones;
mod node;
mod printer;
mod reader;
mod tables;

use clones::put_clones;
use demangle_text::{Cursor, Failure, Text};
use printer::Printer;
use reader::{Reader, ScopeTypes};
use std::alloc::Global;

// Whether nested and simple scopes in expressions are types, as compilers of today and of before have it.
const WAYS: [(bool, bool); 3] = [(true, false), (false, false), (true, true)];

/// What the text of a C++ function has.
#[derive(Clone, Copy, Debug, PartialEq, Eq)]
pub enum Style {
    /// The name.
    Name,
    /// The result, the name, the parameters, and suffixes of the compiler.
    Signature,
}

/// Demangles names of C++. It keeps its buffers between names.
#[derive(Drop)]
pub struct CppDemangler {
    reader: Reader,
    printer: Printer,
}

impl CppDemangler {
    ghost use Rattle.demangle_cpp.specs.Unused.{IsUnused};

    /// Creates a demangler.
    pub fn new(alloc: Global) -> CppDemangler
        ensures { IsUnused result }
    {
        CppDemangler {
            reader: Reader::new(alloc),
            printer: Printer::new(alloc),
        }
    }

    /// Appends the text of a name, of which `name` is what follows `_Z`.
    ///
    /// Fails with [`Failure::Grammar`] if it is no name, with [`Failure::Limit`] if it is beyond a limit, and
    /// with [`Failure::Memory`] if memory runs out.
    pub fn demangle(&mut self, name: &[u8], style: Style, text: &mut Text) -> Result<(), Failure>
        ensures limit { limit_of text.new ≡ limit_of text.old }
    {
        let mut cursor = Cursor::new(name);
        let root = self.read(&mut cursor, name)?;
        match style {
            Style::Name => self.printer.print_name(root, &self.reader.arena, text)?,
            Style::Signature => {
                self.printer.print(root, &self.reader.arena, text)?;
                put_clones(&mut cursor, text)?;
            }
        }
        Ok(())
    }

    // Reads a name in the ways of different compilers, until it is in the grammar.
    fn read(&mut self, cursor: &mut Cursor<'_>, name: &[u8]) -> Result<usize, Failure> {
        let mut outcome = Err(Failure::Grammar);
        for (is_nested_a_type, is_simple_a_type) in WAYS {
            cursor.set_position(0);
            let scope_types = ScopeTypes {
                is_nested_a_type,
                is_simple_a_type,
            };
            outcome = self.reader.read(cursor, name, scope_types);
            if outcome != Err(Failure::Grammar) || !self.reader.is_ambiguous {
                break;
            }
        }
        outcome
    }
}
