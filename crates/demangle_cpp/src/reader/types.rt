//! Types.

use crate::node::{ByteRange, LiteralForm, Node, Qualifier};
use crate::reader::{Reader, Task, Unary, is_list_end, peek_second, read_sequence};
use crate::tables::{
    builtin_type, extended_type, find_function_qualifier, find_qualifier, find_wrapper,
};
use demangle_text::{Cursor, Failure};

// Reads a qualifier of a type, or returns `None` if there is none.
fn read_qualifier(cursor: &mut Cursor<'_>) -> Result<Option<Qualifier>, Failure> {
    if let Some(qualifier) = cursor.peek().and_then(find_qualifier) {
        cursor.next_byte()?;
        return Ok(Some(qualifier));
    }
    if cursor.peek() != Some(b'D') {
        return Ok(None);
    }
    let found = peek_second(cursor).and_then(find_function_qualifier);
    if found.is_some() {
        cursor.take(2)?;
    }
    Ok(found)
}

// Returns whether a function type follows qualifiers.
fn is_function_after_qualifiers(cursor: &Cursor<'_>) -> Result<bool, Failure> {
    let mut inner = *cursor;
    for _ in 0..u64::MAX {
        if read_qualifier(&mut inner)?.is_none() {
            break;
        }
    }
    Ok(match inner.peek() {
        Some(b'F') => true,
        Some(b'D') => matches!(peek_second(&inner), Some(b'O' | b'w')),
        _ => false,
    })
}

// Reads digits.
fn read_digits(cursor: &mut Cursor<'_>) -> Result<ByteRange, Failure> {
    let start = cursor.position();
    cursor.number()?;
    let end = cursor.position();
    Ok(ByteRange { start, end })
}

// Returns whether the next type, of one byte, is the last one of a list.
fn is_last_type(cursor: &Cursor<'_>) -> bool {
    let mut after = *cursor;
    after.next_byte().is_ok() && is_list_end(&after)
}

impl Reader {
    pub(super) fn read_type(
        &mut self,
        is_conversion: bool,
        cursor: &mut Cursor<'_>,
    ) -> Result<(), Failure> {
        let next = cursor.peek().ok_or(Failure::Grammar)?;
        if let Some(wrapper) = find_wrapper(next) {
            cursor.next_byte()?;
            self.then(Task::Substitute)?;
            self.then(Task::Wrap(wrapper))?;
            return self.then(Task::Type { is_conversion });
        }
        match next {
            b'r' | b'V' | b'K' => self.read_qualified_type(is_conversion, cursor),
            b'0'..=b'9' | b'N' | b'Z' => {
                self.then(Task::Substitute)?;
                self.then(Task::Name)
            }
            b'F' => {
                self.then(Task::Substitute)?;
                self.read_function(cursor)
            }
            b'S' => self.read_substituted_type(is_conversion, cursor),
            b'T' => self.read_parameter_type(is_conversion, cursor),
            b'D' => self.read_extended_type(is_conversion, cursor),
            b'A' => self.read_array(is_conversion, cursor),
            b'M' => self.read_member_pointer(cursor),
            b'U' if matches!(peek_second(cursor), Some(b'l' | b't')) => {
                self.then(Task::Substitute)?;
                self.then(Task::Name)
            }
            b'U' => self.read_vendor_qualifier(is_conversion, cursor),
            b'u' => self.read_vendor_type(cursor),
            _ => {
                let builtin = builtin_type(next).ok_or(Failure::Grammar)?;
                cursor.next_byte()?;
                self.give(builtin)
            }
        }
    }

    // Reads qualifiers, which are one substitution with their type.
    fn read_qualified_type(
        &mut self,
        is_conversion: bool,
        cursor: &mut Cursor<'_>,
    ) -> Result<(), Failure> {
        let is_function = is_function_after_qualifiers(cursor)?;
        self.then(Task::Substitute)?;
        for _ in 0..u64::MAX {
            let Some(qualifier) = read_qualifier(cursor)? else {
                break;
            };
            if is_function {
                self.then(Task::QualifyFunctionType(qualifier))?;
            } else {
                self.then(Task::QualifyType(qualifier))?;
            }
        }
        match (is_function, cursor.peek()) {
            (false, _) => self.then(Task::Type { is_conversion }),
            (true, Some(b'D')) => self.read_exceptions(cursor),
            (true, _) => self.read_function(cursor),
        }
    }

    pub(super) fn qualify_type(&mut self, qualifier: Qualifier) -> Result<(), Failure> {
        let inner = self.take()?;
        self.give(Node::TypeQualifier(inner, qualifier))
    }

    // Adds a qualifier to a function type, before its reference qualifier.
    pub(super) fn qualify_function_type(&mut self, qualifier: Qualifier) -> Result<(), Failure> {
        let inner = self.take()?;
        match self.arena.node(inner)? {
            Node::FunctionQualifier(
                function,
                reference @ (Qualifier::Reference | Qualifier::RvalueReference),
            ) => {
                let qualified = Node::FunctionQualifier(function, qualifier);
                let function = self.arena.add(qualified)?;
                self.give(Node::FunctionQualifier(function, reference))
            }
            _ => self.give(Node::FunctionQualifier(inner, qualifier)),
        }
    }

    // Reads the condition under which a function throws nothing, or the types of its exceptions.
    fn read_exceptions(&mut self, cursor: &mut Cursor<'_>) -> Result<(), Failure> {
        self.expect(b'D', cursor)?;
        match cursor.next_byte()? {
            b'O' => {
                self.then(Task::EndNoexcept)?;
                self.then(Task::Expression)
            }
            _ => {
                let mark = self.values.len();
                self.then(Task::EndThrow { mark })?;
                self.then(Task::Types { mark })
            }
        }
    }

    // Reads a function type after the condition under which it throws nothing.
    pub(super) fn end_noexcept(&mut self, cursor: &mut Cursor<'_>) -> Result<(), Failure> {
        self.expect(b'E', cursor)?;
        let condition = self.take()?;
        self.then(Task::QualifyFunctionType(Qualifier::NoexceptIf(condition)))?;
        self.read_function(cursor)
    }

    // Reads a function type after the types of its exceptions.
    pub(super) fn end_throw(
        &mut self,
        mark: usize,
        cursor: &mut Cursor<'_>,
    ) -> Result<(), Failure> {
        self.expect(b'E', cursor)?;
        let list = self.take_list(mark)?;
        self.then(Task::QualifyFunctionType(Qualifier::Throw(list)))?;
        self.read_function(cursor)
    }

    // Reads a function type: its result and its parameters.
    fn read_function(&mut self, cursor: &mut Cursor<'_>) -> Result<(), Failure> {
        self.expect(b'F', cursor)?;
        cursor.eat(b'Y');
        let mark = self.values.len();
        self.then(Task::MakeFunction { mark })?;
        self.then(Task::Types {
            mark: mark.saturating_add(1),
        })?;
        self.then(Task::Type {
            is_conversion: false,
        })
    }

    pub(super) fn make_function(
        &mut self,
        mark: usize,
        cursor: &mut Cursor<'_>,
    ) -> Result<(), Failure> {
        let parameters = self.take_list(mark.saturating_add(1))?;
        let result = self.take()?;
        let is_reference = cursor.eat(b'R');
        let is_rvalue = !is_reference && cursor.eat(b'O');
        self.expect(b'E', cursor)?;
        self.give(Node::Function(result, parameters))?;
        if is_reference {
            return self.qualify_function(Qualifier::Reference);
        }
        if is_rvalue {
            return self.qualify_function(Qualifier::RvalueReference);
        }
        Ok(())
    }

    pub(super) fn read_types(
        &mut self,
        mark: usize,
        cursor: &mut Cursor<'_>,
    ) -> Result<(), Failure> {
        if is_list_end(cursor) {
            return Ok(());
        }
        let is_first = self.values.len() == mark;
        if is_first && cursor.peek() == Some(b'v') && !is_last_type(cursor) {
            return Err(Failure::Grammar);
        }
        self.then(Task::Types { mark })?;
        self.then(Task::Type {
            is_conversion: false,
        })
    }

    // Reads a type that starts with a substitution or with the namespace `std`.
    fn read_substituted_type(
        &mut self,
        is_conversion: bool,
        cursor: &mut Cursor<'_>,
    ) -> Result<(), Failure> {
        if peek_second(cursor) == Some(b't') {
            self.then(Task::Substitute)?;
            return self.then(Task::Name);
        }
        self.then(Task::TypeArguments {
            is_conversion,
            is_substitution: true,
        })?;
        self.read_substitution(false, cursor)
    }

    fn read_parameter_type(
        &mut self,
        is_conversion: bool,
        cursor: &mut Cursor<'_>,
    ) -> Result<(), Failure> {
        self.then(Task::TypeArguments {
            is_conversion,
            is_substitution: false,
        })?;
        self.read_parameter(cursor)
    }

    // Reads the template arguments of a parameter or substitution, if there are any.
    pub(super) fn read_type_arguments(
        &mut self,
        is_conversion: bool,
        is_substitution: bool,
        cursor: &mut Cursor<'_>,
    ) -> Result<(), Failure> {
        if !is_substitution {
            self.substitute()?;
        }
        if is_conversion || cursor.peek() != Some(b'I') {
            return Ok(());
        }
        self.then(Task::Substitute)?;
        self.read_template_arguments(cursor)
    }

    /// Reads a template parameter.
    pub(super) fn read_parameter(&mut self, cursor: &mut Cursor<'_>) -> Result<(), Failure> {
        self.expect(b'T', cursor)?;
        let index = read_sequence(cursor)?;
        self.give(Node::Parameter(index))
    }

    fn read_extended_type(
        &mut self,
        is_conversion: bool,
        cursor: &mut Cursor<'_>,
    ) -> Result<(), Failure> {
        let letter = peek_second(cursor).ok_or(Failure::Grammar)?;
        if find_function_qualifier(letter).is_some() {
            return self.read_qualified_type(is_conversion, cursor);
        }
        if matches!(letter, b'O' | b'w') {
            self.then(Task::Substitute)?;
            return self.read_exceptions(cursor);
        }
        cursor.take(2)?;
        match letter {
            b'p' => {
                self.then(Task::Substitute)?;
                self.then(Task::MakeExpansion)?;
                self.then(Task::Type { is_conversion })
            }
            b'v' => self.read_vector(is_conversion, cursor),
            b't' | b'T' => {
                self.then(Task::Substitute)?;
                self.then_decltype()
            }
            b'F' => self.read_float(cursor),
            b'B' => self.read_bit_int("_BitInt(", cursor),
            b'U' => self.read_bit_int("unsigned _BitInt(", cursor),
            _ => self.give(extended_type(letter).ok_or(Failure::Grammar)?),
        }
    }

    // Puts the expression of a type on the tasks.
    pub(super) fn then_decltype(&mut self) -> Result<(), Failure> {
        self.then(Task::MakeUnary(Unary::Enclosed("decltype (")))?;
        self.then(Task::End)?;
        self.then(Task::Expression)
    }

    // Reads a floating point type with its number of bits.
    fn read_float(&mut self, cursor: &mut Cursor<'_>) -> Result<(), Failure> {
        let text = match (cursor.number()?, cursor.next_byte()?) {
            (16, b'b') => "std::bfloat16_t",
            (16, b'_') => "_Float16",
            (32, b'_') => "_Float32",
            (64, b'_') => "_Float64",
            (128, b'_') => "_Float128",
            (32, b'x') => "_Float32x",
            (64, b'x') => "_Float64x",
            _ => return Err(Failure::Grammar),
        };
        self.give(Node::Builtin(text, LiteralForm::Float))
    }

    // Reads an integer type with its number of bits.
    fn read_bit_int(&mut self, text: &'static str, cursor: &mut Cursor<'_>) -> Result<(), Failure> {
        let range = read_digits(cursor)?;
        self.expect(b'_', cursor)?;
        let bits = self.arena.add(Node::Name(range))?;
        self.give(Node::Enclosed(text, bits))
    }

    fn read_vector(&mut self, is_conversion: bool, cursor: &mut Cursor<'_>) -> Result<(), Failure> {
        self.then(Task::Bounds {
            is_vector: true,
            is_conversion,
        })?;
        if cursor.eat(b'_') {
            return self.then(Task::Expression);
        }
        let range = read_digits(cursor)?;
        self.give(Node::Name(range))
    }

    fn read_array(&mut self, is_conversion: bool, cursor: &mut Cursor<'_>) -> Result<(), Failure> {
        self.expect(b'A', cursor)?;
        if cursor.eat(b'_') {
            return self.then_element(Task::MakeArray { has_length: false }, is_conversion);
        }
        self.then(Task::Bounds {
            is_vector: false,
            is_conversion,
        })?;
        if !matches!(cursor.peek(), Some(b'0'..=b'9')) {
            return self.then(Task::Expression);
        }
        let range = read_digits(cursor)?;
        self.give(Node::Name(range))
    }

    // Reads the type of the elements of an array or vector, after its length.
    pub(super) fn end_bounds(
        &mut self,
        is_vector: bool,
        is_conversion: bool,
        cursor: &mut Cursor<'_>,
    ) -> Result<(), Failure> {
        self.expect(b'_', cursor)?;
        if is_vector {
            return self.then_element(Task::MakeVector, is_conversion);
        }
        self.then_element(Task::MakeArray { has_length: true }, is_conversion)
    }

    // Puts the type of elements on the tasks, and what is made of it.
    fn then_element(&mut self, task: Task, is_conversion: bool) -> Result<(), Failure> {
        self.then(Task::Substitute)?;
        self.then(task)?;
        self.then(Task::Type { is_conversion })
    }

    fn read_member_pointer(&mut self, cursor: &mut Cursor<'_>) -> Result<(), Failure> {
        self.expect(b'M', cursor)?;
        self.then(Task::Substitute)?;
        self.then(Task::MakeMemberPointer)?;
        self.then(Task::Type {
            is_conversion: false,
        })?;
        self.then(Task::Type {
            is_conversion: false,
        })
    }

    // Reads the vendor's qualifier of a type.
    fn read_vendor_qualifier(
        &mut self,
        is_conversion: bool,
        cursor: &mut Cursor<'_>,
    ) -> Result<(), Failure> {
        self.expect(b'U', cursor)?;
        self.then(Task::Substitute)?;
        self.then(Task::VendorQualify)?;
        self.then(Task::Type { is_conversion })?;
        self.read_source_name(cursor)?;
        if cursor.peek() == Some(b'I') {
            return self.read_template_arguments(cursor);
        }
        Ok(())
    }

    fn read_vendor_type(&mut self, cursor: &mut Cursor<'_>) -> Result<(), Failure> {
        self.expect(b'u', cursor)?;
        self.then(Task::Substitute)?;
        self.read_source_name(cursor)?;
        if cursor.peek() == Some(b'I') {
            return self.read_template_arguments(cursor);
        }
        Ok(())
    }
}
