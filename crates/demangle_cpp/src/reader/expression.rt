//! Expressions.

use crate::node::{Node, NodeId};
use crate::reader::{Binary, ListUse, Reader, Task, Unary, peek_second, read_compact_number};
use crate::tables::{find_operator, find_qualifier, named_cast, operator_text};
use demangle_text::{Cursor, Failure};

impl Reader {
    pub(super) fn read_expression(&mut self, cursor: &mut Cursor<'_>) -> Result<(), Failure> {
        match cursor.peek() {
            Some(b'L') => self.read_literal(cursor),
            Some(b'T') => self.read_parameter(cursor),
            Some(b'0'..=b'9') => self.read_simple_name(cursor),
            Some(b'u') => self.read_vendor_call(cursor),
            _ => {
                let first = cursor.next_byte()?;
                let second = cursor.next_byte()?;
                self.read_operation(first, second, cursor)
            }
        }
    }

    // Reads an unqualified name and its template arguments.
    pub(super) fn read_simple_name(&mut self, _cursor: &mut Cursor<'_>) -> Result<(), Failure> {
        self.then(Task::NameArguments {
            is_substitution: true,
        })?;
        self.then(Task::Unqualified)
    }

    // Reads a function of the vendor and its arguments.
    fn read_vendor_call(&mut self, cursor: &mut Cursor<'_>) -> Result<(), Failure> {
        self.expect(b'u', cursor)?;
        self.read_source_name(cursor)?;
        let mark = self.values.len();
        self.then(Task::Arguments {
            mark,
            list_use: ListUse::VendorCall,
        })
    }

    // Reads what follows the two letters of an expression.
    fn read_operation(
        &mut self,
        first: u8,
        second: u8,
        cursor: &mut Cursor<'_>,
    ) -> Result<(), Failure> {
        match (first, second) {
            (b'f', b'p') => self.read_function_parameter(cursor),
            (b'f', b'l' | b'r' | b'L' | b'R') => self.read_fold(second, cursor),
            (b'o', b'n') => self.read_simple_name(cursor),
            (b's', b'r') => self.read_unresolved_name(cursor),
            (b's', b'p') => {
                self.then(Task::MakeExpansion)?;
                self.then(Task::Expression)
            }
            (b'c', b'v') => {
                self.then(Task::CastOperand)?;
                self.then_type()
            }
            (b'c', b'l') => {
                self.then(Task::MakeBinary(Binary::Call))?;
                self.then_expressions(1)?;
                self.then(Task::Expression)
            }
            (b't', b'r') => self.give(Node::Word("throw")),
            (b'n', b'w' | b'a') => {
                self.then(Task::NewInitializer)?;
                self.then_type()?;
                let mark = self.values.len();
                self.then(Task::Expressions { mark, end: b'_' })
            }
            _ => self.read_operation_on_types(first, second, cursor),
        }
    }

    fn read_operation_on_types(
        &mut self,
        first: u8,
        second: u8,
        cursor: &mut Cursor<'_>,
    ) -> Result<(), Failure> {
        match (first, second) {
            (b's', b't') => {
                self.then(Task::MakeUnary(Unary::Enclosed("sizeof (")))?;
                self.then_type()
            }
            (b'a', b't') => {
                self.then(Task::MakeUnary(Unary::Prefix("alignof ")))?;
                self.then_type()
            }
            (b't', b'i') => {
                self.then(Task::MakeUnary(Unary::Prefix("typeid ")))?;
                self.then_type()
            }
            (b'n', b'x') => self.then_unary(Unary::Enclosed("noexcept(")),
            (b's', b'Z') => self.then_unary(Unary::SizeOfPack),
            (b's', b'P') => {
                let mark = self.values.len();
                self.then(Task::Arguments {
                    mark,
                    list_use: ListUse::Count,
                })
            }
            (b'i', b'l') => {
                self.then(Task::MakeUnary(Unary::Braces))?;
                self.then_expressions(0)
            }
            (b't', b'l') => {
                self.then(Task::MakeBinary(Binary::TypedBraces))?;
                self.then_expressions(1)?;
                self.then_type()
            }
            (b's' | b'c' | b'd' | b'r', b'c') => {
                let text = named_cast(first).ok_or(Failure::Grammar)?;
                self.then(Task::MakeBinary(Binary::NamedCast(text)))?;
                self.then(Task::Expression)?;
                self.then_type()
            }
            (b'd', b'i' | b'x' | b'X') => self.read_designated(second, cursor),
            _ => self.read_operator(first, second, cursor),
        }
    }

    // Reads a value for a member, for an element, or for a range of elements.
    fn read_designated(&mut self, letter: u8, cursor: &mut Cursor<'_>) -> Result<(), Failure> {
        match letter {
            b'i' => {
                self.then(Task::MakeBinary(Binary::MemberValue))?;
                self.then(Task::Expression)?;
                self.read_source_name(cursor)
            }
            b'x' => self.then_binary(Binary::ElementValue),
            _ => {
                self.then(Task::MakeRangeValue)?;
                self.then(Task::Expression)?;
                self.then(Task::Expression)?;
                self.then(Task::Expression)
            }
        }
    }

    pub(super) fn make_range_value(&mut self) -> Result<(), Failure> {
        let value = self.take()?;
        let end = self.take()?;
        let start = self.take()?;
        self.give(Node::RangeValue(start, end, value))
    }

    fn read_operator(
        &mut self,
        first: u8,
        second: u8,
        cursor: &mut Cursor<'_>,
    ) -> Result<(), Failure> {
        let (text, operands) = find_operator(first, second).ok_or(Failure::Grammar)?;
        match (first, second, operands) {
            (b'g', b's', _) => self.then_unary(Unary::Global),
            (b'p', b'p', _) | (b'm', b'm', _) if !cursor.eat(b'_') => {
                self.then_unary(Unary::Postfix(text))
            }
            (b'd' | b'p', b't', _) => {
                self.then(Task::MakeBinary(Binary::Operator(text)))?;
                self.then(Task::MemberName)?;
                self.then(Task::Expression)
            }
            (b'i', b'x', _) => self.then_binary(Binary::Index),
            (b'q', b'u', _) => {
                self.then(Task::MakeCondition)?;
                self.then(Task::Expression)?;
                self.then(Task::Expression)?;
                self.then(Task::Expression)
            }
            (_, _, 1) => self.then_unary(Unary::Prefix(text)),
            (_, _, 2) => self.then_binary(Binary::Operator(text)),
            _ => Err(Failure::Grammar),
        }
    }

    fn then_unary(&mut self, unary: Unary) -> Result<(), Failure> {
        self.then(Task::MakeUnary(unary))?;
        self.then(Task::Expression)
    }

    fn then_binary(&mut self, binary: Binary) -> Result<(), Failure> {
        self.then(Task::MakeBinary(binary))?;
        self.then(Task::Expression)?;
        self.then(Task::Expression)
    }

    pub(super) fn then_type(&mut self) -> Result<(), Failure> {
        self.then(Task::Type {
            is_conversion: false,
        })
    }

    // Puts expressions up to an `E` on the tasks, above `count` values that are read before them.
    fn then_expressions(&mut self, count: usize) -> Result<(), Failure> {
        let mark = self.values.len().saturating_add(count);
        self.then(Task::Expressions { mark, end: b'E' })
    }

    pub(super) fn read_expressions(
        &mut self,
        mark: usize,
        end: u8,
        cursor: &mut Cursor<'_>,
    ) -> Result<(), Failure> {
        if cursor.eat(end) {
            let list = self.take_list(mark)?;
            return self.give(Node::Expressions(list));
        }
        self.then(Task::Expressions { mark, end })?;
        self.then(Task::Expression)
    }

    fn read_function_parameter(&mut self, cursor: &mut Cursor<'_>) -> Result<(), Failure> {
        if cursor.eat(b'T') {
            return self.give(Node::FunctionParameter(0));
        }
        for _ in 0..u64::MAX {
            if cursor.peek().and_then(find_qualifier).is_none() {
                break;
            }
            cursor.next_byte()?;
        }
        let number = read_compact_number(cursor)?;
        self.give(Node::FunctionParameter(number.saturating_add(1)))
    }

    fn read_fold(&mut self, letter: u8, cursor: &mut Cursor<'_>) -> Result<(), Failure> {
        if letter == b'L' && matches!(cursor.peek(), Some(b'0'..=b'9')) {
            cursor.number()?;
            self.expect(b'p', cursor)?;
            return self.read_function_parameter(cursor);
        }
        let (first, second) = (cursor.next_byte()?, cursor.next_byte()?);
        let text = operator_text(first, second).ok_or(Failure::Grammar)?;
        match letter {
            b'l' => self.then_unary(Unary::LeftFold(text)),
            b'r' => self.then_unary(Unary::RightFold(text)),
            _ => self.then_binary(Binary::Fold(text)),
        }
    }

    pub(super) fn read_cast_operand(&mut self, cursor: &mut Cursor<'_>) -> Result<(), Failure> {
        self.then(Task::MakeBinary(Binary::Cast))?;
        if cursor.eat(b'_') {
            return self.then_expressions(0);
        }
        self.then(Task::Expression)
    }

    pub(super) fn read_new_initializer(&mut self, cursor: &mut Cursor<'_>) -> Result<(), Failure> {
        if cursor.eat(b'E') {
            return self.make_new(false);
        }
        self.then(Task::MakeNew { has_value: true })?;
        if cursor.peek() == Some(b'p') && peek_second(cursor) == Some(b'i') {
            cursor.take(2)?;
            return self.then_expressions(0);
        }
        self.then(Task::Expression)
    }

    pub(super) fn make_new(&mut self, has_value: bool) -> Result<(), Failure> {
        let mut value = None;
        if has_value {
            value = Some(self.take()?);
        }
        let of_type = self.take()?;
        let before = self.take()?;
        self.give(Node::New(before, of_type, value))
    }

    pub(super) fn read_member_name(&mut self, cursor: &mut Cursor<'_>) -> Result<(), Failure> {
        match (cursor.peek(), peek_second(cursor)) {
            (Some(b'g'), Some(b's')) | (Some(b's'), Some(b'r')) | (Some(b'L'), Some(b'_')) => {
                self.then(Task::Expression)
            }
            (Some(b'o'), Some(b'n')) => {
                cursor.take(2)?;
                self.read_simple_name(cursor)
            }
            _ => self.read_simple_name(cursor),
        }
    }

    pub(super) fn make_condition(&mut self) -> Result<(), Failure> {
        let last = self.take()?;
        let middle = self.take()?;
        let first = self.take()?;
        self.give(Node::Condition(first, middle, last))
    }

    pub(super) fn make_unary(&mut self, unary: Unary, last: NodeId) -> Result<(), Failure> {
        self.give(match unary {
            Unary::Prefix(text) => Node::Prefix(text, last),
            Unary::Postfix(text) => Node::Postfix(text, last),
            Unary::Global => Node::Special("::", last),
            Unary::Enclosed(text) => Node::Enclosed(text, last),
            Unary::SizeOfPack => Node::SizeOfPack(last),
            Unary::Braces => Node::Braces(None, last),
            Unary::LeftFold(text) => Node::LeftFold(text, last),
            Unary::RightFold(text) => Node::RightFold(text, last),
        })
    }

    pub(super) fn make_binary(
        &mut self,
        binary: Binary,
        first: NodeId,
        last: NodeId,
    ) -> Result<(), Failure> {
        self.give(match binary {
            Binary::Operator(text) => Node::Binary(text, first, last),
            Binary::Call => Node::Call(first, last),
            Binary::Index => Node::Index(first, last),
            Binary::Cast => Node::Cast(first, last),
            Binary::NamedCast(text) => Node::NamedCast(text, first, last),
            Binary::TypedBraces => Node::Braces(Some(first), last),
            Binary::MemberValue => Node::MemberValue(first, last),
            Binary::ElementValue => Node::ElementValue(first, last),
            Binary::Fold(text) => Node::BinaryFold(text, first, last),
        })
    }
}
