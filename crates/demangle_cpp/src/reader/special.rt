//! Special names: tables, thunks, guards and temporaries.

use crate::node::Node;
use crate::reader::{Reader, Task, read_sequence};
use crate::tables::special_of_type;
use demangle_text::{Cursor, Failure};

// Reads a number that may be negative, and an underscore.
fn read_offset(cursor: &mut Cursor<'_>) -> Result<(), Failure> {
    cursor.eat(b'n');
    cursor.number()?;
    if cursor.eat(b'_') {
        Ok(())
    } else {
        Err(Failure::Grammar)
    }
}

// Reads the offset of a thunk.
fn read_call_offset(cursor: &mut Cursor<'_>) -> Result<(), Failure> {
    match cursor.next_byte()? {
        b'h' => read_offset(cursor),
        b'v' => {
            read_offset(cursor)?;
            read_offset(cursor)
        }
        _ => Err(Failure::Grammar),
    }
}

impl Reader {
    pub(super) fn read_special(&mut self, cursor: &mut Cursor<'_>) -> Result<(), Failure> {
        if cursor.eat(b'G') {
            return self.read_guard(cursor);
        }
        self.expect(b'T', cursor)?;
        match cursor.peek() {
            Some(b'h') => self.read_thunk("non-virtual thunk to ", 1, cursor),
            Some(b'v') => self.read_thunk("virtual thunk to ", 1, cursor),
            Some(b'c') => {
                self.expect(b'c', cursor)?;
                self.read_thunk("covariant return thunk to ", 2, cursor)
            }
            _ => self.read_table(cursor),
        }
    }

    // Reads the offsets of a thunk, and then its function.
    fn read_thunk(
        &mut self,
        text: &'static str,
        offsets: usize,
        cursor: &mut Cursor<'_>,
    ) -> Result<(), Failure> {
        for _ in 0..offsets {
            read_call_offset(cursor)?;
        }
        self.then(Task::MakeSpecial(text))?;
        self.then(Task::Encoding)
    }

    fn read_table(&mut self, cursor: &mut Cursor<'_>) -> Result<(), Failure> {
        let letter = cursor.next_byte()?;
        match letter {
            b'C' => {
                self.then(Task::ConstructionOffset)?;
                self.then(Task::Type {
                    is_conversion: false,
                })
            }
            b'H' => {
                self.then(Task::MakeSpecial("TLS init function for "))?;
                self.then(Task::Name)
            }
            b'W' => {
                self.then(Task::MakeSpecial("TLS wrapper function for "))?;
                self.then(Task::Name)
            }
            b'A' => {
                self.then(Task::MakeSpecial("template parameter object for "))?;
                self.then(Task::Argument)
            }
            _ => {
                let text = special_of_type(letter).ok_or(Failure::Grammar)?;
                self.then(Task::MakeSpecial(text))?;
                self.then(Task::Type {
                    is_conversion: false,
                })
            }
        }
    }

    pub(super) fn read_construction_offset(
        &mut self,
        cursor: &mut Cursor<'_>,
    ) -> Result<(), Failure> {
        read_offset(cursor)?;
        self.then(Task::MakeConstructionTable)?;
        self.then(Task::Type {
            is_conversion: false,
        })
    }

    fn read_guard(&mut self, cursor: &mut Cursor<'_>) -> Result<(), Failure> {
        match cursor.next_byte()? {
            b'V' => {
                self.then(Task::MakeSpecial("guard variable for "))?;
                self.then(Task::Name)
            }
            b'R' => {
                self.then(Task::MakeTemporary)?;
                self.then(Task::Name)
            }
            b'A' => {
                self.then(Task::MakeSpecial("hidden alias for "))?;
                self.then(Task::Encoding)
            }
            b'T' => self.read_clone(cursor),
            _ => Err(Failure::Grammar),
        }
    }

    // Reads the clone of a function for transactions.
    fn read_clone(&mut self, cursor: &mut Cursor<'_>) -> Result<(), Failure> {
        let text = match cursor.next_byte()? {
            b'n' => "non-transaction clone for ",
            _ => "transaction clone for ",
        };
        self.then(Task::MakeSpecial(text))?;
        self.then(Task::Encoding)
    }

    // Reads the number of a temporary, after the name of its reference.
    pub(super) fn make_temporary(&mut self, cursor: &mut Cursor<'_>) -> Result<(), Failure> {
        let name = self.take()?;
        let mut number = 0;
        if matches!(cursor.peek(), Some(b'_' | b'0'..=b'9' | b'A'..=b'Z')) {
            number = read_sequence(cursor)?;
        }
        self.give(Node::Temporary(name, number))
    }
}
