//! The values of an input: bytes and numbers, which its words stand for.
use crate::case::{CaseError, CaseResult, parse_number, split_argument};
use perfdata_base::raw::Endianness;
use std::alloc::Global;

// The largest size of a repeated part in bytes.
const MAX_SIZE: u64 = 1 << 20;

// The largest depth of functions and definitions in one another.
const MAX_DEPTH: usize = 50;

/// A name for a part of an input. Commas stand between the parameters.
#[derive(Clone, Copy)]
pub struct Definition<'a> {
    name: &'a str,
    parameters: &'a str,
    body: &'a str,
}

impl<'a> Definition<'a> {
    /// Parses `NAME(PARAMETERS) = INPUT`. The parameters with their parentheses may be absent.
    pub fn parse(text: &'a str) -> CaseResult<Definition<'a>> {
        let Some((head, body)) = text.split_once('=') else {
            return Err(CaseError::Invalid("a definition without ="));
        };
        let (name, parameters) = split_argument(head.trim());
        Ok(Definition {
            name,
            parameters,
            body,
        })
    }

    fn has(&self, name: &str, count: usize) -> bool {
        self.name == name && self.parameters.split_terminator(',').count() == count
    }
}

/// What words stand for: bytes, or a number.
#[derive(Clone, Drop)]
pub struct Value {
    pub bytes: Vec<u8>,
    number: u64,
}

impl Value {
    // The value of a byte of two hexadecimal digits, or of a number.
    fn from_word(alloc: Global, word: &str) -> CaseResult<Value> {
        let mut bytes = Vec::new(alloc);
        match u8::from_str_radix(word, 16) {
            Ok(byte) if word.len() == 2 => {
                bytes.push(byte)?;
                let number = word.parse::<u64>().unwrap_or(0);
                Ok(Value { bytes, number })
            }
            _ => Ok(Value {
                bytes,
                number: parse_number(word)?,
            }),
        }
    }
}

/// What an input may name.
#[derive(Clone, Copy)]
pub struct Scope<'a> {
    pub alloc: Global,
    pub definitions: &'a [Definition<'a>],
    pub endian: Endianness,
    /// The value of `n`.
    pub turn: u64,
}

impl Scope<'_> {
    // The lowest bytes of numbers, this many of each.
    fn numbers(&self, numbers: &[Value], size: usize) -> CaseResult<Vec<u8>> {
        let mut bytes = Vec::new(self.alloc);
        for value in numbers {
            let (little, big) = (value.number.to_le_bytes(), value.number.to_be_bytes());
            let part = match self.endian {
                Endianness::LittleEndian => little.get(..size),
                Endianness::BigEndian => big.get(8usize.saturating_sub(size)..),
            };
            bytes.extend_from_slice(part.unwrap_or(&[]))?;
        }
        Ok(bytes)
    }

    fn function(&self, name: &str, arguments: &[Value]) -> CaseResult<Value> {
        let mut number = 0u64;
        let bytes = match (name, arguments) {
            ("u8", numbers) => self.numbers(numbers, 1)?,
            ("u16", numbers) => self.numbers(numbers, 2)?,
            ("u32", numbers) => self.numbers(numbers, 4)?,
            ("u64", numbers) => self.numbers(numbers, 8)?,
            ("length", [of]) => {
                number = of.bytes.len() as u64;
                Vec::new(self.alloc)
            }
            ("repeat", [count, of]) if count.number <= MAX_SIZE => {
                of.bytes.repeat(self.alloc, count.number as usize)?
            }
            ("cut", [size, of]) => {
                let prefix = of.bytes.get(..size.number as usize);
                Vec::from_slice(self.alloc, prefix.unwrap_or(&[]))?
            }
            ("patch", [offset, new, of]) => {
                let start = offset.number as usize;
                let after = of.bytes.get(start.saturating_add(new.bytes.len())..);
                let (Some(before), Some(after)) = (of.bytes.get(..start), after) else {
                    return Err(CaseError::Invalid("a patch beyond the end"));
                };
                [before, &new.bytes, after].concat(self.alloc)?
            }
            _ => return Err(CaseError::Invalid("an unknown function or other arguments")),
        };
        Ok(Value { bytes, number })
    }
}

// Whether a character ends a word before it.
fn ends_word(character: char) -> bool {
    character.is_whitespace() || matches!(character, '(' | ')' | ',' | '+' | '-' | '"')
}

// The first word, sign or text in quotes, and what follows it.
fn split_word(text: &str) -> (&str, &str) {
    let text = text.trim_start();
    let mut characters = text.chars();
    let first = characters.next();
    let quoted = characters.as_str();
    let size = match first {
        Some('"') => quoted.find('"').map_or(1, |at| at.saturating_add(2)),
        Some('(' | ')' | ',' | '+' | '-') => 1,
        _ => text.find(ends_word).unwrap_or(text.len()),
    };
    text.split_at_checked(size).unwrap_or((text, ""))
}

// A text that is being evaluated, and the parameters that it may name.
#[derive(Drop)]
struct Reader<'a> {
    scope: Scope<'a>,
    parameters: &'a str,
    arguments: &'a [Value],
    rest: &'a str,
}

impl<'a> Reader<'a> {
    // The sum of numbers, or the bytes up to a comma, a closing parenthesis or the end.
    #[cycle(evaluate)]
    fn value(&mut self, depth: usize) -> CaseResult<Value> {
        let mut bytes = Vec::new(self.scope.alloc);
        let (mut number, mut is_subtracted) = (0u64, false);
        for _ in 0..=self.rest.len() {
            let (word, after) = split_word(self.rest);
            match word {
                "" | ")" | "," => break,
                "+" | "-" => {
                    self.rest = after;
                    is_subtracted = word == "-";
                    continue;
                }
                _ => {}
            }
            self.rest = after;
            let term = self.term(word, depth)?;
            bytes.extend_from_slice(&term.bytes)?;
            number = if is_subtracted {
                number.wrapping_sub(term.number)
            } else {
                number.wrapping_add(term.number)
            };
        }
        Ok(Value { bytes, number })
    }

    // The values between the opening parenthesis, which is read, and the closing one, or to the end.
    #[cycle(evaluate)]
    fn values(&mut self, end: &str, depth: usize) -> CaseResult<Vec<Value>> {
        let mut values = Vec::new(self.scope.alloc);
        for _ in 0..=self.rest.len() {
            values.push(self.value(depth)?)?;
            let (word, after) = split_word(self.rest);
            self.rest = after;
            if word == end {
                return Ok(values);
            }
            if word != "," {
                break;
            }
        }
        Err(CaseError::Invalid("a parenthesis or a comma is missing"))
    }

    // The value of a word, or of the function of this name.
    #[cycle(evaluate)]
    fn term(&mut self, word: &'a str, depth: usize) -> CaseResult<Value> {
        if depth == 0 {
            return Err(CaseError::Invalid("too many functions in one another"));
        }
        let alloc = self.scope.alloc;
        if let Some(text) = word.strip_prefix('"') {
            let bytes = Vec::from_slice(alloc, text.trim_end_matches('"').as_bytes())?;
            return Ok(Value { bytes, number: 0 });
        }
        let (open, after) = split_word(self.rest);
        if open == "(" {
            self.rest = after;
            let arguments = self.values(")", depth - 1)?;
            return self.expand(word, &arguments, depth - 1);
        }
        let mut parameters = self.parameters.split(',');
        let index = parameters.position(|name| name.trim() == word);
        match index.and_then(|index| self.arguments.get(index)) {
            Some(argument) => Ok(argument.clone()?),
            None => self.expand(word, &[], depth - 1),
        }
    }

    // The value of a definition or function with these arguments, or of a word.
    #[cycle(evaluate)]
    fn expand(&self, name: &str, arguments: &[Value], depth: usize) -> CaseResult<Value> {
        let count = arguments.len();
        let mut definitions = self.scope.definitions.iter();
        let Some(definition) = definitions.rfind(|it| it.has(name, count)) else {
            return match (name, arguments) {
                ("n", []) => Ok(Value {
                    bytes: Vec::new(self.scope.alloc),
                    number: self.scope.turn,
                }),
                (word, []) => Value::from_word(self.scope.alloc, word),
                _ => self.scope.function(name, arguments),
            };
        };
        let mut reader = Reader {
            scope: self.scope,
            parameters: definition.parameters,
            arguments,
            rest: definition.body,
        };
        reader.value(depth)
    }
}

/// The values of a text, between which commas stand. A text without a comma has one.
pub fn parse_values(scope: Scope<'_>, text: &str) -> CaseResult<Vec<Value>> {
    let mut reader = Reader {
        scope,
        parameters: "",
        arguments: &[],
        rest: text,
    };
    reader.values("", MAX_DEPTH)
}
