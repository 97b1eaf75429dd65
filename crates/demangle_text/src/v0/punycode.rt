//! Identifiers in Punycode (RFC 3492).
ghost use Rattle.std.specs.Prelude.{◌<◌, ◌≤◌};

use crate::cursor::Cursor;
use crate::failure::Failure;
use crate::v0::numbers::Identifier;

// The parameters of Punycode.
const BASE: u64 = 36;

const T_MIN: u64 = 1;

const T_MAX: u64 = 26;

const SKEW: u64 = 38;

const FIRST_DAMP: u64 = 700;

const DAMP: u64 = 2;

const FIRST_BIAS: u64 = 72;

const FIRST_CODE: u64 = 128;

// One unit of work is that many characters moved.
const MOVES_PER_STEP: usize = 16;

// Returns the value of a digit of Punycode.
fn digit(byte: u8) -> Result<u64, Failure> {
    match byte {
        b'a'..=b'z' => Ok((byte - b'a') as u64),
        b'0'..=b'9' => Ok((byte - b'0') as u64 + 26),
        _ => Err(Failure::Grammar),
    }
}

// Returns the threshold of a digit at an index, from 1.
fn threshold(index: u64, bias: u64) -> u64
    ensures low { 1 ≤ result }
    ensures high { result ≤ 26 }
{
    let difference = BASE.saturating_mul(index).saturating_sub(bias);
    if difference < T_MIN {
        T_MIN
    } else if difference > T_MAX {
        T_MAX
    } else {
        difference
    }
}

// Reads a number whose digits have different weights.
fn delta(digits: &mut Cursor<'_>, bias: u64) -> Result<u64, Failure> {
    let mut delta = 0u64;
    let mut weight = 1u64;
    'digits: for index in 1..64 {
        let digit = digit(digits.next_byte()?)?;
        let part = digit.checked_mul(weight).ok_or(Failure::Limit)?;
        delta = delta.checked_add(part).ok_or(Failure::Limit)?;
        let threshold = threshold(index, bias);
        if digit < threshold {
            return Ok(delta);
        }
        weight = weight.checked_mul(BASE - threshold).ok_or(Failure::Limit)?;
    }
    Err(Failure::Limit)
}

// Returns the bias after a delta, with that many characters now.
fn adapted_bias(delta: u64, count: u64, is_first: bool) -> u64
    requires { 0 < count }
{
    let damp = if is_first { FIRST_DAMP } else { DAMP };
    let mut delta = delta / damp;
    delta = delta.saturating_add(delta / count);
    let mut bias = 0u64;
    'rounds: for _ in 0..16 {
        if delta <= (BASE - T_MIN) * T_MAX / 2 {
            break;
        }
        delta /= BASE - T_MIN;
        bias = bias.saturating_add(BASE);
    }
    let scaled = (BASE - T_MIN + 1).saturating_mul(delta);
    bias.saturating_add(scaled / delta.saturating_add(SKEW))
}

// Sets the characters to those of an identifier. Each step of work is subtracted from `steps`.
pub(crate) fn decode(
    identifier: Identifier<'_>,
    characters: &mut Vec<char>,
    steps: &mut usize,
) -> Result<(), Failure> {
    characters.clear();
    'ascii: for byte in identifier.ascii {
        characters.push(*byte as char)?;
    }
    insert_all(identifier.punycode, characters, steps)
}

// Inserts the characters that Punycode adds.
fn insert_all(
    punycode: &[u8],
    characters: &mut Vec<char>,
    steps: &mut usize,
) -> Result<(), Failure> {
    let mut digits = Cursor::new(punycode);
    let mut place = InsertionPoint {
        bias: FIRST_BIAS,
        is_first: true,
        index: 0,
        code: FIRST_CODE,
    };
    'characters: for _ in 0..u64::MAX {
        if digits.is_at_end() {
            return Ok(());
        }
        let delta = delta(&mut digits, place.bias)?;
        place.insert(delta, characters, steps)?;
    }
    Err(Failure::Limit)
}

// Where the next character is inserted, and which one.
#[derive(Drop)]
struct InsertionPoint {
    bias: u64,
    is_first: bool,
    index: u64,
    code: u64,
}

impl InsertionPoint {
    // Inserts the character at a distance from the last one.
    fn insert(
        &mut self,
        delta: u64,
        characters: &mut Vec<char>,
        steps: &mut usize,
    ) -> Result<(), Failure> {
        let count = characters.len() as u64 + 1;
        let index = self.index.checked_add(delta).ok_or(Failure::Limit)?;
        let code = self.code.checked_add(index / count).ok_or(Failure::Limit)?;
        let index = (index % count) as usize;
        let moves = (characters.len() - index) / MOVES_PER_STEP;
        *steps = steps.checked_sub(moves).ok_or(Failure::Limit)?;
        characters.insert(index, decode_character(code)?)?;
        self.bias = adapted_bias(delta, count, self.is_first);
        self.is_first = false;
        self.index = index as u64 + 1;
        self.code = code;
        Ok(())
    }
}

// Returns the character with a code.
fn decode_character(code: u64) -> Result<char, Failure> {
    u32::try_from(code)
        .ok()
        .and_then(char::from_u32)
        .ok_or(Failure::Grammar)
}
