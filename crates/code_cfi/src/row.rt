//! Rows: how the CFA and the caller's registers are found at an address.
ghost use Rattle.std.specs.Prelude.{◌≡◌};
ghost use Rattle.code_cfi.specs.Rows.{empty_row, rule_at, with_rule};

use crate::byte_range::ByteRange;

/// The number of registers that a row has rules for. Rules for other registers are dropped.
pub const REGISTER_COUNT: usize = 33;

/// How the canonical frame address (CFA) is found.
#[derive(Clone, Copy, Debug, PartialEq, Eq)]
pub enum Cfa {
    /// No instruction defines it.
    Undefined,
    /// It is the value of a register plus an offset.
    Register(u64, u64),
    /// It is the value of an expression.
    Expression(ByteRange),
}

/// How the caller's value of a register is found.
#[derive(Clone, Copy, Debug, PartialEq, Eq)]
pub enum Rule {
    /// It is the same as in this frame. Registers without a rule have this one.
    SameValue,
    /// It can't be found.
    Undefined,
    /// It is stored at the CFA plus an offset.
    Offset(u64),
    /// It is the CFA plus an offset.
    ValueOffset(u64),
    /// It is in another register.
    Register(u64),
    /// It is stored at the value of an expression.
    Expression(ByteRange),
    /// It is the value of an expression.
    ValueExpression(ByteRange),
}

/// How the CFA and the caller's registers are found.
#[derive(Clone, Copy, Debug, PartialEq, Eq)]
pub struct Row {
    pub(crate) cfa: Cfa,
    pub(crate) rules: [Rule; REGISTER_COUNT],
}

impl Row {
    /// Returns the row that has no rules.
    pub const fn new() -> Row
        ensures { result ≡ empty_row }
    {
        Row {
            cfa: Cfa::Undefined,
            rules: [Rule::SameValue; REGISTER_COUNT],
        }
    }

    /// Returns how the CFA is found.
    pub fn cfa(&self) -> Cfa
        ensures { result ≡ self.now.cfa }
    {
        self.cfa
    }

    /// Returns how a register is found, by its DWARF number. It is `SameValue` for all from 33 on.
    pub fn rule(&self, register: u64) -> Rule
        ensures { result ≡ rule_at self.now register }
    {
        if register < REGISTER_COUNT as u64 {
            self.rules[register as usize]
        } else {
            Rule::SameValue
        }
    }

    // Sets how a register is found.
    pub(crate) fn set_rule(&mut self, register: u64, rule: Rule)
        ensures { self.new ≡ with_rule self.old register rule }
    {
        if register < REGISTER_COUNT as u64 {
            self.rules[register as usize] = rule;
        }
    }
}
