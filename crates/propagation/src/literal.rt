//! Literals.

use std::ops::Not;

/// A slot has at least this value.
///
/// A variable x has two slots: the value of slot 2x is its least value, that of 2x + 1 its greatest one, negated. So a
/// slot's value only grows on the way down. Variables are first the starts of the activities, then the classes of orders of
/// rivals: 1 if the first of each pair ends before the other starts, 0 if the other way round.
#[derive(Clone, Copy, PartialEq, Eq, PartialOrd, Ord, Hash, Debug, Default)]
pub struct Literal {
    pub slot: u32,
    pub value: i32,
}

/// A literal that never holds.
pub const NEVER: Literal = Literal {
    slot: 0,
    value: i32::MAX,
};

impl Not for Literal {
    type Output = Literal;

    /// What holds just where the literal does not: values are whole numbers.
    fn not(self) -> Literal {
        Literal::new(self.slot ^ 1, 1i32.wrapping_sub(self.value))
    }
}

impl Literal {
    /// A slot has at least this value.
    pub fn new(slot: u32, value: i32) -> Literal {
        Literal { slot, value }
    }

    /// The variable is at least so much.
    pub fn at_least(variable: u32, value: i32) -> Literal {
        Literal::new(variable.wrapping_mul(2), value)
    }

    /// The order that a slot stands for, which is not one of a bound.
    pub fn order(slot: u32) -> Literal {
        Literal::new(slot, i32::from(slot % 2 == 0))
    }

    /// The variable is at most so much.
    pub fn at_most(variable: u32, value: i32) -> Literal {
        !Literal::at_least(variable, value.wrapping_add(1))
    }

    /// Its variable.
    pub fn variable(self) -> u32 {
        self.slot / 2
    }

    /// Whether it bounds its variable from below.
    pub fn is_lower(self) -> bool {
        self.slot % 2 == 0
    }
}
