//! Numbers of a source.

use std::marker::Model;

/// A number that a source can spell, or one taken from 0: from -2^32 to 2^32.
#[derive(Clone, Copy, Debug, PartialEq, Eq)]
pub struct Number {
    value: i64,
}

impl Model for Number {
    ghost use Rattle.std.specs.Prelude.{ℤ};
    ghost use Rattle.asm_operands.specs.Widths.{IsWide};

    ghost Value = { ℤ };

    ghost view = { λ n. n.value };

    ghost invariant = { λ n. IsWide n.value };

    ghost inverse = { λ n. record { value = n } };
}

impl Number {
    ghost use Rattle.std.specs.Prelude.{◌≡◌};
    ghost use Rattle.asm_operands.specs.Widths.{IsWide};

    /// This number, from -2^32 to 2^32.
    pub fn new(value: i64) -> Number
        requires { IsWide value }
        ensures { result ≡ value }
    {
        Number { value }
    }

    /// As an integer.
    pub fn value(self) -> i64
        ensures value { result ≡ self }
        ensures within { IsWide self }
    {
        self.value
    }
}
