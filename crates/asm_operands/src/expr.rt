//! Numbers, expressions and immediates as operands.

use crate::number::Number;

/// A number with its sign.
#[derive(Clone, Copy, Debug, PartialEq, Eq)]
pub struct Literal {
    /// The number: none where it is misspelt or isn't from -2^31 to 2^32 - 1.
    pub value: Option<Number>,
    /// Where its sign or else its first digit stands, from 1 on.
    pub column: u32,
}

/// A number, a name, or a name with a number added to it or taken from it.
#[derive(Clone, Copy, Debug, PartialEq, Eq)]
pub struct Expr<'a> {
    /// The name, if there is one.
    pub name: Option<&'a str>,
    /// The number that is added: none where it is misspelt or too wide, and 0 where there is only a name.
    pub number: Option<Number>,
    /// Where its first token begins, from 1 on.
    pub column: u32,
}

/// What an immediate is of a number: the number itself, or a part of what is left of it in 32 bits. That is again
/// 4096 times the high part with the low one added, in 32 bits.
#[derive(Clone, Copy, Debug, PartialEq, Eq)]
pub enum Part {
    /// The number itself.
    Whole,
    /// `%hi`: the high twenty bits, one more where the low part is below 0.
    High,
    /// `%lo`: the low twelve bits, as a signed number.
    Low,
}

/// An immediate.
#[derive(Clone, Copy, Debug, PartialEq, Eq)]
pub struct Imm<'a> {
    /// The part that it is of the expression's value.
    pub part: Part,
    /// The expression.
    pub expr: Expr<'a>,
    /// Where its `%` or else its expression begins, from 1 on; 0 where it was left out.
    pub column: u32,
}
