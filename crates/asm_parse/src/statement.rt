//! What a line does.

use crate::item::{Instrs, Width};
use asm_operands::{Expr, Lexeme, Number};

/// What a line does behind its labels.
#[derive(Debug, Drop)]
pub enum Statement<'a> {
    /// Nothing that goes to text or data.
    Nothing,
    /// The next lines go to data, or else to text.
    Switch {
        /// Whether they go to data.
        to_data: bool,
    },
    /// Instructions, of four bytes each.
    Instrs(Instrs<'a>),
    /// Numbers, in their order.
    Numbers {
        /// How many bytes each has.
        width: Width,
        /// One or more.
        numbers: Vec<Expr<'a>>,
    },
    /// So many bytes of data that are 0.
    Zeros(u32),
    /// Data goes on at this address, in bytes. It may be past the greatest memory.
    MoveTo(u32),
    /// A name, by its token, and its value.
    Define(Lexeme<'a>, Number),
}

/// A line as it was read.
#[derive(Debug, Drop)]
pub struct Line<'a> {
    /// The names in front of the colons, in their order.
    pub labels: Vec<Lexeme<'a>>,
    /// What it does behind its labels.
    pub does: Statement<'a>,
}
