//! What a line puts into text or data.

use asm_operands::{Expr, Imm, Part};
use pmsi_model::Instr;

/// An instruction of a line.
#[derive(Clone, Copy, Debug, PartialEq, Eq)]
pub enum Item<'a> {
    /// It is known.
    Known(Instr),
    /// Its immediate, which is 0 so far, is a part of a number.
    Immediate(Instr, Imm<'a>),
    /// Its immediate, which is 0 so far, is a part of an address, by which it is loaded.
    Address(Instr, Part, Expr<'a>),
    /// Its offset, which is 0 so far, is the distance to a target.
    Target(Instr, Expr<'a>),
}

/// The instructions that a line stands for.
#[derive(Clone, Copy, Debug, PartialEq, Eq)]
pub enum Instrs<'a> {
    /// One, as for most mnemonics.
    One(Item<'a>),
    /// Two, as for an address or a long constant that is loaded, in the order in which they stand.
    Two(Item<'a>, Item<'a>),
}

/// How many bytes each number of a line of data has.
#[derive(Clone, Copy, Debug, PartialEq, Eq)]
pub enum Width {
    /// One.
    Byte,
    /// Two.
    Half,
    /// Four.
    Word,
}

impl Width {
    ghost use Rattle.std.specs.Prelude.{◌≡◌};
    ghost use Rattle.asm_parse.specs.Items.{bytes_in};

    /// In bytes.
    pub fn bytes(self) -> u32
        ensures { result ≡ bytes_in self }
    {
        match self {
            Width::Byte => 1,
            Width::Half => 2,
            Width::Word => 4,
        }
    }
}
