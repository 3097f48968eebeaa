//! Lines of assembly: what each says. Their tokens and operands are those of `asm_operands`.
#![tactic(auto)]

mod checks;
mod control;
mod directive;
pub mod examples;
mod fault;
mod forms;
mod instruction;
mod item;
pub mod laws;
mod lines;
mod loading;
mod misread;
mod mnemonic;
mod parts;
mod place;
mod ranges;
mod reader;
mod statement;

pub use asm_operands::{
    Expr, Imm, Lexeme, Literal, Named, Names, Number, Part, Token, TokenFault, TokenKind,
    is_number, tokens,
};
pub use fault::{AsmCause, AsmFault};
pub use item::{Instrs, Item, Width};
pub use lines::next_line;
pub use parts::in_32_bits;
pub use place::Place;
pub use ranges::{fits_in, part_of, takes};
pub use reader::read_line;
pub use statement::{Line, Statement};
