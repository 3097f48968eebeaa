//! What the lines of assembly are made of: tokens, numbers, names, expressions, registers and addresses, and the lists of
//! these that instructions and directives take.
#![tactic(auto)]

mod expr;
mod fault;
mod forms;
pub mod laws;
mod lexeme;
mod lexer;
mod lists;
mod names;
mod number;
mod operands;
mod spelling;
mod table;
mod token;

pub use expr::{Expr, Imm, Literal, Part};
pub use fault::TokenFault;
pub use forms::{
    take_e, take_ff, take_r, take_rc, take_re, take_ri, take_rm, take_rr, take_rrb, take_rre,
    take_rri, take_rrr,
};
pub use lexeme::{Lexeme, Stop, Took, Whole, lexemes};
pub use lexer::tokens;
pub use lists::take_exprs;
pub use names::{Named, Names};
pub use number::Number;
pub use operands::{take_kind, take_literal};
pub use spelling::is_number;
pub use table::value_in;
pub use token::{Token, TokenKind};
