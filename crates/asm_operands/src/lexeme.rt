//! Tokens with their texts.

ghost use Rattle.std.specs.Prelude.{◌≡◌, ◌≢◌, ◌+◌, ◌≤◌, length, None, Some, option_map, IfOk, IfErr};
ghost use Rattle.std.specs.List.{position};
ghost use Rattle.pmsi_model.specs.declared.limits.TheConstants.{MAX_FILE_BYTES};
ghost use Rattle.asm_operands.specs.declared.fault.TokenFault.TheVariants.{Character};
ghost use Rattle.asm_operands.specs.declared.lexeme.Stop.TheVariants.{Misfit, NoMemory};
ghost use Rattle.asm_operands.specs.Tokens.{code_of, token_at, is_strange};
ghost use Rattle.asm_operands.specs.Operands.{lexeme_of, lexemes_of};
ghost use Rattle.asm_operands.specs.Meanings.{lexeme, lexemes};

use crate::fault::TokenFault;
use crate::lexer::tokens;
use crate::token::{Token, TokenKind};
use pmsi_model::limits::MAX_FILE_BYTES;
use std::alloc::{AllocError, Global};

/// A token with its text.
#[derive(Clone, Copy, Debug, PartialEq, Eq)]
pub struct Lexeme<'a> {
    /// What it is.
    pub kind: TokenKind,
    /// Its bytes in the line.
    pub text: &'a str,
    /// Where it begins, in bytes from 1 on.
    pub column: u32,
}

/// Something that was taken from the front of some tokens, with the tokens that are left; or the tokens from the one on
/// that doesn't fit.
pub type Took<'x, 'a, T> = Result<(T, &'x [Lexeme<'a>]), &'x [Lexeme<'a>]>;

/// What all of some tokens come to; or the tokens from the one on that doesn't fit.
pub type Whole<'x, 'a, T> = Result<T, &'x [Lexeme<'a>]>;

/// What was taken; where something doesn't fit, the function ends with it, as by `?`, which the borrow checker doesn't
/// cover for a value that has both a reference and an invariant.
#[macro_export]
macro_rules! taken {
    ($took:expr) => {
        match $took {
            Ok(taken) => taken,
            Err(left) => return Err(From::from(left)),
        }
    };
}

/// What was taken, where no tokens are left.
#[macro_export]
macro_rules! whole {
    ($taken:expr, $left:expr) => {
        match $left {
            [] => Ok($taken),
            left => Err(left),
        }
    };
}

/// Why operands weren't taken where memory may run out.
#[derive(Clone, Copy)]
pub enum Stop<'x, 'a> {
    /// The tokens from the one on that doesn't fit.
    Misfit(&'x [Lexeme<'a>]),
    /// Memory ran out.
    NoMemory,
}

impl<'x, 'a> From<&'x [Lexeme<'a>]> for Stop<'x, 'a> {
    ghost from_gives = { λ left e. e ≡ Misfit left };

    fn from(left: &'x [Lexeme<'a>]) -> Stop<'x, 'a> {
        Stop::Misfit(left)
    }
}

impl<'x, 'a> From<AllocError> for Stop<'x, 'a> {
    ghost from_gives = { λ _ e. e ≡ NoMemory };

    fn from(_: AllocError) -> Stop<'x, 'a> {
        Stop::NoMemory
    }
}

/// The tokens of a line with their texts, in order. A line's comment has none.
#[tactic(auto, using(crate::proofs::Texts::line_read, crate::proofs::Texts::line_unread, crate::proofs::Texts::token_begins))]
pub fn lexemes<'a>(alloc: Global, line: &'a str) -> Result<Vec<Lexeme<'a>>, TokenFault>
    requires { length line.now ≤ MAX_FILE_BYTES }
    ensures lexemes { IfOk result (λ v. (lexemes v.items ≡ lexemes_of (code_of line.now)) × (position is_strange (code_of line.now) ≡ None)) }
    ensures fault { IfErr result (λ e. e ≢ TokenFault.NoMemory →
        option_map (λ place. Character (place + 1)) (position is_strange (code_of line.now)) ≡ Some e) }
{
    let tokens = tokens(alloc, line)?;
    let mut lexemes = Vec::new(alloc);
    for token in &tokens {
        lexemes.push(lexeme_of(line, *token))?;
    }
    Ok(lexemes)
}

/// A token of the line, with its text.
fn lexeme_of<'a>(line: &'a str, token: Token) -> Lexeme<'a>
    requires token { token_at (code_of line.now) token.start ≡ Some token }
    requires fits { length line.now ≤ MAX_FILE_BYTES }
    ensures { lexeme result ≡ lexeme_of (code_of line.now) token }
{
    Lexeme {
        kind: token.kind,
        text: &line[token.start as usize..token.end as usize],
        column: token.start + 1,
    }
}
