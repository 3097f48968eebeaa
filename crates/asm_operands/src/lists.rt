//! Lists of expressions.

ghost use Rattle.std.specs.Prelude.{◌≡◌, ◌++◌, ◌∷◌, [], map, IfOk, IfErr, OnOk};
ghost use Rattle.asm_operands.specs.Operands.{Taken, Stuck, take_expr, take_exprs, take_next};
ghost use Rattle.asm_operands.specs.Meanings.{expr, lexemes, took, StopsAt};

use crate::expr::Expr;
use crate::lexeme::{Lexeme, Stop, Took};
use crate::operands::{take_expr, take_kind};
use crate::taken;
use crate::token::TokenKind;
use std::alloc::{AllocError, Global};

/// One expression or more, up to the line's end.
pub fn take_exprs<'x, 'a>(
    alloc: Global,
    tokens: &'x [Lexeme<'a>],
) -> Result<Vec<Expr<'a>>, Stop<'x, 'a>>
    ensures all { IfOk result (λ v. take_exprs (lexemes tokens.now) ≡ Taken (map expr v.items) []) }
    ensures misfit { IfErr result (λ e. StopsAt e (λ left. take_exprs (lexemes tokens.now) ≡ Stuck left)) }
{
    let mut found = Vec::new(alloc);
    let (expr, mut left) = taken!(take_expr(tokens));
    keep(&mut found, &expr)?;
    while !left.is_empty() {
        let (expr, rest) = taken!(take_next_expr(left));
        keep(&mut found, &expr)?;
        left = rest;
    }
    Ok(found)
}

/// An expression behind a comma.
fn take_next_expr<'x, 'a>(tokens: &'x [Lexeme<'a>]) -> Took<'x, 'a, Expr<'a>>
    ensures { took expr result ≡ take_next take_expr (lexemes tokens.now) }
{
    let (_, tokens) = take_kind(TokenKind::Comma, tokens)?;
    take_expr(tokens)
}

/// Puts an expression behind those that were found.
fn keep<'a>(found: &mut Vec<Expr<'a>>, expr: &Expr<'a>) -> Result<(), AllocError>
    ensures { OnOk result (found.new.items ≡ found.old.items ++ expr.now ∷ []) }
{
    if found.push(Expr { ..*expr }).is_err() {
        return Err(AllocError);
    }
    Ok(())
}
