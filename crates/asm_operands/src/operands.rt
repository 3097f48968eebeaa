//! Takes operands from the front of a line's tokens.

ghost use Rattle.std.specs.Prelude.{◌≡◌, ℕ, ℤ, ◌<◌, true, List, IfOk, IfSome};
ghost use Rattle.asm_operands.specs.Numbers.{is_number};
ghost use Rattle.asm_operands.specs.Operands.{first_is, has_kind, is_unknown, if_in_range, expr_value, take_kind, take_one, take_literal, take_offset, negated, take_expr, take_part, part_if, take_imm, take_register, take_in_parentheses, take_memory, take_base, take_fences, take_constant, no_imm};
ghost use Rattle.asm_operands.specs.Meanings.{lexeme, lexemes, expr, imm, took};
ghost use Rattle.asm_operands.specs.NameTable.{HasConstants};

use crate::expr::{Expr, Imm, Literal, Part};
use crate::lexeme::{Lexeme, Took};
use crate::names::Names;
use crate::number::Number;
use crate::spelling::{fence_set, if_number, register_named, signed_number};
use crate::taken;
use crate::token::TokenKind;
use pmsi_model::Reg;

/// Whether the next token is of this kind.
pub(crate) fn is_next(kind: TokenKind, tokens: &[Lexeme<'_>]) -> bool
    ensures { result ≡ first_is (has_kind kind) (lexemes tokens.now) }
{
    match tokens {
        [token, ..] => token.kind == kind,
        [] => false,
    }
}

/// A token of this kind.
#[tactic(auto, unfolding(crate::specs::Operands::take_kind))]
pub fn take_kind<'x, 'a>(kind: TokenKind, tokens: &'x [Lexeme<'a>]) -> Took<'x, 'a, Lexeme<'a>>
    ensures { took lexeme result ≡ take_kind kind (lexemes tokens.now) }
{
    match tokens {
        [token, rest @ ..] if token.kind == kind => Ok((*token, rest)),
        _ => Err(tokens),
    }
}

/// A number with its sign.
#[tactic(auto, unfolding(crate::specs::Operands::take_literal, crate::specs::Operands::take_kind))]
pub fn take_literal<'x, 'a>(tokens: &'x [Lexeme<'a>]) -> Took<'x, 'a, Literal>
    ensures literal { took (λ n. n) result ≡ take_literal (lexemes tokens.now) }
    ensures range { IfOk result (λ taken. IfSome taken.0.value (λ n. is_number n ≡ true)) }
{
    let (minus, tokens) = match take_kind(TokenKind::Minus, tokens) {
        Ok((minus, tokens)) => (Some(minus), tokens),
        Err(tokens) => (None, tokens),
    };
    let (digits, tokens) = take_kind(TokenKind::Number, tokens)?;
    let literal = Literal {
        value: signed_number(minus.is_some(), digits.text),
        column: minus.unwrap_or(digits).column,
    };
    Ok((literal, tokens))
}

/// A number, a name, or a name with a number.
#[tactic(auto, unfolding(crate::specs::Operands::take_expr, crate::specs::Operands::take_kind))]
pub(crate) fn take_expr<'x, 'a>(tokens: &'x [Lexeme<'a>]) -> Took<'x, 'a, Expr<'a>>
    ensures { took expr result ≡ take_expr (lexemes tokens.now) }
{
    if let Ok((name, tokens)) = take_kind(TokenKind::Word, tokens) {
        return take_offset(&name, tokens);
    }
    let (Literal { value, column }, tokens) = taken!(take_literal(tokens));
    let expr = Expr {
        name: None,
        number: value,
        column,
    };
    Ok((expr, tokens))
}

/// What is added to a name or taken from it, if anything is.
#[tactic(auto, unfolding(crate::specs::Operands::take_kind))]
fn take_offset<'x, 'a>(name: &Lexeme<'a>, tokens: &'x [Lexeme<'a>]) -> Took<'x, 'a, Expr<'a>>
    ensures { took expr result ≡ take_offset (lexeme name.now) (lexemes tokens.now) }
{
    let (number, tokens) = if let Ok((_, tokens)) = take_kind(TokenKind::Plus, tokens) {
        let (number, tokens) = taken!(take_literal(tokens));
        (number.value, tokens)
    } else if let Ok((_, tokens)) = take_kind(TokenKind::Minus, tokens) {
        let (number, tokens) = taken!(take_literal(tokens));
        (negated(number.value), tokens)
    } else {
        (Some(Number::new(0)), tokens)
    };
    let expr = Expr {
        name: Some(name.text),
        number,
        column: name.column,
    };
    Ok((expr, tokens))
}

/// The number taken from 0, if there is one.
fn negated(number: Option<Number>) -> Option<Number>
    ensures { result ≡ negated number }
{
    let value = number?.value();
    Some(Number::new(-value))
}

/// An expression or a part of one.
#[tactic(auto, unfolding(crate::specs::Operands::take_imm, crate::specs::Operands::take_kind))]
pub(crate) fn take_imm<'x, 'a>(tokens: &'x [Lexeme<'a>]) -> Took<'x, 'a, Imm<'a>>
    ensures { took imm result ≡ take_imm (lexemes tokens.now) }
{
    if let [percent, rest @ ..] = tokens {
        if percent.kind == TokenKind::Percent {
            return take_part(percent, rest);
        }
    }
    let (expr, tokens) = taken!(take_expr(tokens));
    let column = expr.column;
    let imm = Imm {
        part: Part::Whole,
        expr,
        column,
    };
    Ok((imm, tokens))
}

/// The part's name and the expression behind a `%`.
fn take_part<'x, 'a>(percent: &Lexeme<'a>, tokens: &'x [Lexeme<'a>]) -> Took<'x, 'a, Imm<'a>>
    ensures { took imm result ≡ take_part (lexeme percent.now) (lexemes tokens.now) }
{
    let (part, tokens) = take_part_name(tokens)?;
    let (_, tokens) = take_kind(TokenKind::Open, tokens)?;
    let (expr, tokens) = taken!(take_expr(tokens));
    let (_, tokens) = take_kind(TokenKind::Close, tokens)?;
    let imm = Imm {
        part,
        expr,
        column: percent.column,
    };
    Ok((imm, tokens))
}

/// The name of a part.
#[tactic(auto, unfolding(crate::specs::Operands::take_kind))]
fn take_part_name<'x, 'a>(tokens: &'x [Lexeme<'a>]) -> Took<'x, 'a, Part>
    ensures { took (λ part. part) result ≡ take_one part_if (lexemes tokens.now) }
{
    match tokens {
        [name, rest @ ..] if name.kind == TokenKind::Word => match name.text {
            "hi" => Ok((Part::High, rest)),
            "lo" => Ok((Part::Low, rest)),
            _ => Err(tokens),
        },
        _ => Err(tokens),
    }
}

/// A register.
#[tactic(auto, unfolding(crate::specs::Operands::take_register, crate::specs::Operands::take_kind))]
pub(crate) fn take_register<'x, 'a>(tokens: &'x [Lexeme<'a>]) -> Took<'x, 'a, Reg>
    ensures { took (λ r. r) result ≡ take_register (lexemes tokens.now) }
{
    match tokens {
        [name, rest @ ..] if name.kind == TokenKind::Word => match register_named(name.text) {
            Some(register) => Ok((register, rest)),
            None => Err(tokens),
        },
        _ => Err(tokens),
    }
}

/// A register in parentheses.
#[tactic(auto, unfolding(crate::specs::Operands::take_in_parentheses))]
pub(crate) fn take_in_parentheses<'x, 'a>(tokens: &'x [Lexeme<'a>]) -> Took<'x, 'a, Reg>
    ensures { took (λ r. r) result ≡ take_in_parentheses (lexemes tokens.now) }
{
    let (_, tokens) = take_kind(TokenKind::Open, tokens)?;
    let (register, tokens) = taken!(take_register(tokens));
    let (_, tokens) = take_kind(TokenKind::Close, tokens)?;
    Ok((register, tokens))
}

/// The immediate 0, which an address has where it is left out.
fn no_imm<'a>() -> Imm<'a>
    ensures { imm result ≡ no_imm }
{
    let expr = Expr {
        name: None,
        number: Some(Number::new(0)),
        column: 0,
    };
    Imm {
        part: Part::Whole,
        expr,
        column: 0,
    }
}

/// An address: an immediate, which may be left out, and a register in parentheses.
#[tactic(auto, unfolding(crate::specs::Operands::take_memory))]
pub(crate) fn take_memory<'x, 'a>(tokens: &'x [Lexeme<'a>]) -> Took<'x, 'a, (Imm<'a>, Reg)>
    ensures { took (λ m. (imm m.0, m.1)) result ≡ take_memory (lexemes tokens.now) }
{
    if is_next(TokenKind::Open, tokens) {
        let (base, tokens) = taken!(take_in_parentheses(tokens));
        Ok(((no_imm(), base), tokens))
    } else {
        let (offset, tokens) = taken!(take_imm(tokens));
        let (base, tokens) = taken!(take_in_parentheses(tokens));
        Ok(((offset, base), tokens))
    }
}

/// An address of an AMO: a register in parentheses, with or without a `0` in front.
#[tactic(auto, unfolding(crate::specs::Operands::take_base, crate::specs::Operands::take_kind))]
pub(crate) fn take_base<'x, 'a>(tokens: &'x [Lexeme<'a>]) -> Took<'x, 'a, Reg>
    ensures { took (λ r. r) result ≡ take_base (lexemes tokens.now) }
{
    match tokens {
        [open, ..] if open.kind == TokenKind::Open => take_in_parentheses(tokens),
        [zero, rest @ ..] if zero.kind == TokenKind::Number && zero.text == "0" => {
            take_in_parentheses(rest)
        }
        _ => Err(tokens),
    }
}

/// Letters of a fence, as the sum of their weights, below 16.
#[tactic(auto, unfolding(crate::specs::Operands::take_fences, crate::specs::Operands::take_kind))]
pub(crate) fn take_fences<'x, 'a>(tokens: &'x [Lexeme<'a>]) -> Took<'x, 'a, u32>
    ensures set { took (λ n. n) result ≡ take_fences (lexemes tokens.now) }
    ensures within { IfOk result (λ x. x.0 < 16) }
{
    match tokens {
        [letters, rest @ ..] if letters.kind == TokenKind::Word => match fence_set(letters.text) {
            Some(set) => Ok((set, rest)),
            None => Err(tokens),
        },
        _ => Err(tokens),
    }
}

/// An expression whose name, if it has one, is that of an earlier `.equ`; with its value, unless it is out of range.
#[tactic(auto, unfolding(crate::specs::Operands::take_constant))]
pub(crate) fn take_constant<'x, 'a>(
    tokens: &'x [Lexeme<'a>],
    names: &Names<'a>,
) -> Took<'x, 'a, (Expr<'a>, Option<Number>)>
    ensures constant { (equs : List (List ℕ × ℤ)) → HasConstants names.now equs → took (λ c. (expr c.0, c.1)) result ≡ take_constant equs (lexemes tokens.now) }
    ensures range { IfOk result (λ taken. IfSome taken.0.1 (λ n. is_number n ≡ true)) }
{
    if starts_unknown(tokens, names) {
        return Err(tokens);
    }
    let (expr, tokens) = taken!(take_expr(tokens));
    let value = constant_of(&expr, names);
    Ok(((expr, value), tokens))
}

/// Whether the next token is a word that no `.equ` defines.
fn starts_unknown(tokens: &[Lexeme<'_>], names: &Names<'_>) -> bool
    ensures { (equs : List (List ℕ × ℤ)) → HasConstants names.now equs → result ≡ first_is (is_unknown equs) (lexemes tokens.now) }
{
    match tokens {
        [token, ..] => token.kind == TokenKind::Word && names.constant(token.text).is_none(),
        [] => false,
    }
}

/// The value of an expression whose name, if it has one, is that of a constant.
fn constant_of(e: &Expr<'_>, names: &Names<'_>) -> Option<Number>
    ensures value { (equs : List (List ℕ × ℤ)) → HasConstants names.now equs → result ≡ if_in_range (expr_value equs (expr e.now)) }
    ensures range { IfSome result (λ n. is_number n ≡ true) }
{
    let value = match e.name {
        Some(name) => names.constant(name)?,
        None => Number::new(0),
    };
    let number = e.number?;
    if_number(value.value() + number.value())
}
