//! Takes operands up to the line's end. The functions are named by the operands: registers r, an immediate i, an address m,
//! that of an AMO b, an expression e, a constant c, sets of a fence f. Commas stand between operands.

ghost use Rattle.std.specs.Prelude.{◌≡◌, ◌<◌, ℕ, ℤ, true, List, IfOk, IfSome};
ghost use Rattle.asm_operands.specs.Numbers.{is_number};
ghost use Rattle.asm_operands.specs.Operands.{take_pair, take_r, take_rr, take_rrr, take_ri, take_rri, take_rm, take_rrb, take_e, take_re, take_rre, take_rc, take_ff};
ghost use Rattle.asm_operands.specs.Meanings.{lexemes, took, whole, expr, imm};
ghost use Rattle.asm_operands.specs.NameTable.{HasConstants};

use crate::expr::{Expr, Imm};
use crate::lexeme::{Lexeme, Took, Whole};
use crate::names::Names;
use crate::number::Number;
use crate::operands::{
    take_base, take_constant, take_expr, take_fences, take_imm, take_kind, take_memory,
    take_register,
};
use crate::token::TokenKind;
use crate::{taken, whole};
use pmsi_model::Reg;

/// Two registers, with more to come.
fn take_pair<'x, 'a>(tokens: &'x [Lexeme<'a>]) -> Took<'x, 'a, (Reg, Reg)>
    ensures { took (λ t. t) result ≡ take_pair (lexemes tokens.now) }
{
    let (a, tokens) = taken!(take_register(tokens));
    let (_, tokens) = take_kind(TokenKind::Comma, tokens)?;
    let (b, tokens) = taken!(take_register(tokens));
    Ok(((a, b), tokens))
}

/// A register.
#[tactic(auto, unfolding(crate::specs::Operands::take_r))]
pub fn take_r<'x, 'a>(tokens: &'x [Lexeme<'a>]) -> Whole<'x, 'a, Reg>
    ensures { whole (λ a. a) result ≡ take_r (lexemes tokens.now) }
{
    let (a, tokens) = taken!(take_register(tokens));
    whole!(a, tokens)
}

/// Two registers.
#[tactic(auto, unfolding(crate::specs::Operands::take_rr))]
pub fn take_rr<'x, 'a>(tokens: &'x [Lexeme<'a>]) -> Whole<'x, 'a, (Reg, Reg)>
    ensures { whole (λ t. t) result ≡ take_rr (lexemes tokens.now) }
{
    let (pair, tokens) = taken!(take_pair(tokens));
    whole!(pair, tokens)
}

/// Three registers.
#[tactic(auto, unfolding(crate::specs::Operands::take_rrr))]
pub fn take_rrr<'x, 'a>(tokens: &'x [Lexeme<'a>]) -> Whole<'x, 'a, (Reg, Reg, Reg)>
    ensures { whole (λ t. t) result ≡ take_rrr (lexemes tokens.now) }
{
    let ((a, b), tokens) = taken!(take_pair(tokens));
    let (_, tokens) = take_kind(TokenKind::Comma, tokens)?;
    let (c, tokens) = taken!(take_register(tokens));
    whole!((a, b, c), tokens)
}

/// A register and an immediate.
#[tactic(auto, unfolding(crate::specs::Operands::take_ri))]
pub fn take_ri<'x, 'a>(tokens: &'x [Lexeme<'a>]) -> Whole<'x, 'a, (Reg, Imm<'a>)>
    ensures { whole (λ t. (t.0, imm t.1)) result ≡ take_ri (lexemes tokens.now) }
{
    let (a, tokens) = taken!(take_register(tokens));
    let (_, tokens) = take_kind(TokenKind::Comma, tokens)?;
    let (imm, tokens) = taken!(take_imm(tokens));
    whole!((a, imm), tokens)
}

/// Two registers and an immediate.
#[tactic(auto, unfolding(crate::specs::Operands::take_rri))]
pub fn take_rri<'x, 'a>(tokens: &'x [Lexeme<'a>]) -> Whole<'x, 'a, (Reg, Reg, Imm<'a>)>
    ensures { whole (λ t. (t.0, t.1, imm t.2)) result ≡ take_rri (lexemes tokens.now) }
{
    let ((a, b), tokens) = taken!(take_pair(tokens));
    let (_, tokens) = take_kind(TokenKind::Comma, tokens)?;
    let (imm, tokens) = taken!(take_imm(tokens));
    whole!((a, b, imm), tokens)
}

/// A register and an address: its immediate and its register.
#[tactic(auto, unfolding(crate::specs::Operands::take_rm))]
pub fn take_rm<'x, 'a>(tokens: &'x [Lexeme<'a>]) -> Whole<'x, 'a, (Reg, Imm<'a>, Reg)>
    ensures { whole (λ t. (t.0, imm t.1, t.2)) result ≡ take_rm (lexemes tokens.now) }
{
    let (a, tokens) = taken!(take_register(tokens));
    let (_, tokens) = take_kind(TokenKind::Comma, tokens)?;
    let ((imm, base), tokens) = taken!(take_memory(tokens));
    whole!((a, imm, base), tokens)
}

/// Two registers and an address of an AMO.
#[tactic(auto, unfolding(crate::specs::Operands::take_rrb))]
pub fn take_rrb<'x, 'a>(tokens: &'x [Lexeme<'a>]) -> Whole<'x, 'a, (Reg, Reg, Reg)>
    ensures { whole (λ t. t) result ≡ take_rrb (lexemes tokens.now) }
{
    let ((a, b), tokens) = taken!(take_pair(tokens));
    let (_, tokens) = take_kind(TokenKind::Comma, tokens)?;
    let (base, tokens) = taken!(take_base(tokens));
    whole!((a, b, base), tokens)
}

/// An expression.
#[tactic(auto, unfolding(crate::specs::Operands::take_e))]
pub fn take_e<'x, 'a>(tokens: &'x [Lexeme<'a>]) -> Whole<'x, 'a, Expr<'a>>
    ensures { whole expr result ≡ take_e (lexemes tokens.now) }
{
    let (expr, tokens) = taken!(take_expr(tokens));
    whole!(expr, tokens)
}

/// A register and an expression.
#[tactic(auto, unfolding(crate::specs::Operands::take_re))]
pub fn take_re<'x, 'a>(tokens: &'x [Lexeme<'a>]) -> Whole<'x, 'a, (Reg, Expr<'a>)>
    ensures { whole (λ t. (t.0, expr t.1)) result ≡ take_re (lexemes tokens.now) }
{
    let (a, tokens) = taken!(take_register(tokens));
    let (_, tokens) = take_kind(TokenKind::Comma, tokens)?;
    let (expr, tokens) = taken!(take_expr(tokens));
    whole!((a, expr), tokens)
}

/// Two registers and an expression.
#[tactic(auto, unfolding(crate::specs::Operands::take_rre))]
pub fn take_rre<'x, 'a>(tokens: &'x [Lexeme<'a>]) -> Whole<'x, 'a, (Reg, Reg, Expr<'a>)>
    ensures { whole (λ t. (t.0, t.1, expr t.2)) result ≡ take_rre (lexemes tokens.now) }
{
    let ((a, b), tokens) = taken!(take_pair(tokens));
    let (_, tokens) = take_kind(TokenKind::Comma, tokens)?;
    let (expr, tokens) = taken!(take_expr(tokens));
    whole!((a, b, expr), tokens)
}

/// A register and a constant, with its value, unless it is out of range.
#[tactic(auto, unfolding(crate::specs::Operands::take_rc))]
pub fn take_rc<'x, 'a>(
    tokens: &'x [Lexeme<'a>],
    names: &Names<'a>,
) -> Whole<'x, 'a, (Reg, Expr<'a>, Option<Number>)>
    ensures operands { (equs : List (List ℕ × ℤ)) → HasConstants names.now equs → whole (λ t. (t.0, expr t.1, t.2)) result ≡ take_rc equs (lexemes tokens.now) }
    ensures range { IfOk result (λ t. IfSome t.2 (λ n. is_number n ≡ true)) }
{
    let (a, tokens) = taken!(take_register(tokens));
    let (_, tokens) = take_kind(TokenKind::Comma, tokens)?;
    let ((expr, value), tokens) = taken!(take_constant(tokens, names));
    whole!((a, expr, value), tokens)
}

/// The two sets of a fence, each below 16.
#[tactic(auto, unfolding(crate::specs::Operands::take_ff))]
pub fn take_ff<'x, 'a>(tokens: &'x [Lexeme<'a>]) -> Whole<'x, 'a, (u32, u32)>
    ensures sets { whole (λ t. t) result ≡ take_ff (lexemes tokens.now) }
    ensures within { IfOk result (λ sets. (sets.0 < 16) × (sets.1 < 16)) }
{
    let (before, tokens) = taken!(take_fences(tokens));
    let (_, tokens) = take_kind(TokenKind::Comma, tokens)?;
    let (after, tokens) = taken!(take_fences(tokens));
    whole!((before, after), tokens)
}
