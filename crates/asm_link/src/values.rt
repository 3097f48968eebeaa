//! Values of expressions, once all names are known.

ghost use Rattle.std.specs.Prelude.{◌≡◌, ◌^◌, pos, neg_ℤ, ◌≤ℤ◌, ◌<ℤ◌, IfSome};
ghost use Rattle.asm_operands.specs.Operands.{expr_value, value_of_name};
ghost use Rattle.asm_operands.specs.Meanings.{expr};
ghost use Rattle.asm_parse.specs.Assembly.{unknown_in, value_or_zero};
ghost use Rattle.asm_operands.specs.Widths.{IsWide};
ghost use Rattle.asm_link.specs.Values.{held};

use asm_parse::{AsmCause, Expr, Named, Names};

/// The value of an expression, unless its name is defined nowhere or its number is misspelt or too wide.
#[tactic(auto, using(crate::proofs::HeldNames::holds_names))]
pub(crate) fn value_of(operand: &Expr<'_>, names: &Names<'_>) -> Option<i64>
    ensures value { result ≡ expr_value (held names.now) (expr operand.now) }
    ensures within { IfSome result (λ n. (neg_ℤ (pos (2 ^ 34)) ≤ℤ n) × (n <ℤ pos (2 ^ 34))) }
{
    let base = base_of(operand, names)?;
    let number = operand.number?;
    Some(base + number.value())
}

/// The value of an expression's name, if it has one.
#[tactic(auto, using(crate::proofs::HeldNames::holds_names))]
fn base_of(operand: &Expr<'_>, names: &Names<'_>) -> Option<i64>
    ensures value { result ≡ value_of_name (held names.now) (expr operand.now).name }
    ensures within { IfSome result IsWide }
{
    let Some(name) = operand.name else {
        return Some(0);
    };
    let Named { value, .. } = names.get(name)?;
    Some(value.value())
}

/// The value, or 0 where there is none.
#[tactic(auto, using(crate::proofs::HeldNames::holds_names))]
pub(crate) fn value_or_zero(operand: &Expr<'_>, names: &Names<'_>) -> i64
    ensures value { result ≡ value_or_zero (expr_value (held names.now) (expr operand.now)) }
    ensures within { (neg_ℤ (pos (2 ^ 34)) ≤ℤ result) × (result <ℤ pos (2 ^ 34)) }
{
    value_of(operand, names).unwrap_or(0)
}

/// The name is defined nowhere.
#[tactic(auto, using(crate::proofs::HeldNames::holds_names))]
pub(crate) fn unknown_fault(operand: &Expr<'_>, names: &Names<'_>) -> Option<AsmCause>
    ensures { result ≡ unknown_in (held names.now) (expr operand.now) }
{
    let name = operand.name?;
    match names.get(name) {
        Some(_) => None,
        None => Some(AsmCause::Unknown(operand.column)),
    }
}
