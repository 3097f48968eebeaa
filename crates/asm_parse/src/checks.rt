//! Checks of numbers that are known at once.

ghost use Rattle.std.specs.Prelude.{◌≡◌, ◌<◌, ◌≤◌, ℕ, ℤ, pos, Bool, true, map, IfOk, IfSome};
ghost use Rattle.std.specs.Result.{result_err};
ghost use Rattle.asm_parse.specs.declared.item.Item.TheVariants as item;
ghost use Rattle.asm_operands.specs.Numbers.{is_number};
ghost use Rattle.asm_parse.specs.Assembly.{wrong_item, first_wrong, is_size, is_alignment};
ghost use Rattle.asm_parse.specs.Items.{item_of, instrs_of, number_of};
ghost use Rattle.asm_parse.specs.Checks.{wrong_by, wrong_expr, IsChecked};

use crate::item::{Instrs, Item, Width};
use crate::ranges::{fits_in, part_of, takes};
use asm_operands::{Expr, Imm, Literal, Number};
use pmsi_model::Instr;

/// What was checked, or the column of the first number that is wrong.
type Checked<T> = Result<T, u32>;

/// The instructions that a line stands for.
#[tactic(auto, unfolding(crate::specs::Assembly::first_of))]
pub(crate) fn check_instrs(instrs: &Instrs<'_>) -> Checked<()>
    ensures { result_err result ≡ first_wrong (instrs_of instrs.now) }
{
    match instrs {
        Instrs::One(a) => check_item(a),
        Instrs::Two(a, b) => {
            check_item(a)?;
            check_item(b)
        }
    }
}

/// The numbers of a line of data.
#[tactic(auto, unfolding(crate::specs::Assembly::first_of))]
pub(crate) fn check_numbers(width: Width, numbers: &[Expr<'_>]) -> Checked<()>
    ensures { result_err result ≡ first_wrong (map (number_of width) numbers.now) }
{
    for expr in numbers {
        check_number(width, expr)?;
    }
    Ok(())
}

/// One instruction.
fn check_item(item: &Item<'_>) -> Checked<()>
    ensures { result_err result ≡ wrong_item (item_of item.now) }
{
    match item {
        Item::Known(_) => Ok(()),
        Item::Immediate(instr, imm) => check_imm(*instr, imm),
        Item::Address(_, _, expr) => check_number(Width::Word, expr),
        Item::Target(_, expr) => own_number(expr).map(|_| ()),
    }
}

/// An immediate of an instruction, which blames its own column where it is out of range.
fn check_imm(instr: Instr, imm: &Imm<'_>) -> Checked<()>
    ensures { result_err result ≡ wrong_item (item_of (item.Immediate instr imm.now)) }
{
    match own_number(&imm.expr)? {
        Some(n) if !takes(instr, part_of(imm.part, n.value())) => Err(imm.column),
        _ => Ok(()),
    }
}

/// A number of so many bytes.
fn check_number(width: Width, expr: &Expr<'_>) -> Checked<()>
    ensures { result_err result ≡ wrong_item (number_of width expr.now) }
{
    match own_number(expr)? {
        Some(n) if !fits_in(width, n.value()) => Err(expr.column),
        _ => Ok(()),
    }
}

/// The number of an expression, unless it has a name, which is given its value later.
fn own_number(expr: &Expr<'_>) -> Checked<Option<Number>>
    ensures { (at : ℕ) → (fits : ℤ → Bool) → wrong_expr expr.now at fits ≡ wrong_by result at fits }
{
    match (expr.name, expr.number) {
        (Some(_), _) => Ok(None),
        (None, None) => Err(expr.column),
        (None, number) => Ok(number),
    }
}

/// A number of bytes, or an address: from 0 to 2^32 - 1.
pub(crate) fn check_size(n: Literal) -> Checked<u32>
    ensures { IsChecked pos n is_size result }
{
    match n.value.map(|value| u32::try_from(value.value())) {
        Some(Ok(size)) => Ok(size),
        _ => Err(n.column),
    }
}

/// What data can be aligned to: a power of two, at most 64.
pub(crate) fn check_alignment(n: Literal) -> Checked<u32>
    ensures checked { IsChecked pos n is_alignment result }
    ensures within { IfOk result (λ to. (0 < to) × (to ≤ 64)) }
{
    match n.value.map(Number::value) {
        Some(to) if matches!(to, 1 | 2 | 4 | 8 | 16 | 32 | 64) => Ok(to as u32),
        _ => Err(n.column),
    }
}

/// A number of a source, which may be misspelt or too wide.
pub(crate) fn check_value(n: Literal) -> Checked<Number>
    requires { IfSome n.value (λ value. is_number value ≡ true) }
    ensures { IsChecked (λ value. value) n is_number result }
{
    n.value.ok_or(n.column)
}
