//! The second round's faults.

ghost use Rattle.std.specs.Prelude.{◌≡◌, ◌≤◌, ◌++◌, [], ◌∷◌, map};
ghost use Rattle.pmsi_model.specs.declared.limits.TheConstants.{MAX_MEMORY};
ghost use Rattle.asm_operands.specs.Meanings.{expr};
ghost use Rattle.asm_operands.specs.Operands.{expr_value};
ghost use Rattle.asm_parse.specs.Items.{fits_in, instrs_of, item_of, statement_of};
ghost use Rattle.asm_parse.specs.Assembly.{first_of, items_of, placed_from, unknown_in, value_fault};
ghost use Rattle.asm_link.specs.Values.{held};
ghost use Rattle.asm_link.specs.Placed.{faults_of, unfit, wide};

use crate::resolve::{number_fault, reach_fault, unknown_item};
use crate::step::Step;
use crate::values::{unknown_fault, value_of};
use asm_parse::{AsmCause, Expr, Instrs, Item, Names, Statement, Width, fits_in};

/// What is wrong with a line, once all names are known.
pub(crate) fn later_fault(step: &Step<'_>, names: &Names<'_>) -> Option<AsmCause>
    requires { step.now.address ≤ MAX_MEMORY }
    ensures { result ≡ faults_of (held names.now) (placed_from step.now.address (items_of (statement_of step.now.does))) }
{
    match &step.does {
        Statement::Instrs(instrs) => instrs_fault(instrs, names, step.address),
        Statement::Numbers { width, numbers } => numbers_fault(*width, numbers, names),
        _ => None,
    }
}

/// What is wrong with the instructions of a line.
fn instrs_fault(instrs: &Instrs<'_>, names: &Names<'_>, address: u32) -> Option<AsmCause>
    requires { address ≤ MAX_MEMORY }
    ensures { result ≡ faults_of (held names.now) (placed_from address (map (wide 4) (instrs_of instrs.now))) }
{
    match instrs {
        Instrs::One(item) => one_fault(item, names, address),
        Instrs::Two(first, second) => two_faults(first, second, names, address),
    }
}

/// What is wrong with one instruction at its address.
#[tactic(auto, unfolding(asm_parse::specs::Assembly::first_of, asm_parse::specs::Assembly::placed_from, crate::specs::Placed::faults_of))]
fn one_fault(item: &Item<'_>, names: &Names<'_>, address: u32) -> Option<AsmCause>
    ensures { result ≡ faults_of (held names.now) (placed_from address (map (wide 4) (item_of item.now ∷ []))) }
{
    if let Some(cause) = unknown_item(item, names) {
        return Some(cause);
    }
    if let Some(cause) = number_fault(item, names) {
        return Some(cause);
    }
    reach_fault(item, names, address)
}

/// What is wrong with two instructions, the first at this address.
#[tactic(auto, unfolding(asm_parse::specs::Assembly::first_of, asm_parse::specs::Assembly::placed_from, crate::specs::Placed::faults_of))]
fn two_faults(
    first: &Item<'_>,
    second: &Item<'_>,
    names: &Names<'_>,
    address: u32,
) -> Option<AsmCause>
    requires { address ≤ MAX_MEMORY }
    ensures { result ≡ faults_of (held names.now) (placed_from address (map (wide 4) (item_of first.now ∷ item_of second.now ∷ []))) }
{
    if let Some(cause) = unknown_item(first, names) {
        return Some(cause);
    }
    if let Some(cause) = unknown_item(second, names) {
        return Some(cause);
    }
    if let Some(cause) = number_fault(first, names) {
        return Some(cause);
    }
    if let Some(cause) = number_fault(second, names) {
        return Some(cause);
    }
    if let Some(cause) = reach_fault(first, names, address) {
        return Some(cause);
    }
    reach_fault(second, names, address + 4)
}

/// What is wrong with the numbers of a line.
#[tactic(auto, using(crate::proofs::FirstOf::first_append))]
fn numbers_fault(width: Width, numbers: &[Expr<'_>], names: &Names<'_>) -> Option<AsmCause>
    ensures { result ≡ first_of (map (λ e. unknown_in (held names.now) (expr e)) numbers.now ++ map (unfit (held names.now) width) numbers.now) }
{
    if let Some(cause) = unknown_among(numbers, names) {
        return Some(cause);
    }
    unfit_among(width, numbers, names)
}

/// The first name among numbers that is defined nowhere.
#[tactic(auto, unfolding(asm_parse::specs::Assembly::first_of), using(crate::proofs::FirstOf::first_next, crate::proofs::FirstOf::first_here))]
fn unknown_among(numbers: &[Expr<'_>], names: &Names<'_>) -> Option<AsmCause>
    ensures { result ≡ first_of (map (λ e. unknown_in (held names.now) (expr e)) numbers.now) }
{
    for number in numbers {
        let cause = unknown_fault(number, names);
        if cause.is_some() {
            return cause;
        }
    }
    None
}

/// The first number that is misspelt or out of its range.
#[tactic(auto, unfolding(asm_parse::specs::Assembly::first_of), using(crate::proofs::FirstOf::first_next, crate::proofs::FirstOf::first_here))]
fn unfit_among(width: Width, numbers: &[Expr<'_>], names: &Names<'_>) -> Option<AsmCause>
    ensures { result ≡ first_of (map (λ e. value_fault (expr_value (held names.now) (expr e)) e.column (fits_in width)) numbers.now) }
{
    for number in numbers {
        let cause = width_fault(width, number, names);
        if cause.is_some() {
            return cause;
        }
    }
    None
}

/// A number of data is misspelt or out of its range.
fn width_fault(width: Width, number: &Expr<'_>, names: &Names<'_>) -> Option<AsmCause>
    ensures { result ≡ value_fault (expr_value (held names.now) (expr number.now)) number.now.column (fits_in width) }
{
    match value_of(number, names) {
        Some(n) if fits_in(width, n) => None,
        _ => Some(AsmCause::Number(number.column)),
    }
}
