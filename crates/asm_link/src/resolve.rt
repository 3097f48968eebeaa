//! Instructions whose immediates and offsets come from names.

ghost use Rattle.std.specs.Prelude.{◌≡◌, true, pos, ◌-ℤ◌, None};
ghost use Rattle.pmsi_model.specs.Instruction.{IsEncodingOf};
ghost use Rattle.asm_parse.specs.Mnemonics.{Instruction};
ghost use Rattle.asm_parse.specs.Items.{filled, takes, is_ready, item_of, IsReady};
ghost use Rattle.asm_operands.specs.Operands.{expr_value};
ghost use Rattle.asm_operands.specs.Meanings.{expr};
ghost use Rattle.asm_parse.specs.Assembly.{code_at, value_or_zero, unknown_item, named_number_fault, reach_fault, IsWordOf};
ghost use Rattle.asm_link.specs.Values.{held};
ghost use Rattle.asm_link.specs.Resolved.{fits_item};

use crate::values::{unknown_fault, value_of, value_or_zero};
use asm_parse::{AsmCause, Expr, Item, Names, is_number, part_of, takes};
use pmsi_model::Instr;
use rv_decode::encode;

/// An instruction's name is defined nowhere.
pub(crate) fn unknown_item(item: &Item<'_>, names: &Names<'_>) -> Option<AsmCause>
    ensures { result ≡ unknown_item (held names.now) (item_of item.now) }
{
    match item {
        Item::Known(_) => None,
        Item::Immediate(_, imm) => unknown_fault(&imm.expr, names),
        Item::Address(_, _, operand) | Item::Target(_, operand) => unknown_fault(operand, names),
    }
}

/// An instruction's number is misspelt or out of its range.
pub(crate) fn number_fault(item: &Item<'_>, names: &Names<'_>) -> Option<AsmCause>
    ensures { result ≡ named_number_fault (held names.now) (item_of item.now) }
{
    let (value, column) = match item {
        Item::Known(_) => return None,
        Item::Immediate(_, imm) => (value_of(&imm.expr, names), imm.column),
        Item::Address(_, _, operand) | Item::Target(_, operand) => (
            value_of(operand, names),
            operand.column,
        ),
    };
    let fits = match value {
        Some(n) => takes_value(item, n),
        None => false,
    };
    if fits {
        None
    } else {
        Some(AsmCause::Number(column))
    }
}

/// Whether the value is in the range of an instruction's number.
fn takes_value(item: &Item<'_>, n: i64) -> bool
    ensures { result ≡ fits_item (item_of item.now) n }
{
    match item {
        Item::Immediate(instr, imm) => takes(*instr, part_of(imm.part, n)),
        Item::Address(_, _, _) => is_number(n),
        _ => true,
    }
}

/// An instruction's target is out of reach.
pub(crate) fn reach_fault(item: &Item<'_>, names: &Names<'_>, address: u32) -> Option<AsmCause>
    ensures { result ≡ reach_fault (held names.now) (pos address) (item_of item.now) }
{
    let Item::Target(instr, operand) = item else {
        return None;
    };
    let distance = value_of(operand, names)? - i64::from(address);
    if takes(*instr, distance) {
        None
    } else {
        Some(AsmCause::Reach(distance))
    }
}

/// The word of the instruction that an item comes to at its address.
pub(crate) fn word_of_item(item: &Item<'_>, names: &Names<'_>, address: u32) -> u32
    requires ready { IsReady item.now }
    requires number { named_number_fault (held names.now) (item_of item.now) ≡ None }
    requires reach { reach_fault (held names.now) (pos address) (item_of item.now) ≡ None }
    ensures { IsWordOf (code_at (held names.now) address (item_of item.now)) result }
{
    word_of_instr(resolved(item, names, address))
}

/// The instruction that an item comes to at its address.
fn resolved(item: &Item<'_>, names: &Names<'_>, address: u32) -> Instr
    requires ready { IsReady item.now }
    requires number { named_number_fault (held names.now) (item_of item.now) ≡ None }
    requires reach { reach_fault (held names.now) (pos address) (item_of item.now) ≡ None }
    ensures code { code_at (held names.now) address (item_of item.now) ≡ Instruction result }
    ensures ready { is_ready result ≡ true }
{
    match item {
        Item::Known(instr) => *instr,
        Item::Immediate(instr, imm) => filled(
            *instr,
            part_of(imm.part, value_or_zero(&imm.expr, names)),
        ),
        Item::Address(instr, part, operand) => filled(
            *instr,
            part_of(*part, value_or_zero(operand, names)),
        ),
        Item::Target(instr, operand) => filled(*instr, distance(operand, names, address)),
    }
}

/// The distance from an address to a target.
fn distance(operand: &Expr<'_>, names: &Names<'_>, address: u32) -> i64
    ensures { result ≡ value_or_zero (expr_value (held names.now) (expr operand.now)) -ℤ pos address }
{
    value_or_zero(operand, names) - i64::from(address)
}

/// The word of an instruction.
fn word_of_instr(instr: Instr) -> u32
    requires { is_ready instr ≡ true }
    ensures { IsEncodingOf result instr }
{
    encode(instr)
}

/// The instruction with this immediate or offset.
fn filled(instr: Instr, n: i64) -> Instr
    requires ready { is_ready instr ≡ true }
    requires takes { takes instr n ≡ true }
    ensures filled { result ≡ filled instr n }
    ensures ready { is_ready result ≡ true }
{
    let imm = n as i32;
    match instr {
        Instr::Lui { rd, .. } => Instr::Lui { rd, imm: n as u32 },
        Instr::Auipc { rd, .. } => Instr::Auipc { rd, imm: n as u32 },
        Instr::Jal { rd, .. } => Instr::Jal { rd, offset: imm },
        Instr::Jalr { rd, rs1, .. } => Instr::Jalr { rd, rs1, imm },
        Instr::Branch { op, rs1, rs2, .. } => Instr::Branch {
            op,
            rs1,
            rs2,
            offset: imm,
        },
        Instr::Load { op, rd, rs1, .. } => Instr::Load { op, rd, rs1, imm },
        Instr::Store { op, rs1, rs2, .. } => Instr::Store { op, rs1, rs2, imm },
        Instr::OpImm { op, rd, rs1, .. } => Instr::OpImm { op, rd, rs1, imm },
        other => other,
    }
}
