//! Loads constants and addresses into registers.

ghost use Rattle.std.specs.Prelude.{◌≡◌, IfSome, true};
ghost use Rattle.pmsi_model.specs.declared.instr.Instr.TheVariants.{OpImm};
ghost use Rattle.pmsi_model.specs.declared.instr.ImmOp.TheVariants.{Addi};
ghost use Rattle.asm_operands.specs.Numbers.{is_number};
ghost use Rattle.asm_parse.specs.Mnemonics.{load_address, load_constant, load_immediate};
ghost use Rattle.asm_operands.specs.Meanings.{expr};
ghost use Rattle.asm_parse.specs.Items.{AreReady, instrs_of};

use crate::item::Instrs::{self, One, Two};
use crate::item::Item;
use crate::parts::{high_part, in_32_bits, low_part};
use asm_operands::{Expr, Number, Part};
use pmsi_model::{ImmOp, Instr, Reg};

/// The instructions that load an expression's value, or, where it has none, two that stand in for them.
pub(crate) fn load_immediate<'a>(rd: Reg, constant: &Expr<'a>, value: Option<Number>) -> Instrs<'a>
    ensures loaded { IfSome value (λ n. is_number n ≡ true) → instrs_of result ≡ load_immediate rd (expr constant.now) value }
    ensures sound { AreReady result }
{
    match value {
        Some(value) => load_constant(rd, value.value()),
        None => load_address(rd, constant),
    }
}

/// The instructions that load a constant: one where it has twelve bits or its low part is 0, else two.
#[tactic(auto, using(crate::proofs::Constants::same_word))]
fn load_constant<'a>(rd: Reg, constant: i64) -> Instrs<'a>
    ensures loaded { is_number constant ≡ true → instrs_of result ≡ load_constant rd constant }
    ensures sound { AreReady result }
{
    let word = in_32_bits(constant);
    let value = word.cast_signed();
    if (-2048..=2047).contains(&value) {
        return One(Item::Known(addi(rd, Reg::new(0), value)));
    }
    let lui = Instr::Lui {
        rd,
        imm: high_part(constant),
    };
    if word % 4096 == 0 {
        One(Item::Known(lui))
    } else {
        Two(
            Item::Known(lui),
            Item::Known(addi(rd, rd, low_part(constant))),
        )
    }
}

/// The two instructions that load an address.
pub(crate) fn load_address<'a>(rd: Reg, address: &Expr<'a>) -> Instrs<'a>
    ensures loaded { instrs_of result ≡ load_address rd (expr address.now) }
    ensures sound { AreReady result }
{
    let lui = Instr::Lui { rd, imm: 0 };
    let addi = addi(rd, rd, 0);
    Two(
        Item::Address(lui, Part::High, Expr { ..*address }),
        Item::Address(addi, Part::Low, Expr { ..*address }),
    )
}

/// Adds an immediate.
fn addi(rd: Reg, rs1: Reg, imm: i32) -> Instr
    ensures { result ≡ OpImm Addi rd rs1 imm }
{
    op_imm(ImmOp::Addi, rd, rs1, imm)
}

/// An operation on a register and an immediate.
pub(crate) fn op_imm(op: ImmOp, rd: Reg, rs1: Reg, imm: i32) -> Instr
    ensures { result ≡ OpImm op rd rs1 imm }
{
    Instr::OpImm { op, rd, rs1, imm }
}
