//! Jumps and branches: their operands, and the instructions that they stand for.

ghost use Rattle.std.specs.Prelude.{◌≡◌, pos, [], IfOk};
ghost use Rattle.pmsi_model.specs.declared.instr.Instr.TheVariants.{Branch};
ghost use Rattle.asm_parse.specs.Mnemonics.{further};
ghost use Rattle.asm_operands.specs.Meanings.{lexemes, whole};
ghost use Rattle.asm_parse.specs.Items.{AreReady, instrs_of};
ghost use Rattle.asm_parse.specs.Forms.{jal_form, jump_form, jalr_at_form, jalr_by_form, jump_register_form, first_if, branch_form, branch_zero_form};

use crate::forms::further;
use crate::item::Instrs::{self, One};
use crate::item::Item;
use asm_operands::{Lexeme, Whole, take_e, take_r, take_re, take_rm, take_rre, take_rri, taken};
use pmsi_model::{BranchOp, Instr, Reg};

/// `jal`, with a register to link in, or else x1.
pub(crate) fn take_jal<'x, 'a>(tokens: &'x [Lexeme<'a>]) -> Whole<'x, 'a, Instrs<'a>>
    ensures forms { whole instrs_of result ≡ further (jal_form [] (lexemes tokens.now)) (jump_form 1 [] (lexemes tokens.now)) }
    ensures sound { IfOk result AreReady }
{
    further!(take_linking_jump(tokens), take_jump(Reg::new(1), tokens))
}

/// A jump with a register to link in.
fn take_linking_jump<'x, 'a>(tokens: &'x [Lexeme<'a>]) -> Whole<'x, 'a, Instrs<'a>>
    ensures forms { whole instrs_of result ≡ jal_form [] (lexemes tokens.now) }
    ensures sound { IfOk result AreReady }
{
    let (rd, target) = taken!(take_re(tokens));
    Ok(One(Item::Target(Instr::Jal { rd, offset: 0 }, target)))
}

/// A jump that links in this register.
pub(crate) fn take_jump<'x, 'a>(rd: Reg, tokens: &'x [Lexeme<'a>]) -> Whole<'x, 'a, Instrs<'a>>
    ensures forms { whole instrs_of result ≡ jump_form rd [] (lexemes tokens.now) }
    ensures sound { IfOk result AreReady }
{
    let target = taken!(take_e(tokens));
    Ok(One(Item::Target(Instr::Jal { rd, offset: 0 }, target)))
}

/// `jalr`, with an address, with registers and an immediate, or with a register alone.
pub(crate) fn take_jalr<'x, 'a>(tokens: &'x [Lexeme<'a>]) -> Whole<'x, 'a, Instrs<'a>>
    ensures forms { whole instrs_of result ≡ further (jalr_at_form [] (lexemes tokens.now))
        (further (jalr_by_form [] (lexemes tokens.now)) (jump_register_form 1 [] (lexemes tokens.now))) }
    ensures sound { IfOk result AreReady }
{
    further!(take_jalr_at(tokens), take_jalr_by_registers(tokens))
}

/// `jalr` without an address.
fn take_jalr_by_registers<'x, 'a>(tokens: &'x [Lexeme<'a>]) -> Whole<'x, 'a, Instrs<'a>>
    ensures forms { whole instrs_of result ≡ further (jalr_by_form [] (lexemes tokens.now)) (jump_register_form 1 [] (lexemes tokens.now)) }
    ensures sound { IfOk result AreReady }
{
    further!(
        take_jalr_by(tokens),
        take_jump_register(Reg::new(1), tokens)
    )
}

/// A jump to an address, with a link in a register.
fn take_jalr_at<'x, 'a>(tokens: &'x [Lexeme<'a>]) -> Whole<'x, 'a, Instrs<'a>>
    ensures forms { whole instrs_of result ≡ jalr_at_form [] (lexemes tokens.now) }
    ensures sound { IfOk result AreReady }
{
    let (rd, imm, rs1) = taken!(take_rm(tokens));
    Ok(One(Item::Immediate(Instr::Jalr { rd, rs1, imm: 0 }, imm)))
}

/// The same, with the immediate behind the registers.
fn take_jalr_by<'x, 'a>(tokens: &'x [Lexeme<'a>]) -> Whole<'x, 'a, Instrs<'a>>
    ensures forms { whole instrs_of result ≡ jalr_by_form [] (lexemes tokens.now) }
    ensures sound { IfOk result AreReady }
{
    let (rd, rs1, imm) = taken!(take_rri(tokens));
    Ok(One(Item::Immediate(Instr::Jalr { rd, rs1, imm: 0 }, imm)))
}

/// A jump to the address in a register, with a link in this one.
pub(crate) fn take_jump_register<'x, 'a>(
    rd: Reg,
    tokens: &'x [Lexeme<'a>],
) -> Whole<'x, 'a, Instrs<'a>>
    ensures forms { whole instrs_of result ≡ jump_register_form rd [] (lexemes tokens.now) }
    ensures sound { IfOk result AreReady }
{
    let rs1 = taken!(take_r(tokens));
    Ok(One(Item::Known(Instr::Jalr { rd, rs1, imm: 0 })))
}

/// A branch, maybe with its registers in the other order.
pub(crate) fn take_branch<'x, 'a>(
    op: BranchOp,
    swapped: bool,
    tokens: &'x [Lexeme<'a>],
) -> Whole<'x, 'a, Instrs<'a>>
    ensures forms { whole instrs_of result ≡ branch_form op swapped [] (lexemes tokens.now) }
    ensures sound { IfOk result AreReady }
{
    let (a, b, target) = taken!(take_rre(tokens));
    Ok(One(Item::Target(branch(op, swapped, a, b), target)))
}

/// A branch on a register and x0, maybe in the other order.
pub(crate) fn take_branch_zero<'x, 'a>(
    op: BranchOp,
    swapped: bool,
    tokens: &'x [Lexeme<'a>],
) -> Whole<'x, 'a, Instrs<'a>>
    ensures forms { whole instrs_of result ≡ branch_zero_form op swapped [] (lexemes tokens.now) }
    ensures sound { IfOk result AreReady }
{
    let (register, target) = taken!(take_re(tokens));
    let zero = Reg::new(0);
    Ok(One(Item::Target(branch(op, swapped, register, zero), target)))
}

/// A branch whose offset is 0 so far.
fn branch(op: BranchOp, swapped: bool, a: Reg, b: Reg) -> Instr
    ensures { result ≡ Branch op (first_if swapped b a) (first_if swapped a b) (pos 0) }
{
    let (rs1, rs2) = if swapped { (b, a) } else { (a, b) };
    Instr::Branch {
        op,
        rs1,
        rs2,
        offset: 0,
    }
}
