//! Reads the operands of instructions and pseudo-instructions.

ghost use Rattle.std.specs.Prelude.{◌≡◌, ◌<◌, ℕ, ℤ, pos, List, [], true, IfOk};
ghost use Rattle.pmsi_model.specs.declared.instr.Instr.TheVariants.{Jalr, Op, OpImm, Fence};
ghost use Rattle.asm_parse.specs.Mnemonics.{take_forms, no_operands, ready, form_rr, form_re, form_rc, load_address, load_immediate, fence_word, further};
ghost use Rattle.asm_operands.specs.Meanings.{lexemes, whole};
ghost use Rattle.asm_operands.specs.NameTable.{HasConstants};
ghost use Rattle.asm_parse.specs.Items.{AreReady, instrs_of, is_ready, op_takes};
ghost use Rattle.asm_parse.specs.Forms.{forms_of, is_swapped, link_of, access_form, operation_form, fence_form};

use crate::control::{
    take_branch, take_branch_zero, take_jal, take_jalr, take_jump, take_jump_register,
};
use crate::forms::further;
use crate::item::Instrs::{self, One};
use crate::item::Item;
use crate::loading::{load_address, load_immediate, op_imm};
use crate::mnemonic::{Access, Mnemonic, Operation, Order};
use asm_operands::{
    Lexeme, Names, Whole, take_ff, take_rc, take_re, take_ri, take_rm, take_rr, take_rrb, take_rri,
    take_rrr, taken, whole,
};
use pmsi_model::{ImmOp, Instr, Reg, RegOp};

/// The instructions that a line with this mnemonic and these operands stands for.
#[tactic(auto, unfolding(crate::specs::Mnemonics::take_forms))]
pub(crate) fn take_instrs<'x, 'a>(
    mnemonic: Mnemonic,
    tokens: &'x [Lexeme<'a>],
    names: &Names<'a>,
) -> Whole<'x, 'a, Instrs<'a>>
    ensures forms { (equs : List (List ℕ × ℤ)) → HasConstants names.now equs →
        whole instrs_of result ≡ take_forms (forms_of mnemonic) equs (lexemes tokens.now) }
    ensures sound { IfOk result AreReady }
{
    let zero = Reg::new(0);
    match mnemonic {
        Mnemonic::Jal => take_jal(tokens),
        Mnemonic::Jalr => take_jalr(tokens),
        Mnemonic::Jump { links } => take_jump(link(links), tokens),
        Mnemonic::JumpRegister => take_jump_register(zero, tokens),
        Mnemonic::Branch(op, order) => take_branch(op, is_swapped(order), tokens),
        Mnemonic::BranchZero(op, order) => take_branch_zero(op, is_swapped(order), tokens),
        Mnemonic::Access(access) => take_access(access, tokens),
        Mnemonic::Operation(operation) => take_operation(operation, tokens),
        Mnemonic::Fence => take_fence(tokens),
        Mnemonic::Ecall => take_bare(Instr::Ecall, tokens),
        Mnemonic::Ebreak => take_bare(Instr::Ebreak, tokens),
        Mnemonic::Nop => take_bare(op_imm(ImmOp::Addi, zero, zero, 0), tokens),
        Mnemonic::Ret => take_bare(ret(), tokens),
        Mnemonic::Li => take_li(tokens, names),
        Mnemonic::La => take_la(tokens),
    }
}

/// Whether the registers of a branch change places.
fn is_swapped(order: Order) -> bool
    ensures { result ≡ is_swapped order }
{
    matches!(order, Order::Swapped)
}

/// The register in which a jump without one of its own links.
fn link(links: bool) -> Reg
    ensures { result ≡ link_of links }
{
    if links { Reg::new(1) } else { Reg::new(0) }
}

/// A jump to where the last call came from.
fn ret() -> Instr
    ensures { result ≡ Jalr 0 1 (pos 0) }
{
    Instr::Jalr {
        rd: Reg::new(0),
        rs1: Reg::new(1),
        imm: 0,
    }
}

/// An instruction without operands.
fn take_bare<'x, 'a>(instr: Instr, tokens: &'x [Lexeme<'a>]) -> Whole<'x, 'a, Instrs<'a>>
    requires { is_ready instr ≡ true }
    ensures forms { whole instrs_of result ≡ no_operands (ready instr) [] (lexemes tokens.now) }
    ensures sound { IfOk result AreReady }
{
    whole!(One(Item::Known(instr)), tokens)
}

/// An instruction that reads or writes at an address.
fn take_access<'x, 'a>(access: Access, tokens: &'x [Lexeme<'a>]) -> Whole<'x, 'a, Instrs<'a>>
    ensures forms { whole instrs_of result ≡ access_form access [] (lexemes tokens.now) }
    ensures sound { IfOk result AreReady }
{
    match access {
        Access::Load(op) => {
            let (rd, imm, rs1) = taken!(take_rm(tokens));
            let load = Instr::Load {
                op,
                rd,
                rs1,
                imm: 0,
            };
            Ok(One(Item::Immediate(load, imm)))
        }
        Access::Store(op) => {
            let (rs2, imm, rs1) = taken!(take_rm(tokens));
            let store = Instr::Store {
                op,
                rs1,
                rs2,
                imm: 0,
            };
            Ok(One(Item::Immediate(store, imm)))
        }
        Access::Amo { op, aq, rl } => {
            let (rd, rs2, rs1) = taken!(take_rrb(tokens));
            let amo = Instr::Amo {
                op,
                rd,
                rs1,
                rs2,
                aq,
                rl,
            };
            Ok(One(Item::Known(amo)))
        }
    }
}

/// An operation on registers and immediates.
fn take_operation<'x, 'a>(
    operation: Operation,
    tokens: &'x [Lexeme<'a>],
) -> Whole<'x, 'a, Instrs<'a>>
    ensures forms { whole instrs_of result ≡ operation_form operation [] (lexemes tokens.now) }
    ensures sound { IfOk result AreReady }
{
    let zero = Reg::new(0);
    match operation {
        Operation::Lui => {
            let (rd, imm) = taken!(take_ri(tokens));
            Ok(One(Item::Immediate(Instr::Lui { rd, imm: 0 }, imm)))
        }
        Operation::Auipc => {
            let (rd, imm) = taken!(take_ri(tokens));
            Ok(One(Item::Immediate(Instr::Auipc { rd, imm: 0 }, imm)))
        }
        Operation::Imm(op) => {
            let (rd, rs1, imm) = taken!(take_rri(tokens));
            Ok(One(Item::Immediate(op_imm(op, rd, rs1, 0), imm)))
        }
        Operation::Reg(op) => {
            let (rd, rs1, rs2) = taken!(take_rrr(tokens));
            Ok(One(Item::Known(op_reg(op, rd, rs1, rs2))))
        }
        Operation::Mv => take_unary(ImmOp::Addi, 0, tokens),
        Operation::Not => take_unary(ImmOp::Xori, -1, tokens),
        Operation::Seqz => take_unary(ImmOp::Sltiu, 1, tokens),
        Operation::RegZero(op) => {
            let (rd, rs1) = taken!(take_rr(tokens));
            Ok(One(Item::Known(op_reg(op, rd, rs1, zero))))
        }
        Operation::ZeroReg(op) => {
            let (rd, rs2) = taken!(take_rr(tokens));
            Ok(One(Item::Known(op_reg(op, rd, zero, rs2))))
        }
    }
}

/// An operation on a register with this immediate.
fn take_unary<'x, 'a>(op: ImmOp, imm: i32, tokens: &'x [Lexeme<'a>]) -> Whole<'x, 'a, Instrs<'a>>
    requires { op_takes op imm ≡ true }
    ensures forms { whole instrs_of result ≡ form_rr (λ rd rs. ready (OpImm op rd rs imm)) [] (lexemes tokens.now) }
    ensures sound { IfOk result AreReady }
{
    let (rd, rs1) = taken!(take_rr(tokens));
    Ok(One(Item::Known(op_imm(op, rd, rs1, imm))))
}

/// An operation on two registers.
fn op_reg(op: RegOp, rd: Reg, rs1: Reg, rs2: Reg) -> Instr
    ensures { result ≡ Op op rd rs1 rs2 }
{
    Instr::Op { op, rd, rs1, rs2 }
}

/// A fence, with two sets or else with all of them.
fn take_fence<'x, 'a>(tokens: &'x [Lexeme<'a>]) -> Whole<'x, 'a, Instrs<'a>>
    ensures forms { whole instrs_of result ≡
        further (no_operands (ready (Fence (fence_word 15 15))) [] (lexemes tokens.now)) (fence_form [] (lexemes tokens.now)) }
    ensures sound { IfOk result AreReady }
{
    further!(take_bare(fence(15, 15), tokens), take_fence_sets(tokens))
}

/// A fence with two sets.
fn take_fence_sets<'x, 'a>(tokens: &'x [Lexeme<'a>]) -> Whole<'x, 'a, Instrs<'a>>
    ensures forms { whole instrs_of result ≡ fence_form [] (lexemes tokens.now) }
    ensures sound { IfOk result AreReady }
{
    let (before, after) = taken!(take_ff(tokens));
    Ok(One(Item::Known(fence(before, after))))
}

/// The fence of two sets.
fn fence(before: u32, after: u32) -> Instr
    requires { (before < 16) × (after < 16) }
    ensures { result ≡ Fence (fence_word before after) }
{
    Instr::Fence {
        word: (before << 24) + (after << 20) + 0xf,
    }
}

/// The load of a constant.
fn take_li<'x, 'a>(tokens: &'x [Lexeme<'a>], names: &Names<'a>) -> Whole<'x, 'a, Instrs<'a>>
    ensures forms { (equs : List (List ℕ × ℤ)) → HasConstants names.now equs → whole instrs_of result ≡ form_rc load_immediate equs (lexemes tokens.now) }
    ensures sound { IfOk result AreReady }
{
    let (rd, expr, value) = taken!(take_rc(tokens, names));
    Ok(load_immediate(rd, &expr, value))
}

/// The load of an address.
fn take_la<'x, 'a>(tokens: &'x [Lexeme<'a>]) -> Whole<'x, 'a, Instrs<'a>>
    ensures forms { whole instrs_of result ≡ form_re load_address [] (lexemes tokens.now) }
    ensures sound { IfOk result AreReady }
{
    let (rd, address) = taken!(take_re(tokens));
    Ok(load_address(rd, &address))
}
