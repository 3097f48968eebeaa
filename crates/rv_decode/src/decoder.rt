//! From words to instructions.
ghost use Rattle.std.specs.Prelude.{◌≡◌, Option};
ghost use Rattle.std.specs.Option.{option_map};
ghost use Rattle.pmsi_model.specs.Words.{bits_at};
ghost use Rattle.pmsi_model.specs.Instruction.{aq as is_acquire, imm_b as number_b, imm_i as number_i, imm_s as number_s, instr_of, rd as rd_of, rl as is_release, rs1 as rs1_of, rs2 as rs2_of, shamt as amount};
ghost use Rattle.pmsi_model.specs.declared.instr.Instr.TheVariants.{Amo, Branch, Load, Op, OpImm, Store};

use crate::fields::{
    aq, funct3, funct5, funct7, imm_b, imm_i, imm_j, imm_s, imm_u, opcode, rd, rl, rs1, rs2, shamt,
};
use crate::opcodes::{
    AMO, AUIPC, BRANCH, JAL, JALR, LOAD, LUI, MISC_MEM, OP, OP_IMM, STORE, SYSTEM,
};
use pmsi_model::{AmoOp, BranchOp, ImmOp, Instr, LoadOp, RegOp, StoreOp};

#[cfg(test)]
mod tests;

/// The funct7 of most register operations, and of the shifts that move in zeros.
const BASE: u32 = 0b000_0000;

/// The funct7 of the subtraction, and of the shifts that move in the sign.
const ALTERNATE: u32 = 0b010_0000;

const ECALL: u32 = 0x0000_0073;

const EBREAK: u32 = 0x0010_0073;

/// The instruction that a word stands for; none where the word has no row in the instruction table.
#[tactic(auto, using(crate::proofs::Table::decode_rows))]
pub fn decode(word: u32) -> Option<Instr>
    ensures { result ≡ instr_of word }
{
    match opcode(word) {
        LUI => Some(Instr::Lui {
            rd: rd(word),
            imm: imm_u(word),
        }),
        AUIPC => Some(Instr::Auipc {
            rd: rd(word),
            imm: imm_u(word),
        }),
        JAL => Some(Instr::Jal {
            rd: rd(word),
            offset: imm_j(word),
        }),
        JALR => jalr(word),
        BRANCH => branch(word),
        LOAD => load(word),
        STORE => store(word),
        OP_IMM => op_imm(word),
        OP => op(word),
        AMO => amo(word),
        MISC_MEM => misc_mem(word),
        SYSTEM => system(word),
        _ => None,
    }
}

#[tactic(auto, using(crate::proofs::Table::jalr_rows))]
fn jalr(word: u32) -> Option<Instr>
    requires { bits_at 0 7 word ≡ JALR }
    ensures { result ≡ instr_of word }
{
    match funct3(word) {
        0b000 => Some(Instr::Jalr {
            rd: rd(word),
            rs1: rs1(word),
            imm: imm_i(word),
        }),
        _ => None,
    }
}

fn branch(word: u32) -> Option<Instr>
    requires { bits_at 0 7 word ≡ BRANCH }
    ensures { result ≡ instr_of word }
{
    let op = branch_op(word)?;
    Some(Instr::Branch {
        op,
        rs1: rs1(word),
        rs2: rs2(word),
        offset: imm_b(word),
    })
}

#[tactic(auto, using(crate::proofs::Table::branch_rows))]
fn branch_op(word: u32) -> Option<BranchOp>
    requires { bits_at 0 7 word ≡ BRANCH }
    ensures { instr_of word ≡ option_map (λ op. Branch op (rs1_of word) (rs2_of word) (number_b word)) result }
{
    match funct3(word) {
        0b000 => Some(BranchOp::Beq),
        0b001 => Some(BranchOp::Bne),
        0b100 => Some(BranchOp::Blt),
        0b101 => Some(BranchOp::Bge),
        0b110 => Some(BranchOp::Bltu),
        0b111 => Some(BranchOp::Bgeu),
        _ => None,
    }
}

fn load(word: u32) -> Option<Instr>
    requires { bits_at 0 7 word ≡ LOAD }
    ensures { result ≡ instr_of word }
{
    let op = load_op(word)?;
    Some(Instr::Load {
        op,
        rd: rd(word),
        rs1: rs1(word),
        imm: imm_i(word),
    })
}

#[tactic(auto, using(crate::proofs::Table::load_rows))]
fn load_op(word: u32) -> Option<LoadOp>
    requires { bits_at 0 7 word ≡ LOAD }
    ensures { instr_of word ≡ option_map (λ op. Load op (rd_of word) (rs1_of word) (number_i word)) result }
{
    match funct3(word) {
        0b000 => Some(LoadOp::Lb),
        0b001 => Some(LoadOp::Lh),
        0b010 => Some(LoadOp::Lw),
        0b100 => Some(LoadOp::Lbu),
        0b101 => Some(LoadOp::Lhu),
        _ => None,
    }
}

fn store(word: u32) -> Option<Instr>
    requires { bits_at 0 7 word ≡ STORE }
    ensures { result ≡ instr_of word }
{
    let op = store_op(word)?;
    Some(Instr::Store {
        op,
        rs1: rs1(word),
        rs2: rs2(word),
        imm: imm_s(word),
    })
}

#[tactic(auto, using(crate::proofs::Table::store_rows))]
fn store_op(word: u32) -> Option<StoreOp>
    requires { bits_at 0 7 word ≡ STORE }
    ensures { instr_of word ≡ option_map (λ op. Store op (rs1_of word) (rs2_of word) (number_s word)) result }
{
    match funct3(word) {
        0b000 => Some(StoreOp::Sb),
        0b001 => Some(StoreOp::Sh),
        0b010 => Some(StoreOp::Sw),
        _ => None,
    }
}

#[tactic(auto, using(crate::proofs::Table::op_imm_rows))]
fn op_imm(word: u32) -> Option<Instr>
    requires { bits_at 0 7 word ≡ OP_IMM }
    ensures { result ≡ instr_of word }
{
    match (funct3(word), funct7(word)) {
        (0b000, _) => Some(register_immediate(ImmOp::Addi, word)),
        (0b001, BASE) => Some(shift_immediate(ImmOp::Slli, word)),
        (0b010, _) => Some(register_immediate(ImmOp::Slti, word)),
        (0b011, _) => Some(register_immediate(ImmOp::Sltiu, word)),
        (0b100, _) => Some(register_immediate(ImmOp::Xori, word)),
        (0b101, BASE) => Some(shift_immediate(ImmOp::Srli, word)),
        (0b101, ALTERNATE) => Some(shift_immediate(ImmOp::Srai, word)),
        (0b110, _) => Some(register_immediate(ImmOp::Ori, word)),
        (0b111, _) => Some(register_immediate(ImmOp::Andi, word)),
        _ => None,
    }
}

fn register_immediate(op: ImmOp, word: u32) -> Instr
    ensures { result ≡ OpImm op (rd_of word) (rs1_of word) (number_i word) }
{
    Instr::OpImm {
        op,
        rd: rd(word),
        rs1: rs1(word),
        imm: imm_i(word),
    }
}

fn shift_immediate(op: ImmOp, word: u32) -> Instr
    ensures { result ≡ OpImm op (rd_of word) (rs1_of word) (amount word) }
{
    Instr::OpImm {
        op,
        rd: rd(word),
        rs1: rs1(word),
        imm: shamt(word),
    }
}

fn op(word: u32) -> Option<Instr>
    requires { bits_at 0 7 word ≡ OP }
    ensures { result ≡ instr_of word }
{
    let op = reg_op(word)?;
    Some(Instr::Op {
        op,
        rd: rd(word),
        rs1: rs1(word),
        rs2: rs2(word),
    })
}

#[tactic(auto, using(crate::proofs::Table::reg_op_rows))]
fn reg_op(word: u32) -> Option<RegOp>
    requires { bits_at 0 7 word ≡ OP }
    ensures { instr_of word ≡ option_map (λ op. Op op (rd_of word) (rs1_of word) (rs2_of word)) result }
{
    match (funct7(word), funct3(word)) {
        (BASE, 0b000) => Some(RegOp::Add),
        (ALTERNATE, 0b000) => Some(RegOp::Sub),
        (BASE, 0b001) => Some(RegOp::Sll),
        (BASE, 0b010) => Some(RegOp::Slt),
        (BASE, 0b011) => Some(RegOp::Sltu),
        (BASE, 0b100) => Some(RegOp::Xor),
        (BASE, 0b101) => Some(RegOp::Srl),
        (ALTERNATE, 0b101) => Some(RegOp::Sra),
        (BASE, 0b110) => Some(RegOp::Or),
        (BASE, 0b111) => Some(RegOp::And),
        _ => None,
    }
}

fn amo(word: u32) -> Option<Instr>
    requires { bits_at 0 7 word ≡ AMO }
    ensures { result ≡ instr_of word }
{
    let op = amo_op(word)?;
    Some(Instr::Amo {
        op,
        rd: rd(word),
        rs1: rs1(word),
        rs2: rs2(word),
        aq: aq(word),
        rl: rl(word),
    })
}

#[tactic(auto, using(crate::proofs::Table::amo_op_rows))]
fn amo_op(word: u32) -> Option<AmoOp>
    requires { bits_at 0 7 word ≡ AMO }
    ensures { instr_of word ≡ option_map (λ op. Amo op (rd_of word) (rs1_of word) (rs2_of word) (is_acquire word) (is_release word)) result }
{
    match (funct3(word), funct5(word)) {
        (0b010, 0b00000) => Some(AmoOp::Amoadd),
        (0b010, 0b00001) => Some(AmoOp::Amoswap),
        (0b010, 0b00100) => Some(AmoOp::Amoxor),
        (0b010, 0b01000) => Some(AmoOp::Amoor),
        (0b010, 0b01100) => Some(AmoOp::Amoand),
        (0b010, 0b10000) => Some(AmoOp::Amomin),
        (0b010, 0b10100) => Some(AmoOp::Amomax),
        (0b010, 0b11000) => Some(AmoOp::Amominu),
        (0b010, 0b11100) => Some(AmoOp::Amomaxu),
        _ => None,
    }
}

/// A fence keeps its word.
#[tactic(auto, using(crate::proofs::Table::misc_mem_rows))]
fn misc_mem(word: u32) -> Option<Instr>
    requires { bits_at 0 7 word ≡ MISC_MEM }
    ensures { result ≡ instr_of word }
{
    match funct3(word) {
        0b000 => Some(Instr::Fence { word }),
        _ => None,
    }
}

#[tactic(auto, using(crate::proofs::Table::system_rows))]
fn system(word: u32) -> Option<Instr>
    requires { bits_at 0 7 word ≡ SYSTEM }
    ensures { result ≡ instr_of word }
{
    match word {
        ECALL => Some(Instr::Ecall),
        EBREAK => Some(Instr::Ebreak),
        _ => None,
    }
}
