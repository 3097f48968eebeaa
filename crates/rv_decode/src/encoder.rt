//! From instructions to words.
ghost use Rattle.std.specs.Prelude.{◌≡◌, ℕ, Some};
ghost use Rattle.pmsi_model.specs.Instruction.{HasRow, IsEncodingOf, instr_of};
ghost use Rattle.rv_decode.specs.Ranges.{IsImmOf};
ghost use Rattle.rv_decode.specs.Formats.{branch_funct3, load_funct3, store_funct3, imm_funct3, imm_field, op_funct3, op_funct7, amo_funct5, amo_funct7};

use crate::formats::{b_type, i_type, j_type, r_type, s_type, u_type};
use crate::opcodes::{AMO, AUIPC, BRANCH, JAL, JALR, LOAD, LUI, OP, OP_IMM, STORE, SYSTEM};
use pmsi_model::{AmoOp, BranchOp, ImmOp, Instr, LoadOp, Reg, RegOp, StoreOp};

#[cfg(test)]
mod tests;

/// The word that stands for an instruction. No other word does.
pub fn encode(instr: Instr) -> u32
    requires { HasRow instr }
    ensures row { IsEncodingOf result instr }
    ensures read { instr_of result ≡ Some instr }
    ensures only { (word : ℕ) → IsEncodingOf word instr → word ≡ result }
{
    match instr {
        Instr::Lui { rd, imm } => u_type(imm, rd, LUI),
        Instr::Auipc { rd, imm } => u_type(imm, rd, AUIPC),
        Instr::Jal { rd, offset } => j_type(offset, rd, JAL),
        Instr::Jalr { rd, rs1, imm } => i_type(imm, rs1, 0b000, rd, JALR),
        Instr::Branch {
            op,
            rs1,
            rs2,
            offset,
        } => b_type(offset, rs2, rs1, branch_funct3(op), BRANCH),
        Instr::Load { op, rd, rs1, imm } => i_type(imm, rs1, load_funct3(op), rd, LOAD),
        Instr::Store { op, rs1, rs2, imm } => s_type(imm, rs2, rs1, store_funct3(op), STORE),
        Instr::OpImm { op, rd, rs1, imm } => i_type(
            imm_field(op, imm),
            rs1,
            imm_funct3(op),
            rd,
            OP_IMM,
        ),
        Instr::Op { op, rd, rs1, rs2 } => r_type(op_funct7(op), rs2, rs1, op_funct3(op), rd, OP),
        Instr::Amo {
            op,
            rd,
            rs1,
            rs2,
            aq,
            rl,
        } => r_type(amo_funct7(op, aq, rl), rs2, rs1, 0b010, rd, AMO),
        Instr::Fence { word } => word,
        Instr::Ecall => i_type(0, Reg::new(0), 0b000, Reg::new(0), SYSTEM),
        Instr::Ebreak => i_type(1, Reg::new(0), 0b000, Reg::new(0), SYSTEM),
    }
}

fn branch_funct3(op: BranchOp) -> u32
    ensures { result ≡ branch_funct3 op }
{
    match op {
        BranchOp::Beq => 0b000,
        BranchOp::Bne => 0b001,
        BranchOp::Blt => 0b100,
        BranchOp::Bge => 0b101,
        BranchOp::Bltu => 0b110,
        BranchOp::Bgeu => 0b111,
    }
}

fn load_funct3(op: LoadOp) -> u32
    ensures { result ≡ load_funct3 op }
{
    match op {
        LoadOp::Lb => 0b000,
        LoadOp::Lh => 0b001,
        LoadOp::Lw => 0b010,
        LoadOp::Lbu => 0b100,
        LoadOp::Lhu => 0b101,
    }
}

fn store_funct3(op: StoreOp) -> u32
    ensures { result ≡ store_funct3 op }
{
    match op {
        StoreOp::Sb => 0b000,
        StoreOp::Sh => 0b001,
        StoreOp::Sw => 0b010,
    }
}

fn imm_funct3(op: ImmOp) -> u32
    ensures { result ≡ imm_funct3 op }
{
    match op {
        ImmOp::Addi => 0b000,
        ImmOp::Slli => 0b001,
        ImmOp::Slti => 0b010,
        ImmOp::Sltiu => 0b011,
        ImmOp::Xori => 0b100,
        ImmOp::Srli | ImmOp::Srai => 0b101,
        ImmOp::Ori => 0b110,
        ImmOp::Andi => 0b111,
    }
}

/// The immediate of the format I: bit 10 tells an arithmetic shift to the right.
fn imm_field(op: ImmOp, imm: i32) -> i32
    requires { IsImmOf op imm }
    ensures { result ≡ imm_field op imm }
{
    match op {
        ImmOp::Srai => imm + (1 << 10),
        _ => imm,
    }
}

fn op_funct3(op: RegOp) -> u32
    ensures { result ≡ op_funct3 op }
{
    match op {
        RegOp::Add | RegOp::Sub => 0b000,
        RegOp::Sll => 0b001,
        RegOp::Slt => 0b010,
        RegOp::Sltu => 0b011,
        RegOp::Xor => 0b100,
        RegOp::Srl | RegOp::Sra => 0b101,
        RegOp::Or => 0b110,
        RegOp::And => 0b111,
    }
}

fn op_funct7(op: RegOp) -> u32
    ensures { result ≡ op_funct7 op }
{
    match op {
        RegOp::Sub | RegOp::Sra => 0b0100000,
        _ => 0b0000000,
    }
}

fn amo_funct5(op: AmoOp) -> u32
    ensures { result ≡ amo_funct5 op }
{
    match op {
        AmoOp::Amoadd => 0b00000,
        AmoOp::Amoswap => 0b00001,
        AmoOp::Amoxor => 0b00100,
        AmoOp::Amoor => 0b01000,
        AmoOp::Amoand => 0b01100,
        AmoOp::Amomin => 0b10000,
        AmoOp::Amomax => 0b10100,
        AmoOp::Amominu => 0b11000,
        AmoOp::Amomaxu => 0b11100,
    }
}

/// An AMO has its ordering bits below funct5.
fn amo_funct7(op: AmoOp, aq: bool, rl: bool) -> u32
    ensures { result ≡ amo_funct7 op aq rl }
{
    amo_funct5(op) << 2 | u32::from(aq) << 1 | u32::from(rl)
}
