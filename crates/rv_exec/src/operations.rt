//! Operations on words, and the conditions of branches.
ghost use Rattle.std.specs.Prelude.{◌≡◌};
ghost use Rattle.pmsi_model.specs.Effect.{is_taken as model_is_taken, op_result, reg_op_of as model_reg_op_of};
ghost use Rattle.pmsi_model.specs.Words.{word_of};

use pmsi_model::{BranchOp, ImmOp, RegOp};

/// The result of an operation on two words. A shift takes the low five bits of the second.
pub fn operate(op: RegOp, a: u32, b: u32) -> u32
    ensures { result ≡ op_result op a b }
{
    match op {
        RegOp::Add => a.wrapping_add(b),
        RegOp::Sub => a.wrapping_sub(b),
        RegOp::Sll => a << (b % 32),
        RegOp::Slt => u32::from(a.cast_signed() < b.cast_signed()),
        RegOp::Sltu => u32::from(a < b),
        RegOp::Xor => a ^ b,
        RegOp::Srl => a >> (b % 32),
        RegOp::Sra => (a.cast_signed() >> (b % 32)).cast_unsigned(),
        RegOp::Or => a | b,
        RegOp::And => a & b,
    }
}

/// The result of an operation on a word and an immediate.
pub fn operate_imm(op: ImmOp, a: u32, imm: i32) -> u32
    ensures { result ≡ op_result (model_reg_op_of op) a (word_of imm) }
{
    operate(reg_op_of(op), a, imm.cast_unsigned())
}

/// The operation on two registers that an operation on an immediate does.
fn reg_op_of(op: ImmOp) -> RegOp
    ensures { result ≡ model_reg_op_of op }
{
    match op {
        ImmOp::Addi => RegOp::Add,
        ImmOp::Slli => RegOp::Sll,
        ImmOp::Slti => RegOp::Slt,
        ImmOp::Sltiu => RegOp::Sltu,
        ImmOp::Xori => RegOp::Xor,
        ImmOp::Srli => RegOp::Srl,
        ImmOp::Srai => RegOp::Sra,
        ImmOp::Ori => RegOp::Or,
        ImmOp::Andi => RegOp::And,
    }
}

/// Whether a branch is taken.
pub fn is_taken(op: BranchOp, a: u32, b: u32) -> bool
    ensures { result ≡ model_is_taken op a b }
{
    match op {
        BranchOp::Beq => a == b,
        BranchOp::Bne => a != b,
        BranchOp::Blt => a.cast_signed() < b.cast_signed(),
        BranchOp::Bge => a.cast_signed() >= b.cast_signed(),
        BranchOp::Bltu => a < b,
        BranchOp::Bgeu => a >= b,
    }
}
