//! The effect of an instruction.
ghost use Rattle.std.specs.Prelude.{◌≡◌, ℕ, List, if◌then◌else◌};
ghost use Rattle.pmsi_model.specs.declared.AccessOp.TheVariants.{Load, Store, Amo};
ghost use Rattle.pmsi_model.specs.Words.{plus_signed};
ghost use Rattle.pmsi_model.specs.Effect.{access, asks as model_asks, effect_of, jump as model_jump, next_pc, with_reg};
ghost use Rattle.pmsi_model.specs.Effect as model;
ghost use Rattle.pmsi_model.specs.Instruction.{HasRow};
ghost use Rattle.rv_exec.specs.Effects.{AsksFor, NamesRegister, WritesOnlyOnNext, effect_with};

use crate::operations::{is_taken, operate, operate_imm};
use crate::regs::Regs;
use pmsi_model::{Access, AccessOp, AmoOp, Halt, Instr, LoadOp, Reg, StoreOp};

/// What an instruction comes to. With `Next` the registers hold its result; else they are as before.
#[derive(Clone, Copy, Debug, PartialEq, Eq)]
pub enum Effect {
    /// It goes on at this pc.
    Next(u32),
    /// It asks for an access to memory.
    Memory(Access),
    /// It halts the core.
    Stop(Halt),
}

/// A word with a signed number added.
fn plus(word: u32, offset: i32) -> u32
    ensures { result ≡ plus_signed word offset }
{
    word.wrapping_add(offset.cast_unsigned())
}

/// Writes a result, and goes on behind the instruction.
fn write(rd: Reg, value: u32, regs: &mut Regs, pc: u32) -> Effect
    ensures effect { effect_with result regs.new ≡ model.Next (with_reg regs.old rd value) (next_pc pc) }
    ensures writes { WritesOnlyOnNext result regs.old regs.new }
    ensures asks { (memory : ℕ) → AsksFor memory result }
{
    regs.set(rd, value);
    Effect::Next(pc.wrapping_add(4))
}

/// Jumps, and links behind the instruction.
fn jump(rd: Reg, target: u32, regs: &mut Regs, pc: u32) -> Effect
    ensures effect { effect_with result regs.new ≡ model_jump regs.old rd pc target }
    ensures writes { WritesOnlyOnNext result regs.old regs.new }
    ensures asks { (memory : ℕ) → AsksFor memory result }
{
    if target % 4 != 0 {
        return Effect::Stop(Halt::JumpMisaligned(target));
    }
    regs.set(rd, pc.wrapping_add(4));
    Effect::Next(target)
}

/// Jumps by the offset if the branch is taken, and links nothing.
fn branch(taken: bool, offset: i32, pc: u32) -> Effect
    ensures effect { (regs : List ℕ) → effect_with result regs
        ≡ (if taken then model_jump regs 0 pc (plus_signed pc offset) else model.Next regs (next_pc pc)) }
    ensures writes { (regs : List ℕ) → WritesOnlyOnNext result regs regs }
    ensures asks { (memory : ℕ) → AsksFor memory result }
{
    let target = plus(pc, offset);
    if !taken {
        Effect::Next(pc.wrapping_add(4))
    } else if target % 4 != 0 {
        Effect::Stop(Halt::JumpMisaligned(target))
    } else {
        Effect::Next(target)
    }
}

/// Asks for an access: its address must be a multiple of its width, and then below the memory size.
fn asks(access: Access, memory: u32) -> Effect
    requires { NamesRegister access.op access.rd }
    ensures effect { (regs : List ℕ) → effect_with result regs ≡ model_asks memory access }
    ensures writes { (regs : List ℕ) → WritesOnlyOnNext result regs regs }
    ensures asks { AsksFor memory result }
{
    if access.address % access.op.width() != 0 {
        Effect::Stop(Halt::Misaligned(access.address))
    } else if access.address >= memory {
        Effect::Stop(Halt::Range(access.address))
    } else {
        Effect::Memory(access)
    }
}

fn load(op: LoadOp, rd: Reg, address: u32) -> Access
    ensures { result ≡ access (Load op) rd address 0 }
{
    Access {
        op: AccessOp::Load(op),
        rd,
        address,
        operand: 0,
    }
}

fn store(op: StoreOp, address: u32, operand: u32) -> Access
    ensures { result ≡ access (Store op) 0 address operand }
{
    Access {
        op: AccessOp::Store(op),
        rd: Reg::new(0),
        address,
        operand,
    }
}

fn amo(op: AmoOp, rd: Reg, address: u32, operand: u32) -> Access
    ensures { result ≡ access (Amo op) rd address operand }
{
    Access {
        op: AccessOp::Amo(op),
        rd,
        address,
        operand,
    }
}

/// The effect of an instruction at this pc, with a memory of so many bytes.
pub fn exec(instr: Instr, regs: &mut Regs, pc: u32, memory: u32) -> Effect
    requires { HasRow instr }
    ensures effect { effect_with result regs.new ≡ effect_of instr regs.old pc memory }
    ensures writes { WritesOnlyOnNext result regs.old regs.new }
    ensures asks { AsksFor memory result }
{
    match instr {
        Instr::Lui { rd, imm } => write(rd, imm << 12, regs, pc),
        Instr::Auipc { rd, imm } => write(rd, pc.wrapping_add(imm << 12), regs, pc),
        Instr::OpImm { op, rd, rs1, imm } => {
            write(rd, operate_imm(op, regs.get(rs1), imm), regs, pc)
        }
        Instr::Op { op, rd, rs1, rs2 } => {
            write(rd, operate(op, regs.get(rs1), regs.get(rs2)), regs, pc)
        }
        Instr::Jal { rd, offset } => jump(rd, plus(pc, offset), regs, pc),
        Instr::Jalr { rd, rs1, imm } => jump(rd, plus(regs.get(rs1), imm) & !1, regs, pc),
        Instr::Branch {
            op,
            rs1,
            rs2,
            offset,
        } => branch(is_taken(op, regs.get(rs1), regs.get(rs2)), offset, pc),
        Instr::Load { op, rd, rs1, imm } => asks(load(op, rd, plus(regs.get(rs1), imm)), memory),
        Instr::Store { op, rs1, rs2, imm } => {
            asks(store(op, plus(regs.get(rs1), imm), regs.get(rs2)), memory)
        }
        Instr::Amo {
            op,
            rd,
            rs1,
            rs2,
            ..
        } => asks(amo(op, rd, regs.get(rs1), regs.get(rs2)), memory),
        Instr::Fence { .. } => Effect::Next(pc.wrapping_add(4)),
        Instr::Ecall => Effect::Stop(Halt::Exit(regs.get(Reg::new(10)))),
        Instr::Ebreak => Effect::Stop(Halt::Break),
    }
}
