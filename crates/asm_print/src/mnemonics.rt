//! The names of operations.
ghost use Rattle.std.specs.Prelude.{◌≡◌, ◌≤◌, length};
ghost use Rattle.asm_print.specs.Names.{branch_name, load_name, store_name, imm_name, op_name, amo_name, ordering_suffix};

use pmsi_model::{AmoOp, BranchOp, ImmOp, LoadOp, RegOp, StoreOp};

/// The mnemonic of a branch.
pub fn branch_name(op: BranchOp) -> &'static str
    ensures name { result.now ≡ branch_name op }
    ensures short { length result.now ≤ 4 }
{
    match op {
        BranchOp::Beq => "beq",
        BranchOp::Bne => "bne",
        BranchOp::Blt => "blt",
        BranchOp::Bge => "bge",
        BranchOp::Bltu => "bltu",
        BranchOp::Bgeu => "bgeu",
    }
}

/// The mnemonic of a load.
pub fn load_name(op: LoadOp) -> &'static str
    ensures name { result.now ≡ load_name op }
    ensures short { length result.now ≤ 3 }
{
    match op {
        LoadOp::Lb => "lb",
        LoadOp::Lh => "lh",
        LoadOp::Lw => "lw",
        LoadOp::Lbu => "lbu",
        LoadOp::Lhu => "lhu",
    }
}

/// The mnemonic of a store.
pub fn store_name(op: StoreOp) -> &'static str
    ensures name { result.now ≡ store_name op }
    ensures short { length result.now ≤ 2 }
{
    match op {
        StoreOp::Sb => "sb",
        StoreOp::Sh => "sh",
        StoreOp::Sw => "sw",
    }
}

/// The mnemonic of an operation with an immediate.
pub fn imm_name(op: ImmOp) -> &'static str
    ensures name { result.now ≡ imm_name op }
    ensures short { length result.now ≤ 5 }
{
    match op {
        ImmOp::Addi => "addi",
        ImmOp::Slli => "slli",
        ImmOp::Slti => "slti",
        ImmOp::Sltiu => "sltiu",
        ImmOp::Xori => "xori",
        ImmOp::Srli => "srli",
        ImmOp::Srai => "srai",
        ImmOp::Ori => "ori",
        ImmOp::Andi => "andi",
    }
}

/// The mnemonic of an operation on registers.
pub fn op_name(op: RegOp) -> &'static str
    ensures name { result.now ≡ op_name op }
    ensures short { length result.now ≤ 4 }
{
    match op {
        RegOp::Add => "add",
        RegOp::Sub => "sub",
        RegOp::Sll => "sll",
        RegOp::Slt => "slt",
        RegOp::Sltu => "sltu",
        RegOp::Xor => "xor",
        RegOp::Srl => "srl",
        RegOp::Sra => "sra",
        RegOp::Or => "or",
        RegOp::And => "and",
    }
}

/// The mnemonic of an AMO, without its ordering bits.
pub fn amo_name(op: AmoOp) -> &'static str
    ensures name { result.now ≡ amo_name op }
    ensures short { length result.now ≤ 9 }
{
    match op {
        AmoOp::Amoadd => "amoadd.w",
        AmoOp::Amoswap => "amoswap.w",
        AmoOp::Amoxor => "amoxor.w",
        AmoOp::Amoor => "amoor.w",
        AmoOp::Amoand => "amoand.w",
        AmoOp::Amomin => "amomin.w",
        AmoOp::Amomax => "amomax.w",
        AmoOp::Amominu => "amominu.w",
        AmoOp::Amomaxu => "amomaxu.w",
    }
}

/// What follows the name of an AMO for its ordering bits.
pub fn ordering_suffix(aq: bool, rl: bool) -> &'static str
    ensures name { result.now ≡ ordering_suffix aq rl }
    ensures short { length result.now ≤ 5 }
{
    match (aq, rl) {
        (false, false) => "",
        (true, false) => ".aq",
        (false, true) => ".rl",
        (true, true) => ".aqrl",
    }
}
