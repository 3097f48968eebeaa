//! The names of instructions and pseudo-instructions.

ghost use Rattle.std.specs.Prelude.{◌≡◌, option_map};
ghost use Rattle.asm_operands.specs.Numbers.{value_in};
ghost use Rattle.asm_parse.specs.Mnemonics.{forms_named, instruction_rows, amo_ops, amo_rows, pseudo_rows};
ghost use Rattle.asm_parse.specs.Forms.{forms_of, IsCut};

use asm_operands::value_in;
use pmsi_model::{AmoOp, BranchOp, ImmOp, LoadOp, RegOp, StoreOp};

/// An instruction or pseudo-instruction, or several that have the same forms.
#[derive(Clone, Copy)]
pub(crate) enum Mnemonic {
    Jal,
    Jalr,
    /// A jump that links in x1, or else in x0.
    Jump { links: bool },
    /// A jump to the address in a register, without a link.
    JumpRegister,
    /// A branch, with its registers in this order.
    Branch(BranchOp, Order),
    /// A branch on a register and x0, in this order.
    BranchZero(BranchOp, Order),
    Access(Access),
    Operation(Operation),
    Fence,
    Ecall,
    Ebreak,
    Nop,
    Ret,
    Li,
    La,
}

/// How the registers of a branch stand in its instruction.
#[derive(Clone, Copy)]
pub(crate) enum Order {
    /// As the line has them.
    Given,
    /// The other way round.
    Swapped,
}

/// An instruction that reads or writes at an address.
#[derive(Clone, Copy)]
pub(crate) enum Access {
    Load(LoadOp),
    Store(StoreOp),
    Amo { op: AmoOp, aq: bool, rl: bool },
}

/// An operation on registers and immediates.
#[derive(Clone, Copy)]
pub(crate) enum Operation {
    Lui,
    Auipc,
    Imm(ImmOp),
    Reg(RegOp),
    Mv,
    Not,
    Seqz,
    /// One on a register and x0.
    RegZero(RegOp),
    /// One on x0 and a register.
    ZeroReg(RegOp),
}

/// The instructions but for AMOs.
const INSTRUCTIONS: [(&str, Mnemonic); 40] = [
    ("lui", Mnemonic::Operation(Operation::Lui)),
    ("auipc", Mnemonic::Operation(Operation::Auipc)),
    ("jal", Mnemonic::Jal),
    ("jalr", Mnemonic::Jalr),
    ("beq", Mnemonic::Branch(BranchOp::Beq, Order::Given)),
    ("bne", Mnemonic::Branch(BranchOp::Bne, Order::Given)),
    ("blt", Mnemonic::Branch(BranchOp::Blt, Order::Given)),
    ("bge", Mnemonic::Branch(BranchOp::Bge, Order::Given)),
    ("bltu", Mnemonic::Branch(BranchOp::Bltu, Order::Given)),
    ("bgeu", Mnemonic::Branch(BranchOp::Bgeu, Order::Given)),
    ("lb", Mnemonic::Access(Access::Load(LoadOp::Lb))),
    ("lh", Mnemonic::Access(Access::Load(LoadOp::Lh))),
    ("lw", Mnemonic::Access(Access::Load(LoadOp::Lw))),
    ("lbu", Mnemonic::Access(Access::Load(LoadOp::Lbu))),
    ("lhu", Mnemonic::Access(Access::Load(LoadOp::Lhu))),
    ("sb", Mnemonic::Access(Access::Store(StoreOp::Sb))),
    ("sh", Mnemonic::Access(Access::Store(StoreOp::Sh))),
    ("sw", Mnemonic::Access(Access::Store(StoreOp::Sw))),
    ("addi", Mnemonic::Operation(Operation::Imm(ImmOp::Addi))),
    ("slti", Mnemonic::Operation(Operation::Imm(ImmOp::Slti))),
    ("sltiu", Mnemonic::Operation(Operation::Imm(ImmOp::Sltiu))),
    ("xori", Mnemonic::Operation(Operation::Imm(ImmOp::Xori))),
    ("ori", Mnemonic::Operation(Operation::Imm(ImmOp::Ori))),
    ("andi", Mnemonic::Operation(Operation::Imm(ImmOp::Andi))),
    ("slli", Mnemonic::Operation(Operation::Imm(ImmOp::Slli))),
    ("srli", Mnemonic::Operation(Operation::Imm(ImmOp::Srli))),
    ("srai", Mnemonic::Operation(Operation::Imm(ImmOp::Srai))),
    ("add", Mnemonic::Operation(Operation::Reg(RegOp::Add))),
    ("sub", Mnemonic::Operation(Operation::Reg(RegOp::Sub))),
    ("sll", Mnemonic::Operation(Operation::Reg(RegOp::Sll))),
    ("slt", Mnemonic::Operation(Operation::Reg(RegOp::Slt))),
    ("sltu", Mnemonic::Operation(Operation::Reg(RegOp::Sltu))),
    ("xor", Mnemonic::Operation(Operation::Reg(RegOp::Xor))),
    ("srl", Mnemonic::Operation(Operation::Reg(RegOp::Srl))),
    ("sra", Mnemonic::Operation(Operation::Reg(RegOp::Sra))),
    ("or", Mnemonic::Operation(Operation::Reg(RegOp::Or))),
    ("and", Mnemonic::Operation(Operation::Reg(RegOp::And))),
    ("fence", Mnemonic::Fence),
    ("ecall", Mnemonic::Ecall),
    ("ebreak", Mnemonic::Ebreak),
];

/// The operations of AMOs.
const AMOS: [(&str, AmoOp); 9] = [
    ("amoadd.w", AmoOp::Amoadd),
    ("amoswap.w", AmoOp::Amoswap),
    ("amoxor.w", AmoOp::Amoxor),
    ("amoor.w", AmoOp::Amoor),
    ("amoand.w", AmoOp::Amoand),
    ("amomin.w", AmoOp::Amomin),
    ("amomax.w", AmoOp::Amomax),
    ("amominu.w", AmoOp::Amominu),
    ("amomaxu.w", AmoOp::Amomaxu),
];

/// The pseudo-instructions.
const PSEUDO_INSTRUCTIONS: [(&str, Mnemonic); 24] = [
    ("nop", Mnemonic::Nop),
    ("mv", Mnemonic::Operation(Operation::Mv)),
    ("not", Mnemonic::Operation(Operation::Not)),
    ("neg", Mnemonic::Operation(Operation::ZeroReg(RegOp::Sub))),
    ("seqz", Mnemonic::Operation(Operation::Seqz)),
    ("snez", Mnemonic::Operation(Operation::ZeroReg(RegOp::Sltu))),
    ("sltz", Mnemonic::Operation(Operation::RegZero(RegOp::Slt))),
    ("sgtz", Mnemonic::Operation(Operation::ZeroReg(RegOp::Slt))),
    ("beqz", Mnemonic::BranchZero(BranchOp::Beq, Order::Given)),
    ("bnez", Mnemonic::BranchZero(BranchOp::Bne, Order::Given)),
    ("blez", Mnemonic::BranchZero(BranchOp::Bge, Order::Swapped)),
    ("bgez", Mnemonic::BranchZero(BranchOp::Bge, Order::Given)),
    ("bltz", Mnemonic::BranchZero(BranchOp::Blt, Order::Given)),
    ("bgtz", Mnemonic::BranchZero(BranchOp::Blt, Order::Swapped)),
    ("bgt", Mnemonic::Branch(BranchOp::Blt, Order::Swapped)),
    ("ble", Mnemonic::Branch(BranchOp::Bge, Order::Swapped)),
    ("bgtu", Mnemonic::Branch(BranchOp::Bltu, Order::Swapped)),
    ("bleu", Mnemonic::Branch(BranchOp::Bgeu, Order::Swapped)),
    ("j", Mnemonic::Jump { links: false }),
    ("call", Mnemonic::Jump { links: true }),
    ("jr", Mnemonic::JumpRegister),
    ("ret", Mnemonic::Ret),
    ("li", Mnemonic::Li),
    ("la", Mnemonic::La),
];

/// The mnemonic of this name, if there is one.
pub(crate) fn mnemonic_named(name: &str) -> Option<Mnemonic>
    ensures { option_map forms_of result ≡ forms_named name.now }
{
    if let Some(mnemonic) = instruction_named(name) {
        return Some(mnemonic);
    }
    if let Some(mnemonic) = amo_named(name) {
        return Some(mnemonic);
    }
    pseudo_instruction_named(name)
}

/// The instruction of this name, if it is one and no AMO.
fn instruction_named(name: &str) -> Option<Mnemonic>
    ensures { option_map forms_of result ≡ value_in instruction_rows name.now }
{
    value_in(&INSTRUCTIONS, name)
}

/// The pseudo-instruction of this name, if it is one.
fn pseudo_instruction_named(name: &str) -> Option<Mnemonic>
    ensures { option_map forms_of result ≡ value_in pseudo_rows name.now }
{
    value_in(&PSEUDO_INSTRUCTIONS, name)
}

/// The AMO of this name, if it is one, by its operation and the suffix for its order.
#[tactic(auto, using(crate::proofs::AmoNames::amo_value))]
fn amo_named(name: &str) -> Option<Mnemonic>
    ensures { option_map forms_of result ≡ value_in amo_rows name.now }
{
    let (stem, aq, rl) = cut_ordering(name);
    let op = amo_op_named(stem)?;
    Some(Mnemonic::Access(Access::Amo { op, aq, rl }))
}

/// The operation of an AMO, by its name without a suffix.
fn amo_op_named(name: &str) -> Option<AmoOp>
    ensures { result ≡ value_in amo_ops name.now }
{
    value_in(&AMOS, name)
}

/// What stands in front of a suffix of an AMO, and that suffix's aq and rl.
fn cut_ordering(name: &str) -> (&str, bool, bool)
    ensures { IsCut name.now result.0.now result.1 result.2 }
{
    if let Some(stem) = name.strip_suffix(".aqrl") {
        (stem, true, true)
    } else if let Some(stem) = name.strip_suffix(".aq") {
        (stem, true, false)
    } else if let Some(stem) = name.strip_suffix(".rl") {
        (stem, false, true)
    } else {
        (name, false, false)
    }
}
