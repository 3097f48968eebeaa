//! Prints instructions.
ghost use Rattle.std.specs.Prelude.{◌≡◌, ◌≤◌, pos, ◌+ℤ◌, [], ◌∷◌, length};
ghost use Rattle.asm_print.specs.Operands.{register_text, operand_text};
ghost use Rattle.asm_print.specs.declared.operands.Operand.TheVariants.{Number, Offset};
ghost use Rattle.asm_print.specs.InstrText.{spelled, fence_text, instr_text};

use crate::line::{put_bytes, put_text};
use crate::mnemonics::{
    amo_name, branch_name, imm_name, load_name, op_name, ordering_suffix, store_name,
};
use crate::operands::{Operand, put_three, put_two};
use arrayvec::ArrayVec;
use pmsi_model::{Instr, Reg};
use text_out::hex_word;

/// The fence that orders all accesses.
const FENCE: u32 = 0x0ff0_000f;

/// The text of an instruction at `pc`, without a newline. `out` has room for the text of each instruction, also of one
/// that has no row in the instruction table.
#[tactic(auto, unfolding(crate::specs::InstrText::instr_text))]
pub fn print_instr(instr: Instr, pc: u32, out: &mut ArrayVec<u8, 64>)
    requires { out.old.items ≡ [] }
    ensures { out.new.items ≡ instr_text instr pc }
{
    match instr {
        Instr::Lui { rd, imm } => print_two(out, "lui", rd, Operand::Number(i64::from(imm))),
        Instr::Auipc { rd, imm } => print_two(out, "auipc", rd, Operand::Number(i64::from(imm))),
        Instr::Jal { rd, offset } => print_two(out, "jal", rd, target(pc, offset)),
        Instr::Jalr { rd, rs1, imm } => print_two(out, "jalr", rd, at(imm, rs1)),
        Instr::Branch {
            op,
            rs1,
            rs2,
            offset,
        } => print_three(out, branch_name(op), rs1, rs2, target(pc, offset)),
        Instr::Load { op, rd, rs1, imm } => print_two(out, load_name(op), rd, at(imm, rs1)),
        Instr::Store { op, rs1, rs2, imm } => print_two(out, store_name(op), rs2, at(imm, rs1)),
        Instr::OpImm { op, rd, rs1, imm } => {
            print_three(out, imm_name(op), rd, rs1, Operand::Number(i64::from(imm)))
        }
        Instr::Op { op, rd, rs1, rs2 } => {
            print_three(out, op_name(op), rd, rs1, Operand::Register(rs2))
        }
        Instr::Amo {
            op,
            rd,
            rs1,
            rs2,
            aq,
            rl,
        } => {
            put_text(out, amo_name(op));
            put_text(out, ordering_suffix(aq, rl));
            put_three(out, rd, rs2, Operand::Direct(rs1));
        }
        Instr::Fence { word } => print_fence(out, word),
        Instr::Ecall => put_text(out, "ecall"),
        Instr::Ebreak => put_text(out, "ebreak"),
    }
}

fn print_two(out: &mut ArrayVec<u8, 64>, name: &str, first: Reg, last: Operand)
    requires empty { out.old.items ≡ [] }
    requires short { length name.now ≤ 14 }
    ensures { out.new.items ≡ spelled name.now (register_text first ∷ operand_text last ∷ []) }
{
    put_text(out, name);
    put_two(out, first, last);
}

fn print_three(out: &mut ArrayVec<u8, 64>, name: &str, first: Reg, second: Reg, last: Operand)
    requires empty { out.old.items ≡ [] }
    requires short { length name.now ≤ 14 }
    ensures { out.new.items ≡ spelled name.now (register_text first ∷ register_text second ∷ operand_text last ∷ []) }
{
    put_text(out, name);
    put_three(out, first, second, last);
}

/// The target of a jump or branch.
fn target(pc: u32, distance: i32) -> Operand
    ensures { result ≡ Number (pos pc +ℤ distance) }
{
    Operand::Number(i64::from(pc) + i64::from(distance))
}

/// The address in a register, and an offset.
fn at(offset: i32, base: Reg) -> Operand
    ensures { result ≡ Offset offset base }
{
    Operand::Offset(offset, base)
}

fn print_fence(out: &mut ArrayVec<u8, 64>, word: u32)
    requires { out.old.items ≡ [] }
    ensures { out.new.items ≡ fence_text word }
{
    if word == FENCE {
        put_text(out, "fence");
        return;
    }
    put_text(out, ".word ");
    put_bytes(out, &hex_word(word));
}
