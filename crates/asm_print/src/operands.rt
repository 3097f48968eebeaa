//! Operands.
ghost use Rattle.std.specs.Prelude.{◌≡◌, ◌+◌, ◌≤◌, [], ◌∷◌, ◌++◌, codes};
ghost use Rattle.arrayvec.specs.ArrayVec.{array_vec_len};
ghost use Rattle.asm_print.specs.Operands.{register_text, direct_text, operand_text, joined};

use crate::line::{Line, put_number, put_register, put_text};
use pmsi_model::Reg;

/// The last operand of an instruction.
#[derive(Clone, Copy)]
pub enum Operand {
    /// A register by its name.
    Register(Reg),
    /// A number in decimal digits.
    Number(i64),
    /// An offset from the address in a register.
    Offset(i32, Reg),
    /// The address in a register.
    Direct(Reg),
}

fn put_direct(line: &mut Line, base: Reg)
    requires { array_vec_len line.old + 6 ≤ 64 }
    ensures text { line.new.items ≡ line.old.items ++ direct_text base }
    ensures len { array_vec_len line.new ≤ array_vec_len line.old + 6 }
{
    put_text(line, "(");
    put_register(line, base);
    put_text(line, ")");
}

fn put_operand(line: &mut Line, operand: Operand)
    requires { array_vec_len line.old + 26 ≤ 64 }
    ensures text { line.new.items ≡ line.old.items ++ operand_text operand }
    ensures len { array_vec_len line.new ≤ array_vec_len line.old + 26 }
{
    match operand {
        Operand::Register(register) => put_register(line, register),
        Operand::Number(number) => put_number(line, number),
        Operand::Offset(offset, base) => {
            put_number(line, i64::from(offset));
            put_direct(line, base);
        }
        Operand::Direct(base) => put_direct(line, base),
    }
}

/// Appends two operands to a name.
pub fn put_two(line: &mut Line, first: Reg, last: Operand)
    requires { array_vec_len line.old ≤ 14 }
    ensures { line.new.items ≡ line.old.items ++ codes " " ++ joined (register_text first ∷ operand_text last ∷ []) }
{
    put_text(line, " ");
    put_register(line, first);
    put_text(line, ", ");
    put_operand(line, last);
}

/// Appends three operands to a name.
pub fn put_three(line: &mut Line, first: Reg, second: Reg, last: Operand)
    requires { array_vec_len line.old ≤ 14 }
    ensures { line.new.items ≡ line.old.items ++ codes " " ++ joined (register_text first ∷ register_text second ∷ operand_text last ∷ []) }
{
    put_text(line, " ");
    put_register(line, first);
    put_text(line, ", ");
    put_register(line, second);
    put_text(line, ", ");
    put_operand(line, last);
}
