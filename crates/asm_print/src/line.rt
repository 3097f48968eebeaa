//! The bytes of one line, which take no memory.
ghost use Rattle.std.specs.Prelude.{◌≡◌, ◌+◌, ◌≤◌, ◌++◌, length};
ghost use Rattle.std.specs.Fmt.{signed_decimal};
ghost use Rattle.arrayvec.specs.ArrayVec.{array_vec_len};
ghost use Rattle.asm_print.specs.Operands.{register_text};

use arrayvec::ArrayVec;
use pmsi_model::Reg;

/// Room for the text of any instruction.
pub type Line = ArrayVec<u8, 64>;

/// Appends bytes, for which there is room.
pub fn put_bytes(line: &mut Line, bytes: &[u8])
    requires { array_vec_len line.old + length bytes.now ≤ 64 }
    ensures text { line.new.items ≡ line.old.items ++ bytes.now }
    ensures len { array_vec_len line.new ≡ array_vec_len line.old + length bytes.now }
{
    let Ok(()) = line.try_extend_from_slice(bytes) else {
        unreachable!()
    };
}

/// Appends a text, for which there is room.
pub fn put_text(line: &mut Line, text: &str)
    requires { array_vec_len line.old + length text.now ≤ 64 }
    ensures text { line.new.items ≡ line.old.items ++ text.now }
    ensures len { array_vec_len line.new ≡ array_vec_len line.old + length text.now }
{
    put_bytes(line, text.as_bytes());
}

/// Appends a register's name.
pub fn put_register(line: &mut Line, register: Reg)
    requires { array_vec_len line.old + 4 ≤ 64 }
    ensures text { line.new.items ≡ line.old.items ++ register_text register }
    ensures len { array_vec_len line.new ≤ array_vec_len line.old + 4 }
{
    put_text(line, "x");
    let mut buffer = itoa::Buffer::new();
    put_text(line, buffer.format(register.index()));
}

/// Appends a number in decimal digits.
pub fn put_number(line: &mut Line, number: i64)
    requires { array_vec_len line.old + 20 ≤ 64 }
    ensures text { line.new.items ≡ line.old.items ++ signed_decimal number }
    ensures len { array_vec_len line.new ≤ array_vec_len line.old + 20 }
{
    let mut buffer = itoa::Buffer::new();
    put_text(line, buffer.format(number));
}
