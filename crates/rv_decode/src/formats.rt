//! Words put together from their fields, one function for each format of the RISC-V Unprivileged ISA (sections 2.2 and
//! 2.3).
ghost use Rattle.std.specs.Prelude.{◌≡◌, ◌<◌, ◌^◌};
ghost use Rattle.rv_decode.specs.Formats.{imm_bits, r_word, i_word, s_word, b_word, u_word, j_word};

use pmsi_model::Reg;

/// A word of the R format.
pub fn r_type(funct7: u32, rs2: Reg, rs1: Reg, funct3: u32, rd: Reg, opcode: u32) -> u32
    requires funct7 { funct7 < 2 ^ 7 }
    requires funct3 { funct3 < 2 ^ 3 }
    requires opcode { opcode < 2 ^ 7 }
    ensures { result ≡ r_word funct7 rs2 rs1 funct3 rd opcode }
{
    opcode | number(rd) << 7 | funct3 << 12 | number(rs1) << 15 | number(rs2) << 20 | funct7 << 25
}

/// Of the immediate the lowest 12 bits are kept.
pub fn i_type(imm: i32, rs1: Reg, funct3: u32, rd: Reg, opcode: u32) -> u32
    requires funct3 { funct3 < 2 ^ 3 }
    requires opcode { opcode < 2 ^ 7 }
    ensures { result ≡ i_word imm rs1 funct3 rd opcode }
{
    opcode | number(rd) << 7 | funct3 << 12 | number(rs1) << 15 | bits(imm, 0, 12) << 20
}

/// Of the immediate the lowest 12 bits are kept.
pub fn s_type(imm: i32, rs2: Reg, rs1: Reg, funct3: u32, opcode: u32) -> u32
    requires funct3 { funct3 < 2 ^ 3 }
    requires opcode { opcode < 2 ^ 7 }
    ensures { result ≡ s_word imm rs2 rs1 funct3 opcode }
{
    let low = bits(imm, 0, 5);
    let high = bits(imm, 5, 7);
    opcode | low << 7 | funct3 << 12 | number(rs1) << 15 | number(rs2) << 20 | high << 25
}

/// Of the offset the lowest 13 bits but bit 0 are kept.
pub fn b_type(offset: i32, rs2: Reg, rs1: Reg, funct3: u32, opcode: u32) -> u32
    requires funct3 { funct3 < 2 ^ 3 }
    requires opcode { opcode < 2 ^ 7 }
    ensures { result ≡ b_word offset rs2 rs1 funct3 opcode }
{
    let low = bits(offset, 11, 1) | bits(offset, 1, 4) << 1;
    let high = bits(offset, 5, 6) | bits(offset, 12, 1) << 6;
    opcode | low << 7 | funct3 << 12 | number(rs1) << 15 | number(rs2) << 20 | high << 25
}

/// A word of the U format, by the 20 bits of its immediate.
pub fn u_type(imm: u32, rd: Reg, opcode: u32) -> u32
    requires imm { imm < 2 ^ 20 }
    requires opcode { opcode < 2 ^ 7 }
    ensures { result ≡ u_word imm rd opcode }
{
    opcode | number(rd) << 7 | imm << 12
}

/// Of the offset the lowest 21 bits but bit 0 are kept.
pub fn j_type(offset: i32, rd: Reg, opcode: u32) -> u32
    requires opcode { opcode < 2 ^ 7 }
    ensures { result ≡ j_word offset rd opcode }
{
    let imm = bits(offset, 12, 8)
        | bits(offset, 11, 1) << 8
        | bits(offset, 1, 10) << 9
        | bits(offset, 20, 1) << 19;
    u_type(imm, rd, opcode)
}

/// The `count` bits of an immediate from place `low` on.
fn bits(imm: i32, low: u32, count: u32) -> u32
    requires count { count < 32 }
    requires low { low < 32 }
    ensures { result ≡ imm_bits low count imm }
{
    imm.cast_unsigned() >> low & ((1 << count) - 1)
}

fn number(register: Reg) -> u32
    ensures number { result ≡ register }
    ensures within { result < 2 ^ 5 }
{
    u32::from(register.index())
}
