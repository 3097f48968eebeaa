//! The fields of an instruction word, and the immediates that its formats spell.
ghost use Rattle.std.specs.Prelude.{◌≡◌, ◌<◌, ◌^◌, pos};
ghost use Rattle.pmsi_model.specs.Words.{bits_at, signed as signed_number};
ghost use Rattle.pmsi_model.specs.Instruction.{aq as is_acquire, rl as is_release};
ghost use Rattle.pmsi_model.specs.Instruction.{imm_b as number_b, imm_i as number_i, imm_j as number_j, imm_s as number_s, imm_u as number_u};

use pmsi_model::Reg;

/// The major opcode: bits 0 to 6.
pub fn opcode(word: u32) -> u32
    ensures { result ≡ bits_at 0 7 word }
{
    word & 0x7f
}

/// The field `funct3`: bits 12 to 14.
pub fn funct3(word: u32) -> u32
    ensures { result ≡ bits_at 12 3 word }
{
    word >> 12 & 7
}

/// The field `funct5` of an AMO: bits 27 to 31.
pub fn funct5(word: u32) -> u32
    ensures { result ≡ bits_at 27 5 word }
{
    word >> 27
}

/// The field `funct7`: bits 25 to 31.
pub fn funct7(word: u32) -> u32
    ensures { result ≡ bits_at 25 7 word }
{
    word >> 25
}

/// The destination register: bits 7 to 11.
pub fn rd(word: u32) -> Reg
    ensures { result ≡ bits_at 7 5 word }
{
    Reg::new((word >> 7 & 0x1f) as u8)
}

/// The first source register: bits 15 to 19.
pub fn rs1(word: u32) -> Reg
    ensures { result ≡ bits_at 15 5 word }
{
    Reg::new((word >> 15 & 0x1f) as u8)
}

/// The second source register: bits 20 to 24.
pub fn rs2(word: u32) -> Reg
    ensures { result ≡ bits_at 20 5 word }
{
    Reg::new((word >> 20 & 0x1f) as u8)
}

/// The shift amount of a shift by an immediate.
pub fn shamt(word: u32) -> i32
    ensures { result ≡ pos (bits_at 20 5 word) }
{
    (word >> 20 & 0x1f) as i32
}

/// The ordering bit `aq` of an AMO.
pub fn aq(word: u32) -> bool
    ensures { result ≡ is_acquire word }
{
    word >> 26 & 1 == 1
}

/// The ordering bit `rl` of an AMO.
pub fn rl(word: u32) -> bool
    ensures { result ≡ is_release word }
{
    word >> 25 & 1 == 1
}

/// The number that `count` bits spell in two's complement.
fn signed(bits: u32, count: u32) -> i32
    requires count { (0 < count) × (count < 31) }
    requires bits { bits < 2 ^ count }
    ensures { result ≡ signed_number count bits }
{
    if bits < 1 << (count - 1) {
        bits as i32
    } else {
        bits as i32 - (1 << count)
    }
}

/// The immediate of the I format: 12 bits with a sign.
pub fn imm_i(word: u32) -> i32
    ensures { result ≡ number_i word }
{
    signed(word >> 20, 12)
}

/// The immediate of the S format: 12 bits with a sign.
pub fn imm_s(word: u32) -> i32
    ensures { result ≡ number_s word }
{
    signed(word >> 25 << 5 | word >> 7 & 0x1f, 12)
}

/// The offset of the B format in bytes: 13 bits with a sign, the lowest of them 0.
pub fn imm_b(word: u32) -> i32
    ensures { result ≡ number_b word }
{
    let low = (word >> 25 & 0x3f) << 5 | (word >> 8 & 0xf) << 1;
    signed(word >> 31 << 12 | ((word >> 7 & 1) << 11 | low), 13)
}

/// The upper twenty bits.
pub fn imm_u(word: u32) -> u32
    ensures { result ≡ number_u word }
{
    word >> 12
}

/// The offset of the J format in bytes: 21 bits with a sign, the lowest of them 0.
pub fn imm_j(word: u32) -> i32
    ensures { result ≡ number_j word }
{
    let low = (word >> 20 & 1) << 11 | (word >> 21 & 0x3ff) << 1;
    signed(word >> 31 << 20 | ((word >> 12 & 0xff) << 12 | low), 21)
}
