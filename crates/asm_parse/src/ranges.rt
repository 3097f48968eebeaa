//! Ranges of numbers.

ghost use Rattle.std.specs.Prelude.{◌≡◌, ◌≤◌, ◌%◌, ◌==◌};
ghost use Rattle.asm_parse.specs.Mnemonics.{in_32_bits, is_imm_12, part_of, reaches};
ghost use Rattle.asm_parse.specs.Items.{takes, op_takes, fits_in};

use crate::item::Width;
use crate::parts::{high_part, low_part};
use asm_operands::{Part, is_number};
use pmsi_model::{ImmOp, Instr};

/// Whether a number of data fits into so many bytes, with a sign or without one.
pub fn fits_in(width: Width, n: i64) -> bool
    ensures { result ≡ fits_in width n }
{
    match width {
        Width::Byte => (-128..=255).contains(&n),
        Width::Half => (-32_768..=65_535).contains(&n),
        Width::Word => is_number(n),
    }
}

/// Whether an instruction takes this immediate or offset: offsets in bytes, the immediate of `lui` and `auipc` as its high
/// twenty bits.
pub fn takes(instr: Instr, n: i64) -> bool
    ensures { result ≡ takes instr n }
{
    match instr {
        Instr::Lui { .. } | Instr::Auipc { .. } => (0..=1_048_575).contains(&n),
        Instr::Jal { .. } => reaches(1_048_576, n),
        Instr::Branch { .. } => reaches(4096, n),
        Instr::OpImm { op, .. } => op_takes(op, n),
        _ => is_imm_12(n),
    }
}

/// A part of a number: the number itself, its high twenty bits (below 2^20), or its low twelve (from -2048 to 2047).
pub fn part_of(part: Part, n: i64) -> i64
    ensures { result ≡ part_of part n }
{
    match part {
        Part::Whole => n,
        Part::High => i64::from(high_part(n)),
        Part::Low => i64::from(low_part(n)),
    }
}

/// Whether an operation takes this immediate.
fn op_takes(op: ImmOp, n: i64) -> bool
    ensures { result ≡ op_takes op n }
{
    match op {
        ImmOp::Slli | ImmOp::Srli | ImmOp::Srai => (0..=31).contains(&n),
        _ => is_imm_12(n),
    }
}

/// Whether a number has twelve bits, with its sign.
fn is_imm_12(n: i64) -> bool
    ensures { result ≡ is_imm_12 n }
{
    (-2048..=2047).contains(&n)
}

/// Whether a distance is even and within reach.
fn reaches(most: u32, n: i64) -> bool
    requires { 2 ≤ most }
    ensures { result ≡ reaches most n }
{
    let most = i64::from(most);
    is_even(n) && (-most..=most - 2).contains(&n)
}

fn is_even(n: i64) -> bool
    ensures { result ≡ (in_32_bits n % 2 == 0) }
{
    n % 2 == 0
}
