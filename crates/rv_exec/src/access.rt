//! What an access does to the aligned word that holds its address.
ghost use Rattle.std.specs.Prelude.{◌≡◌, ◌%◌, ◌^◌, ◌<◌, ◌-◌, ◌*◌, ℕ, List};
ghost use Rattle.pmsi_model.specs.Access.{access_value, amo_word as model_amo_word, load_value, load_width, width_of};
ghost use Rattle.pmsi_model.specs.Words.{bytes_of, number_of};
ghost use Rattle.rv_exec.specs.Accesses.{bytes_after, covered, lane_of, with_covered};

use pmsi_model::{Access, AccessOp, AmoOp, LoadOp};

/// What an access gives and leaves.
#[derive(Clone, Copy, Debug, PartialEq, Eq)]
pub struct Applied {
    /// The value for rd; that of a store is 0.
    pub rd_value: u32,
    /// The word afterwards, also where the access only reads.
    pub new_word: u32,
}

/// Does an access on the aligned word that holds its address.
pub fn apply(access: Access, word: u32) -> Applied
    requires { access.address % width_of access.op ≡ 0 }
    ensures value { result.rd_value ≡ access_value access.op (covered access word) }
    ensures bytes { bytes_of 4 result.new_word ≡ bytes_after access word }
{
    match access.op {
        AccessOp::Load(op) => Applied {
            rd_value: extended(op, number_at(&access, word)),
            new_word: word,
        },
        AccessOp::Store(_) => Applied {
            rd_value: 0,
            new_word: write_lanes(&access, word, access.operand),
        },
        AccessOp::Amo(op) => Applied {
            rd_value: word,
            new_word: amo_word(op, word, access.operand),
        },
    }
}

/// How many bits of its word lie below an access.
fn shift_of(access: &Access) -> u32
    ensures { result ≡ 8 * lane_of access.now }
{
    8 * (access.address % 4)
}

/// As many ones as an access has bits.
fn mask_of(access: &Access) -> u32
    ensures { result ≡ 2 ^ (8 * width_of access.now.op) - 1 }
{
    u32::MAX >> (32 - 8 * access.op.width())
}

/// The number that the bytes of an access spell in the aligned word that holds its address, lowest byte first.
pub fn number_at(access: &Access, word: u32) -> u32
    requires { access.now.address % width_of access.now.op ≡ 0 }
    ensures number { result ≡ number_of (covered access.now word) }
    ensures below { result < 256 ^ width_of access.now.op }
{
    word >> shift_of(access) & mask_of(access)
}

/// The word with the lowest bytes of a number in place of those of an access.
fn write_lanes(access: &Access, word: u32, number: u32) -> u32
    requires { access.now.address % width_of access.now.op ≡ 0 }
    ensures { bytes_of 4 result ≡ with_covered access.now word (bytes_of (width_of access.now.op) number) }
{
    let shift = shift_of(access);
    let mask = mask_of(access);
    word & !(mask << shift) | (number & mask) << shift
}

/// The value that a load gives for the number that its bytes spell.
fn extended(op: LoadOp, number: u32) -> u32
    requires { number < 256 ^ load_width op }
    ensures { (bytes : List ℕ) → number_of bytes ≡ number → result ≡ load_value op bytes }
{
    match op {
        LoadOp::Lb => i32::from((number as u8).cast_signed()).cast_unsigned(),
        LoadOp::Lh => i32::from((number as u16).cast_signed()).cast_unsigned(),
        LoadOp::Lw | LoadOp::Lbu | LoadOp::Lhu => number,
    }
}

/// The word that an AMO leaves.
fn amo_word(op: AmoOp, old: u32, operand: u32) -> u32
    ensures { result ≡ model_amo_word op old operand }
{
    match op {
        AmoOp::Amoadd => old.wrapping_add(operand),
        AmoOp::Amoswap => operand,
        AmoOp::Amoxor => old ^ operand,
        AmoOp::Amoor => old | operand,
        AmoOp::Amoand => old & operand,
        AmoOp::Amomin => old.cast_signed().min(operand.cast_signed()).cast_unsigned(),
        AmoOp::Amomax => old.cast_signed().max(operand.cast_signed()).cast_unsigned(),
        AmoOp::Amominu => old.min(operand),
        AmoOp::Amomaxu => old.max(operand),
    }
}
