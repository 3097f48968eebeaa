//! Numbers, registers and fence operands as they are spelt.

ghost use Rattle.std.specs.Prelude.{◌≡◌, ◌<◌, ◌≤◌, ◌^◌, true, Some, IfSome, IfNone};
ghost use Rattle.asm_operands.specs.Numbers.{is_number, if_number, digits_number, number_spelt, signed_number, register_named, weight_of, fence_set};

use crate::number::Number;
use crate::table::value_in;
use pmsi_model::Reg;

/// Whether a source can have this number: it is from -2^31 to 2^32 - 1.
pub fn is_number(n: i64) -> bool
    ensures { result ≡ is_number n }
{
    (-2_147_483_648..=4_294_967_295).contains(&n)
}

/// This number, where a source can have it.
pub(crate) fn if_number(value: i64) -> Option<Number>
    ensures number { result ≡ if_number value }
    ensures range { IfSome result (λ n. is_number n ≡ true) }
{
    if is_number(value) {
        Some(Number::new(value))
    } else {
        None
    }
}

/// The number that is spelt so, with its sign: none where it is misspelt or isn't from -2^31 to 2^32 - 1.
pub(crate) fn signed_number(negative: bool, text: &str) -> Option<Number>
    ensures number { result ≡ signed_number negative (number_spelt text.now) }
    ensures range { IfSome result (λ n. is_number n ≡ true) }
{
    let value = i64::from(number_spelt(text)?);
    if_number(if negative { -value } else { value })
}

/// The number that is spelt so without a sign, where it has 32 bits.
#[tactic(auto, unfolding(crate::specs::Numbers::number_spelt))]
fn number_spelt(text: &str) -> Option<u32>
    ensures number { IfSome result (λ n. number_spelt text.now ≡ Some n) }
    ensures none { IfNone result (IfSome (number_spelt text.now) (λ n. 2 ^ 32 ≤ n)) }
{
    match text.strip_prefix("0x") {
        Some(digits) => digits_number(16, digits),
        None => digits_number(10, text),
    }
}

/// The number that digits spell, where it has 32 bits. No sign may stand in front.
fn digits_number(base: u32, digits: &str) -> Option<u32>
    requires { (2 ≤ base) × (base ≤ 16) }
    ensures number { IfSome result (λ n. digits_number base digits.now ≡ Some n) }
    ensures none { IfNone result (IfSome (digits_number base digits.now) (λ n. 2 ^ 32 ≤ n)) }
{
    if digits.starts_with('+') {
        return None;
    }
    u32::from_str_radix(digits, base).ok()
}

/// The registers by their numbers, and by their names of the standard's calling convention.
const REGISTERS: [(&str, u8); 65] = [
    ("x0", 0),
    ("x1", 1),
    ("x2", 2),
    ("x3", 3),
    ("x4", 4),
    ("x5", 5),
    ("x6", 6),
    ("x7", 7),
    ("x8", 8),
    ("x9", 9),
    ("x10", 10),
    ("x11", 11),
    ("x12", 12),
    ("x13", 13),
    ("x14", 14),
    ("x15", 15),
    ("x16", 16),
    ("x17", 17),
    ("x18", 18),
    ("x19", 19),
    ("x20", 20),
    ("x21", 21),
    ("x22", 22),
    ("x23", 23),
    ("x24", 24),
    ("x25", 25),
    ("x26", 26),
    ("x27", 27),
    ("x28", 28),
    ("x29", 29),
    ("x30", 30),
    ("x31", 31),
    ("zero", 0),
    ("ra", 1),
    ("sp", 2),
    ("gp", 3),
    ("tp", 4),
    ("fp", 8),
    ("t0", 5),
    ("t1", 6),
    ("t2", 7),
    ("t3", 28),
    ("t4", 29),
    ("t5", 30),
    ("t6", 31),
    ("s0", 8),
    ("s1", 9),
    ("s2", 18),
    ("s3", 19),
    ("s4", 20),
    ("s5", 21),
    ("s6", 22),
    ("s7", 23),
    ("s8", 24),
    ("s9", 25),
    ("s10", 26),
    ("s11", 27),
    ("a0", 10),
    ("a1", 11),
    ("a2", 12),
    ("a3", 13),
    ("a4", 14),
    ("a5", 15),
    ("a6", 16),
    ("a7", 17),
];

/// The register of this name.
pub(crate) fn register_named(text: &str) -> Option<Reg>
    ensures { result ≡ register_named text.now }
{
    let number = register_number(text)?;
    Some(Reg::new(number))
}

/// The number of the register of this name, below 32.
fn register_number(text: &str) -> Option<u8>
    ensures number { result ≡ register_named text.now }
    ensures within { IfSome result (λ number. number < 32) }
{
    value_in(&REGISTERS, text)
}

/// The sum of the weights of a fence's letters, which stand in the order i, o, r, w and each at most once: below 16.
#[tactic(auto, unfolding(crate::specs::Numbers::fence_set, crate::specs::Numbers::weights_behind))]
pub(crate) fn fence_set(text: &str) -> Option<u32>
    ensures set { result ≡ fence_set text.now }
    ensures within { IfSome result (λ set. set < 16) }
{
    if text.is_empty() {
        return None;
    }
    let mut least = 16;
    let mut set = 0;
    for letter in text.as_bytes() {
        let weight = weight_of(*letter)?;
        if weight >= least {
            return None;
        }
        least = weight;
        set += weight;
    }
    Some(set)
}

/// The weight of a fence's letter, if it is one.
fn weight_of(letter: u8) -> Option<u32>
    ensures { result ≡ weight_of letter }
{
    match letter {
        b'i' => Some(8),
        b'o' => Some(4),
        b'r' => Some(2),
        b'w' => Some(1),
        _ => None,
    }
}
