//! The parts of a number that instructions hold.

ghost use Rattle.std.specs.Prelude.{◌≡◌};
ghost use Rattle.asm_parse.specs.Mnemonics.{in_32_bits, high_part, low_part};

/// What is left of a number in 32 bits: the number itself where it isn't below 0 and has 32 bits.
pub fn in_32_bits(number: i64) -> u32
    ensures { result ≡ in_32_bits number }
{
    number.rem_euclid(1 << 32) as u32
}

/// The high twenty bits of a number, one more where the low part is below 0.
pub(crate) fn high_part(number: i64) -> u32
    ensures { result ≡ high_part number }
{
    in_32_bits(number).wrapping_add(0x800) >> 12
}

/// The low twelve bits of a number, as a signed number.
pub(crate) fn low_part(number: i64) -> i32
    ensures { result ≡ low_part number }
{
    let low = (in_32_bits(number) % 0x1000) as i32;
    if low < 0x800 { low } else { low - 0x1000 }
}
