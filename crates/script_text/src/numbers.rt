//! Numbers in fields.

ghost use Rattle.std.specs.Prelude.{◌≡◌, ◌+◌, ◌*◌, ◌^◌, ◌<◌, ◌≤◌, true, IfSome, IfNone};
ghost use Rattle.std.specs.Char.{digit_value, is_digit};
ghost use Rattle.script_text.specs.Script.{number_in, spelt_in};
ghost use Rattle.script_text.specs.Reads.{IsPast};

/// The hexadecimal digits that a number has at most.
const MAX_HEX_DIGITS: usize = 8;

/// The number that a field is, where it is one of 32 bits.
#[tactic(auto, unfolding(crate::specs::Script::number_in))]
pub(crate) fn number_in(field: &str) -> Option<u32>
    ensures { result ≡ number_in field.now }
{
    match field.strip_prefix("0x") {
        Some(digits) if digits.len() <= MAX_HEX_DIGITS => spelt_in(16, digits.as_bytes()),
        Some(_) => None,
        None => spelt_in(10, field.as_bytes()),
    }
}

/// The number of 32 bits that digits of the base spell.
fn spelt_in(base: u32, digits: &[u8]) -> Option<u32>
    requires { (2 ≤ base) × (base ≤ 16) }
    ensures { result ≡ spelt_in base digits.now }
{
    if digits.is_empty() {
        return None;
    }
    let mut value = 0;
    for byte in digits {
        value = with_digit(value, base, *byte)?;
    }
    Some(value)
}

/// The number with a digit put behind it.
fn with_digit(value: u32, base: u32, byte: u8) -> Option<u32>
    requires { (2 ≤ base) × (base ≤ 16) }
    ensures digit { IfSome result (λ next. (is_digit byte base ≡ true) × (next ≡ value * base + digit_value byte)) }
    ensures small { IfSome result (λ next. next < 2 ^ 32) }
    ensures none { IfNone result (IsPast value base byte) }
{
    let digit = char::from(byte).to_digit(base)?;
    u32::try_from(u64::from(value) * u64::from(base) + u64::from(digit)).ok()
}
