//! Numbers and words in fields.

ghost use Rattle.std.specs.Prelude.{◌≡◌, ◌+◌, ◌*◌, ◌^◌, ◌<◌, ◌≤◌, true, false, length, IfSome, IfNone};
ghost use Rattle.std.specs.Char.{digit_value, is_digit};
ghost use Rattle.job_text.specs.Sayings.{digits_in, number_in, word_in, core_in};

/// The number of one to ten decimal digits.
#[tactic(auto, unfolding(crate::specs::Sayings::number_in))]
pub(crate) fn number_in(field: &str) -> Option<u64>
    ensures { result ≡ number_in field.now }
{
    let digits = field.as_bytes();
    if digits.is_empty() || digits.len() > 10 {
        return None;
    }
    digits_in(10, digits)
}

/// The number of a core.
pub(crate) fn core_in(field: &str) -> Option<u32>
    ensures { result ≡ core_in field.now }
{
    match number_in(field) {
        Some(number) if number <= u64::from(u32::MAX) => Some(number as u32),
        _ => None,
    }
}

/// The word of eight hexadecimal digits.
#[tactic(auto, unfolding(crate::specs::Sayings::word_in))]
pub(crate) fn word_in(field: &str) -> Option<u32>
    ensures { result ≡ word_in field.now }
{
    let digits = field.as_bytes();
    if digits.len() != 8 {
        return None;
    }
    let word = digits_in(16, digits)?;
    Some(word as u32)
}

/// The number that digits of the base spell.
fn digits_in(base: u32, digits: &[u8]) -> Option<u64>
    requires base { (2 ≤ base) × (base ≤ 16) }
    requires length { length digits.now ≤ 10 }
    ensures value { result ≡ digits_in base digits.now }
    ensures small { IfSome result (λ value. value < 16 ^ length digits.now) }
{
    let mut value = 0;
    for byte in digits {
        value = with_digit(value, base, *byte)?;
    }
    Some(value)
}

/// The number with a digit put behind it.
fn with_digit(value: u64, base: u32, byte: u8) -> Option<u64>
    requires base { (2 ≤ base) × (base ≤ 16) }
    requires value { value < 2 ^ 40 }
    ensures digit { IfSome result (λ next. (is_digit byte base ≡ true) × (next ≡ value * base + digit_value byte)) }
    ensures none { IfNone result (is_digit byte base ≡ false) }
{
    let digit = char::from(byte).to_digit(base)?;
    Some(value * u64::from(base) + u64::from(digit))
}
