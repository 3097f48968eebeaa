//! Fields: words and numbers.

ghost use Rattle.std.specs.Prelude.{◌≡◌, ◌≤◌, IfSome, decimal};
ghost use Rattle.std.specs.Char.{is_ascii_digit};
ghost use Rattle.std.specs.List.{list_all};
ghost use Rattle.std.specs.Str.{bytes_eq};
ghost use Rattle.trace_text.specs.Reading.{has_plain_start, is_numeral, number_in};

/// Whether a field is this word.
pub(crate) fn is_word(field: &[u8], word: &str) -> bool
    ensures { result ≡ bytes_eq field.now word.now }
{
    field == word.as_bytes()
}

/// Whether a field is a number of any size: digits without a leading zero.
pub(crate) fn is_numeral(field: &[u8]) -> bool
    ensures { result ≡ is_numeral field.now }
{
    has_plain_start(field) && are_digits(field)
}

fn has_plain_start(field: &[u8]) -> bool
    ensures { result ≡ has_plain_start field.now }
{
    match field {
        [] => false,
        [_] => true,
        [digit, ..] => *digit != b'0',
    }
}

fn are_digits(field: &[u8]) -> bool
    ensures { result ≡ list_all is_ascii_digit field.now }
{
    field.iter().all(|byte| byte.is_ascii_digit())
}

/// Whether a field is this number.
pub(crate) fn is_number(field: &[u8], number: u32) -> bool
    ensures { result ≡ bytes_eq field.now (decimal number) }
{
    let mut buffer = itoa::Buffer::new();
    is_word(field, buffer.format(number))
}

/// The number that a field is, where it is one up to this limit.
#[tactic(auto, unfolding(crate::specs::Reading::number_in))]
pub(crate) fn number_in(field: &[u8], most: u32) -> Option<u32>
    ensures value { result ≡ number_in most field.now }
    ensures within { IfSome result (λ number. number ≤ most) }
{
    if !is_numeral(field) {
        return None;
    }
    let Ok(text) = str::from_utf8(field) else {
        return None;
    };
    match text.parse::<u32>() {
        Ok(number) if number <= most => Some(number),
        _ => None,
    }
}
