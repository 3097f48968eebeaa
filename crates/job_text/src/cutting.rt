//! Cuts lines into fields.

ghost use Rattle.std.specs.Prelude.{◌≡◌, ◌<◌, [], ◌∷◌, length, IfSome, IfNone};
ghost use Rattle.std.specs.List.{before_first, position_or_len, prefix_len};
ghost use Rattle.std.specs.Option.{option_map};
ghost use Rattle.job_text.specs.Cutting.{is_blank, is_hash, fields_between};
ghost use Rattle.job_text.specs.Sayings.{only_field};

/// The line up to its comment.
pub fn code_of(line: &str) -> &str
    ensures { result.now ≡ before_first is_hash line.now }
{
    match line.split_once('#') {
        Some((code, _)) => code,
        None => line,
    }
}

/// Takes the first field off: gives the field and what stands after it.
pub fn next_field(text: &str) -> Option<(&str, &str)>
    ensures field { IfSome result (λ x. fields_between text.now ≡ x.0.now ∷ fields_between x.1.now) }
    ensures end { IfNone result (fields_between text.now ≡ []) }
    ensures shorter { IfSome result (λ x. length x.1.now < length text.now) }
{
    let (_, text) = text.split_at(blank_run(text.as_bytes()));
    if text.is_empty() {
        return None;
    }
    Some(text.split_at(field_end(text.as_bytes())))
}

/// How many blanks stand at the front.
fn blank_run(bytes: &[u8]) -> usize
    ensures { result ≡ prefix_len is_blank bytes.now }
{
    bytes.iter().take_while(|byte| is_blank(**byte)).count()
}

/// How many bytes stand in front of the first blank.
fn field_end(bytes: &[u8]) -> usize
    ensures { result ≡ position_or_len is_blank bytes.now }
{
    bytes.iter().take_while(|byte| !is_blank(**byte)).count()
}

fn is_blank(byte: u8) -> bool
    ensures { result ≡ is_blank byte }
{
    byte == b' ' || byte == b'\t'
}

/// The one field of a text, where it has one and no other.
pub fn only_field(text: &str) -> Option<&str>
    ensures { option_map (λ field. field.now) result ≡ only_field (fields_between text.now) }
{
    let (field, rest) = next_field(text)?;
    match next_field(rest) {
        Some(_) => None,
        None => Some(field),
    }
}
