//! Cuts a text into lines.

ghost use Rattle.std.specs.Prelude.{◌≡◌, ◌≤◌, ◌<◌, ◌∷◌, [], ◌==◌, length, IfSome, IfNone};
ghost use Rattle.std.specs.List.{after_first};
ghost use Rattle.std.specs.Str.Lines.{lines, strip_carriage_return};

/// Takes the first line off a text that isn't at its end: gives the line and what stands after it.
pub fn next_line(text: &str) -> Option<(&str, &str)>
    ensures line { IfSome result (λ x. lines text.now ≡ x.0.now ∷ lines x.1.now) }
    ensures rest { IfSome result (λ x. x.1.now ≡ after_first (λ byte. byte == 10) text.now) }
    ensures end { IfNone result (lines text.now ≡ []) }
    ensures shorter { IfSome result (λ x. (length x.0.now ≤ length text.now) × (length x.1.now < length text.now)) }
{
    if text.is_empty() {
        return None;
    }
    match text.split_once('\n') {
        Some((line, rest)) => Some((without_return(line), rest)),
        None => Some((text, "")),
    }
}

/// What stands before a newline, without a byte 13 at its end.
fn without_return(line: &str) -> &str
    ensures { result.now ≡ strip_carriage_return line.now }
{
    match line.strip_suffix('\r') {
        Some(line) => line,
        None => line,
    }
}
