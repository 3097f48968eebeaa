//! The lines of a source.

ghost use Rattle.std.specs.Prelude.{◌≡◌, ◌≤◌, ◌<◌, ◌∷◌, [], length, IfSome, IfNone};
ghost use Rattle.std.specs.List.{after_first};
ghost use Rattle.asm_parse.specs.Lines.{lines_of, is_newline};

/// Takes the first line off a source that isn't at its end: gives the line and what stands after it.
#[tactic(auto, unfolding(crate::specs::Lines::lines_of))]
pub fn next_line(source: &str) -> Option<(&str, &str)>
    ensures line { IfSome result (λ x. lines_of source.now ≡ x.0.now ∷ lines_of x.1.now) }
    ensures rest { IfSome result (λ x. x.1.now ≡ after_first is_newline source.now) }
    ensures end { IfNone result (lines_of source.now ≡ []) }
    ensures shorter { IfSome result (λ x. (length x.0.now ≤ length source.now) × (length x.1.now < length source.now)) }
{
    text_out::next_line(source)
}
