//! Actions, as a line tells them.

ghost use Rattle.std.specs.Prelude.{◌≡◌};
ghost use Rattle.trace_text.specs.Reading.{action_in, fill_in, idle_in, kept_in, long_in, name_in};

use crate::fields::{is_word, number_in};
use crate::parts::Parts;
use crate::trace::MAX_LINE;
use pmsi_model::{Action, Name};

#[tactic(auto, unfolding(crate::specs::Reading::name_in))]
fn name_in(field: &[u8]) -> Option<Name>
    ensures { result ≡ name_in field.now }
{
    if is_word(field, "GetS") {
        Some(Name::GetS)
    } else if is_word(field, "GetM") {
        Some(Name::GetM)
    } else if is_word(field, "Upg") {
        Some(Name::Upg)
    } else {
        None
    }
}

/// Whether a line that is written back stays shared.
#[tactic(auto, unfolding(crate::specs::Reading::kept_in))]
fn kept_in(field: &[u8]) -> Option<bool>
    ensures { result ≡ kept_in field.now }
{
    if is_word(field, "keep") {
        Some(true)
    } else if is_word(field, "drop") {
        Some(false)
    } else {
        None
    }
}

#[tactic(auto, unfolding(crate::specs::Reading::idle_in))]
fn idle_in(what: &[u8]) -> Option<Action>
    ensures { result ≡ idle_in what.now }
{
    if is_word(what, "idle") {
        Some(Action::Idle)
    } else {
        None
    }
}

#[tactic(auto, unfolding(crate::specs::Reading::fill_in))]
fn fill_in(what: &[u8], line: &[u8]) -> Option<Action>
    ensures { result ≡ fill_in what.now line.now }
{
    if is_word(what, "fill") {
        Some(Action::Fill(number_in(line, MAX_LINE)?))
    } else {
        None
    }
}

/// An action of three fields.
#[tactic(auto, unfolding(crate::specs::Reading::long_in))]
fn long_in(what: &[u8], first: &[u8], second: &[u8]) -> Option<Action>
    ensures { result ≡ long_in what.now first.now second.now }
{
    if is_word(what, "post") {
        Some(Action::Post(name_in(first)?, number_in(second, MAX_LINE)?))
    } else if is_word(what, "postfill") {
        Some(Action::PostFill(name_in(first)?, number_in(second, MAX_LINE)?))
    } else if is_word(what, "back") {
        Some(Action::Back(number_in(first, MAX_LINE)?, kept_in(second)?))
    } else {
        None
    }
}

/// The action that the fields that are left tell, if they tell one.
pub(crate) fn action_in(fields: &mut Parts<'_>) -> Option<Action>
    ensures { result ≡ action_in fields.old }
{
    let what = fields.next()?;
    let Some(first) = fields.next() else {
        return idle_in(what);
    };
    let Some(second) = fields.next() else {
        return fill_in(what, first);
    };
    match fields.next() {
        Some(_) => None,
        None => long_in(what, first, second),
    }
}
