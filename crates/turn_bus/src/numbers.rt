//! Actions as numbers, for the words that hold records.
ghost use Rattle.std.specs.Prelude.{◌≡◌, ◌<◌, ◌^◌};
ghost use Rattle.turn_bus.specs.ActionNumbers.{tag_of_name, IsNumberOf, action_of_number, ActionsComeBack};

use pmsi_model::{Action, Name};

fn tag_of(name: Name) -> u64
    ensures { result ≡ tag_of_name name }
{
    match name {
        Name::GetS => 0,
        Name::GetM => 1,
        Name::Upg => 2,
    }
}

/// The number of an action.
pub fn number_of(action: Action) -> u64
    ensures { IsNumberOf result action }
{
    match action {
        Action::Idle => 0,
        Action::Post(name, line) => 16 * u64::from(line) + (tag_of(name) + 1),
        Action::Fill(line) => 16 * u64::from(line) + 4,
        Action::PostFill(name, line) => 16 * u64::from(line) + (tag_of(name) + 5),
        Action::Back(line, true) => 16 * u64::from(line) + 8,
        Action::Back(line, false) => 16 * u64::from(line) + 9,
    }
}

/// The action of a number that is one's.
pub fn action_of(number: u64) -> Action
    requires { number < 2 ^ 36 }
    ensures { result ≡ action_of_number number }
{
    let line = (number / 16) as u32;
    match number % 16 {
        1 => Action::Post(Name::GetS, line),
        2 => Action::Post(Name::GetM, line),
        3 => Action::Post(Name::Upg, line),
        4 => Action::Fill(line),
        5 => Action::PostFill(Name::GetS, line),
        6 => Action::PostFill(Name::GetM, line),
        7 => Action::PostFill(Name::Upg, line),
        8 => Action::Back(line, true),
        9 => Action::Back(line, false),
        _ => Action::Idle,
    }
}

/// A law: the action of an action's number is that action.
pub fn actions_come_back()
    ensures { ActionsComeBack }
{}
