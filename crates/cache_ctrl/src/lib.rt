//! The states of a line in a core, and how they change by what the core does and sees.
#![tactic(auto)]

ghost use Rattle.std.specs.Prelude.{◌≡◌, ◌≢◌, Some, None};
ghost use Rattle.cache_ctrl.specs.Table.{next_of};

mod states;

use pmsi_model::State;
pub use states::{LineState, LineStates, STATES_ROOM};

/// What a core does with a line, or sees another core do.
#[derive(Clone, Copy, Debug, PartialEq, Eq)]
pub enum Event {
    /// Its own request to read is posted.
    OwnGetS,
    /// Its own request to write is posted.
    OwnGetM,
    /// Its own request is served.
    OwnFill,
    /// It writes the line back.
    OwnBack,
    /// It chooses the line as the one that leaves its set.
    Choose,
    /// Another core's request to read is posted.
    OtherGetS,
    /// Another core's request to write is posted.
    OtherGetM,
}

/// What the core has to do about an event.
#[derive(Clone, Copy, Debug, PartialEq, Eq)]
pub enum Duty {
    Nothing,
    /// The line goes last among those to write back.
    Append,
    /// The copy is dropped.
    DropCopy,
}

/// The state of a line after an event, and the core's duty. The caller sees to it that the table has an entry: a pair of
/// state and event without one comes in no run.
pub fn next(state: State, event: Event) -> (State, Duty)
    requires { next_of state event ≢ None }
    ensures { next_of state event ≡ Some result }
{
    match (event, state) {
        (Event::OwnGetS, State::I) => (State::ISD, Duty::Nothing),
        (Event::OwnGetM, State::I) => (State::IMD, Duty::Nothing),
        (Event::OwnGetM, State::S) => (State::SMW, Duty::Nothing),
        (Event::OwnFill, State::ISD) => (State::S, Duty::Nothing),
        (Event::OwnFill, State::ISDI) => (State::I, Duty::Nothing),
        (Event::OwnFill, State::IMD | State::SMW) => (State::M, Duty::Nothing),
        (Event::OwnFill, State::IMDS | State::SMWS) => (State::MSWB, Duty::Append),
        (Event::OwnFill, State::IMDI) => (State::MIWB, Duty::Append),
        (Event::OwnBack, State::MSWB) => (State::S, Duty::Nothing),
        (Event::OwnBack, State::MIWB) => (State::I, Duty::DropCopy),
        (Event::Choose, State::S) => (State::I, Duty::DropCopy),
        (Event::Choose, State::M) => (State::MIWB, Duty::Append),
        (Event::Choose, State::MSWB | State::MIWB) => (State::MIWB, Duty::Nothing),
        (Event::OtherGetS, State::M) => (State::MSWB, Duty::Append),
        (Event::OtherGetS, State::IMD) => (State::IMDS, Duty::Nothing),
        (Event::OtherGetS, State::SMW) => (State::SMWS, Duty::Nothing),
        (Event::OtherGetS, state) => (state, Duty::Nothing),
        (Event::OtherGetM, State::S) => (State::I, Duty::DropCopy),
        (Event::OtherGetM, State::M) => (State::MIWB, Duty::Append),
        (Event::OtherGetM, State::ISD) => (State::ISDI, Duty::Nothing),
        (Event::OtherGetM, State::IMD | State::IMDS) => (State::IMDI, Duty::Nothing),
        (Event::OtherGetM, State::SMW | State::SMWS) => (State::IMDI, Duty::DropCopy),
        (Event::OtherGetM, State::MSWB) => (State::MIWB, Duty::Nothing),
        (Event::OtherGetM, state) => (state, Duty::Nothing),
        _ => unreachable!(),
    }
}
