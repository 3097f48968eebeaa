//! The states of a core's lines.
ghost use Rattle.std.specs.Prelude.{◌≡◌, ◌≢◌, ◌<◌, [], ◌++◌, ◌==◌, length, Some, None, option_map};
ghost use Rattle.std.specs.List.{find};
ghost use Rattle.cache_ctrl.specs.declared.states.TheConstants.{STATES_ROOM};
ghost use Rattle.cache_ctrl.specs.Table.{next_of};
ghost use Rattle.cache_ctrl.specs.States.{is_stable, listed, other_states, stable_of, state_at, with_state};

use crate::{Duty, Event, next};
use arrayvec::ArrayVec;
use pmsi_model::limits::CORES_ROOM;
use pmsi_model::{Mode, State};
use std::marker::Model;

/// The room of a list with each line that is on its way in a core: the line of its want, and those to write back; and one
/// more, so that a line whose state changes always has room.
pub const STATES_ROOM: usize = CORES_ROOM + 2;

/// A line and its state.
#[derive(Clone, Copy)]
pub struct LineState {
    pub line: u32,
    pub state: State,
}

impl Default for LineState {
    /// What stands in the places that list no line.
    fn default() -> LineState {
        LineState {
            line: 0,
            state: State::I,
        }
    }
}

/// The lines of a core with a request or a write-back on its way, each with its state. The state of every other line is
/// said by its mode in the cache.
#[derive(Drop)]
pub struct LineStates {
    items: ArrayVec<LineState, STATES_ROOM>,
}

impl Model for LineStates {
    ghost use Rattle.std.specs.Prelude.{List};
    ghost use Rattle.cache_ctrl.specs.declared.states.LineState.{LineState};

    ghost Value = { List LineState };

    ghost view = { λ a. a.items.items };
}

/// The state of a line that has nothing on its way.
fn stable(mode: Option<Mode>) -> State
    ensures { result ≡ stable_of mode }
{
    match mode {
        None => State::I,
        Some(Mode::Shared) => State::S,
        Some(Mode::Modified) => State::M,
    }
}

fn is_stable(state: State) -> bool
    ensures { result ≡ is_stable state }
{
    matches!(state, State::I | State::S | State::M)
}

fn state_in(states: &[LineState], line: u32) -> Option<State>
    ensures { result ≡ option_map (λ e. e.state) (find (λ e. e.line == line) states.now) }
{
    states
        .iter()
        .find(|item| item.line == line)
        .map(|item| item.state)
}

impl LineStates {
    /// No line has anything on its way. It takes no memory.
    pub fn new() -> LineStates
        ensures { result ≡ [] }
    {
        LineStates {
            items: ArrayVec::new(),
        }
    }

    /// Equal states. It takes no memory.
    pub fn copy(&self) -> LineStates
        ensures { result ≡ self.now }
    {
        let mut items = ArrayVec::new();
        let Ok(()) = items.try_extend_from_slice(self.items.as_slice()) else {
            unreachable!()
        };
        LineStates { items }
    }

    /// The state of a line: the listed one, or else the stable one of the mode in which it is held, if it is.
    pub fn state(&self, line: u32, mode: Option<Mode>) -> State
        ensures { result ≡ state_at line mode self.now }
    {
        state_in(self.items.as_slice(), line).unwrap_or(stable(mode))
    }

    /// The line is listed no more. Where it isn't, which is nearly always so, no entry is moved.
    fn remove(&mut self, line: u32, listed: Option<State>)
        requires { listed ≡ option_map (λ e. e.state) (find (λ e. e.line == line) self.old) }
        ensures { self.new ≡ other_states line self.old }
    {
        if listed.is_some() {
            self.items.retain(|item| item.line != line);
        }
    }

    /// The line, which isn't listed, gets this state.
    fn list(&mut self, line: u32, state: State)
        requires { length self.old < STATES_ROOM }
        ensures { self.new ≡ self.old ++ listed line state }
    {
        if !is_stable(state) {
            self.items.push(LineState { line, state });
        }
    }

    /// The state of a line changes by the table. The answer is the new state and the core's duty. A stable state isn't listed,
    /// so the caller brings the line into its mode: by the duty, and by taking it in after a fill or making it shared after a
    /// write-back. No memory is taken.
    pub fn step(&mut self, line: u32, mode: Option<Mode>, event: Event) -> (State, Duty)
        requires comes { next_of (state_at line mode self.old) event ≢ None }
        requires room { length (other_states line self.old) < STATES_ROOM }
        ensures entry { next_of (state_at line mode self.old) event ≡ Some result }
        ensures after { self.new ≡ with_state line result.0 self.old }
    {
        let listed = state_in(self.items.as_slice(), line);
        let (state, duty) = next(listed.unwrap_or(stable(mode)), event);
        self.remove(line, listed);
        self.list(line, state);
        (state, duty)
    }
}
