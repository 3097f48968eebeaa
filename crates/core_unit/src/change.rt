//! The states of a core's lines change by the table.
ghost use Rattle.std.specs.Prelude.{◌≡◌, Some, option_map};
ghost use Rattle.cache_ctrl.specs.Duties.{other_event, own_event};
ghost use Rattle.core_unit.specs.Changes.{CanChange, CanDo, changed, next_for, state_name, with_duty};

use crate::state::State;
use cache_ctrl::{Duty, Event};
use pmsi_model::{Kind, State as LineName};

/// What another core's request of this kind is to a line.
pub fn other_event(kind: Kind) -> Event
    ensures { result ≡ other_event kind }
{
    match kind {
        Kind::Read => Event::OtherGetS,
        Kind::Write => Event::OtherGetM,
    }
}

/// What the core's own request of this kind is to a line.
pub fn own_event(kind: Kind) -> Event
    ensures { result ≡ own_event kind }
{
    match kind {
        Kind::Read => Event::OwnGetS,
        Kind::Write => Event::OwnGetM,
    }
}

impl State {
    /// The state of a line.
    pub fn state_name(&self, line: u32) -> LineName
        ensures { result ≡ state_name line self.now }
    {
        self.states.state(line, self.cache.find(line))
    }

    fn do_duty(&mut self, duty: Duty, line: u32)
        requires { CanDo duty line self.old }
        ensures { self.new ≡ with_duty duty line self.old }
    {
        match duty {
            Duty::Nothing => {}
            Duty::Append => self.pending.push_back(line),
            Duty::DropCopy => self.cache.drop_line(line),
        }
    }

    /// An event changes the state of a line, and the core does its duty. The answer is the new state.
    pub fn change(&mut self, event: Event, line: u32) -> LineName
        requires { CanChange event line self.old }
        ensures after { self.new ≡ changed event line self.old }
        ensures state { option_map (λ next. next.0) (next_for event line self.old) ≡ Some result }
    {
        let mode = self.cache.find(line);
        let (state, duty) = self.states.step(line, mode, event);
        self.do_duty(duty, line);
        state
    }
}
