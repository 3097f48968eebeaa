//! What a core learns of other cores' requests.
ghost use Rattle.std.specs.Prelude.{◌≡◌, ◌+◌, ◌^◌, ◌<◌};
ghost use Rattle.core_unit.specs.State.{snooped_request, snooped, stepped};
ghost use Rattle.core_unit.specs.Snoops.{CanSnoopRequest, CanSnoopAction};

use crate::change::other_event;
use crate::state::State;
use pmsi_model::{Action, Kind};

impl State {
    /// Snoops another core's request.
    fn snoop_request(&mut self, kind: Kind, line: u32)
        requires { CanSnoopRequest kind line self.old }
        ensures { self.new ≡ snooped_request kind line self.old }
    {
        self.change(other_event(kind), line);
    }

    /// Snoops another core's action.
    fn snoop_action(&mut self, action: Action)
        requires { CanSnoopAction action self.old }
        ensures { self.new ≡ snooped action self.old }
    {
        match action {
            Action::Post(name, line) | Action::PostFill(name, line) => self.snoop_request(
                name.kind(),
                line,
            ),
            Action::Idle | Action::Fill(_) | Action::Back(..) => {}
        }
    }

    /// Snoops the action of the slot's owner, and ends the slot.
    pub fn snoop(&mut self, action: Action)
        requires can { CanSnoopAction action self.old }
        requires more { self.old.slot + 1 < 2 ^ 32 }
        ensures { self.new ≡ stepped (snooped action self.old) }
    {
        self.snoop_action(action);
        self.slot += 1;
        self.phase_done = false;
    }
}
