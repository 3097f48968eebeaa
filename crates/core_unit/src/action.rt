//! A core's action in an own slot.
ghost use Rattle.std.specs.Prelude.{◌≡◌, ◌≢◌, ℕ, ◌+◌, ◌%◌, ◌^◌, ◌<◌, ◌∷◌, List, length, Some, None, option_map};
ghost use Rattle.arrayvec.specs.ArrayVec.{array_vec_len};
ghost use Rattle.pmsi_model.specs.Access.{width_of};
ghost use Rattle.pmsi_model.specs.declared.Want.{Want};
ghost use Rattle.pmsi_model.specs.Bus.{clear_victim};
ghost use Rattle.pmsi_model.specs.Coherent.{victim_in};
ghost use Rattle.pmsi_model.specs.Geometry.{IsGeometry};
ghost use Rattle.pmsi_model.specs.Job.{JobValue};
ghost use Rattle.pmsi_model.specs.Parts.{IsBusPart};
ghost use Rattle.pmsi_model.specs.Shared.{IsOwnSlot, is_ready};
ghost use Rattle.pend_buffers.specs.Pending.{choice_of};
ghost use Rattle.core_unit.specs.Changes.{mode_in_state};
ghost use Rattle.core_unit.specs.State.{filled_on, keeps, met_among, name_for, retired_on, with_filled, with_want, words_with};
ghost use Rattle.core_unit.specs.Stands.{CanServe, CanTake, HasTouchRoom};
ghost use Rattle.core_unit.specs.Parts.{CanAct, IsPartAfter};
ghost use Rattle.core_unit.specs.Acts.{CanBack, CanFillFor, CanPostFor, CanRequest, IsActed, IsBacked, IsFilled, IsPosted, IsRequested, outcome};

use crate::change::own_event;
use crate::state::State;
use cache_ctrl::Event;
use pend_buffers::Choice;
use pmsi_model::{
    Access, Action, BusPort, Kind, LineWords, Mode, Name, Posted, Row, State as LineName, Turn,
    Want,
};

/// The mode in which a line comes into the cache, by its state once its request is served.
fn mode_in_state(state: LineName) -> Option<Mode>
    ensures { result ≡ mode_in_state state }
{
    match state {
        LineName::S => Some(Mode::Shared),
        LineName::M | LineName::MSWB | LineName::MIWB => Some(Mode::Modified),
        _ => None,
    }
}

impl State {
    /// Does the missed access on the words of its line, and retires its instruction.
    fn finish_access(&mut self, access: Access, words: &mut LineWords)
        requires shape { IsGeometry self.old.shape }
        requires count { array_vec_len words.old ≡ self.old.shape.line_words }
        requires aligned { access.address % width_of access.op ≡ 0 }
        requires retires { self.old.retired + 1 < 2 ^ 64 }
        requires room { HasTouchRoom self.old }
        ensures words { words.new.items ≡ words_with self.old.shape access words.old.items }
        ensures state { self.new ≡ retired_on access (met_among self.old.shape access words.old.items) self.old }
    {
        let place = (access.address % self.shape.line_bytes() / 4) as usize;
        words[place] = self.retire(access, words[place]);
    }

    /// The state of the line changes, and the line comes into the cache, unless a write is queued behind a read.
    fn fill_line(&mut self, want: &Want, words: &[u32])
        requires { CanTake want.now words.now self.old }
        ensures { self.new ≡ with_filled want.now words.now self.old }
    {
        let state = self.change(Event::OwnFill, want.line);
        if let Some(mode) = mode_in_state(state) {
            self.cache.put(want.line, mode, words);
        }
    }

    /// Ends the want, which was posted in the slot `post`, with the words of its line.
    fn serve(&mut self, want: &Want, words: &mut LineWords, post: u32)
        requires { CanServe want.now words.old.items self.old }
        ensures { self.new ≡ filled_on self.old.shape want.now words.old.items post self.old }
    {
        self.finish_access(want.access, words);
        self.fill_line(want, words.as_slice());
        self.rows.push(Row {
            core: self.number,
            line: want.line,
            kind: want.kind,
            issue: want.issue,
            post,
            fill: self.slot,
        });
        self.pending.take_want();
    }

    /// The name of the want's request: an upgrade where the core holds the line shared.
    fn name_for(&self, want: &Want) -> Name
        ensures { result ≡ name_for want.now self.now }
    {
        match (want.kind, self.cache.find(want.line)) {
            (Kind::Read, _) => Name::GetS,
            (Kind::Write, Some(Mode::Shared)) => Name::Upg,
            (Kind::Write, _) => Name::GetM,
        }
    }

    /// Posts the want's request; it may be filled at once.
    fn post<P: BusPort>(&mut self, want: &Want, bus: &mut P) -> Action
        requires wanted { self.old.pending.want ≡ Some want.now }
        requires slot { IsOwnSlot self.old.number (P.side bus.old) }
        requires can { CanPostFor want.now self.old (P.side bus.old).memory }
        ensures { IsPosted want.now self.old (P.side bus.old) (outcome result self.new (P.side bus.new)) }
    {
        let name = self.name_for(want);
        let mut words = LineWords::new();
        self.change(own_event(want.kind), want.line);
        self.pending.posted(self.slot);
        self.pending.acted(Turn::WriteBack);
        match bus.post(self.number, want.line, name, &mut words) {
            Posted::Queued => Action::Post(name, want.line),
            Posted::Filled => {
                self.serve(want, &mut words, self.slot);
                Action::PostFill(name, want.line)
            }
        }
    }

    /// Fills the want's request, which was posted in the slot `post`.
    fn fill<P: BusPort>(&mut self, want: &Want, post: u32, bus: &mut P) -> Action
        requires slot { IsOwnSlot self.old.number (P.side bus.old) }
        requires can { CanFillFor want.now self.old (P.side bus.old).memory }
        ensures { IsFilled want.now post self.old (P.side bus.old) (outcome result self.new (P.side bus.new)) }
    {
        let mut words = LineWords::new();
        bus.fill(self.number, want.line, &mut words);
        self.serve(want, &mut words, post);
        self.pending.acted(Turn::WriteBack);
        Action::Fill(want.line)
    }

    /// The modified line that has to be written back before the want's request can be posted.
    fn victim(&self) -> Option<u32>
        ensures { result ≡ victim_in self.now.pending.want }
    {
        self.pending.want()?.victim
    }

    /// Whether a line that is written back stays shared.
    fn keeps(&self, line: u32) -> bool
        ensures { result ≡ keeps line self.now }
    {
        self.state_name(line) == LineName::MSWB
    }

    /// The line is no victim any more.
    fn end_victim(&mut self, line: u32)
        ensures { self.new ≡ with_want (option_map (clear_victim line) self.old.pending.want) self.old }
    {
        if self.victim() == Some(line) {
            self.pending.clear_victim();
        }
    }

    /// Writes the first line back.
    fn write_back<P: BusPort>(&mut self, bus: &mut P) -> Action
        requires some { 0 < length self.old.pending.write_backs }
        requires slot { IsOwnSlot self.old.number (P.side bus.old) }
        requires first { (line : ℕ) (lines : List ℕ) → self.old.pending.write_backs ≡ line ∷ lines → CanBack line lines self.old (P.side bus.old).memory }
        ensures { (line : ℕ) (lines : List ℕ) → self.old.pending.write_backs ≡ line ∷ lines →
            IsBacked line lines self.old (P.side bus.old) (outcome result self.new (P.side bus.new)) }
    {
        let line = self.pending.pop();
        let keep = self.keeps(line);
        let mut words = LineWords::new();
        self.cache.copy_line(line, &mut words);
        bus.back(self.number, line, words.as_slice(), keep);
        self.change(Event::OwnBack, line);
        if keep {
            self.cache.set_mode(line, Mode::Shared);
        }
        self.end_victim(line);
        self.pending.acted(Turn::Request);
        Action::Back(line, keep)
    }

    /// Posts or fills the request of the want.
    fn request<P: BusPort>(&mut self, bus: &mut P) -> Action
        requires wanted { self.old.pending.want ≢ None }
        requires slot { IsOwnSlot self.old.number (P.side bus.old) }
        requires can { (want : Want) → self.old.pending.want ≡ Some want → CanRequest want.post want self.old (P.side bus.old).memory }
        ensures { (want : Want) → self.old.pending.want ≡ Some want →
            IsRequested want.post want self.old (P.side bus.old) (outcome result self.new (P.side bus.new)) }
    {
        let Some(want) = self.pending.want() else {
            unreachable!()
        };
        match want.post {
            None => self.post(&want, bus),
            Some(post) => self.fill(&want, post, bus),
        }
    }

    /// What the core does in its own slot. Whether its request can be served is asked only where it is posted.
    fn choose<P: BusPort>(&self, bus: &P) -> Choice
        requires { self.now.number < (P.side bus.now).memory.shape.cores }
        ensures { result ≡ choice_of (is_ready (P.side bus.now).memory self.now.number) self.now.pending }
    {
        if self.pending.is_posted() {
            self.pending.choose(bus.ready(self.number))
        } else {
            self.pending.choose(false)
        }
    }

    /// Does the action of the slot, which is the core's.
    pub fn act<P: BusPort>(&mut self, bus: &mut P) -> Action
        requires { CanAct self.old (P.side bus.old) }
        ensures acted { (job : JobValue) (slot c : ℕ) → IsPartAfter job slot c self.old → IsBusPart job slot (P.side bus.old) →
            IsActed job slot c result self.new (P.side bus.new) }
        ensures keeps { self.new.keeps ≡ self.old.keeps }
        ensures bus_keeps { (P.side bus.new).keeps ≡ (P.side bus.old).keeps }
    {
        let action = match self.choose(bus) {
            Choice::Idle => {
                bus.idle(self.number);
                Action::Idle
            }
            Choice::Request => self.request(bus),
            Choice::Back => self.write_back(bus),
        };
        self.slot += 1;
        self.phase_done = false;
        action
    }
}
