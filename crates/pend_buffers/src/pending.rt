//! What a core has to do on the bus.
ghost use Rattle.std.specs.Prelude.{◌≡◌, ◌≢◌, ◌<◌, ◌≤◌, [], ◌∷◌, ◌++◌, false, drop, length, is_some, Some, None, option_map};
ghost use Rattle.pmsi_model.specs.declared.limits.TheConstants.{MAX_CORES};
ghost use Rattle.pmsi_model.specs.declared.Turn.TheVariants.{Request as RequestTurn};
ghost use Rattle.pmsi_model.specs.Bus.{can_write_back, post_at};
ghost use Rattle.pmsi_model.specs.Machine.{has_line};
ghost use Rattle.pend_buffers.specs.Pending.{IsPending, can_ask, choice_of, first_in, is_posted, place_in, without_victim};

use crate::Choice;
use crate::queue::LineQueue;
use pmsi_model::{Turn, Want};
use std::marker::Model;

/// A core's outstanding want, its write-back queue and its turn. No call takes memory.
#[derive(Drop)]
pub struct Pending {
    cores: u32,
    want: Option<Want>,
    write_backs: LineQueue,
    turn: Turn,
}

impl Model for Pending {
    ghost use Rattle.pend_buffers.specs.Pending.{PendingValue, IsPending};

    ghost Value = { PendingValue };

    ghost view = { λ a. record { cores = a.cores; want = a.want; write_backs = a.write_backs; turn = a.turn } };

    ghost invariant = { λ a. IsPending (record { cores = a.cores; want = a.want; write_backs = a.write_backs; turn = a.turn }) };
}

/// Whether a want can be asked for: posted ones where they are ready to be served, others where no victim stands.
fn is_askable(want: Option<Want>, ready: bool) -> bool
    ensures { result ≡ can_ask ready want }
{
    match want {
        None => false,
        Some(want) if want.post.is_some() => ready,
        Some(want) => want.victim.is_none(),
    }
}

impl Pending {
    /// Nothing to do yet, on a bus with so many cores.
    pub fn new(cores: u32) -> Pending
        requires some { 1 ≤ cores }
        requires few { cores ≤ MAX_CORES }
        ensures { result ≡ record { cores = cores; want = None; write_backs = []; turn = RequestTurn } }
    {
        Pending {
            cores,
            want: None,
            write_backs: LineQueue::new(),
            turn: Turn::Request,
        }
    }

    /// An equal value, in a room of its own.
    pub fn copy(&self) -> Pending
        ensures { result ≡ self.now }
    {
        Pending {
            cores: self.cores,
            want: self.want,
            write_backs: self.write_backs.copy(),
            turn: self.turn,
        }
    }

    /// How many cores the bus has.
    pub fn cores(&self) -> u32
        ensures cores { result ≡ self.now.cores }
        ensures pending { IsPending self.now }
    {
        self.cores
    }

    /// What to do in an own slot; `ready` says that the posted request can be served.
    pub fn choose(&self, ready: bool) -> Choice
        ensures choice { result ≡ choice_of ready self.now }
        ensures pending { IsPending self.now }
    {
        let can_write_back = self.write_backs.is_waiting();
        if is_askable(self.want, ready) && (!can_write_back || self.turn == Turn::Request) {
            Choice::Request
        } else if can_write_back {
            Choice::Back
        } else {
            Choice::Idle
        }
    }

    /// The want; None where the core waits for no line.
    pub fn want(&self) -> Option<Want>
        ensures { result ≡ self.now.want }
    {
        self.want
    }

    /// Whether the core waits for a line.
    pub fn has_want(&self) -> bool
        ensures { result ≡ is_some self.now.want }
    {
        self.want.is_some()
    }

    /// Whether the core waits for a line whose request is posted.
    pub fn is_posted(&self) -> bool
        ensures { result ≡ is_posted self.now.want }
    {
        match self.want {
            None => false,
            Some(want) => want.post.is_some(),
        }
    }

    /// Begins a want, where none stands.
    pub fn set_want(&mut self, want: Want)
        requires { self.old.want ≡ None }
        ensures { self.new ≡ record self.old { want = Some want } }
    {
        self.want = Some(want);
    }

    /// The want's request was posted in this slot.
    pub fn posted(&mut self, slot: u32)
        requires { self.old.want ≢ None }
        ensures { self.new ≡ record self.old { want = option_map (post_at slot) self.old.want } }
    {
        self.want = self.want.map(|want| Want {
            post: Some(slot),
            ..want
        });
    }

    /// The victim of the want is written back.
    pub fn clear_victim(&mut self)
        requires { self.old.want ≢ None }
        ensures { self.new ≡ record self.old { want = option_map without_victim self.old.want } }
    {
        self.want = self.want.map(|want| Want {
            victim: None,
            ..want
        });
    }

    /// Ends the want, and gives it.
    pub fn take_want(&mut self) -> Want
        requires { self.old.want ≢ None }
        ensures want { self.old.want ≡ Some result }
        ensures after { self.new ≡ record self.old { want = None } }
    {
        let Some(want) = self.want.take() else {
            unreachable!()
        };
        want
    }

    /// Whether a line waits to be written back.
    pub fn is_waiting(&self) -> bool
        ensures { result ≡ can_write_back self.now.write_backs }
    {
        self.write_backs.is_waiting()
    }

    /// The line that is written back next.
    pub fn first(&self) -> Option<u32>
        ensures { result ≡ first_in self.now.write_backs }
    {
        self.write_backs.first()
    }

    /// The place of a line in the write-back queue, from 0.
    pub fn place(&self, line: u32) -> Option<u32>
        ensures place { result ≡ place_in line self.now.write_backs }
        ensures listed { is_some result ≡ has_line line self.now.write_backs }
    {
        self.write_backs.place(line)
    }

    /// The line waits last.
    pub fn push_back(&mut self, line: u32)
        requires room { length self.old.write_backs < self.old.cores }
        requires lacks { has_line line self.old.write_backs ≡ false }
        ensures { self.new ≡ record self.old { write_backs = self.old.write_backs ++ line ∷ [] } }
    {
        self.write_backs.push(line);
    }

    /// The first line waits no more.
    pub fn pop(&mut self) -> u32
        requires { 0 < length self.old.write_backs }
        ensures line { self.old.write_backs ≡ result ∷ self.new.write_backs }
        ensures after { self.new ≡ record self.old { write_backs = drop 1 self.old.write_backs } }
    {
        self.write_backs.pop()
    }

    /// Which of request and write-back goes first in the next own slot, where both are possible.
    pub fn turn(&self) -> Turn
        ensures { result ≡ self.now.turn }
    {
        self.turn
    }

    /// The core acted, and its turn is this one now.
    pub fn acted(&mut self, turn: Turn)
        ensures { self.new ≡ record self.old { turn = turn } }
    {
        self.turn = turn;
    }
}
