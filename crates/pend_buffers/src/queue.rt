//! The lines that a core has to write back, in order.
ghost use Rattle.std.specs.Prelude.{◌≡◌, ◌<◌, [], ◌∷◌, ◌++◌, length, IfSome, is_some};
ghost use Rattle.pmsi_model.specs.declared.limits.TheConstants.{MAX_CORES};
ghost use Rattle.pmsi_model.specs.Bus.{can_write_back};
ghost use Rattle.pmsi_model.specs.Machine.{has_line};
ghost use Rattle.pend_buffers.specs.Pending.{first_in, place_in};

use arrayvec::ArrayVec;
use pmsi_model::limits::CORES_ROOM;
use std::marker::Model;

/// A queue of lines in a fixed room.
#[derive(Drop)]
pub struct LineQueue {
    items: ArrayVec<u32, CORES_ROOM>,
}

impl Model for LineQueue {
    ghost use Rattle.std.specs.Prelude.{ℕ, List};

    ghost Value = { List ℕ };

    ghost view = { λ a. a.items.items };
}

/// The place of a line in a list.
fn place_of(lines: &[u32], line: u32) -> Option<usize>
    ensures place { result ≡ place_in line lines.now }
    ensures listed { is_some result ≡ has_line line lines.now }
    ensures within { IfSome result (λ place. place < length lines.now) }
{
    lines.iter().position(|item| *item == line)
}

impl LineQueue {
    /// No lines. There is room for one line per core of the greatest bus.
    pub fn new() -> LineQueue
        ensures { result ≡ [] }
    {
        LineQueue {
            items: ArrayVec::new(),
        }
    }

    /// An equal queue, in a room of its own.
    pub fn copy(&self) -> LineQueue
        ensures { result ≡ self.now }
    {
        let mut items = ArrayVec::new();
        let Ok(()) = items.try_extend_from_slice(self.items.as_slice()) else {
            unreachable!()
        };
        LineQueue { items }
    }

    /// Whether there is a line.
    pub fn is_waiting(&self) -> bool
        ensures { result ≡ can_write_back self.now }
    {
        !self.items.is_empty()
    }

    /// The line that has been in the queue longest; None where there is none.
    pub fn first(&self) -> Option<u32>
        ensures { result ≡ first_in self.now }
    {
        self.items.as_slice().first().copied()
    }

    /// The place of a line, from 0.
    pub fn place(&self, line: u32) -> Option<u32>
        ensures place { result ≡ place_in line self.now }
        ensures listed { is_some result ≡ has_line line self.now }
    {
        Some(place_of(self.items.as_slice(), line)? as u32)
    }

    /// The line goes last.
    pub fn push(&mut self, line: u32)
        requires { length self.old < MAX_CORES }
        ensures { self.new ≡ self.old ++ line ∷ [] }
    {
        self.items.push(line);
    }

    /// Takes the first line.
    pub fn pop(&mut self) -> u32
        requires { 0 < length self.old }
        ensures { self.old ≡ result ∷ self.new }
    {
        self.items.remove(0)
    }
}
