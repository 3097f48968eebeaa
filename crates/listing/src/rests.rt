//! What is still to be printed of each core, and the pieces of a slot.
ghost use Rattle.std.specs.Prelude.{◌≡◌, ◌==◌, ◌++◌, map, take, OnOk};
ghost use Rattle.std.specs.List.{flat_map, prefix_len};
ghost use Rattle.listing.specs.Rests.{fills, phase_count, without_rows, without_touches};
ghost use Rattle.listing.specs.Pieces.{piece_text, past_piece};

use crate::requests::push_row_lines;
use crate::touches::push_touch_lines;
use pmsi_model::{Row, Touch};
use std::alloc::AllocError;
use std::marker::Model;

/// A piece of what a core has in a slot.
#[derive(Clone, Copy)]
pub enum Piece {
    /// The request that was served.
    Row,
    /// The accesses of its phase.
    Phase,
    /// The access of its fill.
    Fill,
}

/// How many accesses, from the first on, are of a slot.
fn count_in(touches: &[Touch], slot: u32) -> usize
    ensures { result ≡ prefix_len (λ touch. touch.slot == slot) touches.now }
{
    touches
        .iter()
        .take_while(|touch| touch.slot == slot)
        .count()
}

/// What is still to be printed of one core, by slot.
#[derive(Drop)]
pub struct Rest<'a> {
    rows: &'a [Row],
    touches: &'a [Touch],
}

impl<'a> Model for Rest<'a> {
    ghost use Rattle.listing.specs.Rests.{RestValue};

    ghost Value = { RestValue };

    ghost view = { λ a. record { rows = a.rows.now; touches = a.touches.now } };
}

impl<'a> Rest<'a> {
    /// What a core has done, from its first slot on.
    pub fn new(rows: &'a [Row], touches: &'a [Touch]) -> Rest<'a>
        ensures { result ≡ record { rows = rows.now; touches = touches.now } }
    {
        Rest { rows, touches }
    }

    /// How many fills the core did in a slot.
    fn fills(&self, slot: u32) -> usize
        ensures { result ≡ fills slot self.now }
    {
        match self.rows.first() {
            Some(row) if row.fill == slot => 1,
            _ => 0,
        }
    }

    /// How many accesses the core did in its phase of a slot.
    fn phase_count(&self, slot: u32) -> usize
        ensures { result ≡ phase_count slot self.now }
    {
        count_in(self.touches, slot).saturating_sub(self.fills(slot))
    }

    fn take_rows(&mut self, count: usize) -> &'a [Row]
        ensures taken { result.now ≡ take count self.old.rows }
        ensures rest { self.new ≡ without_rows count self.old }
    {
        let (now, rest) = self.rows.split_at(count.min(self.rows.len()));
        self.rows = rest;
        now
    }

    fn take_touches(&mut self, count: usize) -> &'a [Touch]
        ensures taken { result.now ≡ take count self.old.touches }
        ensures rest { self.new ≡ without_touches count self.old }
    {
        let (now, rest) = self.touches.split_at(count.min(self.touches.len()));
        self.touches = rest;
        now
    }
}

/// Appends a piece of what a core has in a slot.
fn push_piece(
    out: &mut Vec<u8>,
    rest: &mut Rest<'_>,
    piece: Piece,
    slot: u32,
) -> Result<(), AllocError>
    ensures { OnOk result ((out.new.items ≡ out.old.items ++ piece_text piece slot rest.old) × (rest.new ≡ past_piece piece slot rest.old)) }
{
    match piece {
        Piece::Row => match rest.fills(slot) {
            0 => Ok(()),
            count => push_row_lines(out, rest.take_rows(count)),
        },
        Piece::Phase => {
            let count = rest.phase_count(slot);
            push_touch_lines(out, rest.take_touches(count))
        }
        Piece::Fill => {
            let count = rest.fills(slot);
            rest.take_rows(count);
            push_touch_lines(out, rest.take_touches(count))
        }
    }
}

/// Appends a piece of what each core has in a slot, by core.
pub fn push_pieces(
    out: &mut Vec<u8>,
    rests: &mut [Rest<'_>],
    piece: Piece,
    slot: u32,
) -> Result<(), AllocError>
    ensures { OnOk result ((out.new.items ≡ out.old.items ++ flat_map (piece_text piece slot) rests.old)
        × (rests.new ≡ map (past_piece piece slot) rests.old)) }
{
    for c in 0..rests.len() {
        push_piece(out, &mut rests[c], piece, slot)?;
    }
    Ok(())
}
