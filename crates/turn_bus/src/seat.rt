//! The shared bus, and the right of a core to meet it.
ghost use Rattle.std.specs.Prelude.{◌≡◌, ◌+◌};
ghost use Rattle.pmsi_model.specs.Job.{IsJob};
ghost use Rattle.pmsi_model.specs.Slots.{gap_of};
ghost use Rattle.turn_bus.specs.Rule.{Rests};

use crate::about::About;
use crate::rule::{Lying, Turning};
use crate::view::View;
use atomic_table::{Seat, Table};
use pmsi_model::SlotTable;
use std::alloc::Global;

pub(crate) type Chair = Seat<Lying, View>;

pub(crate) type Place = atomic_table::Shared<Lying, View, About, Turning>;

/// A bus that any number of threads reach: one word is its turn, the slot at which it stands, and a ring of words has the
/// records of the last slots.
#[derive(Drop)]
pub struct TurnBus {
    pub(crate) table: Table<Lying, View, About, Turning, Global>,
    pub(crate) plan: SlotTable,
    ghost sized: { (table.shared.table_id.words ≡ gap_of plan + 1) × (table.shared.table_id.slots ≡ 1) },
}

/// The right of one core to meet a shared bus, and the core's slot. Between calls it doesn't have the bus.
#[derive(Drop)]
pub struct TurnSeat {
    pub(crate) chair: Chair,
    pub(crate) slot: u32,
    ghost rests: { Rests chair.me },
    ghost at: { slot ≡ chair.me.0.count },
    ghost within: { IsJob chair.me.0.job },
}
