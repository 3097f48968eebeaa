//! The shared bus, and the right of a core to meet it.
ghost use Rattle.std.specs.Prelude.{◌≡◌};
ghost use Rattle.bus_lock.specs.Rule.{Rests};

use crate::about::About;
use crate::rule::Locked;
use crate::view::View;
use atomic_table::{Seat, Table};
use bus_core::Bus;
use std::alloc::Global;

pub(crate) type Chair = Seat<Option<Bus>, View>;

pub(crate) type Place = atomic_table::Shared<Option<Bus>, View, About, Locked>;

/// A bus that any number of threads reach: one word is the lock, and holds the slot of the bus.
#[derive(Drop)]
pub struct SharedBus {
    pub(crate) table: Table<Option<Bus>, View, About, Locked, Global>,
    ghost sized: { (table.shared.table_id.words ≡ 1) × (table.shared.table_id.slots ≡ 1) },
}

/// The right of one core to meet a shared bus. Between calls it holds neither the lock nor the bus.
#[derive(Drop)]
pub struct BusSeat {
    pub(crate) chair: Chair,
    ghost rests: { Rests chair.me },
}
