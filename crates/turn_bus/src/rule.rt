//! The rule of the turn, the records and the bus, and what each kind of step does to the view of its seat.
ghost use Rattle.turn_bus.specs.Rule.{holds, first_of, spent_view, one_more, new_seat, with_joined, looked, noted, taken, stores, acted};

use crate::about::About;
use crate::view::View;
use atomic_table::{Join, Play, Split, TableRule};
use bus_core::Bus;

/// What lies in the table's one slot: the bus, or nothing while a seat has it.
pub type Lying = Option<Box<Bus>>;

pub struct Turning;

impl TableRule<Lying, View, About> for Turning {
    ghost holds = { holds };

    ghost first = { first_of };
}

/// A load of the turn.
pub struct Looks;

impl Play<Lying, View> for Looks {
    ghost then = { looked };
}

/// A load of the record of the seat's slot, which the bus has passed: the slot is over.
pub struct Notes;

impl Play<Lying, View> for Notes {
    ghost then = { noted };
}

/// A load of the turn by the owner of its slot, which has the bus from then on.
pub struct Takes;

impl Play<Lying, View> for Takes {
    ghost then = { taken };
}

/// The record of the slot is stored by its owner.
pub struct Stores;

impl Play<Lying, View> for Stores {
    ghost then = { stores };
}

/// The turn goes on, and the bus lies in its place again: the slot is over.
pub struct Acts;

impl Play<Lying, View> for Acts {
    ghost then = { acted };
}

/// A seat for the next core is made.
pub struct Opens;

impl Split<View> for Opens {
    ghost left = { one_more };

    ghost right = { new_seat };
}

/// A seat is joined into that of core 0.
pub struct Closes;

impl Join<View> for Closes {
    ghost both = { with_joined };

    ghost spent = { spent_view };
}
