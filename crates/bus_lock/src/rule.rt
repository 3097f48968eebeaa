//! The rule of the lock word and the bus, and what each kind of step does to the view of its seat.
ghost use Rattle.bus_lock.specs.Rule.{holds, first_of, spent_view, one_more, new_seat, with_joined, tried, released, slot_over, declined};

use crate::about::About;
use crate::view::View;
use atomic_table::{Join, Play, Split, TableRule};
use bus_core::Bus;

pub struct Locked;

impl TableRule<Option<Bus>, View, About> for Locked {
    ghost holds = { holds };

    ghost first = { first_of };
}

/// A try to take the lock.
pub struct Tries;

impl Play<Option<Bus>, View> for Tries {
    ghost then = { tried };
}

/// The lock is given up, and the slot of the seat's core is over.
pub struct EndsSlot;

impl Play<Option<Bus>, View> for EndsSlot {
    ghost then = { released slot_over };
}

/// The lock is given up with nothing done.
pub struct Declines;

impl Play<Option<Bus>, View> for Declines {
    ghost then = { released declined };
}

/// A seat for the next core is made.
pub struct Opens;

impl Split<View> for Opens {
    ghost left = { one_more };

    ghost right = { new_seat };
}

/// A seat is joined into that of core 0.
pub struct Closes;

impl Join<View> for Closes {
    ghost both = { with_joined };

    ghost spent = { spent_view };
}
