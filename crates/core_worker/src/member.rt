//! A core with its seat.
use core_unit::Core;
use turn_bus::TurnSeat;

/// A core, and its right to meet the bus.
#[derive(Drop)]
pub struct Member {
    pub core: Core,
    pub seat: TurnSeat,
}
