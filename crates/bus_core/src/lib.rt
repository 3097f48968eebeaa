//! The bus: shared memory, whose slot it is, and the actions of the slots.
#![tactic(auto)]

mod bus;
pub mod laws;

pub use bus::Bus;
