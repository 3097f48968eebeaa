//! One core: its phase of a slot, its action in an own slot, and what it learns by snooping another core's action.
#![tactic(auto)]

mod action;
mod change;
pub mod laws;
mod opening;
mod phase;
mod program;
mod reserved;
mod retire;
mod snoop;
mod state;
mod unit;

pub use opening::open_cores;
pub use unit::Core;
