//! A bus that cores on any threads meet under a lock.
#![tactic(auto)]

mod about;
mod closing;
mod opening;
mod rule;
mod seat;
#[cfg(test)]
mod tests;
mod trying;
mod view;

pub use seat::{BusSeat, SharedBus};
pub use trying::Met;
