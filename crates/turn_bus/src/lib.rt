//! A bus that cores on any threads meet without a lock: its turn is a word, and the records of its last slots are words.
#![tactic(auto)]

mod about;
mod closing;
mod numbers;
mod opening;
mod polling;
mod rule;
mod seat;
#[cfg(test)]
mod tests;
mod view;

pub use numbers::{action_of, actions_come_back, number_of};
pub use polling::Poll;
pub use seat::{TurnBus, TurnSeat};
