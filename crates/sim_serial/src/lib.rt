//! The whole machine on one thread.
#![tactic(auto)]

mod cores;
mod sim;

pub use sim::Sim;
