//! Executes instructions: what an instruction does to a core's registers and pc or asks of memory, and what an access does
//! to the aligned word that holds its address.
#![tactic(auto)]

mod access;
mod effect;
mod operations;
mod regs;

pub use access::{Applied, apply, number_at};
pub use effect::{Effect, exec};
pub use regs::Regs;

#[cfg(test)]
mod tests;
