//! Shared memory, with the owner and the requests of each line.
#![tactic(auto)]

mod entry;
mod memory;
mod owners;
mod requests;
mod stamps;
mod words;

pub use memory::SharedMemory;
