//! The outside world as the program meets it: files by name, sinks of bytes, and a gate before each phase. Each is a
//! trait with a count of faults; beside it stand versions in memory, and thin adapters over std.
#![tactic(auto)]

mod files;
mod memory;
mod real;
mod sink;
mod whole;

pub use files::{Failed, Files, Gate};
pub use memory::{MemoryFiles, MemorySink, NullSink, OpenGate, SteadyFiles};
pub use real::{DiskFiles, StdSink};
pub use sink::Sink;
pub use whole::{ReadAll, read_whole, write_whole};

#[cfg(test)]
mod tests;
