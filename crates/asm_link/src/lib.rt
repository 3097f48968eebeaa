//! Assembles a source: places its lines, gives names their values, and makes the image.
#![tactic(auto)]

mod assembler;
mod byte_map;
mod definitions;
mod emit;
mod fill;
mod later;
pub mod laws;
mod layout;
mod resolve;
mod step;
mod values;

pub use assembler::assemble;
