//! From words to instructions and back, by the instruction table.
#![tactic(auto)]

mod decoder;
mod encoder;
mod fields;
mod formats;
pub mod laws;
mod opcodes;

pub use decoder::decode;
pub use encoder::encode;
