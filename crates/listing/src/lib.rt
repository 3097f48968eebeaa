//! The lines of what the program prints: each function appends a line, or a run of lines, to the bytes written so far.
//! The texts are those that `pmsi_model` defines. A call fails where memory runs out, and nothing else makes it fail.
#![tactic(auto)]

mod head;
mod memory;
mod merge;
mod requests;
mod rests;
mod sections;
mod touches;
mod waits;
mod whole;

pub use head::push_shape_line;
pub use waits::{push_bound_line, push_waits_line};
pub use whole::{listing, summary};
