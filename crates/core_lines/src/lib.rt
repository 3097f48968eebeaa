//! The lines that are printed of one core: its pc and status, its registers, and the lines that it holds. Each function appends
//! one, as `pmsi_model` defines it, to the bytes written so far; it fails where memory runs out, and nothing else makes it fail.
#![tactic(auto)]

mod lines;

pub use lines::{push_core_line, push_held_line, push_regs_line};
