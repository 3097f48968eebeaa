//! Scripts of the debugger as text, with the definitions of what they mean and of what they write. Reads scripts; the first fault
//! of a text, from the top, is told in place of its commands.
#![tactic(auto)]

mod command;
pub mod examples;
mod fault;
mod line;
mod numbers;
mod script;

pub use command::{Breakpoint, Command};
pub use fault::{ScriptCause, ScriptFault};
pub use script::read_script;
