//! Traces: the actions of a bus, slot by slot, as text. Writes traces and reads them; the first fault of a text, from the
//! top, is told in place of a trace.
#![tactic(auto)]

mod actions;
mod fault;
mod fields;
pub mod laws;
mod parts;
mod reading;
mod row;
mod trace;
mod writing;

pub use fault::TraceFault;
pub use reading::read_trace;
pub use trace::{Actions, MAX_LINE, Trace};
pub use writing::{push_action_lines, write_actions, write_trace};
