//! The debugger: runs a script over a job's machine, and gives the text that its commands print. The whole script is judged
//! before the machine takes its first slot; the first fault, from the top, is told in place of a text.
#![tactic(auto)]

mod moves;
mod printing;
mod running;
mod session;

pub use running::{debug, run_script};
