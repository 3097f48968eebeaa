//! The files that a command reads, in the order in which it opens them, and what it comes to on them: a job with its
//! programs, a source, an image, or a script.
#![tactic(auto)]

mod files;
pub mod laws;
mod refusal;

pub use files::{read_image_file, read_job, read_planned, read_script_file, read_source};
pub use refusal::{Detail, Place, Stop};
