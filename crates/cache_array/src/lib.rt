//! One core's cache: its lines with their modes and words, most recently used first.
#![tactic(auto)]

mod address;
mod ages;
mod cache;
mod entry;
mod line;
mod order;
mod places;

pub use address::line_of;
pub use cache::{CacheArray, Found};
pub use line::{CachedLine, CachedWords};
