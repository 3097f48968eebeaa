//! Workers that bring cores to the last slot, each core with its seat at a shared bus.
#![tactic(auto)]

mod member;
mod worker;
mod zip;

pub use member::Member;
pub use worker::work;
pub use zip::{members_of, parted};
