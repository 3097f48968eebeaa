//! Cores and their bus that take steps in any order that the bus allows. Whatever the order was, each of them is the
//! written machine's, at a slot of its own.
#![tactic(auto)]

mod core_step;
pub mod laws;
mod meeting;
mod spread;
mod took;

pub use meeting::meet;
pub use pmsi_model::Step;
pub use spread::Spread;
pub use took::Took;
