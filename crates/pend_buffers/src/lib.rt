//! A core's side of the bus: its outstanding want, its write-back queue and its turn, and the choice between them.
#![tactic(auto)]

mod pending;
mod queue;

pub use pending::Pending;

/// What a core does in its own slot.
#[derive(Clone, Copy, Debug, PartialEq, Eq)]
pub enum Choice {
    Idle,
    /// Its request is posted or served.
    Request,
    /// The first line of its write-back queue is written back.
    Back,
}
