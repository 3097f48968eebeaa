//! What a step came to.

#[derive(Clone, Copy, Debug, PartialEq, Eq)]
pub enum Took {
    Done,
    /// The core doesn't own its slot, and the bus stands at it: here is its number.
    NotYet(u32),
    /// The step is out of its order: a phase that is done, or a meeting before its phase.
    Again,
    /// The core's slots are over.
    Over,
}
