//! Laws of the definitions: each function has an empty body, and its contract is the law.

ghost use Rattle.core_unit.specs.Laws.{BehindIsTold, PartsAfterAlike, PartsAlike};

/// What can be read of a core at a boundary is what its job, its number and the slot give.
pub fn parts_alike()
    ensures { PartsAlike }
{}

/// And so it is once the phase of the slot is done.
pub fn parts_after_alike()
    ensures { PartsAfterAlike }
{}

/// The state of a line for which a request is posted tells, before it is served, what the bus will say is left: of a write
/// whether nothing, reads alone or a write is behind it, of a read whether a write is.
pub fn behind_is_told()
    ensures { BehindIsTold }
{}
