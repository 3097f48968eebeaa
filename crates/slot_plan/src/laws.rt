//! Laws of the definitions: each function has an empty body, and its contract is the law.

ghost use Rattle.slot_plan.specs.Plans.{DistanceToNextOwn};

/// The distance counts the slots up to and including the next own one.
pub fn distances()
    ensures { DistanceToNextOwn }
{}
