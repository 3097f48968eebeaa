//! Laws of the definitions: each function has an empty body, and its contract is the law.

ghost use Rattle.rv_decode.specs.Ranges.{RangesAreRows};

/// An instruction has a row exactly where its fields are in range.
pub fn ranges()
    ensures { RangesAreRows }
{}
