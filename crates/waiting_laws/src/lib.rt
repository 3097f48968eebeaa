//! Waits are bounded in the written machine of every accepted job. The functions have empty bodies: their contracts are
//! laws of the definitions alone.
#![tactic(auto)]

ghost use Rattle.waiting_laws.specs.Laws.{LeftFalls, StartsBelowBound, LeftIsSome, AlwaysBounded, RowsAreBounded, RowsAreInOrder};

/// What is left for a want that still stands after a slot has fallen by one at least.
pub fn left_falls()
    ensures { LeftFalls }
{}

/// A want that began in a slot and outlives it has less than the bound left.
pub fn starts_below_bound()
    ensures { StartsBelowBound }
{}

/// At every boundary at least one slot is left for each want.
pub fn left_is_some()
    ensures { LeftIsSome }
{}

/// Every wait is within the bound.
pub fn always_bounded()
    ensures { AlwaysBounded }
{}

/// A completed request waited at most the bound, and every open one is younger.
pub fn rows_are_bounded()
    ensures { RowsAreBounded }
{}

/// A completed request's row has issue, post and fill in this order, and the fill before the boundary.
pub fn rows_are_in_order()
    ensures { RowsAreInOrder }
{}
