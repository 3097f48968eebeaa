//! The named states of the cores' lines in the written machine of every accepted job: they change by the table alone, and
//! each means what its name says. The functions have empty bodies: their contracts are laws of the definitions alone.
#![tactic(auto)]

ghost use Rattle.state_laws.specs.Laws.{ActionsFollow, NeverWithoutEntry, StatesFollow};
ghost use Rattle.state_laws.specs.Cases.{StatesAreCases};

/// From one slot boundary to the next the state of each line in each core changes by the table alone: on the choices that
/// the core's phase makes, and on the slot's action, as the core does or sees it.
pub fn states_follow()
    ensures { StatesFollow }
{}

/// The same from the phases of a slot to the next boundary, on the slot's action alone.
pub fn actions_follow()
    ensures { ActionsFollow }
{}

/// A pair of state and event without an entry in the table is never met in a run.
pub fn never_without_entry()
    ensures { NeverWithoutEntry }
{}

/// At each slot boundary, and when the phases of a slot are done, each line in each core is in exactly one of the twelve
/// cases, which is that of its named state.
pub fn cases()
    ensures { StatesAreCases }
{}
