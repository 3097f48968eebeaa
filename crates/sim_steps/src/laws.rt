//! Laws of the definitions: each function has an empty body, and its contract is the law.

ghost use Rattle.sim_steps.specs.Laws.{EndsAreAlike, EndsAreEqual, SpreadsAreParts, WaitsAtItsSlot};

/// Whatever the steps were and their order, a Spread is the machine in parts, each at its count: no core is past the bus,
/// and the bus isn't past any core's next own slot. A core waits only at a slot of another core, where the bus stands.
pub fn spreads()
    ensures parts { SpreadsAreParts }
    ensures waits { WaitsAtItsSlot }
{}

/// Two lists of steps that bring each core to its last slot leave the machine's end, and all that can be read of them is
/// equal.
pub fn ends()
    ensures alike { EndsAreAlike }
    ensures equal { EndsAreEqual }
{}
