//! Laws of the definitions: each function has an empty body, and its contract is the law.

ghost use Rattle.bus_core.specs.Agree.{BusPartsAgree};

/// Two buses of one job at one slot agree in all that can be read of them, where both or neither keep the actions.
pub fn bus_parts_agree()
    ensures { BusPartsAgree }
{}
