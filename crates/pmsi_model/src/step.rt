//! The steps of a core.

/// A step of one core, whose number it has: its phase of the slot that it is in, or its meeting with the bus, which ends
/// the slot.
#[derive(Clone, Copy, Debug, PartialEq, Eq)]
pub enum Step {
    Phase(u32),
    Meet(u32),
}

impl Step {
    ghost use Rattle.std.specs.Prelude.{◌≡◌};
    ghost use Rattle.pmsi_model.specs.Spreads.{core_in};

    /// The number of the core that takes it.
    pub fn core(self) -> u32
        ensures { result ≡ core_in self }
    {
        match self {
            Step::Phase(c) | Step::Meet(c) => c,
        }
    }
}
