//! Whose slots they are, as a value.
ghost use Rattle.std.specs.Prelude.{◌≡◌, ◌≤◌};
ghost use Rattle.pmsi_model.specs.declared.limits.TheConstants.{MAX_CORES};

use std::marker::Model;

/// The owners of the slots of a bus, by time division. So far the cores own the slots in turn, core 0 the first.
#[derive(Drop)]
pub struct SlotTable {
    cores: u32,
}

impl Model for SlotTable {
    ghost use Rattle.pmsi_model.specs.Slots.{SlotPlan, IsSlotPlan};

    ghost Value = { SlotPlan };

    ghost view = { λ a. record { cores = a.cores } };

    ghost invariant = { λ a. IsSlotPlan (record { cores = a.cores }) };
}

impl SlotTable {
    ghost use Rattle.pmsi_model.specs.Slots.{IsSlotPlan, plain_plan};

    /// The table in which so many cores own one slot each of a period, by their number.
    pub fn plain(cores: u32) -> SlotTable
        requires some { 1 ≤ cores }
        requires few { cores ≤ MAX_CORES }
        ensures { result ≡ plain_plan cores }
    {
        SlotTable { cores }
    }

    /// How many cores own slots.
    pub fn cores(&self) -> u32
        ensures value { result ≡ self.now.cores }
        ensures within { IsSlotPlan self.now }
    {
        self.cores
    }

    /// An equal table. It takes no memory.
    pub fn copy(&self) -> SlotTable
        ensures { result ≡ self.now }
    {
        SlotTable { cores: self.cores }
    }
}
