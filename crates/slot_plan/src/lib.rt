//! Whose slot it is, by time division: a table gives the owners of a bus's slots. Slots count from 0.
#![tactic(auto)]

ghost use Rattle.std.specs.Prelude.{◌≡◌, ◌<◌, ◌≤◌};
ghost use Rattle.pmsi_model.specs.declared.limits.TheConstants.{MAX_SLOTS};
ghost use Rattle.pmsi_model.specs.Slots.{IsSlotPlan, distance as distance_to_own, gap_of, own_slots, owner_of_slot};
ghost use Rattle.slot_plan.specs.Plans.{IsNextOwn};

pub mod laws;

use pmsi_model::SlotTable;

/// The core that owns a slot.
pub fn owner(table: &SlotTable, slot: u32) -> u32
    requires { slot ≤ MAX_SLOTS }
    ensures owner { result ≡ owner_of_slot table.now slot }
    ensures below { result < table.now.cores }
{
    slot % table.cores()
}

/// The greatest number of slots from an own slot of a core to its next own one.
pub fn gap(table: &SlotTable) -> u32
    ensures gap { result ≡ gap_of table.now }
    ensures some { 1 ≤ result }
{
    table.cores()
}

/// The first own slot of a core from this slot on.
pub fn next_own(table: &SlotTable, core: u32, slot: u32) -> u32
    requires core { core < table.now.cores }
    requires slot { slot ≤ MAX_SLOTS }
    ensures { IsNextOwn table.now core slot result }
{
    slot + (distance(table, core, slot) - 1)
}

/// How many slots there are from this one up to and including the core's next own one.
pub fn distance(table: &SlotTable, core: u32, slot: u32) -> u32
    requires core { core < table.now.cores }
    requires slot { slot ≤ MAX_SLOTS }
    ensures distance { result ≡ distance_to_own table.now core slot }
    ensures some { 1 ≤ result }
    ensures within { result ≤ gap_of table.now }
    ensures plan { IsSlotPlan table.now }
{
    let cores = table.cores();
    let owner = owner(table, slot);
    if owner <= core {
        core - owner + 1
    } else {
        core + cores - owner + 1
    }
}

/// How many of the first slots are a core's own.
pub fn count_own(table: &SlotTable, core: u32, slots: u32) -> u32
    requires core { core < table.now.cores }
    requires slots { slots ≤ MAX_SLOTS }
    ensures { result ≡ own_slots table.now core slots }
{
    let mut count = 0;
    let mut slot = next_own(table, core, 0);
    while slot < slots {
        count += 1;
        slot = next_own(table, core, slot + 1);
    }
    count
}
