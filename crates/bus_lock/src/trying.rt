//! A try to meet the bus.
ghost use Rattle.std.specs.Prelude.{◌≡◌, ◌+◌, ◌*◌, [], IfOk, IfErr};
ghost use Rattle.pmsi_model.specs.Spreads.{Fits, IsMeet};
ghost use Rattle.core_unit.specs.Parts.{IsPartAfter};
ghost use Rattle.bus_lock.specs.Rule.{Rests, Takes, IsHolding, missed, slot_over, declined};
ghost use Rattle.turn_bus.specs.Sharing.{IsBusAt};
ghost use Rattle.bus_lock.specs.Answers.{Answers, SameSeat, StandsAt};
ghost use Rattle.bus_lock.specs.Seats.{IsOwn, view_of};

use crate::rule::{Declines, EndsSlot, Tries};
use crate::seat::{BusSeat, Chair, Place, SharedBus};
use bus_core::Bus;
use core_unit::Core;
use pmsi_model::{Action, BusPort};
use sim_steps::meet;

/// What a try to meet the bus came to.
#[derive(Clone, Copy, Debug, PartialEq, Eq)]
pub enum Met {
    /// The core's slot is over, with this action.
    Done(Action),
    /// The core doesn't own its slot, and the bus stands at it: here is its number.
    NotYet(u32),
    /// The lock was held, while the bus stood at this slot.
    Held(u32),
}

/// One `fetch_or` of the lock word. The bus, where the lock was free; else the slot that the word told.
fn take(place: &Place, chair: &mut Chair) -> Result<Bus, u32>
    requires table { (chair.old.table_id ≡ place.now.table_id) × (place.now.table_id.words ≡ 1) × (place.now.table_id.slots ≡ 1) }
    requires rests { Rests chair.old.me }
    ensures table { (chair.new.table_id ≡ chair.old.table_id) × (chair.new.id ≡ chair.old.id) }
    ensures ok { IfOk result (λ bus. Takes chair.old.me chair.new.me bus) }
    ensures err { IfErr result (λ turn. chair.new.me ≡ (missed chair.old.me.0 (2 * turn + 1), [])) }
{
    let found = place.fetch_or::<Tries>(chair, 0, 1);
    if found % 2 == 1 {
        return Err((found / 2) as u32);
    }
    let Some(bus) = place.exchange(chair, 0, None) else {
        unreachable!()
    };
    Ok(bus)
}

/// Puts the bus back and gives the lock up, once the bus and the seat's core have met.
fn end_slot(place: &Place, chair: &mut Chair, bus: Bus)
    requires table { (chair.old.table_id ≡ place.now.table_id) × (place.now.table_id.words ≡ 1) × (place.now.table_id.slots ≡ 1) }
    requires bus { IsBusAt chair.old.me.0.job chair.old.me.0.keeps bus.slot bus }
    requires seat { IsHolding chair.old.me }
    requires fits { Fits chair.old.me.0.job chair.old.me.0.number chair.old.me.0.count chair.old.me.0.at }
    requires meet { IsMeet chair.old.me.0.job chair.old.me.0.number chair.old.me.0.count chair.old.me.0.at (chair.old.me.0.count + 1) bus.slot }
    ensures table { (chair.new.table_id ≡ chair.old.table_id) × (chair.new.id ≡ chair.old.id) }
    ensures seat { chair.new.me ≡ (slot_over chair.old.me.0, []) }
{
    let next = bus.slot();
    let back = Some(bus);
    place.exchange(chair, 0, back);
    place.swap::<EndsSlot>(chair, 0, 2 * u64::from(next));
}

/// Puts the bus back as it was and gives the lock up.
fn decline(place: &Place, chair: &mut Chair, bus: Bus)
    requires table { (chair.old.table_id ≡ place.now.table_id) × (place.now.table_id.words ≡ 1) × (place.now.table_id.slots ≡ 1) }
    requires bus { IsBusAt chair.old.me.0.job chair.old.me.0.keeps bus.slot bus }
    requires seat { IsHolding chair.old.me }
    requires fits { Fits chair.old.me.0.job chair.old.me.0.number chair.old.me.0.count chair.old.me.0.at }
    requires at { chair.old.me.0.at ≡ bus.slot }
    ensures table { (chair.new.table_id ≡ chair.old.table_id) × (chair.new.id ≡ chair.old.id) }
    ensures seat { chair.new.me ≡ (declined chair.old.me.0, []) }
{
    let turn = bus.slot();
    place.exchange(chair, 0, Some(bus));
    place.swap::<Declines>(chair, 0, 2 * u64::from(turn));
}

/// One try, by the seat's part of the table.
fn try_chair(place: &Place, chair: &mut Chair, core: &mut Core) -> Met
    requires table { (chair.old.table_id ≡ place.now.table_id) × (place.now.table_id.words ≡ 1) × (place.now.table_id.slots ≡ 1) }
    requires rests { Rests chair.old.me }
    requires core { IsPartAfter chair.old.me.0.job chair.old.me.0.count chair.old.me.0.number core.old }
    ensures table { (chair.new.table_id ≡ chair.old.table_id) × (chair.new.id ≡ chair.old.id) }
    ensures rests { Rests chair.new.me }
    ensures same { SameSeat chair.old.me.0 chair.new.me.0 }
    ensures core { StandsAt chair.new.me.0 core.new }
    ensures keeps { core.new.keeps ≡ core.old.keeps }
    ensures answer { Answers chair.old.me.0 chair.new.me.0 core.old core.new result }
{
    let mut bus = match take(place, chair) {
        Ok(bus) => bus,
        Err(turn) => return Met::Held(turn),
    };
    let Some(action) = meet(core, &mut bus) else {
        let turn = bus.slot();
        decline(place, chair, bus);
        return Met::NotYet(turn);
    };
    end_slot(place, chair, bus);
    Met::Done(action)
}

impl SharedBus {
    /// One try of a core to end its slot: it acts in a slot of its own, and snoops the action of another core's slot that
    /// the bus has passed. It waits for nobody and takes no memory.
    pub fn try_meet(&self, seat: &mut BusSeat, core: &mut Core) -> Met
        requires own { IsOwn self.now seat.old }
        requires core { IsPartAfter (view_of seat.old).job (view_of seat.old).count (view_of seat.old).number core.old }
        ensures own { IsOwn self.now seat.new }
        ensures same { SameSeat (view_of seat.old) (view_of seat.new) }
        ensures core { StandsAt (view_of seat.new) core.new }
        ensures keeps { core.new.keeps ≡ core.old.keeps }
        ensures answer { Answers (view_of seat.old) (view_of seat.new) core.old core.new result }
    {
        try_chair(&self.table.shared, &mut seat.chair, core)
    }
}
