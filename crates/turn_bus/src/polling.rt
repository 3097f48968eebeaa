//! A look at the bus by a core that waits for it, and the action of a core in a slot of its own.
ghost use Rattle.std.specs.Prelude.{◌≡◌, ◌+◌, ◌<◌, [], ◌∷◌, None};
ghost use Rattle.pmsi_model.specs.Job.{IsJob};
ghost use Rattle.pmsi_model.specs.Run.{record_at};
ghost use Rattle.pmsi_model.specs.Slots.{gap_of, plan_of};
ghost use Rattle.turn_bus.specs.Answers.{Answers, CanPoll, HasActed, IsReady, OwnsSlot, SameSeat};
ghost use Rattle.turn_bus.specs.Rule.{IsHolding, Rests, has_acted, has_bus, has_stored, word_of_slot};
ghost use Rattle.turn_bus.specs.Sharing.{IsBusAt};
ghost use Rattle.turn_bus.specs.Seats.{IsOwn, view_of};

use crate::numbers::{action_of, number_of};
use crate::rule::{Acts, Looks, Notes, Stores, Takes};
use crate::seat::{Chair, Place, TurnBus, TurnSeat};
use bus_core::Bus;
use core_unit::Core;
use pmsi_model::{Action, SlotTable};
use slot_plan::{gap, owner};

/// What a look at the bus came to.
#[derive(Clone, Copy, Debug, PartialEq, Eq)]
pub enum Poll {
    /// The bus has passed the core's slot: here is the slot's owner, and what it did.
    Seen(u32, Action),
    /// The bus stands at the core's slot: here is its number.
    NotYet(u32),
}

/// The word of the record of a slot.
fn word_of(plan: &SlotTable, slot: u32) -> usize
    ensures word { result ≡ word_of_slot plan.now slot }
    ensures within { result < gap_of plan.now + 1 }
{
    1 + (slot % gap(plan)) as usize
}

/// One load of the turn, and where it is past the slot one of the slot's record.
fn look(place: &Place, chair: &mut Chair, plan: &SlotTable, slot: u32) -> Poll
    requires table { (chair.old.table_id ≡ place.now.table_id) × (place.now.table_id.words ≡ gap_of plan.now + 1) }
    requires plan { plan.now ≡ plan_of chair.old.me.0.job }
    requires rests { Rests chair.old.me }
    requires within { IsJob chair.old.me.0.job }
    requires at { slot ≡ chair.old.me.0.count }
    requires can { CanPoll chair.old.me.0 }
    ensures table { (chair.new.table_id ≡ chair.old.table_id) × (chair.new.id ≡ chair.old.id) }
    ensures rests { Rests chair.new.me }
    ensures same { SameSeat chair.old.me.0 chair.new.me.0 }
    ensures answer { Answers chair.old.me.0 chair.new.me.0 result }
{
    let turn = place.load::<Looks>(chair, 0) as u32;
    if turn <= slot {
        return Poll::NotYet(turn);
    }
    let word = word_of(plan, slot);
    let number = place.load::<Notes>(chair, word);
    Poll::Seen(owner(plan, slot), action_of(number))
}

/// One load of the turn, which stands at the seat's own slot, and the bus.
fn take(place: &Place, chair: &mut Chair) -> Box<Bus>
    requires table { (chair.old.table_id ≡ place.now.table_id) × (place.now.table_id.slots ≡ 1) }
    requires some { 0 < place.now.table_id.words }
    requires rests { Rests chair.old.me }
    requires more { chair.old.me.0.count < chair.old.me.0.job.shape.slots }
    requires own { OwnsSlot chair.old.me.0 }
    ensures table { (chair.new.table_id ≡ chair.old.table_id) × (chair.new.id ≡ chair.old.id) }
    ensures seat { chair.new.me ≡ (has_bus chair.old.me.0, (0, None) ∷ []) }
    ensures bus { IsBusAt chair.old.me.0.job chair.old.me.0.keeps chair.old.me.0.count result.value }
{
    place.load::<Takes>(chair, 0);
    let Some(bus) = place.exchange(chair, 0, None) else {
        unreachable!()
    };
    bus
}

/// Puts the bus back after the action of the seat's slot, stores the record, and lets the turn go on.
fn give(place: &Place, chair: &mut Chair, bus: Box<Bus>, action: Action, word: usize)
    requires table { (chair.old.table_id ≡ place.now.table_id) × (place.now.table_id.slots ≡ 1) }
    requires word { word ≡ word_of_slot (plan_of chair.old.me.0.job) chair.old.me.0.count }
    requires within { word < place.now.table_id.words }
    requires seat { IsHolding chair.old.me }
    requires action { action ≡ record_at chair.old.me.0.job chair.old.me.0.count }
    requires bus { IsBusAt chair.old.me.0.job chair.old.me.0.keeps (chair.old.me.0.count + 1) bus.value }
    ensures table { (chair.new.table_id ≡ chair.old.table_id) × (chair.new.id ≡ chair.old.id) }
    ensures seat { chair.new.me ≡ (has_acted (has_stored chair.old.me.0), []) }
{
    let back = Some(bus);
    place.exchange(chair, 0, back);
    let number = number_of(action);
    place.store::<Stores>(chair, word, number);
    place.fetch_add::<Acts>(chair, 0, 1);
}

/// The action of the seat's own slot, by the seat's part of the table.
fn act_chair(place: &Place, chair: &mut Chair, core: &mut Core, word: usize) -> Action
    requires table { (chair.old.table_id ≡ place.now.table_id) × (place.now.table_id.slots ≡ 1) }
    requires word { word ≡ word_of_slot (plan_of chair.old.me.0.job) chair.old.me.0.count }
    requires within { word < place.now.table_id.words }
    requires rests { Rests chair.old.me }
    requires core { IsReady chair.old.me.0 core.old }
    requires own { OwnsSlot chair.old.me.0 }
    ensures table { (chair.new.table_id ≡ chair.old.table_id) × (chair.new.id ≡ chair.old.id) }
    ensures rests { Rests chair.new.me }
    ensures same { SameSeat chair.old.me.0 chair.new.me.0 }
    ensures keeps { core.new.keeps ≡ core.old.keeps }
    ensures answer { HasActed chair.old.me.0 chair.new.me.0 result core.new }
{
    let mut bus = take(place, chair);
    let action = core.act(&mut *bus);
    give(place, chair, bus, action, word);
    action
}

impl TurnBus {
    /// One look at the bus by a core whose slot another core owns. Where the bus has passed the slot, the answer is for the
    /// core to snoop. It waits for nobody and takes no memory.
    pub fn poll(&self, seat: &mut TurnSeat) -> Poll
        requires own { IsOwn self.now seat.old }
        requires can { CanPoll (view_of seat.old) }
        ensures own { IsOwn self.now seat.new }
        ensures same { SameSeat (view_of seat.old) (view_of seat.new) }
        ensures answer { Answers (view_of seat.old) (view_of seat.new) result }
    {
        let poll = look(&self.table.shared, &mut seat.chair, &self.plan, seat.slot);
        if let Poll::Seen(..) = poll {
            seat.slot += 1;
        }
        poll
    }

    /// The action of a core in a slot of its own, at which the bus then stands. It waits for nobody and takes no memory.
    pub fn act(&self, seat: &mut TurnSeat, core: &mut Core) -> Action
        requires own { IsOwn self.now seat.old }
        requires core { IsReady (view_of seat.old) core.old }
        requires owner { OwnsSlot (view_of seat.old) }
        ensures own { IsOwn self.now seat.new }
        ensures same { SameSeat (view_of seat.old) (view_of seat.new) }
        ensures keeps { core.new.keeps ≡ core.old.keeps }
        ensures answer { HasActed (view_of seat.old) (view_of seat.new) result core.new }
    {
        let word = word_of(&self.plan, seat.slot);
        let action = act_chair(&self.table.shared, &mut seat.chair, core, word);
        seat.slot += 1;
        action
    }
}
