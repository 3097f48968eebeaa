//! The work on members.
ghost use Rattle.std.specs.Prelude.{◌≡◌, ◌≢◌, ℕ, ◌<◌, false};
ghost use Rattle.pmsi_model.specs.Job.{JobValue};
ghost use Rattle.core_unit.specs.Parts.{IsPartAfter};
ghost use Rattle.turn_bus.specs.Answers.{IsIn, IsReady};
ghost use Rattle.turn_bus.specs.Seats.{IsOwn, view_of};
ghost use Rattle.core_worker.specs.Members.{AreMembers, AreOver, GoOn, GoesOn, IsMember, IsOver};

use crate::member::Member;
use core_unit::Core;
use pmsi_outside::Gate;
use slot_plan::owner;
use std::sync::Wait;
use std::{hint, thread};
use turn_bus::{Poll, TurnBus};

/// What a try of a member came to.
#[derive(Clone, Copy, Debug, PartialEq, Eq)]
enum Tried {
    /// The member's slots are over.
    Over,
    /// It has to wait for the bus.
    Waits,
    /// It ended a slot.
    Met,
}

/// What a round of tries came to.
#[derive(Clone, Copy, Debug, PartialEq, Eq)]
struct Round {
    /// Some member had slots left.
    slots_left: bool,
    /// Some member ended a slot.
    met: bool,
}

impl Round {
    /// The round with one more try.
    fn after(self, tried: Tried) -> Round
        ensures { result.slots_left ≡ false → (self.slots_left ≡ false) × (tried ≡ Tried.Over) }
    {
        Round {
            slots_left: self.slots_left || tried != Tried::Over,
            met: self.met || tried == Tried::Met,
        }
    }
}

/// Does the phase of the slot, unless it is done. The gate is told before.
fn ready<G: Gate>(core: &mut Core, gate: &G)
    requires { core.old.slot < core.old.shape.slots }
    ensures phase { (job : JobValue) (slot c : ℕ) → slot < job.shape.slots → IsIn job slot c core.old → IsPartAfter job slot c core.new }
    ensures keeps { core.new.keeps ≡ core.old.keeps }
{
    if !core.phase_done() {
        gate.before(core.number(), core.slot());
        core.phase();
    }
}

/// Ends the slot of a member whose phase is done, if it can: the slot's owner acts on the bus, and another core snoops what
/// the owner did, once the bus has passed the slot.
fn meet(bus: &TurnBus, member: &mut Member) -> Tried
    requires own { IsOwn bus.now member.old.seat }
    requires core { IsReady (view_of member.old.seat) member.old.core }
    ensures next { GoesOn bus.now member.old member.new }
    ensures over { result ≢ Tried.Over }
{
    let owner = owner(member.core.table(), member.core.slot());
    if owner == member.core.number() {
        bus.act(&mut member.seat, &mut member.core);
        return Tried::Met;
    }
    match bus.poll(&mut member.seat) {
        Poll::Seen(by, action) => {
            member.core.snoop(by, action);
            Tried::Met
        }
        Poll::NotYet(_) => Tried::Waits,
    }
}

/// One try of a member, where it has slots left.
fn go_on<G: Gate>(bus: &TurnBus, member: &mut Member, gate: &G) -> Tried
    requires { IsMember bus.now member.old }
    ensures next { GoesOn bus.now member.old member.new }
    ensures over { result ≡ Tried.Over → IsOver member.new }
{
    if member.core.slot() >= member.core.shape().slots {
        return Tried::Over;
    }
    ready(&mut member.core, gate);
    meet(bus, member)
}

/// One try of each member that has slots left.
fn go_round<G: Gate>(bus: &TurnBus, members: &mut [Member], gate: &G) -> Round
    requires { AreMembers bus.now members.old }
    ensures next { GoOn bus.now members.old members.new }
    ensures over { result.slots_left ≡ false → AreOver members.new }
{
    let mut round = Round {
        slots_left: false,
        met: false,
    };
    for k in 0..members.len() {
        let tried = go_on(bus, &mut members[k], gate);
        round = round.after(tried);
    }
    round
}

/// How many rounds in which each member has to wait a worker goes through at once, before it yields its processor.
const SPINS: u32 = 64;

/// Lets some time go by after a round of tries, where each member has to wait. The rounds of this kind so far, one after
/// another, are counted.
fn pause(idle: u32, met: bool) -> u32 {
    if met {
        return 0;
    }
    if idle < SPINS {
        hint::spin_loop();
        return idle + 1;
    }
    thread::yield_now();
    idle
}

/// Goes round the members until the slots of each are over. A member that has to wait for the bus is left for the next round;
/// after rounds in which each one waits the thread spins, and then yields its processor. The gate is told once before each
/// phase of each member.
pub fn work<R: Wait, G: Gate>(rt: &R, bus: &TurnBus, members: &mut [Member], gate: &G)
    requires { AreMembers bus.now members.old }
    ensures members { GoOn bus.now members.old members.new }
    ensures over { AreOver members.new }
{
    let mut idle = 0;
    for _ in rt.forever() {
        let round = go_round(bus, members, gate);
        if !round.slots_left {
            return;
        }
        idle = pause(idle, round.met);
    }
    unreachable!()
}
