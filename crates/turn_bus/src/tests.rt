//! Three cores that meet their bus on one thread.
ghost use Rattle.std.specs.Prelude.{ℕ, ◌<◌, ◌≤◌, ◌^◌, IfOk, length};
ghost use Rattle.std.specs.List.{All};
ghost use Rattle.pmsi_model.specs.declared.limits.TheConstants.{MAX_TEXT_WORDS};
ghost use Rattle.pmsi_model.specs.Job.{JobValue};
ghost use Rattle.core_unit.specs.Parts.{IsPartAfter};
ghost use Rattle.turn_bus.specs.Answers.{IsIn, SameSeat, StandsAt};
ghost use Rattle.turn_bus.specs.Seats.{IsOwn, view_of};
ghost use Rattle.turn_bus.specs.TestRuns.{AreHere};

use crate::{Poll, TurnBus, TurnSeat};
use bus_core::Bus;
use core_unit::{Core, open_cores};
use pmsi_model::{Action, BusPort, Bytes, Geometry, Job, Keep, Name, NoMemory, WordLists, Words};
use slot_plan::owner;
use std::alloc::Global;
use std::process::Abort;

/// `addi x5, x0, 7`, `sw x5, 0(x0)` and `ecall`
const WRITES_7: [u32; 3] = [0x0070_0293, 0x0050_2023, 0x0000_0073];

const CORES: u32 = 3;

/// The actions of the slots, by the rules of the machine. Core 1 is the first to ask for line 0, then cores 2 and 0.
const ACTIONS: [Action; 12] = [
    Action::Idle,
    Action::PostFill(Name::GetM, 0),
    Action::Post(Name::GetM, 0),
    Action::Post(Name::GetM, 0),
    Action::Back(0, false),
    Action::Fill(0),
    Action::Idle,
    Action::Idle,
    Action::Back(0, false),
    Action::Fill(0),
    Action::Idle,
    Action::Idle,
];

fn text(alloc: Global) -> Result<Words, NoMemory>
    ensures size { IfOk result (λ text. length text ≤ MAX_TEXT_WORDS) }
    ensures words { IfOk result (λ text. All (λ word. word < 2 ^ 32) text) }
{
    Ok(Words::from_vec(WRITES_7.as_slice().to_vec(alloc)?))
}

/// Each core stores 7 at address 0.
fn all_write(rt: &impl Abort, alloc: Global) -> Result<Job, NoMemory> {
    let shape = Geometry {
        cores: CORES,
        quantum: 1,
        line_words: 4,
        sets: 1,
        ways: 1,
        memory: 64,
        slots: ACTIONS.len() as u32,
    };
    assert!(rt; shape.is_within_limits());
    let texts = Vec::from_array(alloc, [text(alloc)?, text(alloc)?, text(alloc)?])?;
    let start = vec![in alloc; 0; 64]?;
    Ok(Job::new(shape, WordLists::from_vec(texts), Bytes::from_vec(start)))
}

/// The phase of a core, unless it is done.
fn ready(core: &mut Core)
    requires { core.old.slot < core.old.shape.slots }
    ensures { (job : JobValue) (slot c : ℕ) → slot < job.shape.slots → IsIn job slot c core.old → IsPartAfter job slot c core.new }
{
    if !core.phase_done() {
        core.phase();
    }
}

/// A meeting of a core, its phase done: the action of its own slot, or a look at the bus.
fn meet(rt: &impl Abort, bus: &TurnBus, seat: &mut TurnSeat, core: &mut Core) -> Poll
    requires own { IsOwn bus.now seat.old }
    requires core { StandsAt (view_of seat.old) core.old }
    ensures own { IsOwn bus.now seat.new }
    ensures same { SameSeat (view_of seat.old) (view_of seat.new) }
    ensures core { StandsAt (view_of seat.new) core.new }
{
    assert!(rt; core.slot() < core.shape().slots);
    ready(core);
    let owner = owner(core.table(), core.slot());
    if owner == core.number() {
        return Poll::Seen(owner, bus.act(seat, core));
    }
    let poll = bus.poll(seat);
    if let Poll::Seen(by, action) = poll {
        core.snoop(by, action);
    }
    poll
}

/// The cores of a job, with their seats at its bus.
#[derive(Drop)]
struct Machine {
    job: Job,
    bus: TurnBus,
    seats: Vec<TurnSeat>,
    cores: Vec<Core>,
}

impl Machine {
    /// Before the first slot.
    fn open(alloc: Global, job: Job) -> Result<Machine, NoMemory>
        ensures { IfOk result (λ m. AreHere m.bus m.job m.seats.items m.cores.items) }
    {
        let keep = Keep {
            trace: true,
            touches: false,
        };
        let cores = open_cores(alloc, &job, keep)?;
        let (bus, seats) = TurnBus::open(alloc, Bus::open(alloc, &job, keep)?, &job)?;
        Ok(Machine {
            job,
            bus,
            seats,
            cores,
        })
    }

    /// A meeting of a core.
    fn meet(&mut self, rt: &impl Abort, c: usize) -> Poll
        requires { AreHere self.old.bus self.old.job self.old.seats.items self.old.cores.items }
        ensures { AreHere self.new.bus self.new.job self.new.seats.items self.new.cores.items }
    {
        assert!(rt; c < self.cores.len());
        meet(rt, &self.bus, &mut self.seats[c], &mut self.cores[c])
    }

    /// Meetings of a core until it has to wait, or is at the last slot.
    fn go_on(&mut self, rt: &impl Abort, c: usize)
        requires { AreHere self.old.bus self.old.job self.old.seats.items self.old.cores.items }
        ensures { AreHere self.new.bus self.new.job self.new.seats.items self.new.cores.items }
    {
        assert!(rt; c < self.cores.len());
        for slot in self.cores[c].slot() as usize..ACTIONS.len() {
            match self.meet(rt, c) {
                Poll::Seen(by, action) => {
                    assert_eq!(rt; (by, action), (slot as u32 % CORES, ACTIONS[slot]));
                }
                Poll::NotYet(turn) => {
                    assert_eq!(rt; turn, slot as u32);
                    return;
                }
            }
        }
    }

    /// The bus, where each core is at the last slot.
    fn close(self, rt: &impl Abort) -> Bus
        requires { AreHere self.bus self.job self.seats.items self.cores.items }
    {
        let slots = self.job.shape().slots;
        for c in 0..self.cores.len() {
            assert_eq!(rt; self.cores[c].slot(), slots);
        }
        let Machine { bus, seats, .. } = self;
        bus.close(seats)
    }
}

#[test]
fn three_cores_meet_their_bus(rt: HostRuntime) -> Result<(), NoMemory> {
    let job = all_write(&rt, rt.alloc())?;
    let mut machine = Machine::open(rt.alloc(), job)?;
    assert_eq!(rt; machine.seats.len(), 3);
    for seat in &machine.seats {
        assert_eq!(rt; seat.slot, 0);
    }
    for call in 0..15 {
        machine.go_on(&rt, call % 3);
    }
    let bus = machine.close(&rt);
    assert_eq!(rt; bus.slot(), 12);
    assert_eq!(rt; bus.trace(), ACTIONS.as_slice());
    Ok(())
}
