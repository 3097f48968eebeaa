//! Machines of small jobs, slot by slot.
ghost use Rattle.std.specs.Prelude.{◌≡◌, ◌*◌, ◌≤◌, ◌<◌, ◌^◌, IfOk, length, true};
ghost use Rattle.std.specs.List.{All};
ghost use Rattle.pmsi_model.specs.declared.limits.TheConstants.{MAX_TEXT_WORDS, MAX_TOUCHES};
ghost use Rattle.pmsi_model.specs.Geometry.{most_touches};
ghost use Rattle.sim_serial.specs.Sims.{Keeps, shape_of, slot_of};

mod cells;

use super::jobs::examples::TWO_WRITERS;
use super::machines::{ALL, alike, job, text};
use listing::listing;
use pmsi_model::{Geometry, State, Words};
use sim_serial::Sim;
use std::alloc::{AllocError, Global};
use std::process::Abort;
use std::test::Fail;

const NOP: u32 = 0x0000_0013;

const ECALL: u32 = 0x0000_0073;

/// `sw x11, 0(x0)`, and x11 is the number of cores.
const SW_X11: u32 = 0x00b0_2023;

/// `sw x11, 16(x0)`, in line 1.
const SW_X11_16: u32 = 0x00b0_2823;

/// `lw x6, 0(x0)`
const LW_X6: u32 = 0x0000_2303;

/// `addi x5, x0, 7` and `sw x5, 0(x0)`
pub(super) const WRITES_7: [u32; 3] = [0x0070_0293, 0x0050_2023, ECALL];

/// Lines of four words, one set of one way, and 64 bytes.
pub(super) fn small(cores: u32, slots: u32) -> Geometry
    ensures cores { result.cores ≡ cores }
    ensures slots { result.slots ≡ slots }
    ensures line { result.line_words ≡ 4 }
    ensures memory { result.memory ≡ 64 }
    ensures touches { most_touches result ≡ slots * cores }
{
    Geometry {
        cores,
        quantum: 1,
        line_words: 4,
        sets: 1,
        ways: 1,
        memory: 64,
        slots,
    }
}

/// The machine of a job whose memory is 0 at the start, with its actions and accesses.
fn open(
    rt: &impl Abort,
    alloc: Global,
    shape: Geometry,
    texts: Vec<Words>,
) -> Result<Sim, AllocError>
    requires sizes { All (λ text. length text ≤ MAX_TEXT_WORDS) texts.items }
    requires words { All (λ text. All (λ word. word < 2 ^ 32) text) texts.items }
    requires touches { most_touches shape ≤ MAX_TOUCHES }
    ensures shape { IfOk result (λ sim. shape_of sim ≡ shape) }
    ensures slot { IfOk result (λ sim. slot_of sim ≡ 0) }
    ensures keeps { IfOk result (λ sim. Keeps (record { trace = true; touches = true }) sim) }
{
    let job = job(rt, alloc, shape, texts)?;
    let Ok(sim) = Sim::open(alloc, &job, ALL) else {
        panic!(rt; "no memory")
    };
    Ok(sim)
}

/// Run to its end, the machine of two writers has their listing.
fn ends_as_two_writers(rt: &impl Abort, alloc: Global, sim: &mut Sim)
    requires { Keeps (record { trace = true; touches = true }) sim.old }
{
    sim.run();
    let Ok(text) = listing(alloc, sim, ALL) else {
        panic!(rt; "no memory")
    };
    assert_eq!(rt; text.as_slice(), TWO_WRITERS.listing.as_bytes());
}

/// A copy in mid-run goes on as its original does.
#[test]
fn a_copy_goes_on_alike(rt: HostRuntime) -> Result<(), Fail> {
    let alloc = rt.alloc();
    let mut sim = open(&rt, alloc, small(2, 6), alike(alloc, &WRITES_7, 2)?)?;
    sim.step();
    sim.step();
    let Ok(mut copy) = sim.copy(alloc) else {
        panic!(&rt; "no memory")
    };
    ends_as_two_writers(&rt, alloc, &mut sim);
    ends_as_two_writers(&rt, alloc, &mut copy);
    Ok(())
}

fn sends<T: Send>(_value: &T) {}

/// A core and a bus can be handed to another thread.
#[test]
fn cores_and_buses_can_be_sent(rt: HostRuntime) -> Result<(), Fail> {
    let alloc = rt.alloc();
    let sim = open(&rt, alloc, small(2, 6), alike(alloc, &WRITES_7, 2)?)?;
    sends(sim.core(0));
    sends(sim.bus());
    Ok(())
}
