//! Moves a machine from one boundary to another. Nothing here takes memory.

ghost use Rattle.std.specs.Prelude.{◌≡◌, ◌≤◌, ◌<◌, ◌+◌, ℕ, min};
ghost use Rattle.std.specs.List.{All};
ghost use Rattle.pmsi_model.specs.declared.limits.TheConstants.{MAX_SLOTS};
ghost use Rattle.pmsi_model.specs.Job.{JobValue};
ghost use Rattle.pmsi_model.specs.Run.{machine_at};
ghost use Rattle.sim_serial.specs.Sims.{IsSimOf, shape_of};
ghost use Rattle.script_text.specs.Output.{go_end, holds, holds_any, is_running};

use pmsi_model::Status;
use script_text::Breakpoint;
use sim_serial::Sim;

/// Takes so many slots, or those that are left.
pub(crate) fn step(sim: &mut Sim, slots: u32)
    requires { slots ≤ MAX_SLOTS }
    ensures machine { (job : JobValue) (slot : ℕ) → IsSimOf job slot sim.old → IsSimOf job (min (slot + slots) job.shape.slots) sim.new }
    ensures shape { shape_of sim.new ≡ shape_of sim.old }
{
    let start = sim.slot();
    let end = sim.shape().slots.min(start + slots);
    for _slot in start..end {
        sim.step();
    }
}

/// Takes slots until one of the breaks holds, one slot at least, or those that are left.
pub(crate) fn go(sim: &mut Sim, breaks: &[Breakpoint])
    requires { All (λ b. b.core < (shape_of sim.old).cores) breaks.now }
    ensures machine { (job : JobValue) (slot : ℕ) → IsSimOf job slot sim.old → IsSimOf job (go_end job breaks.now slot) sim.new }
    ensures shape { shape_of sim.new ≡ shape_of sim.old }
{
    for _slot in sim.slot()..sim.shape().slots {
        sim.step();
        if holds_any(sim, breaks) {
            return;
        }
    }
}

/// Whether one of the breaks holds.
fn holds_any(sim: &Sim, breaks: &[Breakpoint]) -> bool
    requires { All (λ b. b.core < (shape_of sim.now).cores) breaks.now }
    ensures { (job : JobValue) (slot : ℕ) → IsSimOf job slot sim.now → result ≡ holds_any (machine_at job slot) breaks.now }
{
    for at in breaks {
        if holds(sim, *at) {
            return true;
        }
    }
    false
}

/// Whether a break holds: its core runs, and has its pc.
fn holds(sim: &Sim, at: Breakpoint) -> bool
    requires { at.core < (shape_of sim.now).cores }
    ensures { (job : JobValue) (slot : ℕ) → IsSimOf job slot sim.now → result ≡ holds (machine_at job slot) at }
{
    let core = sim.core(at.core);
    is_running(core.status()) && core.pc() == at.pc
}

fn is_running(status: Status) -> bool
    ensures { result ≡ is_running status }
{
    status == Status::Running
}
