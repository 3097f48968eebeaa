//! The sections of a listing: each function appends one, of the machine that a `Sim` is.
ghost use Rattle.std.specs.Prelude.{◌≡◌, ℕ, ◌+◌, ◌/◌, ◌%◌, ◌<◌, ◌≤◌, ◌++◌, OnOk};
ghost use Rattle.std.specs.List.{flat_map};
ghost use Rattle.core_unit.specs.State.{core_of};
ghost use Rattle.pmsi_model.specs.Job.{JobValue};
ghost use Rattle.pmsi_model.specs.Lines.{open_row_line};
ghost use Rattle.pmsi_model.specs.Listing.{core_text, core_texts, memory_texts, trace_text, waits_texts};
ghost use Rattle.pmsi_model.specs.Phase.{bytes_from};
ghost use Rattle.pmsi_model.specs.Run.{machine_at};
ghost use Rattle.pmsi_model.specs.Rows.{rows_of, open_row_of, open_rows_in, option_list};
ghost use Rattle.sim_serial.specs.Sims.{IsSimOf, shape_of};
ghost use Rattle.listing.specs.Asked.{KeepsAsked};

use crate::memory::push_sixteen;
use crate::requests::push_open_row_line;
use crate::waits::push_waits_line;
use core_lines::{push_core_line, push_held_line, push_regs_line};
use core_unit::Core;
use pmsi_model::Keep;
use sim_serial::Sim;
use std::alloc::AllocError;
use trace_text::push_action_lines;

/// Appends the three lines of a core.
fn push_core(out: &mut Vec<u8>, c: u32, core: &Core) -> Result<(), AllocError>
    ensures { OnOk result (out.new.items ≡ out.old.items ++ core_text c (core_of core.now)) }
{
    push_core_line(out, c, core.pc(), core.retired(), core.status())?;
    push_regs_line(out, core.regs())?;
    push_held_line(out, core.cache())
}

/// Appends the lines of all cores.
pub fn push_cores(out: &mut Vec<u8>, sim: &Sim) -> Result<(), AllocError>
    ensures { (job : JobValue) (slot : ℕ) → IsSimOf job slot sim.now →
        OnOk result (out.new.items ≡ out.old.items ++ core_texts (machine_at job slot) (shape_of sim.now).cores) }
{
    for c in 0..sim.shape().cores {
        push_core(out, c, sim.core(c))?;
    }
    Ok(())
}

/// Sixteen bytes of memory.
fn sixteen(sim: &Sim, address: u32) -> [u8; 16]
    requires aligned { address % 16 ≡ 0 }
    requires within { address + 16 ≤ (shape_of sim.now).memory }
    ensures { (job : JobValue) (slot : ℕ) → IsSimOf job slot sim.now → result ≡ bytes_from address 16 (machine_at job slot).memory }
{
    let a = sim.word(address).to_le_bytes();
    let b = sim.word(address + 4).to_le_bytes();
    let c = sim.word(address + 8).to_le_bytes();
    let d = sim.word(address + 12).to_le_bytes();
    [
        a[0], a[1], a[2], a[3], b[0], b[1], b[2], b[3], c[0], c[1], c[2], c[3], d[0], d[1], d[2],
        d[3],
    ]
}

/// Appends the lines of memory.
pub fn push_memory(out: &mut Vec<u8>, sim: &Sim) -> Result<(), AllocError>
    ensures { (job : JobValue) (slot : ℕ) → IsSimOf job slot sim.now →
        OnOk result (out.new.items ≡ out.old.items ++ memory_texts (machine_at job slot).memory ((shape_of sim.now).memory / 16)) }
{
    for i in 0..sim.shape().memory / 16 {
        push_sixteen(out, 16 * i, sixteen(sim, 16 * i).as_slice())?;
    }
    Ok(())
}

/// Appends the request of a core that is open, if there is one.
fn push_open_row(out: &mut Vec<u8>, sim: &Sim, c: u32) -> Result<(), AllocError>
    requires { c < (shape_of sim.now).cores }
    ensures { (job : JobValue) (slot : ℕ) → IsSimOf job slot sim.now →
        OnOk result (out.new.items ≡ out.old.items ++ flat_map (open_row_line slot) (option_list (open_row_of c ((machine_at job slot).cores c).want))) }
{
    match sim.open_row(c) {
        Some(row) => push_open_row_line(out, sim.slot(), &row),
        None => Ok(()),
    }
}

/// Appends the requests that are open, by core.
pub fn push_open_rows(out: &mut Vec<u8>, sim: &Sim) -> Result<(), AllocError>
    ensures { (job : JobValue) (slot : ℕ) → IsSimOf job slot sim.now →
        OnOk result (out.new.items ≡ out.old.items ++ flat_map (open_row_line slot) (open_rows_in (machine_at job slot) (shape_of sim.now).cores)) }
{
    for c in 0..sim.shape().cores {
        push_open_row(out, sim, c)?;
    }
    Ok(())
}

/// Appends the lines of waits, by core.
pub fn push_waits_lines(out: &mut Vec<u8>, sim: &Sim) -> Result<(), AllocError>
    ensures { (job : JobValue) (slot : ℕ) → IsSimOf job slot sim.now →
        OnOk result (out.new.items ≡ out.old.items ++ waits_texts (rows_of job slot) (shape_of sim.now).cores) }
{
    for c in 0..sim.shape().cores {
        push_waits_line(out, c, sim.rows(c))?;
    }
    Ok(())
}

/// Appends the actions of all slots, where they are asked for.
pub fn push_trace(out: &mut Vec<u8>, sim: &Sim, keep: Keep) -> Result<(), AllocError>
    requires { KeepsAsked keep sim.now }
    ensures { (job : JobValue) → IsSimOf job job.shape.slots sim.now → OnOk result (out.new.items ≡ out.old.items ++ trace_text job keep) }
{
    if !keep.trace {
        return Ok(());
    }
    push_action_lines(out, sim.bus().table(), sim.bus().trace())
}
