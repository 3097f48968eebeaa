//! The whole listing, and the summary.
ghost use Rattle.std.specs.Prelude.{◌≡◌, ◌++◌, OnOk, IfOk};
ghost use Rattle.pmsi_model.specs.Job.{JobValue};
ghost use Rattle.pmsi_model.specs.Listing.{listing_of, summary_of};
ghost use Rattle.sim_serial.specs.Sims.{IsSimOf, shape_of, slot_of};
ghost use Rattle.listing.specs.Asked.{KeepsAsked};

use crate::head::push_shape_line;
use crate::merge::{push_rows, push_touches};
use crate::sections::{push_cores, push_memory, push_open_rows, push_trace, push_waits_lines};
use crate::waits::push_bound_line;
use latency::bound;
use pmsi_model::{Keep, NoMemory};
use sim_serial::Sim;
use std::alloc::{AllocError, Global};
use text_out::push_text;

/// Appends the listing.
fn push_listing(out: &mut Vec<u8>, alloc: Global, sim: &Sim, keep: Keep) -> Result<(), AllocError>
    requires { KeepsAsked keep sim.now }
    ensures { (job : JobValue) → IsSimOf job job.shape.slots sim.now → OnOk result (out.new.items ≡ out.old.items ++ listing_of job keep) }
{
    push_text(out, "pmsi listing 1\n")?;
    push_shape_line(out, &sim.shape())?;
    push_cores(out, sim)?;
    push_memory(out, sim)?;
    push_rows(out, alloc, sim)?;
    push_open_rows(out, sim)?;
    push_waits_lines(out, sim)?;
    push_bound_line(out, bound(sim.bus().table()))?;
    push_trace(out, sim, keep)?;
    push_touches(out, alloc, sim, keep)?;
    push_text(out, "end\n")
}

/// The listing of a run that is over, with the histories that are asked for.
pub fn listing(alloc: Global, sim: &Sim, keep: Keep) -> Result<Vec<u8>, NoMemory>
    requires over { slot_of sim.now ≡ (shape_of sim.now).slots }
    requires kept { KeepsAsked keep sim.now }
    ensures { IfOk result (λ text. (job : JobValue) → IsSimOf job job.shape.slots sim.now → text.items ≡ listing_of job keep) }
{
    let mut out = Vec::new(alloc);
    push_listing(&mut out, alloc, sim, keep)?;
    Ok(out)
}

/// Appends the summary.
fn push_summary(out: &mut Vec<u8>, sim: &Sim) -> Result<(), AllocError>
    ensures { (job : JobValue) → IsSimOf job job.shape.slots sim.now → OnOk result (out.new.items ≡ out.old.items ++ summary_of job) }
{
    push_shape_line(out, &sim.shape())?;
    push_waits_lines(out, sim)?;
    push_bound_line(out, bound(sim.bus().table()))
}

/// The summary of a run that is over: its shape, and the waits of each core with their bound, in slots.
pub fn summary(alloc: Global, sim: &Sim) -> Result<Vec<u8>, NoMemory>
    requires { slot_of sim.now ≡ (shape_of sim.now).slots }
    ensures { IfOk result (λ text. (job : JobValue) → IsSimOf job job.shape.slots sim.now → text.items ≡ summary_of job) }
{
    let mut out = Vec::new(alloc);
    push_summary(&mut out, sim)?;
    Ok(out)
}
