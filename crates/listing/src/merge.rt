//! The sections in which the histories of all cores are told together, slot by slot.
ghost use Rattle.std.specs.Prelude.{◌≡◌, ℕ, ◌<◌, ◌++◌, true, false, IfOk, OnOk};
ghost use Rattle.std.specs.List.{flat_map};
ghost use Rattle.pmsi_model.specs.Job.{JobValue, IsJob};
ghost use Rattle.pmsi_model.specs.Lines.{row_line, touch_line};
ghost use Rattle.pmsi_model.specs.Listing.{touches_text};
ghost use Rattle.pmsi_model.specs.Rows.{rows_of};
ghost use Rattle.pmsi_model.specs.Run.{touches_of};
ghost use Rattle.sim_serial.specs.Cores.{CoresKeep};
ghost use Rattle.sim_serial.specs.Sims.{IsSimOf, shape_of};
ghost use Rattle.listing.specs.Asked.{KeepsAsked};
ghost use Rattle.listing.specs.Rests.{rest_at, rests_at};

use crate::rests::{Piece, Rest, push_pieces};
use pmsi_model::Keep;
use sim_serial::Sim;
use std::alloc::{AllocError, Global};

/// What a core has in all slots; without its accesses, where they aren't to be told.
fn rest_of(sim: &Sim, c: u32, with_touches: bool) -> Rest<'_>
    requires { c < (shape_of sim.now).cores }
    ensures { (job : JobValue) (slot : ℕ) → IsSimOf job slot sim.now → (with_touches ≡ true → CoresKeep true sim.now.cores) →
        result ≡ rest_at job with_touches 0 slot c }
{
    let core = sim.core(c);
    if with_touches {
        Rest::new(core.rows(), core.touches())
    } else {
        Rest::new(core.rows(), &[])
    }
}

/// What each core has in all slots, by core.
fn rests_of(alloc: Global, sim: &Sim, with_touches: bool) -> Result<Vec<Rest<'_>>, AllocError>
    ensures { IfOk result (λ rests. (job : JobValue) (slot : ℕ) → IsSimOf job slot sim.now → (with_touches ≡ true → CoresKeep true sim.now.cores) →
        rests.items ≡ rests_at job with_touches 0 slot (shape_of sim.now).cores) }
{
    let mut rests = Vec::new(alloc);
    for c in 0..sim.shape().cores {
        rests.push(rest_of(sim, c, with_touches))?;
    }
    Ok(rests)
}

fn push_row_slots(out: &mut Vec<u8>, rests: &mut [Rest<'_>], slots: u32) -> Result<(), AllocError>
    ensures { (job : JobValue) → IsJob job → rests.old ≡ rests_at job false 0 slots job.shape.cores →
        OnOk result (out.new.items ≡ out.old.items ++ flat_map row_line (rows_of job slots)) }
{
    for slot in 0..slots {
        push_pieces(out, rests, Piece::Row, slot)?;
    }
    Ok(())
}

/// In each slot the accesses of all phases come before that of the fill.
fn push_touch_slots(out: &mut Vec<u8>, rests: &mut [Rest<'_>], slots: u32) -> Result<(), AllocError>
    ensures { (job : JobValue) → IsJob job → rests.old ≡ rests_at job true 0 slots job.shape.cores →
        OnOk result (out.new.items ≡ out.old.items ++ flat_map touch_line (touches_of job slots)) }
{
    for slot in 0..slots {
        push_pieces(out, rests, Piece::Phase, slot)?;
        push_pieces(out, rests, Piece::Fill, slot)?;
    }
    Ok(())
}

/// Appends the requests that were served, by the slot of their fill.
pub fn push_rows(out: &mut Vec<u8>, alloc: Global, sim: &Sim) -> Result<(), AllocError>
    ensures { (job : JobValue) (slot : ℕ) → IsSimOf job slot sim.now → OnOk result (out.new.items ≡ out.old.items ++ flat_map row_line (rows_of job slot)) }
{
    let mut rests = rests_of(alloc, sim, false)?;
    push_row_slots(out, &mut rests, sim.slot())
}

/// Appends all accesses in bus order, where they are asked for.
pub fn push_touches(
    out: &mut Vec<u8>,
    alloc: Global,
    sim: &Sim,
    keep: Keep,
) -> Result<(), AllocError>
    requires { KeepsAsked keep sim.now }
    ensures { (job : JobValue) → IsSimOf job job.shape.slots sim.now → OnOk result (out.new.items ≡ out.old.items ++ touches_text job keep) }
{
    if !keep.touches {
        return Ok(());
    }
    let mut rests = rests_of(alloc, sim, true)?;
    push_touch_slots(out, &mut rests, sim.slot())
}
