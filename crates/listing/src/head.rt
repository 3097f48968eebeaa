//! The head of a listing.
ghost use Rattle.std.specs.Prelude.{◌≡◌, ◌++◌, OnOk};
ghost use Rattle.pmsi_model.specs.Lines.{shape_line};

use pmsi_model::Geometry;
use std::alloc::AllocError;
use text_out::{push_field, push_newline};

/// Appends the line of a machine's shape.
#[tactic(auto, unfolding(pmsi_model::specs::Lines::shape_line))]
pub fn push_shape_line(out: &mut Vec<u8>, shape: &Geometry) -> Result<(), AllocError>
    ensures { OnOk result (out.new.items ≡ out.old.items ++ shape_line shape.now) }
{
    push_field(out, "cores ", u64::from(shape.cores))?;
    push_field(out, " quantum ", u64::from(shape.quantum))?;
    push_field(out, " line ", u64::from(shape.line_words))?;
    push_field(out, " sets ", u64::from(shape.sets))?;
    push_field(out, " ways ", u64::from(shape.ways))?;
    push_field(out, " memory ", u64::from(shape.memory))?;
    push_field(out, " slots ", u64::from(shape.slots))?;
    push_newline(out)
}
