//! The lines of accesses.
ghost use Rattle.std.specs.Prelude.{◌≡◌, ◌++◌, OnOk};
ghost use Rattle.std.specs.List.{flat_map};
ghost use Rattle.pmsi_model.specs.Lines.{touch_line};

use crate::requests::kind_name;
use pmsi_model::Touch;
use std::alloc::AllocError;
use text_out::{push_field, push_hex_field, push_newline, push_text};

/// Appends the line of an access.
fn push_touch_line(out: &mut Vec<u8>, touch: &Touch) -> Result<(), AllocError>
    ensures { OnOk result (out.new.items ≡ out.old.items ++ touch_line touch.now) }
{
    push_field(out, "touch ", u64::from(touch.slot))?;
    push_field(out, " core ", u64::from(touch.core))?;
    push_text(out, " ")?;
    push_text(out, kind_name(touch.kind))?;
    push_field(out, " ", u64::from(touch.width))?;
    push_hex_field(out, " ", touch.address)?;
    push_hex_field(out, " ", touch.old)?;
    push_hex_field(out, " ", touch.new)?;
    push_newline(out)
}

/// Appends a line for each access.
pub fn push_touch_lines(out: &mut Vec<u8>, touches: &[Touch]) -> Result<(), AllocError>
    ensures { OnOk result (out.new.items ≡ out.old.items ++ flat_map touch_line touches.now) }
{
    for touch in touches {
        push_touch_line(out, touch)?;
    }
    Ok(())
}
