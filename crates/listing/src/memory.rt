//! The lines of memory.
ghost use Rattle.std.specs.Prelude.{◌≡◌, ◌==◌, ◌++◌, OnOk};
ghost use Rattle.std.specs.List.{list_all};
ghost use Rattle.pmsi_model.specs.Lines.{memory_line};
ghost use Rattle.pmsi_model.specs.Listing.{sixteen_text};

use std::alloc::AllocError;
use text_out::{push_hex_bytes, push_hex_field, push_newline, push_text};

#[tactic(auto, unfolding(pmsi_model::specs::Lines::memory_line))]
fn push_memory_line(out: &mut Vec<u8>, address: u32, bytes: &[u8]) -> Result<(), AllocError>
    ensures { OnOk result (out.new.items ≡ out.old.items ++ memory_line address bytes.now) }
{
    push_hex_field(out, "mem ", address)?;
    push_text(out, " ")?;
    push_hex_bytes(out, bytes)?;
    push_newline(out)
}

fn is_zero(bytes: &[u8]) -> bool
    ensures { result ≡ list_all (λ byte. byte == 0) bytes.now }
{
    bytes.iter().all(|byte| *byte == 0)
}

/// Appends the line of the bytes at an address, unless they are all 0.
pub fn push_sixteen(out: &mut Vec<u8>, address: u32, bytes: &[u8]) -> Result<(), AllocError>
    ensures { OnOk result (out.new.items ≡ out.old.items ++ sixteen_text address bytes.now) }
{
    if is_zero(bytes) {
        return Ok(());
    }
    push_memory_line(out, address, bytes)
}
