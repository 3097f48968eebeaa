//! The three lines of a core.
ghost use Rattle.std.specs.Prelude.{◌≡◌, ◌++◌, OnOk};
ghost use Rattle.pmsi_model.specs.Lines.{halt_text, status_text, core_line, regs_line, mode_text, held_text, held_line};
ghost use Rattle.cache_array.specs.Cache.{held_of};
ghost use Rattle.core_lines.specs.Regs.{reg_text};

use cache_array::CacheArray;
use pmsi_model::{Halt, Mode, Status};
use std::alloc::AllocError;
use text_out::{push_field, push_hex_field, push_newline, push_text};

fn push_halt(out: &mut Vec<u8>, halt: Halt) -> Result<(), AllocError>
    ensures { OnOk result (out.new.items ≡ out.old.items ++ halt_text halt) }
{
    match halt {
        Halt::Exit(code) => push_field(out, "exit ", u64::from(code)),
        Halt::Break => push_text(out, "break"),
        Halt::Illegal(word) => push_hex_field(out, "illegal ", word),
        Halt::FetchRange(pc) => push_hex_field(out, "fetch ", pc),
        Halt::JumpMisaligned(target) => push_hex_field(out, "jump ", target),
        Halt::Misaligned(address) => push_hex_field(out, "misaligned ", address),
        Halt::Range(address) => push_hex_field(out, "range ", address),
    }
}

fn push_status(out: &mut Vec<u8>, status: Status) -> Result<(), AllocError>
    ensures { OnOk result (out.new.items ≡ out.old.items ++ status_text status) }
{
    match status {
        Status::Running => push_text(out, "running"),
        Status::Halted(halt) => push_halt(out, halt),
    }
}

/// Appends the first line of a core: its pc, its retired instructions and its status.
#[tactic(auto, unfolding(pmsi_model::specs::Lines::core_line))]
pub fn push_core_line(
    out: &mut Vec<u8>,
    core: u32,
    pc: u32,
    retired: u64,
    status: Status,
) -> Result<(), AllocError>
    ensures { OnOk result (out.new.items ≡ out.old.items ++ core_line core pc retired status) }
{
    push_field(out, "core ", u64::from(core))?;
    push_hex_field(out, " pc ", pc)?;
    push_field(out, " retired ", retired)?;
    push_text(out, " ")?;
    push_status(out, status)?;
    push_newline(out)
}

/// Appends a register of a core, unless it is 0.
fn push_reg(out: &mut Vec<u8>, number: usize, value: u32) -> Result<(), AllocError>
    ensures { OnOk result (out.new.items ≡ out.old.items ++ reg_text number value) }
{
    if value == 0 {
        return Ok(());
    }
    push_field(out, " x", number as u64)?;
    push_hex_field(out, "=", value)
}

/// Appends the second line of a core: each register that isn't 0.
#[tactic(auto, unfolding(pmsi_model::specs::Lines::regs_line))]
pub fn push_regs_line(out: &mut Vec<u8>, regs: &[u32]) -> Result<(), AllocError>
    ensures { OnOk result (out.new.items ≡ out.old.items ++ regs_line regs.now) }
{
    push_text(out, "regs")?;
    for (number, value) in regs.iter().enumerate() {
        push_reg(out, number, *value)?;
    }
    push_newline(out)
}

fn mode_name(mode: Mode) -> &'static str
    ensures { result.now ≡ mode_text mode }
{
    match mode {
        Mode::Shared => ":S",
        Mode::Modified => ":M",
    }
}

/// Appends one held line of a core, with its mode.
fn push_held(out: &mut Vec<u8>, line: u32, mode: Mode) -> Result<(), AllocError>
    ensures { OnOk result (out.new.items ≡ out.old.items ++ held_text (line, mode)) }
{
    push_field(out, " ", u64::from(line))?;
    push_text(out, mode_name(mode))
}

/// Appends the third line of a core: the lines that its cache holds, the most recently used first.
pub fn push_held_line(out: &mut Vec<u8>, cache: &CacheArray) -> Result<(), AllocError>
    ensures { OnOk result (out.new.items ≡ out.old.items ++ held_line (held_of cache.now.lines)) }
{
    push_text(out, "held")?;
    for held in &cache.held_lines(*out.allocator())? {
        push_held(out, held.0, held.1)?;
    }
    push_newline(out)
}
