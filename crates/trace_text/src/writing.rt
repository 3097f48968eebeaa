//! Writes traces.

ghost use Rattle.std.specs.Prelude.{◌≡◌, ◌≤◌, ◌++◌, length, codes, decimal, IfOk, OnOk};
ghost use Rattle.pmsi_model.specs.declared.limits.TheConstants.{MAX_SLOTS};
ghost use Rattle.pmsi_model.specs.Lines.{action_line, action_lines, action_text, kept_text, name_text};
ghost use Rattle.trace_text.specs.Text.{IsTrace, end_text, head_text, trace_of};

use crate::trace::Trace;
use pmsi_model::{Action, Name, NoMemory, SlotTable};
use slot_plan::owner;
use std::alloc::{AllocError, Global};
use text_out::{push_field, push_newline, push_text};

/// The text of a trace: a head, a line per slot, and a last line with the number of slots.
pub fn write_trace(alloc: Global, trace: &Trace) -> Result<Vec<u8>, NoMemory>
    requires { IsTrace trace.now }
    ensures { IfOk result (λ text. text.items ≡ trace_of trace.now) }
{
    let table = SlotTable::plain(trace.cores);
    write_actions(alloc, &table, trace.actions.as_slice())
}

/// The text of the trace of these actions, without a copy of them. The cores of the table own the slots in turn.
pub fn write_actions(
    alloc: Global,
    table: &SlotTable,
    actions: &[Action],
) -> Result<Vec<u8>, NoMemory>
    requires { length actions.now ≤ MAX_SLOTS }
    ensures { IfOk result (λ text. text.items ≡ trace_of (record { cores = table.now.cores; actions = actions.now })) }
{
    let mut out = Vec::new(alloc);
    push_trace(&mut out, table, actions)?;
    Ok(out)
}

#[tactic(auto, unfolding(crate::specs::Text::trace_of))]
fn push_trace(out: &mut Vec<u8>, table: &SlotTable, actions: &[Action]) -> Result<(), AllocError>
    requires { length actions.now ≤ MAX_SLOTS }
    ensures { OnOk result (out.new.items ≡ out.old.items ++ trace_of (record { cores = table.now.cores; actions = actions.now })) }
{
    push_head(out, table.cores())?;
    push_action_lines(out, table, actions)?;
    push_end(out, actions.len() as u64)
}

fn push_head(out: &mut Vec<u8>, cores: u32) -> Result<(), AllocError>
    ensures { OnOk result (out.new.items ≡ out.old.items ++ head_text cores) }
{
    push_text(out, "pmsi trace 1\n")?;
    push_field(out, "cores ", u64::from(cores))?;
    push_newline(out)
}

fn push_end(out: &mut Vec<u8>, count: u64) -> Result<(), AllocError>
    ensures { OnOk result (out.new.items ≡ out.old.items ++ end_text count) }
{
    push_field(out, "end ", count)?;
    push_newline(out)
}

/// Appends the lines of the actions of the first slots, each with the slot's owner. Listings have these lines too.
pub fn push_action_lines(
    out: &mut Vec<u8>,
    table: &SlotTable,
    actions: &[Action],
) -> Result<(), AllocError>
    requires { length actions.now ≤ MAX_SLOTS }
    ensures { OnOk result (out.new.items ≡ out.old.items ++ action_lines table.now 0 actions.now) }
{
    for (place, action) in actions.iter().enumerate() {
        let slot = place as u32;
        push_action_line(out, slot, owner(table, slot), *action)?;
    }
    Ok(())
}

/// Appends the line of an action, which a core did in a slot.
#[tactic(auto, unfolding(pmsi_model::specs::Lines::action_line))]
fn push_action_line(
    out: &mut Vec<u8>,
    slot: u32,
    core: u32,
    action: Action,
) -> Result<(), AllocError>
    ensures { OnOk result (out.new.items ≡ out.old.items ++ action_line slot core action) }
{
    push_field(out, "slot ", u64::from(slot))?;
    push_field(out, " core ", u64::from(core))?;
    push_text(out, " ")?;
    push_action(out, action)?;
    push_newline(out)
}

fn push_action(out: &mut Vec<u8>, action: Action) -> Result<(), AllocError>
    ensures { OnOk result (out.new.items ≡ out.old.items ++ action_text action) }
{
    match action {
        Action::Idle => push_text(out, "idle"),
        Action::Post(name, line) => push_post(out, "post ", name, line),
        Action::Fill(line) => push_field(out, "fill ", u64::from(line)),
        Action::PostFill(name, line) => push_post(out, "postfill ", name, line),
        Action::Back(line, kept) => push_back(out, line, kept),
    }
}

/// Appends a text, the name of a post, a blank, and a line's number.
fn push_post(out: &mut Vec<u8>, what: &str, name: Name, line: u32) -> Result<(), AllocError>
    ensures { OnOk result (out.new.items ≡ out.old.items ++ what.now ++ name_text name ++ codes " " ++ decimal line) }
{
    push_text(out, what)?;
    push_text(out, name_of(name))?;
    push_field(out, " ", u64::from(line))
}

fn name_of(name: Name) -> &'static str
    ensures { result.now ≡ name_text name }
{
    match name {
        Name::GetS => "GetS",
        Name::GetM => "GetM",
        Name::Upg => "Upg",
    }
}

/// Appends the write-back of a line, and whether it stays shared.
fn push_back(out: &mut Vec<u8>, line: u32, kept: bool) -> Result<(), AllocError>
    ensures { OnOk result (out.new.items ≡ out.old.items ++ codes "back " ++ decimal line ++ codes " " ++ kept_text kept) }
{
    push_field(out, "back ", u64::from(line))?;
    push_text(out, if kept { " keep" } else { " drop" })
}
