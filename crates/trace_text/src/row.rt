//! One line behind the first two.

ghost use Rattle.std.specs.Prelude.{◌≡◌, ◌≤◌};
ghost use Rattle.pmsi_model.specs.declared.limits.TheConstants.{MAX_SLOTS};
ghost use Rattle.trace_text.specs.Reading.{fields_of, row_in, end_row, line_of_slot, slot_row};

use crate::actions::action_in;
use crate::fault::TraceFault;
use crate::fields::{is_number, is_numeral, is_word};
use crate::parts::Parts;
use pmsi_model::limits::MAX_SLOTS;
use pmsi_model::{Action, SlotTable};
use slot_plan::owner;

/// What a line behind the first two says.
#[derive(Clone, Copy, Debug, PartialEq, Eq)]
pub(crate) enum Row {
    Slot(Action),
    End,
}

/// The number of a slot's line, where lines are counted from 1.
fn line_of_slot(slot: u32) -> u32
    requires { slot ≤ MAX_SLOTS }
    ensures { result ≡ line_of_slot slot }
{
    slot + 3
}

/// Judges a line that names a slot and a core.
#[tactic(auto, unfolding(crate::specs::Reading::slot_row))]
fn slot_row(
    table: &SlotTable,
    slot: u32,
    number: &[u8],
    core: &[u8],
    action: Option<Action>,
) -> Result<Row, TraceFault>
    requires { slot ≤ MAX_SLOTS }
    ensures { result ≡ slot_row table.now slot number.now core.now action }
{
    let Some(action) = action else {
        return Err(TraceFault::Line(line_of_slot(slot)));
    };
    if slot >= MAX_SLOTS {
        return Err(TraceFault::Line(line_of_slot(slot)));
    }
    if is_number(number, slot) && is_number(core, owner(table, slot)) {
        Ok(Row::Slot(action))
    } else {
        Err(TraceFault::Order(line_of_slot(slot)))
    }
}

/// Judges a line that names the number of slots.
#[tactic(auto, unfolding(crate::specs::Reading::end_row))]
fn end_row(slot: u32, number: &[u8]) -> Result<Row, TraceFault>
    ensures { result ≡ end_row slot number.now }
{
    if is_number(number, slot) {
        Ok(Row::End)
    } else {
        Err(TraceFault::End)
    }
}

/// Reads the line behind those of the slots before this one.
#[tactic(auto, unfolding(crate::specs::Reading::row_in))]
pub(crate) fn read_row(table: &SlotTable, slot: u32, line: &[u8]) -> Result<Row, TraceFault>
    requires { slot ≤ MAX_SLOTS }
    ensures { result ≡ row_in table.now slot (fields_of line.now) }
{
    let unformed = TraceFault::Line(line_of_slot(slot));
    let mut fields = Parts::new(line, b' ');
    let Some(word) = fields.next() else {
        return Err(unformed);
    };
    let Some(number) = fields.next() else {
        return Err(unformed);
    };
    let Some(name) = fields.next() else {
        return if is_word(word, "end") && is_numeral(number) {
            end_row(slot, number)
        } else {
            Err(unformed)
        };
    };
    let Some(core) = fields.next() else {
        return Err(unformed);
    };
    if is_word(word, "slot") && is_numeral(number) && is_word(name, "core") && is_numeral(core) {
        slot_row(table, slot, number, core, action_in(&mut fields))
    } else {
        Err(unformed)
    }
}
