//! The lines that commands print.

ghost use Rattle.std.specs.Prelude.{◌≡◌, ◌++◌, OnOk};
ghost use Rattle.script_text.specs.Output.{left_line, left_text, slot_line, state_line, state_text, word_line};

use pmsi_model::State;
use std::alloc::AllocError;
use text_out::{push_field, push_hex_field, push_newline, push_number, push_text};

/// Appends the line of a boundary.
pub(crate) fn push_slot_line(out: &mut Vec<u8>, slot: u32) -> Result<(), AllocError>
    ensures { OnOk result (out.new.items ≡ out.old.items ++ slot_line slot) }
{
    push_field(out, "slot ", u64::from(slot))?;
    push_newline(out)
}

/// Appends the line of the word at an address.
pub(crate) fn push_word_line(out: &mut Vec<u8>, address: u32, word: u32) -> Result<(), AllocError>
    ensures { OnOk result (out.new.items ≡ out.old.items ++ word_line address word) }
{
    push_hex_field(out, "word ", address)?;
    push_hex_field(out, " ", word)?;
    push_newline(out)
}

/// Appends the line of the state of a line in a core.
pub(crate) fn push_state_line(
    out: &mut Vec<u8>,
    c: u32,
    line: u32,
    state: State,
) -> Result<(), AllocError>
    ensures { OnOk result (out.new.items ≡ out.old.items ++ state_line c line state) }
{
    push_field(out, "state ", u64::from(c))?;
    push_field(out, " ", u64::from(line))?;
    push_text(out, " ")?;
    push_text(out, state_text(state))?;
    push_newline(out)
}

fn state_text(state: State) -> &'static str
    ensures { result.now ≡ state_text state }
{
    match state {
        State::I => "I",
        State::S => "S",
        State::M => "M",
        State::ISD => "ISD",
        State::ISDI => "ISDI",
        State::IMD => "IMD",
        State::IMDS => "IMDS",
        State::IMDI => "IMDI",
        State::SMW => "SMW",
        State::SMWS => "SMWS",
        State::MSWB => "MSWB",
        State::MIWB => "MIWB",
    }
}

/// Appends the line of the slots that are left for a core's request.
pub(crate) fn push_left_line(
    out: &mut Vec<u8>,
    c: u32,
    slots: Option<u64>,
) -> Result<(), AllocError>
    ensures { OnOk result (out.new.items ≡ out.old.items ++ left_line c slots) }
{
    push_field(out, "left ", u64::from(c))?;
    push_text(out, " ")?;
    push_left(out, slots)?;
    push_newline(out)
}

fn push_left(out: &mut Vec<u8>, slots: Option<u64>) -> Result<(), AllocError>
    ensures { OnOk result (out.new.items ≡ out.old.items ++ left_text slots) }
{
    match slots {
        Some(slots) => push_number(out, slots),
        None => push_text(out, "-"),
    }
}
