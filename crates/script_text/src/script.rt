//! Reads scripts.

ghost use Rattle.std.specs.Prelude.{◌≡◌, ◌≢◌, ◌≤◌, [], List, length, true, Ok, Err, IfOk, IfErr, OnOk};
ghost use Rattle.std.specs.List.{All};
ghost use Rattle.pmsi_model.specs.declared.limits.TheConstants.{MAX_FILE_BYTES};
ghost use Rattle.pmsi_model.specs.Geometry.{IsGeometry};
ghost use Rattle.job_text.specs.Cutting.{Row, fields_of, rows_of, with_row};
ghost use Rattle.script_text.specs.declared.fault.ScriptFault.TheVariants.{NoMemory};
ghost use Rattle.script_text.specs.Script.{commands_in, is_in_range, script_of};

use crate::command::Command;
use crate::fault::ScriptFault;
use crate::line::command_in;
use job_text::{code_of, next_field};
use pmsi_model::Geometry;
use std::alloc::Global;
use text_out::next_line;

/// Reads a script for a machine of this shape: the commands of its lines, or the first thing that is wrong with it.
#[tactic(auto, unfolding(crate::specs::Script::script_of))]
pub fn read_script(
    alloc: Global,
    shape: &Geometry,
    bytes: &[u8],
) -> Result<Vec<Command>, ScriptFault>
    requires shape { IsGeometry shape.now }
    requires length { length bytes.now ≤ MAX_FILE_BYTES }
    ensures commands { IfOk result (λ commands. script_of shape.now bytes.now ≡ Ok commands.items) }
    ensures range { IfOk result (λ commands. All (λ command. is_in_range shape.now command ≡ true) commands.items) }
    ensures fault { IfErr result (λ fault. fault ≢ NoMemory → script_of shape.now bytes.now ≡ Err fault) }
{
    let Ok(text) = str::from_utf8(bytes) else {
        return Err(ScriptFault::NotText);
    };
    match read_lines(alloc, shape, text) {
        Ok(commands) => Ok(commands),
        Err(fault) => Err(fault),
    }
}

/// Reads all lines of a text.
fn read_lines(alloc: Global, shape: &Geometry, text: &str) -> Result<Vec<Command>, ScriptFault>
    requires shape { IsGeometry shape.now }
    requires length { length text.now ≤ MAX_FILE_BYTES }
    ensures commands { IfOk result (λ commands. commands_in shape.now [] (rows_of text.now) ≡ Ok commands.items) }
    ensures range { IfOk result (λ commands. All (λ command. is_in_range shape.now command ≡ true) commands.items) }
    ensures fault { IfErr result (λ fault. fault ≢ NoMemory → commands_in shape.now [] (rows_of text.now) ≡ Err fault) }
{
    let mut commands = Vec::new(alloc);
    let mut number = 1;
    let mut rest = text;
    while let Some((line, after)) = next_line(rest) {
        if let Err(fault) = add_line(&mut commands, shape, number, line) {
            return Err(fault);
        }
        number += 1;
        rest = after;
    }
    Ok(commands)
}

/// Takes the line of this number, behind the lines of some commands.
fn add_line(
    commands: &mut Vec<Command>,
    shape: &Geometry,
    number: u32,
    line: &str,
) -> Result<(), ScriptFault>
    requires shape { IsGeometry shape.now }
    requires range { All (λ command. is_in_range shape.now command ≡ true) commands.old.items }
    ensures range { OnOk result (All (λ command. is_in_range shape.now command ≡ true) commands.new.items) }
    ensures ok { OnOk result ((rows : List Row)
        → commands_in shape.now commands.old.items (with_row (record { number = number; fields = fields_of line.now }) rows)
        ≡ commands_in shape.now commands.new.items rows) }
    ensures err { IfErr result (λ fault. fault ≢ NoMemory → (rows : List Row)
        → commands_in shape.now commands.old.items (with_row (record { number = number; fields = fields_of line.now }) rows) ≡ Err fault) }
{
    let Some((first, rest)) = next_field(code_of(line)) else {
        return Ok(());
    };
    match command_in(shape, commands.len(), first, rest) {
        Ok(command) => commands.push(command)?,
        Err(why) => return Err(ScriptFault::Line(number, why)),
    }
    Ok(())
}
