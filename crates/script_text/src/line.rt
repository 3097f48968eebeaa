//! What one line says.

ghost use Rattle.std.specs.Prelude.{◌≡◌, ◌+◌, ◌*◌, nat_le, ◌∷◌, true, IfOk};
ghost use Rattle.std.specs.Option.{option_map};
ghost use Rattle.pmsi_model.specs.Geometry.{IsGeometry, line_bytes};
ghost use Rattle.job_text.specs.Cutting.{fields_between};
ghost use Rattle.script_text.specs.Script.{command_in, in_range, is_in_range, one_of, read_one, read_two, read_verb, two_fields, two_of, verb_named};
ghost use Rattle.job_text.specs.Sayings.{only_field};

use crate::command::{Breakpoint, Command, OneNumber, TwoNumbers, Verb};
use crate::fault::ScriptCause;
use crate::numbers::number_in;
use job_text::{next_field, only_field};
use pmsi_model::Geometry;
use pmsi_model::limits::{MAX_COMMANDS, MAX_SLOTS};

/// The command that a line tells behind so many commands: its first field, and what stands after it.
#[tactic(auto, unfolding(crate::specs::Script::command_in))]
pub(crate) fn command_in(
    shape: &Geometry,
    count: usize,
    first: &str,
    rest: &str,
) -> Result<Command, ScriptCause>
    requires { IsGeometry shape.now }
    ensures value { result ≡ command_in shape.now count (first.now ∷ fields_between rest.now) }
    ensures range { IfOk result (λ command. is_in_range shape.now command ≡ true) }
{
    if count >= MAX_COMMANDS as usize {
        return Err(ScriptCause::Many);
    }
    read_verb(shape, verb_named(first), rest)
}

#[tactic(auto, unfolding(crate::specs::Script::verb_named))]
fn verb_named(field: &str) -> Option<Verb>
    ensures { result ≡ verb_named field.now }
{
    match field {
        "step" => Some(Verb::One(OneNumber::Step)),
        "break" => Some(Verb::Two(TwoNumbers::Break)),
        "go" => Some(Verb::Go),
        "regs" => Some(Verb::One(OneNumber::Regs)),
        "held" => Some(Verb::One(OneNumber::Held)),
        "word" => Some(Verb::One(OneNumber::Word)),
        "state" => Some(Verb::Two(TwoNumbers::State)),
        "left" => Some(Verb::One(OneNumber::Left)),
        _ => None,
    }
}

/// The command of a verb, with what stands after it.
fn read_verb(shape: &Geometry, verb: Option<Verb>, rest: &str) -> Result<Command, ScriptCause>
    requires { IsGeometry shape.now }
    ensures value { result ≡ read_verb shape.now verb (fields_between rest.now) }
    ensures range { IfOk result (λ command. is_in_range shape.now command ≡ true) }
{
    match verb {
        None => Err(ScriptCause::Word),
        Some(Verb::Go) => match next_field(rest) {
            Some(_) => Err(ScriptCause::Count),
            None => Ok(Command::Go),
        },
        Some(Verb::One(what)) => read_one(shape, what, rest),
        Some(Verb::Two(what)) => read_two(shape, what, rest),
    }
}

/// The two fields of a text, where it has two and no other.
fn two_fields(text: &str) -> Option<(&str, &str)>
    ensures { option_map (λ fields. (fields.0.now, fields.1.now)) result ≡ two_fields (fields_between text.now) }
{
    let (first, rest) = next_field(text)?;
    Some((first, only_field(rest)?))
}

/// A command that takes one number, with what stands after its word.
fn read_one(shape: &Geometry, what: OneNumber, rest: &str) -> Result<Command, ScriptCause>
    requires { IsGeometry shape.now }
    ensures value { result ≡ read_one shape.now what (only_field (fields_between rest.now)) }
    ensures range { IfOk result (λ command. is_in_range shape.now command ≡ true) }
{
    let Some(field) = only_field(rest) else {
        return Err(ScriptCause::Count);
    };
    match number_in(field) {
        Some(number) => in_range(shape, one_of(what, number)),
        None => Err(ScriptCause::Number),
    }
}

/// A command that takes two numbers, with what stands after its word.
fn read_two(shape: &Geometry, what: TwoNumbers, rest: &str) -> Result<Command, ScriptCause>
    requires { IsGeometry shape.now }
    ensures value { result ≡ read_two shape.now what (two_fields (fields_between rest.now)) }
    ensures range { IfOk result (λ command. is_in_range shape.now command ≡ true) }
{
    let Some((core, number)) = two_fields(rest) else {
        return Err(ScriptCause::Count);
    };
    match (number_in(core), number_in(number)) {
        (Some(core), Some(number)) => in_range(shape, two_of(what, core, number)),
        _ => Err(ScriptCause::Number),
    }
}

fn one_of(what: OneNumber, number: u32) -> Command
    ensures { result ≡ one_of what number }
{
    match what {
        OneNumber::Step => Command::Step(number),
        OneNumber::Regs => Command::Regs(number),
        OneNumber::Held => Command::Held(number),
        OneNumber::Word => Command::Word(number),
        OneNumber::Left => Command::Left(number),
    }
}

fn two_of(what: TwoNumbers, core: u32, number: u32) -> Command
    ensures { result ≡ two_of what core number }
{
    match what {
        TwoNumbers::Break => Command::Break(Breakpoint { core, pc: number }),
        TwoNumbers::State => Command::State(core, number),
    }
}

/// A command, where the machine has what it names.
fn in_range(shape: &Geometry, command: Command) -> Result<Command, ScriptCause>
    requires { IsGeometry shape.now }
    ensures value { result ≡ in_range shape.now command }
    ensures range { IfOk result (λ command. is_in_range shape.now command ≡ true) }
{
    if is_in_range(shape, command) {
        Ok(command)
    } else {
        Err(ScriptCause::Range)
    }
}

fn is_in_range(shape: &Geometry, command: Command) -> bool
    requires { IsGeometry shape.now }
    ensures { result ≡ is_in_range shape.now command }
{
    match command {
        Command::Step(slots) => 1 <= slots && slots <= MAX_SLOTS,
        Command::Break(at) => at.core < shape.cores,
        Command::Go => true,
        Command::Regs(c) | Command::Held(c) | Command::Left(c) => c < shape.cores,
        Command::Word(address) => address % 4 == 0 && address < shape.memory,
        Command::State(c, line) => c < shape.cores && has_line(shape, line),
    }
}

/// Whether memory has a line of this number.
fn has_line(shape: &Geometry, line: u32) -> bool
    requires { IsGeometry shape.now }
    ensures { result ≡ nat_le ((line + 1) * line_bytes shape.now) shape.now.memory }
{
    (u64::from(line) + 1) * u64::from(shape.line_bytes()) <= u64::from(shape.memory)
}
