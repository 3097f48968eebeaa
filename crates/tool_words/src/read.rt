//! Reading the words of a call.
ghost use Rattle.std.specs.Prelude.{◌≡◌, ◌≢◌, ◌≤◌, IfOk, IfSome, None, false, map, option_map, string_bytes};
ghost use Rattle.std.specs.Char.{is_ascii_digit};
ghost use Rattle.std.specs.List.{list_all};
ghost use Rattle.clap.specs.Words.{app_of, kind_of, rule_of};
ghost use Rattle.tool_words.specs.Clap.{IsFoundIn, app_for, choice_rule, chosen, place_rule, placed};
ghost use Rattle.tool_words.specs.Meaning.{IsAllowed, answer_in, is_number, keep_in, meaning, number_in, number_of, value_of, values_in, within};

use crate::asked::Asked;
use crate::table::{
    Choice, Command, DEFAULT_CORES, DEFAULT_SLOTS, DEFAULT_WORKERS, Place, command_named,
};
use clap::error::ErrorKind;
use clap::{Arg, ArgAction, ArgMatches, Error};
use pmsi_model::limits::{MAX_CORES, MAX_SLOTS, MAX_WORKERS};
use pmsi_model::{Keep, NoMemory};
use std::alloc::{AllocError, Global};

fn choice_arg<'a>(alloc: Global, choice: Choice) -> Arg<'a>
    ensures rule { rule_of result ≡ choice_rule choice }
    ensures own { result.global ≡ false }
{
    Arg::new(alloc, choice.id())
        .long(choice.id())
        .action(ArgAction::Set)
}

fn place_arg<'a>(alloc: Global, place: Place) -> Arg<'a>
    ensures rule { rule_of result ≡ place_rule place }
    ensures own { result.global ≡ false }
{
    Arg::new(alloc, place.id())
        .required(true)
        .action(ArgAction::Set)
}

/// The command as clap sees it.
fn line_of<'a>(alloc: Global, command: Command) -> Result<clap::Command<'a>, AllocError>
    ensures { IfOk result (λ line. app_of line ≡ app_for command) }
{
    let mut line = clap::Command::new(alloc, command.word());
    for choice in command.choices() {
        line = line.arg(choice_arg(alloc, *choice))?;
    }
    for place in command.places() {
        line = line.arg(place_arg(alloc, *place))?;
    }
    Ok(line)
}

/// What clap finds in the words of a command, the first of which is the command's own. None where clap refuses them for
/// another cause than memory.
fn found_of<'a>(
    alloc: Global,
    command: Command,
    words: &'a [String],
) -> Result<Option<ArgMatches<'a>>, NoMemory>
    ensures { IfOk result (λ found. IsFoundIn found command (map string_bytes words.now)) }
{
    let line = line_of(alloc, command)?;
    match line.try_get_matches_from(words) {
        Ok(matches) => Ok(Some(matches)),
        Err(error) => refused(&error),
    }
}

/// No matches, but where clap found no memory.
fn refused<'a>(error: &Error) -> Result<Option<ArgMatches<'a>>, NoMemory>
    ensures refused { IfOk result (λ found. found ≡ None × (kind_of error.now ≢ ErrorKind.OutOfMemory)) }
{
    if error.kind() == ErrorKind::OutOfMemory {
        Err(NoMemory)
    } else {
        Ok(None)
    }
}

/// Whether an option's text is `yes`. It is `no` where the option isn't given.
fn answer(text: Option<&str>) -> Option<bool>
    ensures { result ≡ answer_in (option_map (λ text. text.now) text.entry) }
{
    match text {
        None => Some(false),
        Some("yes") => Some(true),
        Some("no") => Some(false),
        Some(_) => None,
    }
}

fn are_digits(bytes: &[u8]) -> bool
    ensures { result ≡ list_all is_ascii_digit bytes.now }
{
    bytes.iter().all(|byte| byte.is_ascii_digit())
}

/// Whether a text is one to ten decimal digits.
fn is_number(text: &str) -> bool
    ensures { result ≡ is_number text.now }
{
    let digits = text.as_bytes();
    if digits.is_empty() || digits.len() > 10 {
        return false;
    }
    are_digits(digits)
}

fn within(number: u32, least: u32, most: u32) -> Option<u32>
    ensures value { result ≡ within least most number }
    ensures within { IfSome result (λ number. (least ≤ number) × (number ≤ most)) }
{
    if least <= number && number <= most {
        Some(number)
    } else {
        None
    }
}

/// Their number, where it is within the range.
fn number(text: &str, least: u32, most: u32) -> Option<u32>
    ensures value { result ≡ number_of least most text.now }
    ensures within { IfSome result (λ number. (least ≤ number) × (number ≤ most)) }
{
    if !is_number(text) {
        return None;
    }
    match text.parse::<u32>() {
        Ok(number) => within(number, least, most),
        Err(_) => None,
    }
}

/// The number of an option, or what stands where it isn't given.
fn number_or(default: u32, least: u32, most: u32, text: Option<&str>) -> Option<u32>
    requires least { least ≤ default }
    requires most { default ≤ most }
    ensures value { result ≡ number_in default least most (option_map (λ text. text.now) text.entry) }
    ensures within { IfSome result (λ number. (least ≤ number) × (number ≤ most)) }
{
    match text {
        None => Some(default),
        Some(text) => number(text, least, most),
    }
}

fn choice<'a>(found: &ArgMatches<'a>, choice: Choice) -> Option<&'a str>
    ensures { option_map (λ text. text.now) result ≡ chosen found.now choice }
{
    found.get_str(choice.id())
}

fn place<'a>(found: &ArgMatches<'a>, place: Place) -> Option<&'a str>
    ensures { option_map (λ text. text.now) result ≡ placed found.now place }
{
    found.get_str(place.id())
}

/// What is kept of a run.
fn keep(found: &ArgMatches) -> Option<Keep>
    ensures { result ≡ keep_in (chosen found.now Choice.Trace) (chosen found.now Choice.Touches) }
{
    let trace = answer(choice(found, Choice::Trace))?;
    let touches = answer(choice(found, Choice::Touches))?;
    Some(Keep { trace, touches })
}

/// The values of a command.
fn values<'a>(command: Command, found: &ArgMatches<'a>) -> Option<Asked<'a>>
    ensures value { option_map value_of result ≡ values_in command (chosen found.now) (placed found.now) }
    ensures allowed { IfSome result IsAllowed }
{
    match command {
        Command::Run => run(found),
        Command::Sim => sim(found),
        Command::Trace => Some(Asked::Trace(place(found, Place::Job)?)),
        Command::Asm => Some(Asked::Asm(place(found, Place::Source)?)),
        Command::Dis => Some(Asked::Dis(place(found, Place::Image)?)),
        Command::Image => Some(Asked::Image(place(found, Place::Image)?)),
        Command::Gen => made(found),
        Command::Debug => debug(found),
    }
}

fn run<'a>(found: &ArgMatches<'a>) -> Option<Asked<'a>>
    ensures { option_map value_of result ≡ values_in Command.Run (chosen found.now) (placed found.now) }
{
    let keep = keep(found)?;
    let job = place(found, Place::Job)?;
    Some(Asked::Run { keep, job })
}

fn sim<'a>(found: &ArgMatches<'a>) -> Option<Asked<'a>>
    ensures value { option_map value_of result ≡ values_in Command.Sim (chosen found.now) (placed found.now) }
    ensures allowed { IfSome result IsAllowed }
{
    let workers = number_or(
        DEFAULT_WORKERS,
        1,
        MAX_WORKERS,
        choice(found, Choice::Workers),
    )?;
    let keep = keep(found)?;
    let job = place(found, Place::Job)?;
    Some(Asked::Sim { workers, keep, job })
}

fn made<'a>(found: &ArgMatches<'a>) -> Option<Asked<'a>>
    ensures value { option_map value_of result ≡ values_in Command.Gen (chosen found.now) (placed found.now) }
    ensures allowed { IfSome result IsAllowed }
{
    let cores = number_or(DEFAULT_CORES, 1, MAX_CORES, choice(found, Choice::Cores))?;
    let slots = number_or(DEFAULT_SLOTS, 0, MAX_SLOTS, choice(found, Choice::Slots))?;
    let run = answer(choice(found, Choice::Run))?;
    let seed = number(place(found, Place::Seed)?, 0, u32::MAX)?;
    Some(Asked::Gen {
        seed,
        cores,
        slots,
        run,
    })
}

fn debug<'a>(found: &ArgMatches<'a>) -> Option<Asked<'a>>
    ensures { option_map value_of result ≡ values_in Command.Debug (chosen found.now) (placed found.now) }
{
    let job = place(found, Place::Job)?;
    let script = place(found, Place::Script)?;
    Some(Asked::Debug { job, script })
}

/// What the words ask for, the program's name not among them. None where they name no command, where clap refuses them for
/// another cause than memory, `--help` and `-h` included, and where an option's value is none that it may have.
pub fn asked_of<'a>(alloc: Global, words: &'a [String]) -> Result<Option<Asked<'a>>, NoMemory>
    ensures value { IfOk result (λ asked. option_map value_of asked ≡ meaning (map string_bytes words.now)) }
    ensures allowed { IfOk result (λ asked. IfSome asked IsAllowed) }
{
    let Some(word) = words.first() else {
        return Ok(None);
    };
    let Some(command) = command_named(word.as_str()) else {
        return Ok(None);
    };
    let Some(found) = found_of(alloc, command, words)? else {
        return Ok(None);
    };
    Ok(values(command, &found))
}
