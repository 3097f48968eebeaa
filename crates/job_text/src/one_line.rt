//! Reads a line by itself.

ghost use Rattle.std.specs.Prelude.{◌≡◌, ◌∷◌, ℕ, List, IfOk, Ok, MatchResult};
ghost use Rattle.std.specs.Option.{option_map};
ghost use Rattle.job_text.specs.declared.plan.Program.{Program};
ghost use Rattle.job_text.specs.declared.plan.Program.TheVariants as program;
ghost use Rattle.job_text.specs.declared.saying.Saying.TheVariants.{Runs};
ghost use Rattle.job_text.specs.Cutting.{fields_between};
ghost use Rattle.job_text.specs.Sayings.{head_named, only_field, read_core, read_kind, read_line, read_name, read_number, runs_if, core_in, said_if, words_in};
ghost use Rattle.job_text.specs.Reads.{IsReadAs, IsMisread};

use crate::cutting::{next_field, only_field};
use crate::job_fault::{HeadWord, LineCause};
use crate::misread::Misread;
use crate::numerals::{core_in, number_in, word_in};
use crate::plan::Program;
use crate::saying::Saying;
use pmsi_model::{Utf8Text, Words};
use std::alloc::{AllocError, Global};

/// Reads a line behind the version: its first field, and what stands after it.
#[tactic(auto, unfolding(crate::specs::Sayings::read_line))]
pub(crate) fn read_line(alloc: Global, first: &str, rest: &str) -> Result<Saying, Misread>
    ensures { IsReadAs result (read_line (first.now ∷ fields_between rest.now)) }
{
    if first == "core" {
        return read_core(alloc, rest);
    }
    let Some(word) = head_named(first) else {
        return Err(Misread::Cause(LineCause::Word));
    };
    match read_number(word, only_field(rest)) {
        Ok(saying) => Ok(saying),
        Err(why) => Err(Misread::Cause(why)),
    }
}

/// The head of this name.
#[tactic(auto, unfolding(crate::specs::Sayings::head_named))]
fn head_named(name: &str) -> Option<HeadWord>
    ensures { result ≡ head_named name.now }
{
    match name {
        "cores" => Some(HeadWord::Cores),
        "quantum" => Some(HeadWord::Quantum),
        "line" => Some(HeadWord::Line),
        "sets" => Some(HeadWord::Sets),
        "ways" => Some(HeadWord::Ways),
        "memory" => Some(HeadWord::Memory),
        "slots" => Some(HeadWord::Slots),
        _ => None,
    }
}

/// Reads the number of a head.
fn read_number(word: HeadWord, field: Option<&str>) -> Result<Saying, LineCause>
    ensures { result ≡ read_number word (option_map (λ field. field.now) field.entry) }
{
    let Some(field) = field else {
        return Err(LineCause::Count);
    };
    match number_in(field) {
        Some(number) => Ok(Saying::Sets(word, number)),
        None => Err(LineCause::Number),
    }
}

/// Reads what stands after `core`.
fn read_core(alloc: Global, text: &str) -> Result<Saying, Misread>
    ensures { IsReadAs result (read_core (fields_between text.now)) }
{
    let Some((core, rest)) = next_field(text) else {
        return Err(Misread::Cause(LineCause::Count));
    };
    let Some((kind, rest)) = next_field(rest) else {
        return Err(Misread::Cause(LineCause::Count));
    };
    read_kind(alloc, core, kind, rest)
}

/// Reads a program by its kind.
#[tactic(auto, unfolding(crate::specs::Sayings::read_kind))]
fn read_kind(alloc: Global, core: &str, kind: &str, rest: &str) -> Result<Saying, Misread>
    ensures { IsReadAs result (read_kind core.now kind.now (fields_between rest.now)) }
{
    match kind {
        "hex" => read_words(alloc, core, rest),
        "asm" => {
            let (core, name) = read_name(alloc, core, only_field(rest))?;
            Ok(Saying::Runs(core, Program::Asm(name)))
        }
        "image" => {
            let (core, name) = read_name(alloc, core, only_field(rest))?;
            Ok(Saying::Runs(core, Program::Image(name)))
        }
        _ => Err(Misread::Cause(LineCause::Word)),
    }
}

/// Reads a core's words.
fn read_words(alloc: Global, core: &str, rest: &str) -> Result<Saying, Misread>
    ensures { IsReadAs result (said_if (runs_if (core_in core.now) (option_map program.Words (words_in (fields_between rest.now))))) }
{
    let Some(core) = core_in(core) else {
        return Err(Misread::Cause(LineCause::Number));
    };
    let Some(words) = words_in(alloc, rest)? else {
        return Err(Misread::Cause(LineCause::Number));
    };
    Ok(Saying::Runs(core, Program::Words(Words::from_vec(words))))
}

/// Fields that are words, each of them.
fn words_in(alloc: Global, text: &str) -> Result<Option<Vec<u32>>, AllocError>
    ensures { IfOk result (λ words. option_map (λ words. words.items) words ≡ words_in (fields_between text.now)) }
{
    let mut words = Vec::new(alloc);
    let mut rest = text;
    while let Some((field, after)) = next_field(rest) {
        let Some(word) = word_in(field) else {
            return Ok(None);
        };
        words.push(word)?;
        rest = after;
    }
    Ok(Some(words))
}

/// Reads the number of a core and the name of a file.
fn read_name(alloc: Global, core: &str, name: Option<&str>) -> Result<(u32, Utf8Text), Misread>
    ensures { (made : List ℕ → Program) → MatchResult result
        (λ x. read_name made core.now (option_map (λ name. name.now) name.entry) ≡ Ok (Runs x.0 (made x.1)))
        (λ e. IsMisread e (read_name made core.now (option_map (λ name. name.now) name.entry))) }
{
    let Some(name) = name else {
        return Err(Misread::Cause(LineCause::Count));
    };
    let Some(core) = core_in(core) else {
        return Err(Misread::Cause(LineCause::Number));
    };
    let text = String::from_str(alloc, name)?;
    Ok((core, Utf8Text::from_string(text)))
}
