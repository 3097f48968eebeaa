//! The first round: gives each line its place, and defines its names.

ghost use Rattle.std.specs.Prelude.{◌≡◌, ◌≢◌, ℕ, ◌≤◌, ◌<◌, ◌+◌, ◌-◌, ◌^◌, ◌==◌, not, List, [], ◌++◌, length, None, Some, IfOk, IfErr, OnOk, IsSome, true};
ghost use Rattle.std.specs.List.{All};
ghost use Rattle.pmsi_model.specs.declared.limits.TheConstants.{MAX_FILE_BYTES};
ghost use Rattle.asm_parse.specs.Assembly.{Before, first_fault, here, items_of, moved, size_of, steps_of, text_fault, range_fault, overlap_fault};
ghost use Rattle.asm_parse.specs.Items.{statement_of};
ghost use Rattle.asm_link.specs.Bytes.{byte_of};
ghost use Rattle.asm_link.specs.Filled.{IsKept};
ghost use Rattle.asm_link.specs.Rounds.{IsLayout, IsWithin, IsNamed, AddsLine, RefusesLine, HasAllRoom, KeepsRoom, kept_of, room_fault, runs_of};

use crate::byte_map::ByteMap;
use crate::definitions::{define_constant, define_labels};
use crate::step::Step;
use asm_parse::{AsmCause, AsmFault, Instrs, Line, Names, Place, Statement, next_line, read_line};
use pmsi_model::limits::{MAX_FILE_BYTES, MAX_MEMORY, MAX_TEXT_WORDS};
use std::alloc::{AllocError, Global};

/// What the lines so far have left: the number of the next line, its place, and what was named and kept.
#[derive(Drop)]
pub(crate) struct Layout<'a> {
    pub(crate) number: u32,
    pub(crate) place: Place,
    pub(crate) names: Names<'a>,
    pub(crate) memory: ByteMap,
    pub(crate) steps: Vec<Step<'a>>,
}

impl<'a> Layout<'a> {
    /// Before the first line.
    pub(crate) fn new(alloc: Global) -> Layout<'a>
        ensures layout { IsLayout result [] }
        ensures within { IsWithin result.place }
        ensures empty { result.steps.items ≡ [] }
        ensures number { result.number ≡ 1 }
    {
        Layout {
            number: 1,
            place: Place {
                in_data: false,
                text_at: 0,
                data_at: 0,
            },
            names: Names::new(alloc),
            memory: ByteMap::new(alloc),
            steps: Vec::new(alloc),
        }
    }

    /// Takes the next line.
    pub(crate) fn add_line(&mut self, alloc: Global, line: &'a str) -> Result<(), AsmFault>
        requires line { length line.now ≤ MAX_FILE_BYTES }
        requires number { self.old.number < 2 ^ 32 - 1 }
        requires within { IsWithin self.old.place }
        ensures line { OnOk result (AddsLine line.now self.old self.new) }
        ensures fault { IfErr result (λ e. e ≢ AsmFault.NoMemory → RefusesLine line.now self.old e) }
        ensures within { OnOk result (IsWithin self.new.place) }
        ensures kept { OnOk result (All IsKept self.old.steps.items → All IsKept self.new.steps.items) }
        ensures room { OnOk result (KeepsRoom self.old self.new) }
        ensures number { OnOk result (self.new.number ≡ self.old.number + 1) }
    {
        let place = self.place;
        let number = self.number;
        let Line { labels, does } = read_line(alloc, number, line, place, &self.names)?;
        define_labels(&mut self.names, number, &labels, here(place))?;
        define_constant(&mut self.names, number, &does)?;
        let size = size_of(&does);
        if let Some(cause) = room_fault(place, &self.memory, &does, size) {
            return Err(AsmFault::At(number, cause));
        }
        name_bytes(&mut self.memory, place, &does, size)?;
        self.place = moved(place, &does, size);
        self.number = number + 1;
        keep(&mut self.steps, number, place, does)?;
        Ok(())
    }
}

/// Lays out all lines of a source.
pub(crate) fn lay_out<'a>(alloc: Global, source: &'a str) -> Result<Layout<'a>, AsmFault>
    requires { length source.now ≤ MAX_FILE_BYTES }
    ensures layout { IfOk result (λ layout. IsLayout layout (steps_of source.now)) }
    ensures within { IfOk result (λ layout. IsWithin layout.place) }
    ensures kept { IfOk result (λ layout. All IsKept layout.steps.items) }
    ensures room { IfOk result (λ layout. HasAllRoom layout) }
    ensures fault { IfErr result (λ e. e ≢ AsmFault.NoMemory → first_fault (λ step. step.fault) (steps_of source.now) ≡ Some e) }
{
    let mut layout = Layout::new(alloc);
    let mut rest = source;
    while let Some((line, after)) = next_line(rest) {
        layout.add_line(alloc, line)?;
        rest = after;
    }
    Ok(layout)
}

/// Names the bytes of a statement.
fn name_bytes(
    memory: &mut ByteMap,
    place: Place,
    does: &Statement<'_>,
    size: u128,
) -> Result<(), AllocError>
    requires size { size ≡ size_of (statement_of does.now) }
    requires within { IsWithin (moved (statement_of does.now) place) }
    ensures runs { OnOk result ((runs : List (ℕ × ℕ)) → IsNamed memory.old runs → IsNamed memory.new (runs_of place (statement_of does.now) ++ runs)) }
    ensures named { OnOk result ((k : ℕ) → place.in_data ≡ true → k < size → IsSome (byte_of memory.new (place.data_at + k))) }
    ensures still { OnOk result ((address : ℕ) → IsSome (byte_of memory.old address) → IsSome (byte_of memory.new address)) }
{
    if place.in_data && size > 0 {
        memory.name(place.data_at, size as u32)?;
    }
    Ok(())
}

/// Keeps a statement that has items.
fn keep<'a>(
    steps: &mut Vec<Step<'a>>,
    number: u32,
    place: Place,
    does: Statement<'a>,
) -> Result<(), AllocError>
    ensures { OnOk result (steps.new.items ≡ steps.old.items ++ kept_of number place does.entry) }
{
    if has_items(&does) {
        steps.push(Step {
            number,
            in_data: place.in_data,
            address: here(place),
            does,
        })?;
    }
    Ok(())
}

/// The next address of the space that lines go to.
fn here(place: Place) -> u32
    ensures { result ≡ here place }
{
    if place.in_data {
        place.data_at
    } else {
        place.text_at
    }
}

/// How many bytes a statement puts into its space, in 128 bits: nothing here bounds how many numbers a line has, and four
/// times their count may not fit 64 bits.
fn size_of(does: &Statement<'_>) -> u128
    ensures { result ≡ size_of (statement_of does.now) }
{
    match does {
        Statement::Instrs(Instrs::One(_)) => 4,
        Statement::Instrs(Instrs::Two(_, _)) => 8,
        Statement::Numbers { width, numbers } => u128::from(width.bytes()) * numbers.len() as u128,
        Statement::Zeros(count) => u128::from(*count),
        _ => 0,
    }
}

/// Whether a statement has instructions or numbers, whose values may still be open.
fn has_items(does: &Statement<'_>) -> bool
    ensures { result ≡ not (length (items_of (statement_of does.now)) == 0) }
{
    match does {
        Statement::Instrs(_) => true,
        Statement::Numbers { numbers, .. } => !numbers.is_empty(),
        _ => false,
    }
}

/// What is wrong with a statement's size, or with the bytes that it names.
#[tactic(auto, unfolding(asm_parse::specs::Assembly::first_of))]
fn room_fault(place: Place, memory: &ByteMap, does: &Statement<'_>, size: u128) -> Option<AsmCause>
    requires size { size ≡ size_of (statement_of does.now) }
    requires within { IsWithin place }
    ensures fault { (b : Before) → b.place ≡ place → IsNamed memory.now b.runs → result ≡ room_fault b (statement_of does.now) }
    ensures within { result ≡ None → IsWithin (moved (statement_of does.now) place) }
{
    if let Some(cause) = text_fault(place, does, size) {
        return Some(cause);
    }
    if let Some(cause) = range_fault(place, does, size) {
        return Some(cause);
    }
    overlap_fault(place, memory, does, size)
}

/// The text is too long.
fn text_fault(place: Place, does: &Statement<'_>, size: u128) -> Option<AsmCause>
    requires size { size ≡ size_of (statement_of does.now) }
    requires within { IsWithin place }
    ensures { result ≡ text_fault place (statement_of does.now) }
{
    if !place.in_data && size > u128::from(4 * MAX_TEXT_WORDS - place.text_at) {
        Some(AsmCause::TextLong)
    } else {
        None
    }
}

/// An address is past the greatest memory.
fn range_fault(place: Place, does: &Statement<'_>, size: u128) -> Option<AsmCause>
    requires size { size ≡ size_of (statement_of does.now) }
    requires within { IsWithin place }
    ensures { result ≡ range_fault place (statement_of does.now) }
{
    let address = match does {
        Statement::MoveTo(address) if *address > MAX_MEMORY => *address,
        Statement::MoveTo(_) => return None,
        _ if place.in_data && size > u128::from(MAX_MEMORY - place.data_at) => MAX_MEMORY,
        _ => return None,
    };
    Some(AsmCause::Range(address))
}

/// A byte is named a second time.
fn overlap_fault(
    place: Place,
    memory: &ByteMap,
    does: &Statement<'_>,
    size: u128,
) -> Option<AsmCause>
    requires size { size ≡ size_of (statement_of does.now) }
    requires within { IsWithin place }
    requires range { range_fault place (statement_of does.now) ≡ None }
    ensures { (b : Before) → b.place ≡ place → IsNamed memory.now b.runs → result ≡ overlap_fault b (statement_of does.now) }
{
    if !place.in_data || size == 0 {
        return None;
    }
    let address = memory.first_named(place.data_at, size as u32)?;
    Some(AsmCause::Overlap(address))
}

/// Where the next line stands.
fn moved(place: Place, does: &Statement<'_>, size: u128) -> Place
    requires size { size ≡ size_of (statement_of does.now) }
    requires within { IsWithin (moved (statement_of does.now) place) }
    ensures { result ≡ moved (statement_of does.now) place }
{
    let mut place = place;
    match does {
        Statement::Switch { to_data } => place.in_data = *to_data,
        Statement::MoveTo(address) => place.data_at = *address,
        _ if place.in_data => place.data_at += size as u32,
        _ => place.text_at += size as u32,
    }
    place
}
