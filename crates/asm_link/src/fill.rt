//! The second round: gives names their values, and puts lines into text and data.

ghost use Rattle.std.specs.Prelude.{◌≡◌, ◌≢◌, ◌<◌, ◌^◌, true, None, Some, IfErr, IfOk, OnOk};
ghost use Rattle.std.specs.List.{All, AllZip, flat_map};
ghost use Rattle.asm_parse.specs.Assembly.{at_line, IsWordOf};
ghost use Rattle.asm_link.specs.Values.{held};
ghost use Rattle.asm_link.specs.Placed.{Appends};
ghost use Rattle.asm_link.specs.Filled.{HasRoom, IsKept, PutsAll, PutsBytes, first_later, step_fault, text_codes};

use crate::byte_map::ByteMap;
use crate::emit::{push_text, put_numbers};
use crate::later::later_fault;
use crate::step::Step;
use asm_parse::{AsmFault, Names, Statement};
use std::alloc::Global;

/// The words of the lines of text; the bytes of the lines of data go to memory.
pub(crate) fn fill(
    alloc: Global,
    steps: &[Step<'_>],
    names: &Names<'_>,
    memory: &mut ByteMap,
) -> Result<Vec<u32>, AsmFault>
    requires kept { All IsKept steps.now }
    requires room { All (HasRoom (held names.now) memory.old) steps.now }
    ensures fault { IfErr result (λ e. e ≢ AsmFault.NoMemory → first_later (held names.now) steps.now ≡ Some e) }
    ensures faultless { OnOk result (All (λ step. step_fault (held names.now) step ≡ None) steps.now) }
    ensures words { IfOk result (λ words. AllZip IsWordOf (flat_map (text_codes (held names.now)) steps.now) words.items) }
    ensures small { IfOk result (λ words. All (λ word. word < 2 ^ 32) words.items) }
    ensures bytes { OnOk result (PutsAll (held names.now) steps.now memory.old memory.new) }
{
    let mut words = Vec::new(alloc);
    for step in steps {
        add_step(step, names, &mut words, memory)?;
    }
    Ok(words)
}

/// Puts a line's words behind the text, or its bytes into memory, unless it has a fault.
fn add_step(
    step: &Step<'_>,
    names: &Names<'_>,
    words: &mut Vec<u32>,
    memory: &mut ByteMap,
) -> Result<(), AsmFault>
    requires kept { IsKept step.now }
    requires room { HasRoom (held names.now) memory.old step.now }
    ensures fault { IfErr result (λ e. e ≢ AsmFault.NoMemory → at_line step.now.number (step_fault (held names.now) step.now) ≡ Some e) }
    ensures faultless { OnOk result (step_fault (held names.now) step.now ≡ None) }
    ensures words { OnOk result (Appends (text_codes (held names.now) step.now) words.old.items words.new.items) }
    ensures small { OnOk result (All (λ word. word < 2 ^ 32) words.new.items) }
    ensures bytes { OnOk result (PutsBytes (held names.now) step.now memory.old memory.new) }
{
    if let Some(cause) = later_fault(step, names) {
        return Err(AsmFault::At(step.number, cause));
    }
    if step.in_data {
        put_data(memory, step, names);
    } else {
        push_text(words, step, names)?;
    }
    Ok(())
}

/// Puts the bytes of a line of data where they are named.
fn put_data(memory: &mut ByteMap, step: &Step<'_>, names: &Names<'_>)
    requires data { step.now.in_data ≡ true }
    requires kept { IsKept step.now }
    requires room { HasRoom (held names.now) memory.old step.now }
    requires faultless { step_fault (held names.now) step.now ≡ None }
    ensures { PutsBytes (held names.now) step.now memory.old memory.new }
{
    if let Statement::Numbers { width, numbers } = &step.does {
        put_numbers(memory, step.address, *width, numbers, names);
    }
}
