//! Puts lines into words of text and bytes of data.

ghost use Rattle.std.specs.Prelude.{◌≡◌, ℕ, ◌+◌, ◌≤◌, ◌<◌, ◌++◌, length, map, None, OnOk, IsSome};
ghost use Rattle.std.specs.List.{All, flat_map};
ghost use Rattle.pmsi_model.specs.declared.limits.TheConstants.{MAX_MEMORY};
ghost use Rattle.asm_parse.specs.Assembly.{items_of};
ghost use Rattle.asm_parse.specs.Items.{AreReady, IsSound, instrs_of, statement_of};
ghost use Rattle.asm_link.specs.Values.{held};
ghost use Rattle.asm_link.specs.Bytes.{byte_of, Overwrites};
ghost use Rattle.asm_link.specs.Placed.{Appends, codes_in, faults_in, number_bytes, number_word, unfit, wide};

use crate::byte_map::ByteMap;
use crate::resolve::word_of_item;
use crate::step::Step;
use crate::values::value_or_zero;
use asm_parse::{Expr, Instrs, Names, Statement, Width, in_32_bits};
use std::alloc::AllocError;

/// Puts the words of a line of text behind the others.
pub(crate) fn push_text(
    words: &mut Vec<u32>,
    step: &Step<'_>,
    names: &Names<'_>,
) -> Result<(), AllocError>
    requires faultless { faults_in (held names.now) step.now.address (items_of (statement_of step.now.does)) ≡ None }
    requires sound { IsSound step.now.in_data step.now.does }
    requires within { step.now.address ≤ MAX_MEMORY }
    ensures { OnOk result (Appends (codes_in (held names.now) step.now.address (items_of (statement_of step.now.does))) words.old.items words.new.items) }
{
    match &step.does {
        Statement::Instrs(instrs) => push_instrs(words, instrs, names, step.address),
        Statement::Numbers { width, numbers } => push_numbers(words, *width, numbers, names),
        _ => Ok(()),
    }
}

fn push_instrs(
    words: &mut Vec<u32>,
    instrs: &Instrs<'_>,
    names: &Names<'_>,
    address: u32,
) -> Result<(), AllocError>
    requires faultless { faults_in (held names.now) address (map (wide 4) (instrs_of instrs.now)) ≡ None }
    requires ready { AreReady instrs.now }
    requires within { address ≤ MAX_MEMORY }
    ensures { OnOk result (Appends (codes_in (held names.now) address (map (wide 4) (instrs_of instrs.now))) words.old.items words.new.items) }
{
    match instrs {
        Instrs::One(item) => words.push(word_of_item(item, names, address))?,
        Instrs::Two(first, second) => {
            words.push(word_of_item(first, names, address))?;
            words.push(word_of_item(second, names, address + 4))?;
        }
    }
    Ok(())
}

fn push_numbers(
    words: &mut Vec<u32>,
    width: Width,
    numbers: &[Expr<'_>],
    names: &Names<'_>,
) -> Result<(), AllocError>
    requires { All (λ e. unfit (held names.now) width e ≡ None) numbers.now }
    ensures { OnOk result (words.new.items ≡ words.old.items ++ map (number_word (held names.now)) numbers.now) }
{
    for number in numbers {
        words.push(word_of_number(width, number, names))?;
    }
    Ok(())
}

/// A number of a line as a word.
fn word_of_number(width: Width, number: &Expr<'_>, names: &Names<'_>) -> u32
    requires { unfit (held names.now) width number.now ≡ None }
    ensures { result ≡ number_word (held names.now) number.now }
{
    in_32_bits(value_or_zero(number, names))
}

/// Puts the bytes of a line of numbers where they are named.
pub(crate) fn put_numbers(
    memory: &mut ByteMap,
    address: u32,
    width: Width,
    numbers: &[Expr<'_>],
    names: &Names<'_>,
)
    requires fit { All (λ e. unfit (held names.now) width e ≡ None) numbers.now }
    requires named { (k : ℕ) → k < length (flat_map (number_bytes (held names.now) width) numbers.now) → IsSome (byte_of memory.old (address + k)) }
    requires within { address + length (flat_map (number_bytes (held names.now) width) numbers.now) ≤ MAX_MEMORY }
    ensures { Overwrites memory.old memory.new address (flat_map (number_bytes (held names.now) width) numbers.now) }
{
    let mut at = address;
    for number in numbers {
        let bytes = word_of_number(width, number, names).to_le_bytes();
        memory.put_bytes(at, &bytes[..width.bytes() as usize]);
        at += width.bytes();
    }
}
