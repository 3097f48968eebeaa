//! Prints plans.

ghost use Rattle.std.specs.Prelude.{◌≡◌, ◌++◌, OnOk, IfOk};
ghost use Rattle.std.specs.List.{flat_map};
ghost use Rattle.job_text.specs.Plans.{IsPlanOf, IsPrintable, core_line, core_lines, number_line, plan_text, program_fields, shape_lines, word_field};

use crate::plan::{JobPlan, Program};
use pmsi_model::{Geometry, NoMemory};
use std::alloc::{AllocError, Global};
use text_out::{hex_word, push_number, push_text};

/// The text of a plan: the version, the heads in their order, and the cores by their numbers.
#[tactic(auto, unfolding(crate::specs::Plans::plan_text))]
pub fn print_plan(alloc: Global, plan: &JobPlan) -> Result<Vec<u8>, NoMemory>
    ensures text { IfOk result (λ bytes. bytes.items ≡ plan_text plan.now) }
    // Where the plan can be printed, what its text means is the plan.
    ensures means { IfOk result (λ bytes. IsPrintable plan.now → IsPlanOf bytes.items plan.now) }
{
    let mut out = Vec::new(alloc);
    push_text(&mut out, "pmsi 1\n")?;
    push_shape(&mut out, &plan.shape)?;
    push_cores(&mut out, plan.programs.as_slice())?;
    Ok(out)
}

fn push_number_line(out: &mut Vec<u8>, name: &str, number: u32) -> Result<(), AllocError>
    ensures { OnOk result (out.new.items ≡ out.old.items ++ number_line name.now number) }
{
    push_text(out, name)?;
    push_text(out, " ")?;
    push_number(out, u64::from(number))?;
    push_text(out, "\n")
}

#[tactic(auto, unfolding(crate::specs::Plans::shape_lines))]
fn push_shape(out: &mut Vec<u8>, shape: &Geometry) -> Result<(), AllocError>
    ensures { OnOk result (out.new.items ≡ out.old.items ++ shape_lines shape.now) }
{
    push_number_line(out, "cores", shape.cores)?;
    push_number_line(out, "quantum", shape.quantum)?;
    push_number_line(out, "line", shape.line_words)?;
    push_number_line(out, "sets", shape.sets)?;
    push_number_line(out, "ways", shape.ways)?;
    push_number_line(out, "memory", shape.memory)?;
    push_number_line(out, "slots", shape.slots)
}

/// A word behind a blank.
fn push_word(out: &mut Vec<u8>, word: u32) -> Result<(), AllocError>
    ensures { OnOk result (out.new.items ≡ out.old.items ++ word_field word) }
{
    push_text(out, " ")?;
    out.extend_from_slice(&hex_word(word)[2..])
}

fn push_words(out: &mut Vec<u8>, words: &[u32]) -> Result<(), AllocError>
    ensures { OnOk result (out.new.items ≡ out.old.items ++ flat_map word_field words.now) }
{
    for word in words {
        push_word(out, *word)?;
    }
    Ok(())
}

#[tactic(auto, unfolding(crate::specs::Plans::program_fields))]
fn push_program(out: &mut Vec<u8>, program: &Program) -> Result<(), AllocError>
    ensures { OnOk result (out.new.items ≡ out.old.items ++ program_fields program.now) }
{
    match program {
        Program::Words(words) => {
            push_text(out, " hex")?;
            push_words(out, words.as_slice())
        }
        Program::Asm(name) => {
            push_text(out, " asm ")?;
            push_text(out, name.as_str())
        }
        Program::Image(name) => {
            push_text(out, " image ")?;
            push_text(out, name.as_str())
        }
    }
}

fn push_core(out: &mut Vec<u8>, core: u64, program: &Program) -> Result<(), AllocError>
    ensures { OnOk result (out.new.items ≡ out.old.items ++ core_line core program.now) }
{
    push_text(out, "core ")?;
    push_number(out, core)?;
    push_program(out, program)?;
    push_text(out, "\n")
}

fn push_cores(out: &mut Vec<u8>, programs: &[Program]) -> Result<(), AllocError>
    ensures { OnOk result (out.new.items ≡ out.old.items ++ core_lines 0 programs.now) }
{
    let mut core = 0;
    for program in programs {
        push_core(out, core, program)?;
        core += 1;
    }
    Ok(())
}
