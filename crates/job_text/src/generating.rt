//! Makes plans from seeds.

ghost use Rattle.std.specs.Prelude.{◌≡◌, ◌≤◌, ◌/◌, ◌^◌, ◌++◌, map, IfOk, OnOk};
ghost use Rattle.std.specs.List.{range_with_len};
ghost use Rattle.pmsi_model.specs.declared.limits.TheConstants.{MAX_CORES, MAX_SLOTS};
ghost use Rattle.job_text.specs.Generating.{access_word, address_word, generated, made_program, made_shape, moved, pair_of, state_after, text_from};
ghost use Rattle.job_text.specs.Plans.{IsPrintable};

use crate::plan::{JobPlan, Program, Programs};
use pmsi_model::{Geometry, NoMemory, Words};
use std::alloc::{AllocError, Global};

/// How many draws a core's program takes.
const DRAWS: u32 = 31;

/// `addi x7, x0, 0`, without its offset.
const ADDRESS: u32 = 0x0000_0393;

/// `lw x5, 0(x7)`, `sw x5, 0(x7)`, `amoadd.w x5, x11, (x7)` and `add x5, x5, x7`.
const ACCESSES: [u32; 4] = [0x0003_a283, 0x0053_a023, 0x00b3_a2af, 0x0072_82b3];

/// `addi x6, x6, 1`, and `jal x0` from the last word back to the first.
const ENDING: [u32; 2] = [0x0013_0313, 0xf05f_f06f];

/// The plan that a seed gives: programs of 64 words, which read and write the first 256 words of memory.
#[tactic(auto, unfolding(crate::specs::Generating::generated))]
pub fn generate(alloc: Global, seed: u32, cores: u32, slots: u32) -> Result<JobPlan, NoMemory>
    requires cores { (1 ≤ cores) × (cores ≤ MAX_CORES) }
    requires slots { slots ≤ MAX_SLOTS }
    ensures plan { IfOk result (λ plan. plan ≡ generated seed cores slots) }
    // It is within the limits, and its text means it.
    ensures printable { IfOk result (λ plan. IsPrintable plan) }
{
    let programs = programs_of(alloc, seed, cores)?;
    Ok(JobPlan {
        shape: shape_of(cores, slots),
        programs: Programs::from_vec(programs),
    })
}

fn shape_of(cores: u32, slots: u32) -> Geometry
    ensures { result ≡ made_shape cores slots }
{
    Geometry {
        cores,
        quantum: 4,
        line_words: 4,
        sets: 2,
        ways: 2,
        memory: 1024,
        slots,
    }
}

/// The programs of the cores, one after another.
fn programs_of(alloc: Global, seed: u32, cores: u32) -> Result<Vec<Program>, AllocError>
    ensures { IfOk result (λ programs. programs.items ≡ map (made_program seed) (range_with_len 0 cores)) }
{
    let mut programs = Vec::new(alloc);
    let mut state = u64::from(seed);
    for _ in 0..cores {
        let text = draw_text(alloc, &mut state)?;
        programs.push(Program::Words(Words::from_vec(text)))?;
    }
    Ok(programs)
}

/// The text of a core, for which the state moves on.
fn draw_text(alloc: Global, state: &mut u64) -> Result<Vec<u32>, AllocError>
    ensures { IfOk result (λ words. (words.items ≡ text_from state.old) × (state.new ≡ state_after state.old 31)) }
{
    let mut words = Vec::new(alloc);
    for _ in 0..DRAWS {
        push_pair(&mut words, draw(state))?;
    }
    words.extend_from_slice(&ENDING)?;
    Ok(words)
}

/// Moves the state on, and gives its upper half.
fn draw(state: &mut u64) -> u32
    ensures state { state.new ≡ moved state.old }
    ensures draw { result ≡ state.new / 2 ^ 32 }
{
    *state = state
        .wrapping_mul(6_364_136_223_846_793_005)
        .wrapping_add(1_442_695_040_888_963_407);
    (*state >> 32) as u32
}

/// Appends the words that a draw gives: one that takes an address, and one that does something there.
fn push_pair(words: &mut Vec<u32>, draw: u32) -> Result<(), AllocError>
    ensures { OnOk result (words.new.items ≡ words.old.items ++ pair_of draw) }
{
    words.push(address_word(draw))?;
    words.push(access_word(draw))?;
    Ok(())
}

fn address_word(draw: u32) -> u32
    ensures { result ≡ address_word draw }
{
    4 * (draw % 256) * 0x0010_0000 + ADDRESS
}

fn access_word(draw: u32) -> u32
    ensures { result ≡ access_word draw }
{
    ACCESSES[(draw / 256 % 4) as usize]
}
