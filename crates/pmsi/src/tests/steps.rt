//! Whatever the order of the steps, cores and bus end as on one thread.
ghost use Rattle.std.specs.Prelude.{◌≤◌, ◌<◌, ◌^◌, IfOk, length};
ghost use Rattle.std.specs.List.{All};
ghost use Rattle.pmsi_model.specs.declared.limits.TheConstants.{MAX_CORES, MAX_TEXT_WORDS};

use super::machines::{Draws, job, same_core, text};
use pmsi_model::{Geometry, Job, Keep, Words};
use sim_serial::Sim;
use sim_steps::{Spread, Step, Took};
use std::alloc::{AllocError, Global};
use std::process::Abort;
use std::test::Fail;

/// `lw x5, 0(x7)`, `sw x5, 0(x7)`, `amoadd.w x5, x11, (x7)` and `add x5, x5, x7`
const USES: [u32; 4] = [0x0003_a283, 0x0053_a023, 0x00b3_a2af, 0x0072_82b3];

/// `jal x0` to the first of 33 words, and `ecall`
const LASTS: [u32; 2] = [0xf81f_f06f, 0x0000_0073];

/// Uses of random words of memory: over and over, or once.
fn words(draws: &mut Draws) -> [u32; 33] {
    let mut words = [LASTS[draws.below(2) as usize]; 33];
    for at in 0..16usize {
        let address = 4 * draws.below(32);
        // addi x7, x0, address
        words[2 * at] = (address << 20) + 0x393;
        words[2 * at + 1] = USES[draws.below(4) as usize];
    }
    words
}

/// A text for each core.
fn texts(alloc: Global, cores: u32, draws: &mut Draws) -> Result<Vec<Words>, AllocError>
    ensures sizes { IfOk result (λ texts. All (λ text. length text ≤ MAX_TEXT_WORDS) texts.items) }
    ensures words { IfOk result (λ texts. All (λ text. All (λ word. word < 2 ^ 32) text) texts.items) }
{
    let mut texts = Vec::new(alloc);
    for _ in 0..cores {
        let words = words(draws);
        texts.push(text(alloc, &words)?)?;
    }
    Ok(texts)
}

/// Cores that use eight lines, of which a cache holds four.
fn job_of(rt: &impl Abort, alloc: Global, cores: u32, draws: &mut Draws) -> Result<Job, AllocError>
    requires { cores ≤ MAX_CORES }
{
    let shape = Geometry {
        cores,
        quantum: 4,
        line_words: 4,
        sets: 2,
        ways: 2,
        memory: 128,
        slots: 12 * cores,
    };
    job(rt, alloc, shape, texts(alloc, cores, draws)?)
}

/// Takes the next step of a core in its order.
fn step_next(rt: &impl Abort, spread: &mut Spread, c: u32) -> Took {
    assert!(rt; c < spread.shape().cores);
    if spread.core(c).phase_done() {
        spread.take(Step::Meet(c))
    } else {
        spread.take(Step::Phase(c))
    }
}

/// Random cores take some steps each, in their order.
fn go_at_random(rt: &impl Abort, spread: &mut Spread, draws: &mut Draws) {
    let cores = spread.shape().cores;
    assert!(rt; 1 <= cores);
    for _ in 0..500 {
        let c = draws.below(cores);
        for _ in 0..draws.below(12) {
            let _ = step_next(rt, spread, c);
        }
    }
}

/// Rounds of steps, until nothing is left.
fn go_to_the_end(rt: &impl Abort, spread: &mut Spread) {
    for _ in 0..600 {
        for c in 0..spread.shape().cores {
            let _ = step_next(rt, spread, c);
        }
    }
}

/// One list of steps of one job.
fn ends_alike(rt: &impl Abort, alloc: Global, cores: u32, seed: u64) -> Result<(), AllocError>
    requires { cores ≤ MAX_CORES }
{
    let mut draws = Draws { state: seed };
    let job = job_of(rt, alloc, cores, &mut draws)?;
    let keep = Keep {
        trace: true,
        touches: false,
    };
    let (Ok(mut sim), Ok(mut spread)) = (Sim::open(alloc, &job, keep), Spread::open(alloc, &job))
    else {
        panic!(rt; "no memory")
    };
    sim.run();
    go_at_random(rt, &mut spread, &mut draws);
    go_to_the_end(rt, &mut spread);
    assert_eq!(rt; spread.shape(), sim.shape());
    for c in 0..sim.shape().cores {
        same_core(rt, spread.core(c), sim.core(c));
    }
    assert_eq!(rt; spread.bus().trace(), sim.bus().trace());
    Ok(())
}

fn lists_end_alike(rt: &impl Abort, alloc: Global, cores: u32) -> Result<(), AllocError>
    requires { cores ≤ MAX_CORES }
{
    for seed in 0..100u64 {
        ends_alike(rt, alloc, cores, seed)?;
    }
    Ok(())
}

#[test]
fn two_cores_end_alike(rt: HostRuntime) -> Result<(), Fail> {
    lists_end_alike(&rt, rt.alloc(), 2)?;
    Ok(())
}

#[test]
fn three_cores_end_alike(rt: HostRuntime) -> Result<(), Fail> {
    lists_end_alike(&rt, rt.alloc(), 3)?;
    Ok(())
}

#[test]
fn sixteen_cores_end_alike(rt: HostRuntime) -> Result<(), Fail> {
    lists_end_alike(&rt, rt.alloc(), 16)?;
    Ok(())
}
