//! Runs on threads, against the run on one.
ghost use Rattle.std.specs.Prelude.{◌≤◌, ◌<◌, ◌^◌, IfOk, length};
ghost use Rattle.std.specs.List.{All};
ghost use Rattle.pmsi_model.specs.declared.limits.TheConstants.{MAX_TEXT_WORDS};

use super::machines::{ALL, Draws, job, same_core, text};
use pmsi_model::{Geometry, Job, Words};
use pmsi_outside::Gate;
use sim_serial::Sim;
use sim_threads::run_threads;
use std::alloc::{AllocError, Global};
use std::process::Abort;
use std::sync::Wait;
use std::sync::atomic::{AtomicU64, Ordering};
use std::test::Fail;
use std::thread::Threads;

/// Words of texts: `lw x6, 0(x0)`, `lw x5, 16(x0)`, `sw x10, 0(x0)`, `sw x11, 16(x0)`, `sw x5, 32(x0)`,
/// `amoadd.w x5, x11, (x0)`, `addi x5, x0, 7`, and a jump back to the word before.
const PARTS: [u32; 8] = [
    0x0000_2303,
    0x0100_2283,
    0x00a0_2023,
    0x00b0_2823,
    0x0250_2023,
    0x00b0_22af,
    0x0070_0293,
    0xffdf_f06f,
];

/// A gate that counts the phases that it is told of.
#[derive(Drop)]
struct Counter {
    phases: AtomicU64,
}

impl Gate for Counter {
    fn before(&self, _core: u32, _slot: u32) {
        self.phases.fetch_add(1, Ordering::SeqCst);
    }
}

fn part(draws: &mut Draws) -> u32 {
    PARTS[draws.below(8) as usize]
}

/// A text of four words.
fn some_text(alloc: Global, draws: &mut Draws) -> Result<Words, AllocError>
    ensures size { IfOk result (λ text. length text ≤ MAX_TEXT_WORDS) }
    ensures words { IfOk result (λ text. All (λ word. word < 2 ^ 32) text) }
{
    let words = [part(draws), part(draws), part(draws), part(draws)];
    text(alloc, &words)
}

fn texts(alloc: Global, draws: &mut Draws, count: u32) -> Result<Vec<Words>, AllocError>
    ensures sizes { IfOk result (λ texts. All (λ text. length text ≤ MAX_TEXT_WORDS) texts.items) }
    ensures words { IfOk result (λ texts. All (λ text. All (λ word. word < 2 ^ 32) text) texts.items) }
{
    let mut texts = Vec::new(alloc);
    for _ in 0..count {
        texts.push(some_text(alloc, draws)?)?;
    }
    Ok(texts)
}

fn same(rt: &impl Abort, a: &Sim, b: &Sim) {
    assert_eq!(rt; (a.slot(), a.shape()), (b.slot(), b.shape()));
    assert_eq!(rt; a.bus().trace(), b.bus().trace());
    assert_eq!(rt; a.bus().trace().len(), a.shape().slots as usize);
    for c in 0..a.shape().cores {
        same_core(rt, a.core(c), b.core(c));
    }
}

/// A shape of two to sixteen cores, which has sixteen in half of all draws.
fn some_shape(draws: &mut Draws) -> Geometry {
    Geometry {
        cores: (2 + draws.below(29)).min(16),
        quantum: 1 + draws.below(6),
        line_words: 4,
        sets: 1 + draws.below(2),
        ways: 1 + draws.below(2),
        memory: 64,
        slots: draws.below(250),
    }
}

/// A run on threads comes to what the run on one comes to, and the gate is told of each phase.
fn runs_alike<R: Abort + Threads + Wait + Sync>(
    rt: &R,
    alloc: Global,
    job: &Job,
    workers: u32,
) -> Result<(), Fail> {
    let shape = job.shape();
    assert!(rt; shape.slots <= 250 && shape.cores <= 16 && shape.quantum <= 6);
    assert!(rt; 1 <= workers && workers <= 16);
    let mut sim = Sim::open(alloc, job, ALL)?;
    sim.run();
    let gate = Counter {
        phases: AtomicU64::new(0),
    };
    let threaded = run_threads(rt, alloc, job, ALL, workers, &gate)?;
    same(rt, &sim, &threaded);
    assert_eq!(rt;
        gate.phases.load(Ordering::SeqCst),
        u64::from(shape.slots) * u64::from(shape.cores)
    );
    Ok(())
}

#[test]
fn threads_reach_the_machine_of_one(rt: HostRuntime) -> Result<(), Fail> {
    for seed in 0..60 {
        let mut draws = Draws { state: seed };
        let shape = some_shape(&mut draws);
        let texts = texts(rt.alloc(), &mut draws, shape.cores)?;
        let job = job(&rt, rt.alloc(), shape, texts)?;
        runs_alike(&rt, rt.alloc(), &job, 1 + draws.below(16))?;
    }
    Ok(())
}
