//! Calls of `tool_threads`.
use super::examples::TWO_WRITERS;
use super::{ADDS, SMALL};
use crate::tests::*;
use std::sync::atomic::{AtomicU32, Ordering};
use std::thread;

/// Words that don't name `sim`, or that its own reading refuses.
const NO_SIMS: &[&[&str]] = &[
    &[],
    &["fly", "a.job"],
    &["run", "a.job"],
    &["asm", "a.job"],
    &["sim"],
    &["sim", "--workers", "0", "a.job"],
];

#[test]
fn threads_serve_sim_alone(rt: HostRuntime) -> Result<(), Fail> {
    let alloc = rt.alloc();
    for texts in NO_SIMS {
        let list = job_files(alloc, SMALL, &[ADDS])?;
        let ran = run_threaded(&rt, alloc, texts, list, &OpenGate::new())?;
        let line = "usage: pmsi COMMAND [OPTIONS] ARGUMENTS\n";
        told(&rt, "words", &ran, ToolStatus::Usage, line);
    }
    Ok(())
}

#[test]
fn threads_need_a_job(rt: HostRuntime) -> Result<(), Fail> {
    let alloc = rt.alloc();
    let gate = OpenGate::new();
    let ran = run_threaded(&rt, alloc, &["sim", "b.job"], Vec::new(alloc), &gate)?;
    told(&rt, "none", &ran, ToolStatus::ReadFault, "read fault\n");
    let heads = "quantum 256\nline 4\nsets 1\nways 1\nmemory 64\nslots 1000";
    let list = job_files(alloc, heads, &["ecall"; 16])?;
    let ran = run_threaded(
        &rt,
        alloc,
        &["sim", "--touches", "yes", "a.job"],
        list,
        &gate,
    )?;
    refused(&rt, alloc, &ran, "input: touches 4096000")?;
    Ok(())
}

/// The slots of the two writers.
const SLOTS: u32 = 6;

/// Writes down each phase of two cores, and holds each until the other core has come to the same slot.
#[derive(Drop)]
struct Meetings {
    /// How often each core came: core 0 and core 1 in slot 0, and so on.
    came: Vec<AtomicU32>,
    /// How often a core was held in vain.
    alone: AtomicU32,
    /// How often there was no such core or slot.
    strays: AtomicU32,
}

impl Meetings {
    fn new(alloc: Global) -> Result<Meetings, AllocError> {
        let mut came = Vec::new(alloc);
        for _ in 0..2 * SLOTS {
            came.push(AtomicU32::new(0))?;
        }
        Ok(Meetings {
            came,
            alone: AtomicU32::new(0),
            strays: AtomicU32::new(0),
        })
    }

    fn times(&self, core: u32, slot: u32) -> Option<&AtomicU32> {
        if core > 1 || slot >= SLOTS {
            return None;
        }
        self.came.get((2 * slot + core) as usize)
    }
}

impl Gate for Meetings {
    fn before(&self, core: u32, slot: u32) {
        let other = u32::from(core == 0);
        let (Some(own), Some(other)) = (self.times(core, slot), self.times(other, slot)) else {
            self.strays.fetch_add(1, Ordering::SeqCst);
            return;
        };
        own.fetch_add(1, Ordering::SeqCst);
        for _turn in 0..50_000_000 {
            if other.load(Ordering::SeqCst) > 0 {
                return;
            }
            thread::yield_now();
        }
        self.alone.fetch_add(1, Ordering::SeqCst);
    }
}

/// Two cores meet in each slot, so two threads have to work; what they write is what one thread writes.
#[test]
fn two_cores_run_at_the_same_time(rt: HostRuntime) -> Result<(), Fail> {
    let alloc = rt.alloc();
    let gate = Meetings::new(alloc)?;
    let list = job_files(alloc, TWO_WRITERS.heads, TWO_WRITERS.sources)?;
    let words = [
        "sim",
        "--workers",
        "2",
        "--trace",
        "yes",
        "--touches",
        "yes",
        "a.job",
    ];
    let ran = run_threaded(&rt, alloc, &words, list, &gate)?;
    assert_eq!(rt; gate.alone.load(Ordering::SeqCst), 0);
    assert_eq!(rt; gate.strays.load(Ordering::SeqCst), 0);
    for times in &gate.came {
        assert_eq!(rt; times.load(Ordering::SeqCst), 1);
    }
    wrote(&rt, "two writers", &ran, TWO_WRITERS.listing.as_bytes());
    Ok(())
}
