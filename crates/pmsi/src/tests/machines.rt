//! Machines of small jobs: their texts, the jobs, and a comparison of two cores.
ghost use Rattle.std.specs.Prelude.{◌≡◌, ◌≤◌, ◌<◌, ◌^◌, IfOk, length};
ghost use Rattle.std.specs.List.{All};
ghost use Rattle.pmsi_model.specs.declared.limits.TheConstants.{MAX_TEXT_WORDS};

use cache_array::CacheArray;
use core_unit::Core;
use pmsi_model::{Bytes, Geometry, Job, Keep, WordLists, Words};
use std::alloc::{AllocError, Global};
use std::process::Abort;

/// Actions and accesses are kept.
pub(super) const ALL: Keep = Keep {
    trace: true,
    touches: true,
};

/// Numbers that follow from a seed.
#[derive(Drop)]
pub(super) struct Draws {
    pub(super) state: u64,
}

impl Draws {
    /// A number from 0 on below `count`.
    pub(super) fn below(&mut self, count: u32) -> u32
        requires { 1 ≤ count }
        ensures { result < count }
    {
        self.state = self
            .state
            .wrapping_mul(6_364_136_223_846_793_005)
            .wrapping_add(1_442_695_040_888_963_407);
        (self.state >> 33) as u32 % count
    }
}

pub(super) fn text(alloc: Global, words: &[u32]) -> Result<Words, AllocError>
    ensures same { IfOk result (λ text. text ≡ words.now) }
    ensures words { IfOk result (λ text. All (λ word. word < 2 ^ 32) text) }
{
    Ok(Words::from_vec(words.to_vec(alloc)?))
}

/// So many texts alike.
pub(super) fn alike(alloc: Global, words: &[u32], count: u32) -> Result<Vec<Words>, AllocError>
    requires { length words.now ≤ MAX_TEXT_WORDS }
    ensures sizes { IfOk result (λ texts. All (λ text. length text ≤ MAX_TEXT_WORDS) texts.items) }
    ensures words { IfOk result (λ texts. All (λ text. All (λ word. word < 2 ^ 32) text) texts.items) }
{
    let mut texts = Vec::new(alloc);
    for _ in 0..count {
        texts.push(text(alloc, words)?)?;
    }
    Ok(texts)
}

/// A job whose memory is 0 at the start.
pub(super) fn job(
    rt: &impl Abort,
    alloc: Global,
    shape: Geometry,
    texts: Vec<Words>,
) -> Result<Job, AllocError>
    requires sizes { All (λ text. length text ≤ MAX_TEXT_WORDS) texts.items }
    requires words { All (λ text. All (λ word. word < 2 ^ 32) text) texts.items }
    ensures { IfOk result (λ job. job.shape ≡ shape) }
{
    assert!(rt; shape.is_within_limits());
    assert!(rt; texts.len() == shape.cores as usize);
    let start = vec![in alloc; 0; shape.memory as usize]?;
    Ok(Job::new(shape, WordLists::from_vec(texts), Bytes::from_vec(start)))
}

fn same_held(rt: &impl Abort, one: &CacheArray, other: &CacheArray) {
    assert_eq!(rt; one.held_count(), other.held_count());
    for place in 0..one.held_count() {
        assert_eq!(rt; one.held(place), other.held(place));
    }
}

/// Slot, registers, status, rows, accesses and held lines are equal in both.
pub(super) fn same_core(rt: &impl Abort, one: &Core, other: &Core) {
    assert_eq!(rt; one.slot(), other.slot());
    assert_eq!(rt; one.regs(), other.regs());
    assert_eq!(rt;
        (one.pc(), one.retired(), one.status()),
        (other.pc(), other.retired(), other.status())
    );
    assert_eq!(rt; one.rows(), other.rows());
    assert_eq!(rt; one.touches(), other.touches());
    same_held(rt, one.cache(), other.cache());
}
