//! What a shared bus is the bus of.
ghost use Rattle.std.specs.Prelude.{◌≡◌, IfOk};
ghost use Rattle.pmsi_model.specs.Job.{IsJob};

use pmsi_model::{Bytes, Job, NoMemory, WordLists, Words};
use std::alloc::Global;

/// The job of a bus, and whether the bus keeps the actions of all slots.
#[derive(Drop)]
pub struct About {
    pub job: Job,
    pub keeps: bool,
}

/// An equal job.
pub fn copy_of(alloc: Global, job: &Job) -> Result<Job, NoMemory>
    ensures job { IfOk result (λ j. j ≡ job.now) }
    ensures within { IsJob job.now }
{
    let shape = job.shape();
    let mut texts = Vec::with_capacity(alloc, shape.cores as usize)?;
    for core in 0..shape.cores {
        let text = Vec::from_slice(alloc, job.text(core).as_slice())?;
        texts.push_reserved(Words::from_vec(text));
    }
    let start = Vec::from_slice(alloc, job.start())?;
    Ok(Job::new(shape, WordLists::from_vec(texts), Bytes::from_vec(start)))
}
