//! The cores of a job before their first slot.
ghost use Rattle.std.specs.Prelude.{IfOk};
ghost use Rattle.pmsi_model.specs.Geometry.{CanKeep};
ghost use Rattle.core_unit.specs.Opened.{AreOpened};

use crate::unit::Core;
use pmsi_model::{Job, Keep, NoMemory};
use std::alloc::Global;

/// The cores of a job, by their number, each as `Core::open` gives it.
pub fn open_cores(alloc: Global, job: &Job, keep: Keep) -> Result<Vec<Core>, NoMemory>
    requires { CanKeep keep job.now.shape }
    ensures { IfOk result (λ v. AreOpened job.now keep v.items) }
{
    let count = job.shape().cores;
    let mut cores = Vec::with_capacity(alloc, count as usize)?;
    for c in 0..count {
        cores.push_reserved(Core::open(alloc, job, c, keep)?);
    }
    Ok(cores)
}
