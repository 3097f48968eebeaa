//! Made jobs.
ghost use Rattle.std.specs.Prelude.{◌≡◌, ◌≤◌, IfOk, IfErr};
ghost use Rattle.pmsi_model.specs.declared.limits.TheConstants.{MAX_CORES, MAX_SLOTS};
ghost use Rattle.pmsi_model.specs.Listing.{summary_of};
ghost use Rattle.job_text.specs.Plans.{IsPlan};
ghost use Rattle.sim_serial.specs.Sims.{IsSimOf};
ghost use Rattle.tool_words.specs.Meaning.{gen};
ghost use Rattle.tool_files.specs.Course.{ends, gives, keeps_nothing, planned};
ghost use Rattle.tool_files.specs.Stops.{Stops, files_call};
ghost use Rattle.pmsi_tool.specs.Answers.{GivesText, StopsOn};

use crate::answer::run_serially;
use job_text::{JobPlan, generate, print_plan};
use listing::summary;
use pmsi_model::{Job, Keep, NoMemory};
use pmsi_outside::Files;
use sim_serial::Sim;
use std::alloc::Global;
use tool_files::{Stop, read_planned};

/// The text of the job that a seed makes, or the summary of its run.
pub(crate) fn made<F: Files>(
    alloc: Global,
    files: &mut F,
    seed: u32,
    cores: u32,
    slots: u32,
    run: bool,
) -> Result<Vec<u8>, Stop>
    requires some { 1 ≤ cores }
    requires few { cores ≤ MAX_CORES }
    requires slots { slots ≤ MAX_SLOTS }
    ensures text { IfOk result (λ text. GivesText (F.contents files.old) (gen seed cores slots run) text.items) }
    ensures stop { IfErr result (StopsOn (gen seed cores slots run)
        (files_call (F.contents files.old) (F.faults files.old) (F.faults files.new) (F.blamed files.new))) }
    ensures contents { F.contents files.new ≡ F.contents files.old }
{
    let plan = generate(alloc, seed, cores, slots)?;
    if run {
        Ok(run_summary(alloc, files, &plan)?)
    } else {
        Ok(print_plan(alloc, &plan)?)
    }
}

/// The summary of the run of a plan's job.
fn run_summary<F: Files>(alloc: Global, files: &mut F, plan: &JobPlan) -> Result<Vec<u8>, Stop>
    requires { IsPlan plan.now }
    ensures text { IfOk result (λ text. planned (F.contents files.old) keeps_nothing (λ j. ends (summary_of j)) plan.now (gives text.items)) }
    ensures stop { IfErr result (Stops (planned (F.contents files.old) keeps_nothing (λ j. ends (summary_of j)) plan.now)
        (files_call (F.contents files.old) (F.faults files.old) (F.faults files.new) (F.blamed files.new))) }
    ensures contents { F.contents files.new ≡ F.contents files.old }
{
    let keep = Keep {
        trace: false,
        touches: false,
    };
    let job = read_planned(alloc, files, keep, plan)?;
    let sim = run_serially(alloc, &job, keep)?;
    Ok(summary_after(alloc, &job, &sim)?)
}

/// The summary of the machine of a job after its last slot.
fn summary_after(alloc: Global, _job: &Job, sim: &Sim) -> Result<Vec<u8>, NoMemory>
    requires { IsSimOf _job.now _job.now.shape.slots sim.now }
    ensures { IfOk result (λ text. text.items ≡ summary_of _job.now) }
{
    summary(alloc, sim)
}
