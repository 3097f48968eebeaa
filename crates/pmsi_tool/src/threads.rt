//! The answer to a call of `tool_threads`, before anything is written.
ghost use Rattle.std.specs.Prelude.{◌≡◌, ◌≤◌, true, map, string_bytes, IfOk, IfErr};
ghost use Rattle.pmsi_model.specs.declared.limits.TheConstants.{MAX_WORKERS};
ghost use Rattle.tool_words.specs.Meaning.{IsAllowed, sim, value_of};
ghost use Rattle.tool_files.specs.Stops.{files_call};
ghost use Rattle.pmsi_tool.specs.Calls.{serves, threads_call};
ghost use Rattle.pmsi_tool.specs.Answers.{ComplainsOn, Gives, GivesText, Stands, StopsOn};

use crate::answer::{asked_in, listed};
use crate::complaint::Complaint;
use pmsi_model::Keep;
use pmsi_outside::{Files, Gate};
use sim_threads::run_threads;
use std::alloc::Global;
use std::sync::Wait;
use std::thread::Threads;
use tool_files::{Stop, read_job};
use tool_words::Asked;

/// The result of what the words ask for, or what is to be told.
pub(crate) fn threads_answer_of<R: Threads + Wait + Sync, F: Files, G: Gate + Sync>(
    rt: &R,
    alloc: Global,
    words: &[String],
    files: &mut F,
    gate: &G,
) -> Result<Vec<u8>, Complaint>
    ensures text { IfOk result (λ text. Gives threads_call (map string_bytes words.now) (F.contents files.old) text.items) }
    ensures complaint { IfErr result (Stands threads_call (map string_bytes words.now)
        (files_call (F.contents files.old) (F.faults files.old) (F.faults files.new) (F.blamed files.new))) }
    ensures unopened { IfErr result (λ complaint. complaint ≡ Complaint.Usage → files.new ≡ files.old) }
    ensures contents { F.contents files.new ≡ F.contents files.old }
{
    let asked = asked_in(alloc, words)?;
    result_of(rt, alloc, asked, files, gate)
}

/// The result of a command that is served on threads.
fn result_of<R: Threads + Wait + Sync, F: Files, G: Gate + Sync>(
    rt: &R,
    alloc: Global,
    asked: Asked<'_>,
    files: &mut F,
    gate: &G,
) -> Result<Vec<u8>, Complaint>
    requires { IsAllowed asked }
    ensures served { IfOk result (λ _. serves threads_call (value_of asked.entry) ≡ true) }
    ensures text { IfOk result (λ text. GivesText (F.contents files.old) (value_of asked.entry) text.items) }
    ensures complaint { IfErr result (ComplainsOn threads_call (value_of asked.entry)
        (files_call (F.contents files.old) (F.faults files.old) (F.faults files.new) (F.blamed files.new))) }
    ensures unopened { IfErr result (λ complaint. complaint ≡ Complaint.Usage → files.new ≡ files.old) }
    ensures contents { F.contents files.new ≡ F.contents files.old }
{
    match asked {
        Asked::Sim { workers, keep, job } => Ok(sim(rt, alloc, files, workers, keep, job, gate)?),
        Asked::Run { .. }
        | Asked::Trace(_)
        | Asked::Asm(_)
        | Asked::Dis(_)
        | Asked::Image(_)
        | Asked::Gen { .. }
        | Asked::Debug { .. } => Err(Complaint::Usage),
    }
}

/// The listing of a job's run by so many workers.
fn sim<R: Threads + Wait + Sync, F: Files, G: Gate + Sync>(
    rt: &R,
    alloc: Global,
    files: &mut F,
    workers: u32,
    keep: Keep,
    name: &str,
    gate: &G,
) -> Result<Vec<u8>, Stop>
    requires { (1 ≤ workers) × (workers ≤ MAX_WORKERS) }
    ensures text { IfOk result (λ text. GivesText (F.contents files.old) (sim workers keep name.now) text.items) }
    ensures stop { IfErr result (StopsOn (sim workers keep name.now)
        (files_call (F.contents files.old) (F.faults files.old) (F.faults files.new) (F.blamed files.new))) }
    ensures contents { F.contents files.new ≡ F.contents files.old }
{
    let job = read_job(alloc, files, keep, name)?;
    let sim = run_threads(rt, alloc, &job, keep, workers, gate)?;
    Ok(listed(alloc, &job, &sim, keep)?)
}
