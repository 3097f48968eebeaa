//! The answer to a call of `tool`, before anything is written, and what both calls share of theirs.
ghost use Rattle.std.specs.Prelude.{◌≡◌, true, Some, map, string_bytes, IfOk, IfErr};
ghost use Rattle.pmsi_model.specs.Geometry.{CanKeep};
ghost use Rattle.pmsi_model.specs.Listing.{listing_of};
ghost use Rattle.sim_serial.specs.Sims.{IsSimOf, Keeps};
ghost use Rattle.tool_words.specs.Meaning.{IsAllowed, run, trace, asm, dis, image, meaning, value_of};
ghost use Rattle.tool_files.specs.Course.{actions_text, keeps_actions};
ghost use Rattle.tool_files.specs.Stops.{files_call};
ghost use Rattle.pmsi_tool.specs.Calls.{serves, tool_call};
ghost use Rattle.pmsi_tool.specs.Answers.{ComplainsOn, Gives, GivesText, IsUnasked, Stands, StopsOn};

use crate::complaint::Complaint;
use crate::debugged::debugged;
use crate::made::made;
use asm_print::listing_of;
use image_file::write_image;
use listing::listing;
use pmsi_model::{Image, Job, Keep, NoMemory};
use pmsi_outside::Files;
use sim_serial::Sim;
use std::alloc::Global;
use tool_files::{Place, Stop, read_image_file, read_job, read_source};
use tool_words::{Asked, asked_of};
use trace_text::write_actions;

/// What the words ask for.
pub(crate) fn asked_in(alloc: Global, words: &[String]) -> Result<Asked<'_>, Complaint>
    ensures asked { IfOk result (λ asked. meaning (map string_bytes words.now) ≡ Some (value_of asked)) }
    ensures allowed { IfOk result IsAllowed }
    ensures complaint { IfErr result (IsUnasked (map string_bytes words.now)) }
{
    match asked_of(alloc, words) {
        Ok(Some(asked)) => Ok(asked),
        Ok(None) => Err(Complaint::Usage),
        Err(NoMemory) => Err(Complaint::Stopped(Stop::NoMemory)),
    }
}

/// The result of what the words ask for, or what is to be told.
pub(crate) fn answer_of<F: Files>(
    alloc: Global,
    words: &[String],
    files: &mut F,
) -> Result<Vec<u8>, Complaint>
    ensures text { IfOk result (λ text. Gives tool_call (map string_bytes words.now) (F.contents files.old) text.items) }
    ensures complaint { IfErr result (Stands tool_call (map string_bytes words.now)
        (files_call (F.contents files.old) (F.faults files.old) (F.faults files.new) (F.blamed files.new))) }
    ensures unopened { IfErr result (λ complaint. complaint ≡ Complaint.Usage → files.new ≡ files.old) }
    ensures contents { F.contents files.new ≡ F.contents files.old }
{
    let asked = asked_in(alloc, words)?;
    result_of(alloc, asked, files)
}

/// The result of a command that is served on one thread.
fn result_of<F: Files>(alloc: Global, asked: Asked<'_>, files: &mut F) -> Result<Vec<u8>, Complaint>
    requires { IsAllowed asked }
    ensures served { IfOk result (λ _. serves tool_call (value_of asked.entry) ≡ true) }
    ensures text { IfOk result (λ text. GivesText (F.contents files.old) (value_of asked.entry) text.items) }
    ensures complaint { IfErr result (ComplainsOn tool_call (value_of asked.entry)
        (files_call (F.contents files.old) (F.faults files.old) (F.faults files.new) (F.blamed files.new))) }
    ensures unopened { IfErr result (λ complaint. complaint ≡ Complaint.Usage → files.new ≡ files.old) }
    ensures contents { F.contents files.new ≡ F.contents files.old }
{
    match asked {
        Asked::Run { keep, job } => Ok(run(alloc, files, keep, job)?),
        Asked::Sim { .. } => Err(Complaint::Usage),
        Asked::Trace(job) => Ok(traced(alloc, files, job)?),
        Asked::Asm(source) => Ok(assembled(alloc, files, source)?),
        Asked::Dis(image) => Ok(disassembled(alloc, files, image)?),
        Asked::Image(image) => Ok(checked(alloc, files, image)?),
        Asked::Gen {
            seed,
            cores,
            slots,
            run,
        } => Ok(made(alloc, files, seed, cores, slots, run)?),
        Asked::Debug { job, script } => Ok(debugged(alloc, files, job, script)?),
    }
}

/// The listing of a job's run on one thread.
fn run<F: Files>(alloc: Global, files: &mut F, keep: Keep, name: &str) -> Result<Vec<u8>, Stop>
    ensures text { IfOk result (λ text. GivesText (F.contents files.old) (run keep name.now) text.items) }
    ensures stop { IfErr result (StopsOn (run keep name.now)
        (files_call (F.contents files.old) (F.faults files.old) (F.faults files.new) (F.blamed files.new))) }
    ensures contents { F.contents files.new ≡ F.contents files.old }
{
    let job = read_job(alloc, files, keep, name)?;
    let sim = run_serially(alloc, &job, keep)?;
    Ok(listed(alloc, &job, &sim, keep)?)
}

/// The text of the actions of a job's run.
fn traced<F: Files>(alloc: Global, files: &mut F, name: &str) -> Result<Vec<u8>, Stop>
    ensures text { IfOk result (λ text. GivesText (F.contents files.old) (trace name.now) text.items) }
    ensures stop { IfErr result (StopsOn (trace name.now)
        (files_call (F.contents files.old) (F.faults files.old) (F.faults files.new) (F.blamed files.new))) }
    ensures contents { F.contents files.new ≡ F.contents files.old }
{
    let keep = Keep {
        trace: true,
        touches: false,
    };
    let job = read_job(alloc, files, keep, name)?;
    let sim = run_serially(alloc, &job, keep)?;
    Ok(actions_of(alloc, &job, &sim)?)
}

/// The text of the actions of a job's machine after its last slot.
fn actions_of(alloc: Global, _job: &Job, sim: &Sim) -> Result<Vec<u8>, NoMemory>
    requires machine { IsSimOf _job.now _job.now.shape.slots sim.now }
    requires keeps { Keeps keeps_actions sim.now }
    ensures { IfOk result (λ text. text.items ≡ actions_text _job.now) }
{
    write_actions(alloc, sim.bus().table(), sim.bus().trace())
}

/// The machine of a job after its last slot.
pub(crate) fn run_serially(alloc: Global, job: &Job, keep: Keep) -> Result<Sim, NoMemory>
    requires { CanKeep keep job.now.shape }
    ensures machine { IfOk result (λ sim. IsSimOf job.now job.now.shape.slots sim) }
    ensures keeps { IfOk result (λ sim. Keeps keep sim) }
{
    let mut sim = Sim::open(alloc, job, keep)?;
    sim.run();
    Ok(sim)
}

/// The listing of the machine of a job after its last slot.
pub(crate) fn listed(alloc: Global, _job: &Job, sim: &Sim, keep: Keep) -> Result<Vec<u8>, NoMemory>
    requires machine { IsSimOf _job.now _job.now.shape.slots sim.now }
    requires keeps { Keeps keep sim.now }
    ensures { IfOk result (λ text. text.items ≡ listing_of _job.now keep) }
{
    listing(alloc, sim, keep)
}

/// The bytes of the image of a source.
fn assembled<F: Files>(alloc: Global, files: &mut F, name: &str) -> Result<Vec<u8>, Stop>
    ensures text { IfOk result (λ text. GivesText (F.contents files.old) (asm name.now) text.items) }
    ensures stop { IfErr result (StopsOn (asm name.now)
        (files_call (F.contents files.old) (F.faults files.old) (F.faults files.new) (F.blamed files.new))) }
    ensures contents { F.contents files.new ≡ F.contents files.old }
{
    let image = read_source(alloc, files, Place::Input, name)?;
    Ok(write_image(alloc, &image)?)
}

/// The assembly text of an image.
fn disassembled<F: Files>(alloc: Global, files: &mut F, name: &str) -> Result<Vec<u8>, Stop>
    ensures text { IfOk result (λ text. GivesText (F.contents files.old) (dis name.now) text.items) }
    ensures stop { IfErr result (StopsOn (dis name.now)
        (files_call (F.contents files.old) (F.faults files.old) (F.faults files.new) (F.blamed files.new))) }
    ensures contents { F.contents files.new ≡ F.contents files.old }
{
    let image = read_image_file(alloc, files, Place::Input, name)?;
    Ok(listing_of(alloc, &image)?)
}

/// The bytes of an image that was read.
fn checked<F: Files>(alloc: Global, files: &mut F, name: &str) -> Result<Vec<u8>, Stop>
    ensures text { IfOk result (λ text. GivesText (F.contents files.old) (image name.now) text.items) }
    ensures stop { IfErr result (StopsOn (image name.now)
        (files_call (F.contents files.old) (F.faults files.old) (F.faults files.new) (F.blamed files.new))) }
    ensures contents { F.contents files.new ≡ F.contents files.old }
{
    let image = read_image_file(alloc, files, Place::Input, name)?;
    Ok(write_image(alloc, &image)?)
}
