//! Reading the files of a command, in order.
ghost use Rattle.std.specs.Prelude.{◌≡◌, ◌≢◌, ◌≤◌, [], length, true, IfOk, IfErr};
ghost use Rattle.pmsi_model.specs.declared.limits.TheConstants.{MAX_CORES, MAX_FILE_BYTES, MAX_TEXT_WORDS};
ghost use Rattle.pmsi_model.specs.Geometry.{CanKeep, IsGeometry, most_touches};
ghost use Rattle.std.specs.List.{All};
ghost use Rattle.job_text.specs.Plans.{HasFewWords, IsPlan, IsPlanOf};
ghost use Rattle.script_text.specs.Script.{is_in_range};
ghost use Rattle.tool_files.specs.declared.refusal.Place.TheVariants.{Input, Core, Script};
ghost use Rattle.tool_files.specs.Course.{ends, file, gives, image_file, job_file, plan_file, planned, program, programs, script_file, source_file};
ghost use Rattle.tool_files.specs.Parsed.{ImageFails, IsImageFile, IsMachine, IsScript, IsSource};
ghost use Rattle.tool_files.specs.Parsed.{JobFails, MachineFails, ScriptFails, SourceFails, image_of_words};
ghost use Rattle.tool_files.specs.Stops.{Stops, StopsAt, files_call};

use crate::refusal::{Detail, Place, Stop};
use asm_link::assemble;
use asm_parse::AsmFault;
use image_file::{ImageFault, read_image};
use job_text::{JobFault, JobPlan, Program, join_job, read_plan};
use pmsi_model::limits::MAX_TOUCHES;
use pmsi_model::{Geometry, Image, Job, Keep, Pieces, Words};
use pmsi_outside::{Files, ReadAll, read_whole};
use script_text::{Command, ScriptFault, read_script};
use std::alloc::Global;
use std::str::from_utf8;

/// The bytes of the file of this name.
fn read_named<F: Files>(
    alloc: Global,
    files: &mut F,
    place: Place,
    name: &str,
) -> Result<Vec<u8>, Stop>
    ensures value { IfOk result (λ bytes. file (F.contents files.old) place name.now ends (gives bytes.items)) }
    ensures within { IfOk result (λ bytes. length bytes.items ≤ MAX_FILE_BYTES) }
    ensures stop { IfErr result (Stops (file (F.contents files.old) place name.now ends)
        (files_call (F.contents files.old) (F.faults files.old) (F.faults files.new) (F.blamed files.new))) }
    ensures later { F.faults files.old ≤ F.faults files.new }
    ensures contents { F.contents files.new ≡ F.contents files.old }
{
    let name = String::from_str(alloc, name)?;
    match read_whole(alloc, files, name) {
        Ok(bytes) => Ok(bytes),
        Err(ReadAll::Failed) => Err(Stop::ReadFault),
        Err(ReadAll::Large) => Err(Stop::Refused(place, Detail::Large)),
        Err(ReadAll::NoMemory) => Err(Stop::NoMemory),
    }
}

/// The image of the source that these bytes are.
fn assembled(alloc: Global, bytes: &[u8], place: Place) -> Result<Image, Stop>
    requires { length bytes.now ≤ MAX_FILE_BYTES }
    ensures value { IfOk result (λ image. IsSource bytes.now image) }
    ensures stop { IfErr result (StopsAt place (SourceFails bytes.now)) }
{
    let Ok(source) = from_utf8(bytes) else {
        return Err(Stop::Refused(place, Detail::NotText));
    };
    match assemble(alloc, source) {
        Ok(image) => Ok(image),
        Err(AsmFault::NoMemory) => Err(Stop::NoMemory),
        Err(AsmFault::At(line, cause)) => Err(Stop::Refused(place, Detail::Source(line, cause))),
    }
}

/// The image that these bytes are.
fn image_of(alloc: Global, bytes: &[u8], place: Place) -> Result<Image, Stop>
    requires { length bytes.now ≤ MAX_FILE_BYTES }
    ensures value { IfOk result (λ image. IsImageFile bytes.now image) }
    ensures stop { IfErr result (StopsAt place (ImageFails bytes.now)) }
{
    match read_image(alloc, bytes) {
        Ok(image) => Ok(image),
        Err(ImageFault::NoMemory) => Err(Stop::NoMemory),
        Err(fault) => Err(Stop::Refused(place, Detail::Image(fault))),
    }
}

/// What to answer for a fault of a job.
fn job_stop(fault: JobFault) -> Stop
    ensures memory { fault ≡ JobFault.NoMemory → result ≡ Stop.NoMemory }
    ensures refused { fault ≢ JobFault.NoMemory → result ≡ Stop.Refused Input (Detail.Job fault) }
{
    match fault {
        JobFault::NoMemory => Stop::NoMemory,
        fault => Stop::Refused(Place::Input, Detail::Job(fault)),
    }
}

/// The commands of the script that these bytes are, for a machine of this shape.
fn commands_of(alloc: Global, bytes: &[u8], shape: &Geometry) -> Result<Vec<Command>, Stop>
    requires shape { IsGeometry shape.now }
    requires length { length bytes.now ≤ MAX_FILE_BYTES }
    ensures value { IfOk result (λ commands. IsScript shape.now bytes.now commands.items) }
    ensures range { IfOk result (λ commands. All (λ command. is_in_range shape.now command ≡ true) commands.items) }
    ensures stop { IfErr result (StopsAt Script (ScriptFails shape.now bytes.now)) }
{
    match read_script(alloc, shape, bytes) {
        Ok(commands) => Ok(commands),
        Err(ScriptFault::NoMemory) => Err(Stop::NoMemory),
        Err(fault) => Err(Stop::Refused(Place::Script, Detail::Script(fault))),
    }
}

/// The plan that these bytes are the text of.
fn plan_of(alloc: Global, bytes: &[u8]) -> Result<JobPlan, Stop>
    requires { length bytes.now ≤ MAX_FILE_BYTES }
    ensures value { IfOk result (λ plan. IsPlanOf bytes.now plan) }
    ensures stop { IfErr result (StopsAt Input (JobFails bytes.now)) }
{
    match read_plan(alloc, bytes) {
        Ok(plan) => Ok(plan),
        Err(fault) => Err(job_stop(fault)),
    }
}

/// The image of a source.
pub fn read_source<F: Files>(
    alloc: Global,
    files: &mut F,
    place: Place,
    name: &str,
) -> Result<Image, Stop>
    ensures value { IfOk result (λ image. source_file (F.contents files.old) place name.now ends (gives image)) }
    ensures stop { IfErr result (Stops (source_file (F.contents files.old) place name.now ends)
        (files_call (F.contents files.old) (F.faults files.old) (F.faults files.new) (F.blamed files.new))) }
    ensures later { F.faults files.old ≤ F.faults files.new }
    ensures contents { F.contents files.new ≡ F.contents files.old }
{
    let bytes = read_named(alloc, files, place, name)?;
    Ok(assembled(alloc, &bytes, place)?)
}

/// An image.
pub fn read_image_file<F: Files>(
    alloc: Global,
    files: &mut F,
    place: Place,
    name: &str,
) -> Result<Image, Stop>
    ensures value { IfOk result (λ image. image_file (F.contents files.old) place name.now ends (gives image)) }
    ensures stop { IfErr result (Stops (image_file (F.contents files.old) place name.now ends)
        (files_call (F.contents files.old) (F.faults files.old) (F.faults files.new) (F.blamed files.new))) }
    ensures later { F.faults files.old ≤ F.faults files.new }
    ensures contents { F.contents files.new ≡ F.contents files.old }
{
    let bytes = read_named(alloc, files, place, name)?;
    Ok(image_of(alloc, &bytes, place)?)
}

/// The commands of a script, for a machine of this shape.
pub fn read_script_file<F: Files>(
    alloc: Global,
    files: &mut F,
    shape: &Geometry,
    name: &str,
) -> Result<Vec<Command>, Stop>
    requires { IsGeometry shape.now }
    ensures value { IfOk result (λ commands. script_file (F.contents files.old) name.now shape.now ends (gives commands.items)) }
    ensures range { IfOk result (λ commands. All (λ command. is_in_range shape.now command ≡ true) commands.items) }
    ensures stop { IfErr result (Stops (script_file (F.contents files.old) name.now shape.now ends)
        (files_call (F.contents files.old) (F.faults files.old) (F.faults files.new) (F.blamed files.new))) }
    ensures later { F.faults files.old ≤ F.faults files.new }
    ensures contents { F.contents files.new ≡ F.contents files.old }
{
    let bytes = read_named(alloc, files, Place::Script, name)?;
    Ok(commands_of(alloc, &bytes, shape)?)
}

/// The image of a program that is given as words.
fn image_of_words(alloc: Global, words: &[u32]) -> Result<Image, Stop>
    requires { length words.now ≤ MAX_TEXT_WORDS }
    ensures value { IfOk result (λ image. image ≡ image_of_words words.now) }
    ensures stop { IfErr result (λ stop. stop ≡ Stop.NoMemory) }
{
    let text = Vec::from_slice(alloc, words)?;
    Ok(Image::new(Words::from_vec(text), Pieces::from_vec(Vec::new(alloc))))
}

/// The image of the program of a core.
fn read_program<F: Files>(
    alloc: Global,
    files: &mut F,
    core: u32,
    given: &Program,
) -> Result<Image, Stop>
    requires { HasFewWords given.now }
    ensures value { IfOk result (λ image. program (F.contents files.old) core given.now ends (gives image)) }
    ensures stop { IfErr result (Stops (program (F.contents files.old) core given.now ends)
        (files_call (F.contents files.old) (F.faults files.old) (F.faults files.new) (F.blamed files.new))) }
    ensures later { F.faults files.old ≤ F.faults files.new }
    ensures contents { F.contents files.new ≡ F.contents files.old }
{
    match given {
        Program::Words(words) => Ok(image_of_words(alloc, words.as_slice())?),
        Program::Asm(name) => Ok(read_source(alloc, files, Place::Core(core), name.as_str())?),
        Program::Image(name) => {
            Ok(read_image_file(alloc, files, Place::Core(core), name.as_str())?)
        }
    }
}

/// The images of the programs of a job, core by core.
fn read_programs<F: Files>(
    alloc: Global,
    files: &mut F,
    given: &[Program],
) -> Result<Vec<Image>, Stop>
    requires few { All HasFewWords given.now }
    requires count { length given.now ≤ MAX_CORES }
    ensures value { IfOk result (λ images. programs (F.contents files.old) 0 given.now [] ends (gives images.items)) }
    ensures count { IfOk result (λ images. length images.items ≡ length given.now) }
    ensures stop { IfErr result (Stops (programs (F.contents files.old) 0 given.now [] ends)
        (files_call (F.contents files.old) (F.faults files.old) (F.faults files.new) (F.blamed files.new))) }
    ensures later { F.faults files.old ≤ F.faults files.new }
    ensures contents { F.contents files.new ≡ F.contents files.old }
{
    let mut images = Vec::with_capacity(alloc, given.len())?;
    let mut core: u32 = 0;
    for program in given {
        images.push_reserved(read_program(alloc, files, core, program)?);
        core += 1;
    }
    Ok(images)
}

/// The plan of a job, from its own file.
fn read_plan_file<F: Files>(alloc: Global, files: &mut F, name: &str) -> Result<JobPlan, Stop>
    ensures value { IfOk result (λ plan. plan_file (F.contents files.old) name.now ends (gives plan)) }
    ensures plan { IfOk result (λ plan. IsPlan plan) }
    ensures stop { IfErr result (Stops (plan_file (F.contents files.old) name.now ends)
        (files_call (F.contents files.old) (F.faults files.old) (F.faults files.new) (F.blamed files.new))) }
    ensures later { F.faults files.old ≤ F.faults files.new }
    ensures contents { F.contents files.new ≡ F.contents files.old }
{
    let bytes = read_named(alloc, files, Place::Input, name)?;
    Ok(plan_of(alloc, &bytes)?)
}

/// The accesses that a run of the shape can have at most.
fn most_touches(shape: &Geometry) -> u64
    requires { IsGeometry shape.now }
    ensures { result ≡ most_touches shape.now }
{
    u64::from(shape.slots) * u64::from(shape.cores) * u64::from(shape.quantum)
}

/// The job that the images of its cores give, of whose run so much can be kept.
fn machine_of(alloc: Global, keep: Keep, shape: Geometry, images: &[Image]) -> Result<Job, Stop>
    requires shape { IsGeometry shape }
    requires count { length images.now ≡ shape.cores }
    ensures value { IfOk result (λ job. IsMachine keep shape images.now job) }
    ensures stop { IfErr result (StopsAt Input (MachineFails keep shape images.now)) }
{
    let job = match join_job(alloc, shape, images) {
        Ok(job) => job,
        Err(fault) => return Err(job_stop(fault)),
    };
    let count = most_touches(&shape);
    if keep.touches && count > u64::from(MAX_TOUCHES) {
        return Err(Stop::Refused(Place::Input, Detail::Touches(count)));
    }
    Ok(job)
}

/// The job of a plan, of whose run so much is to be kept.
pub fn read_planned<F: Files>(
    alloc: Global,
    files: &mut F,
    keep: Keep,
    plan: &JobPlan,
) -> Result<Job, Stop>
    requires { IsPlan plan.now }
    ensures value { IfOk result (λ job. planned (F.contents files.old) keep ends plan.now (gives job)) }
    ensures kept { IfOk result (λ job. CanKeep keep job.shape) }
    ensures stop { IfErr result (Stops (planned (F.contents files.old) keep ends plan.now)
        (files_call (F.contents files.old) (F.faults files.old) (F.faults files.new) (F.blamed files.new))) }
    ensures later { F.faults files.old ≤ F.faults files.new }
    ensures contents { F.contents files.new ≡ F.contents files.old }
{
    let images = read_programs(alloc, files, plan.programs.as_slice())?;
    Ok(machine_of(alloc, keep, plan.shape, &images)?)
}

/// A job, of whose run so much is to be kept.
pub fn read_job<F: Files>(alloc: Global, files: &mut F, keep: Keep, name: &str) -> Result<Job, Stop>
    ensures value { IfOk result (λ job. job_file (F.contents files.old) keep name.now ends (gives job)) }
    ensures kept { IfOk result (λ job. CanKeep keep job.shape) }
    ensures stop { IfErr result (Stops (job_file (F.contents files.old) keep name.now ends)
        (files_call (F.contents files.old) (F.faults files.old) (F.faults files.new) (F.blamed files.new))) }
    ensures later { F.faults files.old ≤ F.faults files.new }
    ensures contents { F.contents files.new ≡ F.contents files.old }
{
    let plan = read_plan_file(alloc, files, name)?;
    Ok(read_planned(alloc, files, keep, &plan)?)
}
