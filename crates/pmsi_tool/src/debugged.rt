//! Scripts on jobs.
ghost use Rattle.std.specs.Prelude.{◌≡◌, IfOk, IfErr};
ghost use Rattle.tool_words.specs.Meaning.{debug};
ghost use Rattle.tool_files.specs.Stops.{files_call};
ghost use Rattle.pmsi_tool.specs.Answers.{GivesText, StopsOn};

use debugger::run_script;
use pmsi_model::Keep;
use pmsi_outside::Files;
use std::alloc::Global;
use tool_files::{Stop, read_job, read_script_file};

/// What a script writes of a job.
pub(crate) fn debugged<F: Files>(
    alloc: Global,
    files: &mut F,
    name: &str,
    script: &str,
) -> Result<Vec<u8>, Stop>
    ensures text { IfOk result (λ text. GivesText (F.contents files.old) (debug name.now script.now) text.items) }
    ensures stop { IfErr result (StopsOn (debug name.now script.now)
        (files_call (F.contents files.old) (F.faults files.old) (F.faults files.new) (F.blamed files.new))) }
    ensures contents { F.contents files.new ≡ F.contents files.old }
{
    let keep = Keep {
        trace: false,
        touches: false,
    };
    let job = read_job(alloc, files, keep, name)?;
    let commands = read_script_file(alloc, files, &job.shape(), script)?;
    Ok(run_script(alloc, &job, &commands)?)
}
