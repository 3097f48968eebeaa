//! Runs a script over a job's machine.

ghost use Rattle.std.specs.Prelude.{◌≡◌, ◌≢◌, ◌⊎◌, ◌≤◌, List, ℕ, length, true, Ok, Err, IfOk, IfErr};
ghost use Rattle.std.specs.List.{All};
ghost use Rattle.pmsi_model.specs.declared.limits.TheConstants.{MAX_FILE_BYTES};
ghost use Rattle.script_text.specs.declared.fault.ScriptFault.{ScriptFault};
ghost use Rattle.script_text.specs.Output.{HasScriptFault, IsOutput, output_of};
ghost use Rattle.script_text.specs.Script.{is_in_range};

use crate::session::Session;
use pmsi_model::{Job, NoMemory};
use script_text::{Command, ScriptFault, read_script};
use std::alloc::Global;

/// Runs a script over the machine of a job: the text that its commands print, or the first thing that is wrong with the script,
/// from the top. The script is judged whole before the machine is made.
pub fn debug(alloc: Global, job: &Job, script: &[u8]) -> Result<Vec<u8>, ScriptFault>
    requires { length script.now ≤ MAX_FILE_BYTES }
    // What is answered is the script's output, and a fault is the first that it has.
    ensures output { IfOk result (λ text. IsOutput job.now script.now text.items) }
    ensures fault { IfErr result (λ fault. fault ≢ ScriptFault.NoMemory → HasScriptFault job.now script.now fault) }
    // A script that has an output is run, and where it has a fault that is answered, unless memory runs out.
    ensures runs { (text : List ℕ) → IsOutput job.now script.now text → IfErr result (λ fault. fault ≡ ScriptFault.NoMemory) }
    ensures fails { (fault : ScriptFault) → HasScriptFault job.now script.now fault → (result ≡ Err fault) ⊎ (result ≡ Err ScriptFault.NoMemory) }
{
    match output_of(alloc, job, script) {
        Ok(text) => Ok(text),
        Err(fault) => Err(fault),
    }
}

/// The text that a script's commands print, or its first fault.
fn output_of(alloc: Global, job: &Job, script: &[u8]) -> Result<Vec<u8>, ScriptFault>
    requires { length script.now ≤ MAX_FILE_BYTES }
    ensures output { IfOk result (λ text. IsOutput job.now script.now text.items) }
    ensures fault { IfErr result (λ fault. fault ≢ ScriptFault.NoMemory → HasScriptFault job.now script.now fault) }
{
    let commands = match read_script(alloc, &job.shape(), script) {
        Ok(commands) => commands,
        Err(fault) => return Err(fault),
    };
    Ok(run_script(alloc, job, commands.as_slice())?)
}

/// The text that commands print, of the machine of a job from its first slot on.
pub fn run_script(alloc: Global, job: &Job, commands: &[Command]) -> Result<Vec<u8>, NoMemory>
    requires { All (λ command. is_in_range job.now.shape command ≡ true) commands.now }
    ensures { IfOk result (λ text. text.items ≡ output_of job.now commands.now) }
{
    let mut session = Session::open(alloc, job, breaks_in(commands))?;
    let mut out = Vec::new(alloc);
    session.run(&mut out, commands)?;
    Ok(out)
}

/// How many breaks commands set.
fn breaks_in(commands: &[Command]) -> usize {
    commands
        .iter()
        .filter(|command| matches!(command, Command::Break(_)))
        .count()
}
