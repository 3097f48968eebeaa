//! The program's commands as two calls: words, files and two sinks go in, and a status comes out. `tool` does all of
//! them but `sim`, which `tool_threads` does.
#![tactic(auto)]

ghost use Rattle.std.specs.Prelude.{◌≡◌, ◌≢◌, ◌⊎◌, map, string_bytes};
ghost use Rattle.pmsi_tool.specs.Calls.{tool_call, threads_call};
ghost use Rattle.pmsi_tool.specs.Statuses.{IsDone, IsUsage, ReadFails, IsRefusal, OutFails, ErrFails, TakesAccepted, RefusesAlways};
ghost use Rattle.tool_files.specs.Stops.{files_call};
ghost use Rattle.pmsi_tool.specs.Statuses.{GrowsBy, sink_call};
ghost use Rattle.pmsi_tool.specs.Lines.{no_memory_line};

mod answer;
mod complaint;
mod debugged;
mod lines;
mod made;
mod tell;
mod threads;

use answer::answer_of;
pub use complaint::Complaint;
use pmsi_outside::{Files, Gate, Sink};
use std::alloc::Global;
use std::sync::Wait;
use std::thread::Threads;
pub use tell::tell_no_memory;
use tell::{complain, write_text};
use threads::threads_answer_of;

/// How a call ended. The numbers are the program's exit statuses.
#[derive(Clone, Copy, Debug, PartialEq, Eq)]
pub enum ToolStatus {
    /// The result was written.
    Done = 0,
    /// The words ask for nothing that this call does.
    Usage = 2,
    /// A file couldn't be opened or read.
    ReadFault = 3,
    /// `out` failed in the result, or `err` in the line of another status.
    WriteFault = 4,
    /// The files give no result: the line on `err` says why.
    Refused = 5,
    /// Memory ran out.
    NoMemory = 6,
}

/// Does the command that the words give, but for `sim`; the program's name isn't among the words. The whole result is made
/// before its first byte is written to `out`. At a status other than `Done` one line goes to `err`, or as much of it as `err`
/// takes.
pub fn tool<F: Files, O: Sink, E: Sink>(
    alloc: Global,
    words: &[String],
    files: &mut F,
    out: &mut O,
    err: &mut E,
) -> ToolStatus
    // The result of the command was written; where a job was run, its machine is faithful.
    ensures done { result ≡ ToolStatus.Done → IsDone tool_call (map string_bytes words.now) (F.contents files.old)
        (sink_call (O.faults out.old) (O.faults out.new) (O.held out.old) (O.held out.new)) }
    ensures done_silent { result ≡ ToolStatus.Done → err.new ≡ err.old }
    ensures usage { result ≡ ToolStatus.Usage → IsUsage tool_call (map string_bytes words.now)
        (sink_call (E.faults err.old) (E.faults err.new) (E.held err.old) (E.held err.new)) }
    // No file was opened.
    ensures usage_files { result ≡ ToolStatus.Usage → files.new ≡ files.old }
    ensures read_fault { result ≡ ToolStatus.ReadFault → ReadFails tool_call (map string_bytes words.now)
        (files_call (F.contents files.old) (F.faults files.old) (F.faults files.new) (F.blamed files.new))
        (sink_call (E.faults err.old) (E.faults err.new) (E.held err.old) (E.held err.new)) }
    ensures refused { result ≡ ToolStatus.Refused → IsRefusal tool_call (map string_bytes words.now) (F.contents files.old)
        (sink_call (E.faults err.old) (E.faults err.new) (E.held err.old) (E.held err.new)) }
    ensures no_memory { result ≡ ToolStatus.NoMemory → GrowsBy
        (sink_call (E.faults err.old) (E.faults err.new) (E.held err.old) (E.held err.new)) no_memory_line }
    ensures write_fault { result ≡ ToolStatus.WriteFault → OutFails tool_call (map string_bytes words.now) (F.contents files.old)
        (sink_call (O.faults out.old) (O.faults out.new) (O.held out.old) (O.held out.new))
        (sink_call (E.faults err.old) (E.faults err.new) (E.held err.old) (E.held err.new))
        ⊎ ((out.new ≡ out.old) × ErrFails tool_call (map string_bytes words.now)
        (files_call (F.contents files.old) (F.faults files.old) (F.faults files.new) (F.blamed files.new))
        (sink_call (E.faults err.old) (E.faults err.new) (E.held err.old) (E.held err.new))) }
    ensures untouched { result ≢ ToolStatus.Done → result ≢ ToolStatus.WriteFault → out.new ≡ out.old }
    // Files that are accepted are never refused.
    ensures complete { TakesAccepted tool_call (map string_bytes words.now) (F.contents files.old)
        (sink_call (O.faults out.old) (O.faults out.new) (O.held out.old) (O.held out.new)) result }
    // Where a refusal has its cause and nothing fails, it comes.
    ensures refused_always { RefusesAlways tool_call (map string_bytes words.now)
        (files_call (F.contents files.old) (F.faults files.old) (F.faults files.new) (F.blamed files.new))
        (sink_call (O.faults out.old) (O.faults out.new) (O.held out.old) (O.held out.new))
        (sink_call (E.faults err.old) (E.faults err.new) (E.held err.old) (E.held err.new)) result }
    ensures contents { F.contents files.new ≡ F.contents files.old }
{
    match answer_of(alloc, words, files) {
        Ok(text) => write_text(text.as_slice(), out, err),
        Err(complaint) => complain(alloc, complaint, err),
    }
}

/// Does `sim`, the command that has threads do its work; else as `tool`. It may wait for others, and what it promises stands
/// where it returns. The gate is called once for each core in each slot, before the core's phase.
pub fn tool_threads<R: Threads + Wait + Sync, F: Files, O: Sink, E: Sink, G: Gate + Sync>(
    rt: &R,
    alloc: Global,
    words: &[String],
    files: &mut F,
    out: &mut O,
    err: &mut E,
    gate: &G,
) -> ToolStatus
    // The result of the command was written; where a job was run, its machine is faithful.
    ensures done { result ≡ ToolStatus.Done → IsDone threads_call (map string_bytes words.now) (F.contents files.old)
        (sink_call (O.faults out.old) (O.faults out.new) (O.held out.old) (O.held out.new)) }
    ensures done_silent { result ≡ ToolStatus.Done → err.new ≡ err.old }
    ensures usage { result ≡ ToolStatus.Usage → IsUsage threads_call (map string_bytes words.now)
        (sink_call (E.faults err.old) (E.faults err.new) (E.held err.old) (E.held err.new)) }
    // No file was opened.
    ensures usage_files { result ≡ ToolStatus.Usage → files.new ≡ files.old }
    ensures read_fault { result ≡ ToolStatus.ReadFault → ReadFails threads_call (map string_bytes words.now)
        (files_call (F.contents files.old) (F.faults files.old) (F.faults files.new) (F.blamed files.new))
        (sink_call (E.faults err.old) (E.faults err.new) (E.held err.old) (E.held err.new)) }
    ensures refused { result ≡ ToolStatus.Refused → IsRefusal threads_call (map string_bytes words.now) (F.contents files.old)
        (sink_call (E.faults err.old) (E.faults err.new) (E.held err.old) (E.held err.new)) }
    ensures no_memory { result ≡ ToolStatus.NoMemory → GrowsBy
        (sink_call (E.faults err.old) (E.faults err.new) (E.held err.old) (E.held err.new)) no_memory_line }
    ensures write_fault { result ≡ ToolStatus.WriteFault → OutFails threads_call (map string_bytes words.now) (F.contents files.old)
        (sink_call (O.faults out.old) (O.faults out.new) (O.held out.old) (O.held out.new))
        (sink_call (E.faults err.old) (E.faults err.new) (E.held err.old) (E.held err.new))
        ⊎ ((out.new ≡ out.old) × ErrFails threads_call (map string_bytes words.now)
        (files_call (F.contents files.old) (F.faults files.old) (F.faults files.new) (F.blamed files.new))
        (sink_call (E.faults err.old) (E.faults err.new) (E.held err.old) (E.held err.new))) }
    ensures untouched { result ≢ ToolStatus.Done → result ≢ ToolStatus.WriteFault → out.new ≡ out.old }
    // Files that are accepted are never refused.
    ensures complete { TakesAccepted threads_call (map string_bytes words.now) (F.contents files.old)
        (sink_call (O.faults out.old) (O.faults out.new) (O.held out.old) (O.held out.new)) result }
    // Where a refusal has its cause and nothing fails, it comes.
    ensures refused_always { RefusesAlways threads_call (map string_bytes words.now)
        (files_call (F.contents files.old) (F.faults files.old) (F.faults files.new) (F.blamed files.new))
        (sink_call (O.faults out.old) (O.faults out.new) (O.held out.old) (O.held out.new))
        (sink_call (E.faults err.old) (E.faults err.new) (E.held err.old) (E.held err.new)) result }
    ensures contents { F.contents files.new ≡ F.contents files.old }
{
    match threads_answer_of(rt, alloc, words, files, gate) {
        Ok(text) => write_text(text.as_slice(), out, err),
        Err(complaint) => complain(alloc, complaint, err),
    }
}
