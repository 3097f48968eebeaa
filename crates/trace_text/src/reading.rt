//! Reads traces.

ghost use Rattle.std.specs.Prelude.{◌≡◌, ◌≢◌, ◌⊎◌, ◌≤◌, [], length, Ok, Err, IfOk, IfErr, IfSome};
ghost use Rattle.pmsi_model.specs.declared.limits.TheConstants.{MAX_CORES, MAX_FILE_BYTES};
ghost use Rattle.trace_text.specs.declared.fault.TraceFault.{TraceFault};
ghost use Rattle.trace_text.specs.declared.trace.Trace.{Trace};
ghost use Rattle.trace_text.specs.Reading.{HasTraceFault, cores_in, fields_of, reading_of, rows_in};
ghost use Rattle.trace_text.specs.Text.{IsTrace, trace_of};

use crate::fault::TraceFault;
use crate::fields::{is_word, number_in};
use crate::parts::Parts;
use crate::row::{Row, read_row};
use crate::trace::{Actions, Trace};
use pmsi_model::limits::MAX_CORES;
use pmsi_model::{Action, SlotTable};
use std::alloc::Global;

/// Reads a trace: the actions that the lines tell, or the first thing that is wrong with the bytes, from the top.
pub fn read_trace(alloc: Global, bytes: &[u8]) -> Result<Trace, TraceFault>
    requires { length bytes.now ≤ MAX_FILE_BYTES }
    // What is read is a trace of which these bytes are the text, and a fault is the first that they have.
    ensures trace { IfOk result (λ trace. IsTrace trace × (bytes.now ≡ trace_of trace)) }
    ensures fault { IfErr result (λ fault. fault ≢ TraceFault.NoMemory → HasTraceFault bytes.now fault) }
    // A trace whose text the bytes are is read, and where they have a fault it is answered, unless memory runs out.
    ensures reads { (trace : Trace) → IsTrace trace → bytes.now ≡ trace_of trace → (result ≡ Ok trace) ⊎ (result ≡ Err TraceFault.NoMemory) }
    ensures fails { (fault : TraceFault) → HasTraceFault bytes.now fault → (result ≡ Err fault) ⊎ (result ≡ Err TraceFault.NoMemory) }
{
    match trace_in(alloc, bytes) {
        Ok(trace) => Ok(trace),
        Err(fault) => Err(fault),
    }
}

/// The trace that the lines tell, or the first fault.
#[tactic(auto, unfolding(crate::specs::Reading::reading_of, crate::specs::Reading::version_first, crate::specs::Reading::cores_first))]
fn trace_in(alloc: Global, bytes: &[u8]) -> Result<Trace, TraceFault>
    ensures trace { IfOk result (λ trace. reading_of bytes.now ≡ Ok trace) }
    ensures fault { IfErr result (λ fault. fault ≢ TraceFault.NoMemory → reading_of bytes.now ≡ Err fault) }
{
    let mut lines = Parts::new(bytes, b'\n');
    let Some(version) = lines.next_line() else {
        return Err(TraceFault::End);
    };
    if !is_word(version, "pmsi trace 1") {
        return Err(TraceFault::Line(1));
    }
    let Some(line) = lines.next_line() else {
        return Err(TraceFault::End);
    };
    let Some(cores) = cores_in(line) else {
        return Err(TraceFault::Line(2));
    };
    match read_actions(alloc, cores, &mut lines) {
        Ok(actions) => Ok(Trace {
            cores,
            actions: Actions::from_vec(actions),
        }),
        Err(fault) => Err(fault),
    }
}

/// The number of cores that the second line tells.
#[tactic(auto, unfolding(crate::specs::Reading::cores_in))]
fn cores_in(line: &[u8]) -> Option<u32>
    ensures value { result ≡ cores_in (fields_of line.now) }
    ensures some { IfSome result (λ cores. 1 ≤ cores) }
    ensures few { IfSome result (λ cores. cores ≤ MAX_CORES) }
{
    let mut fields = Parts::new(line, b' ');
    let word = fields.next()?;
    let number = fields.next()?;
    if fields.next().is_some() || !is_word(word, "cores") {
        return None;
    }
    match number_in(number, MAX_CORES) {
        Some(cores) if cores >= 1 => Some(cores),
        _ => None,
    }
}

/// The actions of all slots.
fn read_actions(alloc: Global, cores: u32, lines: &mut Parts<'_>) -> Result<Vec<Action>, TraceFault>
    requires some { 1 ≤ cores }
    requires few { cores ≤ MAX_CORES }
    ensures trace { IfOk result (λ actions. rows_in cores [] lines.old ≡ Ok (record { cores = cores; actions = actions.items })) }
    ensures fault { IfErr result (λ fault. fault ≢ TraceFault.NoMemory → rows_in cores [] lines.old ≡ Err fault) }
{
    let table = SlotTable::plain(cores);
    let mut actions = Vec::new(alloc);
    while let Some(line) = lines.next_line() {
        match read_row(&table, actions.len() as u32, line) {
            Ok(Row::Slot(action)) => actions.push(action)?,
            Ok(Row::End) if lines.is_last() => return Ok(actions),
            Ok(Row::End) => return Err(TraceFault::End),
            Err(fault) => return Err(fault),
        }
    }
    Err(TraceFault::End)
}
