//! Writing an answer: the result to `out`, or a line to `err`.
ghost use Rattle.std.specs.Prelude.{◌≡◌, ◌⊎◌};
ghost use Rattle.std.specs.Io.KnownBytes.{Appends};
ghost use Rattle.pmsi_tool.specs.Lines.{write_fault_line};
ghost use Rattle.pmsi_tool.specs.Statuses.{FailsIn, IsTold, LeavesFront, TellsLine, sink_call};

use crate::ToolStatus;
use crate::complaint::Complaint;
use crate::lines::refusal_line;
use pmsi_outside::{Sink, write_whole};
use std::alloc::Global;
use tool_files::{Detail, Place, Stop};

/// Writes a result.
pub(crate) fn write_text<O: Sink, E: Sink>(text: &[u8], out: &mut O, err: &mut E) -> ToolStatus
    ensures done { result ≡ ToolStatus.Done → Appends (O.held out.old) (O.held out.new) text.now }
    ensures silent { result ≡ ToolStatus.Done → err.new ≡ err.old }
    ensures status { (result ≡ ToolStatus.Done) ⊎ (result ≡ ToolStatus.WriteFault) }
    ensures fault { result ≡ ToolStatus.WriteFault → FailsIn (sink_call (O.faults out.old) (O.faults out.new) (O.held out.old) (O.held out.new)) text.now
        × LeavesFront (sink_call (E.faults err.old) (E.faults err.new) (E.held err.old) (E.held err.new)) write_fault_line }
{
    if write_whole(out, text).is_ok() {
        return ToolStatus::Done;
    }
    let _ = write_whole(err, b"write fault\n");
    ToolStatus::WriteFault
}

/// Tells a complaint; where there is no memory for its line, that is told instead.
pub(crate) fn complain<E: Sink>(alloc: Global, complaint: Complaint, err: &mut E) -> ToolStatus
    ensures usage { result ≡ ToolStatus.Usage → complaint ≡ Complaint.Usage }
    ensures told { IsTold result (sink_call (E.faults err.old) (E.faults err.new) (E.held err.old) (E.held err.new)) complaint
        ⊎ IsTold result (sink_call (E.faults err.old) (E.faults err.new) (E.held err.old) (E.held err.new)) (Complaint.Stopped Stop.NoMemory) }
{
    match complaint {
        Complaint::Usage => tell(
            err,
            b"usage: pmsi COMMAND [OPTIONS] ARGUMENTS\n",
            ToolStatus::Usage,
        ),
        Complaint::Stopped(stop) => tell_stop(alloc, stop, err),
    }
}

/// Tells why a command came to no result; where there is no memory for its line, that is told instead.
fn tell_stop<E: Sink>(alloc: Global, stop: Stop, err: &mut E) -> ToolStatus
    ensures { IsTold result (sink_call (E.faults err.old) (E.faults err.new) (E.held err.old) (E.held err.new)) (Complaint.Stopped stop)
        ⊎ IsTold result (sink_call (E.faults err.old) (E.faults err.new) (E.held err.old) (E.held err.new)) (Complaint.Stopped Stop.NoMemory) }
{
    match stop {
        Stop::ReadFault => tell(err, b"read fault\n", ToolStatus::ReadFault),
        Stop::Refused(place, detail) => refuse(alloc, place, detail, err),
        Stop::NoMemory => tell_no_memory(err),
    }
}

/// Tells a refusal, or that there is no memory for its line.
fn refuse<E: Sink>(alloc: Global, place: Place, detail: Detail, err: &mut E) -> ToolStatus
    ensures { IsTold result (sink_call (E.faults err.old) (E.faults err.new) (E.held err.old) (E.held err.new)) (Complaint.Stopped (Stop.Refused place detail))
        ⊎ IsTold result (sink_call (E.faults err.old) (E.faults err.new) (E.held err.old) (E.held err.new)) (Complaint.Stopped Stop.NoMemory) }
{
    match refusal_line(alloc, place, detail) {
        Ok(line) => tell(err, line.as_slice(), ToolStatus::Refused),
        Err(_) => tell_no_memory(err),
    }
}

/// Tells want of memory on `err`: status `NoMemory`, or `WriteFault` where `err` fails in the line.
pub fn tell_no_memory<E: Sink>(err: &mut E) -> ToolStatus
    ensures { IsTold result (sink_call (E.faults err.old) (E.faults err.new) (E.held err.old) (E.held err.new)) (Complaint.Stopped Stop.NoMemory) }
{
    tell(err, b"no memory\n", ToolStatus::NoMemory)
}

/// Writes a line to `err`, and answers this status, or a write fault.
fn tell<E: Sink>(err: &mut E, line: &[u8], status: ToolStatus) -> ToolStatus
    ensures { TellsLine status result (sink_call (E.faults err.old) (E.faults err.new) (E.held err.old) (E.held err.new)) line.now }
{
    match write_whole(err, line) {
        Ok(()) => status,
        Err(_) => ToolStatus::WriteFault,
    }
}
