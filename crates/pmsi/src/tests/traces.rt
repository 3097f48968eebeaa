//! A trace as text, each front of it, and texts with each fault.

use pmsi_model::{Action, Name};
use std::alloc::Global;
use std::process::Abort;
use std::test::Fail;
use trace_text::{TraceFault, read_trace, write_trace};

/// The trace of `reader_behind_an_owner`, a job of two cores in the examples of pmsi_model.
const TEXT: &str = "\
pmsi trace 1
cores 2
slot 0 core 0 idle
slot 1 core 1 idle
slot 2 core 0 postfill GetM 0
slot 3 core 1 post GetS 0
slot 4 core 0 back 0 keep
slot 5 core 1 fill 0
slot 6 core 0 idle
end 7
";

const ACTIONS: [Action; 7] = [
    Action::Idle,
    Action::Idle,
    Action::PostFill(Name::GetM, 0),
    Action::Post(Name::GetS, 0),
    Action::Back(0, true),
    Action::Fill(0),
    Action::Idle,
];

/// The text is read as these actions, and they are written as the text.
#[test]
fn reads_and_writes(rt: HostRuntime) -> Result<(), Fail> {
    let alloc = rt.alloc();
    let text = TEXT.as_bytes();
    assert!(rt; text.len() <= 1000);
    let Ok(trace) = read_trace(alloc, text) else {
        panic!(rt; "it is a trace")
    };
    assert_eq!(rt; trace.cores, 2);
    assert!(rt; trace.actions.as_slice() == ACTIONS.as_slice());
    let Ok(written) = write_trace(alloc, &trace) else {
        panic!(rt; "no memory")
    };
    assert!(rt; written.as_slice() == text);
    Ok(())
}

/// Reading a text ends with this fault.
fn has(rt: &impl Abort, alloc: Global, text: &str, fault: TraceFault) {
    let bytes = text.as_bytes();
    assert!(rt; bytes.len() <= 1000, "{text}");
    let Err(found) = read_trace(alloc, bytes) else {
        panic!(rt; "it is read: {text}")
    };
    assert_eq!(rt; found, fault, "{text}");
}

/// Behind the head of two cores.
fn rows_have(rt: &impl Abort, alloc: Global, rows: &str, fault: TraceFault) -> Result<(), Fail> {
    let mut text = String::from_str(alloc, "pmsi trace 1\ncores 2\n")?;
    text.push_str(rows)?;
    has(rt, alloc, text.as_str(), fault);
    Ok(())
}

/// The same without its last line, and with another number in it.
#[test]
fn whole_texts_are_asked_for(rt: HostRuntime) -> Result<(), Fail> {
    let alloc = rt.alloc();
    let rows = "slot 0 core 0 idle\nslot 1 core 1 idle\n";
    rows_have(&rt, alloc, rows, TraceFault::End)?;
    rows_have(&rt, alloc, "slot 1 core 0 idle\n", TraceFault::Order(3))?;
    has(&rt, alloc, "", TraceFault::End);
    has(&rt, alloc, "pmsi trace 1", TraceFault::End);
    has(&rt, alloc, "pmsi trace 2", TraceFault::End);
    has(&rt, alloc, "pmsi trace 2\n", TraceFault::Line(1));
    has(&rt, alloc, "pmsi trace 1\r\n", TraceFault::Line(1));
    has(&rt, alloc, "pmsi trace 1\ncores 0\n", TraceFault::Line(2));
    has(&rt, alloc, "pmsi trace 1\ncores 17\n", TraceFault::Line(2));
    has(&rt, alloc, "pmsi trace 1\ncores 02\n", TraceFault::Line(2));
    has(&rt, alloc, "pmsi trace 1\ncores 2 \n", TraceFault::Line(2));
    has(&rt, alloc, "pmsi trace 1\ncores 2", TraceFault::End);
    Ok(())
}

/// Each front of the text, from no byte to all but the last, ends too early.
#[test]
fn fronts_end_too_early(rt: HostRuntime) -> Result<(), Fail> {
    let alloc = rt.alloc();
    let text = TEXT.as_bytes();
    assert!(rt; text.len() <= 1000);
    for end in 0..text.len() {
        let Err(found) = read_trace(alloc, &text[..end]) else {
            panic!(rt; "a front of {end} bytes is read")
        };
        assert_eq!(rt; found, TraceFault::End, "a front of {end} bytes");
    }
    Ok(())
}

#[test]
fn lines_have_their_forms(rt: HostRuntime) -> Result<(), Fail> {
    let alloc = rt.alloc();
    let third = TraceFault::Line(3);
    rows_have(&rt, alloc, "\n", third)?;
    rows_have(&rt, alloc, "slot 0 core 0  idle\n", third)?;
    rows_have(&rt, alloc, "slot 00 core 0 idle\n", third)?;
    rows_have(&rt, alloc, "slot 0 core 0 Idle\n", third)?;
    rows_have(&rt, alloc, "slot 0 core 0 fill 65536\n", third)?;
    rows_have(&rt, alloc, "slot 0 core 0 post GetX 1\n", third)?;
    rows_have(&rt, alloc, "slot 0 core 0 back 1 hold\n", third)?;
    rows_have(&rt, alloc, "slot 0 core 0 idle\r\n", third)?;
    rows_have(&rt, alloc, "slot 0 core 0 idle", TraceFault::End)?;
    rows_have(&rt, alloc, "end\n", third)?;
    rows_have(&rt, alloc, "end 00\n", third)?;
    Ok(())
}

/// Of two faults of a line the form comes first, and of two lines the upper one.
#[test]
fn the_first_fault_stands(rt: HostRuntime) -> Result<(), Fail> {
    let alloc = rt.alloc();
    rows_have(
        &rt,
        alloc,
        "slot 0 core 0 fill 65535\nend 1\n!",
        TraceFault::End,
    )?;
    rows_have(
        &rt,
        alloc,
        "slot 0 core 0 idle\nend 1\nend 1\n",
        TraceFault::End,
    )?;
    rows_have(&rt, alloc, "slot 0 core 0 idle\nend 2\n", TraceFault::End)?;
    rows_have(&rt, alloc, "slot 0 core 1 idle\n", TraceFault::Order(3))?;
    rows_have(&rt, alloc, "slot 1 core 0 fall 1\n", TraceFault::Line(3))?;
    let huge = "slot 99999999999999999999999 core 0 idle\nslot\n";
    rows_have(&rt, alloc, huge, TraceFault::Order(3))?;
    rows_have(
        &rt,
        alloc,
        "slot 0 core 0 idle\nslot 1 core 0 idle\n",
        TraceFault::Order(4),
    )?;
    rows_have(&rt, alloc, "end 99999999999999999999999\n", TraceFault::End)?;
    Ok(())
}
