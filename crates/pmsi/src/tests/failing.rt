//! Each outside call of a run fails once, and inputs are cut.
use super::*;
use jobs::examples::TWO_WRITERS;
use jobs::{LOCKING, LOCKS};

/// A run of the job of four cores with locks over files that give 512 bytes at a time, and whose call of this number fails.
fn read_failing(alloc: Global, number: u64) -> Result<Ran, AllocError> {
    let list = job_files(alloc, LOCKS, &LOCKING)?;
    run_reading(alloc, &["run", "a.job"], list, failing_at(512, number))
}

/// Five files are opened, and each is read once and then at its end.
#[test]
fn each_read_fails_once(rt: HostRuntime) -> Result<(), Fail> {
    let alloc = rt.alloc();
    for number in 1..16 {
        let ran = read_failing(alloc, number)?;
        told(&rt, "read", &ran, ToolStatus::ReadFault, "read fault\n");
    }
    let ran = read_failing(alloc, 16)?;
    assert_eq!(rt; ran.status, ToolStatus::Done);
    Ok(())
}

/// A run of the two writers with a sink that takes 64 bytes at a time, and whose call of this number fails.
fn write_failing(alloc: Global, number: u64) -> Result<Ran, AllocError> {
    let list = job_files(alloc, TWO_WRITERS.heads, TWO_WRITERS.sources)?;
    run_writing(
        alloc,
        TWO_WRITERS.words,
        list,
        failing_at(64, number),
        STEADY,
    )
}

#[test]
fn each_write_fails_once(rt: HostRuntime) -> Result<(), Fail> {
    let alloc = rt.alloc();
    let listing = TWO_WRITERS.listing.as_bytes();
    for (calls, front) in listing.chunks(64).enumerate() {
        let ran = write_failing(alloc, calls as u64 + 1)?;
        assert_eq!(rt; ran.status, ToolStatus::WriteFault);
        assert_eq!(rt; ran.out.bytes().len(), calls * 64);
        assert!(rt; listing.starts_with(ran.out.bytes()));
        assert!(rt; !front.is_empty());
        assert_eq!(rt; ran.err.bytes(), b"write fault\n".as_slice());
    }
    Ok(())
}

/// Words that ask for nothing, and an `err` that fails at once.
#[test]
fn a_line_fails_at_its_first_write(rt: HostRuntime) -> Result<(), Fail> {
    let alloc = rt.alloc();
    let ran = run_writing(alloc, &["fly"], Vec::new(alloc), STEADY, failing_at(64, 1))?;
    assert_eq!(rt; ran.status, ToolStatus::WriteFault);
    assert!(rt; ran.out.bytes().is_empty());
    assert!(rt; ran.err.bytes().is_empty());
    Ok(())
}

#[test]
fn images_are_cut_at_each_byte(rt: HostRuntime) -> Result<(), Fail> {
    let alloc = rt.alloc();
    for length in 0..ADDS_IMAGE.len() {
        let needed = if length < 16 { 16 } else { 24 };
        let detail = format!(in alloc; "short {needed} {length}")?;
        refuses(&rt, alloc, "image", &ADDS_IMAGE[..length], detail.as_str())?;
    }
    Ok(())
}

/// The programs of seven cores, which all halt in their first slot, and how.
const HALTS: &[(&str, &str)] = &[
    ("hex 00000073", "exit 0"),
    ("hex 00100073", "break"),
    ("hex 00000000", "illegal 0x00000000"),
    ("hex", "fetch 0x00000000"),
    ("hex 006000ef", "jump 0x00000006"),
    ("hex 00202283", "misaligned 0x00000002"),
    ("hex 04002283", "range 0x00000040"),
];

#[test]
fn cores_halt_in_seven_ways(rt: HostRuntime) -> Result<(), Fail> {
    let alloc = rt.alloc();
    let mut text = format!(in alloc; "pmsi 1\ncores {}\n{}\n", HALTS.len(), jobs::SMALL)?;
    for (core, (program, _)) in HALTS.iter().enumerate() {
        let line = format!(in alloc; "core {core} {program}\n")?;
        text.push_str(line.as_str())?;
    }
    let ran = run(
        alloc,
        &["run", "a.job"],
        with_job(alloc, text.as_str(), &[])?,
    )?;
    let listing = jobs::listing_of(&rt, &ran);
    for (core, (_, halt)) in HALTS.iter().enumerate() {
        let line = format!(in alloc; "core {core} pc 0x00000000 retired 0 {halt}")?;
        assert!(rt; jobs::has_line(listing, line.as_str()), "{halt}");
    }
    Ok(())
}
