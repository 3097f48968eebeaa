//! Jobs, and the files that they name, that are refused or can't be read.
use super::*;
use tables::{
    COUNTS, Change, Changed, GOOD, LIMITS, LINES, MISSING, ORDER, OVERLAPS, PROGRAMS, TOUCHES,
    WITHIN,
};

mod tables;

/// The line that stands in place of this one.
fn line_in<'a>(line: &'a str, changes: &[(&'a str, &'a str)]) -> &'a str {
    for (begins, changed) in changes {
        if line.starts_with(*begins) {
            return changed;
        }
    }
    line
}

/// The text of `GOOD` with these changes.
fn changed(alloc: Global, changes: &[Change]) -> Result<Vec<u8>, AllocError> {
    let mut text = String::new(alloc);
    for line in GOOD {
        text.push_str(line_in(line, changes))?;
        text.push_str("\n")?;
    }
    Ok(text.into_bytes())
}

fn refuses_each(rt: &impl Abort, alloc: Global, rows: &[Changed]) -> Result<(), AllocError> {
    for (changes, detail) in rows {
        refuses(rt, alloc, "run", &changed(alloc, changes)?, detail)?;
    }
    Ok(())
}

#[test]
fn finds_faults_of_jobs(rt: HostRuntime) -> Result<(), Fail> {
    let alloc = rt.alloc();
    refuses_each(&rt, alloc, LINES)?;
    refuses_each(&rt, alloc, COUNTS)?;
    refuses_each(&rt, alloc, LIMITS)?;
    refuses_each(&rt, alloc, ORDER)?;
    for change in WITHIN {
        let job = changed(alloc, &[*change, ("core 0", "")])?;
        refuses(&rt, alloc, "run", &job, "missing core 0")?;
    }
    Ok(())
}

/// Texts without lines, and bytes that aren't UTF-8, wherever they stand.
#[test]
fn finds_what_is_no_job(rt: HostRuntime) -> Result<(), Fail> {
    let alloc = rt.alloc();
    for (bytes, detail) in [
        (b"".as_slice(), "missing version"),
        (b"\n \t\n# pmsi 1", "missing version"),
        (b"pmsi 1", "missing cores"),
        (b"\xff", "not text"),
        (b"speed 3\n# \xc3", "not text"),
        (b"pmsi 1\ncore 0 asm \xed\xa0\x80.s\n", "not text"),
        (b"PMSIIMG1\0\0\0\0\0\0\0\0", "line 1: version"),
        (b"pmsi 1\ncores 1\r", "line 2: number"),
    ] {
        refuses(&rt, alloc, "run", bytes, detail)?;
    }
    Ok(())
}

/// A job of this many cores, whose core 0 has so many words.
fn wordy(alloc: Global, cores: &'static str, count: u32) -> Result<Vec<u8>, AllocError> {
    let mut job = changed(alloc, &[("cores", cores), ("core 0", "core 0 hex")])?;
    let _ = job.pop();
    for _ in 0..count {
        job.extend_from_slice(b" 00000013")?;
    }
    Ok(job)
}

#[test]
fn counts_words(rt: HostRuntime) -> Result<(), Fail> {
    let alloc = rt.alloc();
    let job = wordy(alloc, "cores 1", 16_385)?;
    refuses(&rt, alloc, "run", &job, "limit core 0 16385")?;
    let job = wordy(alloc, "cores 2", 16_385)?;
    refuses(&rt, alloc, "run", &job, "missing core 1")?;
    let job = wordy(alloc, "cores 1", 16_384)?;
    let ran = run(alloc, &["run", "a.job"], one(alloc, &job)?)?;
    assert_eq!(rt; ran.status, ToolStatus::Done);
    Ok(())
}

/// The text of a job of two cores with these programs.
fn two(alloc: Global, programs: &str) -> Result<String, AllocError> {
    format!(in alloc; "pmsi 1\ncores 2\n{}\n{programs}\n", jobs::SMALL)
}

#[test]
fn finds_faults_of_programs(rt: HostRuntime) -> Result<(), Fail> {
    let alloc = rt.alloc();
    for (programs, files, why) in PROGRAMS {
        let list = with_job(alloc, two(alloc, programs)?.as_str(), files)?;
        let ran = run(alloc, &["run", "a.job"], list)?;
        refused(&rt, alloc, &ran, why)?;
    }
    for (sources, why) in OVERLAPS {
        let list = job_files(alloc, jobs::SMALL, sources)?;
        let ran = run(alloc, &["run", "a.job"], list)?;
        refused(&rt, alloc, &ran, why)?;
    }
    Ok(())
}

/// A program of more bytes than the limit is refused before the next one is looked for.
#[test]
fn finds_a_large_program(rt: HostRuntime) -> Result<(), Fail> {
    let alloc = rt.alloc();
    let programs = "core 0 asm a.s\ncore 1 asm none.s";
    let mut list = with_job(alloc, two(alloc, programs)?.as_str(), &[])?;
    let large = vec![in alloc; b'\n'; 16_777_217]?;
    add(alloc, &mut list, "a.s", &large)?;
    let ran = run(alloc, &["run", "a.job"], list)?;
    refused(&rt, alloc, &ran, "core 0: large")?;
    Ok(())
}

#[test]
fn counts_accesses(rt: HostRuntime) -> Result<(), Fail> {
    let alloc = rt.alloc();
    for (cores, quantum, slots, detail) in TOUCHES {
        let heads = format!(in alloc;
            "quantum {quantum}\nline 4\nsets 1\nways 1\nmemory 64\nslots {slots}"
        )?;
        assert!(rt; *cores <= 16);
        let list = job_files(alloc, heads.as_str(), &["ecall"; 16][..*cores])?;
        let ran = run(alloc, &["run", "--touches", "yes", "a.job"], list)?;
        let why = format!(in alloc; "input: {detail}")?;
        refused(&rt, alloc, &ran, why.as_str())?;
    }
    Ok(())
}

/// Too many accesses come behind what programs give together.
#[test]
fn counts_accesses_last(rt: HostRuntime) -> Result<(), Fail> {
    let alloc = rt.alloc();
    let heads = "quantum 256\nline 4\nsets 1\nways 1\nmemory 64\nslots 1000000";
    let list = job_files(alloc, heads, &[".data\n.byte 1", ".data\n.byte 2"])?;
    let ran = run(alloc, &["run", "--touches", "yes", "a.job"], list)?;
    refused(&rt, alloc, &ran, "input: overlap 0 1 0x00000000")?;
    Ok(())
}

#[test]
fn misses_files(rt: HostRuntime) -> Result<(), Fail> {
    let alloc = rt.alloc();
    for (programs, files) in MISSING {
        let list = with_job(alloc, two(alloc, programs)?.as_str(), files)?;
        let ran = run(alloc, &["run", "a.job"], list)?;
        told(&rt, programs, &ran, ToolStatus::ReadFault, "read fault\n");
    }
    for command in ["run", "asm", "dis", "image"] {
        let ran = run(alloc, &[command, "a.job"], Vec::new(alloc))?;
        told(&rt, command, &ran, ToolStatus::ReadFault, "read fault\n");
    }
    Ok(())
}

/// Each file is opened, gives its bytes at one read, and is at its end at the next: the job, then the source of each core.
/// Whichever of these calls fails, nothing is told of the source that is wrong; the call after them is never made.
#[test]
fn each_read_fails_in_turn(rt: HostRuntime) -> Result<(), Fail> {
    let alloc = rt.alloc();
    for (sources, next, why) in [
        (["bad"].as_slice(), 7u64, "core 0: line 1: word 1"),
        (&["nop", "bad"], 10, "core 1: line 1: word 1"),
    ] {
        for number in 1..next {
            let list = job_files(alloc, jobs::SMALL, sources)?;
            let ran = run_reading(alloc, &["run", "a.job"], list, failing_at(4096, number))?;
            told(&rt, why, &ran, ToolStatus::ReadFault, "read fault\n");
        }
        let list = job_files(alloc, jobs::SMALL, sources)?;
        let ran = run_reading(alloc, &["run", "a.job"], list, failing_at(4096, next))?;
        refused(&rt, alloc, &ran, why)?;
    }
    Ok(())
}

/// Files that give few bytes at a time are read to their ends.
#[test]
fn reads_in_pieces(rt: HostRuntime) -> Result<(), Fail> {
    let alloc = rt.alloc();
    for step in [1u32, 7, 64] {
        let list = job_files(alloc, jobs::SMALL, &[jobs::ADDS])?;
        let reads = Calls { step, fails: None };
        let ran = run_reading(alloc, &["run", "a.job"], list, reads)?;
        wrote(&rt, "in pieces", &ran, jobs::ADDED.as_bytes());
    }
    Ok(())
}
