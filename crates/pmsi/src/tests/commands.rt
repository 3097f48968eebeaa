//! Traces, made jobs and scripts.
use super::*;
use std::str::from_utf8;

/// The shape of a job with seven slots whose second core reads what the first one wrote.
const SEVEN_SLOTS: &str = "quantum 1\nline 4\nsets 1\nways 1\nmemory 64\nslots 7";

const WRITES_AND_READS: &[&str] = &[
    "addi x5, x0, 7\nsw x5, 0(x0)\necall\n",
    "nop\nnop\nlw x6, 0(x0)\necall\n",
];

const ACTIONS: &[u8] = b"pmsi trace 1
cores 2
slot 0 core 0 idle
slot 1 core 1 idle
slot 2 core 0 postfill GetM 0
slot 3 core 1 post GetS 0
slot 4 core 0 back 0 keep
slot 5 core 1 fill 0
slot 6 core 0 idle
end 7
";

/// A script, and what it writes of that job.
const SCRIPTS: &[(&[u8], &[u8])] = &[
    (
        b"step 4\nstate 0 0\nleft 1\nleft 0\nword 0\ngo\nregs 1\n",
        b"slot 4
state 0 0 MSWB
left 1 5
left 0 -
word 0x00000000 0x00000007
slot 7
core 1 pc 0x0000000c retired 3 exit 1
regs x6=0x00000007 x10=0x00000001 x11=0x00000002
",
    ),
    (b"# nothing", b""),
    (
        b"break 0 4\ngo\ngo\ngo\nheld 0",
        b"slot 1\nslot 2\nslot 7\nheld 0:S\n",
    ),
];

/// A script of that job, and why it is refused.
const REFUSED_SCRIPTS: &[(&[u8], &str)] = &[
    (b"go\nfly\n", "script: line 2: word"),
    (b"step\n", "script: line 1: count"),
    (b"step 0x\n", "script: line 1: number"),
    (b"left 2\n", "script: line 1: range"),
    (b"fly\n\xff", "script: not text"),
];

fn with_script(alloc: Global, script: &[u8]) -> Result<FileList, AllocError> {
    let mut list = job_files(alloc, SEVEN_SLOTS, WRITES_AND_READS)?;
    add(alloc, &mut list, "a.dbg", script)?;
    Ok(list)
}

#[test]
fn traces_a_run(rt: HostRuntime) -> Result<(), Fail> {
    let alloc = rt.alloc();
    let list = job_files(alloc, SEVEN_SLOTS, WRITES_AND_READS)?;
    let ran = run(alloc, &["trace", "a.job"], list)?;
    wrote(&rt, "trace", &ran, ACTIONS);
    Ok(())
}

#[test]
fn runs_scripts(rt: HostRuntime) -> Result<(), Fail> {
    let alloc = rt.alloc();
    for (script, text) in SCRIPTS {
        let ran = run(
            alloc,
            &["debug", "a.job", "a.dbg"],
            with_script(alloc, script)?,
        )?;
        wrote(&rt, "debug", &ran, text);
    }
    Ok(())
}

/// The job is judged before its script is read.
#[test]
fn refuses_scripts(rt: HostRuntime) -> Result<(), Fail> {
    let alloc = rt.alloc();
    for (script, why) in REFUSED_SCRIPTS {
        let ran = run(
            alloc,
            &["debug", "a.job", "a.dbg"],
            with_script(alloc, script)?,
        )?;
        refused(&rt, alloc, &ran, why)?;
    }
    let ran = run(alloc, &["debug", "a.job", "none"], with_script(alloc, b"")?)?;
    told(&rt, "none", &ran, ToolStatus::ReadFault, "read fault\n");
    let ran = run(
        alloc,
        &["debug", "a.dbg", "none"],
        with_script(alloc, b"fly")?,
    )?;
    refused(&rt, alloc, &ran, "input: line 1: version")?;
    Ok(())
}

const MADE: &str = "pmsi 1
cores 1
quantum 4
line 4
sets 2
ways 2
memory 1024
slots 0
core 0 hex 1f800393 007282b3 ";

const MADE_SUMMARY: &[u8] = b"cores 1 quantum 4 line 4 sets 2 ways 2 memory 1024 slots 0
waits 0 count 0 greatest 0 sum 0
bound 8
";

#[test]
fn makes_jobs(rt: HostRuntime) -> Result<(), Fail> {
    let alloc = rt.alloc();
    let words = ["gen", "--cores", "1", "--slots", "0", "0"];
    let ran = run(alloc, &words, Vec::new(alloc))?;
    assert_eq!(rt; ran.status, ToolStatus::Done);
    assert!(rt; ran.out.bytes().starts_with(MADE.as_bytes()));
    assert!(rt; ran.out.bytes().ends_with(b" 00130313 f05ff06f\n"));
    assert_eq!(rt; ran.out.bytes().len(), MADE.len() + 62 * 9);
    let words = ["gen", "--cores", "1", "--slots", "0", "--run", "yes", "0"];
    let ran = run(alloc, &words, Vec::new(alloc))?;
    wrote(&rt, "gen", &ran, MADE_SUMMARY);
    Ok(())
}

/// The greatest wait that a line of a summary tells, in slots.
fn greatest(line: &str) -> Option<u64> {
    let (_, rest) = line.split_once(" greatest ")?;
    let (number, _) = rest.split_once(" sum ")?;
    number.parse::<u64>().ok()
}

/// The waits of sixteen cores that a summary tells are within the bound.
fn waits_within_the_bound(rt: &impl Abort, ran: &Ran) {
    assert_eq!(rt; ran.status, ToolStatus::Done);
    assert!(rt; ran.out.bytes().ends_with(b"bound 9248\n"));
    let Ok(text) = from_utf8(ran.out.bytes()) else {
        panic!(rt; "no text")
    };
    let mut count: u32 = 0;
    for line in text.lines() {
        if let Some(wait) = greatest(line) {
            assert!(rt; wait > 0 && wait <= 9248);
            count = count.saturating_add(1);
        }
    }
    assert_eq!(rt; count, 16);
}

/// Two runs of one made job are alike.
#[test]
fn made_jobs_run_alike(rt: HostRuntime) -> Result<(), Fail> {
    let alloc = rt.alloc();
    let words = [
        "gen", "--cores", "16", "--slots", "200000", "--run", "yes", "7",
    ];
    let ran = run(alloc, &words, Vec::new(alloc))?;
    let again = run(alloc, &words, Vec::new(alloc))?;
    assert_eq!(rt; ran.out.bytes(), again.out.bytes());
    waits_within_the_bound(&rt, &ran);
    Ok(())
}

#[test]
fn jobs_of_eight_seeds_wait_within_the_bound(rt: HostRuntime) -> Result<(), Fail> {
    let alloc = rt.alloc();
    for seed in ["0", "1", "2", "3", "4", "5", "6", "7"] {
        let words = [
            "gen", "--cores", "16", "--slots", "20000", "--run", "yes", seed,
        ];
        waits_within_the_bound(&rt, &run(alloc, &words, Vec::new(alloc))?);
    }
    Ok(())
}
