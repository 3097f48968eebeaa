//! Words that ask for a run of a job, and words that ask for nothing.
use super::*;

/// Words that name no command, or that the command's own reading refuses.
const NO_COMMANDS: &[&[&str]] = &[
    &[],
    &[""],
    &["run"],
    &["runs", "a.job"],
    &["Run", "a.job"],
    &["fly", "a.job"],
    &["sim", "a.job"],
    &["sim", "--workers", "0", "a.job"],
    &["trace", "--touches", "yes", "a.job"],
    &["asm"],
    &["dis"],
    &["image"],
    &["image", "-a.job"],
    &["image", "--trace", "yes", "a.job"],
    &["asm", "a.job", "a.job"],
    &["run", "a.job", "a.job"],
    &["run", "-a.job"],
    &["run", "--help"],
    &["run", "-h", "a.job"],
    &["--help"],
    &["run", "--trace", "a.job"],
    &["run", "--trace", "maybe", "a.job"],
    &["run", "--trace", "YES", "a.job"],
    &["run", "--trace=", "a.job"],
    &["run", "--trace", "yes", "--trace", "yes", "a.job"],
    &["run", "--touches", "1", "a.job"],
    &["run", "--touch", "yes", "a.job"],
    &["run", "--workers", "2", "a.job"],
    &["run", "a.job", "--touches"],
];

/// Words that ask for the run of `a.job`, and whether actions and accesses are printed.
const ASKED: &[(&[&str], bool, bool)] = &[
    (&["run", "a.job"], false, false),
    (
        &["run", "--trace", "no", "--touches", "no", "a.job"],
        false,
        false,
    ),
    (&["run", "--trace", "yes", "a.job"], true, false),
    (&["run", "--touches", "yes", "a.job"], false, true),
    (
        &["run", "--trace", "yes", "--touches", "yes", "a.job"],
        true,
        true,
    ),
    // the other order, behind the file, and as one word
    (
        &["run", "--touches", "yes", "--trace", "no", "a.job"],
        false,
        true,
    ),
    (&["run", "a.job", "--trace", "yes"], true, false),
    (&["run", "--trace=yes", "a.job"], true, false),
    (
        &["run", "--touches=yes", "a.job", "--trace=yes"],
        true,
        true,
    ),
    (
        &["run", "--touches=no", "--trace", "yes", "--", "a.job"],
        true,
        false,
    ),
];

/// What a run of one store prints.
const STORED: &str = "pmsi listing 1
cores 1 quantum 4 line 4 sets 1 ways 1 memory 64 slots 1
core 0 pc 0x00000004 retired 1 running
regs x11=0x00000001
held 0:M
mem 0x00000000 01000000000000000000000000000000
row core 0 line 0 write issue 0 post 0 fill 0 wait 1
waits 0 count 1 greatest 1 sum 1
bound 8
";

/// The files of that job.
fn storing(alloc: Global) -> Result<FileList, AllocError> {
    let heads = "quantum 4\nline 4\nsets 1\nways 1\nmemory 64\nslots 1";
    job_files(alloc, heads, &["sw x11, 0(x0)\necall"])
}

#[test]
fn knows_its_words(rt: HostRuntime) -> Result<(), Fail> {
    let alloc = rt.alloc();
    for texts in NO_COMMANDS {
        let ran = run(alloc, texts, storing(alloc)?)?;
        let line = "usage: pmsi COMMAND [OPTIONS] ARGUMENTS\n";
        told(&rt, "words", &ran, ToolStatus::Usage, line);
    }
    Ok(())
}

#[test]
fn prints_what_is_asked(rt: HostRuntime) -> Result<(), Fail> {
    let alloc = rt.alloc();
    for (texts, trace, touches) in ASKED {
        let ran = run(alloc, texts, storing(alloc)?)?;
        let actions = if *trace {
            "slot 0 core 0 postfill GetM 0\n"
        } else {
            ""
        };
        let accesses = if *touches {
            "touch 0 core 0 write 4 0x00000000 0x00000000 0x00000001\n"
        } else {
            ""
        };
        let text = format!(in alloc; "{STORED}{actions}{accesses}end\n")?;
        wrote(&rt, "words", &ran, text.as_bytes());
    }
    Ok(())
}

/// A name that looks like an option stands behind `--`, and an empty one is a name.
#[test]
fn takes_odd_names(rt: HostRuntime) -> Result<(), Fail> {
    let alloc = rt.alloc();
    let ran = run(alloc, &["run", ""], storing(alloc)?)?;
    told(&rt, "empty", &ran, ToolStatus::ReadFault, "read fault\n");
    for name in ["--trace", "-a", "a b", "run", "\u{e4}=b"] {
        let mut list = Vec::new(alloc);
        add(alloc, &mut list, name, ADDS_IMAGE)?;
        let ran = run(alloc, &["image", "--", name], list)?;
        wrote(&rt, name, &ran, ADDS_IMAGE);
    }
    Ok(())
}
