//! Worked examples of runs.
use super::*;
use examples::{EXAMPLES, TWO_WRITERS};
use std::str::from_utf8;

pub(super) mod examples;
mod threads;

/// The shape of a small machine, and four slots.
pub(super) const SMALL: &str = "quantum 1\nline 4\nsets 1\nways 1\nmemory 64\nslots 4";

/// A program that gets 7.
pub(super) const ADDS: &str = "addi x5, x0, 7\necall\n";

/// What its run in that machine prints.
pub(super) const ADDED: &str = "pmsi listing 1
cores 1 quantum 1 line 4 sets 1 ways 1 memory 64 slots 4
core 0 pc 0x00000004 retired 1 exit 0
regs x5=0x00000007 x11=0x00000001
held
waits 0 count 0 greatest 0 sum 0
bound 8
end
";

/// Small jobs of one core without a request: slots, the program of the core, and how it ends.
const ENDED: &[(u32, &str, &str)] = &[
    // a jump to no multiple of four halts and writes no register; a branch that isn't taken may have such a target
    (1, "hex 006000ef", "00000000 retired 0 jump 0x00000006"),
    (2, "hex 00b00363 00000073", "00000004 retired 1 exit 0"),
    // no instruction, `fence.i`, a fence, and no word
    (1, "hex 00000000", "00000000 retired 0 illegal 0x00000000"),
    (1, "hex ffffffff", "00000000 retired 0 illegal 0xffffffff"),
    (1, "hex 0000100f", "00000000 retired 0 illegal 0x0000100f"),
    (1, "hex 0fF0000F", "00000004 retired 1 running"),
    (1, "hex", "00000000 retired 0 fetch 0x00000000"),
    // wrong addresses, and a breakpoint
    (1, "asm half.s", "00000000 retired 0 misaligned 0x00000002"),
    (1, "asm past.s", "00000000 retired 0 range 0x00000040"),
    (1, "asm stop.s", "00000000 retired 0 break"),
    // a program as an image
    (1, "image stop.img", "00000000 retired 0 break"),
];

/// The programs of `ENDED` that are files.
const PROGRAMS: &[File] = &[
    ("half.s", b"lw x5, 2(x0)"),
    ("past.s", b"lw x5, 64(x0)"),
    ("stop.s", b"ebreak"),
    ("stop.img", b"PMSIIMG1\x01\0\0\0\0\0\0\0\x73\0\x10\0"),
];

/// Texts of one job of one core that gets 7.
const SPELLINGS: &[&str] = &[
    // lines that end with the bytes 13 and 10, and a last one that has no end
    "pmsi 1\r\ncores 1\r\nquantum 1\r\nline 4\r\nsets 1\r\nways 1\r\nmemory 64\r\nslots 4\r\ncore 0 hex 00700293 00000073",
    // comments, blanks and empty lines
    "# a job \u{e4}\n\n \t\n\tpmsi\t1 # version\ncores  1#few\nquantum 1 ## #\nline 4\nsets 1\nways 1\nmemory 64 \nslots 4\t\r\n\n\
     core 0 hex\t00700293\t 00000073 # 2\n#",
    // lines in another order
    "pmsi 1\ncore 0 hex 00700293 00000073\nslots 4\nmemory 64\nways 1\nsets 1\nline 4\nquantum 1\ncores 1\n",
    // zeros in front
    "pmsi 1\ncores 0000000001\nquantum 01\nline 0004\nsets 01\nways 01\nmemory 0000000064\nslots 04\ncore 0000000000 hex 00700293 00000073\n",
];

/// That program in a file.
const NAMES: &[&str] = &[
    "image a.img",
    "asm \u{e4}.s",
    "asm a=b.s",
    "asm -a.s",
    "asm ../a.s",
    "asm a#b.s",
];

/// The files that `NAMES` name.
const NAMED: &[File] = &[
    ("a.img", ADDS_IMAGE),
    ("\u{e4}.s", b"addi x5, x0, 7\necall"),
    ("a=b.s", b"addi x5, x0, 7\necall"),
    ("-a.s", b"addi x5, x0, 7\necall"),
    ("../a.s", b"addi x5, x0, 7\necall"),
    ("a", b"addi x5, x0, 7\necall"),
];

/// The job of `TWO_WRITERS`, its cores in falling order before its numbers, and one program as words.
const TWO_WRITERS_SHUFFLED: &str = "pmsi 1
core 1 hex 00700293 00502023 00000073
core 0 asm 0.s
slots 6
memory 64
ways 1
sets 1
line 4
quantum 1
cores 2
";

/// Each core adds 1 to a word, and gets the number that stood in it.
const COUNTS_UP: &str = "addi x6, x0, 1\namoadd.w x5, x6, (x0)\necall\n";

/// Hands 1, 2, .., 20 to the consumer, each as soon as the one before is taken: the word at 0 says whether the one at 64
/// is full.
const PRODUCER: &str = "        li t0, 20
        li t1, 0
        li t3, 1
loop:   addi t1, t1, 1
full:   lw t2, 0(zero)
        bnez t2, full
        sw t1, 64(zero)
        amoswap.w zero, t3, (zero)
        bne t1, t0, loop
        li a0, 0
        ecall
";

/// Takes twenty numbers, and exits with their sum.
const CONSUMER: &str = "        li t0, 20
        li a0, 0
        li t1, 0
wait:   lw t2, 0(zero)
        beqz t2, wait
        lw t3, 64(zero)
        add a0, a0, t3
        amoswap.w zero, zero, (zero)
        addi t1, t1, 1
        bne t1, t0, wait
        ecall
";

/// Adds 1 to the word at 128, twenty times.
const COUNTER: &str = "        li t0, 20
        li t1, 1
        li t2, 128
loop:   amoadd.w zero, t1, (t2)
        addi t0, t0, -1
        bnez t0, loop
        ecall
";

/// The programs of four cores.
pub(super) const LOCKING: [&str; 4] = [PRODUCER, CONSUMER, COUNTER, COUNTER];

/// The shape of the machine of `PRODUCER`, `CONSUMER` and two times `COUNTER`.
pub(super) const LOCKS: &str = "quantum 8\nline 8\nsets 64\nways 4\nmemory 65536\nslots 20000";

/// The lines of its flat memory: the last number, 20, and the count, 40.
const LOCKS_MEMORY: [&str; 2] = [
    "mem 0x00000040 14000000000000000000000000000000",
    "mem 0x00000080 28000000000000000000000000000000",
];

/// Whether a listing has this line.
pub(super) fn has_line(listing: &str, line: &str) -> bool {
    for each in listing.lines() {
        if each == line {
            return true;
        }
    }
    false
}

/// Whether a listing has a line that begins and ends so.
fn has_line_with(listing: &str, begins: &str, ends: &str) -> bool {
    for line in listing.lines() {
        if line.starts_with(begins) && line.ends_with(ends) {
            return true;
        }
    }
    false
}

/// The listing that a call wrote.
pub(super) fn listing_of<'a>(rt: &impl Abort, ran: &'a Ran) -> &'a str {
    assert_eq!(rt; ran.status, ToolStatus::Done);
    assert!(rt; ran.err.bytes().is_empty());
    let Ok(listing) = from_utf8(ran.out.bytes()) else {
        panic!(rt; "no text")
    };
    listing
}

#[test]
fn runs_small_jobs(rt: HostRuntime) -> Result<(), Fail> {
    let alloc = rt.alloc();
    for (name, example) in EXAMPLES {
        let list = job_files(alloc, example.heads, example.sources)?;
        let ran = run(alloc, example.words, list)?;
        wrote(&rt, name, &ran, example.listing.as_bytes());
    }
    Ok(())
}

/// The text of a small job of one core with this program.
fn job_of_one(alloc: Global, slots: u32, program: &str) -> Result<String, AllocError> {
    format!(in alloc;
        "pmsi 1\ncores 1\nquantum 1\nline 4\nsets 1\nways 1\nmemory 64\nslots {slots}\ncore 0 {program}\n"
    )
}

/// The listing of a small job of one core without a request.
fn ended(alloc: Global, slots: u32, end: &str) -> Result<String, AllocError> {
    let mut text = format!(in alloc;
        "pmsi listing 1\ncores 1 quantum 1 line 4 sets 1 ways 1 memory 64 slots {slots}\ncore 0 pc 0x{end}\nregs x11=0x00000001\nheld\nwaits 0 count 0 greatest 0 sum 0\nbound 8\n"
    )?;
    for slot in 0..slots {
        let line = format!(in alloc; "slot {slot} core 0 idle\n")?;
        text.push_str(line.as_str())?;
    }
    text.push_str("end\n")?;
    Ok(text)
}

#[test]
fn halts_as_told(rt: HostRuntime) -> Result<(), Fail> {
    let alloc = rt.alloc();
    for (slots, program, end) in ENDED {
        let job = job_of_one(alloc, *slots, program)?;
        let list = with_job(alloc, job.as_str(), PROGRAMS)?;
        let ran = run(alloc, &["run", "--trace", "yes", "a.job"], list)?;
        wrote(&rt, program, &ran, ended(alloc, *slots, end)?.as_bytes());
    }
    Ok(())
}

#[test]
fn reads_spellings(rt: HostRuntime) -> Result<(), Fail> {
    let alloc = rt.alloc();
    for job in SPELLINGS {
        let ran = run(alloc, &["run", "a.job"], with_job(alloc, job, &[])?)?;
        wrote(&rt, job, &ran, ADDED.as_bytes());
    }
    for program in NAMES {
        let job = job_of_one(alloc, 4, program)?;
        let ran = run(
            alloc,
            &["run", "a.job"],
            with_job(alloc, job.as_str(), NAMED)?,
        )?;
        wrote(&rt, program, &ran, ADDED.as_bytes());
    }
    Ok(())
}

/// The order of lines changes nothing, nor does where a program comes from.
#[test]
fn reads_lines_in_any_order(rt: HostRuntime) -> Result<(), Fail> {
    let alloc = rt.alloc();
    let files = [("0.s", b"addi x5, x0, 7\nsw x5, 0(x0)\necall".as_slice())];
    let list = with_job(alloc, TWO_WRITERS_SHUFFLED, &files)?;
    let ran = run(alloc, TWO_WRITERS.words, list)?;
    wrote(&rt, "shuffled", &ran, TWO_WRITERS.listing.as_bytes());
    Ok(())
}

/// Sixteen cores count up one word: core k posts in slot k, and is filled in slot 17 k.
#[test]
fn sixteen_cores_count_up(rt: HostRuntime) -> Result<(), Fail> {
    let alloc = rt.alloc();
    let heads = "quantum 4\nline 4\nsets 1\nways 1\nmemory 64\nslots 260";
    let list = job_files(alloc, heads, &[COUNTS_UP; 16])?;
    let ran = run(alloc, &["run", "--trace", "yes", "a.job"], list)?;
    let listing = listing_of(&rt, &ran);
    for core in 0..16u32 {
        counts_up(&rt, alloc, listing, core)?;
    }
    for line in [
        "slot 0 core 0 postfill GetM 0",
        "mem 0x00000000 10000000000000000000000000000000",
        "waits 15 count 1 greatest 256 sum 256",
        "bound 9248",
        "end",
    ] {
        assert!(rt; has_line(listing, line), "{line}");
    }
    Ok(())
}

/// The lines of a core that has counted: its state, its registers and the lines that it holds.
fn counted(alloc: Global, core: u32) -> Result<String, AllocError> {
    if core == 0 {
        return format!(in alloc;
            "core 0 pc 0x00000008 retired 2 exit 0\nregs x6=0x00000001 x11=0x00000010\nheld\n"
        );
    }
    let held = if core == 15 { "held 0:M" } else { "held" };
    format!(in alloc;
        "core {core} pc 0x00000008 retired 2 exit {core}\n\
         regs x5=0x{core:08x} x6=0x00000001 x10=0x{core:08x} x11=0x00000010\n{held}\n"
    )
}

/// What the listing of sixteen cores that count up says of a core.
fn counts_up(rt: &impl Abort, alloc: Global, listing: &str, core: u32) -> Result<(), AllocError> {
    assert!(rt; core < 16);
    let fill = 17 * core;
    let wait = fill + 1;
    let counted = counted(alloc, core)?;
    assert!(rt; listing.contains(counted.as_str()), "{counted}");
    let lines = [
        format!(in alloc;
            "row core {core} line 0 write issue 0 post {core} fill {fill} wait {wait}"
        )?,
        format!(in alloc; "waits {core} count 1 greatest {wait} sum {wait}")?,
    ];
    for line in &lines {
        assert!(rt; has_line(listing, line.as_str()), "{line}");
    }
    if core > 0 {
        let posts = format!(in alloc; "slot {core} core {core} post GetM 0")?;
        let fills = format!(in alloc; "slot {fill} core {core} fill 0")?;
        assert!(rt; has_line(listing, posts.as_str()), "{posts}");
        assert!(rt; has_line(listing, fills.as_str()), "{fills}");
    }
    Ok(())
}

/// A producer and a consumer hand on numbers by a lock, beside two cores that count up a word; whatever the number of
/// workers, the listing is that of one thread.
#[test]
fn four_cores_share_locks(rt: HostRuntime) -> Result<(), Fail> {
    let alloc = rt.alloc();
    let list = job_files(alloc, LOCKS, &LOCKING)?;
    let ran = run(alloc, &["run", "a.job"], list)?;
    let listing = listing_of(&rt, &ran);
    for (core, end) in [
        ("core 0 pc ", " exit 0"),
        ("core 1 pc ", " exit 210"),
        ("core 2 pc ", " exit 2"),
        ("core 3 pc ", " exit 3"),
    ] {
        assert!(rt; has_line_with(listing, core, end), "{core}");
    }
    for line in listing.lines() {
        let known = LOCKS_MEMORY.contains(&line);
        assert!(rt; known || !line.starts_with("mem "), "{line}");
    }
    for line in LOCKS_MEMORY {
        assert!(rt; has_line(listing, line), "{line}");
    }
    for workers in ["1", "2", "4"] {
        let list = job_files(alloc, LOCKS, &LOCKING)?;
        let words = ["sim", "--workers", workers, "a.job"];
        let threaded = run_threaded(&rt, alloc, &words, list, &OpenGate::new())?;
        wrote(&rt, workers, &threaded, ran.out.bytes());
    }
    Ok(())
}

/// So many accesses can be kept as the limit says, and more where none are asked for.
#[test]
fn keeps_as_many_accesses_as_the_limit(rt: HostRuntime) -> Result<(), Fail> {
    let alloc = rt.alloc();
    let heads = "quantum 256\nline 4\nsets 1\nways 1\nmemory 64\nslots 15625";
    let list = job_files(alloc, heads, &["ecall"])?;
    let ran = run(alloc, &["run", "--touches", "yes", "a.job"], list)?;
    assert!(rt; has_line(listing_of(&rt, &ran), "end"));
    let heads = "quantum 256\nline 4\nsets 1\nways 1\nmemory 64\nslots 1000";
    let list = job_files(alloc, heads, &["ecall"; 16])?;
    let ran = run(alloc, &["run", "--touches", "no", "a.job"], list)?;
    assert!(rt; has_line(listing_of(&rt, &ran), "end"));
    Ok(())
}
