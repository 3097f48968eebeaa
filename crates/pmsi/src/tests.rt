//! Tests of the program's two calls, on files in memory and sinks that keep what is written; of words, images and traces; and
//! of whole machines: on one thread, in any order of steps, and on many threads.
use pmsi_outside::{Files, Gate, MemoryFiles, MemorySink, OpenGate, SteadyFiles};
use pmsi_tool::{ToolStatus, tool, tool_threads};
use std::alloc::{AllocError, Global};
use std::process::Abort;
use std::sync::Wait;
use std::test::Fail;
use std::thread::Threads;

mod asked;
mod asm;
mod commands;
mod failing;
mod faults;
mod images;
mod jobs;
mod machines;
mod orders;
mod runs;
mod steps;
mod traces;
mod words;
mod workers;

/// The name of a file, and its bytes.
type File = (&'static str, &'static [u8]);

/// The names of files, and their bytes.
type FileList = Vec<(String, Vec<u8>)>;

fn words_of(alloc: Global, texts: &[&str]) -> Result<Vec<String>, AllocError> {
    let mut words = Vec::new(alloc);
    for text in texts {
        words.push(String::from_str(alloc, text)?)?;
    }
    Ok(words)
}

/// Adds a file of this name.
fn add(alloc: Global, list: &mut FileList, name: &str, bytes: &[u8]) -> Result<(), AllocError> {
    let name = String::from_str(alloc, name)?;
    let bytes = bytes.to_vec(alloc)?;
    list.push((name, bytes))?;
    Ok(())
}

/// One file, whose name is `a.job`.
fn one(alloc: Global, bytes: &[u8]) -> Result<FileList, AllocError> {
    let mut list = Vec::new(alloc);
    add(alloc, &mut list, "a.job", bytes)?;
    Ok(list)
}

/// These files, and a job of this text, whose name is `a.job`.
fn with_job(alloc: Global, job: &str, files: &[File]) -> Result<FileList, AllocError> {
    let mut list = one(alloc, job.as_bytes())?;
    for (name, bytes) in files {
        add(alloc, &mut list, name, bytes)?;
    }
    Ok(list)
}

/// The files of a job whose cores have these sources: the job is `a.job`, and the source of core 0 is `0.s`.
fn job_files(alloc: Global, heads: &str, sources: &[&str]) -> Result<FileList, AllocError> {
    let mut text = format!(in alloc; "pmsi 1\ncores {}\n{heads}\n", sources.len())?;
    let mut list = Vec::new(alloc);
    for (core, source) in sources.iter().enumerate() {
        let line = format!(in alloc; "core {core} asm {core}.s\n")?;
        text.push_str(line.as_str())?;
        let name = format!(in alloc; "{core}.s")?;
        add(alloc, &mut list, name.as_str(), source.as_bytes())?;
    }
    add(alloc, &mut list, "a.job", text.as_bytes())?;
    Ok(list)
}

/// How many bytes each call of a file or a sink moves at most, and the number of the call that fails.
#[derive(Clone, Copy)]
struct Calls {
    step: u32,
    fails: Option<u64>,
}

/// Calls that move all that is asked for, and never fail.
const STEADY: Calls = Calls {
    step: 65_552,
    fails: None,
};

/// Calls of which the first that fails has this number.
fn failing_at(step: u32, number: u64) -> Calls {
    Calls {
        step,
        fails: Some(number),
    }
}

fn numbers(alloc: Global, calls: Calls) -> Result<Vec<u64>, AllocError> {
    match calls.fails {
        Some(number) => Ok(Vec::from_array(alloc, [number])?),
        None => Ok(Vec::new(alloc)),
    }
}

/// A sink with room for the longest image.
fn sink(alloc: Global, calls: Calls) -> Result<MemorySink, AllocError> {
    let fails = numbers(alloc, calls)?;
    let room = vec![in alloc; 0u8; 65_552]?;
    Ok(MemorySink::new(room, calls.step.max(1), fails))
}

/// How a call ended, and what its sinks hold.
#[derive(Drop)]
struct Ran {
    status: ToolStatus,
    out: MemorySink,
    err: MemorySink,
}

/// Calls `tool` with these words and files, and sinks whose calls go as told.
fn call<F: Files>(
    alloc: Global,
    texts: &[&str],
    files: &mut F,
    out: Calls,
    err: Calls,
) -> Result<Ran, AllocError> {
    let words = words_of(alloc, texts)?;
    let mut out = sink(alloc, out)?;
    let mut err = sink(alloc, err)?;
    let status = tool(alloc, &words, files, &mut out, &mut err);
    Ok(Ran { status, out, err })
}

/// Calls `tool` with files that never fail, and sinks whose calls go as told.
fn run_writing(
    alloc: Global,
    texts: &[&str],
    list: FileList,
    out: Calls,
    err: Calls,
) -> Result<Ran, AllocError> {
    let mut files = SteadyFiles::new(list);
    call(alloc, texts, &mut files, out, err)
}

/// Calls `tool` with files and sinks that never fail.
fn run(alloc: Global, texts: &[&str], list: FileList) -> Result<Ran, AllocError> {
    run_writing(alloc, texts, list, STEADY, STEADY)
}

/// Calls `tool_threads` with files and sinks that never fail.
fn run_threaded<R: Threads + Wait + Sync, G: Gate + Sync>(
    rt: &R,
    alloc: Global,
    texts: &[&str],
    list: FileList,
    gate: &G,
) -> Result<Ran, AllocError> {
    let words = words_of(alloc, texts)?;
    let mut files = SteadyFiles::new(list);
    let mut out = sink(alloc, STEADY)?;
    let mut err = sink(alloc, STEADY)?;
    let status = tool_threads(rt, alloc, &words, &mut files, &mut out, &mut err, gate);
    Ok(Ran { status, out, err })
}

/// Calls `tool` with files whose calls go as told.
fn run_reading(
    alloc: Global,
    texts: &[&str],
    list: FileList,
    reads: Calls,
) -> Result<Ran, AllocError> {
    let fails = numbers(alloc, reads)?;
    let mut files = MemoryFiles::new(list, reads.step.max(1), fails);
    call(alloc, texts, &mut files, STEADY, STEADY)
}

/// A call ended well, and wrote exactly this. The label says which of a table's rows it was.
fn wrote(rt: &impl Abort, label: &str, ran: &Ran, text: &[u8]) {
    assert_eq!(rt; ran.status, ToolStatus::Done, "{label}");
    assert_eq!(rt; ran.out.bytes(), text, "{label}");
    assert!(rt; ran.err.bytes().is_empty(), "{label}");
}

/// A call ended with this status, wrote nothing, and told exactly this line.
fn told(rt: &impl Abort, label: &str, ran: &Ran, status: ToolStatus, line: &str) {
    assert_eq!(rt; ran.err.bytes(), line.as_bytes(), "{label}");
    assert_eq!(rt; ran.status, status, "{label}");
    assert!(rt; ran.out.bytes().is_empty(), "{label}");
}

/// A call was refused, and told exactly this place and detail.
fn refused(rt: &impl Abort, alloc: Global, ran: &Ran, why: &str) -> Result<(), AllocError> {
    let line = format!(in alloc; "refused: {why}\n")?;
    told(rt, why, ran, ToolStatus::Refused, line.as_str());
    Ok(())
}

/// A command refuses these bytes, and exactly this is told of them.
fn refuses(
    rt: &impl Abort,
    alloc: Global,
    command: &str,
    bytes: &[u8],
    detail: &str,
) -> Result<(), AllocError> {
    let why = format!(in alloc; "input: {detail}")?;
    let ran = run(alloc, &[command, "a.job"], one(alloc, bytes)?)?;
    refused(rt, alloc, &ran, why.as_str())
}

/// `addi x5, x0, 7` and `ecall`.
const ADDS_IMAGE: &[u8] = b"PMSIIMG1\x02\0\0\0\0\0\0\0\x93\x02\x70\0\x73\0\0\0";

/// Three words that are 0.
const ZEROS_IMAGE: &[u8] = b"PMSIIMG1\x03\0\0\0\0\0\0\0\0\0\0\0\0\0\0\0\0\0\0\0";

/// No word, and a piece of one byte at 64.
const PIECE_IMAGE: &[u8] = b"PMSIIMG1\0\0\0\0\x01\0\0\0\x40\0\0\0\x01\0\0\0\xff";

/// A word, a piece of two bytes at 4, and a piece of one byte that ends with memory.
const PIECES_IMAGE: &[u8] =
    b"PMSIIMG1\x01\0\0\0\x02\0\0\0\x73\0\0\0\x04\0\0\0\x02\0\0\0\xaa\xbb\xff\xff\x0f\0\x01\0\0\0\xcc";

/// A command, the bytes of its file, and its result.
const WRITTEN: &[(&str, &[u8], &[u8])] = &[
    ("image", ADDS_IMAGE, ADDS_IMAGE),
    ("image", ZEROS_IMAGE, ZEROS_IMAGE),
    ("image", PIECE_IMAGE, PIECE_IMAGE),
    ("image", PIECES_IMAGE, PIECES_IMAGE),
    (
        "dis",
        ZEROS_IMAGE,
        b".text\n.word 0x00000000\n.word 0x00000000\n.word 0x00000000\n",
    ),
    ("dis", ADDS_IMAGE, b".text\naddi x5, x0, 7\necall\n"),
    (
        "dis",
        PIECE_IMAGE,
        b".text\n.data\n.org 0x00000040\n.byte 0xff\n",
    ),
    (
        "dis",
        PIECES_IMAGE,
        b".text\necall\n.data\n.org 0x00000004\n.byte 0xaa, 0xbb\n.org 0x000fffff\n.byte 0xcc\n",
    ),
    ("asm", b"addi x5, x0, 7\necall\n", ADDS_IMAGE),
    ("asm", b".text\naddi x5, x0, 7\necall\n", ADDS_IMAGE),
];

/// A command, the bytes of its file, and why they are refused.
const REFUSED: &[(&str, &[u8], &str)] = &[
    ("dis", b"PMSIIMG1\x02\0\0\0", "short 16 12"),
    ("image", b"PMSIIMG2\0\0\0\0\0\0\0\0", "magic"),
    (
        "dis",
        b"PMSIIMG1\x03\0\0\0\0\0\0\0\0\0\0\0\0\0\0\0\0\0\0",
        "short 28 27",
    ),
    (
        "dis",
        b"PMSIIMG1\x03\0\0\0\0\0\0\0\0\0\0\0\0\0\0\0\0\0\0\0\0",
        "extra 28",
    ),
    ("image", b"PMSIIMG1\x01\x40\0\0\0\0\0\0", "limit 16385"),
    (
        "image",
        b"PMSIIMG1\0\0\0\0\x01\0\0\0\0\0\x10\0\x01\0\0\0\xff",
        "range 0x00100000",
    ),
    (
        "image",
        b"PMSIIMG1\0\0\0\0\x02\0\0\0\0\0\0\0\x01\0\0\0\xff\x01\0\0\0\x01\0\0\0\xff",
        "order 1",
    ),
    ("asm", b"\xff", "not text"),
    ("asm", b"bad\nnop # \xff", "not text"),
];

#[test]
fn writes_results(rt: HostRuntime) -> Result<(), Fail> {
    let alloc = rt.alloc();
    for (command, bytes, text) in WRITTEN {
        let ran = run(alloc, &[command, "a.job"], one(alloc, bytes)?)?;
        wrote(&rt, command, &ran, text);
    }
    Ok(())
}

#[test]
fn refuses_files(rt: HostRuntime) -> Result<(), Fail> {
    let alloc = rt.alloc();
    for (command, bytes, detail) in REFUSED {
        refuses(&rt, alloc, command, bytes, detail)?;
    }
    Ok(())
}

#[test]
fn refuses_large_files(rt: HostRuntime) -> Result<(), Fail> {
    let alloc = rt.alloc();
    for command in ["run", "asm", "dis"] {
        let large = vec![in alloc; 0u8; 16_777_217]?;
        refuses(&rt, alloc, command, &large, "large")?;
    }
    Ok(())
}

#[test]
fn a_failed_write_leaves_a_front(rt: HostRuntime) -> Result<(), Fail> {
    let alloc = rt.alloc();
    let list = job_files(alloc, jobs::SMALL, &[jobs::ADDS])?;
    let ran = run_writing(alloc, &["run", "a.job"], list, failing_at(3, 2), STEADY)?;
    assert_eq!(rt; ran.status, ToolStatus::WriteFault);
    assert!(rt; ran.out.bytes() == b"pms".as_slice());
    assert!(rt; ran.err.bytes() == b"write fault\n".as_slice());
    Ok(())
}

#[test]
fn a_failed_line_is_a_write_fault(rt: HostRuntime) -> Result<(), Fail> {
    let alloc = rt.alloc();
    let words = ["run", "a.job"];
    let ran = run_writing(alloc, &words, Vec::new(alloc), STEADY, failing_at(3, 2))?;
    assert_eq!(rt; ran.status, ToolStatus::WriteFault);
    assert!(rt; ran.out.bytes().is_empty());
    assert!(rt; ran.err.bytes() == b"rea".as_slice());
    Ok(())
}

#[test]
fn statuses_have_their_numbers(rt: HostRuntime) {
    assert_eq!(rt; ToolStatus::Done as u8, 0);
    assert_eq!(rt; ToolStatus::Usage as u8, 2);
    assert_eq!(rt; ToolStatus::ReadFault as u8, 3);
    assert_eq!(rt; ToolStatus::WriteFault as u8, 4);
    assert_eq!(rt; ToolStatus::Refused as u8, 5);
    assert_eq!(rt; ToolStatus::NoMemory as u8, 6);
}

/// A command on these bytes writes an image of as many words as the limit.
fn writes_the_most(
    rt: &impl Abort,
    alloc: Global,
    command: &str,
    bytes: &[u8],
) -> Result<(), AllocError> {
    let ran = run(alloc, &[command, "a.job"], one(alloc, bytes)?)?;
    assert_eq!(rt; ran.status, ToolStatus::Done);
    assert_eq!(rt; ran.out.bytes().len(), 65_552);
    Ok(())
}

#[test]
fn takes_as_many_words_as_the_limit(rt: HostRuntime) -> Result<(), Fail> {
    let alloc = rt.alloc();
    let mut bytes = vec![in alloc; 0u8; 65_552]?;
    bytes[..16].copy_from_slice(b"PMSIIMG1\0\x40\0\0\0\0\0\0");
    writes_the_most(&rt, alloc, "image", &bytes)?;
    writes_the_most(&rt, alloc, "asm", asm::full(alloc, "a:")?.as_bytes())?;
    Ok(())
}
