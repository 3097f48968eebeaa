//! Sources that are assembled, and sources that are refused.
use super::*;
use asm_parse::{AsmCause, AsmFault};
use sources::{
    ACCESSES, CONSTANTS, DATA, FORMS, Fault, JUMPS, LINES, OPERATIONS, ORDER, Piece, Text, VALUES,
};

mod sources;

/// Appends the lowest four bytes of a number, the lowest first.
fn push_number(bytes: &mut Vec<u8>, number: u64) -> Result<(), AllocError> {
    bytes.extend_from_slice(&number.to_le_bytes()[..4])
}

/// The bytes of an image of these words and pieces.
fn image_of(alloc: Global, words: &[u32], pieces: &[Piece]) -> Result<Vec<u8>, AllocError> {
    let mut bytes = b"PMSIIMG1".to_vec(alloc)?;
    push_number(&mut bytes, words.len() as u64)?;
    push_number(&mut bytes, pieces.len() as u64)?;
    for word in words {
        push_number(&mut bytes, u64::from(*word))?;
    }
    for (address, held) in pieces {
        push_number(&mut bytes, u64::from(*address))?;
        push_number(&mut bytes, held.len() as u64)?;
        bytes.extend_from_slice(held)?;
    }
    Ok(bytes)
}

/// A source is assembled to exactly this image.
fn assembles(
    rt: &impl Abort,
    alloc: Global,
    source: &str,
    words: &[u32],
    pieces: &[Piece],
) -> Result<(), AllocError> {
    let image = image_of(alloc, words, pieces)?;
    let ran = run(alloc, &["asm", "a.job"], one(alloc, source.as_bytes())?)?;
    wrote(rt, source, &ran, &image);
    Ok(())
}

/// A source is refused, and exactly this is told of it.
fn finds(rt: &impl Abort, alloc: Global, source: &str, detail: &str) -> Result<(), AllocError> {
    refuses(rt, alloc, "asm", source.as_bytes(), detail)
}

fn assembles_each(rt: &impl Abort, alloc: Global, rows: &[Text]) -> Result<(), AllocError> {
    for (source, words) in rows {
        assembles(rt, alloc, source, words, &[])?;
    }
    Ok(())
}

fn finds_each(rt: &impl Abort, alloc: Global, rows: &[Fault]) -> Result<(), AllocError> {
    for (source, detail) in rows {
        finds(rt, alloc, source, detail)?;
    }
    Ok(())
}

/// A source of as many words as a text may have, and then this line.
pub(super) fn full(alloc: Global, line: &str) -> Result<String, AllocError> {
    let mut source = String::new(alloc);
    for _ in 0..16_384 {
        source.push_str("nop\n")?;
    }
    source.push_str(line)?;
    Ok(source)
}

#[test]
fn assembles_sources(rt: HostRuntime) -> Result<(), Fail> {
    let alloc = rt.alloc();
    assembles_each(&rt, alloc, CONSTANTS)?;
    assembles_each(&rt, alloc, JUMPS)?;
    assembles_each(&rt, alloc, OPERATIONS)?;
    assembles_each(&rt, alloc, ACCESSES)?;
    assembles_each(&rt, alloc, LINES)?;
    for (source, words, pieces) in DATA {
        assembles(&rt, alloc, source, words, pieces)?;
    }
    Ok(())
}

/// Lines behind as many words as a text may have: that it is too long comes behind what else is wrong with the line, but
/// before the second round.
const BEHIND: &[Fault] = &[
    ("nop", "text long"),
    ("nop $", "character 5"),
    ("bad", "word 1"),
    ("nop nop", "operand 5"),
    (".word 1, 4294967296", "number 10"),
    ("a: a: nop", "twice 4"),
    ("j b", "text long"),
    ("j 3", "text long"),
];

#[test]
fn finds_faults(rt: HostRuntime) -> Result<(), Fail> {
    let alloc = rt.alloc();
    finds_each(&rt, alloc, FORMS)?;
    finds_each(&rt, alloc, VALUES)?;
    finds_each(&rt, alloc, ORDER)?;
    for (line, detail) in BEHIND {
        let detail = format!(in alloc; "line 16385: {detail}")?;
        finds(&rt, alloc, full(alloc, line)?.as_str(), detail.as_str())?;
    }
    Ok(())
}

#[test]
fn shows_faults(rt: HostRuntime) -> Result<(), Fail> {
    let text = format!(in rt.alloc();
        "{}, {}",
        AsmFault::At(3, AsmCause::Reach(-2)),
        AsmFault::At(1, AsmCause::Range(1_048_577))
    )?;
    assert_eq!(rt; text.as_str(), "line 3: reach -2, line 1: range 0x00100001");
    Ok(())
}
