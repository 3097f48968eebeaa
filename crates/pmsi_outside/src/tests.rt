use super::*;
use std::alloc::{AllocError, Global};
use std::fs;
use std::test::Fail;

const TEXT: &str = "ten bytes.";

/// Two entries of one name, of which the first counts.
fn listed(alloc: Global) -> Result<Vec<(String, Vec<u8>)>, AllocError> {
    let mut list = Vec::new(alloc);
    list.push((name(alloc)?, TEXT.as_bytes().to_vec(alloc)?))?;
    list.push((name(alloc)?, Vec::new(alloc)))?;
    Ok(list)
}

fn name(alloc: Global) -> Result<String, AllocError> {
    String::from_str(alloc, "a.job")
}

#[test]
fn reads_by_small_steps(rt: HostRuntime) -> Result<(), Fail> {
    let alloc = rt.alloc();
    let mut files = MemoryFiles::new(listed(alloc)?, 3, Vec::new(alloc));
    let bytes = read_whole(alloc, &mut files, name(alloc)?)?;
    assert!(rt; bytes.as_slice() == TEXT.as_bytes());
    Ok(())
}

/// One `open`, four reads that give bytes, and one at the end.
#[test]
fn each_call_fails_in_turn(rt: HostRuntime) -> Result<(), Fail> {
    let alloc = rt.alloc();
    for number in 1..8u64 {
        let fails = Vec::from_array(alloc, [number])?;
        let mut files = MemoryFiles::new(listed(alloc)?, 3, fails);
        let result = read_whole(alloc, &mut files, name(alloc)?);
        if number <= 6 {
            assert!(rt; matches!(result, Err(ReadAll::Failed)));
        } else {
            assert!(rt; result.is_ok());
        }
    }
    Ok(())
}

#[test]
fn a_missing_name_fails(rt: HostRuntime) -> Result<(), Fail> {
    let alloc = rt.alloc();
    let missing = String::from_str(alloc, "a.jo")?;
    let mut files = MemoryFiles::new(listed(alloc)?, 3, Vec::new(alloc));
    let result = read_whole(alloc, &mut files, missing);
    assert!(rt; matches!(result, Err(ReadAll::Failed)));
    Ok(())
}

#[test]
fn steady_files_are_read(rt: HostRuntime) -> Result<(), Fail> {
    let alloc = rt.alloc();
    let mut files = SteadyFiles::new(listed(alloc)?);
    let bytes = read_whole(alloc, &mut files, name(alloc)?)?;
    assert!(rt; bytes.as_slice() == TEXT.as_bytes());
    Ok(())
}

#[test]
fn writes_by_small_steps(rt: HostRuntime) -> Result<(), Fail> {
    let alloc = rt.alloc();
    let room = vec![in alloc; 0u8; 12]?;
    let mut sink = MemorySink::new(room, 3, Vec::new(alloc));
    assert!(rt; write_whole(&mut sink, TEXT.as_bytes()).is_ok());
    assert!(rt; sink.bytes() == TEXT.as_bytes());
    // Two bytes of room are left.
    assert!(rt; write_whole(&mut sink, b"abc").is_err());
    assert!(rt; sink.bytes() == b"ten bytes.ab".as_slice());
    Ok(())
}

#[test]
fn a_failed_write_leaves_a_front(rt: HostRuntime) -> Result<(), Fail> {
    let alloc = rt.alloc();
    let room = vec![in alloc; 0u8; 12]?;
    let mut sink = MemorySink::new(room, 3, Vec::from_array(alloc, [2])?);
    assert!(rt; write_whole(&mut sink, TEXT.as_bytes()).is_err());
    assert!(rt; sink.bytes() == b"ten".as_slice());
    Ok(())
}

/// Passes a gate that threads may share.
fn pass<G: Gate + Sync>(gate: &G) {
    gate.before(0, 0);
}

#[test]
fn nothing_is_kept_or_held_up(rt: HostRuntime) {
    assert!(rt; write_whole(&mut NullSink::new(), TEXT.as_bytes()).is_ok());
    pass(&OpenGate::new());
}

#[test]
fn reads_a_file_of_the_disk(rt: HostRuntime) -> Result<(), Fail> {
    let alloc = rt.alloc();
    let mut files = DiskFiles::new(&rt);
    let result = read_whole(alloc, &mut files, name(alloc)?);
    assert!(rt; matches!(result, Err(ReadAll::Failed)));
    fs::write(&rt, "a.job", TEXT)?;
    let bytes = read_whole(alloc, &mut files, name(alloc)?)?;
    assert!(rt; bytes.as_slice() == TEXT.as_bytes());
    fs::remove_file(&rt, "a.job")?;
    Ok(())
}

#[test]
fn writes_to_a_writer(rt: HostRuntime) -> Result<(), Fail> {
    let alloc = rt.alloc();
    let mut sink = StdSink::new(fs::create(&rt, "a.log")?);
    assert!(rt; write_whole(&mut sink, TEXT.as_bytes()).is_ok());
    assert!(rt; fs::read_to_string(&rt, "a.log")?.as_str() == TEXT);
    fs::remove_file(&rt, "a.log")?;
    Ok(())
}
