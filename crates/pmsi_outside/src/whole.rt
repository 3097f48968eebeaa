//! Reading a file whole, and writing bytes whole.
ghost use Rattle.std.specs.Prelude.{◌≡◌, ◌≤◌, ◌<◌, ◌≢◌, Some, length, string_bytes, IfOk, OnOk, OnErr, IsErrOf};
ghost use Rattle.std.specs.Io.KnownBytes.{Appends};
ghost use Rattle.pmsi_outside.specs.Causes.{Rose, HasCause};
ghost use Rattle.pmsi_outside.specs.Files.{Tells, Has};
ghost use Rattle.pmsi_outside.specs.Sink.{AppendsPart};
ghost use Rattle.pmsi_outside.specs.declared.whole.ReadAll.TheVariants.{NoMemory};

use crate::{Failed, Files, Sink};
use pmsi_model::limits::MAX_FILE_BYTES;
use std::alloc::{AllocError, Global};

/// Bytes that one read asks for.
const CHUNK: usize = 8192;

/// Why a file was not read whole.
#[derive(Clone, Copy, Debug, PartialEq, Eq)]
pub enum ReadAll {
    /// It couldn't be opened or read.
    Failed,
    /// It has more than `MAX_FILE_BYTES` bytes.
    Large,
    /// Memory ran out.
    NoMemory,
}

impl From<Failed> for ReadAll {
    ghost use Rattle.pmsi_outside.specs.declared.whole.ReadAll.TheVariants.{Failed};

    ghost from_gives = { λ _ e. e ≡ Failed };

    fn from(_: Failed) -> ReadAll {
        ReadAll::Failed
    }
}

impl From<AllocError> for ReadAll {
    ghost from_gives = { λ _ e. e ≡ NoMemory };

    fn from(_: AllocError) -> ReadAll {
        ReadAll::NoMemory
    }
}

/// Opens the file of this name and reads it to its end, if it has `MAX_FILE_BYTES` bytes at most.
pub fn read_whole<F: Files>(alloc: Global, files: &mut F, name: String) -> Result<Vec<u8>, ReadAll>
    // Where contents are told, these are the contents of the name.
    ensures whole { IfOk result (λ bytes. Tells (F.contents files.old) (string_bytes name) (λ held. held ≡ bytes.items)) }
    ensures within { IfOk result (λ bytes. length bytes.items ≤ MAX_FILE_BYTES) }
    ensures large { IsErrOf result ReadAll.Large → Tells (F.contents files.old) (string_bytes name) (λ held. MAX_FILE_BYTES < length held) }
    ensures failed { IsErrOf result ReadAll.Failed → Rose (F.faults files.old) (F.faults files.new) }
    ensures failed_here { IsErrOf result ReadAll.Failed → F.blamed files.new ≡ Some (string_bytes name) }
    ensures later { F.faults files.old ≤ F.faults files.new }
    ensures blamed { F.faults files.old < F.faults files.new → F.blamed files.new ≡ Some (string_bytes name) }
    ensures not_blamed { result ≢ Err ReadAll.Failed → F.faults files.new ≡ F.faults files.old → F.blamed files.new ≡ F.blamed files.old }
    ensures steady { F.steady files.old → Has (F.contents files.old) (string_bytes name) → F.faults files.new ≡ F.faults files.old }
    ensures steady_ok { F.steady files.old → Has (F.contents files.old) (string_bytes name) → result ≢ Err ReadAll.Failed }
    ensures stays { F.steady files.old → F.steady files.new }
    ensures contents { F.contents files.new ≡ F.contents files.old }
{
    files.open(name)?;
    let mut chunk = vec![in alloc; 0u8; CHUNK]?;
    let mut bytes = Vec::new(alloc);
    loop {
        let count = files.read(&mut chunk)?;
        if count == 0 {
            return Ok(bytes);
        }
        if count > MAX_FILE_BYTES as usize - bytes.len() {
            return Err(ReadAll::Large);
        }
        bytes.extend_from_slice(&chunk[..count])?;
    }
}

/// Writes all of these bytes; where there are none, it makes no call.
pub fn write_whole<S: Sink>(sink: &mut S, bytes: &[u8]) -> Result<(), Failed>
    ensures whole { OnOk result (Appends (S.held sink.old) (S.held sink.new) bytes.now) }
    ensures part { OnErr result (AppendsPart (S.held sink.old) (S.held sink.new) bytes.now) }
    ensures cause { HasCause (S.faults sink.old) (S.faults sink.new) result }
    ensures nothing { length bytes.now ≡ 0 → sink.new ≡ sink.old }
{
    let mut rest = bytes;
    while !rest.is_empty() {
        let count = sink.write(rest)?;
        rest = &rest[count..];
    }
    Ok(())
}
