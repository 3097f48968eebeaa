//! The program: its words, the files of the disk and the standard streams go to `tool_threads` where the first word is `sim`,
//! else to `tool`, and it ends with the status number.
#![tactic(auto)]

use pmsi_outside::{DiskFiles, OpenGate, StdSink};
use pmsi_tool::{ToolStatus, tell_no_memory, tool, tool_threads};
use std::alloc::AllocError;
use std::env;
use std::io::ErrorKind;
use std::process::ExitCode;
use std::sync::Wait;
use std::thread::Threads;

#[cfg(test)]
mod tests;

/// The words after the program's name: none where one isn't UTF-8.
fn words(rt: &HostRuntime) -> Result<Vec<String>, AllocError> {
    let mut words = Vec::new(rt.alloc());
    let given = match env::args(rt) {
        Ok(given) => given,
        Err(fault) if fault.kind() == ErrorKind::OutOfMemory => return Err(AllocError),
        Err(_) => return Ok(words),
    };
    for word in given.skip(1) {
        words.push(word)?;
    }
    Ok(words)
}

/// The call that serves the words, on the real files and streams. `threads` is the leave to start threads and to wait.
fn call<T: Threads + Wait + Sync>(rt: &HostRuntime, threads: &T, words: &[String]) -> ToolStatus {
    let alloc = rt.alloc();
    let mut files = DiskFiles::new(rt);
    let mut out = StdSink::new(rt.stdout());
    let mut err = StdSink::new(rt.stderr());
    match words.first() {
        Some(word) if word.as_str() == "sim" => {
            let gate = OpenGate::new();
            tool_threads(threads, alloc, words, &mut files, &mut out, &mut err, &gate)
        }
        _ => tool(alloc, words, &mut files, &mut out, &mut err),
    }
}

fn run<T: Threads + Wait + Sync>(rt: &HostRuntime, threads: &T) -> ToolStatus {
    match words(rt) {
        Ok(words) => call(rt, threads, &words),
        Err(AllocError) => tell_no_memory(&mut StdSink::new(rt.stderr())),
    }
}

fn main(rt: HostRuntime) -> ExitCode {
    ExitCode::from(run(&rt, &rt) as u8)
}
