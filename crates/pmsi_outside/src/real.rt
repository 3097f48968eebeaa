//! The trusted edge: files of the disk, and a sink over any writer of std.
ghost use Rattle.std.specs.Prelude.{◌≡◌, None, Some, IsErr, string_bytes};
ghost use Rattle.pmsi_outside.specs.Causes.{counted};

use crate::{Failed, Files, Sink};
use std::io::{Read, Write};
use std::marker::Model;
use std::{fs, rt};

/// Bytes that one read of a file of the disk gives at most.
const CHUNK: usize = 4096;

/// The open file, and the name that it was opened by.
#[derive(Drop)]
struct DiskFile<F> {
    name: String,
    file: F,
}

/// Files of the disk, by their paths. What they hold isn't told.
#[derive(Drop)]
pub struct DiskFiles<'a, R: rt::Files> {
    rt: &'a R,
    file: Option<DiskFile<R::File>>,
    blamed: Option<String>,
    faults: u64,
}

impl<'a, R: rt::Files> Model for DiskFiles<'a, R> {
    ghost use Rattle.std.specs.Prelude.{string_bytes};
    ghost use Rattle.std.specs.Option.{option_map};
    ghost use Rattle.pmsi_outside.specs.Real.{DiskFilesValue};

    ghost Value = { DiskFilesValue };

    ghost view = { λ a. record { name = option_map (λ file. string_bytes file.name) a.file; blamed = option_map string_bytes a.blamed; faults = a.faults } };
}

impl<'a, R: rt::Files> DiskFiles<'a, R> {
    /// The files that the runtime reaches. None is open.
    pub fn new(rt: &'a R) -> DiskFiles<'a, R>
        ensures { result ≡ record { name = None; blamed = None; faults = 0 } }
    {
        DiskFiles {
            rt,
            file: None,
            blamed: None,
            faults: 0,
        }
    }

    /// Closes the open file, and blames this name.
    fn fail(&mut self, name: String)
        ensures { self.new ≡ record { name = None; blamed = Some (string_bytes name); faults = counted self.old.faults } }
    {
        self.file = None;
        self.blamed = Some(name);
        self.faults = self.faults.saturating_add(1);
    }
}

impl<'a, R: rt::Files> Files for DiskFiles<'a, R> {
    ghost use Rattle.std.specs.Prelude.{None};

    ghost contents = { λ _. None };

    ghost left = { λ _. None };

    ghost open_name = { λ m. m.name };

    ghost blamed = { λ m. m.blamed };

    ghost faults = { λ m. m.faults };

    ghost steady = { λ _. ⊥ };

    fn open(&mut self, name: String) -> Result<(), Failed> {
        match fs::open(self.rt, name.as_str()) {
            Ok(file) => {
                self.file = Some(DiskFile { name, file });
                Ok(())
            }
            Err(_) => {
                self.fail(name);
                Err(Failed)
            }
        }
    }

    fn read(&mut self, buf: &mut [u8]) -> Result<usize, Failed> {
        // Std doesn't say that a read leaves what stands in the buffer behind the bytes that it gave.
        let mut chunk = [0; CHUNK];
        let most = buf.len().min(CHUNK);
        let Some(mut open) = self.file.take() else {
            unreachable!()
        };
        match open.file.read(&mut chunk[..most]) {
            Ok(count) => {
                buf[..count].copy_from_slice(&chunk[..count]);
                self.file = Some(open);
                Ok(count)
            }
            Err(_) => {
                self.fail(open.name);
                Err(Failed)
            }
        }
    }
}

/// A sink over a writer of std, which it flushes after each write. What the writer holds isn't told.
#[derive(Drop)]
pub struct StdSink<W: Write> {
    writer: W,
    faults: u64,
}

impl<W: Write> Model for StdSink<W> {
    ghost use Rattle.std.specs.Prelude.{ℕ};

    ghost Value = { ℕ };

    ghost view = { λ a. a.faults };
}

impl<W: Write> StdSink<W> {
    /// A sink over this writer, with no fault counted.
    pub fn new(writer: W) -> StdSink<W>
        ensures { result ≡ 0 }
    {
        StdSink { writer, faults: 0 }
    }

    /// Counts a fault, and answers it.
    fn fail(&mut self) -> Result<usize, Failed>
        ensures answer { IsErr result }
        ensures counted { self.new ≡ counted self.old }
    {
        self.faults = self.faults.saturating_add(1);
        Err(Failed)
    }
}

impl<W: Write> Sink for StdSink<W> {
    ghost held = { λ _. None };

    ghost faults = { λ m. m };

    fn write(&mut self, piece: &[u8]) -> Result<usize, Failed> {
        match self.writer.write(piece) {
            Ok(0) | Err(_) => self.fail(),
            Ok(count) => match self.writer.flush() {
                Ok(()) => Ok(count),
                Err(_) => self.fail(),
            },
        }
    }
}
