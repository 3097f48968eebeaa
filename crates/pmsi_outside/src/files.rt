//! Files that are opened by name and read from the front, one at a time.
ghost use Rattle.std.specs.Prelude.{◌≡◌, ◌<◌, ℕ, List, Option, None, Some, length, drop, string_bytes, IsSome, IfOk, OnOk, OnErr};
ghost use Rattle.std.specs.Io.{ReadsAtMost};
ghost use Rattle.pmsi_outside.specs.Causes.{HasCause, Blames, Succeeds};
ghost use Rattle.pmsi_outside.specs.Files.{Contents, Has, Opens, ReadTakes};

/// A call failed outside the program.
#[derive(Clone, Copy, Debug, PartialEq, Eq)]
pub struct Failed;

/// Files of which one at most is open. Each call that fails is counted, closes the open file, and has its name blamed.
pub trait Files {
    /// The contents by name, where they are told.
    ghost contents: { Self → Option Contents };

    /// What the open file has left to give, where it is told.
    ghost left: { Self → Option (List ℕ) };

    /// The name of the open file, or none where no file is open.
    ghost open_name: { Self → Option (List ℕ) };

    /// The name of the call that failed last.
    ghost blamed: { Self → Option (List ℕ) };

    /// How often a call has failed.
    ghost faults: { Self → ℕ };

    /// That no call fails but an `open` of a name without contents.
    ghost steady: { Self → Type 0 };

    /// Opens the file of this name in the place of the one that was open, at its first byte. It keeps the name, and takes
    /// no memory.
    fn open(&mut self, name: String) -> Result<(), Failed>
        ensures opened { OnOk result (open_name self.new ≡ Some (string_bytes name)) }
        ensures closed { OnErr result (open_name self.new ≡ None) }
        ensures bytes { OnOk result (Opens (contents self.old) (string_bytes name) (left self.new)) }
        ensures contents { contents self.new ≡ contents self.old }
        ensures cause { HasCause (faults self.old) (faults self.new) result }
        ensures blame { Blames (faults self.old) (faults self.new) result (Some (string_bytes name)) (blamed self.old) (blamed self.new) }
        ensures steady { steady self.old → Has (contents self.old) (string_bytes name) → Succeeds (faults self.old) (faults self.new) result }
        ensures stays { steady self.old → steady self.new };

    /// Reads the next bytes of the open file into the front of the buffer, and answers how many there were.
    fn read(&mut self, buf: &mut [u8]) -> Result<usize, Failed>
        requires open { IsSome (open_name self.old) }
        requires room { 0 < length buf.old }
        ensures bound { ReadsAtMost result buf.new }
        ensures bytes { ReadTakes (left self.old) (left self.new) result buf.new }
        ensures rest { IfOk result (λ count. drop count buf.new ≡ drop count buf.old) }
        ensures opened { OnOk result (open_name self.new ≡ open_name self.old) }
        ensures closed { OnErr result (open_name self.new ≡ None) }
        ensures contents { contents self.new ≡ contents self.old }
        ensures cause { HasCause (faults self.old) (faults self.new) result }
        ensures blame { Blames (faults self.old) (faults self.new) result (open_name self.old) (blamed self.old) (blamed self.new) }
        ensures steady { steady self.old → Succeeds (faults self.old) (faults self.new) result }
        ensures stays { steady self.old → steady self.new };
}

/// Is told of each phase of each core before it starts. Nothing that is computed depends on it.
pub trait Gate {
    /// Returns when the phase of this core in this slot may start.
    fn before(&self, core: u32, slot: u32);
}
