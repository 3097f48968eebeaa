//! An entry of the cache.
ghost use Rattle.std.specs.Prelude.{◌≡◌, ◌==◌, length, ◌≤◌, true, false, if◌then◌else◌};
ghost use Rattle.pmsi_model.specs.declared.limits.TheConstants.{MAX_LINE_WORDS};
ghost use Rattle.cache_array.specs.Aged.{aged_line};

use crate::order::AgedLine;
use crate::{CachedLine, CachedWords};
use pmsi_model::Mode;

/// Room for a line, and the line where one is held. Of two held lines the one of the greater age was used later.
#[derive(Drop)]
pub struct Entry {
    pub held: bool,
    pub age: u64,
    pub cached: CachedLine,
}

impl Entry {
    /// An entry without a line.
    pub fn free(way: u32) -> Entry
        ensures held { result.held ≡ false }
        ensures way { result.cached.way ≡ way }
    {
        Entry {
            held: false,
            age: 0,
            cached: CachedLine {
                line: 0,
                mode: Mode::Shared,
                words: CachedWords::from_slice(&[]),
                way,
            },
        }
    }

    /// An equal entry. It takes no memory.
    pub fn copy(&self) -> Entry
        ensures { result ≡ self.now }
    {
        Entry {
            held: self.held,
            age: self.age,
            cached: self.cached.copy(),
        }
    }

    /// The line and its age.
    pub fn aged(&self) -> AgedLine
        ensures { result ≡ aged_line self.now }
    {
        AgedLine {
            age: self.age,
            line: self.cached.line,
            mode: self.cached.mode,
        }
    }

    /// Holds a line. The entry keeps its way.
    pub fn fill(&mut self, age: u64, line: u32, mode: Mode, words: &[u32])
        requires { length words.now ≤ MAX_LINE_WORDS }
        ensures { self.new ≡ record { held = true; age = age; cached = record { line = line; mode = mode; words = words.now; way = self.old.cached.way } } }
    {
        self.held = true;
        self.age = age;
        self.cached.line = line;
        self.cached.mode = mode;
        self.cached.words = CachedWords::from_slice(words);
    }

    /// Where the age is the one number, it becomes the other.
    pub fn rename(&mut self, from: u64, to: u64)
        ensures { self.new ≡ record self.old { age = if self.old.age == from then to else self.old.age } }
    {
        if self.age == from {
            self.age = to;
        }
    }
}
