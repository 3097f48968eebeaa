//! A line of the cache.
ghost use Rattle.std.specs.Prelude.{◌≡◌, ◌<◌, ◌≤◌, length, slice_index, slice_set};
ghost use Rattle.pmsi_model.specs.declared.limits.TheConstants.{MAX_LINE_WORDS};

use pmsi_model::{LineWords, Mode};
use std::marker::Model;

/// The words of a line, in a room for the longest line.
#[derive(Drop)]
pub struct CachedWords {
    items: LineWords,
}

impl Model for CachedWords {
    ghost use Rattle.std.specs.Prelude.{ℕ, List};

    ghost Value = { List ℕ };

    ghost view = { λ a. a.items.items };
}

impl CachedWords {
    /// The words of a line, of at most the longest. It takes no memory.
    pub fn from_slice(words: &[u32]) -> CachedWords
        requires { length words.now ≤ MAX_LINE_WORDS }
        ensures { result ≡ words.now }
    {
        let mut items = LineWords::new();
        let Ok(()) = items.try_extend_from_slice(words) else {
            unreachable!()
        };
        CachedWords { items }
    }

    /// The words, by their place in the line.
    pub fn as_slice(&self) -> &[u32]
        ensures value { result.now ≡ self.now }
        ensures fits { length result.now ≤ MAX_LINE_WORDS }
    {
        self.items.as_slice()
    }

    /// The word at a place, from 0, counted in words.
    pub fn get(&self, place: usize) -> u32
        requires { place < length self.now }
        ensures { result ≡ slice_index self.now place }
    {
        self.items[place]
    }

    /// Replaces the word at a place, from 0, counted in words.
    pub fn set(&mut self, place: usize, word: u32)
        requires { place < length self.old }
        ensures { self.new ≡ slice_set self.old place word }
    {
        self.items[place] = word;
    }
}

/// A cached line: its number, its mode, its words, and the way of its set in which it stands, from 0.
#[derive(Drop)]
pub struct CachedLine {
    pub line: u32,
    pub mode: Mode,
    pub words: CachedWords,
    pub way: u32,
}

impl CachedLine {
    /// An equal line. It takes no memory.
    pub fn copy(&self) -> CachedLine
        ensures { result ≡ self.now }
    {
        CachedLine {
            line: self.line,
            mode: self.mode,
            words: CachedWords::from_slice(self.words.as_slice()),
            way: self.way,
        }
    }
}
