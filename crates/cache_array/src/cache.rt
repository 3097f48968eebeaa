//! The cache as an array of entries, `ways` for each set.
ghost use Rattle.std.specs.Prelude.{◌≡◌, ◌⊎◌, ℕ, ◌*◌, ◌%◌, ◌<◌, [], ◌==◌, length, IfOk, IfSome, Some, None, if◌then◌else◌, slice_get, slice_index, slice_set, option_map};
ghost use Rattle.pmsi_model.specs.Geometry.{IsGeometry, line_of};
ghost use Rattle.pmsi_model.specs.Machine.{mode_of, without, to_front, with_mode};
ghost use Rattle.pmsi_model.specs.Phase.{set_lines, touched_line, evicted};
ghost use Rattle.cache_array.specs.Cache.{IsCache, Holds, held_of, words_of, word_place, others, touched, put_first, place_of, way_of, way_for, HasOwnWay, with_line_mode, with_word};
ghost use Rattle.cache_array.specs.Entries.{AreFree};

use crate::entry::Entry;
use crate::{address, ages, order, places};
use pmsi_model::{Geometry, LineWords, Mode, NoMemory};
use std::alloc::{AllocError, Global};
use std::marker::Model;

/// One core's cache. A line is named by its number, an address counts bytes, and words have 32 bits.
#[derive(Drop)]
pub struct CacheArray {
    shape: Geometry,
    /// The entries of each set in turn.
    entries: Vec<Entry>,
    /// Above the age of each held line.
    next: u64,
}

/// Where a line stands, and how it is held.
#[derive(Debug, Clone, Copy, PartialEq, Eq, Drop)]
pub struct Found {
    /// The place among the entries of all sets, from 0.
    pub place: usize,
    pub mode: Mode,
}

impl Model for CacheArray {
    ghost use Rattle.cache_array.specs.Cache.{CacheValue};
    ghost use Rattle.cache_array.specs.Entries.{lines_of, IsArray};

    ghost Value = { CacheValue };

    ghost view = { λ a. record { shape = a.shape; lines = lines_of a.entries.items } };

    ghost invariant = { λ a. IsArray a.shape a.next a.entries.items };
}

/// The entries of an empty cache.
fn free_entries(alloc: Global, shape: &Geometry) -> Result<Vec<Entry>, NoMemory>
    requires { IsGeometry shape.now }
    ensures free { IfOk result (λ v. AreFree shape.now.ways 0 v.items) }
    ensures count { IfOk result (λ v. length v.items ≡ shape.now.sets * shape.now.ways) }
{
    let count = shape.sets as usize * shape.ways as usize;
    let mut entries = Vec::with_capacity(alloc, count)?;
    for place in 0..count {
        entries.push_reserved(Entry::free(place as u32 % shape.ways));
    }
    Ok(entries)
}

impl CacheArray {
    /// An empty cache, with room for all its lines: no later call takes memory but `copy` and `held_lines`.
    pub fn new(alloc: Global, shape: Geometry) -> Result<CacheArray, NoMemory>
        requires { IsGeometry shape }
        ensures { IfOk result (λ c. c ≡ record { shape = shape; lines = [] }) }
    {
        Ok(CacheArray {
            shape,
            entries: free_entries(alloc, &shape)?,
            next: 0,
        })
    }

    /// An equal cache.
    pub fn copy(&self, alloc: Global) -> Result<CacheArray, NoMemory>
        ensures { IfOk result (λ c. c ≡ self.now) }
    {
        let mut entries = Vec::with_capacity(alloc, self.entries.len())?;
        for entry in &self.entries {
            entries.push_reserved(entry.copy());
        }
        Ok(CacheArray {
            shape: self.shape,
            entries,
            next: self.next,
        })
    }

    /// The shape of the machine that the cache is of.
    pub fn shape(&self) -> Geometry
        ensures shape { result ≡ self.now.shape }
        ensures cache { IsCache self.now }
    {
        self.shape
    }

    /// The line at a place of the list, the most recently used at 0. It counts the younger lines of each line: take
    /// `held_lines` to see all.
    pub fn held(&self, place: u32) -> Option<(u32, Mode)>
        ensures { result ≡ slice_get (held_of self.now.lines) place }
    {
        order::nth_line(&self.entries, place as usize)
    }

    /// The held lines, most recently used first.
    pub fn held_lines(&self, alloc: Global) -> Result<Vec<(u32, Mode)>, AllocError>
        ensures { IfOk result (λ v. v.items ≡ held_of self.now.lines) }
    {
        let mut lines = Vec::new(alloc);
        for line in &order::by_age(alloc, &self.entries)? {
            lines.push((line.line, line.mode))?;
        }
        Ok(lines)
    }

    /// How many lines are held.
    pub fn held_count(&self) -> u32
        ensures { result ≡ length (held_of self.now.lines) }
    {
        order::count_held(&self.entries) as u32
    }

    /// The mode of a line.
    pub fn find(&self, line: u32) -> Option<Mode>
        ensures mode { result ≡ mode_of line (held_of self.now.lines) }
        ensures cache { IsCache self.now }
    {
        let place = places::place_of(&self.shape, &self.entries, line)?;
        Some(self.entries[place].cached.mode)
    }

    /// The way of its set in which a line stands, from 0. A line keeps its way until it leaves.
    pub fn way(&self, line: u32) -> Option<u32>
        ensures way { result ≡ way_of line self.now.lines }
        ensures below { IfSome result (λ way. way < self.now.shape.ways) }
        ensures apart { HasOwnWay line self.now }
    {
        let place = places::place_of(&self.shape, &self.entries, line)?;
        Some(self.entries[place].cached.way)
    }

    /// The place and the mode of a line. With the place the calls that end in `_at` need no search. A line keeps its place
    /// until it leaves.
    pub fn look_up(&self, line: u32) -> Option<Found>
        ensures place { option_map (λ f. f.place) result ≡ place_of line self.now }
        ensures mode { option_map (λ f. f.mode) result ≡ mode_of line (held_of self.now.lines) }
        ensures cache { IsCache self.now }
    {
        let place = places::place_of(&self.shape, &self.entries, line)?;
        Some(Found {
            place,
            mode: self.entries[place].cached.mode,
        })
    }

    /// The place of a line that is held.
    fn held_place(&self, line: u32) -> usize
        requires { Holds line self.now.lines }
        ensures { place_of line self.now ≡ Some result }
    {
        let Some(found) = self.look_up(line) else {
            unreachable!()
        };
        found.place
    }

    /// Makes a line the most recently used.
    pub fn touch(&mut self, line: u32)
        requires { Holds line self.old.lines }
        ensures after { self.new ≡ record self.old { lines = touched line self.old.lines } }
        ensures held { held_of self.new.lines ≡ touched_line (mode_of line (held_of self.old.lines)) line (held_of self.old.lines) }
        ensures words { (k : ℕ) → words_of k self.new.lines ≡ words_of k self.old.lines }
        ensures ways { (k : ℕ) → way_of k self.new.lines ≡ way_of k self.old.lines }
    {
        let place = self.held_place(line);
        self.touch_at(place, line);
    }

    /// Makes the line that stands at a place the most recently used.
    pub fn touch_at(&mut self, place: usize, line: u32)
        requires { place_of line self.old ≡ Some place }
        ensures after { self.new ≡ record self.old { lines = touched line self.old.lines } }
        ensures held { held_of self.new.lines ≡ touched_line (mode_of line (held_of self.old.lines)) line (held_of self.old.lines) }
        ensures words { (k : ℕ) → words_of k self.new.lines ≡ words_of k self.old.lines }
        ensures ways { (k : ℕ) → way_of k self.new.lines ≡ way_of k self.old.lines }
    {
        let age = ages::take_age(&mut self.entries, self.next);
        self.entries[place].age = age;
        self.next = age + 1;
    }

    /// The line that has to leave before `line` can be put, where its set is full.
    pub fn victim(&self, line: u32) -> Option<u32>
        ensures { result ≡ option_map (λ h. h.0) (evicted self.now.shape line (held_of self.now.lines)) }
    {
        match places::place_of(&self.shape, &self.entries, line) {
            Some(_) => None,
            None => places::oldest_of_set(&self.shape, &self.entries, line),
        }
    }

    /// Holds a line with this mode and these words, as the most recently used.
    pub fn put(&mut self, line: u32, mode: Mode, words: &[u32])
        requires room { Holds line self.old.lines ⊎ (length (set_lines self.old.shape line (held_of self.old.lines)) < self.old.shape.ways) }
        requires words { length words.now ≡ self.old.shape.line_words }
        ensures after { self.new ≡ record self.old { lines = put_first self.old.shape line mode words.now self.old.lines } }
        ensures held { held_of self.new.lines ≡ to_front line mode (held_of self.old.lines) }
        ensures words { (k : ℕ) → words_of k self.new.lines ≡ (if k == line then words.now else words_of k self.old.lines) }
        ensures ways { (k : ℕ) → way_of k self.new.lines ≡ (if k == line
            then Some (way_for self.old.shape line self.old.lines)
            else way_of k self.old.lines) }
    {
        let age = ages::take_age(&mut self.entries, self.next);
        let place = places::place_to_put(&self.shape, &self.entries, line);
        self.entries[place].fill(age, line, mode, words);
        self.next = age + 1;
    }

    /// Changes the mode of a line in its place.
    pub fn set_mode(&mut self, line: u32, mode: Mode)
        requires { Holds line self.old.lines }
        ensures after { self.new ≡ record self.old { lines = with_line_mode line mode self.old.lines } }
        ensures held { held_of self.new.lines ≡ with_mode line mode (held_of self.old.lines) }
        ensures words { (k : ℕ) → words_of k self.new.lines ≡ words_of k self.old.lines }
        ensures ways { (k : ℕ) → way_of k self.new.lines ≡ way_of k self.old.lines }
    {
        let place = places::held_place(&self.shape, &self.entries, line);
        self.entries[place].cached.mode = mode;
    }

    /// Lets a line go, with its words.
    pub fn drop_line(&mut self, line: u32)
        requires { Holds line self.old.lines }
        ensures after { self.new ≡ record self.old { lines = others line self.old.lines } }
        ensures held { held_of self.new.lines ≡ without line (held_of self.old.lines) }
        ensures words { (k : ℕ) → words_of k self.new.lines ≡ (if k == line then [] else words_of k self.old.lines) }
        ensures ways { (k : ℕ) → way_of k self.new.lines ≡ (if k == line then None else way_of k self.old.lines) }
    {
        let place = places::held_place(&self.shape, &self.entries, line);
        self.entries[place].held = false;
    }

    /// The word at an address.
    pub fn read_word(&self, address: u32) -> u32
        requires aligned { address % 4 ≡ 0 }
        requires held { Holds (line_of self.now.shape address) self.now.lines }
        ensures { result ≡ slice_index (words_of (line_of self.now.shape address) self.now.lines) (word_place self.now.shape address) }
    {
        let place = self.held_place(address::line_of(&self.shape, address));
        self.read_word_at(place, address)
    }

    /// The word at an address, whose line stands at this place.
    pub fn read_word_at(&self, place: usize, address: u32) -> u32
        requires aligned { address % 4 ≡ 0 }
        requires place { place_of (line_of self.now.shape address) self.now ≡ Some place }
        ensures { result ≡ slice_index (words_of (line_of self.now.shape address) self.now.lines) (word_place self.now.shape address) }
    {
        let word = address::word_of(&self.shape, address);
        self.entries[place].cached.words.get(word)
    }

    /// Writes the word at an address. The line keeps its mode and its place.
    pub fn write_word(&mut self, address: u32, word: u32)
        requires aligned { address % 4 ≡ 0 }
        requires held { Holds (line_of self.old.shape address) self.old.lines }
        ensures after { self.new ≡ record self.old {
          lines = with_word (line_of self.old.shape address) (word_place self.old.shape address) word self.old.lines;
        } }
        ensures held { held_of self.new.lines ≡ held_of self.old.lines }
        ensures words { (k : ℕ) → words_of k self.new.lines ≡ (if k == line_of self.old.shape address
            then slice_set (words_of (line_of self.old.shape address) self.old.lines) (word_place self.old.shape address) word
            else words_of k self.old.lines) }
        ensures ways { (k : ℕ) → way_of k self.new.lines ≡ way_of k self.old.lines }
    {
        let place = self.held_place(address::line_of(&self.shape, address));
        self.write_word_at(place, address, word);
    }

    /// Writes the word at an address, whose line stands at this place. The line keeps its mode and its place.
    pub fn write_word_at(&mut self, place: usize, address: u32, word: u32)
        requires aligned { address % 4 ≡ 0 }
        requires place { place_of (line_of self.old.shape address) self.old ≡ Some place }
        ensures after { self.new ≡ record self.old {
          lines = with_word (line_of self.old.shape address) (word_place self.old.shape address) word self.old.lines;
        } }
        ensures held { held_of self.new.lines ≡ held_of self.old.lines }
        ensures words { (k : ℕ) → words_of k self.new.lines ≡ (if k == line_of self.old.shape address
            then slice_set (words_of (line_of self.old.shape address) self.old.lines) (word_place self.old.shape address) word
            else words_of k self.old.lines) }
        ensures ways { (k : ℕ) → way_of k self.new.lines ≡ way_of k self.old.lines }
    {
        let at = address::word_of(&self.shape, address);
        self.entries[place].cached.words.set(at, word);
    }

    /// Copies the words of a line.
    pub fn copy_line(&self, line: u32, words: &mut LineWords)
        requires { Holds line self.now.lines }
        ensures { words.new.items ≡ words_of line self.now.lines }
    {
        let place = places::held_place(&self.shape, &self.entries, line);
        words.clear();
        let Ok(()) = words.try_extend_from_slice(self.entries[place].cached.words.as_slice()) else {
            unreachable!()
        };
    }
}
