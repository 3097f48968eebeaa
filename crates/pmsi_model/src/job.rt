//! What a job gives: the shape of the machine, the text of each core, and the bytes that memory starts with.
ghost use Rattle.std.specs.Prelude.{◌≡◌, ◌*◌, ◌/◌, ◌%◌, ◌<◌, ◌↔◌, IsTrue};

use crate::limits;
use crate::lists::{Bytes, WordLists, Words};
use std::marker::Model;

/// The shape of a machine and of its run. `line_words` is in words, `memory` in bytes.
#[derive(Clone, Copy, Debug, PartialEq, Eq)]
pub struct Geometry {
    pub cores: u32,
    pub quantum: u32,
    pub line_words: u32,
    pub sets: u32,
    pub ways: u32,
    pub memory: u32,
    pub slots: u32,
}

impl Geometry {
    ghost use Rattle.pmsi_model.specs.Geometry.{IsGeometry, line_bytes, line_of, set_of};

    /// Whether each number is within its limits, and the memory is whole lines.
    pub fn is_within_limits(&self) -> bool
        ensures { IsTrue result ↔ IsGeometry self.now }
    {
        let cores = 1 <= self.cores && self.cores <= limits::MAX_CORES;
        let quantum = 1 <= self.quantum && self.quantum <= limits::MAX_QUANTUM;
        let line = limits::MIN_LINE_WORDS <= self.line_words
            && self.line_words <= limits::MAX_LINE_WORDS
            && self.line_words.is_power_of_two();
        let sets = self.sets <= limits::MAX_SETS && self.sets.is_power_of_two();
        let ways = 1 <= self.ways && self.ways <= limits::MAX_WAYS;
        let memory = limits::MIN_MEMORY <= self.memory && self.memory <= limits::MAX_MEMORY;
        let slots = self.slots <= limits::MAX_SLOTS;
        cores
            && quantum
            && line
            && sets
            && ways
            && memory
            && slots
            && self.memory % (4 * self.line_words) == 0
    }

    /// The bytes of a line.
    pub fn line_bytes(&self) -> u32
        requires { IsGeometry self.now }
        ensures { result ≡ line_bytes self.now }
    {
        4 * self.line_words
    }

    /// The line that holds the byte at an address.
    pub fn line_of(&self, address: u32) -> u32
        requires { IsGeometry self.now }
        ensures { result ≡ line_of self.now address }
    {
        address / self.line_bytes()
    }

    /// The set in which a line is cached.
    pub fn set_of(&self, line: u32) -> u32
        requires { IsGeometry self.now }
        ensures { result ≡ set_of self.now line }
    {
        line % self.sets
    }
}

/// A job within the limits: a text per core, and as many start bytes as the memory has.
#[derive(Debug, Drop)]
pub struct Job {
    shape: Geometry,
    texts: WordLists,
    start: Bytes,
}

impl Model for Job {
    ghost use Rattle.pmsi_model.specs.Job.{JobValue, IsJob};

    ghost Value = { JobValue };

    ghost view = { λ a. record { shape = a.shape; texts = a.texts; start = a.start } };

    ghost invariant = { λ a. IsJob (record { shape = a.shape; texts = a.texts; start = a.start }) };
}

impl Job {
    ghost use Rattle.pmsi_model.specs.Job.{IsJob, text_of};

    /// A job: its shape, a text for each core, and the bytes that memory holds at the start.
    pub fn new(shape: Geometry, texts: WordLists, start: Bytes) -> Job
        requires { IsJob (record { shape = shape; texts = texts; start = start }) }
        ensures { result ≡ record { shape = shape; texts = texts; start = start } }
    {
        Job {
            shape,
            texts,
            start,
        }
    }

    /// The numbers of the job: cores, quantum, cache, memory, slots.
    pub fn shape(&self) -> Geometry
        ensures shape { result ≡ self.now.shape }
        ensures within { IsJob self.now }
    {
        self.shape
    }

    /// The text of a core, in words.
    pub fn text(&self, core: u32) -> &Words
        requires { core < self.now.shape.cores }
        ensures { result.now ≡ text_of self.now core }
    {
        &self.texts.as_slice()[core as usize]
    }

    /// The bytes of memory at the start.
    pub fn start(&self) -> &[u8]
        ensures { result.now ≡ self.now.start }
    {
        self.start.as_slice()
    }
}
