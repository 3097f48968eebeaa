//! Shared memory: the words, the owner of each line, and the posted requests.
ghost use Rattle.std.specs.Prelude.{◌≡◌, ℕ, ◌/◌, ◌%◌, ◌<◌, [], length, slice_index, true, Option, None, Some, IfOk};
ghost use Rattle.std.specs.Option.{option_map};
ghost use Rattle.pmsi_model.specs.Geometry.{IsGeometry};
ghost use Rattle.pmsi_model.specs.Machine.{Request, first_of, ahead, request_of, removed};
ghost use Rattle.pmsi_model.specs.Shared.{IsShared, CanPost, CanWriteBack, owner_in, line_in, is_ready, behind_in, with_request, filled, written_back};
ghost use Rattle.pmsi_model.specs.Parts.{word_at};

use crate::owners::Owners;
use crate::requests::Requests;
use crate::words::MemoryWords;
use pmsi_model::{Behind, Geometry, Kind, LineWords, NoMemory};
use std::alloc::Global;
use std::marker::Model;

/// Shared memory. A line is named by its number, an address counts bytes, and words have 32 bits. The words of an owned
/// line are stale.
#[derive(Drop)]
pub struct SharedMemory {
    shape: Geometry,
    requests: Requests,
    owners: Owners,
    words: MemoryWords,
}

impl Model for SharedMemory {
    ghost use Rattle.std.specs.Prelude.{◌≡◌};
    ghost use Rattle.pmsi_model.specs.Shared.{SharedValue, IsShared};

    ghost Value = { SharedValue };

    ghost view = { λ a. record { shape = a.shape; posted = a.requests.posted; owners = a.owners; words = a.words } };

    ghost invariant = { λ a.
        IsShared (record { shape = a.shape; posted = a.requests.posted; owners = a.owners; words = a.words }) × (a.requests.cores ≡ a.shape.cores) };
}

impl SharedMemory {
    /// Memory with these bytes. No line has an owner or a request. All room is taken here: no later call takes memory but
    /// `copy`.
    pub fn new(alloc: Global, shape: Geometry, start: &[u8]) -> Result<SharedMemory, NoMemory>
        requires shape { IsGeometry shape }
        requires start { length start.now ≡ shape.memory }
        ensures shape { IfOk result (λ m. m.shape ≡ shape) }
        ensures posted { IfOk result (λ m. m.posted ≡ []) }
        ensures owners { IfOk result (λ m. (line : ℕ) → owner_in m line ≡ None) }
        ensures words { IfOk result (λ m. (i : ℕ) → i < length m.words → slice_index m.words i ≡ word_at start.now i) }
        ensures shared { IfOk result (λ m. IsShared m) }
    {
        let lines = shape.memory / shape.line_bytes();
        Ok(SharedMemory {
            shape,
            requests: Requests::new(alloc, shape.cores)?,
            owners: Owners::none(alloc, lines as usize)?,
            words: MemoryWords::from_bytes(alloc, start)?,
        })
    }

    /// The job's shape.
    pub fn shape(&self) -> Geometry
        ensures shape { result ≡ self.now.shape }
        ensures shared { IsShared self.now }
    {
        self.shape
    }

    /// The core of the first request for a line.
    pub fn first(&self, line: u32) -> Option<u32>
        ensures { result ≡ first_of line self.now.posted }
    {
        self.requests.first(line)
    }

    /// The owner of a line.
    pub fn owner(&self, line: u32) -> Option<u32>
        ensures { result ≡ owner_in self.now line }
    {
        self.owners.of_line(line)
    }

    /// Whether a core has a request that can be served.
    pub fn ready(&self, core: u32) -> bool
        ensures { result ≡ is_ready self.now core }
    {
        match self.requests.of_core(core) {
            Some(entry) => {
                self.requests.is_first(core, entry.line) && self.owner(entry.line).is_none()
            }
            None => false,
        }
    }

    /// How many requests for the line of a core's request stand before it.
    pub fn ahead(&self, core: u32) -> Option<u32>
        ensures { result ≡ option_map (λ r. ahead core r.line self.now.posted) (request_of core self.now.posted) }
    {
        self.requests.ahead(core)
    }

    /// The word at an address.
    pub fn word(&self, address: u32) -> u32
        requires aligned { address % 4 ≡ 0 }
        requires within { address < self.now.shape.memory }
        ensures { result ≡ slice_index self.now.words (address / 4) }
    {
        self.words.word(address as usize / 4)
    }

    /// A core posts a request for a line.
    pub fn post(&mut self, core: u32, line: u32, kind: Kind)
        requires core { core < self.old.shape.cores }
        requires can { CanPost core line self.old }
        ensures after { self.new ≡ with_request core line kind self.old }
        ensures shared { IsShared self.new }
    {
        self.requests.push(core, line, kind);
    }

    /// Serves the request of a core: `words` becomes the line's words. The answer is what is left in the line's queue.
    pub fn fill(&mut self, core: u32, words: &mut LineWords) -> Behind
        requires core { core < self.old.shape.cores }
        requires ready { is_ready self.old core ≡ true }
        ensures after { self.new ≡ filled core self.old }
        ensures behind { (r : Request) → request_of core self.old.posted ≡ Some r → result ≡ behind_in r.line (removed core self.old.posted) }
        ensures words { (r : Request) → request_of core self.old.posted ≡ Some r → words.new.items ≡ line_in self.old r.line }
        ensures shared { IsShared self.new }
    {
        let Some(entry) = self.requests.of_core(core) else {
            unreachable!()
        };
        self.requests.remove(core);
        self.owners.serve(core, entry.line, entry.kind);
        self.words
            .copy_line(entry.line, self.shape.line_words as usize, words);
        self.requests.queued(entry.line)
    }

    /// The owner of a line writes it back, and nobody owns it any more.
    pub fn write_back(&mut self, core: u32, line: u32, words: &[u32])
        requires { CanWriteBack core line words.now self.old }
        ensures after { self.new ≡ written_back line words.now self.old }
        ensures shared { IsShared self.new }
    {
        self.owners.set(line, None);
        self.words.write_line(line, words);
    }

    /// An equal memory.
    pub fn copy(&self, alloc: Global) -> Result<SharedMemory, NoMemory>
        ensures { IfOk result (λ m. m ≡ self.now) }
    {
        Ok(SharedMemory {
            shape: self.shape,
            requests: self.requests.copy(alloc)?,
            owners: self.owners.copy(alloc)?,
            words: self.words.copy(alloc)?,
        })
    }
}
