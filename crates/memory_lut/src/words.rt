//! The words of shared memory, lowest address first.
ghost use Rattle.std.specs.Prelude.{◌≡◌, ℕ, ◌+◌, ◌*◌, ◌%◌, ◌<◌, ◌≤◌, ◌++◌, take, drop, length, slice_index, IfOk};
ghost use Rattle.pmsi_model.specs.declared.limits.TheConstants.{MAX_LINE_WORDS};
ghost use Rattle.pmsi_model.specs.Words.{number_of};
ghost use Rattle.pmsi_model.specs.Parts.{word_at};

use pmsi_model::{LineWords, NoMemory};
use std::alloc::Global;
use std::marker::Model;

/// The word that four bytes spell, the lowest first.
fn word_from(bytes: &[u8]) -> u32
    requires { length bytes.now ≡ 4 }
    ensures { result ≡ number_of bytes.now }
{
    u32::from_le_bytes([bytes[0], bytes[1], bytes[2], bytes[3]])
}

#[derive(Drop)]
pub struct MemoryWords {
    items: Vec<u32>,
}

impl Model for MemoryWords {
    ghost use Rattle.std.specs.Prelude.{ℕ, List};

    ghost Value = { List ℕ };

    ghost view = { λ a. a.items.items };
}

impl MemoryWords {
    /// The words that bytes spell, the lowest byte first.
    pub fn from_bytes(alloc: Global, bytes: &[u8]) -> Result<MemoryWords, NoMemory>
        requires { length bytes.now % 4 ≡ 0 }
        ensures length { IfOk result (λ m. 4 * length m ≡ length bytes.now) }
        ensures words { IfOk result (λ m. (i : ℕ) → i < length m → slice_index m i ≡ word_at bytes.now i) }
    {
        let mut items = Vec::with_capacity(alloc, bytes.len() / 4)?;
        for i in 0..bytes.len() / 4 {
            let at = 4 * i;
            items.push_reserved(word_from(&bytes[at..at + 4]));
        }
        Ok(MemoryWords { items })
    }

    /// The word at a place, counted in words from 0.
    pub fn word(&self, place: usize) -> u32
        requires { place < length self.now }
        ensures { result ≡ slice_index self.now place }
    {
        self.items[place]
    }

    /// Copies the words of a line, of so many each.
    pub fn copy_line(&self, line: u32, count: usize, words: &mut LineWords)
        requires few { count ≤ MAX_LINE_WORDS }
        requires within { (line + 1) * count ≤ length self.now }
        ensures { words.new.items ≡ take count (drop (line * count) self.now) }
    {
        let start = line as usize * count;
        words.clear();
        let Ok(()) = words.try_extend_from_slice(&self.items[start..start + count]) else {
            unreachable!()
        };
    }

    /// The line gets these words.
    pub fn write_line(&mut self, line: u32, words: &[u32])
        requires few { length words.now ≤ MAX_LINE_WORDS }
        requires within { (line + 1) * length words.now ≤ length self.old }
        ensures { self.new ≡ take (line * length words.now) self.old ++ words.now ++ drop ((line + 1) * length words.now) self.old }
    {
        let start = line as usize * words.len();
        self.items[start..start + words.len()].copy_from_slice(words);
    }

    /// Equal words.
    pub fn copy(&self, alloc: Global) -> Result<MemoryWords, NoMemory>
        ensures { IfOk result (λ m. m ≡ self.now) }
    {
        Ok(MemoryWords {
            items: Vec::from_slice(alloc, self.items.as_slice())?,
        })
    }
}
