//! A core's text, whose words are decoded once.
ghost use Rattle.std.specs.Prelude.{◌≡◌, IfOk, IfSome, slice_get};
ghost use Rattle.pmsi_model.specs.Instruction.{HasRow, instr_of};

use pmsi_model::{Instr, NoMemory};
use rv_decode::decode;
use std::alloc::Global;
use std::marker::Model;

/// A word of a text, with the instruction that it stands for.
#[derive(Clone, Copy)]
pub struct Fetched {
    word: u32,
    instr: Option<Instr>,
}

impl Model for Fetched {
    ghost use Rattle.std.specs.Prelude.{◌≡◌, ℕ, ◌^◌, ◌<◌};
    ghost use Rattle.pmsi_model.specs.Instruction.{instr_of};
    ghost use Rattle.std.proofs.Common.{Option, sym, ap};
    ghost use Rattle.pmsi_model.specs.declared.instr.Instr.{Instr};

    ghost Value = { ℕ };

    ghost view = { λ a. a.word };

    ghost invariant = { λ a. (a.instr ≡ instr_of a.word) × (a.word < 2 ^ 32) };

    ghost inverse = { λ word. record { word = word; instr = instr_of word } };

    ghost inverse_ok = { λ a is. ap (λ (instr : Option Instr). record a { instr = instr }) (sym is.0) };
}

impl Fetched {
    /// The word, and what it decodes to.
    pub fn new(word: u32) -> Fetched
        ensures { result ≡ word }
    {
        Fetched {
            word,
            instr: decode(word),
        }
    }

    /// The word as it stands in the text.
    pub fn word(self) -> u32
        ensures { result ≡ self }
    {
        self.word
    }

    /// The instruction; none where the word has no row in the instruction table.
    pub fn instr(self) -> Option<Instr>
        ensures value { result ≡ instr_of self }
        ensures row { IfSome result (λ instr. HasRow instr) }
    {
        self.instr
    }
}

/// The words of a text, each decoded when the list is made.
#[derive(Drop)]
pub struct Program {
    items: Vec<Fetched>,
}

impl Model for Program {
    ghost use Rattle.std.specs.Prelude.{ℕ, List};

    ghost Value = { List ℕ };

    ghost view = { λ a. a.items.items };
}

impl Program {
    /// The words of a text, decoded.
    pub fn decoded(alloc: Global, words: &[u32]) -> Result<Program, NoMemory>
        ensures { IfOk result (λ program. program ≡ words.now) }
    {
        let mut items = Vec::with_capacity(alloc, words.len())?;
        for word in words {
            items.push_reserved(Fetched::new(*word));
        }
        Ok(Program { items })
    }

    /// An equal program, in memory of its own.
    pub fn copy(&self, alloc: Global) -> Result<Program, NoMemory>
        ensures { IfOk result (λ program. program ≡ self.now) }
    {
        Ok(Program {
            items: Vec::from_slice(alloc, self.items.as_slice())?,
        })
    }

    /// The word at a place, counted in words from 0, if the text has so many.
    pub fn fetch(&self, place: usize) -> Option<Fetched>
        ensures { result ≡ slice_get self.now place }
    {
        self.items.get(place).copied()
    }
}
