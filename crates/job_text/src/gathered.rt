//! What the lines so far say.

ghost use Rattle.std.specs.Prelude.{◌≡◌, ◌∷◌, ◌++◌, [], List, false, is_none, None, OnOk};
ghost use Rattle.job_text.specs.declared.saying.Saying.{Saying};
ghost use Rattle.job_text.specs.declared.saying.Saying.TheVariants.{Runs, Sets};
ghost use Rattle.job_text.specs.Faults.{number_of, program_of, value_of, was_said};
ghost use Rattle.job_text.specs.Gathering.{HasSaid};

use crate::job_fault::HeadWord;
use crate::plan::Program;
use crate::saying::Saying;
use std::alloc::{AllocError, Global};
use std::collections::BTreeMap;

/// What the lines so far say: the numbers of the heads by their places in the order, the cores in the order of their lines,
/// and the programs by their cores.
#[derive(Drop)]
pub(crate) struct Gathered {
    pub(crate) numbers: [Option<u64>; 9],
    pub(crate) cores: Vec<u32>,
    pub(crate) programs: BTreeMap<u32, Program>,
}

impl Gathered {
    pub(crate) fn new(alloc: Global) -> Gathered
        ensures { HasSaid result [] }
    {
        Gathered {
            numbers: [None; 9],
            cores: Vec::new(alloc),
            programs: BTreeMap::new(alloc),
        }
    }

    /// Whether something was said about the saying's head or core.
    pub(crate) fn was_said(&self, saying: &Saying) -> bool
        ensures { (said : List Saying) → HasSaid self.now said → result ≡ was_said saying.now said }
    {
        match saying {
            Saying::Sets(word, _) => self.numbers[word.place()].is_some(),
            Saying::Runs(core, _) => self.programs.contains_key(core),
        }
    }

    /// Adds what wasn't said yet.
    pub(crate) fn add(&mut self, saying: Saying) -> Result<(), AllocError>
        ensures { OnOk result ((said : List Saying) → HasSaid self.old said → was_said saying said ≡ false → HasSaid self.new (said ++ saying ∷ [])) }
    {
        match saying {
            Saying::Sets(word, number) => {
                self.add_number(word, number);
                Ok(())
            }
            Saying::Runs(core, program) => self.add_program(core, program),
        }
    }

    fn add_number(&mut self, word: HeadWord, number: u64)
        ensures { (said : List Saying) → HasSaid self.old said → number_of word said ≡ None → HasSaid self.new (said ++ Sets word number ∷ []) }
    {
        self.numbers[word.place()] = Some(number);
    }

    fn add_program(&mut self, core: u32, program: Program) -> Result<(), AllocError>
        ensures { OnOk result ((said : List Saying) → HasSaid self.old said → program_of core said ≡ None → HasSaid self.new (said ++ Runs core program ∷ [])) }
    {
        self.cores.push(core)?;
        match self.programs.insert(core, program) {
            Ok(_) => Ok(()),
            Err(_) => Err(AllocError),
        }
    }

    /// Whether no line gave the head.
    pub(crate) fn lacks(&self, word: HeadWord) -> bool
        ensures { (said : List Saying) → HasSaid self.now said → result ≡ is_none (number_of word said) }
    {
        self.numbers[word.place()].is_none()
    }

    /// Whether no line gave the core's program.
    pub(crate) fn has_no_program(&self, core: u32) -> bool
        ensures { (said : List Saying) → HasSaid self.now said → result ≡ is_none (program_of core said) }
    {
        !self.programs.contains_key(&core)
    }

    /// The number of a head, or 0.
    pub(crate) fn value(&self, word: HeadWord) -> u64
        ensures { (said : List Saying) → HasSaid self.now said → result ≡ value_of word said }
    {
        self.numbers[word.place()].unwrap_or(0)
    }
}
