//! What a line says.

ghost use Rattle.std.specs.Prelude.{◌≡◌};
ghost use Rattle.job_text.specs.Faults.{head_of};

use crate::job_fault::HeadWord;
use crate::plan::Program;

/// What a line says: the number of a head, or the program of a core.
#[derive(Debug, Drop)]
pub(crate) enum Saying {
    Sets(HeadWord, u64),
    Runs(u32, Program),
}

impl Saying {
    /// What the line is about.
    pub(crate) fn head_word(&self) -> HeadWord
        ensures { result ≡ head_of self.now }
    {
        match self {
            Saying::Sets(word, _) => *word,
            Saying::Runs(core, _) => HeadWord::Core(*core),
        }
    }
}
