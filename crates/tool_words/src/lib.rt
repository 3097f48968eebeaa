//! The words of a call, and what they ask for. The first word names a command of the table; clap reads the words behind it by
//! one simple command, and hands each value over as text. What a value may be is checked here.
#![tactic(auto)]

ghost use Rattle.tool_words.specs.Canonical.{AllowedAlwaysMean, CanonicalMeansTable};

mod asked;
mod read;
mod table;

pub use asked::Asked;
pub use read::asked_of;
pub use table::{Choice, Command, Place};

/// Canonical words mean what the table says, and with allowed values they always mean something.
pub fn canonical_laws()
    ensures table { CanonicalMeansTable }
    ensures allowed { AllowedAlwaysMean }
{}
