//! Why bytes are no script.

ghost use Rattle.std.specs.Prelude.{◌≡◌};
ghost use Rattle.script_text.specs.declared.fault.ScriptFault.TheVariants as fault;

use pmsi_model::NoMemory;
use std::alloc::{AllocError, AllocFailed};
use thiserror::Error;

/// What is wrong with a line of a script.
#[derive(Clone, Copy, Debug, PartialEq, Eq)]
pub enum ScriptCause {
    /// Its first field is no command.
    Word,
    /// Its command takes another number of fields.
    Count,
    /// A field is no number of at most 4,294,967,295.
    Number,
    /// The job has no such core, line or address, or a step has no slot or too many.
    Range,
    /// As many commands as a script may have stand before it.
    Many,
}

/// Why bytes are no script for a job. Lines have numbers from 1 on.
#[derive(Clone, Copy, Debug, PartialEq, Eq, Error)]
pub enum ScriptFault {
    /// The bytes aren't UTF-8.
    #[error("not text")]
    NotText,
    /// The first line with something wrong, and the first thing that is wrong with it.
    #[error("line {0}: {1:?}")]
    Line(u32, ScriptCause),
    /// Memory ran out.
    #[error("no memory")]
    NoMemory,
}

impl From<AllocError> for ScriptFault {
    ghost from_gives = { λ _ e. e ≡ fault.NoMemory };

    fn from(_: AllocError) -> ScriptFault {
        ScriptFault::NoMemory
    }
}

impl<T: Drop> From<AllocFailed<T>> for ScriptFault {
    ghost from_gives = { λ _ e. e ≡ fault.NoMemory };

    fn from(_: AllocFailed<T>) -> ScriptFault {
        ScriptFault::NoMemory
    }
}

impl From<NoMemory> for ScriptFault {
    ghost from_gives = { λ _ e. e ≡ fault.NoMemory };

    fn from(_: NoMemory) -> ScriptFault {
        ScriptFault::NoMemory
    }
}
