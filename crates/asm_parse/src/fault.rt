//! What can be wrong with a source.

ghost use Rattle.std.specs.Prelude.{◌≡◌};
ghost use Rattle.asm_parse.specs.declared.fault.AsmFault.TheVariants.{NoMemory};

use std::alloc::{AllocError, AllocFailed};
use thiserror::Error;

/// What is wrong with a line of assembly. Columns are counted in bytes, from 1 on.
#[derive(Clone, Copy, Debug, PartialEq, Eq, Error)]
pub enum AsmCause {
    /// This byte outside the comment begins no token.
    #[error("character {0}")]
    Character(u32),
    /// No mnemonic and no directive stands at this column, where one must stand.
    #[error("word {0}")]
    Word(u32),
    /// The first token that doesn't fit, or the line's end.
    #[error("operand {0}")]
    Operand(u32),
    /// A number that is misspelt or out of its range.
    #[error("number {0}")]
    Number(u32),
    /// The text would have more words than the limit.
    #[error("text long")]
    TextLong,
    /// A name that was defined before.
    #[error("twice {0}")]
    Twice(u32),
    /// This address is named a second time.
    #[error("overlap 0x{0:08x}")]
    Overlap(u32),
    /// This address is past the greatest memory.
    #[error("range 0x{0:08x}")]
    Range(u32),
    /// A name that is defined nowhere.
    #[error("unknown {0}")]
    Unknown(u32),
    /// A jump or branch can't reach so far, or the distance is odd.
    #[error("reach {0}")]
    Reach(i64),
}

/// Why a source gives no image: the first fault of the first round over its lines, which reads them and defines names, or
/// where that has none, of the second round, which gives names their values. Lines are counted from 1.
#[derive(Clone, Copy, Debug, PartialEq, Eq, Error)]
pub enum AsmFault {
    /// What is wrong with the line of this number.
    #[error("line {0}: {1}")]
    At(u32, AsmCause),
    /// Memory ran out.
    #[error("no memory")]
    NoMemory,
}

impl From<AllocError> for AsmFault {
    ghost from_gives = { λ _ e. e ≡ NoMemory };

    fn from(_: AllocError) -> AsmFault {
        AsmFault::NoMemory
    }
}

impl<T: Drop> From<AllocFailed<T>> for AsmFault {
    ghost from_gives = { λ _ e. e ≡ NoMemory };

    fn from(_: AllocFailed<T>) -> AsmFault {
        AsmFault::NoMemory
    }
}
