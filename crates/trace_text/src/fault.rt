//! Why bytes are no trace.

ghost use Rattle.std.specs.Prelude.{◌≡◌};
ghost use Rattle.trace_text.specs.declared.fault.TraceFault.TheVariants.{NoMemory};

use std::alloc::{AllocError, AllocFailed};
use thiserror::Error;

/// Why bytes are no trace. Lines have numbers from 1 on.
#[derive(Clone, Copy, Debug, PartialEq, Eq, Error)]
pub enum TraceFault {
    /// The line has none of the forms that may stand there, or has one slot too many.
    #[error("line {0}")]
    Line(u32),
    /// The line's slot isn't the next one, or its core doesn't own that slot.
    #[error("order {0}")]
    Order(u32),
    /// The bytes end before a line with the number of slots does, this number is another, or bytes follow.
    #[error("end")]
    End,
    /// Memory ran out.
    #[error("no memory")]
    NoMemory,
}

impl From<AllocError> for TraceFault {
    ghost from_gives = { λ _ e. e ≡ NoMemory };

    fn from(_: AllocError) -> TraceFault {
        TraceFault::NoMemory
    }
}

impl<T: Drop> From<AllocFailed<T>> for TraceFault {
    ghost from_gives = { λ _ e. e ≡ NoMemory };

    fn from(_: AllocFailed<T>) -> TraceFault {
        TraceFault::NoMemory
    }
}
