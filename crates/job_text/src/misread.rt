//! Why a line couldn't be read by itself.

ghost use Rattle.std.specs.Prelude.{◌≡◌};
ghost use Rattle.job_text.specs.declared.misread.Misread.TheVariants.{Cause, NoMemory};

use crate::job_fault::LineCause;
use std::alloc::{AllocError, AllocFailed};

/// Why a line couldn't be read by itself.
#[derive(Clone, Copy, Debug, PartialEq, Eq)]
pub(crate) enum Misread {
    Cause(LineCause),
    /// Memory ran out.
    NoMemory,
}

impl From<LineCause> for Misread {
    ghost from_gives = { λ why e. e ≡ Cause why };

    fn from(why: LineCause) -> Misread {
        Misread::Cause(why)
    }
}

impl From<AllocError> for Misread {
    ghost from_gives = { λ _ e. e ≡ NoMemory };

    fn from(_: AllocError) -> Misread {
        Misread::NoMemory
    }
}

impl<T: Drop> From<AllocFailed<T>> for Misread {
    ghost from_gives = { λ _ e. e ≡ NoMemory };

    fn from(_: AllocFailed<T>) -> Misread {
        Misread::NoMemory
    }
}
