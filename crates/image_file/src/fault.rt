//! Why bytes are no image.

ghost use Rattle.std.specs.Prelude.{◌≡◌};
ghost use Rattle.image_file.specs.declared.fault.ImageFault.TheVariants.{NoMemory};

use std::alloc::{AllocError, AllocFailed};
use thiserror::Error;

/// The first check of an image's bytes that fails, or want of memory. Places are counted from the first byte.
#[derive(Clone, Copy, Debug, PartialEq, Eq, Error)]
pub enum ImageFault {
    /// The bytes end too early: how many are needed for what comes next, and how many there are.
    #[error("short {0} {1}")]
    Short(u32, u32),
    /// Other first bytes than those of an image.
    #[error("magic")]
    Magic,
    /// Too many words of text, or a piece that has no bytes or too many: the number.
    #[error("limit {0}")]
    Limit(u32),
    /// A piece ends past the greatest memory: its address.
    #[error("range 0x{0:08x}")]
    Range(u32),
    /// A piece doesn't begin above the end of the one before it: the piece's number.
    #[error("order {0}")]
    Order(u32),
    /// Bytes stand after the last piece: the place of the first of them.
    #[error("extra {0}")]
    Extra(u32),
    /// Memory ran out.
    #[error("no memory")]
    NoMemory,
}

impl From<AllocError> for ImageFault {
    ghost from_gives = { λ _ e. e ≡ NoMemory };

    fn from(_: AllocError) -> ImageFault {
        ImageFault::NoMemory
    }
}

impl<T: Drop> From<AllocFailed<T>> for ImageFault {
    ghost from_gives = { λ _ e. e ≡ NoMemory };

    fn from(_: AllocFailed<T>) -> ImageFault {
        ImageFault::NoMemory
    }
}
