//! Why a text gives no plan, or a plan's images give no job.

ghost use Rattle.std.specs.Prelude.{◌≡◌, ◌<◌};
ghost use Rattle.job_text.specs.declared.job_fault.JobFault.TheVariants.{NoMemory};
ghost use Rattle.job_text.specs.Faults.{place_of};

use std::alloc::{AllocError, AllocFailed};
use std::fmt;
use thiserror::Error;

/// What a line of a job text gives, in the order in which it is looked for: the version, a number of the shape, or the
/// program of a core.
#[derive(Clone, Copy, Debug, PartialEq, Eq)]
pub enum HeadWord {
    Version,
    Cores,
    Quantum,
    Line,
    Sets,
    Ways,
    Memory,
    Slots,
    /// The core of this number.
    Core(u32),
}

impl HeadWord {
    /// The place in the order; cores come last.
    pub(crate) fn place(self) -> usize
        ensures place { result ≡ place_of self }
        ensures within { result < 9 }
    {
        match self {
            HeadWord::Version => 0,
            HeadWord::Cores => 1,
            HeadWord::Quantum => 2,
            HeadWord::Line => 3,
            HeadWord::Sets => 4,
            HeadWord::Ways => 5,
            HeadWord::Memory => 6,
            HeadWord::Slots => 7,
            HeadWord::Core(_) => 8,
        }
    }
}

impl fmt::Display for HeadWord {
    fn fmt<W: fmt::Write>(&self, f: &mut fmt::Formatter<W>) -> fmt::Result {
        match self {
            HeadWord::Version => f.write_str("version"),
            HeadWord::Cores => f.write_str("cores"),
            HeadWord::Quantum => f.write_str("quantum"),
            HeadWord::Line => f.write_str("line"),
            HeadWord::Sets => f.write_str("sets"),
            HeadWord::Ways => f.write_str("ways"),
            HeadWord::Memory => f.write_str("memory"),
            HeadWord::Slots => f.write_str("slots"),
            HeadWord::Core(core) => write!(f, "core {core}"),
        }
    }
}

/// What is wrong with a line by itself.
#[derive(Clone, Copy, Debug, PartialEq, Eq, Error)]
pub enum LineCause {
    /// The first line with fields isn't `pmsi 1`.
    #[error("version")]
    Version,
    /// A first field that begins no line, or a third field that is no kind of program.
    #[error("word")]
    Word,
    /// A wrong number of fields.
    #[error("count")]
    Count,
    /// A field that is no number, or no word, where one must stand.
    #[error("number")]
    Number,
}

/// Why a text gives no plan, or a plan's images give no job.
#[derive(Clone, Copy, Debug, PartialEq, Eq, Error)]
pub enum JobFault {
    /// The bytes aren't UTF-8.
    #[error("not text")]
    NotText,
    /// The line of this number, from 1 on.
    #[error("line {0}: {1}")]
    Line(u32, LineCause),
    /// Given a second time.
    #[error("twice {0}")]
    Twice(HeadWord),
    /// Not given.
    #[error("missing {0}")]
    Missing(HeadWord),
    /// A number that is out of its limits; for a core its own number where the job has no such core, or else how many words its
    /// text has.
    #[error("limit {0} {1}")]
    Limit(HeadWord, u64),
    /// A core's image has a byte at this address, which is past the memory.
    #[error("beyond {0} 0x{1:08x}")]
    Beyond(u32, u32),
    /// The images of two cores have different bytes at this address.
    #[error("overlap {0} {1} 0x{2:08x}")]
    Overlap(u32, u32, u32),
    /// Memory ran out.
    #[error("no memory")]
    NoMemory,
}

impl From<AllocError> for JobFault {
    ghost from_gives = { λ _ e. e ≡ NoMemory };

    fn from(_: AllocError) -> JobFault {
        JobFault::NoMemory
    }
}

impl<T: Drop> From<AllocFailed<T>> for JobFault {
    ghost from_gives = { λ _ e. e ≡ NoMemory };

    fn from(_: AllocFailed<T>) -> JobFault {
        JobFault::NoMemory
    }
}
