//! What stops a command on its files.
ghost use Rattle.std.specs.Prelude.{◌≡◌};
ghost use Rattle.tool_files.specs.declared.refusal.Stop.TheVariants.{NoMemory};

use asm_parse::AsmCause;
use image_file::ImageFault;
use job_text::JobFault;
use pmsi_model::NoMemory;
use script_text::ScriptFault;
use std::alloc::AllocError;

/// Which file is refused.
#[derive(Clone, Copy, Debug, PartialEq, Eq)]
pub enum Place {
    /// The file that the words name first; also what the files of a job give together.
    Input,
    /// The file of a core's program.
    Core(u32),
    /// The file of a script.
    Script,
}

/// Why a file is refused.
#[derive(Clone, Copy, Debug, PartialEq, Eq)]
pub enum Detail {
    /// It has more than `MAX_FILE_BYTES` bytes.
    Large,
    /// A source that isn't UTF-8.
    NotText,
    /// It is no text of a job, or the images of its cores give no job.
    Job(JobFault),
    /// It is no source of an image: the first fault of its two rounds, with its line, from 1 on.
    Source(u32, AsmCause),
    /// It is no image: the first check that fails.
    Image(ImageFault),
    /// So many accesses are to be kept, which is more than `MAX_TOUCHES`.
    Touches(u64),
    /// It is no script for its job: the first fault.
    Script(ScriptFault),
}

/// Why a command came to no result.
#[derive(Clone, Copy, Debug, PartialEq, Eq)]
pub enum Stop {
    /// A file couldn't be opened or read.
    ReadFault,
    /// A file is refused.
    Refused(Place, Detail),
    /// Memory ran out.
    NoMemory,
}

impl From<AllocError> for Stop {
    ghost from_gives = { λ _ e. e ≡ NoMemory };

    fn from(_: AllocError) -> Stop {
        Stop::NoMemory
    }
}

impl From<NoMemory> for Stop {
    ghost from_gives = { λ _ e. e ≡ NoMemory };

    fn from(_: NoMemory) -> Stop {
        Stop::NoMemory
    }
}
