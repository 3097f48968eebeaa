//! What a call asks for.
use pmsi_model::Keep;

/// A command with its values. A file's name is the text of its word, which may be empty.
#[derive(Clone, Copy, Debug, PartialEq, Eq)]
pub enum Asked<'a> {
    /// Simulate the job of this file, and print its listing with what is kept.
    Run {
        keep: Keep,
        job: &'a str,
    },
    /// The same by so many threads, from 1 to `MAX_WORKERS`.
    Sim {
        workers: u32,
        keep: Keep,
        job: &'a str,
    },
    /// The same, but print the bus's actions alone.
    Trace(&'a str),
    /// Assemble the source of this file.
    Asm(&'a str),
    /// List the image of this file.
    Dis(&'a str),
    /// Read the image of this file, and write its bytes.
    Image(&'a str),
    /// Make a job from a seed, of so many cores and slots; print it, or the summary of its run.
    Gen {
        seed: u32,
        cores: u32,
        slots: u32,
        run: bool,
    },
    /// Run the script of a file on the job of another.
    Debug {
        job: &'a str,
        script: &'a str,
    },
}
